//! The key by which imports are grouped.

/// The two names of an import: the number of that of its module, and its own.
#[derive(Clone, Copy, Debug, PartialEq, Eq, Hash)]
pub struct ImportKey<'a> {
    /// The number of its module's name.
    pub origin: usize,
    /// Its name there.
    pub name: &'a str,
}
