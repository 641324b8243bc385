//! Custom sections.

/// A custom section, and its place among the other sections.
#[derive(Debug, Drop)]
pub struct CustomSection {
    /// The number of the section that it comes before, from types (0) to data (12) in the order of the format, also where the module has none of this kind. At 13
    /// it comes behind them all.
    pub place: u32,
    /// Its name.
    pub name: String,
    /// Its contents.
    pub data: Vec<u8>,
}
