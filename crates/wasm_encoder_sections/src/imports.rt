//! Imports, as they are handed in.

use crate::entity_type::EntityType;

/// One import.
#[derive(Clone, Copy, Debug)]
pub struct Import<'a> {
    /// The name of the module that it is from.
    pub module: &'a str,
    /// Its own name.
    pub name: &'a str,
    /// What it is.
    pub ty: EntityType,
}

/// One of several imports from a module.
#[derive(Clone, Copy, Debug)]
pub struct ImportCompact<'a> {
    /// Its own name.
    pub name: &'a str,
    /// What it is.
    pub ty: EntityType,
}

/// An import, or several that share the name of their module. The latter are a proposal's.
#[derive(Clone, Copy, Debug)]
pub enum Imports<'a> {
    /// One import.
    Single(Import<'a>),
    /// Imports from one module.
    Compact1 {
        /// The name of the module.
        module: &'a str,
        /// The imports.
        items: &'a [ImportCompact<'a>],
    },
    /// Imports from one module that are all of one type.
    Compact2 {
        /// The name of the module.
        module: &'a str,
        /// What they are.
        ty: EntityType,
        /// Their own names.
        names: &'a [&'a str],
    },
}
