//! The imports of a made module (Core Specification 3.0, Structure, Modules, "Imports"), and the two forms of a proposal in which several share the name of
//! their module.

use wasm_encoder_sections::entity_type::EntityType;

/// One of several imports from a module.
#[derive(Debug, Drop)]
pub struct ImportItem {
    /// Its name.
    pub name: String,
    /// Its type.
    pub ty: EntityType,
}

/// An entry of the import section.
#[derive(Debug, Drop)]
pub enum ImportEntry {
    /// One import.
    Single {
        /// The name of the module that it is from.
        module: String,
        /// Its own name.
        name: String,
        /// Its type.
        ty: EntityType,
    },
    /// Imports from one module.
    Compact1 {
        /// The name of the module.
        module: String,
        /// The imports.
        items: Vec<ImportItem>,
    },
    /// Imports of one type from one module.
    Compact2 {
        /// The name of the module.
        module: String,
        /// Their type.
        ty: EntityType,
        /// Their names.
        names: Vec<String>,
    },
}
