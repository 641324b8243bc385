//! Shapes, as they are asked for.

use crate::imports::ImportEntry;
use std::marker::Model;
use wasm_core_types::types::SubType;
use wasm_encoder_sections::entity_type::EntityType;

/// The use of a shape.
#[derive(Clone, Copy, Debug, PartialEq, Eq)]
pub enum ShapeUse {
    /// A module has its types, imports and exports.
    Module,
    /// A module has some of its imports.
    Imports,
    /// A module has its exports.
    Exports,
}

/// An export of a shape.
#[derive(Debug, Drop)]
pub struct ShapeExport {
    /// Its name.
    pub name: String,
    /// The type of the exported item. The module defines an item of this type for it.
    pub ty: EntityType,
}

/// Types, imports and exports that a module is asked to have. References to types are indexes among the types of its groups. Contracts see it as plain lists.
#[derive(Debug, Drop)]
pub struct Shape {
    /// Its recursive groups. A group of one type is written as that type alone.
    pub groups: Vec<Vec<SubType>>,
    /// The entries of its imports, which may be empty.
    pub imports: Vec<ImportEntry>,
    /// Its exports.
    pub exports: Vec<ShapeExport>,
}

impl Model for Shape {
    ghost use Rattle.std.specs.Prelude.{map};
    ghost use Rattle.wasm_smith_shapes.specs.Imports.{import_entry};
    ghost use Rattle.wasm_smith_shapes.specs.Shapes.{ShapeValue, group_of, named_item};

    ghost Value = { ShapeValue };

    ghost view = { λ it. record {
      groups = map group_of it.groups.items;
      imports = map import_entry it.imports.items;
      exports = map named_item it.exports.items;
    } };
}
