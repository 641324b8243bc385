//! The kinds and types of imports.

ghost use Rattle.std.specs.Prelude.{◌≡◌, length, map, nat_lt, if◌then◌else◌};
ghost use Rattle.wasm_core_types.specs.SubTypes.{sub_type};
ghost use Rattle.wasm_encoder_sections.specs.CoreItems.{entity_type, export_kind};
ghost use Rattle.wasm_smith_externs.specs.Candidates.{type_size};
ghost use Rattle.wasm_spec.specs.Types.{kind_of};

use crate::bounds::ImportBounds;
use std::alloc::{AllocError, Global};
use wasm_core_types::types::SubType;
use wasm_encoder_sections::entity_type::{EntityType, ExportKind, TagKind, TagType};
use wasm_smith_config::config::Config;
use wasm_smith_definitions::function_types::{function_size, function_types, tag_types};
use wasm_smith_definitions::globals::global_type;
use wasm_smith_definitions::index_spaces::IndexSpaces;
use wasm_smith_definitions::indexes::choose_index;
use wasm_smith_definitions::memories::memory_type;
use wasm_smith_definitions::tables::table_type;
use wasm_smith_types::value_types::Offers;
use wasm_smith_unstructured::unstructured::Unstructured;

/// Returns the size of the type of an import.
pub fn type_size(types: &[SubType], ty: &EntityType) -> u64
    ensures { result ≡ type_size (map sub_type types.now) (entity_type ty.now) }
{
    match ty {
        EntityType::Function(index) => function_size(types, *index) as u64,
        EntityType::Tag(ty) => function_size(types, ty.func_type_idx) as u64,
        EntityType::Table(_) | EntityType::Memory(_) | EntityType::Global(_) => 1,
    }
}

// Checks that there are some.
fn has_some(indexes: &[u32]) -> bool
    ensures { result ≡ nat_lt 0 (length indexes.now) }
{
    !indexes.is_empty()
}

// Checks that there is room for one more.
fn has_room(count: usize, most: u32) -> bool
    ensures { result ≡ nat_lt count most }
{
    count < most as usize
}

/// Returns the kind of an item of this type.
pub fn kind_of(ty: &EntityType) -> ExportKind
    ensures { export_kind result ≡ kind_of (entity_type ty.now) }
{
    match ty {
        EntityType::Function(_) => ExportKind::Func,
        EntityType::Table(_) => ExportKind::Table,
        EntityType::Memory(_) => ExportKind::Memory,
        EntityType::Global(_) => ExportKind::Global,
        EntityType::Tag(_) => ExportKind::Tag,
    }
}

// Returns 1 where there is one more.
fn one_if(more: bool) -> u64
    ensures { result ≡ (if more then 1 else 0) }
{
    u64::from(more)
}

/// The configuration and the types that imports are drawn from.
#[derive(Debug, Drop)]
pub struct Importer<'a> {
    config: &'a Config,
    bounds: ImportBounds,
    types: &'a [SubType],
    offers: Offers,
    // the indexes of the function types
    functions: Vec<u32>,
    // the indexes of the function types without results
    tags: Vec<u32>,
}

impl<'a> Importer<'a> {
    ghost use Rattle.std.specs.Prelude.{◌≡◌, ◌^◌, ◌≤◌, ℕ, List, IfOk, true, length, map};
    ghost use Rattle.wasm_core_types.specs.SubTypes.{sub_type};
    ghost use Rattle.wasm_encoder_sections.specs.CoreItems.{entity_type, export_kind};
    ghost use Rattle.wasm_spec.specs.Types as spec;
    ghost use Rattle.wasm_spec.specs.Types.{kind_of};
    ghost use Rattle.wasm_smith_definitions.specs.Offered.{HasByteLimits, HasFewTables};
    ghost use Rattle.wasm_smith_externs.specs.Added.{IsImporterFor};
    ghost use Rattle.wasm_smith_externs.specs.Bounds.{AreWithin};
    ghost use Rattle.wasm_smith_externs.specs.Candidates.{IsOfferedImport, can_import, can_import_some, has_type, type_size};

    /// Returns what imports are drawn from within these bounds, where there are these types.
    ///
    /// # Errors
    /// Where memory runs out.
    pub fn new(
        alloc: Global,
        config: &'a Config,
        bounds: ImportBounds,
        types: &'a [SubType],
    ) -> Result<Importer<'a>, AllocError>
        requires within { AreWithin config.now bounds }
        requires few { length types.now ≤ 2 ^ 31 }
        requires limits { HasByteLimits config.now }
        requires tables { HasFewTables config.now }
        ensures importer { IfOk result (IsImporterFor (map sub_type types.now)) }
        ensures config { IfOk result (λ it. it.config.now ≡ config.now) }
        ensures bounds { IfOk result (λ it. it.bounds ≡ bounds) }
    {
        let functions = function_types(alloc, types)?;
        let tags = tag_types(alloc, types)?;
        let offers = Offers::new(alloc, config)?;
        Ok(Importer {
            config,
            bounds,
            types,
            offers,
            functions,
            tags,
        })
    }

    /// Returns the configuration.
    pub fn config(&self) -> &Config
        ensures { result.now ≡ self.now.config.now }
    {
        self.config
    }

    // Checks that there is a type for an import of this kind.
    fn has_type(&self, kind: ExportKind) -> bool
        ensures { (types : List (spec.SubType ℕ)) → IsImporterFor types self.now → result ≡ has_type self.now.config.now types (export_kind kind) }
    {
        match kind {
            ExportKind::Func => has_some(&self.functions),
            ExportKind::Tag => self.config.exceptions_enabled && has_some(&self.tags),
            ExportKind::Global => true,
            ExportKind::Table => true,
            ExportKind::Memory => true,
        }
    }

    /// Checks that an item of this kind can be imported.
    pub fn can_import(&self, spaces: &IndexSpaces<'_>, kind: ExportKind) -> bool
        requires { IsImporterFor spaces.now.types self.now }
        ensures { result ≡ can_import self.now.config.now self.now.bounds spaces.now (export_kind kind) }
    {
        self.has_type(kind) && has_room(spaces.count_of(kind), self.bounds.most(kind))
    }

    /// Checks that an item of some kind can be imported.
    pub fn can_import_some(&self, spaces: &IndexSpaces<'_>) -> bool
        requires { IsImporterFor spaces.now.types self.now }
        ensures { result ≡ can_import_some self.now.config.now self.now.bounds spaces.now }
    {
        self.can_import(spaces, ExportKind::Func)
            || self.can_import(spaces, ExportKind::Tag)
            || self.can_import(spaces, ExportKind::Global)
            || self.can_import(spaces, ExportKind::Table)
            || self.can_import(spaces, ExportKind::Memory)
    }

    /// Draws the kind of an import.
    pub fn choose_kind(
        &self,
        unstructured: &mut Unstructured<'_>,
        spaces: &IndexSpaces<'_>,
    ) -> ExportKind
        requires importer { IsImporterFor spaces.now.types self.now }
        requires some { can_import_some self.now.config.now self.now.bounds spaces.now ≡ true }
        ensures can { can_import self.now.config.now self.now.bounds spaces.now (export_kind result) ≡ true }
        ensures taken { length unstructured.new ≤ length unstructured.old }
    {
        let function = self.can_import(spaces, ExportKind::Func);
        let tag = self.can_import(spaces, ExportKind::Tag);
        let global = self.can_import(spaces, ExportKind::Global);
        let table = self.can_import(spaces, ExportKind::Table);
        let memory = self.can_import(spaces, ExportKind::Memory);
        let tags = one_if(function);
        let globals = tags + one_if(tag);
        let tables = globals + one_if(global);
        let memories = tables + one_if(table);
        let end = memories + one_if(memory);
        let place = unstructured.int_in_range(0..=end - 1);
        if place < tags {
            return ExportKind::Func;
        }
        if place < globals {
            return ExportKind::Tag;
        }
        if place < tables {
            return ExportKind::Global;
        }
        if place < memories {
            return ExportKind::Table;
        }
        ExportKind::Memory
    }

    /// Draws the type of an import of this kind.
    pub fn draw_type(
        &self,
        unstructured: &mut Unstructured<'_>,
        spaces: &IndexSpaces<'_>,
        kind: ExportKind,
    ) -> EntityType
        requires importer { IsImporterFor spaces.now.types self.now }
        requires can { can_import self.now.config.now self.now.bounds spaces.now (export_kind kind) ≡ true }
        ensures kind { kind_of (entity_type result) ≡ export_kind kind }
        ensures offered { IsOfferedImport self.now.config.now spaces.now.types (entity_type result) }
        ensures taken { length unstructured.new ≤ length unstructured.old }
    {
        let type_count = self.types.len() as u32;
        match kind {
            ExportKind::Func => {
                EntityType::Function(choose_index(unstructured, &self.functions))
            }
            ExportKind::Tag => EntityType::Tag(TagType {
                kind: TagKind::Exception,
                func_type_idx: choose_index(unstructured, &self.tags),
            }),
            ExportKind::Global => EntityType::Global(global_type(
                unstructured,
                &self.offers,
                type_count,
            )),
            ExportKind::Table => EntityType::Table(table_type(
                unstructured,
                self.config,
                &self.offers,
                type_count,
            )),
            ExportKind::Memory => EntityType::Memory(memory_type(unstructured, self.config)),
        }
    }

    /// Returns the size of the type of an import.
    pub fn type_size(&self, ty: &EntityType) -> u64
        ensures { result ≡ type_size (map sub_type self.now.types.now) (entity_type ty.now) }
    {
        type_size(self.types, ty)
    }
}
