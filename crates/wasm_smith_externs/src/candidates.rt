//! Items that can still be exported.

ghost use Rattle.std.specs.Prelude.{◌≡◌, ◌-◌, ◌<◌, ◌≤◌, ◌^◌, ◌&&◌, List, ℕ, true, IfOk, length, nat_lt};
ghost use Rattle.wasm_encoder_sections.specs.CoreItems.{export_kind};
ghost use Rattle.wasm_spec.specs.Types.{SubType as SpecSubType};
ghost use Rattle.wasm_smith_validity.specs.Spaces.{functions_of};
ghost use Rattle.wasm_smith_externs.specs.Exports.{AreCandidates, IsExportable, IsTaken, any_fits, kind_fits};
ghost use Rattle.wasm_smith_externs.specs.Fitting.{sized};

use crate::fitting::{Fitting, SizedItem};
use std::alloc::{AllocError, Global};
use wasm_encoder_sections::entity_type::ExportKind;
use wasm_smith_definitions::function_types::function_size;
use wasm_smith_definitions::index_spaces::IndexSpaces;
use wasm_smith_unstructured::unstructured::Unstructured;

/// The items that may still be exported: the functions and tags whose types fit into what is left, and each table, memory and global where something is left.
#[derive(Debug, Drop)]
pub struct Candidates {
    functions: Fitting,
    tags: Fitting,
    left: usize,
}

// Returns the functions with the sizes of their types.
fn sized_functions(alloc: Global, spaces: &IndexSpaces<'_>) -> Result<Fitting, AllocError>
    requires few { length (functions_of spaces.now) < 2 ^ 32 }
    ensures { IfOk result (λ items. items ≡ sized spaces.now.types 0 (functions_of spaces.now)) }
{
    let mut items = Fitting::new(alloc);
    let types = spaces.types();
    for index in 0..spaces.count_of(ExportKind::Func) as u32 {
        if let Some(ty) = spaces.function(index) {
            let size = function_size(types, ty);
            items.push(SizedItem { index, size })?;
        }
    }
    Ok(items)
}

// Returns the tags with the sizes of their types.
fn sized_tags(alloc: Global, spaces: &IndexSpaces<'_>) -> Result<Fitting, AllocError>
    requires few { length spaces.now.tags < 2 ^ 32 }
    ensures { IfOk result (λ items. items ≡ sized spaces.now.types 0 spaces.now.tags) }
{
    let mut items = Fitting::new(alloc);
    let types = spaces.types();
    for index in 0..spaces.count_of(ExportKind::Tag) as u32 {
        if let Some(ty) = spaces.tag(index) {
            let size = function_size(types, ty);
            items.push(SizedItem { index, size })?;
        }
    }
    Ok(items)
}

// Returns true if there is one of `count` items of size 1, and it fits into what is left.
fn one_fits(left: usize, count: usize) -> bool
    ensures { result ≡ (nat_lt 0 left && nat_lt 0 count) }
{
    left > 0 && count > 0
}

// Draws one of `count` items of size 1.
fn draw_one(unstructured: &mut Unstructured<'_>, count: usize) -> SizedItem
    requires { 0 < count }
    ensures there { result.index < count }
    ensures size { result.size ≡ 1 }
    ensures taken { length unstructured.new ≤ length unstructured.old }
{
    let last = (count - 1).min(u32::MAX as usize) as u64;
    let index = unstructured.int_in_range(0..=last) as u32;
    SizedItem { index, size: 1 }
}

impl Candidates {
    /// Returns what may be exported where the sizes of the types may come to `left`.
    ///
    /// # Errors
    /// Where memory runs out.
    pub fn new(
        alloc: Global,
        spaces: &IndexSpaces<'_>,
        left: usize,
    ) -> Result<Candidates, AllocError>
        requires few_functions { length (functions_of spaces.now) < 2 ^ 32 }
        requires few_tags { length spaces.now.tags < 2 ^ 32 }
        ensures candidates { IfOk result (λ candidates. AreCandidates spaces.now.types (functions_of spaces.now) spaces.now.tags candidates) }
        ensures left { IfOk result (λ candidates. candidates.left ≡ left) }
    {
        let mut functions = sized_functions(alloc, spaces)?;
        functions.keep(left);
        let mut tags = sized_tags(alloc, spaces)?;
        tags.keep(left);
        Ok(Candidates {
            functions,
            tags,
            left,
        })
    }

    // Returns true if an item of a kind fits.
    fn fits(&self, spaces: &IndexSpaces<'_>, kind: ExportKind) -> bool
        requires { AreCandidates spaces.now.types (functions_of spaces.now) spaces.now.tags self.now }
        ensures { result ≡ kind_fits spaces.now self.now.left (export_kind kind) }
    {
        match kind {
            ExportKind::Func => !self.functions.is_empty(),
            ExportKind::Table => one_fits(self.left, spaces.count_of(ExportKind::Table)),
            ExportKind::Memory => one_fits(self.left, spaces.count_of(ExportKind::Memory)),
            ExportKind::Global => one_fits(self.left, spaces.count_of(ExportKind::Global)),
            ExportKind::Tag => !self.tags.is_empty(),
        }
    }

    /// Returns true if an item fits.
    pub fn any_fits(&self, spaces: &IndexSpaces<'_>) -> bool
        requires { AreCandidates spaces.now.types (functions_of spaces.now) spaces.now.tags self.now }
        ensures { result ≡ any_fits spaces.now self.now.left }
    {
        self.fits(spaces, ExportKind::Func)
            || self.fits(spaces, ExportKind::Table)
            || self.fits(spaces, ExportKind::Memory)
            || self.fits(spaces, ExportKind::Global)
            || self.fits(spaces, ExportKind::Tag)
    }

    // Draws one of the kinds that have an item which fits.
    fn draw_kind(&self, unstructured: &mut Unstructured<'_>, spaces: &IndexSpaces<'_>) -> ExportKind
        requires candidates { AreCandidates spaces.now.types (functions_of spaces.now) spaces.now.tags self.now }
        requires some { any_fits spaces.now self.now.left ≡ true }
        ensures fits { kind_fits spaces.now self.now.left (export_kind result) ≡ true }
        ensures taken { length unstructured.new ≤ length unstructured.old }
    {
        let functions = u64::from(self.fits(spaces, ExportKind::Func));
        let tables = functions + u64::from(self.fits(spaces, ExportKind::Table));
        let memories = tables + u64::from(self.fits(spaces, ExportKind::Memory));
        let globals = memories + u64::from(self.fits(spaces, ExportKind::Global));
        let tags = globals + u64::from(self.fits(spaces, ExportKind::Tag));
        let place = unstructured.int_in_range(0..=tags - 1);
        if place < functions {
            ExportKind::Func
        } else if place < tables {
            ExportKind::Table
        } else if place < memories {
            ExportKind::Memory
        } else if place < globals {
            ExportKind::Global
        } else {
            ExportKind::Tag
        }
    }

    // Draws one of the items of a kind that fit.
    fn draw_of_kind(
        &self,
        unstructured: &mut Unstructured<'_>,
        spaces: &IndexSpaces<'_>,
        kind: ExportKind,
    ) -> SizedItem
        requires candidates { AreCandidates spaces.now.types (functions_of spaces.now) spaces.now.tags self.now }
        requires some { kind_fits spaces.now self.now.left (export_kind kind) ≡ true }
        ensures exportable { IsExportable spaces.now self.now.left (export_kind kind) result.index result.size }
        ensures taken { length unstructured.new ≤ length unstructured.old }
    {
        match kind {
            ExportKind::Func => *unstructured.choose(self.functions.items()).unwrap(),
            ExportKind::Table => draw_one(unstructured, spaces.count_of(ExportKind::Table)),
            ExportKind::Memory => draw_one(unstructured, spaces.count_of(ExportKind::Memory)),
            ExportKind::Global => draw_one(unstructured, spaces.count_of(ExportKind::Global)),
            ExportKind::Tag => *unstructured.choose(self.tags.items()).unwrap(),
        }
    }

    /// Draws the kind and the index of an item that fits, and takes the size of its type from what is left.
    pub fn draw(
        &mut self,
        unstructured: &mut Unstructured<'_>,
        spaces: &IndexSpaces<'_>,
    ) -> (ExportKind, u32)
        requires candidates { AreCandidates spaces.now.types (functions_of spaces.now) spaces.now.tags self.old }
        requires some { any_fits spaces.now self.old.left ≡ true }
        ensures drawn { IsTaken spaces.now self.old self.new (export_kind result.0) result.1 }
        ensures taken { length unstructured.new ≤ length unstructured.old }
    {
        let kind = self.draw_kind(unstructured, spaces);
        let item = self.draw_of_kind(unstructured, spaces, kind);
        self.take(item.size);
        (kind, item.index)
    }

    // Takes the size of a type from what is left.
    fn take(&mut self, size: usize)
        requires { size ≤ self.old.left }
        ensures left { self.new.left ≡ self.old.left - size }
        ensures candidates { (types : List (SpecSubType ℕ)) (functions tags : List ℕ) → AreCandidates types functions tags self.old → AreCandidates types functions tags self.new }
    {
        self.left -= size;
        self.functions.keep(self.left);
        self.tags.keep(self.left);
    }
}
