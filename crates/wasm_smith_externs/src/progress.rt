//! How far the step of imports has come.

ghost use Rattle.std.specs.Prelude.{◌+◌, ◌<◌, ◌^◌};

use crate::names::{DuplicateImportsBehavior, ImportNames};
use std::alloc::{AllocError, Global};
use wasm_encoder_sections::entity_type::EntityType;
use wasm_smith_definitions::index_spaces::IndexSpaces;
use wasm_smith_unstructured::unstructured::Unstructured;

/// How far the step of imports has come.
#[derive(Debug, Drop)]
pub struct Progress {
    // the number of imports
    count: u32,
    // the most imports that may still come
    left: u32,
    // what is left of the size that all types may have together
    size_left: u32,
    names: ImportNames,
    ghost few: { count + left < 2 ^ 32 },
}

impl Progress {
    ghost use Rattle.std.specs.Prelude.{◌≡◌, ◌≤◌, ◌<◌, ◌^◌, IfOk, IsTrue, OnOk, false, length};
    ghost use Rattle.std.specs.String.{string_bytes};
    ghost use Rattle.wasm_encoder_sections.specs.CoreItems.{entity_type};
    ghost use Rattle.wasm_smith_externs.specs.Added.{IsAdded, IsAsFar, IsLast};
    ghost use Rattle.wasm_smith_externs.specs.Candidates.{type_size};
    ghost use Rattle.wasm_smith_externs.specs.Names.{IsDrawnName};
    ghost use Rattle.wasm_smith_externs.specs.declared.names.DuplicateImportsBehavior.TheVariants.{Allowed};

    /// Returns the progress where no import is made, there may be `left` imports, and their types may come to `size_left`.
    pub fn new(
        alloc: Global,
        left: u32,
        size_left: u32,
        duplicates: DuplicateImportsBehavior,
    ) -> Progress
        ensures count { result.count ≡ 0 }
        ensures left { result.left ≡ left }
        ensures size_left { result.size_left ≡ size_left }
        ensures duplicates { result.names.duplicates ≡ duplicates }
    {
        Progress {
            count: 0,
            left,
            size_left,
            names: ImportNames::new(alloc, duplicates),
        }
    }

    /// Draws the name of an import from the module of this name.
    ///
    /// # Errors
    /// Where memory runs out. Some of the source's bytes may be taken by then.
    pub fn draw_name(
        &mut self,
        alloc: Global,
        unstructured: &mut Unstructured<'_>,
        origin: &str,
    ) -> Result<String, AllocError>
        ensures drawn { IfOk result (λ name. IsDrawnName self.old.names self.new.names origin.now (string_bytes name)) }
        ensures short { IfOk result (λ name. length (string_bytes name) ≤ 1020) }
        ensures plain { IfOk result (λ name. self.old.names.duplicates ≡ Allowed → length (string_bytes name) ≤ 1000) }
        ensures taken { length unstructured.new ≤ length unstructured.old }
        ensures same { OnOk result (IsAsFar self.old self.new) }
    {
        let name = self.names.draw(alloc, unstructured, origin)?;
        Ok(name)
    }

    /// Adds an item of this type, whose size is given, to the imported ones. Returns false where that is larger than what is left: then no
    /// import comes any more.
    ///
    /// # Errors
    /// Where memory runs out.
    pub fn add(
        &mut self,
        spaces: &mut IndexSpaces<'_>,
        ty: &EntityType,
        size: u64,
    ) -> Result<bool, AllocError>
        requires left { 0 < self.old.left }
        requires size { size ≡ type_size spaces.old.types (entity_type ty.now) }
        ensures added { IfOk result (λ added. IsTrue added → IsAdded spaces.old spaces.new self.old self.new (entity_type ty.now)) }
        ensures last { IfOk result (λ added. added ≡ false → IsLast spaces.old spaces.new self.old self.new (entity_type ty.now)) }
    {
        if size > u64::from(self.size_left) {
            self.left = 0;
            return Ok(false);
        }
        spaces.push_import(*ty)?;
        self.left -= 1;
        self.count += 1;
        self.size_left -= size as u32;
        Ok(true)
    }

    /// Returns the number of imports.
    pub fn count(&self) -> u32
        ensures { result ≡ self.now.count }
    {
        self.count
    }

    /// Returns the most imports that may still come.
    pub fn left(&self) -> u32
        ensures { result ≡ self.now.left }
    {
        self.left
    }
}
