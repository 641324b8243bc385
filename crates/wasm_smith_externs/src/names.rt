//! The names of imports.

ghost use Rattle.std.specs.Prelude.{◌≡◌, ◌≤◌, ℕ, List, IfOk, length, true, false};
ghost use Rattle.std.specs.String.{string_bytes};
ghost use Rattle.wasm_smith_types.specs.Growing.{Draws};
ghost use Rattle.wasm_smith_unstructured.specs.Draws.{text_at};
ghost use Rattle.wasm_smith_externs.specs.Names.{is_used};

use std::alloc::{AllocError, Global};
use std::collections::BTreeMap;
use wasm_smith_unstructured::names::UniqueNames;
use wasm_smith_unstructured::text::{limited_str, unique_string};
use wasm_smith_unstructured::unstructured::Unstructured;

// The most bytes of a name that is drawn.
const MAX_NAME: usize = 1000;

/// Allows or forbids two imports with the same module name and the same name.
#[derive(Clone, Copy, Debug, PartialEq, Eq)]
pub enum DuplicateImportsBehavior {
    /// They may.
    Allowed,
    /// No two have the same two names.
    Disallowed,
}

/// Draws a name.
///
/// # Errors
/// Where memory runs out. Some of the source's bytes may be taken by then.
pub fn draw_name(alloc: Global, unstructured: &mut Unstructured<'_>) -> Result<String, AllocError>
    ensures drawn { Draws string_bytes unstructured.new result (text_at 1000 unstructured.old) }
    ensures short { IfOk result (λ name. length (string_bytes name) ≤ 1000) }
    ensures taken { length unstructured.new ≤ length unstructured.old }
{
    String::from_str(alloc, limited_str(unstructured, MAX_NAME))
}

// Draws a name that no import from this module has, and adds it to the names of that module.
fn draw_unique(
    alloc: Global,
    unstructured: &mut Unstructured<'_>,
    used: &mut BTreeMap<String, UniqueNames>,
    origin: &str,
) -> Result<String, AllocError>
    ensures new { IfOk result (λ name. is_used used.old origin.now (string_bytes name) ≡ false) }
    ensures used { IfOk result (λ name. is_used used.new origin.now (string_bytes name) ≡ true) }
    ensures kept { IfOk result (λ name. (o n : List ℕ) → is_used used.old o n ≡ true → is_used used.new o n ≡ true) }
    ensures short { IfOk result (λ name. length (string_bytes name) ≤ 1020) }
    ensures taken { length unstructured.new ≤ length unstructured.old }
{
    let names = used
        .entry(String::from_str(alloc, origin)?)?
        .or_insert(UniqueNames::new(alloc));
    let name = unique_string(alloc, unstructured, MAX_NAME, names)?;
    Ok(name)
}

/// The names of the imports that were drawn, where no two may have the same two names.
#[derive(Debug, Drop)]
pub struct ImportNames {
    duplicates: DuplicateImportsBehavior,
    // by the name of the module; nothing is kept where two may have the same two names
    used: BTreeMap<String, UniqueNames>,
}

impl ImportNames {
    ghost use Rattle.std.specs.Prelude.{◌≡◌, ◌≤◌, IfOk, length};
    ghost use Rattle.std.specs.String.{string_bytes};
    ghost use Rattle.wasm_smith_externs.specs.Names.{IsDrawnName};
    ghost use Rattle.wasm_smith_externs.specs.declared.names.DuplicateImportsBehavior.TheVariants.{Allowed};

    /// Returns no names.
    pub fn new(alloc: Global, duplicates: DuplicateImportsBehavior) -> ImportNames
        ensures { result.duplicates ≡ duplicates }
    {
        ImportNames {
            duplicates,
            used: BTreeMap::new(alloc),
        }
    }

    /// Draws the name of an import from the module of this name.
    ///
    /// # Errors
    /// Where memory runs out. Some of the source's bytes may be taken by then.
    pub fn draw(
        &mut self,
        alloc: Global,
        unstructured: &mut Unstructured<'_>,
        origin: &str,
    ) -> Result<String, AllocError>
        ensures drawn { IfOk result (λ name. IsDrawnName self.old self.new origin.now (string_bytes name)) }
        ensures short { IfOk result (λ name. length (string_bytes name) ≤ 1020) }
        ensures plain { IfOk result (λ name. self.old.duplicates ≡ Allowed → length (string_bytes name) ≤ 1000) }
        ensures taken { length unstructured.new ≤ length unstructured.old }
    {
        match self.duplicates {
            DuplicateImportsBehavior::Allowed => Ok(draw_name(alloc, unstructured)?),
            DuplicateImportsBehavior::Disallowed => Ok(draw_unique(
                alloc,
                unstructured,
                &mut self.used,
                origin,
            )?),
        }
    }
}
