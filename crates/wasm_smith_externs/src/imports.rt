//! The step of imports.

ghost use Rattle.std.specs.Prelude.{◌≡◌, ◌≤◌, ◌<◌, ◌^◌, ◌⊎◌, IfOk, IfErr, IsTrue, false, true, length, map};
ghost use Rattle.wasm_smith_definitions.specs.Offered.{HasByteLimits, HasFewTables};
ghost use Rattle.wasm_smith_externs.specs.Added.{IsImporterFor};
ghost use Rattle.wasm_smith_externs.specs.Bounds.{AreWithin};
ghost use Rattle.wasm_smith_externs.specs.Candidates.{can_import_some};
ghost use Rattle.wasm_smith_externs.specs.Imports.{AreGrownImports, LackImports, asked_imports};
ghost use Rattle.wasm_smith_shapes.specs.Imports.{import_entry};
ghost use Rattle.wasm_smith_unstructured.specs.Draws.{IsDrawn};

use crate::bounds::ImportBounds;
use crate::entries::{entry, push_some};
use crate::importer::Importer;
use crate::names::DuplicateImportsBehavior;
use crate::progress::Progress;
use std::alloc::Global;
use wasm_smith_config::config::Config;
use wasm_smith_config::error::Error;
use wasm_smith_definitions::index_spaces::IndexSpaces;
use wasm_smith_shapes::imports::ImportEntry;
use wasm_smith_unstructured::unstructured::Unstructured;

// Returns true if another entry is drawn: where an item of some kind can be imported, as long as imports are owed, and then as long as there
// is room for one and the next bool is true.
#[tactic(auto, unfolding(wasm_smith_types::specs::Growing::grows_at, wasm_smith_types::specs::Growing::grows_from))]
fn has_another(
    unstructured: &mut Unstructured<'_>,
    importer: &Importer<'_>,
    spaces: &IndexSpaces<'_>,
    progress: &Progress,
) -> bool
    requires { IsImporterFor spaces.now.types importer.now }
    ensures left { IsTrue result → 0 < progress.now.left }
    ensures can { IsTrue result → can_import_some importer.now.config.now importer.now.bounds spaces.now ≡ true }
    ensures ended { result ≡ false → progress.now.count < importer.now.config.now.min_imports → (progress.now.left ≡ 0) ⊎ (can_import_some importer.now.config.now importer.now.bounds spaces.now ≡ false) }
    ensures first { progress.now.count ≡ 0 → progress.now.left ≡ importer.now.config.now.max_imports → IsDrawn (λ b. b) result unstructured.new (asked_imports importer.now.config.now importer.now.bounds spaces.now unstructured.old) }
    ensures taken { length unstructured.new ≤ length unstructured.old }
{
    if progress.left() == 0 {
        return false;
    }
    if !importer.can_import_some(spaces) {
        return false;
    }
    progress.count() < importer.config().min_imports || unstructured.bool()
}

/// Draws the imports of a module within these bounds, and adds their items to the index spaces.
///
/// # Errors
/// [`IncorrectFormat`](Error::IncorrectFormat) where imports are owed that can't be made, and else [`Memory`](Error::Memory). Some of the
/// source's bytes may be taken by then.
pub fn imports<'a>(
    alloc: Global,
    unstructured: &mut Unstructured<'_>,
    config: &Config,
    bounds: ImportBounds,
    duplicates: DuplicateImportsBehavior,
    spaces: &mut IndexSpaces<'a>,
) -> Result<Vec<ImportEntry>, Error>
    requires within { AreWithin config.now bounds }
    requires few { length spaces.old.types ≤ 2 ^ 31 }
    requires ordered { config.now.min_imports ≤ config.now.max_imports }
    requires limits { HasByteLimits config.now }
    requires tables { HasFewTables config.now }
    ensures grown { IfOk result (λ v. AreGrownImports config.now bounds duplicates spaces.old unstructured.old spaces.new unstructured.new (map import_entry v.items)) }
    ensures taken { length unstructured.new ≤ length unstructured.old }
    ensures refused { IfErr result (λ e. (e ≡ Error.Memory) ⊎ ((e ≡ Error.IncorrectFormat) × LackImports config.now bounds spaces.old spaces.new)) }
{
    let importer = Importer::new(alloc, config, bounds, spaces.types())?;
    let mut progress = Progress::new(alloc, config.max_imports, bounds.type_size, duplicates);
    let mut entries = Vec::new(alloc);
    'grow: while has_another(unstructured, &importer, spaces, &progress) {
        let next = entry(alloc, unstructured, &importer, spaces, &mut progress)?;
        push_some(&mut entries, next)?;
    }
    if progress.count() < config.min_imports {
        return Err(Error::IncorrectFormat);
    }
    Ok(entries)
}
