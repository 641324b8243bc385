//! The exports of a module.

ghost use Rattle.std.specs.Prelude.{◌≡◌, ◌⊎◌, ◌-◌, ◌<◌, ◌≤◌, ◌^◌, [], true, IfOk, IfErr, length};
ghost use Rattle.wasm_encoder_sections.specs.CoreItems.{export_kind};
ghost use Rattle.wasm_smith_definitions.specs.Items.{export};
ghost use Rattle.wasm_smith_definitions.specs.Kinds.{of_export};
ghost use Rattle.wasm_smith_definitions.specs.Steps.{IsGrown};
ghost use Rattle.wasm_smith_validity.specs.Spaces.{functions_of};
ghost use Rattle.wasm_smith_externs.specs.AllExports.{AreExports, AreTooLarge, LackExports};
ghost use Rattle.wasm_smith_externs.specs.Exports.{AreCandidates, HasShortName, IsAddedName, IsTaken, any_fits, wanted_exports};
ghost use Rattle.wasm_smith_externs.specs.Sizes.{exports_size};
ghost use Rattle.wasm_smith_externs.specs.Wanted.{AreTooFew};

use crate::all_exports::{MAX_NAME, all_exports};
use crate::candidates::Candidates;
use std::alloc::{AllocError, Global};
use wasm_smith_config::config::Config;
use wasm_smith_config::error::Error;
use wasm_smith_definitions::growing::grows_if;
use wasm_smith_definitions::index_spaces::IndexSpaces;
use wasm_smith_definitions::items::Export;
use wasm_smith_unstructured::names::UniqueNames;
use wasm_smith_unstructured::text::unique_string;
use wasm_smith_unstructured::unstructured::Unstructured;

// Draws an export of one of the candidates, with a name that is new.
fn draw_export(
    alloc: Global,
    unstructured: &mut Unstructured<'_>,
    spaces: &IndexSpaces<'_>,
    candidates: &mut Candidates,
    names: &mut UniqueNames,
) -> Result<Export, AllocError>
    requires candidates { AreCandidates spaces.now.types (functions_of spaces.now) spaces.now.tags candidates.old }
    requires some { any_fits spaces.now candidates.old.left ≡ true }
    ensures item { IfOk result (λ drawn. IsTaken spaces.now candidates.old candidates.new (export drawn).kind (export drawn).index) }
    ensures name { IfOk result (λ drawn. IsAddedName names.old names.new (export drawn).name) }
    ensures taken { length unstructured.new ≤ length unstructured.old }
{
    let (kind, index) = candidates.draw(unstructured, spaces);
    let name = unique_string(alloc, unstructured, MAX_NAME, names)?;
    Ok(Export { name, kind, index })
}

// Draws exports of items whose types fit into what is left beside imports of this size. `IncorrectFormat` where there are fewer than the minimum and no
// item fits any more.
fn draw_exports(
    alloc: Global,
    unstructured: &mut Unstructured<'_>,
    config: &Config,
    imports_size: usize,
    spaces: &mut IndexSpaces<'_>,
) -> Result<(), Error>
    requires first { spaces.old.exports ≡ [] }
    requires few_functions { length (functions_of spaces.old) < 2 ^ 32 }
    requires few_tags { length spaces.old.tags < 2 ^ 32 }
    ensures grown { IfOk result (λ _. IsGrown config.now (wanted_exports config.now imports_size) of_export (λ export. HasShortName export.name) spaces.old unstructured.old spaces.new unstructured.new spaces.new.exports) }
    ensures size { IfOk result (λ _. exports_size spaces.new ≤ config.now.max_type_size - imports_size) }
    ensures taken { length unstructured.new ≤ length unstructured.old }
    ensures refused { IfErr result (λ e. (e ≡ Error.Memory) ⊎ ((e ≡ Error.IncorrectFormat) × AreTooFew (wanted_exports config.now imports_size) spaces.new)) }
{
    let left = (config.max_type_size as usize).saturating_sub(imports_size);
    let mut candidates = Candidates::new(alloc, spaces, left)?;
    let mut names = UniqueNames::new(alloc);
    'grow: while grows_if(
        unstructured,
        candidates.any_fits(spaces),
        spaces.exports().len(),
        config.min_exports as usize,
        config.max_exports as usize,
    ) {
        let export = draw_export(alloc, unstructured, spaces, &mut candidates, &mut names)?;
        spaces.push_export(export)?;
    }
    if spaces.exports().len() < config.min_exports as usize {
        return Err(Error::IncorrectFormat);
    }
    Ok(())
}

/// Draws exports of items whose types fit into what is left: `max_type_size` bounds the sizes of the types of all imports and exports together, and
/// `imports_size` is that of the imports. Under `export_everything` exports everything instead, as [`all_exports`] does.
///
/// # Errors
/// `IncorrectFormat` where there are fewer exports than the minimum and no item fits any more, `TypeSize` where everything is to be exported and is too
/// large, and `Memory`. Some of the source's bytes may be taken by then, but none where the error is `TypeSize`.
pub fn exports(
    alloc: Global,
    unstructured: &mut Unstructured<'_>,
    config: &Config,
    imports_size: usize,
    spaces: &mut IndexSpaces<'_>,
) -> Result<(), Error>
    requires first { spaces.old.exports ≡ [] }
    requires few_functions { length (functions_of spaces.old) < 2 ^ 32 }
    requires few_tags { length spaces.old.tags < 2 ^ 32 }
    ensures made { IfOk result (λ _. AreExports config.now imports_size spaces.old unstructured.old spaces.new unstructured.new) }
    ensures taken { length unstructured.new ≤ length unstructured.old }
    ensures unread { IfErr result (λ e. e ≡ Error.TypeSize → unstructured.new ≡ unstructured.old) }
    ensures refused { IfErr result (λ e. (e ≡ Error.Memory) ⊎ (((e ≡ Error.IncorrectFormat) × LackExports config.now imports_size spaces.new) ⊎ ((e ≡ Error.TypeSize) × AreTooLarge config.now imports_size spaces.old))) }
{
    if config.export_everything {
        return all_exports(alloc, unstructured, config, imports_size, spaces);
    }
    draw_exports(alloc, unstructured, config, imports_size, spaces)
}
