//! The tags of a module.

ghost use Rattle.std.specs.Prelude.{◌≡◌, ◌⊎◌, ◌<◌, ◌≤◌, ◌^◌, true, IfOk, IfErr, length};
ghost use Rattle.std.specs.List.{AllByRecursion};
ghost use Rattle.wasm_spec.specs.Features.{Features};
ghost use Rattle.wasm_smith_config.specs.Config.{AreFeaturesOf};
ghost use Rattle.wasm_smith_config.specs.declared.config.Config as configs;
ghost use Rattle.wasm_smith_definitions.specs.Kinds.{AnyBound};
ghost use Rattle.wasm_smith_definitions.specs.Steps.{IsGrown, IsStep};
ghost use Rattle.wasm_smith_validity.specs.Rules.{keeps_tag};
ghost use Rattle.wasm_smith_externs.specs.Wanted.{AreTooFew, of_tag, wanted_tags};

use std::alloc::{AllocError, Global};
use wasm_encoder_sections::entity_type::ExportKind;
use wasm_smith_config::config::Config;
use wasm_smith_config::error::Error;
use wasm_smith_definitions::function_types::tag_types;
use wasm_smith_definitions::growing::grows_if;
use wasm_smith_definitions::index_spaces::IndexSpaces;
use wasm_smith_definitions::indexes::{choose_index, push_index};
use wasm_smith_unstructured::unstructured::Unstructured;

/// Draws tags after the imported ones, each of one of the function types without results. Where there are none, and without exceptions, nothing is drawn.
///
/// # Errors
/// `IncorrectFormat` where there are fewer tags than the minimum and none can be made, and `Memory`. Some of the source's bytes may be taken by then.
pub fn tags(
    alloc: Global,
    unstructured: &mut Unstructured<'_>,
    config: &Config,
    spaces: &mut IndexSpaces<'_>,
) -> Result<Vec<u32>, Error>
    requires few { length spaces.old.types ≤ 2 ^ 31 }
    ensures grown { IfOk result (λ own. IsGrown config.now (wanted_tags config.now) of_tag (AnyBound config.now) spaces.old unstructured.old spaces.new unstructured.new own.items) }
    ensures taken { length unstructured.new ≤ length unstructured.old }
    ensures refused { IfErr result (λ e. (e ≡ Error.Memory) ⊎ ((e ≡ Error.IncorrectFormat) × AreTooFew (wanted_tags config.now) spaces.new)) }
{
    let indexes = tag_types(alloc, spaces.types())?;
    let can = config.exceptions_enabled && !indexes.is_empty();
    let mut own = Vec::new(alloc);
    'grow: while grows_if(
        unstructured,
        can,
        spaces.count_of(ExportKind::Tag),
        config.min_tags as usize,
        config.max_tags as usize,
    ) {
        let index = choose_index(unstructured, &indexes);
        spaces.push_tag(index)?;
        push_index(&mut own, index)?;
    }
    if spaces.count_of(ExportKind::Tag) < config.min_tags as usize {
        return Err(Error::IncorrectFormat);
    }
    Ok(own)
}

/// Defines a tag of each of the types of these indexes.
///
/// # Errors
/// Where memory runs out. Some of them may be defined by then.
pub fn shape_tags(
    alloc: Global,
    spaces: &mut IndexSpaces<'_>,
    types: &[u32],
) -> Result<Vec<u32>, AllocError>
    ensures step { IfOk result (λ own. (c : configs.Config) → ((features : Features) → AreFeaturesOf c features → AllByRecursion (λ index. keeps_tag features spaces.old index ≡ true) types.now) → IsStep c of_tag spaces.old spaces.new own.items) }
    ensures types { IfOk result (λ own. own.items ≡ types.now) }
{
    let mut own = Vec::new(alloc);
    for index in types {
        spaces.push_tag(*index)?;
        push_index(&mut own, *index)?;
    }
    Ok(own)
}
