//! The functions of a module.

ghost use Rattle.std.specs.Prelude.{◌≡◌, ◌⊎◌, ◌+◌, ◌<◌, ◌≤◌, ◌^◌, true, IfOk, IfErr, is_some, length};
ghost use Rattle.std.specs.List.{AllByRecursion};
ghost use Rattle.wasm_spec.specs.Features.{Features};
ghost use Rattle.wasm_smith_config.specs.Config.{AreFeaturesOf};
ghost use Rattle.wasm_smith_config.specs.declared.config.Config as configs;
ghost use Rattle.wasm_smith_definitions.specs.Kinds.{AnyBound};
ghost use Rattle.wasm_smith_definitions.specs.Steps.{IsGrown, IsStep};
ghost use Rattle.wasm_smith_types.specs.Growing.{Draws};
ghost use Rattle.wasm_smith_validity.specs.Spaces.{func_type_at, functions_of};
ghost use Rattle.wasm_smith_definitions.specs.FunctionTypes.{function_indexes};
ghost use Rattle.wasm_smith_externs.specs.Wanted.{AreTooFew, functions_at, of_function, wanted_functions};

use std::alloc::{AllocError, Global};
use wasm_encoder_sections::entity_type::ExportKind;
use wasm_smith_config::config::Config;
use wasm_smith_config::error::Error;
use wasm_smith_definitions::function_types::function_types;
use wasm_smith_definitions::growing::grows_if;
use wasm_smith_definitions::index_spaces::IndexSpaces;
use wasm_smith_definitions::indexes::{choose_index, push_index};
use wasm_smith_unstructured::unstructured::Unstructured;

/// Draws functions after the imported ones, each of one of the function types. Where there are none, nothing is drawn.
///
/// # Errors
/// `IncorrectFormat` where there are fewer functions than the minimum and none can be made, and `Memory`. Some of the source's bytes may be taken by then.
pub fn functions(
    alloc: Global,
    unstructured: &mut Unstructured<'_>,
    config: &Config,
    spaces: &mut IndexSpaces<'_>,
) -> Result<Vec<u32>, Error>
    requires few { length spaces.old.types ≤ 2 ^ 31 }
    ensures grown { IfOk result (λ own. IsGrown config.now (wanted_functions config.now) of_function (AnyBound config.now) spaces.old unstructured.old spaces.new unstructured.new own.items) }
    ensures drawn { Draws (λ own. own.items) unstructured.new result (functions_at config.now (function_indexes 0 spaces.old.types) (length (functions_of spaces.old)) unstructured.old) }
    ensures taken { length unstructured.new ≤ length unstructured.old }
    ensures refused { IfErr result (λ e. (e ≡ Error.Memory) ⊎ ((e ≡ Error.IncorrectFormat) × AreTooFew (wanted_functions config.now) spaces.new × (length (functions_of spaces.old) + length (functions_at config.now (function_indexes 0 spaces.old.types) (length (functions_of spaces.old)) unstructured.old).0 < config.now.min_funcs))) }
{
    let indexes = function_types(alloc, spaces.types())?;
    let mut own = Vec::new(alloc);
    'grow: while grows_if(
        unstructured,
        !indexes.is_empty(),
        spaces.count_of(ExportKind::Func),
        config.min_funcs as usize,
        config.max_funcs as usize,
    ) {
        let index = choose_index(unstructured, &indexes);
        spaces.push_function(index)?;
        push_index(&mut own, index)?;
    }
    if spaces.count_of(ExportKind::Func) < config.min_funcs as usize {
        return Err(Error::IncorrectFormat);
    }
    Ok(own)
}

/// Defines a function of each of the types of these indexes.
///
/// # Errors
/// Where memory runs out. Some of them may be defined by then.
pub fn shape_functions(
    alloc: Global,
    spaces: &mut IndexSpaces<'_>,
    types: &[u32],
) -> Result<Vec<u32>, AllocError>
    ensures step { IfOk result (λ own. (c : configs.Config) → ((features : Features) → AreFeaturesOf c features → AllByRecursion (λ index. is_some (func_type_at spaces.old.types index) ≡ true) types.now) → IsStep c of_function spaces.old spaces.new own.items) }
    ensures types { IfOk result (λ own. own.items ≡ types.now) }
{
    let mut own = Vec::new(alloc);
    for index in types {
        spaces.push_function(*index)?;
        push_index(&mut own, *index)?;
    }
    Ok(own)
}
