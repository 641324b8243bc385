//! The start function of a module.

ghost use Rattle.std.specs.Option.{option_to_list};
ghost use Rattle.std.specs.Prelude.{◌≡◌, ◌≤◌, ◌<◌, ◌^◌, IfOk, length, slice_get};
ghost use Rattle.wasm_smith_definitions.specs.Steps.{IsStep};
ghost use Rattle.wasm_smith_types.specs.Growing.{Draws};
ghost use Rattle.wasm_smith_validity.specs.Rules.{starts};
ghost use Rattle.wasm_smith_validity.specs.Spaces.{functions_of};
ghost use Rattle.wasm_smith_externs.specs.Wanted.{of_start, start_at, start_functions};

use std::alloc::{AllocError, Global};
use wasm_encoder_sections::entity_type::ExportKind;
use wasm_smith_config::config::Config;
use wasm_smith_definitions::function_types::names_unit;
use wasm_smith_definitions::index_spaces::IndexSpaces;
use wasm_smith_definitions::indexes::{choose_index, push_if};
use wasm_smith_unstructured::unstructured::Unstructured;

// Returns true if a module may start with this function.
fn may_start(spaces: &IndexSpaces<'_>, function: u32) -> bool
    ensures { result ≡ starts spaces.now (slice_get (functions_of spaces.now) function) }
{
    match spaces.function(function) {
        Some(index) => names_unit(spaces.types(), index),
        None => false,
    }
}

// Returns the functions that a module may start with.
fn start_functions(alloc: Global, spaces: &IndexSpaces<'_>) -> Result<Vec<u32>, AllocError>
    requires few { length (functions_of spaces.now) < 2 ^ 32 }
    ensures { IfOk result (λ functions. functions.items ≡ start_functions spaces.now) }
{
    let mut functions = Vec::new(alloc);
    for function in 0..spaces.count_of(ExportKind::Func) as u32 {
        push_if(&mut functions, may_start(spaces, function), function)?;
    }
    Ok(functions)
}

/// Draws the start function: where the configuration allows one and there is a function without parameters and results, a bool, and then one of
/// these functions.
///
/// # Errors
/// Where memory runs out. Nothing is drawn then.
#[tactic(auto, unfolding(crate::specs::Wanted::start_at))]
pub fn start(
    alloc: Global,
    unstructured: &mut Unstructured<'_>,
    config: &Config,
    spaces: &IndexSpaces<'_>,
) -> Result<Option<u32>, AllocError>
    requires few { length (functions_of spaces.now) < 2 ^ 32 }
    ensures step { IfOk result (λ start. IsStep config.now of_start spaces.now spaces.now (option_to_list start)) }
    ensures drawn { Draws (λ start. start) unstructured.new result (start_at config.now.allow_start_export (start_functions spaces.now) unstructured.old) }
    ensures taken { length unstructured.new ≤ length unstructured.old }
{
    if !config.allow_start_export {
        return Ok(None);
    }
    let functions = start_functions(alloc, spaces)?;
    if functions.is_empty() || !unstructured.bool() {
        return Ok(None);
    }
    Ok(Some(choose_index(unstructured, &functions)))
}
