//! Offsets of active segments.

ghost use Rattle.std.specs.Prelude.{◌≡◌, ◌≤◌, true, length, IfOk, IfErr};
ghost use Rattle.wasm_smith_definitions.specs.Constants.{Gives, IsPlain};
ghost use Rattle.wasm_smith_definitions.specs.Items.{expression};
ghost use Rattle.wasm_smith_module.specs.Traps.{IsUpTo};
ghost use Rattle.wasm_smith_validity.specs.ValidGroups.{AllKeepTypeRules};
ghost use Rattle.wasm_smith_validity.specs.Rules.{index_type};

use crate::choices::index_type;
use std::alloc::Global;
use wasm_smith_config::config::Config;
use wasm_smith_config::error::Error;
use wasm_smith_definitions::constant::Constant;
use wasm_smith_definitions::constants::Constants;
use wasm_smith_definitions::index_spaces::IndexSpaces;
use wasm_smith_unstructured::unstructured::Unstructured;

// Draws a number up to `last`, or up to the greatest of its type, as a constant.
fn constant_up_to(unstructured: &mut Unstructured<'_>, is_64: bool, last: u128) -> Constant
    ensures plain { IsPlain (index_type is_64) (expression result) }
    ensures within { IsUpTo last (expression result) }
    ensures taken { length unstructured.new ≤ length unstructured.old }
{
    if is_64 {
        let greatest = last.min(u128::from(u64::MAX)) as u64;
        let number = unstructured.int_in_range(0..=greatest);
        return Constant::I64(number.cast_signed());
    }
    let greatest = last.min(u128::from(u32::MAX)) as u64;
    let number = unstructured.int_in_range(0..=greatest) as u32;
    Constant::I32(number.cast_signed())
}

/// Draws the offset of a segment for a table or memory: a constant, or where traps are disallowed a number up to `last`.
///
/// # Errors
/// [`Memory`](Error::Memory). Some of the source's bytes may be taken by then.
pub fn draw_offset(
    alloc: Global,
    unstructured: &mut Unstructured<'_>,
    config: &Config,
    constants: &mut Constants,
    spaces: &IndexSpaces<'_>,
    is_64: bool,
    last: u128,
) -> Result<Constant, Error>
    requires rules { AllKeepTypeRules spaces.now.types }
    ensures gives { IfOk result (λ offset. Gives config.now spaces.now (index_type is_64) (expression offset)) }
    ensures within { IfOk result (λ offset. config.now.disallow_traps ≡ true → IsUpTo last (expression offset)) }
    ensures taken { length unstructured.new ≤ length unstructured.old }
    ensures refused { IfErr result (λ e. e ≡ Error.Memory) }
{
    if config.disallow_traps {
        return Ok(constant_up_to(unstructured, is_64, last));
    }
    let offset_type = index_type(is_64);
    let offset = constants.draw(alloc, unstructured, config, spaces, offset_type)?;
    Ok(offset)
}
