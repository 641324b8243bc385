//! Choices and lists, as several steps make them.

ghost use Rattle.std.specs.Prelude.{◌≡◌, ◌≤◌, ◌<◌, ◌+◌, ◌++◌, ◌∷◌, ◌||◌, [], length, nat_lt, IfOk};
ghost use Rattle.wasm_core_types.specs.CoreTypes.{val_type};
ghost use Rattle.wasm_smith_validity.specs.Rules.{index_type};

use std::alloc::AllocError;
use wasm_core_types::types::ValType;
use wasm_smith_definitions::draws::index_below;
use wasm_smith_unstructured::unstructured::Unstructured;

// The number of indexes of 32 bits.
const INDEX_COUNT: usize = 0x1_0000_0000;

/// Checks that a segment can be made: it is active, for one of `count` tables or memories, or it comes with bulk memory.
pub fn can_be_made(count: usize, bulk_memory: bool) -> bool
    ensures { result ≡ (nat_lt 0 count || bulk_memory) }
{
    count > 0 || bulk_memory
}

/// Draws the index of one of `count` items, or one of the `others` numbers after them, for what is chosen instead of an item. It has 32 bits.
pub fn draw_index(unstructured: &mut Unstructured<'_>, count: usize, others: u32) -> u32
    requires { 0 < count + others }
    ensures below { result < count + others }
    ensures taken { length unstructured.new ≤ length unstructured.old }
{
    let choices = count.saturating_add(others as usize);
    index_below(unstructured, choices.min(INDEX_COUNT)) as u32
}

/// Returns the type of the indexes of a table, or of the addresses of a memory.
pub fn index_type(is_64: bool) -> ValType
    ensures { val_type result ≡ index_type is_64 }
{
    if is_64 { ValType::I64 } else { ValType::I32 }
}

/// Adds an item that owns memory.
///
/// # Errors
/// Where memory runs out. The item is dropped then.
pub fn push_owned<T: Drop>(items: &mut Vec<T>, item: T) -> Result<(), AllocError>
    ensures { IfOk result (λ _. items.new.items ≡ items.old.items ++ item ∷ []) }
{
    items.push(item)?;
    Ok(())
}

/// Returns a list with other items behind its own.
///
/// # Errors
/// Where memory runs out.
pub fn joined<T: Copy>(mut items: Vec<T>, others: &[T]) -> Result<Vec<T>, AllocError>
    ensures { IfOk result (λ all. all.items ≡ items.items ++ others.now) }
{
    items.extend_from_slice(others)?;
    Ok(items)
}
