//! Lists of items.

ghost use Rattle.std.specs.Prelude.{◌≡◌, ◌∷◌, ◌++◌, [], IfOk};

use std::alloc::AllocError;

/// Adds an item to a list.
///
/// # Errors
/// Where memory runs out.
pub fn push<T: Copy>(list: &mut Vec<T>, item: T) -> Result<(), AllocError>
    ensures { IfOk result (λ _. list.new.items ≡ list.old.items ++ item ∷ []) }
{
    list.push(item)?;
    Ok(())
}
