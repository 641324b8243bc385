//! Lists of indexes to choose from.

ghost use Rattle.std.specs.Prelude.{◌≡◌, ◌≤◌, ◌<◌, ◌++◌, ◌∷◌, [], IfOk, length, if◌then◌else◌};
ghost use Rattle.wasm_smith_unstructured.specs.Draws.{IsDrawn};
ghost use Rattle.wasm_smith_definitions.specs.Indexes.{index_at};

use std::alloc::AllocError;
use wasm_smith_unstructured::unstructured::Unstructured;

/// Adds an index.
///
/// # Errors
/// Where memory runs out.
pub fn push_index(indexes: &mut Vec<u32>, index: u32) -> Result<(), AllocError>
    ensures { IfOk result (λ _. indexes.new.items ≡ indexes.old.items ++ index ∷ []) }
{
    indexes.push(index)?;
    Ok(())
}

/// Adds an index where it is wanted.
///
/// # Errors
/// Where memory runs out.
pub fn push_if(indexes: &mut Vec<u32>, wanted: bool, index: u32) -> Result<(), AllocError>
    ensures { IfOk result (λ _. indexes.new.items ≡ indexes.old.items ++ (if wanted then index ∷ [] else [])) }
{
    if wanted {
        push_index(indexes, index)?;
    }
    Ok(())
}

/// Draws one of these indexes.
#[tactic(auto, unfolding(crate::specs::Indexes::index_at))]
pub fn choose_index(unstructured: &mut Unstructured<'_>, indexes: &[u32]) -> u32
    requires some { 0 < length indexes.now }
    ensures drawn { IsDrawn (λ index. index) result unstructured.new (index_at indexes.now unstructured.old) }
    ensures taken { length unstructured.new ≤ length unstructured.old }
{
    *unstructured.choose(indexes).unwrap()
}
