//! The types that may have a type below them.

ghost use Rattle.std.specs.Prelude.{◌≡◌, ◌≤◌, ℕ, IfSome, Some, false, map, slice_get};
ghost use Rattle.wasm_core_types.specs.SubTypes.{sub_type};
ghost use Rattle.wasm_spec.specs.Types as spec;
ghost use Rattle.wasm_smith_types.specs.Making.{IsCandidate};
ghost use Rattle.wasm_smith_validity.specs.ValidGroups.{HasHeight};

use wasm_core_types::types::SubType;
use wasm_smith_validity::subtyping::MAX_HEIGHT;

/// A type that may have a type below it.
#[derive(Clone, Copy, Debug)]
pub struct Candidate {
    /// Its index.
    pub index: u32,
    /// The number of supertypes above it.
    pub height: u32,
}

/// Returns a type as a candidate, if it may be one.
pub fn candidate_at(types: &[SubType], index: u32) -> Option<Candidate>
    ensures candidate { IfSome result (IsCandidate (map sub_type types.now)) }
    ensures exact { (type : spec.SubType ℕ) (height : ℕ) → slice_get (map sub_type types.now) index ≡ Some type → type.is_final ≡ false
        → HasHeight (slice_get (map sub_type types.now)) height index → height ≤ 62 → result ≡ Some (record { index = index; height = height }) }
{
    let type_ = types.get(index as usize)?;
    if type_.is_final {
        return None;
    }
    let height = height_of(types, index)?;
    Some(Candidate { index, height })
}

// Returns the number of supertypes above a type, unless there are too many for one below it.
fn height_of(types: &[SubType], index: u32) -> Option<u32>
    ensures height { IfSome result (λ height. HasHeight (slice_get (map sub_type types.now)) height index × (height ≤ 62)) }
    ensures exact { (height : ℕ) → HasHeight (slice_get (map sub_type types.now)) height index → height ≤ 62 → result ≡ Some height }
{
    let mut at = index;
    for height in 0..MAX_HEIGHT {
        match types.get(at as usize) {
            Some(type_) => match type_.supertype_idx {
                Some(supertype) => at = supertype,
                None => return Some(height),
            },
            None => return None,
        }
    }
    None
}
