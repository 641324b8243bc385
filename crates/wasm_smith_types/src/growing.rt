//! Growing: one more after the other, for as long as the bytes say.

ghost use Rattle.std.specs.Prelude.{◌≡◌, ◌<◌, ◌≤◌, IsTrue, false, length};
ghost use Rattle.wasm_smith_unstructured.specs.Draws.{IsDrawn};
ghost use Rattle.wasm_smith_types.specs.Drawing.{bool_if};
ghost use Rattle.wasm_smith_types.specs.Growing.{grows_at};

use wasm_smith_unstructured::unstructured::Unstructured;

/// Draws a bool where it is asked, and returns false otherwise.
#[tactic(auto, unfolding(crate::specs::Drawing::bool_if))]
pub fn bool_if(unstructured: &mut Unstructured<'_>, asked: bool) -> bool
    ensures exact { IsDrawn (λ b. b) result unstructured.new (bool_if asked unstructured.old) }
    ensures taken { length unstructured.new ≤ length unstructured.old }
{
    asked && unstructured.bool()
}

/// Returns true if there is one more after `count` of them: as long as there are fewer than `min`, and then, as long as there
/// are fewer than `max`, where the next bool is true.
#[tactic(auto, unfolding(crate::specs::Growing::grows_at, crate::specs::Growing::grows_from))]
pub fn grows(unstructured: &mut Unstructured<'_>, count: usize, min: usize, max: usize) -> bool
    ensures exact { IsDrawn (λ b. b) result unstructured.new (grows_at min max count unstructured.old) }
    ensures taken { length unstructured.new ≤ length unstructured.old }
    ensures room { IsTrue result → count < max }
    ensures enough { result ≡ false → min ≤ max → min ≤ count }
{
    if count >= max {
        return false;
    }
    count < min || unstructured.bool()
}
