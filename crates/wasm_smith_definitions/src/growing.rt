//! Growing a list of items that can't always be made.

ghost use Rattle.std.specs.Prelude.{◌≡◌, ◌≤◌, ◌<◌, IsTrue, false, if◌then◌else◌, length};
ghost use Rattle.wasm_smith_unstructured.specs.Draws.{IsDrawn};
ghost use Rattle.wasm_smith_types.specs.Growing.{grows_at};

use wasm_smith_types::growing::grows;
use wasm_smith_unstructured::unstructured::Unstructured;

/// Returns true if there is one more after `count` of them, as [`grows`] does, where one can be made. Otherwise nothing is drawn.
pub fn grows_if(
    unstructured: &mut Unstructured<'_>,
    can: bool,
    count: usize,
    min: usize,
    max: usize,
) -> bool
    ensures exact { IsDrawn (λ b. b) result unstructured.new (if can then grows_at min max count unstructured.old else (false, unstructured.old)) }
    ensures taken { length unstructured.new ≤ length unstructured.old }
    ensures room { IsTrue result → count < max }
{
    can && grows(unstructured, count, min, max)
}
