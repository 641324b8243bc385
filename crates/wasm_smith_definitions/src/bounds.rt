//! The bounds of tables and memories.

ghost use Rattle.std.specs.Prelude.{◌≡◌, ◌≤◌, true, is_some, length};
ghost use Rattle.wasm_smith_definitions.specs.Offered.{AreBoundsWithin};

use wasm_smith_unstructured::unstructured::Unstructured;

/// The bounds of a table or a memory.
#[derive(Clone, Copy, Debug)]
pub struct Bounds {
    /// The minimum size.
    pub minimum: u64,
    /// The maximum size, if there is one.
    pub maximum: Option<u64>,
}

/// Draws bounds that are at most `cap`. There is a maximum where one is required or the next bool is true.
pub fn bounds_within(unstructured: &mut Unstructured<'_>, cap: u64, required: bool) -> Bounds
    ensures within { AreBoundsWithin cap result.minimum result.maximum }
    ensures taken { length unstructured.new ≤ length unstructured.old }
    ensures required { required ≡ true → is_some result.maximum ≡ true }
{
    let minimum = unstructured.int_in_range(0..=cap);
    if required || unstructured.bool() {
        let maximum = unstructured.int_in_range(minimum..=cap);
        return Bounds {
            minimum,
            maximum: Some(maximum),
        };
    }
    Bounds {
        minimum,
        maximum: None,
    }
}
