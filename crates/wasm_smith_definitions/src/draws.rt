//! Draws that constants are made of. None adds bytes to the source.

ghost use Rattle.std.specs.Prelude.{◌<◌, ◌≤◌, length};

use wasm_smith_unstructured::unstructured::Unstructured;

/// Draws 32 bits.
pub fn bits32(unstructured: &mut Unstructured<'_>) -> u32
    ensures { length unstructured.new ≤ length unstructured.old }
{
    unstructured.u32()
}

/// Draws 64 bits.
pub fn bits64(unstructured: &mut Unstructured<'_>) -> u64
    ensures { length unstructured.new ≤ length unstructured.old }
{
    unstructured.u64()
}

/// Draws an index below a count.
pub fn index_below(unstructured: &mut Unstructured<'_>, count: usize) -> usize
    requires { 0 < count }
    ensures below { result < count }
    ensures taken { length unstructured.new ≤ length unstructured.old }
{
    unstructured.int_in_range(0..=count as u64 - 1) as usize
}
