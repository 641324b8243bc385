//! Appending to a text.

ghost use Rattle.std.specs.Prelude.{◌≡◌, ◌++◌, ℕ, List, IfOk, codes, decimal, flat_map, string_bytes};
ghost use Rattle.wasm_gen_view.specs.TypeText.{list_text, or_dash, parted};

use itoa::Buffer;
use std::alloc::AllocError;

// A part of a text.
pub(crate) trait Put {
    // Its text.
    ghost text: { Self → List ℕ };

    // Appends it.
    fn put(&self, out: &mut String) -> Result<(), AllocError>
        ensures { IfOk result (λ _. string_bytes out.new ≡ string_bytes out.old ++ text self.now) };
}

impl Put for u32 {
    ghost text = { decimal };

    fn put(&self, out: &mut String) -> Result<(), AllocError> {
        out.push_str(Buffer::new().format(*self))
    }
}

impl Put for u64 {
    ghost text = { decimal };

    fn put(&self, out: &mut String) -> Result<(), AllocError> {
        out.push_str(Buffer::new().format(*self))
    }
}

impl Put for usize {
    ghost text = { decimal };

    fn put(&self, out: &mut String) -> Result<(), AllocError> {
        out.push_str(Buffer::new().format(*self))
    }
}

// Appends it, or a dash where it isn't there.
pub(crate) fn put_optional<T: Put>(it: &Option<T>, out: &mut String) -> Result<(), AllocError>
    ensures { IfOk result (λ _. string_bytes out.new ≡ string_bytes out.old ++ or_dash T.text it.now) }
{
    match it {
        Some(it) => it.put(out),
        None => out.push_str("-"),
    }
}

// Appends items, each after a space.
#[tactic(auto, using(wasm_spec::proofs::ListEncodings::list_steps))]
fn put_rest<T: Put>(items: &[T], out: &mut String) -> Result<(), AllocError>
    ensures { IfOk result (λ _. string_bytes out.new ≡ string_bytes out.old ++ flat_map (λ item. codes " " ++ T.text item) items.now) }
{
    for item in items {
        out.push_str(" ")?;
        item.put(out)?;
    }
    Ok(())
}

// Appends items, separated by a space.
fn put_parted<T: Put>(items: &[T], out: &mut String) -> Result<(), AllocError>
    ensures { IfOk result (λ _. string_bytes out.new ≡ string_bytes out.old ++ parted T.text items.now) }
{
    let Some((first, rest)) = items.split_first() else {
        return Ok(());
    };
    first.put(out)?;
    put_rest(rest, out)
}

// Appends items, separated by a space, in brackets.
pub(crate) fn put_list<T: Put>(items: &[T], out: &mut String) -> Result<(), AllocError>
    ensures { IfOk result (λ _. string_bytes out.new ≡ string_bytes out.old ++ list_text T.text items.now) }
{
    out.push_str("[")?;
    put_parted(items, out)?;
    out.push_str("]")
}
