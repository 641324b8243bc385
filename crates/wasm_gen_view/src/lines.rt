//! Lines of a view's text.

ghost use Rattle.std.specs.Prelude.{◌≡◌, ◌++◌, IfOk, flat_map, string_bytes};
ghost use Rattle.wasm_gen_view.specs.Text.{export_line, group_lines, item_line, item_lines, numbered, type_line};

use crate::name_text::put_name;
use crate::put::Put;
use crate::types::{SubType, TypePlace};
use crate::view::Export;
use std::alloc::AllocError;

// Appends the line of an item of an index space.
fn put_item<T: Put>(word: &str, index: usize, item: &T, out: &mut String) -> Result<(), AllocError>
    ensures { IfOk result (λ _. string_bytes out.new ≡ string_bytes out.old ++ item_line word.now T.text index item.now) }
{
    out.push_str(word)?;
    out.push_str(" ")?;
    index.put(out)?;
    out.push_str(" ")?;
    item.put(out)?;
    out.push_str("\n")
}

// Appends the lines of an index space.
#[tactic(auto, using(crate::proofs::Numbering::number_steps))]
pub(crate) fn put_items<T: Put>(word: &str, items: &[T], out: &mut String) -> Result<(), AllocError>
    ensures { IfOk result (λ _. string_bytes out.new ≡ string_bytes out.old ++ item_lines word.now T.text items.now) }
{
    for (index, item) in items.iter().enumerate() {
        put_item(word, index, item, out)?;
    }
    Ok(())
}

// Appends the line of a type.
fn put_type(group: usize, place: usize, ty: &SubType, out: &mut String) -> Result<(), AllocError>
    ensures { IfOk result (λ _. string_bytes out.new ≡ string_bytes out.old ++ type_line group place ty.now) }
{
    out.push_str("type ")?;
    TypePlace { group, place }.put(out)?;
    out.push_str(" ")?;
    ty.put(out)?;
    out.push_str("\n")
}

// Appends the lines of a group.
#[tactic(auto, using(crate::proofs::Numbering::number_steps))]
fn put_group(group: usize, types: &[SubType], out: &mut String) -> Result<(), AllocError>
    ensures { IfOk result (λ _. string_bytes out.new ≡ string_bytes out.old ++ group_lines group types.now) }
{
    for (place, ty) in types.iter().enumerate() {
        put_type(group, place, ty, out)?;
    }
    Ok(())
}

// Appends the lines of groups.
#[tactic(auto, using(crate::proofs::Numbering::number_steps))]
pub(crate) fn put_groups(groups: &[Vec<SubType>], out: &mut String) -> Result<(), AllocError>
    ensures { IfOk result (λ _. string_bytes out.new ≡ string_bytes out.old ++ numbered (λ group types. group_lines group types.items) 0 groups.now) }
{
    for (group, types) in groups.iter().enumerate() {
        put_group(group, types, out)?;
    }
    Ok(())
}

// Appends the line of an export.
fn put_export(export: &Export, out: &mut String) -> Result<(), AllocError>
    ensures { IfOk result (λ _. string_bytes out.new ≡ string_bytes out.old ++ export_line export.now) }
{
    out.push_str("export ")?;
    put_name(&export.name, out)?;
    out.push_str(" ")?;
    export.item.put(out)?;
    out.push_str("\n")
}

// Appends the lines of exports.
#[tactic(auto, using(wasm_spec::proofs::ListEncodings::list_steps))]
pub(crate) fn put_exports(exports: &[Export], out: &mut String) -> Result<(), AllocError>
    ensures { IfOk result (λ _. string_bytes out.new ≡ string_bytes out.old ++ flat_map export_line exports.now) }
{
    for export in exports {
        put_export(export, out)?;
    }
    Ok(())
}
