//! Custom sections.

ghost use Rattle.std.specs.Prelude.{◌≤◌, ◌+◌, true, map, length, IfOk};
ghost use Rattle.wasm_smith_definitions.specs.Items.{placed_custom};
ghost use Rattle.wasm_smith_module.specs.Contents.{custom_total};
ghost use Rattle.wasm_smith_module.specs.Customs.{custom_at, customs_at};
ghost use Rattle.wasm_smith_types.specs.Growing.{Draws};

use crate::contents::contents;
use std::alloc::{AllocError, Global};
use wasm_smith_definitions::custom_section::CustomSection;
use wasm_smith_types::growing::grows;
use wasm_smith_unstructured::text::limited_str;
use wasm_smith_unstructured::unstructured::Unstructured;

// The place behind all other sections.
const LAST_PLACE: u64 = 13;

// The most bytes of a name.
const MAX_NAME: usize = 30;

// The most custom sections.
const MAX_SECTIONS: usize = 10;

// Draws a custom section: its place, its name, and its contents.
#[tactic(auto, unfolding(crate::specs::Customs::custom_at))]
fn custom_section(
    alloc: Global,
    unstructured: &mut Unstructured<'_>,
) -> Result<CustomSection, AllocError>
    ensures drawn { Draws placed_custom unstructured.new result (custom_at unstructured.old) }
    ensures within { IfOk result (λ section. length (placed_custom section).contents + length unstructured.new ≤ length unstructured.old) }
    ensures taken { length unstructured.new ≤ length unstructured.old }
{
    let place = unstructured.int_in_range(0..=LAST_PLACE) as u32;
    let name = String::from_str(alloc, limited_str(unstructured, MAX_NAME))?;
    let data = contents(alloc, unstructured)?;
    Ok(CustomSection { place, name, data })
}

// Draws at most ten custom sections.
fn some_custom_sections(
    alloc: Global,
    unstructured: &mut Unstructured<'_>,
) -> Result<Vec<CustomSection>, AllocError>
    ensures drawn { Draws (λ v. map placed_custom v.items) unstructured.new result (customs_at true unstructured.old) }
    ensures within { IfOk result (λ v. custom_total (map placed_custom v.items) + length unstructured.new ≤ length unstructured.old) }
    ensures taken { length unstructured.new ≤ length unstructured.old }
{
    let mut sections = Vec::new(alloc);
    'grow: while grows(unstructured, sections.len(), 0, MAX_SECTIONS) {
        let section = custom_section(alloc, unstructured)?;
        sections.push(section)?;
    }
    Ok(sections)
}

/// Draws the custom sections, where they are asked for.
///
/// # Errors
/// Where memory runs out. Some of the source's bytes may be taken by then.
#[tactic(auto, unfolding(crate::specs::Customs::customs_at))]
pub fn custom_sections(
    alloc: Global,
    unstructured: &mut Unstructured<'_>,
    asked: bool,
) -> Result<Vec<CustomSection>, AllocError>
    ensures drawn { Draws (λ v. map placed_custom v.items) unstructured.new result (customs_at asked unstructured.old) }
    ensures within { IfOk result (λ v. custom_total (map placed_custom v.items) + length unstructured.new ≤ length unstructured.old) }
    ensures taken { length unstructured.new ≤ length unstructured.old }
{
    if asked {
        return some_custom_sections(alloc, unstructured);
    }
    Ok(Vec::new(alloc))
}
