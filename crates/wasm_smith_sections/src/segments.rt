//! Sections of segments (Core Specification 3.0, Binary Format, Modules, "Element Section" and "Data Section").

ghost use Rattle.std.specs.Prelude.{◌≡◌, ◌++◌, ◌∷◌, [], ◌+◌, ◌≤◌, ◌^◌, length, map, IfOk, IfErr};
ghost use Rattle.wasm_encoder_expression_sections.specs.CoreSegments.{lent_elements};
ghost use Rattle.wasm_encoder_expression_sections.specs.ItemEncodings.{element_encoding};
ghost use Rattle.wasm_smith_definitions.specs.Items.{data_segment, element_segment};
ghost use Rattle.wasm_smith_sections.specs.Contents.{data_bytes, element_bytes};
ghost use Rattle.wasm_smith_sections.specs.ItemViews.{given_items, given_mode, named_table};

use crate::constants::{const_expr, const_exprs};
use std::alloc::Global;
use wasm_core_write::encode_error::EncodeError;
use wasm_encoder_expression_sections::data_section::DataSection;
use wasm_encoder_expression_sections::element_section::ElementSection;
use wasm_encoder_expression_sections::element_segment::Elements;
use wasm_smith_definitions::segments::{
    DataMode, DataSegment, ElementItems, ElementMode, ElementSegment,
};

/// Returns the element section.
///
/// # Errors
/// `TooLong` only where there are more than 4,294,967,295 segments, and else `Memory`.
pub fn element_section(
    alloc: Global,
    segments: &[ElementSegment],
) -> Result<ElementSection, EncodeError>
    ensures kept { IfOk result (λ section. section ≡ map element_bytes (map element_segment segments.now)) }
    ensures too_long { IfErr result (λ e. e ≡ EncodeError.TooLong → 2 ^ 32 ≤ length segments.now) }
{
    let mut section = ElementSection::new(alloc);
    for segment in segments {
        push_element_segment(alloc, segment, &mut section)?;
    }
    Ok(section)
}

// Adds an element segment.
#[tactic(auto, using(crate::proofs::ItemLaws::given_segment))]
fn push_element_segment(
    alloc: Global,
    segment: &ElementSegment,
    section: &mut ElementSection,
) -> Result<(), EncodeError>
    ensures added { IfOk result (λ _. section.new ≡ section.old ++ element_bytes (element_segment segment.now) ∷ []) }
    ensures too_long { IfErr result (λ e. e ≡ EncodeError.TooLong → 2 ^ 32 ≤ length section.old + 1) }
{
    push_items(alloc, &segment.mode, &segment.items, section)
}

// Adds items of a mode.
fn push_items(
    alloc: Global,
    mode: &ElementMode,
    items: &ElementItems,
    section: &mut ElementSection,
) -> Result<(), EncodeError>
    ensures added { IfOk result (λ _. section.new ≡ section.old ++ element_encoding (given_mode mode.now) (given_items items.now) ∷ []) }
    ensures too_long { IfErr result (λ e. e ≡ EncodeError.TooLong → 2 ^ 32 ≤ length section.old + 1) }
{
    match items {
        ElementItems::Functions(functions) => {
            push_elements(alloc, mode, Elements::Functions(functions), section)
        }
        ElementItems::Expressions(ty, constants) => {
            let expressions = const_exprs(alloc, constants)?;
            push_elements(
                alloc,
                mode,
                Elements::Expressions(*ty, &expressions),
                section,
            )
        }
    }
}

// Adds elements of a mode.
fn push_elements(
    alloc: Global,
    mode: &ElementMode,
    elements: Elements<'_>,
    section: &mut ElementSection,
) -> Result<(), EncodeError>
    ensures added { IfOk result (λ _. section.new ≡ section.old ++ element_encoding (given_mode mode.now) (lent_elements elements.entry) ∷ []) }
    ensures too_long { IfErr result (λ e. e ≡ EncodeError.TooLong → 2 ^ 32 ≤ length section.old + 1) }
{
    match mode {
        ElementMode::Active { table, offset } => {
            let offset = const_expr(alloc, offset)?;
            section.push_active(named_table(*table), &offset, elements)
        }
        ElementMode::Passive => section.push_passive(elements),
        ElementMode::Declared => section.push_declared(elements),
    }
}

// Returns the table that is named. Table 0 isn't.
fn named_table(table: u32) -> Option<u32>
    ensures { result ≡ named_table table }
{
    if table == 0 { None } else { Some(table) }
}

/// Returns the data section.
///
/// # Errors
/// `TooLong` only where there are more than 4,294,967,295 segments, and else `Memory`.
pub fn data_section(alloc: Global, segments: &[DataSegment]) -> Result<DataSection, EncodeError>
    ensures kept { IfOk result (λ section. section ≡ map data_bytes (map data_segment segments.now)) }
    ensures too_long { IfErr result (λ e. e ≡ EncodeError.TooLong → 2 ^ 32 ≤ length segments.now) }
{
    let mut section = DataSection::new(alloc);
    for segment in segments {
        push_data_segment(alloc, segment, &mut section)?;
    }
    Ok(section)
}

// Adds a data segment.
#[tactic(auto, using(crate::proofs::ItemLaws::memory_given))]
fn push_data_segment(
    alloc: Global,
    segment: &DataSegment,
    section: &mut DataSection,
) -> Result<(), EncodeError>
    ensures added { IfOk result (λ _. section.new ≡ section.old ++ data_bytes (data_segment segment.now) ∷ []) }
    ensures too_long { IfErr result (λ e. e ≡ EncodeError.TooLong → 2 ^ 32 ≤ length section.old + 1) }
{
    match &segment.mode {
        DataMode::Active { memory, offset } => {
            let offset = const_expr(alloc, offset)?;
            section.push_active(*memory, &offset, &segment.data)
        }
        DataMode::Passive => section.push_passive(&segment.data),
    }
}
