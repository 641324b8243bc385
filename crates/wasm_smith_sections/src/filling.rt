//! The sections of a made module, filled in their order (Core Specification 3.0, Binary Format, "Modules").

ghost use Rattle.std.specs.Prelude.{◌≡◌, ◌⊎◌, ◌≤◌, ◌<◌, ◌+◌, ◌++◌, ◌∷◌, [], ◌^◌, ℕ, List, length, map, IfOk, IfErr, if◌then◌else◌};
ghost use Rattle.std.specs.Option.{option_to_list};
ghost use Rattle.wasm_core_types.specs.SubTypes.{sub_type};
ghost use Rattle.wasm_encoder_sections.specs.CoreItems.{memory_type};
ghost use Rattle.wasm_smith_definitions.specs.Items as items;
ghost use Rattle.wasm_smith_shapes.specs.Imports.{import_entry};
ghost use Rattle.wasm_smith_sections.specs.FilledSections.{AddSections, filled_frame, first_sections, frame, last_sections, middle_sections};
ghost use Rattle.wasm_smith_sections.specs.ModuleEncoding.{AreBodyEncodings, PassesLength, SomeHaveLongFront};
ghost use Rattle.wasm_smith_sections.specs.ModuleItems.{made_of};
ghost use Rattle.wasm_smith_types.specs.Drawing.{total};
ghost use Rattle.wasm_smith_types.specs.Grouped.{grouped};
ghost use Rattle.wasm_smith_validity.specs.Sections.{customs_before, section_of, sections_with, unless_empty};
ghost use Rattle.wasm_spec.specs.Syntax as spec;

use crate::bodies::code_section;
use crate::filled_section::FilledSection;
use crate::imports::import_section;
use crate::module_items::ModuleItems;
use crate::sections::{
    export_section, function_section, global_section, memory_section, table_section, tag_section,
};
use crate::segments::{data_section, element_section};
use crate::types::type_section;
use std::alloc::Global;
use std::borrow::{CowSlice, CowStr};
use wasm_core_types::types::SubType;
use wasm_core_write::encode_error::EncodeError;
use wasm_encoder_custom::custom_section as encoder;
use wasm_encoder_sections::data_count_section::DataCountSection;
use wasm_encoder_sections::entity_type::MemoryType;
use wasm_encoder_sections::start_section::StartSection;
use wasm_smith_definitions::code::Code;
use wasm_smith_definitions::custom_section::CustomSection;
use wasm_smith_definitions::items;
use wasm_smith_definitions::items::{Export, Table};
use wasm_smith_definitions::segments::{DataSegment, ElementSegment};
use wasm_smith_shapes::imports::ImportEntry;

/// Returns the sections that have items, in their order.
///
/// # Errors
/// `TooLong` where a count or a run is past 4,294,967,295, and else `Memory`.
pub fn filled_sections<'a>(
    alloc: Global,
    made: &ModuleItems<'a>,
) -> Result<Vec<FilledSection<'a>>, EncodeError>
    requires whole { total made.now.sizes.now ≡ length made.now.types.now }
    ensures kept { IfOk result (λ sections. (bodies : List (List ℕ)) × AreBodyEncodings (made_of made.now).bodies bodies × (map filled_frame sections.items ≡ map frame (sections_with made.now.data_count bodies (made_of made.now)))) }
    ensures too_long { IfErr result (λ e. e ≡ EncodeError.TooLong → PassesLength made.now.data_count (made_of made.now)) }
{
    let mut sections = Vec::new(alloc);
    add_first(alloc, made, &mut sections)?;
    add_middle(alloc, made, &mut sections)?;
    add_last(alloc, made, &mut sections)?;
    Ok(sections)
}

// Adds the sections from types to memories, and the custom sections before each.
fn add_first<'a>(
    alloc: Global,
    made: &ModuleItems<'a>,
    sections: &mut Vec<FilledSection<'a>>,
) -> Result<(), EncodeError>
    requires whole { total made.now.sizes.now ≡ length made.now.types.now }
    ensures added { IfOk result (λ _. AddSections sections.old.items sections.new.items (first_sections (made_of made.now))) }
    ensures too_long { IfErr result (λ e. e ≡ EncodeError.TooLong → PassesLength made.now.data_count (made_of made.now)) }
{
    add_customs(0, made.customs, sections)?;
    add_types(alloc, made.types, made.sizes, sections)?;
    add_customs(1, made.customs, sections)?;
    add_imports(alloc, made.imports, sections)?;
    add_customs(2, made.customs, sections)?;
    add_functions(alloc, made.funcs, sections)?;
    add_customs(3, made.customs, sections)?;
    add_tables(alloc, made.tables, sections)?;
    add_customs(4, made.customs, sections)?;
    add_memories(alloc, made.memories, sections)
}

// Adds the sections from tags to element segments, and the custom sections before each.
fn add_middle<'a>(
    alloc: Global,
    made: &ModuleItems<'a>,
    sections: &mut Vec<FilledSection<'a>>,
) -> Result<(), EncodeError>
    ensures added { IfOk result (λ _. AddSections sections.old.items sections.new.items (middle_sections (made_of made.now))) }
    ensures too_long { IfErr result (λ e. e ≡ EncodeError.TooLong → PassesLength made.now.data_count (made_of made.now)) }
{
    add_customs(5, made.customs, sections)?;
    add_tags(alloc, made.tags, sections)?;
    add_customs(6, made.customs, sections)?;
    add_globals(alloc, made.globals, sections)?;
    add_customs(7, made.customs, sections)?;
    add_exports(alloc, made.exports, sections)?;
    add_customs(8, made.customs, sections)?;
    add_start(made.start, sections)?;
    add_customs(9, made.customs, sections)?;
    add_elements(alloc, made.elems, sections)
}

// Adds the sections from the number of data segments to these, and the custom sections before each and behind them.
fn add_last<'a>(
    alloc: Global,
    made: &ModuleItems<'a>,
    sections: &mut Vec<FilledSection<'a>>,
) -> Result<(), EncodeError>
    ensures added { IfOk result (λ _. (bodies : List (List ℕ)) × AreBodyEncodings (made_of made.now).bodies bodies × (AddSections sections.old.items sections.new.items (last_sections made.now.data_count bodies (made_of made.now)))) }
    ensures too_long { IfErr result (λ e. e ≡ EncodeError.TooLong → PassesLength made.now.data_count (made_of made.now)) }
{
    add_customs(10, made.customs, sections)?;
    add_data_count(made.data_count, made.data_segments, sections)?;
    add_customs(11, made.customs, sections)?;
    add_code(alloc, made.bodies, sections)?;
    add_customs(12, made.customs, sections)?;
    add_data(alloc, made.data_segments, sections)?;
    add_customs(13, made.customs, sections)
}

// Adds the custom sections of a place.
fn add_customs<'a>(
    place: u32,
    customs: &'a [CustomSection],
    sections: &mut Vec<FilledSection<'a>>,
) -> Result<(), EncodeError>
    ensures added { IfOk result (λ _. AddSections sections.old.items sections.new.items (customs_before place (map items.placed_custom customs.now))) }
    ensures memory_alone { IfErr result (λ e. e ≡ EncodeError.Memory) }
{
    for custom in customs {
        if custom.place == place {
            sections.push(custom_section(custom))?;
        }
    }
    Ok(())
}

// Returns a custom section as it is written.
#[tactic(auto, unfolding(wasm_encoder_custom::specs::CustomSections::custom_content))]
fn custom_section(custom: &CustomSection) -> FilledSection<'_>
    ensures { filled_frame result ≡ frame (section_of (items.placed_custom custom.now)) }
{
    FilledSection::Custom(encoder::CustomSection {
        name: CowStr::Borrowed(&custom.name),
        data: CowSlice::Borrowed(&custom.data),
    })
}

// Adds a section, unless it is empty.
fn add<'a>(
    section: FilledSection<'a>,
    is_empty: bool,
    sections: &mut Vec<FilledSection<'a>>,
) -> Result<(), EncodeError>
    ensures added { IfOk result (λ _. map filled_frame sections.new.items ≡ map filled_frame sections.old.items ++ (if is_empty then [] else filled_frame section.entry ∷ [])) }
    ensures memory_alone { IfErr result (λ e. e ≡ EncodeError.Memory) }
{
    if is_empty {
        return Ok(());
    }
    sections.push(section)?;
    Ok(())
}

// Adds the types.
fn add_types(
    alloc: Global,
    types: &[SubType],
    sizes: &[u32],
    sections: &mut Vec<FilledSection<'_>>,
) -> Result<(), EncodeError>
    requires whole { total sizes.now ≡ length types.now }
    ensures added { IfOk result (λ _. AddSections sections.old.items sections.new.items (unless_empty (λ xs. spec.TypeSection xs) (grouped sizes.now (map sub_type types.now)))) }
    ensures too_long { IfErr result (λ e. e ≡ EncodeError.TooLong → 2 ^ 32 ≤ length sizes.now) }
{
    let section = type_section(alloc, types, sizes)?;
    let is_empty = section.is_empty();
    add(FilledSection::Types(section), is_empty, sections)
}

// Adds the imports.
fn add_imports(
    alloc: Global,
    imports: &[ImportEntry],
    sections: &mut Vec<FilledSection<'_>>,
) -> Result<(), EncodeError>
    ensures added { IfOk result (λ _. AddSections sections.old.items sections.new.items (unless_empty (λ xs. spec.ImportSection xs) (map import_entry imports.now))) }
    ensures too_long { IfErr result (λ e. e ≡ EncodeError.TooLong → 2 ^ 32 ≤ length imports.now) }
{
    let section = import_section(alloc, imports)?;
    let is_empty = section.is_empty();
    add(FilledSection::Imports(section), is_empty, sections)
}

// Adds the functions.
fn add_functions(
    alloc: Global,
    funcs: &[u32],
    sections: &mut Vec<FilledSection<'_>>,
) -> Result<(), EncodeError>
    ensures added { IfOk result (λ _. AddSections sections.old.items sections.new.items (unless_empty (λ xs. spec.FunctionSection xs) funcs.now)) }
    ensures too_long { IfErr result (λ e. e ≡ EncodeError.TooLong → 2 ^ 32 ≤ length funcs.now) }
{
    let section = function_section(alloc, funcs)?;
    let is_empty = section.is_empty();
    add(FilledSection::Functions(section), is_empty, sections)
}

// Adds the tables.
fn add_tables(
    alloc: Global,
    tables: &[Table],
    sections: &mut Vec<FilledSection<'_>>,
) -> Result<(), EncodeError>
    ensures added { IfOk result (λ _. AddSections sections.old.items sections.new.items (unless_empty (λ xs. spec.TableSection xs) (map items.table tables.now))) }
    ensures too_long { IfErr result (λ e. e ≡ EncodeError.TooLong → 2 ^ 32 ≤ length tables.now) }
{
    let section = table_section(alloc, tables)?;
    let is_empty = section.is_empty();
    add(FilledSection::Tables(section), is_empty, sections)
}

// Adds the memories.
fn add_memories(
    alloc: Global,
    memories: &[MemoryType],
    sections: &mut Vec<FilledSection<'_>>,
) -> Result<(), EncodeError>
    ensures added { IfOk result (λ _. AddSections sections.old.items sections.new.items (unless_empty (λ xs. spec.MemorySection xs) (map memory_type memories.now))) }
    ensures too_long { IfErr result (λ e. e ≡ EncodeError.TooLong → 2 ^ 32 ≤ length memories.now) }
{
    let section = memory_section(alloc, memories)?;
    let is_empty = section.is_empty();
    add(FilledSection::Memories(section), is_empty, sections)
}

// Adds the tags.
fn add_tags(
    alloc: Global,
    tags: &[u32],
    sections: &mut Vec<FilledSection<'_>>,
) -> Result<(), EncodeError>
    ensures added { IfOk result (λ _. AddSections sections.old.items sections.new.items (unless_empty (λ xs. spec.TagSection xs) tags.now)) }
    ensures too_long { IfErr result (λ e. e ≡ EncodeError.TooLong → 2 ^ 32 ≤ length tags.now) }
{
    let section = tag_section(alloc, tags)?;
    let is_empty = section.is_empty();
    add(FilledSection::Tags(section), is_empty, sections)
}

// Adds the globals.
fn add_globals(
    alloc: Global,
    globals: &[items::Global],
    sections: &mut Vec<FilledSection<'_>>,
) -> Result<(), EncodeError>
    ensures added { IfOk result (λ _. AddSections sections.old.items sections.new.items (unless_empty (λ xs. spec.GlobalSection xs) (map items.global globals.now))) }
    ensures too_long { IfErr result (λ e. e ≡ EncodeError.TooLong → 2 ^ 32 ≤ length globals.now) }
{
    let section = global_section(alloc, globals)?;
    let is_empty = section.is_empty();
    add(FilledSection::Globals(section), is_empty, sections)
}

// Adds the exports.
fn add_exports(
    alloc: Global,
    exports: &[Export],
    sections: &mut Vec<FilledSection<'_>>,
) -> Result<(), EncodeError>
    ensures added { IfOk result (λ _. AddSections sections.old.items sections.new.items (unless_empty (λ xs. spec.ExportSection xs) (map items.export exports.now))) }
    ensures too_long { IfErr result (λ e. e ≡ EncodeError.TooLong → 2 ^ 32 ≤ length exports.now) }
{
    let section = export_section(alloc, exports)?;
    let is_empty = section.is_empty();
    add(FilledSection::Exports(section), is_empty, sections)
}

// Adds the function that the module starts with, if there is one.
fn add_start(start: Option<u32>, sections: &mut Vec<FilledSection<'_>>) -> Result<(), EncodeError>
    ensures added { IfOk result (λ _. AddSections sections.old.items sections.new.items (map (λ f. spec.StartSection f) (option_to_list start))) }
    ensures memory_alone { IfErr result (λ e. e ≡ EncodeError.Memory) }
{
    let Some(function_index) = start else {
        return Ok(());
    };
    let section = StartSection { function_index };
    add(FilledSection::Start(section), false, sections)
}

// Adds the element segments.
fn add_elements(
    alloc: Global,
    segments: &[ElementSegment],
    sections: &mut Vec<FilledSection<'_>>,
) -> Result<(), EncodeError>
    ensures added { IfOk result (λ _. AddSections sections.old.items sections.new.items (unless_empty (λ xs. spec.ElementSection xs) (map items.element_segment segments.now))) }
    ensures too_long { IfErr result (λ e. e ≡ EncodeError.TooLong → 2 ^ 32 ≤ length segments.now) }
{
    let section = element_section(alloc, segments)?;
    let is_empty = section.is_empty();
    add(FilledSection::Elements(section), is_empty, sections)
}

// Adds the number of data segments, if it is stated.
fn add_data_count(
    counted: bool,
    segments: &[DataSegment],
    sections: &mut Vec<FilledSection<'_>>,
) -> Result<(), EncodeError>
    ensures added { IfOk result (λ _. AddSections sections.old.items sections.new.items (unless_empty (λ xs. spec.DataCountSection (length xs)) (if counted then map items.data_segment segments.now else []))) }
    ensures too_long { IfErr result (λ e. e ≡ EncodeError.TooLong → 2 ^ 32 ≤ length segments.now) }
{
    if !counted {
        return Ok(());
    }
    let Ok(count) = u32::try_from(segments.len()) else {
        return Err(EncodeError::TooLong);
    };
    let section = DataCountSection { count };
    add(FilledSection::DataCount(section), count == 0, sections)
}

// Adds the bodies.
fn add_code(
    alloc: Global,
    bodies: &[Code],
    sections: &mut Vec<FilledSection<'_>>,
) -> Result<(), EncodeError>
    ensures added { IfOk result (λ _. (encodings : List (List ℕ)) × AreBodyEncodings (map items.made_body bodies.now) encodings × (AddSections sections.old.items sections.new.items (unless_empty (λ xs. spec.CodeSection xs) encodings))) }
    ensures too_long { IfErr result (λ e. e ≡ EncodeError.TooLong → (2 ^ 32 ≤ length bodies.now) ⊎ SomeHaveLongFront (map items.made_body bodies.now)) }
{
    let section = code_section(alloc, bodies)?;
    let is_empty = section.is_empty();
    add(FilledSection::Code(section), is_empty, sections)
}

// Adds the data segments.
fn add_data(
    alloc: Global,
    segments: &[DataSegment],
    sections: &mut Vec<FilledSection<'_>>,
) -> Result<(), EncodeError>
    ensures added { IfOk result (λ _. AddSections sections.old.items sections.new.items (unless_empty (λ xs. spec.DataSection xs) (map items.data_segment segments.now))) }
    ensures too_long { IfErr result (λ e. e ≡ EncodeError.TooLong → 2 ^ 32 ≤ length segments.now) }
{
    let section = data_section(alloc, segments)?;
    let is_empty = section.is_empty();
    add(FilledSection::Data(section), is_empty, sections)
}
