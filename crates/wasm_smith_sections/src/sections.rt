//! Sections whose items hold at most a constant expression (Core Specification 3.0, Binary Format, "Modules").

ghost use Rattle.std.specs.Prelude.{◌≡◌, ◌++◌, ◌∷◌, [], ◌+◌, ◌≤◌, ◌^◌, length, map, IfOk, IfErr};
ghost use Rattle.wasm_encoder_sections.specs.CoreItems.{memory_type};
ghost use Rattle.wasm_smith_definitions.specs.Items as items;
ghost use Rattle.wasm_smith_sections.specs.Contents.{global_bytes, table_bytes};

use crate::constants::const_expr;
use std::alloc::Global;
use wasm_core_write::encode_error::EncodeError;
use wasm_encoder_expression_sections::global_section::GlobalSection;
use wasm_encoder_expression_sections::table_section::TableSection;
use wasm_encoder_sections::entity_type::{MemoryType, TagKind, TagType};
use wasm_encoder_sections::export_section::ExportSection;
use wasm_encoder_sections::function_section::FunctionSection;
use wasm_encoder_sections::memory_section::MemorySection;
use wasm_encoder_sections::tag_section::TagSection;
use wasm_smith_definitions::items;
use wasm_smith_definitions::items::{Export, Table};

/// Returns the function section: the index of each function's type.
///
/// # Errors
/// `TooLong` only where there are more than 4,294,967,295 functions, and else `Memory`.
pub fn function_section(alloc: Global, funcs: &[u32]) -> Result<FunctionSection, EncodeError>
    ensures kept { IfOk result (λ section. section ≡ funcs.now) }
    ensures too_long { IfErr result (λ e. e ≡ EncodeError.TooLong → 2 ^ 32 ≤ length funcs.now) }
{
    let mut section = FunctionSection::new(alloc);
    for index in funcs {
        section.push(*index)?;
    }
    Ok(section)
}

/// Returns the table section.
///
/// # Errors
/// `TooLong` only where there are more than 4,294,967,295 tables, and else `Memory`.
pub fn table_section(alloc: Global, tables: &[Table]) -> Result<TableSection, EncodeError>
    ensures kept { IfOk result (λ section. section ≡ map table_bytes (map items.table tables.now)) }
    ensures too_long { IfErr result (λ e. e ≡ EncodeError.TooLong → 2 ^ 32 ≤ length tables.now) }
{
    let mut section = TableSection::new(alloc);
    for table in tables {
        push_table(alloc, table, &mut section)?;
    }
    Ok(section)
}

// Adds a table.
fn push_table(alloc: Global, table: &Table, section: &mut TableSection) -> Result<(), EncodeError>
    ensures added { IfOk result (λ _. section.new ≡ section.old ++ table_bytes (items.table table.now) ∷ []) }
    ensures too_long { IfErr result (λ e. e ≡ EncodeError.TooLong → 2 ^ 32 ≤ length section.old + 1) }
{
    match &table.init {
        None => section.push(table.ty),
        Some(init) => {
            let init = const_expr(alloc, init)?;
            section.push_with_init(table.ty, &init)
        }
    }
}

/// Returns the memory section.
///
/// # Errors
/// `TooLong` only where there are more than 4,294,967,295 memories, and else `Memory`.
pub fn memory_section(alloc: Global, memories: &[MemoryType]) -> Result<MemorySection, EncodeError>
    ensures kept { IfOk result (λ section. section ≡ map memory_type memories.now) }
    ensures too_long { IfErr result (λ e. e ≡ EncodeError.TooLong → 2 ^ 32 ≤ length memories.now) }
{
    let mut section = MemorySection::new(alloc);
    for memory in memories {
        section.push(*memory)?;
    }
    Ok(section)
}

/// Returns the tag section: the index of each tag's type.
///
/// # Errors
/// `TooLong` only where there are more than 4,294,967,295 tags, and else `Memory`.
pub fn tag_section(alloc: Global, tags: &[u32]) -> Result<TagSection, EncodeError>
    ensures kept { IfOk result (λ section. section ≡ tags.now) }
    ensures too_long { IfErr result (λ e. e ≡ EncodeError.TooLong → 2 ^ 32 ≤ length tags.now) }
{
    let mut section = TagSection::new(alloc);
    for index in tags {
        section.push(TagType {
            kind: TagKind::Exception,
            func_type_idx: *index,
        })?;
    }
    Ok(section)
}

/// Returns the global section.
///
/// # Errors
/// `TooLong` only where there are more than 4,294,967,295 globals, and else `Memory`.
pub fn global_section(
    alloc: Global,
    globals: &[items::Global],
) -> Result<GlobalSection, EncodeError>
    ensures kept { IfOk result (λ section. section ≡ map global_bytes (map items.global globals.now)) }
    ensures too_long { IfErr result (λ e. e ≡ EncodeError.TooLong → 2 ^ 32 ≤ length globals.now) }
{
    let mut section = GlobalSection::new(alloc);
    for global in globals {
        let init = const_expr(alloc, &global.init)?;
        section.push(global.ty, &init)?;
    }
    Ok(section)
}

/// Returns the export section.
///
/// # Errors
/// `TooLong` only where there are more than 4,294,967,295 exports, and else `Memory`.
pub fn export_section(alloc: Global, exports: &[Export]) -> Result<ExportSection, EncodeError>
    ensures kept { IfOk result (λ section. section ≡ map items.export exports.now) }
    ensures too_long { IfErr result (λ e. e ≡ EncodeError.TooLong → 2 ^ 32 ≤ length exports.now) }
{
    let mut section = ExportSection::new(alloc);
    for export in exports {
        section.push(&export.name, export.kind, export.index)?;
    }
    Ok(section)
}
