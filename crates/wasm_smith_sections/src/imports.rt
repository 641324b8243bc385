//! The import section (Core Specification 3.0, Binary Format, Modules, "Import Section").

ghost use Rattle.std.specs.Prelude.{◌≡◌, ◌++◌, ◌∷◌, [], ◌+◌, ◌≤◌, ◌^◌, length, map, IfOk, IfErr};
ghost use Rattle.std.specs.String.{string_bytes};
ghost use Rattle.wasm_encoder_sections.specs.CoreImports.{lent_item};
ghost use Rattle.wasm_smith_shapes.specs.Imports.{import_entry, import_item};

use std::alloc::Global;
use wasm_core_write::encode_error::EncodeError;
use wasm_encoder_sections::import_section::ImportSection;
use wasm_encoder_sections::imports::{Import, ImportCompact, Imports};
use wasm_smith_shapes::imports::{ImportEntry, ImportItem};

/// Returns the import section.
///
/// # Errors
/// `TooLong` only where there are more than 4,294,967,295 entries, and else `Memory`.
pub fn import_section(alloc: Global, entries: &[ImportEntry]) -> Result<ImportSection, EncodeError>
    ensures kept { IfOk result (λ section. section ≡ map import_entry entries.now) }
    ensures too_long { IfErr result (λ e. e ≡ EncodeError.TooLong → 2 ^ 32 ≤ length entries.now) }
{
    let mut section = ImportSection::new(alloc);
    for entry in entries {
        push_entry(alloc, entry, &mut section)?;
    }
    Ok(section)
}

// Adds an entry.
fn push_entry(
    alloc: Global,
    entry: &ImportEntry,
    section: &mut ImportSection,
) -> Result<(), EncodeError>
    ensures added { IfOk result (λ _. section.new ≡ section.old ++ import_entry entry.now ∷ []) }
    ensures too_long { IfErr result (λ e. e ≡ EncodeError.TooLong → 2 ^ 32 ≤ length section.old + 1) }
{
    match entry {
        ImportEntry::Single { module, name, ty } => section.push(&Imports::Single(Import {
            module,
            name,
            ty: *ty,
        })),
        ImportEntry::Compact1 { module, items } => {
            let items = lent_items(alloc, items)?;
            section.push(&Imports::Compact1 {
                module,
                items: &items,
            })
        }
        ImportEntry::Compact2 { module, ty, names } => {
            let names = lent_names(alloc, names)?;
            section.push(&Imports::Compact2 {
                module,
                ty: *ty,
                names: &names,
            })
        }
    }
}

// Lends the imports of an entry.
fn lent_items<'a>(
    alloc: Global,
    items: &'a [ImportItem],
) -> Result<Vec<ImportCompact<'a>>, EncodeError>
    ensures lent { IfOk result (λ lent. map lent_item lent.items ≡ map import_item items.now) }
    ensures memory_alone { IfErr result (λ e. e ≡ EncodeError.Memory) }
{
    let mut lent = Vec::new(alloc);
    for item in items {
        lent.push(ImportCompact {
            name: &item.name,
            ty: item.ty,
        })?;
    }
    Ok(lent)
}

// Lends names.
fn lent_names<'a>(alloc: Global, names: &'a [String]) -> Result<Vec<&'a str>, EncodeError>
    ensures lent { IfOk result (λ lent. map (λ name. name.now) lent.items ≡ map string_bytes names.now) }
    ensures memory_alone { IfErr result (λ e. e ≡ EncodeError.Memory) }
{
    let mut lent: Vec<&'a str> = Vec::new(alloc);
    for name in names {
        lent.push(name)?;
    }
    Ok(lent)
}
