//! Modules beside the shapes that they are made for, as lines of text.

use std::alloc::Global;
use wasm_core::types::SubType;
use wasm_encoder_sections::entity_type::{EntityType, ExportKind, TagKind, TagType};
use wasm_smith::imports::{ImportEntry, ImportItem};
use wasm_smith::items::Export;
use wasm_smith::module::Module;
use wasm_smith::shape::{Shape, ShapeExport};
use wasm_smith_config_rows::shapes::shape_of;

// Appends a part of a text, with a number added to the index in front of the bracket, if there is one.
fn push_moved(alloc: Global, text: &mut String, part: &str, start: u32) -> Option<()> {
    let Some((index, rest)) = part.split_once(']') else {
        return text.push_str(part).ok();
    };
    let index = index.parse::<u32>().ok()?.checked_add(start)?;
    text.push_str(&format!(in alloc; "{index}").ok()?).ok()?;
    text.push_str(rest).ok()
}

/// Returns a text in which a number is added to each index in brackets, and without the brackets.
pub fn moved_text(alloc: Global, text: &str, start: u32) -> Option<String> {
    let mut moved = String::new(alloc);
    for part in text.split('[') {
        push_moved(alloc, &mut moved, part, start)?;
    }
    Some(moved)
}

// Returns the shape of a text whose types begin at this index of a module.
fn shape_at(alloc: Global, text: &str, start: u32) -> Option<Shape> {
    shape_of(alloc, &moved_text(alloc, text, start)?)
}

// Returns the number of types in groups.
fn count_types(groups: &[Vec<SubType>]) -> usize {
    let mut count: usize = 0;
    for group in groups {
        count = count.saturating_add(group.len());
    }
    count
}

// Returns the index at which the types of these groups begin in a module where they stand last.
fn start_of(module: &Module, groups: &[Vec<SubType>]) -> Option<u32> {
    let start = module.types().len().checked_sub(count_types(groups))?;
    u32::try_from(start).ok()
}

// Appends a line for each type.
fn push_types(alloc: Global, lines: &mut Vec<String>, types: &[SubType]) -> Option<()> {
    for ty in types {
        lines.push(format!(in alloc; "{ty:?}").ok()?).ok()?;
    }
    Some(())
}

// Checks that the last types of a module are those of a shape's groups.
fn has_types(alloc: Global, module: &Module, groups: &[Vec<SubType>]) -> Option<bool> {
    let mut own = Vec::new(alloc);
    push_types(alloc, &mut own, module.types())?;
    let mut asked = Vec::new(alloc);
    for group in groups {
        push_types(alloc, &mut asked, group)?;
    }
    Some(own.ends_with(&asked))
}

// Checks that the last groups of a module have the sizes of these.
fn has_groups(alloc: Global, module: &Module, groups: &[Vec<SubType>]) -> Option<bool> {
    let mut sizes = Vec::new(alloc);
    for group in groups {
        sizes.push(u32::try_from(group.len()).ok()?).ok()?;
    }
    Some(module.group_sizes().ends_with(&sizes))
}

// Appends a line for an import.
fn push_import(
    alloc: Global,
    lines: &mut Vec<String>,
    module: &str,
    name: &str,
    ty: &EntityType,
) -> Option<()> {
    lines
        .push(format!(in alloc; "{module:?} {name:?} {ty:?}").ok()?)
        .ok()
}

fn push_items(
    alloc: Global,
    lines: &mut Vec<String>,
    module: &str,
    items: &[ImportItem],
) -> Option<()> {
    for item in items {
        push_import(alloc, lines, module, &item.name, &item.ty)?;
    }
    Some(())
}

fn push_names(
    alloc: Global,
    lines: &mut Vec<String>,
    module: &str,
    ty: &EntityType,
    names: &[String],
) -> Option<()> {
    for name in names {
        push_import(alloc, lines, module, name, ty)?;
    }
    Some(())
}

// Appends a line for each import of an entry.
fn push_entry(alloc: Global, lines: &mut Vec<String>, entry: &ImportEntry) -> Option<()> {
    match entry {
        ImportEntry::Single { module, name, ty } => push_import(alloc, lines, module, name, ty),
        ImportEntry::Compact1 { module, items } => push_items(alloc, lines, module, items),
        ImportEntry::Compact2 { module, ty, names } => {
            push_names(alloc, lines, module, ty, names)
        }
    }
}

// Returns a line for each import.
fn imports_of(alloc: Global, entries: &[ImportEntry]) -> Option<Vec<String>> {
    let mut lines = Vec::new(alloc);
    for entry in entries {
        push_entry(alloc, &mut lines, entry)?;
    }
    Some(lines)
}

// Checks that a module has exactly these imports.
fn has_imports(alloc: Global, module: &Module, entries: &[ImportEntry]) -> Option<bool> {
    let own = imports_of(alloc, module.imports())?;
    let asked = imports_of(alloc, entries)?;
    Some(own.as_slice() == asked.as_slice())
}

// Checks that the imports of a module are those of some of these entries, which have different names, in their order.
fn has_some_imports(alloc: Global, module: &Module, entries: &[ImportEntry]) -> Option<bool> {
    let own = imports_of(alloc, module.imports())?;
    let mut left: &[String] = &own;
    for entry in entries {
        let mut lines = Vec::new(alloc);
        push_entry(alloc, &mut lines, entry)?;
        if left.starts_with(&lines) {
            left = left.get(lines.len()..)?;
        }
    }
    Some(left.is_empty())
}

fn kind_of(ty: &EntityType) -> ExportKind {
    match ty {
        EntityType::Function(_) => ExportKind::Func,
        EntityType::Table(_) => ExportKind::Table,
        EntityType::Memory(_) => ExportKind::Memory,
        EntityType::Global(_) => ExportKind::Global,
        EntityType::Tag(_) => ExportKind::Tag,
    }
}

fn count_items(kind: ExportKind, items: &[ImportItem]) -> usize {
    let mut count: usize = 0;
    for item in items {
        if kind_of(&item.ty) == kind {
            count = count.saturating_add(1);
        }
    }
    count
}

// Returns the number of imports of a kind.
fn count_imports(kind: ExportKind, entries: &[ImportEntry]) -> usize {
    let mut count: usize = 0;
    for entry in entries {
        let more = match entry {
            ImportEntry::Single { ty, .. } => usize::from(kind_of(ty) == kind),
            ImportEntry::Compact1 { items, .. } => count_items(kind, items),
            ImportEntry::Compact2 { ty, names, .. } if kind_of(ty) == kind => names.len(),
            ImportEntry::Compact2 { .. } => 0,
        };
        count = count.saturating_add(more);
    }
    count
}

// Returns a line for each type of a kind that is exported.
fn asked_of(alloc: Global, kind: ExportKind, exports: &[ShapeExport]) -> Option<Vec<String>> {
    let mut lines = Vec::new(alloc);
    for export in exports {
        if kind_of(&export.ty) == kind {
            lines.push(format!(in alloc; "{:?}", export.ty).ok()?).ok()?;
        }
    }
    Some(lines)
}

// Appends a line for a type.
fn push_type(alloc: Global, lines: &mut Vec<String>, ty: &EntityType) -> Option<()> {
    lines.push(format!(in alloc; "{ty:?}").ok()?).ok()
}

fn push_tag(alloc: Global, lines: &mut Vec<String>, func_type_idx: u32) -> Option<()> {
    let kind = TagKind::Exception;
    let tag = TagType {
        kind,
        func_type_idx,
    };
    push_type(alloc, lines, &EntityType::Tag(tag))
}

// Appends a line for the type of each item of a kind that a module defines.
fn push_own(
    alloc: Global,
    lines: &mut Vec<String>,
    kind: ExportKind,
    module: &Module,
) -> Option<()> {
    match kind {
        ExportKind::Func => {
            for index in module.funcs() {
                push_type(alloc, lines, &EntityType::Function(*index))?;
            }
        }
        ExportKind::Table => {
            for table in module.tables() {
                push_type(alloc, lines, &EntityType::Table(table.ty))?;
            }
        }
        ExportKind::Memory => {
            for memory in module.memories() {
                push_type(alloc, lines, &EntityType::Memory(*memory))?;
            }
        }
        ExportKind::Global => {
            for global in module.globals() {
                push_type(alloc, lines, &EntityType::Global(global.ty))?;
            }
        }
        ExportKind::Tag => {
            for index in module.tags() {
                push_tag(alloc, lines, *index)?;
            }
        }
    }
    Some(())
}

// Checks that the first items of each kind that a module defines have the types of what is exported.
fn defines(alloc: Global, module: &Module, exports: &[ShapeExport]) -> Option<bool> {
    for kind in [
        ExportKind::Func,
        ExportKind::Table,
        ExportKind::Memory,
        ExportKind::Global,
        ExportKind::Tag,
    ] {
        let mut own = Vec::new(alloc);
        push_own(alloc, &mut own, kind, module)?;
        if !own.starts_with(&asked_of(alloc, kind, exports)?) {
            return Some(false);
        }
    }
    Some(true)
}

// Returns a line for each export.
fn exports_of(alloc: Global, exports: &[Export]) -> Option<Vec<String>> {
    let mut lines = Vec::new(alloc);
    for export in exports {
        let name = export.name.as_str();
        let line = format!(in alloc; "{name:?} {:?} {}", export.kind, export.index);
        lines.push(line.ok()?).ok()?;
    }
    Some(lines)
}

// Returns a line for the export of each item that a module defines for a shape.
fn asked_exports(
    alloc: Global,
    imports: &[ImportEntry],
    exports: &[ShapeExport],
) -> Option<Vec<String>> {
    let mut lines = Vec::new(alloc);
    for (number, export) in exports.iter().enumerate() {
        let kind = kind_of(&export.ty);
        let before = asked_of(alloc, kind, exports.get(..number)?)?;
        let index = count_imports(kind, imports).saturating_add(before.len());
        let name = export.name.as_str();
        let line = format!(in alloc; "{name:?} {kind:?} {index}");
        lines.push(line.ok()?).ok()?;
    }
    Some(lines)
}

// Checks that a module has exactly these exports, each of an item that it defines for it.
fn has_exports(alloc: Global, module: &Module, exports: &[ShapeExport]) -> Option<bool> {
    let own = exports_of(alloc, module.exports())?;
    let asked = asked_exports(alloc, module.imports(), exports)?;
    Some(own.as_slice() == asked.as_slice() && defines(alloc, module, exports)?)
}

// Checks that a module has what this use of a shape asks for, its types aside.
fn has_items(alloc: Global, module: &Module, purpose: &str, shape: &Shape) -> Option<bool> {
    match purpose {
        "module" => Some(
            has_imports(alloc, module, &shape.imports)?
                && has_exports(alloc, module, &shape.exports)?,
        ),
        "imports" => has_some_imports(alloc, module, &shape.imports),
        "exports" => has_exports(alloc, module, &shape.exports),
        _ => None,
    }
}

// Checks that a module has what a shape asks for, whose types begin at this index.
fn is_true_at(
    alloc: Global,
    module: &Module,
    purpose: &str,
    shape: &Shape,
    start: u32,
) -> Option<bool> {
    Some(
        (start == 0 || purpose != "module")
            && has_types(alloc, module, &shape.groups)?
            && has_groups(alloc, module, &shape.groups)?
            && has_items(alloc, module, purpose, shape)?,
    )
}

/// Checks that a module has what the shape of a text asks for in this use: `module`, `imports` or `exports`. It is the only shape of the module.
pub fn is_true_to(alloc: Global, module: &Module, purpose: &str, text: &str) -> Option<bool> {
    let shape = shape_at(alloc, text, 0)?;
    let start = start_of(module, &shape.groups)?;
    if start == 0 {
        return is_true_at(alloc, module, purpose, &shape, 0);
    }
    let moved = shape_at(alloc, text, start)?;
    is_true_at(alloc, module, purpose, &moved, start)
}
