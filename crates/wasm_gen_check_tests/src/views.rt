//! Lines that are written of modules, and counts of their views.

use std::alloc::Global;
use wasm_gen::judge::{CoreExports, TypesRef};
use wasm_gen::run::{run_check, run_check_explained};
use wasm_gen::session::Session;
use wasm_gen_rows::modules::module_of;
use wasm_gen_rows::new_session::{on_types, renew};
use wasm_test_rows::fields::{four_fields, three_fields};

// Checks that the session writes the line.
fn writes(alloc: Global, session: &mut Session, bytes: &[u8], line: &str) -> bool {
    let mut reader = bytes;
    let mut written = Vec::new(alloc);
    let answer = run_check(alloc, session, &mut reader, &mut written);
    answer == Ok(line.starts_with("yes")) && written.strip_suffix(b"\n") == Some(line.as_bytes())
}

// Returns the number of a view's exports.
fn export_count(view: TypesRef<'_>) -> usize {
    match view.core_exports() {
        Some(exports) => exports.count(),
        None => 0,
    }
}

// Checks that this is the next export: its name, its kind and its index.
fn is_next(alloc: Global, exports: &mut CoreExports<'_>, expected: &str) -> bool {
    let Some(export) = exports.next() else {
        return false;
    };
    match format!(in alloc; "{} {:?} {}", export.name, export.kind, export.index) {
        Ok(shown) => shown.as_str() == expected,
        Err(_) => false,
    }
}

// Checks that these are a view's exports, in order.
fn are_exported(alloc: Global, view: TypesRef<'_>, expected: &str) -> bool {
    let Some(mut exports) = view.core_exports() else {
        return false;
    };
    for export in expected.split(", ") {
        if !is_next(alloc, &mut exports, export) {
            return false;
        }
    }
    exports.next().is_none()
}

/// Checks that the module of a row is valid and has the exports of the row: names, kinds and indexes.
pub fn has_exports(alloc: Global, session: &mut Session, row: &str) -> Option<bool> {
    let (_, sections, expected) = three_fields(row)?;
    let bytes = module_of(alloc, sections)?;
    let answer = on_types(alloc, session, &bytes, expected, are_exported);
    Some(matches!(answer, Ok(true)))
}

// Checks that a view counts what the line says.
fn is_line_of(alloc: Global, view: TypesRef<'_>, line: &str) -> bool {
    let types = view.core_type_count_in_module();
    let functions = view.function_count();
    let tables = view.table_count();
    let memories = view.memory_count();
    let globals = view.global_count();
    let tags = view.tag_count();
    let elements = view.element_count();
    let exports = export_count(view);
    let shown = format!(in alloc;
        "yes types={types} functions={functions} tables={tables} memories={memories} globals={globals} tags={tags} elements={elements} exports={exports}"
    );
    match shown {
        Ok(shown) => shown.as_str() == line,
        Err(_) => false,
    }
}

// Checks that the view of a module counts what the line says, or the module is refused so.
fn is_shown(alloc: Global, session: &mut Session, bytes: &[u8], line: &str) -> bool {
    match on_types(alloc, session, bytes, line, is_line_of) {
        Ok(holds) => holds,
        Err(e) => line.strip_prefix("no ") == Some(e.kind.name()),
    }
}

/// Checks that the line of a row is written of its module, and that the module's view counts what the line says.
pub fn has_line(alloc: Global, session: &mut Session, row: &str) -> Option<bool> {
    let (_, sections, line) = three_fields(row)?;
    let bytes = module_of(alloc, sections)?;
    let is_shown = is_shown(alloc, session, &bytes, line);
    renew(alloc, session);
    Some(is_shown && writes(alloc, session, &bytes, line))
}

// Checks that the session writes the line, and explains it so, where that is asked for.
fn explains(
    alloc: Global,
    session: &mut Session,
    bytes: &[u8],
    line: &str,
    explanation: Option<&str>,
    asked: bool,
) -> bool {
    let mut reader = bytes;
    let mut written = Vec::new(alloc);
    match run_check_explained(alloc, session, &mut reader, &mut written, asked) {
        Ok(checked) => {
            checked.is_yes == line.starts_with("yes")
                && checked.explanation.as_deref() == explanation
                && written.strip_suffix(b"\n") == Some(line.as_bytes())
        }
        Err(_) => false,
    }
}

/// Checks that the line of a row is written of its module, and is explained as the row says where that is asked for, and else not.
pub fn has_explanation(alloc: Global, session: &mut Session, row: &str) -> Option<bool> {
    let (_, sections, line, explanation) = four_fields(row)?;
    let bytes = module_of(alloc, sections)?;
    let explanation = (!explanation.is_empty()).then_some(explanation);
    let is_explained = explains(alloc, session, &bytes, line, explanation, true);
    renew(alloc, session);
    Some(is_explained && explains(alloc, session, &bytes, line, None, false))
}
