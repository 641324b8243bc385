//! The view of a valid module.

ghost use Rattle.std.specs.Prelude.{IfOk, length};
ghost use Rattle.wasm_gen_view.specs.Views.{AreNumbered, IsViewOf};
ghost use Rattle.wasmparser_validator.specs.Shown.{spaces};

use crate::known_exports::known_exports;
use crate::known_items::known_items;
use crate::known_types::number_known_types;
use crate::view::View;
use std::alloc::{AllocError, Global};
use wasmparser_validator::types::TypesRef;

/// Returns the view of the index spaces of a valid module. Each reference in it goes to one of its groups.
///
/// # Errors
/// Where memory runs out.
pub fn view_of_types(alloc: Global, types: TypesRef<'_>) -> Result<View, AllocError>
    ensures shown { IfOk result (IsViewOf (spaces types.entry)) }
    ensures numbered { IfOk result (λ view. AreNumbered (length view.groups.items) view) }
{
    // The law that the clause `numbered` follows from, which does nothing.
    types.names_types();
    let numbers = number_known_types(alloc, &types)?;
    let items = known_items(alloc, &numbers, &types)?;
    let exports = known_exports(alloc, &items, &types)?;
    let (groups, places) = numbers.into_lists(alloc)?;
    Ok(View {
        groups,
        types: places,
        functions: items.functions,
        tables: items.tables,
        memories: items.memories,
        globals: items.globals,
        tags: items.tags,
        elements: items.elements,
        exports,
    })
}
