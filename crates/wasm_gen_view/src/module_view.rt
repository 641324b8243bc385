//! The view of a made module.

ghost use Rattle.std.specs.Prelude.{IfOk};
ghost use Rattle.wasm_gen_view.specs.MadeSpaces.{made_spaces};
ghost use Rattle.wasm_gen_view.specs.Views.{IsViewOf};

use crate::made_items::made_items;
use crate::made_types::number_types;
use crate::view::View;
use std::alloc::{AllocError, Global};
use wasm_smith_module::module::Module;

/// Returns the view of a module. An export of an item that isn't there is left out; a module from [`Module::new`] has none.
///
/// # Errors
/// Where memory runs out.
pub fn view_of_module(alloc: Global, made: &Module) -> Result<View, AllocError>
    ensures { IfOk result (IsViewOf (made_spaces made.now.made)) }
{
    let numbers = number_types(alloc, made.types(), made.group_sizes())?;
    let items = made_items(alloc, &numbers, made)?;
    let exports = items.exports(alloc, made.exports())?;
    let (groups, types) = numbers.into_lists(alloc)?;
    Ok(View {
        groups,
        types,
        functions: items.functions,
        tables: items.tables,
        memories: items.memories,
        globals: items.globals,
        tags: items.tags,
        elements: items.elements,
        exports,
    })
}
