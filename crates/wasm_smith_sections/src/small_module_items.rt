//! That bytes can state the items of a module, by their types.

ghost use Rattle.std.specs.Prelude.{Bool};
ghost use Rattle.std.specs.List.{AllByRecursion};
ghost use Rattle.wasm_smith_sections.specs.ModuleItems.{made_of};
ghost use Rattle.wasm_smith_sections.specs.SmallModules.{IsReadable, IsSmallModule};

use crate::module_items::ModuleItems;
use crate::small::{are_small, indexes_are_small, narrow_is_small};

/// Bytes can state these items, where compact imports are on, or where no import is compact. Nothing is done.
pub fn items_are_small(made: &ModuleItems<'_>)
    ensures { (compact : Bool) → AllByRecursion (IsReadable compact) (made_of made.now).imports → IsSmallModule compact (made_of made.now) }
{
    are_small(made.types);
    are_small(made.imports);
    indexes_are_small(made.funcs);
    are_small(made.tables);
    are_small(made.memories);
    indexes_are_small(made.tags);
    are_small(made.globals);
    are_small(made.exports);
    narrow_is_small(made.start);
    are_small(made.elems);
    are_small(made.data_segments);
    are_small(made.bodies);
    are_small(made.customs);
}
