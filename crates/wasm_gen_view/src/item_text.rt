//! The text of items of a module.

ghost use Rattle.std.specs.Prelude.{◌≡◌, ◌++◌, IfOk, string_bytes};
ghost use Rattle.wasm_gen_view.specs.ItemText.{global_text, item_text, limits_text, memory_text, table_text};

use crate::put::{Put, put_optional};
use crate::view::{GlobalType, Item, MemoryType, TableType};
use std::alloc::AllocError;

// Appends the minimum and the maximum, and the bits of an index or an address.
fn put_limits(
    minimum: u64,
    maximum: &Option<u64>,
    is_64: bool,
    out: &mut String,
) -> Result<(), AllocError>
    ensures { IfOk result (λ _. string_bytes out.new ≡ string_bytes out.old ++ limits_text minimum maximum.now is_64) }
{
    minimum.put(out)?;
    out.push_str(" ")?;
    put_optional(maximum, out)?;
    out.push_str(if is_64 { " 64" } else { " 32" })
}

impl Put for TableType {
    ghost text = { table_text };

    fn put(&self, out: &mut String) -> Result<(), AllocError> {
        self.element_type.put(out)?;
        out.push_str(" ")?;
        put_limits(self.minimum, &self.maximum, self.table64, out)
    }
}

impl Put for MemoryType {
    ghost text = { memory_text };

    fn put(&self, out: &mut String) -> Result<(), AllocError> {
        put_limits(self.minimum, &self.maximum, self.memory64, out)?;
        out.push_str(if self.shared { " shared " } else { " plain " })?;
        put_optional(&self.page_size_log2, out)
    }
}

impl Put for GlobalType {
    ghost text = { global_text };

    fn put(&self, out: &mut String) -> Result<(), AllocError> {
        out.push_str(if self.mutable { "var " } else { "const " })?;
        self.value_type.put(out)
    }
}

impl Put for Item {
    ghost text = { item_text };

    fn put(&self, out: &mut String) -> Result<(), AllocError> {
        match self {
            Item::Function(type_place) => {
                out.push_str("function ")?;
                type_place.put(out)
            }
            Item::Table(table_type) => {
                out.push_str("table ")?;
                table_type.put(out)
            }
            Item::Memory(memory_type) => {
                out.push_str("memory ")?;
                memory_type.put(out)
            }
            Item::Global(global_type) => {
                out.push_str("global ")?;
                global_type.put(out)
            }
            Item::Tag(type_place) => {
                out.push_str("tag ")?;
                type_place.put(out)
            }
        }
    }
}
