//! The text of a view.

ghost use Rattle.std.specs.Prelude.{◌≡◌, ◌++◌, IfOk, string_bytes};
ghost use Rattle.wasm_gen_view.specs.Text.{resources_text, view_text};

use crate::lines::{put_exports, put_groups, put_items};
use crate::put::Put;
use crate::view::View;
use std::alloc::{AllocError, Global};

// Appends the lines of the index spaces of resources.
fn put_resources(view: &View, out: &mut String) -> Result<(), AllocError>
    ensures { IfOk result (λ _. string_bytes out.new ≡ string_bytes out.old ++ resources_text view.now) }
{
    put_items("table", &view.tables, out)?;
    put_items("memory", &view.memories, out)?;
    put_items("global", &view.globals, out)?;
    put_items("tag", &view.tags, out)?;
    put_items("element", &view.elements, out)
}

impl Put for View {
    ghost text = { view_text };

    fn put(&self, out: &mut String) -> Result<(), AllocError> {
        put_groups(&self.groups, out)?;
        put_items("index", &self.types, out)?;
        put_items("function", &self.functions, out)?;
        put_resources(self, out)?;
        put_exports(&self.exports, out)
    }
}

impl View {
    /// Returns the text: a line for each type of a group, each item of an index space, and each export, in this order. A type is named by
    /// the number of its group, a dot, and its place there, or in its own group by `own`, a dot, and its place. In names of exports bytes
    /// outside of 20 to 7e, quotes and backslashes are a backslash and two hexadecimal digits. The lines are such as
    ///
    /// ```text
    /// type 0.0 final - struct [const:refnull(own.0) var:i8]
    /// index 0 0.0
    /// function 0 1.0
    /// table 0 refnull(func) 1 - 32
    /// memory 0 2 5 64 shared 16
    /// global 0 const i64
    /// tag 0 1.0
    /// element 0 ref(func)
    /// export "f" function 1.0
    /// ```
    ///
    /// # Errors
    /// Where memory runs out.
    pub fn text(&self, alloc: Global) -> Result<String, AllocError>
        ensures { IfOk result (λ text. string_bytes text ≡ view_text self.now) }
    {
        let mut out = String::new(alloc);
        self.put(&mut out)?;
        Ok(out)
    }
}
