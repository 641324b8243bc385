//! Laws of the encoding of made modules. The functions do nothing: their contracts are theorems.

ghost use Rattle.std.specs.Prelude.{◌≡◌, ℕ, Bool, List, length};
ghost use Rattle.wasm_smith_definitions.specs.Items.{data_mode, element_segment};
ghost use Rattle.wasm_smith_definitions.specs.declared.segments.DataMode.{DataMode};
ghost use Rattle.wasm_smith_definitions.specs.declared.segments.ElementSegment.{ElementSegment};
ghost use Rattle.wasm_smith_sections.specs.ModuleEncoding.{IsModuleEncoding};
ghost use Rattle.wasm_smith_sections.specs.SmallModules.{HasElementForm, HasMemoryForm, IsSmallModule};
ghost use Rattle.wasm_smith_validity.specs.Made.{Made};
ghost use Rattle.wasm_smith_validity.specs.Sections.{sections_with};
ghost use Rattle.wasm_spec.specs.Grammar.{IsModule};

use wasm_encoder_expression_sections::laws::{bodies_read, items_read};

/// The encoding of a made module whose numbers fit their widths and whose names are UTF-8 reads as its sections.
pub fn modules_read()
    ensures { (compact counted : Bool) (m : Made) (encoding : List ℕ) (is : IsModuleEncoding counted m encoding) → IsSmallModule compact m → length m.bodies ≡ length m.funcs
        → IsModule compact encoding (sections_with counted is.bodies m) }
{
    bodies_read();
    items_read();
}

/// There is a form for each segment that is made.
pub fn segments_have_forms()
    ensures elements { (segment : ElementSegment) → HasElementForm (element_segment segment).mode (element_segment segment).items }
    ensures segments { (mode : DataMode) → HasMemoryForm (data_mode mode) }
{}
