//! The types of the values of globals and of the elements of tables.

ghost use Rattle.std.specs.Prelude.{◌≡◌, ◌≤◌, length};
ghost use Rattle.wasm_core_types.specs.CoreTypes.{val_type};
ghost use Rattle.wasm_encoder_sections.specs.CoreItems.{ref_type};
ghost use Rattle.wasm_smith_definitions.specs.Offered.{AreOffersOf, IsOfferedElement, IsOfferedValue, with_null};
ghost use Rattle.wasm_smith_config.specs.declared.config.Config.{Config};

use wasm_core_types::types::{AbstractHeapType, HeapType, RefType, ValType};
use wasm_smith_config::config::Config;
use wasm_smith_types::value_types::Offers;
use wasm_smith_unstructured::unstructured::Unstructured;

// Returns the nullable form of a reference type.
fn nullable(reference: RefType) -> RefType
    ensures { val_type (ValType.Ref result) ≡ with_null (val_type (ValType.Ref reference)) }
{
    RefType {
        nullable: true,
        heap_type: reference.heap_type,
    }
}

/// Draws the type of a global's value, where there are this many types. References are nullable.
pub fn global_value(
    unstructured: &mut Unstructured<'_>,
    offers: &Offers,
    type_count: u32,
) -> ValType
    ensures offered { (c : Config) → AreOffersOf c offers.now → IsOfferedValue c type_count (val_type result) }
    ensures taken { length unstructured.new ≤ length unstructured.old }
{
    match offers.value(unstructured, type_count) {
        ValType::Ref(reference) => ValType::Ref(nullable(reference)),
        number_or_vector => number_or_vector,
    }
}

/// Draws the type of a table's elements, where there are this many types. It is nullable.
pub fn table_element(
    unstructured: &mut Unstructured<'_>,
    config: &Config,
    offers: &Offers,
    type_count: u32,
) -> RefType
    requires { AreOffersOf config.now offers.now }
    ensures offered { IsOfferedElement config.now type_count (ref_type result) }
    ensures taken { length unstructured.new ≤ length unstructured.old }
{
    if !config.reference_types_enabled {
        return RefType {
            nullable: true,
            heap_type: HeapType::Abstract(AbstractHeapType::Func),
        };
    }
    nullable(offers.reference(unstructured, type_count))
}
