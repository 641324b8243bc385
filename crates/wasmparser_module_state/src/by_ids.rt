//! Types of items with ids in place of the type indexes by which they name others.

ghost use Rattle.std.specs.Prelude.{◌≡◌, IfSome, option_map};
ghost use Rattle.wasm_spec.specs.TypeReferences.{global_map, global_refs, ref_map, ref_refs, table_map, table_refs};
ghost use Rattle.wasmparser_readers.specs.ItemTypes.{global_type, table_type};
ghost use Rattle.wasmparser_module_state.specs.Entities.{meant_global, meant_ref, meant_table};
ghost use Rattle.wasmparser_module_state.specs.State.{global, reference, table};
ghost use Rattle.wasmparser_module_types.specs.ModuleTypes.{AreIds, stands_for};

use wasmparser_module_types::module_types::ModuleTypes;
use wasmparser_readers::global_type::GlobalType;
use wasmparser_readers::table_type::TableType;
use wasmparser_types::ref_type::RefType;
use wasmparser_types::val_type::ValType;

/// Returns a reference type with an id in place of the type index that it has, or None where the module has no type of that index. An index of any kind
/// counts as a type index, by its number.
#[tactic(auto, using(crate::proofs::IdLaws::ref_steps))]
pub fn ref_by_ids(types: &ModuleTypes, ty: RefType) -> Option<RefType>
    ensures same { option_map (ref_map (stands_for types.now)) result ≡ meant_ref types.now.types (reference ty) }
    ensures ids { IfSome result (λ new. AreIds types.now (ref_refs new)) }
{
    types.with_ids(ValType::Ref(ty))?.as_reference_type()
}

/// Returns a table type, likewise.
#[tactic(auto, using(crate::proofs::IdLaws::item_steps))]
pub fn table_by_ids(types: &ModuleTypes, ty: TableType) -> Option<TableType>
    ensures same { option_map (λ new. table_map (stands_for types.now) (table_type new)) result ≡ meant_table types.now.types (table ty) }
    ensures ids { IfSome result (λ new. AreIds types.now (table_refs (table_type new))) }
{
    let element_type = ref_by_ids(types, ty.element_type)?;
    Some(TableType { element_type, ..ty })
}

/// Returns a global type, likewise.
#[tactic(auto, using(crate::proofs::IdLaws::item_steps))]
pub fn global_by_ids(types: &ModuleTypes, ty: GlobalType) -> Option<GlobalType>
    ensures same { option_map (λ new. global_map (stands_for types.now) (global_type new)) result ≡ meant_global types.now.types (global ty) }
    ensures ids { IfSome result (λ new. AreIds types.now (global_refs (global_type new))) }
{
    let content_type = types.with_ids(ty.content_type)?;
    Some(GlobalType { content_type, ..ty })
}
