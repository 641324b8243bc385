//! Types as a list keeps them, which name others by ids.

ghost use Rattle.std.specs.Prelude.{◌≡◌, ◌<◌, IfSome, Some, length, option_map, slice_get};
ghost use Rattle.std.specs.List.{AllByRecursion};
ghost use Rattle.std.specs.Option.{option_and_then, option_copied};
ghost use Rattle.wasm_spec.specs.Trees.{type_at, unrolled};
ghost use Rattle.wasm_spec.specs.TypeReferences.{func_map, func_refs, sub_map, sub_refs};
ghost use Rattle.wasm_validity.specs.DefinedTypes.{func_type_at};
ghost use Rattle.wasmparser_type_list.specs.TypeTables.{TablesAgree, sub_types};
ghost use Rattle.wasmparser_type_list.specs.IdTypes.{RefersToNoModule, type_of_index};
ghost use Rattle.wasmparser_module_types.specs.ModuleTypes.{IsIdOf, all_groups, interned_types, module_types};
ghost use Rattle.wasmparser_rec_groups.specs.Interning.{AreKnown};
ghost use Rattle.wasmparser_types.specs.CompositeTypes.{func_of, func_type};
ghost use Rattle.wasmparser_types.specs.SubTypes.{sub_type};

use wasmparser_type_list::type_list::TypeList;
use wasmparser_types::composite_type::FuncType;
use wasmparser_types::index::CoreTypeId;
use wasmparser_types::sub_type::SubType;

// Returns the id of the type with this index.
pub(crate) fn id_at(ids: &[CoreTypeId], index: usize) -> Option<CoreTypeId>
    ensures { result ≡ slice_get ids.now index }
{
    ids.get(index).copied()
}

// Returns the sub type that an id stands for.
pub(crate) fn sub_type_in(list: &TypeList, id: CoreTypeId) -> &SubType
    requires agree { TablesAgree list.now }
    requires no_module { RefersToNoModule list.now }
    requires known { id < length (interned_types list.now) }
    ensures unrolled { unrolled (type_at (interned_types list.now) id) ≡ Some (sub_map (type_of_index all_groups list.now) (sub_type result.now)) }
    ensures ids { AllByRecursion (IsIdOf (interned_types list.now)) (sub_refs (sub_type result.now)) }
    ensures exact { Some (sub_type result.now) ≡ slice_get (sub_types list.now) id }
{
    &list[id]
}

// Returns the function type that an index names, if it names one.
pub(crate) fn func_type_in<'a>(
    list: &'a TypeList,
    ids: &'a [CoreTypeId],
    index: u32,
) -> Option<&'a FuncType>
    requires agree { TablesAgree list.now }
    requires no_module { RefersToNoModule list.now }
    requires known { AreKnown list.now ids.now }
    ensures named { func_type_at (module_types list.now ids.now) index ≡ option_map (func_map (type_of_index all_groups list.now)) (option_map func_type (option_copied result)) }
    ensures ids { IfSome result (λ ty. AllByRecursion (IsIdOf (interned_types list.now)) (func_refs (func_type ty.now))) }
    ensures exact { option_map func_type (option_copied result) ≡ option_and_then (λ sub. func_of sub.composite_type) (option_and_then (slice_get (sub_types list.now)) (slice_get ids.now index)) }
{
    let id = id_at(ids, index as usize)?;
    sub_type_in(list, id).composite_type.as_func()
}
