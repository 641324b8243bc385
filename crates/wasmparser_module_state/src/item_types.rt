//! Validation of types of items in the context of a module's types (Core Specification 3.0, Validation, "Types").

ghost use Rattle.std.specs.Prelude.{◌≡◌, false, nat_lt, if◌then◌else◌, ◌-◌, ◌^◌};
ghost use Rattle.wasm_core_types.specs.Features.{feature_set};
ghost use Rattle.wasm_spec.specs.TypeReferences.{ref_map, val_map};
ghost use Rattle.wasm_spec.specs.Types.{GlobalExternal};
ghost use Rattle.wasm_validity.specs.Rules.{keeps_item, keeps_table, may_cross};
ghost use Rattle.wasm_validity.specs.TypeRules.{are_bounds, is_element_type, is_funcref, is_named, is_table_type, is_tag_type, is_value};
ghost use Rattle.wasmparser_readers.specs.ItemTypes.{plain_limits};
ghost use Rattle.wasmparser_module_state.specs.State.{context, features_of, global, table};
ghost use Rattle.wasmparser_types.specs.Index.{number_of};
ghost use Rattle.wasmparser_types.specs.ValTypes.{val_type};

use crate::module_state::ModuleState;
use wasm_core_types::features::WasmFeatures;
use wasmparser_readers::global_type::GlobalType;
use wasmparser_readers::table_type::TableType;
use wasmparser_type_relations::gates::is_allowed;
use wasmparser_types::index::PackedIndex;
use wasmparser_types::ref_type::RefType;
use wasmparser_types::val_type::ValType;

// Checks that it is the nullable reference to any function.
#[tactic(auto, using(crate::proofs::ItemTypes::item_steps))]
fn is_funcref(ty: RefType) -> bool
    ensures { result ≡ is_funcref (ref_map number_of ty) }
{
    ty.is_nullable() && ty.is_func_ref()
}

// Checks that the bounds of limits are in order, and at most this.
pub(crate) fn are_bounds(initial: u64, maximum: Option<u64>, greatest: u64) -> bool
    ensures { result ≡ are_bounds (plain_limits initial maximum false) greatest }
{
    match maximum {
        None => initial <= greatest,
        Some(maximum) => initial <= maximum && maximum <= greatest,
    }
}

// Returns the most elements of a table.
fn most_elements(ty: &TableType) -> u64
    ensures { result ≡ (if ty.now.table64 then 2 ^ 64 - 1 else 2 ^ 32 - 1) }
{
    if ty.table64 {
        u64::MAX
    } else {
        u64::from(u32::MAX)
    }
}

// Checks that a global may be imported or exported.
pub(crate) fn may_cross(features: WasmFeatures, ty: &GlobalType) -> bool
    ensures { result ≡ may_cross (feature_set features) (global ty.now) }
{
    !ty.mutable || features.mutable_global()
}

// Checks that the number of an index, of whichever kind, is below this.
fn is_below(index: PackedIndex, count: usize) -> bool
    ensures { result ≡ nat_lt (number_of index) count }
{
    if let Some(number) = index.as_module_index() {
        return (number as usize) < count;
    }
    if let Some(number) = index.as_rec_group_index() {
        return (number as usize) < count;
    }
    index.as_core_type_id().is_some_and(|id| id.index() < count)
}

impl ModuleState {
    // Checks that a reference to a type that has an index names one of the module.
    #[tactic(auto, using(crate::proofs::ItemTypes::named_steps))]
    fn is_named(&self, ty: RefType) -> bool
        ensures { result ≡ is_named (context self.now) (ref_map number_of ty).heap_type }
    {
        let count = self.types.len();
        match ty.type_index() {
            None => true,
            Some(index) => is_below(index, count),
        }
    }

    /// Checks that a value type may stand in the module.
    #[tactic(auto, using(crate::proofs::ItemTypes::item_steps))]
    pub(crate) fn is_value(&self, ty: &ValType) -> bool
        ensures { result ≡ is_value (features_of self.now) (context self.now) (val_map number_of (val_type ty.now)) }
    {
        let is_allowed = is_allowed(self.features(), ty);
        match ty {
            ValType::Ref(ty) => is_allowed && self.is_named(*ty),
            _ => is_allowed,
        }
    }

    // Checks that a table may hold these.
    #[tactic(auto, using(crate::proofs::ItemTypes::item_steps))]
    fn is_element_type(&self, ty: RefType) -> bool
        ensures { result ≡ is_element_type (features_of self.now) (context self.now) (ref_map number_of ty) }
    {
        let is_allowed = is_allowed(self.features(), &ValType::Ref(ty));
        (is_funcref(ty) || is_allowed) && self.is_named(ty)
    }

    fn is_table_type(&self, ty: &TableType) -> bool
        ensures { result ≡ is_table_type (features_of self.now) (context self.now) (table ty.now) }
    {
        self.is_element_type(ty.element_type)
            && (!ty.table64 || self.features().memory64())
            && are_bounds(ty.initial, ty.maximum, most_elements(ty))
    }

    /// Checks that another table of this type keeps the rules.
    pub(crate) fn keeps_table(&self, ty: &TableType) -> bool
        ensures { result ≡ keeps_table (features_of self.now) (context self.now) (table ty.now) }
    {
        self.is_table_type(ty) && (self.tables.is_empty() || self.features().reference_types())
    }

    /// Checks that a tag may have the type of this index.
    #[tactic(auto, using(crate::proofs::FuncTypes::func_steps))]
    pub(crate) fn is_tag_type(&self, index: u32) -> bool
        ensures { result ≡ is_tag_type (features_of self.now) (context self.now) index }
    {
        if !self.features().exceptions() {
            return false;
        }
        match self.types.func_type(index) {
            None => false,
            Some(ty) => ty.results().is_empty() || self.features().stack_switching(),
        }
    }

    /// Checks that a global of this type may be imported.
    pub(crate) fn keeps_imported_global(&self, ty: &GlobalType) -> bool
        ensures { result ≡ keeps_item (features_of self.now) (context self.now) (GlobalExternal (global ty.now)) }
    {
        self.is_value(&ty.content_type) && may_cross(self.features(), ty)
    }
}
