//! Lookups of constant expressions: types, globals, fields.

ghost use Rattle.std.specs.Prelude.{◌≡◌, false, true, IfSome, map, option_map};
ghost use Rattle.std.specs.List.{AllByRecursion};
ghost use Rattle.wasm_spec.specs.TypeReferences.{heap_map, val_map, val_refs};
ghost use Rattle.wasm_spec.specs.Gates.{is_allowed};
ghost use Rattle.wasm_spec.specs.Types as spec;
ghost use Rattle.wasm_spec.specs.Constants.{GlobalGet, RefFunc, RefNull};
ghost use Rattle.wasm_validity.specs.ConstantTyping.{effect, element_at, fields_at, meant, provided, puts, visible_global};
ghost use Rattle.wasmparser_constants.specs.Operands.{meant_type};
ghost use Rattle.wasmparser_constants.specs.Scopes.{context, features_of, field_values, known};
ghost use Rattle.wasmparser_module_types.specs.ModuleTypes.{AreIds};
ghost use Rattle.wasmparser_types.specs.HeapTypes.{heap_type};
ghost use Rattle.wasmparser_types.specs.Index.{number_of};
ghost use Rattle.wasmparser_types.specs.ValTypes.{val_type};

use crate::scope::{Scope, item_at};
use wasmparser_type_relations::gates::is_allowed;
use wasmparser_types::heap_type::HeapType;
use wasmparser_types::index::PackedIndex;
use wasmparser_types::ref_type::RefType;
use wasmparser_types::val_type::{FieldType, ValType};

impl<'a> Scope<'a> {
    /// Returns a value type that names types by their indexes in the module, with ids in place of these, if they name types.
    pub fn by_ids(&self, ty: &ValType) -> Option<ValType>
        ensures same { option_map (λ new. meant_type (known self.now) (val_type new)) result ≡ meant (context self.now) (val_map number_of (val_type ty.now)) }
        ensures ids { IfSome result (λ new. AreIds (known self.now) (val_refs (val_type new))) }
    {
        self.types.with_ids(*ty)
    }

    // Returns a reference to the type of an index that isn't null, if the index names a type.
    pub(crate) fn reference_to(&self, index: u32) -> Option<ValType>
        ensures same { option_map (λ new. meant_type (known self.now) (val_type new)) result ≡ meant (context self.now) (spec.Ref false (spec.Concrete index)) }
        ensures ids { IfSome result (λ new. AreIds (known self.now) (val_refs (val_type new))) }
    {
        // (a proof knows by this call how many types there are)
        let _ = self.types.len();
        let index = PackedIndex::from_module_index(index)?;
        self.by_ids(&ValType::Ref(RefType::concrete(false, index)))
    }

    // Returns the type of null, as a reference to this, where it may be written.
    pub(crate) fn null_type(&self, heap: &HeapType) -> Option<ValType>
        ensures same { option_map (λ ty. puts (meant_type (known self.now) (val_type ty))) result ≡ effect (features_of self.now) (context self.now) (RefNull (heap_map number_of (heap_type heap.now))) }
        ensures ids { IfSome result (λ ty. AreIds (known self.now) (val_refs (val_type ty))) }
    {
        self.written_null(heap)
    }

    // Does the same, over what the type means.
    #[tactic(auto, using(crate::proofs::Meanings::null_steps))]
    fn written_null(&self, heap: &HeapType) -> Option<ValType>
        ensures same { option_map (λ ty. meant_type (known self.now) (val_type ty)) result ≡ provided (is_allowed (features_of self.now) (spec.Ref true (heap_type heap.now))) (meant (context self.now) (spec.Ref true (heap_map number_of (heap_type heap.now)))) }
        ensures ids { IfSome result (λ ty. AreIds (known self.now) (val_refs (val_type ty))) }
    {
        // (a proof knows by this call how many types there are)
        let _ = self.types.len();
        let ty = ValType::Ref(RefType::new(true, *heap)?);
        if !is_allowed(self.types.features(), &ty) {
            return None;
        }
        self.by_ids(&ty)
    }

    // Returns the type of a reference to a function, if there is one and it may be written.
    pub(crate) fn function_type(&self, function: u32) -> Option<ValType>
        ensures same { option_map (λ ty. puts (meant_type (known self.now) (val_type ty))) result ≡ effect (features_of self.now) (context self.now) (RefFunc function) }
        ensures ids { IfSome result (λ ty. AreIds (known self.now) (val_refs (val_type ty))) }
    {
        if !self.types.features().reference_types() {
            return None;
        }
        let index = item_at(
            self.imported_functions,
            self.own_functions,
            function as usize,
        )?;
        self.reference_to(index)
    }

    // Returns the type of what a global holds, if an expression may see it.
    pub(crate) fn global_type(&self, global: u32) -> Option<ValType>
        ensures same { option_map (λ ty. puts (meant_type (known self.now) (val_type ty))) result ≡ effect (features_of self.now) (context self.now) (GlobalGet global) }
        ensures ids { IfSome result (λ ty. AreIds (known self.now) (val_refs (val_type ty))) }
    {
        let ty = self.visible_global(global)?;
        self.by_ids(&ty)
    }

    // Returns the type of a global by type indexes, if an expression may see the global.
    pub(crate) fn visible_global(&self, index: u32) -> Option<ValType>
        ensures { option_map (λ ty. val_map number_of (val_type ty)) result ≡ option_map (λ type. type.value_type) (visible_global (features_of self.now) (context self.now) index) }
    {
        let is_imported = (index as usize) < self.imported_globals.len();
        if !is_imported && !self.types.features().gc() {
            return None;
        }
        let global = item_at(self.imported_globals, self.own_globals, index as usize)?;
        if global.mutable {
            return None;
        }
        Some(global.content_type)
    }

    // Returns the fields of the structure that an index names, if it names one.
    pub(crate) fn fields(&self, index: u32) -> Option<&'a [FieldType]>
        ensures same { option_map (λ fields. map (meant_type (known self.now)) (field_values fields.now)) result ≡ fields_at (context self.now) index }
        ensures ids { IfSome result (λ fields. AllByRecursion (λ type. AreIds (known self.now) (val_refs type)) (field_values fields.now)) }
    {
        let types = self.types;
        let id = types.type_id(index)?;
        let ty = types.sub_type(id).composite_type.as_struct()?;
        Some(&ty.fields)
    }

    // Returns the type of the items of the array that an index names, as an operand, if it names one.
    pub(crate) fn element(&self, index: u32) -> Option<ValType>
        ensures same { option_map (λ item. meant_type (known self.now) (val_type item)) result ≡ element_at (context self.now) index }
        ensures ids { IfSome result (λ item. AreIds (known self.now) (val_refs (val_type item))) }
    {
        let id = self.types.type_id(index)?;
        let ty = self.types.sub_type(id).composite_type.as_array()?;
        Some(ty.0.element_type.unpack())
    }
}
