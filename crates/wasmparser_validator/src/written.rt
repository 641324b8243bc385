//! The items in the index spaces of a valid module with type indexes, as the module writes them.

ghost use Rattle.std.specs.Prelude.{◌≡◌, ◌<◌, Some, length, slice_get};
ghost use Rattle.wasm_spec.specs.TypeReferences.{global_map, ref_map, table_map};
ghost use Rattle.wasm_validity_laws.specs.NamedTypes.{NamesTypes};
ghost use Rattle.wasmparser_readers.specs.ItemTypes.{global_type, table_type};
ghost use Rattle.wasmparser_types.specs.Index.{number_of};
ghost use Rattle.wasmparser_validator.specs.Shown.{spaces};

use crate::types::TypesRef;
use wasmparser_readers::global_type::GlobalType;
use wasmparser_readers::table_type::TableType;
use wasmparser_types::ref_type::RefType;

impl TypesRef<'_> {
    /// Does nothing: its contract states that what stands in the index spaces names types of the module, functions and tags function types.
    pub fn names_types(&self)
        ensures { NamesTypes (spaces self.now) }
    {
        let _ = self.state();
    }

    /// Returns the type index of the function with this index, which is below their number.
    #[tactic(auto, using(crate::proofs::SpaceLaws::found_steps))]
    pub fn type_index_of_function(&self, index: u32) -> u32
        requires { index < length (spaces self.now).functions }
        ensures { slice_get (spaces self.now).functions index ≡ Some result }
    {
        self.state().type_of_function(index).unwrap()
    }

    /// Returns the type of the table with this index, which is below their number, as the module writes it.
    #[tactic(auto, using(crate::proofs::SpaceLaws::found_steps))]
    pub fn written_table_at(&self, index: u32) -> TableType
        requires { index < length (spaces self.now).tables }
        ensures { slice_get (spaces self.now).tables index ≡ Some (table_map number_of (table_type result)) }
    {
        let Some(ty) = self.state().table_at(index) else {
            unreachable!()
        };
        ty
    }

    /// Returns the type of the global with this index, which is below their number, as the module writes it.
    #[tactic(auto, using(crate::proofs::SpaceLaws::found_steps))]
    pub fn written_global_at(&self, index: u32) -> GlobalType
        requires { index < length (spaces self.now).globals }
        ensures { slice_get (spaces self.now).globals index ≡ Some (global_map number_of (global_type result)) }
    {
        let Some(ty) = self.state().global_at(index) else {
            unreachable!()
        };
        ty
    }

    /// Returns the type index of the tag with this index, which is below their number.
    #[tactic(auto, using(crate::proofs::SpaceLaws::found_steps))]
    pub fn type_index_of_tag(&self, index: u32) -> u32
        requires { index < length (spaces self.now).tags }
        ensures { slice_get (spaces self.now).tags index ≡ Some result }
    {
        self.state().type_of_tag(index).unwrap()
    }

    /// Returns the type of the items of the element segment with this index, which is below their number, as the module writes it.
    #[tactic(auto, using(crate::proofs::SpaceLaws::found_steps))]
    pub fn written_element_at(&self, index: u32) -> RefType
        requires { index < length (spaces self.now).elements }
        ensures { slice_get (spaces self.now).elements index ≡ Some (ref_map number_of result) }
    {
        let Some(ty) = self.state().element_type_at(index) else {
            unreachable!()
        };
        ty
    }
}
