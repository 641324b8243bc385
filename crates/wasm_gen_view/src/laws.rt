//! Laws of views, and of the index spaces that they show. The functions do nothing: their contracts are theorems.

ghost use Rattle.std.specs.Prelude.{◌≡◌, ◌↔◌, ℕ, Bool, List, Ok, true};
ghost use Rattle.std.specs.Bool.{Decides};
ghost use Rattle.std.specs.Cmp.{IsEquivalence};
ghost use Rattle.wasm_smith_validity.specs.Made.{Made};
ghost use Rattle.wasm_smith_validity.specs.Sections.{sections_with};
ghost use Rattle.wasm_smith_validity.specs.Validity.{IsValidByIndex};
ghost use Rattle.wasm_spec.specs.Features.{CompactImports, Features, has};
ghost use Rattle.wasm_spec.specs.Grammar.{IsModule};
ghost use Rattle.wasm_spec.specs.Trees.{DefType, section_types};
ghost use Rattle.wasm_validity.specs.IndexSpaces.{Spaces, spaces_of};
ghost use Rattle.wasmparser_validator.specs.KnownSpaces.{KnownModule, spaces_known};
ghost use Rattle.wasmparser_validator.specs.Validation.{IsValidated};
ghost use Rattle.wasm_gen_view.specs.MadeSpaces.{made_spaces};
ghost use Rattle.wasm_gen_view.specs.SameViews.{as_trees, named_item, viewed};
ghost use Rattle.wasm_gen_view.specs.Views.{HasTypes, IsViewOf, global_type, item_type, memory_type, table_type};
ghost use Rattle.wasm_spec.specs.Types as spec;
ghost use Rattle.wasm_gen_view.specs.Types.{heap_type, ref_type, val_type, storage_type, field_type, func_type, composite_type, sub_type};

use crate::types::{
    CompositeType, FieldType, FuncType, HeapType, RefType, StorageType, SubType, TypePlace,
    TypeReference, ValType,
};
use crate::view::{Export, GlobalType, Item, MemoryType, TableType, View};

/// `==` decides if two types of a view have equal values, as types of the specification over references of a view.
pub fn equal_types()
    ensures places { (a b : TypePlace) → Decides (⟦<TypePlace as PartialEq>⟧.eq a b) (a ≡ b) }
    ensures references { (a b : TypeReference) → Decides (⟦<TypeReference as PartialEq>⟧.eq a b) (a ≡ b) }
    ensures heap_types { (a b : HeapType) → Decides (⟦<HeapType as PartialEq>⟧.eq a b) (heap_type a ≡ heap_type b) }
    ensures ref_types { (a b : RefType) → Decides (⟦<RefType as PartialEq>⟧.eq a b) (ref_type a ≡ ref_type b) }
    ensures val_types { (a b : ValType) → Decides (⟦<ValType as PartialEq>⟧.eq a b) (val_type a ≡ val_type b) }
    ensures storage_types { (a b : StorageType) → Decides (⟦<StorageType as PartialEq>⟧.eq a b) (storage_type a ≡ storage_type b) }
    ensures field_types { (a b : FieldType) → Decides (⟦<FieldType as PartialEq>⟧.eq a b) (field_type a ≡ field_type b) }
    ensures func_types { (a b : FuncType) → Decides (⟦<FuncType as PartialEq>⟧.eq a b) (func_type a ≡ func_type b) }
    ensures composite_types { (a b : CompositeType) → Decides (⟦<CompositeType as PartialEq>⟧.eq a b) (composite_type a ≡ composite_type b) }
    ensures sub_types { (a b : SubType) → Decides (⟦<SubType as PartialEq>⟧.eq a b) (sub_type a ≡ sub_type b) }
{}

/// `==` decides if two items or two views have equal values.
pub fn equal_values()
    ensures tables { (a b : TableType) → Decides (⟦<TableType as PartialEq>⟧.eq a b) (table_type a ≡ table_type b) }
    ensures memories { (a b : MemoryType) → Decides (⟦<MemoryType as PartialEq>⟧.eq a b) (memory_type a ≡ memory_type b) }
    ensures globals { (a b : GlobalType) → Decides (⟦<GlobalType as PartialEq>⟧.eq a b) (global_type a ≡ global_type b) }
    ensures items { (a b : Item) → Decides (⟦<Item as PartialEq>⟧.eq a b) (item_type a ≡ item_type b) }
    ensures exports { (a b : Export) → Decides (⟦<Export as PartialEq>⟧.eq a b) (named_item a ≡ named_item b) }
    ensures views { (a b : View) → Decides (⟦<View as PartialEq>⟧.eq a b) (viewed a ≡ viewed b) }
{}

/// Two views are equal exactly where the index spaces are equal as trees: with defined types in place of type indexes. So `==` is an equivalence.
pub fn equal_views()
    ensures decided { (s t : Spaces) (groups others : List (spec.RecGroup ℕ)) (v w : View) → s.types ≡ section_types groups → t.types ≡ section_types others → HasTypes s → HasTypes t
        → IsViewOf s v → IsViewOf t w → Decides (⟦<View as PartialEq>⟧.eq v w) (as_trees s ≡ as_trees t) }
    ensures equivalence { IsEquivalence ⟦<View as PartialEq>⟧.eq }
{}

/// The index spaces of a made module are those of the sections that it is written as, but for imports by their names. Views don't show these, so both have
/// the same views.
pub fn written_spaces()
    ensures spaces { (m : Made) (counted : Bool) (bodies : List (List ℕ))
        → spaces_of (sections_with counted bodies m) ≡ record (made_spaces m) { imported = (spaces_of (sections_with counted bodies m)).imported } }
    ensures views { (m : Made) (counted : Bool) (bodies : List (List ℕ)) (v : View) → IsViewOf (made_spaces m) v ↔ IsViewOf (spaces_of (sections_with counted bodies m)) v }
{}

/// Where a made module is valid by index, each type index of its items names a type, and so does each in the sections that it is written as.
pub fn valid_names_types()
    ensures made { (features : Features) (m : Made) → IsValidByIndex features m → HasTypes (made_spaces m) }
    ensures written { (features : Features) (m : Made) (counted : Bool) (bodies : List (List ℕ)) → IsValidByIndex features m
        → HasTypes (spaces_of (sections_with counted bodies m)) }
{}

/// Bytes that a made module is written as, and that a validator accepts, have one view: that of the made module and that of the valid module are equal by `==`.
pub fn two_roads()
    ensures { (features : Features) (held : List DefType) (m : Made) (counted : Bool) (bodies : List (List ℕ)) (bytes : List ℕ) (known : KnownModule) (v w : View)
        → IsModule (has features CompactImports) bytes (sections_with counted bodies m) → IsValidated features held bytes (Ok known)
        → IsViewOf (made_spaces m) v → IsViewOf (spaces_known known) w → ⟦<View as PartialEq>⟧.eq v w ≡ true }
{}
