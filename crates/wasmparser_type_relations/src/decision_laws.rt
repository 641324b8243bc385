//! Laws of subtyping as a computed value. The functions do nothing: their contracts are theorems. R and S are kinds of references to defined types.

ghost use Rattle.std.specs.Bool.{Decides};
ghost use Rattle.std.specs.Prelude.{◌≡◌, ◌↔◌, ℕ, Bool, IsTrue, Option};
ghost use Rattle.wasm_spec.specs.ReferenceMaps.{AreTypes, IsOneToOne, KeepsTypes, ReferToTypes};
ghost use Rattle.wasm_spec.specs.Subtyping.{HeapBelow, RefBelow, SubTypes, ValBelow};
ghost use Rattle.wasm_spec.specs.TypeReferences.{heap_map, heap_refs, ref_map, ref_refs, val_map, val_refs};
ghost use Rattle.wasm_spec.specs.Types.{HeapType, RefType, SubType, ValType};
ghost use Rattle.wasmparser_type_relations.specs.Chains.{AreBelowEarlier, by_id};
ghost use Rattle.wasmparser_type_relations.specs.Decision.{by_number, is_heap_below, is_ref_below, is_val_below};
ghost use Rattle.wasmparser_type_relations.specs.Ranked as ranked;
ghost use Rattle.wasmparser_type_relations.specs.Ranked.{IsRanking, Ranking};
ghost use Rattle.wasmparser_types.specs.Index.{Index};

/// Where references are told apart and ranked, the computed values are those of subtyping, for all references, known or not.
pub fn ranked_references<R>()
    ensures heap_types { (ranking : Ranking R) (sub_at : SubTypes R) → IsRanking ranking sub_at
        → (a b : HeapType R) → IsTrue (ranked.is_heap_below ranking sub_at a b) ↔ HeapBelow sub_at a b }
    ensures ref_types { (ranking : Ranking R) (sub_at : SubTypes R) → IsRanking ranking sub_at
        → (a b : RefType R) → IsTrue (ranked.is_ref_below ranking sub_at a b) ↔ RefBelow sub_at a b }
    ensures val_types { (ranking : Ranking R) (sub_at : SubTypes R) → IsRanking ranking sub_at
        → (a b : ValType R) → IsTrue (ranked.is_val_below ranking sub_at a b) ↔ ValBelow sub_at a b }
{}

/// Where each type is below earlier ones of its own kind, ids rank types, and the computed values are those of subtyping, for all indexes, known or not.
pub fn types_by_id()
    ensures ranking { (type_at : ℕ → Option (SubType Index)) → AreBelowEarlier type_at → IsRanking by_number (by_id type_at) }
    ensures heap_types { (type_at : ℕ → Option (SubType Index)) → AreBelowEarlier type_at
        → (a b : HeapType Index) → IsTrue (is_heap_below (by_id type_at) a b) ↔ HeapBelow (by_id type_at) a b }
    ensures ref_types { (type_at : ℕ → Option (SubType Index)) → AreBelowEarlier type_at
        → (a b : RefType Index) → IsTrue (is_ref_below (by_id type_at) a b) ↔ RefBelow (by_id type_at) a b }
    ensures val_types { (type_at : ℕ → Option (SubType Index)) → AreBelowEarlier type_at
        → (a b : ValType Index) → IsTrue (is_val_below (by_id type_at) a b) ↔ ValBelow (by_id type_at) a b }
{}

/// A call that returns whether one type is below another thus returns the computed value.
pub fn answers()
    ensures ref_types { (type_at : ℕ → Option (SubType Index)) → AreBelowEarlier type_at → (a b : RefType Index) (result : Bool)
        → (IsTrue result ↔ RefBelow (by_id type_at) a b) → result ≡ is_ref_below (by_id type_at) a b }
    ensures heap_types { (type_at : ℕ → Option (SubType Index)) → AreBelowEarlier type_at → (a b : HeapType Index) (result : Bool)
        → (IsTrue result ↔ HeapBelow (by_id type_at) a b) → result ≡ is_heap_below (by_id type_at) a b }
    ensures val_types { (type_at : ℕ → Option (SubType Index)) → AreBelowEarlier type_at → (a b : ValType Index) (result : Bool)
        → (IsTrue result ↔ ValBelow (by_id type_at) a b) → result ≡ is_val_below (by_id type_at) a b }
{}

/// A map of references that keeps types takes what is computed to be below to what is below; and back, for references that stand for types, where it is one to one
/// on these.
pub fn mapped_references<R, S>()
    ensures along { (ranking : Ranking R) (f : R → S) (from : SubTypes R) (to : SubTypes S) → KeepsTypes f from to
        → ((r t : R) → Decides (ranking.is_same r t) (r ≡ t))
        → (a b : ValType R) → IsTrue (ranked.is_val_below ranking from a b) → ValBelow to (val_map f a) (val_map f b) }
    ensures val_types { (ranking : Ranking R) (f : R → S) (from : SubTypes R) (to : SubTypes S) → KeepsTypes f from to
        → IsRanking ranking from → ReferToTypes from → IsOneToOne f from
        → (a b : ValType R) → AreTypes from (val_refs a) → AreTypes from (val_refs b)
        → IsTrue (ranked.is_val_below ranking from a b) ↔ ValBelow to (val_map f a) (val_map f b) }
{}

/// The same by ids, as where these stand for defined types.
pub fn mapped_ids<S>()
    ensures along { (f : Index → S) (type_at : ℕ → Option (SubType Index)) (to : SubTypes S) → KeepsTypes f (by_id type_at) to
        → (a b : ValType Index) → IsTrue (is_val_below (by_id type_at) a b) → ValBelow to (val_map f a) (val_map f b) }
    ensures heap_types { (f : Index → S) (type_at : ℕ → Option (SubType Index)) (to : SubTypes S) → KeepsTypes f (by_id type_at) to
        → AreBelowEarlier type_at → ReferToTypes (by_id type_at) → IsOneToOne f (by_id type_at)
        → (a b : HeapType Index) → AreTypes (by_id type_at) (heap_refs a) → AreTypes (by_id type_at) (heap_refs b)
        → IsTrue (is_heap_below (by_id type_at) a b) ↔ HeapBelow to (heap_map f a) (heap_map f b) }
    ensures ref_types { (f : Index → S) (type_at : ℕ → Option (SubType Index)) (to : SubTypes S) → KeepsTypes f (by_id type_at) to
        → AreBelowEarlier type_at → ReferToTypes (by_id type_at) → IsOneToOne f (by_id type_at)
        → (a b : RefType Index) → AreTypes (by_id type_at) (ref_refs a) → AreTypes (by_id type_at) (ref_refs b)
        → IsTrue (is_ref_below (by_id type_at) a b) ↔ RefBelow to (ref_map f a) (ref_map f b) }
    ensures val_types { (f : Index → S) (type_at : ℕ → Option (SubType Index)) (to : SubTypes S) → KeepsTypes f (by_id type_at) to
        → AreBelowEarlier type_at → ReferToTypes (by_id type_at) → IsOneToOne f (by_id type_at)
        → (a b : ValType Index) → AreTypes (by_id type_at) (val_refs a) → AreTypes (by_id type_at) (val_refs b)
        → IsTrue (is_val_below (by_id type_at) a b) ↔ ValBelow to (val_map f a) (val_map f b) }
    ensures agrees { (f : Index → S) (type_at : ℕ → Option (SubType Index)) (to : SubTypes S) (is_below : ValType S → ValType S → Bool) → KeepsTypes f (by_id type_at) to
        → AreBelowEarlier type_at → ReferToTypes (by_id type_at) → IsOneToOne f (by_id type_at)
        → ((a b : ValType S) → IsTrue (is_below a b) ↔ ValBelow to a b)
        → (a b : ValType Index) → AreTypes (by_id type_at) (val_refs a) → AreTypes (by_id type_at) (val_refs b)
        → is_below (val_map f a) (val_map f b) ≡ is_val_below (by_id type_at) a b }
{}
