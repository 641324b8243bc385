//! Worked examples of subtyping as a computed value.

ghost use Rattle.std.specs.Prelude.{◌≡◌, false, true};
ghost use Rattle.wasm_spec.specs.Types.{Abstract, Any, Array, Concrete, Cont, Eq, Func, I32, I64, NoCont, NoFunc, None, Ref, Struct};
ghost use Rattle.wasmparser_type_relations.specs.Decision.{is_heap_below, is_val_below};
ghost use Rattle.wasmparser_type_relations.specs.Examples.{across_kinds, known};
ghost use Rattle.wasmparser_types.specs.Index.{Id, Module, RecGroup};

/// A type is below those that it was declared below, in however many steps, and not the other way.
pub fn supertypes()
    ensures itself { is_heap_below known (Concrete (Id 2)) (Concrete (Id 2)) ≡ true }
    ensures one_step { is_heap_below known (Concrete (Id 2)) (Concrete (Id 1)) ≡ true }
    ensures two_steps { is_heap_below known (Concrete (Id 2)) (Concrete (Id 0)) ≡ true }
    ensures function { is_heap_below known (Concrete (Id 5)) (Concrete (Id 4)) ≡ true }
    ensures down { is_heap_below known (Concrete (Id 0)) (Concrete (Id 1)) ≡ false }
    ensures alike { is_heap_below known (Concrete (Id 3)) (Concrete (Id 0)) ≡ false }
    ensures two_kinds { is_heap_below across_kinds (Concrete (Id 1)) (Concrete (Id 0)) ≡ false }
{}

/// A type is below the abstract types above its kind, and above its kind's lowest one alone.
pub fn abstract_types()
    ensures struct_struct { is_heap_below known (Concrete (Id 2)) (Abstract Struct) ≡ true }
    ensures struct_any { is_heap_below known (Concrete (Id 2)) (Abstract Any) ≡ true }
    ensures struct_array { is_heap_below known (Concrete (Id 2)) (Abstract Array) ≡ false }
    ensures function { is_heap_below known (Concrete (Id 5)) (Abstract Func) ≡ true }
    ensures function_any { is_heap_below known (Concrete (Id 5)) (Abstract Any) ≡ false }
    ensures array_eq { is_heap_below known (Concrete (Id 6)) (Abstract Eq) ≡ true }
    ensures continuation { is_heap_below known (Concrete (Id 7)) (Abstract Cont) ≡ true }
    ensures none_struct { is_heap_below known (Abstract None) (Concrete (Id 1)) ≡ true }
    ensures none_function { is_heap_below known (Abstract None) (Concrete (Id 4)) ≡ false }
    ensures nofunc { is_heap_below known (Abstract NoFunc) (Concrete (Id 4)) ≡ true }
    ensures nocont { is_heap_below known (Abstract NoCont) (Concrete (Id 7)) ≡ true }
    ensures struct_below_type { is_heap_below known (Abstract Struct) (Concrete (Id 1)) ≡ false }
{}

/// An index that stands for no type is below itself alone.
pub fn unknown_indexes()
    ensures itself { is_heap_below known (Concrete (Id 8)) (Concrete (Id 8)) ≡ true }
    ensures module_itself { is_heap_below known (Concrete (Module 1)) (Concrete (Module 1)) ≡ true }
    ensures any { is_heap_below known (Concrete (Id 8)) (Abstract Any) ≡ false }
    ensures none { is_heap_below known (Abstract None) (Concrete (Id 8)) ≡ false }
    ensures module_index { is_heap_below known (Concrete (Module 1)) (Concrete (Module 0)) ≡ false }
    ensures other_names { is_heap_below known (Concrete (Module 1)) (Concrete (Id 1)) ≡ false }
    ensures place { is_heap_below known (Concrete (RecGroup 1)) (Concrete (Id 0)) ≡ false }
{}

/// A reference that may be null is below none that may not, and a number is below itself alone.
pub fn values()
    ensures both { is_val_below known (Ref false (Concrete (Id 1))) (Ref true (Concrete (Id 0))) ≡ true }
    ensures same_null { is_val_below known (Ref true (Concrete (Id 1))) (Ref true (Concrete (Id 0))) ≡ true }
    ensures not_null { is_val_below known (Ref false (Concrete (Id 1))) (Ref false (Concrete (Id 0))) ≡ true }
    ensures null { is_val_below known (Ref true (Concrete (Id 1))) (Ref false (Concrete (Id 0))) ≡ false }
    ensures upward { is_val_below known (Ref false (Concrete (Id 0))) (Ref true (Concrete (Id 1))) ≡ false }
    ensures number { is_val_below known I32 I32 ≡ true }
    ensures numbers { is_val_below known I32 I64 ≡ false }
    ensures number_reference { is_val_below known I32 (Ref true (Abstract Any)) ≡ false }
{}
