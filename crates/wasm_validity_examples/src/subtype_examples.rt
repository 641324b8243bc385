//! Worked examples of what is below what, where types are written with indexes, and of rules that ask it.

ghost use Rattle.std.specs.Prelude.{◌≡◌, [], ◌∷◌, false, length, true};
ghost use Rattle.wasm_spec.specs.Constants.{GlobalGet, RefFunc, RefNull};
ghost use Rattle.wasm_spec.specs.Features.{Features, Gc, ReferenceTypes, has};
ghost use Rattle.wasm_spec.specs.Syntax.{ExpressionItems};
ghost use Rattle.wasm_spec.specs.Types.{Abstract, Any, Array, Concrete, Eq, Extern, Func, GlobalExternal, I31, I32, I64, NoFunc, None, Ref, Struct, TableExternal};
ghost use Rattle.wasm_spec_examples.specs.Examples.{at_least};
ghost use Rattle.wasm_validity.specs.Entries.{OfFunction};
ghost use Rattle.wasm_validity.specs.Rules.{Keeps};
ghost use Rattle.wasm_validity_examples.specs.ConstantExamples.{element_of, own_global};
ghost use Rattle.wasm_validity_examples.specs.Examples.{IsBroken, constant, imports, own_table, reference, table_of};
ghost use Rattle.wasm_validity_examples.specs.SubtypeExamples.{AreOne, Below, related, to, with_related};

/// A type is below those that are declared above it, through several links too, and below no type that merely has fewer of the same fields.
pub fn declared_types()
    ensures supertype { Below (to 1) (to 0) }
    ensures subtype { ¬ (Below (to 0) (to 1)) }
    ensures two_links { Below (to 2) (to 0) }
    ensures two_links_down { ¬ (Below (to 0) (to 2)) }
    ensures function { Below (to 4) (to 3) }
    ensures function_down { ¬ (Below (to 3) (to 4)) }
    ensures itself { Below (to 5) (to 5) }
    ensures not_declared { ¬ (Below (to 11) (to 0)) }
    ensures other_kind { ¬ (Below (to 4) (to 0)) }
    ensures not_null { Below (Ref false (Concrete 1)) (to 0) }
    ensures null_for_none { ¬ (Below (to 1) (Ref false (Concrete 0))) }
{}

/// A structure is below `struct`, `eq` and `any`, a function below `func`, and neither is below the types of other kinds.
pub fn kinds_above()
    ensures structure { Below (to 0) (Ref true (Abstract Struct)) }
    ensures comparable { Below (to 0) (Ref true (Abstract Eq)) }
    ensures any { Below (to 0) (Ref true (Abstract Any)) }
    ensures lower_structure { Below (to 2) (Ref true (Abstract Any)) }
    ensures structure_as_array { ¬ (Below (to 0) (Ref true (Abstract Array))) }
    ensures structure_as_scalar { ¬ (Below (to 0) (Ref true (Abstract I31))) }
    ensures structure_as_function { ¬ (Below (to 0) (Ref true (Abstract Func))) }
    ensures structure_outside { ¬ (Below (to 0) (Ref true (Abstract Extern))) }
    ensures array { Below (to 5) (Ref true (Abstract Array)) }
    ensures comparable_array { Below (to 5) (Ref true (Abstract Eq)) }
    ensures array_as_structure { ¬ (Below (to 5) (Ref true (Abstract Struct))) }
    ensures function { Below (to 3) (Ref true (Abstract Func)) }
    ensures function_not_null { Below (Ref false (Concrete 4)) (Ref false (Abstract Func)) }
    ensures function_as_any { ¬ (Below (to 3) (Ref true (Abstract Any))) }
    ensures comparable_function { ¬ (Below (to 3) (Ref true (Abstract Eq))) }
{}

/// What stands below a type that an index names: the lowest type of its kind, and no other abstract type.
pub fn kinds_below()
    ensures any_structure { ¬ (Below (Ref true (Abstract Struct)) (to 0)) }
    ensures any_function { ¬ (Below (Ref true (Abstract Func)) (to 3)) }
    ensures none { Below (Ref true (Abstract None)) (to 0) }
    ensures none_for_a_function { ¬ (Below (Ref true (Abstract None)) (to 3)) }
    ensures no_function { Below (Ref true (Abstract NoFunc)) (to 3) }
    ensures no_function_for_a_structure { ¬ (Below (Ref true (Abstract NoFunc)) (to 0)) }
{}

/// An index that names no type is below nothing, not even itself; numbers are below themselves alone.
pub fn other_values()
    ensures count { length related.types ≡ 13 }
    ensures no_type { ¬ (Below (to 13) (to 13)) }
    ensures no_type_above { ¬ (Below (to 0) (to 13)) }
    ensures no_type_below_any { ¬ (Below (to 13) (Ref true (Abstract Any))) }
    ensures number { Below I32 I32 }
    ensures other_number { ¬ (Below I32 I64) }
    ensures reference_as_number { ¬ (Below (to 0) I32) }
    ensures number_as_reference { ¬ (Below I32 (to 0)) }
{}

/// Two equal definitions are one type, also in two groups; the places of a group are several types, and a type alone is none of a larger group.
pub fn equal_types()
    ensures one { AreOne 0 6 }
    ensures upward { Below (to 0) (to 6) }
    ensures downward { Below (to 6) (to 0) }
    ensures below_the_other { Below (to 1) (to 6) }
    ensures below_equal_types { AreOne 1 12 }
    ensures lower { Below (to 2) (to 12) }
    ensures groups { AreOne 7 9 }
    ensures second_places { Below (to 8) (to 10) }
    ensures other_place { ¬ (Below (to 7) (to 8)) }
    ensures place_of_another_group { ¬ (Below (to 7) (to 10)) }
    ensures of_a_larger_group { ¬ (Below (to 0) (to 7)) }
    ensures alone { ¬ (Below (to 7) (to 0)) }
{}

/// Rules ask it of globals: a value of a type that is declared below, or of an equal one, is fine.
pub fn values_of_globals()
    ensures below { (features : Features) → has features ReferenceTypes ≡ true → has features Gc ≡ true
        → Keeps features (with_related (imports (GlobalExternal (constant (to 1))) ∷ [])) (own_global (constant (to 0)) (GlobalGet 0 ∷ [])) }
    ensures above { IsBroken (with_related (imports (GlobalExternal (constant (to 0))) ∷ [])) (own_global (constant (to 1)) (GlobalGet 0 ∷ [])) }
    ensures equal { (features : Features) → has features ReferenceTypes ≡ true → has features Gc ≡ true
        → Keeps features (with_related (imports (GlobalExternal (constant (to 0))) ∷ [])) (own_global (constant (to 6)) (GlobalGet 0 ∷ [])) }
    ensures other_place { IsBroken (with_related (imports (GlobalExternal (constant (to 7))) ∷ [])) (own_global (constant (to 8)) (GlobalGet 0 ∷ [])) }
    ensures kind { (features : Features) → has features ReferenceTypes ≡ true → has features Gc ≡ true
        → Keeps features (with_related (imports (GlobalExternal (constant (to 3))) ∷ [])) (own_global (constant (Ref true (Abstract Func))) (GlobalGet 0 ∷ [])) }
    ensures null_of_a_lower_type { (features : Features) → has features ReferenceTypes ≡ true → has features Gc ≡ true
        → Keeps features related (own_global (constant (to 0)) (RefNull (Concrete 2) ∷ [])) }
    ensures null_of_a_higher_type { IsBroken related (own_global (constant (to 2)) (RefNull (Concrete 0) ∷ [])) }
{}

/// They ask it of what is put into tables, too: of the type of the items, and of each item.
pub fn items_of_tables()
    ensures below { (features : Features) → has features ReferenceTypes ≡ true → has features Gc ≡ true
        → Keeps features (with_related (own_table (reference true (Concrete 0)) (at_least 1) ∷ [])) (element_of (ExpressionItems (reference true (Concrete 1)) [])) }
    ensures above { IsBroken (with_related (own_table (reference true (Concrete 1)) (at_least 1) ∷ [])) (element_of (ExpressionItems (reference true (Concrete 0)) [])) }
    ensures equal { (features : Features) → has features ReferenceTypes ≡ true → has features Gc ≡ true
        → Keeps features (with_related (own_table (reference true (Concrete 6)) (at_least 1) ∷ [])) (element_of (ExpressionItems (reference true (Concrete 0)) [])) }
    ensures of_functions { IsBroken (with_related (imports (TableExternal (table_of (reference true (Abstract Func)) (at_least 1))) ∷ [])) (element_of (ExpressionItems (reference true (Concrete 0)) [])) }
    ensures lower_function { (features : Features) → has features ReferenceTypes ≡ true → has features Gc ≡ true
        → Keeps features (with_related (OfFunction 4 ∷ own_table (reference true (Concrete 3)) (at_least 1) ∷ [])) (element_of (ExpressionItems (reference true (Concrete 3)) ((RefFunc 0 ∷ []) ∷ []))) }
    ensures higher_function { IsBroken (with_related (OfFunction 3 ∷ own_table (reference true (Concrete 3)) (at_least 1) ∷ [])) (element_of (ExpressionItems (reference true (Concrete 4)) ((RefFunc 0 ∷ []) ∷ []))) }
{}
