//! Worked examples of constant expressions, and of what they stand in.

ghost use Rattle.std.specs.Prelude.{◌≡◌, Bool, List, [], ◌∷◌, Some, None, false, true};
ghost use Rattle.wasm_spec.specs.Constants.{AnyConvertExtern, ArrayNew, ArrayNewDefault, ArrayNewFixed, ExternConvertAny, F32Const, F64Const, GlobalGet, I32Add, I32Mul, I32Sub, I64Add, I64Mul, I64Sub, RefFunc, RefI31, RefNull, StructNew, StructNewDefault, V128Const};
ghost use Rattle.wasm_spec.specs.Features.{Features, BulkMemory, ExtendedConst, Floats, FunctionReferences, Gc, GcTypes, ReferenceTypes, Simd, has};
ghost use Rattle.wasm_spec.specs.Trees.{DefType};
ghost use Rattle.wasm_spec.specs.Syntax.{ActiveData, ActiveElement, DeclaredElement, ExpressionItems, FunctionItems, PassiveData, PassiveElement};
ghost use Rattle.wasm_spec.specs.Types.{Abstract, Any, Array, Concrete, Eq, Extern, F32, F64, Func, FuncExternal, GlobalExternal, I31, I32, I64, NoExtern, NoFunc, Ref, Struct, TableExternal, V128, ValType, funcref};
ghost use Rattle.wasm_spec_examples.specs.Examples.{at_least};
ghost use Rattle.wasm_validity.specs.ConstantTyping.{IsConstantOf};
ghost use Rattle.wasm_validity.specs.Context.{Context, after, after_all, at_first};
ghost use Rattle.wasm_validity.specs.Entries.{OfFunction, OfMemory, OfTable};
ghost use Rattle.wasm_validity_examples.specs.ConstantExamples.{Gives, GivesNone, GivesWith, aggregates, element, element_at_offset, element_of, function_globals, globals, i32_number, i64_number, own_global, segment, table_from, to_type, two_memories, two_tables};
ghost use Rattle.wasm_validity_examples.specs.Examples.{IsBroken, IsKept, KeptWith, between, constant, imports, own_table, reference, table_of, variable, wide, with_types};

/// Numbers and vectors: one value of the wanted type.
pub fn numbers()
    ensures i32 { Gives at_first I32 (i32_number ∷ []) }
    ensures i64 { Gives at_first I64 (i64_number ∷ []) }
    ensures float { GivesWith (Floats ∷ []) at_first F32 (F32Const 0 ∷ []) }
    ensures double { GivesWith (Floats ∷ []) at_first F64 (F64Const 0 ∷ []) }
    ensures vector { GivesWith (Simd ∷ []) at_first V128 (V128Const [] ∷ []) }
    ensures other_type { GivesNone at_first I64 (i32_number ∷ []) }
    ensures nothing { GivesNone at_first I32 [] }
    ensures two { GivesNone at_first I32 (i32_number ∷ i32_number ∷ []) }
{}

/// Sums, differences and products of two numbers, which are a feature.
pub fn sums()
    ensures sum { GivesWith (ExtendedConst ∷ []) at_first I32 (i32_number ∷ i32_number ∷ I32Add ∷ []) }
    ensures difference { GivesWith (ExtendedConst ∷ []) at_first I32 (i32_number ∷ i32_number ∷ I32Sub ∷ []) }
    ensures product { GivesWith (ExtendedConst ∷ []) at_first I32 (i32_number ∷ i32_number ∷ I32Mul ∷ []) }
    ensures large_sum { GivesWith (ExtendedConst ∷ []) at_first I64 (i64_number ∷ i64_number ∷ I64Add ∷ []) }
    ensures large_difference { GivesWith (ExtendedConst ∷ []) at_first I64 (i64_number ∷ i64_number ∷ I64Sub ∷ []) }
    ensures large_product { GivesWith (ExtendedConst ∷ []) at_first I64 (i64_number ∷ i64_number ∷ I64Mul ∷ []) }
    ensures nested { GivesWith (ExtendedConst ∷ []) at_first I32 (i32_number ∷ i32_number ∷ i32_number ∷ I32Mul ∷ I32Add ∷ []) }
    ensures of_one { GivesNone at_first I32 (i32_number ∷ I32Add ∷ []) }
    ensures of_three { GivesNone at_first I32 (i32_number ∷ i32_number ∷ i32_number ∷ I32Add ∷ []) }
    ensures before { GivesNone at_first I32 (I32Add ∷ i32_number ∷ i32_number ∷ []) }
    ensures mixed { GivesNone at_first I32 (i64_number ∷ i32_number ∷ I32Add ∷ []) }
    ensures mixed_large { GivesNone at_first I64 (i64_number ∷ i32_number ∷ I64Add ∷ []) }
{}

/// Null, and references to functions.
pub fn references()
    ensures null { GivesWith (ReferenceTypes ∷ []) at_first (Ref true (Abstract Func)) (RefNull (Abstract Func) ∷ []) }
    ensures null_external { GivesWith (ReferenceTypes ∷ GcTypes ∷ []) at_first (Ref true (Abstract Extern)) (RefNull (Abstract Extern) ∷ []) }
    ensures null_as_none { GivesNone at_first (Ref false (Abstract Func)) (RefNull (Abstract Func) ∷ []) }
    ensures null_of_a_type { (features : Features) → has features ReferenceTypes ≡ true → has features Gc ≡ true → IsConstantOf features (with_types []) (to_type true (with_types []) 3) (RefNull (Concrete 3) ∷ []) }
    ensures null_of_no_type { (type : ValType DefType) → GivesNone (with_types []) type (RefNull (Concrete 4) ∷ []) }
    ensures function { GivesWith (ReferenceTypes ∷ []) (with_types (OfFunction 1 ∷ [])) (Ref false (Abstract Func)) (RefFunc 0 ∷ []) }
    ensures function_of_its_type { GivesWith (ReferenceTypes ∷ []) (with_types (OfFunction 1 ∷ [])) (to_type false (with_types []) 1) (RefFunc 0 ∷ []) }
    ensures imported_function { GivesWith (ReferenceTypes ∷ []) (with_types (imports (FuncExternal 2) ∷ OfFunction 1 ∷ [])) (to_type false (with_types []) 2) (RefFunc 0 ∷ []) }
    ensures no_function { (type : ValType DefType) → GivesNone (with_types (OfFunction 1 ∷ [])) type (RefFunc 1 ∷ []) }
{}

/// Null is of the type that is written, which isn't the lowest of its kind.
pub fn types_of_null()
    ensures written { GivesNone at_first (Ref true (Abstract NoFunc)) (RefNull (Abstract Func) ∷ []) }
    ensures lowest { GivesWith (ReferenceTypes ∷ Gc ∷ GcTypes ∷ []) at_first (Ref true (Abstract NoFunc)) (RefNull (Abstract NoFunc) ∷ []) }
    ensures below { GivesWith (ReferenceTypes ∷ Gc ∷ GcTypes ∷ []) at_first (Ref true (Abstract Func)) (RefNull (Abstract NoFunc) ∷ []) }
    ensures other_kind { GivesNone at_first (Ref true (Abstract Extern)) (RefNull (Abstract Func) ∷ []) }
{}

/// References to types that indexes name, and to functions of these types, of which imported ones come first.
pub fn named_types()
    ensures null { (features : Features) → has features ReferenceTypes ≡ true → has features FunctionReferences ≡ true → IsConstantOf features (with_types []) (Ref true (Abstract Func)) (RefNull (Concrete 1) ∷ []) }
    ensures null_without { (features : Features) (type : ValType DefType) → has features Gc ≡ false → has features FunctionReferences ≡ false → ¬ (IsConstantOf features (with_types []) type (RefNull (Concrete 1) ∷ [])) }
    ensures own_function { GivesWith (ReferenceTypes ∷ []) (with_types (imports (FuncExternal 2) ∷ OfFunction 1 ∷ [])) (to_type false (with_types []) 1) (RefFunc 1 ∷ []) }
    ensures function_without { (features : Features) (type : ValType DefType) → has features ReferenceTypes ≡ false → ¬ (IsConstantOf features (with_types (OfFunction 1 ∷ [])) type (RefFunc 0 ∷ [])) }
    ensures other_function { GivesNone (with_types (imports (FuncExternal 2) ∷ OfFunction 1 ∷ [])) (to_type false (with_types []) 1) (RefFunc 0 ∷ []) }
    ensures other_kind { GivesNone (with_types (OfFunction 1 ∷ [])) (Ref true (Abstract Struct)) (RefFunc 0 ∷ []) }
{}

/// What globals hold: those that are never written to, and of the module's own those before only with garbage collection.
pub fn what_globals_hold()
    ensures imported { Gives globals I32 (GlobalGet 0 ∷ []) }
    ensures imported_variable { (type : ValType DefType) → GivesNone globals type (GlobalGet 1 ∷ []) }
    ensures own { GivesWith (Gc ∷ []) globals I32 (GlobalGet 2 ∷ []) }
    ensures own_variable { (type : ValType DefType) → GivesNone globals type (GlobalGet 3 ∷ []) }
    ensures none { (type : ValType DefType) → GivesNone globals type (GlobalGet 4 ∷ []) }
    ensures other_type { GivesNone globals I64 (GlobalGet 0 ∷ []) }
{}

/// Structures and arrays: values in the order of the fields, packed numbers as numbers of 32 bits, the item before its count.
pub fn structures_and_arrays()
    ensures structure { GivesWith (Gc ∷ []) aggregates (to_type false aggregates 0) (i64_number ∷ i32_number ∷ StructNew 0 ∷ []) }
    ensures fields_in_order { (type : ValType DefType) → GivesNone aggregates type (i32_number ∷ i64_number ∷ StructNew 0 ∷ []) }
    ensures of_no_fields { (type : ValType DefType) → GivesNone aggregates type (StructNew 0 ∷ []) }
    ensures default_structure { GivesWith (Gc ∷ []) aggregates (to_type false aggregates 0) (StructNewDefault 0 ∷ []) }
    ensures default_reference { GivesWith (Gc ∷ []) aggregates (to_type false aggregates 3) (StructNewDefault 3 ∷ []) }
    ensures array_as_structure { (type : ValType DefType) → GivesNone aggregates type (StructNewDefault 2 ∷ []) }
    ensures array { GivesWith (Gc ∷ []) aggregates (to_type false aggregates 2) (i32_number ∷ i32_number ∷ ArrayNew 2 ∷ []) }
    ensures array_of_references { GivesWith (Gc ∷ []) aggregates (to_type false aggregates 1) (StructNewDefault 0 ∷ i32_number ∷ ArrayNew 1 ∷ []) }
    ensures count_first { (type : ValType DefType) → GivesNone aggregates type (i32_number ∷ StructNewDefault 0 ∷ ArrayNew 1 ∷ []) }
    ensures default_array { GivesWith (Gc ∷ []) aggregates (to_type false aggregates 2) (i32_number ∷ ArrayNewDefault 2 ∷ []) }
    ensures no_default { (type : ValType DefType) → GivesNone aggregates type (i32_number ∷ ArrayNewDefault 1 ∷ []) }
    ensures fixed { GivesWith (Gc ∷ []) aggregates (to_type false aggregates 1) (StructNewDefault 0 ∷ StructNewDefault 0 ∷ ArrayNewFixed 1 2 ∷ []) }
    ensures fixed_of_none { GivesWith (Gc ∷ []) aggregates (to_type false aggregates 1) (ArrayNewFixed 1 0 ∷ []) }
    ensures fixed_of_fewer { (type : ValType DefType) → GivesNone aggregates type (StructNewDefault 0 ∷ ArrayNewFixed 1 2 ∷ []) }
    ensures structure_as_array { (type : ValType DefType) → GivesNone aggregates type (ArrayNewFixed 0 0 ∷ []) }
{}

/// What a structure or an array holds where nothing is given: a reference that can't be null has no such value.
pub fn default_values()
    ensures not_null { (type : ValType DefType) → GivesNone aggregates type (StructNewDefault 4 ∷ []) }
    ensures given { GivesWith (Gc ∷ []) aggregates (to_type false aggregates 4) (i32_number ∷ StructNewDefault 0 ∷ StructNew 4 ∷ []) }
    ensures null_items { GivesWith (Gc ∷ []) aggregates (to_type false aggregates 5) (i32_number ∷ ArrayNewDefault 5 ∷ []) }
    ensures array_of_a_structure { (type : ValType DefType) → GivesNone aggregates type (i32_number ∷ ArrayNewDefault 0 ∷ []) }
    ensures no_type { (type : ValType DefType) → GivesNone aggregates type (StructNewDefault 6 ∷ []) }
{}

/// Operands may be below what is asked for; null is one only where that may be null.
pub fn operands_below()
    ensures scalar { GivesWith (Gc ∷ []) aggregates (to_type false aggregates 3) (i32_number ∷ RefI31 ∷ StructNew 3 ∷ []) }
    ensures null { GivesWith (ReferenceTypes ∷ Gc ∷ GcTypes ∷ []) aggregates (to_type false aggregates 3) (RefNull (Abstract Any) ∷ StructNew 3 ∷ []) }
    ensures number { (type : ValType DefType) → GivesNone aggregates type (i32_number ∷ StructNew 3 ∷ []) }
    ensures external { (type : ValType DefType) → GivesNone aggregates type (RefNull (Abstract Extern) ∷ StructNew 3 ∷ []) }
    ensures null_for_none { (type : ValType DefType) → GivesNone aggregates type (i32_number ∷ RefNull (Concrete 0) ∷ StructNew 4 ∷ []) }
{}

/// Items of arrays, likewise: as many as are stated, each below their type.
pub fn items_of_arrays()
    ensures repeated { GivesWith (Gc ∷ []) aggregates (to_type false aggregates 5) (StructNewDefault 0 ∷ i32_number ∷ ArrayNew 5 ∷ []) }
    ensures two_kinds { GivesWith (Gc ∷ []) aggregates (to_type false aggregates 5) (i32_number ∷ RefI31 ∷ StructNewDefault 0 ∷ ArrayNewFixed 5 2 ∷ []) }
    ensures one_too_many { (type : ValType DefType) → GivesNone aggregates type (StructNewDefault 0 ∷ StructNewDefault 0 ∷ ArrayNewFixed 1 1 ∷ []) }
    ensures null_for_none { (type : ValType DefType) → GivesNone aggregates type (RefNull (Concrete 0) ∷ ArrayNewFixed 1 1 ∷ []) }
{}

/// A new structure has the types above its own, and no others.
pub fn types_of_structures()
    ensures kind { GivesWith (Gc ∷ []) aggregates (Ref false (Abstract Struct)) (StructNewDefault 0 ∷ []) }
    ensures comparable { GivesWith (Gc ∷ []) aggregates (Ref true (Abstract Eq)) (StructNewDefault 0 ∷ []) }
    ensures other_kind { GivesNone aggregates (Ref true (Abstract Array)) (StructNewDefault 0 ∷ []) }
    ensures other_type { GivesNone aggregates (to_type true aggregates 3) (StructNewDefault 0 ∷ []) }
{}

/// Scalars, and references from outside and inside, which are null where they were.
pub fn conversions()
    ensures scalar { GivesWith (Gc ∷ []) at_first (Ref false (Abstract I31)) (i32_number ∷ RefI31 ∷ []) }
    ensures scalar_of_another { (type : ValType DefType) → GivesNone at_first type (i64_number ∷ RefI31 ∷ []) }
    ensures inside { GivesWith (ReferenceTypes ∷ Gc ∷ GcTypes ∷ []) at_first (Ref true (Abstract Any)) (RefNull (Abstract Extern) ∷ AnyConvertExtern ∷ []) }
    ensures inside_of_none { GivesWith (ReferenceTypes ∷ Gc ∷ GcTypes ∷ []) at_first (Ref true (Abstract Any)) (RefNull (Abstract NoExtern) ∷ AnyConvertExtern ∷ []) }
    ensures inside_is_null { GivesNone at_first (Ref false (Abstract Any)) (RefNull (Abstract Extern) ∷ AnyConvertExtern ∷ []) }
    ensures outside { GivesWith (Gc ∷ []) at_first (Ref false (Abstract Extern)) (i32_number ∷ RefI31 ∷ ExternConvertAny ∷ []) }
    ensures of_a_number { (type : ValType DefType) → GivesNone at_first type (i32_number ∷ ExternConvertAny ∷ []) }
    ensures of_nothing { (type : ValType DefType) → GivesNone at_first type (AnyConvertExtern ∷ []) }
{}

/// What is converted, and to what: any reference of the other kind, and not what it was before.
pub fn converted_references()
    ensures null_outside { GivesWith (ReferenceTypes ∷ Gc ∷ GcTypes ∷ []) at_first (Ref true (Abstract Extern)) (RefNull (Abstract Any) ∷ ExternConvertAny ∷ []) }
    ensures outside_is_null { GivesNone at_first (Ref false (Abstract Extern)) (RefNull (Abstract Any) ∷ ExternConvertAny ∷ []) }
    ensures there_and_back { GivesWith (Gc ∷ []) at_first (Ref false (Abstract Any)) (i32_number ∷ RefI31 ∷ ExternConvertAny ∷ AnyConvertExtern ∷ []) }
    ensures no_scalar { GivesNone at_first (Ref false (Abstract I31)) (i32_number ∷ RefI31 ∷ ExternConvertAny ∷ AnyConvertExtern ∷ []) }
    ensures inside_already { (type : ValType DefType) → GivesNone at_first type (RefNull (Abstract Any) ∷ AnyConvertExtern ∷ []) }
    ensures outside_already { (type : ValType DefType) → GivesNone at_first type (RefNull (Abstract Extern) ∷ ExternConvertAny ∷ []) }
    ensures of_functions { (type : ValType DefType) → GivesNone at_first type (RefNull (Abstract Func) ∷ ExternConvertAny ∷ []) }
{}

/// Initialisers of globals: a global doesn't see itself, and its own type is asked too.
pub fn initialised_globals()
    ensures number { IsKept at_first (own_global (constant I32) (i32_number ∷ [])) }
    ensures variable { IsKept at_first (own_global (variable I32) (i32_number ∷ [])) }
    ensures other_type { IsBroken at_first (own_global (constant I32) (i64_number ∷ [])) }
    ensures nothing { IsBroken at_first (own_global (constant I32) []) }
    ensures large_number { IsKept at_first (own_global (constant I64) (i64_number ∷ [])) }
    ensures float { KeptWith (Floats ∷ []) at_first (own_global (constant F32) (F32Const 0 ∷ [])) }
    ensures double { KeptWith (Floats ∷ []) at_first (own_global (constant F64) (F64Const 0 ∷ [])) }
    ensures vector { KeptWith (Simd ∷ []) at_first (own_global (constant V128) (V128Const [] ∷ [])) }
    ensures itself { IsBroken at_first (own_global (constant I32) (GlobalGet 0 ∷ [])) }
    ensures one_before { KeptWith (Gc ∷ []) (after at_first (own_global (constant I32) (i32_number ∷ []))) (own_global (constant I32) (GlobalGet 0 ∷ [])) }
    ensures variable_before { IsBroken (after at_first (own_global (variable I32) (i32_number ∷ []))) (own_global (constant I32) (GlobalGet 0 ∷ [])) }
    ensures imported { IsKept (after at_first (imports (GlobalExternal (constant I32)))) (own_global (constant I32) (GlobalGet 0 ∷ [])) }
    ensures of_no_type { IsBroken (with_types []) (own_global (constant (Ref true (Concrete 4))) (RefNull (Abstract Func) ∷ [])) }
{}

/// The types of globals are asked, and what their initialisers give is below them.
pub fn types_of_globals()
    ensures two { IsBroken at_first (own_global (constant I32) (i32_number ∷ i32_number ∷ [])) }
    ensures other_global { IsBroken (after at_first (imports (GlobalExternal (constant I64)))) (own_global (constant I32) (GlobalGet 0 ∷ [])) }
    ensures nullable { KeptWith (ReferenceTypes ∷ []) (with_types (OfFunction 0 ∷ [])) (own_global (constant (Ref true (Abstract Func))) (RefFunc 0 ∷ [])) }
    ensures not_null { KeptWith (ReferenceTypes ∷ FunctionReferences ∷ []) (with_types (OfFunction 0 ∷ [])) (own_global (constant (Ref false (Abstract Func))) (RefFunc 0 ∷ [])) }
    ensures null_for_none { IsBroken at_first (own_global (constant (Ref false (Abstract Func))) (RefNull (Abstract Func) ∷ [])) }
    ensures below { KeptWith (ReferenceTypes ∷ []) (after at_first (imports (GlobalExternal (constant (Ref false (Abstract Func)))))) (own_global (constant (Ref true (Abstract Func))) (GlobalGet 0 ∷ [])) }
    ensures above { IsBroken function_globals (own_global (constant (Ref false (Abstract Func))) (GlobalGet 0 ∷ [])) }
    ensures own { KeptWith (Gc ∷ ReferenceTypes ∷ []) function_globals (own_global (constant (Ref true (Abstract Func))) (GlobalGet 2 ∷ [])) }
{}

/// Initialisers of tables, which are a feature, and what they give.
pub fn initialised_tables()
    ensures null { KeptWith (ReferenceTypes ∷ FunctionReferences ∷ []) at_first (table_from funcref (RefNull (Abstract Func) ∷ [])) }
    ensures not_null { KeptWith (ReferenceTypes ∷ FunctionReferences ∷ []) (with_types (OfFunction 0 ∷ [])) (table_from (reference false (Abstract Func)) (RefFunc 0 ∷ [])) }
    ensures null_for_none { IsBroken at_first (table_from (reference false (Abstract Func)) (RefNull (Abstract Func) ∷ [])) }
    ensures number { IsBroken at_first (table_from funcref (i32_number ∷ [])) }
{}

/// The types of tables are asked also where there is an initialiser.
pub fn types_of_tables()
    ensures external { KeptWith (ReferenceTypes ∷ GcTypes ∷ FunctionReferences ∷ []) at_first (table_from (reference true (Abstract Extern)) (RefNull (Abstract Extern) ∷ [])) }
    ensures not_null { KeptWith (ReferenceTypes ∷ FunctionReferences ∷ []) (after at_first (imports (GlobalExternal (constant (Ref false (Abstract Func)))))) (table_from (reference false (Abstract Func)) (GlobalGet 0 ∷ [])) }
    ensures no_type { IsBroken (with_types []) (table_from (reference true (Concrete 4)) (RefNull (Abstract Func) ∷ [])) }
    ensures crossed { IsBroken at_first (OfTable (record { type = table_of funcref (between 2 1); initialiser = Some (RefNull (Abstract Func) ∷ []) })) }
    ensures two { IsBroken at_first (table_from funcref (RefNull (Abstract Func) ∷ RefNull (Abstract Func) ∷ [])) }
{}

/// Of globals, initialisers of tables see imported ones alone, whatever the flags.
pub fn globals_for_tables()
    ensures imported { KeptWith (FunctionReferences ∷ []) function_globals (table_from funcref (GlobalGet 0 ∷ [])) }
    ensures imported_variable { IsBroken function_globals (table_from funcref (GlobalGet 1 ∷ [])) }
    ensures own { IsBroken function_globals (table_from funcref (GlobalGet 2 ∷ [])) }
    ensures none { IsBroken function_globals (table_from funcref (GlobalGet 3 ∷ [])) }
{}

/// Element segments: where they may be put, from which offset on, and what their items are.
pub fn elements()
    ensures none { IsKept (after at_first (own_table funcref (at_least 1))) (element (ActiveElement None (i32_number ∷ [])) (FunctionItems [])) }
    ensures function { IsKept (with_types (OfFunction 0 ∷ own_table funcref (at_least 1) ∷ [])) (element (ActiveElement None (i32_number ∷ [])) (FunctionItems (0 ∷ []))) }
    ensures no_function { IsBroken (with_types (OfFunction 0 ∷ own_table funcref (at_least 1) ∷ [])) (element (ActiveElement None (i32_number ∷ [])) (FunctionItems (0 ∷ 1 ∷ []))) }
    ensures no_table { IsBroken at_first (element (ActiveElement None (i32_number ∷ [])) (FunctionItems [])) }
    ensures second_table { IsKept (after_all at_first (own_table funcref (at_least 1) ∷ own_table funcref (wide (at_least 1)) ∷ [])) (element (ActiveElement (Some 1) (i64_number ∷ [])) (FunctionItems [])) }
    ensures large_offset { IsBroken (after at_first (own_table funcref (at_least 1))) (element (ActiveElement None (i64_number ∷ [])) (FunctionItems [])) }
    ensures small_offset { IsBroken (after at_first (own_table funcref (wide (at_least 1)))) (element (ActiveElement None (i32_number ∷ [])) (FunctionItems [])) }
    ensures passive { KeptWith (BulkMemory ∷ []) at_first (element PassiveElement (FunctionItems [])) }
    ensures declared { KeptWith (BulkMemory ∷ []) at_first (element DeclaredElement (FunctionItems [])) }
    ensures expression { KeptWith (ReferenceTypes ∷ []) (after at_first (own_table funcref (at_least 1))) (element (ActiveElement None (i32_number ∷ [])) (ExpressionItems funcref ((RefNull (Abstract Func) ∷ []) ∷ []))) }
    ensures wrong_expression { IsBroken (after at_first (own_table funcref (at_least 1))) (element (ActiveElement None (i32_number ∷ [])) (ExpressionItems funcref ((RefNull (Abstract Func) ∷ []) ∷ (i32_number ∷ []) ∷ []))) }
    ensures other_table { IsBroken (after at_first (own_table (reference true (Abstract Extern)) (at_least 1))) (element (ActiveElement None (i32_number ∷ [])) (FunctionItems [])) }
    ensures nullable_items { IsBroken (after at_first (imports (TableExternal (table_of (reference false (Abstract Func)) (at_least 1))))) (element (ActiveElement None (i32_number ∷ [])) (ExpressionItems funcref [])) }
{}

/// What the items of element segments are: functions aren't null, and the type of expressions is asked also where there are none.
pub fn items_of_elements()
    ensures not_null { IsKept (with_types (OfFunction 0 ∷ imports (TableExternal (table_of (reference false (Abstract Func)) (at_least 1))) ∷ [])) (element_of (FunctionItems (0 ∷ []))) }
    ensures imported { IsKept (with_types (imports (FuncExternal 2) ∷ OfFunction 1 ∷ own_table funcref (at_least 1) ∷ [])) (element_of (FunctionItems (1 ∷ 0 ∷ []))) }
    ensures declared_past { IsBroken (with_types (OfFunction 0 ∷ [])) (element DeclaredElement (FunctionItems (1 ∷ []))) }
    ensures of_none { KeptWith (ReferenceTypes ∷ []) (after at_first (own_table funcref (at_least 1))) (element_of (ExpressionItems funcref [])) }
    ensures passive { KeptWith (ReferenceTypes ∷ BulkMemory ∷ []) at_first (element PassiveElement (ExpressionItems funcref [])) }
    ensures declared { KeptWith (ReferenceTypes ∷ BulkMemory ∷ []) at_first (element DeclaredElement (ExpressionItems funcref [])) }
    ensures no_type { IsBroken (with_types []) (element PassiveElement (ExpressionItems (reference true (Concrete 4)) [])) }
{}

/// Items may be below the type of the table, and expressions below the type of the items.
pub fn items_below()
    ensures not_null { KeptWith (ReferenceTypes ∷ FunctionReferences ∷ []) (with_types (OfFunction 0 ∷ own_table funcref (at_least 1) ∷ [])) (element_of (ExpressionItems (reference false (Abstract Func)) ((RefFunc 0 ∷ []) ∷ []))) }
    ensures expression { KeptWith (ReferenceTypes ∷ []) (with_types (OfFunction 0 ∷ own_table funcref (at_least 1) ∷ [])) (element_of (ExpressionItems funcref ((RefFunc 0 ∷ []) ∷ []))) }
    ensures null_for_none { IsBroken (after at_first (own_table funcref (at_least 1))) (element_of (ExpressionItems (reference false (Abstract Func)) ((RefNull (Abstract Func) ∷ []) ∷ []))) }
    ensures other_kind { IsBroken (after at_first (own_table funcref (at_least 1))) (element_of (ExpressionItems (reference true (Abstract Extern)) [])) }
{}

/// Offsets of element segments: constant, and of the type of indexes of the segment's own table.
pub fn offsets_of_elements()
    ensures imported_global { IsKept (after globals (own_table funcref (at_least 1))) (element_at_offset None (GlobalGet 0 ∷ [])) }
    ensures imported_variable { IsBroken (after globals (own_table funcref (at_least 1))) (element_at_offset None (GlobalGet 1 ∷ [])) }
    ensures own_global { KeptWith (Gc ∷ []) (after globals (own_table funcref (at_least 1))) (element_at_offset None (GlobalGet 2 ∷ [])) }
    ensures sum { KeptWith (ExtendedConst ∷ []) (after at_first (own_table funcref (at_least 1))) (element_at_offset None (i32_number ∷ i32_number ∷ I32Add ∷ [])) }
    ensures two { IsBroken (after at_first (own_table funcref (at_least 1))) (element_at_offset None (i32_number ∷ i32_number ∷ [])) }
    ensures first { IsKept two_tables (element_at_offset (Some 0) (i32_number ∷ [])) }
    ensures first_large { IsBroken two_tables (element_at_offset None (i64_number ∷ [])) }
    ensures second_small { IsBroken two_tables (element_at_offset (Some 1) (i32_number ∷ [])) }
    ensures third { IsBroken two_tables (element_at_offset (Some 2) (i64_number ∷ [])) }
{}

/// Data segments: a memory and an offset of its addresses' type, or none of both with a feature.
pub fn data()
    ensures active { IsKept (after at_first (OfMemory (at_least 1))) (segment (ActiveData None (i32_number ∷ []))) }
    ensures no_memory { IsBroken at_first (segment (ActiveData None (i32_number ∷ []))) }
    ensures other_memory { IsBroken (after at_first (OfMemory (at_least 1))) (segment (ActiveData (Some 1) (i32_number ∷ []))) }
    ensures wide { IsKept (after at_first (OfMemory (wide (at_least 1)))) (segment (ActiveData (Some 0) (i64_number ∷ []))) }
    ensures small_offset { IsBroken (after at_first (OfMemory (wide (at_least 1)))) (segment (ActiveData None (i32_number ∷ []))) }
    ensures large_offset { IsBroken (after at_first (OfMemory (at_least 1))) (segment (ActiveData None (i64_number ∷ []))) }
    ensures passive { KeptWith (BulkMemory ∷ []) at_first (segment PassiveData) }
{}

/// Offsets of data segments, likewise.
pub fn offsets_of_data()
    ensures imported_global { IsKept (after globals (OfMemory (at_least 1))) (segment (ActiveData None (GlobalGet 0 ∷ []))) }
    ensures imported_variable { IsBroken (after globals (OfMemory (at_least 1))) (segment (ActiveData None (GlobalGet 1 ∷ []))) }
    ensures own_global { KeptWith (Gc ∷ []) (after globals (OfMemory (at_least 1))) (segment (ActiveData None (GlobalGet 2 ∷ []))) }
    ensures sum { KeptWith (ExtendedConst ∷ []) (after at_first (OfMemory (at_least 1))) (segment (ActiveData None (i32_number ∷ i32_number ∷ I32Add ∷ []))) }
    ensures two { IsBroken (after at_first (OfMemory (at_least 1))) (segment (ActiveData None (i32_number ∷ i32_number ∷ []))) }
    ensures first { IsKept two_memories (segment (ActiveData (Some 0) (i32_number ∷ []))) }
    ensures first_large { IsBroken two_memories (segment (ActiveData None (i64_number ∷ []))) }
    ensures second { IsKept two_memories (segment (ActiveData (Some 1) (i64_number ∷ []))) }
    ensures second_small { IsBroken two_memories (segment (ActiveData (Some 1) (i32_number ∷ []))) }
{}
