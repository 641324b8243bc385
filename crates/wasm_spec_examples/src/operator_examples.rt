//! Worked examples of operators: for each rule a body that keeps it, and one beside it that breaks it.

ghost use Rattle.std.specs.Prelude.{[], ◌∷◌, true, false};
ghost use Rattle.wasm_bodies.specs.OperatorRows.{Float32, Float64, Int32, access};
ghost use Rattle.wasm_bodies.specs.Operators.{AnyConvertExtern, ArrayNew, ArrayNewDefault, ArrayNewFixed, Call, CallIndirect, CallRef, DataDrop, Drop, ElemDrop, Else, End, ExternConvertAny, F32Const, F64Const, GlobalGet, GlobalSet, Load, MemoryCopy, MemoryFill, MemoryGrow, MemoryInit, MemorySize, Nop, RefAsNonNull, RefEq, RefFunc, RefI31, RefIsNull, RefNull, ReturnCall, ReturnCallIndirect, ReturnCallRef, Select, SelectTyped, Store, StructNew, StructNewDefault, TableCopy, TableFill, TableGet, TableGrow, TableInit, TableSet, TableSize, Unreachable, V128Const};
ghost use Rattle.wasm_spec.specs.Features.{BulkMemory, Floats, FunctionReferences, Gc, ReferenceTypes, SaturatingFloatToInt, SignExtension, Simd, TailCall};
ghost use Rattle.wasm_spec.specs.Types.{Abstract, Any, Concrete, Cont, Eq, Extern, F32, F64, Func, I31, I32, I64, NoFunc, Ref, V128};
ghost use Rattle.wasm_spec_examples.specs.BodyExamples.{Gives, GivesNot, GivesWith, IsRight, any_structure, function_with, straight, to_type};
ghost use Rattle.wasm_spec_examples.specs.OperatorExamples.{access_at, f32, f64, i32, i64, null, null_external, saturating, scalar};
ghost use Rattle.wasm_spec_examples.specs.TypeExamples.{gives};

/// Numbers and vectors as they are written.
pub fn constants()
    ensures i32_number { Gives (I32 ∷ []) (i32 ∷ []) }
    ensures i32_as_another { GivesNot (I64 ∷ []) (i32 ∷ []) }
    ensures i64_number { Gives (I64 ∷ []) (i64 ∷ []) }
    ensures i64_as_another { GivesNot (I32 ∷ []) (i64 ∷ []) }
    ensures f32_number { GivesWith Floats (F32 ∷ []) (F32Const 0 ∷ []) }
    ensures f64_number { GivesWith Floats (F64 ∷ []) (F64Const 0 ∷ []) }
    ensures vector { GivesWith Simd (V128 ∷ []) (V128Const [] ∷ []) }
    ensures one_left { GivesNot [] (i32 ∷ []) }
    ensures one_missing { GivesNot (I32 ∷ I32 ∷ []) (i32 ∷ []) }
    ensures in_order { Gives (I32 ∷ I64 ∷ []) (i32 ∷ i64 ∷ []) }
    ensures not_in_order { GivesNot (I32 ∷ I64 ∷ []) (i64 ∷ i32 ∷ []) }
{}

/// Operators on numbers alone: a first and a last one of each form.
pub fn scalars()
    ensures test { Gives (I32 ∷ []) (i32 ∷ scalar 0x45 ∷ []) }
    ensures equal { Gives (I32 ∷ []) (i32 ∷ i32 ∷ scalar 0x46 ∷ []) }
    ensures at_least { Gives (I32 ∷ []) (i32 ∷ i32 ∷ scalar 0x4f ∷ []) }
    ensures large_test { Gives (I32 ∷ []) (i64 ∷ scalar 0x50 ∷ []) }
    ensures large_equal { Gives (I32 ∷ []) (i64 ∷ i64 ∷ scalar 0x51 ∷ []) }
    ensures large_at_least { Gives (I32 ∷ []) (i64 ∷ i64 ∷ scalar 0x5a ∷ []) }
    ensures float_equal { Gives (I32 ∷ []) (f32 ∷ f32 ∷ scalar 0x5b ∷ []) }
    ensures float_at_least { Gives (I32 ∷ []) (f32 ∷ f32 ∷ scalar 0x60 ∷ []) }
    ensures double_equal { Gives (I32 ∷ []) (f64 ∷ f64 ∷ scalar 0x61 ∷ []) }
    ensures double_at_least { Gives (I32 ∷ []) (f64 ∷ f64 ∷ scalar 0x66 ∷ []) }
    ensures leading_zeros { Gives (I32 ∷ []) (i32 ∷ scalar 0x67 ∷ []) }
    ensures ones { Gives (I32 ∷ []) (i32 ∷ scalar 0x69 ∷ []) }
    ensures sum { Gives (I32 ∷ []) (i32 ∷ i32 ∷ scalar 0x6a ∷ []) }
    ensures sum_of_one { GivesNot (I32 ∷ []) (i32 ∷ scalar 0x6a ∷ []) }
    ensures turned { Gives (I32 ∷ []) (i32 ∷ i32 ∷ scalar 0x78 ∷ []) }
    ensures large_leading_zeros { Gives (I64 ∷ []) (i64 ∷ scalar 0x79 ∷ []) }
    ensures large_ones { Gives (I64 ∷ []) (i64 ∷ scalar 0x7b ∷ []) }
    ensures large_sum { Gives (I64 ∷ []) (i64 ∷ i64 ∷ scalar 0x7c ∷ []) }
    ensures large_sum_of_small { GivesNot (I64 ∷ []) (i32 ∷ i32 ∷ scalar 0x7c ∷ []) }
    ensures large_turned { Gives (I64 ∷ []) (i64 ∷ i64 ∷ scalar 0x8a ∷ []) }
    ensures float_absolute { Gives (F32 ∷ []) (f32 ∷ scalar 0x8b ∷ []) }
    ensures float_root { Gives (F32 ∷ []) (f32 ∷ scalar 0x91 ∷ []) }
    ensures float_sum { Gives (F32 ∷ []) (f32 ∷ f32 ∷ scalar 0x92 ∷ []) }
    ensures float_sign { Gives (F32 ∷ []) (f32 ∷ f32 ∷ scalar 0x98 ∷ []) }
    ensures double_absolute { Gives (F64 ∷ []) (f64 ∷ scalar 0x99 ∷ []) }
    ensures double_root { Gives (F64 ∷ []) (f64 ∷ scalar 0x9f ∷ []) }
    ensures double_sum { Gives (F64 ∷ []) (f64 ∷ f64 ∷ scalar 0xa0 ∷ []) }
    ensures double_sign { Gives (F64 ∷ []) (f64 ∷ f64 ∷ scalar 0xa6 ∷ []) }
{}

/// Conversions of numbers, in the order of their codes.
pub fn conversions()
    ensures wrapped { Gives (I32 ∷ []) (i64 ∷ scalar 0xa7 ∷ []) }
    ensures to_small { Gives (I32 ∷ I32 ∷ I32 ∷ I32 ∷ []) (f32 ∷ scalar 0xa8 ∷ f32 ∷ scalar 0xa9 ∷ f64 ∷ scalar 0xaa ∷ f64 ∷ scalar 0xab ∷ []) }
    ensures from_small { Gives (I64 ∷ I64 ∷ []) (i32 ∷ scalar 0xac ∷ i32 ∷ scalar 0xad ∷ []) }
    ensures to_large { Gives (I64 ∷ I64 ∷ I64 ∷ I64 ∷ []) (f32 ∷ scalar 0xae ∷ f32 ∷ scalar 0xaf ∷ f64 ∷ scalar 0xb0 ∷ f64 ∷ scalar 0xb1 ∷ []) }
    ensures to_float { Gives (F32 ∷ F32 ∷ F32 ∷ F32 ∷ []) (i32 ∷ scalar 0xb2 ∷ i32 ∷ scalar 0xb3 ∷ i64 ∷ scalar 0xb4 ∷ i64 ∷ scalar 0xb5 ∷ []) }
    ensures demoted { Gives (F32 ∷ []) (f64 ∷ scalar 0xb6 ∷ []) }
    ensures to_double { Gives (F64 ∷ F64 ∷ F64 ∷ F64 ∷ []) (i32 ∷ scalar 0xb7 ∷ i32 ∷ scalar 0xb8 ∷ i64 ∷ scalar 0xb9 ∷ i64 ∷ scalar 0xba ∷ []) }
    ensures promoted { Gives (F64 ∷ []) (f32 ∷ scalar 0xbb ∷ []) }
    ensures same_bits { Gives (I32 ∷ I64 ∷ F32 ∷ F64 ∷ []) (f32 ∷ scalar 0xbc ∷ f64 ∷ scalar 0xbd ∷ i32 ∷ scalar 0xbe ∷ i64 ∷ scalar 0xbf ∷ []) }
    ensures extended { Gives (I32 ∷ I32 ∷ I64 ∷ I64 ∷ I64 ∷ []) (i32 ∷ scalar 0xc0 ∷ i32 ∷ scalar 0xc1 ∷ i64 ∷ scalar 0xc2 ∷ i64 ∷ scalar 0xc3 ∷ i64 ∷ scalar 0xc4 ∷ []) }
    ensures saturated { Gives (I32 ∷ I32 ∷ I32 ∷ I32 ∷ []) (f32 ∷ saturating 0 ∷ f32 ∷ saturating 1 ∷ f64 ∷ saturating 2 ∷ f64 ∷ saturating 3 ∷ []) }
    ensures large_saturated { Gives (I64 ∷ I64 ∷ I64 ∷ I64 ∷ []) (f32 ∷ saturating 4 ∷ f32 ∷ saturating 5 ∷ f64 ∷ saturating 6 ∷ f64 ∷ saturating 7 ∷ []) }
{}

/// Which flags operators on numbers ask for. Of floats each asks that has one among its operands or gives one.
pub fn gates_of_scalars()
    ensures none { IsRight (function_with 0 (gives (I32 ∷ [])) []) (straight (i32 ∷ i32 ∷ scalar 0x6a ∷ [])) }
    ensures comparison { GivesWith Floats (I32 ∷ []) (Unreachable ∷ scalar 0x5b ∷ []) }
    ensures double_comparison { GivesWith Floats (I32 ∷ []) (Unreachable ∷ scalar 0x66 ∷ []) }
    ensures float_sum { GivesWith Floats [] (Unreachable ∷ scalar 0x92 ∷ Drop ∷ []) }
    ensures double_sum { GivesWith Floats [] (Unreachable ∷ scalar 0xa0 ∷ Drop ∷ []) }
    ensures from_float { GivesWith Floats (I32 ∷ []) (Unreachable ∷ scalar 0xa8 ∷ []) }
    ensures to_float { GivesWith Floats [] (i32 ∷ scalar 0xb2 ∷ Drop ∷ []) }
    ensures extended { GivesWith SignExtension (I32 ∷ []) (i32 ∷ scalar 0xc0 ∷ []) }
    ensures large_extended { GivesWith SignExtension (I64 ∷ []) (i64 ∷ scalar 0xc4 ∷ []) }
    ensures saturated { GivesWith SaturatingFloatToInt (I32 ∷ []) (Unreachable ∷ saturating 0 ∷ []) }
    ensures saturated_floats { GivesWith Floats (I64 ∷ []) (Unreachable ∷ saturating 7 ∷ []) }
    ensures loaded { GivesWith Floats [] (i32 ∷ Load (access 0x2a Float32 2) (access_at 0 0 0) ∷ Drop ∷ []) }
    ensures stored { GivesWith Floats [] (Unreachable ∷ Store (access 0x39 Float64 3) (access_at 0 0 0) ∷ []) }
{}

/// Operands of any type. A choice without a type is one of numbers or vectors.
pub fn parametric()
    ensures nothing { Gives [] (Nop ∷ []) }
    ensures dropped { Gives [] (i32 ∷ Drop ∷ []) }
    ensures dropped_reference { Gives [] (null ∷ Drop ∷ []) }
    ensures dropped_nothing { GivesNot [] (Drop ∷ []) }
    ensures chosen { Gives (I64 ∷ []) (i64 ∷ i64 ∷ i32 ∷ Select ∷ []) }
    ensures chosen_small { Gives (I32 ∷ []) (i32 ∷ i32 ∷ i32 ∷ Select ∷ []) }
    ensures chosen_float { Gives (F32 ∷ []) (f32 ∷ f32 ∷ i32 ∷ Select ∷ []) }
    ensures chosen_double { Gives (F64 ∷ []) (f64 ∷ f64 ∷ i32 ∷ Select ∷ []) }
    ensures chosen_vector { Gives (V128 ∷ []) (V128Const [] ∷ V128Const [] ∷ i32 ∷ Select ∷ []) }
    ensures chosen_of_two_types { GivesNot (I64 ∷ []) (i64 ∷ i32 ∷ i32 ∷ Select ∷ []) }
    ensures chosen_by_another { GivesNot (I64 ∷ []) (i64 ∷ i64 ∷ i64 ∷ Select ∷ []) }
    ensures chosen_of_references { GivesNot (Ref true (Abstract Func) ∷ []) (null ∷ null ∷ i32 ∷ Select ∷ []) }
    ensures typed { GivesWith ReferenceTypes (I32 ∷ []) (i32 ∷ i32 ∷ i32 ∷ SelectTyped (I32 ∷ []) ∷ []) }
    ensures typed_float { Gives (F32 ∷ []) (f32 ∷ f32 ∷ i32 ∷ SelectTyped (F32 ∷ []) ∷ []) }
    ensures typed_double { Gives (F64 ∷ []) (f64 ∷ f64 ∷ i32 ∷ SelectTyped (F64 ∷ []) ∷ []) }
    ensures typed_vector { Gives (V128 ∷ []) (V128Const [] ∷ V128Const [] ∷ i32 ∷ SelectTyped (V128 ∷ []) ∷ []) }
    ensures typed_references { Gives (Ref true (Abstract Func) ∷ []) (null ∷ RefFunc 2 ∷ i32 ∷ SelectTyped (Ref true (Abstract Func) ∷ []) ∷ []) }
    ensures typed_as_another { GivesNot (I32 ∷ []) (i32 ∷ i32 ∷ i32 ∷ SelectTyped (I64 ∷ []) ∷ []) }
    ensures typed_as_two { GivesNot (I32 ∷ I32 ∷ []) (i32 ∷ i32 ∷ i32 ∷ i32 ∷ i32 ∷ SelectTyped (I32 ∷ I32 ∷ []) ∷ []) }
    ensures typed_as_none { GivesNot [] (i32 ∷ SelectTyped [] ∷ []) }
    ensures typed_by_no_type { GivesNot [] (Unreachable ∷ SelectTyped (to_type 13 ∷ []) ∷ Drop ∷ []) }
    ensures typed_without_floats { GivesWith Floats [] (Unreachable ∷ SelectTyped (F32 ∷ []) ∷ Drop ∷ []) }
{}

/// Calls of functions, through tables and of references.
pub fn calls()
    ensures called { Gives (I32 ∷ []) (i32 ∷ i64 ∷ Call 1 ∷ []) }
    ensures called_out_of_order { GivesNot (I32 ∷ []) (i64 ∷ i32 ∷ Call 1 ∷ []) }
    ensures called_nothing { GivesNot [] (Unreachable ∷ Call 6 ∷ []) }
    ensures through_table { Gives (I32 ∷ []) (i32 ∷ i64 ∷ i32 ∷ CallIndirect 1 0 ∷ []) }
    ensures through_long_table { Gives (I32 ∷ []) (i32 ∷ i64 ∷ i64 ∷ CallIndirect 1 1 ∷ []) }
    ensures short_index { GivesNot (I32 ∷ []) (i32 ∷ i64 ∷ i32 ∷ CallIndirect 1 1 ∷ []) }
    ensures index_first { GivesNot (I32 ∷ []) (i32 ∷ i32 ∷ i64 ∷ CallIndirect 1 0 ∷ []) }
    ensures through_no_functions { GivesNot (I32 ∷ []) (i32 ∷ i64 ∷ i32 ∷ CallIndirect 1 2 ∷ []) }
    ensures through_no_table { GivesNot (I32 ∷ []) (i32 ∷ i64 ∷ i32 ∷ CallIndirect 1 5 ∷ []) }
    ensures through_narrower_table { Gives (I32 ∷ []) (i32 ∷ CallIndirect 2 3 ∷ []) }
    ensures of_a_structure { GivesNot [] (Unreachable ∷ CallIndirect 3 0 ∷ []) }
    ensures of_reference { GivesWith FunctionReferences (I32 ∷ []) (RefFunc 2 ∷ CallRef 2 ∷ []) }
    ensures of_null { Gives (I32 ∷ []) (RefNull (Concrete 2) ∷ CallRef 2 ∷ []) }
    ensures of_any_function { GivesNot (I32 ∷ []) (null ∷ CallRef 2 ∷ []) }
    ensures reference_last { Gives (I32 ∷ []) (i32 ∷ i64 ∷ RefNull (Concrete 1) ∷ CallRef 1 ∷ []) }
    ensures of_array { GivesNot [] (Unreachable ∷ CallRef 4 ∷ []) }
{}

/// Calls in place of a return: what they give is below what the function gives, and nothing is known after them.
pub fn tail_calls()
    ensures called { GivesWith TailCall (I32 ∷ []) (ReturnCall 2 ∷ []) }
    ensures other_result { GivesNot (I64 ∷ []) (ReturnCall 2 ∷ []) }
    ensures result_below { Gives (any_structure ∷ []) (ReturnCall 4 ∷ []) }
    ensures result_above { GivesNot (to_type 3 ∷ []) (ReturnCall 5 ∷ []) }
    ensures another_result { GivesNot (I32 ∷ I32 ∷ []) (ReturnCall 2 ∷ []) }
    ensures operands { Gives (I32 ∷ []) (i32 ∷ i64 ∷ ReturnCall 1 ∷ []) }
    ensures other_operands { GivesNot (I32 ∷ []) (i64 ∷ i32 ∷ ReturnCall 1 ∷ []) }
    ensures more_below { Gives (I32 ∷ []) (null ∷ ReturnCall 2 ∷ []) }
    ensures anything_after { Gives (I32 ∷ []) (ReturnCall 2 ∷ scalar 0x6a ∷ []) }
    ensures through_table { GivesWith TailCall (I32 ∷ []) (i32 ∷ ReturnCallIndirect 2 0 ∷ []) }
    ensures through_table_of_another_result { GivesNot (I64 ∷ []) (i32 ∷ ReturnCallIndirect 2 0 ∷ []) }
    ensures of_reference { GivesWith FunctionReferences (I32 ∷ []) (RefNull (Concrete 2) ∷ ReturnCallRef 2 ∷ []) }
    ensures of_reference_to_another_result { GivesNot (I64 ∷ []) (RefNull (Concrete 2) ∷ ReturnCallRef 2 ∷ []) }
{}

/// Globals: those that can be set, and others.
pub fn globals()
    ensures got { Gives (I64 ∷ []) (GlobalGet 0 ∷ []) }
    ensures got_none { GivesNot [] (GlobalGet 2 ∷ Drop ∷ []) }
    ensures set { Gives [] (i64 ∷ GlobalSet 1 ∷ []) }
    ensures set_constant { GivesNot [] (i64 ∷ GlobalSet 0 ∷ []) }
    ensures set_to_another { GivesNot [] (i32 ∷ GlobalSet 1 ∷ []) }
{}

/// Sizes of memories, and operators on whole ranges of them.
pub fn memories()
    ensures size { Gives (I32 ∷ []) (MemorySize 0 ∷ []) }
    ensures long_size { Gives (I64 ∷ []) (MemorySize 1 ∷ []) }
    ensures size_of_none { GivesNot [] (MemorySize 2 ∷ Drop ∷ []) }
    ensures grown { Gives (I64 ∷ []) (i64 ∷ MemoryGrow 1 ∷ []) }
    ensures grown_by_another { GivesNot (I64 ∷ []) (i32 ∷ MemoryGrow 1 ∷ []) }
    ensures filled { GivesWith BulkMemory [] (i32 ∷ i32 ∷ i32 ∷ MemoryFill 0 ∷ []) }
    ensures long_filled { Gives [] (i64 ∷ i32 ∷ i64 ∷ MemoryFill 1 ∷ []) }
    ensures filled_with_another { GivesNot [] (i64 ∷ i64 ∷ i64 ∷ MemoryFill 1 ∷ []) }
    ensures copied { GivesWith BulkMemory [] (i32 ∷ i32 ∷ i32 ∷ MemoryCopy 0 0 ∷ []) }
    ensures copied_from_long { Gives [] (i32 ∷ i64 ∷ i32 ∷ MemoryCopy 0 1 ∷ []) }
    ensures copied_to_long { Gives [] (i64 ∷ i32 ∷ i32 ∷ MemoryCopy 1 0 ∷ []) }
    ensures copied_in_long { Gives [] (i64 ∷ i64 ∷ i64 ∷ MemoryCopy 1 1 ∷ []) }
    ensures long_length { GivesNot [] (i32 ∷ i64 ∷ i64 ∷ MemoryCopy 0 1 ∷ []) }
    ensures filled_from_data { GivesWith BulkMemory [] (i32 ∷ i32 ∷ i32 ∷ MemoryInit 0 0 ∷ []) }
    ensures long_filled_from_data { Gives [] (i64 ∷ i32 ∷ i32 ∷ MemoryInit 0 1 ∷ []) }
    ensures filled_from_no_data { GivesNot [] (i32 ∷ i32 ∷ i32 ∷ MemoryInit 1 0 ∷ []) }
    ensures dropped { GivesWith BulkMemory [] (DataDrop 0 ∷ []) }
    ensures dropped_none { GivesNot [] (DataDrop 1 ∷ []) }
{}

/// Offsets are addresses of the memory, up to the last one of 64 bits.
pub fn offsets()
    ensures loaded { Gives (I32 ∷ []) (i64 ∷ Load (access 0x28 Int32 2) (access_at 2 1 18446744073709551615) ∷ []) }
    ensures loaded_past { GivesNot (I32 ∷ []) (i64 ∷ Load (access 0x28 Int32 2) (access_at 2 1 18446744073709551616) ∷ []) }
    ensures stored { Gives [] (i64 ∷ i32 ∷ Store (access 0x36 Int32 2) (access_at 2 1 18446744073709551615) ∷ []) }
    ensures stored_past { GivesNot [] (i64 ∷ i32 ∷ Store (access 0x36 Int32 2) (access_at 2 1 18446744073709551616) ∷ []) }
{}

/// Items of tables, and operators on whole ranges of them.
pub fn tables()
    ensures got { GivesWith ReferenceTypes (Ref true (Abstract Func) ∷ []) (i32 ∷ TableGet 0 ∷ []) }
    ensures long_got { Gives (Ref true (Abstract Func) ∷ []) (i64 ∷ TableGet 1 ∷ []) }
    ensures got_by_another { GivesNot (Ref true (Abstract Func) ∷ []) (i32 ∷ TableGet 1 ∷ []) }
    ensures set { Gives [] (i32 ∷ RefFunc 2 ∷ TableSet 0 ∷ []) }
    ensures set_to_another { GivesNot [] (i32 ∷ RefFunc 2 ∷ TableSet 2 ∷ []) }
    ensures long_set { Gives [] (i64 ∷ RefFunc 2 ∷ TableSet 1 ∷ []) }
    ensures set_by_another { GivesNot [] (i32 ∷ RefFunc 2 ∷ TableSet 1 ∷ []) }
    ensures size { GivesWith ReferenceTypes (I64 ∷ []) (TableSize 1 ∷ []) }
    ensures grown { Gives (I64 ∷ []) (null ∷ i64 ∷ TableGrow 1 ∷ []) }
    ensures grown_with_another { GivesNot (I32 ∷ []) (null ∷ i32 ∷ TableGrow 2 ∷ []) }
    ensures filled { Gives [] (i64 ∷ null ∷ i64 ∷ TableFill 1 ∷ []) }
    ensures filled_with_another { GivesNot [] (i64 ∷ null_external ∷ i64 ∷ TableFill 1 ∷ []) }
    ensures copied { GivesWith BulkMemory [] (i32 ∷ i32 ∷ i32 ∷ TableCopy 0 0 ∷ []) }
    ensures copied_from_long { Gives [] (i32 ∷ i64 ∷ i32 ∷ TableCopy 0 1 ∷ []) }
    ensures copied_to_long { Gives [] (i64 ∷ i32 ∷ i32 ∷ TableCopy 1 0 ∷ []) }
    ensures copied_to_long_by_another { GivesNot [] (i64 ∷ i32 ∷ i64 ∷ TableCopy 1 0 ∷ []) }
    ensures copied_in_long { Gives [] (i64 ∷ i64 ∷ i64 ∷ TableCopy 1 1 ∷ []) }
    ensures copied_to_wider { Gives [] (i32 ∷ i32 ∷ i32 ∷ TableCopy 0 3 ∷ []) }
    ensures copied_to_narrower { GivesNot [] (i32 ∷ i32 ∷ i32 ∷ TableCopy 3 0 ∷ []) }
    ensures copied_to_another { GivesNot [] (i32 ∷ i32 ∷ i32 ∷ TableCopy 2 0 ∷ []) }
    ensures filled_from_segment { GivesWith BulkMemory [] (i32 ∷ i32 ∷ i32 ∷ TableInit 0 0 ∷ []) }
    ensures long_filled_from_segment { Gives [] (i64 ∷ i32 ∷ i32 ∷ TableInit 0 1 ∷ []) }
    ensures filled_from_another_segment { GivesNot [] (i32 ∷ i32 ∷ i32 ∷ TableInit 1 0 ∷ []) }
    ensures filled_from_narrower_segment { Gives [] (i32 ∷ i32 ∷ i32 ∷ TableInit 2 0 ∷ []) }
    ensures filled_from_wider_segment { GivesNot [] (i32 ∷ i32 ∷ i32 ∷ TableInit 0 3 ∷ []) }
    ensures filled_from_no_segment { GivesNot [] (i32 ∷ i32 ∷ i32 ∷ TableInit 4 0 ∷ []) }
    ensures dropped { GivesWith BulkMemory [] (ElemDrop 1 ∷ []) }
    ensures dropped_none { GivesNot [] (ElemDrop 4 ∷ []) }
{}

/// Tables and element segments whose items are never null.
pub fn tables_without_null()
    ensures got { Gives (Ref false (Abstract Func) ∷ []) (i32 ∷ TableGet 4 ∷ []) }
    ensures got_where_null { GivesNot (Ref false (Abstract Func) ∷ []) (i32 ∷ TableGet 0 ∷ []) }
    ensures set { Gives [] (i32 ∷ RefFunc 2 ∷ TableSet 4 ∷ []) }
    ensures set_to_null { GivesNot [] (i32 ∷ null ∷ TableSet 4 ∷ []) }
    ensures copied { Gives [] (i32 ∷ i32 ∷ i32 ∷ TableCopy 0 4 ∷ []) }
    ensures copied_from_null { GivesNot [] (i32 ∷ i32 ∷ i32 ∷ TableCopy 4 0 ∷ []) }
    ensures filled_from_segment { Gives [] (i32 ∷ i32 ∷ i32 ∷ TableInit 3 4 ∷ []) }
    ensures filled_from_segment_with_null { GivesNot [] (i32 ∷ i32 ∷ i32 ∷ TableInit 0 4 ∷ []) }
{}

/// References: null of the type that is written, functions that are declared, and tests.
pub fn references()
    ensures null_function { GivesWith ReferenceTypes (Ref true (Abstract Func) ∷ []) (null ∷ []) }
    ensures null_as_none { GivesNot (Ref false (Abstract Func) ∷ []) (null ∷ []) }
    ensures null_written { GivesNot (Ref true (Abstract NoFunc) ∷ []) (null ∷ []) }
    ensures null_of_a_type { Gives (any_structure ∷ []) (RefNull (Concrete 3) ∷ []) }
    ensures null_of_no_type { GivesNot [] (RefNull (Concrete 13) ∷ Drop ∷ []) }
    ensures null_any { GivesWith Gc [] (RefNull (Abstract Any) ∷ Drop ∷ []) }
    ensures null_continuation { GivesNot [] (RefNull (Abstract Cont) ∷ Drop ∷ []) }
    ensures tested { GivesWith ReferenceTypes (I32 ∷ []) (Unreachable ∷ RefIsNull ∷ []) }
    ensures tested_null { Gives (I32 ∷ []) (null ∷ RefIsNull ∷ []) }
    ensures tested_number { GivesNot (I32 ∷ []) (i32 ∷ RefIsNull ∷ []) }
    ensures declared { GivesWith ReferenceTypes (to_type 2 ∷ []) (RefFunc 2 ∷ []) }
    ensures undeclared { GivesNot [] (RefFunc 0 ∷ Drop ∷ []) }
    ensures equal { GivesWith Gc (I32 ∷ []) (Unreachable ∷ RefEq ∷ []) }
    ensures equal_structures { Gives (I32 ∷ []) (RefNull (Concrete 3) ∷ RefNull (Abstract Eq) ∷ RefEq ∷ []) }
    ensures equal_functions { GivesNot (I32 ∷ []) (null ∷ null ∷ RefEq ∷ []) }
    ensures not_null { GivesWith FunctionReferences [] (Unreachable ∷ RefAsNonNull ∷ Drop ∷ []) }
    ensures null_made_none { Gives (Ref false (Abstract Func) ∷ []) (null ∷ RefAsNonNull ∷ []) }
    ensures number_made_none { GivesNot [] (i32 ∷ RefAsNonNull ∷ Drop ∷ []) }
{}

/// Structures and arrays, scalars and conversions.
pub fn aggregates()
    ensures structure { GivesWith Gc (to_type 3 ∷ []) (i64 ∷ i32 ∷ StructNew 3 ∷ []) }
    ensures fields_out_of_order { GivesNot (to_type 3 ∷ []) (i32 ∷ i64 ∷ StructNew 3 ∷ []) }
    ensures structure_of_an_array { GivesNot [] (Unreachable ∷ StructNew 4 ∷ Drop ∷ []) }
    ensures default_structure { GivesWith Gc (to_type 3 ∷ []) (StructNewDefault 3 ∷ []) }
    ensures structure_without_default { GivesNot (to_type 5 ∷ []) (StructNewDefault 5 ∷ []) }
    ensures array { GivesWith Gc (to_type 4 ∷ []) (i32 ∷ i32 ∷ ArrayNew 4 ∷ []) }
    ensures element_first { Gives (to_type 6 ∷ []) (StructNewDefault 3 ∷ i32 ∷ ArrayNew 6 ∷ []) }
    ensures count_first { GivesNot (to_type 6 ∷ []) (i32 ∷ StructNewDefault 3 ∷ ArrayNew 6 ∷ []) }
    ensures array_of_a_structure { GivesNot [] (Unreachable ∷ ArrayNew 3 ∷ Drop ∷ []) }
    ensures default_array { GivesWith Gc (to_type 4 ∷ []) (i32 ∷ ArrayNewDefault 4 ∷ []) }
    ensures array_without_default { GivesNot (to_type 6 ∷ []) (i32 ∷ ArrayNewDefault 6 ∷ []) }
    ensures fixed_array { GivesWith Gc (to_type 4 ∷ []) (i32 ∷ i32 ∷ ArrayNewFixed 4 2 ∷ []) }
    ensures fixed_array_of_one_less { GivesNot (to_type 4 ∷ []) (i32 ∷ ArrayNewFixed 4 2 ∷ []) }
    ensures empty_fixed_array { Gives (to_type 4 ∷ []) (ArrayNewFixed 4 0 ∷ []) }
    ensures small_number { GivesWith Gc (Ref false (Abstract I31) ∷ []) (i32 ∷ RefI31 ∷ []) }
    ensures small_number_of_a_large { GivesNot (Ref false (Abstract I31) ∷ []) (i64 ∷ RefI31 ∷ []) }
    ensures inside { GivesWith Gc (Ref true (Abstract Any) ∷ []) (null_external ∷ AnyConvertExtern ∷ []) }
    ensures inside_as_none { GivesNot (Ref false (Abstract Any) ∷ []) (null_external ∷ AnyConvertExtern ∷ []) }
    ensures inside_of_number { GivesNot [] (i32 ∷ AnyConvertExtern ∷ Drop ∷ []) }
    ensures inside_already { GivesNot [] (RefNull (Abstract Any) ∷ AnyConvertExtern ∷ Drop ∷ []) }
    ensures outside { GivesWith Gc (Ref false (Abstract Extern) ∷ []) (i32 ∷ RefI31 ∷ ExternConvertAny ∷ []) }
    ensures outside_of_number { GivesNot [] (i32 ∷ ExternConvertAny ∷ Drop ∷ []) }
    ensures outside_already { GivesNot [] (null_external ∷ ExternConvertAny ∷ Drop ∷ []) }
{}

/// `else` and `end` stand in no list.
pub fn no_operators()
    ensures parted { GivesNot [] (Else ∷ []) }
    ensures ended { GivesNot [] (End ∷ []) }
{}
