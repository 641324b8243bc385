//! Worked examples of operands that are unknown, and of locals: for each rule a body that keeps it, and one beside it that breaks it.

ghost use Rattle.std.specs.Prelude.{[], ◌∷◌, true, false};
ghost use Rattle.wasm_bodies.specs.Bodies.{block, done, if_else, in_function, loop};
ghost use Rattle.wasm_bodies.specs.Operators.{AnyConvertExtern, Br, BrOnNonNull, BrOnNull, CallRef, DataDrop, Drop, Empty, ExternConvertAny, LocalGet, LocalSet, LocalTee, MemoryInit, RefAsNonNull, RefFunc, RefIsNull, Return, Select, Unreachable};
ghost use Rattle.wasm_spec.specs.Features.{default_features};
ghost use Rattle.wasm_spec.specs.Types.{Abstract, Any, Extern, Func, I32, I64, Ref};
ghost use Rattle.wasm_spec_examples.specs.BodyExamples.{Gives, GivesNot, IsRight, IsWrong, Uses, UsesNot, run_of, straight, then, to_type, uncounted_items};
ghost use Rattle.wasm_spec_examples.specs.OperatorExamples.{i32, i64, null, scalar};
ghost use Rattle.wasm_spec_examples.specs.TypeExamples.{takes};

/// Of unknown operands a choice gives the one that is known. An unknown reference is a reference that isn't null, and fits no other type.
pub fn unknown_operands()
    ensures chosen { Gives (I32 ∷ []) (Unreachable ∷ Select ∷ []) }
    ensures chosen_known { Gives (I64 ∷ []) (Unreachable ∷ i64 ∷ i32 ∷ Select ∷ []) }
    ensures chosen_as_another { GivesNot (I32 ∷ []) (Unreachable ∷ i64 ∷ i32 ∷ Select ∷ []) }
    ensures chosen_reference { GivesNot [] (Unreachable ∷ null ∷ i32 ∷ Select ∷ Drop ∷ []) }
    ensures chosen_unknown_reference { GivesNot [] (Unreachable ∷ RefAsNonNull ∷ i32 ∷ Select ∷ Drop ∷ []) }
    ensures chosen_below_reference { GivesNot [] (Unreachable ∷ RefAsNonNull ∷ i32 ∷ i32 ∷ Select ∷ Drop ∷ []) }
    ensures reference { Gives (to_type 3 ∷ []) (Unreachable ∷ RefAsNonNull ∷ []) }
    ensures reference_as_number { GivesNot (I32 ∷ []) (Unreachable ∷ RefAsNonNull ∷ []) }
    ensures reference_in_sum { GivesNot (I32 ∷ []) (Unreachable ∷ RefAsNonNull ∷ scalar 0x6a ∷ []) }
    ensures reference_again { Gives (to_type 3 ∷ []) (Unreachable ∷ RefAsNonNull ∷ RefAsNonNull ∷ []) }
    ensures reference_tested { Gives (I32 ∷ []) (Unreachable ∷ RefAsNonNull ∷ RefIsNull ∷ []) }
    ensures after_jump_on_null { Gives (to_type 3 ∷ []) (Unreachable ∷ BrOnNull 0 ∷ Return ∷ []) }
    ensures number_after_jump_on_null { GivesNot (I32 ∷ []) (Unreachable ∷ BrOnNull 0 ∷ Return ∷ []) }
    ensures jump_on_non_null { Gives (to_type 3 ∷ []) (Unreachable ∷ BrOnNonNull 0 ∷ []) }
    ensures inside { Gives (Ref false (Abstract Any) ∷ []) (Unreachable ∷ AnyConvertExtern ∷ []) }
    ensures inside_as_another { GivesNot (Ref false (Abstract Func) ∷ []) (Unreachable ∷ AnyConvertExtern ∷ []) }
    ensures inside_of_reference { Gives (Ref false (Abstract Any) ∷ []) (Unreachable ∷ RefAsNonNull ∷ AnyConvertExtern ∷ []) }
    ensures outside { Gives (Ref false (Abstract Extern) ∷ []) (Unreachable ∷ ExternConvertAny ∷ []) }
{}

/// Locals have a value from the start where they are parameters, or their type has a default.
pub fn locals()
    ensures parameter { Uses (I32 ∷ []) [] (straight (LocalGet 0 ∷ Drop ∷ [])) }
    ensures parameter_without_default { Uses (to_type 3 ∷ []) [] (straight (LocalGet 0 ∷ Drop ∷ [])) }
    ensures number { Uses [] (run_of 1 I64 ∷ []) (straight (LocalGet 0 ∷ LocalSet 0 ∷ [])) }
    ensures null_reference { Uses [] (run_of 1 (Ref true (Abstract Func)) ∷ []) (straight (LocalGet 0 ∷ Drop ∷ [])) }
    ensures without_default { UsesNot [] (run_of 1 (Ref false (Abstract Func)) ∷ []) (straight (LocalGet 0 ∷ Drop ∷ [])) }
    ensures after_parameters { Uses (I32 ∷ []) (run_of 1 I64 ∷ run_of 2 I32 ∷ []) (straight (LocalGet 1 ∷ LocalSet 1 ∷ LocalGet 3 ∷ LocalSet 0 ∷ [])) }
    ensures past_the_last { UsesNot (I32 ∷ []) (run_of 1 I64 ∷ run_of 2 I32 ∷ []) (straight (LocalGet 4 ∷ Drop ∷ [])) }
    ensures set { Uses (I32 ∷ []) [] (straight (i32 ∷ LocalSet 0 ∷ [])) }
    ensures set_to_another { UsesNot (I32 ∷ []) [] (straight (i64 ∷ LocalSet 0 ∷ [])) }
    ensures set_past_the_last { UsesNot (I32 ∷ []) [] (straight (i32 ∷ LocalSet 1 ∷ [])) }
    ensures set_and_kept { Uses (I32 ∷ []) [] (straight (i32 ∷ LocalTee 0 ∷ Drop ∷ [])) }
    ensures kept_as_another { UsesNot (I64 ∷ []) [] (straight (i32 ∷ LocalTee 0 ∷ Drop ∷ [])) }
    ensures kept_of_its_type { UsesNot (Ref true (Abstract Func) ∷ []) [] (straight (RefFunc 2 ∷ LocalTee 0 ∷ CallRef 2 ∷ Drop ∷ [])) }
{}

/// An assignment gives a local a value, up to the end of the block that it stands in.
pub fn assignments()
    ensures set { Uses [] (run_of 1 (to_type 2) ∷ []) (straight (RefFunc 2 ∷ LocalSet 0 ∷ LocalGet 0 ∷ Drop ∷ [])) }
    ensures set_to_null { UsesNot [] (run_of 1 (Ref false (Abstract Func)) ∷ []) (straight (null ∷ LocalSet 0 ∷ [])) }
    ensures kept { Uses [] (run_of 1 (to_type 2) ∷ []) (straight (RefFunc 2 ∷ LocalTee 0 ∷ Drop ∷ LocalGet 0 ∷ Drop ∷ [])) }
    ensures set_another { UsesNot [] (run_of 2 (to_type 2) ∷ []) (straight (RefFunc 2 ∷ LocalSet 1 ∷ LocalGet 0 ∷ Drop ∷ [])) }
    ensures set_both { Uses [] (run_of 2 (to_type 2) ∷ []) (straight (RefFunc 2 ∷ LocalSet 0 ∷ RefFunc 2 ∷ LocalSet 1 ∷ LocalGet 0 ∷ Drop ∷ LocalGet 1 ∷ Drop ∷ [])) }
    ensures seen_in_block { Uses [] (run_of 1 (to_type 2) ∷ []) (then (RefFunc 2 ∷ LocalSet 0 ∷ []) (block Empty (straight (LocalGet 0 ∷ Drop ∷ [])) done)) }
    ensures past_block { UsesNot [] (run_of 1 (to_type 2) ∷ []) (block Empty (straight (RefFunc 2 ∷ LocalSet 0 ∷ [])) (straight (LocalGet 0 ∷ Drop ∷ []))) }
    ensures past_loop { UsesNot [] (run_of 1 (to_type 2) ∷ []) (loop Empty (straight (RefFunc 2 ∷ LocalSet 0 ∷ [])) (straight (LocalGet 0 ∷ Drop ∷ []))) }
    ensures before_and_past_block { Uses [] (run_of 1 (to_type 2) ∷ []) (then (RefFunc 2 ∷ LocalSet 0 ∷ []) (block Empty done (straight (LocalGet 0 ∷ Drop ∷ [])))) }
    ensures in_other_list { UsesNot [] (run_of 1 (to_type 2) ∷ []) (then (i32 ∷ []) (if_else Empty (straight (RefFunc 2 ∷ LocalSet 0 ∷ [])) (straight (LocalGet 0 ∷ Drop ∷ [])) done)) }
    ensures in_both_lists { UsesNot [] (run_of 1 (to_type 2) ∷ []) (then (i32 ∷ []) (if_else Empty (straight (RefFunc 2 ∷ LocalSet 0 ∷ [])) (straight (RefFunc 2 ∷ LocalSet 0 ∷ [])) (straight (LocalGet 0 ∷ Drop ∷ [])))) }
    ensures before_both_lists { Uses [] (run_of 1 (to_type 2) ∷ []) (then (RefFunc 2 ∷ LocalSet 0 ∷ i32 ∷ []) (if_else Empty (straight (LocalGet 0 ∷ Drop ∷ [])) (straight (LocalGet 0 ∷ Drop ∷ [])) done)) }
    ensures unreached { Uses [] (run_of 1 (to_type 2) ∷ []) (straight (Unreachable ∷ LocalSet 0 ∷ LocalGet 0 ∷ Drop ∷ [])) }
    ensures unreached_without { UsesNot [] (run_of 1 (to_type 2) ∷ []) (straight (Unreachable ∷ LocalGet 0 ∷ Drop ∷ [])) }
    ensures kept_past_jump { Uses [] (run_of 1 (to_type 2) ∷ []) (straight (RefFunc 2 ∷ LocalSet 0 ∷ Br 0 ∷ LocalGet 0 ∷ Drop ∷ [])) }
{}

/// Data segments are seen where a data count says how many there are.
pub fn data_counts()
    ensures init { IsWrong (in_function default_features uncounted_items (takes []) []) (straight (i32 ∷ i32 ∷ i32 ∷ MemoryInit 0 0 ∷ [])) }
    ensures dropped { IsWrong (in_function default_features uncounted_items (takes []) []) (straight (DataDrop 0 ∷ [])) }
    ensures without_data { IsRight (in_function default_features uncounted_items (takes []) []) (straight (i32 ∷ Drop ∷ [])) }
{}
