//! Worked examples of blocks and jumps: for each rule a body that keeps it, and one beside it that breaks it.

ghost use Rattle.std.specs.Prelude.{ℕ, [], ◌∷◌, true, false};
ghost use Rattle.wasm_bodies.specs.Bodies.{IsBegun, block, done, if_else, if_then, loop};
ghost use Rattle.wasm_bodies.specs.Effects.{Labels};
ghost use Rattle.wasm_bodies.specs.Operands.{State, fresh};
ghost use Rattle.wasm_bodies.specs.Operators.{Block, Br, BrIf, BrOnNonNull, BrOnNull, BrTable, CallRef, Drop, Else, Empty, End, If, Indexed, Loop, RefFunc, RefIsNull, RefNull, Return, StructNewDefault, Unreachable, V128Const, Value};
ghost use Rattle.wasm_spec.specs.Features.{Floats, FunctionReferences, MultiValue, Simd, default_features};
ghost use Rattle.wasm_spec.specs.Types.{Abstract, Concrete, F32, F64, Func, I32, I64, Ref, V128};
ghost use Rattle.wasm_spec_examples.specs.BodyExamples.{CodeGives, CodeGivesNot, CodeGivesWith, Gives, GivesNot, any_structure, function_with, straight, then, to_type};
ghost use Rattle.wasm_spec_examples.specs.OperatorExamples.{f32, f64, i32, i64, null, null_external, scalar};
ghost use Rattle.wasm_spec_examples.specs.TypeExamples.{gives};

/// A block takes and gives what its type says, and its list sees nothing of the operands around it.
pub fn blocks()
    ensures empty { CodeGives [] (block Empty done done) }
    ensures value { CodeGives (I32 ∷ []) (block (Value I32) (straight (i32 ∷ [])) done) }
    ensures another_value { CodeGivesNot (I32 ∷ []) (block (Value I32) (straight (i64 ∷ [])) done) }
    ensures no_value { CodeGivesNot (I32 ∷ []) (block (Value I32) done done) }
    ensures one_left { CodeGivesNot [] (block Empty (straight (i32 ∷ [])) (straight (Drop ∷ []))) }
    ensures around { CodeGives (I32 ∷ I64 ∷ []) (then (i32 ∷ []) (block (Value I64) (straight (i64 ∷ [])) done)) }
    ensures nothing_inside { CodeGivesNot [] (then (i32 ∷ []) (block Empty (straight (Drop ∷ [])) done)) }
    ensures parameters { CodeGivesWith MultiValue (I32 ∷ []) (then (i32 ∷ i64 ∷ []) (block (Indexed 1) (straight (Drop ∷ [])) done)) }
    ensures other_parameters { CodeGivesNot (I32 ∷ []) (then (i64 ∷ i32 ∷ []) (block (Indexed 1) (straight (Drop ∷ [])) done)) }
    ensures no_parameters { CodeGivesNot (I32 ∷ []) (block (Indexed 1) (straight (i32 ∷ [])) done) }
    ensures several { CodeGives (I32 ∷ I64 ∷ []) (then (i32 ∷ i64 ∷ []) (block (Indexed 10) done done)) }
    ensures of_a_structure { CodeGivesNot [] (block (Indexed 3) done done) }
    ensures of_no_type { CodeGivesNot [] (block (Indexed 13) done done) }
    ensures of_a_float { CodeGivesWith Floats [] (block (Value F32) (straight (Unreachable ∷ [])) (straight (Drop ∷ []))) }
    ensures of_a_vector { CodeGivesWith Simd [] (loop (Value V128) (straight (Unreachable ∷ [])) (straight (Drop ∷ []))) }
    ensures float { CodeGives (F32 ∷ []) (block (Value F32) (straight (f32 ∷ [])) done) }
    ensures double { CodeGives (F64 ∷ []) (block (Value F64) (straight (f64 ∷ [])) done) }
    ensures vector { CodeGives (V128 ∷ []) (block (Value V128) (straight (V128Const [] ∷ [])) done) }
    ensures of_no_reference { CodeGivesNot [] (block (Value (to_type 13)) (straight (Unreachable ∷ [])) (straight (Drop ∷ []))) }
    ensures declared_result { CodeGives (Ref true (Abstract Func) ∷ []) (block (Value (Ref true (Abstract Func))) (straight (RefFunc 2 ∷ [])) done) }
    ensures no_sharper_result { CodeGivesNot (to_type 2 ∷ []) (block (Value (Ref true (Abstract Func))) (straight (RefFunc 2 ∷ [])) done) }
{}

/// A jump to a block takes what it gives, and one to a loop what it takes.
pub fn jumps()
    ensures to_block { CodeGives (I32 ∷ []) (block (Value I32) (straight (i32 ∷ Br 0 ∷ [])) done) }
    ensures to_block_with_nothing { CodeGivesNot (I32 ∷ []) (block (Value I32) (straight (Br 0 ∷ [])) done) }
    ensures to_loop { CodeGives (I32 ∷ []) (loop (Value I32) (straight (Br 0 ∷ [])) done) }
    ensures to_loop_that_takes { CodeGives (I32 ∷ []) (then (i32 ∷ []) (loop (Indexed 7) (straight (Br 0 ∷ [])) done)) }
    ensures to_loop_with_nothing { CodeGivesNot (I32 ∷ []) (then (i32 ∷ []) (loop (Indexed 7) (straight (Drop ∷ Br 0 ∷ [])) done)) }
    ensures to_loop_with_another { CodeGivesNot (I64 ∷ []) (then (i32 ∷ []) (loop (Indexed 11) (straight (Drop ∷ i64 ∷ Br 0 ∷ [])) done)) }
    ensures more_below { Gives (I32 ∷ []) (i64 ∷ i32 ∷ Br 0 ∷ []) }
    ensures to_body { CodeGives (I32 ∷ []) (block Empty (straight (i32 ∷ Br 1 ∷ [])) (straight (i32 ∷ []))) }
    ensures to_body_with_another { CodeGivesNot (I32 ∷ []) (block Empty (straight (i64 ∷ Br 1 ∷ [])) (straight (i32 ∷ []))) }
    ensures to_nothing { CodeGivesNot [] (block Empty (straight (Br 2 ∷ [])) done) }
    ensures returned { CodeGives (I32 ∷ []) (block Empty (straight (i64 ∷ i32 ∷ Return ∷ [])) (straight (i32 ∷ []))) }
    ensures returned_another { GivesNot (I32 ∷ []) (i64 ∷ Return ∷ []) }
    ensures returned_nothing { GivesNot (I32 ∷ []) (Return ∷ []) }
{}

/// A jump under a condition leaves what the label takes where it took it, as the types of the label.
pub fn jumps_if()
    ensures taken { Gives (I32 ∷ []) (i32 ∷ i32 ∷ BrIf 0 ∷ []) }
    ensures no_condition { GivesNot (I32 ∷ []) (i32 ∷ BrIf 0 ∷ []) }
    ensures large_condition { GivesNot (I32 ∷ []) (i32 ∷ i64 ∷ BrIf 0 ∷ []) }
    ensures another_value { GivesNot (I32 ∷ []) (i64 ∷ i32 ∷ BrIf 0 ∷ Drop ∷ i32 ∷ []) }
    ensures to_nothing { GivesNot [] (i32 ∷ BrIf 1 ∷ []) }
    ensures types_of_label { CodeGivesNot (I32 ∷ []) (block (Value (Ref true (Abstract Func))) (straight (RefFunc 2 ∷ i32 ∷ BrIf 0 ∷ CallRef 2 ∷ Return ∷ [])) (straight (Drop ∷ i32 ∷ []))) }
    ensures types_before { CodeGives (I32 ∷ []) (block (Value (Ref true (Abstract Func))) (straight (RefFunc 2 ∷ CallRef 2 ∷ Return ∷ [])) (straight (Drop ∷ i32 ∷ []))) }
{}

/// Labels of a table have one arity, and each takes the operands.
pub fn jumps_by_table()
    ensures one { Gives (I32 ∷ []) (i32 ∷ i32 ∷ BrTable [] 0 ∷ []) }
    ensures several { CodeGives (I32 ∷ []) (block (Value I32) (straight (i32 ∷ i32 ∷ BrTable (0 ∷ 1 ∷ 0 ∷ []) 1 ∷ [])) done) }
    ensures large_index { GivesNot (I32 ∷ []) (i32 ∷ i64 ∷ BrTable [] 0 ∷ []) }
    ensures two_arities { CodeGivesNot (I32 ∷ []) (block Empty (straight (i32 ∷ i32 ∷ BrTable (0 ∷ []) 1 ∷ [])) (straight (i32 ∷ []))) }
    ensures other_type { CodeGivesNot (I32 ∷ []) (block (Value I64) (straight (i32 ∷ i32 ∷ BrTable (0 ∷ []) 1 ∷ [])) (straight (Drop ∷ i32 ∷ []))) }
    ensures default_of_another { CodeGivesNot (I32 ∷ []) (block (Value I64) (straight (i64 ∷ i32 ∷ BrTable (0 ∷ []) 1 ∷ [])) (straight (Drop ∷ i32 ∷ []))) }
    ensures default_alone_of_another { GivesNot (I32 ∷ []) (i64 ∷ i32 ∷ BrTable [] 0 ∷ []) }
    ensures two_arities_unknown { CodeGivesNot (I32 ∷ []) (block Empty (straight (Unreachable ∷ BrTable (0 ∷ []) 1 ∷ [])) (straight (i32 ∷ []))) }
    ensures other_types_unknown { CodeGives (I32 ∷ []) (block (Value I64) (straight (Unreachable ∷ BrTable (0 ∷ []) 1 ∷ [])) (straight (Drop ∷ i32 ∷ []))) }
    ensures below_both { CodeGives (to_type 2 ∷ []) (block (Value (Ref true (Abstract Func))) (straight (RefFunc 2 ∷ i32 ∷ BrTable (0 ∷ []) 1 ∷ [])) (straight (Drop ∷ RefFunc 2 ∷ []))) }
    ensures below_one { CodeGivesNot (to_type 2 ∷ []) (block (Value (Ref true (Abstract Func))) (straight (null ∷ i32 ∷ BrTable (1 ∷ []) 0 ∷ [])) (straight (Drop ∷ RefFunc 2 ∷ []))) }
    ensures to_nothing { GivesNot [] (i32 ∷ BrTable (1 ∷ []) 0 ∷ []) }
    ensures else_to_nothing { GivesNot [] (i32 ∷ BrTable [] 1 ∷ []) }
{}

/// Jumps where a reference is null, or isn't.
pub fn jumps_on_null()
    ensures on_null { CodeGivesWith FunctionReferences (Ref false (Abstract Func) ∷ []) (block Empty (straight (null ∷ BrOnNull 0 ∷ Return ∷ [])) (straight (RefFunc 2 ∷ []))) }
    ensures without_a_test { CodeGivesNot (Ref false (Abstract Func) ∷ []) (block Empty (straight (null ∷ Return ∷ [])) (straight (RefFunc 2 ∷ []))) }
    ensures with_others { Gives (I32 ∷ []) (i32 ∷ null ∷ BrOnNull 0 ∷ Drop ∷ []) }
    ensures with_another { GivesNot (I32 ∷ []) (i64 ∷ null ∷ BrOnNull 0 ∷ Drop ∷ Drop ∷ i32 ∷ []) }
    ensures of_a_number { GivesNot [] (i32 ∷ BrOnNull 0 ∷ Drop ∷ []) }
    ensures to_nothing { GivesNot [] (null ∷ BrOnNull 1 ∷ Drop ∷ []) }
    ensures on_non_null { CodeGivesWith FunctionReferences (Ref false (Abstract Func) ∷ []) (block (Value (Ref false (Abstract Func))) (straight (null ∷ BrOnNonNull 0 ∷ RefFunc 2 ∷ [])) done) }
    ensures to_nullable { CodeGives (Ref true (Abstract Func) ∷ []) (block (Value (Ref true (Abstract Func))) (straight (null ∷ BrOnNonNull 0 ∷ RefFunc 2 ∷ [])) done) }
    ensures on_non_null_with_others { Gives (I32 ∷ I64 ∷ Ref true (Abstract Func) ∷ []) (i32 ∷ i64 ∷ null ∷ BrOnNonNull 0 ∷ null ∷ []) }
    ensures on_non_null_out_of_order { GivesNot (I32 ∷ I64 ∷ Ref true (Abstract Func) ∷ []) (i64 ∷ i32 ∷ null ∷ BrOnNonNull 0 ∷ Unreachable ∷ []) }
    ensures nothing_is_left { CodeGivesNot (Ref true (Abstract Func) ∷ []) (block (Value (Ref true (Abstract Func))) (straight (null ∷ BrOnNonNull 0 ∷ [])) done) }
    ensures to_another_kind { CodeGivesNot (Ref true (Abstract Func) ∷ []) (block (Value (Ref true (Abstract Func))) (straight (null_external ∷ BrOnNonNull 0 ∷ null ∷ [])) done) }
    ensures to_a_number { CodeGivesNot (I32 ∷ []) (block (Value I32) (straight (null ∷ BrOnNonNull 0 ∷ Drop ∷ i32 ∷ [])) done) }
    ensures types_of_label_on_null { Gives (Ref true (Abstract Func) ∷ []) (RefFunc 2 ∷ null ∷ BrOnNull 0 ∷ Drop ∷ []) }
    ensures no_sharper_on_null { GivesNot (Ref true (Abstract Func) ∷ []) (RefFunc 2 ∷ null ∷ BrOnNull 0 ∷ Drop ∷ CallRef 2 ∷ Unreachable ∷ []) }
    ensures types_of_label_on_non_null { Gives (Ref true (Abstract Func) ∷ Ref true (Abstract Func) ∷ []) (RefFunc 2 ∷ null ∷ BrOnNonNull 0 ∷ null ∷ []) }
    ensures no_sharper_on_non_null { GivesNot (Ref true (Abstract Func) ∷ Ref true (Abstract Func) ∷ []) (RefFunc 2 ∷ null ∷ BrOnNonNull 0 ∷ CallRef 2 ∷ Unreachable ∷ []) }
    ensures sharper_without_a_jump { Gives (Ref true (Abstract Func) ∷ Ref true (Abstract Func) ∷ []) (RefFunc 2 ∷ null ∷ Drop ∷ CallRef 2 ∷ Unreachable ∷ []) }
    ensures to_no_operands { CodeGivesNot [] (block Empty (straight (null ∷ BrOnNonNull 0 ∷ Drop ∷ [])) done) }
{}

/// Choices between two lists, both of which begin with what is taken. Where there is one alone, what is taken serves as what is given.
pub fn choices()
    ensures one { CodeGives [] (then (i32 ∷ []) (if_then Empty done done)) }
    ensures no_condition { CodeGivesNot [] (if_then Empty done done) }
    ensures large_condition { CodeGivesNot [] (then (i64 ∷ []) (if_then Empty done done)) }
    ensures both { CodeGives (I32 ∷ []) (then (i32 ∷ []) (if_else (Value I32) (straight (i32 ∷ [])) (straight (i32 ∷ [])) done)) }
    ensures first_wrong { CodeGivesNot (I32 ∷ []) (then (i32 ∷ []) (if_else (Value I32) (straight (i64 ∷ [])) (straight (i32 ∷ [])) done)) }
    ensures second_wrong { CodeGivesNot (I32 ∷ []) (then (i32 ∷ []) (if_else (Value I32) (straight (i32 ∷ [])) (straight (i64 ∷ [])) done)) }
    ensures second_missing { CodeGivesNot (I32 ∷ []) (then (i32 ∷ []) (if_then (Value I32) (straight (i32 ∷ [])) done)) }
    ensures taken_is_given { CodeGivesWith MultiValue (I32 ∷ []) (then (i32 ∷ i32 ∷ []) (if_then (Indexed 7) done done)) }
    ensures taken_is_another { CodeGivesNot (I64 ∷ []) (then (i32 ∷ i32 ∷ []) (if_then (Indexed 11) (straight (Drop ∷ i64 ∷ [])) done)) }
    ensures both_take { CodeGives (I64 ∷ []) (then (i32 ∷ i32 ∷ []) (if_else (Indexed 11) (straight (Drop ∷ i64 ∷ [])) (straight (Drop ∷ i64 ∷ [])) done)) }
    ensures second_takes { CodeGivesNot (I64 ∷ []) (then (i32 ∷ i32 ∷ []) (if_else (Indexed 11) (straight (Drop ∷ i64 ∷ [])) (straight (i64 ∷ [])) done)) }
    ensures jump_takes_results { CodeGives (I64 ∷ []) (then (i32 ∷ i32 ∷ []) (if_else (Indexed 11) (straight (Drop ∷ i64 ∷ Br 0 ∷ [])) (straight (Drop ∷ i64 ∷ Br 0 ∷ [])) done)) }
    ensures jump_takes_no_parameters { CodeGivesNot (I64 ∷ []) (then (i32 ∷ i32 ∷ []) (if_else (Indexed 11) (straight (Br 0 ∷ [])) (straight (Drop ∷ i64 ∷ [])) done)) }
    ensures second_jump_takes_no_parameters { CodeGivesNot (I64 ∷ []) (then (i32 ∷ i32 ∷ []) (if_else (Indexed 11) (straight (Drop ∷ i64 ∷ [])) (straight (Br 0 ∷ [])) done)) }
    ensures only_jump_takes_results { CodeGives (any_structure ∷ []) (then (StructNewDefault 3 ∷ i32 ∷ []) (if_then (Indexed 12) (straight (Drop ∷ RefNull (Concrete 3) ∷ Br 0 ∷ [])) done)) }
    ensures only_jump_takes_no_others { CodeGivesNot (any_structure ∷ []) (then (StructNewDefault 3 ∷ i32 ∷ []) (if_then (Indexed 12) (straight (Drop ∷ i32 ∷ Br 0 ∷ [])) done)) }
    ensures jump_from_second { CodeGives (I32 ∷ []) (then (i32 ∷ []) (if_else (Value I32) (straight (i32 ∷ Br 0 ∷ [])) (straight (i32 ∷ Br 1 ∷ [])) done)) }
{}

/// After what never goes on, operands may be unknown: they fit each type, but those that are known keep theirs.
pub fn unreachable_code()
    ensures supplied { Gives (I32 ∷ I64 ∷ []) (Unreachable ∷ []) }
    ensures unknown { Gives (I32 ∷ []) (Unreachable ∷ scalar 0x6a ∷ []) }
    ensures known { Gives (I32 ∷ []) (Unreachable ∷ i32 ∷ scalar 0x6a ∷ []) }
    ensures known_of_another { GivesNot [] (Unreachable ∷ i32 ∷ scalar 0x7c ∷ Drop ∷ []) }
    ensures result_of_another { GivesNot (I32 ∷ []) (Unreachable ∷ i64 ∷ []) }
    ensures too_many { GivesNot (I32 ∷ []) (Unreachable ∷ i32 ∷ i32 ∷ []) }
    ensures after_jump { Gives (I32 ∷ []) (i32 ∷ Br 0 ∷ scalar 0x6a ∷ []) }
    ensures after_table { Gives (I32 ∷ []) (i32 ∷ i32 ∷ BrTable [] 0 ∷ scalar 0x6a ∷ []) }
    ensures after_return { Gives (I32 ∷ []) (i32 ∷ Return ∷ scalar 0x6a ∷ []) }
    ensures after_condition { GivesNot (I32 ∷ []) (i32 ∷ i32 ∷ BrIf 0 ∷ scalar 0x6a ∷ []) }
    ensures block_inside { CodeGives (I32 ∷ []) (then (Unreachable ∷ []) (block Empty done (straight (scalar 0x6a ∷ [])))) }
    ensures unknown_in_block { CodeGivesNot [] (then (Unreachable ∷ []) (block Empty (straight (Drop ∷ [])) done)) }
    ensures unknown_for_block { CodeGives (I32 ∷ []) (then (Unreachable ∷ []) (block (Indexed 1) (straight (Drop ∷ [])) done)) }
    ensures only_inside { CodeGivesNot [] (block Empty (straight (Unreachable ∷ [])) (straight (Drop ∷ []))) }
    ensures condition_unknown { CodeGives [] (then (Unreachable ∷ []) (if_then Empty done done)) }
    ensures null_unknown { Gives (I32 ∷ []) (Unreachable ∷ RefIsNull ∷ []) }
{}

/// The first operators of a body lead to a state, and to the labels of the blocks that are open there.
pub fn first_operators()
    ensures none { IsBegun (function_with default_features (gives []) []) [] ([] ∷ []) (fresh [] []) }
    ensures in_block { IsBegun (function_with default_features (gives []) []) (Block (Value I64) ∷ i64 ∷ []) ((I64 ∷ []) ∷ [] ∷ []) (fresh (I64 ∷ []) []) }
    ensures past_block { IsBegun (function_with default_features (gives []) []) (Block (Value I64) ∷ i64 ∷ End ∷ []) ([] ∷ []) (fresh (I64 ∷ []) []) }
    ensures in_loop { IsBegun (function_with default_features (gives []) []) (i32 ∷ Loop (Indexed 11) ∷ []) ((I32 ∷ []) ∷ [] ∷ []) (fresh (I32 ∷ []) []) }
    ensures in_first_list { IsBegun (function_with default_features (gives []) []) (i32 ∷ i32 ∷ If (Indexed 11) ∷ Drop ∷ []) ((I64 ∷ []) ∷ [] ∷ []) (fresh [] []) }
    ensures in_second_list { IsBegun (function_with default_features (gives []) []) (i32 ∷ i32 ∷ If (Indexed 11) ∷ Drop ∷ i64 ∷ Else ∷ []) ((I64 ∷ []) ∷ [] ∷ []) (fresh (I32 ∷ []) []) }
    ensures past_choice { IsBegun (function_with default_features (gives []) []) (i32 ∷ i32 ∷ If (Indexed 11) ∷ Drop ∷ i64 ∷ Else ∷ Drop ∷ i64 ∷ End ∷ []) ([] ∷ []) (fresh (I64 ∷ []) []) }
    ensures another_label { (labels : Labels ℕ) (s : State ℕ) → ¬ (IsBegun (function_with default_features (gives []) []) (Block (Value I64) ∷ []) ([] ∷ labels) s) }
    ensures a_whole { (labels : Labels ℕ) (s : State ℕ) → ¬ (IsBegun (function_with default_features (gives []) []) (Unreachable ∷ End ∷ []) labels s) }
    ensures a_broken_rule { (labels : Labels ℕ) (s : State ℕ) → ¬ (IsBegun (function_with default_features (gives []) []) (Drop ∷ []) labels s) }
{}
