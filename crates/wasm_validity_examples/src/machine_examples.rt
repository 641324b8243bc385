//! Worked examples of bodies, operator by operator: what is open after operators, and which operators may not come.

ghost use Rattle.std.specs.Prelude.{[], ◌∷◌};
ghost use Rattle.wasm_bodies.specs.Operands.{fresh};
ghost use Rattle.wasm_bodies.specs.Operators.{Block, Br, Drop, Else, Empty, End, If, Indexed, LocalGet, LocalSet, Loop, Nop, RefFunc, Unreachable, Value};
ghost use Rattle.wasm_bodies_laws.specs.Machine.{BlockFrame, ElseFrame, IfFrame, LoopFrame, frame_of};
ghost use Rattle.wasm_spec.specs.Types.{I32, I64};
ghost use Rattle.wasm_spec_examples.specs.BodyExamples.{run_of, to_type};
ghost use Rattle.wasm_spec_examples.specs.OperatorExamples.{i32, i64};
ghost use Rattle.wasm_validity_examples.specs.MachineExamples.{Leads, LeadsWith, Stops, StopsWith, body, unknown};

/// Blocks and loops begin with what they take, and end with what they give.
pub fn blocks()
    ensures nothing { Leads 0 [] (fresh [] []) (body 0 ∷ []) }
    ensures in_block { Leads 0 (i64 ∷ Block (Value I32) ∷ i32 ∷ []) (fresh (I32 ∷ []) []) (frame_of BlockFrame (Value I32) (fresh (I64 ∷ []) []) ∷ body 0 ∷ []) }
    ensures past_block { Leads 0 (i64 ∷ Block (Value I32) ∷ i32 ∷ End ∷ []) (fresh (I64 ∷ I32 ∷ []) []) (body 0 ∷ []) }
    ensures in_loop { Leads 0 (Block Empty ∷ i32 ∷ Loop (Indexed 11) ∷ []) (fresh (I32 ∷ []) []) (frame_of LoopFrame (Indexed 11) (fresh [] []) ∷ frame_of BlockFrame Empty (fresh [] []) ∷ body 0 ∷ []) }
    ensures to_loop { Leads 0 (i32 ∷ Loop (Indexed 11) ∷ Br 0 ∷ []) unknown (frame_of LoopFrame (Indexed 11) (fresh [] []) ∷ body 0 ∷ []) }
    ensures to_loop_with_results { Stops 0 (i32 ∷ Loop (Indexed 11) ∷ Drop ∷ i64 ∷ Br 0 ∷ []) }
    ensures past_loop { Leads 0 (i32 ∷ Loop (Indexed 11) ∷ Br 0 ∷ End ∷ []) (fresh (I64 ∷ []) []) (body 0 ∷ []) }
    ensures no_result { Stops 0 (Block (Value I32) ∷ End ∷ []) }
    ensures one_left { Stops 0 (Block Empty ∷ i32 ∷ End ∷ []) }
    ensures nothing_inside { Stops 0 (i32 ∷ Block Empty ∷ Drop ∷ []) }
    ensures no_type { Stops 0 (Block (Indexed 13) ∷ []) }
    ensures whole { Leads 0 (Block Empty ∷ i32 ∷ Loop (Indexed 11) ∷ Br 0 ∷ End ∷ Drop ∷ End ∷ End ∷ []) (fresh [] []) [] }
{}

/// The second list of an `if` begins as the first one did. Without one, what is taken serves as what is given.
pub fn choices()
    ensures first { Leads 0 (i32 ∷ i32 ∷ If (Indexed 11) ∷ []) (fresh (I32 ∷ []) []) (frame_of IfFrame (Indexed 11) (fresh [] []) ∷ body 0 ∷ []) }
    ensures second { Leads 0 (i32 ∷ i32 ∷ If (Indexed 11) ∷ Drop ∷ i64 ∷ Else ∷ []) (fresh (I32 ∷ []) []) (frame_of ElseFrame (Indexed 11) (fresh [] []) ∷ body 0 ∷ []) }
    ensures past_second { Leads 0 (i32 ∷ i32 ∷ If (Indexed 11) ∷ Drop ∷ i64 ∷ Else ∷ Drop ∷ i64 ∷ End ∷ []) (fresh (I64 ∷ []) []) (body 0 ∷ []) }
    ensures without_second { Leads 0 (i32 ∷ i32 ∷ If (Indexed 7) ∷ End ∷ []) (fresh (I32 ∷ []) []) (body 0 ∷ []) }
    ensures other_types { Stops 0 (i32 ∷ i32 ∷ If (Indexed 11) ∷ Drop ∷ i64 ∷ End ∷ []) }
    ensures no_condition { Stops 0 (If Empty ∷ []) }
    ensures first_gives_nothing { Stops 0 (i32 ∷ If (Value I32) ∷ Else ∷ []) }
    ensures second_gives_nothing { Stops 0 (i32 ∷ If (Value I32) ∷ i32 ∷ Else ∷ End ∷ []) }
    ensures two_seconds { Stops 0 (i32 ∷ If Empty ∷ Else ∷ Else ∷ []) }
    ensures second_of_block { Stops 0 (Block Empty ∷ Else ∷ []) }
    ensures second_of_loop { Stops 0 (Loop Empty ∷ Else ∷ []) }
    ensures second_of_body { Stops 0 (Else ∷ []) }
    ensures whole { Leads 2 (i32 ∷ If (Value I32) ∷ i32 ∷ Else ∷ Unreachable ∷ End ∷ End ∷ []) (fresh (I32 ∷ []) []) [] }
{}

/// After `unreachable` a list ends with any types, and the list around it is as it was.
pub fn unreachable_code()
    ensures inside { Leads 0 (i32 ∷ Block Empty ∷ i64 ∷ Unreachable ∷ []) unknown (frame_of BlockFrame Empty (fresh (I32 ∷ []) []) ∷ body 0 ∷ []) }
    ensures past { Leads 0 (i32 ∷ Block (Value I64) ∷ Unreachable ∷ End ∷ []) (fresh (I32 ∷ I64 ∷ []) []) (body 0 ∷ []) }
    ensures only_inside { Stops 0 (Block Empty ∷ Unreachable ∷ End ∷ Drop ∷ []) }
    ensures closed_inside { Stops 0 (Unreachable ∷ Block Empty ∷ Drop ∷ []) }
    ensures known { Stops 0 (Block (Value I64) ∷ Unreachable ∷ i32 ∷ End ∷ []) }
    ensures whole { Leads 2 (Unreachable ∷ End ∷ []) (fresh (I32 ∷ []) []) [] }
{}

/// What a list assigns, it assigns for itself and the lists in it.
pub fn assignments()
    ensures inside { LeadsWith (run_of 1 (to_type 2) ∷ []) 0 (Block Empty ∷ RefFunc 2 ∷ LocalSet 0 ∷ Block Empty ∷ LocalGet 0 ∷ Drop ∷ []) (fresh [] (0 ∷ [])) (frame_of BlockFrame Empty (fresh [] (0 ∷ [])) ∷ frame_of BlockFrame Empty (fresh [] []) ∷ body 0 ∷ []) }
    ensures second { LeadsWith (run_of 2 (to_type 2) ∷ []) 0 (RefFunc 2 ∷ LocalSet 0 ∷ RefFunc 2 ∷ LocalSet 1 ∷ []) (fresh [] (0 ∷ 1 ∷ [])) (body 0 ∷ []) }
    ensures past { LeadsWith (run_of 1 (to_type 2) ∷ []) 0 (Block Empty ∷ RefFunc 2 ∷ LocalSet 0 ∷ End ∷ []) (fresh [] []) (body 0 ∷ []) }
    ensures used_past { StopsWith (run_of 1 (to_type 2) ∷ []) 0 (Block Empty ∷ RefFunc 2 ∷ LocalSet 0 ∷ End ∷ LocalGet 0 ∷ []) }
    ensures in_second { LeadsWith (run_of 1 (to_type 2) ∷ []) 0 (i32 ∷ If Empty ∷ RefFunc 2 ∷ LocalSet 0 ∷ Else ∷ []) (fresh [] []) (frame_of ElseFrame Empty (fresh [] []) ∷ body 0 ∷ []) }
    ensures before_second { LeadsWith (run_of 1 (to_type 2) ∷ []) 0 (RefFunc 2 ∷ LocalSet 0 ∷ i32 ∷ If Empty ∷ Else ∷ []) (fresh [] (0 ∷ [])) (frame_of ElseFrame Empty (fresh [] (0 ∷ [])) ∷ body 0 ∷ []) }
{}

/// The body ends as a block does, and then no operator may come.
pub fn ends()
    ensures of_nothing { Leads 0 (End ∷ []) (fresh [] []) [] }
    ensures with_result { Leads 2 (i32 ∷ End ∷ []) (fresh (I32 ∷ []) []) [] }
    ensures without_result { Stops 2 (End ∷ []) }
    ensures other_result { Stops 2 (i64 ∷ End ∷ []) }
    ensures another_end { Stops 0 (End ∷ End ∷ []) }
    ensures another_operator { Stops 0 (End ∷ Nop ∷ []) }
{}
