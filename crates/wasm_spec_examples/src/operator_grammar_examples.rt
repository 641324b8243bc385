//! Worked examples of how operators and bodies are written.

ghost use Rattle.std.specs.Prelude.{◌≡◌, ℕ, ℤ, List, [], ◌∷◌, false, length, true, pos, negsuc};
ghost use Rattle.wasm_bodies.specs.Bodies.{AreLocals, HasManyLocals, HasOtherOperator, IsBodyOf, IsFunctionBody, IsWritten, in_function};
ghost use Rattle.wasm_bodies.specs.OperatorGrammar.{IsOperator, IsOtherCode};
ghost use Rattle.wasm_bodies.specs.OperatorRows.{AccessRow, Int32, access};
ghost use Rattle.wasm_bodies.specs.Operators.{ArrayNewFixed, Block, BrTable, CallIndirect, Empty, F32Const, F64Const, I32Const, I64Const, Indexed, Load, MemoryArgument, MemoryCopy, MemoryFill, MemoryInit, MemorySize, RefNull, ReturnCallIndirect, SelectTyped, TableCopy, TableInit, Unreachable, V128Const, Value};
ghost use Rattle.wasm_spec.specs.Features.{Features, Floats, Memory64, MultiMemory, MultiValue, ReferenceTypes, default_features, has};
ghost use Rattle.wasm_spec.specs.Types.{Abstract, Concrete, F32, FuncType, Func, I32, I64};
ghost use Rattle.wasm_spec_examples.specs.BodyExamples.{module_items, run_of, to_type};
ghost use Rattle.wasm_spec_examples.specs.OperatorExamples.{access_at, counted_from, scalar};
ghost use Rattle.wasm_spec_examples.specs.TypeExamples.{takes};

/// Codes and immediates, whatever the features.
pub fn operators()
    ensures plain { (features : Features) → IsOperator features (0x00 ∷ []) Unreachable }
    ensures number { (features : Features) → IsOperator features (0x41 ∷ 0x07 ∷ []) (I32Const (pos 7)) }
    ensures negative_number { (features : Features) → IsOperator features (0x41 ∷ 0x7f ∷ []) (I32Const (negsuc 0)) }
    ensures largest_number { (features : Features) → IsOperator features (0x41 ∷ 0xff ∷ 0xff ∷ 0xff ∷ 0xff ∷ 0x07 ∷ []) (I32Const (pos 2147483647)) }
    ensures number_past { (features : Features) (value : ℤ) → ¬ (IsOperator features (0x41 ∷ 0xff ∷ 0xff ∷ 0xff ∷ 0xff ∷ 0x0f ∷ []) (I32Const value)) }
    ensures large_number { (features : Features) → IsOperator features (0x42 ∷ 0xff ∷ 0xff ∷ 0xff ∷ 0xff ∷ 0x0f ∷ []) (I64Const (pos 4294967295)) }
    ensures float { (features : Features) → IsOperator features (0x43 ∷ 0x00 ∷ 0x00 ∷ 0x80 ∷ 0x3f ∷ []) (F32Const 0x3f800000) }
    ensures float_cut { (features : Features) (bits : ℕ) → ¬ (IsOperator features (0x43 ∷ 0x00 ∷ 0x80 ∷ 0x3f ∷ []) (F32Const bits)) }
    ensures double { (features : Features) → IsOperator features (0x44 ∷ 0x00 ∷ 0x00 ∷ 0x00 ∷ 0x00 ∷ 0x00 ∷ 0x00 ∷ 0xf0 ∷ 0x3f ∷ []) (F64Const 0x3ff0000000000000) }
    ensures double_cut { (features : Features) (bits : ℕ) → ¬ (IsOperator features (0x44 ∷ 0x00 ∷ 0x00 ∷ 0x80 ∷ 0x3f ∷ []) (F64Const bits)) }
    ensures vector { (features : Features) → IsOperator features (0xfd ∷ 0x0c ∷ counted_from 0 16) (V128Const (counted_from 0 16)) }
    ensures vector_cut { (features : Features) (bytes : List ℕ) → ¬ (IsOperator features (0xfd ∷ 0x0c ∷ counted_from 0 15) (V128Const bytes)) }
    ensures row { (features : Features) → IsOperator features (0x6a ∷ []) (scalar 0x6a) }
    ensures block { (features : Features) → IsOperator features (0x02 ∷ 0x40 ∷ []) (Block Empty) }
    ensures block_of_a_value { (features : Features) → IsOperator features (0x02 ∷ 0x7e ∷ []) (Block (Value I64)) }
    ensures table_of_labels { (features : Features) → IsOperator features (0x0e ∷ 0x02 ∷ 0x00 ∷ 0x01 ∷ 0x02 ∷ []) (BrTable (0 ∷ 1 ∷ []) 2) }
    ensures choice { (features : Features) → IsOperator features (0x1c ∷ 0x01 ∷ 0x7f ∷ []) (SelectTyped (I32 ∷ [])) }
    ensures choice_of_none { (features : Features) → IsOperator features (0x1c ∷ 0x00 ∷ []) (SelectTyped []) }
    ensures null_of_a_type { (features : Features) → IsOperator features (0xd0 ∷ 0x05 ∷ []) (RefNull (Concrete 5)) }
    ensures null_of_a_kind { (features : Features) → IsOperator features (0xd0 ∷ 0x70 ∷ []) (RefNull (Abstract Func)) }
    ensures prefixed { (features : Features) → IsOperator features (0xfc ∷ 0x0b ∷ 0x01 ∷ []) (MemoryFill 1) }
    ensures padded { (features : Features) → IsOperator features (0xfc ∷ 0x8b ∷ 0x00 ∷ 0x01 ∷ []) (MemoryFill 1) }
    ensures segment_first { (features : Features) → IsOperator features (0xfc ∷ 0x08 ∷ 0x01 ∷ 0x02 ∷ []) (MemoryInit 1 2) }
    ensures written_memory_first { (features : Features) → IsOperator features (0xfc ∷ 0x0a ∷ 0x01 ∷ 0x02 ∷ []) (MemoryCopy 1 2) }
    ensures written_table_first { (features : Features) → IsOperator features (0xfc ∷ 0x0e ∷ 0x01 ∷ 0x02 ∷ []) (TableCopy 1 2) }
    ensures table_segment_first { (features : Features) → IsOperator features (0xfc ∷ 0x0c ∷ 0x01 ∷ 0x02 ∷ []) (TableInit 1 2) }
    ensures count_last { (features : Features) → IsOperator features (0xfb ∷ 0x08 ∷ 0x01 ∷ 0x02 ∷ []) (ArrayNewFixed 1 2) }
    ensures type_first { (features : Features) → IsOperator features (0x13 ∷ 0x01 ∷ 0x02 ∷ []) (ReturnCallIndirect 1 2) }
    ensures load { (features : Features) → IsOperator features (0x28 ∷ 0x02 ∷ 0x08 ∷ []) (Load (access 0x28 Int32 2) (access_at 2 0 8)) }
    ensures load_of_another_row { (features : Features) → ¬ (IsOperator features (0x28 ∷ 0x02 ∷ 0x08 ∷ []) (Load (access 0x28 Int32 3) (access_at 2 0 8))) }
{}

/// How some immediates are written depends on the features.
pub fn operators_under_features()
    ensures index_of_block { (features : Features) → has features MultiValue ≡ true → IsOperator features (0x02 ∷ 0x05 ∷ []) (Block (Indexed 5)) }
    ensures no_index_of_block { (features : Features) (index : ℕ) → has features MultiValue ≡ false → ¬ (IsOperator features (0x02 ∷ 0x05 ∷ []) (Block (Indexed index))) }
    ensures table { (features : Features) → has features ReferenceTypes ≡ true → IsOperator features (0x11 ∷ 0x01 ∷ 0x02 ∷ []) (CallIndirect 1 2) }
    ensures first_table { (features : Features) → has features ReferenceTypes ≡ false → IsOperator features (0x11 ∷ 0x01 ∷ 0x00 ∷ []) (CallIndirect 1 0) }
    ensures no_other_table { (features : Features) (type table : ℕ) → has features ReferenceTypes ≡ false → ¬ (IsOperator features (0x11 ∷ 0x01 ∷ 0x02 ∷ []) (CallIndirect type table)) }
    ensures memory { (features : Features) → has features MultiMemory ≡ true → IsOperator features (0x3f ∷ 0x02 ∷ []) (MemorySize 2) }
    ensures first_memory { (features : Features) → has features MultiMemory ≡ false → IsOperator features (0x3f ∷ 0x00 ∷ []) (MemorySize 0) }
    ensures no_other_memory { (features : Features) (memory : ℕ) → has features MultiMemory ≡ false → ¬ (IsOperator features (0x3f ∷ 0x02 ∷ []) (MemorySize memory)) }
    ensures no_padded_memory { (features : Features) (memory : ℕ) → has features MultiMemory ≡ false → ¬ (IsOperator features (0x3f ∷ 0x80 ∷ 0x00 ∷ []) (MemorySize memory)) }
    ensures load_from { (features : Features) → has features MultiMemory ≡ true → IsOperator features (0x28 ∷ 0x42 ∷ 0x01 ∷ 0x08 ∷ []) (Load (access 0x28 Int32 2) (access_at 2 1 8)) }
    ensures no_bit_of_memory { (features : Features) (row : AccessRow) (argument : MemoryArgument) → has features MultiMemory ≡ false → ¬ (IsOperator features (0x28 ∷ 0x42 ∷ 0x01 ∷ 0x08 ∷ []) (Load row argument)) }
    ensures no_large_offset { (features : Features) (row : AccessRow) (argument : MemoryArgument) → has features Memory64 ≡ false → ¬ (IsOperator features (0x28 ∷ 0x00 ∷ 0x80 ∷ 0x80 ∷ 0x80 ∷ 0x80 ∷ 0x10 ∷ []) (Load row argument)) }
    ensures large_offset { (features : Features) → has features Memory64 ≡ true → IsOperator features (0x28 ∷ 0x00 ∷ 0x80 ∷ 0x80 ∷ 0x80 ∷ 0x80 ∷ 0x10 ∷ []) (Load (access 0x28 Int32 2) (access_at 0 0 4294967296)) }
{}

/// Codes that no operator has.
pub fn other_codes()
    ensures byte { IsOtherCode (0xfe ∷ []) }
    ensures second_code { IsOtherCode (0xfb ∷ 0x02 ∷ []) }
    ensures padded { IsOtherCode (0xfd ∷ 0x80 ∷ 0x00 ∷ []) }
    ensures prefix_alone { ¬ (IsOtherCode (0xfc ∷ [])) }
    ensures operator { ¬ (IsOtherCode (0x6a ∷ [])) }
{}

/// Bodies as bytes: locals, operators and the end.
pub fn bodies()
    ensures unreachable { IsFunctionBody default_features module_items (takes []) (0x00 ∷ 0x00 ∷ 0x0b ∷ []) }
    ensures with_locals { IsFunctionBody default_features module_items (takes []) (0x01 ∷ 0x02 ∷ 0x7f ∷ 0x20 ∷ 0x01 ∷ 0x1a ∷ 0x0b ∷ []) }
    ensures many_locals { (features : Features) (type : FuncType ℕ) → HasManyLocals features module_items type (0x01 ∷ 0xd1 ∷ 0x86 ∷ 0x03 ∷ 0x7f ∷ 0x00 ∷ 0x0b ∷ []) }
    ensures other_operator { HasOtherOperator default_features module_items (takes []) (0x00 ∷ 0x00 ∷ 0xfe ∷ 0x03 ∷ 0x00 ∷ 0x0b ∷ []) }
    ensures last_local { (features : Features) (type : FuncType ℕ) → length type.params ≡ 49999 → AreLocals features module_items type (0x01 ∷ 0x01 ∷ 0x7f ∷ []) (run_of 1 I32 ∷ []) }
    ensures local_past { (features : Features) (type : FuncType ℕ) → length type.params ≡ 50000 → ¬ (AreLocals features module_items type (0x01 ∷ 0x01 ∷ 0x7f ∷ []) (run_of 1 I32 ∷ [])) }
    ensures no_body_without_end { ¬ (IsBodyOf (in_function default_features module_items (takes []) []) (Unreachable ∷ [])) }
    ensures no_locals_of_no_type { (features : Features) → ¬ (IsWritten features module_items (run_of 0 (to_type 13))) }
    ensures no_locals_of_a_type { IsWritten default_features module_items (run_of 0 (to_type 3)) }
    ensures no_locals_of_a_float { (features : Features) (type : FuncType ℕ) → has features Floats ≡ true → length type.params ≡ 0 → AreLocals features module_items type (0x01 ∷ 0x00 ∷ 0x7d ∷ []) (run_of 0 F32 ∷ []) }
    ensures no_body_with_a_float { (features : Features) (type : FuncType ℕ) (rest : List ℕ) → has features Floats ≡ false → ¬ (IsFunctionBody features module_items type (0x01 ∷ 0x00 ∷ 0x7d ∷ rest)) }
{}

/// Bodies whose locals aren't too many, and bodies without a code outside of the table that a body may go on to.
pub fn no_others()
    ensures empty { IsFunctionBody default_features module_items (takes []) (0x00 ∷ 0x0b ∷ []) }
    ensures empty_without_other { (features : Features) → ¬ (HasOtherOperator features module_items (takes []) (0x00 ∷ 0x0b ∷ [])) }
    ensures empty_without_locals { (features : Features) → ¬ (HasManyLocals features module_items (takes []) (0x00 ∷ 0x0b ∷ [])) }
    ensures other_after_a_drop { HasOtherOperator default_features module_items (takes []) (0x00 ∷ 0x00 ∷ 0x1a ∷ 0xfe ∷ []) }
    ensures other_after_a_wrong_drop { (features : Features) → ¬ (HasOtherOperator features module_items (takes []) (0x00 ∷ 0x1a ∷ 0xfe ∷ [])) }
    ensures other_in_a_block { HasOtherOperator default_features module_items (takes []) (0x00 ∷ 0x02 ∷ 0x40 ∷ 0xfe ∷ []) }
    ensures locals_within { (features : Features) → ¬ (HasManyLocals features module_items (takes []) (0x01 ∷ 0xd0 ∷ 0x86 ∷ 0x03 ∷ 0x7f ∷ 0x00 ∷ 0x0b ∷ [])) }
{}
