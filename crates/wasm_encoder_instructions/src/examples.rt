//! Worked examples of what is written of operators. The function does nothing: its contract is a theorem.

ghost use Rattle.std.specs.Prelude.{◌≡◌, [], ◌∷◌, negsuc, pos};
ghost use Rattle.wasm_bodies.specs.OperatorRows.{Byte, Prefixed, load_rows, store_rows};
ghost use Rattle.wasm_bodies.specs.Operators.{ArrayNewFixed, Block, BrTable, Call, CallIndirect, Empty, F32Const, F64Const, I32Const, I64Const, Indexed, Load, MemoryCopy, MemoryInit, RefNull, Scalar, SelectTyped, Store, Unreachable, V128Const, Value};
ghost use Rattle.wasm_encoder_instructions.specs.Instructions.{first_access};
ghost use Rattle.wasm_encoder_instructions.specs.OperatorEncodings.{operator_encoding};
ghost use Rattle.wasm_encoder_instructions.specs.ScalarRows.{row_of};
ghost use Rattle.wasm_spec.specs.Types.{Abstract, Concrete, Func, I32, I64};

/// Codes and immediates, each number in as few bytes as there can be.
pub fn operators()
    ensures unreachable { operator_encoding (Unreachable) ≡ 0x00 ∷ [] }
    ensures block { operator_encoding (Block Empty) ≡ 0x02 ∷ 0x40 ∷ [] }
    ensures block_of_a_value { operator_encoding (Block (Value I64)) ≡ 0x02 ∷ 0x7e ∷ [] }
    ensures block_of_a_type { operator_encoding (Block (Indexed 64)) ≡ 0x02 ∷ 0xc0 ∷ 0x00 ∷ [] }
    ensures table_of_labels { operator_encoding (BrTable (0 ∷ 1 ∷ []) 128) ≡ 0x0e ∷ 0x02 ∷ 0x00 ∷ 0x01 ∷ 0x80 ∷ 0x01 ∷ [] }
    ensures call { operator_encoding (Call 128) ≡ 0x10 ∷ 0x80 ∷ 0x01 ∷ [] }
    ensures type_first { operator_encoding (CallIndirect 1 2) ≡ 0x11 ∷ 0x01 ∷ 0x02 ∷ [] }
    ensures choice { operator_encoding (SelectTyped (I32 ∷ [])) ≡ 0x1c ∷ 0x01 ∷ 0x7f ∷ [] }
    ensures negative_number { operator_encoding (I32Const (negsuc 0)) ≡ 0x41 ∷ 0x7f ∷ [] }
    ensures number { operator_encoding (I64Const (pos 64)) ≡ 0x42 ∷ 0xc0 ∷ 0x00 ∷ [] }
    ensures float { operator_encoding (F32Const 0x3f800000) ≡ 0x43 ∷ 0x00 ∷ 0x00 ∷ 0x80 ∷ 0x3f ∷ [] }
    ensures double { operator_encoding (F64Const 0x3ff0000000000000) ≡ 0x44 ∷ 0x00 ∷ 0x00 ∷ 0x00 ∷ 0x00 ∷ 0x00 ∷ 0x00 ∷ 0xf0 ∷ 0x3f ∷ [] }
    ensures load { operator_encoding (Load (first_access load_rows 0x28) (record { exponent = 2; memory = 0; offset = 16 })) ≡ 0x28 ∷ 0x02 ∷ 0x10 ∷ [] }
    ensures load_from_another { operator_encoding (Load (first_access load_rows 0x28) (record { exponent = 2; memory = 1; offset = 16 })) ≡ 0x28 ∷ 0x42 ∷ 0x01 ∷ 0x10 ∷ [] }
    ensures store { operator_encoding (Store (first_access store_rows 0x3b) (record { exponent = 0; memory = 0; offset = 300 })) ≡ 0x3b ∷ 0x00 ∷ 0xac ∷ 0x02 ∷ [] }
    ensures row { operator_encoding (Scalar (row_of (Byte 0x6a))) ≡ 0x6a ∷ [] }
    ensures prefixed_row { operator_encoding (Scalar (row_of (Prefixed 0xfc 7))) ≡ 0xfc ∷ 0x07 ∷ [] }
    ensures null_of_a_kind { operator_encoding (RefNull (Abstract Func)) ≡ 0xd0 ∷ 0x70 ∷ [] }
    ensures null_of_a_type { operator_encoding (RefNull (Concrete 64)) ≡ 0xd0 ∷ 0xc0 ∷ 0x00 ∷ [] }
    ensures segment_first { operator_encoding (MemoryInit 1 2) ≡ 0xfc ∷ 0x08 ∷ 0x01 ∷ 0x02 ∷ [] }
    ensures written_memory_first { operator_encoding (MemoryCopy 1 2) ≡ 0xfc ∷ 0x0a ∷ 0x01 ∷ 0x02 ∷ [] }
    ensures count_last { operator_encoding (ArrayNewFixed 1 2) ≡ 0xfb ∷ 0x08 ∷ 0x01 ∷ 0x02 ∷ [] }
    ensures vector { operator_encoding (V128Const (0x00 ∷ 0x01 ∷ 0x02 ∷ 0x03 ∷ 0x04 ∷ 0x05 ∷ 0x06 ∷ 0x07 ∷ 0x08 ∷ 0x09 ∷ 0x0a ∷ 0x0b ∷ 0x0c ∷ 0x0d ∷ 0x0e ∷ 0x0f ∷ []))
        ≡ 0xfd ∷ 0x0c ∷ 0x00 ∷ 0x01 ∷ 0x02 ∷ 0x03 ∷ 0x04 ∷ 0x05 ∷ 0x06 ∷ 0x07 ∷ 0x08 ∷ 0x09 ∷ 0x0a ∷ 0x0b ∷ 0x0c ∷ 0x0d ∷ 0x0e ∷ 0x0f ∷ [] }
{}
