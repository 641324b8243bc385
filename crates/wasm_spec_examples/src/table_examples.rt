//! Worked examples of the table of operators: which codes are in it, and what its rows take and give.

ghost use Rattle.std.specs.Prelude.{◌≡◌, ◌||◌, ◌++◌, [], ◌∷◌, length, map, not, pos, replicate, true};
ghost use Rattle.std.specs.List.{AllByRecursion, filter};
ghost use Rattle.wasm_bodies.specs.OperatorGrammar.{codes, is_among_codes, is_prefix};
ghost use Rattle.wasm_bodies.specs.OperatorRows.{Byte, Float32, Float64, Int32, Int64, Prefixed, load_rows, scalar_rows, store_rows};
ghost use Rattle.wasm_bodies.specs.Operators.{AnyConvertExtern, ArrayNew, ArrayNewDefault, ArrayNewFixed, Block, Br, BrIf, BrOnNonNull, BrOnNull, BrTable, Call, CallIndirect, CallRef, DataDrop, Drop, ElemDrop, Else, Empty, End, ExternConvertAny, F32Const, F64Const, GlobalGet, GlobalSet, I32Const, I64Const, If, Indexed, LocalGet, LocalSet, LocalTee, Loop, MemoryCopy, MemoryFill, MemoryGrow, MemoryInit, MemorySize, Nop, RefAsNonNull, RefEq, RefFunc, RefI31, RefIsNull, RefNull, Return, ReturnCall, ReturnCallIndirect, ReturnCallRef, Select, SelectTyped, StructNew, StructNewDefault, TableCopy, TableFill, TableGet, TableGrow, TableInit, TableSet, TableSize, Unreachable, V128Const};
ghost use Rattle.wasm_spec.specs.Features.{BulkMemory, Floats, FunctionReferences, Gc, MultiValue, ReferenceTypes, Simd, TailCall};
ghost use Rattle.wasm_spec.specs.Types.{Abstract, Func};
ghost use Rattle.wasm_spec_examples.specs.OperatorExamples.{IsRightLoad, IsRightRow, IsRightStore, are_distinct, codes_of, counted_from, gates_of};

/// There are so many operators, each with a code of its own.
pub fn counts()
    ensures operators { length codes ≡ 218 }
    ensures distinct { are_distinct codes ≡ true }
{}

/// The codes of rows follow one another.
pub fn codes_of_rows()
    ensures scalars { map (λ row. row.code) scalar_rows ≡ map Byte (counted_from 0x45 128) ++ map (Prefixed 0xfc) (counted_from 0 8) }
    ensures loads { map (λ row. row.code) load_rows ≡ counted_from 0x28 14 }
    ensures stores { map (λ row. row.code) store_rows ≡ counted_from 0x36 9 }
{}

/// The widths of loads and stores, and their numbers.
pub fn widths()
    ensures of_loads { map (λ row. row.exponent) load_rows ≡ 2 ∷ 3 ∷ 2 ∷ 3 ∷ 0 ∷ 0 ∷ 1 ∷ 1 ∷ 0 ∷ 0 ∷ 1 ∷ 1 ∷ 2 ∷ 2 ∷ [] }
    ensures of_stores { map (λ row. row.exponent) store_rows ≡ 2 ∷ 3 ∷ 2 ∷ 3 ∷ 0 ∷ 1 ∷ 0 ∷ 1 ∷ 2 ∷ [] }
    ensures numbers_of_loads { map (λ row. row.type) load_rows ≡ Int32 ∷ Int64 ∷ Float32 ∷ Float64 ∷ (replicate 4 Int32 ++ replicate 6 Int64) }
    ensures numbers_of_stores { map (λ row. row.type) store_rows ≡ Int32 ∷ Int64 ∷ Float32 ∷ Float64 ∷ Int32 ∷ Int32 ∷ Int64 ∷ Int64 ∷ Int64 ∷ [] }
{}

/// The codes of the other operators.
pub fn codes_of_forms()
    ensures blocks { codes_of (Unreachable ∷ Nop ∷ Block Empty ∷ Loop Empty ∷ If Empty ∷ Else ∷ []) ≡ map Byte (counted_from 0x00 6) }
    ensures end { codes_of (End ∷ []) ≡ Byte 0x0b ∷ [] }
    ensures jumps { codes_of (Br 0 ∷ BrIf 0 ∷ BrTable [] 0 ∷ Return ∷ []) ≡ map Byte (counted_from 0x0c 4) }
    ensures calls { codes_of (Call 0 ∷ CallIndirect 0 0 ∷ ReturnCall 0 ∷ ReturnCallIndirect 0 0 ∷ CallRef 0 ∷ ReturnCallRef 0 ∷ []) ≡ map Byte (counted_from 0x10 6) }
    ensures parametric { codes_of (Drop ∷ Select ∷ SelectTyped [] ∷ []) ≡ map Byte (counted_from 0x1a 3) }
    ensures variables { codes_of (LocalGet 0 ∷ LocalSet 0 ∷ LocalTee 0 ∷ GlobalGet 0 ∷ GlobalSet 0 ∷ TableGet 0 ∷ TableSet 0 ∷ []) ≡ map Byte (counted_from 0x20 7) }
    ensures numbers { codes_of (MemorySize 0 ∷ MemoryGrow 0 ∷ I32Const (pos 0) ∷ I64Const (pos 0) ∷ F32Const 0 ∷ F64Const 0 ∷ []) ≡ map Byte (counted_from 0x3f 6) }
    ensures references { codes_of (RefNull (Abstract Func) ∷ RefIsNull ∷ RefFunc 0 ∷ RefEq ∷ RefAsNonNull ∷ BrOnNull 0 ∷ BrOnNonNull 0 ∷ []) ≡ map Byte (counted_from 0xd0 7) }
    ensures structures { codes_of (StructNew 0 ∷ StructNewDefault 0 ∷ []) ≡ map (Prefixed 0xfb) (counted_from 0 2) }
    ensures arrays { codes_of (ArrayNew 0 ∷ ArrayNewDefault 0 ∷ ArrayNewFixed 0 0 ∷ []) ≡ map (Prefixed 0xfb) (counted_from 6 3) }
    ensures conversions { codes_of (AnyConvertExtern ∷ ExternConvertAny ∷ RefI31 ∷ []) ≡ map (Prefixed 0xfb) (counted_from 0x1a 3) }
    ensures ranges_of_memories { codes_of (MemoryInit 0 0 ∷ DataDrop 0 ∷ MemoryCopy 0 0 ∷ MemoryFill 0 ∷ []) ≡ map (Prefixed 0xfc) (counted_from 8 4) }
    ensures ranges_of_tables { codes_of (TableInit 0 0 ∷ ElemDrop 0 ∷ TableCopy 0 0 ∷ TableGrow 0 ∷ TableSize 0 ∷ TableFill 0 ∷ []) ≡ map (Prefixed 0xfc) (counted_from 12 6) }
    ensures vector { codes_of (V128Const [] ∷ []) ≡ Prefixed 0xfd 12 ∷ [] }
{}

/// The flags that these operators ask for: each of them is here once, and those that open blocks once more.
pub fn gates_of_forms()
    ensures control { gates_of (Unreachable ∷ Nop ∷ Block Empty ∷ Loop Empty ∷ If Empty ∷ Else ∷ End ∷ Br 0 ∷ BrIf 0 ∷ BrTable [] 0 ∷ Return ∷ Call 0 ∷ CallIndirect 0 0 ∷ Drop ∷ Select ∷ []) ≡ replicate 15 [] }
    ensures variables { gates_of (LocalGet 0 ∷ LocalSet 0 ∷ LocalTee 0 ∷ GlobalGet 0 ∷ GlobalSet 0 ∷ MemorySize 0 ∷ MemoryGrow 0 ∷ I32Const (pos 0) ∷ I64Const (pos 0) ∷ []) ≡ replicate 9 [] }
    ensures blocks { gates_of (Block (Indexed 0) ∷ Loop (Indexed 0) ∷ If (Indexed 0) ∷ []) ≡ replicate 3 (MultiValue ∷ []) }
    ensures tail_calls { gates_of (ReturnCall 0 ∷ ReturnCallIndirect 0 0 ∷ []) ≡ replicate 2 (TailCall ∷ []) }
    ensures function_references { gates_of (CallRef 0 ∷ ReturnCallRef 0 ∷ BrOnNull 0 ∷ BrOnNonNull 0 ∷ RefAsNonNull ∷ []) ≡ replicate 5 (FunctionReferences ∷ []) }
    ensures reference_types { gates_of (SelectTyped [] ∷ TableGet 0 ∷ TableSet 0 ∷ TableSize 0 ∷ TableGrow 0 ∷ TableFill 0 ∷ RefNull (Abstract Func) ∷ RefIsNull ∷ RefFunc 0 ∷ []) ≡ replicate 9 (ReferenceTypes ∷ []) }
    ensures floats { gates_of (F32Const 0 ∷ F64Const 0 ∷ []) ≡ replicate 2 (Floats ∷ []) }
    ensures vectors { gates_of (V128Const [] ∷ []) ≡ replicate 1 (Simd ∷ []) }
    ensures ranges { gates_of (MemoryFill 0 ∷ MemoryCopy 0 0 ∷ MemoryInit 0 0 ∷ DataDrop 0 ∷ TableCopy 0 0 ∷ TableInit 0 0 ∷ ElemDrop 0 ∷ []) ≡ replicate 7 (BulkMemory ∷ []) }
    ensures collected { gates_of (RefEq ∷ StructNew 0 ∷ StructNewDefault 0 ∷ ArrayNew 0 ∷ ArrayNewDefault 0 ∷ ArrayNewFixed 0 0 ∷ RefI31 ∷ AnyConvertExtern ∷ ExternConvertAny ∷ []) ≡ replicate 9 (Gc ∷ []) }
{}

/// The codes that no operator has: bytes, and which second codes below 300 have one after each prefix.
pub fn other_codes()
    ensures bytes { filter (λ b. not (is_among_codes (Byte b) || is_prefix b)) (counted_from 0 256) ≡
        counted_from 0x06 5 ++ (counted_from 0x16 4 ++ (counted_from 0x1d 3 ++ (0x27 ∷ (counted_from 0xc5 11 ++ (counted_from 0xd7 36 ++ (0xfe ∷ 0xff ∷ [])))))) }
    ensures aggregates { filter (λ n. is_among_codes (Prefixed 0xfb n)) (counted_from 0 300) ≡ 0 ∷ 1 ∷ 6 ∷ 7 ∷ 8 ∷ 26 ∷ 27 ∷ 28 ∷ [] }
    ensures ranges { filter (λ n. is_among_codes (Prefixed 0xfc n)) (counted_from 0 300) ≡ counted_from 0 18 }
    ensures vectors { filter (λ n. is_among_codes (Prefixed 0xfd n)) (counted_from 0 300) ≡ 12 ∷ [] }
{}

/// Each row takes numbers of its types and no others, and asks for its flags.
pub fn rows()
    ensures scalars { AllByRecursion IsRightRow scalar_rows }
    ensures loads { AllByRecursion IsRightLoad load_rows }
    ensures stores { AllByRecursion IsRightStore store_rows }
{}
