//! Constant expressions (Core Specification 3.0, Binary Format, "Expressions").

ghost use Rattle.std.specs.Prelude.{◌≡◌, ◌+◌, ◌<◌, ◌≤◌, ◌^◌, ◌++◌, ◌∷◌, [], ℕ, List, length, Err, IfErr, IfOk, IfSome, None, Some};
ghost use Rattle.std.specs.Iterator.{Drains, Yields, YieldsThen};
ghost use Rattle.std.specs.List.{flat_map};
ghost use Rattle.wasm_bodies.specs.Operators as spec;
ghost use Rattle.wasm_core_types.specs.CoreTypes as core;
ghost use Rattle.wasm_core_write.specs.declared.encode_error.EncodeError.TheVariants as errors;
ghost use Rattle.wasm_encoder_instructions.specs.Instructions.{instruction_encoding, vector_bytes};
ghost use Rattle.wasm_encoder_instructions.specs.OperatorEncodings.{operator_encoding};
ghost use Rattle.wasm_encoder_instructions.specs.declared.instruction.Instruction.{Instruction};
ghost use Rattle.wasm_encoder_bodies.specs.Expressions.{AreShort, BeginsWithFunction};

use crate::const_numbers::{Byte, bytes_of, signed};
use crate::encodings::encodings_of;
use std::alloc::Global;
use std::marker::Model;
use wasm_core_read::binary_reader::BinaryReader;
use wasm_core_types::types::HeapType;
use wasm_core_write::encode::Encode;
use wasm_core_write::encode_error::EncodeError;
use wasm_core_write::encoding::{Encoding, add_sizes, bytes_size, put_bytes};
use wasm_core_write::type_encodings::heap_code_of;
use wasm_encoder_instructions::alone::encode_alone;
use wasm_encoder_instructions::ieee::{Ieee32, Ieee64};
use wasm_encoder_instructions::instruction::Instruction;

// What an expression ends with.
const END: u8 = 0x0b;

// The code of a reference to a function.
const REF_FUNC: u8 = 0xd2;

/// A constant expression, which is built as its bytes. Contracts see them, without the end.
#[derive(Clone, Debug, Drop)]
pub struct ConstExpr {
    bytes: Vec<u8>,
}

impl Model for ConstExpr {
    ghost use Rattle.std.specs.Prelude.{List, ℕ};

    ghost Value = { List ℕ };

    ghost view = { λ it. it.bytes.items };
}

impl ConstExpr {
    /// Creates an expression without operators.
    pub fn empty(alloc: Global) -> ConstExpr
        ensures { result ≡ [] }
    {
        ConstExpr {
            bytes: Vec::new(alloc),
        }
    }

    /// Returns the expression of these bytes, which are operators without the end.
    ///
    /// # Errors
    /// `Memory` alone.
    pub fn raw<I: IntoIterator<Item = u8>>(
        alloc: Global,
        bytes: I,
    ) -> Result<ConstExpr, EncodeError>
    where
        I::IntoIter: ExactSizeIterator,
        requires { (items : I.IntoIter) → I.into_iter_gives bytes items → I.IntoIter.can_next items }
        ensures kept { IfOk result (λ e. (items : I.IntoIter) × I.into_iter_gives bytes items × Drains I.IntoIter.next_gives items e) }
        ensures memory_alone { IfErr result (λ e. e ≡ errors.Memory) }
    {
        let bytes = bytes.into_iter();
        let mut kept = Vec::with_capacity(alloc, bytes.len())?;
        for byte in bytes {
            kept.push(byte)?;
        }
        Ok(ConstExpr { bytes: kept })
    }

    /// Returns the expression of these instructions, one after the other. They are operators that may stand in constant expressions, without the end: which ones
    /// they are isn't looked at.
    ///
    /// # Errors
    /// `TooLong` where one of them is longer than 4,294,967,295 bytes, as only a list can be, and else `Memory`.
    pub fn extended<'a, I: IntoIterator<Item = Instruction<'a>>>(
        alloc: Global,
        instructions: I,
    ) -> Result<ConstExpr, EncodeError>
    where
        I::IntoIter: ExactSizeIterator,
        requires { (items : I.IntoIter) → I.into_iter_gives instructions items → I.IntoIter.can_next items }
        ensures written { IfOk result (λ e. (items : I.IntoIter) × (all : List Instruction) × I.into_iter_gives instructions items × Drains I.IntoIter.next_gives items all × AreShort instruction_encoding all × (e ≡ flat_map instruction_encoding all)) }
        ensures too_long { result ≡ Err errors.TooLong → (items rest : I.IntoIter) × (before : List Instruction) × (instruction : Instruction) × I.into_iter_gives instructions items × YieldsThen I.IntoIter.next_gives items before (Some instruction) rest × AreShort instruction_encoding before × (2 ^ 32 ≤ length (instruction_encoding instruction)) }
        ensures memory { result ≡ Err errors.Memory → (items rest : I.IntoIter) × (taken : List Instruction) × I.into_iter_gives instructions items × Yields I.IntoIter.next_gives items taken rest × AreShort instruction_encoding taken }
    {
        let bytes = encodings_of(alloc, instructions.into_iter())?;
        Ok(ConstExpr { bytes })
    }

    // Returns the same with a code more, and an immediate after it, which are short.
    fn with<T: Encoding>(mut self, code: &[u8], immediate: &T) -> Result<ConstExpr, EncodeError>
        requires short { length code.now + length (T.encoding immediate.now) < 2 ^ 32 }
        ensures appended { IfOk result (λ e. e ≡ self ++ (code.now ++ T.encoding immediate.now)) }
        ensures memory_alone { IfErr result (λ e. e ≡ errors.Memory) }
    {
        let size = immediate.size()?;
        self.bytes.reserve(code.len() + size as usize)?;
        put_bytes(code, &mut self.bytes);
        immediate.put(&mut self.bytes);
        Ok(self)
    }

    /// Returns what a global holds, alone.
    ///
    /// # Errors
    /// `Memory` alone.
    pub fn global_get(alloc: Global, global: u32) -> Result<ConstExpr, EncodeError>
        ensures written { IfOk result (λ e. e ≡ operator_encoding (spec.GlobalGet global)) }
        ensures memory_alone { IfErr result (λ e. e ≡ errors.Memory) }
    {
        ConstExpr::empty(alloc).with_global_get(global)
    }

    /// Returns what a global holds, after the others.
    ///
    /// # Errors
    /// `Memory` alone. The expression is then gone.
    #[tactic(auto, using(wasm_spec::proofs::UnsignedEncodings::at_most_five), unfolding(wasm_encoder_instructions::specs::OperatorEncodings::operator_encoding, wasm_encoder_instructions::specs::OperatorEncodings::code_encoding))]
    pub fn with_global_get(self, global: u32) -> Result<ConstExpr, EncodeError>
        ensures appended { IfOk result (λ e. e ≡ self ++ operator_encoding (spec.GlobalGet global)) }
        ensures memory_alone { IfErr result (λ e. e ≡ errors.Memory) }
    {
        self.with(&[0x23], &global)
    }

    /// Returns null, as a reference to this, alone.
    ///
    /// # Errors
    /// `Memory` alone.
    pub fn ref_null(alloc: Global, heap_type: HeapType) -> Result<ConstExpr, EncodeError>
        ensures written { IfOk result (λ e. e ≡ operator_encoding (spec.RefNull (core.heap_type heap_type))) }
        ensures memory_alone { IfErr result (λ e. e ≡ errors.Memory) }
    {
        ConstExpr::empty(alloc).with_ref_null(heap_type)
    }

    /// Returns null, as a reference to this, after the others.
    ///
    /// # Errors
    /// `Memory` alone. The expression is then gone.
    #[tactic(auto, unfolding(wasm_spec::specs::TypeEncodings::heap_encoding, wasm_encoder_instructions::specs::OperatorEncodings::operator_encoding, wasm_encoder_instructions::specs::OperatorEncodings::code_encoding))]
    pub fn with_ref_null(self, heap_type: HeapType) -> Result<ConstExpr, EncodeError>
        ensures appended { IfOk result (λ e. e ≡ self ++ operator_encoding (spec.RefNull (core.heap_type heap_type))) }
        ensures memory_alone { IfErr result (λ e. e ≡ errors.Memory) }
    {
        match heap_type {
            HeapType::Abstract(heap) => self.with(&[0xd0], &Byte(heap_code_of(heap))),
            HeapType::Concrete(index) => self.with(&[0xd0], &signed(i64::from(index))),
        }
    }

    /// Returns a reference to a function, alone.
    ///
    /// # Errors
    /// `Memory` alone.
    pub fn ref_func(alloc: Global, function: u32) -> Result<ConstExpr, EncodeError>
        ensures written { IfOk result (λ e. e ≡ operator_encoding (spec.RefFunc function)) }
        ensures memory_alone { IfErr result (λ e. e ≡ errors.Memory) }
    {
        ConstExpr::empty(alloc).with_ref_func(function)
    }

    /// Returns a reference to a function, after the others.
    ///
    /// # Errors
    /// `Memory` alone. The expression is then gone.
    #[tactic(auto, using(wasm_spec::proofs::UnsignedEncodings::at_most_five), unfolding(wasm_encoder_instructions::specs::OperatorEncodings::operator_encoding, wasm_encoder_instructions::specs::OperatorEncodings::code_encoding))]
    pub fn with_ref_func(self, function: u32) -> Result<ConstExpr, EncodeError>
        ensures appended { IfOk result (λ e. e ≡ self ++ operator_encoding (spec.RefFunc function)) }
        ensures memory_alone { IfErr result (λ e. e ≡ errors.Memory) }
    {
        self.with(&[0xd2], &function)
    }

    /// Returns a number of 32 bits, alone.
    ///
    /// # Errors
    /// `Memory` alone.
    pub fn i32_const(alloc: Global, value: i32) -> Result<ConstExpr, EncodeError>
        ensures written { IfOk result (λ e. e ≡ operator_encoding (spec.I32Const value)) }
        ensures memory_alone { IfErr result (λ e. e ≡ errors.Memory) }
    {
        ConstExpr::empty(alloc).with_i32_const(value)
    }

    /// Returns a number of 32 bits, after the others.
    ///
    /// # Errors
    /// `Memory` alone. The expression is then gone.
    #[tactic(auto, unfolding(wasm_encoder_instructions::specs::OperatorEncodings::operator_encoding, wasm_encoder_instructions::specs::OperatorEncodings::code_encoding))]
    pub fn with_i32_const(self, value: i32) -> Result<ConstExpr, EncodeError>
        ensures appended { IfOk result (λ e. e ≡ self ++ operator_encoding (spec.I32Const value)) }
        ensures memory_alone { IfErr result (λ e. e ≡ errors.Memory) }
    {
        self.with(&[0x41], &signed(i64::from(value)))
    }

    /// Returns a number of 64 bits, alone.
    ///
    /// # Errors
    /// `Memory` alone.
    pub fn i64_const(alloc: Global, value: i64) -> Result<ConstExpr, EncodeError>
        ensures written { IfOk result (λ e. e ≡ operator_encoding (spec.I64Const value)) }
        ensures memory_alone { IfErr result (λ e. e ≡ errors.Memory) }
    {
        ConstExpr::empty(alloc).with_i64_const(value)
    }

    /// Returns a number of 64 bits, after the others.
    ///
    /// # Errors
    /// `Memory` alone. The expression is then gone.
    #[tactic(auto, unfolding(wasm_encoder_instructions::specs::OperatorEncodings::operator_encoding, wasm_encoder_instructions::specs::OperatorEncodings::code_encoding))]
    pub fn with_i64_const(self, value: i64) -> Result<ConstExpr, EncodeError>
        ensures appended { IfOk result (λ e. e ≡ self ++ operator_encoding (spec.I64Const value)) }
        ensures memory_alone { IfErr result (λ e. e ≡ errors.Memory) }
    {
        self.with(&[0x42], &signed(value))
    }

    /// Returns a float of 32 bits, alone.
    ///
    /// # Errors
    /// `Memory` alone.
    pub fn f32_const(alloc: Global, value: Ieee32) -> Result<ConstExpr, EncodeError>
        ensures written { IfOk result (λ e. e ≡ operator_encoding (spec.F32Const value.bits)) }
        ensures memory_alone { IfErr result (λ e. e ≡ errors.Memory) }
    {
        ConstExpr::empty(alloc).with_f32_const(value)
    }

    /// Returns a float of 32 bits, after the others.
    ///
    /// # Errors
    /// `Memory` alone. The expression is then gone.
    #[tactic(auto, unfolding(wasm_encoder_instructions::specs::OperatorEncodings::operator_encoding, wasm_encoder_instructions::specs::OperatorEncodings::code_encoding))]
    pub fn with_f32_const(self, value: Ieee32) -> Result<ConstExpr, EncodeError>
        ensures appended { IfOk result (λ e. e ≡ self ++ operator_encoding (spec.F32Const value.bits)) }
        ensures memory_alone { IfErr result (λ e. e ≡ errors.Memory) }
    {
        self.with(&[0x43], &value)
    }

    /// Returns a float of 64 bits, alone.
    ///
    /// # Errors
    /// `Memory` alone.
    pub fn f64_const(alloc: Global, value: Ieee64) -> Result<ConstExpr, EncodeError>
        ensures written { IfOk result (λ e. e ≡ operator_encoding (spec.F64Const value.bits)) }
        ensures memory_alone { IfErr result (λ e. e ≡ errors.Memory) }
    {
        ConstExpr::empty(alloc).with_f64_const(value)
    }

    /// Returns a float of 64 bits, after the others.
    ///
    /// # Errors
    /// `Memory` alone. The expression is then gone.
    #[tactic(auto, unfolding(wasm_encoder_instructions::specs::OperatorEncodings::operator_encoding, wasm_encoder_instructions::specs::OperatorEncodings::code_encoding))]
    pub fn with_f64_const(self, value: Ieee64) -> Result<ConstExpr, EncodeError>
        ensures appended { IfOk result (λ e. e ≡ self ++ operator_encoding (spec.F64Const value.bits)) }
        ensures memory_alone { IfErr result (λ e. e ≡ errors.Memory) }
    {
        self.with(&[0x44], &value)
    }

    /// Returns a vector, the lowest byte of which is written first, alone.
    ///
    /// # Errors
    /// `Memory` alone.
    pub fn v128_const(alloc: Global, value: i128) -> Result<ConstExpr, EncodeError>
        ensures written { IfOk result (λ e. e ≡ operator_encoding (spec.V128Const (vector_bytes value))) }
        ensures memory_alone { IfErr result (λ e. e ≡ errors.Memory) }
    {
        ConstExpr::empty(alloc).with_v128_const(value)
    }

    /// Returns a vector, the lowest byte of which is written first, after the others.
    ///
    /// # Errors
    /// `Memory` alone. The expression is then gone.
    #[tactic(auto, using(crate::proofs::VectorCode::vector_written))]
    pub fn with_v128_const(self, value: i128) -> Result<ConstExpr, EncodeError>
        ensures appended { IfOk result (λ e. e ≡ self ++ operator_encoding (spec.V128Const (vector_bytes value))) }
        ensures memory_alone { IfErr result (λ e. e ≡ errors.Memory) }
    {
        self.with(&[0xfd, 0x0c], &bytes_of(value))
    }

    // Returns the same with a code more that has no immediates.
    fn with_code(mut self, code: u8) -> Result<ConstExpr, EncodeError>
        ensures appended { IfOk result (λ e. e ≡ self ++ code ∷ []) }
        ensures memory_alone { IfErr result (λ e. e ≡ errors.Memory) }
    {
        self.bytes.push(code)?;
        Ok(self)
    }

    /// Adds two numbers of 32 bits, after the others.
    ///
    /// # Errors
    /// `Memory` alone. The expression is then gone.
    pub fn with_i32_add(self) -> Result<ConstExpr, EncodeError>
        ensures appended { IfOk result (λ e. e ≡ self ++ 0x6a ∷ []) }
        ensures memory_alone { IfErr result (λ e. e ≡ errors.Memory) }
    {
        self.with_code(0x6a)
    }

    /// Subtracts a number of 32 bits from another, after the others.
    ///
    /// # Errors
    /// `Memory` alone. The expression is then gone.
    pub fn with_i32_sub(self) -> Result<ConstExpr, EncodeError>
        ensures appended { IfOk result (λ e. e ≡ self ++ 0x6b ∷ []) }
        ensures memory_alone { IfErr result (λ e. e ≡ errors.Memory) }
    {
        self.with_code(0x6b)
    }

    /// Multiplies two numbers of 32 bits, after the others.
    ///
    /// # Errors
    /// `Memory` alone. The expression is then gone.
    pub fn with_i32_mul(self) -> Result<ConstExpr, EncodeError>
        ensures appended { IfOk result (λ e. e ≡ self ++ 0x6c ∷ []) }
        ensures memory_alone { IfErr result (λ e. e ≡ errors.Memory) }
    {
        self.with_code(0x6c)
    }

    /// Adds two numbers of 64 bits, after the others.
    ///
    /// # Errors
    /// `Memory` alone. The expression is then gone.
    pub fn with_i64_add(self) -> Result<ConstExpr, EncodeError>
        ensures appended { IfOk result (λ e. e ≡ self ++ 0x7c ∷ []) }
        ensures memory_alone { IfErr result (λ e. e ≡ errors.Memory) }
    {
        self.with_code(0x7c)
    }

    /// Subtracts a number of 64 bits from another, after the others.
    ///
    /// # Errors
    /// `Memory` alone. The expression is then gone.
    pub fn with_i64_sub(self) -> Result<ConstExpr, EncodeError>
        ensures appended { IfOk result (λ e. e ≡ self ++ 0x7d ∷ []) }
        ensures memory_alone { IfErr result (λ e. e ≡ errors.Memory) }
    {
        self.with_code(0x7d)
    }

    /// Multiplies two numbers of 64 bits, after the others.
    ///
    /// # Errors
    /// `Memory` alone. The expression is then gone.
    pub fn with_i64_mul(self) -> Result<ConstExpr, EncodeError>
        ensures appended { IfOk result (λ e. e ≡ self ++ 0x7e ∷ []) }
        ensures memory_alone { IfErr result (λ e. e ≡ errors.Memory) }
    {
        self.with_code(0x7e)
    }

    /// Returns the function that the expression begins with a reference to, if it does.
    #[tactic(auto, using(crate::proofs::FunctionFronts::function_fronts))]
    pub fn get_ref_func(&self) -> Option<u32>
        ensures found { IfSome result (BeginsWithFunction self.now) }
        ensures none { result ≡ None → (function : ℕ) → ¬ (BeginsWithFunction self.now function) }
    {
        let (code, rest) = self.bytes.split_first()?;
        if *code != REF_FUNC {
            return None;
        }
        match BinaryReader::new(rest, 0).read_var_u32() {
            Ok(function) => Some(function),
            Err(_) => None,
        }
    }
}

// What stands in the frame that is around an expression: its operators, and the end.
impl Encoding for ConstExpr {
    ghost use Rattle.wasm_encoder_bodies.specs.Expressions.{expression_encoding};

    ghost encoding = { expression_encoding };

    #[tactic(auto, using(wasm_spec::proofs::ListEncodings::parts))]
    fn size(&self) -> Result<u64, EncodeError> {
        add_sizes(bytes_size(&self.bytes)?, 1)
    }

    #[tactic(auto, using(wasm_spec::proofs::ListEncodings::parts))]
    fn put(&self, sink: &mut Vec<u8>) {
        put_bytes(&self.bytes, sink);
        sink.push_reserved(END);
    }
}

impl Encode for ConstExpr {
    ghost use Rattle.std.specs.Prelude.{length};
    ghost use Rattle.wasm_encoder_bodies.specs.Expressions.{expression_encoding};

    ghost encoding = { expression_encoding };

    ghost longest = { λ it. length (expression_encoding it) };

    fn encode(&self, sink: &mut Vec<u8>) -> Result<(), EncodeError> {
        encode_alone(self, sink)
    }

    fn encoded_len(&self) -> Result<u64, EncodeError> {
        self.size()
    }
}
