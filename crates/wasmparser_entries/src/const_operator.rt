//! Operators of constant expressions (Core Specification 3.0, Binary Format, "Instructions").

ghost use Rattle.std.specs.Prelude.{◌≡◌, ◌<◌, IfOk, []};
ghost use Rattle.wasm_core_read.specs.ConstantReading.{aggregate_from, vector_from, operator_from, operator_at};
ghost use Rattle.wasm_core_read.specs.Reading.{Answers, bytes_at};
ghost use Rattle.wasm_core_read.specs.TypeReading.{heap_type_at};
ghost use Rattle.wasm_spec.specs.Constants.{ConstantOperator};
ghost use Rattle.wasm_spec.specs.TypeReferences.{heap_map};
ghost use Rattle.wasmparser_entries.specs.ConstOperators.{IsModuleHeap, NamesModuleType, const_operator};
ghost use Rattle.wasmparser_types.specs.HeapTypes.{heap_type};
ghost use Rattle.wasmparser_types.specs.Index.{number_of};

use std::alloc::Global;
use wasm_core_read::binary_reader::BinaryReader;
use wasm_core_read::malformed::Malformed;
use wasmparser_error::error::Error;
use wasmparser_readers::from_reader::{FromReader, Item};
use wasmparser_readers::heap_type::read_heap_type;
use wasmparser_types::heap_type::HeapType;

/// An operator that may stand in a constant expression.
#[derive(Clone, Copy, Debug, PartialEq, Eq)]
pub enum ConstOperator {
    /// A number of 32 bits.
    I32Const {
        value: i32,
    },
    /// A number of 64 bits.
    I64Const {
        value: i64,
    },
    /// A float of these 32 bits.
    F32Const {
        bits: u32,
    },
    /// A float of these 64 bits.
    F64Const {
        bits: u64,
    },
    /// A vector of these bytes.
    V128Const {
        bytes: [u8; 16],
    },
    /// Null, as a reference to this.
    RefNull {
        hty: HeapType,
    },
    /// A reference to a function.
    RefFunc {
        function_index: u32,
    },
    /// Gets the value of a global.
    GlobalGet {
        global_index: u32,
    },
    /// The sum of two numbers of 32 bits.
    I32Add,
    /// Their difference.
    I32Sub,
    /// Their product.
    I32Mul,
    /// The sum of two numbers of 64 bits.
    I64Add,
    /// Their difference.
    I64Sub,
    /// Their product.
    I64Mul,
    /// A structure of values.
    StructNew {
        struct_type_index: u32,
    },
    /// A structure of default values.
    StructNewDefault {
        struct_type_index: u32,
    },
    /// An array of one value, so many times.
    ArrayNew {
        array_type_index: u32,
    },
    /// An array of so many default values.
    ArrayNewDefault {
        array_type_index: u32,
    },
    /// An array of so many values.
    ArrayNewFixed {
        array_type_index: u32,
        array_size: u32,
    },
    /// An external reference as an internal one.
    AnyConvertExtern,
    /// An internal reference as an external one.
    ExternConvertAny,
    /// An unboxed scalar of a number.
    RefI31,
}

// The first bytes of operators of structures, arrays and references, and of those of vectors.
const AGGREGATE: u8 = 0xfb;

const VECTOR: u8 = 0xfd;

#[tactic(auto, using(crate::proofs::OperatorLaws::null_types))]
fn read_null_type(reader: &mut BinaryReader<'_>) -> Result<HeapType, Malformed>
    ensures read { Answers (λ type. heap_map number_of (heap_type type)) reader.old reader.new result (heap_type_at reader.old.rest) }
    ensures in_module { IfOk result (λ type. IsModuleHeap (heap_type type)) }
{
    read_heap_type(reader)
}

fn read_sixteen(reader: &mut BinaryReader<'_>) -> Result<[u8; 16], Malformed>
    ensures { Answers (λ bytes. bytes) reader.old reader.new result (bytes_at 16 reader.old.rest) }
{
    let offset = reader.original_position();
    match <[u8; 16]>::try_from(reader.read_bytes(16)?) {
        Ok(bytes) => Ok(bytes),
        Err(_) => Err(Malformed { offset }),
    }
}

// Reads an operator of structures, arrays or references after its number.
fn read_aggregate_from(
    number: u32,
    reader: &mut BinaryReader<'_>,
) -> Result<ConstOperator, Malformed>
    ensures read { Answers const_operator reader.old reader.new result (aggregate_from number reader.old.rest) }
    ensures in_module { IfOk result NamesModuleType }
{
    match number {
        0 => Ok(ConstOperator::StructNew {
            struct_type_index: reader.read_var_u32()?,
        }),
        1 => Ok(ConstOperator::StructNewDefault {
            struct_type_index: reader.read_var_u32()?,
        }),
        6 => Ok(ConstOperator::ArrayNew {
            array_type_index: reader.read_var_u32()?,
        }),
        7 => Ok(ConstOperator::ArrayNewDefault {
            array_type_index: reader.read_var_u32()?,
        }),
        8 => {
            let array_type_index = reader.read_var_u32()?;
            let array_size = reader.read_var_u32()?;
            Ok(ConstOperator::ArrayNewFixed {
                array_type_index,
                array_size,
            })
        }
        26 => Ok(ConstOperator::AnyConvertExtern),
        27 => Ok(ConstOperator::ExternConvertAny),
        28 => Ok(ConstOperator::RefI31),
        _ => Err(Malformed {
            offset: reader.original_position(),
        }),
    }
}

// Reads an operator of vectors after its number.
fn read_vector_from(number: u32, reader: &mut BinaryReader<'_>) -> Result<ConstOperator, Malformed>
    ensures read { Answers const_operator reader.old reader.new result (vector_from number reader.old.rest) }
    ensures in_module { IfOk result NamesModuleType }
{
    if number != 12 {
        return Err(Malformed {
            offset: reader.original_position(),
        });
    }
    Ok(ConstOperator::V128Const {
        bytes: read_sixteen(reader)?,
    })
}

// Reads an operator after its first byte.
#[inline(always)]
fn read_operator_from(code: u8, reader: &mut BinaryReader<'_>) -> Result<ConstOperator, Malformed>
    ensures read { Answers const_operator reader.old reader.new result (operator_from code reader.old.rest) }
    ensures in_module { IfOk result NamesModuleType }
{
    let operator = match code {
        0x23 => ConstOperator::GlobalGet {
            global_index: reader.read_var_u32()?,
        },
        0x41 => ConstOperator::I32Const {
            value: reader.read_var_i32()?,
        },
        0x42 => ConstOperator::I64Const {
            value: reader.read_var_i64()?,
        },
        0x43 => ConstOperator::F32Const {
            bits: reader.read_f32_bits()?,
        },
        0x44 => ConstOperator::F64Const {
            bits: reader.read_f64_bits()?,
        },
        0x6a => ConstOperator::I32Add,
        0x6b => ConstOperator::I32Sub,
        0x6c => ConstOperator::I32Mul,
        0x7c => ConstOperator::I64Add,
        0x7d => ConstOperator::I64Sub,
        0x7e => ConstOperator::I64Mul,
        0xd0 => ConstOperator::RefNull {
            hty: read_null_type(reader)?,
        },
        0xd2 => ConstOperator::RefFunc {
            function_index: reader.read_var_u32()?,
        },
        AGGREGATE => {
            let number = reader.read_var_u32()?;
            read_aggregate_from(number, reader)?
        }
        VECTOR => {
            let number = reader.read_var_u32()?;
            read_vector_from(number, reader)?
        }
        _ => {
            return Err(Malformed {
                offset: reader.original_position(),
            });
        }
    };
    Ok(operator)
}

// Reads an operator.
#[inline(always)]
#[tactic(auto, using(crate::proofs::OperatorLaws::operator_codes))]
pub(crate) fn read_operator(reader: &mut BinaryReader<'_>) -> Result<ConstOperator, Malformed>
    ensures read { Answers const_operator reader.old reader.new result (operator_at reader.old.rest) }
    ensures in_module { IfOk result NamesModuleType }
    ensures further { IfOk result (λ _. reader.old.position < reader.new.position) }
{
    let code = reader.read_u8()?;
    read_operator_from(code, reader)
}

impl Item for ConstOperator {
    ghost Form = { ConstantOperator };

    ghost form = { const_operator };

    ghost form_at = { λ _. operator_at };

    ghost indexes = { λ _. [] };

    ghost IsOfModule = { NamesModuleType };

    ghost TakesMemory = { ⊥ };
}

impl<'a> FromReader<'a> for ConstOperator {
    fn from_reader(_alloc: Global, reader: &mut BinaryReader<'a>) -> Result<ConstOperator, Error> {
        Ok(read_operator(reader)?)
    }
}
