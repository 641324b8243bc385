//! Data segments (Core Specification 3.0, Binary Format, "Data Section").

ghost use Rattle.std.specs.Prelude.{◌≡◌, ⊤, IfOk, []};
ghost use Rattle.wasm_core_read.specs.PartReading.{body_at, data_from, data_at};
ghost use Rattle.wasm_core_read.specs.Reading.{Answers};
ghost use Rattle.wasm_spec.specs.Syntax as spec;
ghost use Rattle.wasmparser_entries.specs.ConstExprs.{expression_of};
ghost use Rattle.wasmparser_entries.specs.Entries.{DataOffsetIsPart, data_segment};
ghost use Rattle.wasmparser_entries.specs.declared.data.DataKind.TheVariants as kinds;
ghost use Rattle.wasmparser_readers.specs.Answers.{ReadsItem};

use crate::const_expr::{ConstExpr, read_const_expr};
use std::alloc::Global;
use wasm_core_read::binary_reader::BinaryReader;
use wasm_core_read::malformed::Malformed;
use wasmparser_error::error::Error;
use wasmparser_readers::from_reader::{FromReader, Item};

/// The use of a data segment.
#[derive(Debug, Drop)]
pub enum DataKind<'a> {
    /// By instructions.
    Passive,
    /// As the module is instantiated.
    Active {
        /// The index of the memory, where it is written: else it is memory 0.
        memory_index: Option<u32>,
        /// The expression that gives the place in the memory.
        offset_expr: ConstExpr<'a>,
    },
}

/// A data segment.
#[derive(Debug, Drop)]
pub struct Data<'a> {
    /// Its use.
    pub kind: DataKind<'a>,
    /// Its bytes.
    pub data: &'a [u8],
}

fn active<'a>(memory_index: Option<u32>, offset_expr: ConstExpr<'a>, data: &'a [u8]) -> Data<'a>
    ensures is { data_segment result ≡ record { mode = spec.ActiveData memory_index (expression_of offset_expr.entry.rest); contents = data.now } }
    ensures has { result.kind ≡ kinds.Active memory_index offset_expr.entry }
{
    Data {
        kind: DataKind::Active {
            memory_index,
            offset_expr,
        },
        data,
    }
}

// Reads the number of some bytes, and these.
#[tactic(auto, unfolding(wasm_core_read::specs::PartReading::body_at))]
fn read_contents<'a>(reader: &mut BinaryReader<'a>) -> Result<&'a [u8], Malformed>
    ensures { Answers (λ bytes. bytes.now) reader.old reader.new result (body_at reader.old.rest) }
{
    let size = reader.read_var_u32()?;
    reader.read_bytes(size as usize)
}

// Reads a segment after the number of its form.
fn read_data_from<'a>(number: u32, reader: &mut BinaryReader<'a>) -> Result<Data<'a>, Malformed>
    ensures reads { Answers data_segment reader.old reader.new result (data_from number reader.old.rest) }
    ensures part { IfOk result (λ segment. DataOffsetIsPart reader.old reader.new segment.kind) }
{
    match number {
        0 => {
            let offset_expr = read_const_expr(reader)?;
            let data = read_contents(reader)?;
            Ok(active(None, offset_expr, data))
        }
        1 => Ok(Data {
            kind: DataKind::Passive,
            data: read_contents(reader)?,
        }),
        2 => {
            let memory_index = reader.read_var_u32()?;
            let offset_expr = read_const_expr(reader)?;
            let data = read_contents(reader)?;
            Ok(active(Some(memory_index), offset_expr, data))
        }
        _ => Err(Malformed {
            offset: reader.original_position(),
        }),
    }
}

#[tactic(auto, unfolding(wasm_core_read::specs::PartReading::data_at))]
fn read_data<'a>(reader: &mut BinaryReader<'a>) -> Result<Data<'a>, Malformed>
    ensures reads { Answers data_segment reader.old reader.new result (data_at reader.old.rest) }
    ensures part { IfOk result (λ segment. DataOffsetIsPart reader.old reader.new segment.kind) }
{
    let number = reader.read_var_u32()?;
    read_data_from(number, reader)
}

impl<'a> Item for Data<'a> {
    ghost Form = { spec.DataSegment };

    ghost form = { data_segment };

    ghost form_at = { λ _. data_at };

    ghost indexes = { λ _. [] };

    ghost IsOfModule = { λ _. ⊤ };

    ghost TakesMemory = { ⊥ };
}

impl<'a> FromReader<'a> for Data<'a> {
    fn from_reader(_alloc: Global, reader: &mut BinaryReader<'a>) -> Result<Data<'a>, Error>
        ensures reads { ReadsItem data_segment (λ _. ⊤) ⊥ (λ _. []) reader.old reader.new result (data_at reader.old.rest) }
        ensures part { IfOk result (λ segment. DataOffsetIsPart reader.old reader.new segment.kind) }
    {
        Ok(read_data(reader)?)
    }
}
