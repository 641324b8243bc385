//! Exports (Core Specification 3.0, Binary Format, "Export Section").

ghost use Rattle.std.specs.Prelude.{⊤, []};
ghost use Rattle.wasm_core_read.specs.PartReading.{export_at};
ghost use Rattle.wasm_core_read.specs.Reading.{Answers};
ghost use Rattle.wasm_core_read.specs.TypeReading.{external_kind_at};
ghost use Rattle.wasm_spec.specs.Syntax as spec;
ghost use Rattle.wasmparser_readers.specs.Exports.{external_kind, export_item};

use crate::from_reader::{FromReader, Item};
use std::alloc::Global;
use wasm_core_read::binary_reader::BinaryReader;
use wasm_core_read::malformed::Malformed;
use wasmparser_error::error::Error;

/// The kinds of what is imported or exported.
#[derive(Clone, Copy, Debug, PartialEq, Eq, Hash)]
pub enum ExternalKind {
    /// A function.
    Func,
    /// A table.
    Table,
    /// A memory.
    Memory,
    /// A global.
    Global,
    /// A tag.
    Tag,
}

/// An export.
#[derive(Clone, Copy, Debug, PartialEq, Eq, Hash)]
pub struct Export<'a> {
    /// Its name.
    pub name: &'a str,
    /// The kind of the exported item.
    pub kind: ExternalKind,
    /// Its index among those of its kind, imported ones first.
    pub index: u32,
}

#[tactic(auto, using(crate::proofs::ItemSteps::kind_steps))]
fn read_external_kind(reader: &mut BinaryReader<'_>) -> Result<ExternalKind, Malformed>
    ensures { Answers external_kind reader.old reader.new result (external_kind_at reader.old.rest) }
{
    let offset = reader.original_position();
    match reader.read_u8()? {
        0 => Ok(ExternalKind::Func),
        1 => Ok(ExternalKind::Table),
        2 => Ok(ExternalKind::Memory),
        3 => Ok(ExternalKind::Global),
        4 => Ok(ExternalKind::Tag),
        _ => Err(Malformed { offset }),
    }
}

#[tactic(auto, unfolding(wasm_core_read::specs::PartReading::export_at))]
fn read_export<'a>(reader: &mut BinaryReader<'a>) -> Result<Export<'a>, Malformed>
    ensures { Answers export_item reader.old reader.new result (export_at reader.old.rest) }
{
    let name = reader.read_string()?;
    let kind = read_external_kind(reader)?;
    let index = reader.read_var_u32()?;
    Ok(Export { name, kind, index })
}

impl<'a> Item for Export<'a> {
    ghost Form = { spec.Export };

    ghost form = { export_item };

    ghost form_at = { λ _. export_at };

    ghost indexes = { λ _. [] };

    ghost IsOfModule = { λ _. ⊤ };

    ghost TakesMemory = { ⊥ };
}

impl<'a> FromReader<'a> for Export<'a> {
    fn from_reader(_alloc: Global, reader: &mut BinaryReader<'a>) -> Result<Export<'a>, Error> {
        Ok(read_export(reader)?)
    }
}
