//! Types of tags (Core Specification 3.0, Binary Format, "Tag Types").

ghost use Rattle.std.specs.Prelude.{⊤, ℕ, []};
ghost use Rattle.wasm_core_read.specs.Reading.{Answers};
ghost use Rattle.wasm_core_read.specs.TypeReading.{tag_type_at};
ghost use Rattle.wasmparser_readers.specs.ItemTypes.{tag_type};

use crate::from_reader::{FromReader, Item};
use std::alloc::Global;
use wasm_core_read::binary_reader::BinaryReader;
use wasm_core_read::malformed::Malformed;
use wasmparser_error::error::Error;

/// The purpose of a tag.
#[derive(Clone, Copy, Debug, PartialEq, Eq, Hash)]
pub enum TagKind {
    /// Exceptions.
    Exception,
}

/// The type of a tag.
#[derive(Clone, Copy, Debug, PartialEq, Eq, Hash)]
pub struct TagType {
    /// Its purpose.
    pub kind: TagKind,
    /// The index of its function type.
    pub func_type_idx: u32,
}

/// Reads the type of a tag: its kind, which is 0, and the index of its function type.
///
/// # Errors
/// Where none reads.
#[tactic(auto, using(crate::proofs::ItemSteps::tag_steps))]
pub fn read_tag_type(reader: &mut BinaryReader<'_>) -> Result<TagType, Malformed>
    ensures { Answers tag_type reader.old reader.new result (tag_type_at reader.old.rest) }
{
    let offset = reader.original_position();
    if reader.read_u8()? != 0 {
        return Err(Malformed { offset });
    }
    Ok(TagType {
        kind: TagKind::Exception,
        func_type_idx: reader.read_var_u32()?,
    })
}

impl Item for TagType {
    ghost Form = { ℕ };

    ghost form = { tag_type };

    ghost form_at = { λ _. tag_type_at };

    ghost indexes = { λ _. [] };

    ghost IsOfModule = { λ _. ⊤ };

    ghost TakesMemory = { ⊥ };
}

impl<'a> FromReader<'a> for TagType {
    fn from_reader(_alloc: Global, reader: &mut BinaryReader<'a>) -> Result<TagType, Error> {
        Ok(read_tag_type(reader)?)
    }
}
