//! Types of globals (Core Specification 3.0, Binary Format, "Global Types").

ghost use Rattle.std.specs.Prelude.{ℕ};
ghost use Rattle.std.specs.List.{AllByRecursion};
ghost use Rattle.wasm_core_read.specs.Reading.{Answers};
ghost use Rattle.wasm_core_read.specs.TypeReading.{global_type_at};
ghost use Rattle.wasm_spec.specs.TypeReferences.{global_map, global_refs};
ghost use Rattle.wasm_spec.specs.Types as spec;
ghost use Rattle.wasmparser_readers.specs.ItemTypes.{global_type};
ghost use Rattle.wasmparser_readers.specs.PackedItems.{packed_global_at};
ghost use Rattle.wasmparser_readers.specs.ModuleIndexes.{IsModuleIndex};
ghost use Rattle.wasmparser_types.specs.Index.{number_of};

use crate::from_reader::{FromReader, Item};
use crate::val_type::{read_mutability, read_val_type, val_is_of_module};
use std::alloc::Global;
use wasm_core_read::binary_reader::BinaryReader;
use wasm_core_read::malformed::Malformed;
use wasmparser_error::error::{Error, ErrorKind};
use wasmparser_types::val_type::ValType;

/// The type of a global.
#[derive(Clone, Copy, Debug, PartialEq, Eq, Hash)]
pub struct GlobalType {
    /// The type of its value.
    pub content_type: ValType,
    /// `true` if its value can be set.
    pub mutable: bool,
}

/// Reads a global's type, in which a type index that is too large to be packed is a place in a recursive group.
///
/// # Errors
/// Exactly where none reads, at a place of the bytes that were left or their end. The reader may have gone on by then.
#[tactic(auto, unfolding(crate::specs::PackedItems::packed_global_at))]
pub fn read_packed_global(reader: &mut BinaryReader<'_>) -> Result<GlobalType, Malformed>
    ensures { Answers global_type reader.old reader.new result (packed_global_at reader.old.rest) }
{
    let content_type = read_val_type(reader)?;
    let mutable = read_mutability(reader)?;
    Ok(GlobalType {
        content_type,
        mutable,
    })
}

impl Item for GlobalType {
    ghost Form = { spec.GlobalType ℕ };

    ghost form = { λ type. global_map number_of (global_type type) };

    ghost form_at = { λ _. global_type_at };

    ghost indexes = { global_refs };

    ghost IsOfModule = { λ type. AllByRecursion IsModuleIndex (global_refs (global_type type)) };

    ghost TakesMemory = { ⊥ };
}

impl<'a> FromReader<'a> for GlobalType {
    #[tactic(auto, using(crate::proofs::PackedItemLaws::global_items))]
    fn from_reader(_alloc: Global, reader: &mut BinaryReader<'a>) -> Result<GlobalType, Error> {
        let offset = reader.original_position();
        let global_type = read_packed_global(reader)?;
        if !val_is_of_module(&global_type.content_type) {
            return Err(Error {
                offset,
                kind: ErrorKind::Invalid,
            });
        }
        Ok(global_type)
    }
}
