//! Reading of types of imports (Core Specification 3.0, Binary Format, "External Types").

ghost use Rattle.std.specs.Prelude.{◌↔◌, ℕ, IsTrue};
ghost use Rattle.std.specs.List.{AllByRecursion};
ghost use Rattle.wasm_core_read.specs.Reading.{Answers};
ghost use Rattle.wasm_core_read.specs.TypeReading.{external_type_at};
ghost use Rattle.wasm_spec.specs.TypeReferences.{external_map};
ghost use Rattle.wasm_spec.specs.Types as spec;
ghost use Rattle.wasmparser_readers.specs.ItemTypes.{type_ref, packed_refs};
ghost use Rattle.wasmparser_readers.specs.PackedItems.{packed_external_from, packed_external_at};
ghost use Rattle.wasmparser_readers.specs.ModuleIndexes.{IsModuleIndex};
ghost use Rattle.wasmparser_types.specs.Index.{number_of};

use crate::from_reader::{FromReader, Item};
use crate::global_type::{GlobalType, read_packed_global};
use crate::memory_type::{MemoryType, read_limits};
use crate::table_type::{TableType, read_packed_table};
use crate::tag_type::{TagType, read_tag_type};
use crate::val_type::{ref_is_of_module, val_is_of_module};
use std::alloc::Global;
use wasm_core_read::binary_reader::BinaryReader;
use wasm_core_read::malformed::Malformed;
use wasmparser_error::error::{Error, ErrorKind};

/// The type of an import.
#[derive(Clone, Copy, Debug, PartialEq, Eq, Hash)]
pub enum TypeRef {
    /// A function of the type with this index.
    Func(u32),
    /// A table.
    Table(TableType),
    /// A memory.
    Memory(MemoryType),
    /// A global.
    Global(GlobalType),
    /// A tag.
    Tag(TagType),
}

// Reads what is imported after its first byte.
#[inline(always)]
fn read_packed_from(code: u8, reader: &mut BinaryReader<'_>) -> Result<TypeRef, Malformed>
    ensures { Answers type_ref reader.old reader.new result (packed_external_from code reader.old.rest) }
{
    match code {
        0 => Ok(TypeRef::Func(reader.read_var_u32()?)),
        1 => Ok(TypeRef::Table(read_packed_table(reader)?)),
        2 => Ok(TypeRef::Memory(read_limits(reader)?)),
        3 => Ok(TypeRef::Global(read_packed_global(reader)?)),
        4 => Ok(TypeRef::Tag(read_tag_type(reader)?)),
        _ => Err(Malformed {
            offset: reader.original_position(),
        }),
    }
}

/// Reads what is imported. A type index that is too large to be packed reads as a place in a recursive group, which no bytes give: ask
/// `external_is_of_module` before it is used.
///
/// # Errors
/// Where nothing reads.
#[tactic(auto, using(crate::proofs::PackedSteps::external_steps))]
#[inline(always)]
pub fn read_external(reader: &mut BinaryReader<'_>) -> Result<TypeRef, Malformed>
    ensures { Answers type_ref reader.old reader.new result (packed_external_at reader.old.rest) }
{
    let code = reader.read_u8()?;
    read_packed_from(code, reader)
}

/// Checks that the type indexes that are packed are places in the module.
#[inline(always)]
pub fn external_is_of_module(external: &TypeRef) -> bool
    ensures { IsTrue result ↔ AllByRecursion IsModuleIndex (packed_refs (type_ref external.now)) }
{
    match external {
        TypeRef::Table(it) => ref_is_of_module(&it.element_type),
        TypeRef::Global(it) => val_is_of_module(&it.content_type),
        _ => true,
    }
}

impl Item for TypeRef {
    ghost Form = { spec.ExternalType ℕ };

    ghost form = { λ type. external_map number_of (type_ref type) };

    ghost form_at = { λ _. external_type_at };

    ghost indexes = { packed_refs };

    ghost IsOfModule = { λ type. AllByRecursion IsModuleIndex (packed_refs (type_ref type)) };

    ghost TakesMemory = { ⊥ };
}

impl<'a> FromReader<'a> for TypeRef {
    #[tactic(auto, using(crate::proofs::PackedItemLaws::external_items))]
    fn from_reader(_alloc: Global, reader: &mut BinaryReader<'a>) -> Result<TypeRef, Error> {
        let offset = reader.original_position();
        let external = read_external(reader)?;
        if !external_is_of_module(&external) {
            return Err(Error {
                offset,
                kind: ErrorKind::Invalid,
            });
        }
        Ok(external)
    }
}
