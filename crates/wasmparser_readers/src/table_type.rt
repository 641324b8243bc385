//! Types of tables (Core Specification 3.0, Binary Format, "Table Types").

ghost use Rattle.std.specs.Prelude.{ℕ};
ghost use Rattle.std.specs.List.{AllByRecursion};
ghost use Rattle.wasm_core_read.specs.Reading.{Answers};
ghost use Rattle.wasm_core_read.specs.TypeReading.{table_limits_at, table_type_at};
ghost use Rattle.wasm_spec.specs.TypeReferences.{table_map, table_refs};
ghost use Rattle.wasm_spec.specs.Types as spec;
ghost use Rattle.wasmparser_readers.specs.ItemTypes.{limits_of_table, table_type};
ghost use Rattle.wasmparser_readers.specs.PackedItems.{packed_table_from, packed_table_at};
ghost use Rattle.wasmparser_readers.specs.ModuleIndexes.{IsModuleIndex};
ghost use Rattle.wasmparser_types.specs.Index.{number_of};

use crate::from_reader::{FromReader, Item};
use crate::memory_type::{MemoryType, read_limits};
use crate::val_type::{read_ref_type_from, ref_is_of_module};
use std::alloc::Global;
use wasm_core_read::binary_reader::BinaryReader;
use wasm_core_read::malformed::Malformed;
use wasmparser_error::error::{Error, ErrorKind};
use wasmparser_types::ref_type::RefType;

/// The type of a table.
#[derive(Clone, Copy, Debug, PartialEq, Eq, Hash)]
pub struct TableType {
    /// The type of its elements.
    pub element_type: RefType,
    /// `true` if it has indexes of 64 bits, not of 32.
    pub table64: bool,
    /// The number of elements that it begins with.
    pub initial: u64,
    /// The greatest number of elements, if there is one.
    pub maximum: Option<u64>,
}

// Reads limits that are neither shared nor have pages.
#[tactic(auto, unfolding(wasm_core_read::specs::TypeReading::table_limits_at))]
fn read_table_limits(reader: &mut BinaryReader<'_>) -> Result<MemoryType, Malformed>
    ensures { Answers limits_of_table reader.old reader.new result (table_limits_at reader.old.rest) }
{
    let offset = reader.original_position();
    let limits = read_limits(reader)?;
    if limits.shared || limits.page_size_log2.is_some() {
        return Err(Malformed { offset });
    }
    Ok(limits)
}

/// Reads a table's type after its first byte.
///
/// # Errors
/// Exactly where none reads, at a place of the bytes that were left or their end. The reader may have gone on by then.
pub fn read_table_type_from(code: u8, reader: &mut BinaryReader<'_>) -> Result<TableType, Malformed>
    ensures { Answers table_type reader.old reader.new result (packed_table_from code reader.old.rest) }
{
    let element_type = read_ref_type_from(code, reader)?;
    let limits = read_table_limits(reader)?;
    Ok(TableType {
        element_type,
        table64: limits.memory64,
        initial: limits.initial,
        maximum: limits.maximum,
    })
}

/// Reads a table's type, in which a type index that is too large to be packed is a place in a recursive group.
///
/// # Errors
/// Exactly where none reads, at a place of the bytes that were left or their end. The reader may have gone on by then.
#[tactic(auto, using(crate::proofs::PackedSteps::table_steps))]
pub fn read_packed_table(reader: &mut BinaryReader<'_>) -> Result<TableType, Malformed>
    ensures { Answers table_type reader.old reader.new result (packed_table_at reader.old.rest) }
{
    let code = reader.read_u8()?;
    read_table_type_from(code, reader)
}

impl Item for TableType {
    ghost Form = { spec.TableType ℕ };

    ghost form = { λ type. table_map number_of (table_type type) };

    ghost form_at = { λ _. table_type_at };

    ghost indexes = { table_refs };

    ghost IsOfModule = { λ type. AllByRecursion IsModuleIndex (table_refs (table_type type)) };

    ghost TakesMemory = { ⊥ };
}

impl<'a> FromReader<'a> for TableType {
    #[tactic(auto, using(crate::proofs::PackedItemLaws::table_items))]
    fn from_reader(_alloc: Global, reader: &mut BinaryReader<'a>) -> Result<TableType, Error> {
        let offset = reader.original_position();
        let table_type = read_packed_table(reader)?;
        if !ref_is_of_module(&table_type.element_type) {
            return Err(Error {
                offset,
                kind: ErrorKind::Invalid,
            });
        }
        Ok(table_type)
    }
}
