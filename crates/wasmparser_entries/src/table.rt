//! Tables with their initialisers (Core Specification 3.0, Binary Format, "Table Section").

ghost use Rattle.std.specs.Prelude.{IfOk};
ghost use Rattle.std.specs.List.{AllByRecursion};
ghost use Rattle.wasm_core_read.specs.PartReading.{table_at};
ghost use Rattle.wasm_core_read.specs.Reading.{Answers};
ghost use Rattle.wasm_spec.specs.Syntax as spec;
ghost use Rattle.wasm_spec.specs.TypeReferences.{table_refs};
ghost use Rattle.wasmparser_entries.specs.Entries.{InitialiserIsLast, packed_table, refs_of_table, table_of};
ghost use Rattle.wasmparser_entries.specs.PackedEntries.{initialised_from, initialised_at, packed_entry_from, packed_entry_at};
ghost use Rattle.wasmparser_readers.specs.ItemTypes.{table_type};
ghost use Rattle.wasmparser_readers.specs.Answers.{ReadsItem};
ghost use Rattle.wasmparser_readers.specs.ModuleIndexes.{IsModuleIndex};

use crate::const_expr::{ConstExpr, read_const_expr};
use std::alloc::Global;
use wasm_core_read::binary_reader::BinaryReader;
use wasm_core_read::malformed::Malformed;
use wasmparser_error::error::{Error, ErrorKind};
use wasmparser_readers::from_reader::{FromReader, Item};
use wasmparser_readers::table_type::{TableType, read_packed_table, read_table_type_from};
use wasmparser_readers::val_type::ref_is_of_module;

// The first byte of a table with an initialiser.
const INITIALISED: u8 = 0x40;

/// The first value of a table's elements.
#[derive(Debug, Drop)]
pub enum TableInit<'a> {
    /// Null: no initialiser is written.
    RefNull,
    /// The value of this expression.
    Expr(ConstExpr<'a>),
}

/// A table.
#[derive(Debug, Drop)]
pub struct Table<'a> {
    /// Its type.
    pub ty: TableType,
    /// The first value of its elements.
    pub init: TableInit<'a>,
}

// Reads a table with an initialiser after the byte that says so, and the byte that is 0.
fn read_initialised_from<'a>(
    code: u8,
    reader: &mut BinaryReader<'a>,
) -> Result<Table<'a>, Malformed>
    ensures reads { Answers packed_table reader.old reader.new result (initialised_from code reader.old.rest) }
    ensures part { IfOk result (λ table. InitialiserIsLast reader.old reader.new table.init) }
{
    if code != 0 {
        return Err(Malformed {
            offset: reader.original_position(),
        });
    }
    let ty = read_packed_table(reader)?;
    let expression = read_const_expr(reader)?;
    Ok(Table {
        ty,
        init: TableInit::Expr(expression),
    })
}

#[tactic(auto, using(crate::proofs::EntrySteps::initialised_steps))]
fn read_initialised<'a>(reader: &mut BinaryReader<'a>) -> Result<Table<'a>, Malformed>
    ensures reads { Answers packed_table reader.old reader.new result (initialised_at reader.old.rest) }
    ensures part { IfOk result (λ table. InitialiserIsLast reader.old reader.new table.init) }
{
    let code = reader.read_u8()?;
    read_initialised_from(code, reader)
}

// Reads a table after its first byte.
fn read_table_from<'a>(code: u8, reader: &mut BinaryReader<'a>) -> Result<Table<'a>, Malformed>
    ensures reads { Answers packed_table reader.old reader.new result (packed_entry_from code reader.old.rest) }
    ensures part { IfOk result (λ table. InitialiserIsLast reader.old reader.new table.init) }
{
    match code {
        INITIALISED => read_initialised(reader),
        _ => Ok(Table {
            ty: read_table_type_from(code, reader)?,
            init: TableInit::RefNull,
        }),
    }
}

// Reads a table, in whose type an index that is too large to be packed is a place in a recursive group.
#[tactic(auto, using(crate::proofs::EntrySteps::table_steps))]
fn read_packed<'a>(reader: &mut BinaryReader<'a>) -> Result<Table<'a>, Malformed>
    ensures reads { Answers packed_table reader.old reader.new result (packed_entry_at reader.old.rest) }
    ensures part { IfOk result (λ table. InitialiserIsLast reader.old reader.new table.init) }
{
    let code = reader.read_u8()?;
    read_table_from(code, reader)
}

impl<'a> Item for Table<'a> {
    ghost Form = { spec.Table };

    ghost form = { λ table. table_of (packed_table table) };

    ghost form_at = { λ _. table_at };

    ghost indexes = { refs_of_table };

    ghost IsOfModule = { λ table. AllByRecursion IsModuleIndex (table_refs (table_type table.ty)) };

    ghost TakesMemory = { ⊥ };
}

impl<'a> FromReader<'a> for Table<'a> {
    #[tactic(auto, using(crate::proofs::PackedEntryLaws::table_items))]
    fn from_reader(_alloc: Global, reader: &mut BinaryReader<'a>) -> Result<Table<'a>, Error>
        ensures reads { ReadsItem (λ table. table_of (packed_table table)) (λ table. AllByRecursion IsModuleIndex (table_refs (table_type table.ty))) ⊥ refs_of_table reader.old reader.new result (table_at reader.old.rest) }
        ensures part { IfOk result (λ table. InitialiserIsLast reader.old reader.new table.init) }
    {
        let offset = reader.original_position();
        let table = read_packed(reader)?;
        if !ref_is_of_module(&table.ty.element_type) {
            return Err(Error {
                offset,
                kind: ErrorKind::Invalid,
            });
        }
        Ok(table)
    }
}
