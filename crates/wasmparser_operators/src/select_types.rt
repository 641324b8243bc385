//! Lists of types of `select`.

ghost use Rattle.std.specs.Prelude.{◌≡◌, ◌↔◌, ℕ, IfOk, IsTrue, Some, [], false, length};
ghost use Rattle.wasm_bodies.specs.Operators.{SelectTyped};
ghost use Rattle.wasm_core_read.specs.Reading.{Answers, seen_at, unsigned_at};
ghost use Rattle.wasm_core_read.specs.TypeReading.{list_at, val_type_at};
ghost use Rattle.wasm_spec.specs.Types.{ValType};
ghost use Rattle.wasmparser_operators.specs.BorrowedLists.{begins_with_one};
ghost use Rattle.wasmparser_operators.specs.OperatorReading.{Packed, types_at};
ghost use Rattle.wasmparser_operators.specs.OperatorValues.{IsWhole, operator};

use crate::immediates::read_kept_type;
use crate::operator::Operator;
use std::marker::Model;
use wasm_core_read::binary_reader::BinaryReader;
use wasm_core_read::malformed::Malformed;
use wasmparser_readers::passing::{Pass, fork, pass_list, passed_part};
use wasmparser_readers::val_type::read_val_type;

/// The types that a `select` lists, which borrow the input: none, or more than one. A valid body lists one, which has an operator of its own.
#[derive(Clone, Debug, Drop)]
pub struct SelectTypes<'a> {
    list: &'a [u8],
}

impl<'a> Model for SelectTypes<'a> {
    ghost use Rattle.std.specs.Prelude.{◌≡◌, ℕ, List, length};
    ghost use Rattle.wasm_spec.specs.Types.{ValType};
    ghost use Rattle.wasmparser_operators.specs.BorrowedLists.{AreTypes, types_of};

    ghost Value = { List (ValType ℕ) };

    ghost view = { λ t. types_of t.list.now };

    ghost invariant = { λ t. AreTypes t.list.now × ¬ (length (types_of t.list.now) ≡ 1) };
}

impl<'a> SelectTypes<'a> {
    /// Returns the number of types in the list.
    #[tactic(auto, using(crate::proofs::BorrowedLaws::type_counts))]
    pub fn len(&self) -> u32
        ensures number { result ≡ length self.now }
        ensures others { ¬ (result ≡ 1) }
    {
        match BinaryReader::new(self.list, 0).read_var_u32() {
            Ok(count) => count,
            Err(_) => 0,
        }
    }

    /// Checks that none is listed.
    pub fn is_empty(&self) -> bool
        ensures { IsTrue result ↔ (length self.now ≡ 0) }
    {
        self.len() == 0
    }

    /// Returns a reader of the list: the number of the types, and the types. It stands at place 0, under the default features.
    pub fn get_binary_reader(&self) -> BinaryReader<'a>
        ensures { list_at val_type_at result.rest ≡ Some (self.now, []) }
    {
        BinaryReader::new(self.list, 0)
    }
}

// A value type that is passed over.
struct ListedType;

impl Pass for ListedType {
    ghost Passed = { ValType ℕ };

    ghost passed_at = { val_type_at };

    #[tactic(auto, using(crate::proofs::BorrowedLaws::type_passes))]
    fn pass(reader: &mut BinaryReader<'_>) -> Result<(), Malformed> {
        read_val_type(reader)?;
        Ok(())
    }
}

// Reads a list of types, other than one.
#[tactic(auto, using(crate::proofs::BorrowedLaws::types_again, crate::proofs::BorrowedLaws::select_types))]
fn read_type_list<'a>(reader: &mut BinaryReader<'a>) -> Result<SelectTypes<'a>, Malformed>
    requires { begins_with_one (unsigned_at 32 reader.old.rest) ≡ false }
    ensures { Answers (λ t. t) reader.old reader.new result (list_at val_type_at reader.old.rest) }
{
    let start = fork(reader);
    pass_list::<ListedType>(reader)?;
    let part = passed_part(start, reader.bytes_remaining());
    Ok(SelectTypes {
        list: part.remaining_buffer(),
    })
}

// Checks that a list of one item is before the reader.
fn lists_one(reader: &BinaryReader<'_>) -> bool
    ensures { result ≡ begins_with_one (unsigned_at 32 reader.now.rest) }
{
    let mut ahead = fork(reader);
    match ahead.read_var_u32() {
        Ok(count) => count == 1,
        Err(_) => false,
    }
}

// Reads the types that a `select` lists.
#[tactic(auto, using(crate::proofs::BorrowedLaws::select_types))]
pub(crate) fn read_typed_select<'a>(
    reader: &mut BinaryReader<'a>,
) -> Result<Operator<'a>, Malformed>
    ensures read { Answers operator reader.old reader.new result (seen_at (λ types. SelectTyped types) (types_at Packed) reader.old.rest) }
    ensures whole { IfOk result IsWhole }
{
    if lists_one(reader) {
        reader.read_var_u32()?;
        return Ok(Operator::TypedSelect {
            ty: read_kept_type(reader)?,
        });
    }
    Ok(Operator::TypedSelectMulti {
        tys: read_type_list(reader)?,
    })
}
