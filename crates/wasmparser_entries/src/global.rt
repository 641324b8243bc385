//! Globals with their initialisers (Core Specification 3.0, Binary Format, "Global Section").

ghost use Rattle.std.specs.Prelude.{IfOk};
ghost use Rattle.std.specs.List.{AllByRecursion};
ghost use Rattle.wasm_core_read.specs.PartReading.{global_at};
ghost use Rattle.wasm_core_read.specs.Reading.{Answers};
ghost use Rattle.wasm_spec.specs.Syntax as spec;
ghost use Rattle.wasm_spec.specs.TypeReferences.{global_refs};
ghost use Rattle.wasmparser_entries.specs.Entries.{global_of, packed_global, refs_of_global};
ghost use Rattle.wasmparser_entries.specs.PackedEntries.{packed_initialised_at};
ghost use Rattle.wasmparser_readers.specs.ItemTypes.{global_type};
ghost use Rattle.wasmparser_readers.specs.Answers.{ReadsItem};
ghost use Rattle.wasmparser_readers.specs.Passing.{IsLastPart};
ghost use Rattle.wasmparser_readers.specs.ModuleIndexes.{IsModuleIndex};

use crate::const_expr::{ConstExpr, read_const_expr};
use std::alloc;
use wasm_core_read::binary_reader::BinaryReader;
use wasm_core_read::malformed::Malformed;
use wasmparser_error::error::{Error, ErrorKind};
use wasmparser_readers::from_reader::{FromReader, Item};
use wasmparser_readers::global_type::{GlobalType, read_packed_global};
use wasmparser_readers::val_type::val_is_of_module;

/// A global of the module's own.
#[derive(Debug, Drop)]
pub struct Global<'a> {
    /// Its type.
    pub ty: GlobalType,
    /// The expression that gives its first value.
    pub init_expr: ConstExpr<'a>,
}

// Reads a global, in whose type an index that is too large to be packed is a place in a recursive group.
#[tactic(auto, unfolding(crate::specs::PackedEntries::packed_initialised_at))]
fn read_packed<'a>(reader: &mut BinaryReader<'a>) -> Result<Global<'a>, Malformed>
    ensures reads { Answers packed_global reader.old reader.new result (packed_initialised_at reader.old.rest) }
    ensures part { IfOk result (λ global. IsLastPart reader.old reader.new global.init_expr) }
{
    let ty = read_packed_global(reader)?;
    let init_expr = read_const_expr(reader)?;
    Ok(Global { ty, init_expr })
}

impl<'a> Item for Global<'a> {
    ghost Form = { spec.Global };

    ghost form = { λ global. global_of (packed_global global) };

    ghost form_at = { λ _. global_at };

    ghost indexes = { refs_of_global };

    ghost IsOfModule = { λ global. AllByRecursion IsModuleIndex (global_refs (global_type global.ty)) };

    ghost TakesMemory = { ⊥ };
}

impl<'a> FromReader<'a> for Global<'a> {
    #[tactic(auto, using(crate::proofs::PackedEntryLaws::global_items))]
    fn from_reader(
        _alloc: alloc::Global,
        reader: &mut BinaryReader<'a>,
    ) -> Result<Global<'a>, Error>
        ensures reads { ReadsItem (λ global. global_of (packed_global global)) (λ global. AllByRecursion IsModuleIndex (global_refs (global_type global.ty))) ⊥ refs_of_global reader.old reader.new result (global_at reader.old.rest) }
        ensures part { IfOk result (λ global. IsLastPart reader.old reader.new global.init_expr) }
    {
        let offset = reader.original_position();
        let global = read_packed(reader)?;
        if !val_is_of_module(&global.ty.content_type) {
            return Err(Error {
                offset,
                kind: ErrorKind::Invalid,
            });
        }
        Ok(global)
    }
}
