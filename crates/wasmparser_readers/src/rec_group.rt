//! Recursive groups, read from bytes (Core Specification 3.0, Binary Format, "Recursive Types").

ghost use Rattle.std.specs.Prelude.{⊤, ℕ};
ghost use Rattle.std.specs.List.{AllByRecursion};
ghost use Rattle.wasm_core_read.specs.TypeReading.{rec_group_at};
ghost use Rattle.wasm_spec.specs.TypeReferences.{group_map, group_refs};
ghost use Rattle.wasm_spec.specs.Types as spec;
ghost use Rattle.wasmparser_readers.specs.Answers.{AnswersOrFills};
ghost use Rattle.wasmparser_readers.specs.ModuleIndexes.{IsModuleIndex};
ghost use Rattle.wasmparser_readers.specs.PackedReading.{packed_group_from, packed_group_at};
ghost use Rattle.wasmparser_types.specs.Index.{number_of};
ghost use Rattle.wasmparser_types.specs.RecGroups.{rec_group};

use crate::from_reader::{FromReader, Item};
use crate::part::read_list;
use crate::sub_type::read_sub_type_from;
use std::alloc::Global;
use wasm_core_read::binary_reader::BinaryReader;
use wasmparser_error::error::{Error, ErrorKind};
use wasmparser_types::index::PackedIndex;
use wasmparser_types::remap::RemapIndex;
use wasmparser_types::sub_type::RecGroup;

// The first byte of a group that is written out.
const GROUP: u8 = 0x4e;

// Reads a group after its first byte.
fn read_rec_group_from(
    code: u8,
    alloc: Global,
    reader: &mut BinaryReader<'_>,
) -> Result<RecGroup, Error>
    ensures { AnswersOrFills rec_group reader.old reader.new result (packed_group_from code reader.old.rest) }
{
    match code {
        GROUP => Ok(RecGroup::explicit(read_list(alloc, reader)?)),
        _ => Ok(RecGroup::implicit(read_sub_type_from(code, alloc, reader)?)),
    }
}

// Reads a group, in which an index that is too large to be packed is no place in the module.
#[tactic(auto, using(crate::proofs::CodeLaws::group_codes))]
fn read_packed(alloc: Global, reader: &mut BinaryReader<'_>) -> Result<RecGroup, Error>
    ensures { AnswersOrFills rec_group reader.old reader.new result (packed_group_at reader.old.rest) }
{
    let code = reader.read_u8()?;
    read_rec_group_from(code, alloc, reader)
}

// Lets through what was packed, and leaves it as it is.
struct PackedAlone;

// A type index that is too large to be packed.
struct TooLarge;

impl RemapIndex for PackedAlone {
    type Error = TooLarge;

    ghost remapped = { λ _ index. index };

    ghost accepts = { λ _ index. IsModuleIndex index };

    ghost refuses = { λ _ index _. ¬ (IsModuleIndex index) };

    fn remap(&self, index: PackedIndex) -> Result<PackedIndex, TooLarge> {
        if index.is_module_index() {
            Ok(index)
        } else {
            Err(TooLarge)
        }
    }
}

impl Item for RecGroup {
    ghost Form = { spec.RecGroup ℕ };

    ghost form = { λ group. group_map number_of (rec_group group) };

    ghost form_at = { λ _. rec_group_at };

    ghost indexes = { group_refs };

    ghost IsOfModule = { λ group. AllByRecursion IsModuleIndex (group_refs (rec_group group)) };

    ghost TakesMemory = { ⊤ };
}

impl<'a> FromReader<'a> for RecGroup {
    #[tactic(auto, using(crate::proofs::ModuleLaws::group_items))]
    fn from_reader(alloc: Global, reader: &mut BinaryReader<'a>) -> Result<RecGroup, Error> {
        let offset = reader.original_position();
        let mut group = match read_packed(alloc, reader) {
            Ok(group) => group,
            Err(error) => return Err(error.placed(offset)),
        };
        match group.remap_indices(&PackedAlone) {
            Ok(()) => Ok(group),
            Err(TooLarge) => Err(Error {
                offset,
                kind: ErrorKind::Invalid,
            }),
        }
    }
}
