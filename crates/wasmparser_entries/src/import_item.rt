//! Items of groups of imports that share the name of a module (Core Specification 3.0, Binary Format, "Import Section").

ghost use Rattle.std.specs.List.{AllByRecursion};
ghost use Rattle.wasm_core_read.specs.PartReading.{import_item_at};
ghost use Rattle.wasm_core_read.specs.Reading.{Answers, seen_at};
ghost use Rattle.wasm_spec.specs.Syntax as spec;
ghost use Rattle.wasmparser_entries.specs.ImportItems.{import_item, are_packable};
ghost use Rattle.wasmparser_readers.specs.ItemTypes.{type_ref, packed_refs};
ghost use Rattle.wasmparser_readers.specs.ModuleIndexes.{IsModuleIndex};

use std::alloc::Global;
use wasm_core_read::binary_reader::BinaryReader;
use wasm_core_read::malformed::Malformed;
use wasmparser_error::error::{Error, ErrorKind};
use wasmparser_readers::from_reader::{FromReader, Item};
use wasmparser_readers::type_ref::{TypeRef, external_is_of_module, read_external};

/// An import of a group whose items have types of their own.
#[derive(Clone, Copy, Debug, PartialEq, Eq, Hash)]
pub struct ImportItemCompact<'a> {
    /// Its name in the module that the group names.
    pub name: &'a str,
    /// The type of the item.
    pub ty: TypeRef,
}

// Passes over an item, and tells whether its type indexes can be packed.
#[tactic(auto, using(crate::proofs::ItemLaws::unread_item), unfolding(wasm_core_read::specs::PartReading::import_item_at))]
pub(crate) fn check_item(reader: &mut BinaryReader<'_>) -> Result<bool, Malformed>
    ensures { Answers (λ packable. packable) reader.old reader.new result (seen_at (λ item. are_packable (packed_refs item.type)) import_item_at reader.old.rest) }
{
    reader.read_string()?;
    match read_external(reader) {
        Ok(ty) => Ok(external_is_of_module(&ty)),
        Err(error) => Err(error),
    }
}

impl<'a> Item for ImportItemCompact<'a> {
    ghost Form = { spec.ImportItem };

    ghost form = { import_item };

    ghost form_at = { λ _. import_item_at };

    ghost indexes = { λ item. packed_refs item.type };

    ghost IsOfModule = { λ item. AllByRecursion IsModuleIndex (packed_refs (type_ref item.ty)) };

    ghost TakesMemory = { ⊥ };
}

impl<'a> FromReader<'a> for ImportItemCompact<'a> {
    #[tactic(auto, using(wasmparser_readers::proofs::PackedItemLaws::external_items, crate::proofs::ItemLaws::large_item, crate::proofs::ItemLaws::unread_type), unfolding(wasm_core_read::specs::PartReading::import_item_at))]
    fn from_reader(
        _alloc: Global,
        reader: &mut BinaryReader<'a>,
    ) -> Result<ImportItemCompact<'a>, Error> {
        let offset = reader.original_position();
        let name = reader.read_string()?;
        let ty = read_external(reader)?;
        if !external_is_of_module(&ty) {
            return Err(Error {
                offset,
                kind: ErrorKind::Invalid,
            });
        }
        Ok(ImportItemCompact { name, ty })
    }
}
