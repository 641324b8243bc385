//! Entries of import sections (Core Specification 3.0, Binary Format, "Import Section").

ghost use Rattle.wasm_core_read.specs.PartReading.{import_item_at, single_at, import_at};
ghost use Rattle.wasm_core_read.specs.Reading.{seen_at, pair_at, name_at};
ghost use Rattle.wasm_core_read.specs.TypeReading.{list_at, external_type_at};
ghost use Rattle.wasm_spec.specs.Features.{has, CompactImports};
ghost use Rattle.wasm_spec.specs.Syntax as spec;
ghost use Rattle.wasmparser_entries.specs.ImportEntries.{import_entry, entry_refs, IsEntryOfModule, IsItemsSince, IsNamesSince, IsSingleAt, IsPlaced, IsPlacedIfRead, ReadsEntry, SkipsCode};
ghost use Rattle.wasmparser_readers.specs.Answers.{ReadsItem};

use crate::group::{pass_items, pass_names};
use crate::import_item::ImportItemCompact;
use std::alloc::Global;
use wasm_core_read::binary_reader::BinaryReader;
use wasm_core_read::malformed::Malformed;
use wasmparser_error::error::{Error, ErrorKind};
use wasmparser_readers::from_reader::{FromReader, Item};
use wasmparser_readers::section_limited::SectionLimited;
use wasmparser_readers::type_ref::{TypeRef, external_is_of_module, read_external};

/// An import.
#[derive(Clone, Copy, Debug, PartialEq, Eq, Hash)]
pub struct Import<'a> {
    /// The name of the module that it comes from.
    pub module: &'a str,
    /// Its name there.
    pub name: &'a str,
    /// The type of the item.
    pub ty: TypeRef,
}

/// An entry of an import section: an import, or a group of imports from one module, which are read later.
#[derive(Clone, Debug, Drop)]
pub enum Imports<'a> {
    /// An import, and the place in the input where it begins.
    Single(u64, Import<'a>),
    /// Imports from one module.
    Compact1 {
        /// The module's name.
        module: &'a str,
        /// The imports.
        items: SectionLimited<'a, ImportItemCompact<'a>>,
    },
    /// Imports of one type from one module.
    Compact2 {
        /// The module's name.
        module: &'a str,
        /// The type of each of them.
        ty: TypeRef,
        /// Their names.
        names: SectionLimited<'a, &'a str>,
    },
}

// The byte after the module's name and a byte 0 in a group of imports.
const ITEMS: u8 = 0x7f;

// The same where the imports have one type.
const NAMES: u8 = 0x7e;

// Passes over a byte 0 and this one, where they are next.
fn skip_code(code: u8, reader: &mut BinaryReader<'_>) -> Result<bool, Malformed>
    ensures { SkipsCode code reader.old reader.new result }
{
    let [0, second, ..] = reader.remaining_buffer() else {
        return Ok(false);
    };
    if *second != code {
        return Ok(false);
    }
    reader.read_u8()?;
    reader.read_u8()?;
    Ok(true)
}

// Reads an import that begins at `start`, after the module's name.
#[tactic(auto, using(wasmparser_readers::proofs::PackedItemLaws::external_items, crate::proofs::EntryLaws::single_steps))]
#[inline(always)]
fn read_single<'a>(
    start: u64,
    origin: &'a str,
    reader: &mut BinaryReader<'a>,
) -> Result<Option<Imports<'a>>, Malformed>
    ensures { ReadsEntry (IsSingleAt start) reader.old reader.new result (single_at origin.now reader.old.rest) }
{
    let name = reader.read_string()?;
    let ty = read_external(reader)?;
    if !external_is_of_module(&ty) {
        return Ok(None);
    }
    let import = Import {
        module: origin,
        name,
        ty,
    };
    Ok(Some(Imports::Single(start, import)))
}

// Reads the items of a group of imports.
#[tactic(auto, using(crate::proofs::EntryLaws::items_steps))]
fn read_items<'a>(
    origin: &'a str,
    reader: &mut BinaryReader<'a>,
) -> Result<Option<Imports<'a>>, Malformed>
    ensures { ReadsEntry (IsItemsSince reader.old reader.new) reader.old reader.new result (seen_at (λ items. spec.CompactItems origin.now items) (list_at import_item_at) reader.old.rest) }
{
    match pass_items(reader) {
        Ok(Some(items)) => Ok(Some(Imports::Compact1 {
            module: origin,
            items,
        })),
        Ok(None) => Ok(None),
        Err(error) => Err(error),
    }
}

// Reads the type of a group of imports, and their names.
#[tactic(auto, using(wasmparser_readers::proofs::PackedItemLaws::external_items, crate::proofs::EntryLaws::names_steps))]
fn read_names<'a>(
    origin: &'a str,
    reader: &mut BinaryReader<'a>,
) -> Result<Option<Imports<'a>>, Malformed>
    ensures { ReadsEntry (IsNamesSince reader.old reader.new) reader.old reader.new result (seen_at (λ x. spec.CompactNames origin.now x.0 x.1) (pair_at external_type_at (list_at name_at)) reader.old.rest) }
{
    let ty = read_external(reader)?;
    let names = pass_names(reader)?;
    if !external_is_of_module(&ty) {
        return Ok(None);
    }
    Ok(Some(Imports::Compact2 {
        module: origin,
        ty,
        names,
    }))
}

// Reads an entry, or nothing where one reads that has a type index which is too large to be packed.
#[tactic(auto, using(crate::proofs::EntryLaws::entry_unread))]
fn read_entry<'a>(reader: &mut BinaryReader<'a>) -> Result<Option<Imports<'a>>, Malformed>
    ensures { ReadsEntry (IsPlaced reader.old reader.new) reader.old reader.new result (import_at (has reader.old.features CompactImports) reader.old.rest) }
{
    let start = reader.original_position();
    let origin = reader.read_string()?;
    if !reader.features().compact_imports() {
        return read_single(start, origin, reader);
    }
    if skip_code(ITEMS, reader)? {
        return read_items(origin, reader);
    }
    if skip_code(NAMES, reader)? {
        return read_names(origin, reader);
    }
    read_single(start, origin, reader)
}

impl<'a> Item for Imports<'a> {
    ghost Form = { spec.ImportEntry };

    ghost form = { import_entry };

    ghost form_at = { λ features. import_at (has features CompactImports) };

    ghost indexes = { entry_refs };

    ghost IsOfModule = { IsEntryOfModule };

    ghost TakesMemory = { ⊥ };
}

impl<'a> FromReader<'a> for Imports<'a> {
    /// Reads an entry, whose groups of imports are passed over: the reader of a group stands at the group's list, in the same input and
    /// under the same features. The items of a group that is read do read, and no type index in it is too large to be packed.
    fn from_reader(_alloc: Global, reader: &mut BinaryReader<'a>) -> Result<Imports<'a>, Error>
        ensures reads { ReadsItem import_entry IsEntryOfModule ⊥ entry_refs reader.old reader.new result (import_at (has reader.old.features CompactImports) reader.old.rest) }
        ensures placed { IsPlacedIfRead reader.old reader.new result }
    {
        let offset = reader.original_position();
        match read_entry(reader) {
            Ok(Some(entry)) => Ok(entry),
            Ok(None) => Err(Error {
                offset,
                kind: ErrorKind::Invalid,
            }),
            Err(error) => Err(Error::from(error)),
        }
    }
}
