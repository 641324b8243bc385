//! Counting imported functions.

ghost use Rattle.std.specs.List.{flat_map};
ghost use Rattle.std.specs.Prelude.{◌≡◌, ◌≤◌, ◌+◌, ℕ, List, IfOk, length, map};
ghost use Rattle.wasm_core_read.specs.ModuleReading.{frame_at};
ghost use Rattle.wasm_core_read.specs.PartReading.{import_at, import_item_at};
ghost use Rattle.wasm_core_read.specs.Reading.{Answers, ReadingOf, bytes_at, name_at, pair_at, seen_at};
ghost use Rattle.wasm_core_read.specs.TypeReading.{external_type_at, list_at};
ghost use Rattle.wasm_gen_explain.specs.Imports.{CountsNext, code_of, counted, entries_in, functions_among, functions_in};
ghost use Rattle.wasm_spec.specs.Features.{CompactImports, Features, has};
ghost use Rattle.wasm_spec.specs.Syntax.{ImportEntry, ImportItem, imported_by};
ghost use Rattle.wasmparser_readers.specs.ItemTypes.{type_ref};

use crate::bodies::read_sized;
use wasm_core_read::binary_reader::BinaryReader;
use wasm_core_read::malformed::Malformed;
use wasmparser_readers::passing::fork;
use wasmparser_readers::type_ref::{TypeRef, read_external};

// The id of import sections.
const IMPORTS: u8 = 2;

// The byte after the module's name and a byte 0 in a group of imports.
const ITEMS: u8 = 0x7f;

// The same where the imports have one type.
const NAMES: u8 = 0x7e;

// Items of a list that are read one after the other. Each counts as so many functions.
trait Counted {
    // An item of the specification.
    ghost Form: { Type 0 };

    // The reading of bytes as an item, under a set of features.
    ghost form_at: { Features → ReadingOf Form };

    // How many functions an item is, which takes as many bytes at least.
    ghost functions: { Form → ℕ };

    // Reads an item, and returns how many functions it is.
    fn read(reader: &mut BinaryReader<'_>) -> Result<u64, Malformed>
        ensures counts { Answers (λ n. n) reader.old reader.new result (seen_at functions (form_at reader.old.features) reader.old.rest) }
        ensures few { IfOk result (λ n. reader.old.position + n ≤ reader.new.position) };
}

// Reads a list, and returns how many functions its items are.
#[tactic(auto, using(crate::proofs::CountLaws::count_loop))]
fn read_list<T: Counted>(reader: &mut BinaryReader<'_>) -> Result<u64, Malformed>
    ensures counts { Answers (λ n. n) reader.old reader.new result (seen_at (counted T.functions) (list_at (T.form_at reader.old.features)) reader.old.rest) }
    ensures few { IfOk result (λ n. reader.old.position + n ≤ reader.new.position) }
{
    // A proof knows that places are numbers of 64 bits once one is asked for.
    let _ = reader.original_position();
    let count = reader.read_var_u32()?;
    let mut functions: u64 = 0;
    for _ in 0..count {
        functions += T::read(reader)?;
    }
    Ok(functions)
}

// A name of an import, which is one function where the type of its group is that of functions.
struct Name;

impl Counted for Name {
    ghost Form = { List ℕ };

    ghost form_at = { λ _. name_at };

    ghost functions = { λ _. 1 };

    #[tactic(auto, using(crate::proofs::ImportLaws::name_steps))]
    fn read(reader: &mut BinaryReader<'_>) -> Result<u64, Malformed> {
        reader.read_string()?;
        Ok(1)
    }
}

// Returns how many functions an import of this type is.
fn functions_of(ty: &TypeRef) -> u64
    ensures counts { result ≡ functions_in (type_ref ty.now) }
    ensures few { result ≤ 1 }
{
    match ty {
        TypeRef::Func(_) => 1,
        TypeRef::Table(_) => 0,
        TypeRef::Memory(_) => 0,
        TypeRef::Global(_) => 0,
        TypeRef::Tag(_) => 0,
    }
}

// Reads the type of an import, and returns how many functions this is.
#[tactic(auto, using(crate::proofs::ImportLaws::type_steps))]
fn read_type(reader: &mut BinaryReader<'_>) -> Result<u64, Malformed>
    ensures counts { Answers (λ n. n) reader.old reader.new result (seen_at functions_in external_type_at reader.old.rest) }
    ensures few { IfOk result (λ n. n ≤ 1) }
{
    match read_external(reader) {
        Ok(ty) => Ok(functions_of(&ty)),
        Err(malformed) => Err(malformed),
    }
}

// An import after the name of its module.
struct ImportedItem;

impl Counted for ImportedItem {
    ghost Form = { ImportItem };

    ghost form_at = { λ _. import_item_at };

    ghost functions = { λ item. functions_in item.type };

    #[tactic(auto, using(crate::proofs::ImportLaws::item_steps))]
    fn read(reader: &mut BinaryReader<'_>) -> Result<u64, Malformed> {
        reader.read_string()?;
        let functions = read_type(reader)?;
        Ok(functions)
    }
}

// Reads the items of a group of imports after two bytes, and returns how many functions they are.
#[tactic(auto, using(crate::proofs::ImportLaws::items_steps))]
fn read_items(reader: &mut BinaryReader<'_>) -> Result<u64, Malformed>
    ensures counts { Answers (λ n. n) reader.old reader.new result (seen_at (λ x. counted (λ item. functions_in item.type) x.1) (pair_at (bytes_at 2) (list_at import_item_at)) reader.old.rest) }
    ensures few { IfOk result (λ n. reader.old.position + n ≤ reader.new.position) }
{
    reader.read_bytes(2)?;
    let functions = read_list::<ImportedItem>(reader)?;
    Ok(functions)
}

// Reads the type of a group of imports and their names after two bytes, and returns how many functions they are.
#[tactic(auto, using(crate::proofs::ImportLaws::names_steps))]
fn read_names(reader: &mut BinaryReader<'_>) -> Result<u64, Malformed>
    ensures counts { Answers (λ n. n) reader.old reader.new result (seen_at (λ x. functions_among (map (λ name. x.1.0) x.1.1)) (pair_at (bytes_at 2) (pair_at external_type_at (list_at name_at))) reader.old.rest) }
    ensures few { IfOk result (λ n. reader.old.position + n ≤ reader.new.position) }
{
    reader.read_bytes(2)?;
    let each = read_type(reader)?;
    let names = read_list::<Name>(reader)?;
    if each == 0 {
        return Ok(0);
    }
    Ok(names)
}

// Returns the byte that is the form of a group of imports, where one is next.
fn next_code(reader: &BinaryReader<'_>) -> Option<u8>
    ensures { result ≡ code_of (has reader.now.features CompactImports) reader.now.rest }
{
    if !reader.features().compact_imports() {
        return None;
    }
    match reader.remaining_buffer() {
        [0, code, ..] => Some(*code),
        _ => None,
    }
}

// An entry of an import section.
struct Entry;

impl Counted for Entry {
    ghost Form = { ImportEntry };

    ghost form_at = { λ features. import_at (has features CompactImports) };

    ghost functions = { λ entry. functions_among (imported_by entry) };

    #[tactic(auto, using(crate::proofs::ImportLaws::entry_steps))]
    fn read(reader: &mut BinaryReader<'_>) -> Result<u64, Malformed> {
        reader.read_string()?;
        let code = next_code(reader);
        let functions = if code == Some(ITEMS) {
            read_items(reader)?
        } else if code == Some(NAMES) {
            read_names(reader)?
        } else {
            ImportedItem::read(reader)?
        };
        Ok(functions)
    }
}

// Returns how many functions an import section with this content imports, none where it doesn't read.
#[tactic(auto, using(crate::proofs::ImportLaws::section_steps))]
fn imported_functions(content: &BinaryReader<'_>) -> u64
    ensures counts { result ≡ functions_among (flat_map imported_by (entries_in (has content.now.features CompactImports) content.now.rest)) }
    ensures few { result ≤ length content.now.rest }
{
    let mut reader = fork(content);
    match read_list::<Entry>(&mut reader) {
        Ok(functions) if reader.eof() => functions,
        Ok(_) => 0,
        Err(_) => 0,
    }
}

// Returns how many functions the next section imports.
#[tactic(auto, using(crate::proofs::ImportLaws::next_steps))]
pub(crate) fn next_imported(section: &mut BinaryReader<'_>) -> u64
    ensures { CountsNext (has section.old.features CompactImports) (frame_at section.old.rest) result }
{
    let Ok(id) = section.read_u8() else {
        return 0;
    };
    if id != IMPORTS {
        return 0;
    }
    match read_sized(section) {
        Ok(content) => imported_functions(&content),
        Err(_) => 0,
    }
}
