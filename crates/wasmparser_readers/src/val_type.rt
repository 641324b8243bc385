//! Types of values and fields, read from bytes (Core Specification 3.0, Binary Format, "Value Types").

ghost use Rattle.std.specs.Prelude.{◌≡◌, ◌↔◌, ℕ, IsTrue};
ghost use Rattle.std.specs.List.{AllByRecursion};
ghost use Rattle.std.specs.Option.{option_map};
ghost use Rattle.wasm_core_read.specs.Reading.{Answers};
ghost use Rattle.wasm_core_read.specs.TypeReading.{look_up, val_type_codes, val_type_at, ref_type_at, mutability_at};
ghost use Rattle.wasm_spec.specs.TypeReferences.{ref_map, ref_refs, val_map, val_refs};
ghost use Rattle.wasm_spec.specs.Types as spec;
ghost use Rattle.wasmparser_readers.specs.ModuleIndexes.{IsModuleIndex};
ghost use Rattle.wasmparser_readers.specs.PackedReading.{packed_index, packed_val_from, packed_val_at, packed_ref_from, packed_ref_type_at, packed_storage_from, packed_storage_at, packed_field_at};
ghost use Rattle.wasmparser_types.specs.Index.{Index, number_of};
ghost use Rattle.wasmparser_types.specs.ValTypes.{val_type, storage_type, field_type};

use crate::from_reader::{FromReader, Item};
use crate::heap_type::{abstract_of, abstract_reference, read_reference};
use crate::part::Part;
use crate::passing::fork;
use std::alloc::Global;
use wasm_core_read::binary_reader::BinaryReader;
use wasm_core_read::malformed::Malformed;
use wasmparser_error::error::{Error, ErrorKind};
use wasmparser_types::ref_type::RefType;
use wasmparser_types::val_type::{FieldType, StorageType, ValType};

// The first byte of a reference type that may be null, where it is written out.
const NULLABLE: u8 = 0x63;

// The first byte of a reference type that may not be null.
const NOT_NULL: u8 = 0x64;

// Returns the value type that a byte alone stands for.
#[tactic(auto, using(crate::proofs::ValLaws::bare_heap))]
fn val_type_of(code: u8) -> Option<ValType>
    ensures { option_map val_type result ≡ option_map (val_map packed_index) (look_up val_type_codes code) }
{
    match code {
        0x7f => Some(ValType::I32),
        0x7e => Some(ValType::I64),
        0x7d => Some(ValType::F32),
        0x7c => Some(ValType::F64),
        0x7b => Some(ValType::V128),
        _ => Some(ValType::Ref(abstract_reference(true, abstract_of(code)?))),
    }
}

// Reads a value type after its first byte.
#[inline(never)]
fn read_any_from(code: u8, reader: &mut BinaryReader<'_>) -> Result<ValType, Malformed>
    ensures { Answers val_type reader.old reader.new result (packed_val_from code reader.old.rest) }
{
    match code {
        NULLABLE => Ok(ValType::Ref(read_reference(true, reader)?)),
        NOT_NULL => Ok(ValType::Ref(read_reference(false, reader)?)),
        _ => match val_type_of(code) {
            Some(it) => Ok(it),
            None => Err(Malformed {
                offset: reader.original_position(),
            }),
        },
    }
}

// Does the same, with a fast way to types of numbers.
#[inline(always)]
pub(crate) fn read_val_type_from(
    code: u8,
    reader: &mut BinaryReader<'_>,
) -> Result<ValType, Malformed>
    ensures { Answers val_type reader.old reader.new result (packed_val_from code reader.old.rest) }
{
    match code {
        0x7f => Ok(ValType::I32),
        0x7e => Ok(ValType::I64),
        0x7d => Ok(ValType::F32),
        0x7c => Ok(ValType::F64),
        _ => {
            // (a copy, so that the reader needs no memory where this isn't called)
            let mut copy = fork(reader);
            let result = read_any_from(code, &mut copy);
            *reader = copy;
            result
        }
    }
}

/// Reads a value type. A type index that is too large to be packed reads as a place in a recursive group, which no bytes give: ask
/// `val_is_of_module` before the type is used.
///
/// # Errors
/// Where none reads.
#[inline(always)]
#[tactic(auto, using(crate::proofs::CodeLaws::val_codes))]
pub fn read_val_type(reader: &mut BinaryReader<'_>) -> Result<ValType, Malformed>
    ensures { Answers val_type reader.old reader.new result (packed_val_at reader.old.rest) }
{
    let code = reader.read_u8()?;
    read_val_type_from(code, reader)
}

/// Reads a reference type after its first byte. A type index that is too large to be packed reads as a place in a recursive group,
/// which no bytes give: ask `ref_is_of_module` before the type is used.
///
/// # Errors
/// Where none reads.
pub fn read_ref_type_from(code: u8, reader: &mut BinaryReader<'_>) -> Result<RefType, Malformed>
    ensures { Answers (λ type. type) reader.old reader.new result (packed_ref_from code reader.old.rest) }
{
    let offset = reader.original_position();
    match read_val_type_from(code, reader)? {
        ValType::Ref(it) => Ok(it),
        _ => Err(Malformed { offset }),
    }
}

/// Does the same with its first byte.
///
/// # Errors
/// Where none reads.
#[tactic(auto, using(crate::proofs::CodeLaws::ref_codes))]
pub fn read_ref_type(reader: &mut BinaryReader<'_>) -> Result<RefType, Malformed>
    ensures { Answers (λ type. type) reader.old reader.new result (packed_ref_type_at reader.old.rest) }
{
    let code = reader.read_u8()?;
    read_ref_type_from(code, reader)
}

/// Reads whether a field or a global can be set.
///
/// # Errors
/// Where a byte other than 0 and 1 stands there, or none.
#[tactic(auto, using(crate::proofs::CodeLaws::mutability_codes))]
pub fn read_mutability(reader: &mut BinaryReader<'_>) -> Result<bool, Malformed>
    ensures { Answers (λ mutable. mutable) reader.old reader.new result (mutability_at reader.old.rest) }
{
    let offset = reader.original_position();
    match reader.read_u8()? {
        0 => Ok(false),
        1 => Ok(true),
        _ => Err(Malformed { offset }),
    }
}

fn read_storage_type_from(code: u8, reader: &mut BinaryReader<'_>) -> Result<StorageType, Malformed>
    ensures { Answers storage_type reader.old reader.new result (packed_storage_from code reader.old.rest) }
{
    match code {
        0x78 => Ok(StorageType::I8),
        0x77 => Ok(StorageType::I16),
        _ => Ok(StorageType::Val(read_val_type_from(code, reader)?)),
    }
}

#[tactic(auto, using(crate::proofs::CodeLaws::storage_codes))]
fn read_storage_type(reader: &mut BinaryReader<'_>) -> Result<StorageType, Malformed>
    ensures { Answers storage_type reader.old reader.new result (packed_storage_at reader.old.rest) }
{
    let code = reader.read_u8()?;
    read_storage_type_from(code, reader)
}

// Reads the type of a field.
#[tactic(auto, unfolding(crate::specs::PackedReading::packed_field_at))]
pub(crate) fn read_field_type(reader: &mut BinaryReader<'_>) -> Result<FieldType, Malformed>
    ensures { Answers field_type reader.old reader.new result (packed_field_at reader.old.rest) }
{
    let element_type = read_storage_type(reader)?;
    let mutable = read_mutability(reader)?;
    Ok(FieldType {
        element_type,
        mutable,
    })
}

impl Part for ValType {
    ghost Meaning = { spec.ValType Index };

    ghost meaning = { val_type };

    ghost part_at = { packed_val_at };

    fn read(_alloc: Global, reader: &mut BinaryReader<'_>) -> Result<ValType, Error> {
        Ok(read_val_type(reader)?)
    }
}

impl Part for FieldType {
    ghost Meaning = { spec.FieldType Index };

    ghost meaning = { field_type };

    ghost part_at = { packed_field_at };

    fn read(_alloc: Global, reader: &mut BinaryReader<'_>) -> Result<FieldType, Error> {
        Ok(read_field_type(reader)?)
    }
}

/// Checks that a reference names the defined type that it refers to, if any, by its place in the module.
pub fn ref_is_of_module(reference: &RefType) -> bool
    ensures { IsTrue result ↔ AllByRecursion IsModuleIndex (ref_refs reference.now) }
{
    match reference.type_index() {
        Some(index) => index.is_module_index(),
        None => true,
    }
}

/// Does the same for a value type.
pub fn val_is_of_module(type_of_value: &ValType) -> bool
    ensures { IsTrue result ↔ AllByRecursion IsModuleIndex (val_refs (val_type type_of_value.now)) }
{
    match type_of_value {
        ValType::Ref(it) => ref_is_of_module(it),
        _ => true,
    }
}

impl Item for RefType {
    ghost Form = { spec.RefType ℕ };

    ghost form = { ref_map number_of };

    ghost form_at = { λ _. ref_type_at };

    ghost indexes = { ref_refs };

    ghost IsOfModule = { λ type. AllByRecursion IsModuleIndex (ref_refs type) };

    ghost TakesMemory = { ⊥ };
}

impl<'a> FromReader<'a> for RefType {
    #[tactic(auto, using(crate::proofs::ModuleLaws::ref_items))]
    fn from_reader(_alloc: Global, reader: &mut BinaryReader<'a>) -> Result<RefType, Error> {
        let offset = reader.original_position();
        let reference = read_ref_type(reader)?;
        if !ref_is_of_module(&reference) {
            return Err(Error {
                offset,
                kind: ErrorKind::Invalid,
            });
        }
        Ok(reference)
    }
}

impl Item for ValType {
    ghost Form = { spec.ValType ℕ };

    ghost form = { λ type. val_map number_of (val_type type) };

    ghost form_at = { λ _. val_type_at };

    ghost indexes = { val_refs };

    ghost IsOfModule = { λ type. AllByRecursion IsModuleIndex (val_refs (val_type type)) };

    ghost TakesMemory = { ⊥ };
}

impl<'a> FromReader<'a> for ValType {
    #[tactic(auto, using(crate::proofs::ModuleLaws::val_items))]
    fn from_reader(_alloc: Global, reader: &mut BinaryReader<'a>) -> Result<ValType, Error> {
        let offset = reader.original_position();
        let val_type = read_val_type(reader)?;
        if !val_is_of_module(&val_type) {
            return Err(Error {
                offset,
                kind: ErrorKind::Invalid,
            });
        }
        Ok(val_type)
    }
}
