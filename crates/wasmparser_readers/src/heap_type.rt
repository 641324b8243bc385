//! Heap types and type indexes, read from bytes (Core Specification 3.0, Binary Format, "Heap Types").

ghost use Rattle.std.specs.Prelude.{◌≡◌, ⊤, ℕ, [], false, true};
ghost use Rattle.std.specs.Option.{option_map};
ghost use Rattle.wasm_core_read.specs.Reading.{Answers};
ghost use Rattle.wasm_core_read.specs.TypeReading.{look_up, heap_codes, heap_index_at, heap_type_at};
ghost use Rattle.wasm_spec.specs.Types as spec;
ghost use Rattle.wasmparser_readers.specs.PackedReading.{module_heap_at, packed_index, packed_ref_at};
ghost use Rattle.wasmparser_readers.specs.Written.{written_heap};
ghost use Rattle.wasmparser_types.specs.HeapTypes.{abstract_heap_type, abstract_ref, heap_type};
ghost use Rattle.wasmparser_types.specs.Index.{Index, RecGroup};

use crate::from_reader::{FromReader, Item};
use std::alloc::Global;
use wasm_core_read::binary_reader::BinaryReader;
use wasm_core_read::malformed::Malformed;
use wasmparser_error::error::Error;
use wasmparser_types::heap_type::{AbstractHeapType, HeapType};
use wasmparser_types::index::{PackedIndex, UnpackedIndex};
use wasmparser_types::ref_type::RefType;

// Returns the abstract heap type that a byte stands for.
pub(crate) fn abstract_of(code: u8) -> Option<AbstractHeapType>
    ensures { option_map abstract_heap_type result ≡ look_up heap_codes code }
{
    let heap_type = match code {
        0x75 => AbstractHeapType::NoCont,
        0x74 => AbstractHeapType::NoExn,
        0x73 => AbstractHeapType::NoFunc,
        0x72 => AbstractHeapType::NoExtern,
        0x71 => AbstractHeapType::None,
        0x70 => AbstractHeapType::Func,
        0x6f => AbstractHeapType::Extern,
        0x6e => AbstractHeapType::Any,
        0x6d => AbstractHeapType::Eq,
        0x6c => AbstractHeapType::I31,
        0x6b => AbstractHeapType::Struct,
        0x6a => AbstractHeapType::Array,
        0x69 => AbstractHeapType::Exn,
        0x68 => AbstractHeapType::Cont,
        _ => return None,
    };
    Some(heap_type)
}

// Returns the placeholder for a type index that is too large to be packed, until the whole item is read: no bytes give a
// place in a recursive group.
fn unpackable() -> PackedIndex
    ensures { result ≡ RecGroup 0 }
{
    PackedIndex::from_rec_group_index(0).unwrap()
}

// Returns the type index, packed.
pub(crate) fn packed(index: u32) -> PackedIndex
    ensures { result ≡ packed_index index }
{
    match PackedIndex::from_module_index(index) {
        Some(packed) => packed,
        None => unpackable(),
    }
}

// Reads the index of a type where it is a signed number that isn't negative.
#[tactic(auto, using(crate::proofs::HeapLaws::index_steps))]
pub(crate) fn read_heap_index(reader: &mut BinaryReader<'_>) -> Result<u32, Malformed>
    ensures { Answers (λ n. n) reader.old reader.new result (heap_index_at reader.old.rest) }
{
    let offset = reader.original_position();
    let index = reader.read_var_s33()?;
    if index < 0 {
        return Err(Malformed { offset });
    }
    Ok(index as u32)
}

// A heap type as bytes have it.
pub(crate) enum WrittenHeapType {
    Abstract(AbstractHeapType),
    Index(u32),
}

// Reads a heap type: a byte, or the index of a type.
#[tactic(auto, using(crate::proofs::HeapLaws::heap_steps))]
pub(crate) fn read_written(reader: &mut BinaryReader<'_>) -> Result<WrittenHeapType, Malformed>
    ensures { Answers written_heap reader.old reader.new result (heap_type_at reader.old.rest) }
{
    let offset = reader.original_position();
    let Some(code) = reader.peek() else {
        return Err(Malformed { offset });
    };
    if let Some(heap_type) = abstract_of(code) {
        reader.read_u8()?;
        return Ok(WrittenHeapType::Abstract(heap_type));
    }
    Ok(WrittenHeapType::Index(read_heap_index(reader)?))
}

/// Reads a heap type, whose index isn't packed.
///
/// # Errors
/// Where none reads.
#[tactic(auto, unfolding(crate::specs::PackedReading::module_heap_at))]
pub fn read_heap_type(reader: &mut BinaryReader<'_>) -> Result<HeapType, Malformed>
    ensures { Answers heap_type reader.old reader.new result (module_heap_at reader.old.rest) }
{
    match read_written(reader)? {
        WrittenHeapType::Abstract(it) => Ok(HeapType::Abstract(it)),
        WrittenHeapType::Index(index) => Ok(HeapType::Concrete(UnpackedIndex::Module(index))),
    }
}

// Reads what a reference refers to.
#[tactic(auto, unfolding(crate::specs::PackedReading::packed_ref_at))]
pub(crate) fn read_reference(
    nullable: bool,
    reader: &mut BinaryReader<'_>,
) -> Result<RefType, Malformed>
    ensures { Answers (λ type. type) reader.old reader.new result (packed_ref_at nullable reader.old.rest) }
{
    match read_written(reader)? {
        WrittenHeapType::Abstract(it) => Ok(abstract_reference(nullable, it)),
        WrittenHeapType::Index(index) => Ok(RefType::concrete(nullable, packed(index))),
    }
}

// Returns the reference to an abstract heap type.
pub(crate) fn abstract_reference(nullable: bool, heap: AbstractHeapType) -> RefType
    ensures { result ≡ abstract_ref nullable (abstract_heap_type heap) }
{
    RefType::new(nullable, HeapType::Abstract(heap)).unwrap()
}

impl Item for HeapType {
    ghost Form = { spec.HeapType Index };

    ghost form = { heap_type };

    ghost form_at = { λ _. module_heap_at };

    ghost indexes = { λ _. [] };

    ghost IsOfModule = { λ _. ⊤ };

    ghost TakesMemory = { ⊥ };
}

impl<'a> FromReader<'a> for HeapType {
    fn from_reader(_alloc: Global, reader: &mut BinaryReader<'a>) -> Result<HeapType, Error> {
        Ok(read_heap_type(reader)?)
    }
}
