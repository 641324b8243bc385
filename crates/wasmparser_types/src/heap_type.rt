//! What references refer to (Core Specification 3.0, Structure, "Heap Types").

use crate::index::UnpackedIndex;

/// A heap type that is no defined type.
#[derive(Clone, Copy, Debug, PartialEq, Eq, Hash)]
pub enum AbstractHeapType {
    /// All functions.
    Func,
    /// All external references.
    Extern,
    /// All internal references: structures, arrays and unboxed scalars.
    Any,
    /// The bottom type of internal references.
    None,
    /// The bottom type of external references.
    NoExtern,
    /// The bottom type of functions.
    NoFunc,
    /// What can be compared.
    Eq,
    /// All structures.
    Struct,
    /// All arrays.
    Array,
    /// Unboxed scalars of 31 bits.
    I31,
    /// All exceptions.
    Exn,
    /// The bottom type of exceptions.
    NoExn,
    /// All continuations.
    Cont,
    /// The bottom type of continuations.
    NoCont,
}

impl AbstractHeapType {
    ghost use Rattle.std.specs.Prelude.{◌≡◌, ◌<◌, ◌≤◌, ◌^◌};
    ghost use Rattle.wasm_spec.specs.TypeGrammar.{heap_code};
    ghost use Rattle.wasmparser_types.specs.HeapTypes as spec;
    ghost use Rattle.wasmparser_types.specs.RefBits.{abstract_at};

    // The byte that stands for it in a module.
    pub(crate) fn code(self) -> u32
        ensures code { result ≡ heap_code (spec.abstract_heap_type self) }
        ensures byte { result < 2 ^ 8 }
    {
        match self {
            AbstractHeapType::NoCont => 0x75,
            AbstractHeapType::NoExn => 0x74,
            AbstractHeapType::NoFunc => 0x73,
            AbstractHeapType::NoExtern => 0x72,
            AbstractHeapType::None => 0x71,
            AbstractHeapType::Func => 0x70,
            AbstractHeapType::Extern => 0x6f,
            AbstractHeapType::Any => 0x6e,
            AbstractHeapType::Eq => 0x6d,
            AbstractHeapType::I31 => 0x6c,
            AbstractHeapType::Struct => 0x6b,
            AbstractHeapType::Array => 0x6a,
            AbstractHeapType::Exn => 0x69,
            AbstractHeapType::Cont => 0x68,
        }
    }

    // The abstract heap type of this byte.
    pub(crate) fn from_code(code: u32) -> AbstractHeapType
        requires low { 0x68 ≤ code }
        requires high { code ≤ 0x75 }
        ensures { spec.abstract_heap_type result ≡ abstract_at code }
    {
        match code {
            0x75 => AbstractHeapType::NoCont,
            0x74 => AbstractHeapType::NoExn,
            0x73 => AbstractHeapType::NoFunc,
            0x72 => AbstractHeapType::NoExtern,
            0x71 => AbstractHeapType::None,
            0x70 => AbstractHeapType::Func,
            0x6f => AbstractHeapType::Extern,
            0x6e => AbstractHeapType::Any,
            0x6d => AbstractHeapType::Eq,
            0x6c => AbstractHeapType::I31,
            0x6b => AbstractHeapType::Struct,
            0x6a => AbstractHeapType::Array,
            0x69 => AbstractHeapType::Exn,
            _ => AbstractHeapType::Cont,
        }
    }
}

/// What a reference refers to.
#[derive(Clone, Copy, Debug, PartialEq, Eq, Hash)]
pub enum HeapType {
    /// A heap type that is no defined type.
    Abstract(AbstractHeapType),
    /// A defined type.
    Concrete(UnpackedIndex),
}
