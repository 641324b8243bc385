//! Reference types (Core Specification 3.0, Structure, "Reference Types").

use crate::heap_type::{AbstractHeapType, HeapType};
use crate::index::PackedIndex;
use std::marker::Model;

/// A reference type in 24 bits. Contracts see it as whether it may be null, and its heap type.
#[derive(Clone, Copy, Debug, PartialEq, Eq, Hash)]
pub struct RefType {
    // From the lowest bit: whether it may be null, whether it refers to a defined type, and in 22 bits that type's
    // packed index or the byte of an abstract heap type.
    bits: u32,
}

impl Model for RefType {
    ghost use Rattle.std.specs.Prelude.{◌/◌};
    ghost use Rattle.std.proofs.Common.{ap};
    ghost use Rattle.wasm_spec.specs.Types as spec;
    ghost use Rattle.wasmparser_types.specs.Index.{Index};
    ghost use Rattle.wasmparser_types.specs.RefBits.{IsHeapBits, ref_bits, ref_type_at, ref_bits-at};

    ghost Value = { spec.RefType Index };

    ghost view = { λ type. ref_type_at type.bits };

    ghost invariant = { λ type. IsHeapBits (type.bits / 2) };

    ghost inverse = { λ type. record { bits = ref_bits type } };

    ghost inverse_ok = { λ type is. ap (λ bits. record { bits = bits }) (ref_bits-at type.bits is) };
}

// A reference to an abstract heap type is the type's byte times this, and one more where it may be null.
const ABSTRACT: u32 = 4;

const NULLABLE: u32 = 1;

impl RefType {
    ghost use Rattle.std.specs.Prelude.{◌≡◌, ◌↔◌, ◌<◌, ◌^◌, IsTrue, true, false, is_some};
    ghost use Rattle.std.specs.Option.{SomeIff};
    ghost use Rattle.wasm_spec.specs.Types as spec;
    ghost use Rattle.wasmparser_types.specs.HeapTypes.{abstract_heap_type, heap_type, Packs, defined};
    ghost use Rattle.wasmparser_types.specs.RefBits.{IsHeapBits, heap_type_at, ref_bits};

    /// References to any function, or null.
    pub const FUNCREF: RefType = RefType {
        bits: ABSTRACT * 0x70 + NULLABLE,
    };

    /// References to anything external, or null.
    pub const EXTERNREF: RefType = RefType {
        bits: ABSTRACT * 0x6f + NULLABLE,
    };

    /// References to anything internal, or null.
    pub const ANYREF: RefType = RefType {
        bits: ABSTRACT * 0x6e + NULLABLE,
    };

    /// References to what can be compared, or null.
    pub const EQREF: RefType = RefType {
        bits: ABSTRACT * 0x6d + NULLABLE,
    };

    /// References to unboxed scalars of 31 bits, or null.
    pub const I31REF: RefType = RefType {
        bits: ABSTRACT * 0x6c + NULLABLE,
    };

    /// References to any structure, or null.
    pub const STRUCTREF: RefType = RefType {
        bits: ABSTRACT * 0x6b + NULLABLE,
    };

    /// References to any array, or null.
    pub const ARRAYREF: RefType = RefType {
        bits: ABSTRACT * 0x6a + NULLABLE,
    };

    /// References to any exception, or null.
    pub const EXNREF: RefType = RefType {
        bits: ABSTRACT * 0x69 + NULLABLE,
    };

    /// References to any continuation, or null.
    pub const CONTREF: RefType = RefType {
        bits: ABSTRACT * 0x68 + NULLABLE,
    };

    /// Null alone, as a reference to something internal.
    pub const NULLREF: RefType = RefType {
        bits: ABSTRACT * 0x71 + NULLABLE,
    };

    /// Null alone, as a reference to something external.
    pub const NULLEXTERNREF: RefType = RefType {
        bits: ABSTRACT * 0x72 + NULLABLE,
    };

    /// Null alone, as a reference to a function.
    pub const NULLFUNCREF: RefType = RefType {
        bits: ABSTRACT * 0x73 + NULLABLE,
    };

    /// Null alone, as a reference to an exception.
    pub const NULLEXNREF: RefType = RefType {
        bits: ABSTRACT * 0x74 + NULLABLE,
    };

    /// Null alone, as a reference to a continuation.
    pub const NULLCONTREF: RefType = RefType {
        bits: ABSTRACT * 0x75 + NULLABLE,
    };

    /// References to any function.
    pub const FUNC: RefType = RefType {
        bits: ABSTRACT * 0x70,
    };

    /// References to anything external.
    pub const EXTERN: RefType = RefType {
        bits: ABSTRACT * 0x6f,
    };

    /// References to any exception.
    pub const EXN: RefType = RefType {
        bits: ABSTRACT * 0x69,
    };

    /// References to any continuation.
    pub const CONT: RefType = RefType {
        bits: ABSTRACT * 0x68,
    };

    /// A reference type, or None where the heap type is a defined type whose index is 2^20 or more.
    pub fn new(nullable: bool, heap: HeapType) -> Option<RefType>
        ensures { SomeIff result (Packs (heap_type heap)) (record { nullable = nullable; heap_type = heap_type heap }) }
    {
        match heap {
            HeapType::Abstract(heap) => Some(RefType::from_abstract(nullable, heap)),
            HeapType::Concrete(index) => {
                let index = index.pack()?;
                Some(RefType::concrete(nullable, index))
            }
        }
    }

    /// References to a defined type.
    pub fn concrete(nullable: bool, index: PackedIndex) -> RefType
        ensures { result ≡ record { nullable = nullable; heap_type = spec.Concrete index } }
    {
        RefType::from_heap_bits(nullable, 2 * index.bits() + 1)
    }

    // References to an abstract heap type.
    fn from_abstract(nullable: bool, heap: AbstractHeapType) -> RefType
        ensures { result ≡ record { nullable = nullable; heap_type = spec.Abstract (abstract_heap_type heap) } }
    {
        RefType::from_heap_bits(nullable, 2 * heap.code())
    }

    fn from_heap_bits(nullable: bool, bits: u32) -> RefType
        requires { IsHeapBits bits }
        ensures { result ≡ record { nullable = nullable; heap_type = heap_type_at bits } }
    {
        RefType {
            bits: 2 * bits + u32::from(nullable),
        }
    }

    /// Checks that it may be null.
    pub fn is_nullable(&self) -> bool
        ensures { result ≡ self.now.nullable }
    {
        self.bits % 2 == 1
    }

    /// What it refers to.
    pub fn heap_type(&self) -> HeapType
        ensures { heap_type result ≡ self.now.heap_type }
    {
        let heap = self.bits / 2;
        if heap % 2 == 0 {
            HeapType::Abstract(AbstractHeapType::from_code(heap / 2))
        } else {
            HeapType::Concrete(PackedIndex::from_bits(heap / 2).unpack())
        }
    }

    /// The same references without null.
    pub fn as_non_null(&self) -> RefType
        ensures { result ≡ record self.now { nullable = false } }
    {
        RefType::from_heap_bits(false, self.bits / 2)
    }

    /// The same references and null.
    pub fn nullable(&self) -> RefType
        ensures { result ≡ record self.now { nullable = true } }
    {
        RefType::from_heap_bits(true, self.bits / 2)
    }

    /// Checks that it refers to a defined type.
    pub fn is_concrete_type_ref(&self) -> bool
        ensures { result ≡ is_some (defined self.now.heap_type) }
    {
        self.type_index().is_some()
    }

    /// The defined type that it refers to, if it does.
    pub fn type_index(&self) -> Option<PackedIndex>
        ensures { result ≡ defined self.now.heap_type }
    {
        let heap = self.bits / 2;
        if heap % 2 == 0 {
            None
        } else {
            Some(PackedIndex::from_bits(heap / 2))
        }
    }

    /// The number that it is packed to, which no other reference type has: below 2^24.
    pub fn bits(&self) -> u32
        ensures value { result ≡ ref_bits self.now }
        ensures small { result < 2 ^ 24 }
    {
        let RefType { bits } = self;
        *bits
    }

    fn is_abstract(&self, heap: AbstractHeapType) -> bool
        ensures { IsTrue result ↔ (self.now.heap_type ≡ spec.Abstract (abstract_heap_type heap)) }
    {
        self.bits / 2 == 2 * heap.code()
    }

    /// Checks that it refers to functions of any type, whether or not it may be null.
    pub fn is_func_ref(&self) -> bool
        ensures { IsTrue result ↔ (self.now.heap_type ≡ spec.Abstract spec.Func) }
    {
        self.is_abstract(AbstractHeapType::Func)
    }

    /// Checks that it refers to anything external, whether or not it may be null.
    pub fn is_extern_ref(&self) -> bool
        ensures { IsTrue result ↔ (self.now.heap_type ≡ spec.Abstract spec.Extern) }
    {
        self.is_abstract(AbstractHeapType::Extern)
    }

    /// Checks that it refers to anything internal, whether or not it may be null.
    pub fn is_any_ref(&self) -> bool
        ensures { IsTrue result ↔ (self.now.heap_type ≡ spec.Abstract spec.Any) }
    {
        self.is_abstract(AbstractHeapType::Any)
    }

    /// Checks that it refers to nothing internal.
    pub fn is_none_ref(&self) -> bool
        ensures { IsTrue result ↔ (self.now.heap_type ≡ spec.Abstract spec.None) }
    {
        self.is_abstract(AbstractHeapType::None)
    }

    /// Checks that it refers to nothing external.
    pub fn is_noextern_ref(&self) -> bool
        ensures { IsTrue result ↔ (self.now.heap_type ≡ spec.Abstract spec.NoExtern) }
    {
        self.is_abstract(AbstractHeapType::NoExtern)
    }

    /// Checks that it refers to no function.
    pub fn is_nofunc_ref(&self) -> bool
        ensures { IsTrue result ↔ (self.now.heap_type ≡ spec.Abstract spec.NoFunc) }
    {
        self.is_abstract(AbstractHeapType::NoFunc)
    }

    /// Checks that it refers to what can be compared, whether or not it may be null.
    pub fn is_eq_ref(&self) -> bool
        ensures { IsTrue result ↔ (self.now.heap_type ≡ spec.Abstract spec.Eq) }
    {
        self.is_abstract(AbstractHeapType::Eq)
    }

    /// Checks that it refers to structures of any type, whether or not it may be null.
    pub fn is_struct_ref(&self) -> bool
        ensures { IsTrue result ↔ (self.now.heap_type ≡ spec.Abstract spec.Struct) }
    {
        self.is_abstract(AbstractHeapType::Struct)
    }

    /// Checks that it refers to arrays of any type, whether or not it may be null.
    pub fn is_array_ref(&self) -> bool
        ensures { IsTrue result ↔ (self.now.heap_type ≡ spec.Abstract spec.Array) }
    {
        self.is_abstract(AbstractHeapType::Array)
    }

    /// Checks that it refers to unboxed scalars of 31 bits, whether or not it may be null.
    pub fn is_i31_ref(&self) -> bool
        ensures { IsTrue result ↔ (self.now.heap_type ≡ spec.Abstract spec.I31) }
    {
        self.is_abstract(AbstractHeapType::I31)
    }

    /// Checks that it refers to exceptions, whether or not it may be null.
    pub fn is_exn_ref(&self) -> bool
        ensures { IsTrue result ↔ (self.now.heap_type ≡ spec.Abstract spec.Exn) }
    {
        self.is_abstract(AbstractHeapType::Exn)
    }

    /// Checks that it refers to no exception.
    pub fn is_noexn_ref(&self) -> bool
        ensures { IsTrue result ↔ (self.now.heap_type ≡ spec.Abstract spec.NoExn) }
    {
        self.is_abstract(AbstractHeapType::NoExn)
    }

    /// Checks that it refers to continuations of any type, whether or not it may be null.
    pub fn is_cont_ref(&self) -> bool
        ensures { IsTrue result ↔ (self.now.heap_type ≡ spec.Abstract spec.Cont) }
    {
        self.is_abstract(AbstractHeapType::Cont)
    }

    /// Checks that it refers to no continuation.
    pub fn is_nocont_ref(&self) -> bool
        ensures { IsTrue result ↔ (self.now.heap_type ≡ spec.Abstract spec.NoCont) }
    {
        self.is_abstract(AbstractHeapType::NoCont)
    }
}
