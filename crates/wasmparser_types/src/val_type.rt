//! Types of values and fields (Core Specification 3.0, Structure, "Value Types").

use crate::ref_type::RefType;

/// The type of a value.
#[derive(Clone, Copy, Debug, PartialEq, Eq, Hash)]
pub enum ValType {
    /// Integers of 32 bits.
    I32,
    /// Integers of 64 bits.
    I64,
    /// Floats of 32 bits.
    F32,
    /// Floats of 64 bits.
    F64,
    /// Vectors of 128 bits.
    V128,
    /// References.
    Ref(RefType),
}

impl ValType {
    ghost use Rattle.std.specs.Prelude.{◌≡◌, is_some};
    ghost use Rattle.wasmparser_types.specs.ValTypes.{val_type, reference_type, is_defaultable};

    /// References to any function, or null.
    pub const FUNCREF: ValType = ValType::Ref(RefType::FUNCREF);

    /// References to anything external, or null.
    pub const EXTERNREF: ValType = ValType::Ref(RefType::EXTERNREF);

    /// References to any exception, or null.
    pub const EXNREF: ValType = ValType::Ref(RefType::EXNREF);

    /// References to any continuation, or null.
    pub const CONTREF: ValType = ValType::Ref(RefType::CONTREF);

    /// Checks that this is a reference type.
    pub fn is_reference_type(&self) -> bool
        ensures { result ≡ is_some (reference_type (val_type self.now)) }
    {
        self.as_reference_type().is_some()
    }

    /// `is_reference_type`, for short.
    pub fn is_ref(&self) -> bool
        ensures { result ≡ is_some (reference_type (val_type self.now)) }
    {
        self.is_reference_type()
    }

    /// The reference type, if this is one.
    pub fn as_reference_type(&self) -> Option<RefType>
        ensures { result ≡ reference_type (val_type self.now) }
    {
        match self {
            ValType::Ref(it) => Some(*it),
            _ => None,
        }
    }

    /// Checks that the type has a default value, which locals begin with (Core Specification 3.0, Validation, "Value
    /// Types"). Only references that may not be null have none.
    pub fn is_defaultable(&self) -> bool
        ensures { result ≡ is_defaultable (val_type self.now) }
    {
        match self {
            ValType::Ref(it) => it.is_nullable(),
            _ => true,
        }
    }
}

/// What a field holds.
#[derive(Clone, Copy, Debug, PartialEq, Eq, Hash)]
pub enum StorageType {
    /// Packed integers of 8 bits.
    I8,
    /// Packed integers of 16 bits.
    I16,
    /// Values of this type.
    Val(ValType),
}

impl StorageType {
    ghost use Rattle.std.specs.Prelude.{◌≡◌};
    ghost use Rattle.wasmparser_types.specs.ValTypes.{val_type, storage_type, unpacked_type};

    /// The type of the value on the stack: `i32` for a packed integer.
    pub fn unpack(&self) -> ValType
        ensures { val_type result ≡ unpacked_type (storage_type self.now) }
    {
        match self {
            StorageType::I8 | StorageType::I16 => ValType::I32,
            StorageType::Val(it) => *it,
        }
    }
}

/// A field of a structure, or the elements of an array.
#[derive(Clone, Copy, Debug, PartialEq, Eq, Hash)]
pub struct FieldType {
    /// What it holds.
    pub element_type: StorageType,
    /// Whether it can be set.
    pub mutable: bool,
}
