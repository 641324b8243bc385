//! Types, as the encoder writes and the generator makes them (Core Specification 3.0, Structure, "Types"). References to
//! defined types are type indexes.

use std::marker::Model;

/// A heap type that is no defined type.
#[derive(Clone, Copy, Debug, PartialEq, Eq, Hash)]
pub enum AbstractHeapType {
    /// All functions.
    Func,
    /// All external references.
    Extern,
    /// All internal references: structures, arrays and unboxed scalars.
    Any,
    /// The bottom type of internal references.
    None,
    /// The bottom type of external references.
    NoExtern,
    /// The bottom type of functions.
    NoFunc,
    /// What can be compared.
    Eq,
    /// All structures.
    Struct,
    /// All arrays.
    Array,
    /// Unboxed scalars of 31 bits.
    I31,
    /// All exceptions.
    Exn,
    /// The bottom type of exceptions.
    NoExn,
    /// All continuations.
    Cont,
    /// The bottom type of continuations.
    NoCont,
}

/// What a reference refers to.
#[derive(Clone, Copy, Debug, PartialEq, Eq, Hash)]
pub enum HeapType {
    /// A heap type that is no defined type.
    Abstract(AbstractHeapType),
    /// The defined type of this index.
    Concrete(u32),
}

/// A reference type.
#[derive(Clone, Copy, Debug, PartialEq, Eq, Hash)]
pub struct RefType {
    /// Whether the reference may be null.
    pub nullable: bool,
    /// What it refers to.
    pub heap_type: HeapType,
}

/// The type of a value.
#[derive(Clone, Copy, Debug, PartialEq, Eq, Hash)]
pub enum ValType {
    /// Integers of 32 bits.
    I32,
    /// Integers of 64 bits.
    I64,
    /// Floats of 32 bits.
    F32,
    /// Floats of 64 bits.
    F64,
    /// Vectors of 128 bits.
    V128,
    /// References.
    Ref(RefType),
}

/// What a field holds.
#[derive(Clone, Copy, Debug, PartialEq, Eq, Hash)]
pub enum StorageType {
    /// Packed integers of 8 bits.
    I8,
    /// Packed integers of 16 bits.
    I16,
    /// Values of this type.
    Val(ValType),
}

/// A field of a structure, or the elements of an array.
#[derive(Clone, Copy, Debug, PartialEq, Eq, Hash)]
pub struct FieldType {
    /// What it holds.
    pub element_type: StorageType,
    /// Whether it can be set.
    pub mutable: bool,
}

/// A function type. Contracts see it as the types of its parameters and results.
#[derive(Debug, Drop)]
pub struct FuncType {
    params: Vec<ValType>,
    results: Vec<ValType>,
}

impl Model for FuncType {
    ghost use Rattle.std.specs.Prelude.{ℕ, map};
    ghost use Rattle.wasm_spec.specs.Types as spec;
    ghost use Rattle.wasm_core_types.specs.CoreTypes.{val_type};

    ghost Value = { spec.FuncType ℕ };

    ghost view = { λ t. record { params = map val_type t.params.items; results = map val_type t.results.items } };
}

impl FuncType {
    ghost use Rattle.std.specs.Prelude.{◌≡◌, map};
    ghost use Rattle.wasm_core_types.specs.CoreTypes.{val_type};

    /// The function type with these parameters and results.
    pub fn new(params: Vec<ValType>, results: Vec<ValType>) -> FuncType
        ensures { result ≡ record { params = map val_type params.items; results = map val_type results.items } }
    {
        FuncType { params, results }
    }

    /// The types of the parameters.
    pub fn params(&self) -> &[ValType]
        ensures { map val_type result.now ≡ self.now.params }
    {
        &self.params
    }

    /// The types of the results.
    pub fn results(&self) -> &[ValType]
        ensures { map val_type result.now ≡ self.now.results }
    {
        &self.results
    }
}

/// A structure type. Contracts see it as the list of its fields.
#[derive(Debug, Drop)]
pub struct StructType {
    fields: Vec<FieldType>,
}

impl Model for StructType {
    ghost use Rattle.std.specs.Prelude.{ℕ, List, map};
    ghost use Rattle.wasm_spec.specs.Types as spec;
    ghost use Rattle.wasm_core_types.specs.CoreTypes.{field_type};

    ghost Value = { List (spec.FieldType ℕ) };

    ghost view = { λ t. map field_type t.fields.items };
}

impl StructType {
    ghost use Rattle.std.specs.Prelude.{◌≡◌, map};
    ghost use Rattle.wasm_core_types.specs.CoreTypes.{field_type};

    /// The structure type with these fields.
    pub fn new(fields: Vec<FieldType>) -> StructType
        ensures { result ≡ map field_type fields.items }
    {
        StructType { fields }
    }

    /// The fields.
    pub fn fields(&self) -> &[FieldType]
        ensures { map field_type result.now ≡ self.now }
    {
        &self.fields
    }
}

/// An array type: its elements.
#[derive(Clone, Copy, Debug, PartialEq, Eq, Hash)]
pub struct ArrayType(pub FieldType);

/// A continuation type: the index of the function type that it goes on with.
#[derive(Clone, Copy, Debug, PartialEq, Eq, Hash)]
pub struct ContType(pub u32);

/// A composite type: what a sub type is made of.
#[derive(Debug, Drop)]
pub enum CompositeType {
    /// Functions.
    Func(FuncType),
    /// Arrays.
    Array(ArrayType),
    /// Structures.
    Struct(StructType),
    /// Continuations.
    Cont(ContType),
}

/// A sub type: a member of a recursive group.
#[derive(Debug, Drop)]
pub struct SubType {
    /// Whether no type may have it as its supertype.
    pub is_final: bool,
    /// The index of its supertype, where it has one.
    pub supertype_idx: Option<u32>,
    /// What it is made of.
    pub composite_type: CompositeType,
}
