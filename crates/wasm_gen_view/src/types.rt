//! Types of a view, which name each other by group and place.

/// A type by the number of its group, counted over distinct groups, and its place there.
#[derive(Clone, Copy, Debug, PartialEq, Eq, Hash)]
pub struct TypePlace {
    /// The number of the group.
    pub group: usize,
    /// The place in the group.
    pub place: usize,
}

/// A reference to a defined type.
#[derive(Clone, Copy, Debug, PartialEq, Eq, Hash)]
pub enum TypeReference {
    /// A type of the group that the reference stands in, by its place. It stands in groups alone.
    Own(usize),
    /// A type of another group, or, where the reference stands in no group, any type.
    Other(TypePlace),
}

/// A heap type.
#[derive(Clone, Copy, Debug, PartialEq, Eq, Hash)]
pub enum HeapType {
    /// All functions.
    Func,
    /// All external references.
    Extern,
    /// All internal references: structures, arrays and unboxed scalars.
    Any,
    /// The bottom type of internal references.
    None,
    /// The bottom type of external references.
    NoExtern,
    /// The bottom type of functions.
    NoFunc,
    /// All types that can be compared.
    Eq,
    /// All structures.
    Struct,
    /// All arrays.
    Array,
    /// Unboxed scalars of 31 bits.
    I31,
    /// All exceptions.
    Exn,
    /// The bottom type of exceptions.
    NoExn,
    /// All continuations.
    Cont,
    /// The bottom type of continuations.
    NoCont,
    /// A defined type.
    Defined(TypeReference),
}

/// A reference type.
#[derive(Clone, Copy, Debug, PartialEq, Eq, Hash)]
pub struct RefType {
    /// True if the reference may be null.
    pub nullable: bool,
    /// The type that it refers to.
    pub heap_type: HeapType,
}

/// The type of a value.
#[derive(Clone, Copy, Debug, PartialEq, Eq, Hash)]
pub enum ValType {
    /// Integers of 32 bits.
    I32,
    /// Integers of 64 bits.
    I64,
    /// Floats of 32 bits.
    F32,
    /// Floats of 64 bits.
    F64,
    /// Vectors of 128 bits.
    V128,
    /// References.
    Ref(RefType),
}

/// The type of the contents of a field.
#[derive(Clone, Copy, Debug, PartialEq, Eq, Hash)]
pub enum StorageType {
    /// Packed integers of 8 bits.
    I8,
    /// Packed integers of 16 bits.
    I16,
    /// Values of this type.
    Val(ValType),
}

/// A field of a structure, or the elements of an array.
#[derive(Clone, Copy, Debug, PartialEq, Eq, Hash)]
pub struct FieldType {
    /// The type of its contents.
    pub element_type: StorageType,
    /// True if it can be set.
    pub mutable: bool,
}

/// A function type.
#[derive(Debug, PartialEq, Eq, Hash, Drop)]
pub struct FuncType {
    /// The types of the parameters.
    pub params: Vec<ValType>,
    /// The types of the results.
    pub results: Vec<ValType>,
}

/// A composite type.
#[derive(Debug, PartialEq, Eq, Hash, Drop)]
pub enum CompositeType {
    /// Functions.
    Func(FuncType),
    /// Structures of these fields.
    Struct(Vec<FieldType>),
    /// Arrays of these elements.
    Array(FieldType),
    /// Continuations with this function type.
    Cont(TypeReference),
}

/// A sub type: a member of a group.
#[derive(Debug, PartialEq, Eq, Hash, Drop)]
pub struct SubType {
    /// True if no type may have it as its supertype.
    pub is_final: bool,
    /// Its supertype, where it has one.
    pub supertype: Option<TypeReference>,
    /// The composite type.
    pub composite_type: CompositeType,
}
