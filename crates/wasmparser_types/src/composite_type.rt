//! What sub types are made of (Core Specification 3.0, Structure, "Composite Types").

use crate::index::PackedIndex;
use crate::val_type::{FieldType, ValType};

/// A function type.
#[derive(Debug, PartialEq, Eq, Hash, Drop)]
pub struct FuncType {
    pub(crate) params: Vec<ValType>,
    pub(crate) results: Vec<ValType>,
}

impl FuncType {
    ghost use Rattle.std.specs.Prelude.{◌≡◌, map};
    ghost use Rattle.wasmparser_types.specs.ValTypes.{val_type};
    ghost use Rattle.wasmparser_types.specs.CompositeTypes.{func_type};

    /// The function type with these parameters and results.
    pub fn new(params: Vec<ValType>, results: Vec<ValType>) -> FuncType
        ensures { func_type result ≡ record { params = map val_type params.items; results = map val_type results.items } }
    {
        FuncType { params, results }
    }

    /// The types of the parameters.
    pub fn params(&self) -> &[ValType]
        ensures { map val_type result.now ≡ (func_type self.now).params }
    {
        &self.params
    }

    /// The types of the results.
    pub fn results(&self) -> &[ValType]
        ensures { map val_type result.now ≡ (func_type self.now).results }
    {
        &self.results
    }
}

/// A structure type.
#[derive(Debug, PartialEq, Eq, Hash, Drop)]
pub struct StructType {
    /// Its fields, in order.
    pub fields: Vec<FieldType>,
}

/// An array type: its elements.
#[derive(Clone, Copy, Debug, PartialEq, Eq, Hash)]
pub struct ArrayType(pub FieldType);

/// A continuation type: the function type that it goes on with.
#[derive(Clone, Copy, Debug, PartialEq, Eq, Hash)]
pub struct ContType(pub PackedIndex);

/// What a sub type is made of.
#[derive(Debug, PartialEq, Eq, Hash, Drop)]
pub enum CompositeType {
    /// Functions.
    Func(FuncType),
    /// Arrays.
    Array(ArrayType),
    /// Structures.
    Struct(StructType),
    /// Continuations.
    Cont(ContType),
}

impl CompositeType {
    ghost use Rattle.std.specs.Prelude.{◌≡◌, option_map};
    ghost use Rattle.std.specs.Option.{option_copied};
    ghost use Rattle.wasmparser_types.specs.ValTypes.{field_type};
    ghost use Rattle.wasmparser_types.specs.CompositeTypes.{func_type, struct_fields, composite_type, func_of, array_of, struct_of, cont_of};

    /// The function type, if this is one.
    pub fn as_func(&self) -> Option<&FuncType>
        ensures { option_map func_type (option_copied result) ≡ func_of (composite_type self.now) }
    {
        match self {
            CompositeType::Func(it) => Some(it),
            _ => None,
        }
    }

    /// The array type, if this is one.
    pub fn as_array(&self) -> Option<&ArrayType>
        ensures { option_map (λ type. field_type type.0) (option_copied result) ≡ array_of (composite_type self.now) }
    {
        match self {
            CompositeType::Array(it) => Some(it),
            _ => None,
        }
    }

    /// The structure type, if this is one.
    pub fn as_struct(&self) -> Option<&StructType>
        ensures { option_map struct_fields (option_copied result) ≡ struct_of (composite_type self.now) }
    {
        match self {
            CompositeType::Struct(it) => Some(it),
            _ => None,
        }
    }

    /// The continuation type, if this is one.
    pub fn as_cont(&self) -> Option<&ContType>
        ensures { option_map (λ type. type.0) (option_copied result) ≡ cont_of (composite_type self.now) }
    {
        match self {
            CompositeType::Cont(it) => Some(it),
            _ => None,
        }
    }
}
