//! Types of numbers.

ghost use Rattle.std.specs.Prelude.{◌≡◌};
ghost use Rattle.wasm_bodies.specs.OperatorRows.{is_float, value_type};
ghost use Rattle.wasmparser_func_validator.specs.NumericForms.{number};
ghost use Rattle.wasmparser_types.specs.ValTypes.{val_type};

use wasmparser_types::val_type::ValType;

// The type of a number.
#[derive(Clone, Copy, Debug, PartialEq, Eq)]
pub(crate) enum NumberType {
    I32,
    I64,
    F32,
    F64,
}

impl NumberType {
    // Returns it as a value type.
    #[inline(always)]
    pub(crate) fn val_type(self) -> ValType
        ensures { val_type result ≡ value_type (number self) }
    {
        match self {
            NumberType::I32 => ValType::I32,
            NumberType::I64 => ValType::I64,
            NumberType::F32 => ValType::F32,
            NumberType::F64 => ValType::F64,
        }
    }

    #[inline(always)]
    pub(crate) fn is_float(self) -> bool
        ensures { result ≡ is_float (number self) }
    {
        match self {
            NumberType::I32 | NumberType::I64 => false,
            NumberType::F32 | NumberType::F64 => true,
        }
    }
}
