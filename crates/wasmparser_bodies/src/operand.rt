//! Operands of bodies (Core Specification 3.0, appendix "Validation Algorithm").

use wasmparser_types::val_type::ValType;

/// The type of an operand, as far as it is known.
#[derive(Clone, Copy, Debug, PartialEq, Eq)]
pub enum Operand {
    /// It has this type.
    Known(ValType),
    /// Nothing is known of it: it stands where code is never reached.
    Unknown,
    /// It is a reference that isn't null, where code is never reached.
    UnknownRef,
}
