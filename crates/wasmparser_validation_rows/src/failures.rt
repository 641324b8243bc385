//! Validators that have failed.

use wasmparser_bodies::module_resources::WasmModuleResources;
use wasmparser_error::error::{Error, ErrorKind};
use wasmparser_func_validator::func_validator::FuncValidator;
use wasmparser_operators::operator::Operator;
use wasmparser_types::val_type::ValType;

/// Checks that this is a refusal after another one.
pub fn is_failed(answer: Result<(), Error>, place: u64) -> bool {
    match answer {
        Ok(()) => false,
        Err(Error { offset, kind }) => offset == place && kind == ErrorKind::Failed,
    }
}

/// Checks that nothing is told, and all is refused.
pub fn has_failed<R: WasmModuleResources>(validator: &mut FuncValidator<R>) -> bool {
    let tells_nothing = validator.operand_stack_height() == 0
        && validator.control_stack_height() == 0
        && validator.len_locals() == 0
        && validator.get_local_type(0).is_none()
        && validator.get_operand_type(0).is_none()
        && validator.get_control_frame(0).is_none();
    tells_nothing
        && is_failed(validator.op(9, &Operator::Nop), 9)
        && is_failed(validator.try_op(8, &Operator::Nop), 8)
        && is_failed(validator.define_locals(7, 1, ValType::I32), 7)
}
