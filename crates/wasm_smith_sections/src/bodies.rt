//! The code section (Core Specification 3.0, Binary Format, Modules, "Code Section").

ghost use Rattle.std.specs.Prelude.{◌≡◌, ◌⊎◌, ◌≤◌, ◌^◌, length, map, ℕ, List, None, Some, IfOk, IfErr};
ghost use Rattle.wasm_core_types.specs.CoreTypes.{val_type};
ghost use Rattle.wasm_smith_definitions.specs.Items.{made_body};
ghost use Rattle.wasm_smith_sections.specs.ModuleEncoding.{AreBodyEncodings, HasLongFront, IsBodyEncoding, SomeHaveLongFront};

use std::alloc::Global;
use wasm_core_types::types::ValType;
use wasm_core_write::encode_error::EncodeError;
use wasm_encoder_bodies::function::Function;
use wasm_encoder_expression_sections::code_section::CodeSection;
use wasm_encoder_instructions::instruction::Instruction;
use wasm_smith_definitions::code::{Code, Instructions};

// Returns a body of these locals and the operator `unreachable`.
fn unreachable_body(alloc: Global, locals: &[ValType]) -> Result<Function, EncodeError>
    ensures written { IfOk result (λ body. IsBodyEncoding (record { locals = map val_type locals.now; raw = None }) body) }
    ensures too_long { IfErr result (λ e. e ≡ EncodeError.TooLong → HasLongFront (map val_type locals.now)) }
{
    let mut body = Function::new_with_locals_types(alloc, locals.iter().copied())?;
    body.push(&Instruction::Unreachable)?;
    body.push(&Instruction::End)?;
    Ok(body)
}

// Returns a body of these locals and raw bytes.
fn raw_body(alloc: Global, locals: &[ValType], bytes: &[u8]) -> Result<Function, EncodeError>
    ensures written { IfOk result (λ body. IsBodyEncoding (record { locals = map val_type locals.now; raw = Some bytes.now }) body) }
    ensures too_long { IfErr result (λ e. e ≡ EncodeError.TooLong → HasLongFront (map val_type locals.now)) }
{
    let mut body = Function::new_with_locals_types(alloc, locals.iter().copied())?;
    body.push_raw(bytes)?;
    Ok(body)
}

// Returns a body.
fn body(alloc: Global, code: &Code) -> Result<Function, EncodeError>
    ensures written { IfOk result (λ body. IsBodyEncoding (made_body code.now) body) }
    ensures too_long { IfErr result (λ e. e ≡ EncodeError.TooLong → HasLongFront (made_body code.now).locals) }
{
    match &code.instructions {
        Instructions::Unreachable => unreachable_body(alloc, &code.locals),
        Instructions::Raw(bytes) => raw_body(alloc, &code.locals, bytes),
    }
}

/// Returns the length of the encoding of a body of these locals and raw bytes.
///
/// # Errors
/// `TooLong` only where the locals have more than 4,294,967,295 runs or a longer run, and else `Memory`.
pub fn raw_body_len(alloc: Global, locals: &[ValType], bytes: &[u8]) -> Result<usize, EncodeError>
    ensures exact { IfOk result (λ len. (encoding : List ℕ) × IsBodyEncoding (record { locals = map val_type locals.now; raw = Some bytes.now }) encoding × (len ≡ length encoding)) }
    ensures too_long { IfErr result (λ e. e ≡ EncodeError.TooLong → HasLongFront (map val_type locals.now)) }
{
    let front = Function::new_with_locals_types(alloc, locals.iter().copied())?;
    Ok(front.byte_len() + bytes.len())
}

/// Returns the code section: the body of each function.
///
/// # Errors
/// `TooLong` only where there are more than 4,294,967,295 functions, or the locals of one of them have more runs than that or a longer run, and else
/// `Memory`.
pub fn code_section(alloc: Global, bodies: &[Code]) -> Result<CodeSection, EncodeError>
    ensures kept { IfOk result (λ section. AreBodyEncodings (map made_body bodies.now) section) }
    ensures too_long { IfErr result (λ e. e ≡ EncodeError.TooLong → (2 ^ 32 ≤ length bodies.now) ⊎ SomeHaveLongFront (map made_body bodies.now)) }
{
    let mut section = CodeSection::new(alloc);
    for own in bodies {
        section.push(&body(alloc, own)?)?;
    }
    Ok(section)
}
