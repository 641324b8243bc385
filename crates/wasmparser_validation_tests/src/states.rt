//! The state of a validator, as text.

use crate::letters::letter_of;
use crate::stack_calls::kind_of;
use std::alloc::Global;
use wasmparser_bodies::frame::Frame;
use wasmparser_bodies::module_resources::WasmModuleResources;
use wasmparser_func_validator::func_validator::FuncValidator;
use wasmparser_operators::immediates::BlockType;

// Appends the known operands, the last one last.
fn push_operands<R: WasmModuleResources>(
    text: &mut String,
    validator: &FuncValidator<R>,
) -> Option<()> {
    let height = validator.operand_stack_height();
    for place in 0..height {
        let letter = match validator.get_operand_type(height - 1 - place)? {
            Some(ty) => letter_of(&ty)?,
            None => '?',
        };
        text.push(letter).ok()?;
    }
    Some(())
}

fn push_number(alloc: Global, text: &mut String, number: usize) -> Option<()> {
    let digits = format!(in alloc; "{number}").ok()?;
    text.push_str(&digits).ok()
}

// Appends an open block: its kind, its type, its height, and whether the rest isn't reached.
fn push_frame(alloc: Global, text: &mut String, frame: &Frame) -> Option<()> {
    text.push(kind_of(frame)).ok()?;
    match &frame.block_type {
        BlockType::Empty => {}
        BlockType::Type(ty) => text.push(letter_of(ty)?).ok()?,
        BlockType::FuncType(index) => push_number(alloc, text, *index as usize)?,
    }
    text.push(':').ok()?;
    push_number(alloc, text, frame.height)?;
    if frame.unreachable {
        text.push('!').ok()?;
    }
    Some(())
}

// Appends the open blocks, the innermost one first.
fn push_blocks<R: WasmModuleResources>(
    alloc: Global,
    text: &mut String,
    validator: &FuncValidator<R>,
) -> Option<()> {
    for depth in 0..validator.control_stack_height() {
        if depth > 0 {
            text.push(' ').ok()?;
        }
        push_frame(alloc, text, validator.get_control_frame(depth)?)?;
    }
    Some(())
}

// Appends the types of the locals.
fn push_locals<R: WasmModuleResources>(
    text: &mut String,
    validator: &FuncValidator<R>,
) -> Option<()> {
    for index in 0..validator.len_locals() {
        text.push(letter_of(&validator.get_local_type(index)?)?)
            .ok()?;
    }
    Some(())
}

fn push_state<R: WasmModuleResources>(
    alloc: Global,
    text: &mut String,
    validator: &FuncValidator<R>,
) -> Option<()> {
    push_operands(text, validator)?;
    text.push_str(", ").ok()?;
    push_blocks(alloc, text, validator)?;
    text.push_str(" | ").ok()?;
    push_locals(text, validator)
}

/// Returns operands, open blocks and locals as text.
pub fn state_of<R: WasmModuleResources>(
    alloc: Global,
    validator: &FuncValidator<R>,
) -> Option<String> {
    let mut text = String::new(alloc);
    push_state(alloc, &mut text, validator)?;
    Some(text)
}

/// Checks that these are the operands.
pub fn are_operands<R: WasmModuleResources>(
    alloc: Global,
    validator: &FuncValidator<R>,
    expected: &str,
) -> bool {
    let mut text = String::new(alloc);
    push_operands(&mut text, validator).is_some() && text.as_str() == expected
}

/// Checks that operands, open blocks and locals are these.
pub fn is_state<R: WasmModuleResources>(
    alloc: Global,
    validator: &FuncValidator<R>,
    expected: &str,
) -> bool {
    let mut text = String::new(alloc);
    push_state(alloc, &mut text, validator).is_some() && text.as_str() == expected
}
