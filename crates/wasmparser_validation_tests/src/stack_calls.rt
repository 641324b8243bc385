//! Calls on stacks as letters, and what the stacks hold as text.

use std::alloc::AllocError;
use wasmparser_bodies::frame::{Frame, FrameKind};
use wasmparser_bodies::operand::Operand;
use wasmparser_bodies::stacks::Stacks;
use wasmparser_operators::immediates::BlockType;
use wasmparser_types::val_type::ValType;

// A local past those that the places are first made for.
const FAR: u32 = 70_000;

// Does what puts operands on top, or takes some.
fn call_on_operands(stacks: &mut Stacks, letter: char) -> Result<(), AllocError> {
    match letter {
        'i' => stacks.push_known(ValType::I32),
        'l' => stacks.push_known(ValType::I64),
        'f' => stacks.push(Operand::Known(ValType::FUNCREF)),
        '?' => stacks.push(Operand::Unknown),
        'r' => stacks.push(Operand::UnknownRef),
        'I' => {
            stacks.pop_known(&ValType::I32);
            Ok(())
        }
        'F' => {
            stacks.pop_known(&ValType::FUNCREF);
            Ok(())
        }
        'p' => {
            stacks.pop();
            Ok(())
        }
        '2' => {
            stacks.lower(2);
            Ok(())
        }
        's' => stacks.replace(1, &[ValType::I64, ValType::I64]),
        'S' => stacks.replace(3, &[ValType::I64]),
        _ => stacks.replace_with(2, &[ValType::I32], &Operand::UnknownRef),
    }
}

// Does what opens, parts or closes a block, or assigns a local.
fn call_on_blocks(stacks: &mut Stacks, letter: char) -> Result<(), AllocError> {
    match letter {
        'b' => stacks.enter(FrameKind::Block, BlockType::Empty, 0, &[]),
        'o' => stacks.enter(FrameKind::Loop, BlockType::FuncType(3), 1, &[ValType::I32]),
        'c' => {
            let params = [ValType::I32, ValType::I64];
            stacks.enter(FrameKind::If, BlockType::Type(ValType::I32), 2, &params)
        }
        'e' => stacks.else_(&[]),
        'E' => stacks.else_(&[ValType::I64]),
        ')' => stacks.leave(&[]),
        ']' => stacks.leave(&[ValType::I32, ValType::I32]),
        'u' => {
            if !stacks.is_closed() {
                stacks.mark_unreachable();
            }
            Ok(())
        }
        'x' => stacks.assign(0),
        'y' => stacks.assign(FAR),
        'z' => stacks.replace_and_assign(1, &[ValType::I64], 1),
        _ => {
            stacks.reset();
            Ok(())
        }
    }
}

/// Does the calls of some letters.
pub fn call_all(stacks: &mut Stacks, letters: &str) -> Result<(), AllocError> {
    for letter in letters.chars() {
        if "ilf?rIFp2sSt".contains(letter) {
            call_on_operands(stacks, letter)?;
        } else {
            call_on_blocks(stacks, letter)?;
        }
    }
    Ok(())
}

/// Returns the letter of an operand, `-` where there is none.
pub fn letter_of(operand: Option<Operand>) -> char {
    match operand {
        Some(Operand::Known(ValType::I32)) => 'i',
        Some(Operand::Known(ValType::I64)) => 'l',
        Some(Operand::Known(_)) => 'f',
        Some(Operand::Unknown) => '?',
        Some(Operand::UnknownRef) => 'r',
        None => '-',
    }
}

// Appends the known operands, the last one first.
fn push_operands(text: &mut String, stacks: &Stacks) -> Result<(), AllocError> {
    for depth in 0..stacks.operand_count() {
        text.push(letter_of(stacks.operand_at(depth)))?;
    }
    Ok(())
}

/// Returns the letter of a block's kind.
pub fn kind_of(frame: &Frame) -> char {
    match frame.kind {
        FrameKind::Block => 'b',
        FrameKind::Loop => 'o',
        FrameKind::If => 'c',
        FrameKind::Else => 'e',
    }
}

fn digit_of(number: usize) -> char {
    let digit = u32::try_from(number).unwrap_or(u32::MAX);
    char::from_digit(digit, 10).unwrap_or('-')
}

fn push_frame(text: &mut String, frame: &Frame) -> Result<(), AllocError> {
    text.push(kind_of(frame))?;
    text.push(digit_of(frame.height))?;
    if frame.unreachable {
        text.push('!')?;
    }
    Ok(())
}

// Appends the open blocks, the innermost one first: kind, height, and whether the rest isn't reached.
fn push_blocks(text: &mut String, stacks: &Stacks) -> Result<(), AllocError> {
    for depth in 0..stacks.frame_count() {
        if let Some(frame) = stacks.frame_at(depth) {
            push_frame(text, frame)?;
        }
    }
    Ok(())
}

// Appends the letters of the locals that are assigned.
fn push_assigned(text: &mut String, stacks: &Stacks) -> Result<(), AllocError> {
    for (local, letter) in [(0, 'x'), (1, 'z'), (FAR, 'y'), (FAR - 1, '-')] {
        if stacks.is_assigned(local) {
            text.push(letter)?;
        }
    }
    Ok(())
}

/// Appends the operands, the open blocks and the assigned locals, each after a `|` but the first.
pub fn push_state(text: &mut String, stacks: &Stacks) -> Result<(), AllocError> {
    push_operands(text, stacks)?;
    text.push('|')?;
    push_blocks(text, stacks)?;
    text.push('|')?;
    push_assigned(text, stacks)
}
