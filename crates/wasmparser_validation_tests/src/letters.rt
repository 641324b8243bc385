//! Operators that tests begin with, as letters.

use std::alloc::Global;
use wasm_test_rows::fields::three_fields;
use wasm_test_rows::values::bytes_of;
use wasmparser_type_words::types::val_type_of;
use wasmparser_types::val_type::ValType;

// Letters of operands, types, and operators that give such operands.
const OPERANDS: &str = "i | i32 | 4100
    l | i64 | 4200
    f | f32 | 4300000000
    d | f64 | 440000000000000000
    v | v128 | fd0c00000000000000000000000000000000
    F | funcref | d070
    G | func | d070 d4
    E | externref | d06f
    A | anyref | d06e
    Q | eqref | d06d
    K | i31ref | d06c
    N | #1 | d200
    n | #1? | d000
    M | #4 | d202
    m | #2? | d001
    S | #3 | fb0103
    Y | #0 | 4100 fb0704
    P | #8 | 4100 fb0009
    p | #8? | d009
    C | #9 | 4100 4200 fb000a";

// Letters of other operators. What never goes on; blocks without a type, of a value and of a function type; their ends and second lists; an
// operand that is dropped; and a local that is set.
const OTHERS: &str = "? | | 00
    J | | 4100 fb1c
    R | | d4
    [ | | 0240
    { | | 0340
    < | | 0440
    ( | | 026309
    B | | 027f
    D | | 027c
    > | | 047f
    @ | | 0201
    % | | 0301
    ~ | | 0307
    ^ | | 0407
    ] | | 0b
    / | | 05
    z | | 1a
    x | | 2103
    X | | 2203";

// Returns the bytes of a letter, if it is one of the table.
fn bytes_in(alloc: Global, table: &str, letter: char) -> Option<Vec<u8>> {
    for row in table.lines() {
        let (name, _, bytes) = three_fields(row)?;
        if name.starts_with(letter) {
            return bytes_of(alloc, bytes);
        }
    }
    None
}

fn bytes_of_letter(alloc: Global, letter: char) -> Option<Vec<u8>> {
    match bytes_in(alloc, OPERANDS, letter) {
        Some(bytes) => Some(bytes),
        None => bytes_in(alloc, OTHERS, letter),
    }
}

fn push_letter(alloc: Global, bytes: &mut Vec<u8>, letter: char) -> Option<()> {
    let others = bytes_of_letter(alloc, letter)?;
    bytes.extend_from_slice(&others).ok()
}

fn push_letters(alloc: Global, bytes: &mut Vec<u8>, letters: &str) -> Option<()> {
    for letter in letters.chars() {
        push_letter(alloc, bytes, letter)?;
    }
    Some(())
}

/// Returns the operators of some letters, as bytes.
pub fn bytes_of_letters(alloc: Global, letters: &str) -> Option<Vec<u8>> {
    let mut bytes = Vec::new(alloc);
    push_letters(alloc, &mut bytes, letters)?;
    Some(bytes)
}

/// Returns the letter of a type, `*` where no operand of the table has it.
pub fn letter_of(ty: &ValType) -> Option<char> {
    for row in OPERANDS.lines() {
        let (letter, word, _) = three_fields(row)?;
        if val_type_of(word) == Some(*ty) {
            return letter.chars().next();
        }
    }
    Some('*')
}
