//! Stacks after calls.

use crate::stack_calls::{call_all, letter_of, push_state};
use std::alloc::Global;
use std::test::Fail;
use wasm_test_rows::fields::{three_fields, word_and_rest};
use wasm_test_rows::rows::check_rows;
use wasmparser_bodies::stacks::Stacks;
use wasmparser_types::val_type::ValType;

// The question, the calls, and the answer: of `state` the operands, the open blocks and the assigned locals afterwards.
const CALLS: &str = "
    // operands of one list
    state | il | li||
    state | il? | ?li||
    state | ilr | rli||
    state | ilf | fli||
    state | ilp | i||
    state | p | ||
    state | iI | ||
    state | ifF | i||
    state | ilI | li||
    state | ifI | fi||
    state | ?I | ?||
    state | il2 | ||
    state | i2 | ||
    state | fil2 | f||
    state | ils | lli||
    state | s | ll||
    state | ilfS | l||
    state | iS | l||
    state | filt | rif||
    state | t | ri||

    // blocks
    state | b | |b0|
    state | ib | i|b1|
    state | ibl2 | i|b1|
    state | ibp | i|b1|
    state | ibI | i|b1|
    state | iblflpt | rii|b1|
    state | io | i|o0|
    state | bo | i|o0b0|
    state | lilc | lil|c1|
    state | bic | li|c0b0|
    state | biibc | liii|c2b2b0|
    state | cl) | ||
    state | fcl] | ii||
    state | ffcll] | ii||
    state | ibl) | i||
    state | bib) | i|b0|
    state | ) | ||
    state | ] | ||
    state | e | ||
    state | E | ||
    state | cife | |e0|
    state | fficfE | lf|e1|
    state | bicixE | l|e0b0|

    // what is never reached
    state | ibu | i|b1!|
    state | ibllu | i|b1!|
    state | ibup | i|b1!|
    state | ibu2 | i|b1!|
    state | ibuI | i|b1!|
    state | ibus | lli|b1!|
    state | ibut | rii|b1!|
    state | buc | li|c0b0!|
    state | bucu | |c0!b0!|
    state | bucuE | l|e0b0!|
    state | bucu] | ii|b0!|
    state | u | ||

    // assigned locals
    state | x | ||x
    state | yx | ||xy
    state | xx | ||x
    state | bx | |b0|x
    state | bx) | ||
    state | xby) | ||x
    state | xbybx)] | ii||x
    state | xbybx) | |b0|xy
    state | xcyE | l|e0|x
    state | yby) | ||y
    state | bxubx)y | |b0!|xy
    state | iz | l||z
    state | z | l||z
    state | ilz | li||z
    state | xzz | l||xz
    state | bz) | ||
    state | izbizy)x | l||xz

    // another body
    state | ilbxux. | ||
    state | xy.y | ||y
    state | yx.xb. | ||

    // what lies below none, one, two and three operands, and how many are known
    look |  | ---- 0
    look | i | i--- 1
    look | lif | fil- 3
    look | lib | ---- 0
    look | libf? | ?f-- 2
    look | libu | ???? 0
    look | libuf | f??? 1
    look | liburi | ir?? 2
    look | libufb | ---- 0
    look | libufb) | f??? 1

    // how many others stand after operands of types i32 and i64 that are known, each in turn where there are several
    known | il | 0
    known | ili | 1
    known | iil | 0
    known | ililf | 13
    known | ililil | 024
    known | li |
    known | i |
    known | l |
    known | ibl |
    known | ilb |
    known | ilbil | 0
    known | bui |
    known | bul |
    known | buil | 0
    known | bui? |
    known | f?l |
";

// Checks that the operands, the open blocks and the assigned locals are these.
fn is_state(alloc: Global, stacks: &Stacks, expected: &str) -> bool {
    let mut text = String::new(alloc);
    let is_written = push_state(&mut text, stacks).is_ok();
    is_written && text.as_str() == expected && stacks.is_closed() == expected.contains("||")
}

fn looks(stacks: &mut Stacks, letters: &str, known: &str) -> Option<bool> {
    let mut is_right = known.parse::<usize>().ok() == Some(stacks.known_len());
    for (depth, letter) in letters.chars().enumerate() {
        is_right = is_right && letter_of(stacks.peek(depth)) == letter;
    }
    let next = letters.chars().next()?;
    Some(is_right && letter_of(stacks.pop()) == next)
}

fn knows(stacks: &Stacks, depths: &str) -> Option<bool> {
    let types = [ValType::I32, ValType::I64];
    for depth in 0..6 {
        let digit = char::from_digit(depth as u32, 10)?;
        if stacks.are_known(depth, &types) != depths.contains(digit) {
            return Some(false);
        }
    }
    Some(stacks.are_known(9, &[]))
}

fn row_holds(alloc: Global, stacks: &mut Stacks, row: &str) -> Option<bool> {
    let (question, calls, answer) = three_fields(row)?;
    call_all(stacks, calls).ok()?;
    match question {
        "state" => Some(is_state(alloc, stacks, answer)),
        "look" => {
            let (letters, known) = word_and_rest(answer);
            looks(stacks, letters, known)
        }
        "known" => knows(stacks, answer),
        _ => None,
    }
}

fn holds(alloc: Global, row: &str) -> Option<bool> {
    let mut stacks = Stacks::new(alloc);
    let holds = row_holds(alloc, &mut stacks, row);
    drop(stacks);
    holds
}

#[test]
fn calls_change_the_stacks(rt: HostRuntime) -> Result<(), Fail> {
    Ok(check_rows(rt.alloc(), CALLS, 101, holds)?)
}
