//! Global sections.

use crate::entries::{Rows, row};
use crate::expressions::{expression_of, reference_of};
use std::alloc::Global;
use std::test::Fail;
use wasm_core_types::types::ValType;
use wasm_encoder_expression_sections::global_section::GlobalSection;
use wasm_encoder_sections::entity_type::GlobalType;
use wasm_test_rows::fields::word_and_rest;
use wasm_test_rows::rows::check_rows;
use wasm_test_rows::values::bytes_of;

fn value_of(name: &str) -> Option<ValType> {
    match name {
        "i32" => Some(ValType::I32),
        "i64" => Some(ValType::I64),
        "f32" => Some(ValType::F32),
        "f64" => Some(ValType::F64),
        "v128" => Some(ValType::V128),
        _ => Some(ValType::Ref(reference_of(name)?)),
    }
}

fn add_raw(alloc: Global, section: &mut GlobalSection, bytes: &str) -> Option<()> {
    let bytes = bytes_of(alloc, bytes)?;
    if section.raw(&bytes).is_err() {
        return None;
    }
    Some(())
}

fn add_typed(alloc: Global, section: &mut GlobalSection, name: &str, rest: &str) -> Option<()> {
    let (mutability, init) = word_and_rest(rest);
    let ty = GlobalType {
        val_type: value_of(name)?,
        mutable: mutability == "var",
    };
    let init = expression_of(alloc, init)?;
    if section.global(ty, &init).is_err() {
        return None;
    }
    Some(())
}

impl Rows for GlobalSection {
    fn empty(alloc: Global) -> GlobalSection {
        GlobalSection::new(alloc)
    }

    // `raw` and bytes, or a type, whether it is a `var` or a `const`, and the operators of an expression.
    fn add(&mut self, alloc: Global, entry: &str) -> Option<()> {
        let (name, rest) = word_and_rest(entry);
        if name == "raw" {
            return add_raw(alloc, self, rest);
        }
        add_typed(alloc, self, name, rest)
    }
}

/// Globals, how long each is, and the section.
pub const GLOBALS: &str = "
    | | 06 01 00
    i32 var 41 00 | 5 | 06 06 01 7f 01 41 00 0b
    i64 const 42 00 ; raw 7f 00 23 00 0b | 5 5 | 06 0b 02 7e 00 42 00 0b 7f 00 23 00 0b
    i32 const 41 80 01 41 01 6a | 9 | 06 0a 01 7f 00 41 80 01 41 01 6a 0b
    f32 const 43 00*4 | 8 | 06 09 01 7d 00 43 00*4 0b
    f64 const 44 00*8 | 12 | 06 0d 01 7c 00 44 00*8 0b
    externref var d0 6f ; func const d2 40 | 5 6 | 06 0c 02 6f 01 d0 6f 0b 64 70 00 d2 40 0b
    v128 const fd 0c 00*16 | 21 | 06 16 01 7b 00 fd 0c 00*16 0b
";

#[test]
fn global_sections(rt: HostRuntime) -> Result<(), Fail> {
    check_rows(rt.alloc(), GLOBALS, 8, row::<GlobalSection>)?;
    Ok(())
}
