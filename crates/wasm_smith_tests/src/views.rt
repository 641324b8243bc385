//! Views of modules, by their text.

use crate::module::new_module;
use crate::shaped::shaped_config;
use std::alloc::Global;
use std::test::Fail;
use wasm_gen_view::module_view::view_of_module;
use wasm_smith::config::Config;
use wasm_test_rows::fields::four_fields;
use wasm_test_rows::rows::check_rows;
use wasm_test_rows::values::bytes_of;

/// Settings of the default configuration, its shapes, the bytes, and the lines of the view of the module that is made.
pub const SHOWN: &str = "
    | | |
    // Two equal groups whose types refer to one another, and one that refers to the first.
    | module struct 1?, struct 0? ; struct 3?, struct 2? ; array 2? ; / / | | type 0.0 final - struct [const:refnull(own.1)] ; type 0.1 final - struct [const:refnull(own.0)] ; type 1.0 final - array const:refnull(0.0) ; index 0 0.0 ; index 1 0.1 ; index 2 0.0 ; index 3 0.1 ; index 4 1.0
    | module open struct i8 ; sub 0 struct i8 mut:1?, func 0 -> ; / one m g global 1? ; / h global 2? | | type 0.0 open - struct [const:i8] ; type 1.0 final 0.0 struct [const:i8 var:refnull(own.0)] ; type 1.1 final - func [ref(0.0)] [] ; index 0 0.0 ; index 1 1.0 ; index 2 1.1 ; global 0 const refnull(1.0) ; global 1 const refnull(1.1) ; export \"h\" global const refnull(1.1)
    | module func -> ; / / f func 0, t table func 0.. | | type 0.0 final - func [] [] ; index 0 0.0 ; function 0 0.0 ; table 0 ref(func) 0 - 32 ; export \"f\" function 0.0 ; export \"t\" table ref(func) 0 - 32
    // Imported items come first, and types of shapes stand behind a structure that is drawn.
    | imports struct ; func -> ; / one m t table 0? 0.. ; one m f func 1 ; one m g global 0? ; one m e tag 1 ; / | 01 00 00 01 00 00 01 01 01 01 | type 0.0 final - struct [] ; type 1.0 final - func [] [] ; index 0 0.0 ; index 1 0.0 ; index 2 1.0 ; function 0 1.0 ; table 0 refnull(0.0) 0 - 32 ; global 0 const refnull(0.0) ; tag 0 1.0
    | exports func -> ; / / f func 0, t tag 0, u table func? 1.., m memory 2.., g global i64 | 01 00 00 01 00 00 | type 0.0 final - struct [] ; type 1.0 final - func [] [] ; index 0 0.0 ; index 1 1.0 ; function 0 1.0 ; table 0 refnull(func) 1 - 32 ; memory 0 2 - 32 plain - ; global 0 const i64 ; tag 0 1.0 ; export \"f\" function 1.0 ; export \"t\" tag 1.0 ; export \"u\" table refnull(func) 1 - 32 ; export \"m\" memory 2 - 32 plain - ; export \"g\" global const i64
";

// Checks that a text has these lines.
fn has_lines(text: &str, expected: &str) -> bool {
    let mut lines = text.lines();
    for line in expected.split(';') {
        if !line.trim().is_empty() && lines.next() != Some(line.trim()) {
            return false;
        }
    }
    lines.next().is_none()
}

/// Checks that the view of the module that is made is shown so. None where memory runs out.
pub fn is_shown(alloc: Global, config: &Config, bytes: &[u8], expected: &str) -> Option<bool> {
    let module = new_module(alloc, config, bytes).ok()?;
    let view = view_of_module(alloc, &module).ok()?;
    let text = view.text(alloc).ok()?;
    Some(has_lines(text.as_str(), expected))
}

fn holds(alloc: Global, row: &str) -> Option<bool> {
    let (settings, shapes, bytes, expected) = four_fields(row)?;
    let config = shaped_config(alloc, settings, shapes)?;
    is_shown(alloc, &config, &bytes_of(alloc, bytes)?, expected)
}

#[test]
fn modules_are_shown_so(rt: HostRuntime) -> Result<(), Fail> {
    Ok(check_rows(rt.alloc(), SHOWN, 6, holds)?)
}
