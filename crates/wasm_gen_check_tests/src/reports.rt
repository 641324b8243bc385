//! The reports that are written of modules.

use std::alloc::Global;
use wasm_gen::run::run_report;
use wasm_gen::session::Session;
use wasm_gen_rows::modules::module_of;
use wasm_test_rows::fields::three_fields;

/// How many rows there are.
pub const COUNT: usize = 14;

/// Features, sections, and the lines of the report on their module, with a slash between them.
pub const ROWS: &str = "
    report     |                                |
    report     | types functions code           | type 0.0 final - func [] [] / index 0 0.0 / function 0 0.0
    report     | two-types                      | type 0.0 final - func [] [] / index 0 0.0 / index 1 0.0
    report     | types 02 1b 05 00 00 01 70 00 00 00 00 02 00 00 00 00 03 7f 00 00 00 03 7f 00 00 00 04 00 00 | type 0.0 final - func [] [] / index 0 0.0 / table 0 refnull(func) 0 - 32 / memory 0 0 - 32 plain - / global 0 const i32 / global 1 const i32 / tag 0 0.0
    report     | 01 0c 02 60 02 7f 7e 01 7f 60 02 7e 7f 00 functions 04 04 01 70 00 0a 05 04 01 01 01 05 0d 03 01 00 01 06 06 01 7f 01 41 00 0b 09 07 01 05 70 01 d2 00 0b code | type 0.0 final - func [i32 i64] [i32] / type 1.0 final - func [i64 i32] [] / index 0 0.0 / index 1 1.0 / function 0 0.0 / table 0 refnull(func) 10 - 32 / memory 0 1 5 32 plain - / global 0 var i32 / tag 0 1.0 / element 0 refnull(func)
    report     | 05 03 01 00 01 07 0a 02 01 22 02 00 02 62 63 02 00 | memory 0 1 - 32 plain - / export \"\\22\" memory 1 - 32 plain - / export \"bc\" memory 1 - 32 plain -
    report all | 01 11 02 4e 02 60 00 00 60 00 00 4e 02 60 00 00 60 00 00 | type 0.0 final - func [] [] / type 0.1 final - func [] [] / index 0 0.0 / index 1 0.1 / index 2 0.0 / index 3 0.1
    report all | 01 0a 01 50 00 5f 02 63 00 00 78 01 | type 0.0 open - struct [const:refnull(own.0) var:i8] / index 0 0.0
    // Two equal groups whose types refer to one another.
    report     | 01 19 02 4e 02 5f 01 63 01 00 5f 01 63 00 00 4e 02 5f 01 63 03 00 5f 01 63 02 00 | type 0.0 final - struct [const:refnull(own.1)] / type 0.1 final - struct [const:refnull(own.0)] / index 0 0.0 / index 1 0.1 / index 2 0.0 / index 3 0.1
    report     | types 02 07 01 01 6d 01 66 00 00 05 03 01 00 01 07 05 01 01 66 00 00 08 01 00 0c 01 01 0b 08 01 00 41 00 0b 02 68 69 00 03 01 63 07 | type 0.0 final - func [] [] / index 0 0.0 / function 0 0.0 / memory 0 1 - 32 plain - / export \"f\" function 0.0
    report     | types functions 0a 03 01 01 00 | no body
    report     | types 03 02 01 01 code         | no invalid
    report     | 01 05 01 60 00 00              | no malformed
    report     | types functions 0a 09 01 07 00 41 00 fd 0f 1a 0b | no operator
";

/// Checks that a text is these lines.
pub fn is_text_of(text: &[u8], lines: &str) -> bool {
    let mut rest = text;
    for line in lines.split(" / ") {
        let Some(end) = rest.strip_prefix(line.as_bytes()) else {
            return false;
        };
        // Lets the report on an empty module have no line.
        rest = match end.strip_prefix(b"\n") {
            Some(next) => next,
            None => return lines.is_empty() && end.is_empty(),
        };
    }
    rest.is_empty()
}

/// Writes the report on a module. Returns true where the module is valid, and none where there is no report.
pub fn put_report(
    alloc: Global,
    session: &mut Session,
    bytes: &[u8],
    written: &mut Vec<u8>,
) -> Option<bool> {
    let mut reader = bytes;
    run_report(alloc, session, &mut reader, written).ok()
}

/// Checks that the report of a row is written of its module.
pub fn has_report(alloc: Global, session: &mut Session, row: &str) -> Option<bool> {
    let (_, sections, report) = three_fields(row)?;
    let bytes = module_of(alloc, sections)?;
    let mut written = Vec::new(alloc);
    let is_valid = put_report(alloc, session, &bytes, &mut written)?;
    Some(is_valid != report.starts_with("no ") && is_text_of(&written, report))
}
