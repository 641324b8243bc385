//! Where in a module its error is said to stand.

use crate::rows::features_of;
use std::alloc::Global;
use std::test::Fail;
use wasm_core::features::WasmFeatures;
use wasm_gen::judge::{Error, ValidatorId};
use wasm_gen::session::Session;
use wasm_gen_explain::explain::explain;
use wasm_gen_rows::answers::refusal_of;
use wasm_gen_rows::modules::module_of;
use wasm_test_rows::fields::three_fields;
use wasm_test_rows::rows::check_rows;

// Features, the sections of a module, and the line on its error.
const ROWS: &str = "
    // The header, and a section's frame.
    default | 01 04 01 60 00 00 01 04 01 60 00 00                                                | at offset 14: section type
    default | 01 ff                                                                              | at offset 9: section type
    default | 01 05 01 60                                                                        | at offset 10: section type
    default | 01 04 81                                                                           | at offset 10: section type
    default | 0e 01 00                                                                           | at offset 10: section 14
    // Types: entries that don't read, too few of them, and too many bytes.
    default | 01 03 01 61 00                                                                     | at offset 12: section type, entry 0
    default | 01 05 02 60 00 00 61                                                               | at offset 15: section type, entry 1
    default | 01 04 02 60 00 00                                                                  | at offset 14: section type, entry 1
    default | 01 04 02 60 00 00 03 01 00                                                         | at offset 14: section type, entry 1
    default | 01 05 01 60 00 00 00                                                               | at offset 14: section type
    default | 01 05 01 50 01 00 60                                                               | at offset 15: section type, entry 0
    // Imports, alone and in groups.
    default | 02 05 01 00 00 00 05                                                               | at offset 11: section import, entry 0
    default | types 02 09 02 00 00 00 00 00 00 00 01                                             | at offset 21: section import, entry 1
    all     | types 02 0a 01 01 61 00 7f 01 01 62 05 00                                          | at offset 25: section import, entry 0
    all     | types 02 0e 02 00 00 00 00 01 61 00 7e 00 05 01 01 62                              | at offset 21: section import, entry 1
    // Functions, tables, memories, tags, globals, exports.
    default | types 03 03 02 00 01                                                               | at offset 18: section function, entry 1
    default | 04 05 01 70 01 02 01                                                               | at offset 11: section table, entry 0
    default | 04 07 02 70 00 00 7f 00 00                                                         | at offset 15: section table, entry 1
    all     | 05 cb 01 65 0001*101                                                               | at offset 212: section memory, entry 100; the limit Memories is 100
    default | 05 04 01 01 02 01                                                                  | at offset 11: section memory, entry 0
    default | types 0d 03 01 01 00                                                               | at offset 17: section tag, entry 0
    default | 0d 03 01 00 00                                                                     | at offset 11: section tag, entry 0
    default | 06 06 01 7f 00 42 00 0b                                                            | at offset 11: section global, entry 0
    default | 06 0b 02 7f 00 41 00 0b 7e 00 41 00 0b                                             | at offset 16: section global, entry 1
    default | 05 03 01 00 01 07 09 02 01 61 02 00 01 61 02 00                                    | at offset 20: section export, entry 1
    default | 07 01 01                                                                           | at offset 11: section export, entry 0
    default | 05 03 01 00 01 07 a7 8d 06 01 a1 8d 06 61*100001 02 00                             | at offset 18: section export, entry 0; the limit Name is 100000
    // The start function, segments and their count.
    default | types functions 08 01 01 code                                                      | at offset 20: section start
    default | types functions 08 02 00 00 code                                                   | at offset 21: section start
    default | types functions 04 04 01 70 00 01 09 07 01 00 41 00 0b 01 05 code                  | at offset 27: section element, entry 0
    default | 05 03 01 00 01 0b 07 01 00 41 00 0b 02 61                                          | at offset 21: section data, entry 0
    default | 05 03 01 00 01 0b 0a 02 00 41 00 0b 00 00 41 00 0b                                 | at offset 25: section data, entry 1
    default | 0c 01 01 0c 01 01                                                                  | at offset 11: section data count
    // Custom sections.
    default | 00 01 05                                                                           | at offset 10: section custom
    default | 00 00                                                                              | at offset 10: section custom
    default | 00 02 01 ff                                                                        | at offset 10: section custom
    // Bodies: their sizes, locals and operators.
    default | types functions 0a 04 01 05 00 0b                                                  | at offset 22: function 0
    default | types functions 0a 06 01 02 00 0b 00 00                                            | at offset 24: section code
    default | types functions 0a 06 01 04 01 01 00 0b                                            | at offset 23: function 0, locals
    default | types functions 0a 08 01 06 01 d1 86 03 7f 0b                                      | at offset 23: function 0, locals; the limit Locals is 50000
    default | types functions 0a 05 01 03 00 6a 0b                                               | at offset 23: function 0, operator 0 (i32.add)
    default | two-types two-functions 0a 09 02 02 00 0b 04 00 41 00 0b                           | at offset 32: function 1, operator 1 (end)
    default | two-types two-functions 0a 0a 02 02 00 0b 05 00 01 41 00 0b                        | at offset 33: function 1, operator 2 (end)
    default | types functions 0a 08 01 06 00 fc 0a 00 00 0b                                      | at offset 23: function 0, operator 0 (memory.copy)
    default | types functions 0a 06 01 04 00 0e 05 00                                            | at offset 26: function 0, operator 0 (br_table)
    default | types functions 0a 05 01 03 00 ff 0b                                               | at offset 24: function 0, operator 0
    default | types functions 0a 06 01 04 00 fc 7f 0b                                            | at offset 25: function 0, operator 0
    default | types functions 0a 04 01 02 00 01                                                  | at offset 24: function 0, operator 1
    default | types functions 0a 06 01 04 00 02 40 0b                                            | at offset 26: function 0, operator 2
    default | types functions 0a 06 01 04 00 0b 01 0b                                            | at offset 24: function 0, operator 1 (nop)
    default | types two-functions 0a 08 02 02 00 0b 03 00 6a 0b                                  | at offset 27: function 1, operator 0 (i32.add)
    // Imported functions come first.
    default | types 02 05 01 00 00 00 00 functions 0a 05 01 03 00 6a 0b                          | at offset 30: function 1, operator 0 (i32.add)
    default | types 02 09 02 00 00 00 00 00 00 00 00 two-functions 0a 08 02 02 00 0b 03 00 01 6a | at offset 39: function 3, operator 1 (i32.add)
    default | types 02 0a 02 00 00 00 00 00 00 02 00 01 functions 0a 05 01 03 00 6a 0b           | at offset 35: function 1, operator 0 (i32.add)
    all     | types 02 0a 01 01 61 00 7f 01 01 62 00 00 functions 0a 05 01 03 00 6a 0b           | at offset 35: function 1, operator 0 (i32.add)
    all     | types 02 0c 01 01 61 00 7e 00 00 02 01 62 01 63 functions 0a 05 01 03 00 6a 0b     | at offset 37: function 2, operator 0 (i32.add)
    // The end, whose counts don't agree.
    default | types functions                                                                    | at offset 18: end
    default | types functions 0c 01 01 code                                                      | at offset 28: end
";

// Returns why a new session refuses a module.
fn refusal(alloc: Global, features: WasmFeatures, bytes: &[u8]) -> Option<Error> {
    let mut session = Session::new(alloc, features, ValidatorId::new(0));
    let refusal = refusal_of(&mut session, bytes);
    drop(session);
    refusal
}

// Checks that a row holds.
fn holds(alloc: Global, row: &str) -> Option<bool> {
    let (way, sections, expected) = three_fields(row)?;
    let features = features_of(way)?;
    let bytes = module_of(alloc, sections)?;
    let error = refusal(alloc, features, &bytes)?;
    let line = explain(alloc, &bytes, features, &error).ok()?;
    Some(line.as_str() == expected)
}

#[test]
fn errors_stand_there(rt: HostRuntime) -> Result<(), Fail> {
    check_rows(rt.alloc(), ROWS, 58, holds)?;
    Ok(())
}
