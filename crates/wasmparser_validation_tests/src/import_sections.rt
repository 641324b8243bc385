//! Import sections that are judged entry by entry, as other sections are (`sections` says what a row is).

use crate::sections::holds;
use std::test::Fail;
use wasm_test_rows::rows::check_rows;

const ENTRIES: &str = "
    // entries of import sections
    | import_entries 00 | yes
    | import_entries 01 01 6d 01 61 02 00 01 | yes
    | import_entries 01 01 6d 01 61 00 00 | invalid
    | types 01 60 00 00; import_entries 02 00 00 00 00 00 00 00 00; start 1 | yes
    | types 01 60 00 00; import_entries 02 00 00 00 00 00 00 00 00; start 2 | invalid
    | import_entries 01 01 6d 01 61 02 01 02 01 | invalid
    | import_entries 01 00 00 01 63 80 80 c0 00 00 00 | invalid
    | import_entries 01 01 6d 01 61 02 00 | malformed
    | import_entries 01 01 6d 01 61 02 00 01 00 | malformed
    -multi_memory | import_entries 02 00 00 02 00 00 00 00 02 00 00 | invalid
    -multi_memory | import_entries 01 00 00 02 00 00; import_entries 01 00 00 02 00 00 | invalid

    // groups of imports
    | import_entries 01 01 6d 00 7f 01 01 61 02 00 01 | malformed
    | import_entries 01 01 6d 00 7e 02 00 01 02 01 61 01 62 | malformed
    compact_imports | import_entries 01 01 6d 00 7f 01 01 61 02 00 01 | yes
    compact_imports | import_entries 01 01 6d 00 7e 02 00 01 02 01 61 01 62 | yes
    compact_imports | import_entries 01 01 6d 01 61 02 00 01 | yes
    compact_imports -multi_memory | import_entries 01 01 6d 00 7f 01 01 61 02 00 01 | yes
    compact_imports -multi_memory | import_entries 01 01 6d 00 7f 02 01 61 02 00 01 01 62 02 00 01 | invalid
    compact_imports -multi_memory | import_entries 01 01 6d 00 7e 02 00 01 01 01 61 | yes
    compact_imports -multi_memory | import_entries 01 01 6d 00 7e 02 00 01 02 01 61 01 62 | invalid
    compact_imports -multi_memory | import_entries 01 01 6d 00 7e 02 00 01 01 01 61; memories 01 00 00 | invalid
    compact_imports | import_entries 01 00 00 7f 02 00 02 00 01 00 02 01 02 01 | invalid
    compact_imports | import_entries 01 00 00 7e 01 63 ff ff 3f 00 00 01 00 | invalid
    compact_imports | import_entries 01 00 00 7f 02 00 02 00 01 00 02 00 | malformed
    compact_imports | import_entries 01 00 00 7e 02 00 01 02 00 | malformed
    compact_imports | types 02 60 00 00 60 01 7f 00; import_entries 01 00 00 7f 02 00 00 01 00 00 00; start 1 | yes
    compact_imports | types 02 60 00 00 60 01 7f 00; import_entries 01 00 00 7f 02 00 00 01 00 00 00; start 0 | invalid
    compact_imports | types 02 60 00 00 60 01 7f 00; import_entries 01 00 00 7e 00 00 02 00 00; functions 01 01; start 1 | yes
    compact_imports | types 02 60 00 00 60 01 7f 00; import_entries 01 00 00 7e 00 00 02 00 00; functions 01 01; start 2 | invalid

    // groups of none, whose type is wrong, or has an index for which there is no room
    compact_imports | import_entries 01 01 6d 00 7f 00 | yes
    compact_imports | import_entries 01 01 6d 00 7e 02 01 02 01 00 | yes
    compact_imports | import_entries 01 01 6d 00 7e 00 00 00 | yes
    compact_imports | import_entries 01 01 6d 00 7e 01 63 ff ff 3f 00 00 00 | yes
    compact_imports | import_entries 01 01 6d 00 7e 01 63 80 80 c0 00 00 00 00 | invalid
    compact_imports | import_entries 01 01 6d 00 7e 03 63 80 80 c0 00 00 00 | invalid
";

const LIMITS: &str = "
    // names of imports, by their bytes
    | import_entries 01 a0 8d 06 61*100000 00 02 00 01 | yes
    | import_entries 01 a1 8d 06 61*100001 00 02 00 01 | Name
    | import_entries 01 00 a0 8d 06 61*100000 02 00 01 | yes
    | import_entries 01 00 a1 8d 06 61*100001 02 00 01 | Name
    | import_entries 01 00 a0 8d 06 c3a9*50000 02 00 01 | yes
    | import_entries 01 00 a2 8d 06 c3a9*50001 02 00 01 | Name
    compact_imports | import_entries 01 a1 8d 06 61*100001 00 7f 00 | Name
    compact_imports | import_entries 01 00 00 7f 02 00 02 00 01 a0 8d 06 61*100000 02 00 01 | yes
    compact_imports | import_entries 01 00 00 7f 02 00 02 00 01 a1 8d 06 61*100001 02 00 01 | Name
    compact_imports | import_entries 01 a1 8d 06 61*100001 00 7e 02 00 01 00 | Name
    compact_imports | import_entries 01 00 00 7e 02 00 01 02 00 a0 8d 06 61*100000 | yes
    compact_imports | import_entries 01 00 00 7e 02 00 01 02 00 a1 8d 06 61*100001 | Name

    // entries, and what they import
    | import_entries be 84 3d 0000037f00*999998 | yes
    | import_entries bf 84 3d 0000037f00*999999 | TypeSize
    compact_imports | import_entries c0 84 3d 00007f00*1000000 | yes
    compact_imports | import_entries c1 84 3d 00007f00*1000001 | Imports
    compact_imports | import_entries c0 84 3d 00007f00*1000000; import_entries 01 00 00 02 00 01 | Imports
    compact_imports | import_entries 01 00 00 7e 02 00 00 64 00*100 | yes
    compact_imports | import_entries 01 00 00 7e 02 00 00 65 00*101 | Memories
    compact_imports | import_entries 01 00 00 7f 64 0001700000*100 | yes
    compact_imports | import_entries 01 00 00 7f 65 0001700000*101 | Tables
    compact_imports | import_entries 01 00 00 7e 03 7f 00 be 84 3d 00*999998 | yes
    compact_imports | import_entries 01 00 00 7e 03 7f 00 bf 84 3d 00*999999 | TypeSize
    compact_imports | types 01 60 00 00; functions bf 84 3d 00*999999; import_entries 01 00 00 7e 00 00 01 00 | yes
    compact_imports | types 01 60 00 00; functions bf 84 3d 00*999999; import_entries 01 00 00 7e 00 00 02 00 00 | Functions
";

#[test]
fn import_sections_are_judged(rt: HostRuntime) -> Result<(), Fail> {
    Ok(check_rows(rt.alloc(), ENTRIES, 35, holds)?)
}

#[test]
fn limits_on_imports_are_met(rt: HostRuntime) -> Result<(), Fail> {
    Ok(check_rows(rt.alloc(), LIMITS, 25, holds)?)
}
