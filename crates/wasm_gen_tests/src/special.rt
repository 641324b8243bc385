//! Modules of the configurations that ask for something special: exports of everything, raw bodies, custom sections, and segments that can't trap.

use crate::generated::{are_fronts_made, is_answered, is_module_of, is_refusal};
use std::alloc::Global;
use std::test::Fail;
use wasm_gen::generate::generate;
use wasm_gen::smith::Config;
use wasm_gen_rows::modules::parts_of;
use wasm_smith_config_rows::settings::config_in;
use wasm_test_rows::fields::four_fields;
use wasm_test_rows::rows::check_rows;

/// A configuration, a seed, the sections that are made of it or why none are, and what a new session with the features of the configuration says of them.
pub const ROWS: &str = "
    // Exports of everything: two functions; one of each kind; types that are too large, and just not too large; other bounds on the number of exports.
    export_everything=yes | 01 00 00 00 01 01 | types 03 03 02 00 00 07 08 02 00 00 00 01 31 00 01 0a 09 02 03 00 00 0b 03 00 00 0b | yes
    default export_everything=yes min_types=1 min_funcs=1 min_tables=1 min_memories=1 min_tags=1 min_globals=1 | | types functions 04 04 01 70 00 00 05 03 01 00 00 0d 03 01 00 00 06 06 01 7f 00 41 00 0b 07 14 05 00 00 00 01 31 01 00 01 32 02 00 01 33 03 00 01 34 04 00 code | yes
    default export_everything=yes min_memories=1 max_type_size=0 | | refused: type size | -
    default export_everything=yes min_memories=1 max_type_size=1 | | 05 03 01 00 00 07 04 01 00 02 00 | yes
    export_everything=yes min_exports=3 max_exports=3 | | | yes
    export_everything=yes min_exports=1 max_exports=1 | 01 00 00 00 01 01 | types 03 03 02 00 00 07 08 02 00 00 00 01 31 00 01 0a 09 02 03 00 00 0b 03 00 00 0b | yes
    // Imports count as such and as exports, functions with their parameters, and so do tags. A name that is taken gets a number.
    default export_everything=yes min_types=1 min_imports=1 min_funcs=2 max_type_size=3 | | types 02 05 01 00 00 00 00 functions 07 08 02 00 00 00 01 31 00 01 code | yes
    default export_everything=yes min_types=1 min_imports=1 min_funcs=2 max_type_size=2 | | refused: type size | -
    export_everything=yes max_type_size=2 | 01 01 00 00 00 00 01 | 01 05 01 60 01 7f 00 functions 07 04 01 00 00 00 code | yes
    export_everything=yes max_type_size=1 | 01 01 00 00 00 00 01 | refused: type size | -
    export_everything=yes max_types=1 min_tags=1 max_tags=1 max_type_size=2 | 01 01 00 00 | 01 05 01 60 01 7f 00 0d 03 01 00 00 07 04 01 00 04 00 | yes
    export_everything=yes max_types=1 min_tags=1 max_tags=1 max_type_size=1 | 01 01 00 00 | refused: type size | -
    export_everything=yes min_types=1 min_funcs=2 max_funcs=2 | 00 00 00 61 61 01 01 | types 03 03 02 00 00 07 0a 02 01 61 00 00 02 61 31 00 01 0a 09 02 03 00 00 0b 03 00 00 0b | yes
    // Raw bodies: a byte that is no operator; no more than an end; nothing; what other bodies have; and after a local.
    allow_invalid_funcs=yes | 01 00 00 00 01 00 00 01 ff 01 | types functions 0a 04 01 02 00 ff | Operator
    allow_invalid_funcs=yes | 01 00 00 00 01 00 00 01 0b 01 | types functions 0a 04 01 02 00 0b | yes
    allow_invalid_funcs=yes | 01 00 00 00 01 00 00 01 00 0b 02 | types functions code | yes
    allow_invalid_funcs=yes | 01 00 00 00 01 00 01 04 00 01 0b 01 | types functions 0a 06 01 04 01 01 7b 0b | yes
    allow_invalid_funcs=yes | 01 00 00 00 01 | types functions code | yes
    allow_invalid_funcs=no | 01 00 00 00 01 00 00 01 ff 01 | types functions code | yes
    // The fronts of a body that is well typed, and the whole.
    allow_invalid_funcs=yes | 01 00 00 00 01 00 00 01 | types functions 0a 03 01 01 00 | Body
    allow_invalid_funcs=yes | 01 00 00 00 01 00 00 01 41 01 | types functions 0a 04 01 02 00 41 | Body
    allow_invalid_funcs=yes | 01 00 00 00 01 00 00 01 41 00 02 | types functions 0a 05 01 03 00 41 00 | Body
    allow_invalid_funcs=yes | 01 00 00 00 01 00 00 01 41 00 1a 03 | types functions 0a 06 01 04 00 41 00 1a | Body
    allow_invalid_funcs=yes | 01 00 00 00 01 00 00 01 41 00 1a 0b 04 | types functions 0a 07 01 05 00 41 00 1a 0b | yes
    // Custom sections: alone; with a name and contents; in front of the section of a place, and behind all of them; two of one place in their order, and two of
    // other places.
    generate_custom_sections=yes | 00 01 00 | 00 01 00 | yes
    generate_custom_sections=no | 00 01 00 | | yes
    generate_custom_sections=yes | 00 01 05 61 62 63 02 01 | 00 04 01 61 62 63 | yes
    generate_custom_sections=yes | 01 00 00 00 01 00 00 01 03 | types functions 00 01 00 code | yes
    generate_custom_sections=yes | 01 00 00 00 01 00 00 01 02 | types 00 01 00 functions code | yes
    generate_custom_sections=yes | 01 00 00 00 01 00 00 01 00 | 00 01 00 types functions code | yes
    generate_custom_sections=yes | 01 00 00 00 01 00 00 01 0d | types functions code 00 01 00 | yes
    generate_custom_sections=yes | 01 00 00 00 01 00 00 01 0e | 00 01 00 types functions code | yes
    generate_custom_sections=yes | 00 01 02 61 62 01 02 63 64 01 01 01 01 | 00 03 01 61 62 00 03 01 63 64 | yes
    generate_custom_sections=yes | 00 01 05 61 62 01 02 63 64 01 01 01 01 | 00 03 01 63 64 00 03 01 61 62 | yes
    // Segments that can't trap: of a memory and a table without room, and at the end of a memory that has as many bytes as there are addresses.
    disallow_traps=yes min_memories=1 max_memories=1 min_data_segments=1 max_data_segments=1 | | 05 03 01 00 00 0c 01 01 0b 06 01 00 41 00 0b 00 | yes
    disallow_traps=yes min_memories=1 max_memories=1 min_data_segments=1 max_data_segments=1 | 00 00 00 00 00 00 00 ff 01 | 05 03 01 00 00 0c 01 01 0b 06 01 00 41 00 0b 00 | yes
    disallow_traps=yes min_memories=1 max_memories=1 min_data_segments=1 max_data_segments=1 | 00 01 01 00 00 00 00 00 00 00 00 aa ff ff ff ff ff ff ff ff 01 | 05 09 01 04 80 80 80 80 80 80 40 0c 01 01 0b 07 01 00 42 7f 0b 01 aa | yes
    disallow_traps=yes min_tables=1 max_tables=1 min_element_segments=1 max_element_segments=1 min_elements=3 | | 04 04 01 70 00 00 09 06 01 04 41 00 0b 00 | yes
    disallow_traps=yes min_tables=1 max_tables=1 min_element_segments=1 max_element_segments=1 min_elements=2147483648 max_elements=2147483648 | | 04 04 01 70 00 00 09 06 01 04 41 00 0b 00 | yes
    // Fewer items than the minimum where the table is smaller, an item in its last place, contents cut at a memory of three pages of a byte, and an offset of 32
    // bits that is written as a negative number.
    disallow_traps=yes min_tables=1 max_tables=1 min_element_segments=1 max_element_segments=1 min_elements=3 | 00 00 00 00 00 02 00 00 00 00 00 00 01 00 01 01 01 01 01 01 | 04 04 01 70 00 02 09 0c 01 04 41 00 0b 02 d0 70 0b d0 70 0b | yes
    disallow_traps=yes min_tables=1 max_tables=1 min_element_segments=1 max_element_segments=1 max_elements=2 | 00 00 00 00 00 03 00 00 00 01 00 02 00 | 04 04 01 70 00 03 09 09 01 04 41 02 0b 01 d0 70 0b | yes
    disallow_traps=yes custom_page_sizes_enabled=yes min_memories=1 max_memories=1 min_data_segments=1 max_data_segments=1 | 00 00 01 00 00 00 00 03 00 00 aa bb cc dd ee 05 | 05 04 01 08 03 00 0c 01 01 0b 09 01 00 41 00 0b 03 aa bb cc | yes
    disallow_traps=yes min_memories=1 max_memories=1 min_data_segments=1 max_data_segments=1 | 00 00 01 00 00 00 00 aa bb ff ff ff fe 02 | 05 05 01 00 80 80 04 0c 01 01 0b 08 01 00 41 7e 0b 02 aa bb | yes
    // A table of 64 bits, functions where there are none, a table that is imported, and the second of two.
    disallow_traps=yes max_tables=1 min_element_segments=1 max_element_segments=1 min_tables=1 min_elements=2 | 00 00 01 00 00 05 00 00 00 01 00 02 | 04 04 01 70 04 05 09 0f 01 04 42 02 0b 03 d0 70 0b d0 70 0b d0 70 0b | yes
    disallow_traps=yes max_tables=1 min_element_segments=1 max_element_segments=1 min_tables=1 min_elements=3 | 00 00 00 00 00 05 00 00 01 04 | 04 04 01 70 00 05 09 06 01 00 41 04 0b 00 | yes
    disallow_traps=yes max_tables=1 min_element_segments=1 max_element_segments=1 min_imports=1 max_imports=1 min_elements=2 | 00 00 00 00 00 05 00 00 00 00 03 00 00 | 02 07 01 00 00 01 70 00 05 09 0c 01 04 41 03 0b 02 d0 70 0b d0 70 0b | yes
    disallow_traps=yes min_tables=2 max_tables=2 min_element_segments=1 max_element_segments=1 min_elements=2 | 00 00 00 00 00 00 00 00 00 00 00 03 00 01 00 00 01 | 04 07 02 70 00 00 70 00 03 09 0e 01 06 01 41 01 0b 70 02 d0 70 0b d0 70 0b | yes
    // The second of two memories, a memory that is imported, and a segment without bytes, whose offset has 32 bits.
    disallow_traps=yes min_memories=2 max_memories=2 min_data_segments=1 max_data_segments=1 | 00 00 00 00 00 00 00 00 00 01 00 01 aa ff ff 01 | 05 05 02 00 00 00 01 0c 01 01 0b 0a 01 02 01 41 ff ff 03 0b 01 aa | yes
    disallow_traps=yes max_memories=1 min_data_segments=1 max_data_segments=1 min_imports=1 max_imports=1 | 00 00 00 00 01 00 00 aa ff ff 01 00 00 | 02 06 01 00 00 02 00 01 0c 01 01 0b 09 01 00 41 ff ff 03 0b 01 aa | yes
    disallow_traps=yes max_memories=1 min_data_segments=1 max_data_segments=1 min_memories=1 | 00 00 01 00 00 00 00 ff 00 00 00 05 00 | 05 05 01 00 80 80 04 0c 01 01 0b 09 01 00 41 80 80 80 78 0b 00 | yes
";

// Checks that these sections are made of the seed, and answered so, or that nothing is made, as the field says.
fn is_made(alloc: Global, config: &Config, seed: &[u8], expected: &str, answer: &str) -> bool {
    match generate(alloc, config, seed) {
        Ok(made) => {
            is_module_of(alloc, &made, expected) && is_answered(alloc, config, &made, answer)
        }
        Err(e) => is_refusal(alloc, e, expected),
    }
}

// Checks that a row holds.
fn holds(alloc: Global, row: &str) -> Option<bool> {
    let (settings, seed, expected, answer) = four_fields(row)?;
    let config = config_in(settings)?;
    let seed = parts_of(alloc, seed)?;
    let is_made = is_made(alloc, &config, &seed, expected, answer);
    Some(is_made && are_fronts_made(alloc, &seed))
}

#[test]
fn special_configurations_make_these_modules(rt: HostRuntime) -> Result<(), Fail> {
    Ok(check_rows(rt.alloc(), ROWS, 50, holds)?)
}
