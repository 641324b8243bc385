//! Which configurations are allowed.

use std::alloc::Global;
use std::test::Fail;
use wasm_smith::config::Config;
use wasm_smith::error::Error;
use wasm_smith_config_rows::settings::config_of;
use wasm_smith_config_rows::shaped::with_shapes;
use wasm_test_rows::fields::two_fields;
use wasm_test_rows::rows::check_rows;

// Checks that the answer is `allowed`, or names this field.
fn is_answer(answer: Result<(), Error>, expected: &str) -> bool {
    match answer {
        Ok(()) => expected == "allowed",
        Err(Error::BadConfig(name)) => name == expected,
        Err(_) => false,
    }
}

// In what a configuration differs from the default, and the field that is named.
const CHECKED: &str = "
    | allowed
    min_funcs=2147483648 max_funcs=2147483648 max_instructions=2147483648 max_table_elements=18446744073709551615 | allowed
    // Minimums above their maximums.
    min_types=101 | min_types
    min_imports=101 | min_imports
    min_tags=101 | min_tags
    min_funcs=101 | min_funcs
    min_globals=101 | min_globals
    min_exports=101 | min_exports
    min_element_segments=101 | min_element_segments
    min_elements=101 | min_elements
    min_data_segments=101 | min_data_segments
    min_tables=101 | min_tables
    min_memories=101 | min_memories
    // Maximums that are too large.
    max_types=2147483649 | max_types
    max_funcs=2147483649 | max_funcs
    max_elements=2147483649 | max_elements
    max_instructions=2147483649 | max_instructions
    max_type_size=2147483649 | max_type_size
    max_memory32_bytes=4294967297 | max_memory32_bytes
    max_memory64_bytes=18446744073709551617 | max_memory64_bytes
    // All that can be asked for.
    export_everything=yes allow_invalid_funcs=yes generate_custom_sections=yes disallow_traps=yes | allowed
";

fn holds(_alloc: Global, row: &str) -> Option<bool> {
    let (settings, expected) = two_fields(row)?;
    let config = config_of(Config::default(), settings)?;
    Some(is_answer(config.check(), expected))
}

#[test]
fn bad_fields_are_named(rt: HostRuntime) -> Result<(), Fail> {
    Ok(check_rows(rt.alloc(), CHECKED, 21, holds)?)
}

// Shapes of the default configuration, and the field that is named. What shapes ask for isn't looked at.
const SHAPED: &str = "
    module func 1? -> ; / / | allowed
    imports / / a memory 0.. | allowed
    exports struct ; / / | allowed
    imports / one m a memory 0.. ; / & exports / / b memory 0.. | allowed
    module / / & imports / / | module_shape
    module / / & exports / / | module_shape
    module / / & imports / / & exports / / | module_shape
";

fn is_checked(alloc: Global, row: &str) -> Option<bool> {
    let (shapes, expected) = two_fields(row)?;
    let config = with_shapes(alloc, Config::default(), shapes)?;
    Some(is_answer(config.check(), expected))
}

#[test]
fn shape_of_a_module_stands_alone(rt: HostRuntime) -> Result<(), Fail> {
    Ok(check_rows(rt.alloc(), SHAPED, 7, is_checked)?)
}
