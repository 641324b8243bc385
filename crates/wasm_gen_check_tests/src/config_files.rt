//! Texts of configurations.

use std::alloc::Global;
use std::test::Fail;
use wasm_gen::config::config_from_text;
use wasm_gen::config_error::ConfigError;
use wasm_gen::smith::Config;
use wasm_smith_config_rows::settings::config_of;
use wasm_test_rows::fields::two_fields;
use wasm_test_rows::rows::check_rows;
use wasm_test_rows::shown::{debugs_same, displays};
use wasm_test_rows::values::bytes_of;

// A text, in which \n, \t and \xHH stand for bytes, and its outcome: the settings over the default, a part of the configuration as it is shown, the line of a bad
// key, or that the text is bad.
pub const TEXTS: &str = "
    // Texts that two keys read.
    allowed_instructions = \"Numeric\" | shows allowed_instructions: InstructionKinds { bits: 3 }
    allowed_instructions = \"NumericInt,vector_non_float,CONTROL\" | shows allowed_instructions: InstructionKinds { bits: 1029 }
    memory_offset_choices = \"1,2,3\"  | shows memory_offset_choices: MemoryOffsetChoices(1, 2, 3)
    // No key.
                            | ok
    \\n                      | ok
    # nothing but a comment | ok
    \\xEF\\xBB\\xBF            | ok
    \\x20\\x20\\x20\\t\\n\\n      | ok
    // Several keys, out of order.
    max_types = 7\\ngc_enabled = false\\nmin_types = 5 | ok max_types=7 gc_enabled=no min_types=5
    // Keys written otherwise.
    \"max_types\" = 7      | ok max_types=7
    'max_types' = 7      | ok max_types=7
    \"max\\u005ftypes\" = 7 | ok max_types=7
    max_types = 0x10     | ok max_types=16
    max_types = 1_000    | ok max_types=1000
    max_types = +7       | ok max_types=7
    max_types = -0       | ok max_types=0
    // Bounds of numbers.
    max_types = 3                             | ok max_types=3
    max_types = 4294967295                    | ok max_types=4294967295
    max_types = 4294967296                    | key max_types takes a whole number from 0 to 4294967295
    max_types = -1                            | key max_types takes a whole number from 0 to 4294967295
    max_types = 0                             | ok max_types=0
    max_table_elements = 0                    | ok max_table_elements=0
    max_table_elements = 4294967296           | ok max_table_elements=4294967296
    max_table_elements = 9223372036854775807  | ok max_table_elements=9223372036854775807
    max_table_elements = 9223372036854775808  | text
    max_table_elements = -1                   | key max_table_elements takes a whole number from 0 to 9223372036854775807
    max_table_elements = -9223372036854775808 | key max_table_elements takes a whole number from 0 to 9223372036854775807
    max_memory32_bytes = 0                    | ok max_memory32_bytes=0
    max_memory32_bytes = 4294967296           | ok max_memory32_bytes=4294967296
    max_memory32_bytes = 9223372036854775807  | ok max_memory32_bytes=9223372036854775807
    max_memory32_bytes = 9223372036854775808  | text
    max_memory32_bytes = -1                   | key max_memory32_bytes takes a whole number from 0 to 9223372036854775807
    max_memory32_bytes = -9223372036854775808 | key max_memory32_bytes takes a whole number from 0 to 9223372036854775807
    max_memory64_bytes = 0                    | ok max_memory64_bytes=0
    max_memory64_bytes = 4294967296           | ok max_memory64_bytes=4294967296
    max_memory64_bytes = 9223372036854775807  | ok max_memory64_bytes=9223372036854775807
    max_memory64_bytes = 9223372036854775808  | text
    max_memory64_bytes = -1                   | key max_memory64_bytes takes a whole number from 0 to 9223372036854775807
    max_memory64_bytes = -9223372036854775808 | key max_memory64_bytes takes a whole number from 0 to 9223372036854775807
    // Values of another type.
    gc_enabled = 0                     | key gc_enabled takes true or false
    gc_enabled = \"true\"                | key gc_enabled takes true or false
    gc_enabled = \"yes\"                 | key gc_enabled takes true or false
    gc_enabled = 1.0                   | key gc_enabled takes true or false
    gc_enabled = []                    | key gc_enabled takes true or false
    gc_enabled = [true]                | key gc_enabled takes true or false
    gc_enabled = {}                    | key gc_enabled takes true or false
    gc_enabled = 1979-05-27            | key gc_enabled takes true or false
    max_types = true                   | key max_types takes a whole number from 0 to 4294967295
    max_types = \"3\"                    | key max_types takes a whole number from 0 to 4294967295
    max_types = 3.0                    | key max_types takes a whole number from 0 to 4294967295
    max_types = inf                    | key max_types takes a whole number from 0 to 4294967295
    max_types = nan                    | key max_types takes a whole number from 0 to 4294967295
    max_types = [3]                    | key max_types takes a whole number from 0 to 4294967295
    max_types = {}                     | key max_types takes a whole number from 0 to 4294967295
    max_types = { n = 3 }              | key max_types takes a whole number from 0 to 4294967295
    max_types = 1979-05-27T07:32:00Z   | key max_types takes a whole number from 0 to 4294967295
    max_types = 07:32:00               | key max_types takes a whole number from 0 to 4294967295
    max_table_elements = true          | key max_table_elements takes a whole number from 0 to 9223372036854775807
    max_memory32_bytes = true          | key max_memory32_bytes takes a whole number from 0 to 9223372036854775807
    max_memory64_bytes = true          | key max_memory64_bytes takes a whole number from 0 to 9223372036854775807
    allowed_instructions = 0           | key allowed_instructions takes a string of names of kinds, separated by commas without blanks, such as \"Numeric,Control\"
    allowed_instructions = true        | key allowed_instructions takes a string of names of kinds, separated by commas without blanks, such as \"Numeric,Control\"
    allowed_instructions = [\"Numeric\"] | key allowed_instructions takes a string of names of kinds, separated by commas without blanks, such as \"Numeric,Control\"
    allowed_instructions = {}          | key allowed_instructions takes a string of names of kinds, separated by commas without blanks, such as \"Numeric,Control\"
    memory_offset_choices = 0          | key memory_offset_choices takes a string of three numbers from 0 to 4294967295, separated by commas without blanks, such as \"90,9,1\"
    memory_offset_choices = [90, 9, 1] | key memory_offset_choices takes a string of three numbers from 0 to 4294967295, separated by commas without blanks, such as \"90,9,1\"
    memory_offset_choices = {}         | key memory_offset_choices takes a string of three numbers from 0 to 4294967295, separated by commas without blanks, such as \"90,9,1\"
    memory_offset_choices = 90.9       | key memory_offset_choices takes a string of three numbers from 0 to 4294967295, separated by commas without blanks, such as \"90,9,1\"
    // Texts that these two fields do not read.
    allowed_instructions = \"\"                         | key allowed_instructions takes a string of names of kinds, separated by commas without blanks, such as \"Numeric,Control\"
    allowed_instructions = \",\"                        | key allowed_instructions takes a string of names of kinds, separated by commas without blanks, such as \"Numeric,Control\"
    allowed_instructions = \"Numeric,\"                 | key allowed_instructions takes a string of names of kinds, separated by commas without blanks, such as \"Numeric,Control\"
    allowed_instructions = \",Numeric\"                 | key allowed_instructions takes a string of names of kinds, separated by commas without blanks, such as \"Numeric,Control\"
    allowed_instructions = \"Numeric,,Vector\"          | key allowed_instructions takes a string of names of kinds, separated by commas without blanks, such as \"Numeric,Control\"
    allowed_instructions = \"Numeric, Vector\"          | key allowed_instructions takes a string of names of kinds, separated by commas without blanks, such as \"Numeric,Control\"
    allowed_instructions = \" Numeric\"                 | key allowed_instructions takes a string of names of kinds, separated by commas without blanks, such as \"Numeric,Control\"
    allowed_instructions = \"Numeric \"                 | key allowed_instructions takes a string of names of kinds, separated by commas without blanks, such as \"Numeric,Control\"
    allowed_instructions = \"Numeric;Vector\"           | key allowed_instructions takes a string of names of kinds, separated by commas without blanks, such as \"Numeric,Control\"
    allowed_instructions = \"Float\"                    | key allowed_instructions takes a string of names of kinds, separated by commas without blanks, such as \"Numeric,Control\"
    allowed_instructions = \"numeric_nonfloat\"         | key allowed_instructions takes a string of names of kinds, separated by commas without blanks, such as \"Numeric,Control\"
    allowed_instructions = \"+Numeric\"                 | key allowed_instructions takes a string of names of kinds, separated by commas without blanks, such as \"Numeric,Control\"
    allowed_instructions = \"NumericIntt\"              | key allowed_instructions takes a string of names of kinds, separated by commas without blanks, such as \"Numeric,Control\"
    allowed_instructions = \"Numeri\"                   | key allowed_instructions takes a string of names of kinds, separated by commas without blanks, such as \"Numeric,Control\"
    memory_offset_choices = \"\"                        | key memory_offset_choices takes a string of three numbers from 0 to 4294967295, separated by commas without blanks, such as \"90,9,1\"
    memory_offset_choices = \"90\"                      | key memory_offset_choices takes a string of three numbers from 0 to 4294967295, separated by commas without blanks, such as \"90,9,1\"
    memory_offset_choices = \"90,9\"                    | key memory_offset_choices takes a string of three numbers from 0 to 4294967295, separated by commas without blanks, such as \"90,9,1\"
    memory_offset_choices = \"90,9,\"                   | key memory_offset_choices takes a string of three numbers from 0 to 4294967295, separated by commas without blanks, such as \"90,9,1\"
    memory_offset_choices = \"90,,1\"                   | key memory_offset_choices takes a string of three numbers from 0 to 4294967295, separated by commas without blanks, such as \"90,9,1\"
    memory_offset_choices = \",9,1\"                    | key memory_offset_choices takes a string of three numbers from 0 to 4294967295, separated by commas without blanks, such as \"90,9,1\"
    memory_offset_choices = \"90,9,1,\"                 | key memory_offset_choices takes a string of three numbers from 0 to 4294967295, separated by commas without blanks, such as \"90,9,1\"
    memory_offset_choices = \"90,9,1,0\"                | key memory_offset_choices takes a string of three numbers from 0 to 4294967295, separated by commas without blanks, such as \"90,9,1\"
    memory_offset_choices = \"90, 9, 1\"                | key memory_offset_choices takes a string of three numbers from 0 to 4294967295, separated by commas without blanks, such as \"90,9,1\"
    memory_offset_choices = \" 90,9,1\"                 | key memory_offset_choices takes a string of three numbers from 0 to 4294967295, separated by commas without blanks, such as \"90,9,1\"
    memory_offset_choices = \"90,9,1 \"                 | key memory_offset_choices takes a string of three numbers from 0 to 4294967295, separated by commas without blanks, such as \"90,9,1\"
    memory_offset_choices = \"+90,9,1\"                 | key memory_offset_choices takes a string of three numbers from 0 to 4294967295, separated by commas without blanks, such as \"90,9,1\"
    memory_offset_choices = \"90,-9,1\"                 | key memory_offset_choices takes a string of three numbers from 0 to 4294967295, separated by commas without blanks, such as \"90,9,1\"
    memory_offset_choices = \"90,9,1.0\"                | key memory_offset_choices takes a string of three numbers from 0 to 4294967295, separated by commas without blanks, such as \"90,9,1\"
    memory_offset_choices = \"90;9;1\"                  | key memory_offset_choices takes a string of three numbers from 0 to 4294967295, separated by commas without blanks, such as \"90,9,1\"
    memory_offset_choices = \"4294967296,0,0\"          | key memory_offset_choices takes a string of three numbers from 0 to 4294967295, separated by commas without blanks, such as \"90,9,1\"
    memory_offset_choices = \"0,0,4294967296\"          | key memory_offset_choices takes a string of three numbers from 0 to 4294967295, separated by commas without blanks, such as \"90,9,1\"
    memory_offset_choices = \"0x1,2,3\"                 | key memory_offset_choices takes a string of three numbers from 0 to 4294967295, separated by commas without blanks, such as \"90,9,1\"
    memory_offset_choices = \"1_0,2,3\"                 | key memory_offset_choices takes a string of three numbers from 0 to 4294967295, separated by commas without blanks, such as \"90,9,1\"
    memory_offset_choices = \"a,b,c\"                   | key memory_offset_choices takes a string of three numbers from 0 to 4294967295, separated by commas without blanks, such as \"90,9,1\"
    memory_offset_choices = \"0,0,0\"                   | shows memory_offset_choices: MemoryOffsetChoices(0, 0, 0)
    memory_offset_choices = \"4294967295,0,4294967295\" | shows memory_offset_choices: MemoryOffsetChoices(4294967295, 0, 4294967295)
    memory_offset_choices = \"007,08,0\"                | shows memory_offset_choices: MemoryOffsetChoices(7, 8, 0)
    // Keys that are no fields.
    shape = 1               | key shape isn't a field
    Max_types = 1           | key Max_types isn't a field
    max_type = 1            | key max_type isn't a field
    max_typess = 1          | key max_typess isn't a field
    max_typez = 3           | key max_typez isn't a field
    max-types = 1           | key max-types isn't a field
    maxtypes = 1            | key maxtypes isn't a field
    a = 1                   | key a isn't a field
    \"\" = 1                  | key  isn't a field
    \"max types\" = 1         | key max types isn't a field
    \"max_types \" = 1        | key max_types  isn't a field
    threads = 1             | key threads isn't a field
    gc = 1                  | key gc isn't a field
    module_shape = 1        | key module_shape isn't a field
    available_imports = 1   | key available_imports isn't a field
    exports = 1             | key exports isn't a field
    \"\\u00e9\" = 1            | key é isn't a field
    module_shape = true     | key module_shape isn't a field
    exports = \"e\"           | key exports isn't a field
    [config]\\nmax_types = 7 | key config isn't a field
    [max_types]             | key max_types takes a whole number from 0 to 4294967295
    [[max_types]]           | key max_types takes a whole number from 0 to 4294967295
    max_types.a = 7         | key max_types takes a whole number from 0 to 4294967295
    max.types = 7           | key max isn't a field
    // Several bad keys: the first in the order of their bytes is named.
    shape = 1\\nmax_types = true                           | key max_types takes a whole number from 0 to 4294967295
    zebra = 1\\nabacus = 1                                 | key abacus isn't a field
    gc_enabled = 1\\nallow_floats = 1                      | key allow_floats takes true or false
    Zebra = 1\\nabacus = 1                                 | key Zebra isn't a field
    max_types = 7\\nmax_tags = -1\\nmax_table_elements = -1 | key max_table_elements takes a whole number from 0 to 9223372036854775807
    gc_enabled = true\\nx = 1                              | key x isn't a field
    // No TOML.
    max_types                        | text
    max_types =                      | text
    max_types = 7 8                  | text
    max_types = 7\\nmax_types = 8     | text
    = 7                              | text
    max_types = yes                  | text
    max_types = 007                  | text
    max_types = \"                    | text
    [max_types                       | text
    max_types = 7\\rgc_enabled = true | text
    max types = 7                    | text
    \\x00                             | text
    max_types = 7, gc_enabled = true | text
    gc_enabled = True                | text
    { \"max_types\": 7 }               | text
    // No UTF-8.
    \\xFF                  | text
    max_types = 7\\n\\xC3   | text
    # \\xE9\\nmax_types = 7 | text
    \\xED\\xA0\\x80 = 1      | text
    \"\\xC0\\xAF\" = 1        | text
    m\\x00\\xFF             | text
";

// The number of rows.
pub const COUNT: usize = 156;

// A number, and the bound that is shown for it.
const NUMBERS: &str = "
    min_types | 4294967295
    max_types | 4294967295
    min_imports | 4294967295
    max_imports | 4294967295
    min_tags | 4294967295
    max_tags | 4294967295
    min_funcs | 4294967295
    max_funcs | 4294967295
    min_globals | 4294967295
    max_globals | 4294967295
    min_exports | 4294967295
    max_exports | 4294967295
    min_element_segments | 4294967295
    max_element_segments | 4294967295
    min_elements | 4294967295
    max_elements | 4294967295
    min_data_segments | 4294967295
    max_data_segments | 4294967295
    min_tables | 4294967295
    max_tables | 4294967295
    min_memories | 4294967295
    max_memories | 4294967295
    max_instructions | 4294967295
    max_type_size | 4294967295
    max_table_elements | 9223372036854775807
    max_memory32_bytes | 9223372036854775807
    max_memory64_bytes | 9223372036854775807
";

const SWITCHES: &str = "
    allow_floats
    allow_invalid_funcs
    allow_start_export
    bulk_memory_enabled
    canonicalize_nans
    compact_imports_enabled
    custom_page_sizes_enabled
    disallow_traps
    exceptions_enabled
    export_everything
    extended_const_enabled
    gc_enabled
    generate_custom_sections
    memory64_enabled
    memory_max_size_required
    multi_value_enabled
    reference_types_enabled
    relaxed_simd_enabled
    saturating_float_to_int_enabled
    sign_extension_ops_enabled
    simd_enabled
    stack_switching_enabled
    table_max_size_required
    tail_call_enabled
    threads_enabled
    wide_arithmetic_enabled
";

// The file `data/config.toml`.
const DEFAULTS: &str = "
# A configuration of the generator: every key at its default, but for one that TOML can't write and that stands in a comment. A key that is left out keeps its default, so that an empty
# file is the default configuration. A key that isn't listed here is refused, and so is a value of another type, a number
# that is negative, and one that is larger than its field holds. The order of the keys doesn't matter.

# --- How many items a module has ---
#
# A minimum and a maximum bound the items of a kind, imported ones counted. Where a minimum can't be met, no module is made.
# Each is a number from 0 to 4294967295, but a maximum above 2147483648 is refused when the configuration is checked, and
# so is a minimum above its maximum.

# Types that the module defines.
min_types = 0
max_types = 100

# Imports.
min_imports = 0
max_imports = 100

# Tags of exceptions.
min_tags = 0
max_tags = 100

# Functions.
min_funcs = 0
max_funcs = 100

# Globals.
min_globals = 0
max_globals = 100

# Exports.
min_exports = 0
max_exports = 100

# Element segments, and the elements of one of them.
min_element_segments = 0
max_element_segments = 100
min_elements = 0
max_elements = 100

# Data segments.
min_data_segments = 0
max_data_segments = 100

# Tables.
min_tables = 0
max_tables = 1

# Memories.
min_memories = 0
max_memories = 1

# --- Sizes ---

# What the types of all imports and exports come to: each counts 1, and that of a function or a tag its parameters and
# results besides.
max_type_size = 1000

# The most elements that a table may declare: from 0 to 9223372036854775807, the largest integer of TOML.
max_table_elements = 1000000

# The most bytes that a memory may declare, with 32-bit addresses (at most 4294967296) and with 64-bit ones. The default of the second is
# 18446744073709551616, which no integer of TOML is: to keep it, leave the key out.
max_memory32_bytes = 4294967296
# max_memory64_bytes = 18446744073709551616

# Gives each table and each memory a maximum size.
table_max_size_required = false
memory_max_size_required = false

# --- Features that the module may need ---

# Passive and declared segments, and a count of data segments.
bulk_memory_enabled = true
# Groups of imports that share a module name or a type.
compact_imports_enabled = false
# Pages of another size than 65,536 bytes.
custom_page_sizes_enabled = false
# Tags, and references to exceptions.
exceptions_enabled = true
# Constant expressions that add, subtract and multiply.
extended_const_enabled = true
# Structures, arrays, recursive groups and subtypes, and references to defined types. It needs reference types.
gc_enabled = true
# Memories and tables with 64-bit addresses.
memory64_enabled = true
# Functions with several results.
multi_value_enabled = true
# References as values, and several tables.
reference_types_enabled = true
# Vector operators whose results are left open. It needs vectors.
relaxed_simd_enabled = true
# Conversions of floats to integers that saturate.
saturating_float_to_int_enabled = true
# Operators that extend the sign of an integer.
sign_extension_ops_enabled = true
# Vectors of 128 bits.
simd_enabled = true
# Continuations.
stack_switching_enabled = false
# Calls that take the place of a return.
tail_call_enabled = true
# Memories that threads share.
threads_enabled = false
# Operators on integers of 128 bits.
wide_arithmetic_enabled = false

# --- What else the module has ---

# The types of floats, and constants of them.
allow_floats = true
# A start function.
allow_start_export = true
# Exports of everything that can be exported.
export_everything = false
# Custom sections between the others.
generate_custom_sections = false
# No trap when the module is instantiated: active segments lie within the minimum size of their table or memory.
disallow_traps = false
# Function bodies of arbitrary bytes, which are not valid as a rule.
allow_invalid_funcs = false

# --- For those who make function bodies: these steer nothing in the generator itself ---

# Operators of a function body.
max_instructions = 100

# The kinds of instructions, separated by commas, with no blanks between: NumericInt, Numeric, VectorInt, Vector, Reference,
# Parametric, Variable, Table, MemoryInt, Memory, Control and Aggregate. Numeric, Vector and Memory contain the kind whose
# instructions need no floats, which has a second name: numeric_non_float, vector_non_float and memory_non_float. Capitals
# don't matter.
allowed_instructions = \"Numeric,Vector,Reference,Parametric,Variable,Table,Memory,Control,Aggregate\"

# Weights of the offsets of memory accesses: within the memory's minimum size, past it and within the largest size that it
# may have, and any others. Three numbers from 0 to 4294967295, separated by commas, with no blanks and no signs.
memory_offset_choices = \"90,9,1\"

# Turns each NaN that a body computes into one form.
canonicalize_nans = false
";

// Adds what stands behind a backslash, with what follows it.
fn push_escaped(alloc: Global, text: &mut Vec<u8>, piece: &str) -> Option<()> {
    let rest = match piece.split_at_checked(1)? {
        ("n", rest) => {
            text.push(b'\n').ok()?;
            rest
        }
        ("t", rest) => {
            text.push(b'\t').ok()?;
            rest
        }
        ("x", rest) => {
            let (digits, rest) = rest.split_at_checked(2)?;
            text.extend_from_slice(&bytes_of(alloc, digits)?).ok()?;
            rest
        }
        _ => {
            text.push(b'\\').ok()?;
            piece
        }
    };
    text.extend_from_slice(rest.as_bytes()).ok()
}

// Returns the bytes of a field.
fn text_of(alloc: Global, field: &str) -> Option<Vec<u8>> {
    let mut pieces = field.split('\\');
    let mut text = pieces.next()?.as_bytes().to_vec(alloc).ok()?;
    for piece in pieces {
        push_escaped(alloc, &mut text, piece)?;
    }
    Some(text)
}

// Checks that this is the configuration.
fn is_config(alloc: Global, config: &Config, way: &str, rest: &str) -> Option<bool> {
    match way {
        "ok" => Some(debugs_same(alloc, config, &config_of(Config::default(), rest)?)),
        "shows" => {
            let shown = format!(in alloc; "{config:?}").ok()?;
            Some(shown.contains(rest))
        }
        _ => Some(false),
    }
}

/// Checks that a text gives this. None where memory runs out.
pub fn gives(alloc: Global, text: &[u8], expected: &str) -> Option<bool> {
    let (way, rest) = expected.split_once(' ').unwrap_or((expected, ""));
    match config_from_text(alloc, text) {
        Ok(config) => is_config(alloc, &config, way, rest),
        Err(ConfigError::Text(_)) => Some(way == "text"),
        Err(ConfigError::Memory) => None,
        Err(bad) => Some(way == "key" && displays(alloc, &bad, rest)),
    }
}

/// Checks a row of texts. None where memory runs out.
pub fn holds(alloc: Global, row: &str) -> Option<bool> {
    let (field, expected) = two_fields(row)?;
    gives(alloc, &text_of(alloc, field)?, expected)
}

#[test]
fn texts_give_this(rt: HostRuntime) -> Result<(), Fail> {
    Ok(check_rows(rt.alloc(), TEXTS, COUNT, holds)?)
}

// Checks that a value gives a field this, or is none that it takes.
fn sets(alloc: Global, name: &str, value: &str, expected: &str) -> Option<bool> {
    let text = format!(in alloc; "{name} = {value}").ok()?;
    gives(alloc, text.as_bytes(), expected)
}

fn takes_numbers(alloc: Global, row: &str) -> Option<bool> {
    let (name, most) = two_fields(row)?;
    let bad = format!(in alloc; "key {name} takes a whole number from 0 to {most}").ok()?;
    let none = format!(in alloc; "ok {name}=0").ok()?;
    let many = format!(in alloc; "ok {name}=4294967295").ok()?;
    let past = if most.len() > 10 {
        format!(in alloc; "ok {name}=4294967296")
    } else {
        format!(in alloc; "{}", bad.as_str())
    };
    Some(
        sets(alloc, name, "0", none.as_str())?
            && sets(alloc, name, "4294967295", many.as_str())?
            && sets(alloc, name, "4294967296", past.ok()?.as_str())?
            && sets(alloc, name, "-1", bad.as_str())?
            && sets(alloc, name, "true", bad.as_str())?
            && sets(alloc, name, "9223372036854775808", "text")?,
    )
}

#[test]
fn numbers_have_their_bounds(rt: HostRuntime) -> Result<(), Fail> {
    Ok(check_rows(rt.alloc(), NUMBERS, 27, takes_numbers)?)
}

fn takes_booleans(alloc: Global, row: &str) -> Option<bool> {
    let name = row.trim();
    let bad = format!(in alloc; "key {name} takes true or false").ok()?;
    let on = format!(in alloc; "ok {name}=yes").ok()?;
    let off = format!(in alloc; "ok {name}=no").ok()?;
    Some(
        sets(alloc, name, "true", on.as_str())?
            && sets(alloc, name, "false", off.as_str())?
            && sets(alloc, name, "1", bad.as_str())?,
    )
}

#[test]
fn switches_are_booleans(rt: HostRuntime) -> Result<(), Fail> {
    Ok(check_rows(rt.alloc(), SWITCHES, 26, takes_booleans)?)
}

// Checks that the file gives each field a value of its own, or names it in a comment.
fn is_given(_alloc: Global, row: &str) -> Option<bool> {
    let name = row.split('|').next()?.trim();
    Some(
        DEFAULTS.lines().any(|line| {
            let line = line.strip_prefix("# ").unwrap_or(line);
            line.strip_prefix(name)
                .is_some_and(|rest| rest.starts_with(" = "))
        }),
    )
}

#[test]
fn the_file_has_each_default(rt: HostRuntime) -> Result<(), Fail> {
    let alloc = rt.alloc();
    assert!(rt; gives(alloc, DEFAULTS.as_bytes(), "ok") == Some(true));
    check_rows(alloc, SWITCHES, 26, is_given)?;
    Ok(check_rows(alloc, NUMBERS, 27, is_given)?)
}
