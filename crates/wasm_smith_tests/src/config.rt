//! Configurations put in order, the features that they ask for, the texts of their parts, and those that are drawn.

use std::alloc::Global;
use std::test::Fail;
use wasm_core::features::{Flags, WasmFeatures};
use wasm_smith::config::Config;
use wasm_smith::error::BadText;
use wasm_smith::instruction_kinds::{InstructionKind, InstructionKinds};
use wasm_smith::memory_offset_choices::MemoryOffsetChoices;
use wasm_smith::unstructured::Unstructured;
use wasm_smith_config_rows::settings::config_of;
use wasm_test_rows::fields::two_fields;
use wasm_test_rows::rows::check_rows;
use wasm_test_rows::shown::debugs_same;

// Checks that the counts of the configuration are those of the default.
fn has_default_counts(config: &Config) -> bool {
    config.min_types == 0
        && config.max_types == 100
        && config.max_tables == 1
        && config.max_memories == 1
        && config.max_instructions == 100
        && config.max_type_size == 1000
        && config.max_table_elements == 1_000_000
        && config.max_memory32_bytes == 4_294_967_296
        && config.max_memory64_bytes == 18_446_744_073_709_551_616
}

#[test]
fn has_its_defaults(rt: HostRuntime) {
    let config = Config::default();
    let are_on = config.gc_enabled && config.allow_start_export && config.relaxed_simd_enabled;
    let are_off = !config.threads_enabled && !config.export_everything && !config.disallow_traps;
    assert!(rt; are_on && are_off && has_default_counts(&config));
    assert!(rt; config.allowed_instructions == InstructionKinds::all());
    assert!(rt; config.memory_offset_choices == MemoryOffsetChoices(90, 9, 1));
}

#[test]
fn turns_off_what_needs_more(rt: HostRuntime) {
    let mut config = Config::default();
    config.simd_enabled = false;
    config.reference_types_enabled = false;
    config.max_tables = 7;
    config.sanitize();
    assert!(rt; !config.relaxed_simd_enabled && !config.gc_enabled && config.max_tables == 1);
}

#[test]
fn keeps_what_needs_nothing_more(rt: HostRuntime) -> Result<(), Fail> {
    let mut config = Config::default();
    config.max_tables = 7;
    config.allowed_instructions = InstructionKinds::none();
    config.memory_offset_choices = MemoryOffsetChoices(1, 2, 3);
    let before = config.try_clone(rt.alloc())?;
    config.sanitize();
    assert!(rt; debugs_same(rt.alloc(), &config, &before));
    Ok(())
}

#[test]
fn has_the_features_of_the_default(rt: HostRuntime) {
    let mut features = WasmFeatures::default();
    features.remove(WasmFeatures::THREADS);
    features.remove(WasmFeatures::MULTI_MEMORY);
    assert!(rt; Config::default().features() == features);
}

// Returns a configuration of which no feature is on.
fn bare() -> Option<Config> {
    let settings = "bulk_memory_enabled=no exceptions_enabled=no extended_const_enabled=no \
            gc_enabled=no memory64_enabled=no multi_value_enabled=no \
            reference_types_enabled=no relaxed_simd_enabled=no saturating_float_to_int_enabled=no \
            sign_extension_ops_enabled=no simd_enabled=no tail_call_enabled=no";
    config_of(Config::default(), settings)
}

// Fields that are turned on, and the features that it adds to those of a bare configuration.
const SWITCHES: &str = "
    |
    saturating_float_to_int_enabled=yes | SATURATING_FLOAT_TO_INT
    sign_extension_ops_enabled=yes | SIGN_EXTENSION
    reference_types_enabled=yes | REFERENCE_TYPES
    multi_value_enabled=yes | MULTI_VALUE
    bulk_memory_enabled=yes | BULK_MEMORY
    simd_enabled=yes | SIMD
    relaxed_simd_enabled=yes | RELAXED_SIMD
    threads_enabled=yes | THREADS
    tail_call_enabled=yes | TAIL_CALL
    exceptions_enabled=yes | EXCEPTIONS
    memory64_enabled=yes | MEMORY64
    extended_const_enabled=yes | EXTENDED_CONST
    gc_enabled=yes | FUNCTION_REFERENCES GC
    custom_page_sizes_enabled=yes | CUSTOM_PAGE_SIZES
    compact_imports_enabled=yes | COMPACT_IMPORTS
    wide_arithmetic_enabled=yes | WIDE_ARITHMETIC
    stack_switching_enabled=yes | STACK_SWITCHING
    max_memories=2 | MULTI_MEMORY
";

// Features with spaces between them.
fn features_of(names: &str) -> Option<WasmFeatures> {
    let mut features = WasmFeatures::empty();
    for name in names.split_whitespace() {
        features.insert(WasmFeatures::from_name(name)?);
    }
    Some(features)
}

fn holds(_alloc: Global, row: &str) -> Option<bool> {
    let (settings, names) = two_fields(row)?;
    let config = config_of(bare()?, settings)?;
    Some(config.features().bits() == 0x2_0401 | features_of(names)?.bits())
}

#[test]
fn has_a_feature_for_each_switch(rt: HostRuntime) -> Result<(), Fail> {
    Ok(check_rows(rt.alloc(), SWITCHES, 19, holds)?)
}

const KINDS: [InstructionKind; 12] = [
    InstructionKind::NumericInt,
    InstructionKind::Numeric,
    InstructionKind::VectorInt,
    InstructionKind::Vector,
    InstructionKind::Reference,
    InstructionKind::Parametric,
    InstructionKind::Variable,
    InstructionKind::Table,
    InstructionKind::MemoryInt,
    InstructionKind::Memory,
    InstructionKind::Control,
    InstructionKind::Aggregate,
];

// Checks that the set has those kinds for which a `1` stands.
fn has_exactly(set: InstructionKinds, marks: &str) -> bool {
    for (kind, mark) in KINDS.iter().zip(marks.as_bytes()) {
        if set.contains(*kind) != (*mark == b'1') {
            return false;
        }
    }
    marks.len() == 12
}

#[test]
fn sets_have_their_kinds(rt: HostRuntime) {
    let some = [InstructionKind::Memory, InstructionKind::Table];
    assert!(rt; has_exactly(InstructionKinds::new(&some), "000000011100"));
    assert!(rt; has_exactly(InstructionKinds::new(&[]), "000000000000"));
    assert!(rt; InstructionKinds::new(&KINDS) == InstructionKinds::all());
    assert!(rt; has_exactly(InstructionKinds::all(), "111111111111"));
    assert!(rt; has_exactly(InstructionKinds::none(), "000000000000"));
}

#[test]
fn sets_lose_their_floats(rt: HostRuntime) {
    let all = InstructionKinds::all().without_floats();
    assert!(rt; has_exactly(all, "101011111011") && all.without_floats() == all);
    let numeric = InstructionKinds::new(&[InstructionKind::Numeric, InstructionKind::Control]);
    assert!(rt; has_exactly(numeric.without_floats(), "100000000010"));
}

// Texts of one kind, and what a set of it has.
const KIND_TEXTS: &str = "
    NumericInt | 100000000000
    Numeric | 110000000000
    VectorInt | 001000000000
    Vector | 001100000000
    Reference | 000010000000
    Parametric | 000001000000
    Variable | 000000100000
    Table | 000000010000
    MemoryInt | 000000001000
    Memory | 000000001100
    Control | 000000000010
    Aggregate | 000000000001
    numericint | 100000000000
    VECTORINT | 001000000000
    memoryInt | 000000001000
    numeric_non_float | 100000000000
    Vector_Non_Float | 001000000000
    MEMORY_NON_FLOAT | 000000001000
    numeric | 110000000000
    CONTROL | 000000000010
    // None of these is a name.
    | bad
    numeric_int | bad
    non_float | bad
    numeric_non_floats | bad
    numeri | bad
    numerics | bad
    float | bad
    all | bad
    none | bad
    * | bad
    table1 | bad
";

fn reads_a_kind(_alloc: Global, row: &str) -> Option<bool> {
    let (text, expected) = two_fields(row)?;
    match text.parse() {
        Ok(kind) => Some(has_exactly(InstructionKinds::new(&[kind]), expected)),
        Err(BadText) => Some(expected == "bad"),
    }
}

#[test]
fn kinds_have_texts(rt: HostRuntime) -> Result<(), Fail> {
    Ok(check_rows(rt.alloc(), KIND_TEXTS, 31, reads_a_kind)?)
}

// Texts of several kinds, and what their set has.
const SET_TEXTS: &str = "
    numeric,control | 110000000010
    Control,numeric_non_float,Control | 100000000010
    NumericInt,Numeric | 110000000000
    Numeric,numericint | 110000000000
    Numeric,Vector,Parametric,Table,Memory,Aggregate | 111101011101
    NumericInt,Numeric,VectorInt,Vector,Reference,Parametric,Variable,Table,MemoryInt,Memory,Control,Aggregate | 111111111111
    // A part is empty, has blanks or isn't a name.
    , | bad
    numeric, | bad
    ,numeric | bad
    numeric,,control | bad
    numeric, control | bad
    numeric ,control | bad
    numeric;control | bad
    numeric,floats | bad
    all | bad
";

// Returns true if the text of a set is read as expected.
fn reads_a_set(text: &str, expected: &str) -> bool {
    match text.parse::<InstructionKinds>() {
        Ok(set) => has_exactly(set, expected),
        Err(BadText) => expected == "bad",
    }
}

fn reads_kinds(_alloc: Global, row: &str) -> Option<bool> {
    let (text, expected) = two_fields(row)?;
    Some(reads_a_set(text, expected))
}

#[test]
fn sets_have_texts(rt: HostRuntime) -> Result<(), Fail> {
    check_rows(rt.alloc(), KIND_TEXTS, 31, reads_kinds)?;
    assert!(rt; reads_a_set(" numeric", "bad") && reads_a_set("numeric ", "bad"));
    Ok(check_rows(rt.alloc(), SET_TEXTS, 15, reads_kinds)?)
}

// Texts of weights, and what they are read as.
const WEIGHT_TEXTS: &str = "
    90,9,1 | 90 9 1
    0,0,0 | 0 0 0
    1,2,4294967295 | 1 2 4294967295
    4294967295,0,3 | 4294967295 0 3
    007,00000000000000000010,3 | 7 10 3
    // There are more or fewer than three.
    | bad
    1 | bad
    1,2 | bad
    1,2,3,4 | bad
    1,2,3, | bad
    // A part isn't a number of 32 bits.
    1,,3 | bad
    ,2,3 | bad
    1,2, | bad
    ,, | bad
    +1,2,3 | bad
    1,+2,3 | bad
    1,2,-3 | bad
    -0,2,3 | bad
    1, 2,3 | bad
    1,2 ,3 | bad
    4294967296,2,3 | bad
    1,4294967296,3 | bad
    1,2,99999999999999999999 | bad
    1,2,x | bad
    0x1,2,3 | bad
    1_0,2,3 | bad
    1.0,2,3 | bad
    1;2;3 | bad
";

// Returns three numbers that are parted by spaces.
fn weights_of(words: &str) -> Option<MemoryOffsetChoices> {
    let (first, rest) = words.split_once(' ')?;
    let (second, third) = rest.split_once(' ')?;
    Some(MemoryOffsetChoices(
        first.parse().ok()?,
        second.parse().ok()?,
        third.parse().ok()?,
    ))
}

fn reads_weights(_alloc: Global, row: &str) -> Option<bool> {
    let (text, expected) = two_fields(row)?;
    match text.parse::<MemoryOffsetChoices>() {
        Ok(weights) => Some(weights_of(expected) == Some(weights)),
        Err(BadText) => Some(expected == "bad"),
    }
}

#[test]
fn weights_have_texts(rt: HostRuntime) -> Result<(), Fail> {
    assert!(rt; " 1,2,3".parse::<MemoryOffsetChoices>() == Err(BadText));
    assert!(rt; "1,2,3 ".parse::<MemoryOffsetChoices>() == Err(BadText));
    Ok(check_rows(rt.alloc(), WEIGHT_TEXTS, 28, reads_weights)?)
}

// Drawn of no bytes.
const NOTHING: &str =
    "allow_floats=no allow_start_export=no bulk_memory_enabled=no exceptions_enabled=no \
    extended_const_enabled=no gc_enabled=no memory64_enabled=no multi_value_enabled=no \
    reference_types_enabled=no relaxed_simd_enabled=no saturating_float_to_int_enabled=no \
    sign_extension_ops_enabled=no simd_enabled=no tail_call_enabled=no \
    allow_invalid_funcs=no compact_imports_enabled=no custom_page_sizes_enabled=no \
    export_everything=no generate_custom_sections=no threads_enabled=no \
    wide_arithmetic_enabled=no stack_switching_enabled=no max_types=0 max_imports=0 \
    max_tags=0 max_funcs=0 max_globals=0 max_exports=0 max_element_segments=0 max_elements=0 \
    max_data_segments=0 max_tables=0 max_memories=0";

// Drawn of bytes that are all 255.
const EVERYTHING: &str =
    "allow_floats=yes allow_start_export=yes bulk_memory_enabled=yes exceptions_enabled=yes \
    extended_const_enabled=yes gc_enabled=yes memory64_enabled=yes multi_value_enabled=yes \
    reference_types_enabled=yes relaxed_simd_enabled=yes saturating_float_to_int_enabled=yes \
    sign_extension_ops_enabled=yes simd_enabled=yes tail_call_enabled=yes \
    allow_invalid_funcs=yes compact_imports_enabled=yes custom_page_sizes_enabled=yes \
    export_everything=yes generate_custom_sections=yes threads_enabled=yes \
    wide_arithmetic_enabled=yes stack_switching_enabled=yes max_types=53 max_imports=53 \
    max_tags=53 max_funcs=53 max_globals=53 max_exports=53 max_element_segments=53 \
    max_elements=53 max_data_segments=53 max_tables=53 max_memories=53";

// Drawn of 0, 1, 2 and so on, put in order.
const COUNTED: &str =
    "allow_floats=no allow_start_export=yes bulk_memory_enabled=no exceptions_enabled=yes \
    extended_const_enabled=no gc_enabled=no memory64_enabled=no multi_value_enabled=yes \
    reference_types_enabled=no relaxed_simd_enabled=no saturating_float_to_int_enabled=no \
    sign_extension_ops_enabled=yes simd_enabled=no tail_call_enabled=yes \
    allow_invalid_funcs=no compact_imports_enabled=no custom_page_sizes_enabled=yes \
    export_everything=yes generate_custom_sections=no threads_enabled=yes \
    wide_arithmetic_enabled=no stack_switching_enabled=yes max_types=26 max_imports=27 \
    max_tags=28 max_funcs=29 max_globals=30 max_exports=31 max_element_segments=32 \
    max_elements=33 max_data_segments=34 max_tables=1 max_memories=36";

// Returns true if this is drawn of the bytes, and no byte is left.
fn draws(alloc: Global, bytes: &[u8], config: Option<Config>) -> bool {
    let mut unstructured = Unstructured::new(bytes);
    let drawn = Some(Config::arbitrary(&mut unstructured));
    debugs_same(alloc, &drawn, &config) && unstructured.is_empty()
}

#[test]
fn draws_nothing_of_no_bytes(rt: HostRuntime) {
    assert!(rt; draws(rt.alloc(), &[], config_of(Config::default(), NOTHING)));
    assert!(rt; Config::arbitrary(&mut Unstructured::new(&[])).check() == Ok(()));
}

#[test]
fn draws_all_that_is_on(rt: HostRuntime) {
    let mut config = Config::default();
    config.canonicalize_nans = true;
    config.disallow_traps = true;
    config.memory_max_size_required = true;
    config.table_max_size_required = true;
    assert!(rt; draws(rt.alloc(), &[0xff; 37], config_of(config, EVERYTHING)));
}

#[test]
fn draws_in_order(rt: HostRuntime) {
    let mut config = Config::default();
    config.canonicalize_nans = true;
    config.memory_max_size_required = true;
    let bytes = [
        0, 1, 2, 3, 4, 5, 6, 7, 8, 9, 10, 11, 12, 13, 14, 15, 16, 17, 18, 19, 20, 21, 22, 23, 24,
        25, 26, 27, 28, 29, 30, 31, 32, 33, 34, 35, 36,
    ];
    assert!(rt; draws(rt.alloc(), &bytes, config_of(config, COUNTED)));
}
