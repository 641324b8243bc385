//! Modules made of bytes.

use std::alloc::Global;
use std::test::Fail;
use wasm_smith::code::Instructions;
use wasm_smith::config::Config;
use wasm_smith::error::Error;
use wasm_smith::module::Module;
use wasm_smith::unstructured::Unstructured;
use wasm_smith_config_rows::settings::config_in;
use wasm_test_rows::fields::{four_fields, two_fields};
use wasm_test_rows::rows::check_rows;
use wasm_test_rows::shown::{debugs, debugs_same, displays};
use wasm_test_rows::values::bytes_of;
use wasm_test_types::types::sub_types_of;

/// A configuration, the bytes, the types that are made, and the functions with their bodies. Where no module is made, the
/// third field is `refused`, and then there is the cause.
pub const MADE: &str = "
    | | | ([], [])
    | 01 00 00 00 01 | func -> | ([0], [Code { locals: [], instructions: Unreachable }])
    | 01 01 00 00 00 00 01 | func i32 -> | ([0], [Code { locals: [], instructions: Unreachable }])
    | 01 00 00 00 01 00 01 04 | func -> | ([0], [Code { locals: [V128], instructions: Unreachable }])
    | 01 00 01 05 02 | func -> exn? | ([], [])
    min_types=2 | | func ->, func -> | ([], [])
    // With garbage collection: an open structure and its clone, two structures that refer to each other, and an array of itself and its clone.
    gc_enabled=yes | 01 00 01 01 01 01 01 00 01 01 | open struct mut:i8, open struct mut:i8 | ([], [])
    gc_enabled=yes | 01 01 00 01 01 00 05 00 01 01 00 00 00 01 01 00 05 00 01 | struct 1?, struct 0? | ([], [])
    gc_enabled=yes | 01 00 00 02 00 05 00 01 00 01 01 00 | array 0?, array 1? | ([], [])
    // A function is of a function type, and its locals refer to types.
    gc_enabled=yes | 01 00 00 01 00 01 00 00 00 00 00 00 00 01 00 01 05 01 01 01 | struct, func -> | ([1], [Code { locals: [Ref(RefType { nullable: false, heap_type: Concrete(1) })], instructions: Unreachable }])
    allow_invalid_funcs=yes | 01 00 00 00 01 00 00 01 ff 01 | func -> | ([0], [Code { locals: [], instructions: Raw([255]) }])
    gc_enabled=yes min_funcs=1 | 01 00 00 01 00 00 | refused | incorrect format
    max_types=0 min_funcs=1 | | refused | incorrect format
    min_types=1 max_types=0 | | refused | bad configuration: min_types
";

fn has_types(alloc: Global, module: &Module, types: &str) -> bool {
    let expected = sub_types_of(alloc, types);
    let holds = debugs_same(alloc, &Some(module.types()), &expected);
    // (dropped by a call, which is cheaper to prove)
    drop(expected);
    holds
}

// Checks that a module tells of each body if it has raw bytes.
fn tells_raw_bodies(module: &Module) -> bool {
    for (function, body) in module.bodies().iter().enumerate() {
        let is_raw = matches!(&body.instructions, Instructions::Raw(_));
        if module.is_raw_body(function) != is_raw {
            return false;
        }
    }
    true
}

/// Checks that a module has this configuration, these types, and these functions and bodies.
pub fn has_parts(alloc: Global, module: &Module, config: &Config, types: &str, rest: &str) -> bool {
    let parts = (module.funcs(), module.bodies());
    debugs_same(alloc, module.config(), config)
        && has_types(alloc, module, types)
        && tells_raw_bodies(module)
        && debugs(alloc, &parts, rest)
}

/// Makes a module for a copy of the configuration.
pub fn new_module(alloc: Global, config: &Config, bytes: &[u8]) -> Result<Module, Error> {
    let config = config.try_clone(alloc)?;
    Module::new(alloc, config, &mut Unstructured::new(bytes))
}

// Checks that what is expected is made of the bytes, or the cause of the refusal is.
fn makes(alloc: Global, config: &Config, bytes: &[u8], types: &str, rest: &str) -> bool {
    let made = new_module(alloc, config, bytes);
    let holds = match &made {
        Ok(module) => has_parts(alloc, module, config, types, rest),
        Err(error) => types == "refused" && displays(alloc, error, rest),
    };
    drop(made);
    holds
}

fn holds(alloc: Global, row: &str) -> Option<bool> {
    let (settings, bytes, types, rest) = four_fields(row)?;
    let config = config_in(settings)?;
    let bytes = bytes_of(alloc, bytes)?;
    Some(makes(alloc, &config, &bytes, types, rest))
}

/// The bytes of a module with most kinds of items.
pub const BYTES: &[u8] = &[
    1, 0, 0, 0, 0, 0, 0, 0, 1, 0, 1, 0, 1, 0, 0, 0, 0, 0, 0, 1, 0, 0, 0, 1, 0, 1, 0, 7, 0, 0, 0, 0,
    0, 1, 1, 0, 1, 1,
];

// Accessors, and what they show of the module that is made of these bytes by default.
const SHOWN: &str = "
    imports | []
    tables | [Table { ty: TableType { element_type: RefType { nullable: true, heap_type: Abstract(Func) }, table64: false, minimum: 1, maximum: None }, init: None }]
    memories | []
    tags | [0]
    globals | [Global { ty: GlobalType { val_type: I32, mutable: true }, init: I32(7) }]
    exports | []
    start | Some(0)
    elems | [ElementSegment { mode: Active { table: 0, offset: I32(0) }, items: Functions([0]) }]
    data | []
    custom_sections | []
    is_raw_body | false
";

// Checks what an accessor of a module shows.
fn shows(alloc: Global, module: &Module, accessor: &str, expected: &str) -> Option<bool> {
    match accessor {
        "imports" => Some(debugs(alloc, &module.imports(), expected)),
        "tables" => Some(debugs(alloc, &module.tables(), expected)),
        "memories" => Some(debugs(alloc, &module.memories(), expected)),
        "tags" => Some(debugs(alloc, &module.tags(), expected)),
        "globals" => Some(debugs(alloc, &module.globals(), expected)),
        "exports" => Some(debugs(alloc, &module.exports(), expected)),
        "start" => Some(debugs(alloc, &module.start(), expected)),
        "elems" => Some(debugs(alloc, &module.elems(), expected)),
        "data" => Some(debugs(alloc, &module.data(), expected)),
        "custom_sections" => Some(debugs(alloc, &module.custom_sections(), expected)),
        "is_raw_body" => Some(debugs(alloc, &module.is_raw_body(0), expected)),
        _ => None,
    }
}

fn is_shown(alloc: Global, row: &str) -> Option<bool> {
    let (accessor, expected) = two_fields(row)?;
    let made = Module::new(alloc, Config::default(), &mut Unstructured::new(BYTES));
    let holds = match &made {
        Ok(module) => shows(alloc, module, accessor, expected),
        Err(_) => None,
    };
    drop(made);
    holds
}

#[test]
fn modules_show_their_items(rt: HostRuntime) -> Result<(), Fail> {
    Ok(check_rows(rt.alloc(), SHOWN, 11, is_shown)?)
}

#[test]
fn modules_are_made_of_bytes(rt: HostRuntime) -> Result<(), Fail> {
    Ok(check_rows(rt.alloc(), MADE, 14, holds)?)
}
