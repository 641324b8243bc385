//! Modules that are made for shapes, and shapes for which none are.

use crate::generated::{are_fronts_made, makes};
use std::alloc::Global;
use std::test::Fail;
use wasm_gen_rows::modules::parts_of;
use wasm_smith_config_rows::settings::config_in;
use wasm_smith_config_rows::shaped::with_shapes;
use wasm_test_rows::fields::four_fields;
use wasm_test_rows::rows::check_rows;

/// A configuration, its shapes, a seed, and the sections that are made of it, or why none are.
pub const MADE: &str = "
    // A module's types, imports and exports: nothing is drawn for these, so that the first byte is that of a table and the second that of a memory.
    default | module / / | |
    default | module / / | 00 01 | 05 03 01 00 00
    default | module func -> ; / / f func 0, t table func 0.. | | types functions 04 0a 01 40 00 64 70 00 00 d2 00 0b 07 09 02 01 66 00 00 01 74 01 00 code
    default | module open struct i8 ; sub 0 struct i8 mut:1?, func 0 -> ; / one m g global 1? ; / h global 2? | | 01 18 02 50 00 5f 01 78 00 4e 02 4f 01 00 5f 02 78 00 63 01 01 60 01 64 00 00 02 09 01 01 6d 01 67 03 63 01 00 06 07 01 63 02 00 d0 02 0b 07 05 01 01 68 03 01
    // Groups of imports: empty ones aren't written, and without the feature each import stands alone.
    default compact_imports_enabled=yes max_memories=3 | module / many m : a memory 0.. ; many m : ; same n memory 1.. : b c ; same m memory 0.. : ; / | 00*512 | 02 17 02 01 6d 00 7f 01 01 61 02 00 00 01 6e 00 7e 02 00 01 02 01 62 01 63
    default max_memories=3 | module / many m : a memory 0.. ; many m : ; same n memory 1.. : b c ; same m memory 0.. : ; / | 00*512 | 02 16 03 01 6d 01 61 02 00 00 01 6e 01 62 02 00 01 01 6e 01 63 02 00 01
    // A table that may be of nulls is initialised where a bool says so, and garbage collection is on; others always are, and so are globals.
    default | module / / t table func? 0.. | | 04 04 01 70 00 00 07 05 01 01 74 01 00
    default | module / / t table func? 0.. | 01 | 04 09 01 40 00 70 00 00 d0 70 0b 07 05 01 01 74 01 00
    default gc_enabled=no | module / / t table func? 0.. | 01 | 04 04 01 70 00 00 05 03 01 00 00 07 05 01 01 74 01 00
    default reference_types_enabled=no | module / / t table func? 0.. | 01 | 04 04 01 70 00 00 05 03 01 00 00 07 05 01 01 74 01 00
    default | module / one m g global extern ; / h global extern | | 02 09 01 01 6d 01 67 03 64 6f 00 06 07 01 64 6f 00 23 00 0b 07 05 01 01 68 03 01
    default | module / / g global extern | | refused: empty choice
    default | module / one m g global mut:extern ; / h global extern | | refused: empty choice
    default | module / / t table extern 0.. | | refused: empty choice
    default | exports / / g global func | | refused: empty choice
    default max_types=0 min_element_segments=1 min_elements=1 | imports / one m t table i31 0.. ; / | 01 | refused: empty choice
    default max_types=0 min_element_segments=1 min_elements=1 | imports / many m : g global i31, t table i31 0.. ; / | 01 | 02 12 02 01 6d 01 67 03 64 6c 00 01 6d 01 74 01 64 6c 00 00 09 0c 01 06 00 41 00 0b 64 6c 01 23 00 0b
    // Imports that may be there: each where a bool is true.
    default max_types=0 | imports / one m a global i32 ; one m b global i64 ; one m c global mut:f32 ; / | 01 00 01 | 02 0f 02 01 6d 01 61 03 7f 00 01 6d 01 63 03 7d 01
    default max_types=0 compact_imports_enabled=yes | imports / many m : a global i32 ; many m : ; same n global i64 : b c ; / | 01 01 01 | 02 17 02 01 6d 00 7f 01 01 61 03 7f 00 01 6e 00 7e 03 7e 00 02 01 62 01 63
    default max_types=0 | imports / many m : a global i32, b global i64 ; one m c global f32 ; / | 01 00 | 02 0f 02 01 6d 01 61 03 7f 00 01 6d 01 62 03 7e 00
    // Their types stand behind those that are drawn, here one structure, and count among them.
    default | imports struct ; func -> ; / one m t table 0? 0.. ; one m f func 1 ; one m g global 0? ; one m e tag 1 ; / | 01 00 00 01 00 00 01 01 01 01 | 01 08 03 5f 00 5f 00 60 00 00 02 1f 04 01 6d 01 74 01 63 01 00 00 01 6d 01 66 00 02 01 6d 01 67 03 63 01 00 01 6d 01 65 04 00 02
    default max_types=2 | imports func -> ; func i32 -> ; / one m f func 1 ; / | 01 | 01 08 02 60 00 00 60 01 7f 00 02 07 01 01 6d 01 66 00 01
    // Exports: for each an item that the module defines, the first ones of their kind after imports. Their types stand last.
    default | exports func i32 -> ; / / f func 0 | 01 00 01 01 01 01 01 00 01 01 | 01 11 03 50 00 5f 01 78 01 50 00 5f 01 78 01 60 01 7f 00 03 02 01 02 07 05 01 01 66 00 00 code
    default | imports func -> ; / one m f func 0 ; / & exports func i32 -> ; / / g func 0 | 01 00 00 01 00 00 01 | 01 0a 03 5f 00 60 00 00 60 01 7f 00 02 07 01 01 6d 01 66 00 01 03 02 01 02 07 05 01 01 67 00 01 code
    default max_memories=3 min_memories=3 | exports / / b memory 1.., a memory 2.. | | 05 07 03 00 01 00 02 00 00 07 09 02 01 62 02 00 01 61 02 01
    // Drawn imports leave room for them, as to their number and size.
    default | exports / / a memory 0.. | 00 01 02 | 02 06 01 00 00 03 7f 00 05 03 01 00 00 07 05 01 01 61 02 00
    default min_imports=1 max_type_size=2 | exports / / a memory 0.. | | 02 06 01 00 00 03 7f 00 05 03 01 00 00 07 05 01 01 61 02 00
    default min_imports=1 max_type_size=1 | exports / / a memory 0.. | | refused: minimum
    // Maximums of items don't hold where shapes ask for more.
    default max_funcs=0 max_exports=0 max_types=0 max_type_size=0 | exports func -> ; / / f func 0 | | types functions 07 05 01 01 66 00 00 code
    default max_imports=0 max_globals=0 | module / one m a global i32 ; / b global i32 | | 02 08 01 01 6d 01 61 03 7f 00 06 06 01 7f 00 41 00 0b 07 05 01 01 62 03 01
    // Minimums: of types and items, among which those of shapes count; not of imports and exports that a shape gives.
    default min_types=1 | module func -> ; / / | | types
    default min_types=2 | module func -> ; / / | | refused: minimum
    gc_enabled=no min_types=2 | exports func i32 -> ; / / | | 01 08 02 60 00 00 60 01 7f 00
    default min_funcs=2 | exports func -> ; / / f func 0 | | types two-functions 07 05 01 01 66 00 00 0a 09 02 03 00 00 0b 03 00 00 0b
    default min_tags=1 | module func -> ; / / t tag 0 | | types 0d 03 01 00 00 07 05 01 01 74 04 00
    default min_imports=3 | module / one m a global i32 ; / | | 02 08 01 01 6d 01 61 03 7f 00
    default min_imports=3 | imports / one m a global i32 ; one m b global i32 ; / | 00*16 |
    default min_exports=5 | exports / / g global i32 | | 06 06 01 7f 00 41 00 0b 07 05 01 01 67 03 00
    default min_exports=5 | module / / | |
    // Everything is exported but where a shape says what is.
    default export_everything=yes min_funcs=1 | module func -> ; / / a memory 0.. | | types functions 05 03 01 00 00 07 05 01 01 61 02 00 code
    default export_everything=yes min_globals=2 max_type_size=0 | exports / / a memory 0.. | | 05 03 01 00 00 06 0b 02 7f 00 41 00 0b 7f 00 41 00 0b 07 05 01 01 61 02 00
    default export_everything=yes | imports / one m a memory 0.. ; / | 00 01 | 02 08 01 01 6d 01 61 02 00 00 07 04 01 00 02 00
";

/// The same of shapes that may not be asked for, beside some that may.
pub const REFUSED: &str = "
    default | module func 1? -> ; / / | | refused: shape groups
    default | module / one m f func 0 ; / | | refused: shape imports
    default | module / / f func 0 | | refused: shape exports
    default | imports struct cont? ; / / | | refused: shape groups
    default | imports / one m a memory 2..1 ; / | | refused: shape imports
    default | imports / / a memory 0.. | | refused: shape exports
    default | exports struct ; / / | | refused: shape groups
    default | exports / many m : ; / | | refused: shape imports
    default | exports func -> ; / / t table 0? 0.. | | refused: shape exports
    // By the features of the configuration put in order.
    default reference_types_enabled=no | module struct ; / / | | refused: shape groups
    default reference_types_enabled=no max_tables=2 | module / one m a table func? 0.. ; / b table func? 0.. | | refused: shape exports
    default simd_enabled=no | exports / / g global v128 | | refused: shape exports
    default exceptions_enabled=no | imports func -> ; / one m t tag 0 ; / | | refused: shape imports
    default | module / one m a memory 0.. ; / b memory 0.. | | refused: shape exports
    // Imports and exports that can't stand in one module, though each can by itself.
    default | imports / one m a memory 0.. ; / & exports / / b memory 0.. | | refused: shape together
    default max_memories=2 | imports / one m a memory 0.. ; / & exports / / b memory 0.. | | 05 03 01 00 00 07 05 01 01 62 02 00
    default max_memories=2 | imports / one m a memory 0.. ; / & exports / / b memory 0.. | 00 01 | 02 08 01 01 6d 01 61 02 00 00 05 03 01 00 00 07 05 01 01 62 02 01
    default | imports / same m memory 0.. : ; / & exports / / b memory 0.. | | 05 03 01 00 00 07 05 01 01 62 02 00
    default reference_types_enabled=no | imports / many m : a table func? 0.. ; / & exports / / b table func? 0.. | | refused: shape together
    default | imports / many m : a table func? 0.. ; / & exports / / b table func? 0.. | 00 01 | 02 09 01 01 6d 01 61 01 70 00 00 04 04 01 70 00 00 07 05 01 01 62 01 01
    // A module's shape stands alone.
    default | module / / & imports / / | | refused: config module_shape
    default | module / / & exports / / | | refused: config module_shape
    default | imports / / & exports / / | |
    // Of several reasons: the configuration's own fields, then imports, then exports.
    default min_types=2 max_types=1 | module func 1? -> ; / / | | refused: config min_types
    default | module func 1? -> ; / / & imports / / | | refused: config module_shape
    default | imports / one m a memory 2..1 ; / & exports struct ; / / | | refused: shape imports
    default | imports / one m a memory 0.. ; / & exports struct ; / / a memory 0.. | | refused: shape groups
";

// The same at the limit of types, of which those of shapes count.
const MANY: &str = "
    max_types=1000001 min_types=1000001 | exports func -> ; / / f func 0 | | refused: limit Types
    max_types=1000000 min_types=1000000 | exports func -> ; / / f func 0 | | 01 c3 8d b7 01 c0 84 3d 600000*1000000 03 04 01 bf 84 3d 07 05 01 01 66 00 00 code
";

// Checks that a row holds.
fn holds(alloc: Global, row: &str) -> Option<bool> {
    let (settings, shapes, seed, expected) = four_fields(row)?;
    let config = with_shapes(alloc, config_in(settings)?, shapes)?;
    let seed = parts_of(alloc, seed)?;
    Some(makes(alloc, &config, &seed, expected) && are_fronts_made(alloc, &seed))
}

#[test]
fn shapes_make_these_modules(rt: HostRuntime) -> Result<(), Fail> {
    Ok(check_rows(rt.alloc(), MADE, 42, holds)?)
}

#[test]
fn shapes_are_refused(rt: HostRuntime) -> Result<(), Fail> {
    Ok(check_rows(rt.alloc(), REFUSED, 27, holds)?)
}

#[test]
fn shapes_have_the_limit_of_types(rt: HostRuntime) -> Result<(), Fail> {
    Ok(check_rows(rt.alloc(), MANY, 2, holds)?)
}
