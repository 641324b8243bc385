//! Modules that are made for shapes of drawn seeds: sessions accept them, and they are true to the shapes.

use crate::drawn_modules::drawn_bytes;
use crate::generated::{is_accepted, new_module};
use crate::numbers::Numbers;
use crate::true_to_shape::{is_true_to, moved_text};
use std::alloc::Global;
use std::test::Fail;
use wasm_gen::smith::Config;
use wasm_smith_config_rows::settings::config_in;
use wasm_smith_config_rows::shaped::with_shapes;
use wasm_test_rows::fields::two_fields;
use wasm_test_rows::rows::check_rows;

/// Configurations, and shapes of modules. In these a type's index stands in brackets.
pub const MODULES: &str = "
    default | / /
    default | func -> ; / /
    default | func i32 -> i32 ; / one m f func [0] ; / g func [0], h func [0]
    default | open struct i8 ; sub [0] struct i8 i16 ; / one m g global [0]? ; / h global [1]?, t table [0]? 0..
    default | func [1]? ->, struct mut:[0]? ; array [1] ; / / f func [0], g global mut:[2]?
    default max_memories=3 | / one m a memory 0.. ; many n : b memory64 1..2, c global i64 ; / d memory 1..
    default compact_imports_enabled=yes | func -> ; / many m : a func [0], b func [0] ; many m : ; same m func [0] : c d e ; same m func [0] : ; / f func [0]
    default compact_imports_enabled=yes custom_page_sizes_enabled=yes threads_enabled=yes | / same m memory 1..2 shared page 0 : a ; / g global f64
    default gc_enabled=no | func i32 -> ; func -> ; / one m t tag [0] ; one m f func [1] ; / t tag [0], u tag [1]
    default reference_types_enabled=no simd_enabled=no | func i64 -> ; / / t table func? 0..10, f func [0]
    default | func -> ; / / t table func 0.., f func [0], u table [0] 1..1, g global func, h global [0]
    default | / one m g global extern ; one m h global i31 ; / i global extern, t table i31 0..4, j global any
    default stack_switching_enabled=yes | func i32 -> i32 ; / one m t tag [0] ; / u tag [0], f func [0]
    default export_everything=yes disallow_traps=yes max_type_size=1 | func -> ; / one m f func [0] ; / t table func? 0..10, m memory 1..3
    default generate_custom_sections=yes | ; ; func ->, func -> ; ; / many m : ; same n func [0] : ; / - func [1]
    default | func any? eq? i31? -> none? nofunc? ; / one - - func [0] ; one - - func [0] ; / a func [0], b func [0]
    default exceptions_enabled=no extended_const_enabled=no | func -> ; / / f func [0], g global v128, h global mut:f32, i global i64, j global any?
    default min_funcs=3 min_tables=1 min_globals=2 min_memories=1 min_data_segments=1 min_element_segments=1 | func -> ; / / t table extern? 2..
    default max_imports=0 max_funcs=0 max_globals=0 max_tables=0 max_memories=0 max_tags=0 max_exports=0 | func -> ; / one m a global i32 ; / f func [0], t tag [0], g global mut:i64, m memory 0.., u table64 exn? 0..
    default | func -> * 20; struct [0]? [19]? * 20; / many m : a func [3], b func [19], c global mut:[39]?, d tag [7], e table [25]? 1..2 ; / f func [19], g global [20]?, h tag [5]
";

/// The same of imports.
pub const IMPORTS: &str = "
    default | / /
    default | func -> ; / /
    default | / one m a global i32 ; one m b global i64 ; one m c global f32 ; one m d global f64 ; one m e global v128 ; /
    default | func i32 -> i32 ; / one m f func [0] ; one m g func [0] ; /
    default | open struct i8 ; sub [0] struct i8 i16 ; / one m g global [0]? ; one m h global [1]? ; one m t table [0]? 0.. ; /
    default | func [1]? ->, struct mut:[0]? ; array [1] ; / one m f func [0] ; one m g global mut:[2]? ; one m h global [2] ; /
    default max_memories=3 | / one m a memory 0.. ; many n : b memory64 1..2, c global i64 ; one m d memory 1.. ; /
    default compact_imports_enabled=yes | func -> ; / many m : a func [0], b func [0] ; many m : ; same m func [0] : c d e ; same m func [0] : ; /
    default | func -> ; / many m : a func [0], b func [0] ; many m : ; same m func [0] : c d e ; same m func [0] : ; one m g global func ; /
    default compact_imports_enabled=yes custom_page_sizes_enabled=yes threads_enabled=yes | / same m memory 1..2 shared page 0 : a ; many m : b global i32 ; /
    default gc_enabled=no | func i32 -> ; func -> ; / one m t tag [0] ; one m f func [1] ; one m u tag [1] ; one m g func [0] ; /
    default reference_types_enabled=no simd_enabled=no | func i64 -> ; / one m t table func? 0..10 ; one m f func [0] ; /
    default | / one m g global extern ; one m h global any ; many m : i global i31, j table i31 0..4 ; /
    default stack_switching_enabled=yes | func i32 -> i32 ; / one m t tag [0] ; one m f func [0] ; /
    default export_everything=yes max_type_size=2147483648 | func -> ; / one m f func [0] ; one m t table func? 0..10 ; one m a memory 1..3 ; /
    default max_types=2 max_imports=0 max_exports=200 min_exports=0 | func any? eq? i31? -> none? nofunc? ; func -> ; / one - - func [0] ; one - a func [1] ; /
    default min_imports=3 min_funcs=3 min_tables=1 min_globals=2 min_memories=1 min_data_segments=1 min_exports=2 | func -> ; / one m f func [0] ; one m a memory64 0..1 ; /
    default max_funcs=0 max_globals=0 max_tables=0 max_memories=0 max_tags=0 | func -> ; / one m a global i32 ; one m f func [0] ; one m t tag [0] ; one m u table64 exn? 0.. ; one m v memory 7.. ; /
    default min_types=30 gc_enabled=no | func -> * 3; / one m f func [2] ; one m g func [0] ; /
    default | ; func -> * 20; struct [0]? [19]? * 20; / many m : a func [3], b func [19], c global mut:[39]?, d tag [7], e table [25]? 1..2 ; same m func [1] : f g ; /
";

/// The same of exports.
pub const EXPORTS: &str = "
    default | / /
    default | func -> ; / /
    default | func i32 -> i32 ; func i64 -> ; / / f func [0], g func [0], h tag [1]
    default | / / a global i32, b global i64, c global f32, d global f64, e global v128, f global mut:i32, g global any?, h global extern?
    default | func -> ; / / f func [0], g global func, h global nofunc?, t table func 0..10, u table any? 0..
    default max_memories=3 | / / a memory 0.., b memory64 1..2, c memory 3..3
    default max_memories=3 max_imports=3 | / / a memory 0.., b memory64 1..2
    default compact_imports_enabled=yes | func i32 any? -> f64 ; func ->, func -> exn? ; / / f func [0], g func [2], t tag [1]
    default custom_page_sizes_enabled=yes threads_enabled=yes | / / a memory 1..2 shared page 0, g global f64
    default gc_enabled=no | func i32 -> ; func -> ; / / t tag [0], u tag [1], f func [1], v table func? 0..
    default reference_types_enabled=no simd_enabled=no | func i64 -> ; / / t table func? 0..10, f func [0]
    default stack_switching_enabled=yes | func i32 -> i32 ; / / u tag [0], f func [0], g global exn?
    default export_everything=yes disallow_traps=yes max_type_size=1 | func -> ; / / t table func? 0..10, m memory 1..3
    default generate_custom_sections=yes | ; ; func ->, func -> ; ; / / - func [1]
    default | func any? eq? i31? -> none? nofunc? ; / / a func [0], b func [0]
    default exceptions_enabled=no extended_const_enabled=no | func -> ; / / f func [0], g global v128, h global mut:f32, i global i64, j global any?
    default min_imports=3 min_types=3 min_funcs=3 min_tables=2 max_tables=2 min_globals=2 min_memories=1 min_data_segments=1 min_element_segments=1 min_exports=7 | func -> ; / / t table extern? 2..
    default max_types=0 max_imports=0 max_funcs=0 max_globals=0 max_tables=0 max_memories=0 max_tags=0 max_exports=0 | func -> ; / / f func [0], t tag [0], g global mut:i64, m memory 0.., u table64 exn? 0..
    default min_types=30 gc_enabled=no | func -> * 3; / / f func [2], g func [0]
    default max_tables=9 | func -> * 20; func any? -> eq? * 20; / / f func [3], g func [39], c global mut:eq?, t tag [7], u table func 1..2, v table exn? 0.., w table64 i31? 1..
";

// Checks that a module is made of the seed, which a session accepts, and is true to the shape of the text.
fn is_made(alloc: Global, config: &Config, seed: &[u8], purpose: &str, text: &str) -> bool {
    if !is_accepted(alloc, config, seed) {
        return false;
    }
    let made = new_module(alloc, config, seed);
    let holds = match &made {
        Ok(module) => is_true_to(alloc, module, purpose, text) == Some(true),
        Err(_) => false,
    };
    // (dropped by a call, which is cheaper to prove)
    drop(made);
    holds
}

// Returns 0 to 399 bytes. Those of two thirds of the seeds are odd more often, so that growing goes on.
fn drawn_seed(alloc: Global, numbers: &mut Numbers) -> Vec<u8> {
    let len = numbers.below(400);
    let made_odd = numbers.below(3).wrapping_mul(2);
    drawn_bytes(alloc, numbers, len, made_odd)
}

// Checks that modules of so many seeds are made.
fn are_made(alloc: Global, config: &Config, purpose: &str, text: &str, seeds: u32) -> bool {
    let mut numbers = Numbers::new(31);
    for _ in 0..seeds {
        let seed = drawn_seed(alloc, &mut numbers);
        if !is_made(alloc, config, &seed, purpose, text) {
            return false;
        }
    }
    true
}

/// Returns the configuration of a row with a shape for this use.
pub fn config_for(alloc: Global, purpose: &str, row: &str) -> Option<Config> {
    let (settings, text) = two_fields(row)?;
    let written = moved_text(alloc, text, 0)?;
    let field = format!(in alloc; "{purpose} {written}").ok()?;
    with_shapes(alloc, config_in(settings)?, &field)
}

// Checks a row with a shape for this use.
fn holds(alloc: Global, purpose: &str, row: &str) -> Option<bool> {
    let (_settings, text) = two_fields(row)?;
    let config = config_for(alloc, purpose, row)?;
    Some(are_made(alloc, &config, purpose, text, 200))
}

fn module_holds(alloc: Global, row: &str) -> Option<bool> {
    holds(alloc, "module", row)
}

fn imports_hold(alloc: Global, row: &str) -> Option<bool> {
    holds(alloc, "imports", row)
}

fn exports_hold(alloc: Global, row: &str) -> Option<bool> {
    holds(alloc, "exports", row)
}

#[test]
fn modules_are_true_to_their_shapes(rt: HostRuntime) -> Result<(), Fail> {
    Ok(check_rows(rt.alloc(), MODULES, 20, module_holds)?)
}

#[test]
fn modules_have_some_of_their_imports(rt: HostRuntime) -> Result<(), Fail> {
    Ok(check_rows(rt.alloc(), IMPORTS, 20, imports_hold)?)
}

#[test]
fn modules_have_their_exports(rt: HostRuntime) -> Result<(), Fail> {
    Ok(check_rows(rt.alloc(), EXPORTS, 20, exports_hold)?)
}
