//! Which shapes modules can be asked for.

use std::alloc::{AllocError, Global};
use std::test::Fail;
use wasm_core::features::{Flags, WasmFeatures};
use wasm_smith::error::Error;
use wasm_smith_config_rows::shapes::shape_of;
use wasm_smith_shapes::shape::{Shape, ShapeUse};
use wasm_test_rows::fields::{four_fields, three_fields};
use wasm_test_rows::rows::check_rows;
use wasm_test_rows::shown::displays;

/// Shapes that differ in types and what they name. A row has features, what the shape is for, how many entries it may have, where `-` stands for the greatest
/// number, the shape, and the answer: `ok`, or the part that is bad.
pub const TYPES: &str = "
    // Nothing.
    all | module | - | / / | ok
    all | imports | - | / / | ok
    all | exports | - | / / | ok
    // Results.
    all | module | - | func -> i32 i32 ; / / | ok
    all but MULTI_VALUE | module | - | func -> i32 i32 ; / / | groups
    all but MULTI_VALUE | module | - | func i32 i32 -> i32 ; / / | ok
    // Vectors and floats.
    all | module | - | func v128 -> v128 ; / / | ok
    all but SIMD | module | - | func v128 -> ; / / | groups
    all but SIMD | module | - | func -> v128 ; / / | groups
    all but SIMD | module | - | struct v128 ; / / | groups
    all | module | - | func f32 -> f64 ; / / | ok
    all but FLOATS | module | - | func f32 -> ; / / | groups
    all but FLOATS | module | - | func -> f64 ; / / | groups
    all but FLOATS | module | - | array mut:f64 ; / / | groups
    all but SIMD FLOATS | module | - | func i32 i64 -> i64 ; struct i8 i16 mut:i32 ; / / | ok
    // References.
    all | module | - | func func? extern? exn? -> ; / / | ok
    all but REFERENCE_TYPES | module | - | func func? -> ; / / | groups
    all but REFERENCE_TYPES | module | - | func -> extern? ; / / | groups
    all but REFERENCE_TYPES | module | - | struct exn? ; / / | groups
    all but REFERENCE_TYPES | module | - | func -> ; func 0? -> ; / / | groups
    // References that can't be null.
    all | module | - | func func extern -> ; / / | ok
    all but FUNCTION_REFERENCES | module | - | func func -> ; / / | groups
    all but FUNCTION_REFERENCES | module | - | func extern -> ; / / | groups
    all but FUNCTION_REFERENCES | module | - | func func? extern? any exn -> ; / / | ok
    // Garbage collection.
    all | module | - | func any? eq? i31? struct? array? none? nofunc? noextern? -> ; / / | ok
    all but GC | module | - | func any? -> ; / / | groups
    all but GC | module | - | func eq? -> ; / / | groups
    all but GC | module | - | func i31? -> ; / / | groups
    all but GC | module | - | func struct? -> ; / / | groups
    all but GC | module | - | func array? -> ; / / | groups
    all but GC | module | - | func none? -> ; / / | groups
    all but GC | module | - | func nofunc? -> ; / / | groups
    all but GC | module | - | func noextern? -> ; / / | groups
    all but GC | module | - | func func? extern? exn? noexn? func extern -> ; / / | ok
    all | module | - | struct ; array i8 ; / / | ok
    all but GC | module | - | struct ; / / | groups
    all but GC | module | - | array i8 ; / / | groups
    all | module | - | open func -> ; sub 0 func -> ; / / | ok
    all but GC | module | - | open func -> ; / / | groups
    all but GC | module | - | func -> ; sub 0 func -> ; / / | groups
    // The types that came with it.
    all but GC_TYPES | module | - | func func? exn? -> func ; / / | ok
    all but GC_TYPES | module | - | func extern? -> ; / / | groups
    all but GC_TYPES | module | - | func any? -> ; / / | groups
    all but GC_TYPES | module | - | func noexn? -> ; / / | groups
    all but GC_TYPES | module | - | struct ; / / | groups
    all but GC_TYPES | module | - | array i8 ; / / | groups
    // Exceptions.
    all | module | - | func noexn? -> exn ; / / | ok
    all but EXCEPTIONS | module | - | func exn? -> ; / / | groups
    all but EXCEPTIONS | module | - | func noexn? -> ; / / | groups
    // Groups of several types, and of none.
    all | module | - | func ->, func -> ; / / | ok
    all but GC | module | - | func ->, func -> ; / / | groups
    all but GC | module | - | func -> ; func -> ; / / | ok
    all | module | - | ; / / | ok
    all but GC | module | - | ; / / | groups
    all but GC | module | - | func -> ; ; / / | groups
    // Types that types name: earlier ones, and with garbage collection all of their own group.
    all | module | - | func -> ; func 0? -> 0 ; / / | ok
    all but GC | module | - | func -> ; func 0? -> 0 ; / / | ok
    all but FUNCTION_REFERENCES | module | - | func -> ; func 0? -> 0 ; / / | ok
    all but GC FUNCTION_REFERENCES | module | - | func -> ; func 0? -> ; / / | groups
    all | module | - | func 0? -> ; / / | ok
    all but GC | module | - | func 0? -> ; / / | groups
    all but GC | module | - | func -> ; func -> 1? ; / / | groups
    all | module | - | func 1? ->, func -> ; / / | ok
    all | module | - | func 1? -> ; func -> ; / / | groups
    all but GC | module | - | func 1? -> ; func -> ; / / | groups
    all | module | - | struct i8 mut:2? ; struct ; / / | groups
    all | module | - | array 1? ; / / | groups
    all | module | - | func -> i32 1? ; / / | groups
    all | module | - | struct 4294967295? ; / / | groups
    // Continuations.
    all | module | - | func -> ; cont 0 ; / / | groups
    all | imports | - | func -> ; cont 0 ; / / | groups
    all | module | - | func cont? -> ; / / | groups
    all | module | - | func -> nocont? ; / / | groups
    all | module | - | struct i8 cont? ; / / | groups
    all | imports | - | array nocont? ; / / | groups
";

/// Shapes with supertypes.
pub const SUPERTYPES: &str = "
    all | module | - | open struct i8 ; sub 0 struct i8 i16 ; / / | ok
    all | module | - | open struct i8, sub 0 struct i8 i16 ; / / | ok
    // Final ones, later ones, none, itself.
    all | module | - | struct i8 ; sub 0 struct i8 i16 ; / / | groups
    all | module | - | sub 1 struct i8, open struct i8 ; / / | groups
    all | module | - | sub 1 struct i8 ; open struct i8 ; / / | groups
    all | module | - | sub 1 struct i8 ; / / | groups
    all | module | - | open struct ; sub 4294967295 struct ; / / | groups
    all | module | - | open sub 0 struct i8 ; / / | groups
    all | module | - | open sub 1 struct, open sub 0 struct ; / / | groups
    // Another kind.
    all | module | - | open struct i8 ; sub 0 array i8 ; / / | groups
    all | module | - | open array i8 ; sub 0 struct i8 ; / / | groups
    all | module | - | open func -> ; sub 0 struct ; / / | groups
    all | module | - | open struct ; sub 0 func -> ; / / | groups
    // Fields: what they hold, how many there are, and whether they can be set.
    all | module | - | open struct i8 ; sub 0 struct i16 ; / / | groups
    all | module | - | open struct i8 ; sub 0 struct i32 ; / / | groups
    all | module | - | open struct i32 ; sub 0 struct i64 ; / / | groups
    all | module | - | open struct i8 i8 ; sub 0 struct i8 ; / / | groups
    all | module | - | open struct mut:i8 ; sub 0 struct mut:i8 ; / / | ok
    all | module | - | open struct mut:i8 ; sub 0 struct i8 ; / / | groups
    all | module | - | open struct i8 ; sub 0 struct mut:i8 ; / / | groups
    all | module | - | open struct any? ; sub 0 struct i31 ; / / | ok
    all | module | - | open struct i31 ; sub 0 struct any? ; / / | groups
    all | module | - | open struct mut:any? ; sub 0 struct mut:i31? ; / / | groups
    all | module | - | open struct mut:any? ; sub 0 struct mut:any? ; / / | ok
    all | module | - | open array any? ; sub 0 array none? ; / / | ok
    all | module | - | open array none? ; sub 0 array any? ; / / | groups
    all | module | - | open array mut:any? ; sub 0 array mut:eq? ; / / | groups
    // Parameters and results.
    all | module | - | open func i31? -> ; sub 0 func any? -> ; / / | ok
    all | module | - | open func any? -> ; sub 0 func i31? -> ; / / | groups
    all | module | - | open func -> any? ; sub 0 func -> i31? ; / / | ok
    all | module | - | open func -> i31? ; sub 0 func -> any? ; / / | groups
    all | module | - | open func -> any? ; sub 0 func -> any ; / / | ok
    all | module | - | open func -> any ; sub 0 func -> any? ; / / | groups
    all | module | - | open func i32 -> ; sub 0 func -> ; / / | groups
    all | module | - | open func -> ; sub 0 func i32 -> ; / / | groups
    all | module | - | open func -> i32 ; sub 0 func -> ; / / | groups
    all | module | - | open func -> ; sub 0 func -> i32 ; / / | groups
    // Two levels.
    all | module | - | open struct ; open sub 0 struct i8 ; sub 1 struct i8 i16 ; / / | ok
    all | module | - | open struct ; open sub 0 struct i8 ; sub 1 struct i16 i16 ; / / | groups
    all | module | - | open struct ; sub 0 struct i8 ; sub 1 struct i8 i16 ; / / | groups
    all | module | - | open struct ; open sub 0 struct ; open sub 1 struct ; open array 0? ; sub 3 array 2? ; / / | ok
    all | module | - | open struct ; open sub 0 struct ; open sub 1 struct ; open array 2? ; sub 3 array 0? ; / / | groups
    // Types are told apart by their indexes, also where they are equal.
    all | module | - | open struct ; open struct ; open func -> 0? ; sub 2 func -> 0? ; / / | ok
    all | module | - | open struct ; open struct ; open func -> 0? ; sub 2 func -> 1? ; / / | groups
    all | module | - | open struct ; open struct ; open func 1? -> ; sub 2 func 0? -> ; / / | groups
    all | module | - | open struct 0? ; sub 0 struct 0? ; / / | ok
    all | module | - | open struct 0?, sub 0 struct 1? ; / / | ok
    all | module | - | open struct 1?, sub 0 struct 0? ; / / | groups
";

/// Shapes with imports.
pub const IMPORTS: &str = "
    // Functions.
    all | module | - | func -> ; / one m f func 0 ; / | ok
    all | imports | - | func -> ; / one m f func 0 ; / | ok
    all | module | - | / one m f func 0 ; / | imports
    all | module | - | func -> ; / one m f func 1 ; / | imports
    all | module | - | struct ; / one m f func 0 ; / | imports
    all | module | - | open func -> ; sub 0 func -> ; / one m f func 0 ; one m f func 1 ; / | ok
    // Globals.
    all | module | - | / one m g global i32 ; one m h global mut:i32 ; / | ok
    all but MUTABLE_GLOBAL | module | - | / one m h global mut:i32 ; / | imports
    all but MUTABLE_GLOBAL | module | - | / one m g global i32 ; / | ok
    all but SIMD | module | - | / one m g global v128 ; / | imports
    all but GC | module | - | / one m g global any? ; / | imports
    all | module | - | struct ; / one m g global 0 ; / | ok
    all | module | - | struct ; / one m g global 1? ; / | imports
    all | module | - | / one m g global cont? ; / | imports
    all | imports | - | / one m g global nocont? ; / | imports
    // Memories: how many there are.
    all | module | - | / one m a memory 0.. ; one m b memory 0.. ; / | ok
    all but MULTI_MEMORY | module | - | / one m a memory 0.. ; one m b memory 0.. ; / | imports
    all but MULTI_MEMORY | module | - | / one m a memory 0.. ; / | ok
    // Their bounds.
    all | module | - | / one m a memory 65536.. ; / | ok
    all | module | - | / one m a memory 65537.. ; / | imports
    all | module | - | / one m a memory 65536..65536 ; / | ok
    all | module | - | / one m a memory 0..65537 ; / | imports
    all | module | - | / one m a memory 2..1 ; / | imports
    all | module | - | / one m a memory64 281474976710656.. ; / | ok
    all | module | - | / one m a memory64 281474976710657.. ; / | imports
    all | module | - | / one m a memory64 0..281474976710657 ; / | imports
    all but MEMORY64 | module | - | / one m a memory64 0.. ; / | imports
    // Shared ones.
    all | module | - | / one m a memory 1..2 shared ; / | ok
    all | module | - | / one m a memory 1.. shared ; / | imports
    all but THREADS | module | - | / one m a memory 1..2 shared ; / | imports
    // Their pages.
    all | module | - | / one m a memory 0..4294967296 page 0 ; one m b memory 0..65536 page 16 ; / | ok
    all | module | - | / one m a memory 4294967297.. page 0 ; / | imports
    all | module | - | / one m a memory 65537.. page 16 ; / | imports
    all | module | - | / one m a memory64 18446744073709551615.. page 0 ; / | ok
    all | module | - | / one m a memory 0.. page 1 ; / | imports
    all | module | - | / one m a memory 0.. page 64 ; / | imports
    all but CUSTOM_PAGE_SIZES | module | - | / one m a memory 0.. page 0 ; / | imports
    all but CUSTOM_PAGE_SIZES | module | - | / one m a memory 0.. page 16 ; / | imports
    all | module | - | / one m a memory64 1..2 shared page 0 ; / | ok
    // Tables: how many there are.
    all | module | - | / one m a table func? 0.. ; one m b table func? 0.. ; / | ok
    all but REFERENCE_TYPES | module | - | / one m a table func? 0.. ; one m b table func? 0.. ; / | imports
    all but REFERENCE_TYPES | module | - | / one m a table func? 0.. ; / | ok
    // Their elements.
    all but REFERENCE_TYPES | module | - | / one m a table extern? 0.. ; / | imports
    all | module | - | struct ; / one m a table 0? 0.. ; / | ok
    all | module | - | struct ; / one m a table 1? 0.. ; / | imports
    all | module | - | / one m a table cont? 0.. ; / | imports
    all | imports | - | / one m a table nocont 0.. ; / | imports
    all but FUNCTION_REFERENCES | module | - | / one m a table any 0.. ; / | ok
    all but FUNCTION_REFERENCES | module | - | / one m a table func 0.. ; / | imports
    // Their bounds.
    all | module | - | / one m a table func? 1..1 ; / | ok
    all | module | - | / one m a table func? 2..1 ; / | imports
    all | module | - | / one m a table func? 4294967295.. ; / | ok
    all | module | - | / one m a table func? 4294967296.. ; / | imports
    all | module | - | / one m a table func? 0..4294967296 ; / | imports
    all | module | - | / one m a table64 func? 0..18446744073709551615 ; / | ok
    all but MEMORY64 | module | - | / one m a table64 func? 0.. ; / | imports
    // Tags.
    all | module | - | func i32 -> i32 ; / one m t tag 0 ; / | ok
    all but STACK_SWITCHING | module | - | func i32 -> i32 ; / one m t tag 0 ; / | imports
    all but STACK_SWITCHING | module | - | func i32 -> ; / one m t tag 0 ; / | ok
    all but EXCEPTIONS | module | - | func i32 -> ; / one m t tag 0 ; / | imports
    all | module | - | struct ; / one m t tag 0 ; / | imports
    all | module | - | func -> ; / one m t tag 1 ; / | imports
    // Several of one module: each of them counts.
    all | module | - | func -> ; / many m : a func 0, b func 0 ; / | ok
    all | module | - | func -> ; / many m : a func 0, b func 1 ; / | imports
    all but MULTI_MEMORY | module | - | / many m : a memory 0.., b memory 0.. ; / | imports
    all | module | - | func -> ; / same m func 0 : a b c ; / | ok
    all | module | - | func -> ; / same m func 1 : a ; / | imports
    all but MULTI_MEMORY | module | - | / same m memory 0.. : a ; / | ok
    all but MULTI_MEMORY | module | - | / same m memory 0.. : a b ; / | imports
    all but REFERENCE_TYPES | module | - | / many m : a table func? 0.. ; same m table func? 0.. : b ; / | imports
    all but MUTABLE_GLOBAL | module | - | / many m : a global i32, b global mut:i32 ; / | imports
    all | module | - | / many m : a global i32, b global cont? ; / | imports
    all | module | - | / same m global mut:i32 : a b ; same m global cont? : c ; / | imports
    // Without the feature for such entries too, as a module has their imports one by one then.
    all but COMPACT_IMPORTS | module | - | func -> ; / many m : a func 0 ; same m func 0 : b c ; / | ok
    // None of a module: only continuations are not allowed.
    all | module | - | / many m : ; same m func 0 : ; same m memory 2..1 : ; / | ok
    all | module | - | / same m table cont? 0.. : ; / | imports
    all | imports | - | / same m global nocont? : ; / | imports
    // Imports may have one name.
    all | module | - | / one - - global i32 ; one - - global i64 ; / | ok
";

/// Shapes with exports, and those that are for imports or exports only.
pub const EXPORTS: &str = "
    all | module | - | func -> ; / / f func 0, t table func? 0.., m memory 0.., g global mut:i32, - tag 0 | ok
    // Names.
    all | module | - | / / a global i32, b global i32 | ok
    all | module | - | / / a global i32, b global i32, a global i32 | exports
    all | module | - | / / - global i32, - memory 0.. | exports
    all | module | - | / one m a global i32 ; / a global i32 | ok
    // Functions and tags.
    all | module | - | / / f func 0 | exports
    all | module | - | struct ; / / f func 0 | exports
    all but STACK_SWITCHING | module | - | func -> i32 ; / / t tag 0 | exports
    all but EXCEPTIONS | module | - | func -> ; / / t tag 0 | exports
    // Tables, whose elements begin with null or a constant.
    all | module | - | / / t table any 0.. | ok
    all but FUNCTION_REFERENCES | module | - | / / t table any 0.. | exports
    all but FUNCTION_REFERENCES | module | - | / / t table any? 0.. | ok
    all | module | - | struct ; / / t table 0 0.. | ok
    all but FUNCTION_REFERENCES | module | - | struct ; / / t table 0 0.. | exports
    all | module | - | / / t table 0? 0.. | exports
    all | module | - | / / t table func? 2..1 | exports
    all | module | - | / / t table cont? 0.. | exports
    // Globals.
    all | module | - | / / g global mut:i32 | ok
    all but MUTABLE_GLOBAL | module | - | / / g global mut:i32 | exports
    all but MUTABLE_GLOBAL | module | - | / / g global i32 | ok
    all but FLOATS | module | - | / / g global f32 | exports
    all | module | - | struct ; / / g global 0 | ok
    all | module | - | / / g global 0? | exports
    all | module | - | / / g global nocont? | exports
    // Memories and tables, with those that are imported.
    all | module | - | / / m memory 0..65537 | exports
    all | module | - | / one m a memory 0.. ; / b memory 0.. | ok
    all but MULTI_MEMORY | module | - | / one m a memory 0.. ; / b memory 0.. | exports
    all but MULTI_MEMORY | module | - | / / a memory 0.., b memory 0.. | exports
    all but MULTI_MEMORY | module | - | / one m a table func? 0.. ; / b memory 0.. | ok
    all but REFERENCE_TYPES | module | - | / one m a table func? 0.. ; / b table func? 0.. | exports
    all but REFERENCE_TYPES | module | - | / / a table func? 0.., b table func? 0.. | exports
    all but REFERENCE_TYPES | module | - | / same m table func? 0.. : ; / b table func? 0.. | ok
    // Imports only.
    all | imports | - | func -> ; open struct 1? ; sub 1 struct 1? ; / one m f func 0 ; many m : t table 1 0.. ; / | ok
    all | imports | - | / / a memory 0.. | exports
    // Exports only: no entry of imports.
    all | exports | - | / one m a memory 0.. ; / | imports
    all | exports | - | / many m : ; / | imports
    all | exports | - | / same m memory 0.. : ; / | imports
    // Function types that name no types.
    all | exports | - | func i32 any? -> f64 ; func ->, func -> exn ; / / f func 0, g func 2, t tag 1 | ok
    all | exports | - | struct ; / / | groups
    all | exports | - | array i8 ; / / | groups
    all | exports | - | open func -> ; / / | groups
    all | exports | - | func -> ; sub 0 func -> ; / / | groups
    all | exports | - | func -> ; func 0? -> ; / / | groups
    all | exports | - | func -> ; func -> 0? ; / / | groups
    all | exports | - | func cont? -> ; / / | groups
    // Neither do tables and globals.
    all | exports | - | func -> ; / / t table func 0.., g global eq? | ok
    all | exports | - | func -> ; / / t table 0? 0.. | exports
    all | exports | - | func -> ; / / g global 0? | exports
    all | exports | - | / / g global cont? | exports
    all | exports | - | / / f func 0 | exports
";

/// Shapes by the number of their entries, and those with two bad parts.
pub const COUNTED: &str = "
    // Types: those of groups.
    all | module | 0 | / / | ok
    all | module | 2 | func -> ; func -> ; / / | ok
    all | module | 1 | func -> ; func -> ; / / | groups
    all | imports | 3 | func ->, func -> ; func -> ; / / | ok
    all | imports | 2 | func ->, func -> ; func -> ; / / | groups
    all | exports | 1 | func -> ; / / | ok
    all | exports | 0 | func -> ; / / | groups
    // Imports: those of entries.
    all | module | 2 | func -> ; / one m a func 0 ; / | ok
    all | module | 1 | func -> ; / one m a func 0 ; / | imports
    all | module | 3 | func -> ; / many m : a func 0, b func 0 ; / | ok
    all | module | 2 | func -> ; / many m : a func 0, b func 0 ; / | imports
    all | imports | 3 | func -> ; / same m func 0 : a b ; / | ok
    all | imports | 2 | func -> ; / same m func 0 : a b ; / | imports
    all | module | 4 | / one m a global i32 ; many m : b global i32 ; same m global i32 : c d ; / | ok
    all | module | 3 | / one m a global i32 ; many m : b global i32 ; same m global i32 : c d ; / | imports
    // Exports.
    all | module | 2 | / / a global i32, b global i32 | ok
    all | module | 1 | / / a global i32, b global i32 | exports
    all | exports | 2 | func -> ; / / f func 0 | ok
    all | exports | 1 | func -> ; / / f func 0 | exports
    all | module | 4 | func -> ; / same m func 0 : a b ; / f func 0 | ok
    all | module | 3 | func -> ; / same m func 0 : a b ; / f func 0 | exports
    // Groups and entries that are empty count nothing.
    all | module | 0 | ; ; / many m : ; same m func 0 : ; / | ok
    all | module | 1 | ; ; / many m : ; same m func 0 : ; / a global i32 | ok
    all | module | 0 | ; ; / many m : ; same m func 0 : ; / a global i32 | exports
    all | module | 4294967295 | func -> ; / one m f func 0 ; / f func 0 | ok
    // Two faults.
    all | module | - | func 1? -> ; / one m f func 1 ; / f func 1 | groups
    all | module | - | func 1? -> ; / one m f func 0 ; / f func 1 | groups
    all | module | - | func -> ; / one m f func 1 ; / f func 1 | imports
    all | exports | - | struct ; / one m a memory 0.. ; / t table cont? 0.. | groups
    all | exports | - | func -> ; / one m f func 0 ; / f func 1 | imports
    all | imports | - | func -> ; / one m f func 1 ; / f func 0 | imports
    all | module | 0 | func -> ; / one m f func 0 ; / f func 0 | groups
    all | module | 1 | func -> ; / one m f func 0 ; / f func 0 | imports
    all | module | 2 | func -> ; / one m f func 0 ; / f func 0 | exports
    all | module | 2 | func -> ; / one m f func 1 ; / f func 0 | imports
";

/// The features and the use that a shape is checked for.
#[derive(Clone, Copy)]
pub struct Asked {
    features: WasmFeatures,
    purpose: ShapeUse,
    most: Option<u32>,
}

// Returns the features of a field: `all`, or `all but` and those that are off.
fn features_of(field: &str) -> Option<WasmFeatures> {
    let (most, others) = field.split_once(" but ").unwrap_or((field, ""));
    if most != "all" {
        return None;
    }
    let mut features = WasmFeatures::all();
    for name in others.split_whitespace() {
        features = features.difference(WasmFeatures::from_name(name)?);
    }
    Some(features)
}

fn purpose_of(word: &str) -> Option<ShapeUse> {
    match word {
        "module" => Some(ShapeUse::Module),
        "imports" => Some(ShapeUse::Imports),
        "exports" => Some(ShapeUse::Exports),
        _ => None,
    }
}

fn most_of(word: &str) -> Option<Option<u32>> {
    match word {
        "-" => Some(None),
        _ => Some(Some(word.parse().ok()?)),
    }
}

/// Returns what a row asks, its shape, and the answer.
pub fn parts_of(row: &str) -> Option<(Asked, &str, &str)> {
    let (features, rest) = row.split_once('|')?;
    let (purpose, most, text, expected) = four_fields(rest)?;
    let asked = Asked {
        features: features_of(features.trim())?,
        purpose: purpose_of(purpose)?,
        most: most_of(most)?,
    };
    Some((asked, text, expected))
}

/// Checks a shape as a row asks.
pub fn checked(alloc: Global, shape: &Shape, asked: Asked) -> Result<(), Error> {
    match asked.most {
        Some(most) => shape.check_within(alloc, asked.features, asked.purpose, most),
        None => shape.check(alloc, asked.features, asked.purpose),
    }
}

/// Checks that the answer is `ok`, or names this part.
pub fn is_answer(answer: Result<(), Error>, expected: &str) -> bool {
    match answer {
        Ok(()) => expected == "ok",
        Err(Error::BadShape(part)) => part == expected,
        Err(_) => false,
    }
}

fn holds(alloc: Global, row: &str) -> Option<bool> {
    let (asked, text, expected) = parts_of(row)?;
    let shape = shape_of(alloc, text)?;
    Some(is_answer(checked(alloc, &shape, asked), expected))
}

#[test]
fn types_are_checked(rt: HostRuntime) -> Result<(), Fail> {
    check_rows(rt.alloc(), TYPES, 75, holds)?;
    Ok(check_rows(rt.alloc(), SUPERTYPES, 48, holds)?)
}

#[test]
fn imports_and_exports_are_checked(rt: HostRuntime) -> Result<(), Fail> {
    check_rows(rt.alloc(), IMPORTS, 78, holds)?;
    Ok(check_rows(rt.alloc(), EXPORTS, 50, holds)?)
}

#[test]
fn entries_are_counted(rt: HostRuntime) -> Result<(), Fail> {
    Ok(check_rows(rt.alloc(), COUNTED, 35, holds)?)
}

// Checks that a shape of a module is answered so under all features.
fn answers(alloc: Global, text: &str, expected: &str) -> bool {
    match shape_of(alloc, text) {
        Some(shape) => {
            let answer = shape.check(alloc, WasmFeatures::all(), ShapeUse::Module);
            is_answer(answer, expected)
        }
        None => false,
    }
}

// Returns a shape of a structure and of so many more, each under the one before it.
fn chain(alloc: Global, links: u32) -> Result<String, AllocError> {
    let mut text = String::from_str(alloc, "open struct ;")?;
    for above in 0..links {
        text.push_str(&format!(in alloc; "open sub {above} struct ;")?)?;
    }
    text.push_str("/ /")?;
    Ok(text)
}

#[test]
fn chains_have_a_greatest_length(rt: HostRuntime) -> Result<(), Fail> {
    let alloc = rt.alloc();
    assert!(rt; answers(alloc, &chain(alloc, 63)?, "ok"));
    assert!(rt; answers(alloc, &chain(alloc, 64)?, "groups"));
    Ok(())
}

// Returns a shape of so many types, imports of one entry, and exports.
fn large(alloc: Global, count: u32) -> Result<String, AllocError> {
    let mut text = format!(in alloc; "func -> * {count}; / same m func 0 :")?;
    for _ in 0..count {
        text.push_str(" i")?;
    }
    text.push_str(" ; / e0 func 0")?;
    for number in 1..count {
        text.push_str(&format!(in alloc; ", e{number} func {number}")?)?;
    }
    Ok(text)
}

// It would take minutes if names, or types, were looked for one by one.
#[test]
fn large_shapes_are_checked(rt: HostRuntime) -> Result<(), Fail> {
    let alloc = rt.alloc();
    assert!(rt; answers(alloc, &large(alloc, 100_000)?, "ok"));
    Ok(())
}

// Shapes, the part that is bad, and what the error displays.
const NAMED: &str = "
    func 1? -> ; / / | groups | bad shape: groups
    / one m f func 0 ; / | imports | bad shape: imports
    / / f func 0 | exports | bad shape: exports
";

fn reason_of(part: &str) -> Option<Error> {
    match part {
        "groups" => Some(Error::BadShape("groups")),
        "imports" => Some(Error::BadShape("imports")),
        "exports" => Some(Error::BadShape("exports")),
        _ => None,
    }
}

// Checks that an error is the one of a part, and none of another part.
fn is_reason(error: Error, part: &str) -> bool {
    for other in ["groups", "imports", "exports"] {
        if (reason_of(other) == Some(error)) != (other == part) {
            return false;
        }
    }
    true
}

fn names_part(alloc: Global, row: &str) -> Option<bool> {
    let (text, part, shown) = three_fields(row)?;
    let shape = shape_of(alloc, text)?;
    match shape.check(alloc, WasmFeatures::all(), ShapeUse::Module) {
        Ok(()) => Some(false),
        Err(error) => Some(is_reason(error, part) && displays(alloc, &error, shown)),
    }
}

#[test]
fn bad_parts_are_named(rt: HostRuntime) -> Result<(), Fail> {
    Ok(check_rows(rt.alloc(), NAMED, 3, names_part)?)
}
