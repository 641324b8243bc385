//! What operators are called in the text format, by their codes.

ghost use Rattle.std.specs.Prelude.{◌≡◌};
ghost use Rattle.wasm_gen_explain.specs.Names.{aggregate_names, byte_name, control_names, f32_names, f64_names, float_comparison_names, float_conversion_names, i32_names, i64_names, integer_comparison_names, integer_conversion_names, internal_names, load_names, name_at, name_of, range_names, reference_names, store_names, variable_names, vector_names};

// Returns the name of an operator of flow of control.
fn control_name(place: u8) -> &'static str
    ensures { result.now ≡ name_at control_names place }
{
    match place {
        0 => "unreachable",
        1 => "nop",
        2 => "block",
        3 => "loop",
        4 => "if",
        5 => "else",
        6 | 7 | 8 | 9 | 10 => "",
        11 => "end",
        12 => "br",
        13 => "br_if",
        14 => "br_table",
        15 => "return",
        16 => "call",
        17 => "call_indirect",
        18 => "return_call",
        19 => "return_call_indirect",
        20 => "call_ref",
        21 => "return_call_ref",
        22..=u8::MAX => "",
    }
}

// Returns the name of an operator of operands, locals, globals and elements of tables.
fn variable_name(place: u8) -> &'static str
    ensures { result.now ≡ name_at variable_names place }
{
    match place {
        0 => "drop",
        1 => "select",
        2 => "select",
        3 | 4 | 5 => "",
        6 => "local.get",
        7 => "local.set",
        8 => "local.tee",
        9 => "global.get",
        10 => "global.set",
        11 => "table.get",
        12 => "table.set",
        13..=u8::MAX => "",
    }
}

// Returns the name of an operator of loads.
fn load_name(place: u8) -> &'static str
    ensures { result.now ≡ name_at load_names place }
{
    match place {
        0 => "i32.load",
        1 => "i64.load",
        2 => "f32.load",
        3 => "f64.load",
        4 => "i32.load8_s",
        5 => "i32.load8_u",
        6 => "i32.load16_s",
        7 => "i32.load16_u",
        8 => "i64.load8_s",
        9 => "i64.load8_u",
        10 => "i64.load16_s",
        11 => "i64.load16_u",
        12 => "i64.load32_s",
        13 => "i64.load32_u",
        14..=u8::MAX => "",
    }
}

// Returns the name of an operator of stores, sizes of memories, and constants.
fn store_name(place: u8) -> &'static str
    ensures { result.now ≡ name_at store_names place }
{
    match place {
        0 => "i32.store",
        1 => "i64.store",
        2 => "f32.store",
        3 => "f64.store",
        4 => "i32.store8",
        5 => "i32.store16",
        6 => "i64.store8",
        7 => "i64.store16",
        8 => "i64.store32",
        9 => "memory.size",
        10 => "memory.grow",
        11 => "i32.const",
        12 => "i64.const",
        13 => "f32.const",
        14 => "f64.const",
        15..=u8::MAX => "",
    }
}

// Returns the name of an operator of tests and comparisons of integers.
fn integer_comparison_name(place: u8) -> &'static str
    ensures { result.now ≡ name_at integer_comparison_names place }
{
    match place {
        0 => "i32.eqz",
        1 => "i32.eq",
        2 => "i32.ne",
        3 => "i32.lt_s",
        4 => "i32.lt_u",
        5 => "i32.gt_s",
        6 => "i32.gt_u",
        7 => "i32.le_s",
        8 => "i32.le_u",
        9 => "i32.ge_s",
        10 => "i32.ge_u",
        11 => "i64.eqz",
        12 => "i64.eq",
        13 => "i64.ne",
        14 => "i64.lt_s",
        15 => "i64.lt_u",
        16 => "i64.gt_s",
        17 => "i64.gt_u",
        18 => "i64.le_s",
        19 => "i64.le_u",
        20 => "i64.ge_s",
        21 => "i64.ge_u",
        22..=u8::MAX => "",
    }
}

// Returns the name of an operator of comparisons of floats.
fn float_comparison_name(place: u8) -> &'static str
    ensures { result.now ≡ name_at float_comparison_names place }
{
    match place {
        0 => "f32.eq",
        1 => "f32.ne",
        2 => "f32.lt",
        3 => "f32.gt",
        4 => "f32.le",
        5 => "f32.ge",
        6 => "f64.eq",
        7 => "f64.ne",
        8 => "f64.lt",
        9 => "f64.gt",
        10 => "f64.le",
        11 => "f64.ge",
        12..=u8::MAX => "",
    }
}

// Returns the name of an operator of numbers of 32 bits.
fn i32_name(place: u8) -> &'static str
    ensures { result.now ≡ name_at i32_names place }
{
    match place {
        0 => "i32.clz",
        1 => "i32.ctz",
        2 => "i32.popcnt",
        3 => "i32.add",
        4 => "i32.sub",
        5 => "i32.mul",
        6 => "i32.div_s",
        7 => "i32.div_u",
        8 => "i32.rem_s",
        9 => "i32.rem_u",
        10 => "i32.and",
        11 => "i32.or",
        12 => "i32.xor",
        13 => "i32.shl",
        14 => "i32.shr_s",
        15 => "i32.shr_u",
        16 => "i32.rotl",
        17 => "i32.rotr",
        18..=u8::MAX => "",
    }
}

// Returns the name of an operator of numbers of 64 bits.
fn i64_name(place: u8) -> &'static str
    ensures { result.now ≡ name_at i64_names place }
{
    match place {
        0 => "i64.clz",
        1 => "i64.ctz",
        2 => "i64.popcnt",
        3 => "i64.add",
        4 => "i64.sub",
        5 => "i64.mul",
        6 => "i64.div_s",
        7 => "i64.div_u",
        8 => "i64.rem_s",
        9 => "i64.rem_u",
        10 => "i64.and",
        11 => "i64.or",
        12 => "i64.xor",
        13 => "i64.shl",
        14 => "i64.shr_s",
        15 => "i64.shr_u",
        16 => "i64.rotl",
        17 => "i64.rotr",
        18..=u8::MAX => "",
    }
}

// Returns the name of an operator of floats of 32 bits.
fn f32_name(place: u8) -> &'static str
    ensures { result.now ≡ name_at f32_names place }
{
    match place {
        0 => "f32.abs",
        1 => "f32.neg",
        2 => "f32.ceil",
        3 => "f32.floor",
        4 => "f32.trunc",
        5 => "f32.nearest",
        6 => "f32.sqrt",
        7 => "f32.add",
        8 => "f32.sub",
        9 => "f32.mul",
        10 => "f32.div",
        11 => "f32.min",
        12 => "f32.max",
        13 => "f32.copysign",
        14..=u8::MAX => "",
    }
}

// Returns the name of an operator of floats of 64 bits.
fn f64_name(place: u8) -> &'static str
    ensures { result.now ≡ name_at f64_names place }
{
    match place {
        0 => "f64.abs",
        1 => "f64.neg",
        2 => "f64.ceil",
        3 => "f64.floor",
        4 => "f64.trunc",
        5 => "f64.nearest",
        6 => "f64.sqrt",
        7 => "f64.add",
        8 => "f64.sub",
        9 => "f64.mul",
        10 => "f64.div",
        11 => "f64.min",
        12 => "f64.max",
        13 => "f64.copysign",
        14..=u8::MAX => "",
    }
}

// Returns the name of an operator of conversions to integers.
fn integer_conversion_name(place: u8) -> &'static str
    ensures { result.now ≡ name_at integer_conversion_names place }
{
    match place {
        0 => "i32.wrap_i64",
        1 => "i32.trunc_f32_s",
        2 => "i32.trunc_f32_u",
        3 => "i32.trunc_f64_s",
        4 => "i32.trunc_f64_u",
        5 => "i64.extend_i32_s",
        6 => "i64.extend_i32_u",
        7 => "i64.trunc_f32_s",
        8 => "i64.trunc_f32_u",
        9 => "i64.trunc_f64_s",
        10 => "i64.trunc_f64_u",
        11..=u8::MAX => "",
    }
}

// Returns the name of an operator of conversions to floats, other views of bits, and sign extensions.
fn float_conversion_name(place: u8) -> &'static str
    ensures { result.now ≡ name_at float_conversion_names place }
{
    match place {
        0 => "f32.convert_i32_s",
        1 => "f32.convert_i32_u",
        2 => "f32.convert_i64_s",
        3 => "f32.convert_i64_u",
        4 => "f32.demote_f64",
        5 => "f64.convert_i32_s",
        6 => "f64.convert_i32_u",
        7 => "f64.convert_i64_s",
        8 => "f64.convert_i64_u",
        9 => "f64.promote_f32",
        10 => "i32.reinterpret_f32",
        11 => "i64.reinterpret_f64",
        12 => "f32.reinterpret_i32",
        13 => "f64.reinterpret_i64",
        14 => "i32.extend8_s",
        15 => "i32.extend16_s",
        16 => "i64.extend8_s",
        17 => "i64.extend16_s",
        18 => "i64.extend32_s",
        19..=u8::MAX => "",
    }
}

// Returns the name of an operator of references.
fn reference_name(place: u8) -> &'static str
    ensures { result.now ≡ name_at reference_names place }
{
    match place {
        0 => "ref.null",
        1 => "ref.is_null",
        2 => "ref.func",
        3 => "ref.eq",
        4 => "ref.as_non_null",
        5 => "br_on_null",
        6 => "br_on_non_null",
        7..=u8::MAX => "",
    }
}

// Returns the name of an operator of structures and arrays.
fn aggregate_name(place: u32) -> &'static str
    ensures { result.now ≡ name_at aggregate_names place }
{
    match place {
        0 => "struct.new",
        1 => "struct.new_default",
        2 | 3 | 4 | 5 => "",
        6 => "array.new",
        7 => "array.new_default",
        8 => "array.new_fixed",
        9..=u32::MAX => "",
    }
}

// Returns the name of an operator of conversions of references.
fn internal_name(place: u32) -> &'static str
    ensures { result.now ≡ name_at internal_names place }
{
    match place {
        0 => "any.convert_extern",
        1 => "extern.convert_any",
        2 => "ref.i31",
        3..=u32::MAX => "",
    }
}

// Returns the name of an operator of saturating conversions, and what is on ranges.
fn range_name(place: u32) -> &'static str
    ensures { result.now ≡ name_at range_names place }
{
    match place {
        0 => "i32.trunc_sat_f32_s",
        1 => "i32.trunc_sat_f32_u",
        2 => "i32.trunc_sat_f64_s",
        3 => "i32.trunc_sat_f64_u",
        4 => "i64.trunc_sat_f32_s",
        5 => "i64.trunc_sat_f32_u",
        6 => "i64.trunc_sat_f64_s",
        7 => "i64.trunc_sat_f64_u",
        8 => "memory.init",
        9 => "data.drop",
        10 => "memory.copy",
        11 => "memory.fill",
        12 => "table.init",
        13 => "elem.drop",
        14 => "table.copy",
        15 => "table.grow",
        16 => "table.size",
        17 => "table.fill",
        18..=u32::MAX => "",
    }
}

// Returns the name of an operator of vectors.
fn vector_name(place: u32) -> &'static str
    ensures { result.now ≡ name_at vector_names place }
{
    match place {
        0 | 1 | 2 | 3 | 4 | 5 | 6 | 7 | 8 | 9 | 10 | 11 => "",
        12 => "v128.const",
        13..=u32::MAX => "",
    }
}

// Returns the name of a byte that is a code of its own.
fn byte_name(byte: u8) -> &'static str
    ensures { result.now ≡ byte_name byte }
{
    match byte {
        0x00..=0x19 => control_name(byte),
        0x1a..=0x27 => variable_name(byte - 0x1a),
        0x28..=0x35 => load_name(byte - 0x28),
        0x36..=0x44 => store_name(byte - 0x36),
        0x45..=0x5a => integer_comparison_name(byte - 0x45),
        0x5b..=0x66 => float_comparison_name(byte - 0x5b),
        0x67..=0x78 => i32_name(byte - 0x67),
        0x79..=0x8a => i64_name(byte - 0x79),
        0x8b..=0x98 => f32_name(byte - 0x8b),
        0x99..=0xa6 => f64_name(byte - 0x99),
        0xa7..=0xb1 => integer_conversion_name(byte - 0xa7),
        0xb2..=0xcf => float_conversion_name(byte - 0xb2),
        0xd0..=0xff => reference_name(byte - 0xd0),
    }
}

/// Returns what an operator is called whose code is this byte, or this prefix and this second code. A code that no operator has is called nothing.
pub(crate) fn operator_name(byte: u8, second: u32) -> &'static str
    ensures { result.now ≡ name_of byte second }
{
    match byte {
        0xfb if second < 26 => aggregate_name(second),
        0xfb => internal_name(second - 26),
        0xfc => range_name(second),
        0xfd => vector_name(second),
        _ => byte_name(byte),
    }
}
