//! Worked examples of numbers.

ghost use Rattle.std.specs.Prelude.{ℕ, ℤ, pos, negsuc, [], ◌∷◌};
ghost use Rattle.wasm_spec.specs.Bytes.{IsU32, IsU64, IsS32, IsS33, IsS64, IsF32, IsF64};

/// Unsigned numbers, read by hand.
pub fn unsigned()
    ensures one_byte { IsU32 (0x7f ∷ []) 127 }
    ensures two_bytes { IsU32 (0x80 ∷ 0x01 ∷ []) 128 }
    ensures cut { (n : ℕ) → ¬ (IsU32 (0x80 ∷ []) n) }
    ensures unused_bits { (n : ℕ) → ¬ (IsU32 (0x84 ∷ 0x80 ∷ 0x80 ∷ 0x80 ∷ 0x10 ∷ []) n) }
    ensures greatest { IsU64 (0xff ∷ 0xff ∷ 0xff ∷ 0xff ∷ 0xff ∷ 0xff ∷ 0xff ∷ 0xff ∷ 0xff ∷ 0x01 ∷ []) 18446744073709551615 }
    ensures padded { IsU64 (0x84 ∷ 0x80 ∷ 0x80 ∷ 0x80 ∷ 0x80 ∷ 0x80 ∷ 0x80 ∷ 0x80 ∷ 0x80 ∷ 0x00 ∷ []) 4 }
    ensures past_64_bits { (n : ℕ) → ¬ (IsU64 (0x80 ∷ 0x80 ∷ 0x80 ∷ 0x80 ∷ 0x80 ∷ 0x80 ∷ 0x80 ∷ 0x80 ∷ 0x80 ∷ 0x02 ∷ []) n) }
    ensures too_long { (n : ℕ) → ¬ (IsU64 (0x84 ∷ 0x80 ∷ 0x80 ∷ 0x80 ∷ 0x80 ∷ 0x80 ∷ 0x80 ∷ 0x80 ∷ 0x80 ∷ 0x80 ∷ 0x00 ∷ []) n) }
{}

/// Signed numbers, read by hand: the bit of 64 in the last byte is the sign.
pub fn signed()
    ensures nought { IsS32 (0x00 ∷ []) (pos 0) }
    ensures one { IsS32 (0x01 ∷ []) (pos 1) }
    ensures minus_one { IsS32 (0x7f ∷ []) (negsuc 0) }
    ensures greatest_of_a_byte { IsS32 (0x3f ∷ []) (pos 63) }
    ensures above_a_byte { IsS32 (0xc0 ∷ 0x00 ∷ []) (pos 64) }
    ensures least_of_a_byte { IsS32 (0x40 ∷ []) (negsuc 63) }
    ensures below_a_byte { IsS32 (0xbf ∷ 0x7f ∷ []) (negsuc 64) }
    ensures seven_bits { IsS32 (0xff ∷ 0x00 ∷ []) (pos 127) }
    ensures eight_bits { IsS32 (0x80 ∷ 0x01 ∷ []) (pos 128) }
    ensures cut { (z : ℤ) → ¬ (IsS32 (0x80 ∷ []) z) }
{}

/// The bounds of signed numbers, what is past them, and numbers padded to the limit.
pub fn signed_bounds()
    // 32 bits: four of the fifth byte.
    ensures greatest_s32 { IsS32 (0xff ∷ 0xff ∷ 0xff ∷ 0xff ∷ 0x07 ∷ []) (pos 2147483647) }
    ensures least_s32 { IsS32 (0x80 ∷ 0x80 ∷ 0x80 ∷ 0x80 ∷ 0x78 ∷ []) (negsuc 2147483647) }
    ensures above_s32 { (z : ℤ) → ¬ (IsS32 (0x80 ∷ 0x80 ∷ 0x80 ∷ 0x80 ∷ 0x08 ∷ []) z) }
    ensures below_s32 { (z : ℤ) → ¬ (IsS32 (0xff ∷ 0xff ∷ 0xff ∷ 0xff ∷ 0x77 ∷ []) z) }
    ensures padded_s32 { IsS32 (0xff ∷ 0xff ∷ 0xff ∷ 0xff ∷ 0x7f ∷ []) (negsuc 0) }
    ensures unused_bits_s32 { (z : ℤ) → ¬ (IsS32 (0xff ∷ 0xff ∷ 0xff ∷ 0xff ∷ 0x0f ∷ []) z) }
    ensures too_long_s32 { (z : ℤ) → ¬ (IsS32 (0xff ∷ 0xff ∷ 0xff ∷ 0xff ∷ 0xff ∷ 0x7f ∷ []) z) }

    // 33 bits: five of the fifth byte.
    ensures greatest_s33 { IsS33 (0xff ∷ 0xff ∷ 0xff ∷ 0xff ∷ 0x0f ∷ []) (pos 4294967295) }
    ensures least_s33 { IsS33 (0x80 ∷ 0x80 ∷ 0x80 ∷ 0x80 ∷ 0x70 ∷ []) (negsuc 4294967295) }
    ensures above_s33 { (z : ℤ) → ¬ (IsS33 (0x80 ∷ 0x80 ∷ 0x80 ∷ 0x80 ∷ 0x10 ∷ []) z) }
    ensures below_s33 { (z : ℤ) → ¬ (IsS33 (0xff ∷ 0xff ∷ 0xff ∷ 0xff ∷ 0x6f ∷ []) z) }
    ensures padded_s33 { IsS33 (0xff ∷ 0xff ∷ 0xff ∷ 0xff ∷ 0x7f ∷ []) (negsuc 0) }
    ensures too_long_s33 { (z : ℤ) → ¬ (IsS33 (0xff ∷ 0xff ∷ 0xff ∷ 0xff ∷ 0xff ∷ 0x7f ∷ []) z) }

    // 64 bits: one of the tenth byte.
    ensures greatest_s64 { IsS64 (0xff ∷ 0xff ∷ 0xff ∷ 0xff ∷ 0xff ∷ 0xff ∷ 0xff ∷ 0xff ∷ 0xff ∷ 0x00 ∷ []) (pos 9223372036854775807) }
    ensures least_s64 { IsS64 (0x80 ∷ 0x80 ∷ 0x80 ∷ 0x80 ∷ 0x80 ∷ 0x80 ∷ 0x80 ∷ 0x80 ∷ 0x80 ∷ 0x7f ∷ []) (negsuc 9223372036854775807) }
    ensures above_s64 { (z : ℤ) → ¬ (IsS64 (0x80 ∷ 0x80 ∷ 0x80 ∷ 0x80 ∷ 0x80 ∷ 0x80 ∷ 0x80 ∷ 0x80 ∷ 0x80 ∷ 0x01 ∷ []) z) }
    ensures below_s64 { (z : ℤ) → ¬ (IsS64 (0xff ∷ 0xff ∷ 0xff ∷ 0xff ∷ 0xff ∷ 0xff ∷ 0xff ∷ 0xff ∷ 0xff ∷ 0x7e ∷ []) z) }
    ensures padded_s64 { IsS64 (0xff ∷ 0xff ∷ 0xff ∷ 0xff ∷ 0xff ∷ 0xff ∷ 0xff ∷ 0xff ∷ 0xff ∷ 0x7f ∷ []) (negsuc 0) }
    ensures too_long_s64 { (z : ℤ) → ¬ (IsS64 (0xff ∷ 0xff ∷ 0xff ∷ 0xff ∷ 0xff ∷ 0xff ∷ 0xff ∷ 0xff ∷ 0xff ∷ 0xff ∷ 0x7f ∷ []) z) }
{}

/// Floating-point numbers are their bits, the lowest byte first.
pub fn floats()
    // 1, as 32 and as 64 bits, and the bits with nothing but the sign.
    ensures one_f32 { IsF32 (0x00 ∷ 0x00 ∷ 0x80 ∷ 0x3f ∷ []) 0x3f800000 }
    ensures one_f64 { IsF64 (0x00 ∷ 0x00 ∷ 0x00 ∷ 0x00 ∷ 0x00 ∷ 0x00 ∷ 0xf0 ∷ 0x3f ∷ []) 0x3ff0000000000000 }
    ensures sign_f32 { IsF32 (0x00 ∷ 0x00 ∷ 0x00 ∷ 0x80 ∷ []) 0x80000000 }

    // Nothing else is read, and nothing shorter or longer.
    ensures high_first { ¬ (IsF32 (0x3f ∷ 0x80 ∷ 0x00 ∷ 0x00 ∷ []) 0x3f800000) }
    ensures short { (n : ℕ) → ¬ (IsF32 (0x00 ∷ 0x80 ∷ 0x3f ∷ []) n) }
    ensures long { (n : ℕ) → ¬ (IsF32 (0x00 ∷ 0x00 ∷ 0x00 ∷ 0x80 ∷ 0x3f ∷ []) n) }
{}
