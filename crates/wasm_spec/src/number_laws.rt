//! Laws of numbers.

ghost use Rattle.std.specs.Prelude.{◌<◌, ◌-◌, ◌^◌, ℕ, pos, negsuc};
ghost use Rattle.wasm_spec.specs.Bytes.{IsUnsigned, IsSigned, IsShortest};
ghost use Rattle.wasm_spec.specs.Shortest.{unsigned_encoding, signed_encoding};

/// What is written of a number is its shortest encoding, at any width that the number has.
pub fn shortest_numbers()
    ensures unsigned { (bits n : ℕ) → n < 2 ^ bits → IsShortest (IsUnsigned bits) (unsigned_encoding n) n }
    ensures positive { (bits n : ℕ) → n < 2 ^ (bits - 1) → IsShortest (IsSigned bits) (signed_encoding (pos n)) (pos n) }

    // `negsuc n` is -(n + 1).
    ensures negative { (bits n : ℕ) → n < 2 ^ (bits - 1) → IsShortest (IsSigned bits) (signed_encoding (negsuc n)) (negsuc n) }
{}
