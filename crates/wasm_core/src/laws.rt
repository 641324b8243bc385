//! Laws that tie the parts together. The functions do nothing: their contracts are theorems.

ghost use Rattle.std.specs.Prelude.{◌≡◌, ◌<◌, ◌-◌, ◌^◌, ◌++◌, ℕ, pos, negsuc, Bool, List, Some, length};
ghost use Rattle.std.specs.List.{AllByRecursion};
ghost use Rattle.wasm_core_read.specs.ModuleReading.{content_of};
ghost use Rattle.wasm_core_read.specs.Reading.{unsigned_at, signed_at};
ghost use Rattle.wasm_spec.specs.Shortest.{unsigned_encoding, signed_encoding, framed_encoding};
ghost use Rattle.wasm_spec.specs.SmallIndexes.{IsSmallGroup};
ghost use Rattle.wasm_spec.specs.Syntax.{TypeSection};
ghost use Rattle.wasm_spec.specs.TypeEncodings.{rec_groups_encoding};
ghost use Rattle.wasm_spec.specs.Types.{RecGroup};

/// A number that is written is read back, whatever follows it.
pub fn numbers_read_back()
    ensures unsigned { (bits n : ℕ) (rest : List ℕ) → n < 2 ^ bits → unsigned_at bits (unsigned_encoding n ++ rest) ≡ Some (n, rest) }
    ensures not_negative { (bits m : ℕ) (rest : List ℕ) → m < 2 ^ (bits - 1) → signed_at bits (signed_encoding (pos m) ++ rest) ≡ Some (pos m, rest) }

    // negsuc m is -(m + 1).
    ensures negative { (bits m : ℕ) (rest : List ℕ) → m < 2 ^ (bits - 1) → signed_at bits (signed_encoding (negsuc m) ++ rest) ≡ Some (negsuc m, rest) }
{}

/// A type section that is written is read back, where its type indexes are below 2^32: first the size of its content, and then its entries.
pub fn type_sections_read_back()
    ensures sizes { (groups : List (RecGroup ℕ)) (rest : List ℕ) → length (rec_groups_encoding groups) < 2 ^ 32
        → unsigned_at 32 (framed_encoding (rec_groups_encoding groups) ++ rest) ≡ Some (length (rec_groups_encoding groups), rec_groups_encoding groups ++ rest) }
    ensures entries { (compact : Bool) (groups : List (RecGroup ℕ)) → AllByRecursion IsSmallGroup groups → length (rec_groups_encoding groups) < 2 ^ 32
        → content_of compact 1 (rec_groups_encoding groups) ≡ Some (TypeSection groups) }
{}
