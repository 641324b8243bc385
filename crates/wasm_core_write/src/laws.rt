//! Laws of the encodings of numbers, types and sections. The functions do nothing: their contracts are theorems.

ghost use Rattle.std.specs.Prelude.{◌≡◌, ◌+◌, ℕ, List, length};
ghost use Rattle.std.specs.List.{sum_by};
ghost use Rattle.wasm_spec.specs.TypeEncodings.{rec_group_encoding, rec_groups_encoding};
ghost use Rattle.wasm_spec.specs.Types.{RecGroup};
ghost use Rattle.wasm_spec.specs.Shortest.{unsigned_encoding, framed_encoding};

/// Two type sections have the same bytes exactly where they have the same entries; a group of one type and that type
/// alone are two entries.
pub fn same_entries()
    ensures { (entries others : List (RecGroup ℕ)) → framed_encoding (rec_groups_encoding entries) ≡ framed_encoding (rec_groups_encoding others) → entries ≡ others }
{}

/// The content of a type section is the number of its entries, and the bytes of each.
pub fn entry_lengths()
    ensures { (entries : List (RecGroup ℕ))
        → length (rec_groups_encoding entries) ≡ length (unsigned_encoding (length entries)) + sum_by (λ entry. length (rec_group_encoding entry)) entries }
{}
