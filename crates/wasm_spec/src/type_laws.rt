//! Laws of the encodings of types.

ghost use Rattle.std.specs.Prelude.{◌<◌, ◌^◌, ℕ, Bool, List, length};
ghost use Rattle.std.specs.List.{AllByRecursion};
ghost use Rattle.wasm_spec.specs.Bytes.{IsShortest};
ghost use Rattle.wasm_spec.specs.Grammar.{IsContent};
ghost use Rattle.wasm_spec.specs.SmallIndexes.{IsSmallGroup};
ghost use Rattle.wasm_spec.specs.Syntax.{TypeSection};
ghost use Rattle.wasm_spec.specs.TypeEncodings.{rec_groups_encoding};
ghost use Rattle.wasm_spec.specs.Types.{RecGroup};

/// What is written as the content of a type section, whose type indexes are below 2^32, is its shortest encoding, unless it is too long for a frame.
/// (A group of one type that is written out has another encoding than that type alone: they are two entries.)
pub fn shortest_type_sections()
    ensures { (compact : Bool) (groups : List (RecGroup ℕ)) → AllByRecursion IsSmallGroup groups → length (rec_groups_encoding groups) < 2 ^ 32
        → IsShortest (IsContent compact) (rec_groups_encoding groups) (TypeSection groups) }
{}
