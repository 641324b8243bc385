//! Worked examples of modules with imports, and of such as aren't valid.

ghost use Rattle.std.specs.Prelude.{◌≡◌, ◌++◌, ℕ, List, [], ◌∷◌, false, length, true};
ghost use Rattle.wasm_spec.specs.Features.{CompactImports, Features, has};
ghost use Rattle.wasm_spec.specs.Grammar.{header};
ghost use Rattle.wasm_spec.specs.Limits.{total_of_types};
ghost use Rattle.wasm_spec.specs.Syntax.{TypeSection, ImportSection, FunctionSection, StartSection, CodeSection, CompactItems, CompactNames, Import};
ghost use Rattle.wasm_spec.specs.Types.{I32, Concrete, FuncComposite, FuncExternal, FuncKind, GlobalKind, MemoryExternal, MemoryKind, MemoryType, RecGroup, Ref, Single, TableExternal, TableKind, TagExternal, TagKind, GlobalExternal};
ghost use Rattle.wasm_spec_examples.specs.Examples.{at_least};
ghost use Rattle.wasm_spec_examples.specs.TypeExamples.{empty_function, final_type, gives, takes};
ghost use Rattle.wasm_validity.specs.Context.{after_all, at_first};
ghost use Rattle.wasm_validity.specs.Entries.{Entry, OfFunction, OfImport};
ghost use Rattle.wasm_validity.specs.Fronts.{BeginsWith};
ghost use Rattle.wasm_validity.specs.Validity.{BeginsInvalid};
ghost use Rattle.wasm_validity_examples.specs.Examples.{IsBroken, IsFine, IsKept, between, constant, named, reference, table_of};

use wasm_spec_examples::grammar_examples::imports_and_exports;

/// A module may start with a function that it imports. That one has no body: the bodies are those of the module's own functions.
pub fn imported_functions()
    ensures starts { (features : Features) (origin name : List ℕ) → length origin ≡ 3 → length name ≡ 3 → IsFine features
        (TypeSection (Single (final_type empty_function) ∷ []) ∷ ImportSection (Import origin name (FuncExternal 0) ∷ []) ∷ StartSection 0 ∷ []) }
    ensures own_after_it { (features : Features) → IsFine features
        (TypeSection (Single (final_type empty_function) ∷ Single (final_type (FuncComposite (gives (I32 ∷ [])))) ∷ []) ∷ ImportSection (Import [] [] (FuncExternal 1) ∷ [])
        ∷ FunctionSection (0 ∷ []) ∷ CodeSection ((0x00 ∷ 0x0b ∷ []) ∷ []) ∷ []) }
    ensures starts_with_a_parameter { (features : Features) (origin name : List ℕ) → ¬ (IsFine features
        (TypeSection (Single (final_type (FuncComposite (takes (I32 ∷ [])))) ∷ []) ∷ ImportSection (Import origin name (FuncExternal 0) ∷ []) ∷ StartSection 0 ∷ [])) }
    ensures no_type { (features : Features) (origin name : List ℕ) (index : ℕ) → ¬ (IsFine features (ImportSection (Import origin name (FuncExternal index) ∷ []) ∷ [])) }
    ensures later_type { (features : Features) (origin name : List ℕ) (groups : List (RecGroup ℕ)) → ¬ (IsFine features
        (ImportSection (Import origin name (FuncExternal 0) ∷ []) ∷ TypeSection groups ∷ [])) }
{}

/// Groups of imports, which read with a feature alone (`grammar_examples` of the specification), are valid where each import in them is. Of an empty
/// one nothing is asked but the length of its module's name, and that the index of a type is one for which there is room.
pub fn groups()
    ensures items { (features : Features) → IsFine features
        (ImportSection (CompactItems (0x6d ∷ []) (record { name = 0x61 ∷ []; type = MemoryExternal (at_least 1) } ∷ []) ∷ []) ∷ []) }
    ensures second_item { (features : Features) (name : List ℕ) (type : MemoryType) → ¬ (IsFine features
        (ImportSection (CompactItems [] (record { name = []; type = GlobalExternal (constant I32) } ∷ record { name = name; type = MemoryExternal (between 2 1) } ∷ []) ∷ []) ∷ [])) }
    ensures second_name { (features : Features) (name : List ℕ) (type : MemoryType) → length name ≡ 100001 → ¬ (IsFine features
        (ImportSection (CompactNames [] (MemoryExternal type) ([] ∷ name ∷ []) ∷ []) ∷ [])) }
    ensures empty { (features : Features) → IsFine features (ImportSection (CompactNames [] (MemoryExternal (between 2 1)) [] ∷ CompactItems [] [] ∷ []) ∷ []) }
    ensures module_of_none { (features : Features) (origin : List ℕ) → length origin ≡ 100001 → ¬ (IsFine features (ImportSection (CompactItems origin [] ∷ []) ∷ [])) }
    ensures greatest_index { IsKept at_first (OfImport (CompactNames [] (TableExternal (table_of (reference true (Concrete 1048575)) (at_least 1))) [])) }
    ensures larger_index { IsBroken at_first (OfImport (CompactNames [] (TableExternal (table_of (reference true (Concrete total_of_types)) (at_least 1))) [])) }
    ensures larger_in_a_global { IsBroken at_first (OfImport (CompactNames [] (GlobalExternal (constant (Ref true (Concrete total_of_types)))) [])) }
{}

/// Imports of the same two names are shown together, where the first of them stands; each is the next item of its kind.
pub fn names()
    ensures together { (after_all at_first (OfImport (Import (0x6d ∷ []) (0x61 ∷ []) (FuncExternal 0)) ∷ OfImport (Import (0x6e ∷ []) (0x62 ∷ []) (MemoryExternal (at_least 1)))
        ∷ OfImport (Import (0x6d ∷ []) (0x61 ∷ []) (GlobalExternal (constant I32))) ∷ [])).imported
        ≡ named (0x6d ∷ []) (0x61 ∷ []) FuncKind 0 ∷ named (0x6d ∷ []) (0x61 ∷ []) GlobalKind 0 ∷ named (0x6e ∷ []) (0x62 ∷ []) MemoryKind 0 ∷ [] }
    ensures apart { (after_all at_first (OfImport (Import (0x61 ∷ []) (0x62 ∷ 0x63 ∷ []) (TagExternal 0)) ∷ OfImport (Import (0x61 ∷ 0x62 ∷ []) (0x63 ∷ []) (TagExternal 0))
        ∷ OfImport (Import (0x61 ∷ []) (0x62 ∷ 0x63 ∷ []) (TagExternal 1)) ∷ [])).imported
        ≡ named (0x61 ∷ []) (0x62 ∷ 0x63 ∷ []) TagKind 0 ∷ named (0x61 ∷ []) (0x62 ∷ 0x63 ∷ []) TagKind 2 ∷ named (0x61 ∷ 0x62 ∷ []) (0x63 ∷ []) TagKind 1 ∷ [] }
    ensures of_items { (after_all at_first (OfImport (CompactItems (0x6d ∷ []) (record { name = 0x61 ∷ []; type = FuncExternal 0 } ∷ record { name = 0x62 ∷ []; type = FuncExternal 0 } ∷ []))
        ∷ OfImport (Import (0x6d ∷ []) (0x61 ∷ []) (TableExternal (table_of (reference true (Concrete 0)) (at_least 1)))) ∷ OfFunction 0 ∷ [])).imported
        ≡ named (0x6d ∷ []) (0x61 ∷ []) FuncKind 0 ∷ named (0x6d ∷ []) (0x61 ∷ []) TableKind 0 ∷ named (0x6d ∷ []) (0x62 ∷ []) FuncKind 1 ∷ [] }
    ensures of_names { (after_all at_first (OfImport (CompactNames (0x6d ∷ []) (MemoryExternal (at_least 1)) ((0x61 ∷ []) ∷ (0x62 ∷ []) ∷ (0x61 ∷ []) ∷ [])) ∷ [])).imported
        ≡ named (0x6d ∷ []) (0x61 ∷ []) MemoryKind 0 ∷ named (0x6d ∷ []) (0x61 ∷ []) MemoryKind 2 ∷ named (0x6d ∷ []) (0x62 ∷ []) MemoryKind 1 ∷ [] }
{}

/// A section with an import of a type that isn't there breaks a rule, whatever follows.
pub fn fronts()
    ensures no_type { (features : Features) (rest : List ℕ) → BeginsInvalid features
        (header ++ (0x02 ∷ 0x07 ∷ 0x01 ∷ 0x01 ∷ 0x6d ∷ 0x01 ∷ 0x66 ∷ 0x00 ∷ 0x05 ∷ rest)) }
{
    imports_and_exports();
}

/// A section with a group of imports begins with that group where the feature for it is on, and else with nothing that reads: here a memory of module `m`, and
/// two of one type.
pub fn fronts_of_groups()
    ensures items { (rest : List ℕ) → BeginsWith true (header ++ (0x02 ∷ 0x0b ∷ 0x01 ∷ 0x01 ∷ 0x6d ∷ 0x00 ∷ 0x7f ∷ 0x01 ∷ 0x01 ∷ 0x61 ∷ 0x02 ∷ 0x00 ∷ 0x01 ∷ rest))
        (OfImport (CompactItems (0x6d ∷ []) (record { name = 0x61 ∷ []; type = MemoryExternal (at_least 1) } ∷ [])) ∷ []) }
    ensures items_without { (rest : List ℕ) (entries : List Entry)
        → BeginsWith false (header ++ (0x02 ∷ 0x0b ∷ 0x01 ∷ 0x01 ∷ 0x6d ∷ 0x00 ∷ 0x7f ∷ 0x01 ∷ 0x01 ∷ 0x61 ∷ 0x02 ∷ 0x00 ∷ 0x01 ∷ rest)) entries → entries ≡ [] }
    ensures names { (rest : List ℕ) → BeginsWith true (header ++ (0x02 ∷ 0x0d ∷ 0x01 ∷ 0x01 ∷ 0x6d ∷ 0x00 ∷ 0x7e ∷ 0x02 ∷ 0x00 ∷ 0x01 ∷ 0x02 ∷ 0x01 ∷ 0x61 ∷ 0x01 ∷ 0x62 ∷ rest))
        (OfImport (CompactNames (0x6d ∷ []) (MemoryExternal (at_least 1)) ((0x61 ∷ []) ∷ (0x62 ∷ []) ∷ [])) ∷ []) }
    ensures names_without { (rest : List ℕ) (entries : List Entry)
        → BeginsWith false (header ++ (0x02 ∷ 0x0d ∷ 0x01 ∷ 0x01 ∷ 0x6d ∷ 0x00 ∷ 0x7e ∷ 0x02 ∷ 0x00 ∷ 0x01 ∷ 0x02 ∷ 0x01 ∷ 0x61 ∷ 0x01 ∷ 0x62 ∷ rest)) entries → entries ≡ [] }
{
    imports_and_exports();
}

/// So a group with a memory whose bounds are crossed is invalid with the feature, and without it nothing is broken by what doesn't read.
pub fn broken_groups()
    ensures crossed { (features : Features) (rest : List ℕ) → has features CompactImports ≡ true → BeginsInvalid features
        (header ++ (0x02 ∷ 0x0c ∷ 0x01 ∷ 0x01 ∷ 0x6d ∷ 0x00 ∷ 0x7f ∷ 0x01 ∷ 0x01 ∷ 0x61 ∷ 0x02 ∷ 0x01 ∷ 0x02 ∷ 0x01 ∷ rest)) }
    ensures without { (features : Features) (rest : List ℕ) → has features CompactImports ≡ false → ¬ (BeginsInvalid features
        (header ++ (0x02 ∷ 0x0c ∷ 0x01 ∷ 0x01 ∷ 0x6d ∷ 0x00 ∷ 0x7f ∷ 0x01 ∷ 0x01 ∷ 0x61 ∷ 0x02 ∷ 0x01 ∷ 0x02 ∷ 0x01 ∷ rest))) }
{}
