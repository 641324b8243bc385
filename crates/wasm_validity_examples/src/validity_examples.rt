//! Worked examples of modules of which all is fine but for what their bodies say, and of what the front of bytes decides.

ghost use Rattle.std.specs.Prelude.{◌≡◌, ◌++◌, ℕ, List, [], ◌∷◌, None, false, length, replicate, true};
ghost use Rattle.std.specs.List.{flat_map};
ghost use Rattle.wasm_spec.specs.Features.{Features, BulkMemory, Exceptions, Gc, GcTypes, MultiValue, MutableGlobal, bit_of, has};
ghost use Rattle.wasm_spec.specs.Grammar.{header};
ghost use Rattle.wasm_spec.specs.Limits.{Memories, Params};
ghost use Rattle.wasm_spec.specs.Syntax.{Section, Custom, TypeSection, ImportSection, FunctionSection, TableSection, MemorySection, TagSection, GlobalSection, ExportSection, StartSection, ElementSection, CodeSection, DataCountSection, DataSection, Export, ActiveElement, FunctionItems, ActiveData};
ghost use Rattle.wasm_spec.specs.Types.{I32, ArrayComposite, ContComposite, FuncComposite, GlobalKind, Group, MemoryKind, RecGroup, Single};
ghost use Rattle.wasm_spec_examples.specs.Examples.{at_least};
ghost use Rattle.wasm_spec_examples.specs.TypeExamples.{const_field, empty_function, empty_structure, final_type, gives, open_type};
ghost use Rattle.wasm_validity.specs.Context.{at_first, item_at};
ghost use Rattle.wasm_validity.specs.Entries.{entries_of};
ghost use Rattle.wasm_validity.specs.Rules.{KeepRules};
ghost use Rattle.wasm_validity.specs.Validity.{BeginsInvalid, BeginsPast, context_of};
ghost use Rattle.wasm_validity_examples.specs.ConstantExamples.{i32_number};
ghost use Rattle.wasm_validity_examples.specs.Examples.{IsFine, constant, export_of, one_table, variable};

/// A name of 100,000 bytes is the longest, wherever it stands, and nothing else is limited in custom sections.
pub fn long_names()
    ensures valid { (features : Features) (a b contents : List ℕ) → length a ≡ 100000 → length b ≡ 100000
        → IsFine features (Custom a contents ∷ Custom b contents ∷ []) }
    ensures invalid { (features : Features) (before after : List Section) (a contents : List ℕ) → length a ≡ 100001
        → ¬ (IsFine features (before ++ (Custom a contents ∷ after))) }
{}

/// A function's type index is that of a function type.
pub fn one_function()
    ensures valid { (features : Features) → IsFine features
        (TypeSection (Single (final_type empty_function) ∷ []) ∷ FunctionSection (0 ∷ []) ∷ CodeSection ((0x00 ∷ 0x00 ∷ 0x0b ∷ []) ∷ []) ∷ []) }
    ensures no_type { (features : Features) (index : ℕ) (body : List ℕ)
        → ¬ (IsFine features (FunctionSection (index ∷ []) ∷ CodeSection (body ∷ []) ∷ [])) }
    ensures other_type { (features : Features) (body : List ℕ)
        → ¬ (IsFine features (TypeSection (Single (final_type empty_structure) ∷ []) ∷ FunctionSection (0 ∷ []) ∷ CodeSection (body ∷ []) ∷ [])) }
{}

/// What a function section names are function types that stand before it.
pub fn rules()
    ensures kept { (features : Features) → KeepRules features at_first (entries_of
        (TypeSection (Single (final_type empty_function) ∷ []) ∷ FunctionSection (0 ∷ 0 ∷ []) ∷ [])) }
    ensures early { (features : Features) (index : ℕ) (groups : List (RecGroup ℕ))
        → ¬ (KeepRules features at_first (entries_of (FunctionSection (index ∷ []) ∷ TypeSection groups ∷ []))) }
{}

/// Several results, and types that aren't final, are features.
pub fn gates()
    ensures results { KeepRules (bit_of MultiValue) at_first (entries_of (TypeSection (Single (final_type (FuncComposite (gives (I32 ∷ I32 ∷ [])))) ∷ []) ∷ [])) }
    ensures without_multi_value { ¬ (KeepRules 0 at_first (entries_of (TypeSection (Single (final_type (FuncComposite (gives (I32 ∷ I32 ∷ [])))) ∷ []) ∷ []))) }
    ensures not_final { KeepRules (bit_of Gc) at_first (entries_of (TypeSection (Single (open_type empty_function) ∷ []) ∷ [])) }
    ensures without_gc { ¬ (KeepRules 0 at_first (entries_of (TypeSection (Single (open_type empty_function) ∷ []) ∷ []))) }
{}

/// Exports name items that are there, each by a name of its own, and variables with a feature alone. A section without
/// entries says nothing, whatever its kind.
pub fn exports()
    ensures two_names { (features : Features) → IsFine features
        (MemorySection (at_least 1 ∷ []) ∷ ExportSection (export_of (97 ∷ []) MemoryKind 0 ∷ export_of (98 ∷ []) MemoryKind 0 ∷ []) ∷ []) }
    ensures one_name { (features : Features) → ¬ (IsFine features
        (MemorySection (at_least 1 ∷ []) ∷ ExportSection (export_of (97 ∷ []) MemoryKind 0 ∷ export_of (97 ∷ []) MemoryKind 0 ∷ []) ∷ [])) }
    ensures nothing { (features : Features) (before after : List Section) (exports : List Export) (export : Export)
        → item_at (context_of before) export.kind export.index ≡ None
        → ¬ (IsFine features (before ++ (ExportSection (exports ++ (export ∷ [])) ∷ after))) }
    ensures variable { (features : Features) → has features MutableGlobal ≡ true → IsFine features
        (GlobalSection (record { type = variable I32; initialiser = i32_number ∷ [] } ∷ []) ∷ ExportSection (export_of [] GlobalKind 0 ∷ []) ∷ []) }
    ensures variable_without { (features : Features) → has features MutableGlobal ≡ false → ¬ (IsFine features
        (GlobalSection (record { type = variable I32; initialiser = i32_number ∷ [] } ∷ []) ∷ ExportSection (export_of [] GlobalKind 0 ∷ []) ∷ [])) }
    ensures empty { (features : Features) → IsFine features (TableSection [] ∷ ExportSection [] ∷ []) }
{}

/// Other kinds of entries in valid modules: a table, a global, segments of both kinds, and a data count, which is a feature.
pub fn kinds_of_entries()
    ensures table { (features : Features) → IsFine features (TableSection (one_table ∷ []) ∷ []) }
    ensures global { (features : Features) → IsFine features (GlobalSection (record { type = constant I32; initialiser = i32_number ∷ [] } ∷ []) ∷ []) }
    ensures element { (features : Features) → IsFine features
        (TableSection (one_table ∷ []) ∷ ElementSection (record { mode = ActiveElement None (i32_number ∷ []); items = FunctionItems [] } ∷ []) ∷ []) }
    ensures data { (features : Features) → IsFine features
        (MemorySection (at_least 1 ∷ []) ∷ DataSection (record { mode = ActiveData None (i32_number ∷ []); contents = [] } ∷ []) ∷ []) }
    ensures data_count { (features : Features) → has features BulkMemory ≡ true → IsFine features (DataCountSection 0 ∷ []) }
    ensures data_count_without { (features : Features) (count : ℕ) → has features BulkMemory ≡ false → ¬ (IsFine features (DataCountSection count ∷ [])) }
{}

/// What the front of a module decides, whatever follows: of 101 memories the last is one too many, so is the last of 1,001 parameters, and a
/// function stands before any type, in a whole section and in one of which nothing else need read.
pub fn fronts()
    ensures past { (features : Features) (rest : List ℕ) → BeginsPast features Memories
        (header ++ (0x05 ∷ 0xcb ∷ 0x01 ∷ 0x65 ∷ (flat_map (λ n. 0x00 ∷ n ∷ []) (replicate 101 0x00) ++ rest))) }
    ensures past_by_type { (features : Features) (rest : List ℕ) → BeginsPast features Params
        (header ++ (0x01 ∷ 0xee ∷ 0x07 ∷ 0x01 ∷ 0x60 ∷ 0xe9 ∷ 0x07 ∷ (replicate 1001 0x7f ++ (0x00 ∷ rest)))) }
    ensures invalid { (features : Features) (rest : List ℕ) → BeginsInvalid features (header ++ (0x03 ∷ 0x02 ∷ 0x01 ∷ 0x00 ∷ rest)) }
    ensures invalid_item { (features : Features) (rest : List ℕ) → BeginsInvalid features (header ++ (0x03 ∷ 0x03 ∷ 0x02 ∷ 0x00 ∷ 0xff ∷ rest)) }
{}

/// A function may have a type that stands further on in a group, and no type but that of functions.
pub fn types_of_groups()
    ensures second { (features : Features) → has features Gc ≡ true → has features GcTypes ≡ true → IsFine features
        (TypeSection (Group (final_type empty_structure ∷ final_type empty_function ∷ []) ∷ []) ∷ FunctionSection (1 ∷ []) ∷ CodeSection ((0x00 ∷ 0x0b ∷ []) ∷ []) ∷ []) }
    ensures array { (features : Features)
        → ¬ (KeepRules features at_first (entries_of (TypeSection (Single (final_type (ArrayComposite (const_field I32))) ∷ []) ∷ FunctionSection (0 ∷ []) ∷ []))) }
    ensures continuation { (features : Features)
        → ¬ (KeepRules features at_first (entries_of (TypeSection (Single (final_type empty_function) ∷ Single (final_type (ContComposite 0)) ∷ []) ∷ FunctionSection (1 ∷ []) ∷ []))) }
{}

/// A module of many sections, some of them empty: it asks for exceptions alone.
pub fn many_sections()
    ensures valid { (features : Features) → has features Exceptions ≡ true → IsFine features
        (TypeSection (Single (final_type empty_function) ∷ []) ∷ ImportSection [] ∷ FunctionSection (0 ∷ []) ∷ TableSection [] ∷ MemorySection (at_least 1 ∷ [])
        ∷ TagSection (0 ∷ []) ∷ StartSection 0 ∷ CodeSection ((0x00 ∷ 0x0b ∷ []) ∷ []) ∷ DataSection [] ∷ []) }
{}
