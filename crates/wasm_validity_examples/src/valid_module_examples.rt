//! Worked examples of valid modules without bodies.

ghost use Rattle.std.specs.Prelude.{◌≡◌, ◌++◌, ℕ, List, [], ◌∷◌, None, false, length, true};
ghost use Rattle.wasm_spec.specs.Features.{Features, BulkMemory, MutableGlobal, has};
ghost use Rattle.wasm_spec.specs.Syntax.{Section, Custom, TableSection, MemorySection, GlobalSection, ExportSection, ElementSection, DataCountSection, DataSection, Export, ActiveElement, FunctionItems, ActiveData};
ghost use Rattle.wasm_spec.specs.Types.{I32, GlobalKind, MemoryKind};
ghost use Rattle.wasm_spec_examples.specs.Examples.{at_least};
ghost use Rattle.wasm_validity.specs.Modules.{IsValid};
ghost use Rattle.wasm_validity.specs.Context.{item_at};
ghost use Rattle.wasm_validity.specs.Validity.{context_of};
ghost use Rattle.wasm_validity_examples.specs.ConstantExamples.{i32_number};
ghost use Rattle.wasm_validity_examples.specs.Examples.{constant, export_of, one_table, variable};

/// A name of 100,000 bytes is the longest, wherever it stands, and nothing else is limited in custom sections.
pub fn long_names()
    ensures valid { (features : Features) (a b contents : List ℕ) → length a ≡ 100000 → length b ≡ 100000
        → IsValid features (Custom a contents ∷ Custom b contents ∷ []) }
    ensures invalid { (features : Features) (before after : List Section) (a contents : List ℕ) → length a ≡ 100001
        → ¬ (IsValid features (before ++ (Custom a contents ∷ after))) }
{}

/// Exports name items that are there, each by a name of its own, and variables with a feature alone. A section without
/// entries says nothing, whatever its kind.
pub fn exports()
    ensures two_names { (features : Features) → IsValid features
        (MemorySection (at_least 1 ∷ []) ∷ ExportSection (export_of (97 ∷ []) MemoryKind 0 ∷ export_of (98 ∷ []) MemoryKind 0 ∷ []) ∷ []) }
    ensures one_name { (features : Features) → ¬ (IsValid features
        (MemorySection (at_least 1 ∷ []) ∷ ExportSection (export_of (97 ∷ []) MemoryKind 0 ∷ export_of (97 ∷ []) MemoryKind 0 ∷ []) ∷ [])) }
    ensures nothing { (features : Features) (before after : List Section) (exports : List Export) (export : Export)
        → item_at (context_of before) export.kind export.index ≡ None
        → ¬ (IsValid features (before ++ (ExportSection (exports ++ (export ∷ [])) ∷ after))) }
    ensures variable { (features : Features) → has features MutableGlobal ≡ true → IsValid features
        (GlobalSection (record { type = variable I32; initialiser = i32_number ∷ [] } ∷ []) ∷ ExportSection (export_of [] GlobalKind 0 ∷ []) ∷ []) }
    ensures variable_without { (features : Features) → has features MutableGlobal ≡ false → ¬ (IsValid features
        (GlobalSection (record { type = variable I32; initialiser = i32_number ∷ [] } ∷ []) ∷ ExportSection (export_of [] GlobalKind 0 ∷ []) ∷ [])) }
    ensures empty { (features : Features) → IsValid features (TableSection [] ∷ ExportSection [] ∷ []) }
{}

/// Other kinds of entries in valid modules: a table, a global, segments of both kinds, and a data count, which is a feature.
pub fn kinds_of_entries()
    ensures table { (features : Features) → IsValid features (TableSection (one_table ∷ []) ∷ []) }
    ensures global { (features : Features) → IsValid features (GlobalSection (record { type = constant I32; initialiser = i32_number ∷ [] } ∷ []) ∷ []) }
    ensures element { (features : Features) → IsValid features
        (TableSection (one_table ∷ []) ∷ ElementSection (record { mode = ActiveElement None (i32_number ∷ []); items = FunctionItems [] } ∷ []) ∷ []) }
    ensures data { (features : Features) → IsValid features
        (MemorySection (at_least 1 ∷ []) ∷ DataSection (record { mode = ActiveData None (i32_number ∷ []); contents = [] } ∷ []) ∷ []) }
    ensures data_count { (features : Features) → has features BulkMemory ≡ true → IsValid features (DataCountSection 0 ∷ []) }
    ensures data_count_without { (features : Features) (count : ℕ) → has features BulkMemory ≡ false → ¬ (IsValid features (DataCountSection count ∷ [])) }
{}
