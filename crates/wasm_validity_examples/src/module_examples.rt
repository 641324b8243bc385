//! Worked examples of valid modules with bodies: for what a body may name of its module one that is valid, and one beside it that isn't.

ghost use Rattle.std.specs.Prelude.{◌≡◌, ℕ, List, [], ◌∷◌, false, true};
ghost use Rattle.wasm_spec.specs.Features.{BulkMemory, Exceptions, Features, Gc, GcTypes, ReferenceTypes, default_features, has};
ghost use Rattle.wasm_spec.specs.Syntax.{CodeSection, DataCountSection, DataSection, ElementSection, ExportSection, FunctionItems, FunctionSection, Import, ImportSection, MemorySection, PassiveData, PassiveElement, StartSection, TableSection, TagSection, TypeSection};
ghost use Rattle.wasm_spec.specs.Types.{Concrete, FuncComposite, FuncExternal, FuncKind, GlobalExternal, Group, I32, Ref, StructComposite};
ghost use Rattle.wasm_spec_examples.specs.Examples.{at_least};
ghost use Rattle.wasm_spec_examples.specs.TypeExamples.{const_field, empty_function, empty_structure, final_type, gives, takes};
ghost use Rattle.wasm_validity.specs.Modules.{IsValid};
ghost use Rattle.wasm_validity_examples.specs.ModuleExamples.{a_number, alone, no_result, one_function};
ghost use Rattle.wasm_validity_examples.specs.Examples.{constant, export_of, one_table};

/// A module with a function is valid where the body is one of its type, and the index that of a function type.
pub fn one_function()
    ensures valid { (features : Features) → IsValid features (one_function (no_result ∷ []) 0 (0x00 ∷ 0x00 ∷ 0x0b ∷ [])) }
    ensures empty { (features : Features) → IsValid features (one_function (no_result ∷ []) 0 (0x00 ∷ 0x0b ∷ [])) }
    ensures no_type { (features : Features) (index : ℕ) (body : List ℕ) → ¬ (IsValid features (one_function [] index body)) }
    ensures other_type { (features : Features) (body : List ℕ) → ¬ (IsValid features (one_function (alone empty_structure ∷ []) 0 body)) }
    ensures no_body { (features : Features) → ¬ (IsValid features (one_function (no_result ∷ []) 0 [])) }
    ensures no_end { (features : Features) → ¬ (IsValid features (one_function (no_result ∷ []) 0 (0x00 ∷ []))) }
    ensures without_result { (features : Features) → ¬ (IsValid features (one_function (a_number ∷ []) 0 (0x00 ∷ 0x0b ∷ []))) }
{}

/// A function's type is that of its index, and not that of its own place: the first of two functions gives a number.
pub fn types_by_index()
    ensures named { (features : Features) → IsValid features
        (TypeSection (no_result ∷ a_number ∷ []) ∷ FunctionSection (1 ∷ 0 ∷ []) ∷ CodeSection ((0x00 ∷ 0x00 ∷ 0x0b ∷ []) ∷ (0x00 ∷ 0x0b ∷ []) ∷ []) ∷ []) }
    ensures swapped { (features : Features) → ¬ (IsValid features
        (TypeSection (no_result ∷ a_number ∷ []) ∷ FunctionSection (1 ∷ 0 ∷ []) ∷ CodeSection ((0x00 ∷ 0x0b ∷ []) ∷ (0x00 ∷ 0x00 ∷ 0x0b ∷ []) ∷ []) ∷ [])) }
{}

/// Bodies call functions by their indexes, of which imported ones have the first.
pub fn calls()
    ensures in_a_block { (features : Features) → IsValid features (TypeSection (no_result ∷ a_number ∷ []) ∷ FunctionSection (0 ∷ 1 ∷ [])
        ∷ CodeSection ((0x00 ∷ 0x02 ∷ 0x7f ∷ 0x10 ∷ 0x01 ∷ 0x0b ∷ 0x1a ∷ 0x0b ∷ []) ∷ (0x00 ∷ 0x41 ∷ 0x07 ∷ 0x0b ∷ []) ∷ []) ∷ []) }
    ensures no_function { (features : Features) → ¬ (IsValid features (TypeSection (no_result ∷ a_number ∷ []) ∷ FunctionSection (0 ∷ 1 ∷ [])
        ∷ CodeSection ((0x00 ∷ 0x10 ∷ 0x02 ∷ 0x0b ∷ []) ∷ (0x00 ∷ 0x41 ∷ 0x07 ∷ 0x0b ∷ []) ∷ []) ∷ [])) }
    ensures imported_first { (features : Features) → IsValid features (TypeSection (no_result ∷ a_number ∷ []) ∷ ImportSection (Import [] [] (FuncExternal 1) ∷ [])
        ∷ FunctionSection (0 ∷ []) ∷ CodeSection ((0x00 ∷ 0x10 ∷ 0x00 ∷ 0x1a ∷ 0x0b ∷ []) ∷ []) ∷ []) }
    ensures imported_without_result { (features : Features) → ¬ (IsValid features (TypeSection (no_result ∷ a_number ∷ []) ∷ ImportSection (Import [] [] (FuncExternal 0) ∷ [])
        ∷ FunctionSection (1 ∷ []) ∷ CodeSection ((0x00 ∷ 0x10 ∷ 0x00 ∷ 0x0b ∷ []) ∷ []) ∷ [])) }
{}

/// A body may refer to a function that is declared outside of bodies, as by an export, and to no other.
pub fn function_references()
    ensures exported { (features : Features) → has features ReferenceTypes ≡ true → IsValid features (TypeSection (no_result ∷ []) ∷ FunctionSection (0 ∷ [])
        ∷ ExportSection (export_of [] FuncKind 0 ∷ []) ∷ CodeSection ((0x00 ∷ 0xd2 ∷ 0x00 ∷ 0x1a ∷ 0x0b ∷ []) ∷ []) ∷ []) }
    ensures undeclared { (features : Features) → ¬ (IsValid features (one_function (no_result ∷ []) 0 (0x00 ∷ 0xd2 ∷ 0x00 ∷ 0x1a ∷ 0x0b ∷ []))) }
{}

/// Bodies see imported globals.
pub fn globals()
    ensures imported { (features : Features) → IsValid features (TypeSection (a_number ∷ []) ∷ ImportSection (Import [] [] (GlobalExternal (constant I32)) ∷ [])
        ∷ FunctionSection (0 ∷ []) ∷ CodeSection ((0x00 ∷ 0x23 ∷ 0x00 ∷ 0x0b ∷ []) ∷ []) ∷ []) }
    ensures missing { (features : Features) → ¬ (IsValid features (TypeSection (a_number ∷ []) ∷ ImportSection (Import [] [] (GlobalExternal (constant I32)) ∷ [])
        ∷ FunctionSection (0 ∷ []) ∷ CodeSection ((0x00 ∷ 0x23 ∷ 0x01 ∷ 0x0b ∷ []) ∷ []) ∷ [])) }
{}

/// Bodies see tables and element segments.
pub fn tables()
    ensures seen { (features : Features) → has features ReferenceTypes ≡ true → has features BulkMemory ≡ true → IsValid features (TypeSection (no_result ∷ []) ∷ FunctionSection (0 ∷ [])
        ∷ TableSection (one_table ∷ []) ∷ ElementSection (record { mode = PassiveElement; items = FunctionItems [] } ∷ [])
        ∷ CodeSection ((0x00 ∷ 0xfc ∷ 0x10 ∷ 0x00 ∷ 0x1a ∷ 0xfc ∷ 0x0d ∷ 0x00 ∷ 0x0b ∷ []) ∷ []) ∷ []) }
    ensures no_table { (features : Features) → ¬ (IsValid features (one_function (no_result ∷ []) 0 (0x00 ∷ 0xfc ∷ 0x10 ∷ 0x00 ∷ 0x1a ∷ 0x0b ∷ []))) }
    ensures no_segment { (features : Features) → ¬ (IsValid features (one_function (no_result ∷ []) 0 (0x00 ∷ 0xfc ∷ 0x0d ∷ 0x00 ∷ 0x0b ∷ []))) }
{}

/// A body may name a data segment where a data count says that there is one, and else none, though there is one.
pub fn data_counts()
    ensures counted { (features : Features) → has features BulkMemory ≡ true → IsValid features (TypeSection (no_result ∷ []) ∷ FunctionSection (0 ∷ [])
        ∷ MemorySection (at_least 1 ∷ []) ∷ DataCountSection 1 ∷ CodeSection ((0x00 ∷ 0x00 ∷ 0xfc ∷ 0x08 ∷ 0x00 ∷ 0x00 ∷ 0x0b ∷ []) ∷ [])
        ∷ DataSection (record { mode = PassiveData; contents = [] } ∷ []) ∷ []) }
    ensures uncounted { (features : Features) → ¬ (IsValid features (TypeSection (no_result ∷ []) ∷ FunctionSection (0 ∷ [])
        ∷ MemorySection (at_least 1 ∷ []) ∷ CodeSection ((0x00 ∷ 0x00 ∷ 0xfc ∷ 0x08 ∷ 0x00 ∷ 0x00 ∷ 0x0b ∷ []) ∷ [])
        ∷ DataSection (record { mode = PassiveData; contents = [] } ∷ []) ∷ [])) }
{}

/// Types of two indexes that are written alike are one: a value of the one serves as one of the other.
pub fn equal_types()
    ensures one { IsValid default_features
        (one_function (alone empty_structure ∷ alone empty_structure ∷ alone (FuncComposite (gives (Ref false (Concrete 1) ∷ []))) ∷ []) 2 (0x00 ∷ 0xfb ∷ 0x01 ∷ 0x00 ∷ 0x0b ∷ [])) }
    ensures two { ¬ (IsValid default_features
        (one_function (alone empty_structure ∷ alone (StructComposite (const_field I32 ∷ [])) ∷ alone (FuncComposite (gives (Ref false (Concrete 1) ∷ []))) ∷ []) 2 (0x00 ∷ 0xfb ∷ 0x01 ∷ 0x00 ∷ 0x0b ∷ []))) }
{}

/// A function's type may stand further on in a group, and refer to a later type of it; one that stands alone refers to earlier types.
pub fn types_of_groups()
    ensures second { (features : Features) → has features Gc ≡ true → has features GcTypes ≡ true → IsValid features
        (one_function (Group (final_type empty_structure ∷ final_type empty_function ∷ []) ∷ []) 1 (0x00 ∷ 0x0b ∷ [])) }
    ensures later { IsValid default_features
        (one_function (Group (final_type (FuncComposite (takes (Ref true (Concrete 1) ∷ []))) ∷ final_type empty_function ∷ []) ∷ []) 0 (0x00 ∷ 0x20 ∷ 0x00 ∷ 0x14 ∷ 0x01 ∷ 0x0b ∷ [])) }
    ensures later_alone { ¬ (IsValid default_features
        (one_function (alone (FuncComposite (takes (Ref true (Concrete 1) ∷ []))) ∷ no_result ∷ []) 0 (0x00 ∷ 0x20 ∷ 0x00 ∷ 0x14 ∷ 0x01 ∷ 0x0b ∷ []))) }
{}

/// A module of many sections, some of them empty: it asks for exceptions alone.
pub fn many_sections()
    ensures valid { (features : Features) → has features Exceptions ≡ true → IsValid features
        (TypeSection (no_result ∷ []) ∷ ImportSection [] ∷ FunctionSection (0 ∷ []) ∷ TableSection [] ∷ MemorySection (at_least 1 ∷ [])
        ∷ TagSection (0 ∷ []) ∷ StartSection 0 ∷ CodeSection ((0x00 ∷ 0x0b ∷ []) ∷ []) ∷ DataSection [] ∷ []) }
{}
