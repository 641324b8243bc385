//! Worked examples of the rules and limits on what sections say: each kept beside one that is broken.

ghost use Rattle.std.specs.Prelude.{◌≡◌, ◌+◌, ◌++◌, ◌-◌, ◌^◌, ℕ, Bool, List, [], ◌∷◌, Some, None, false, length, replicate, suc, true};
ghost use Rattle.wasm_spec.specs.Constants.{ConstantExpression};
ghost use Rattle.wasm_spec.specs.Features.{BulkMemory, CustomPageSizes, Exceptions, Features, Floats, FunctionReferences, Gc, GcTypes, Memory64, MultiMemory, MutableGlobal, ReferenceTypes, Simd, StackSwitching, Threads, has};
ghost use Rattle.wasm_spec.specs.Grammar.{AreOrdered, header};
ghost use Rattle.wasm_spec.specs.Groups.{IsWithinGroupLimits, KeepsGroupRules};
ghost use Rattle.wasm_spec.specs.Limits.{BodySize, DataSegments, ElementSegments, Exports, Functions, Globals, Groups, Imports, Limit, Memories, Name, SegmentEntries, Tables, Tags, TypeSize, Types, total_of_types};
ghost use Rattle.wasm_spec.specs.Syntax.{CompactItems, CompactNames, Custom, DataSegment, ElementMode, ElementSegment, Export, ExportSection, ExpressionItems, FunctionItems, Global, Import, MemorySection, StartSection, TagSection, members};
ghost use Rattle.wasm_spec.specs.Types.{Abstract, Concrete, Extern, F32, Func, FuncExternal, ExternalKind, FuncKind, GlobalExternal, GlobalKind, GlobalType, Group, I32, MemoryExternal, MemoryKind, MemoryType, RecGroup, Ref, Single, SubType, TableExternal, TableKind, TableType, TagExternal, TagKind, V128, funcref};
ghost use Rattle.wasm_spec_examples.specs.Examples.{at_least};
ghost use Rattle.wasm_spec_examples.specs.TypeExamples.{empty_structure, final_type, function_to};
ghost use Rattle.wasm_validity.specs.Context.{Context, after, after_all, at_first, functions_in, globals_in};
ghost use Rattle.wasm_validity.specs.Entries.{Entry, OfBody, OfCustom, OfData, OfDataCount, OfElement, OfExport, OfFunction, OfGlobal, OfImport, OfMemory, OfStart, OfTable, OfTag, OfTags, OfType, entries_in, entries_of};
ghost use Rattle.wasm_validity.specs.Fronts.{BeginsWithItems, HasItems};
ghost use Rattle.wasm_validity.specs.IndexSpaces.{sizes_in, spaces_in, spaces_of};
ghost use Rattle.wasm_validity.specs.Rules.{KeepLimits, KeepRules, Keeps, PassLimit, Passes, PassesByTypes, measures};
ghost use Rattle.wasm_validity_examples.specs.Examples.{IsBroken, IsFullAt, IsKept, IsLongestAt, KeptWith, between, constant, export_of, exports, imports, one_of_each, own_table, paged, reference, shared, table_of, variable, wide, with_types};

/// Bounds of memories, in pages of 2^16 bytes.
pub fn pages()
    ensures none { IsKept at_first (OfMemory (at_least 0)) }
    ensures in_order { IsKept at_first (OfMemory (between 1 1)) }
    ensures crossed { IsBroken at_first (OfMemory (between 2 1)) }
    ensures most { IsKept at_first (OfMemory (between (2 ^ 16) (2 ^ 16))) }
    ensures more { IsBroken at_first (OfMemory (at_least (2 ^ 16 + 1))) }
    ensures greater_maximum { IsBroken at_first (OfMemory (between 0 (2 ^ 16 + 1))) }
{}

/// Memories of 64 bits: the feature for them lets in no greater ones of 32 bits.
pub fn wide_memories()
    ensures most { KeptWith (Memory64 ∷ []) at_first (OfMemory (wide (between (2 ^ 48) (2 ^ 48)))) }
    ensures more { IsBroken at_first (OfMemory (wide (at_least (2 ^ 48 + 1)))) }
    ensures greater_maximum { IsBroken at_first (OfMemory (wide (between 0 (2 ^ 48 + 1)))) }
    ensures crossed { IsBroken at_first (OfMemory (wide (between 2 1))) }
{}

/// Memories of threads, which have a maximum.
pub fn shared_memories()
    ensures with_maximum { KeptWith (Threads ∷ []) at_first (OfMemory (shared (between 1 1))) }
    ensures without { IsBroken at_first (OfMemory (shared (at_least 1))) }
    ensures wide { KeptWith (Threads ∷ Memory64 ∷ []) at_first (OfMemory (wide (shared (between 1 1)))) }
    ensures most { IsBroken at_first (OfMemory (shared (between 0 (2 ^ 16 + 1)))) }
{}

/// Pages of one byte, and those of 2^16 where that is written; no other size.
pub fn page_sizes()
    ensures bytes { KeptWith (CustomPageSizes ∷ []) at_first (OfMemory (paged 0 (between (2 ^ 32) (2 ^ 32)))) }
    ensures more_bytes { IsBroken at_first (OfMemory (paged 0 (at_least (2 ^ 32 + 1)))) }
    ensures greater_maximum { IsBroken at_first (OfMemory (paged 0 (between 0 (2 ^ 32 + 1)))) }
    ensures written { KeptWith (CustomPageSizes ∷ []) at_first (OfMemory (paged 16 (at_least (2 ^ 16)))) }
    ensures more_written { IsBroken at_first (OfMemory (paged 16 (at_least (2 ^ 16 + 1)))) }
    ensures wide_bytes { KeptWith (CustomPageSizes ∷ Memory64 ∷ []) at_first (OfMemory (wide (paged 0 (at_least (2 ^ 64 - 1))))) }
    ensures more_wide_bytes { IsBroken at_first (OfMemory (wide (paged 0 (at_least (2 ^ 64))))) }
    ensures wide_written { KeptWith (CustomPageSizes ∷ Memory64 ∷ []) at_first (OfMemory (wide (paged 16 (at_least (2 ^ 48))))) }
    ensures more_wide_written { IsBroken at_first (OfMemory (wide (paged 16 (at_least (2 ^ 48 + 1))))) }
    ensures two_bytes { IsBroken at_first (OfMemory (paged 1 (at_least 1))) }
    ensures half { IsBroken at_first (OfMemory (paged 15 (at_least 1))) }
    ensures twice { IsBroken at_first (OfMemory (paged 17 (at_least 1))) }
{}

/// A second memory asks for a feature, whether the first is imported or not; a second table for another one.
pub fn several()
    ensures memories { KeptWith (MultiMemory ∷ []) (after at_first (OfMemory (at_least 1))) (OfMemory (at_least 1)) }
    ensures imported_memory { KeptWith (MultiMemory ∷ []) (after at_first (imports (MemoryExternal (at_least 1)))) (OfMemory (at_least 1)) }
    ensures both_imported { KeptWith (MultiMemory ∷ []) (after at_first (imports (MemoryExternal (at_least 1)))) (imports (MemoryExternal (at_least 1))) }
    ensures tables { KeptWith (ReferenceTypes ∷ []) (after at_first (own_table funcref (at_least 1))) (own_table funcref (at_least 1)) }
    ensures imported_table { KeptWith (ReferenceTypes ∷ []) (after at_first (imports (TableExternal (table_of funcref (at_least 1))))) (own_table funcref (at_least 1)) }
    ensures one_of_each { IsKept (after at_first (own_table funcref (at_least 1))) (OfMemory (at_least 1)) }
{}

/// Bounds of tables.
pub fn bounds_of_tables()
    ensures most { IsKept at_first (own_table funcref (between (2 ^ 32 - 1) (2 ^ 32 - 1))) }
    ensures more { IsBroken at_first (own_table funcref (at_least (2 ^ 32))) }
    ensures greater_maximum { IsBroken at_first (own_table funcref (between 0 (2 ^ 32))) }
    ensures crossed { IsBroken at_first (own_table funcref (between 2 1)) }
    ensures wide { KeptWith (Memory64 ∷ []) at_first (own_table funcref (wide (between (2 ^ 32) (2 ^ 64 - 1)))) }
    ensures more_wide { IsBroken at_first (own_table funcref (wide (at_least (2 ^ 64)))) }
    ensures wide_crossed { IsBroken at_first (own_table funcref (wide (between 2 1))) }
{}

/// What tables hold: references to any function before there were reference types; a type that isn't null without an initialiser only where
/// the table is imported.
pub fn elements_of_tables()
    ensures any_function { IsKept at_first (own_table funcref (at_least 1)) }
    ensures external { KeptWith (ReferenceTypes ∷ GcTypes ∷ []) at_first (own_table (reference true (Abstract Extern)) (at_least 1)) }
    ensures not_null { IsBroken at_first (own_table (reference false (Abstract Func)) (at_least 1)) }
    ensures imported { KeptWith (ReferenceTypes ∷ FunctionReferences ∷ []) at_first (imports (TableExternal (table_of (reference false (Abstract Func)) (at_least 1)))) }
    ensures named { (features : Features) → has features ReferenceTypes ≡ true → has features Gc ≡ true → Keeps features (with_types []) (own_table (reference true (Concrete 3)) (at_least 1)) }
    ensures named_by_none { IsBroken (with_types []) (own_table (reference true (Concrete 4)) (at_least 1)) }
{}

/// A tag section asks for its feature also where it has no tags; a tag has a function type, without results unless continuations are on.
pub fn tags()
    ensures says { entries_in (TagSection (5 ∷ [])) ≡ OfTags ∷ OfTag 5 ∷ [] }
    ensures says_it { entries_in (TagSection []) ≡ OfTags ∷ [] }
    ensures section { KeptWith (Exceptions ∷ []) at_first OfTags }
    ensures tag { KeptWith (Exceptions ∷ []) (with_types []) (OfTag 1) }
    ensures imported { KeptWith (Exceptions ∷ []) (with_types []) (imports (TagExternal 1)) }
    ensures with_a_result { (features : Features) → has features StackSwitching ≡ false → ¬ (Keeps features (with_types []) (OfTag 2)) }
    ensures imported_with_a_result { (features : Features) → has features StackSwitching ≡ false → ¬ (Keeps features (with_types []) (imports (TagExternal 2))) }
    ensures of_a_structure { IsBroken (with_types []) (OfTag 3) }
    ensures of_no_type { IsBroken (with_types []) (OfTag 4) }
    ensures imported_of_no_type { IsBroken (with_types []) (imports (TagExternal 4)) }
{}

/// A function has a function type.
pub fn functions()
    ensures own { IsKept (with_types []) (OfFunction 2) }
    ensures imported { IsKept (with_types []) (imports (FuncExternal 2)) }
    ensures structure { IsBroken (with_types []) (OfFunction 3) }
    ensures imported_structure { IsBroken (with_types []) (imports (FuncExternal 3)) }
    ensures none { IsBroken (with_types []) (OfFunction 4) }
    ensures imported_none { IsBroken (with_types []) (imports (FuncExternal 4)) }
{}

/// A global that can be written to crosses the border of a module only with a feature; the type of an imported one is asked for its own.
pub fn globals()
    ensures imported { IsKept at_first (imports (GlobalExternal (constant I32))) }
    ensures imported_variable { KeptWith (MutableGlobal ∷ []) at_first (imports (GlobalExternal (variable I32))) }
    ensures imported_float { KeptWith (Floats ∷ []) at_first (imports (GlobalExternal (constant F32))) }
    ensures imported_vector { KeptWith (Simd ∷ MutableGlobal ∷ []) at_first (imports (GlobalExternal (variable V128))) }
    ensures imported_reference { KeptWith (ReferenceTypes ∷ []) at_first (imports (GlobalExternal (constant (Ref true (Abstract Func))))) }
    ensures named_by_none { IsBroken (with_types []) (imports (GlobalExternal (constant (Ref true (Concrete 4))))) }
    ensures exported { IsKept (record at_first { own_globals = constant I32 ∷ [] }) (exports [] GlobalKind 0) }
    ensures exported_variable { KeptWith (MutableGlobal ∷ []) (record at_first { own_globals = constant I32 ∷ variable I32 ∷ [] }) (exports [] GlobalKind 1) }
{}

/// Exports of globals, of which imported ones come first.
pub fn exported_globals()
    ensures imported { IsKept (record at_first { imported_globals = constant I32 ∷ []; own_globals = variable I32 ∷ constant I32 ∷ [] }) (exports [] GlobalKind 0) }
    ensures own_variable { KeptWith (MutableGlobal ∷ []) (record at_first { imported_globals = constant I32 ∷ []; own_globals = variable I32 ∷ constant I32 ∷ [] }) (exports [] GlobalKind 1) }
    ensures own { IsKept (record at_first { imported_globals = constant I32 ∷ []; own_globals = variable I32 ∷ constant I32 ∷ [] }) (exports [] GlobalKind 2) }
    ensures past { IsBroken (record at_first { imported_globals = constant I32 ∷ []; own_globals = variable I32 ∷ constant I32 ∷ [] }) (exports [] GlobalKind 3) }
    ensures imported_variable { KeptWith (MutableGlobal ∷ []) (after at_first (imports (GlobalExternal (variable I32)))) (exports [] GlobalKind 0) }
{}

/// An export names an item of the space of its kind, by a name that no other export has.
pub fn exports_of_items()
    ensures memory { IsKept (after at_first (OfMemory (at_least 1))) (exports [] MemoryKind 0) }
    ensures no_such_memory { IsBroken (after at_first (OfMemory (at_least 1))) (exports [] MemoryKind 1) }
    ensures no_table { IsBroken (after at_first (OfMemory (at_least 1))) (exports [] TableKind 0) }
    ensures no_global { IsBroken (after at_first (OfMemory (at_least 1))) (exports [] GlobalKind 0) }
    ensures function { IsKept (with_types (OfFunction 2 ∷ [])) (exports [] FuncKind 0) }
    ensures no_tag { IsBroken (with_types (OfFunction 2 ∷ [])) (exports [] TagKind 0) }
    ensures no_function { IsBroken (with_types (OfTag 1 ∷ [])) (exports [] FuncKind 0) }
    ensures tag { IsKept (with_types (OfTag 1 ∷ [])) (exports [] TagKind 0) }
    ensures imported { IsKept (after at_first (imports (TableExternal (table_of funcref (at_least 1))))) (exports [] TableKind 0) }
    ensures twice { IsBroken (after_all at_first (OfMemory (at_least 1) ∷ exports (97 ∷ 98 ∷ []) MemoryKind 0 ∷ exports [] MemoryKind 0 ∷ [])) (exports (97 ∷ 98 ∷ []) MemoryKind 0) }
    ensures other_kinds { IsBroken (after_all (with_types []) (OfFunction 0 ∷ OfMemory (at_least 1) ∷ exports (97 ∷ []) MemoryKind 0 ∷ [])) (exports (97 ∷ []) FuncKind 0) }
    ensures other_name { IsKept (after_all at_first (OfMemory (at_least 1) ∷ exports (97 ∷ 98 ∷ []) MemoryKind 0 ∷ [])) (exports (97 ∷ []) MemoryKind 0) }
    ensures longer_name { IsKept (after_all at_first (OfMemory (at_least 1) ∷ exports (97 ∷ []) MemoryKind 0 ∷ [])) (exports (97 ∷ 98 ∷ []) MemoryKind 0) }
{}

/// The function that a module starts with takes and gives nothing. Its index is one of functions, imported ones first, and not of types.
pub fn starts()
    ensures kept { IsKept (with_types (OfFunction 0 ∷ [])) (OfStart 0) }
    ensures with_parameters { IsBroken (with_types (OfFunction 1 ∷ [])) (OfStart 0) }
    ensures with_a_result { IsBroken (with_types (OfFunction 2 ∷ [])) (OfStart 0) }
    ensures none { IsBroken (with_types (OfFunction 0 ∷ [])) (OfStart 1) }
    ensures imported { IsKept (with_types (imports (FuncExternal 0) ∷ OfFunction 1 ∷ [])) (OfStart 0) }
    ensures own_after_imported { IsBroken (with_types (imports (FuncExternal 0) ∷ OfFunction 1 ∷ [])) (OfStart 1) }
    ensures says { entries_in (StartSection 7) ≡ OfStart 7 ∷ [] }
{}

/// The rest: data counts, custom sections.
pub fn other_entries()
    ensures data_count { (count : ℕ) → KeptWith (BulkMemory ∷ []) at_first (OfDataCount count) }
    ensures custom { (name : List ℕ) → IsKept at_first (OfCustom name) }
    ensures in_order { (name contents : List ℕ) (type : MemoryType) → entries_of (MemorySection (type ∷ []) ∷ Custom name contents ∷ TagSection [] ∷ []) ≡ OfMemory type ∷ OfCustom name ∷ OfTags ∷ [] }
{}

/// An import is an item of the space of its kind, before the module's own.
pub fn imported_items()
    ensures functions { functions_in (after_all at_first (OfFunction 8 ∷ imports (FuncExternal 7) ∷ [])) ≡ 7 ∷ 8 ∷ [] }
    ensures tables { (a b : TableType ℕ) → (after_all at_first (imports (TableExternal a) ∷ OfTable (record { type = b; initialiser = None }) ∷ [])).tables ≡ a ∷ b ∷ [] }
    ensures memories { (a b : MemoryType) → (after_all at_first (imports (MemoryExternal a) ∷ OfMemory b ∷ [])).memories ≡ a ∷ b ∷ [] }
    ensures tags { (after_all at_first (imports (TagExternal 7) ∷ OfTags ∷ OfTag 8 ∷ [])).tags ≡ 7 ∷ 8 ∷ [] }
    ensures globals { (a b : GlobalType ℕ) → globals_in (after_all at_first (OfGlobal (record { type = b; initialiser = [] }) ∷ imports (GlobalExternal a) ∷ [])) ≡ a ∷ b ∷ [] }
{}

/// Groups of imports: each import is an item in turn, as if it stood alone, and what a group of none would import isn't asked.
pub fn groups_of_imports()
    ensures items { functions_in (after at_first (OfImport (CompactItems [] (record { name = []; type = FuncExternal 7 } ∷ record { name = []; type = TagExternal 5 } ∷ record { name = []; type = FuncExternal 8 } ∷ [])))) ≡ 7 ∷ 8 ∷ [] }
    ensures names { (type : MemoryType) → (after at_first (OfImport (CompactNames [] (MemoryExternal type) ([] ∷ [] ∷ [])))).memories ≡ type ∷ type ∷ [] }
    ensures one_entry { (type : MemoryType) → (after at_first (OfImport (CompactNames [] (MemoryExternal type) ([] ∷ [] ∷ [])))).imports ≡ 1 }
    ensures second { KeptWith (MultiMemory ∷ []) at_first (OfImport (CompactItems [] (record { name = []; type = MemoryExternal (at_least 1) } ∷ record { name = []; type = MemoryExternal (at_least 1) } ∷ []))) }
    ensures second_name { KeptWith (MultiMemory ∷ []) at_first (OfImport (CompactNames [] (MemoryExternal (at_least 1)) ([] ∷ [] ∷ []))) }
    ensures one_name { IsKept at_first (OfImport (CompactNames [] (MemoryExternal (at_least 1)) ([] ∷ []))) }
    ensures last { IsBroken (with_types []) (OfImport (CompactItems [] (record { name = []; type = FuncExternal 0 } ∷ record { name = []; type = FuncExternal 3 } ∷ []))) }
    ensures wrong_name { IsBroken at_first (OfImport (CompactNames [] (MemoryExternal (between 2 1)) ([] ∷ []))) }
    ensures no_name { IsKept at_first (OfImport (CompactNames [] (MemoryExternal (between 2 1)) [])) }
    ensures no_item { IsKept at_first (OfImport (CompactItems [] [])) }
{}

/// How large the types of imports and exports are together: 1 at first, 1 more for a table, a memory or a global, and for a function or a tag
/// 2 and its parameters and results. The module's own items count only where they are exported, and then each time.
pub fn sizes_of_types()
    ensures none { at_first.type_size ≡ 1 }
    ensures memory { (after at_first (imports (MemoryExternal (at_least 1)))).type_size ≡ 2 }
    ensures table { (after at_first (imports (TableExternal (table_of funcref (at_least 1))))).type_size ≡ 2 }
    ensures global { (after at_first (imports (GlobalExternal (constant I32)))).type_size ≡ 2 }
    ensures function { (with_types (imports (FuncExternal 0) ∷ [])).type_size ≡ 3 }
    ensures with_parameters { (with_types (imports (FuncExternal 1) ∷ [])).type_size ≡ 5 }
    ensures with_a_result { (with_types (imports (FuncExternal 2) ∷ [])).type_size ≡ 4 }
    ensures tag { (with_types (imports (TagExternal 1) ∷ [])).type_size ≡ 5 }
    ensures own { (with_types (OfFunction 1 ∷ OfTag 1 ∷ OfMemory (at_least 1) ∷ own_table funcref (at_least 1) ∷ [])).type_size ≡ 1 }
    ensures exported { (with_types (OfFunction 0 ∷ OfFunction 1 ∷ exports [] FuncKind 1 ∷ [])).type_size ≡ 5 }
    ensures exported_twice { (with_types (OfTag 1 ∷ exports [] TagKind 0 ∷ exports (97 ∷ []) TagKind 0 ∷ [])).type_size ≡ 9 }
    ensures exported_memory { (after_all at_first (OfMemory (at_least 1) ∷ exports [] MemoryKind 0 ∷ [])).type_size ≡ 2 }
    ensures imported_and_exported { (with_types (imports (FuncExternal 2) ∷ exports [] FuncKind 0 ∷ [])).type_size ≡ 7 }
    ensures group { (after at_first (OfImport (CompactNames [] (MemoryExternal (at_least 1)) ([] ∷ [] ∷ [] ∷ [])))).type_size ≡ 4 }
{}

/// What is shown of a module: each space in order, imported items first, and what is exported; and how many items each has.
pub fn spaces()
    ensures types { (spaces_in one_of_each).types ≡ (with_types []).types }
    ensures functions { (spaces_in one_of_each).functions ≡ 2 ∷ 0 ∷ 1 ∷ [] }
    ensures tables { (spaces_in one_of_each).tables ≡ table_of funcref (at_least 1) ∷ [] }
    ensures memories { (spaces_in one_of_each).memories ≡ at_least 1 ∷ at_least 2 ∷ [] }
    ensures globals { (spaces_in one_of_each).globals ≡ constant F32 ∷ variable I32 ∷ [] }
    ensures tags { (spaces_in one_of_each).tags ≡ 1 ∷ [] }
    ensures elements { (spaces_in one_of_each).elements ≡ reference false (Abstract Func) ∷ reference false (Concrete 1) ∷ funcref ∷ [] }
    ensures exports { (spaces_in one_of_each).exports ≡ export_of (97 ∷ []) TagKind 0 ∷ export_of (98 ∷ []) FuncKind 2 ∷ [] }
    ensures of_sections { (spaces_of (MemorySection (at_least 1 ∷ []) ∷ ExportSection (export_of (97 ∷ []) MemoryKind 0 ∷ []) ∷ [])).exports ≡ export_of (97 ∷ []) MemoryKind 0 ∷ [] }
    ensures sizes { sizes_in (record { types = (with_types []).types; functions = 0 ∷ []; tables = []; memories = replicate 2 (at_least 1); globals = replicate 3 (constant I32); tags = replicate 5 0; elements = replicate 6 funcref; imported = []; exports = replicate 7 (export_of [] FuncKind 0) })
        ≡ record { types = 4; functions = 1; tables = 0; memories = 2; globals = 3; tags = 5; elements = 6; exports = 7 } }
{}

/// Items of each space and entries of each section: how many there may be.
pub fn limits_of_spaces()
    ensures function { (index : ℕ) → IsFullAt 1000000 Functions (λ cx. length cx.imported_functions + length cx.own_functions) (OfFunction index) }
    ensures imported_function { (index : ℕ) → IsFullAt 1000000 Functions (λ cx. length cx.imported_functions + length cx.own_functions) (imports (FuncExternal index)) }
    ensures table { IsFullAt 100 Tables (λ cx. length cx.tables) (own_table funcref (at_least 1)) }
    ensures imported_table { (type : TableType ℕ) → IsFullAt 100 Tables (λ cx. length cx.tables) (imports (TableExternal type)) }
    ensures memory { (type : MemoryType) → IsFullAt 100 Memories (λ cx. length cx.memories) (OfMemory type) }
    ensures imported_memory { (type : MemoryType) → IsFullAt 100 Memories (λ cx. length cx.memories) (imports (MemoryExternal type)) }
    ensures tag { (index : ℕ) → IsFullAt 1000000 Tags (λ cx. length cx.tags) (OfTag index) }
    ensures imported_tag { (index : ℕ) → IsFullAt 1000000 Tags (λ cx. length cx.tags) (imports (TagExternal index)) }
    ensures global { (global : Global) → IsFullAt 1000000 Globals (λ cx. length cx.imported_globals + length cx.own_globals) (OfGlobal global) }
    ensures imported_global { (type : GlobalType ℕ) → IsFullAt 1000000 Globals (λ cx. length cx.imported_globals + length cx.own_globals) (imports (GlobalExternal type)) }
    ensures export { (export : Export) → IsFullAt 1000000 Exports (λ cx. length cx.exports) (OfExport export) }
    ensures element { (segment : ElementSegment) → IsFullAt 100000 ElementSegments (λ cx. length cx.elements) (OfElement segment) }
    ensures data { (segment : DataSegment) → IsFullAt 100000 DataSegments (λ cx. cx.segments) (OfData segment) }
    ensures group { (group : RecGroup ℕ) → IsFullAt 1000000 Groups (λ cx. cx.groups) (OfType group) }
    ensures import { (type : MemoryType) → IsFullAt 1000000 Imports (λ cx. cx.imports) (imports (MemoryExternal type)) }
    ensures empty_group_of_imports { IsFullAt 1000000 Imports (λ cx. cx.imports) (OfImport (CompactItems [] [])) }
{}

/// Types: those of all groups are counted, so that a module may have 1,000,000 of them and no more, in one group or in several.
pub fn limit_of_types()
    ensures alone { (type : SubType ℕ) → IsFullAt 1000000 Types (λ cx. length cx.types) (OfType (Single type)) }
    ensures group_of_one { (type : SubType ℕ) → IsFullAt 1000000 Types (λ cx. length cx.types) (OfType (Group (type ∷ []))) }
    ensures group_of_two { (a b : SubType ℕ) → IsFullAt 999999 Types (λ cx. length cx.types) (OfType (Group (a ∷ b ∷ []))) }
    ensures group_of_none { (cx : Context) → length cx.types ≡ 1000000 → ¬ (Passes Types (measures cx (OfType (Group [])))) }
    ensures most { (cx : Context) (group : RecGroup ℕ) → length cx.types + length (members group) ≡ 1000000 → ¬ (Passes Types (measures cx (OfType group))) }
    ensures more { (cx : Context) (group : RecGroup ℕ) → length cx.types + length (members group) ≡ 1000001 → Passes Types (measures cx (OfType group)) }
    ensures most_in_one { (n : ℕ) (type : SubType ℕ) → n ≡ 1000000 → ¬ (Passes Types (measures at_first (OfType (Group (replicate n type))))) }
    ensures more_in_one { (n : ℕ) (type : SubType ℕ) → n ≡ 1000001 → Passes Types (measures at_first (OfType (Group (replicate n type)))) }
    ensures other { (cx : Context) (type : MemoryType) → ¬ (Passes Types (measures cx (OfMemory type))) }
{}

/// What is known has the numbers that limits count: one more for an entry of its kind.
pub fn counts()
    ensures groups { (cx : Context) (group : RecGroup ℕ) → (after cx (OfType group)).groups ≡ suc cx.groups }
    ensures imports { (cx : Context) → (after cx (OfImport (CompactItems [] []))).imports ≡ suc cx.imports }
    ensures elements { (cx : Context) (segment : ElementSegment) → length (after cx (OfElement segment)).elements ≡ length cx.elements + 1 }
    ensures segments { (cx : Context) (segment : DataSegment) → (after cx (OfData segment)).segments ≡ suc cx.segments }
    ensures exports { (after_all at_first (exports (97 ∷ []) MemoryKind 0 ∷ exports (98 ∷ []) MemoryKind 0 ∷ [])).exports ≡ export_of (97 ∷ []) MemoryKind 0 ∷ export_of (98 ∷ []) MemoryKind 0 ∷ [] }
    ensures types { length (after_all at_first (OfType (Group (final_type empty_structure ∷ final_type empty_structure ∷ [])) ∷ OfType (Single (final_type empty_structure)) ∷ [])).types ≡ 3 }
    ensures type_groups { (after_all at_first (OfType (Group (final_type empty_structure ∷ final_type empty_structure ∷ [])) ∷ OfType (Single (final_type empty_structure)) ∷ [])).groups ≡ 2 }
    ensures measured { measures at_first (OfType (Group (final_type empty_structure ∷ final_type empty_structure ∷ []))) ≡ (Groups, 1) ∷ (Types, 2) ∷ [] }
{}

/// The second import of a group is the one too many.
pub fn limits_in_groups()
    ensures names { (cx : Context) (type : MemoryType) → length cx.memories ≡ 99 → Passes Memories (measures cx (OfImport (CompactNames [] (MemoryExternal type) ([] ∷ [] ∷ [])))) }
    ensures one_name { (cx : Context) (type : MemoryType) → length cx.memories ≡ 99 → ¬ (Passes Memories (measures cx (OfImport (CompactNames [] (MemoryExternal type) ([] ∷ []))))) }
    ensures items { (cx : Context) (a b : TableType ℕ) → length cx.tables ≡ 99 → Passes Tables (measures cx (OfImport (CompactItems [] (record { name = []; type = TableExternal a } ∷ record { name = []; type = TableExternal b } ∷ [])))) }
    ensures sizes { (cx : Context) (type : MemoryType) → cx.type_size ≡ 999998 → Passes TypeSize (measures cx (OfImport (CompactNames [] (MemoryExternal type) ([] ∷ [] ∷ [])))) }
{}

/// Names are as long as their bytes are many; those of modules count too.
pub fn lengths()
    ensures custom { IsLongestAt 100000 Name (λ name. OfCustom name) }
    ensures export { (kind : ExternalKind) (index : ℕ) → IsLongestAt 100000 Name (λ name. exports name kind index) }
    ensures import { (type : MemoryType) → IsLongestAt 100000 Name (λ name. OfImport (Import [] name (MemoryExternal type))) }
    ensures module { (type : MemoryType) → IsLongestAt 100000 Name (λ name. OfImport (Import name [] (MemoryExternal type))) }
    ensures module_of_items { IsLongestAt 100000 Name (λ name. OfImport (CompactItems name [])) }
    ensures item { (type : MemoryType) → IsLongestAt 100000 Name (λ name. OfImport (CompactItems [] (record { name = []; type = MemoryExternal type } ∷ record { name = name; type = MemoryExternal type } ∷ []))) }
    ensures module_of_names { (type : MemoryType) → IsLongestAt 100000 Name (λ name. OfImport (CompactNames name (MemoryExternal type) [])) }
    ensures name { (type : MemoryType) → IsLongestAt 100000 Name (λ name. OfImport (CompactNames [] (MemoryExternal type) ([] ∷ name ∷ []))) }
    ensures body { IsLongestAt 7654321 BodySize (λ body. OfBody body) }
{}

/// The size of types, met and passed by one.
pub fn limit_of_type_size()
    ensures memory { (type : MemoryType) → IsFullAt 999999 TypeSize (λ cx. cx.type_size) (imports (MemoryExternal type)) }
    ensures table { (type : TableType ℕ) → IsFullAt 999999 TypeSize (λ cx. cx.type_size) (imports (TableExternal type)) }
    ensures global { (type : GlobalType ℕ) → IsFullAt 999999 TypeSize (λ cx. cx.type_size) (imports (GlobalExternal type)) }
    ensures function { ¬ (Passes TypeSize (measures (record (with_types []) { type_size = 999995 }) (imports (FuncExternal 1)))) }
    ensures large_function { Passes TypeSize (measures (record (with_types []) { type_size = 999996 }) (imports (FuncExternal 1))) }
    ensures tag { ¬ (Passes TypeSize (measures (record (with_types []) { type_size = 999995 }) (imports (TagExternal 1)))) }
    ensures large_tag { Passes TypeSize (measures (record (with_types []) { type_size = 999996 }) (imports (TagExternal 1))) }
    ensures export { ¬ (Passes TypeSize (measures (record (with_types (OfFunction 2 ∷ [])) { type_size = 999996 }) (exports [] FuncKind 0))) }
    ensures large_export { Passes TypeSize (measures (record (with_types (OfFunction 2 ∷ [])) { type_size = 999997 }) (exports [] FuncKind 0)) }
    ensures own { (cx : Context) (type : MemoryType) → ¬ (Passes TypeSize (measures cx (OfMemory type))) }
{}

/// Each entry is asked after those before it.
pub fn in_turn()
    ensures two { (features : Features) → has features MultiMemory ≡ true → KeepRules features at_first (OfMemory (at_least 1) ∷ OfMemory (at_least 1) ∷ []) }
    ensures one_too_many { (features : Features) → has features MultiMemory ≡ false → ¬ (KeepRules features at_first (OfMemory (at_least 1) ∷ OfMemory (at_least 1) ∷ [])) }
    ensures later { (features : Features) → ¬ (KeepRules features at_first (OfMemory (at_least 1) ∷ OfCustom [] ∷ OfMemory (between 2 1) ∷ [])) }
    ensures within { (cx : Context) (a b : MemoryType) → length cx.memories ≡ 98 → KeepLimits cx (OfMemory a ∷ OfMemory b ∷ []) }
    ensures past { (cx : Context) (a b : MemoryType) → length cx.memories ≡ 99 → ¬ (KeepLimits cx (OfMemory a ∷ OfMemory b ∷ [])) }
    ensures named { (cx : Context) (a b : MemoryType) → length cx.memories ≡ 99 → PassLimit Memories cx (OfMemory a ∷ OfMemory b ∷ []) }
    ensures not_named { (cx : Context) (a b : MemoryType) → length cx.memories ≡ 98 → ¬ (PassLimit Memories cx (OfMemory a ∷ OfMemory b ∷ [])) }
{}

/// A group keeps its rule where it keeps the rules on groups; that its indexes are small then asks no more of a module within the limit on types.
pub fn types()
    ensures rules { (features : Features) (cx : Context) (group : RecGroup ℕ) → Keeps features cx (OfType group) → KeepsGroupRules features cx.types group }
    ensures room { (features : Features) (cx : Context) (group : RecGroup ℕ) → KeepsGroupRules features cx.types group → ¬ (Passes Types (measures cx (OfType group))) → Keeps features cx (OfType group) }
    ensures large { (features : Features) (cx : Context) → ¬ (Keeps features cx (OfType (Single (function_to total_of_types)))) }
{}

/// What a group passes by its types is what the rules on groups say it passes.
pub fn limits_of_groups()
    ensures within { (cx : Context) (group : RecGroup ℕ) → IsWithinGroupLimits cx.types group → (limit : Limit) → ¬ (PassesByTypes limit cx (OfType group)) }
    ensures past { (cx : Context) (group : RecGroup ℕ) → ((limit : Limit) → ¬ (PassesByTypes limit cx (OfType group))) → IsWithinGroupLimits cx.types group }
    ensures named { (cx : Context) (group : RecGroup ℕ) (limit : Limit) → PassesByTypes limit cx (OfType group) → PassLimit limit cx (OfType group ∷ []) }
    ensures not_kept { (cx : Context) (group : RecGroup ℕ) (limit : Limit) → PassesByTypes limit cx (OfType group) → ¬ (KeepLimits cx (OfType group ∷ [])) }
    ensures other { (cx : Context) (type : MemoryType) (limit : Limit) → ¬ (PassesByTypes limit cx (OfMemory type)) }
{}

/// Limits are kept where none is passed, and nowhere else.
pub fn limits_that_are_passed()
    ensures none { (cx : Context) (entries : List Entry) → KeepLimits cx entries → (limit : Limit) → ¬ (PassLimit limit cx entries) }
    ensures kept { (cx : Context) (entries : List Entry) → ((limit : Limit) → ¬ (PassLimit limit cx entries)) → KeepLimits cx entries }
{}

/// Items at the front of a section that is cut short or doesn't read further on: here the first of two memories. The section's frame lies in the
/// bytes, and the items in the frame; there are no more of them than are stated. The
/// section stands in its place.
pub fn fronts()
    ensures one { BeginsWithItems false 5 (0x05 ∷ 0x05 ∷ 0x02 ∷ 0x00 ∷ 0x01 ∷ 0xff ∷ 0xff ∷ []) (OfMemory (at_least 1) ∷ []) }
    ensures none { BeginsWithItems false 5 (0x05 ∷ 0x05 ∷ 0x02 ∷ 0x00 ∷ 0x01 ∷ 0xff ∷ 0xff ∷ []) [] }
    ensures cut { ¬ (BeginsWithItems false 5 (0x05 ∷ 0x06 ∷ 0x02 ∷ 0x00 ∷ 0x01 ∷ 0xff ∷ 0xff ∷ []) (OfMemory (at_least 1) ∷ [])) }
    ensures outside { ¬ (BeginsWithItems false 5 (0x05 ∷ 0x01 ∷ 0x01 ∷ 0x00 ∷ 0x01 ∷ []) (OfMemory (at_least 1) ∷ [])) }
    ensures not_stated { ¬ (BeginsWithItems false 5 (0x05 ∷ 0x03 ∷ 0x00 ∷ 0x00 ∷ 0x01 ∷ []) (OfMemory (at_least 1) ∷ [])) }
    ensures tags { HasItems false (header ++ (0x0d ∷ 0x01 ∷ 0x01 ∷ [])) (OfTags ∷ []) }
    ensures in_order { (compact : Bool) (bytes : List ℕ) (entries : List Entry) (h : HasItems compact bytes entries) → AreOrdered 0 (h.complete.sections ++ h.like ∷ []) }
{}

/// With stack switching a tag may have results. Items of a segment are counted.
pub fn later_features()
    ensures with_a_result { KeptWith (Exceptions ∷ StackSwitching ∷ []) (with_types []) (OfTag 2) }
    ensures imported_with_a_result { KeptWith (Exceptions ∷ StackSwitching ∷ []) (with_types []) (imports (TagExternal 2)) }
    ensures few_items { (mode : ElementMode) → IsLongestAt 10000000 SegmentEntries (λ functions. OfElement (record { mode = mode; items = FunctionItems functions })) }
    ensures expressions { (cx : Context) (mode : ElementMode) (expressions : List ConstantExpression) → length expressions ≡ 10000001 → Passes SegmentEntries (measures cx (OfElement (record { mode = mode; items = ExpressionItems funcref expressions }))) }
{}
