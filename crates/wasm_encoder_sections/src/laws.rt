//! Laws of what is written: it reads as what was written, and no encoding is shorter. The functions do nothing: their contracts
//! are theorems.

ghost use Rattle.std.specs.Prelude.{◌<◌, ◌^◌, ℕ, Bool, List, map, length};
ghost use Rattle.std.specs.List.{AllByRecursion};
ghost use Rattle.wasm_encoder_sections.specs.ItemEncodings.{bare_table, limits_encoding, memory_type_encoding, table_type_encoding, global_type_encoding, tag_type_encoding, external_type_encoding, name_encoding, export_encoding, import_encoding};
ghost use Rattle.wasm_encoder_sections.specs.SmallItems.{IsSmallLimits, IsSmallTable, IsSmallGlobal, IsSmallExternal, IsNameText, IsSmallExport, IsSmallImport};
ghost use Rattle.wasm_spec.specs.Bytes.{IsName, IsShortest};
ghost use Rattle.wasm_spec.specs.Grammar.{section_id, IsContent, IsSection};
ghost use Rattle.wasm_spec.specs.ModuleParts.{IsImport, IsExport};
ghost use Rattle.wasm_spec.specs.Shortest.{unsigned_encoding, list_encoding, section_encoding};
ghost use Rattle.wasm_spec.specs.SmallIndexes.{IsSmallIndex};
ghost use Rattle.wasm_spec.specs.Syntax.{Section, ImportEntry, Export, ImportSection, FunctionSection, TableSection, MemorySection, TagSection, ExportSection, StartSection, DataCountSection};
ghost use Rattle.wasm_spec.specs.TypeGrammar.{IsLimits, IsMemoryType, IsTableType, IsGlobalType, IsTagType, IsExternalType};
ghost use Rattle.wasm_spec.specs.Types.{Limits, MemoryType, TableType, GlobalType, ExternalType};

/// What is written of the types of what is imported, whose numbers fit their widths, is their shortest encoding.
pub fn shortest_entities()
    ensures limits { (limits : Limits) → IsSmallLimits limits → IsShortest IsLimits (limits_encoding limits) limits }
    ensures memories { (type : MemoryType) → IsSmallLimits type → IsShortest IsMemoryType (memory_type_encoding type) type }
    ensures tables { (type : TableType ℕ) → IsSmallTable type → IsShortest IsTableType (table_type_encoding type) type }
    ensures globals { (type : GlobalType ℕ) → IsSmallGlobal type → IsShortest IsGlobalType (global_type_encoding type) type }
    ensures tags { (function : ℕ) → IsSmallIndex function → IsShortest IsTagType (tag_type_encoding function) function }
    ensures external { (type : ExternalType ℕ) → IsSmallExternal type → IsShortest IsExternalType (external_type_encoding type) type }
{}

/// What is written of names, exports and imports, whose names are UTF-8, is their shortest encoding, unless it is too long for a
/// frame. An import that is several reads where compact imports are on.
pub fn shortest_items()
    ensures names { (name : List ℕ) → IsNameText name → length (name_encoding name) < 2 ^ 32 → IsShortest IsName (name_encoding name) name }
    ensures exports { (export : Export) → IsSmallExport export → length (export_encoding export) < 2 ^ 32 → IsShortest IsExport (export_encoding export) export }
    ensures imports { (compact : Bool) (entry : ImportEntry) → IsSmallImport compact entry → length (import_encoding entry) < 2 ^ 32
        → IsShortest (IsImport compact) (import_encoding entry) entry }
{}

/// What is written as the content of a section is its shortest encoding, unless it is too long for a frame.
pub fn shortest_contents()
    ensures functions { (compact : Bool) (indexes : List ℕ) → AllByRecursion IsSmallIndex indexes → length (list_encoding unsigned_encoding indexes) < 2 ^ 32
        → IsShortest (IsContent compact) (list_encoding unsigned_encoding indexes) (FunctionSection indexes) }
    ensures tables { (compact : Bool) (types : List (TableType ℕ)) → AllByRecursion IsSmallTable types → length (list_encoding table_type_encoding types) < 2 ^ 32
        → IsShortest (IsContent compact) (list_encoding table_type_encoding types) (TableSection (map bare_table types)) }
    ensures memories { (compact : Bool) (types : List MemoryType) → AllByRecursion IsSmallLimits types → length (list_encoding memory_type_encoding types) < 2 ^ 32
        → IsShortest (IsContent compact) (list_encoding memory_type_encoding types) (MemorySection types) }
    ensures tags { (compact : Bool) (indexes : List ℕ) → AllByRecursion IsSmallIndex indexes → length (list_encoding tag_type_encoding indexes) < 2 ^ 32
        → IsShortest (IsContent compact) (list_encoding tag_type_encoding indexes) (TagSection indexes) }
    ensures exports { (compact : Bool) (exports : List Export) → AllByRecursion IsSmallExport exports → length (list_encoding export_encoding exports) < 2 ^ 32
        → IsShortest (IsContent compact) (list_encoding export_encoding exports) (ExportSection exports) }
    ensures imports { (compact : Bool) (entries : List ImportEntry) → AllByRecursion (IsSmallImport compact) entries → length (list_encoding import_encoding entries) < 2 ^ 32
        → IsShortest (IsContent compact) (list_encoding import_encoding entries) (ImportSection entries) }
    ensures start { (compact : Bool) (function : ℕ) → IsSmallIndex function → IsShortest (IsContent compact) (unsigned_encoding function) (StartSection function) }
    ensures data_count { (compact : Bool) (count : ℕ) → IsSmallIndex count → IsShortest (IsContent compact) (unsigned_encoding count) (DataCountSection count) }
{}

/// A section whose content reads is written as that section: its id, and the content after its size.
pub fn sections_read()
    ensures { (compact : Bool) (content : List ℕ) (section : Section) → IsContent compact content section → length content < 2 ^ 32
        → IsSection compact (section_encoding (section_id section) content) section }
{}
