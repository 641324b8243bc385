//! The bytes of sections tell their items. The functions do nothing: their contracts are theorems.

ghost use Rattle.std.specs.Prelude.{◌≡◌, ◌<◌, ◌^◌, ◌++◌, ℕ, Bool, true, List, length};
ghost use Rattle.std.specs.List.{AllByRecursion};
ghost use Rattle.wasm_encoder_sections.specs.ItemEncodings.{limits_encoding, table_type_encoding, tag_type_encoding, name_encoding, export_encoding, import_encoding};
ghost use Rattle.wasm_encoder_sections.specs.SmallItems.{IsNameText, IsSmallLimits, IsSmallTable, IsSmallExport, IsSmallImport};
ghost use Rattle.wasm_encoder_sections_laws.specs.Told.{TellsItems, TellsEncodings};
ghost use Rattle.wasm_encoder_sections_laws.specs.WrittenModules.{WrittenSection, sections_of, IsReadable, written_module};
ghost use Rattle.wasm_spec.specs.Bytes.{AreBytes};
ghost use Rattle.wasm_spec.specs.Grammar.{section_id, IsContent, IsModule, AreOrdered};
ghost use Rattle.wasm_spec.specs.ModuleParts.{IsTable, IsGlobal, IsElementSegment, IsDataSegment};
ghost use Rattle.wasm_spec.specs.Shortest.{unsigned_encoding, framed_encoding};
ghost use Rattle.wasm_spec.specs.SmallIndexes.{IsSmallIndex};
ghost use Rattle.wasm_spec.specs.Syntax.{Section, Custom, functions_of, bodies_of, data_of, data_counts_of};

/// Sections of one kind that are written as the same bytes are the same section.
pub fn same_sections()
    ensures { (compact : Bool) (section other : Section) (content others : List ℕ) → IsContent compact content section → IsContent compact others other
        → section_id section ≡ section_id other → framed_encoding content ≡ framed_encoding others → section ≡ other }
{}

/// Sections of one kind, whose numbers fit their widths and whose names are UTF-8, have the same bytes only where they have the
/// same items.
pub fn same_items()
    ensures functions { TellsItems unsigned_encoding IsSmallIndex }
    ensures tables { TellsItems table_type_encoding IsSmallTable }
    ensures memories { TellsItems limits_encoding IsSmallLimits }
    ensures tags { TellsItems tag_type_encoding IsSmallIndex }
    ensures exports { TellsItems export_encoding IsSmallExport }
    ensures imports { TellsItems import_encoding (IsSmallImport true) }
{}

/// Sections that are seen as the list of their items' encodings have the same bytes only where these are the same, whoever wrote
/// them. A section of raw items that aren't of the format may have the bytes of another.
pub fn same_encodings()
    ensures tables { TellsEncodings IsTable }
    ensures globals { TellsEncodings IsGlobal }
    ensures elements { TellsEncodings IsElementSegment }
    ensures segments { TellsEncodings IsDataSegment }
{}

/// Sections whose contents read, written in the order of the format and with numbers that agree, are a module of just these
/// sections: under any features where no import is compact, and else where compact imports are on.
pub fn modules_read()
    ensures { (compact : Bool) (written : List WrittenSection) → AllByRecursion (IsReadable compact) written → AreOrdered 0 (sections_of written)
        → length (functions_of (sections_of written)) ≡ length (bodies_of (sections_of written))
        → AllByRecursion (λ count. count ≡ length (data_of (sections_of written))) (data_counts_of (sections_of written))
        → IsModule compact (written_module written) (sections_of written) }
{}

/// A name and any bytes after it are the content of a custom section.
pub fn custom_sections_read()
    ensures { (compact : Bool) (name bytes : List ℕ) → IsNameText name → length (name_encoding name) < 2 ^ 32 → AreBytes bytes
        → IsContent compact (name_encoding name ++ bytes) (Custom name bytes) }
{}
