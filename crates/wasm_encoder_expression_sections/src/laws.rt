//! Laws of what is written: it reads as what was written. The functions do nothing: their contracts are theorems.

ghost use Rattle.std.specs.Prelude.{◌≡◌, ◌<◌, ◌^◌, ℕ, Bool, List, Option, length};
ghost use Rattle.std.specs.List.{AllByRecursion, AllZip};
ghost use Rattle.wasm_encoder_expression_sections.specs.ItemEncodings.{table_encoding, global_encoding, element_encoding, data_encoding, ElementMode, Elements, DataMode};
ghost use Rattle.wasm_encoder_expression_sections.specs.ReadItems.{ReadsAs, OptionReadsAs, SegmentReadsAs, DataReadsAs};
ghost use Rattle.wasm_encoder_sections.specs.SmallItems.{IsSmallTable, IsSmallGlobal};
ghost use Rattle.wasm_spec.specs.Bytes.{AreBytes, IsShortest};
ghost use Rattle.wasm_spec.specs.Grammar.{IsContent};
ghost use Rattle.wasm_spec.specs.ModuleParts.{IsBody, IsTable, IsGlobal, IsElementSegment, IsDataSegment};
ghost use Rattle.wasm_spec.specs.Shortest.{list_encoding, framed_encoding};
ghost use Rattle.wasm_spec.specs.Syntax.{Table, Global, ElementSegment, DataSegment, CodeSection, TableSection, GlobalSection, ElementSection, DataSection};
ghost use Rattle.wasm_spec.specs.Types.{TableType, GlobalType};

/// Any bytes are written as a body that reads as these bytes, and a code section of such bodies reads as their list. No encoding
/// is shorter.
pub fn bodies_read()
    ensures body { (bytes : List ℕ) → AreBytes bytes → length (framed_encoding bytes) < 2 ^ 32 → IsShortest IsBody (framed_encoding bytes) bytes }
    ensures section { (compact : Bool) (bodies : List (List ℕ)) → AllByRecursion AreBytes bodies → length (list_encoding framed_encoding bodies) < 2 ^ 32
        → IsShortest (IsContent compact) (list_encoding framed_encoding bodies) (CodeSection bodies) }
{}

/// What is written of tables, globals and segments reads as these, where their expressions' bytes read as expressions.
pub fn items_read()
    ensures tables { (type : TableType ℕ) (initialiser : Option (List ℕ)) (table : Table) → IsSmallTable type → table.type ≡ type → OptionReadsAs initialiser table.initialiser
        → IsTable (table_encoding type initialiser) table }
    ensures globals { (type : GlobalType ℕ) (initialiser : List ℕ) (global : Global) → IsSmallGlobal type → global.type ≡ type → ReadsAs initialiser global.initialiser
        → IsGlobal (global_encoding type initialiser) global }
    ensures elements { (mode : ElementMode) (elements : Elements) (segment : ElementSegment) → SegmentReadsAs mode elements segment
        → IsElementSegment (element_encoding mode elements) segment }
    ensures segments { (mode : DataMode) (contents : List ℕ) (segment : DataSegment) → DataReadsAs mode segment.mode → segment.contents ≡ contents → AreBytes contents
        → length contents < 2 ^ 32 → IsDataSegment (data_encoding mode contents) segment }
{}

/// A section of items that read, whoever wrote their bytes, reads as the list of these.
pub fn sections_read()
    ensures tables { (compact : Bool) (items : List (List ℕ)) (tables : List Table) → length items < 2 ^ 32 → AllZip IsTable items tables
        → IsContent compact (list_encoding (λ item. item) items) (TableSection tables) }
    ensures globals { (compact : Bool) (items : List (List ℕ)) (globals : List Global) → length items < 2 ^ 32 → AllZip IsGlobal items globals
        → IsContent compact (list_encoding (λ item. item) items) (GlobalSection globals) }
    ensures elements { (compact : Bool) (items : List (List ℕ)) (segments : List ElementSegment) → length items < 2 ^ 32 → AllZip IsElementSegment items segments
        → IsContent compact (list_encoding (λ item. item) items) (ElementSection segments) }
    ensures segments { (compact : Bool) (items : List (List ℕ)) (segments : List DataSegment) → length items < 2 ^ 32 → AllZip IsDataSegment items segments
        → IsContent compact (list_encoding (λ item. item) items) (DataSection segments) }
{}
