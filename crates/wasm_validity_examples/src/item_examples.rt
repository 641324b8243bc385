//! Worked examples of the items of sections as bytes have them, and of sections of which an item alone is read.

ghost use Rattle.std.specs.Prelude.{◌≡◌, ◌++◌, ℕ, Bool, List, [], ◌∷◌};
ghost use Rattle.wasm_spec.specs.Grammar.{header};
ghost use Rattle.wasm_spec.specs.Syntax.{DataSegment, ElementSegment, Export, Global, Import, Table};
ghost use Rattle.wasm_spec.specs.Types.{FuncExternal, MemoryKind, Single};
ghost use Rattle.wasm_spec_examples.specs.Examples.{at_least, final_type, no_values};
ghost use Rattle.wasm_validity.specs.Entries.{Entry, IsItem, OfBody, OfCustom, OfData, OfDataCount, OfElement, OfExport, OfFunction, OfGlobal, OfImport, OfMemory, OfStart, OfTable, OfTag, OfTags, OfType};
ghost use Rattle.wasm_validity.specs.Fronts.{BeginsWithItems, HasItems};
ghost use Rattle.wasm_validity_examples.specs.Examples.{export_of, one_table};
ghost use Rattle.wasm_validity_examples.specs.ItemExamples.{functions_in_table_3, two_bytes, variable_of_0};

use wasm_spec_examples::grammar_examples::{
    data_segments, element_segments, imports_and_exports, tables_and_globals, type_entries,
    wrong_entries, wrong_types,
};

/// The bytes of an item of each section that has items.
pub fn items_of_sections()
    ensures group { (compact : Bool) → IsItem compact 1 (0x60 ∷ 0x00 ∷ 0x00 ∷ []) (OfType (Single (final_type no_values))) }
    ensures import { (compact : Bool) → IsItem compact 2 (0x01 ∷ 0x6d ∷ 0x01 ∷ 0x66 ∷ 0x00 ∷ 0x05 ∷ []) (OfImport (Import (0x6d ∷ []) (0x66 ∷ []) (FuncExternal 5))) }
    ensures function { (compact : Bool) → IsItem compact 3 (0x05 ∷ []) (OfFunction 5) }
    ensures table { (compact : Bool) → IsItem compact 4 (0x70 ∷ 0x00 ∷ 0x01 ∷ []) (OfTable one_table) }
    ensures memory { (compact : Bool) → IsItem compact 5 (0x00 ∷ 0x01 ∷ []) (OfMemory (at_least 1)) }
    ensures global { (compact : Bool) → IsItem compact 6 (0x7f ∷ 0x01 ∷ 0x41 ∷ 0x00 ∷ 0x0b ∷ []) (OfGlobal variable_of_0) }
    ensures export { (compact : Bool) → IsItem compact 7 (0x01 ∷ 0x61 ∷ 0x02 ∷ 0x80 ∷ 0x00 ∷ []) (OfExport (export_of (0x61 ∷ []) MemoryKind 0)) }
    ensures element { (compact : Bool) → IsItem compact 9 (0x06 ∷ 0x03 ∷ 0x41 ∷ 0x00 ∷ 0x0b ∷ 0x70 ∷ 0x01 ∷ 0xd2 ∷ 0x05 ∷ 0x0b ∷ []) (OfElement functions_in_table_3) }
    ensures body { (compact : Bool) → IsItem compact 10 (0x02 ∷ 0x00 ∷ 0x0b ∷ []) (OfBody (0x00 ∷ 0x0b ∷ [])) }
    ensures segment { (compact : Bool) → IsItem compact 11 (0x00 ∷ 0x41 ∷ 0x00 ∷ 0x0b ∷ 0x02 ∷ 0x68 ∷ 0x69 ∷ []) (OfData two_bytes) }
    ensures tag { (compact : Bool) → IsItem compact 13 (0x00 ∷ 0x05 ∷ []) (OfTag 5) }
{
    type_entries();
    imports_and_exports();
    tables_and_globals();
    element_segments();
    data_segments();
}

/// Items stand in the section of their kind alone, and what is said by a whole section is none.
pub fn items_elsewhere()
    ensures table { (compact : Bool) (id : ℕ) (bytes : List ℕ) (table : Table) → IsItem compact id bytes (OfTable table) → id ≡ 4 }
    ensures global { (compact : Bool) (id : ℕ) (bytes : List ℕ) (global : Global) → IsItem compact id bytes (OfGlobal global) → id ≡ 6 }
    ensures export { (compact : Bool) (id : ℕ) (bytes : List ℕ) (export : Export) → IsItem compact id bytes (OfExport export) → id ≡ 7 }
    ensures element { (compact : Bool) (id : ℕ) (bytes : List ℕ) (segment : ElementSegment) → IsItem compact id bytes (OfElement segment) → id ≡ 9 }
    ensures body { (compact : Bool) (id : ℕ) (bytes body : List ℕ) → IsItem compact id bytes (OfBody body) → id ≡ 10 }
    ensures segment { (compact : Bool) (id : ℕ) (bytes : List ℕ) (segment : DataSegment) → IsItem compact id bytes (OfData segment) → id ≡ 11 }
    ensures tag { (compact : Bool) (id : ℕ) (bytes : List ℕ) (index : ℕ) → IsItem compact id bytes (OfTag index) → id ≡ 13 }
    ensures tags { (compact : Bool) (id : ℕ) (bytes : List ℕ) → ¬ (IsItem compact id bytes OfTags) }
    ensures start { (compact : Bool) (id : ℕ) (bytes : List ℕ) (function : ℕ) → ¬ (IsItem compact id bytes (OfStart function)) }
    ensures data_count { (compact : Bool) (id : ℕ) (bytes : List ℕ) (count : ℕ) → ¬ (IsItem compact id bytes (OfDataCount count)) }
    ensures custom { (compact : Bool) (id : ℕ) (bytes name : List ℕ) → ¬ (IsItem compact id bytes (OfCustom name)) }
{}

/// Bytes that are no item of a section, whatever they would say: a shared table, an export of no kind, segments of forms that aren't there, another kind of tag.
pub fn no_items()
    ensures shared_table { (compact : Bool) (rest : List ℕ) (entry : Entry) → ¬ (IsItem compact 4 (0x70 ∷ 0x02 ∷ rest) entry) }
    ensures other_export { (compact : Bool) (rest : List ℕ) (entry : Entry) → ¬ (IsItem compact 7 (0x01 ∷ 0x61 ∷ 0x05 ∷ rest) entry) }
    ensures element_form_8 { (compact : Bool) (rest : List ℕ) (entry : Entry) → ¬ (IsItem compact 9 (0x08 ∷ rest) entry) }
    ensures data_form_3 { (compact : Bool) (rest : List ℕ) (entry : Entry) → ¬ (IsItem compact 11 (0x03 ∷ rest) entry) }
    ensures other_tag { (compact : Bool) (rest : List ℕ) (entry : Entry) → ¬ (IsItem compact 13 (0x01 ∷ rest) entry) }
    ensures start_section { (compact : Bool) (bytes : List ℕ) (entry : Entry) → ¬ (IsItem compact 8 bytes entry) }
    ensures data_count_section { (compact : Bool) (bytes : List ℕ) (entry : Entry) → ¬ (IsItem compact 12 bytes entry) }
{
    wrong_entries();
    wrong_types();
}

/// The first of two items that a section states, where the second doesn't read.
pub fn fronts_of_sections()
    ensures tables { (compact : Bool) (rest : List ℕ) → BeginsWithItems compact 4 (0x04 ∷ 0x05 ∷ 0x02 ∷ 0x70 ∷ 0x00 ∷ 0x01 ∷ 0xff ∷ rest) (OfTable one_table ∷ []) }
    ensures globals { (compact : Bool) (rest : List ℕ) → BeginsWithItems compact 6 (0x06 ∷ 0x07 ∷ 0x02 ∷ 0x7f ∷ 0x01 ∷ 0x41 ∷ 0x00 ∷ 0x0b ∷ 0xff ∷ rest) (OfGlobal variable_of_0 ∷ []) }
    ensures exports { (compact : Bool) (rest : List ℕ) → BeginsWithItems compact 7 (0x07 ∷ 0x07 ∷ 0x02 ∷ 0x01 ∷ 0x61 ∷ 0x02 ∷ 0x80 ∷ 0x00 ∷ 0xff ∷ rest) (OfExport (export_of (0x61 ∷ []) MemoryKind 0) ∷ []) }
    ensures elements { (compact : Bool) (rest : List ℕ) → BeginsWithItems compact 9
        (0x09 ∷ 0x0c ∷ 0x02 ∷ 0x06 ∷ 0x03 ∷ 0x41 ∷ 0x00 ∷ 0x0b ∷ 0x70 ∷ 0x01 ∷ 0xd2 ∷ 0x05 ∷ 0x0b ∷ 0xff ∷ rest) (OfElement functions_in_table_3 ∷ []) }
    ensures segments { (compact : Bool) (rest : List ℕ) → BeginsWithItems compact 11 (0x0b ∷ 0x09 ∷ 0x02 ∷ 0x00 ∷ 0x41 ∷ 0x00 ∷ 0x0b ∷ 0x02 ∷ 0x68 ∷ 0x69 ∷ 0xff ∷ rest) (OfData two_bytes ∷ []) }
    ensures tags { (compact : Bool) (rest : List ℕ) → BeginsWithItems compact 13 (0x0d ∷ 0x04 ∷ 0x02 ∷ 0x00 ∷ 0x05 ∷ 0xff ∷ rest) (OfTag 5 ∷ []) }
    ensures tag_section { (compact : Bool) (rest : List ℕ) → HasItems compact (header ++ (0x0d ∷ 0x04 ∷ 0x02 ∷ 0x00 ∷ 0x05 ∷ 0xff ∷ rest)) (OfTags ∷ OfTag 5 ∷ []) }
    ensures global_section { (compact : Bool) (rest : List ℕ) → HasItems compact (header ++ (0x06 ∷ 0x07 ∷ 0x02 ∷ 0x7f ∷ 0x01 ∷ 0x41 ∷ 0x00 ∷ 0x0b ∷ 0xff ∷ rest)) (OfGlobal variable_of_0 ∷ []) }
    ensures other_section { (compact : Bool) (rest : List ℕ) (entries : List Entry) → ¬ (BeginsWithItems compact 6 (0x04 ∷ rest) entries) }
    ensures cut_table { (compact : Bool) → ¬ (BeginsWithItems compact 4 (0x04 ∷ 0x05 ∷ 0x02 ∷ 0x70 ∷ 0x00 ∷ 0x01 ∷ []) (OfTable one_table ∷ [])) }
    ensures cut_global { (compact : Bool) (entries : List Entry) → ¬ (BeginsWithItems compact 6 (0x06 ∷ 0x07 ∷ 0x02 ∷ 0x7f ∷ 0x01 ∷ 0x41 ∷ 0x00 ∷ 0x0b ∷ []) entries) }
    ensures not_stated { (compact : Bool) (rest : List ℕ) (entry : Entry) → ¬ (BeginsWithItems compact 9 (0x09 ∷ 0x05 ∷ 0x00 ∷ rest) (entry ∷ [])) }
{
    imports_and_exports();
    tables_and_globals();
    element_segments();
    data_segments();
}
