//! The rows of the tables in `docs/SPEC.md`: for each form bytes that have a value, and bytes near them that have none.

ghost use Rattle.std.specs.Prelude.{◌++◌, Bool, true, false, [], ◌∷◌};
ghost use Rattle.wasm_core_read.specs.Laws.{HasValue, HasNone};
ghost use Rattle.wasm_spec.specs.ConstantGrammar.{IsConstantOperator, IsConstantExpression};
ghost use Rattle.wasm_spec.specs.Grammar.{header, IsModule, IsSection};
ghost use Rattle.wasm_spec.specs.ModuleParts.{IsImport, IsTable, IsGlobal, IsExport, IsElementSegment, IsDataSegment};
ghost use Rattle.wasm_spec.specs.TypeGrammar.{IsHeapType, IsRefType, IsValType, IsFieldType, IsCompositeType, IsSubType, IsRecGroup, IsLimits, IsMemoryType, IsTableType, IsGlobalType, IsTagType};

/// Sections, and what stands in them.
pub fn sections()
    ensures custom { (compact : Bool) → HasValue (IsSection compact) (0x00 ∷ 0x03 ∷ 0x01 ∷ 0x61 ∷ 0x07 ∷ []) }
    ensures no_custom { (compact : Bool) → HasNone (IsSection compact) (0x00 ∷ 0x03 ∷ 0x03 ∷ 0x61 ∷ 0x07 ∷ []) }
    ensures function { (compact : Bool) → HasValue (IsSection compact) (0x03 ∷ 0x02 ∷ 0x01 ∷ 0x00 ∷ []) }
    ensures no_function { (compact : Bool) → HasNone (IsSection compact) (0x03 ∷ 0x02 ∷ 0x02 ∷ 0x00 ∷ []) }
    ensures start { (compact : Bool) → HasValue (IsSection compact) (0x08 ∷ 0x01 ∷ 0x00 ∷ []) }
    ensures no_start { (compact : Bool) → HasNone (IsSection compact) (0x08 ∷ 0x02 ∷ 0x00 ∷ 0x00 ∷ []) }
    ensures code { (compact : Bool) → HasValue (IsSection compact) (0x0a ∷ 0x05 ∷ 0x01 ∷ 0x03 ∷ 0x00 ∷ 0x00 ∷ 0x0b ∷ []) }
    ensures no_code { (compact : Bool) → HasNone (IsSection compact) (0x0a ∷ 0x05 ∷ 0x01 ∷ 0x04 ∷ 0x00 ∷ 0x00 ∷ 0x0b ∷ []) }
    ensures import { (compact : Bool) → HasValue (IsImport compact) (0x01 ∷ 0x6d ∷ 0x01 ∷ 0x66 ∷ 0x00 ∷ 0x05 ∷ []) }
    ensures no_import { (compact : Bool) → HasNone (IsImport compact) (0x01 ∷ 0x6d ∷ 0x01 ∷ 0x66 ∷ 0x05 ∷ 0x05 ∷ []) }
    ensures table { HasValue IsTable (0x40 ∷ 0x00 ∷ 0x64 ∷ 0x70 ∷ 0x00 ∷ 0x01 ∷ 0xd2 ∷ 0x05 ∷ 0x0b ∷ []) }
    ensures no_table { HasNone IsTable (0x40 ∷ 0x01 ∷ 0x64 ∷ 0x70 ∷ 0x00 ∷ 0x01 ∷ 0xd2 ∷ 0x05 ∷ 0x0b ∷ []) }
    ensures memory { HasValue IsMemoryType (0x02 ∷ 0x01 ∷ []) }
    ensures no_memory { HasNone IsMemoryType (0x10 ∷ 0x01 ∷ []) }
    ensures global { HasValue IsGlobal (0x7f ∷ 0x01 ∷ 0x41 ∷ 0x00 ∷ 0x0b ∷ []) }
    ensures no_global { HasNone IsGlobal (0x7f ∷ 0x02 ∷ 0x41 ∷ 0x00 ∷ 0x0b ∷ []) }
    ensures export { HasValue IsExport (0x01 ∷ 0x61 ∷ 0x02 ∷ 0x80 ∷ 0x00 ∷ []) }
    ensures no_export { HasNone IsExport (0x01 ∷ 0x61 ∷ 0x82 ∷ 0x00 ∷ 0x00 ∷ []) }
    ensures tag { HasValue IsTagType (0x00 ∷ 0x05 ∷ []) }
    ensures no_tag { HasNone IsTagType (0x01 ∷ 0x05 ∷ []) }
{}

/// A data count, alone in its module.
pub fn data_counts()
    ensures none { (compact : Bool) → HasValue (IsModule compact) (header ++ (0x0c ∷ 0x01 ∷ 0x00 ∷ [])) }
    ensures one { (compact : Bool) → HasNone (IsModule compact) (header ++ (0x0c ∷ 0x01 ∷ 0x01 ∷ [])) }
{}

/// Types.
pub fn types()
    ensures heap_type { HasValue IsHeapType (0x80 ∷ 0x80 ∷ 0xc0 ∷ 0x00 ∷ []) }
    ensures no_heap_type { HasNone IsHeapType (0xf0 ∷ 0x7f ∷ []) }
    ensures reference { HasValue IsRefType (0x64 ∷ 0x70 ∷ []) }
    ensures no_reference { HasNone IsRefType (0x63 ∷ 0xf0 ∷ 0x7f ∷ []) }
    ensures nullable_reference { HasValue IsRefType (0x63 ∷ 0x70 ∷ []) }
    ensures value_type { HasValue IsValType (0x70 ∷ []) }
    ensures no_value_type { HasNone IsValType (0x78 ∷ []) }
    ensures field { HasValue IsFieldType (0x77 ∷ 0x00 ∷ []) }
    ensures no_field { HasNone IsFieldType (0x77 ∷ 0x02 ∷ []) }
    ensures composite_type { HasValue IsCompositeType (0x5d ∷ 0x00 ∷ []) }
    ensures no_composite_type { HasNone IsCompositeType (0x5d ∷ 0x7f ∷ []) }
    ensures sub_type { HasValue IsSubType (0x50 ∷ 0x02 ∷ 0x00 ∷ 0x01 ∷ 0x60 ∷ 0x00 ∷ 0x00 ∷ []) }
    ensures no_sub_type { HasNone IsSubType (0x50 ∷ 0x50 ∷ 0x60 ∷ 0x00 ∷ 0x00 ∷ []) }
    ensures group { HasValue IsRecGroup (0x4e ∷ 0x00 ∷ []) }
    ensures no_group { HasNone IsRecGroup (0x4e ∷ 0x01 ∷ 0x4e ∷ 0x00 ∷ []) }
    ensures limits { HasValue IsLimits (0x00 ∷ 0x81 ∷ 0x80 ∷ 0x80 ∷ 0x80 ∷ 0x80 ∷ 0x00 ∷ []) }
    ensures no_limits { HasNone IsLimits (0x80 ∷ 0x00 ∷ 0x01 ∷ []) }
    ensures table_type { HasValue IsTableType (0x64 ∷ 0x70 ∷ 0x05 ∷ 0x01 ∷ 0x02 ∷ []) }
    ensures no_table_type { HasNone IsTableType (0x70 ∷ 0x02 ∷ 0x01 ∷ []) }
    ensures no_table_type_with_pages { HasNone IsTableType (0x70 ∷ 0x08 ∷ 0x01 ∷ 0x10 ∷ []) }
    ensures global_type { HasValue IsGlobalType (0x7f ∷ 0x01 ∷ []) }
    ensures no_global_type { HasNone IsGlobalType (0x7f ∷ 0x02 ∷ []) }
{}

/// Imports and constant expressions.
pub fn entries()
    ensures import { (compact : Bool) → HasValue (IsImport compact) (0x01 ∷ 0x6d ∷ 0x80 ∷ 0x00 ∷ 0x00 ∷ 0x05 ∷ []) }
    ensures no_import { (compact : Bool) → HasNone (IsImport compact) (0x01 ∷ 0x6d ∷ 0x80 ∷ 0x00 ∷ 0x7f ∷ 0x00 ∷ []) }
    ensures compact_import { HasValue (IsImport true) (0x01 ∷ 0x6d ∷ 0x00 ∷ 0x7e ∷ 0x02 ∷ 0x00 ∷ 0x01 ∷ 0x02 ∷ 0x01 ∷ 0x61 ∷ 0x01 ∷ 0x62 ∷ []) }
    ensures no_without_the_feature { HasNone (IsImport false) (0x01 ∷ 0x6d ∷ 0x00 ∷ 0x7e ∷ 0x02 ∷ 0x00 ∷ 0x01 ∷ 0x02 ∷ 0x01 ∷ 0x61 ∷ 0x01 ∷ 0x62 ∷ []) }
    ensures expression { HasValue IsConstantExpression (0x41 ∷ 0x00 ∷ 0x41 ∷ 0x00 ∷ 0x6a ∷ 0x0b ∷ []) }
    ensures no_expression { HasNone IsConstantExpression (0x01 ∷ 0x0b ∷ []) }
    ensures operator { HasValue IsConstantOperator (0xfd ∷ 0x8c ∷ 0x00 ∷ 0x00 ∷ 0x00 ∷ 0x00 ∷ 0x00 ∷ 0x00 ∷ 0x00 ∷ 0x00 ∷ 0x00 ∷ 0x00 ∷ 0x00 ∷ 0x00 ∷ 0x00 ∷ 0x00 ∷ 0x00 ∷ 0x00 ∷ 0x00 ∷ []) }
    ensures no_operator { HasNone IsConstantOperator (0xfb ∷ 0x02 ∷ 0x05 ∷ []) }
{}

/// Element and data segments.
pub fn segments()
    ensures element_0 { HasValue IsElementSegment (0x80 ∷ 0x00 ∷ 0x41 ∷ 0x00 ∷ 0x0b ∷ 0x01 ∷ 0x05 ∷ []) }
    ensures no_element_0 { HasNone IsElementSegment (0x00 ∷ 0x41 ∷ 0x00 ∷ 0x0b ∷ 0x02 ∷ 0x05 ∷ []) }
    ensures element_1 { HasValue IsElementSegment (0x01 ∷ 0x00 ∷ 0x01 ∷ 0x05 ∷ []) }
    ensures no_element_1 { HasNone IsElementSegment (0x01 ∷ 0x01 ∷ 0x01 ∷ 0x05 ∷ []) }
    ensures element_2 { HasValue IsElementSegment (0x02 ∷ 0x80 ∷ 0x00 ∷ 0x41 ∷ 0x00 ∷ 0x0b ∷ 0x00 ∷ 0x01 ∷ 0x05 ∷ []) }
    ensures no_element_2 { HasNone IsElementSegment (0x02 ∷ 0x41 ∷ 0x00 ∷ 0x0b ∷ 0x00 ∷ 0x01 ∷ 0x05 ∷ []) }
    ensures element_3 { HasValue IsElementSegment (0x03 ∷ 0x00 ∷ 0x01 ∷ 0x05 ∷ []) }
    ensures no_element_3 { HasNone IsElementSegment (0x03 ∷ 0x80 ∷ 0x00 ∷ 0x01 ∷ 0x05 ∷ []) }
    ensures element_4 { HasValue IsElementSegment (0x04 ∷ 0x41 ∷ 0x00 ∷ 0x0b ∷ 0x01 ∷ 0xd2 ∷ 0x05 ∷ 0x0b ∷ []) }
    ensures no_element_4 { HasNone IsElementSegment (0x04 ∷ 0x41 ∷ 0x00 ∷ 0x0b ∷ 0x70 ∷ 0x01 ∷ 0xd2 ∷ 0x05 ∷ 0x0b ∷ []) }
    ensures element_5 { HasValue IsElementSegment (0x05 ∷ 0x70 ∷ 0x01 ∷ 0xd0 ∷ 0x70 ∷ 0x0b ∷ []) }
    ensures no_element_5 { HasNone IsElementSegment (0x05 ∷ 0x00 ∷ 0x01 ∷ 0xd0 ∷ 0x70 ∷ 0x0b ∷ []) }
    ensures element_6 { HasValue IsElementSegment (0x06 ∷ 0x01 ∷ 0x41 ∷ 0x00 ∷ 0x0b ∷ 0x70 ∷ 0x01 ∷ 0xd2 ∷ 0x05 ∷ 0x0b ∷ []) }
    ensures no_element_6 { HasNone IsElementSegment (0x06 ∷ 0x01 ∷ 0x41 ∷ 0x00 ∷ 0x0b ∷ 0x01 ∷ 0xd2 ∷ 0x05 ∷ 0x0b ∷ []) }
    ensures element_7 { HasValue IsElementSegment (0x07 ∷ 0x63 ∷ 0x00 ∷ 0x01 ∷ 0xd0 ∷ 0x00 ∷ 0x0b ∷ []) }
    ensures no_element_7 { HasNone IsElementSegment (0x07 ∷ 0x7f ∷ 0x00 ∷ []) }
    ensures data_0 { HasValue IsDataSegment (0x00 ∷ 0x41 ∷ 0x00 ∷ 0x0b ∷ 0x01 ∷ 0x68 ∷ []) }
    ensures no_data_0 { HasNone IsDataSegment (0x00 ∷ 0x41 ∷ 0x00 ∷ 0x0b ∷ 0x02 ∷ 0x68 ∷ []) }
    ensures data_1 { HasValue IsDataSegment (0x01 ∷ 0x01 ∷ 0x68 ∷ []) }
    ensures no_data_1 { HasNone IsDataSegment (0x03 ∷ 0x01 ∷ 0x68 ∷ []) }
    ensures data_2 { HasValue IsDataSegment (0x02 ∷ 0x00 ∷ 0x41 ∷ 0x00 ∷ 0x0b ∷ 0x01 ∷ 0x68 ∷ []) }
    ensures no_data_2 { HasNone IsDataSegment (0x02 ∷ 0x41 ∷ 0x00 ∷ 0x0b ∷ 0x01 ∷ 0x68 ∷ []) }
{}
