//! Laws of the reading functions that the contracts of this crate cite, and of the grammar. The
//! functions do nothing: their contracts are theorems.

ghost use Rattle.std.specs.Prelude.{◌≡◌, ◌↔◌, ◌++◌, [], ◌∷◌, true, false, ℕ, Bool, List, Option, None};
ghost use Rattle.wasm_core_read.specs.Laws.{ReadsExactly, FillsExactly, IsPrefixFree, IsNoModule, IsFrame, IsValTypes, IsFuncTypes, IsIndexes, IsRecGroups, IsBodies};
ghost use Rattle.wasm_core_read.specs.ConstantReading.{operator_at, expression_at};
ghost use Rattle.wasm_core_read.specs.ModuleReading.{frame_at, section_at, module_of};
ghost use Rattle.wasm_core_read.specs.PartReading.{body_at, import_at, table_at, global_at, export_at, element_at, data_at};
ghost use Rattle.wasm_core_read.specs.Reading.{byte_at, unsigned_at, signed_at, bytes_at, float_at, name_at};
ghost use Rattle.wasm_core_read.specs.TypeReading.{list_at, heap_type_at, ref_type_at, val_type_at, storage_type_at, field_type_at, func_type_at, composite_type_at, sub_type_at, rec_group_at, limits_at, table_type_at, global_type_at, tag_type_at, external_kind_at, external_type_at};
ghost use Rattle.wasm_spec.specs.Bytes.{IsOneByte, IsUnsigned, IsSigned, IsBytesOf, IsFloatBits, IsName};
ghost use Rattle.wasm_spec.specs.ConstantGrammar.{IsConstantOperator, IsConstantExpression};
ghost use Rattle.wasm_spec.specs.Grammar.{header, IsSection, IsModule};
ghost use Rattle.wasm_spec.specs.ModuleParts.{IsImport, IsTable, IsGlobal, IsExport, IsElementSegment, IsDataSegment, IsBody};
ghost use Rattle.wasm_spec.specs.Syntax.{ImportEntry, Import, Section, Custom, TypeSection, FunctionSection, CodeSection};
ghost use Rattle.wasm_spec.specs.TypeGrammar.{IsHeapType, IsRefType, IsValType, IsStorageType, IsFieldType, IsFuncType, IsCompositeType, IsSubType, IsRecGroup, IsLimits, IsTableType, IsGlobalType, IsTagType, IsExternalKind, IsExternalType};
ghost use Rattle.wasm_spec.specs.Types.{ExternalType, Single, FuncComposite};

/// What is read from bytes is an encoding of the form, and each encoding of it is read, whatever follows it.
pub fn reads_exactly()
    ensures byte { ReadsExactly IsOneByte byte_at }
    ensures number { (bits : ℕ) → ReadsExactly (IsUnsigned bits) (unsigned_at bits) }
    ensures signed { (bits : ℕ) → ReadsExactly (IsSigned bits) (signed_at bits) }
    ensures bytes { (n : ℕ) → ReadsExactly (IsBytesOf n) (bytes_at n) }
    ensures float { (len : ℕ) → ReadsExactly (IsFloatBits len) (float_at len) }
    ensures name { ReadsExactly IsName name_at }
    ensures heap_type { ReadsExactly IsHeapType heap_type_at }
    ensures ref_type { ReadsExactly IsRefType ref_type_at }
    ensures val_type { ReadsExactly IsValType val_type_at }
    ensures storage_type { ReadsExactly IsStorageType storage_type_at }
    ensures field_type { ReadsExactly IsFieldType field_type_at }
    ensures func_type { ReadsExactly IsFuncType func_type_at }
    ensures composite_type { ReadsExactly IsCompositeType composite_type_at }
    ensures sub_type { ReadsExactly IsSubType sub_type_at }
    ensures rec_group { ReadsExactly IsRecGroup rec_group_at }
    ensures limits { ReadsExactly IsLimits limits_at }
    ensures table_type { ReadsExactly IsTableType table_type_at }
    ensures global_type { ReadsExactly IsGlobalType global_type_at }
    ensures tag_type { ReadsExactly IsTagType tag_type_at }
    ensures external_kind { ReadsExactly IsExternalKind external_kind_at }
    ensures external_type { ReadsExactly IsExternalType external_type_at }
    ensures operator { ReadsExactly IsConstantOperator operator_at }
    ensures expression { ReadsExactly IsConstantExpression expression_at }
    ensures table { ReadsExactly IsTable table_at }
    ensures global { ReadsExactly IsGlobal global_at }
    ensures export { ReadsExactly IsExport export_at }
    ensures element_segment { ReadsExactly IsElementSegment element_at }
    ensures data_segment { ReadsExactly IsDataSegment data_at }
    ensures body { ReadsExactly IsBody body_at }
    ensures frame { ReadsExactly IsFrame frame_at }
    ensures import { (compact : Bool) → ReadsExactly (IsImport compact) (import_at compact) }
    ensures section { (compact : Bool) → ReadsExactly (IsSection compact) (section_at compact) }
    ensures sections { (compact : Bool) → FillsExactly (IsModule compact) (module_of compact) }
{}

/// What is read of a list is a list of what is read of its items.
pub fn reads_lists()
    ensures val_types { ReadsExactly IsValTypes (list_at val_type_at) }
    ensures func_types { ReadsExactly IsFuncTypes (list_at func_type_at) }
    ensures indexes { ReadsExactly IsIndexes (list_at (unsigned_at 32)) }
    ensures rec_groups { ReadsExactly IsRecGroups (list_at rec_group_at) }
    ensures bodies { ReadsExactly IsBodies (list_at body_at) }
{}

/// An encoding of a form has one value, and no encoding of it is a proper prefix of another.
pub fn prefix_free()
    ensures byte { IsPrefixFree IsOneByte }
    ensures number { (bits : ℕ) → IsPrefixFree (IsUnsigned bits) }
    ensures signed { (bits : ℕ) → IsPrefixFree (IsSigned bits) }
    ensures float { (len : ℕ) → IsPrefixFree (IsFloatBits len) }
    ensures name { IsPrefixFree IsName }
    ensures heap_type { IsPrefixFree IsHeapType }
    ensures ref_type { IsPrefixFree IsRefType }
    ensures val_type { IsPrefixFree IsValType }
    ensures storage_type { IsPrefixFree IsStorageType }
    ensures field_type { IsPrefixFree IsFieldType }
    ensures func_type { IsPrefixFree IsFuncType }
    ensures composite_type { IsPrefixFree IsCompositeType }
    ensures sub_type { IsPrefixFree IsSubType }
    ensures rec_group { IsPrefixFree IsRecGroup }
    ensures limits { IsPrefixFree IsLimits }
    ensures table_type { IsPrefixFree IsTableType }
    ensures global_type { IsPrefixFree IsGlobalType }
    ensures tag_type { IsPrefixFree IsTagType }
    ensures external_kind { IsPrefixFree IsExternalKind }
    ensures external_type { IsPrefixFree IsExternalType }
    ensures operator { IsPrefixFree IsConstantOperator }
    ensures expression { IsPrefixFree IsConstantExpression }
    ensures table { IsPrefixFree IsTable }
    ensures global { IsPrefixFree IsGlobal }
    ensures export { IsPrefixFree IsExport }
    ensures element_segment { IsPrefixFree IsElementSegment }
    ensures data_segment { IsPrefixFree IsDataSegment }
    ensures body { IsPrefixFree IsBody }
    ensures frame { IsPrefixFree IsFrame }
    ensures import { (compact : Bool) → IsPrefixFree (IsImport compact) }
    ensures section { (compact : Bool) → IsPrefixFree (IsSection compact) }
{}

/// Bytes are an encoding of at most one module.
pub fn one_module()
    ensures { (compact : Bool) (bytes : List ℕ) (a b : List Section) → IsModule compact bytes a → IsModule compact bytes b → a ≡ b }
{}

/// What reads with compact imports off reads the same with them on: a single import is no group.
pub fn read_under_features()
    ensures more { (bytes : List ℕ) (sections : List Section) → IsModule false bytes sections → IsModule true bytes sections }
    ensures single { (compact : Bool) (bytes origin name : List ℕ) (type : ExternalType ℕ) → IsImport compact bytes (Import origin name type) ↔ IsImport false bytes (Import origin name type) }
    ensures no_group { (bytes : List ℕ) (origin name : List ℕ) (type : ExternalType ℕ) (entry : ImportEntry) → IsImport false bytes (Import origin name type) → IsImport true bytes entry → entry ≡ Import origin name type }
{}

/// Bytes that are an encoding of no module, worked out by hand.
pub fn no_module()
    ensures nothing { (compact : Bool) → IsNoModule compact [] }
    ensures cut_header { (compact : Bool) → IsNoModule compact (0x00 ∷ 0x61 ∷ 0x73 ∷ 0x6d ∷ 0x01 ∷ 0x00 ∷ 0x00 ∷ []) }
    ensures version { (compact : Bool) → IsNoModule compact (0x00 ∷ 0x61 ∷ 0x73 ∷ 0x6d ∷ 0x02 ∷ 0x00 ∷ 0x00 ∷ 0x00 ∷ []) }

    // A section of another id, one without a name, one whose size goes past the end, a name that goes past its frame.
    ensures another_id { (compact : Bool) → IsNoModule compact (header ++ (0x0e ∷ 0x01 ∷ 0x00 ∷ [])) }
    ensures no_name { (compact : Bool) → IsNoModule compact (header ++ (0x00 ∷ 0x00 ∷ [])) }
    ensures long_size { (compact : Bool) → IsNoModule compact (header ++ (0x00 ∷ 0x02 ∷ 0x01 ∷ 0x61 ∷ []) ++ (0x00 ∷ 0x02 ∷ 0x01 ∷ [])) }
    ensures long_name { (compact : Bool) → IsNoModule compact (header ++ (0x00 ∷ 0x01 ∷ 0x01 ∷ [])) }

    // Names that aren't UTF-8: a byte that begins nothing, an overlong form, a surrogate, past the last character.
    ensures no_encoding { (compact : Bool) → IsNoModule compact (header ++ (0x00 ∷ 0x02 ∷ 0x01 ∷ 0xff ∷ [])) }
    ensures overlong { (compact : Bool) → IsNoModule compact (header ++ (0x00 ∷ 0x03 ∷ 0x02 ∷ 0xc0 ∷ 0x80 ∷ [])) }
    ensures surrogate { (compact : Bool) → IsNoModule compact (header ++ (0x00 ∷ 0x04 ∷ 0x03 ∷ 0xed ∷ 0xa0 ∷ 0x80 ∷ [])) }
    ensures past_the_last { (compact : Bool) → IsNoModule compact (header ++ (0x00 ∷ 0x05 ∷ 0x04 ∷ 0xf4 ∷ 0x90 ∷ 0x80 ∷ 0x80 ∷ [])) }

    // Sections out of order, one twice.
    ensures functions_first { (compact : Bool) → IsNoModule compact (header ++ (0x03 ∷ 0x02 ∷ 0x01 ∷ 0x00 ∷ []) ++ (0x01 ∷ 0x04 ∷ 0x01 ∷ 0x60 ∷ 0x00 ∷ 0x00 ∷ []) ++ (0x0a ∷ 0x05 ∷ 0x01 ∷ 0x03 ∷ 0x00 ∷ 0x00 ∷ 0x0b ∷ [])) }
    ensures types_twice { (compact : Bool) → IsNoModule compact (header ++ (0x01 ∷ 0x04 ∷ 0x01 ∷ 0x60 ∷ 0x00 ∷ 0x00 ∷ []) ++ (0x01 ∷ 0x04 ∷ 0x01 ∷ 0x60 ∷ 0x00 ∷ 0x00 ∷ [])) }

    // A function without a body, a body without a function, one body too many.
    ensures no_code { (compact : Bool) → IsNoModule compact (header ++ (0x01 ∷ 0x04 ∷ 0x01 ∷ 0x60 ∷ 0x00 ∷ 0x00 ∷ []) ++ (0x03 ∷ 0x02 ∷ 0x01 ∷ 0x00 ∷ [])) }
    ensures no_functions { (compact : Bool) → IsNoModule compact (header ++ (0x0a ∷ 0x04 ∷ 0x01 ∷ 0x02 ∷ 0x00 ∷ 0x0b ∷ [])) }
    ensures body_too_many { (compact : Bool) → IsNoModule compact (header ++ (0x01 ∷ 0x04 ∷ 0x01 ∷ 0x60 ∷ 0x00 ∷ 0x00 ∷ []) ++ (0x03 ∷ 0x02 ∷ 0x01 ∷ 0x00 ∷ []) ++ (0x0a ∷ 0x07 ∷ 0x02 ∷ 0x02 ∷ 0x00 ∷ 0x0b ∷ 0x02 ∷ 0x00 ∷ 0x0b ∷ [])) }

    // A count of six bytes, a byte after the types, a type that goes past its frame.
    ensures long_count { (compact : Bool) → IsNoModule compact (header ++ (0x01 ∷ 0x09 ∷ 0x81 ∷ 0x80 ∷ 0x80 ∷ 0x80 ∷ 0x80 ∷ 0x00 ∷ 0x60 ∷ 0x00 ∷ 0x00 ∷ [])) }
    ensures byte_after { (compact : Bool) → IsNoModule compact (header ++ (0x01 ∷ 0x05 ∷ 0x01 ∷ 0x60 ∷ 0x00 ∷ 0x00 ∷ 0x00 ∷ [])) }
    ensures short_types { (compact : Bool) → IsNoModule compact (header ++ (0x01 ∷ 0x03 ∷ 0x01 ∷ 0x60 ∷ 0x00 ∷ [])) }
{}

/// No two neighbours among the sections that have a place may be swapped.
pub fn swapped_sections()
    ensures import_before_type { (compact : Bool) → IsNoModule compact (header ++ (0x02 ∷ 0x01 ∷ 0x00 ∷ 0x01 ∷ 0x01 ∷ 0x00 ∷ [])) }
    ensures function_before_import { (compact : Bool) → IsNoModule compact (header ++ (0x03 ∷ 0x01 ∷ 0x00 ∷ 0x02 ∷ 0x01 ∷ 0x00 ∷ [])) }
    ensures table_before_function { (compact : Bool) → IsNoModule compact (header ++ (0x04 ∷ 0x01 ∷ 0x00 ∷ 0x03 ∷ 0x01 ∷ 0x00 ∷ [])) }
    ensures memory_before_table { (compact : Bool) → IsNoModule compact (header ++ (0x05 ∷ 0x01 ∷ 0x00 ∷ 0x04 ∷ 0x01 ∷ 0x00 ∷ [])) }
    ensures tag_before_memory { (compact : Bool) → IsNoModule compact (header ++ (0x0d ∷ 0x01 ∷ 0x00 ∷ 0x05 ∷ 0x01 ∷ 0x00 ∷ [])) }
    ensures global_before_tag { (compact : Bool) → IsNoModule compact (header ++ (0x06 ∷ 0x01 ∷ 0x00 ∷ 0x0d ∷ 0x01 ∷ 0x00 ∷ [])) }
    ensures export_before_global { (compact : Bool) → IsNoModule compact (header ++ (0x07 ∷ 0x01 ∷ 0x00 ∷ 0x06 ∷ 0x01 ∷ 0x00 ∷ [])) }
    ensures start_before_export { (compact : Bool) → IsNoModule compact (header ++ (0x08 ∷ 0x01 ∷ 0x00 ∷ 0x07 ∷ 0x01 ∷ 0x00 ∷ [])) }
    ensures element_before_start { (compact : Bool) → IsNoModule compact (header ++ (0x09 ∷ 0x01 ∷ 0x00 ∷ 0x08 ∷ 0x01 ∷ 0x00 ∷ [])) }
    ensures data_count_before_element { (compact : Bool) → IsNoModule compact (header ++ (0x0c ∷ 0x01 ∷ 0x00 ∷ 0x09 ∷ 0x01 ∷ 0x00 ∷ [])) }
    ensures code_before_data_count { (compact : Bool) → IsNoModule compact (header ++ (0x0a ∷ 0x01 ∷ 0x00 ∷ 0x0c ∷ 0x01 ∷ 0x00 ∷ [])) }
    ensures data_before_code { (compact : Bool) → IsNoModule compact (header ++ (0x0b ∷ 0x01 ∷ 0x00 ∷ 0x0a ∷ 0x01 ∷ 0x00 ∷ [])) }
{}

/// Names of two, three and four bytes a character.
pub fn wide_names()
    ensures { (compact : Bool) → IsModule compact (header ++ (0x00 ∷ 0x0a ∷ 0x09 ∷ 0xc3 ∷ 0xa9 ∷ 0xe2 ∷ 0x82 ∷ 0xac ∷ 0xf4 ∷ 0x8f ∷ 0xbf ∷ 0xbf ∷ []))
        (Custom (0xc3 ∷ 0xa9 ∷ 0xe2 ∷ 0x82 ∷ 0xac ∷ 0xf4 ∷ 0x8f ∷ 0xbf ∷ 0xbf ∷ []) [] ∷ []) }
{}

/// A module of a type, a function and its body; numbers of five bytes where one would do.
pub fn modules_read()
    ensures three { (compact : Bool) → IsModule compact (header ++ (0x01 ∷ 0x04 ∷ 0x01 ∷ 0x60 ∷ 0x00 ∷ 0x00 ∷ []) ++ (0x03 ∷ 0x02 ∷ 0x01 ∷ 0x00 ∷ []) ++ (0x0a ∷ 0x05 ∷ 0x01 ∷ 0x03 ∷ 0x00 ∷ 0x00 ∷ 0x0b ∷ []))
        (TypeSection (Single (record { is_final = true; supertypes = []; composite_type = FuncComposite (record { params = []; results = [] }) }) ∷ []) ∷ FunctionSection (0 ∷ []) ∷ CodeSection ((0x00 ∷ 0x00 ∷ 0x0b ∷ []) ∷ []) ∷ []) }
    ensures padded { (compact : Bool) → IsModule compact (header ++ (0x01 ∷ 0x08 ∷ 0x81 ∷ 0x80 ∷ 0x80 ∷ 0x80 ∷ 0x00 ∷ 0x60 ∷ 0x00 ∷ 0x00 ∷ []))
        (TypeSection (Single (record { is_final = true; supertypes = []; composite_type = FuncComposite (record { params = []; results = [] }) }) ∷ []) ∷ []) }
{}
