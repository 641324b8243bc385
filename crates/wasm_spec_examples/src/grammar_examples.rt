//! Worked examples of the binary grammar.

ghost use Rattle.std.specs.Prelude.{◌++◌, ℕ, Bool, Some, None, List, [], ◌∷◌, pos, negsuc, true, false};
ghost use Rattle.wasm_spec.specs.ConstantGrammar.{IsConstantExpression};
ghost use Rattle.wasm_spec.specs.Constants.{AnyConvertExtern, ArrayNew, ArrayNewDefault, ArrayNewFixed, ConstantExpression, ExternConvertAny, F32Const, F64Const, GlobalGet, I32Add, I32Const, I32Mul, I32Sub, I64Add, I64Const, I64Mul, I64Sub, RefFunc, RefI31, RefNull, StructNew, StructNewDefault, V128Const};
ghost use Rattle.wasm_spec.specs.Grammar.{IsModule, header};
ghost use Rattle.wasm_spec.specs.ModuleParts.{IsDataSegment, IsElementSegment, IsExport, IsGlobal, IsImport, IsTable};
ghost use Rattle.wasm_spec.specs.Syntax.{ActiveData, ActiveElement, CodeSection, CompactItems, CompactNames, Custom, DataCountSection, DataSection, DataSegment, DeclaredElement, ElementSection, ElementSegment, ExportSection, ExpressionItems, FunctionItems, FunctionSection, GlobalSection, Import, ImportEntry, ImportSection, MemorySection, PassiveData, PassiveElement, Section, StartSection, TableSection, TagSection, TypeSection};
ghost use Rattle.wasm_spec.specs.TypeGrammar.{IsHeapIndex, IsHeapType, IsMemoryType, IsRecGroup, IsRefType, IsStorageType, IsTableType, IsTagType, IsValType};
ghost use Rattle.wasm_spec.specs.Types.{Abstract, ArrayComposite, Concrete, ContComposite, Extern, F32, F64, Func, FuncComposite, FuncExternal, FuncKind, GlobalExternal, Group, HeapType, I16, I32, I64, I8, MemoryExternal, MemoryKind, MemoryType, Ref, Single, StructComposite, TableExternal, TableType, TagExternal, V128, Val, ValType, funcref};
ghost use Rattle.wasm_spec_examples.specs.Examples.{at_least, final_type, no_values};

/// Numbers, vectors and what fields hold: a byte each.
pub fn values()
    ensures i32 { IsValType (0x7f ∷ []) I32 }
    ensures i64 { IsValType (0x7e ∷ []) I64 }
    ensures f32 { IsValType (0x7d ∷ []) F32 }
    ensures f64 { IsValType (0x7c ∷ []) F64 }
    ensures v128 { IsValType (0x7b ∷ []) V128 }
    ensures packed_8 { IsStorageType (0x78 ∷ []) I8 }
    ensures packed_16 { IsStorageType (0x77 ∷ []) I16 }
    ensures unpacked { IsStorageType (0x7d ∷ []) (Val F32) }
{}

/// Heap types and references.
pub fn references()
    ensures bare { IsValType (0x70 ∷ []) (Ref true (Abstract Func)) }
    ensures written_out { IsValType (0x63 ∷ 0x70 ∷ []) (Ref true (Abstract Func)) }
    ensures not_null { IsValType (0x64 ∷ 0x70 ∷ []) (Ref false (Abstract Func)) }
    ensures concrete { IsRefType (0x63 ∷ 0xe4 ∷ 0x00 ∷ []) (record { nullable = true; heap_type = Concrete 100 }) }

    // A type index may have any size, and be padded.
    ensures large { IsHeapType (0x80 ∷ 0x80 ∷ 0xc0 ∷ 0x00 ∷ []) (Concrete 1048576) }
    ensures padded { IsHeapType (0x80 ∷ 0x80 ∷ 0x80 ∷ 0x80 ∷ 0x00 ∷ []) (Concrete 0) }
{}

/// Entries of a type section.
pub fn type_entries()
    ensures bare { IsRecGroup (0x60 ∷ 0x00 ∷ 0x00 ∷ []) (Single (final_type no_values)) }

    // A final type without supertypes may be written out.
    ensures final_alone { IsRecGroup (0x4f ∷ 0x00 ∷ 0x60 ∷ 0x00 ∷ 0x00 ∷ []) (Single (final_type no_values)) }
    ensures below_two { IsRecGroup (0x50 ∷ 0x02 ∷ 0x00 ∷ 0x01 ∷ 0x60 ∷ 0x00 ∷ 0x00 ∷ [])
        (Single (record { is_final = false; supertypes = 0 ∷ 1 ∷ []; composite_type = no_values })) }
    ensures structure { IsRecGroup (0x5f ∷ 0x02 ∷ 0x77 ∷ 0x00 ∷ 0x64 ∷ 0x00 ∷ 0x01 ∷ [])
        (Single (final_type (StructComposite (record { element_type = I16; mutable = false }
        ∷ record { element_type = Val (Ref false (Concrete 0)); mutable = true } ∷ [])))) }
    ensures array { IsRecGroup (0x5e ∷ 0x78 ∷ 0x01 ∷ [])
        (Single (final_type (ArrayComposite (record { element_type = I8; mutable = true })))) }
    ensures continuation { IsRecGroup (0x5d ∷ 0x00 ∷ []) (Single (final_type (ContComposite 0))) }

    // A group of one is another entry than its type by itself.
    ensures group_of_none { IsRecGroup (0x4e ∷ 0x00 ∷ []) (Group []) }
    ensures group_of_one { IsRecGroup (0x4e ∷ 0x01 ∷ 0x60 ∷ 0x00 ∷ 0x00 ∷ []) (Group (final_type no_values ∷ [])) }
{}

/// Limits, and the types of memories and tables.
pub fn limits()
    // A minimum of 1 in six bytes.
    ensures six_bytes { IsMemoryType (0x00 ∷ 0x81 ∷ 0x80 ∷ 0x80 ∷ 0x80 ∷ 0x80 ∷ 0x00 ∷ []) (at_least 1) }

    // Shared without a maximum.
    ensures shared { IsMemoryType (0x02 ∷ 0x01 ∷ [])
        (record { minimum = 1; maximum = None; shared = true; is_64 = false; page_size_log2 = None }) }
    ensures all_parts { IsMemoryType (0x0f ∷ 0x01 ∷ 0x02 ∷ 0x10 ∷ [])
        (record { minimum = 1; maximum = Some 2; shared = true; is_64 = true; page_size_log2 = Some 16 }) }
    ensures pages { IsMemoryType (0x08 ∷ 0x01 ∷ 0x10 ∷ [])
        (record { minimum = 1; maximum = None; shared = false; is_64 = false; page_size_log2 = Some 16 }) }
    ensures table { IsTableType (0x70 ∷ 0x00 ∷ 0x0a ∷ []) (record { element_type = funcref; limits = at_least 10 }) }
    ensures table_64 { IsTableType (0x64 ∷ 0x70 ∷ 0x05 ∷ 0x01 ∷ 0x02 ∷ [])
        (record {
          element_type = record { nullable = false; heap_type = Abstract Func };
          limits = record { minimum = 1; maximum = Some 2; shared = false; is_64 = true; page_size_log2 = None };
        }) }
{}

/// Imports of each kind, and exports.
pub fn imports_and_exports()
    ensures function { (compact : Bool) → IsImport compact (0x01 ∷ 0x6d ∷ 0x01 ∷ 0x66 ∷ 0x00 ∷ 0x05 ∷ [])
        (Import (0x6d ∷ []) (0x66 ∷ []) (FuncExternal 5)) }
    ensures table { (compact : Bool) → IsImport compact (0x01 ∷ 0x6d ∷ 0x01 ∷ 0x74 ∷ 0x01 ∷ 0x70 ∷ 0x00 ∷ 0x01 ∷ [])
        (Import (0x6d ∷ []) (0x74 ∷ []) (TableExternal (record { element_type = funcref; limits = at_least 1 }))) }
    ensures memory { (compact : Bool) → IsImport compact (0x01 ∷ 0x6d ∷ 0x01 ∷ 0x61 ∷ 0x02 ∷ 0x00 ∷ 0x01 ∷ [])
        (Import (0x6d ∷ []) (0x61 ∷ []) (MemoryExternal (at_least 1))) }
    ensures global { (compact : Bool) → IsImport compact (0x01 ∷ 0x6d ∷ 0x01 ∷ 0x67 ∷ 0x03 ∷ 0x7f ∷ 0x01 ∷ [])
        (Import (0x6d ∷ []) (0x67 ∷ []) (GlobalExternal (record { value_type = I32; mutable = true }))) }
    ensures tag { (compact : Bool) → IsImport compact (0x01 ∷ 0x6d ∷ 0x01 ∷ 0x65 ∷ 0x04 ∷ 0x00 ∷ 0x05 ∷ [])
        (Import (0x6d ∷ []) (0x65 ∷ []) (TagExternal 5)) }

    // An empty name begins like a compact group, but a kind stands after it.
    ensures no_name { (compact : Bool) → IsImport compact (0x01 ∷ 0x6d ∷ 0x00 ∷ 0x00 ∷ 0x05 ∷ [])
        (Import (0x6d ∷ []) [] (FuncExternal 5)) }
    ensures padded_name { (compact : Bool) → IsImport compact (0x01 ∷ 0x6d ∷ 0x80 ∷ 0x00 ∷ 0x00 ∷ 0x05 ∷ [])
        (Import (0x6d ∷ []) [] (FuncExternal 5)) }

    // Imports of one module: a memory and a function; and two memories of one type.
    ensures items { IsImport true
        (0x01 ∷ 0x6d ∷ 0x00 ∷ 0x7f ∷ 0x02 ∷ 0x01 ∷ 0x61 ∷ 0x02 ∷ 0x00 ∷ 0x01 ∷ 0x00 ∷ 0x00 ∷ 0x05 ∷ [])
        (CompactItems (0x6d ∷ []) (record { name = 0x61 ∷ []; type = MemoryExternal (at_least 1) }
        ∷ record { name = []; type = FuncExternal 5 } ∷ [])) }
    ensures names { IsImport true (0x01 ∷ 0x6d ∷ 0x00 ∷ 0x7e ∷ 0x02 ∷ 0x00 ∷ 0x01 ∷ 0x02 ∷ 0x01 ∷ 0x61 ∷ 0x01 ∷ 0x62 ∷ [])
        (CompactNames (0x6d ∷ []) (MemoryExternal (at_least 1)) ((0x61 ∷ []) ∷ (0x62 ∷ []) ∷ [])) }
    ensures export { IsExport (0x01 ∷ 0x61 ∷ 0x02 ∷ 0x80 ∷ 0x00 ∷ [])
        (record { name = 0x61 ∷ []; kind = MemoryKind; index = 0 }) }
{}

/// Tables, globals and tags of a module's own.
pub fn tables_and_globals()
    ensures table { IsTable (0x70 ∷ 0x00 ∷ 0x01 ∷ [])
        (record { type = record { element_type = funcref; limits = at_least 1 }; initialiser = None }) }
    ensures initialised { IsTable (0x40 ∷ 0x00 ∷ 0x64 ∷ 0x70 ∷ 0x00 ∷ 0x01 ∷ 0xd2 ∷ 0x05 ∷ 0x0b ∷ [])
        (record {
          type = record { element_type = record { nullable = false; heap_type = Abstract Func }; limits = at_least 1 };
          initialiser = Some (RefFunc 5 ∷ []);
        }) }
    ensures global { IsGlobal (0x7f ∷ 0x01 ∷ 0x41 ∷ 0x00 ∷ 0x0b ∷ [])
        (record { type = record { value_type = I32; mutable = true }; initialiser = I32Const (pos 0) ∷ [] }) }
    ensures tag { IsTagType (0x00 ∷ 0x05 ∷ []) 5 }
{}

/// The eight forms of element segments.
pub fn element_segments()
    ensures form_0 { IsElementSegment (0x00 ∷ 0x41 ∷ 0x00 ∷ 0x0b ∷ 0x01 ∷ 0x05 ∷ [])
        (record { mode = ActiveElement None (I32Const (pos 0) ∷ []); items = FunctionItems (5 ∷ []) }) }
    ensures form_1 { IsElementSegment (0x01 ∷ 0x00 ∷ 0x01 ∷ 0x05 ∷ [])
        (record { mode = PassiveElement; items = FunctionItems (5 ∷ []) }) }
    ensures form_2 { IsElementSegment (0x02 ∷ 0x03 ∷ 0x41 ∷ 0x00 ∷ 0x0b ∷ 0x00 ∷ 0x01 ∷ 0x05 ∷ [])
        (record { mode = ActiveElement (Some 3) (I32Const (pos 0) ∷ []); items = FunctionItems (5 ∷ []) }) }
    ensures form_3 { IsElementSegment (0x03 ∷ 0x00 ∷ 0x01 ∷ 0x05 ∷ [])
        (record { mode = DeclaredElement; items = FunctionItems (5 ∷ []) }) }
    ensures form_4 { IsElementSegment (0x04 ∷ 0x41 ∷ 0x00 ∷ 0x0b ∷ 0x01 ∷ 0xd0 ∷ 0x70 ∷ 0x0b ∷ [])
        (record {
          mode = ActiveElement None (I32Const (pos 0) ∷ []);
          items = ExpressionItems funcref ((RefNull (Abstract Func) ∷ []) ∷ []);
        }) }
    ensures form_5 { IsElementSegment (0x05 ∷ 0x6f ∷ 0x01 ∷ 0xd0 ∷ 0x6f ∷ 0x0b ∷ [])
        (record {
          mode = PassiveElement;
          items = ExpressionItems (record { nullable = true; heap_type = Abstract Extern }) ((RefNull (Abstract Extern) ∷ []) ∷ []);
        }) }
    ensures form_6 { IsElementSegment (0x06 ∷ 0x03 ∷ 0x41 ∷ 0x00 ∷ 0x0b ∷ 0x70 ∷ 0x01 ∷ 0xd2 ∷ 0x05 ∷ 0x0b ∷ [])
        (record {
          mode = ActiveElement (Some 3) (I32Const (pos 0) ∷ []);
          items = ExpressionItems funcref ((RefFunc 5 ∷ []) ∷ []);
        }) }
    ensures form_7 { IsElementSegment (0x07 ∷ 0x64 ∷ 0x70 ∷ 0x01 ∷ 0xd2 ∷ 0x05 ∷ 0x0b ∷ [])
        (record {
          mode = DeclaredElement;
          items = ExpressionItems (record { nullable = false; heap_type = Abstract Func }) ((RefFunc 5 ∷ []) ∷ []);
        }) }

    // The number of the form may be padded.
    ensures padded { IsElementSegment (0x80 ∷ 0x00 ∷ 0x41 ∷ 0x00 ∷ 0x0b ∷ 0x01 ∷ 0x05 ∷ [])
        (record { mode = ActiveElement None (I32Const (pos 0) ∷ []); items = FunctionItems (5 ∷ []) }) }
{}

/// The three forms of data segments.
pub fn data_segments()
    ensures form_0 { IsDataSegment (0x00 ∷ 0x41 ∷ 0x00 ∷ 0x0b ∷ 0x02 ∷ 0x68 ∷ 0x69 ∷ [])
        (record { mode = ActiveData None (I32Const (pos 0) ∷ []); contents = 0x68 ∷ 0x69 ∷ [] }) }
    ensures form_1 { IsDataSegment (0x01 ∷ 0x02 ∷ 0x68 ∷ 0x69 ∷ [])
        (record { mode = PassiveData; contents = 0x68 ∷ 0x69 ∷ [] }) }

    // Memory 0, written, is another segment than memory 0 unwritten.
    ensures form_2 { IsDataSegment (0x02 ∷ 0x00 ∷ 0x41 ∷ 0x00 ∷ 0x0b ∷ 0x02 ∷ 0x68 ∷ 0x69 ∷ [])
        (record { mode = ActiveData (Some 0) (I32Const (pos 0) ∷ []); contents = 0x68 ∷ 0x69 ∷ [] }) }
    ensures padded { IsDataSegment (0x81 ∷ 0x00 ∷ 0x00 ∷ []) (record { mode = PassiveData; contents = [] }) }
{}

/// Constant expressions, with all their operators.
pub fn constant_expressions()
    ensures empty { IsConstantExpression (0x0b ∷ []) [] }
    ensures numbers { IsConstantExpression
        (0x41 ∷ 0x7f ∷ 0x42 ∷ 0x00 ∷ 0x43 ∷ 0x00 ∷ 0x00 ∷ 0x80 ∷ 0x3f ∷ 0x44 ∷ 0x00 ∷ 0x00 ∷ 0x00 ∷ 0x00 ∷ 0x00 ∷ 0x00 ∷ 0xf0
        ∷ 0x3f ∷ 0x0b ∷ [])
        (I32Const (negsuc 0) ∷ I64Const (pos 0) ∷ F32Const 1065353216 ∷ F64Const 4607182418800017408 ∷ []) }
    ensures arithmetic { IsConstantExpression (0x6a ∷ 0x6b ∷ 0x6c ∷ 0x7c ∷ 0x7d ∷ 0x7e ∷ 0x0b ∷ [])
        (I32Add ∷ I32Sub ∷ I32Mul ∷ I64Add ∷ I64Sub ∷ I64Mul ∷ []) }
    ensures references { IsConstantExpression
        (0xd0 ∷ 0x70 ∷ 0xd0 ∷ 0x80 ∷ 0x80 ∷ 0xc0 ∷ 0x00 ∷ 0xd2 ∷ 0x05 ∷ 0x23 ∷ 0x06 ∷ 0x0b ∷ [])
        (RefNull (Abstract Func) ∷ RefNull (Concrete 1048576) ∷ RefFunc 5 ∷ GlobalGet 6 ∷ []) }
    ensures aggregates { IsConstantExpression
        (0xfb ∷ 0x00 ∷ 0x05 ∷ 0xfb ∷ 0x01 ∷ 0x05 ∷ 0xfb ∷ 0x06 ∷ 0x05 ∷ 0xfb ∷ 0x07 ∷ 0x05 ∷ 0xfb ∷ 0x08 ∷ 0x05 ∷ 0x02 ∷ 0xfb
        ∷ 0x1a ∷ 0xfb ∷ 0x1b ∷ 0xfb ∷ 0x1c ∷ 0x0b ∷ [])
        (StructNew 5 ∷ StructNewDefault 5 ∷ ArrayNew 5 ∷ ArrayNewDefault 5 ∷ ArrayNewFixed 5 2 ∷ AnyConvertExtern
        ∷ ExternConvertAny ∷ RefI31 ∷ []) }

    // The second code may be padded; bytes that look like an end are none.
    ensures vector { IsConstantExpression
        (0xfd ∷ 0x8c ∷ 0x00 ∷ 0x00 ∷ 0x01 ∷ 0x02 ∷ 0x03 ∷ 0x04 ∷ 0x05 ∷ 0x06 ∷ 0x07 ∷ 0x08 ∷ 0x09 ∷ 0x0a ∷ 0x0b ∷ 0x0c ∷ 0x0d
        ∷ 0x0e ∷ 0x0f ∷ 0x0b ∷ [])
        (V128Const (0x00 ∷ 0x01 ∷ 0x02 ∷ 0x03 ∷ 0x04 ∷ 0x05 ∷ 0x06 ∷ 0x07 ∷ 0x08 ∷ 0x09 ∷ 0x0a ∷ 0x0b ∷ 0x0c ∷ 0x0d ∷ 0x0e ∷ 0x0f
        ∷ []) ∷ []) }
{}

/// Modules, read by hand.
pub fn module_examples()
    // A supertype that is final reads.
    ensures final_supertype { (compact : Bool) → IsModule compact
        (header ++ (0x01 ∷ 0x0a ∷ 0x02 ∷ 0x60 ∷ 0x00 ∷ 0x00 ∷ 0x50 ∷ 0x01 ∷ 0x00 ∷ 0x60 ∷ 0x00 ∷ 0x00 ∷ []))
        (TypeSection (Single (final_type no_values)
        ∷ Single (record { is_final = false; supertypes = 0 ∷ []; composite_type = no_values }) ∷ []) ∷ []) }

    // Two groups of structures that refer to each other.
    ensures two_groups { (compact : Bool) → IsModule compact
        (header ++ (0x01 ∷ 0x19 ∷ 0x02 ∷ 0x4e ∷ 0x02 ∷ 0x5f ∷ 0x01 ∷ 0x63 ∷ 0x01 ∷ 0x00 ∷ 0x5f ∷ 0x01 ∷ 0x63 ∷ 0x00 ∷ 0x00 ∷ 0x4e
        ∷ 0x02 ∷ 0x5f ∷ 0x01 ∷ 0x63 ∷ 0x03 ∷ 0x00 ∷ 0x5f ∷ 0x01 ∷ 0x63 ∷ 0x02 ∷ 0x00 ∷ []))
        (TypeSection (Group (final_type (StructComposite (record { element_type = Val (Ref true (Concrete 1)); mutable = false }
        ∷ [])) ∷ final_type (StructComposite (record { element_type = Val (Ref true (Concrete 0)); mutable = false } ∷ [])) ∷ [])
        ∷ Group (final_type (StructComposite (record { element_type = Val (Ref true (Concrete 3)); mutable = false } ∷ []))
        ∷ final_type (StructComposite (record { element_type = Val (Ref true (Concrete 2)); mutable = false } ∷ [])) ∷ []) ∷ [])
        ∷ []) }
    ensures six_bytes { (compact : Bool) → IsModule compact
        (header ++ (0x05 ∷ 0x08 ∷ 0x01 ∷ 0x00 ∷ 0x81 ∷ 0x80 ∷ 0x80 ∷ 0x80 ∷ 0x80 ∷ 0x00 ∷ []))
        (MemorySection (at_least 1 ∷ []) ∷ []) }
    ensures compact { IsModule true
        (header ++ (0x02 ∷ 0x0b ∷ 0x01 ∷ 0x01 ∷ 0x6d ∷ 0x00 ∷ 0x7f ∷ 0x01 ∷ 0x01 ∷ 0x61 ∷ 0x02 ∷ 0x00 ∷ 0x01 ∷ []))
        (ImportSection (CompactItems (0x6d ∷ []) (record { name = 0x61 ∷ []; type = MemoryExternal (at_least 1) } ∷ []) ∷ [])
        ∷ []) }

    // A memory, a data count of 1 and an empty passive segment; and a data count of none without a data section.
    ensures data_count { (compact : Bool) → IsModule compact
        (header ++ (0x05 ∷ 0x03 ∷ 0x01 ∷ 0x00 ∷ 0x01 ∷ 0x0c ∷ 0x01 ∷ 0x01 ∷ 0x0b ∷ 0x03 ∷ 0x01 ∷ 0x01 ∷ 0x00 ∷ []))
        (MemorySection (at_least 1 ∷ []) ∷ DataCountSection 1 ∷ DataSection (record { mode = PassiveData; contents = [] } ∷ [])
        ∷ []) }
    ensures no_data { (compact : Bool) → IsModule compact
        (header ++ (0x0c ∷ 0x01 ∷ 0x00 ∷ []))
        (DataCountSection 0 ∷ []) }

    // One entry of each of several sections: a type, an import, a memory, an export, the start, data; and a custom section.
    ensures many_sections { (compact : Bool) → IsModule compact
        (header ++ (0x01 ∷ 0x04 ∷ 0x01 ∷ 0x60 ∷ 0x00 ∷ 0x00 ∷ 0x02 ∷ 0x07 ∷ 0x01 ∷ 0x01 ∷ 0x6d ∷ 0x01 ∷ 0x66 ∷ 0x00 ∷ 0x00 ∷ 0x05
        ∷ 0x03 ∷ 0x01 ∷ 0x00 ∷ 0x01 ∷ 0x07 ∷ 0x05 ∷ 0x01 ∷ 0x01 ∷ 0x66 ∷ 0x00 ∷ 0x00 ∷ 0x08 ∷ 0x01 ∷ 0x00 ∷ 0x0c ∷ 0x01 ∷ 0x01
        ∷ 0x0b ∷ 0x08 ∷ 0x01 ∷ 0x00 ∷ 0x41 ∷ 0x00 ∷ 0x0b ∷ 0x02 ∷ 0x68 ∷ 0x69 ∷ 0x00 ∷ 0x03 ∷ 0x01 ∷ 0x63 ∷ 0x07 ∷ []))
        (TypeSection (Single (final_type no_values) ∷ []) ∷ ImportSection (Import (0x6d ∷ []) (0x66 ∷ []) (FuncExternal 0) ∷ [])
        ∷ MemorySection (at_least 1 ∷ []) ∷ ExportSection (record { name = 0x66 ∷ []; kind = FuncKind; index = 0 } ∷ [])
        ∷ StartSection 0 ∷ DataCountSection 1
        ∷ DataSection (record { mode = ActiveData None (I32Const (pos 0) ∷ []); contents = 0x68 ∷ 0x69 ∷ [] } ∷ []) ∷ Custom (0x63
        ∷ []) (0x07 ∷ []) ∷ []) }

    // Items of a module's own of each kind: types, a function, a table, a memory, a tag, a global, an element segment and a body.
    ensures all_own { (compact : Bool) → IsModule compact
        (header ++ (0x01 ∷ 0x0c ∷ 0x02 ∷ 0x60 ∷ 0x02 ∷ 0x7f ∷ 0x7e ∷ 0x01 ∷ 0x7f ∷ 0x60 ∷ 0x02 ∷ 0x7e ∷ 0x7f ∷ 0x00 ∷ 0x03 ∷ 0x02
        ∷ 0x01 ∷ 0x00 ∷ 0x04 ∷ 0x04 ∷ 0x01 ∷ 0x70 ∷ 0x00 ∷ 0x0a ∷ 0x05 ∷ 0x04 ∷ 0x01 ∷ 0x01 ∷ 0x01 ∷ 0x05 ∷ 0x0d ∷ 0x03 ∷ 0x01
        ∷ 0x00 ∷ 0x01 ∷ 0x06 ∷ 0x06 ∷ 0x01 ∷ 0x7f ∷ 0x01 ∷ 0x41 ∷ 0x00 ∷ 0x0b ∷ 0x09 ∷ 0x07 ∷ 0x01 ∷ 0x05 ∷ 0x70 ∷ 0x01 ∷ 0xd2
        ∷ 0x00 ∷ 0x0b ∷ 0x0a ∷ 0x06 ∷ 0x01 ∷ 0x04 ∷ 0x00 ∷ 0x41 ∷ 0x00 ∷ 0x0b ∷ []))
        (TypeSection (Single (final_type (FuncComposite (record { params = I32 ∷ I64 ∷ []; results = I32 ∷ [] })))
        ∷ Single (final_type (FuncComposite (record { params = I64 ∷ I32 ∷ []; results = [] }))) ∷ []) ∷ FunctionSection (0 ∷ [])
        ∷ TableSection (record { type = record { element_type = funcref; limits = at_least 10 }; initialiser = None } ∷ [])
        ∷ MemorySection (record { minimum = 1; maximum = Some 5; shared = false; is_64 = false; page_size_log2 = None } ∷ [])
        ∷ TagSection (1 ∷ [])
        ∷ GlobalSection (record { type = record { value_type = I32; mutable = true }; initialiser = I32Const (pos 0) ∷ [] } ∷ [])
        ∷ ElementSection (record { mode = PassiveElement; items = ExpressionItems funcref ((RefFunc 0 ∷ []) ∷ []) } ∷ [])
        ∷ CodeSection ((0x00 ∷ 0x41 ∷ 0x00 ∷ 0x0b ∷ []) ∷ []) ∷ []) }
{}

/// Types that don't read.
pub fn wrong_types()
    // The byte of an abstract heap type isn't padded, and a type index isn't negative.
    ensures padded_abstract { (heap : HeapType ℕ) → ¬ (IsHeapType (0xf0 ∷ 0x7f ∷ []) heap) }
    ensures padded_reference { (type : ValType ℕ) → ¬ (IsValType (0x63 ∷ 0xf0 ∷ 0x7f ∷ []) type) }
    ensures negative_index { (index : ℕ) → ¬ (IsHeapIndex (0x7f ∷ []) index) }

    // A table is neither shared nor has it pages, and there are no flags from 16 on.
    ensures shared_table { (rest : List ℕ) (type : TableType ℕ) → ¬ (IsTableType (0x70 ∷ 0x02 ∷ rest) type) }
    ensures table_with_pages { (rest : List ℕ) (type : TableType ℕ) → ¬ (IsTableType (0x70 ∷ 0x08 ∷ rest) type) }
    ensures other_flags { (rest : List ℕ) (type : MemoryType) → ¬ (IsMemoryType (0x10 ∷ rest) type) }
    ensures padded_flags { (rest : List ℕ) (type : MemoryType) → ¬ (IsMemoryType (0x80 ∷ rest) type) }
    ensures other_tag { (rest : List ℕ) (index : ℕ) → ¬ (IsTagType (0x01 ∷ rest) index) }
{}

/// Imports that don't read: module "m", and then what would be a group of compact imports.
pub fn wrong_imports()
    // Compact imports are off.
    ensures group_of_items { (rest : List ℕ) (entry : ImportEntry) → ¬ (IsImport false (0x01 ∷ 0x6d ∷ 0x00 ∷ 0x7f ∷ rest) entry) }
    ensures group_of_names { (rest : List ℕ) (entry : ImportEntry) → ¬ (IsImport false (0x01 ∷ 0x6d ∷ 0x00 ∷ 0x7e ∷ rest) entry) }

    // They are on, but the empty name is padded, so that a kind has to follow.
    ensures padded_name { (rest : List ℕ) (entry : ImportEntry) → ¬ (IsImport true (0x01 ∷ 0x6d ∷ 0x80 ∷ 0x00 ∷ 0x7f ∷ rest) entry) }

    // A module with such a group, which reads where compact imports are on (`module_examples`).
    ensures whole_module { (sections : List Section) → ¬ (IsModule false
        (header ++ (0x02 ∷ 0x0b ∷ 0x01 ∷ 0x01 ∷ 0x6d ∷ 0x00 ∷ 0x7f ∷ 0x01 ∷ 0x01 ∷ 0x61 ∷ 0x02 ∷ 0x00 ∷ 0x01 ∷ []))
        sections) }
{}

/// Constant expressions and segments that don't read.
pub fn wrong_entries()
    // An operator that isn't constant: `nop`.
    ensures not_constant { (rest : List ℕ) (operators : ConstantExpression) → ¬ (IsConstantExpression (0x01 ∷ rest) operators) }
    ensures no_end { (operators : ConstantExpression) → ¬ (IsConstantExpression [] operators) }
    ensures element_form_8 { (rest : List ℕ) (segment : ElementSegment) → ¬ (IsElementSegment (0x08 ∷ rest) segment) }
    ensures data_form_3 { (rest : List ℕ) (segment : DataSegment) → ¬ (IsDataSegment (0x03 ∷ rest) segment) }

    // Expressions of another type than references to functions need a written table.
    ensures other_type { (bytes : List ℕ) (offset : ConstantExpression) (expressions : List ConstantExpression)
        → ¬ (IsElementSegment bytes (record { mode = ActiveElement None offset; items = ExpressionItems (record { nullable = true; heap_type = Abstract Extern }) expressions })) }
{}

/// A data count is the number of data segments, also where there is no data section.
pub fn wrong_counts()
    ensures too_many { (compact : Bool) (bytes : List ℕ) (segment : DataSegment)
        → ¬ (IsModule compact bytes (DataCountSection 2 ∷ DataSection (segment ∷ []) ∷ [])) }
    ensures no_data { (compact : Bool) (bytes : List ℕ) → ¬ (IsModule compact bytes (DataCountSection 1 ∷ [])) }
    ensures late { (compact : Bool) (bytes : List ℕ) (bodies : List (List ℕ)) → ¬ (IsModule compact bytes (CodeSection bodies ∷ DataCountSection 0 ∷ [])) }
    ensures late_tags { (compact : Bool) (bytes : List ℕ) → ¬ (IsModule compact bytes (GlobalSection [] ∷ TagSection [] ∷ [])) }
{}
