//! All sections of a module, and what imports add to its index spaces.

ghost use Rattle.std.specs.Prelude.{◌≡◌, ◌+◌, ◌++◌, ℕ, Bool, List, [], ◌∷◌, length};
ghost use Rattle.wasm_spec.specs.Grammar.{IsModule, header};
ghost use Rattle.wasm_spec.specs.Spaces.{no_items, sizes_of};
ghost use Rattle.wasm_spec.specs.Syntax.{CodeSection, CompactItems, CompactNames, DataCountSection, DataSection, ElementSection, ExportSection, FunctionSection, GlobalSection, Import, ImportSection, MemorySection, StartSection, TableSection, TagSection, TypeSection};
ghost use Rattle.wasm_spec.specs.Types.{FuncExternal, GlobalExternal, GlobalType, MemoryExternal, MemoryType, TableExternal, TableType, TagExternal};

/// The thirteen sections that have a place, each with as little as it may have.
pub fn every_section()
    ensures { (compact : Bool) → IsModule compact
        (header ++ (0x01 ∷ 0x01 ∷ 0x00 ∷ 0x02 ∷ 0x01 ∷ 0x00 ∷ 0x03 ∷ 0x01 ∷ 0x00 ∷ 0x04 ∷ 0x01 ∷ 0x00 ∷ 0x05 ∷ 0x01 ∷ 0x00 ∷ 0x0d ∷ 0x01 ∷ 0x00 ∷ 0x06 ∷ 0x01 ∷ 0x00 ∷ 0x07 ∷ 0x01 ∷ 0x00 ∷ 0x08 ∷ 0x01 ∷ 0x00 ∷ 0x09 ∷ 0x01 ∷ 0x00 ∷ 0x0c ∷ 0x01 ∷ 0x00 ∷ 0x0a ∷ 0x01 ∷ 0x00 ∷ 0x0b ∷ 0x01 ∷ 0x00 ∷ []))
        (TypeSection [] ∷ ImportSection [] ∷ FunctionSection [] ∷ TableSection [] ∷ MemorySection [] ∷ TagSection [] ∷ GlobalSection [] ∷ ExportSection [] ∷ StartSection 0 ∷ ElementSection [] ∷ DataCountSection 0 ∷ CodeSection [] ∷ DataSection [] ∷ []) }
{}

/// An import is counted in the space of its kind and in no other, also where imports share the name of a module.
pub fn imported_items()
    ensures function { (origin name indexes : List ℕ) (index : ℕ)
        → sizes_of (ImportSection (Import origin name (FuncExternal index) ∷ []) ∷ FunctionSection indexes ∷ []) ≡ record no_items { functions = 1 + (length indexes + 0) } }
    ensures table { (origin name : List ℕ) (type : TableType ℕ) → sizes_of (ImportSection (Import origin name (TableExternal type) ∷ []) ∷ []) ≡ record no_items { tables = 1 } }
    ensures memory { (origin name : List ℕ) (type : MemoryType) → sizes_of (ImportSection (Import origin name (MemoryExternal type) ∷ []) ∷ []) ≡ record no_items { memories = 1 } }
    ensures global { (origin name : List ℕ) (type : GlobalType ℕ) → sizes_of (ImportSection (Import origin name (GlobalExternal type) ∷ []) ∷ []) ≡ record no_items { globals = 1 } }
    ensures tag { (origin name : List ℕ) (index : ℕ) → sizes_of (ImportSection (Import origin name (TagExternal index) ∷ []) ∷ []) ≡ record no_items { tags = 1 } }
    ensures items { (origin a b : List ℕ) (index : ℕ) (type : MemoryType)
        → sizes_of (ImportSection (CompactItems origin (record { name = a; type = FuncExternal index } ∷ record { name = b; type = MemoryExternal type } ∷ []) ∷ []) ∷ []) ≡ record no_items { functions = 1; memories = 1 } }
    ensures names { (origin a b : List ℕ) (type : MemoryType)
        → sizes_of (ImportSection (CompactNames origin (MemoryExternal type) (a ∷ b ∷ []) ∷ []) ∷ []) ≡ record no_items { memories = 2 } }
{}
