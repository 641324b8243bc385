//! The symbols of an object file (Tool Conventions of WebAssembly, "Linking").

ghost use Rattle.std.specs.Option.{option_copied, option_map};
ghost use Rattle.std.specs.Prelude.{◌≡◌, ◌↔◌, ◌+◌, ◌≤◌, ◌^◌, [], ◌∷◌, ◌++◌, length, vec_len, vec_capacity, Err, IfOk, IfErr};
ghost use Rattle.wasm_core_write.specs.Encoding.{Measures};
ghost use Rattle.wasm_encoder_custom.specs.KeptSymbols.{data_definition, data_definition_bytes, indexed_symbol, indexed_symbol_bytes, data_symbol_bytes, symbol_bytes};
ghost use Rattle.wasm_encoder_custom.specs.Linking.{encoding_if_given, symbols_encoding, symbol_table_part};
ghost use Rattle.wasm_encoder_custom.specs.Linking as spec;
ghost use Rattle.wasm_encoder_custom.specs.Subsections.{subsection_encoding};

use crate::subsections::{encode_subsection, subsection_len};
use std::alloc::Global;
use std::marker::Model;
use wasm_core_write::encode::Encode;
use wasm_core_write::encode_error::EncodeError;
use wasm_core_write::encoding::{Encoding, add_sizes};
use wasm_core_write::leb128::{len_u64, put_u64};
use wasm_encoder_sections::kept_list::KeptList;
use wasm_encoder_sections::names::Name;

/// Where the bytes of a data symbol are.
#[derive(Clone, Copy, Debug)]
pub struct DataSymbolDefinition {
    /// The index of their data segment.
    pub index: u32,
    /// Where in the segment they begin.
    pub offset: u32,
    /// How many they are, which may be none. They end within the segment.
    pub size: u32,
}

impl Encoding for DataSymbolDefinition {
    ghost encoding = { data_definition_bytes };

    #[tactic(auto, using(wasm_spec::proofs::ListEncodings::parts), unfolding(crate::specs::KeptSymbols::data_definition_bytes, crate::specs::Linking::data_definition_encoding))]
    fn size(&self) -> Result<u64, EncodeError> {
        let index = len_u64(u64::from(self.index)) as u64;
        let offset = len_u64(u64::from(self.offset)) as u64;
        let size = len_u64(u64::from(self.size)) as u64;
        add_sizes(index, offset + size)
    }

    #[tactic(auto, using(wasm_spec::proofs::ListEncodings::parts), unfolding(crate::specs::KeptSymbols::data_definition_bytes, crate::specs::Linking::data_definition_encoding))]
    fn put(&self, sink: &mut Vec<u8>) {
        put_u64(sink, u64::from(self.index));
        put_u64(sink, u64::from(self.offset));
        put_u64(sink, u64::from(self.size));
    }
}

// Returns the number of bytes of what may be left out.
#[tactic(auto, unfolding(crate::specs::Linking::encoding_if_given))]
fn optional_size<T: Encoding>(value: &Option<T>) -> Result<u64, EncodeError>
    ensures { Measures result (length (encoding_if_given T.encoding value.now)) (length (encoding_if_given T.encoding value.now)) }
{
    match value {
        Some(value) => value.size(),
        None => Ok(0),
    }
}

// Writes what may be left out, for which there is room.
#[tactic(auto, unfolding(crate::specs::Linking::encoding_if_given))]
fn put_optional<T: Encoding>(value: &Option<T>, sink: &mut Vec<u8>)
    requires { vec_len sink.old + length (encoding_if_given T.encoding value.now) ≤ vec_capacity sink.old }
    ensures written { sink.new.items ≡ sink.old.items ++ encoding_if_given T.encoding value.now }
    ensures capacity { vec_capacity sink.old ≤ vec_capacity sink.new }
{
    if let Some(value) = value {
        value.put(sink);
    }
}

// A symbol of a function, a global or a table.
#[derive(Debug, Drop)]
struct IndexedSymbol {
    flags: u32,
    index: u32,
    name: Option<Name>,
}

impl IndexedSymbol {
    // Creates the symbol with a copy of its name.
    fn new(
        alloc: Global,
        flags: u32,
        index: u32,
        name: Option<&str>,
    ) -> Result<IndexedSymbol, EncodeError>
        ensures copied { IfOk result (λ s. indexed_symbol s ≡ record { flags = flags; index = index; name = option_copied name.entry }) }
        ensures memory_alone { IfErr result (λ e. e ≡ EncodeError.Memory) }
    {
        let name = match name {
            Some(name) => Some(Name::new(alloc, name)?),
            None => None,
        };
        Ok(IndexedSymbol { flags, index, name })
    }
}

impl Encoding for IndexedSymbol {
    ghost encoding = { indexed_symbol_bytes };

    #[tactic(auto, using(wasm_spec::proofs::ListEncodings::parts, crate::proofs::SymbolLists::optional_steps), unfolding(crate::specs::KeptSymbols::indexed_symbol_bytes, crate::specs::Linking::indexed_symbol_encoding))]
    fn size(&self) -> Result<u64, EncodeError> {
        let flags = len_u64(u64::from(self.flags)) as u64;
        let index = len_u64(u64::from(self.index)) as u64;
        add_sizes(flags + index, optional_size(&self.name)?)
    }

    #[tactic(auto, using(wasm_spec::proofs::ListEncodings::parts, crate::proofs::SymbolLists::optional_steps), unfolding(crate::specs::KeptSymbols::indexed_symbol_bytes, crate::specs::Linking::indexed_symbol_encoding))]
    fn put(&self, sink: &mut Vec<u8>) {
        put_u64(sink, u64::from(self.flags));
        put_u64(sink, u64::from(self.index));
        put_optional(&self.name, sink);
    }
}

// A symbol of data.
#[derive(Debug, Drop)]
struct DataSymbol {
    flags: u32,
    name: Name,
    definition: Option<DataSymbolDefinition>,
}

impl Encoding for DataSymbol {
    ghost encoding = { data_symbol_bytes };

    #[tactic(auto, using(wasm_spec::proofs::ListEncodings::parts, crate::proofs::SymbolLists::optional_steps), unfolding(crate::specs::KeptSymbols::data_symbol_bytes, wasm_encoder_sections::specs::CoreItems::name_bytes, crate::specs::Linking::data_symbol_encoding))]
    fn size(&self) -> Result<u64, EncodeError> {
        let named = add_sizes(len_u64(u64::from(self.flags)) as u64, self.name.size()?)?;
        add_sizes(named, optional_size(&self.definition)?)
    }

    #[tactic(auto, using(wasm_spec::proofs::ListEncodings::parts, crate::proofs::SymbolLists::optional_steps), unfolding(crate::specs::KeptSymbols::data_symbol_bytes, wasm_encoder_sections::specs::CoreItems::name_bytes, crate::specs::Linking::data_symbol_encoding))]
    fn put(&self, sink: &mut Vec<u8>) {
        put_u64(sink, u64::from(self.flags));
        self.name.put(sink);
        put_optional(&self.definition, sink);
    }
}

// A symbol, as it is kept.
#[derive(Debug, Drop)]
enum Symbol {
    Function(IndexedSymbol),
    Data(DataSymbol),
    Global(IndexedSymbol),
    Table(IndexedSymbol),
}

const FUNCTION: u8 = 0x00;

const DATA: u8 = 0x01;

const GLOBAL: u8 = 0x02;

const TABLE: u8 = 0x05;

impl Encoding for Symbol {
    ghost encoding = { symbol_bytes };

    #[tactic(auto, unfolding(crate::specs::KeptSymbols::symbol_bytes, crate::specs::KeptSymbols::indexed_symbol_bytes, crate::specs::KeptSymbols::data_symbol_bytes, crate::specs::Linking::symbol_encoding))]
    fn size(&self) -> Result<u64, EncodeError> {
        let rest = match self {
            Symbol::Function(it) => it.size()?,
            Symbol::Data(it) => it.size()?,
            Symbol::Global(it) => it.size()?,
            Symbol::Table(it) => it.size()?,
        };
        add_sizes(1, rest)
    }

    #[tactic(auto, using(wasm_spec::proofs::ListEncodings::parts), unfolding(crate::specs::KeptSymbols::symbol_bytes, crate::specs::KeptSymbols::indexed_symbol_bytes, crate::specs::KeptSymbols::data_symbol_bytes, crate::specs::Linking::symbol_encoding))]
    fn put(&self, sink: &mut Vec<u8>) {
        match self {
            Symbol::Function(it) => {
                sink.push_reserved(FUNCTION);
                it.put(sink);
            }
            Symbol::Data(it) => {
                sink.push_reserved(DATA);
                it.put(sink);
            }
            Symbol::Global(it) => {
                sink.push_reserved(GLOBAL);
                it.put(sink);
            }
            Symbol::Table(it) => {
                sink.push_reserved(TABLE);
                it.put(sink);
            }
        }
    }
}

/// Returns the flags of symbols, in the order of their bits (WebAssembly tool conventions, "Linking").
pub fn symbol_flags() -> [u32; 7]
    ensures { result ≡ 0x01 ∷ 0x02 ∷ 0x04 ∷ 0x10 ∷ 0x20 ∷ 0x40 ∷ 0x80 ∷ [] }
{
    [
        SymbolTable::WASM_SYM_BINDING_WEAK,
        SymbolTable::WASM_SYM_BINDING_LOCAL,
        SymbolTable::WASM_SYM_VISIBILITY_HIDDEN,
        SymbolTable::WASM_SYM_UNDEFINED,
        SymbolTable::WASM_SYM_EXPORTED,
        SymbolTable::WASM_SYM_EXPLICIT_NAME,
        SymbolTable::WASM_SYM_NO_STRIP,
    ]
}

/// The id of the subsection of a symbol table.
pub(crate) const SYMBOL_TABLE: u8 = 8;

/// The symbols of an object file, in the order in which they were added: relocations name them by their places, counted from
/// 0. Contracts see the list of them.
///
/// The flags of a symbol say what is written of it, and it is for the caller that they agree with what is given: the symbol of
/// an import ([`SymbolTable::WASM_SYM_UNDEFINED`]) has a name of its own only with [`SymbolTable::WASM_SYM_EXPLICIT_NAME`], and
/// else every symbol has a name. A data symbol has a definition exactly where it isn't undefined.
#[derive(Debug, Drop)]
pub struct SymbolTable {
    alloc: Global,
    symbols: KeptList<Symbol>,
}

impl Model for SymbolTable {
    ghost use Rattle.std.specs.Prelude.{List, map};
    ghost use Rattle.wasm_encoder_custom.specs.KeptSymbols.{symbol};
    ghost use Rattle.wasm_encoder_custom.specs.Linking as linking;

    ghost Value = { List linking.Symbol };

    ghost view = { λ t. map symbol t.symbols };
}

impl SymbolTable {
    ghost use Rattle.std.specs.Borrow.{sem, LendsIfOk};
    ghost use Rattle.wasm_encoder_custom.specs.contracts.symbol_table.SymbolTable.{the_row};

    /// A weak symbol: another one of its name may take its place.
    pub const WASM_SYM_BINDING_WEAK: u32 = 1;

    /// A local symbol, which other files don't see.
    pub const WASM_SYM_BINDING_LOCAL: u32 = 2;

    /// A hidden symbol, which the linked module doesn't show.
    pub const WASM_SYM_VISIBILITY_HIDDEN: u32 = 4;

    /// A symbol that isn't defined in this file.
    pub const WASM_SYM_UNDEFINED: u32 = 16;

    /// A symbol that the linked module exports.
    pub const WASM_SYM_EXPORTED: u32 = 32;

    /// The symbol has a name that isn't the one of its import.
    pub const WASM_SYM_EXPLICIT_NAME: u32 = 64;

    /// A symbol that the linked module keeps, whether it is used or not.
    pub const WASM_SYM_NO_STRIP: u32 = 128;

    /// Creates a table without symbols.
    pub fn new(alloc: Global) -> SymbolTable
        ensures { result ≡ [] }
    {
        SymbolTable {
            alloc,
            symbols: KeptList::new(alloc),
        }
    }

    /// Adds the symbol of a function: what `function` does. The name is copied.
    ///
    /// # Errors
    /// `TooLong` exactly where there are 4,294,967,295 symbols, and else `Memory`.
    pub fn push_function(
        &mut self,
        flags: u32,
        index: u32,
        name: Option<&str>,
    ) -> Result<(), EncodeError>
        ensures added { IfOk result (λ _. self.new ≡ self.old ++ spec.FunctionSymbol (record { flags = flags; index = index; name = option_copied name.entry }) ∷ []) }
        ensures kept { IfErr result (λ _. self.new ≡ self.old) }
        ensures too_long { (result ≡ Err EncodeError.TooLong) ↔ (2 ^ 32 ≤ length self.old + 1) }
    {
        self.symbols.check_room()?;
        let symbol = IndexedSymbol::new(self.alloc, flags, index, name)?;
        self.symbols.push(Symbol::Function(symbol))
    }

    /// Adds the symbol of the function of this index. The name is copied.
    ///
    /// # Errors
    /// Those of [`SymbolTable::push_function`]. The table is then as it was.
    pub fn function(
        &mut self,
        flags: u32,
        index: u32,
        name: Option<&str>,
    ) -> Result<&mut SymbolTable, EncodeError>
        ensures* refused { sem 𝓛 (LendsIfOk the_row the_row self.entry result (λ w. w) self.old) }
        ensures same_reference { IfOk result (λ s. s.ghost_name ≡ self.entry.ghost_name) }
        ensures added { IfOk result (λ s. s.now ≡ self.old ++ spec.FunctionSymbol (record { flags = flags; index = index; name = option_copied name.entry }) ∷ []) }
        ensures too_long { (result ≡ Err EncodeError.TooLong) ↔ (2 ^ 32 ≤ length self.old + 1) }
    {
        match self.push_function(flags, index, name) {
            Ok(()) => Ok(self),
            Err(error) => Err(error),
        }
    }

    /// Adds the symbol of a global: what `global` does. The name is copied.
    ///
    /// # Errors
    /// `TooLong` exactly where there are 4,294,967,295 symbols, and else `Memory`.
    pub fn push_global(
        &mut self,
        flags: u32,
        index: u32,
        name: Option<&str>,
    ) -> Result<(), EncodeError>
        ensures added { IfOk result (λ _. self.new ≡ self.old ++ spec.GlobalSymbol (record { flags = flags; index = index; name = option_copied name.entry }) ∷ []) }
        ensures kept { IfErr result (λ _. self.new ≡ self.old) }
        ensures too_long { (result ≡ Err EncodeError.TooLong) ↔ (2 ^ 32 ≤ length self.old + 1) }
    {
        self.symbols.check_room()?;
        let symbol = IndexedSymbol::new(self.alloc, flags, index, name)?;
        self.symbols.push(Symbol::Global(symbol))
    }

    /// Adds the symbol of the global of this index. The name is copied.
    ///
    /// # Errors
    /// Those of [`SymbolTable::push_global`]. The table is then as it was.
    pub fn global(
        &mut self,
        flags: u32,
        index: u32,
        name: Option<&str>,
    ) -> Result<&mut SymbolTable, EncodeError>
        ensures* refused { sem 𝓛 (LendsIfOk the_row the_row self.entry result (λ w. w) self.old) }
        ensures same_reference { IfOk result (λ s. s.ghost_name ≡ self.entry.ghost_name) }
        ensures added { IfOk result (λ s. s.now ≡ self.old ++ spec.GlobalSymbol (record { flags = flags; index = index; name = option_copied name.entry }) ∷ []) }
        ensures too_long { (result ≡ Err EncodeError.TooLong) ↔ (2 ^ 32 ≤ length self.old + 1) }
    {
        match self.push_global(flags, index, name) {
            Ok(()) => Ok(self),
            Err(error) => Err(error),
        }
    }

    /// Adds the symbol of a table: what `table` does. The name is copied.
    ///
    /// # Errors
    /// `TooLong` exactly where there are 4,294,967,295 symbols, and else `Memory`.
    pub fn push_table(
        &mut self,
        flags: u32,
        index: u32,
        name: Option<&str>,
    ) -> Result<(), EncodeError>
        ensures added { IfOk result (λ _. self.new ≡ self.old ++ spec.TableSymbol (record { flags = flags; index = index; name = option_copied name.entry }) ∷ []) }
        ensures kept { IfErr result (λ _. self.new ≡ self.old) }
        ensures too_long { (result ≡ Err EncodeError.TooLong) ↔ (2 ^ 32 ≤ length self.old + 1) }
    {
        self.symbols.check_room()?;
        let symbol = IndexedSymbol::new(self.alloc, flags, index, name)?;
        self.symbols.push(Symbol::Table(symbol))
    }

    /// Adds the symbol of the table of this index. The name is copied.
    ///
    /// # Errors
    /// Those of [`SymbolTable::push_table`]. The table is then as it was.
    pub fn table(
        &mut self,
        flags: u32,
        index: u32,
        name: Option<&str>,
    ) -> Result<&mut SymbolTable, EncodeError>
        ensures* refused { sem 𝓛 (LendsIfOk the_row the_row self.entry result (λ w. w) self.old) }
        ensures same_reference { IfOk result (λ s. s.ghost_name ≡ self.entry.ghost_name) }
        ensures added { IfOk result (λ s. s.now ≡ self.old ++ spec.TableSymbol (record { flags = flags; index = index; name = option_copied name.entry }) ∷ []) }
        ensures too_long { (result ≡ Err EncodeError.TooLong) ↔ (2 ^ 32 ≤ length self.old + 1) }
    {
        match self.push_table(flags, index, name) {
            Ok(()) => Ok(self),
            Err(error) => Err(error),
        }
    }

    /// Adds the symbol of data: what `data` does. The name is copied.
    ///
    /// # Errors
    /// `TooLong` exactly where there are 4,294,967,295 symbols, and else `Memory`.
    pub fn push_data(
        &mut self,
        flags: u32,
        name: &str,
        definition: Option<DataSymbolDefinition>,
    ) -> Result<(), EncodeError>
        ensures added { IfOk result (λ _. self.new ≡ self.old ++ spec.AddressSymbol (record { flags = flags; name = name.now; definition = option_map data_definition definition }) ∷ []) }
        ensures kept { IfErr result (λ _. self.new ≡ self.old) }
        ensures too_long { (result ≡ Err EncodeError.TooLong) ↔ (2 ^ 32 ≤ length self.old + 1) }
    {
        self.symbols.check_room()?;
        let name = Name::new(self.alloc, name)?;
        self.symbols.push(Symbol::Data(DataSymbol {
            flags,
            name,
            definition,
        }))
    }

    /// Adds the symbol of data of this name, which is copied.
    ///
    /// # Errors
    /// Those of [`SymbolTable::push_data`]. The table is then as it was.
    pub fn data(
        &mut self,
        flags: u32,
        name: &str,
        definition: Option<DataSymbolDefinition>,
    ) -> Result<&mut SymbolTable, EncodeError>
        ensures* refused { sem 𝓛 (LendsIfOk the_row the_row self.entry result (λ w. w) self.old) }
        ensures same_reference { IfOk result (λ s. s.ghost_name ≡ self.entry.ghost_name) }
        ensures added { IfOk result (λ s. s.now ≡ self.old ++ spec.AddressSymbol (record { flags = flags; name = name.now; definition = option_map data_definition definition }) ∷ []) }
        ensures too_long { (result ≡ Err EncodeError.TooLong) ↔ (2 ^ 32 ≤ length self.old + 1) }
    {
        match self.push_data(flags, name, definition) {
            Ok(()) => Ok(self),
            Err(error) => Err(error),
        }
    }
}

// The number of the symbols, and the symbols.
impl Encoding for SymbolTable {
    ghost encoding = { λ t. symbols_encoding t };

    #[tactic(auto, using(crate::proofs::SymbolLists::steps))]
    fn size(&self) -> Result<u64, EncodeError> {
        self.symbols.size()
    }

    #[tactic(auto, using(crate::proofs::SymbolLists::steps))]
    fn put(&self, sink: &mut Vec<u8>) {
        self.symbols.put(sink);
    }
}

// The subsection.
impl Encode for SymbolTable {
    ghost encoding = { λ t. subsection_encoding (symbol_table_part t) };

    ghost longest = { λ t. length (symbols_encoding t) };

    fn encode(&self, sink: &mut Vec<u8>) -> Result<(), EncodeError> {
        encode_subsection(SYMBOL_TABLE, self, sink)
    }

    fn encoded_len(&self) -> Result<u64, EncodeError> {
        subsection_len(SYMBOL_TABLE, self)
    }
}
