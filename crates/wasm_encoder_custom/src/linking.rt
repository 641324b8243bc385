//! What linkers are told of an object file (Tool Conventions of WebAssembly, "Linking").

ghost use Rattle.std.specs.Prelude.{◌≡◌, ◌↔◌, ◌≤◌, ◌^◌, [], ◌∷◌, ◌++◌, codes, length, Err, IfOk, IfErr};
ghost use Rattle.wasm_encoder_custom.specs.CustomSections.{custom_content};
ghost use Rattle.wasm_encoder_custom.specs.KeptLinking.{linking_bytes};
ghost use Rattle.wasm_encoder_custom.specs.Linking.{symbols_encoding, symbol_table_part, linking_encoding};
ghost use Rattle.wasm_spec.specs.Shortest.{framed_encoding};

use crate::framing::{custom_len, encode_custom};
use crate::subsections::Subsections;
use crate::symbol_table::{SYMBOL_TABLE, SymbolTable};
use std::alloc::Global;
use std::marker::Model;
use wasm_core_write::encode::{Encode, Section};
use wasm_core_write::encode_error::EncodeError;
use wasm_core_write::encoding::{Encoding, add_sizes};

const NAME: &str = "linking";

const VERSION: u8 = 2;

// The version, and the subsections.
#[derive(Debug, Drop)]
struct LinkingContent {
    parts: Subsections,
}

impl Encoding for LinkingContent {
    ghost encoding = { linking_bytes };

    #[tactic(auto, unfolding(crate::specs::KeptLinking::linking_bytes, crate::specs::Linking::linking_encoding))]
    fn size(&self) -> Result<u64, EncodeError> {
        add_sizes(1, self.parts.size()?)
    }

    #[tactic(auto, using(wasm_spec::proofs::ListEncodings::parts), unfolding(crate::specs::KeptLinking::linking_bytes, crate::specs::Linking::linking_encoding))]
    fn put(&self, sink: &mut Vec<u8>) {
        sink.push_reserved(VERSION);
        self.parts.put(sink);
    }
}

/// What linkers are told of an object file: its symbols. Contracts see the list of its subsections, which are written in the
/// order in which they were added: the convention asks for one symbol table.
///
/// ```
/// let mut symbols = SymbolTable::new(alloc);
/// symbols.function(SymbolTable::WASM_SYM_UNDEFINED, 0, None)?;
/// let mut linking = LinkingSection::new(alloc);
/// linking.symbol_table(&symbols)?;
/// module.push(&linking)?;
/// ```
#[derive(Debug, Drop)]
pub struct LinkingSection {
    alloc: Global,
    content: LinkingContent,
}

impl Model for LinkingSection {
    ghost use Rattle.std.specs.Prelude.{List};
    ghost use Rattle.wasm_encoder_custom.specs.Subsections as spec;

    ghost Value = { List spec.Subsection };

    ghost view = { λ s. s.content.parts };
}

impl LinkingSection {
    ghost use Rattle.std.specs.Borrow.{sem, LendsIfOk};
    ghost use Rattle.wasm_encoder_custom.specs.contracts.linking.LinkingSection.{the_row};

    /// Creates a section without subsections.
    pub fn new(alloc: Global) -> LinkingSection
        ensures { result ≡ [] }
    {
        LinkingSection {
            alloc,
            content: LinkingContent {
                parts: Subsections::new(alloc),
            },
        }
    }

    /// Adds a symbol table: what `symbol_table` does. It is copied.
    ///
    /// # Errors
    /// `TooLong` exactly where the symbols are past 4,294,967,295 bytes, and else `Memory`.
    pub fn push(&mut self, symbol_table: &SymbolTable) -> Result<(), EncodeError>
        ensures added { IfOk result (λ _. self.new ≡ self.old ++ symbol_table_part symbol_table.now ∷ []) }
        ensures kept { IfErr result (λ _. self.new ≡ self.old) }
        ensures too_long { (result ≡ Err EncodeError.TooLong) ↔ (2 ^ 32 ≤ length (symbols_encoding symbol_table.now)) }
    {
        self.content
            .parts
            .push(self.alloc, SYMBOL_TABLE, symbol_table)
    }

    /// Adds a symbol table, which is copied.
    ///
    /// # Errors
    /// Those of [`LinkingSection::push`]. The section is then as it was.
    pub fn symbol_table(
        &mut self,
        symbol_table: &SymbolTable,
    ) -> Result<&mut LinkingSection, EncodeError>
        ensures* refused { sem 𝓛 (LendsIfOk the_row the_row self.entry result (λ w. w) self.old) }
        ensures same_reference { IfOk result (λ s. s.ghost_name ≡ self.entry.ghost_name) }
        ensures added { IfOk result (λ s. s.now ≡ self.old ++ symbol_table_part symbol_table.now ∷ []) }
        ensures too_long { (result ≡ Err EncodeError.TooLong) ↔ (2 ^ 32 ≤ length (symbols_encoding symbol_table.now)) }
    {
        match self.push(symbol_table) {
            Ok(()) => Ok(self),
            Err(error) => Err(error),
        }
    }
}

impl Encode for LinkingSection {
    ghost encoding = { λ s. framed_encoding (custom_content (codes "linking") (linking_encoding s)) };

    ghost longest = { λ s. length (custom_content (codes "linking") (linking_encoding s)) };

    #[tactic(auto, unfolding(crate::specs::KeptLinking::linking_bytes))]
    fn encode(&self, sink: &mut Vec<u8>) -> Result<(), EncodeError> {
        encode_custom(NAME, &self.content, sink)
    }

    #[tactic(auto, unfolding(crate::specs::KeptLinking::linking_bytes))]
    fn encoded_len(&self) -> Result<u64, EncodeError> {
        custom_len(NAME, &self.content)
    }
}

impl Section for LinkingSection {
    ghost number = { λ _. 0 };

    fn id(&self) -> u8 {
        0
    }
}
