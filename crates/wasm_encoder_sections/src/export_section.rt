//! The export section (Core Specification, Binary Format, Modules, "Export Section").

ghost use Rattle.std.specs.Prelude.{◌≡◌, ◌↔◌, ◌+◌, ◌≤◌, ◌^◌, [], ◌∷◌, ◌++◌, length, Err, IfOk, IfErr, IsTrue};
ghost use Rattle.wasm_core_write.specs.Encoding.{TellsItem};
ghost use Rattle.wasm_encoder_sections.specs.CoreItems.{export_kind, export_bytes};
ghost use Rattle.wasm_encoder_sections.specs.ItemEncodings.{export_encoding};
ghost use Rattle.wasm_spec.specs.Shortest.{list_encoding, framed_encoding};

use crate::entity_type::{ExportKind, kind_byte};
use crate::kept_list::KeptList;
use crate::names::Name;
use std::alloc::Global;
use std::marker::Model;
use wasm_core_write::encode::{Encode, Section};
use wasm_core_write::encode_error::EncodeError;
use wasm_core_write::encoding::{Encoding, add_sizes, encode_framed, framed_len};
use wasm_core_write::leb128::{len_u64, put_u64};

// What is exported, under a name of its own.
#[derive(Debug, Drop)]
struct Export {
    name: Name,
    kind: ExportKind,
    index: u32,
}

impl Encoding for Export {
    ghost encoding = { export_bytes };

    #[tactic(auto, using(wasm_spec::proofs::ListEncodings::parts), unfolding(crate::specs::CoreItems::export_bytes, crate::specs::CoreItems::name_bytes, crate::specs::ItemEncodings::export_encoding))]
    fn size(&self) -> Result<u64, EncodeError> {
        add_sizes(self.name.size()?, 1 + len_u64(u64::from(self.index)) as u64)
    }

    #[tactic(auto, using(wasm_spec::proofs::ListEncodings::parts), unfolding(crate::specs::CoreItems::export_bytes, crate::specs::CoreItems::name_bytes, crate::specs::ItemEncodings::export_encoding))]
    fn put(&self, sink: &mut Vec<u8>) {
        self.name.put(sink);
        sink.push_reserved(kind_byte(self.kind));
        put_u64(sink, u64::from(self.index));
    }
}

/// What a module exports. Contracts see the list of it.
///
/// ```
/// let mut exports = ExportSection::new(alloc);
/// exports.export("memory", ExportKind::Memory, 0)?.export("main", ExportKind::Func, 1)?;
/// module.push(&exports)?;
/// ```
#[derive(Debug, Drop)]
pub struct ExportSection {
    alloc: Global,
    exports: KeptList<Export>,
}

impl Model for ExportSection {
    ghost use Rattle.std.specs.Prelude.{List, map};
    ghost use Rattle.wasm_encoder_sections.specs.CoreItems.{export_of};
    ghost use Rattle.wasm_spec.specs.Syntax as spec;

    ghost Value = { List spec.Export };

    ghost view = { λ s. map export_of s.exports };
}

impl ExportSection {
    ghost use Rattle.std.specs.Borrow.{sem, LendsIfOk};
    ghost use Rattle.wasm_encoder_sections.specs.contracts.export_section.ExportSection.{the_row};

    /// Creates a section without exports.
    pub fn new(alloc: Global) -> ExportSection
        ensures { result ≡ [] }
    {
        ExportSection {
            alloc,
            exports: KeptList::new(alloc),
        }
    }

    /// Returns the number of exports.
    pub fn len(&self) -> u32
        ensures { result ≡ length self.now }
    {
        self.exports.len()
    }

    /// Checks that there are no exports.
    #[tactic(auto, using(crate::proofs::ItemLists::nothing))]
    pub fn is_empty(&self) -> bool
        ensures { IsTrue result ↔ (self.now ≡ []) }
    {
        self.exports.is_empty()
    }

    /// Exports what has this index in the space of its kind: what `export` does. The name is copied.
    ///
    /// # Errors
    /// `TooLong` exactly where there are 4,294,967,295 exports, and else `Memory`.
    pub fn push(&mut self, name: &str, kind: ExportKind, index: u32) -> Result<(), EncodeError>
        ensures added { IfOk result (λ _. self.new ≡ self.old ++ record { name = name.now; kind = export_kind kind; index = index } ∷ []) }
        ensures kept { IfErr result (λ _. self.new ≡ self.old) }
        ensures too_long { (result ≡ Err EncodeError.TooLong) ↔ (2 ^ 32 ≤ length self.old + 1) }
    {
        self.exports.check_room()?;
        let name = Name::new(self.alloc, name)?;
        self.exports.push(Export { name, kind, index })
    }

    /// Exports what has this index in the space of its kind. The name is copied.
    ///
    /// # Errors
    /// Those of [`ExportSection::push`]. The section is then as it was.
    pub fn export(
        &mut self,
        name: &str,
        kind: ExportKind,
        index: u32,
    ) -> Result<&mut ExportSection, EncodeError>
        ensures* refused { sem 𝓛 (LendsIfOk the_row the_row self.entry result (λ w. w) self.old) }
        ensures same_reference { IfOk result (λ s. s.ghost_name ≡ self.entry.ghost_name) }
        ensures added { IfOk result (λ s. s.now ≡ self.old ++ record { name = name.now; kind = export_kind kind; index = index } ∷ []) }
        ensures too_long { (result ≡ Err EncodeError.TooLong) ↔ (2 ^ 32 ≤ length self.old + 1) }
    {
        match self.push(name, kind, index) {
            Ok(()) => Ok(self),
            Err(error) => Err(error),
        }
    }

    /// Returns the number of bytes of the item of the accepted adding call of this number, counted from 0. It takes no
    /// memory. Where [`Encode::encode`] answers `TooLong`, the number says nothing.
    pub fn item_len(&self, i: u32) -> Option<u64>
        ensures { TellsItem export_encoding self.now i result }
    {
        self.exports.item_len(i)
    }
}

impl Encode for ExportSection {
    ghost encoding = { λ s. framed_encoding (list_encoding export_encoding s) };

    ghost longest = { λ s. length (list_encoding export_encoding s) };

    #[tactic(auto, using(crate::proofs::ItemLists::steps))]
    fn encode(&self, sink: &mut Vec<u8>) -> Result<(), EncodeError> {
        encode_framed(&self.exports, sink)
    }

    #[tactic(auto, using(crate::proofs::ItemLists::steps))]
    fn encoded_len(&self) -> Result<u64, EncodeError> {
        framed_len(&self.exports)
    }
}

impl Section for ExportSection {
    ghost number = { λ _. 7 };

    fn id(&self) -> u8 {
        7
    }
}
