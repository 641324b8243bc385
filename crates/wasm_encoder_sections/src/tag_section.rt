//! The tag section (Core Specification, Binary Format, Modules, "Tag Section").

ghost use Rattle.std.specs.Prelude.{◌≡◌, ◌↔◌, ◌+◌, ◌≤◌, ◌^◌, [], ◌∷◌, ◌++◌, length, Err, IfOk, IfErr, IsTrue};
ghost use Rattle.wasm_core_write.specs.Encoding.{TellsItem};
ghost use Rattle.wasm_encoder_sections.specs.CoreItems.{tag_type};
ghost use Rattle.wasm_encoder_sections.specs.ItemEncodings.{tag_type_encoding};
ghost use Rattle.wasm_spec.specs.Shortest.{list_encoding, framed_encoding};

use crate::entity_type::TagType;
use crate::kept_list::KeptList;
use std::alloc::Global;
use std::marker::Model;
use wasm_core_write::encode::{Encode, Section};
use wasm_core_write::encode_error::EncodeError;
use wasm_core_write::encoding::{encode_framed, framed_len};

/// The types of a module's own tags. Contracts see the list of them.
///
/// ```
/// let mut tags = TagSection::new(alloc);
/// tags.tag(TagType { kind: TagKind::Exception, func_type_idx: 0 })?;
/// module.push(&tags)?;
/// ```
#[derive(Debug, Drop)]
pub struct TagSection {
    tags: KeptList<TagType>,
}

impl Model for TagSection {
    ghost use Rattle.std.specs.Prelude.{ℕ, List, map};
    ghost use Rattle.wasm_encoder_sections.specs.CoreItems.{tag_type};

    ghost Value = { List ℕ };

    ghost view = { λ s. map tag_type s.tags };
}

impl TagSection {
    ghost use Rattle.std.specs.Borrow.{sem, LendsIfOk};
    ghost use Rattle.wasm_encoder_sections.specs.contracts.tag_section.TagSection.{the_row};

    /// Creates a section without tags.
    pub fn new(alloc: Global) -> TagSection
        ensures { result ≡ [] }
    {
        TagSection {
            tags: KeptList::new(alloc),
        }
    }

    /// Returns the number of tags.
    pub fn len(&self) -> u32
        ensures { result ≡ length self.now }
    {
        self.tags.len()
    }

    /// Checks that there are no tags.
    #[tactic(auto, using(crate::proofs::ItemLists::nothing))]
    pub fn is_empty(&self) -> bool
        ensures { IsTrue result ↔ (self.now ≡ []) }
    {
        self.tags.is_empty()
    }

    /// Adds a tag: what `tag` does.
    ///
    /// # Errors
    /// `TooLong` exactly where there are 4,294,967,295 tags, and else `Memory`.
    pub fn push(&mut self, ty: TagType) -> Result<(), EncodeError>
        ensures added { IfOk result (λ _. self.new ≡ self.old ++ tag_type ty ∷ []) }
        ensures kept { IfErr result (λ _. self.new ≡ self.old) }
        ensures too_long { (result ≡ Err EncodeError.TooLong) ↔ (2 ^ 32 ≤ length self.old + 1) }
    {
        self.tags.push(ty)
    }

    /// Adds a tag.
    ///
    /// # Errors
    /// Those of [`TagSection::push`]. The section is then as it was.
    pub fn tag(&mut self, ty: TagType) -> Result<&mut TagSection, EncodeError>
        ensures* refused { sem 𝓛 (LendsIfOk the_row the_row self.entry result (λ w. w) self.old) }
        ensures same_reference { IfOk result (λ s. s.ghost_name ≡ self.entry.ghost_name) }
        ensures added { IfOk result (λ s. s.now ≡ self.old ++ tag_type ty ∷ []) }
        ensures too_long { (result ≡ Err EncodeError.TooLong) ↔ (2 ^ 32 ≤ length self.old + 1) }
    {
        match self.push(ty) {
            Ok(()) => Ok(self),
            Err(error) => Err(error),
        }
    }

    /// Returns the number of bytes of the item of the accepted adding call of this number, counted from 0. It takes no
    /// memory. Where [`Encode::encode`] answers `TooLong`, the number says nothing.
    pub fn item_len(&self, i: u32) -> Option<u64>
        ensures { TellsItem tag_type_encoding self.now i result }
    {
        self.tags.item_len(i)
    }
}

impl Encode for TagSection {
    ghost encoding = { λ s. framed_encoding (list_encoding tag_type_encoding s) };

    ghost longest = { λ s. length (list_encoding tag_type_encoding s) };

    #[tactic(auto, using(crate::proofs::ItemLists::steps))]
    fn encode(&self, sink: &mut Vec<u8>) -> Result<(), EncodeError> {
        encode_framed(&self.tags, sink)
    }

    #[tactic(auto, using(crate::proofs::ItemLists::steps))]
    fn encoded_len(&self) -> Result<u64, EncodeError> {
        framed_len(&self.tags)
    }
}

impl Section for TagSection {
    ghost number = { λ _. 13 };

    fn id(&self) -> u8 {
        13
    }
}
