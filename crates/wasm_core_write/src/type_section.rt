//! The type section, as it is built and written (Core Specification, Binary Format, Modules, "Type Section").

ghost use Rattle.std.specs.Prelude.{◌≡◌, ◌↔◌, ◌+◌, ◌≤◌, ◌<◌, ◌^◌, [], ◌∷◌, ◌++◌, true, List, length, map, Err, IfOk, IfErr, IsTrue};
ghost use Rattle.std.specs.List.{flat_map};
ghost use Rattle.wasm_core_write.specs.CoreRecGroups.{rec_group, core_group_encoding};
ghost use Rattle.wasm_core_write.specs.Encoding.{Measures, TellsItem};
ghost use Rattle.wasm_core_types.specs.SubTypes.{sub_type};
ghost use Rattle.wasm_spec.specs.Types as spec;
ghost use Rattle.wasm_spec.specs.TypeEncodings.{rec_group_encoding, rec_groups_encoding};
ghost use Rattle.wasm_spec.specs.Shortest.{list_encoding, framed_encoding};
ghost use Rattle.wasm_spec.specs.Types.{FuncComposite};

use crate::encode::{Encode, Section};
use crate::encode_error::EncodeError;
use crate::encoding::{
    Encoding, add_sizes, encode_framed, framed_len, item_len, list_size, put_list,
};
use crate::leb128::len_u64;
use crate::rec_group::RecGroup;
use std::alloc::Global;
use std::marker::Model;
use wasm_core_types::types::{CompositeType, FuncType, SubType};

impl Encoding for RecGroup {
    ghost encoding = { core_group_encoding };

    #[tactic(auto, using(crate::proofs::TypeLists::steps), unfolding(crate::specs::CoreRecGroups::core_group_encoding, crate::specs::CoreEncodings::sub_type_encoding, wasm_spec::specs::TypeEncodings::rec_group_encoding, wasm_spec::specs::TypeEncodings::group_encoding))]
    fn size(&self) -> Result<u64, EncodeError> {
        match self {
            RecGroup::Single(ty) => ty.size(),
            RecGroup::Group(group) => add_sizes(1, list_size(group)?),
        }
    }

    #[tactic(auto, using(crate::proofs::TypeLists::steps), unfolding(crate::specs::CoreRecGroups::core_group_encoding, crate::specs::CoreEncodings::sub_type_encoding, wasm_spec::specs::TypeEncodings::rec_group_encoding, wasm_spec::specs::TypeEncodings::group_encoding))]
    fn put(&self, sink: &mut Vec<u8>) {
        match self {
            RecGroup::Single(ty) => ty.put(sink),
            RecGroup::Group(group) => {
                sink.push_reserved(GROUP);
                put_list(group, sink);
            }
        }
    }
}

const GROUP: u8 = 0x4e;

/// The types of a module, in recursive groups. Contracts see the list of its entries.
///
/// An entry is kept as it was given and written when the section is. Of an entry that is refused nothing is kept: the
/// section is as it was.
#[derive(Debug, Drop)]
pub struct TypeSection {
    entries: Vec<RecGroup>,
    // The length of the entries' encodings, one after the other, so that writing need not measure them.
    size: Result<u64, EncodeError>,
}

impl Model for TypeSection {
    ghost use Rattle.std.specs.Prelude.{◌<◌, ◌^◌, ℕ, List, length, map};
    ghost use Rattle.std.specs.List.{flat_map};
    ghost use Rattle.wasm_core_write.specs.CoreRecGroups.{rec_group};
    ghost use Rattle.wasm_core_write.specs.Encoding.{Measures};
    ghost use Rattle.wasm_spec.specs.Types as spec;
    ghost use Rattle.wasm_spec.specs.TypeEncodings.{rec_group_encoding};

    ghost Value = { List (spec.RecGroup ℕ) };

    ghost view = { λ s. map rec_group s.entries.items };

    ghost invariant = { λ s. (length s.entries.items < 2 ^ 32) × Measures s.size (length (flat_map rec_group_encoding (map rec_group s.entries.items))) (length (flat_map rec_group_encoding (map rec_group s.entries.items))) };
}

impl TypeSection {
    ghost use Rattle.std.specs.Borrow.{sem, LendsIfOk};
    ghost use Rattle.wasm_core_write.specs.contracts.type_section.TypeSection.{the_row};

    /// Creates a section without entries.
    pub fn new(alloc: Global) -> TypeSection
        ensures { result ≡ [] }
    {
        TypeSection {
            entries: Vec::new(alloc),
            size: Ok(0),
        }
    }

    /// Returns the number of entries.
    pub fn len(&self) -> u32
        ensures { result ≡ length self.now }
    {
        self.entries.len() as u32
    }

    /// Checks that there are no entries.
    pub fn is_empty(&self) -> bool
        ensures { IsTrue result ↔ (self.now ≡ []) }
    {
        self.entries.is_empty()
    }

    /// Adds an entry: what the chaining calls do.
    ///
    /// # Errors
    /// `TooLong` exactly where there are 4,294,967,295 entries, and else `Memory`.
    #[tactic(auto, using(wasm_spec::proofs::ListEncodings::sizes), unfolding(crate::specs::CoreRecGroups::core_group_encoding))]
    pub fn push(&mut self, entry: RecGroup) -> Result<(), EncodeError>
        ensures added { IfOk result (λ _. self.new ≡ self.old ++ rec_group entry ∷ []) }
        ensures kept { IfErr result (λ _. self.new ≡ self.old) }
        ensures too_long { (result ≡ Err EncodeError.TooLong) ↔ (2 ^ 32 ≤ length self.old + 1) }
    {
        if self.entries.len() >= 4_294_967_295 {
            return Err(EncodeError::TooLong);
        }
        let size = self.size_with(&entry);
        self.entries.push(entry)?;
        self.size = size;
        Ok(())
    }

    // Returns the length of the entries' encodings and of one after them.
    #[tactic(auto, using(wasm_spec::proofs::ListEncodings::sizes))]
    fn size_with(&self, entry: &RecGroup) -> Result<u64, EncodeError>
        ensures { Measures result (length (flat_map rec_group_encoding self.now ++ core_group_encoding entry.now)) (length (flat_map rec_group_encoding self.now ++ core_group_encoding entry.now)) }
    {
        add_sizes(self.size?, entry.size()?)
    }

    /// Adds a final function type without supertypes, by itself.
    ///
    /// # Errors
    /// Those of [`TypeSection::push`]. The section is then as it was.
    pub fn func(&mut self, ty: FuncType) -> Result<&mut TypeSection, EncodeError>
        ensures* refused { sem 𝓛 (LendsIfOk the_row the_row self.entry result (λ w. w) self.old) }
        ensures same_reference { IfOk result (λ s. s.ghost_name ≡ self.entry.ghost_name) }
        ensures added { IfOk result (λ s. s.now ≡ self.old ++ spec.Single (record { is_final = true; supertypes = []; composite_type = FuncComposite ty }) ∷ []) }
        ensures too_long { (result ≡ Err EncodeError.TooLong) ↔ (2 ^ 32 ≤ length self.old + 1) }
    {
        match self.push_func(ty) {
            Ok(()) => Ok(self),
            Err(error) => Err(error),
        }
    }

    // Does what `func` does.
    fn push_func(&mut self, ty: FuncType) -> Result<(), EncodeError>
        ensures added { IfOk result (λ _. self.new ≡ self.old ++ spec.Single (record { is_final = true; supertypes = []; composite_type = FuncComposite ty }) ∷ []) }
        ensures kept { IfErr result (λ _. self.new ≡ self.old) }
        ensures too_long { (result ≡ Err EncodeError.TooLong) ↔ (2 ^ 32 ≤ length self.old + 1) }
    {
        self.push_subtype(SubType {
            is_final: true,
            supertype_idx: None,
            composite_type: CompositeType::Func(ty),
        })
    }

    /// Adds a sub type by itself.
    ///
    /// # Errors
    /// Those of [`TypeSection::push`]. The section is then as it was.
    pub fn subtype(&mut self, ty: SubType) -> Result<&mut TypeSection, EncodeError>
        ensures* refused { sem 𝓛 (LendsIfOk the_row the_row self.entry result (λ w. w) self.old) }
        ensures same_reference { IfOk result (λ s. s.ghost_name ≡ self.entry.ghost_name) }
        ensures added { IfOk result (λ s. s.now ≡ self.old ++ spec.Single (sub_type ty) ∷ []) }
        ensures too_long { (result ≡ Err EncodeError.TooLong) ↔ (2 ^ 32 ≤ length self.old + 1) }
    {
        match self.push_subtype(ty) {
            Ok(()) => Ok(self),
            Err(error) => Err(error),
        }
    }

    // Does what `subtype` does.
    fn push_subtype(&mut self, ty: SubType) -> Result<(), EncodeError>
        ensures added { IfOk result (λ _. self.new ≡ self.old ++ spec.Single (sub_type ty) ∷ []) }
        ensures kept { IfErr result (λ _. self.new ≡ self.old) }
        ensures too_long { (result ≡ Err EncodeError.TooLong) ↔ (2 ^ 32 ≤ length self.old + 1) }
    {
        self.push(RecGroup::Single(ty))
    }

    /// Adds a group, which is written out as one also where it has one type.
    ///
    /// # Errors
    /// Those of [`TypeSection::push`]. The section is then as it was.
    pub fn rec(&mut self, types: Vec<SubType>) -> Result<&mut TypeSection, EncodeError>
        ensures* refused { sem 𝓛 (LendsIfOk the_row the_row self.entry result (λ w. w) self.old) }
        ensures same_reference { IfOk result (λ s. s.ghost_name ≡ self.entry.ghost_name) }
        ensures added { IfOk result (λ s. s.now ≡ self.old ++ spec.Group (map sub_type types.items) ∷ []) }
        ensures too_long { (result ≡ Err EncodeError.TooLong) ↔ (2 ^ 32 ≤ length self.old + 1) }
    {
        match self.push_rec(types) {
            Ok(()) => Ok(self),
            Err(error) => Err(error),
        }
    }

    // Does what `rec` does.
    fn push_rec(&mut self, types: Vec<SubType>) -> Result<(), EncodeError>
        ensures added { IfOk result (λ _. self.new ≡ self.old ++ spec.Group (map sub_type types.items) ∷ []) }
        ensures kept { IfErr result (λ _. self.new ≡ self.old) }
        ensures too_long { (result ≡ Err EncodeError.TooLong) ↔ (2 ^ 32 ≤ length self.old + 1) }
    {
        self.push(RecGroup::Group(types))
    }

    /// Returns the number of bytes of the entry of the accepted adding call of this number, counted from 0. It takes no
    /// memory. Where [`Encode::encode`] answers `TooLong`, the number says nothing.
    pub fn item_len(&self, i: u32) -> Option<u64>
        ensures { TellsItem rec_group_encoding self.now i result }
    {
        item_len(&self.entries, i)
    }
}

// What stands in the frame of the section.
impl Encoding for TypeSection {
    ghost encoding = { rec_groups_encoding };

    #[tactic(auto, using(wasm_spec::proofs::ListEncodings::sizes))]
    fn size(&self) -> Result<u64, EncodeError> {
        add_sizes(len_u64(self.entries.len() as u64) as u64, self.size?)
    }

    #[tactic(auto, using(crate::proofs::RecGroupLists::steps))]
    fn put(&self, sink: &mut Vec<u8>) {
        put_list(&self.entries, sink);
    }
}

impl Encode for TypeSection {
    ghost encoding = { λ s. framed_encoding (rec_groups_encoding s) };

    ghost longest = { λ s. length (rec_groups_encoding s) };

    fn encode(&self, sink: &mut Vec<u8>) -> Result<(), EncodeError> {
        encode_framed(self, sink)
    }

    fn encoded_len(&self) -> Result<u64, EncodeError> {
        framed_len(self)
    }
}

impl Section for TypeSection {
    ghost number = { λ _. 1 };

    fn id(&self) -> u8 {
        1
    }
}
