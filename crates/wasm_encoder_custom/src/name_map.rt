//! Names by the indexes of what they are of (Core Specification, Appendix, Custom Sections and Annotations, "Name Section").

ghost use Rattle.std.specs.Prelude.{◌≡◌, ◌↔◌, ◌+◌, ◌≤◌, ◌⊎◌, ◌^◌, [], ◌∷◌, ◌++◌, length, Err, IfOk, IfErr, IsTrue};
ghost use Rattle.wasm_encoder_custom.specs.KeptNames.{naming_bytes, indirect_naming_bytes};
ghost use Rattle.wasm_encoder_custom.specs.NameMaps.{name_map_encoding, indirect_name_map_encoding};

use crate::framing::{alone_len, encode_alone, written};
use std::alloc::Global;
use std::marker::Model;
use wasm_core_write::encode::Encode;
use wasm_core_write::encode_error::EncodeError;
use wasm_core_write::encoding::{Encoding, add_sizes, bytes_size, put_bytes};
use wasm_core_write::leb128::{len_u64, put_u64};
use wasm_encoder_sections::kept_list::KeptList;
use wasm_encoder_sections::names::Name;

// A name of what has an index.
#[derive(Debug, Drop)]
struct Naming {
    index: u32,
    name: Name,
}

impl Encoding for Naming {
    ghost encoding = { naming_bytes };

    #[tactic(auto, using(wasm_spec::proofs::ListEncodings::parts), unfolding(crate::specs::KeptNames::naming_bytes, wasm_encoder_sections::specs::CoreItems::name_bytes, crate::specs::NameMaps::naming_encoding))]
    fn size(&self) -> Result<u64, EncodeError> {
        add_sizes(len_u64(u64::from(self.index)) as u64, self.name.size()?)
    }

    #[tactic(auto, using(wasm_spec::proofs::ListEncodings::parts), unfolding(crate::specs::KeptNames::naming_bytes, wasm_encoder_sections::specs::CoreItems::name_bytes, crate::specs::NameMaps::naming_encoding))]
    fn put(&self, sink: &mut Vec<u8>) {
        put_u64(sink, u64::from(self.index));
        self.name.put(sink);
    }
}

/// Names of what has an index, in the order in which they were added. Contracts see the list of them.
#[derive(Debug, Drop)]
pub struct NameMap {
    alloc: Global,
    names: KeptList<Naming>,
}

impl Model for NameMap {
    ghost use Rattle.std.specs.Prelude.{List, map};
    ghost use Rattle.wasm_encoder_custom.specs.KeptNames.{naming};
    ghost use Rattle.wasm_encoder_custom.specs.NameMaps as maps;

    ghost Value = { List maps.Naming };

    ghost view = { λ m. map naming m.names };
}

impl NameMap {
    /// Creates a map without names.
    pub fn new(alloc: Global) -> NameMap
        ensures { result ≡ [] }
    {
        NameMap {
            alloc,
            names: KeptList::new(alloc),
        }
    }

    /// Checks that there are no names.
    #[tactic(auto, using(wasm_encoder_sections::proofs::ItemLists::nothing))]
    pub fn is_empty(&self) -> bool
        ensures { IsTrue result ↔ (self.now ≡ []) }
    {
        self.names.is_empty()
    }

    /// Adds a name of what has this index, which is above those of the names before it. The name is copied.
    ///
    /// # Errors
    /// `TooLong` exactly where there are 4,294,967,295 names, and else `Memory`. The map is then as it was.
    pub fn append(&mut self, index: u32, name: &str) -> Result<(), EncodeError>
        ensures added { IfOk result (λ _. self.new ≡ self.old ++ record { index = index; name = name.now } ∷ []) }
        ensures kept { IfErr result (λ _. self.new ≡ self.old) }
        ensures too_long { (result ≡ Err EncodeError.TooLong) ↔ (2 ^ 32 ≤ length self.old + 1) }
    {
        self.names.check_room()?;
        let name = Name::new(self.alloc, name)?;
        self.names.push(Naming { index, name })
    }
}

impl Encoding for NameMap {
    ghost encoding = { λ m. name_map_encoding m };

    #[tactic(auto, using(crate::proofs::NameLists::steps))]
    fn size(&self) -> Result<u64, EncodeError> {
        self.names.size()
    }

    #[tactic(auto, using(crate::proofs::NameLists::steps))]
    fn put(&self, sink: &mut Vec<u8>) {
        self.names.put(sink);
    }
}

impl Encode for NameMap {
    ghost encoding = { λ m. name_map_encoding m };

    ghost longest = { λ m. length (name_map_encoding m) };

    fn encode(&self, sink: &mut Vec<u8>) -> Result<(), EncodeError> {
        encode_alone(self, sink)
    }

    fn encoded_len(&self) -> Result<u64, EncodeError> {
        alone_len(self)
    }
}

// Names of what stands in what has an index, as the bytes of their map.
#[derive(Debug, Drop)]
struct IndirectNaming {
    index: u32,
    names: Vec<u8>,
}

impl Encoding for IndirectNaming {
    ghost encoding = { indirect_naming_bytes };

    #[tactic(auto, using(wasm_spec::proofs::ListEncodings::parts), unfolding(crate::specs::KeptNames::indirect_naming_bytes, crate::specs::NameMaps::indirect_naming_encoding))]
    fn size(&self) -> Result<u64, EncodeError> {
        add_sizes(
            len_u64(u64::from(self.index)) as u64,
            bytes_size(&self.names)?,
        )
    }

    #[tactic(auto, using(wasm_spec::proofs::ListEncodings::parts), unfolding(crate::specs::KeptNames::indirect_naming_bytes, crate::specs::NameMaps::indirect_naming_encoding))]
    fn put(&self, sink: &mut Vec<u8>) {
        put_u64(sink, u64::from(self.index));
        put_bytes(&self.names, sink);
    }
}

/// Names of what stands in what has an index, in the order in which they were added. Contracts see the list of them.
#[derive(Debug, Drop)]
pub struct IndirectNameMap {
    alloc: Global,
    names: KeptList<IndirectNaming>,
}

impl Model for IndirectNameMap {
    ghost use Rattle.std.specs.Prelude.{List, map};
    ghost use Rattle.wasm_encoder_custom.specs.KeptNames.{indirect_naming};
    ghost use Rattle.wasm_encoder_custom.specs.NameMaps as maps;

    ghost Value = { List maps.IndirectNaming };

    ghost view = { λ m. map indirect_naming m.names };
}

impl IndirectNameMap {
    /// Creates a map without names.
    pub fn new(alloc: Global) -> IndirectNameMap
        ensures { result ≡ [] }
    {
        IndirectNameMap {
            alloc,
            names: KeptList::new(alloc),
        }
    }

    /// Adds names of what stands in what has this index, which is above those of the names before it. They are copied.
    ///
    /// # Errors
    /// `TooLong` exactly where there are names of 4,294,967,295 things, or these have more bytes, and else `Memory`. The map
    /// is then as it was.
    pub fn append(&mut self, index: u32, names: &NameMap) -> Result<(), EncodeError>
        ensures added { IfOk result (λ _. self.new ≡ self.old ++ record { index = index; names = name_map_encoding names.now } ∷ []) }
        ensures kept { IfErr result (λ _. self.new ≡ self.old) }
        ensures too_long { (result ≡ Err EncodeError.TooLong) ↔ ((2 ^ 32 ≤ length self.old + 1) ⊎ (2 ^ 32 ≤ length (name_map_encoding names.now))) }
    {
        self.names.check_room()?;
        let names = written(self.alloc, names)?;
        self.names.push(IndirectNaming { index, names })
    }
}

impl Encoding for IndirectNameMap {
    ghost encoding = { λ m. indirect_name_map_encoding m };

    #[tactic(auto, using(crate::proofs::NameLists::steps))]
    fn size(&self) -> Result<u64, EncodeError> {
        self.names.size()
    }

    #[tactic(auto, using(crate::proofs::NameLists::steps))]
    fn put(&self, sink: &mut Vec<u8>) {
        self.names.put(sink);
    }
}

impl Encode for IndirectNameMap {
    ghost encoding = { λ m. indirect_name_map_encoding m };

    ghost longest = { λ m. length (indirect_name_map_encoding m) };

    fn encode(&self, sink: &mut Vec<u8>) -> Result<(), EncodeError> {
        encode_alone(self, sink)
    }

    fn encoded_len(&self) -> Result<u64, EncodeError> {
        alone_len(self)
    }
}
