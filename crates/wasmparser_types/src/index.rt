//! How types refer to defined types.

use std::marker::Model;

/// The number of a defined type in a validator's list of types, where equal types are one.
#[derive(Clone, Copy, Debug, PartialEq, Eq, PartialOrd, Ord, Hash)]
pub struct CoreTypeId {
    index: u32,
}

impl Model for CoreTypeId {
    ghost use Rattle.std.specs.Prelude.{ℕ};

    ghost Value = { ℕ };

    ghost view = { λ id. id.index };

    ghost inverse = { λ n. record { index = n } };
}

impl CoreTypeId {
    ghost use Rattle.std.specs.Prelude.{◌≡◌};

    /// The id with this number.
    pub fn from_index(index: u32) -> CoreTypeId
        ensures { result ≡ index }
    {
        CoreTypeId { index }
    }

    /// The number.
    pub fn index(&self) -> usize
        ensures { result ≡ self.now }
    {
        self.index as usize
    }
}

/// The number of a recursive group in a validator's list of groups, where equal groups are one.
#[derive(Clone, Copy, Debug, PartialEq, Eq, PartialOrd, Ord, Hash)]
pub struct RecGroupId {
    index: u32,
}

impl Model for RecGroupId {
    ghost use Rattle.std.specs.Prelude.{ℕ};

    ghost Value = { ℕ };

    ghost view = { λ id. id.index };

    ghost inverse = { λ n. record { index = n } };
}

impl RecGroupId {
    ghost use Rattle.std.specs.Prelude.{◌≡◌};

    /// The id with this number.
    pub fn from_index(index: u32) -> RecGroupId
        ensures { result ≡ index }
    {
        RecGroupId { index }
    }

    /// The number.
    pub fn index(&self) -> usize
        ensures { result ≡ self.now }
    {
        self.index as usize
    }
}

/// How a type refers to a defined type.
#[derive(Clone, Copy, Debug, PartialEq, Eq, Hash)]
pub enum UnpackedIndex {
    /// The type index in a module.
    Module(u32),
    /// The place in the recursive group that the reference stands in.
    RecGroup(u32),
    /// The id that a validator gave the type.
    Id(CoreTypeId),
}

impl UnpackedIndex {
    ghost use Rattle.std.specs.Prelude.{◌≡◌, ◌<◌, is_some};
    ghost use Rattle.std.specs.Option.{SomeIff};
    ghost use Rattle.wasmparser_types.specs.Index.{number_of, packable, module_index, rec_group_index, core_type_id};
    ghost use Rattle.wasmparser_types.specs.UnpackedIndex as spec;

    /// This index in 22 bits, or None where its number is 2^20 or more.
    pub fn pack(&self) -> Option<PackedIndex>
        ensures { SomeIff result (number_of (spec.index self.now) < packable) (spec.index self.now) }
    {
        match self {
            UnpackedIndex::Module(index) => PackedIndex::from_module_index(*index),
            UnpackedIndex::RecGroup(index) => PackedIndex::from_rec_group_index(*index),
            UnpackedIndex::Id(id) => PackedIndex::from_id(*id),
        }
    }

    /// Checks that this is a type index in a module.
    pub fn is_module_index(&self) -> bool
        ensures { result ≡ is_some (module_index (spec.index self.now)) }
    {
        self.as_module_index().is_some()
    }

    /// Checks that this is a place in a recursive group.
    pub fn is_rec_group_index(&self) -> bool
        ensures { result ≡ is_some (rec_group_index (spec.index self.now)) }
    {
        self.as_rec_group_index().is_some()
    }

    /// Checks that this is an id.
    pub fn is_core_type_id(&self) -> bool
        ensures { result ≡ is_some (core_type_id (spec.index self.now)) }
    {
        self.as_core_type_id().is_some()
    }

    /// The type index in a module, if this is one.
    pub fn as_module_index(&self) -> Option<u32>
        ensures { result ≡ module_index (spec.index self.now) }
    {
        match self {
            UnpackedIndex::Module(index) => Some(*index),
            _ => None,
        }
    }

    /// The place in a recursive group, if this is one.
    pub fn as_rec_group_index(&self) -> Option<u32>
        ensures { result ≡ rec_group_index (spec.index self.now) }
    {
        match self {
            UnpackedIndex::RecGroup(index) => Some(*index),
            _ => None,
        }
    }

    /// The id, if this is one.
    pub fn as_core_type_id(&self) -> Option<CoreTypeId>
        ensures { result ≡ core_type_id (spec.index self.now) }
    {
        match self {
            UnpackedIndex::Id(id) => Some(*id),
            _ => None,
        }
    }
}

/// An index in 22 bits: 20 of its number, and the lowest 2 of its kind.
#[derive(Clone, Copy, Debug, PartialEq, Eq, Hash)]
pub struct PackedIndex {
    // The kind in the lowest 2 bits, and the number above them.
    bits: u32,
}

impl Model for PackedIndex {
    ghost use Rattle.std.proofs.Common.{ap};
    ghost use Rattle.wasmparser_types.specs.Index.{Index, IsPacked, packed, unpacked, packed-unpacked};

    ghost Value = { Index };

    ghost view = { λ index. unpacked index.bits };

    ghost invariant = { λ index. IsPacked index.bits };

    ghost inverse = { λ index. record { bits = packed index } };

    ghost inverse_ok = { λ index is. ap (λ bits. record { bits = bits }) (packed-unpacked index.bits is.kind) };
}

// Numbers below this one are packed.
const PACKABLE: u32 = 1 << 20;

// A number is packed as its multiple of this, and its kind.
const KINDS: u32 = 4;

const MODULE: u32 = 0;

const REC_GROUP: u32 = 1;

const ID: u32 = 2;

impl PackedIndex {
    ghost use Rattle.std.specs.Prelude.{◌≡◌, ◌<◌, is_some};
    ghost use Rattle.std.specs.Option.{SomeIff};
    ghost use Rattle.wasmparser_types.specs.Index.{Module, RecGroup, Id, IsPacked, packable, packed, unpacked, module_index, rec_group_index, core_type_id};
    ghost use Rattle.wasmparser_types.specs.UnpackedIndex as spec;

    /// The type index in a module, packed, or None where it is 2^20 or more.
    pub fn from_module_index(index: u32) -> Option<PackedIndex>
        ensures { SomeIff result (index < packable) (Module index) }
    {
        if index < PACKABLE {
            Some(PackedIndex {
                bits: KINDS * index + MODULE,
            })
        } else {
            None
        }
    }

    /// The place in a recursive group, packed, or None where it is 2^20 or more.
    pub fn from_rec_group_index(index: u32) -> Option<PackedIndex>
        ensures { SomeIff result (index < packable) (RecGroup index) }
    {
        if index < PACKABLE {
            Some(PackedIndex {
                bits: KINDS * index + REC_GROUP,
            })
        } else {
            None
        }
    }

    /// The id, packed, or None where its number is 2^20 or more.
    pub fn from_id(id: CoreTypeId) -> Option<PackedIndex>
        ensures { SomeIff result (id < packable) (Id id) }
    {
        if id.index < PACKABLE {
            Some(PackedIndex {
                bits: KINDS * id.index + ID,
            })
        } else {
            None
        }
    }

    /// The index that is packed.
    pub fn unpack(&self) -> UnpackedIndex
        ensures { spec.index result ≡ self.now }
    {
        let index = self.bits / KINDS;
        match self.bits % KINDS {
            MODULE => UnpackedIndex::Module(index),
            REC_GROUP => UnpackedIndex::RecGroup(index),
            _ => UnpackedIndex::Id(CoreTypeId::from_index(index)),
        }
    }

    /// The number that it is packed to, which no other index has: below 2^22.
    pub fn bits(self) -> u32
        ensures value { result ≡ packed self }
        ensures packed { IsPacked result }
    {
        self.bits
    }

    // The index with these bits.
    pub(crate) fn from_bits(bits: u32) -> PackedIndex
        requires { IsPacked bits }
        ensures { result ≡ unpacked bits }
    {
        PackedIndex { bits }
    }

    /// Checks that this is a type index in a module.
    pub fn is_module_index(&self) -> bool
        ensures { result ≡ is_some (module_index self.now) }
    {
        self.unpack().is_module_index()
    }

    /// Checks that this is a place in a recursive group.
    pub fn is_rec_group_index(&self) -> bool
        ensures { result ≡ is_some (rec_group_index self.now) }
    {
        self.unpack().is_rec_group_index()
    }

    /// Checks that this is an id.
    pub fn is_core_type_id(&self) -> bool
        ensures { result ≡ is_some (core_type_id self.now) }
    {
        self.unpack().is_core_type_id()
    }

    /// The type index in a module, if this is one.
    pub fn as_module_index(&self) -> Option<u32>
        ensures { result ≡ module_index self.now }
    {
        self.unpack().as_module_index()
    }

    /// The place in a recursive group, if this is one.
    pub fn as_rec_group_index(&self) -> Option<u32>
        ensures { result ≡ rec_group_index self.now }
    {
        self.unpack().as_rec_group_index()
    }

    /// The id, if this is one.
    pub fn as_core_type_id(&self) -> Option<CoreTypeId>
        ensures { result ≡ core_type_id self.now }
    {
        self.unpack().as_core_type_id()
    }
}
