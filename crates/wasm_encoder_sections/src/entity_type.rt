//! What is imported and exported: the types of memories, tables, globals and tags, and the kinds (Core Specification, Binary
//! Format, Types, "External Types").

ghost use Rattle.std.specs.Prelude.{◌≡◌, ◌≤◌, ◌<◌, ◌+◌, ◌^◌, ◌++◌, true, if◌then◌else◌, length, vec_len, vec_capacity};
ghost use Rattle.wasm_encoder_sections.specs.CoreItems.{limits, memory_type, table_type, memory_type_bytes, table_type_bytes, global_type_bytes, tag_type_bytes, entity_type, entity_type_bytes, export_kind, page_power};
ghost use Rattle.wasm_spec.specs.TypeGrammar.{kind_code};
ghost use Rattle.wasm_spec.specs.Types.{kind_of};

use crate::limits::Limits;
use wasm_core_types::types::{RefType, ValType};
use wasm_core_write::encode_error::EncodeError;
use wasm_core_write::encoding::{Encoding, add_sizes};
use wasm_core_write::leb128::{len_u64, put_u64};

/// The type of a memory.
#[derive(Clone, Copy, Debug, PartialEq, Eq)]
pub struct MemoryType {
    /// The size that it has at least, in pages.
    pub minimum: u64,
    /// The size that it has at most, in pages.
    pub maximum: Option<u64>,
    /// Whether its addresses have 64 bits, not 32.
    pub memory64: bool,
    /// Whether it is shared between threads.
    pub shared: bool,
    /// Which power of two a page's size is, where that is written. Else it is 16.
    pub page_size_log2: Option<u32>,
}

impl MemoryType {
    /// Returns which power of two a page's size is.
    pub fn page_size_log2(&self) -> u32
        ensures { result ≡ page_power self.now.page_size_log2 }
    {
        match self.page_size_log2 {
            Some(power) => power,
            None => 16,
        }
    }

    /// Returns the size of a page in bytes.
    pub fn page_size(&self) -> u32
        requires { page_power self.now.page_size_log2 < 32 }
        ensures { result ≡ 2 ^ page_power self.now.page_size_log2 }
    {
        1 << self.page_size_log2()
    }

    // Returns this as its limits.
    fn limits(&self) -> Limits
        ensures { limits result ≡ memory_type self.now }
    {
        Limits {
            minimum: self.minimum,
            maximum: self.maximum,
            is_64: self.memory64,
            shared: self.shared,
            page_size_log2: self.page_size_log2,
        }
    }
}

impl Encoding for MemoryType {
    ghost encoding = { memory_type_bytes };

    #[tactic(auto, unfolding(crate::specs::CoreItems::memory_type_bytes, crate::specs::CoreItems::limits_bytes))]
    fn size(&self) -> Result<u64, EncodeError> {
        self.limits().size()
    }

    #[tactic(auto, unfolding(crate::specs::CoreItems::memory_type_bytes, crate::specs::CoreItems::limits_bytes))]
    fn put(&self, sink: &mut Vec<u8>) {
        self.limits().put(sink);
    }
}

/// The type of a table.
#[derive(Clone, Copy, Debug, PartialEq, Eq)]
pub struct TableType {
    /// The type of its elements.
    pub element_type: RefType,
    /// Whether its indexes have 64 bits, not 32.
    pub table64: bool,
    /// The number of elements that it has at least.
    pub minimum: u64,
    /// The number of elements that it has at most.
    pub maximum: Option<u64>,
}

impl TableType {
    /// Returns the type of the indexes of its elements.
    pub fn index_type(&self) -> ValType
        ensures { result ≡ (if self.now.table64 then ValType.I64 else ValType.I32) }
    {
        if self.table64 {
            ValType::I64
        } else {
            ValType::I32
        }
    }

    // Returns its bounds.
    fn limits(&self) -> Limits
        ensures { limits result ≡ (table_type self.now).limits }
    {
        Limits {
            minimum: self.minimum,
            maximum: self.maximum,
            is_64: self.table64,
            shared: false,
            page_size_log2: None,
        }
    }
}

impl Encoding for TableType {
    ghost encoding = { table_type_bytes };

    #[tactic(auto, using(wasm_spec::proofs::ListEncodings::parts), unfolding(crate::specs::CoreItems::table_type_bytes, crate::specs::CoreItems::limits_bytes, crate::specs::ItemEncodings::table_type_encoding, wasm_core_write::specs::CoreEncodings::ref_type_encoding))]
    fn size(&self) -> Result<u64, EncodeError> {
        add_sizes(self.element_type.size()?, self.limits().size()?)
    }

    #[tactic(auto, using(wasm_spec::proofs::ListEncodings::parts), unfolding(crate::specs::CoreItems::table_type_bytes, crate::specs::CoreItems::limits_bytes, crate::specs::ItemEncodings::table_type_encoding, wasm_core_write::specs::CoreEncodings::ref_type_encoding))]
    fn put(&self, sink: &mut Vec<u8>) {
        self.element_type.put(sink);
        self.limits().put(sink);
    }
}

/// The type of a global.
#[derive(Clone, Copy, Debug, PartialEq, Eq)]
pub struct GlobalType {
    /// The type of its value.
    pub val_type: ValType,
    /// Whether it can be set.
    pub mutable: bool,
}

impl Encoding for GlobalType {
    ghost encoding = { global_type_bytes };

    #[tactic(auto, using(wasm_spec::proofs::ListEncodings::parts), unfolding(crate::specs::CoreItems::global_type_bytes, crate::specs::ItemEncodings::global_type_encoding, wasm_core_write::specs::CoreEncodings::val_type_encoding))]
    fn size(&self) -> Result<u64, EncodeError> {
        add_sizes(self.val_type.size()?, 1)
    }

    #[tactic(auto, using(wasm_spec::proofs::ListEncodings::parts), unfolding(crate::specs::CoreItems::global_type_bytes, crate::specs::ItemEncodings::global_type_encoding, wasm_core_write::specs::CoreEncodings::val_type_encoding))]
    fn put(&self, sink: &mut Vec<u8>) {
        self.val_type.put(sink);
        sink.push_reserved(u8::from(self.mutable));
    }
}

/// What a tag is for.
#[derive(Clone, Copy, Debug, PartialEq, Eq)]
pub enum TagKind {
    /// Exceptions.
    Exception,
}

/// The type of a tag.
#[derive(Clone, Copy, Debug, PartialEq, Eq)]
pub struct TagType {
    /// What it is for.
    pub kind: TagKind,
    /// The index of its function type.
    pub func_type_idx: u32,
}

const EXCEPTION: u8 = 0x00;

impl Encoding for TagType {
    ghost encoding = { tag_type_bytes };

    #[tactic(auto, unfolding(crate::specs::CoreItems::tag_type_bytes, crate::specs::ItemEncodings::tag_type_encoding))]
    fn size(&self) -> Result<u64, EncodeError> {
        Ok(1 + len_u64(u64::from(self.func_type_idx)) as u64)
    }

    #[tactic(auto, using(wasm_spec::proofs::ListEncodings::parts), unfolding(crate::specs::CoreItems::tag_type_bytes, crate::specs::ItemEncodings::tag_type_encoding))]
    fn put(&self, sink: &mut Vec<u8>) {
        sink.push_reserved(EXCEPTION);
        put_u64(sink, u64::from(self.func_type_idx));
    }
}

/// What is exported.
#[derive(Clone, Copy, Debug, PartialEq, Eq)]
pub enum ExportKind {
    /// A function.
    Func,
    /// A table.
    Table,
    /// A memory.
    Memory,
    /// A global.
    Global,
    /// A tag.
    Tag,
}

/// Returns the byte of a kind.
pub fn kind_byte(kind: ExportKind) -> u8
    ensures { result ≡ kind_code (export_kind kind) }
{
    match kind {
        ExportKind::Func => 0x00,
        ExportKind::Table => 0x01,
        ExportKind::Memory => 0x02,
        ExportKind::Global => 0x03,
        ExportKind::Tag => 0x04,
    }
}

/// What is imported.
#[derive(Clone, Copy, Debug, PartialEq, Eq)]
pub enum EntityType {
    /// A function, of the type of this index.
    Function(u32),
    /// A table.
    Table(TableType),
    /// A memory.
    Memory(MemoryType),
    /// A global.
    Global(GlobalType),
    /// A tag.
    Tag(TagType),
}

impl EntityType {
    // Returns the byte of its kind.
    fn kind(&self) -> u8
        ensures { result ≡ kind_code (kind_of (entity_type self.now)) }
    {
        match self {
            EntityType::Function(_) => 0x00,
            EntityType::Table(_) => 0x01,
            EntityType::Memory(_) => 0x02,
            EntityType::Global(_) => 0x03,
            EntityType::Tag(_) => 0x04,
        }
    }
}

impl From<TableType> for EntityType {
    ghost use Rattle.std.specs.Prelude.{◌≡◌};
    ghost use Rattle.wasm_encoder_sections.specs.declared.entity_type.EntityType.TheVariants as entities;

    ghost from_gives = { λ ty entity. entity ≡ entities.Table ty };

    fn from(ty: TableType) -> EntityType {
        EntityType::Table(ty)
    }
}

impl From<MemoryType> for EntityType {
    ghost use Rattle.std.specs.Prelude.{◌≡◌};
    ghost use Rattle.wasm_encoder_sections.specs.declared.entity_type.EntityType.TheVariants as entities;

    ghost from_gives = { λ ty entity. entity ≡ entities.Memory ty };

    fn from(ty: MemoryType) -> EntityType {
        EntityType::Memory(ty)
    }
}

impl From<GlobalType> for EntityType {
    ghost use Rattle.std.specs.Prelude.{◌≡◌};
    ghost use Rattle.wasm_encoder_sections.specs.declared.entity_type.EntityType.TheVariants as entities;

    ghost from_gives = { λ ty entity. entity ≡ entities.Global ty };

    fn from(ty: GlobalType) -> EntityType {
        EntityType::Global(ty)
    }
}

impl From<TagType> for EntityType {
    ghost use Rattle.std.specs.Prelude.{◌≡◌};
    ghost use Rattle.wasm_encoder_sections.specs.declared.entity_type.EntityType.TheVariants as entities;

    ghost from_gives = { λ ty entity. entity ≡ entities.Tag ty };

    fn from(ty: TagType) -> EntityType {
        EntityType::Tag(ty)
    }
}

impl Encoding for EntityType {
    ghost encoding = { entity_type_bytes };

    #[tactic(auto, using(wasm_spec::proofs::UnsignedEncodings::at_most_five), unfolding(crate::specs::CoreItems::entity_type_bytes, crate::specs::CoreItems::table_type_bytes, crate::specs::CoreItems::memory_type_bytes, crate::specs::CoreItems::global_type_bytes, crate::specs::CoreItems::tag_type_bytes, crate::specs::ItemEncodings::external_type_encoding, crate::specs::ItemEncodings::of_kind_encoding))]
    fn size(&self) -> Result<u64, EncodeError> {
        let size = match self {
            EntityType::Function(index) => index.size()?,
            EntityType::Table(ty) => ty.size()?,
            EntityType::Memory(ty) => ty.size()?,
            EntityType::Global(ty) => ty.size()?,
            EntityType::Tag(ty) => ty.size()?,
        };
        add_sizes(1, size)
    }

    #[tactic(auto, using(wasm_spec::proofs::ListEncodings::parts), unfolding(crate::specs::CoreItems::entity_type_bytes, crate::specs::CoreItems::table_type_bytes, crate::specs::CoreItems::memory_type_bytes, crate::specs::CoreItems::global_type_bytes, crate::specs::CoreItems::tag_type_bytes, crate::specs::ItemEncodings::external_type_encoding, crate::specs::ItemEncodings::of_kind_encoding))]
    fn put(&self, sink: &mut Vec<u8>) {
        sink.push_reserved(self.kind());
        match self {
            EntityType::Function(index) => index.put(sink),
            EntityType::Table(ty) => ty.put(sink),
            EntityType::Memory(ty) => ty.put(sink),
            EntityType::Global(ty) => ty.put(sink),
            EntityType::Tag(ty) => ty.put(sink),
        }
    }
}
