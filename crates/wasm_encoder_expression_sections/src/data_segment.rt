//! Data segments (Core Specification, Structure, Modules, "Data Segments").

use wasm_encoder_bodies::const_expr::ConstExpr;

/// When the bytes of a segment are used.
#[derive(Clone, Copy, Debug)]
pub enum DataSegmentMode<'a> {
    /// They are put into a memory as the module is instantiated.
    Active {
        /// The memory.
        memory_index: u32,
        /// The first place in the memory.
        offset: &'a ConstExpr,
    },
    /// They are put into memories by instructions.
    Passive,
}

/// A data segment.
#[derive(Clone, Copy, Debug)]
pub struct DataSegment<'a> {
    /// When its bytes are used.
    pub mode: DataSegmentMode<'a>,
    /// Its bytes.
    pub data: &'a [u8],
}
