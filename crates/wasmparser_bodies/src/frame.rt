//! Open blocks.

use wasmparser_operators::immediates::BlockType;

/// The kind of a block, by the operator that opened it.
#[derive(Clone, Copy, Debug, PartialEq, Eq)]
pub enum FrameKind {
    /// A `block`, or the body itself.
    Block,
    /// A `loop`.
    Loop,
    /// An `if`, as long as its first list goes on.
    If,
    /// An `if` whose second list goes on.
    Else,
}

/// An open block.
#[derive(Clone, Copy, Debug, PartialEq, Eq)]
pub struct Frame {
    /// Its kind.
    pub kind: FrameKind,
    /// Its type: the operands that it takes and the results that it gives. A value type has ids.
    pub block_type: BlockType,
    /// Number of operands below its list.
    pub height: usize,
    /// `true` if the code that follows is never reached.
    pub unreachable: bool,
    // Number of locals that were assigned before it.
    pub(crate) init_height: usize,
}
