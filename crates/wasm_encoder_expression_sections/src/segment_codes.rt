//! The codes that data and element segments begin with (Core Specification, Binary Format, Modules). The last is of element segments alone.

/// An active segment of table or memory 0.
pub const ACTIVE: u8 = 0x00;

/// A passive segment.
pub const PASSIVE: u8 = 0x01;

/// An active segment with the index of its table or memory.
pub const ACTIVE_WITH_INDEX: u8 = 0x02;

/// A declared segment.
pub const DECLARED: u8 = 0x03;
