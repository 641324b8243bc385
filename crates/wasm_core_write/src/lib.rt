//! Writing the binary format: numbers, lists and frames, types, a module's bytes and the type section.
#![tactic(auto)]

pub mod encode;
pub mod encode_error;
pub mod encoding;
pub mod laws;
pub mod leb128;
pub mod module;
pub mod rec_group;
pub mod type_encodings;
pub mod type_section;
