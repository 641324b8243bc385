//! Types as the parser and the validator have them: indexes and references to defined types are packed into a few bits.
#![tactic(auto)]

pub mod composite_type;
pub mod heap_type;
pub mod index;
pub mod laws;
pub mod ref_type;
pub mod remap;
pub mod sub_type;
pub mod val_type;
