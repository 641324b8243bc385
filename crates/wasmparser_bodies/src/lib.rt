//! A function body as it is read: operands, open blocks and locals, the resources of its module, and the verdict on its bytes: a part of `wasmparser`.
#![tactic(auto)]

pub mod body_validator;
pub mod frame;
pub mod laws;
pub mod locals;
pub mod module_resources;
pub mod operand;
pub mod read_body;
pub mod read_locals;
pub mod stacks;
mod tails;
