//! Validity by index: the rules that made modules keep, over plain lists, a type being its index; subtyping by index; and laws that lead from these rules
//! to the specification's.
#![tactic(auto)]

pub mod group_laws;
pub mod laws;
pub mod module_laws;
pub mod subtyping;
