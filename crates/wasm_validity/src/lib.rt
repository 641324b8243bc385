//! Valid modules: the rules and limits on what sections say, entry by entry, and the contexts that bodies are typed in.
//!
//! Everything that this crate says stands in `specs/`.
#![tactic(auto)]
