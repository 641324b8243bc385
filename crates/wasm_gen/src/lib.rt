//! Modules made of seeds, seeds for lists of types and functions, sessions that validate modules, views of modules, configurations from texts, and the
//! program's commands over readers and writers, in one place. The parts are `wasm_gen_sessions`, `wasm_gen_view`, `wasm_gen_config` and `wasm_gen_program`.
#![tactic(auto)]

pub mod error;

pub use wasm_gen_config::{bad_key, config_error, read as config};
pub use wasm_gen_program::{
    check_inputs, config_file, device, explanation, report, run, status, transfer, verdict,
};
pub use wasm_gen_sessions::{generate, judge, laws, seed, session, smith};
pub use wasm_gen_view::{
    laws as view_laws, module_view, types as view_types, types_text, types_view, view,
};
