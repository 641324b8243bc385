//! Rows of tests about sessions: the bytes of modules, and what sessions answer on them. Who owns a session, or what one gives, proves how each of its parts
//! is let go of, so the tests leave that to these calls.
#![tactic(auto)]

pub mod answers;
pub mod modules;
pub mod new_session;
