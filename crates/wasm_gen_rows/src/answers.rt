//! Refusals of a session, without what it gives otherwise.

ghost use Rattle.std.specs.Prelude.{◌≡◌, IsSomeAnd, true};
ghost use Rattle.wasmparser_error.specs.declared.error.ErrorKind.TheVariants.{Failed};

use std::alloc::Global;
use wasm_core::features::WasmFeatures;
use wasm_gen::judge::{Error, ValidatorId};
use wasm_gen::session::Session;
use wasm_test_rows::fields::has_word;

/// Returns the session's refusal, or none where the answer is a yes.
pub fn refusal_of(session: &mut Session, bytes: &[u8]) -> Option<Error>
    ensures failed { session.old.has_failed ≡ true → IsSomeAnd result (λ e. e.kind ≡ Failed) }
    ensures stays { session.old.has_failed ≡ true → session.new ≡ session.old }
    ensures features { session.new.features ≡ session.old.features }
    ensures id { session.new.id ≡ session.old.id }
{
    let verdict = session.check(bytes);
    let refusal = match &verdict {
        Ok(_) => None,
        Err(e) => Some(*e),
    };
    // (dropped by a call, which is cheaper to prove)
    drop(verdict);
    refusal
}

/// Checks that the session gives an answer of the field: `yes`, or the kind of a refusal as `Debug` writes it.
pub fn answers(alloc: Global, session: &mut Session, bytes: &[u8], expected: &str) -> bool {
    match refusal_of(session, bytes) {
        None => has_word(expected, "yes"),
        Some(e) => match format!(in alloc; "{:?}", e.kind) {
            Ok(found) => has_word(expected, found.as_str()),
            Err(_) => false,
        },
    }
}

// Answers after which a session goes on.
const GOES_ON: [&str; 4] = ["yes", "Body", "Operator", "Limit(Locals)"];

// Checks that a session has failed after an answer of the field, or goes on.
fn has_failed_after(expected: &str) -> bool {
    for answer in GOES_ON {
        if has_word(expected, answer) {
            return false;
        }
    }
    true
}

/// Checks that a new session with these features gives the answer, and has failed or goes on as it is to after this one.
pub fn answers_under(alloc: Global, features: WasmFeatures, bytes: &[u8], expected: &str) -> bool {
    let mut session = Session::new(alloc, features, ValidatorId::new(0));
    let is_answer = answers(alloc, &mut session, bytes, expected);
    let has_failed = session.has_failed();
    drop(session);
    is_answer && has_failed == has_failed_after(expected)
}
