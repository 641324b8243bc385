//! Faults, as the program reports them on standard error.

ghost use Rattle.std.specs.Prelude.{◌≡◌};

use wasm_gen::config_error::ConfigError;
use wasm_gen::error::{GenerateError, RunError};
use wasm_gen::status::{Outcome, status_of};

/// Tells why a run gives no answer, and gives the status of a fault.
pub fn tell<R: Eprint>(rt: &R, e: RunError) -> u8
    ensures { result ≡ 2 }
{
    let _ = eprintln!(rt; "wasm_gen: {e}");
    status_of(&[Outcome::Fault])
}

/// Does the same for a file that can't be read, or whose run has a fault.
pub fn tell_of_file<R: Eprint>(rt: &R, e: RunError, name: &str) -> u8
    ensures { result ≡ 2 }
{
    let _ = match e {
        RunError::Read => eprintln!(rt; "wasm_gen: {e} {}", shown(name)),
        _ => eprintln!(rt; "wasm_gen: {e}"),
    };
    status_of(&[Outcome::Fault])
}

/// Tells where the error of a file stands that was refused.
pub fn tell_explanation<R: Eprint>(rt: &R, text: &str, name: &str) {
    let _ = eprintln!(rt; "wasm_gen: {}: {text}", shown(name));
}

// Returns a name as it is shown: one that isn't UTF-8 ends with a NUL.
fn shown(name: &str) -> &str {
    name.strip_suffix('\0').unwrap_or(name)
}

/// Tells why no module is made, and gives the status of a refusal.
pub fn tell_refusal<R: Eprint>(rt: &R, e: GenerateError) -> u8
    ensures { result ≡ 1 }
{
    let _ = eprintln!(rt; "wasm_gen: {e}");
    status_of(&[Outcome::Refused])
}

/// Tells that a configuration is bad, and what is wrong with it where that is asked for, and gives the status of a fault.
pub fn tell_of_config<R: Eprint>(rt: &R, cause: &ConfigError, explain: bool) -> u8
    ensures { result ≡ 2 }
{
    let _ = eprintln!(rt; "wasm_gen: bad configuration");
    if explain {
        // A cause in the text ends its line.
        let _ = match cause {
            ConfigError::Text(_) => eprint!(rt; "{cause}"),
            _ => eprintln!(rt; "{cause}"),
        };
    }
    status_of(&[Outcome::Fault])
}

/// Tells what is wrong with the words of the command line, by a whole text, and gives the status of a fault.
pub fn tell_of_words<R: Eprint>(rt: &R, text: &str) -> u8
    ensures { result ≡ 2 }
{
    match eprint!(rt; "{text}") {
        Ok(()) => status_of(&[Outcome::Fault]),
        Err(_) => tell(rt, RunError::Write),
    }
}
