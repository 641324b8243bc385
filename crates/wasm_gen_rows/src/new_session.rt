//! Sessions that are made for a row, and what they show of modules.

ghost use Rattle.std.specs.Prelude.{◌≡◌, [], false};

use std::alloc::Global;
use std::mem;
use wasm_core::features::WasmFeatures;
use wasm_gen::judge::{Error, TypesRef, ValidatorId};
use wasm_gen::session::Session;

/// Checks a row with a new session with these features, whose first validator has the id 3.
pub fn on_new_session<F: Fn(Global, &mut Session, &str) -> Option<bool>>(
    alloc: Global,
    features: WasmFeatures,
    row: &str,
    holds: F,
) -> Option<bool>
    requires { F.IsAlwaysCallable holds }
{
    let mut session = Session::new(alloc, features, ValidatorId::new(3));
    let found = holds(alloc, &mut session, row);
    drop(session);
    found
}

/// Puts a new session with the same features in the place of this one.
pub fn renew(alloc: Global, session: &mut Session)
    ensures { session.new ≡ record { features = session.old.features; id = 3; has_failed = false; held = [] } }
{
    let next = Session::new(alloc, session.features(), ValidatorId::new(3));
    drop(mem::replace(session, next));
}

/// Checks that a row holds of what a session shows of a module, or why the module is refused.
pub fn on_types<F: Fn(Global, TypesRef<'_>, &str) -> bool>(
    alloc: Global,
    session: &mut Session,
    bytes: &[u8],
    row: &str,
    holds: F,
) -> Result<bool, Error>
    requires { F.IsAlwaysCallable holds }
{
    let verdict = session.check(bytes);
    let found = match &verdict {
        Ok(types) => Ok(holds(alloc, types.as_ref(), row)),
        Err(e) => Err(*e),
    };
    drop(verdict);
    found
}

/// Does the same for a row that also depends on what the modules before have left.
pub fn on_types_after<S, F: Fn(&mut S, TypesRef<'_>, &str) -> bool>(
    session: &mut Session,
    bytes: &[u8],
    left: &mut S,
    row: &str,
    holds: F,
) -> Result<bool, Error>
    requires { F.IsAlwaysCallable holds }
{
    let verdict = session.check(bytes);
    let found = match &verdict {
        Ok(types) => Ok(holds(left, types.as_ref(), row)),
        Err(e) => Err(*e),
    };
    drop(verdict);
    found
}

/// Checks that something holds of what a session shows of two modules, which it checks one after the other.
pub fn on_types_of_both<F: Fn(TypesRef<'_>, TypesRef<'_>) -> bool>(
    session: &mut Session,
    first: &[u8],
    second: &[u8],
    holds: F,
) -> bool
    requires { F.IsAlwaysCallable holds }
{
    let first = session.check(first);
    let second = session.check(second);
    let found = match (&first, &second) {
        (Ok(first), Ok(second)) => holds(first.as_ref(), second.as_ref()),
        _ => false,
    };
    drop(first);
    drop(second);
    found
}
