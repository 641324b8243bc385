//! State that a session keeps between modules.

use crate::kept_types::features_of_own_ids;
use std::alloc::Global;
use wasm_core::features::{Flags, WasmFeatures};
use wasm_gen::judge::ValidatorId;
use wasm_gen::session::Session;
use wasm_gen_rows::answers::{answers, refusal_of};
use wasm_gen_rows::modules::parts_of;
use wasm_gen_rows::new_session::{on_new_session, renew};
use wasm_test_rows::fields::{count_of_rows, four_fields, is_row};
use wasm_test_rows::values::bool_of;

/// Before a row the session is `new` or `restarted`, or goes `on`; then its input, the answer, and whether the session has failed.
pub const ROWS: &str = "
    // A failed session waits for a restart.
    new       | header                                  | yes       | no
    on        |                                         | Malformed | yes
    on        | header                                  | Failed    | yes
    on        | header                                  | Failed    | yes
    on        | header                                  | Failed    | yes
    restarted | header                                  | yes       | no
    // Another version, and one bit changed.
    new       | 00 61 73 6d 02 00 00 00                 | Malformed | yes
    on        | header                                  | Failed    | yes
    new       | 01 61 73 6d 01 00 00 00                 | Malformed | yes
    new       | 00 60 73 6d 01 00 00 00                 | Malformed | yes
    new       | 00 61 72 6d 01 00 00 00                 | Malformed | yes
    new       | 00 61 73 6c 01 00 00 00                 | Malformed | yes
    new       | 00 61 73 6d 00 00 00 00                 | Malformed | yes
    new       | 00 61 73 6d 01 01 00 00                 | Malformed | yes
    new       | 00 61 73 6d 01 00 01 00                 | Malformed | yes
    new       | 00 61 73 6d 01 00 00 01                 | Malformed | yes
    // A refused body leaves the session as it was.
    new       | header types functions 0a 04 01 02 00 0b                | yes           | no
    on        | header types functions code                             | yes           | no
    on        | header types functions 0a 03 01 01 00                   | Body          | no
    on        | header types functions code                             | yes           | no
    on        | header types functions 0a 07 01 05 00 fe 03 00 0b       | Operator      | no
    on        | header types functions code                             | yes           | no
    on        | header types functions 0a 09 01 07 01 d1 86 03 7f 00 0b | Limit(Locals) | no
    on        | header types functions code                             | yes           | no
    // Other refusals fail it.
    new       | header types functions                  | Malformed | yes
    on        | header                                  | Failed    | yes
    new       | header types 03 02 01 01 code           | Invalid   | yes
    on        | header                                  | Failed    | yes
    // A body that leaves a value over, and an operator of atomics.
    new       | header types functions 0a 06 01 04 00 41 00 0b      | Body     | no
    on        | header types functions 0a 07 01 05 00 fe 03 00 0b   | Operator | no
    on        | header types functions 0a 04 01 02 00 0b            | yes      | no
    // A type below a final one, also after a restart, and after a module of the lower type alone, open and without a supertype.
    new       | header 01 0a 02 60 00 00 50 01 00 60 00 00 | Invalid | yes
    on        | header 01 0a 02 60 00 00 50 01 00 60 00 00 | Failed  | yes
    restarted | header 01 0a 02 60 00 00 50 01 00 60 00 00 | Invalid | yes
    restarted | header 01 06 01 50 00 60 00 00             | yes     | no
    on        | header 01 0a 02 60 00 00 50 01 00 60 00 00 | Invalid | yes
    // A name that is exported twice.
    new       | header 05 03 01 00 01 07 09 02 01 61 02 00 01 61 02 00 | Invalid | yes
    on        | header                                                 | Failed  | yes
    restarted | header 05 03 01 00 01 07 09 02 01 61 02 00 01 62 02 00 | yes     | no
    // Another number of data segments than is stated.
    new       | header 05 03 01 00 01 0c 01 01 0b 03 01 01 00 | yes       | no
    on        | header 05 03 01 00 01 0c 01 02 0b 03 01 01 00 | Malformed | yes
    on        | header 05 03 01 00 01 0c 01 01 0b 03 01 01 00 | Failed    | yes
";

// The same of large modules.
const LARGE: &str = "
    // Names of 100,000 bytes, and of one more.
    new       | header 00 a3 8d 06 a0 8d 06 6e*100000   | yes         | no
    on        | header 00 a4 8d 06 a1 8d 06 6e*100001   | Limit(Name) | yes
    on        | header 00 a3 8d 06 a0 8d 06 6e*100000   | Failed      | yes
    // Two modules of 524,288 types each, all of them different, and then the first one of them alone.
    new       | header 01 8380a002 808020 6006@00*524288          | yes    | no
    on        | header 01 8380a002 808020 6006@00*524288..1048576 | yes    | no
    on        | header 01 0a 01 60 06 69 69 69 69 69 69 00   | Total  | yes
    on        | header                                       | Failed | yes
    // A group of 1,000,000 types, and one of as many as there is room for then: known groups find no room either.
    new       | header 01 85897a 01 4ec0843d 5f00*1000000 | yes   | no
    on        | header 01 85f705 01 4ec0fb02 5f00*48576   | yes   | no
    on        | header 01 85f705 01 4ec0fb02 5f00*48576   | Total | yes
";

// The same where each definition is a type of its own: there is room for 1,048,576.
const OWN_IDS: &str = "
    new       | header 01 c38db701 c0843d 600000*1000000 | yes    | no
    on        | header 01 c3f208 c0fb02 600000*48576     | yes    | no
    on        | header types                             | Total  | yes
    on        | header types                             | Failed | yes
    restarted | header types                             | yes    | no
    new       | header 01 838060 808020 600000*524288    | yes    | no
    on        | header 01 838060 808020 600000*524288    | yes    | no
    new       | header 01 868060 818020 600000*524289    | yes    | no
    on        | header 01 868060 818020 600000*524289    | Total  | yes
    on        | header 01 868060 818020 600000*524289    | Failed | yes
";

/// Readies the session for a row.
pub fn ready(alloc: Global, session: &mut Session, state: &str) -> Option<()> {
    match state {
        "new" => renew(alloc, session),
        "restarted" => session.restart(ValidatorId::new(7)),
        "on" => {}
        _ => return None,
    }
    Some(())
}

// Checks that a row holds.
fn holds(alloc: Global, session: &mut Session, row: &str) -> Option<bool> {
    let (state, input, expected, has_failed) = four_fields(row)?;
    let has_failed = bool_of(has_failed)?;
    ready(alloc, session, state)?;
    let bytes = parts_of(alloc, input)?;
    let is_answer = answers(alloc, session, &bytes, expected);
    Some(is_answer && session.has_failed() == has_failed)
}

// Counts the rows that hold, one after the other, before one that doesn't.
fn count_of_true_rows(alloc: Global, session: &mut Session, table: &str) -> usize {
    let mut count = 0usize;
    for row in table.lines() {
        if !is_row(row) {
            continue;
        }
        if holds(alloc, session, row) != Some(true) {
            return count;
        }
        count = count.saturating_add(1);
    }
    count
}

fn rows_hold(alloc: Global, session: &mut Session, table: &str) -> Option<bool> {
    Some(count_of_true_rows(alloc, session, table) == count_of_rows(table))
}

// Checks that a table has so many rows, and all hold of sessions with these features.
fn has_answers(alloc: Global, features: WasmFeatures, table: &str, count: usize) -> bool {
    let holds = on_new_session(alloc, features, table, rows_hold);
    count_of_rows(table) == count && holds == Some(true)
}

#[test]
fn session_goes_on_or_has_failed(rt: HostRuntime) {
    assert!(rt; has_answers(rt.alloc(), WasmFeatures::default(), ROWS, 42));
    assert!(rt; has_answers(rt.alloc(), WasmFeatures::default(), LARGE, 10));
    assert!(rt; has_answers(rt.alloc(), features_of_own_ids(), OWN_IDS, 10));
}

fn handed_features() -> WasmFeatures {
    WasmFeatures::GC.union(WasmFeatures::THREADS)
}

// Checks that the session has the features that it was handed, and the id of this number.
fn has(session: &Session, id: usize) -> bool {
    session.features() == handed_features() && session.id() == ValidatorId::new(id)
}

// Checks that it keeps them, also after a refusal and a restart.
fn keeps(alloc: Global, session: &mut Session, _row: &str) -> Option<bool> {
    let is_kept = has(session, 3) && answers(alloc, session, &[], "Malformed") && has(session, 3);
    session.restart(ValidatorId::new(4));
    Some(is_kept && has(session, 4))
}

#[test]
fn session_keeps_what_it_was_handed(rt: HostRuntime) {
    let is_kept = on_new_session(rt.alloc(), handed_features(), "", keeps);
    assert!(rt; is_kept == Some(true));
}

// Checks that a section that is cut is refused within the bytes.
fn is_refused_within(alloc: Global, session: &mut Session, cut: &str) -> Option<bool> {
    let bytes = parts_of(alloc, cut)?;
    match refusal_of(session, &bytes) {
        Some(error) => Some(error.offset <= 11),
        None => None,
    }
}

#[test]
fn refusal_stands_within_the_bytes(rt: HostRuntime) {
    let cut = "header 00 05 01";
    let is_within = on_new_session(rt.alloc(), WasmFeatures::default(), cut, is_refused_within);
    assert!(rt; is_within == Some(true));
}
