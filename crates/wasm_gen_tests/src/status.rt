//! The status of a run.

use wasm_gen::status::Outcome::{Fault, No, Refused, Yes};
use wasm_gen::status::{Outcome, status_of};

// Outcomes of runs, each with the status of all together.
const ROWS: &[(&[Outcome], u8)] = &[
    (&[], 0),
    (&[Yes], 0),
    (&[Yes, Yes, Yes], 0),
    (&[Yes, No], 1),
    (&[Refused, Yes], 1),
    (&[No, Refused], 1),
    (&[Fault], 2),
    (&[Fault, No, Refused, Yes], 2),
    (&[Yes, Refused, No, Fault], 2),
];

#[test]
fn status_is_that_of_the_worst_outcome(rt: HostRuntime) {
    for (outcomes, status) in ROWS {
        assert!(rt; status_of(outcomes) == *status);
    }
}
