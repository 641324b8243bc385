//! Validators where memory runs out: tests that `.ci/refusals` runs with each allocation refused in turn. One that refuses has failed, and a new one gives the
//! answers.

mod calls;
mod imports;
mod payloads;
mod rows;
