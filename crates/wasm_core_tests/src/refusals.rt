//! Writers where memory runs out: tests that `.ci/refusals` runs with each allocation refused in turn. What refuses is as it was, and takes the same
//! call again.

mod module;
mod numbers;
mod type_section;
