//! The generator where memory runs out: tests that `.ci/refusals` runs with each allocation refused in turn. What wasn't made or found is made or found the
//! next time.

mod generated;
mod runs;
mod seeds;
