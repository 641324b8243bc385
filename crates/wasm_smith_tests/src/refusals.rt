//! The generator where memory runs out: tests that `.ci/refusals` runs with each allocation refused in turn. A module, seed or name that wasn't made
//! is made the next time, and a shape is answered.

mod module;
mod names;
mod shaped;
mod shapes;
mod views;
mod witness;
