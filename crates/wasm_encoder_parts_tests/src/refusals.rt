//! The encoder where memory runs out: tests that `.ci/refusals` runs with each allocation refused in turn. What refuses is as it was, and takes
//! the same call again.

mod calls;
mod custom;
mod entries;
mod expressions;
mod indexes;
mod instructions;
mod names;
mod refused;
mod sections;
mod worked;
