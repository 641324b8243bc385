//! Validators of bodies, and states of modules, where memory runs out: tests that `.ci/refusals` runs with each allocation refused in turn. One that refuses
//! is as it was, and takes the same call again. For the validator of a body this holds where an operator is tried; after another call it has failed, and a new
//! one in its room accepts the body.

mod bodies;
mod from_bytes;
mod locals;
mod module_state;
mod one_local;
mod stacks;
