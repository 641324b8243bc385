//! Lists and sections of types where memory runs out: tests that `.ci/refusals` runs with each allocation refused in turn. A list or section that refuses is
//! as it was, and takes the same call again.

mod chains;
mod filled;
mod rec_group;
mod snapshot_list;
mod type_list;
mod type_section;
