//! Sessions, lines and reports, modules of the encoder, and configurations from texts where memory runs out: tests that `.ci/refusals` runs with each allocation
//! refused in turn. A session has failed, and is as good as new after `restart`; an input at which memory ran out is a fault, and the next one follows; a module
//! that wasn't made is made the next time, and a text that wasn't read is read.

mod config_files;
mod encoded_bytes;
mod inputs;
mod kept_types;
mod rows;
mod sessions;
mod texts;
