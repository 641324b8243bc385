//! Tests of sessions and reports on worked modules and on modules that the encoder makes, and of configurations from texts, through public calls alone.
#![tactic(auto)]

#[cfg(test)]
mod config_files;
#[cfg(test)]
mod custom_sections;
#[cfg(test)]
mod cuts;
#[cfg(test)]
mod data_segments;
#[cfg(test)]
mod elements;
#[cfg(test)]
mod encode_memory;
#[cfg(test)]
mod encoded_bytes;
#[cfg(test)]
mod encoded_modules;
#[cfg(test)]
mod explanations;
#[cfg(test)]
mod exported_names;
#[cfg(test)]
mod exports;
#[cfg(test)]
mod function_limits;
#[cfg(test)]
mod functions;
#[cfg(test)]
mod generate_for_host;
#[cfg(test)]
mod globals;
#[cfg(test)]
mod import_groups;
#[cfg(test)]
mod kept_reports;
#[cfg(test)]
mod kept_types;
#[cfg(test)]
mod lines;
#[cfg(test)]
mod many_groups;
#[cfg(test)]
mod other_limits;
#[cfg(test)]
mod other_sections;
#[cfg(test)]
mod readme;
#[cfg(test)]
mod refusals;
#[cfg(test)]
mod reports;
#[cfg(test)]
mod rows;
#[cfg(test)]
mod sessions;
#[cfg(test)]
mod tables;
#[cfg(test)]
mod types;
#[cfg(test)]
mod value_types;
#[cfg(test)]
mod views;
