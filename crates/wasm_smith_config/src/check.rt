//! Which configurations modules are made from.

ghost use Rattle.std.specs.Prelude.{◌≡◌, ◌++◌, map, OnOk, IfErr};
ghost use Rattle.wasm_smith_config.specs.Config as table;
ghost use Rattle.wasm_smith_config.specs.Fields.{field_of};

use crate::config::{Config, DEFAULT_MEMORY32_BYTES, DEFAULT_MEMORY64_BYTES};
use crate::error::Error;

// The largest maximum of a count.
const LARGEST_COUNT: u32 = 0x8000_0000;

// A field, and whether its value is not allowed.
#[derive(Clone, Copy)]
struct Field {
    name: &'static str,
    is_bad: bool,
}

impl Config {
    /// Checks that modules are made from this configuration.
    ///
    /// # Errors
    /// `BadConfig` alone, exactly where some field has a value that is not allowed. It names one such field; where there are several, any of them.
    pub fn check(&self) -> Result<(), Error>
        ensures good { OnOk result (table.IsGood self.now) }
        ensures bad { IfErr result (table.NamesBadField self.now) }
    {
        none_is_bad(&self.minimums())?;
        self.check_others()
    }

    // Checks all but the minimums.
    fn check_others(&self) -> Result<(), Error>
        ensures good { OnOk result (table.AreGood (table.maximums self.now ++ table.shapes self.now)) }
        ensures bad { IfErr result (table.NamesBad (table.maximums self.now ++ table.shapes self.now)) }
    {
        none_is_bad(&self.maximums())?;
        none_is_bad(&self.shapes())
    }

    // Returns each minimum.
    fn minimums(&self) -> [Field; 11]
        ensures { map field_of result ≡ table.minimums self.now }
    {
        [
            at_least("min_types", self.min_types, self.max_types),
            at_least("min_imports", self.min_imports, self.max_imports),
            at_least("min_tags", self.min_tags, self.max_tags),
            at_least("min_funcs", self.min_funcs, self.max_funcs),
            at_least("min_globals", self.min_globals, self.max_globals),
            at_least("min_exports", self.min_exports, self.max_exports),
            at_least(
                "min_element_segments",
                self.min_element_segments,
                self.max_element_segments,
            ),
            at_least("min_elements", self.min_elements, self.max_elements),
            at_least(
                "min_data_segments",
                self.min_data_segments,
                self.max_data_segments,
            ),
            at_least("min_tables", self.min_tables, self.max_tables),
            at_least("min_memories", self.min_memories, self.max_memories),
        ]
    }

    // Returns each maximum.
    fn maximums(&self) -> [Field; 15]
        ensures { map field_of result ≡ table.maximums self.now }
    {
        [
            at_most("max_types", LARGEST_COUNT, self.max_types),
            at_most("max_imports", LARGEST_COUNT, self.max_imports),
            at_most("max_tags", LARGEST_COUNT, self.max_tags),
            at_most("max_funcs", LARGEST_COUNT, self.max_funcs),
            at_most("max_globals", LARGEST_COUNT, self.max_globals),
            at_most("max_exports", LARGEST_COUNT, self.max_exports),
            at_most(
                "max_element_segments",
                LARGEST_COUNT,
                self.max_element_segments,
            ),
            at_most("max_elements", LARGEST_COUNT, self.max_elements),
            at_most("max_data_segments", LARGEST_COUNT, self.max_data_segments),
            at_most("max_tables", LARGEST_COUNT, self.max_tables),
            at_most("max_memories", LARGEST_COUNT, self.max_memories),
            at_most("max_instructions", LARGEST_COUNT, self.max_instructions),
            at_most("max_type_size", LARGEST_COUNT, self.max_type_size),
            Field {
                name: "max_memory32_bytes",
                is_bad: self.max_memory32_bytes > DEFAULT_MEMORY32_BYTES,
            },
            Field {
                name: "max_memory64_bytes",
                is_bad: self.max_memory64_bytes > DEFAULT_MEMORY64_BYTES,
            },
        ]
    }

    // Returns what is asked of the shapes: that of a whole module stands alone.
    fn shapes(&self) -> [Field; 1]
        ensures { map field_of result ≡ table.shapes self.now }
    {
        let has_other = self.available_imports.is_some() || self.exports.is_some();
        [Field {
            name: "module_shape",
            is_bad: self.module_shape.is_some() && has_other,
        }]
    }
}

fn at_least(name: &'static str, minimum: u32, maximum: u32) -> Field
    ensures { field_of result ≡ table.at_least name.now minimum maximum }
{
    Field {
        name,
        is_bad: minimum > maximum,
    }
}

fn at_most(name: &'static str, most: u32, value: u32) -> Field
    ensures { field_of result ≡ table.at_most name.now most value }
{
    Field {
        name,
        is_bad: value > most,
    }
}

// Names one of these fields that is bad.
fn none_is_bad(fields: &[Field]) -> Result<(), Error>
    ensures good { OnOk result (table.AreGood (map field_of fields.now)) }
    ensures bad { IfErr result (table.NamesBad (map field_of fields.now)) }
{
    match fields.iter().find(|field| field.is_bad) {
        Some(field) => Err(Error::BadConfig(field.name)),
        None => Ok(()),
    }
}
