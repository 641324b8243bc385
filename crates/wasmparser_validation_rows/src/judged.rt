//! Sections in words, and what they are answered by a state.

use std::alloc::Global;
use std::marker::Model;
use wasm_core_read::binary_reader::BinaryReader;
use wasm_core_types::features::WasmFeatures;
use wasm_test_rows::fields::word_and_rest;
use wasm_test_rows::values::{bytes_of, number_of};
use wasmparser_entries::data::Data;
use wasmparser_entries::element::Element;
use wasmparser_entries::global as globals;
use wasmparser_entries::imports::Imports;
use wasmparser_entries::table::Table;
use wasmparser_error::error::Error;
use wasmparser_module_state::entry::{Entry, add_entries};
use wasmparser_module_state::module_state::ModuleState;
use wasmparser_readers::export::Export;
use wasmparser_readers::from_reader::FromReader;
use wasmparser_readers::memory_type::MemoryType;
use wasmparser_readers::section_limited::SectionLimited;
use wasmparser_readers::tag_type::TagType;
use wasmparser_readers::type_ref::TypeRef;
use wasmparser_types::sub_type::RecGroup;

/// The place of each section's content.
pub const OFFSET: u64 = 1_000;

/// A state to whose list groups can be added, which is all that its calls ask of their callers.
#[derive(Drop)]
pub struct JudgedState {
    state: ModuleState,
}

impl Model for JudgedState {
    ghost use Rattle.std.specs.Prelude.{◌≡◌, true};
    ghost use Rattle.wasmparser_module_state.specs.History.{grows};
    ghost use Rattle.wasmparser_module_state.specs.contracts.module_state.ModuleState as kept;
    ghost use Rattle.wasmparser_module_state.specs.declared.module_state.ModuleState.{ModuleState};

    ghost Value = { ModuleState };

    ghost coded = { kept.the_row.coded };

    ghost view = { λ it. it.state };

    ghost invariant = { λ it. grows it.state ≡ true };
}

impl JudgedState {
    /// Creates a new state.
    pub fn new(alloc: Global, features: WasmFeatures) -> JudgedState {
        JudgedState {
            state: ModuleState::new(alloc, features),
        }
    }

    /// Returns the state.
    pub fn known(&self) -> &ModuleState {
        &self.state
    }

    /// Checks that a row holds of a copy for bodies; none where memory runs out.
    pub fn on_copy<F: Fn(&ModuleState, &str) -> Option<bool>>(
        &mut self,
        row: &str,
        holds: F,
    ) -> Option<bool>
        requires { F.IsAlwaysCallable holds }
    {
        let copied = self.state.copy_resources();
        let found = match &copied {
            Ok(copy) => holds(copy, row),
            Err(_) => None,
        };
        drop(copied);
        found
    }

    fn add<'a, T: FromReader<'a> + Entry>(
        &mut self,
        alloc: Global,
        content: &'a [u8],
    ) -> Result<(), Error> {
        let mut reader = BinaryReader::new(content, OFFSET);
        reader.set_features(self.state.features());
        let section: SectionLimited<'a, T> = SectionLimited::new(reader)?;
        add_entries(alloc, &mut self.state, section)
    }

    fn state_data_count(&mut self, count: u32) -> Result<(), Error> {
        self.state.data_count_section(count, OFFSET)
    }

    fn import(&mut self, alloc: Global, reader: &mut BinaryReader<'_>) -> Result<(), Error> {
        let offset = reader.original_position();
        match TypeRef::from_reader(alloc, reader) {
            Ok(ty) => self.state.import_item(&ty, offset),
            Err(error) => Err(error),
        }
    }
}

/// Checks that a row holds of a new state. Who owns a state proves how each of its parts is let go of, so the tests leave that to this call.
pub fn on_new_state<F: Fn(Global, &mut JudgedState, &str) -> Option<bool>>(
    alloc: Global,
    features: WasmFeatures,
    row: &str,
    holds: F,
) -> Option<bool>
    requires { F.IsAlwaysCallable holds }
{
    let mut state = JudgedState::new(alloc, features);
    let found = holds(alloc, &mut state, row);
    drop(state);
    found
}

// Adds imported items without their names, one after the other.
fn imports(alloc: Global, state: &mut JudgedState, content: &[u8]) -> Result<(), Error> {
    let mut reader = BinaryReader::new(content, OFFSET);
    for _ in 0..content.len() {
        if reader.eof() {
            break;
        }
        state.import(alloc, &mut reader)?;
    }
    Ok(())
}

// Judges a custom section from its name on.
fn custom(state: &ModuleState, content: &[u8]) -> Result<(), Error> {
    let mut reader = BinaryReader::new(content, OFFSET);
    let name = reader.read_string()?;
    state.custom_section(name, OFFSET)
}

fn index_of(field: &str) -> Option<u32> {
    u32::try_from(number_of(field)?).ok()
}

fn answer_bytes(
    alloc: Global,
    state: &mut JudgedState,
    name: &str,
    content: &[u8],
) -> Option<Result<(), Error>> {
    match name {
        "types" => Some(state.add::<RecGroup>(alloc, content)),
        "imports" => Some(imports(alloc, state, content)),
        "import_entries" => Some(state.add::<Imports<'_>>(alloc, content)),
        "functions" => Some(state.add::<u32>(alloc, content)),
        "memories" => Some(state.add::<MemoryType>(alloc, content)),
        "tables" => Some(state.add::<Table<'_>>(alloc, content)),
        "tags" => Some(state.add::<TagType>(alloc, content)),
        "globals" => Some(state.add::<globals::Global<'_>>(alloc, content)),
        "exports" => Some(state.add::<Export<'_>>(alloc, content)),
        "elements" => Some(state.add::<Element<'_>>(alloc, content)),
        "data" => Some(state.add::<Data<'_>>(alloc, content)),
        "body" => Some(state.known().code_section_entry(content, OFFSET)),
        "custom" => Some(custom(state.known(), content)),
        _ => None,
    }
}

/// Returns the answer to a section, which is its name and its content; none where there is no such section.
pub fn answer(alloc: Global, state: &mut JudgedState, section: &str) -> Option<Result<(), Error>> {
    let (name, content) = word_and_rest(section);
    match name {
        "tag_section" => Some(state.known().tag_section(OFFSET)),
        "data_count" => Some(state.state_data_count(index_of(content)?)),
        "start" => Some(state.known().start_section(index_of(content)?, OFFSET)),
        _ => {
            let bytes = bytes_of(alloc, content)?;
            answer_bytes(alloc, state, name, &bytes)
        }
    }
}

/// Checks that all sections are accepted, with `;` between them; none where there is no such section.
pub fn are_accepted(alloc: Global, state: &mut JudgedState, sections: &str) -> Option<bool> {
    for section in sections.split_terminator(';') {
        if answer(alloc, state, section)?.is_err() {
            return Some(false);
        }
    }
    Some(true)
}
