//! Judging the payloads of a module.

ghost use Rattle.std.specs.Prelude.{◌≡◌, false, true};
ghost use Rattle.wasmparser_payloads.specs.EntryReading.{export_entry_at, import_entry_at};
ghost use Rattle.wasmparser_module_state.specs.History.{grows, held};
ghost use Rattle.wasmparser_module_state.specs.Judging.{AddsEntries};
ghost use Rattle.wasmparser_module_state.specs.State.{context, features_of};
ghost use Rattle.wasmparser_payloads.specs.Parsing.{piece};
ghost use Rattle.wasmparser_payloads.specs.Pieces.{Tags};
ghost use Rattle.wasmparser_validator.specs.PieceJudging.{AddsPiece, RefusesAt, has_groups};

use std::alloc::Global;
use wasmparser_entries::imports::Imports;
use wasmparser_error::error::{Error, ErrorKind};
use wasmparser_module_state::entry::{Entry, add_entries};
use wasmparser_module_state::module_state::ModuleState;
use wasmparser_payloads::payload::Payload;
use wasmparser_readers::export::Export;
use wasmparser_readers::from_reader::FromReader;
use wasmparser_readers::section_limited::SectionLimited;
use wasmparser_readers::tag_type::TagType;

// Refuses a section of an id that the format doesn't have, whose content starts here.
fn refuse_unknown(start: u64) -> Result<(), Error>
    ensures { RefusesAt start result }
{
    Err(Error {
        offset: start,
        kind: ErrorKind::Malformed,
    })
}

// Adds the items of a section, which is cloned.
fn add_section<'a, T: FromReader<'a> + Entry>(
    alloc: Global,
    state: &mut ModuleState,
    section: &SectionLimited<'a, T>,
) -> Result<(), Error>
    requires grows { grows state.old ≡ true }
    ensures added { AddsEntries (features_of state.old) T.entry_at T.TakesMemory (context state.old) (held state.old) section.now.left result (context state.new) (held state.new) }
    ensures features { features_of state.new ≡ features_of state.old }
    ensures types { T.adds_types ≡ false → state.new.types ≡ state.old.types }
    ensures grows { grows state.new ≡ true }
{
    add_entries(alloc, state, section.clone()?)
}

// Adds a tag section, whose feature is checked even where it is empty.
#[tactic(auto, using(crate::proofs::PieceLaws::tag_steps))]
fn add_tags<'a>(
    alloc: Global,
    state: &mut ModuleState,
    section: &SectionLimited<'a, TagType>,
) -> Result<(), Error>
    requires grows { grows state.old ≡ true }
    ensures added { AddsPiece (features_of state.old) (context state.old) (held state.old) (Tags section.now) result (context state.new) (held state.new) }
    ensures features { features_of state.new ≡ features_of state.old }
    ensures types { state.new.types ≡ state.old.types }
    ensures grows { grows state.new ≡ true }
{
    state.tag_section(section.range().start)?;
    add_section(alloc, state, section)
}

fn add_imports<'a>(
    alloc: Global,
    state: &mut ModuleState,
    section: &SectionLimited<'a, Imports<'a>>,
) -> Result<(), Error>
    requires grows { grows state.old ≡ true }
    ensures added { AddsEntries (features_of state.old) import_entry_at ⊥ (context state.old) (held state.old) section.now.left result (context state.new) (held state.new) }
    ensures features { features_of state.new ≡ features_of state.old }
    ensures types { state.new.types ≡ state.old.types }
    ensures grows { grows state.new ≡ true }
{
    state.start_imports(section);
    add_section(alloc, state, section)
}

fn add_exports<'a>(
    alloc: Global,
    state: &mut ModuleState,
    section: &SectionLimited<'a, Export<'a>>,
) -> Result<(), Error>
    requires grows { grows state.old ≡ true }
    ensures added { AddsEntries (features_of state.old) export_entry_at ⊥ (context state.old) (held state.old) section.now.left result (context state.new) (held state.new) }
    ensures features { features_of state.new ≡ features_of state.old }
    ensures types { state.new.types ≡ state.old.types }
    ensures grows { grows state.new ≡ true }
{
    state.start_exports(section);
    add_section(alloc, state, section)
}

/// Validates a payload, and adds its entries. The bodies of functions aren't read, and no counts are compared.
///
/// # Errors
/// `Malformed` where items don't read or the section is unknown, `Invalid` where a rule is broken, `Limit` where one is passed, `Total` where the list of types has no
/// room for a group, `Memory` where memory runs out, each at a place of the payload. Then it is open what the state holds.
#[tactic(auto, using(crate::proofs::PieceLaws::piece_steps), unfolding(wasmparser_payloads::specs::Parsing::piece, crate::specs::PieceJudging::has_groups))]
pub fn add_payload<'a>(
    alloc: Global,
    state: &mut ModuleState,
    payload: &Payload<'a>,
) -> Result<(), Error>
    requires grows { grows state.old ≡ true }
    ensures added { AddsPiece (features_of state.old) (context state.old) (held state.old) (piece payload.now) result (context state.new) (held state.new) }
    ensures features { features_of state.new ≡ features_of state.old }
    ensures types { has_groups (piece payload.now) ≡ false → state.new.types ≡ state.old.types }
    ensures grows { grows state.new ≡ true }
{
    match payload {
        Payload::Version { .. } | Payload::CodeSectionStart { .. } | Payload::End(_) => Ok(()),
        Payload::TypeSection(section) => add_section(alloc, state, section),
        Payload::ImportSection(section) => add_imports(alloc, state, section),
        Payload::FunctionSection(section) => add_section(alloc, state, section),
        Payload::TableSection(section) => add_section(alloc, state, section),
        Payload::MemorySection(section) => add_section(alloc, state, section),
        Payload::TagSection(section) => add_tags(alloc, state, section),
        Payload::GlobalSection(section) => add_section(alloc, state, section),
        Payload::ExportSection(section) => add_exports(alloc, state, section),
        Payload::StartSection { func, range } => state.start_section(*func, range.start),
        Payload::ElementSection(section) => add_section(alloc, state, section),
        Payload::DataCountSection { count, range } => state.data_count_section(*count, range.start),
        Payload::CodeSectionEntry(body) => {
            state.code_section_entry(body.as_bytes(), body.range().start)
        }
        Payload::DataSection(section) => add_section(alloc, state, section),
        Payload::CustomSection(section) => {
            state.custom_section(section.name(), section.range().start)
        }
        Payload::UnknownSection { range, .. } => refuse_unknown(range.start),
    }
}
