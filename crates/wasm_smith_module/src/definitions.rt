//! The tables, memories and globals that a module defines.

ghost use Rattle.std.specs.Prelude.{◌≡◌, ◌≤◌, ◌+◌, [], IfOk, IfErr, map, length, true};
ghost use Rattle.std.specs.List.{AllByRecursion};
ghost use Rattle.wasm_encoder_sections.specs.CoreItems.{memory_type};
ghost use Rattle.wasm_smith_config.specs.Config.{AreFeaturesOf, IsGood};
ghost use Rattle.wasm_smith_definitions.specs.Bounds.{IsBoundedTable};
ghost use Rattle.wasm_smith_definitions.specs.Kinds.{AnyBound, of_global, of_memory, of_table, wanted_globals, wanted_memories, wanted_tables};
ghost use Rattle.wasm_smith_definitions.specs.Offered.{AreOffersOf, HasFewTables, IsOfferedMemory};
ghost use Rattle.wasm_smith_definitions.specs.Items.{global, table};
ghost use Rattle.wasm_smith_definitions.specs.OwnItems.{HasFewOf};
ghost use Rattle.wasm_smith_definitions.specs.Steps.{IsFilled};
ghost use Rattle.wasm_smith_module.specs.Asked.{OwnKeep, own_of};
ghost use Rattle.wasm_smith_module.specs.Building.{AreDefinitions, IsEnd, type_of_global, type_of_memory, type_of_table};
ghost use Rattle.wasm_smith_validity.specs.Spaces.{is_value};
ghost use Rattle.wasm_smith_validity.specs.ValidGroups.{AllKeepTypeRules};
ghost use Rattle.wasm_spec.specs.Features.{Features, MultiMemory, has};
ghost use Rattle.wasm_validity.specs.TypeRules.{is_memory_type};

use crate::choices::joined;
use std::alloc;
use wasm_encoder_sections::entity_type::MemoryType;
use wasm_smith_config::config::Config;
use wasm_smith_config::error::Error;
use wasm_smith_definitions::constants::Constants;
use wasm_smith_definitions::globals::{globals, shape_globals};
use wasm_smith_definitions::index_spaces::IndexSpaces;
use wasm_smith_definitions::items::{Global, Table};
use wasm_smith_definitions::memories::{memories, shape_memories};
use wasm_smith_definitions::own_items::OwnItems;
use wasm_smith_definitions::tables::{shape_tables, tables};
use wasm_smith_types::value_types::Offers;
use wasm_smith_unstructured::unstructured::Unstructured;

/// The tables, memories and globals that a module defines.
#[derive(Debug, Drop)]
pub struct Definitions {
    /// The tables.
    pub tables: Vec<Table>,
    /// The memories.
    pub memories: Vec<MemoryType>,
    /// The globals.
    pub globals: Vec<Global>,
}

// Makes the tables that are asked for, and draws others.
fn draw_tables(
    alloc: alloc::Global,
    unstructured: &mut Unstructured<'_>,
    config: &Config,
    offers: &Offers,
    own: &OwnItems,
    constants: &mut Constants,
    spaces: &mut IndexSpaces<'_>,
) -> Result<Vec<Table>, Error>
    requires good { IsGood config.now }
    requires few { HasFewTables config.now }
    requires offers { AreOffersOf config.now offers.now }
    requires rules { AllKeepTypeRules spaces.old.types }
    requires no_own_globals { spaces.old.own_globals ≡ [] }
    requires own { own.now ≡ own_of config.now spaces.old.types }
    requires kept { OwnKeep config.now spaces.old own.now }
    ensures filled { IfOk result (λ v. IsFilled config.now (wanted_tables config.now) of_table (IsBoundedTable config.now) type_of_table own.now.tables spaces.old unstructured.old spaces.new unstructured.new (map table v.items)) }
    ensures taken { length unstructured.new ≤ length unstructured.old }
    ensures ended { IfErr result (IsEnd config.now) }
{
    let asked = shape_tables(alloc, unstructured, config, constants, spaces, own.tables())?;
    let drawn = tables(alloc, unstructured, config, offers, constants, spaces)?;
    let all = joined(asked, &drawn)?;
    Ok(all)
}

// Makes the memories that are asked for, and draws others.
fn draw_memories(
    alloc: alloc::Global,
    unstructured: &mut Unstructured<'_>,
    config: &Config,
    own: &OwnItems,
    spaces: &mut IndexSpaces<'_>,
) -> Result<Vec<MemoryType>, Error>
    requires good { IsGood config.now }
    requires kept { (features : Features) → AreFeaturesOf config.now features → AllByRecursion (λ type. is_memory_type features type ≡ true) own.now.memories }
    requires few { (features : Features) → AreFeaturesOf config.now features → HasFewOf (has features MultiMemory) (length spaces.old.memories + length own.now.memories) }
    ensures filled { IfOk result (λ v. IsFilled config.now (wanted_memories config.now) of_memory (IsOfferedMemory config.now) type_of_memory own.now.memories spaces.old unstructured.old spaces.new unstructured.new (map memory_type v.items)) }
    ensures taken { length unstructured.new ≤ length unstructured.old }
    ensures ended { IfErr result (IsEnd config.now) }
{
    let asked = shape_memories(alloc, spaces, own.memories())?;
    let drawn = memories(alloc, unstructured, config, spaces)?;
    let all = joined(asked, &drawn)?;
    Ok(all)
}

// Makes the globals that are asked for, and draws others.
fn draw_globals(
    alloc: alloc::Global,
    unstructured: &mut Unstructured<'_>,
    config: &Config,
    offers: &Offers,
    own: &OwnItems,
    constants: &mut Constants,
    spaces: &mut IndexSpaces<'_>,
) -> Result<Vec<Global>, Error>
    requires good { IsGood config.now }
    requires offers { AreOffersOf config.now offers.now }
    requires rules { AllKeepTypeRules spaces.old.types }
    requires own { own.now ≡ own_of config.now spaces.old.types }
    requires kept { (features : Features) → AreFeaturesOf config.now features → AllByRecursion (λ type. is_value features spaces.old.types type.value_type ≡ true) own.now.globals }
    ensures filled { IfOk result (λ v. IsFilled config.now (wanted_globals config.now) of_global (AnyBound config.now) type_of_global own.now.globals spaces.old unstructured.old spaces.new unstructured.new (map global v.items)) }
    ensures taken { length unstructured.new ≤ length unstructured.old }
    ensures ended { IfErr result (IsEnd config.now) }
{
    let asked = shape_globals(
        alloc,
        unstructured,
        config,
        constants,
        spaces,
        own.globals(),
    )?;
    let drawn = globals(alloc, unstructured, config, offers, constants, spaces)?;
    let all = joined(asked, &drawn)?;
    Ok(all)
}

/// Makes tables, then memories, then globals, of each kind first those that are asked for.
///
/// # Errors
/// [`Error::EmptyChoose`] where a table or a global that is asked for has references that can't be null, and there is no constant of its type, and
/// [`Error::Memory`]. Some of the source's bytes may be taken by then.
pub fn draw_definitions(
    alloc: alloc::Global,
    unstructured: &mut Unstructured<'_>,
    config: &Config,
    offers: &Offers,
    own: &OwnItems,
    constants: &mut Constants,
    spaces: &mut IndexSpaces<'_>,
) -> Result<Definitions, Error>
    requires good { IsGood config.now }
    requires few { HasFewTables config.now }
    requires offers { AreOffersOf config.now offers.now }
    requires rules { AllKeepTypeRules spaces.old.types }
    requires no_own_globals { spaces.old.own_globals ≡ [] }
    requires own { own.now ≡ own_of config.now spaces.old.types }
    requires kept { OwnKeep config.now spaces.old own.now }
    ensures drawn { IfOk result (λ it. AreDefinitions config.now own.now spaces.old unstructured.old spaces.new unstructured.new (map table it.tables.items) (map memory_type it.memories.items) (map global it.globals.items)) }
    ensures taken { length unstructured.new ≤ length unstructured.old }
    ensures ended { IfErr result (IsEnd config.now) }
{
    let tables = draw_tables(alloc, unstructured, config, offers, own, constants, spaces)?;
    let memories = draw_memories(alloc, unstructured, config, own, spaces)?;
    let globals = draw_globals(alloc, unstructured, config, offers, own, constants, spaces)?;
    Ok(Definitions {
        tables,
        memories,
        globals,
    })
}
