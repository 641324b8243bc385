//! The tables of a module.

ghost use Rattle.std.specs.Prelude.{◌≡◌, ◌⊎◌, ◌+◌, ◌≤◌, ◌<◌, ◌||◌, true, false, nat_eq, [], length, map, Any, IfOk, IfErr};
ghost use Rattle.std.specs.List.{AllByRecursion};
ghost use Rattle.wasm_encoder_sections.specs.CoreItems.{table_type};
ghost use Rattle.wasm_spec.specs.Features.{Features, has, ReferenceTypes};
ghost use Rattle.wasm_smith_config.specs.Config.{AreFeaturesOf};
ghost use Rattle.wasm_smith_definitions.specs.Bounds.{IsBoundedTable};
ghost use Rattle.wasm_smith_definitions.specs.Offered.{AreOffersOf, HasFewTables, IsOfferedTable, most_elements_for};
ghost use Rattle.wasm_smith_definitions.specs.Items as items;
ghost use Rattle.wasm_smith_definitions.specs.Kinds.{of_table, wanted_tables};
ghost use Rattle.wasm_smith_definitions.specs.OwnItems.{HasFewOf, KeepsOwnTableType, initialiser_at};
ghost use Rattle.wasm_smith_definitions.specs.Steps.{Allows, IsGrown, IsStep};
ghost use Rattle.wasm_smith_unstructured.specs.Draws.{IsDrawn};
ghost use Rattle.wasm_smith_validity.specs.ValidGroups.{AllKeepTypeRules};

use crate::bounds::bounds_within;
use crate::constants::Constants;
use crate::index_spaces::IndexSpaces;
use crate::items::Table;
use crate::lists::push;
use crate::value_types::table_element;
use std::alloc::Global;
use wasm_core_types::types::ValType;
use wasm_encoder_sections::entity_type::{ExportKind, TableType};
use wasm_smith_config::config::Config;
use wasm_smith_config::error::Error;
use wasm_smith_types::growing::{bool_if, grows};
use wasm_smith_types::value_types::Offers;
use wasm_smith_unstructured::unstructured::Unstructured;

// Returns the most elements that the bounds of a table state.
fn most_elements(config: &Config, table64: bool) -> u64
    ensures { result ≡ most_elements_for config.now table64 }
{
    let most = config.max_table_elements;
    if table64 {
        return most;
    }
    most.min(u64::from(u32::MAX))
}

/// Draws the type of a table, where there are this many types. Its elements may be null.
pub fn table_type(
    unstructured: &mut Unstructured<'_>,
    config: &Config,
    offers: &Offers,
    type_count: u32,
) -> TableType
    requires { AreOffersOf config.now offers.now }
    ensures offered { IsOfferedTable config.now type_count (table_type result) }
    ensures taken { length unstructured.new ≤ length unstructured.old }
{
    let element_type = table_element(unstructured, config, offers, type_count);
    let table64 = bool_if(unstructured, config.memory64_enabled);
    let most = most_elements(config, table64);
    let bounds = bounds_within(unstructured, most, config.table_max_size_required);
    TableType {
        element_type,
        table64,
        minimum: bounds.minimum,
        maximum: bounds.maximum,
    }
}

// Draws a table.
fn table(
    alloc: Global,
    unstructured: &mut Unstructured<'_>,
    config: &Config,
    offers: &Offers,
    constants: &mut Constants,
    spaces: &IndexSpaces<'_>,
) -> Result<Table, Error>
    requires offers { AreOffersOf config.now offers.now }
    requires few { HasFewTables config.now }
    requires room { length spaces.now.tables < config.now.max_tables }
    requires rules { AllKeepTypeRules spaces.now.types }
    requires no_own_globals { spaces.now.own_globals ≡ [] }
    ensures allowed { IfOk result (λ table. Allows config.now spaces.now (of_table (items.table table))) }
    ensures bounded { IfOk result (λ table. IsBoundedTable config.now (items.table table)) }
    ensures taken { length unstructured.new ≤ length unstructured.old }
    ensures refused { IfErr result (λ e. e ≡ Error.Memory) }
{
    let ty = table_type(unstructured, config, offers, spaces.type_count());
    if bool_if(unstructured, config.gc_enabled) {
        let element_type = ValType::Ref(ty.element_type);
        let init = constants.draw(alloc, unstructured, config, spaces, element_type)?;
        return Ok(Table {
            ty,
            init: Some(init),
        });
    }
    Ok(Table { ty, init: None })
}

/// Draws the module's own tables, before its own globals.
///
/// # Errors
/// [`Memory`](Error::Memory) alone. Some of the source's bytes may be taken by then.
pub fn tables(
    alloc: Global,
    unstructured: &mut Unstructured<'_>,
    config: &Config,
    offers: &Offers,
    constants: &mut Constants,
    spaces: &mut IndexSpaces<'_>,
) -> Result<Vec<Table>, Error>
    requires offers { AreOffersOf config.now offers.now }
    requires few { HasFewTables config.now }
    requires ordered { config.now.min_tables ≤ config.now.max_tables }
    requires rules { AllKeepTypeRules spaces.old.types }
    requires no_own_globals { spaces.old.own_globals ≡ [] }
    ensures grown { IfOk result (λ v. IsGrown config.now (wanted_tables config.now) of_table (IsBoundedTable config.now) spaces.old unstructured.old spaces.new unstructured.new (map items.table v.items)) }
    ensures taken { length unstructured.new ≤ length unstructured.old }
    ensures refused { IfErr result (λ e. e ≡ Error.Memory) }
{
    let mut own = Vec::new(alloc);
    'grow: while grows(
        unstructured,
        spaces.count_of(ExportKind::Table),
        config.min_tables as usize,
        config.max_tables as usize,
    ) {
        let table = table(alloc, unstructured, config, offers, constants, spaces)?;
        spaces.push_table(table.ty)?;
        push(&mut own, table)?;
    }
    Ok(own)
}

// Draws an answer: true where a table has an initialiser. Elements that can't be null always have one.
fn is_initialised(unstructured: &mut Unstructured<'_>, config: &Config, nullable: bool) -> bool
    ensures exact { IsDrawn (λ b. b) result unstructured.new (initialiser_at config.now nullable unstructured.old) }
    ensures taken { length unstructured.new ≤ length unstructured.old }
{
    if !nullable {
        return true;
    }
    // A configuration in order has garbage collection only with reference types, without which no initialiser may be written.
    bool_if(
        unstructured,
        config.gc_enabled && config.reference_types_enabled,
    )
}

// Defines a table of a type.
fn shape_table(
    alloc: Global,
    unstructured: &mut Unstructured<'_>,
    config: &Config,
    constants: &mut Constants,
    spaces: &IndexSpaces<'_>,
    ty: TableType,
) -> Result<Table, Error>
    requires rules { AllKeepTypeRules spaces.now.types }
    requires no_own_globals { spaces.now.own_globals ≡ [] }
    requires kept { (features : Features) → AreFeaturesOf config.now features → KeepsOwnTableType features spaces.now.types (table_type ty) }
    requires few { (features : Features) → AreFeaturesOf config.now features → (nat_eq (length spaces.now.tables) 0 || has features ReferenceTypes) ≡ true }
    ensures allowed { IfOk result (λ table. Allows config.now spaces.now (of_table (items.table table))) }
    ensures typed { IfOk result (λ table. table_type table.ty ≡ table_type ty) }
    ensures taken { length unstructured.new ≤ length unstructured.old }
    ensures refused { IfErr result (λ e. (e ≡ Error.Memory) ⊎ ((e ≡ Error.EmptyChoose) × ((table_type ty).element_type.nullable ≡ false))) }
{
    if !is_initialised(unstructured, config, ty.element_type.nullable) {
        return Ok(Table { ty, init: None });
    }
    let element_type = ValType::Ref(ty.element_type);
    let init = constants.draw(alloc, unstructured, config, spaces, element_type)?;
    Ok(Table {
        ty,
        init: Some(init),
    })
}

/// Defines a table of each of these types, and draws its initialiser.
///
/// # Errors
/// [`EmptyChoose`](Error::EmptyChoose) only where the elements of some table can't be null, and [`Memory`](Error::Memory). Some of the source's bytes may be
/// taken by then.
pub fn shape_tables(
    alloc: Global,
    unstructured: &mut Unstructured<'_>,
    config: &Config,
    constants: &mut Constants,
    spaces: &mut IndexSpaces<'_>,
    types: &[TableType],
) -> Result<Vec<Table>, Error>
    requires rules { AllKeepTypeRules spaces.old.types }
    requires no_own_globals { spaces.old.own_globals ≡ [] }
    requires kept { (features : Features) → AreFeaturesOf config.now features → AllByRecursion (KeepsOwnTableType features spaces.old.types) (map table_type types.now) }
    requires few { (features : Features) → AreFeaturesOf config.now features → HasFewOf (has features ReferenceTypes) (length spaces.old.tables + length types.now) }
    ensures step { IfOk result (λ v. IsStep config.now of_table spaces.old spaces.new (map items.table v.items)) }
    ensures types { IfOk result (λ v. map (λ t. t.type) (map items.table v.items) ≡ map table_type types.now) }
    ensures unread { IfOk result (λ _. types.now ≡ [] → unstructured.new ≡ unstructured.old) }
    ensures taken { length unstructured.new ≤ length unstructured.old }
    ensures refused { IfErr result (λ e. (e ≡ Error.Memory) ⊎ ((e ≡ Error.EmptyChoose) × Any (λ t. t.element_type.nullable ≡ false) (map table_type types.now))) }
{
    let mut own = Vec::new(alloc);
    for ty in types {
        let table = shape_table(alloc, unstructured, config, constants, spaces, *ty)?;
        spaces.push_table(table.ty)?;
        push(&mut own, table)?;
    }
    Ok(own)
}
