//! All items of a module after its types.

ghost use Rattle.std.specs.Prelude.{◌≤◌, ◌+◌, ◌^◌, IfOk, IfErr, length, map};
ghost use Rattle.wasm_core_types.specs.SubTypes.{sub_type};
ghost use Rattle.wasm_smith_config.specs.Config.{IsGood};
ghost use Rattle.wasm_smith_definitions.specs.Offered.{AreOffersOf, HasFewTables};
ghost use Rattle.wasm_smith_module.specs.Asked.{HasGoodShapes};
ghost use Rattle.wasm_smith_module.specs.Data.{total_size};
ghost use Rattle.wasm_smith_validity.specs.ValidGroups.{AllKeepTypeRules};
ghost use Rattle.wasm_smith_module.specs.Building.{AreItems, IsEnd};
ghost use Rattle.wasm_smith_module.specs.Items.{drawn_items};
ghost use Rattle.wasm_smith_module.specs.TrueToShapes.{AreTypesOf};

use crate::definitions::{Definitions, draw_definitions};
use crate::front::{Front, draw_front};
use crate::own_items::own_items;
use crate::uses::{Uses, draw_uses};
use std::alloc::Global;
use wasm_core_types::types::SubType;
use wasm_smith_config::config::Config;
use wasm_smith_config::error::Error;
use wasm_smith_definitions::constants::Constants;
use wasm_smith_definitions::index_spaces::IndexSpaces;
use wasm_smith_definitions::items::Export;
use wasm_smith_externs::import_sizes::imports_size;
use wasm_smith_externs::names::DuplicateImportsBehavior;
use wasm_smith_types::value_types::Offers;
use wasm_smith_unstructured::unstructured::Unstructured;

/// All items of a module after its types.
#[derive(Debug, Drop)]
pub struct Items {
    /// Imports, tags and functions.
    pub front: Front,
    /// Tables, memories and globals.
    pub definitions: Definitions,
    /// The start function and segments.
    pub uses: Uses,
    /// The exports.
    pub exports: Vec<Export>,
}

/// Makes all items of a module that has these types: those of shapes, and others that are drawn.
///
/// # Errors
/// [`Error::IncorrectFormat`] where items are owed that can't be made, [`Error::EmptyChoose`] where a shape has a table or a global of references that
/// can't be null and there is no constant of its type, [`Error::TypeSize`] where everything is exported and its types are too large, and [`Error::Memory`]. Some of the source's bytes may be taken by then.
pub fn draw_items(
    alloc: Global,
    unstructured: &mut Unstructured<'_>,
    config: &Config,
    duplicates: DuplicateImportsBehavior,
    offers: &Offers,
    types: &[SubType],
) -> Result<Items, Error>
    requires good { IsGood config.now }
    requires shapes { HasGoodShapes config.now }
    requires tables { HasFewTables config.now }
    requires offers { AreOffersOf config.now offers.now }
    requires few { length types.now ≤ 2 ^ 31 }
    requires rules { AllKeepTypeRules (map sub_type types.now) }
    requires types { AreTypesOf config.now (map sub_type types.now) }
    ensures drawn { IfOk result (λ items. AreItems config.now duplicates (map sub_type types.now) unstructured.old unstructured.new (drawn_items items)) }
    ensures within { IfOk result (λ items. total_size (drawn_items items).data_segments + length unstructured.new ≤ length unstructured.old) }
    ensures taken { length unstructured.new ≤ length unstructured.old }
    ensures ended { IfErr result (IsEnd config.now) }
{
    let own = own_items(alloc, config, types)?;
    let mut spaces = IndexSpaces::new(alloc, types);
    let mut constants = Constants::new(alloc);
    let front = draw_front(alloc, unstructured, config, duplicates, &own, &mut spaces)?;
    let definitions = draw_definitions(
        alloc,
        unstructured,
        config,
        offers,
        &own,
        &mut constants,
        &mut spaces,
    )?;
    let size = imports_size(types, &front.imports);
    let uses = draw_uses(
        alloc,
        unstructured,
        config,
        offers,
        size,
        front.imported,
        &mut constants,
        &mut spaces,
    )?;
    Ok(Items {
        front,
        definitions,
        uses,
        exports: spaces.into_exports(),
    })
}
