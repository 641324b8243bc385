//! Exports, the start function, and segments.

ghost use Rattle.std.specs.Prelude.{◌≡◌, ◌≤◌, ◌<◌, ◌^◌, [], IfOk, IfErr, false, length, map, ◌+◌};
ghost use Rattle.wasm_smith_config.specs.Config.{IsGood};
ghost use Rattle.wasm_smith_definitions.specs.Offered.{AreOffersOf};
ghost use Rattle.wasm_smith_definitions.specs.Items.{data_segment, element_segment};
ghost use Rattle.wasm_smith_definitions.specs.Kinds.{of_export};
ghost use Rattle.wasm_smith_definitions.specs.Steps.{IsStep, TablesKeep};
ghost use Rattle.wasm_smith_externs.specs.ShapeExports.{StandFrom, count_in};
ghost use Rattle.wasm_smith_module.specs.Asked.{HasGoodShapes, asked_items, has_non_null};
ghost use Rattle.wasm_smith_module.specs.Data.{total_size};
ghost use Rattle.wasm_smith_module.specs.Elements.{AreNullable};
ghost use Rattle.wasm_smith_validity.specs.ValidGroups.{AllKeepTypeRules};
ghost use Rattle.wasm_smith_validity.specs.Spaces.{functions_of};
ghost use Rattle.wasm_smith_module.specs.Building.{AreExportsFrom, AreUses, IsEnd};
ghost use Rattle.wasm_smith_module.specs.TrueToShapes.{AreTypesOf};
ghost use Rattle.wasm_smith_types.specs.Given.{export_shape};
ghost use Rattle.wasm_spec.specs.Types.{ExternalKind};

use crate::data_segments::data_segments;
use crate::element_segments::element_segments;
use std::alloc::Global;
use wasm_smith_config::config::Config;
use wasm_smith_config::error::Error;
use wasm_smith_definitions::constants::Constants;
use wasm_smith_definitions::index_spaces::IndexSpaces;
use wasm_smith_definitions::segments::{DataSegment, ElementSegment};
use wasm_smith_externs::exports::exports;
use wasm_smith_externs::shape_exports::{KindCounts, shape_exports};
use wasm_smith_externs::start::start;
use wasm_smith_types::value_types::Offers;
use wasm_smith_unstructured::unstructured::Unstructured;

/// The uses that a module makes of its items. Its exports are kept by the index spaces.
#[derive(Debug, Drop)]
pub struct Uses {
    /// The function that the module starts with.
    pub start: Option<u32>,
    /// The element segments.
    pub elems: Vec<ElementSegment>,
    /// The data segments.
    pub data_segments: Vec<DataSegment>,
}

// Exports what a shape exports, and else draws exports, or exports everything.
fn make_exports(
    alloc: Global,
    unstructured: &mut Unstructured<'_>,
    config: &Config,
    imports_size: usize,
    imported: KindCounts,
    spaces: &mut IndexSpaces<'_>,
) -> Result<(), Error>
    requires good { IsGood config.now }
    requires shapes { HasGoodShapes config.now }
    requires types { AreTypesOf config.now spaces.old.types }
    requires first { spaces.old.exports ≡ [] }
    requires few_functions { length (functions_of spaces.old) < 2 ^ 32 }
    requires few_tags { length spaces.old.tags < 2 ^ 32 }
    requires few_exports { (kind : ExternalKind) → count_in imported kind + 2 ^ 29 < 2 ^ 32 }
    requires standing { StandFrom spaces.old imported (asked_items config.now (length spaces.old.types)) }
    ensures step { IfOk result (λ _. IsStep config.now of_export spaces.old spaces.new spaces.new.exports) }
    ensures made { IfOk result (λ _. AreExportsFrom (export_shape config.now) config.now imports_size imported spaces.old unstructured.old spaces.new unstructured.new) }
    ensures taken { length unstructured.new ≤ length unstructured.old }
    ensures ended { IfErr result (IsEnd config.now) }
{
    if let Some(shape) = &config.module_shape {
        shape_exports(&shape.exports, imported, spaces)?;
        return Ok(());
    }
    if let Some(shape) = &config.exports {
        shape_exports(&shape.exports, imported, spaces)?;
        return Ok(());
    }
    exports(alloc, unstructured, config, imports_size, spaces)
}

/// Makes exports, then draws the start function, then element segments and data segments.
///
/// # Errors
/// [`Error::IncorrectFormat`] where exports or segments are owed that can't be made, [`Error::EmptyChoose`] where the elements of a shape's table can't be null and
/// there is no constant of their type, [`Error::TypeSize`] where everything is exported and its types are too large, and [`Error::Memory`]. Some of the source's bytes may be taken by then.
pub fn draw_uses(
    alloc: Global,
    unstructured: &mut Unstructured<'_>,
    config: &Config,
    offers: &Offers,
    imports_size: usize,
    imported: KindCounts,
    constants: &mut Constants,
    spaces: &mut IndexSpaces<'_>,
) -> Result<Uses, Error>
    requires good { IsGood config.now }
    requires shapes { HasGoodShapes config.now }
    requires types { AreTypesOf config.now spaces.old.types }
    requires offers { AreOffersOf config.now offers.now }
    requires rules { AllKeepTypeRules spaces.old.types }
    requires first { spaces.old.exports ≡ [] }
    requires few_functions { length (functions_of spaces.old) < 2 ^ 32 }
    requires few_tags { length spaces.old.tags < 2 ^ 32 }
    requires tables { TablesKeep config.now spaces.old }
    requires nullable { has_non_null config.now ≡ false → AreNullable spaces.old.tables }
    requires few_exports { (kind : ExternalKind) → count_in imported kind + 2 ^ 29 < 2 ^ 32 }
    requires standing { StandFrom spaces.old imported (asked_items config.now (length spaces.old.types)) }
    ensures drawn { IfOk result (λ it. AreUses config.now imports_size imported spaces.old unstructured.old spaces.new unstructured.new it.start (map element_segment it.elems.items) (map data_segment it.data_segments.items)) }
    ensures within { IfOk result (λ it. total_size (map data_segment it.data_segments.items) + length unstructured.new ≤ length unstructured.old) }
    ensures taken { length unstructured.new ≤ length unstructured.old }
    ensures ended { IfErr result (IsEnd config.now) }
{
    make_exports(alloc, unstructured, config, imports_size, imported, spaces)?;
    let start = start(alloc, unstructured, config, spaces)?;
    let elems = element_segments(alloc, unstructured, config, offers, constants, spaces)?;
    let data_segments = data_segments(alloc, unstructured, config, constants, spaces)?;
    Ok(Uses {
        start,
        elems,
        data_segments,
    })
}
