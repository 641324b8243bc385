//! The imports of a module: those of a shape, or drawn ones.

ghost use Rattle.std.specs.Prelude.{◌≡◌, ◌<◌, ◌≤◌, ◌^◌, IfOk, IfErr, length, map};
ghost use Rattle.wasm_smith_config.specs.Config.{IsGood};
ghost use Rattle.wasm_smith_definitions.specs.Kinds.{count_of};
ghost use Rattle.wasm_smith_definitions.specs.Offered.{HasFewTables};
ghost use Rattle.wasm_smith_module.specs.Asked.{HasGoodShapes, own_of};
ghost use Rattle.wasm_smith_module.specs.Building.{AreImports, IsEnd};
ghost use Rattle.wasm_smith_module.specs.TrueToShapes.{AreTypesOf};
ghost use Rattle.wasm_smith_shapes.specs.Imports.{import_entry};
ghost use Rattle.wasm_smith_validity.specs.Spaces.{spaces_of_types};
ghost use Rattle.wasm_spec.specs.Types.{ExternalKind};

use std::alloc::Global;
use wasm_smith_config::config::Config;
use wasm_smith_config::error::Error;
use wasm_smith_definitions::index_spaces::IndexSpaces;
use wasm_smith_definitions::own_items::OwnItems;
use wasm_smith_externs::bounds::ImportBounds;
use wasm_smith_externs::imports::imports;
use wasm_smith_externs::names::DuplicateImportsBehavior;
use wasm_smith_externs::shape_imports::shape_imports;
use wasm_smith_shapes::imports::ImportEntry;
use wasm_smith_types::given::{type_count, types_in};
use wasm_smith_types::shifts::Shift;
use wasm_smith_unstructured::unstructured::Unstructured;

/// Makes the imports of a module that defines these items of its own: those of `module_shape`, some of `available_imports`, or else drawn ones.
///
/// # Errors
/// [`Error::IncorrectFormat`] where drawn imports are owed that can't be made, and [`Error::Memory`]. Some of the source's bytes may be taken by then.
pub fn draw_imports(
    alloc: Global,
    unstructured: &mut Unstructured<'_>,
    config: &Config,
    duplicates: DuplicateImportsBehavior,
    own: &OwnItems,
    spaces: &mut IndexSpaces<'_>,
) -> Result<Vec<ImportEntry>, Error>
    requires good { IsGood config.now }
    requires shapes { HasGoodShapes config.now }
    requires tables { HasFewTables config.now }
    requires few { length spaces.old.types ≤ 2 ^ 31 }
    requires types { AreTypesOf config.now spaces.old.types }
    requires start { spaces.old ≡ spaces_of_types spaces.old.types }
    requires own { own.now ≡ own_of config.now spaces.old.types }
    ensures made { IfOk result (λ v. AreImports config.now duplicates spaces.old unstructured.old spaces.new unstructured.new (map import_entry v.items)) }
    ensures taken { length unstructured.new ≤ length unstructured.old }
    ensures ended { IfErr result (IsEnd config.now) }
{
    let count = spaces.types().len() as u32;
    if let Some(shape) = &config.module_shape {
        let by = count.saturating_sub(types_in(&shape.groups));
        let shift = Shift { start: 0, by };
        let entries = shape_imports(
            alloc,
            unstructured,
            config,
            false,
            &shape.imports,
            shift,
            spaces,
        )?;
        return Ok(entries);
    }
    if let Some(shape) = &config.available_imports {
        let behind = types_in(&shape.groups) + type_count(&config.exports);
        let by = count.saturating_sub(behind);
        let shift = Shift { start: 0, by };
        let entries = shape_imports(
            alloc,
            unstructured,
            config,
            true,
            &shape.imports,
            shift,
            spaces,
        )?;
        return Ok(entries);
    }
    let bounds = ImportBounds::beside(config, spaces.types(), own);
    let drawn = imports(alloc, unstructured, config, bounds, duplicates, spaces)?;
    Ok(drawn)
}
