//! The imports, tags and functions of a module.

ghost use Rattle.std.specs.Prelude.{◌≡◌, ◌≤◌, ◌<◌, ◌^◌, ℕ, [], IfOk, IfErr, length, map, true, is_some};
ghost use Rattle.std.specs.List.{AllByRecursion};
ghost use Rattle.wasm_smith_config.specs.Config.{AreFeaturesOf, IsGood};
ghost use Rattle.wasm_smith_definitions.specs.FunctionTypes.{function_indexes};
ghost use Rattle.wasm_smith_definitions.specs.Kinds.{AnyBound};
ghost use Rattle.wasm_smith_definitions.specs.Offered.{HasFewTables};
ghost use Rattle.wasm_smith_definitions.specs.Steps.{IsFilled};
ghost use Rattle.wasm_smith_externs.specs.Wanted.{functions_at, of_function, of_tag, wanted_functions, wanted_tags};
ghost use Rattle.wasm_smith_module.specs.Asked.{HasGoodShapes, own_of};
ghost use Rattle.wasm_smith_module.specs.Building.{IsEnd, IsFront, itself};
ghost use Rattle.wasm_smith_module.specs.TrueToShapes.{AreTypesOf};
ghost use Rattle.wasm_smith_shapes.specs.Imports.{import_entry};
ghost use Rattle.wasm_smith_validity.specs.Rules.{keeps_tag};
ghost use Rattle.wasm_smith_validity.specs.Spaces.{func_type_at, functions_of, spaces_of_types};
ghost use Rattle.wasm_spec.specs.Features.{Features};

use crate::choices::joined;
use crate::imports::draw_imports;
use std::alloc::Global;
use wasm_smith_config::config::Config;
use wasm_smith_config::error::Error;
use wasm_smith_definitions::index_spaces::IndexSpaces;
use wasm_smith_definitions::own_items::OwnItems;
use wasm_smith_externs::functions::{functions, shape_functions};
use wasm_smith_externs::names::DuplicateImportsBehavior;
use wasm_smith_externs::shape_exports::KindCounts;
use wasm_smith_externs::tags::{shape_tags, tags};
use wasm_smith_shapes::imports::ImportEntry;
use wasm_smith_unstructured::unstructured::Unstructured;

/// The imports, tags and functions of a module.
#[derive(Debug, Drop)]
pub struct Front {
    /// The entries of the import section.
    pub imports: Vec<ImportEntry>,
    /// How many items of each kind are imported.
    pub imported: KindCounts,
    /// The type index of each tag.
    pub tags: Vec<u32>,
    /// The type index of each function.
    pub funcs: Vec<u32>,
}

// Makes the tags that are asked for, of these types, and draws others.
fn draw_tags(
    alloc: Global,
    unstructured: &mut Unstructured<'_>,
    config: &Config,
    asked: &[u32],
    spaces: &mut IndexSpaces<'_>,
) -> Result<Vec<u32>, Error>
    requires few { length spaces.old.types ≤ 2 ^ 31 }
    requires kept { (features : Features) → AreFeaturesOf config.now features → AllByRecursion (λ index. keeps_tag features spaces.old index ≡ true) asked.now }
    ensures filled { IfOk result (λ v. IsFilled config.now (wanted_tags config.now) of_tag (AnyBound config.now) itself asked.now spaces.old unstructured.old spaces.new unstructured.new v.items) }
    ensures taken { length unstructured.new ≤ length unstructured.old }
    ensures ended { IfErr result (IsEnd config.now) }
{
    let own = shape_tags(alloc, spaces, asked)?;
    let drawn = tags(alloc, unstructured, config, spaces)?;
    let all = joined(own, &drawn)?;
    Ok(all)
}

// Makes the functions that are asked for, of these types, and draws others.
fn draw_functions(
    alloc: Global,
    unstructured: &mut Unstructured<'_>,
    config: &Config,
    asked: &[u32],
    spaces: &mut IndexSpaces<'_>,
) -> Result<Vec<u32>, Error>
    requires few { length spaces.old.types ≤ 2 ^ 31 }
    requires kept { AllByRecursion (λ index. is_some (func_type_at spaces.old.types index) ≡ true) asked.now }
    ensures filled { IfOk result (λ v. IsFilled config.now (wanted_functions config.now) of_function (AnyBound config.now) itself asked.now spaces.old unstructured.old spaces.new unstructured.new v.items) }
    ensures drawn { IfOk result (λ v. asked.now ≡ [] → functions_at config.now (function_indexes 0 spaces.old.types) (length (functions_of spaces.old)) unstructured.old ≡ (v.items, unstructured.new)) }
    ensures taken { length unstructured.new ≤ length unstructured.old }
    ensures ended { IfErr result (IsEnd config.now) }
{
    let own = shape_functions(alloc, spaces, asked)?;
    let drawn = functions(alloc, unstructured, config, spaces)?;
    let all = joined(own, &drawn)?;
    Ok(all)
}

/// Makes the imports, then the tags, then the functions of a module that defines these items of its own.
///
/// # Errors
/// [`Error::IncorrectFormat`] where some of them are owed that can't be made, and [`Error::Memory`]. Some of the source's bytes may be taken
/// by then.
pub fn draw_front(
    alloc: Global,
    unstructured: &mut Unstructured<'_>,
    config: &Config,
    duplicates: DuplicateImportsBehavior,
    own: &OwnItems,
    spaces: &mut IndexSpaces<'_>,
) -> Result<Front, Error>
    requires good { IsGood config.now }
    requires shapes { HasGoodShapes config.now }
    requires tables { HasFewTables config.now }
    requires few { length spaces.old.types ≤ 2 ^ 31 }
    requires types { AreTypesOf config.now spaces.old.types }
    requires start { spaces.old ≡ spaces_of_types spaces.old.types }
    requires own { own.now ≡ own_of config.now spaces.old.types }
    ensures drawn { IfOk result (λ front. IsFront config.now duplicates own.now spaces.old unstructured.old spaces.new unstructured.new (map import_entry front.imports.items) front.tags.items front.funcs.items front.imported) }
    ensures taken { length unstructured.new ≤ length unstructured.old }
    ensures ended { IfErr result (IsEnd config.now) }
{
    let imports = draw_imports(alloc, unstructured, config, duplicates, own, spaces)?;
    let imported = KindCounts::of(spaces);
    let tags = draw_tags(alloc, unstructured, config, own.tags(), spaces)?;
    let funcs = draw_functions(alloc, unstructured, config, own.functions(), spaces)?;
    Ok(Front {
        imports,
        imported,
        tags,
        funcs,
    })
}
