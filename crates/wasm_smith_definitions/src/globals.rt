//! The globals of a module.

ghost use Rattle.std.specs.Prelude.{◌≡◌, ◌⊎◌, ◌≤◌, true, false, [], map, Any, IfOk, IfErr, length};
ghost use Rattle.std.specs.List.{AllByRecursion};
ghost use Rattle.wasm_core_types.specs.CoreTypes.{val_type};
ghost use Rattle.wasm_encoder_sections.specs.CoreItems.{global_type};
ghost use Rattle.wasm_spec.specs.Features.{Features};
ghost use Rattle.wasm_smith_config.specs.Config.{AreFeaturesOf};
ghost use Rattle.wasm_smith_config.specs.declared.config.Config.{Config};
ghost use Rattle.wasm_smith_definitions.specs.Constants.{MayWrite, has_plain};
ghost use Rattle.wasm_smith_definitions.specs.Offered.{AreOffersOf, IsOfferedValue};
ghost use Rattle.wasm_smith_definitions.specs.Items as items;
ghost use Rattle.wasm_smith_definitions.specs.Kinds.{AnyBound, of_global, wanted_globals};
ghost use Rattle.wasm_smith_definitions.specs.Steps.{Allows, IsGrown, IsStep};
ghost use Rattle.wasm_smith_validity.specs.Spaces.{is_value};
ghost use Rattle.wasm_smith_validity.specs.ValidGroups.{AllKeepTypeRules};

use crate::constants::Constants;
use crate::index_spaces::IndexSpaces;
use crate::items::Global;
use crate::lists::push;
use crate::value_types::global_value;
use std::alloc;
use wasm_encoder_sections::entity_type::{ExportKind, GlobalType};
use wasm_smith_config::config::Config;
use wasm_smith_config::error::Error;
use wasm_smith_types::growing::grows;
use wasm_smith_types::value_types::Offers;
use wasm_smith_unstructured::unstructured::Unstructured;

/// Draws the type of a global, where there are this many types. A reference may be null.
pub fn global_type(
    unstructured: &mut Unstructured<'_>,
    offers: &Offers,
    type_count: u32,
) -> GlobalType
    ensures offered { (c : Config) → AreOffersOf c offers.now → IsOfferedValue c type_count (val_type result.val_type) }
    ensures taken { length unstructured.new ≤ length unstructured.old }
{
    let val_type = global_value(unstructured, offers, type_count);
    let mutable = unstructured.bool();
    GlobalType { val_type, mutable }
}

// Defines a global of a type, and draws its initialiser.
fn global_of(
    alloc: alloc::Global,
    unstructured: &mut Unstructured<'_>,
    config: &Config,
    constants: &mut Constants,
    spaces: &IndexSpaces<'_>,
    ty: GlobalType,
) -> Result<Global, Error>
    requires rules { AllKeepTypeRules spaces.now.types }
    requires written { MayWrite config.now spaces.now (val_type ty.val_type) }
    ensures allowed { IfOk result (λ global. Allows config.now spaces.now (of_global (items.global global))) }
    ensures typed { IfOk result (λ global. global_type global.ty ≡ global_type ty) }
    ensures taken { length unstructured.new ≤ length unstructured.old }
    ensures refused { IfErr result (λ e. (e ≡ Error.Memory) ⊎ ((e ≡ Error.EmptyChoose) × (has_plain (val_type ty.val_type) ≡ false))) }
{
    let init = constants.draw(alloc, unstructured, config, spaces, ty.val_type)?;
    Ok(Global { ty, init })
}

// Draws a global.
fn global(
    alloc: alloc::Global,
    unstructured: &mut Unstructured<'_>,
    config: &Config,
    offers: &Offers,
    constants: &mut Constants,
    spaces: &IndexSpaces<'_>,
) -> Result<Global, Error>
    requires offers { AreOffersOf config.now offers.now }
    requires rules { AllKeepTypeRules spaces.now.types }
    ensures allowed { IfOk result (λ global. Allows config.now spaces.now (of_global (items.global global))) }
    ensures taken { length unstructured.new ≤ length unstructured.old }
    ensures refused { IfErr result (λ e. e ≡ Error.Memory) }
{
    let ty = global_type(unstructured, offers, spaces.type_count());
    global_of(alloc, unstructured, config, constants, spaces, ty)
}

/// Draws the module's own globals.
///
/// # Errors
/// [`Memory`](Error::Memory) alone. Some of the source's bytes may be taken by then.
pub fn globals(
    alloc: alloc::Global,
    unstructured: &mut Unstructured<'_>,
    config: &Config,
    offers: &Offers,
    constants: &mut Constants,
    spaces: &mut IndexSpaces<'_>,
) -> Result<Vec<Global>, Error>
    requires offers { AreOffersOf config.now offers.now }
    requires ordered { config.now.min_globals ≤ config.now.max_globals }
    requires rules { AllKeepTypeRules spaces.old.types }
    ensures grown { IfOk result (λ v. IsGrown config.now (wanted_globals config.now) of_global (AnyBound config.now) spaces.old unstructured.old spaces.new unstructured.new (map items.global v.items)) }
    ensures taken { length unstructured.new ≤ length unstructured.old }
    ensures refused { IfErr result (λ e. e ≡ Error.Memory) }
{
    let mut own = Vec::new(alloc);
    'grow: while grows(
        unstructured,
        spaces.count_of(ExportKind::Global),
        config.min_globals as usize,
        config.max_globals as usize,
    ) {
        let global = global(alloc, unstructured, config, offers, constants, spaces)?;
        spaces.push_global(global.ty)?;
        push(&mut own, global)?;
    }
    Ok(own)
}

/// Defines a global of each of these types, and draws its initialiser.
///
/// # Errors
/// [`EmptyChoose`](Error::EmptyChoose) only where some type is of references that can't be null, and [`Memory`](Error::Memory). Some of the source's bytes may
/// be taken by then.
pub fn shape_globals(
    alloc: alloc::Global,
    unstructured: &mut Unstructured<'_>,
    config: &Config,
    constants: &mut Constants,
    spaces: &mut IndexSpaces<'_>,
    types: &[GlobalType],
) -> Result<Vec<Global>, Error>
    requires rules { AllKeepTypeRules spaces.old.types }
    requires kept { (features : Features) → AreFeaturesOf config.now features → AllByRecursion (λ t. is_value features spaces.old.types t.value_type ≡ true) (map global_type types.now) }
    ensures step { IfOk result (λ v. IsStep config.now of_global spaces.old spaces.new (map items.global v.items)) }
    ensures types { IfOk result (λ v. map (λ g. g.type) (map items.global v.items) ≡ map global_type types.now) }
    ensures unread { IfOk result (λ _. types.now ≡ [] → unstructured.new ≡ unstructured.old) }
    ensures taken { length unstructured.new ≤ length unstructured.old }
    ensures refused { IfErr result (λ e. (e ≡ Error.Memory) ⊎ ((e ≡ Error.EmptyChoose) × Any (λ t. has_plain t.value_type ≡ false) (map global_type types.now))) }
{
    let mut own = Vec::new(alloc);
    for ty in types {
        let global = global_of(alloc, unstructured, config, constants, spaces, *ty)?;
        spaces.push_global(global.ty)?;
        push(&mut own, global)?;
    }
    Ok(own)
}
