//! The step that draws the element segments of a module.

ghost use Rattle.std.specs.Prelude.{◌≡◌, ◌≤◌, ◌<◌, ◌⊎◌, ◌||◌, true, false, nat_lt, length, map, min, slice_get, Some, IfOk, IfErr, if◌then◌else◌};
ghost use Rattle.std.specs.List.{AllByRecursion};
ghost use Rattle.wasm_core_types.specs.CoreTypes.{val_type};
ghost use Rattle.wasm_encoder_sections.specs.CoreItems.{ref_type, table_type};
ghost use Rattle.wasm_smith_definitions.specs.Constants.{Gives, MayWrite};
ghost use Rattle.wasm_smith_definitions.specs.Offered.{AreOffersOf};
ghost use Rattle.wasm_smith_definitions.specs.Items.{element_items, element_segment, expression};
ghost use Rattle.wasm_smith_definitions.specs.Kinds.{of_element, wanted_elements};
ghost use Rattle.wasm_smith_definitions.specs.Steps.{Allows, IsGrown, TablesKeep};
ghost use Rattle.wasm_smith_module.specs.Elements.{AreBounded, AreItems, AreNullable, IsDrawnElement, IsElementType, within_table};
ghost use Rattle.wasm_smith_validity.specs.ValidGroups.{AllKeepTypeRules};
ghost use Rattle.wasm_smith_validity.specs.Spaces.{functions_of};
ghost use Rattle.wasm_validity.specs.Rules.{count_of};
ghost use Rattle.wasm_validity.specs.TypeRules.{is_funcref};

use crate::choices::{can_be_made, draw_index, push_owned};
use crate::offsets::draw_offset;
use std::alloc::{AllocError, Global};
use wasm_core_types::types::{AbstractHeapType, HeapType, RefType, ValType};
use wasm_encoder_sections::entity_type::{ExportKind, TableType};
use wasm_smith_config::config::Config;
use wasm_smith_config::error::Error;
use wasm_smith_definitions::constant::Constant;
use wasm_smith_definitions::constants::Constants;
use wasm_smith_definitions::growing::grows_if;
use wasm_smith_definitions::index_spaces::IndexSpaces;
use wasm_smith_definitions::lists::push;
use wasm_smith_definitions::segments::{ElementItems, ElementMode, ElementSegment};
use wasm_smith_definitions::value_types::table_element;
use wasm_smith_types::growing::grows;
use wasm_smith_types::value_types::Offers;
use wasm_smith_unstructured::unstructured::Unstructured;

// The bounds on the number of items of a segment.
#[derive(Clone, Copy, Debug)]
struct ItemBounds {
    least: u32,
    most: u32,
}

// Returns the bounds on the items of a segment without a table.
fn bounds_alone(config: &Config) -> ItemBounds
    requires { config.now.min_elements ≤ config.now.max_elements }
    ensures least { result.least ≡ config.now.min_elements }
    ensures most { result.most ≡ config.now.max_elements }
    ensures ordered { result.least ≤ result.most }
{
    ItemBounds {
        least: config.min_elements,
        most: config.max_elements,
    }
}

// Returns the lesser of two numbers.
fn lesser(count: u32, size: u64) -> u32
    ensures { result ≡ min count size }
{
    u64::from(count).min(size) as u32
}

// Returns the bounds on the items of a segment for a table of this type. Where traps are disallowed, they fit into its minimum.
fn bounds_within(config: &Config, table: &TableType) -> ItemBounds
    requires { config.now.min_elements ≤ config.now.max_elements }
    ensures least { result.least ≡ within_table config.now config.now.min_elements (Some (table_type table.now)) }
    ensures most { result.most ≡ within_table config.now config.now.max_elements (Some (table_type table.now)) }
    ensures ordered { result.least ≤ result.most }
{
    if !config.disallow_traps {
        return bounds_alone(config);
    }
    ItemBounds {
        least: lesser(config.min_elements, table.minimum),
        most: lesser(config.max_elements, table.minimum),
    }
}

// Draws function indexes. If there are no functions, nothing is drawn.
fn draw_functions(
    alloc: Global,
    unstructured: &mut Unstructured<'_>,
    bounds: ItemBounds,
    spaces: &IndexSpaces<'_>,
) -> Result<Vec<u32>, AllocError>
    requires { bounds.least ≤ bounds.most }
    ensures in_range { IfOk result (λ v. AllByRecursion (λ function. function < length (functions_of spaces.now)) v.items) }
    ensures taken { length unstructured.new ≤ length unstructured.old }
    ensures few { IfOk result (λ v. length v.items ≤ bounds.most) }
    ensures enough { IfOk result (λ v. 0 < length (functions_of spaces.now) → bounds.least ≤ length v.items) }
{
    let count = spaces.count_of(ExportKind::Func);
    let mut functions = Vec::new(alloc);
    if count == 0 {
        return Ok(functions);
    }
    'grow: while grows(
        unstructured,
        functions.len(),
        bounds.least as usize,
        bounds.most as usize,
    ) {
        functions.push(draw_index(unstructured, count, 0))?;
    }
    Ok(functions)
}

// Draws constants of a reference type.
fn draw_constants(
    alloc: Global,
    unstructured: &mut Unstructured<'_>,
    config: &Config,
    constants: &mut Constants,
    spaces: &IndexSpaces<'_>,
    ty: RefType,
    bounds: ItemBounds,
) -> Result<Vec<Constant>, Error>
    requires rules { AllKeepTypeRules spaces.now.types }
    requires written { MayWrite config.now spaces.now (val_type (ValType.Ref ty)) }
    requires ordered { bounds.least ≤ bounds.most }
    ensures given { IfOk result (λ v. AllByRecursion (λ constant. Gives config.now spaces.now (val_type (ValType.Ref ty)) (expression constant)) v.items) }
    ensures taken { length unstructured.new ≤ length unstructured.old }
    ensures few { IfOk result (λ v. length v.items ≤ bounds.most) }
    ensures enough { IfOk result (λ v. bounds.least ≤ length v.items) }
    ensures refused { IfErr result (λ e. (e ≡ Error.Memory) ⊎ ((e ≡ Error.EmptyChoose) × (ty.nullable ≡ false))) }
{
    let mut items = Vec::new(alloc);
    'grow: while grows(
        unstructured,
        items.len(),
        bounds.least as usize,
        bounds.most as usize,
    ) {
        let constant = constants.draw(alloc, unstructured, config, spaces, ValType::Ref(ty))?;
        push(&mut items, constant)?;
    }
    Ok(items)
}

// Checks that it is the type of nullable references to any function.
fn is_funcref(ty: RefType) -> bool
    ensures { result ≡ is_funcref (ref_type ty) }
{
    if !ty.nullable {
        return false;
    }
    match ty.heap_type {
        HeapType::Abstract(AbstractHeapType::Func) => true,
        _ => false,
    }
}

// Draws whether the items of this type are function indexes. Without reference types they always are, and of other types than `funcref` they never are.
fn are_functions(unstructured: &mut Unstructured<'_>, config: &Config, ty: RefType) -> bool
    ensures functions { result ≡ true → (config.now.reference_types_enabled ≡ false) ⊎ (is_funcref (ref_type ty) ≡ true) }
    ensures constants { result ≡ false → config.now.reference_types_enabled ≡ true }
    ensures taken { length unstructured.new ≤ length unstructured.old }
{
    if !config.reference_types_enabled {
        return true;
    }
    is_funcref(ty) && unstructured.bool()
}

// Draws the items of a segment of this type.
fn draw_items(
    alloc: Global,
    unstructured: &mut Unstructured<'_>,
    config: &Config,
    constants: &mut Constants,
    spaces: &IndexSpaces<'_>,
    ty: RefType,
    bounds: ItemBounds,
) -> Result<ElementItems, Error>
    requires rules { AllKeepTypeRules spaces.now.types }
    requires element { IsElementType config.now spaces.now (ref_type ty) }
    requires ordered { bounds.least ≤ bounds.most }
    ensures drawn { IfOk result (λ items. AreItems config.now spaces.now (ref_type ty) (element_items items)) }
    ensures taken { length unstructured.new ≤ length unstructured.old }
    ensures bounded { IfOk result (λ items. AreBounded bounds.least bounds.most (length (functions_of spaces.now)) (element_items items)) }
    ensures refused { IfErr result (λ e. (e ≡ Error.Memory) ⊎ ((e ≡ Error.EmptyChoose) × (ty.nullable ≡ false))) }
{
    if are_functions(unstructured, config, ty) {
        let functions = draw_functions(alloc, unstructured, bounds, spaces)?;
        return Ok(ElementItems::Functions(functions));
    }
    let items = draw_constants(alloc, unstructured, config, constants, spaces, ty, bounds)?;
    Ok(ElementItems::Expressions(ty, items))
}

// Returns the number of modes without a table: with bulk memory, passive and declared.
fn modes_without_table(bulk_memory: bool) -> u32
    ensures { result ≡ (if bulk_memory then 2 else 0) }
{
    if bulk_memory { 2 } else { 0 }
}

// Returns the mode of a segment that is written into no table.
fn mode_without_table(is_passive: bool) -> ElementMode
    ensures { (result ≡ ElementMode.Passive) ⊎ (result ≡ ElementMode.Declared) }
{
    if is_passive {
        ElementMode::Passive
    } else {
        ElementMode::Declared
    }
}

/// Returns the number of items.
pub fn count_items(items: &ElementItems) -> usize
    ensures { result ≡ count_of (element_items items.now) }
{
    match items {
        ElementItems::Functions(functions) => functions.len(),
        ElementItems::Expressions(_, expressions) => expressions.len(),
    }
}

// Draws a segment for the table of this index: its items, and then its offset.
fn draw_active(
    alloc: Global,
    unstructured: &mut Unstructured<'_>,
    config: &Config,
    constants: &mut Constants,
    spaces: &IndexSpaces<'_>,
    index: u32,
    table: &TableType,
) -> Result<ElementSegment, Error>
    requires rules { AllKeepTypeRules spaces.now.types }
    requires there { slice_get spaces.now.tables index ≡ Some (table_type table.now) }
    requires tables { TablesKeep config.now spaces.now }
    requires bounds { config.now.min_elements ≤ config.now.max_elements }
    ensures allowed { IfOk result (λ segment. Allows config.now spaces.now (of_element (element_segment segment))) }
    ensures taken { length unstructured.new ≤ length unstructured.old }
    ensures drawn { IfOk result (λ segment. IsDrawnElement config.now spaces.now (element_segment segment)) }
    ensures refused { IfErr result (λ e. (e ≡ Error.Memory) ⊎ ((e ≡ Error.EmptyChoose) × ¬ (AreNullable spaces.now.tables))) }
{
    let bounds = bounds_within(config, table);
    let ty = table.element_type;
    let items = draw_items(alloc, unstructured, config, constants, spaces, ty, bounds)?;
    let is_64 = table.table64;
    let room = table.minimum.saturating_sub(count_items(&items) as u64);
    let last = u128::from(room);
    let offset = draw_offset(alloc, unstructured, config, constants, spaces, is_64, last)?;
    let mode = ElementMode::Active {
        table: index,
        offset,
    };
    Ok(ElementSegment { mode, items })
}

// Draws a segment: its table, if it has one, its type otherwise, its items, and then its offset.
fn draw_segment(
    alloc: Global,
    unstructured: &mut Unstructured<'_>,
    config: &Config,
    offers: &Offers,
    constants: &mut Constants,
    spaces: &IndexSpaces<'_>,
) -> Result<ElementSegment, Error>
    requires rules { AllKeepTypeRules spaces.now.types }
    requires tables { TablesKeep config.now spaces.now }
    requires offers { AreOffersOf config.now offers.now }
    requires bounds { config.now.min_elements ≤ config.now.max_elements }
    requires can { (nat_lt 0 (length spaces.now.tables) || config.now.bulk_memory_enabled) ≡ true }
    ensures allowed { IfOk result (λ segment. Allows config.now spaces.now (of_element (element_segment segment))) }
    ensures taken { length unstructured.new ≤ length unstructured.old }
    ensures drawn { IfOk result (λ segment. IsDrawnElement config.now spaces.now (element_segment segment)) }
    ensures refused { IfErr result (λ e. (e ≡ Error.Memory) ⊎ ((e ≡ Error.EmptyChoose) × ¬ (AreNullable spaces.now.tables))) }
{
    let tables = spaces.count_of(ExportKind::Table);
    let others = modes_without_table(config.bulk_memory_enabled);
    let index = draw_index(unstructured, tables, others);
    match spaces.table(index) {
        Some(table) => draw_active(
            alloc,
            unstructured,
            config,
            constants,
            spaces,
            index,
            &table,
        ),
        None => {
            let ty = table_element(unstructured, config, offers, spaces.type_count());
            let bounds = bounds_alone(config);
            let items = draw_items(alloc, unstructured, config, constants, spaces, ty, bounds)?;
            let mode = mode_without_table(index as usize == tables);
            Ok(ElementSegment { mode, items })
        }
    }
}

/// Draws the element segments: an active one is for one of the tables, and has its type.
///
/// # Errors
/// `IncorrectFormat` if segments are asked for and none can be made, `EmptyChoose` if there is no constant of the type of a table whose elements can't be null,
/// and otherwise `Memory`. Some of the source's bytes may be taken by then.
pub fn element_segments(
    alloc: Global,
    unstructured: &mut Unstructured<'_>,
    config: &Config,
    offers: &Offers,
    constants: &mut Constants,
    spaces: &mut IndexSpaces<'_>,
) -> Result<Vec<ElementSegment>, Error>
    requires rules { AllKeepTypeRules spaces.old.types }
    requires tables { TablesKeep config.now spaces.old }
    requires offers { AreOffersOf config.now offers.now }
    requires bounds { config.now.min_elements ≤ config.now.max_elements }
    requires counts { config.now.min_element_segments ≤ config.now.max_element_segments }
    ensures grown { IfOk result (λ v. IsGrown config.now (wanted_elements config.now) of_element (IsDrawnElement config.now spaces.old) spaces.old unstructured.old spaces.new unstructured.new (map element_segment v.items)) }
    ensures taken { length unstructured.new ≤ length unstructured.old }
    ensures refused { IfErr result (λ e. (e ≡ Error.Memory) ⊎ (((e ≡ Error.IncorrectFormat) × (0 < config.now.min_element_segments))
        ⊎ ((e ≡ Error.EmptyChoose) × ¬ (AreNullable spaces.old.tables)))) }
    ensures impossible { IfErr result (λ e. e ≡ Error.IncorrectFormat → (wanted_elements config.now).can spaces.old ≡ false) }
{
    let can = can_be_made(
        spaces.count_of(ExportKind::Table),
        config.bulk_memory_enabled,
    );
    let mut segments = Vec::new(alloc);
    'grow: while grows_if(
        unstructured,
        can,
        spaces.element_segment_count(),
        config.min_element_segments as usize,
        config.max_element_segments as usize,
    ) {
        let segment = draw_segment(alloc, unstructured, config, offers, constants, spaces)?;
        spaces.add_element_segment();
        push_owned(&mut segments, segment)?;
    }
    if spaces.element_segment_count() < config.min_element_segments as usize {
        return Err(Error::IncorrectFormat);
    }
    Ok(segments)
}
