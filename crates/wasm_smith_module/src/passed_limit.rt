//! The test of all limits that a made module can pass.

ghost use Rattle.std.specs.Prelude.{◌≡◌, ℕ, List, IfOk, IfSome, IfNone, MatchOption, Some, length, map, false, true};
ghost use Rattle.std.specs.List.{AllByRecursion};
ghost use Rattle.wasm_core_types.specs.CoreTypes.{val_type};
ghost use Rattle.wasm_core_types.specs.Limits.{limit};
ghost use Rattle.wasm_core_types.specs.SubTypes.{sub_type};
ghost use Rattle.wasm_smith_definitions.specs.Items.{element_items, element_segment, made_body};
ghost use Rattle.wasm_smith_module.specs.Measured.{AreShort, HasNoOwn, IsLongBody, IsPassed, IsShortRaw, measured};
ghost use Rattle.wasm_smith_module.specs.Measures.{counts_of, imported_items, measures_of_type, numbers_of, segment_measures, sizes_of, type_measures};
ghost use Rattle.wasm_smith_sections.specs.ModuleEncoding.{SomeByRecursion};
ghost use Rattle.wasm_smith_sections.specs.ModuleItems.{made_of};
ghost use Rattle.wasm_smith_types.specs.Drawing.{total};
ghost use Rattle.wasm_smith_validity.specs.ValidGroups.{types_of};
ghost use Rattle.wasm_smith_validity.specs.Spaces.{spaces_of_types, with_items};
ghost use Rattle.wasm_validity.specs.Rules.{Passes, are_within, count_of};

use crate::counts::{count_of, exports_size};
use crate::element_segments::count_items;
use crate::imported::imported_spaces;
use crate::names::{has_long_export, has_long_import};
use crate::sizes::imports_size;
use std::alloc::{AllocError, Global};
use wasm_core_types::limits::Limit;
use wasm_core_types::types::{CompositeType, SubType, ValType};
use wasm_core_write::encode_error::EncodeError;
use wasm_encoder_sections::entity_type::ExportKind;
use wasm_smith_definitions::code::{Code, Instructions};
use wasm_smith_definitions::index_spaces::IndexSpaces;
use wasm_smith_definitions::segments::ElementSegment;
use wasm_smith_sections::bodies::raw_body_len;
use wasm_smith_sections::module_items::ModuleItems;

// Returns the first limit that its number passes.
fn first_passed(measures: &[(Limit, u64)]) -> Option<Limit>
    ensures passed { IfSome result (λ l. Passes (limit l) (map measured measures.now)) }
    ensures within { IfNone result (are_within (map measured measures.now) ≡ true) }
{
    for measure in measures {
        if measure.1 > measure.0.max() {
            return Some(measure.0);
        }
    }
    None
}

// Returns a limit that a count of the module, or the size of the types of its imports and exports, passes. The spaces
// are those of its imports alone.
fn passed_count(spaces: &IndexSpaces<'_>, items: &ModuleItems<'_>) -> Option<Limit>
    requires whole { total items.now.sizes.now ≡ length items.now.types.now }
    requires exact { spaces.now ≡ with_items (spaces_of_types (types_of (made_of items.now).groups)) (imported_items (made_of items.now)) }
    requires alone { HasNoOwn spaces.now }
    ensures { MatchOption result (are_within (counts_of (made_of items.now)) ≡ true) (λ l. Passes (limit l) (counts_of (made_of items.now))) }
{
    let imported = imports_size(items.types, items.imports);
    let exported = exports_size(spaces, items);
    let size = imported.saturating_add(exported);
    first_passed(&[
        (Limit::Types, items.types.len() as u64),
        (Limit::Groups, items.sizes.len() as u64),
        (Limit::Imports, items.imports.len() as u64),
        (Limit::Functions, count_of(spaces, items, ExportKind::Func)),
        (Limit::Tables, count_of(spaces, items, ExportKind::Table)),
        (Limit::Memories, count_of(spaces, items, ExportKind::Memory)),
        (Limit::Tags, count_of(spaces, items, ExportKind::Tag)),
        (Limit::Globals, count_of(spaces, items, ExportKind::Global)),
        (Limit::Exports, items.exports.len() as u64),
        (Limit::ElementSegments, items.elems.len() as u64),
        (Limit::DataSegments, items.data_segments.len() as u64),
        (Limit::TypeSize, size.saturating_add(1)),
    ])
}

// Returns a limit that the number of a type's parameters, results or fields passes.
fn passed_by_type(ty: &SubType) -> Option<Limit>
    ensures passed { IfSome result (λ l. Passes (limit l) (measures_of_type (sub_type ty.now))) }
    ensures within { IfNone result (are_within (measures_of_type (sub_type ty.now)) ≡ true) }
{
    match &ty.composite_type {
        CompositeType::Func(function) => first_passed(&[
            (Limit::Params, function.params().len() as u64),
            (Limit::Results, function.results().len() as u64),
        ]),
        CompositeType::Struct(structure) => {
            first_passed(&[(Limit::Fields, structure.fields().len() as u64)])
        }
        CompositeType::Array(_) | CompositeType::Cont(_) => None,
    }
}

// Returns a limit that the number of parameters, results or fields of one of the types passes.
fn passed_type(types: &[SubType]) -> Option<Limit>
    ensures passed { IfSome result (λ l. Passes (limit l) (type_measures (map sub_type types.now))) }
    ensures within { IfNone result (are_within (type_measures (map sub_type types.now)) ≡ true) }
{
    for ty in types {
        if let Some(limit) = passed_by_type(ty) {
            return Some(limit);
        }
    }
    None
}

// Returns the number of items of a segment.
fn item_count(segment: &ElementSegment) -> usize
    ensures { result ≡ count_of (element_items segment.now.items) }
{
    count_items(&segment.items)
}

// Returns a limit that the number of items of a segment passes.
fn passed_segment(segments: &[ElementSegment]) -> Option<Limit>
    ensures passed { IfSome result (λ l. Passes (limit l) (segment_measures (map element_segment segments.now))) }
    ensures within { IfNone result (are_within (segment_measures (map element_segment segments.now)) ≡ true) }
{
    for segment in segments {
        if item_count(segment) as u64 > Limit::SegmentEntries.max() {
            return Some(Limit::SegmentEntries);
        }
    }
    None
}

// Returns true if a body of these locals and raw bytes is longer than it may be.
fn is_long(alloc: Global, locals: &[ValType], raw: &[u8]) -> Result<bool, AllocError>
    ensures long { IfOk result (λ is. is ≡ true → IsLongBody (record { locals = map val_type locals.now; raw = Some raw.now })) }
    ensures short { IfOk result (λ is. is ≡ false → IsShortRaw (record { locals = map val_type locals.now; raw = Some raw.now })) }
{
    match raw_body_len(alloc, locals, raw) {
        Ok(len) => Ok(len as u64 > Limit::BodySize.max()),
        Err(EncodeError::TooLong) => Ok(true),
        Err(EncodeError::Memory) => Err(AllocError),
    }
}

// Returns true if a body has raw bytes and is longer than it may be.
fn is_long_body(alloc: Global, body: &Code) -> Result<bool, AllocError>
    ensures long { IfOk result (λ is. is ≡ true → IsLongBody (made_body body.now)) }
    ensures short { IfOk result (λ is. is ≡ false → IsShortRaw (made_body body.now)) }
{
    match &body.instructions {
        Instructions::Unreachable => Ok(false),
        Instructions::Raw(raw) => is_long(alloc, &body.locals, raw),
    }
}

// Returns true if some body has raw bytes and is longer than it may be.
fn has_long_body(alloc: Global, bodies: &[Code]) -> Result<bool, AllocError>
    ensures long { IfOk result (λ is. is ≡ true → SomeByRecursion IsLongBody (map made_body bodies.now)) }
    ensures short { IfOk result (λ is. is ≡ false → AllByRecursion IsShortRaw (map made_body bodies.now)) }
{
    for body in bodies {
        if is_long_body(alloc, body)? {
            return Ok(true);
        }
    }
    Ok(false)
}

// Returns a limit that a type, a name or a segment passes by its size.
fn passed_size(items: &ModuleItems<'_>) -> Option<Limit>
    requires whole { total items.now.sizes.now ≡ length items.now.types.now }
    ensures passed { IfSome result (λ l. (bodies : List (List ℕ)) → Passes (limit l) (sizes_of bodies (made_of items.now))) }
    ensures within { IfNone result ((bodies : List (List ℕ)) → AreShort bodies → are_within (sizes_of bodies (made_of items.now)) ≡ true) }
{
    if let Some(limit) = passed_type(items.types) {
        return Some(limit);
    }
    if has_long_import(items.imports) || has_long_export(items.exports) {
        return Some(Limit::Name);
    }
    passed_segment(items.elems)
}

/// Returns a limit that a module of these items passes, if it passes one. Bodies without raw bytes aren't looked at: those that are
/// drawn are far shorter than they may be.
///
/// # Errors
/// Where memory runs out.
pub fn passed_limit(alloc: Global, items: &ModuleItems<'_>) -> Result<Option<Limit>, AllocError>
    requires whole { total items.now.sizes.now ≡ length items.now.types.now }
    ensures passed { IfOk result (λ found. IfSome found (IsPassed (made_of items.now))) }
    ensures within { IfOk result (λ found. IfNone found ((bodies : List (List ℕ)) → AreShort bodies
        → are_within (numbers_of bodies (made_of items.now)) ≡ true)) }
    ensures short { IfOk result (λ found. IfNone found (AllByRecursion IsShortRaw (made_of items.now).bodies)) }
{
    let spaces = imported_spaces(alloc, items.types, items.imports)?;
    if let Some(limit) = passed_count(&spaces, items) {
        return Ok(Some(limit));
    }
    if has_long_body(alloc, items.bodies)? {
        return Ok(Some(Limit::BodySize));
    }
    Ok(passed_size(items))
}
