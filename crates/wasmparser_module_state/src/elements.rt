//! Element segments (Core Specification 3.0, Validation, "Element Segments").

ghost use Rattle.std.specs.Prelude.{◌≡◌, ◌≤◌, ◌<◌, ◌++◌, ◌∷◌, [], refl, IfErr, IfOk, Some, option_map, slice_get, true, false};
ghost use Rattle.std.specs.List.{AllByRecursion, flat_map};
ghost use Rattle.wasm_core_read.specs.ConstantReading.{expression_at};
ghost use Rattle.wasm_core_read.specs.Reading.{unsigned_at};
ghost use Rattle.wasm_spec.specs.Features.{BulkMemory, has};
ghost use Rattle.wasm_spec.specs.TypeReferences.{ref_map, val_map};
ghost use Rattle.wasm_validity.specs.ConstantTyping.{IsConstantFor};
ghost use Rattle.wasm_validity.specs.Context.{element_type, named_at_element, named_in, named_in_items, with_functions};
ghost use Rattle.wasm_validity.specs.Entries.{OfElement};
ghost use Rattle.wasm_validity.specs.Rules.{FitsTable, KeepsElementMode, KeepsItems, count_of};
ghost use Rattle.wasmparser_entries.specs.ConstExprs.{expression_of};
ghost use Rattle.wasmparser_constants.specs.Steps.{CanBeWanted};
ghost use Rattle.wasmparser_module_state.specs.Initialisers.{Judges};
ghost use Rattle.wasmparser_entries.specs.Entries.{AreItemsRead, element_mode, element_of, items_of, packed_element, packed_items};
ghost use Rattle.wasmparser_entries.specs.Lists.{expressions_of, functions_of};
ghost use Rattle.wasmparser_error.specs.declared.error.ErrorKind.TheVariants as kinds;
ghost use Rattle.wasmparser_payloads.specs.EntryReading.{element_entry_at};
ghost use Rattle.wasmparser_module_state.specs.Judging.{MayDeclare};
ghost use Rattle.wasmparser_module_state.specs.LargeIndexes.{large_element};
ghost use Rattle.wasmparser_module_state.specs.State.{HasRoom, context, features_of, members, reference, room};
ghost use Rattle.wasmparser_readers.specs.Sections.{left_items};
ghost use Rattle.wasmparser_types.specs.Index.{number_of};
ghost use Rattle.wasmparser_types.specs.ValTypes.{val_type};

use crate::data::index_type;
use crate::entry::Entry;
use crate::function_set::FunctionSet;
use crate::module_state::{ModuleState, refusal};
use std::alloc::Global;
use std::iter::Iterator;
use wasm_core_types::limits::{Limit, MAX_WASM_ELEMENT_SEGMENTS, MAX_WASM_SEGMENT_ENTRIES};
use wasmparser_entries::const_expr::ConstExpr;
use wasmparser_entries::element::{Element, ElementItems, ElementKind};
use wasmparser_error::error::{Error, ErrorKind};
use wasmparser_readers::section_limited::SectionLimited;
use wasmparser_types::ref_type::RefType;
use wasmparser_types::val_type::ValType;

// Returns the number of items of a segment.
fn count_of(items: &ElementItems<'_>) -> u32
    requires read { AreItemsRead items.now }
    ensures { result ≡ count_of (items_of (packed_items items.now)) }
{
    match items {
        ElementItems::Functions(functions) => functions.count(),
        ElementItems::Expressions(_, expressions) => expressions.count(),
    }
}

// Returns the type of the items of a segment: functions are references that aren't null.
fn element_type(items: &ElementItems<'_>) -> RefType
    ensures { reference result ≡ element_type (items_of (packed_items items.now)) }
{
    match items {
        ElementItems::Functions(_) => RefType::FUNC,
        ElementItems::Expressions(ty, _) => *ty,
    }
}

// Judges that each of some functions is there, of which there are so many, and declares them one by one.
fn add_functions<'a>(
    declared: &mut FunctionSet,
    functions: SectionLimited<'a, u32>,
    alloc: Global,
    count: usize,
    offset: u64,
) -> Result<(), Error>
    requires room { count ≤ room declared.old }
    requires read { left_items (λ _. unsigned_at 32) functions.left ≡ Some (functions_of functions.left) }
    ensures judged { Judges offset (AllByRecursion (λ function. function < count) (functions_of functions.entry.left)) result }
    ensures declared { IfOk result (λ _. members declared.new ≡ with_functions (members declared.old) (functions_of functions.entry.left)) }
    ensures between { MayDeclare (functions_of functions.entry.left) (members declared.old) (members declared.new) }
    ensures room { room declared.new ≡ room declared.old }
{
    let mut items = functions.into_iter(alloc);
    'items: while let Some(function) = items.next() {
        let function = function?;
        if function as usize >= count {
            return Err(refusal(offset, ErrorKind::Invalid));
        }
        declared.insert(function);
    }
    Ok(())
}

impl ModuleState {
    /// Returns the type of the element segment with this index, if there is one.
    #[tactic(auto, using(crate::proofs::ExportLaws::item_steps))]
    pub fn element_type_at(&self, index: u32) -> Option<RefType>
        ensures { option_map reference result ≡ slice_get (context self.now).elements index }
    {
        self.elements.get(index)
    }

    // Judges that each of some expressions gives a value of this type, and declares the functions that they name.
    fn add_expressions<'a>(
        &mut self,
        ty: &ValType,
        expressions: SectionLimited<'a, ConstExpr<'a>>,
        offset: u64,
    ) -> Result<(), Error>
        requires wanted { CanBeWanted (features_of self.old) (val_type ty.now) }
        requires read { left_items (λ _. expression_at) expressions.left ≡ Some (expressions_of expressions.left) }
        requires room { HasRoom self.old }
        ensures judged { Judges offset (AllByRecursion (IsConstantFor (features_of self.old) (context self.old) (val_map number_of (val_type ty.now))) (expressions_of expressions.entry.left)) result }
        ensures declared { IfOk result (λ _. (context self.new).declared ≡ with_functions (context self.old).declared (flat_map named_in (expressions_of expressions.entry.left))) }
        ensures between { MayDeclare (flat_map named_in (expressions_of expressions.entry.left)) (context self.old).declared (context self.new).declared }
        ensures same { context self.new ≡ record (context self.old) { declared = (context self.new).declared } }
        ensures types { self.new.types ≡ self.old.types }
        ensures room { HasRoom self.new }
    {
        let mut items = expressions.into_iter(*self.tags.allocator());
        'items: while let Some(expression) = items.next() {
            let expression = expression?;
            self.add_initialiser(&expression, ty, offset)?;
        }
        Ok(())
    }

    // Judges the items of a segment, and declares the functions that they name.
    fn add_items<'a>(&mut self, items: ElementItems<'a>, offset: u64) -> Result<(), Error>
        requires read { AreItemsRead items }
        requires room { HasRoom self.old }
        ensures judged { Judges offset (KeepsItems (features_of self.old) (context self.old) (items_of (packed_items items.entry))) result }
        ensures declared { IfOk result (λ _. (context self.new).declared ≡ with_functions (context self.old).declared (named_in_items (items_of (packed_items items.entry)))) }
        ensures between { MayDeclare (named_in_items (items_of (packed_items items.entry))) (context self.old).declared (context self.new).declared }
        ensures same { context self.new ≡ record (context self.old) { declared = (context self.new).declared } }
        ensures types { self.new.types ≡ self.old.types }
        ensures room { HasRoom self.new }
    {
        match items {
            ElementItems::Functions(functions) => {
                let count = self.function_count();
                let alloc = *self.tags.allocator();
                add_functions(&mut self.declared, functions, alloc, count, offset)
            }
            ElementItems::Expressions(ty, expressions) => {
                let ty = ValType::Ref(ty);
                if !self.is_value(&ty) {
                    return Err(refusal(offset, ErrorKind::Invalid));
                }
                self.add_expressions(&ty, expressions, offset)
            }
        }
    }

    // Judges that there is this table, that items of this type may be put into it, and that an expression gives an index of it, and declares the functions that
    // this names.
    fn add_index(
        &mut self,
        table: u32,
        index: &ConstExpr<'_>,
        items: &ValType,
        offset: u64,
    ) -> Result<(), Error>
        requires wanted { CanBeWanted (features_of self.old) (val_type items.now) }
        requires room { HasRoom self.old }
        ensures judged { Judges offset (FitsTable (features_of self.old) (context self.old) (val_map number_of (val_type items.now)) (expression_of index.now.rest) (slice_get (context self.old).tables table)) result }
        ensures declared { IfOk result (λ _. context self.new ≡ record (context self.old) { declared = with_functions (context self.old).declared (named_in (expression_of index.now.rest)) }) }
        ensures refused { IfErr result (λ _. context self.new ≡ context self.old) }
        ensures types { self.new.types ≡ self.old.types }
    {
        let Some(table) = self.table_at(table) else {
            return Err(refusal(offset, ErrorKind::Invalid));
        };
        if !self.is_below(items, &ValType::Ref(table.element_type)) {
            return Err(refusal(offset, ErrorKind::Invalid));
        }
        self.add_initialiser(index, &index_type(table.table64), offset)
    }

    // Checks that bulk memory is on, with which segments came that aren't active.
    fn check_bulk_memory(&self, offset: u64) -> Result<(), Error>
        ensures { Judges offset (has (features_of self.now) BulkMemory ≡ true) result }
    {
        if !self.features().bulk_memory() {
            return Err(refusal(offset, ErrorKind::Invalid));
        }
        Ok(())
    }

    // Judges when a segment is used whose items are of this type, and declares the functions that its index names.
    fn add_element_kind(
        &mut self,
        kind: &ElementKind<'_>,
        items: &ValType,
        offset: u64,
    ) -> Result<(), Error>
        requires wanted { CanBeWanted (features_of self.old) (val_type items.now) }
        requires room { HasRoom self.old }
        ensures judged { Judges offset (KeepsElementMode (features_of self.old) (context self.old) (val_map number_of (val_type items.now)) (element_mode kind.now)) result }
        ensures declared { IfOk result (λ _. context self.new ≡ record (context self.old) { declared = with_functions (context self.old).declared (named_at_element (element_mode kind.now)) }) }
        ensures refused { IfErr result (λ _. context self.new ≡ context self.old) }
        ensures types { self.new.types ≡ self.old.types }
    {
        match kind {
            ElementKind::Passive | ElementKind::Declared => self.check_bulk_memory(offset),
            ElementKind::Active {
                table_index,
                offset_expr,
            } => self.add_index(table_index.unwrap_or(0), offset_expr, items, offset),
        }
    }
}

impl ModuleState {
    fn push_element(&mut self, ty: RefType) -> Result<(), Error>
        ensures pushed { IfOk result (λ _. context self.new ≡ record (context self.old) { elements = (context self.old).elements ++ reference ty ∷ [] }) }
        ensures refused { IfErr result (λ e. (e ≡ record { offset = 0; kind = kinds.Memory }) × (context self.new ≡ context self.old)) }
        ensures types { self.new.types ≡ self.old.types }
    {
        self.elements.push(ty)?;
        Ok(())
    }
}

impl<'a> Entry for Element<'a> {
    ghost entry = { λ x. OfElement (element_of (packed_element x)) };

    ghost entry_at = { element_entry_at };

    ghost adds_types = { false };

    ghost is_made = { record { made = λ x. OfElement x; is = λ x. refl; reads = λ _ bytes. refl; breaks = large_element } };

    #[tactic(auto, using(crate::proofs::ElementLaws::left_steps))]
    fn add(self, state: &mut ModuleState, offset: u64) -> Result<(), Error> {
        if state.element_count() as u64 >= MAX_WASM_ELEMENT_SEGMENTS {
            return Err(refusal(offset, ErrorKind::Limit(Limit::ElementSegments)));
        }
        if u64::from(count_of(&self.items)) > MAX_WASM_SEGMENT_ENTRIES {
            return Err(refusal(offset, ErrorKind::Limit(Limit::SegmentEntries)));
        }
        state.make_room()?;
        let ty = element_type(&self.items);
        state.add_items(self.items, offset)?;
        state.add_element_kind(&self.kind, &ValType::Ref(ty), offset)?;
        state.push_element(ty)?;
        Ok(())
    }
}
