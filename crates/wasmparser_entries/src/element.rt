//! Element segments (Core Specification 3.0, Binary Format, "Element Section").

ghost use Rattle.std.specs.Prelude.{◌≡◌, ◌↔◌, IfOk, IsTrue};
ghost use Rattle.std.specs.List.{AllByRecursion};
ghost use Rattle.wasm_core_read.specs.ConstantReading.{expression_at};
ghost use Rattle.wasm_core_read.specs.PartReading.{element_at, functions_at, kind_and_items_at};
ghost use Rattle.wasm_core_read.specs.Reading.{Answers};
ghost use Rattle.wasm_core_read.specs.TypeReading.{list_at};
ghost use Rattle.wasm_spec.specs.Syntax as spec;
ghost use Rattle.wasmparser_entries.specs.ConstExprs.{expression_of};
ghost use Rattle.wasmparser_entries.specs.Entries.{HasItsParts, IsElementOfModule, ItemsAreLast, element_of, packed_element, packed_items, packed_refs_of_items, refs_of_element};
ghost use Rattle.wasmparser_entries.specs.declared.element.ElementKind.TheVariants as kinds;
ghost use Rattle.wasmparser_entries.specs.Lists.{AreExpressions, AreFunctions, expressions_of, functions_of};
ghost use Rattle.wasmparser_entries.specs.PackedEntries.{marked_from, packed_element_from, packed_element_at, packed_expressions_from, typed_at};
ghost use Rattle.wasmparser_readers.specs.Answers.{ReadsItem};
ghost use Rattle.wasmparser_readers.specs.ModuleIndexes.{IsModuleIndex};

use crate::const_expr::{ConstExpr, Expression, read_const_expr};
use std::alloc::Global;
use wasm_core_read::binary_reader::BinaryReader;
use wasm_core_read::malformed::Malformed;
use wasmparser_error::error::{Error, ErrorKind};
use wasmparser_readers::from_reader::{FromReader, Item};
use wasmparser_readers::passing::{fork, pass_list, passed_part};
use wasmparser_readers::section_limited::SectionLimited;
use wasmparser_readers::val_type::{read_ref_type, ref_is_of_module};
use wasmparser_types::ref_type::RefType;

/// The use of an element segment.
#[derive(Debug, Drop)]
pub enum ElementKind<'a> {
    /// By instructions.
    Passive,
    /// As the module is instantiated.
    Active {
        /// The index of the table, where it is written: else it is table 0.
        table_index: Option<u32>,
        /// The expression that gives the place in the table.
        offset_expr: ConstExpr<'a>,
    },
    /// Never: its functions may be referred to.
    Declared,
}

/// The items of an element segment, which are read one by one.
#[derive(Debug, Drop)]
pub enum ElementItems<'a> {
    /// Indexes of functions.
    Functions(SectionLimited<'a, u32>),
    /// The type of the items, and an expression for each.
    Expressions(RefType, SectionLimited<'a, ConstExpr<'a>>),
}

/// An element segment.
#[derive(Debug, Drop)]
pub struct Element<'a> {
    /// Its use.
    pub kind: ElementKind<'a>,
    /// Its items.
    pub items: ElementItems<'a>,
}

// Passes over function indexes, which are read later.
#[tactic(auto, using(crate::proofs::ListLaws::function_lists))]
fn read_functions<'a>(reader: &mut BinaryReader<'a>) -> Result<SectionLimited<'a, u32>, Malformed>
    ensures reads { Answers (λ s. functions_of s.left) reader.old reader.new result (functions_at reader.old.rest) }
    ensures part { IfOk result (λ s. AreFunctions reader.old reader.new s) }
{
    let start = fork(reader);
    pass_list::<u32>(reader)?;
    SectionLimited::new(passed_part(start, reader.bytes_remaining()))
}

// Passes over expressions, which are read later.
#[tactic(auto, using(crate::proofs::ListLaws::expression_lists))]
fn read_expressions<'a>(
    reader: &mut BinaryReader<'a>,
) -> Result<SectionLimited<'a, ConstExpr<'a>>, Malformed>
    ensures reads { Answers (λ s. expressions_of s.left) reader.old reader.new result (list_at expression_at reader.old.rest) }
    ensures part { IfOk result (λ s. AreExpressions reader.old reader.new s) }
{
    let start = fork(reader);
    pass_list::<Expression>(reader)?;
    SectionLimited::new(passed_part(start, reader.bytes_remaining()))
}

// Reads function indexes after their kind.
fn read_marked_from<'a>(
    kind: u8,
    reader: &mut BinaryReader<'a>,
) -> Result<SectionLimited<'a, u32>, Malformed>
    ensures reads { Answers (λ s. functions_of s.left) reader.old reader.new result (marked_from kind reader.old.rest) }
    ensures part { IfOk result (λ s. AreFunctions reader.old reader.new s) }
{
    if kind != 0 {
        return Err(Malformed {
            offset: reader.original_position(),
        });
    }
    read_functions(reader)
}

// Reads the kind of function indexes, which is 0, and these.
#[tactic(auto, using(crate::proofs::EntrySteps::marked_steps))]
fn read_marked<'a>(reader: &mut BinaryReader<'a>) -> Result<SectionLimited<'a, u32>, Malformed>
    ensures reads { Answers (λ s. functions_of s.left) reader.old reader.new result (kind_and_items_at reader.old.rest) }
    ensures part { IfOk result (λ s. AreFunctions reader.old reader.new s) }
{
    let kind = reader.read_u8()?;
    read_marked_from(kind, reader)
}

fn active<'a>(
    table_index: Option<u32>,
    offset_expr: ConstExpr<'a>,
    items: ElementItems<'a>,
) -> Element<'a>
    ensures is { packed_element result ≡ record { mode = spec.ActiveElement table_index (expression_of offset_expr.entry.rest); items = packed_items items.entry } }
    ensures has { (result.kind ≡ kinds.Active table_index offset_expr.entry) × (result.items ≡ items.entry) }
{
    Element {
        kind: ElementKind::Active {
            table_index,
            offset_expr,
        },
        items,
    }
}

// Reads the type of some expressions, and passes over these.
#[tactic(auto, unfolding(crate::specs::PackedEntries::typed_at))]
fn read_typed<'a>(reader: &mut BinaryReader<'a>) -> Result<ElementItems<'a>, Malformed>
    ensures reads { Answers packed_items reader.old reader.new result (typed_at reader.old.rest) }
    ensures part { IfOk result (λ items. ItemsAreLast reader.old reader.new items) }
{
    let ty = read_ref_type(reader)?;
    let expressions = read_expressions(reader)?;
    Ok(ElementItems::Expressions(ty, expressions))
}

// Reads a segment of expressions after the number of its form.
fn read_expressions_from<'a>(
    number: u32,
    reader: &mut BinaryReader<'a>,
) -> Result<Element<'a>, Malformed>
    ensures reads { Answers packed_element reader.old reader.new result (packed_expressions_from number reader.old.rest) }
    ensures parts { IfOk result (λ element. HasItsParts reader.old reader.new element) }
{
    match number {
        4 => {
            let offset = read_const_expr(reader)?;
            let expressions = read_expressions(reader)?;
            let items = ElementItems::Expressions(RefType::FUNCREF, expressions);
            Ok(active(None, offset, items))
        }
        5 => Ok(Element {
            kind: ElementKind::Passive,
            items: read_typed(reader)?,
        }),
        6 => {
            let table_index = reader.read_var_u32()?;
            let offset = read_const_expr(reader)?;
            let items = read_typed(reader)?;
            Ok(active(Some(table_index), offset, items))
        }
        7 => Ok(Element {
            kind: ElementKind::Declared,
            items: read_typed(reader)?,
        }),
        _ => Err(Malformed {
            offset: reader.original_position(),
        }),
    }
}

// Reads a segment after the number of its form.
fn read_element_from<'a>(
    number: u32,
    reader: &mut BinaryReader<'a>,
) -> Result<Element<'a>, Malformed>
    ensures reads { Answers packed_element reader.old reader.new result (packed_element_from number reader.old.rest) }
    ensures parts { IfOk result (λ element. HasItsParts reader.old reader.new element) }
{
    match number {
        0 => {
            let offset = read_const_expr(reader)?;
            let items = ElementItems::Functions(read_functions(reader)?);
            Ok(active(None, offset, items))
        }
        1 => Ok(Element {
            kind: ElementKind::Passive,
            items: ElementItems::Functions(read_marked(reader)?),
        }),
        2 => {
            let table_index = reader.read_var_u32()?;
            let offset = read_const_expr(reader)?;
            let items = ElementItems::Functions(read_marked(reader)?);
            Ok(active(Some(table_index), offset, items))
        }
        3 => Ok(Element {
            kind: ElementKind::Declared,
            items: ElementItems::Functions(read_marked(reader)?),
        }),
        _ => read_expressions_from(number, reader),
    }
}

// Reads a segment, in which a type index that is too large to be packed is a place in a recursive group.
#[tactic(auto, unfolding(crate::specs::PackedEntries::packed_element_at))]
fn read_packed<'a>(reader: &mut BinaryReader<'a>) -> Result<Element<'a>, Malformed>
    ensures reads { Answers packed_element reader.old reader.new result (packed_element_at reader.old.rest) }
    ensures parts { IfOk result (λ element. HasItsParts reader.old reader.new element) }
{
    let number = reader.read_var_u32()?;
    read_element_from(number, reader)
}

// Checks that the type index of the items' type, if it has one, is a place in the module.
fn items_are_of_module(items: &ElementItems<'_>) -> bool
    ensures { IsTrue result ↔ AllByRecursion IsModuleIndex (packed_refs_of_items (packed_items items.now)) }
{
    match items {
        ElementItems::Functions(_) => true,
        ElementItems::Expressions(ty, _) => ref_is_of_module(ty),
    }
}

impl<'a> Item for Element<'a> {
    ghost Form = { spec.ElementSegment };

    ghost form = { λ element. element_of (packed_element element) };

    ghost form_at = { λ _. element_at };

    ghost indexes = { refs_of_element };

    ghost IsOfModule = { IsElementOfModule };

    ghost TakesMemory = { ⊥ };
}

impl<'a> FromReader<'a> for Element<'a> {
    #[tactic(auto, using(crate::proofs::PackedEntryLaws::element_items))]
    fn from_reader(_alloc: Global, reader: &mut BinaryReader<'a>) -> Result<Element<'a>, Error>
        ensures reads { ReadsItem (λ element. element_of (packed_element element)) IsElementOfModule ⊥ refs_of_element reader.old reader.new result (element_at reader.old.rest) }
        ensures parts { IfOk result (λ element. HasItsParts reader.old reader.new element) }
    {
        let offset = reader.original_position();
        let element = read_packed(reader)?;
        if !items_are_of_module(&element.items) {
            return Err(Error {
                offset,
                kind: ErrorKind::Invalid,
            });
        }
        Ok(element)
    }
}
