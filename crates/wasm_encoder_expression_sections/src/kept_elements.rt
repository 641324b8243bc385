//! Element segments, as they are kept and written (Core Specification, Binary Format, Modules, "Element Section").

ghost use Rattle.std.specs.Prelude.{◌≡◌, ◌≤◌, ◌+◌, ◌++◌, length, vec_len, vec_capacity, IfOk, IfErr};
ghost use Rattle.wasm_core_types.specs.CoreTypes.{heap_type};
ghost use Rattle.wasm_core_write.specs.Encoding.{Measures};
ghost use Rattle.wasm_encoder_expression_sections.specs.CoreSegments.{lent_mode, lent_elements, kept_mode, kept_elements, segment_bytes};
ghost use Rattle.wasm_encoder_expression_sections.specs.ItemEncodings.{element_encoding, form_code, is_funcref, items_encoding, typed_encoding, written_mode, written_table};

use crate::element_segment::{ElementMode, ElementSegment, Elements};
use crate::segment_codes::{ACTIVE, ACTIVE_WITH_INDEX, DECLARED, PASSIVE};
use std::alloc::Global;
use std::marker::Model;
use wasm_core_types::types::{HeapType, RefType};
use wasm_core_write::encode_error::EncodeError;
use wasm_core_write::encoding::{Encoding, add_sizes, list_size, put_list};
use wasm_core_write::type_encodings::heap_code_of;
use wasm_encoder_bodies::const_expr::ConstExpr;

// The elements of a segment that is kept.
#[derive(Debug, Drop)]
pub enum KeptElements {
    Functions(Vec<u32>),
    Expressions(RefType, Vec<ConstExpr>),
}

// The one kind of elements.
const FUNCTIONS: u8 = 0x00;

impl KeptElements {
    // Returns the code of a segment, to which those of expressions add four.
    fn form(&self, form: u8) -> u8
        requires { form ≤ 3 }
        ensures { result ≡ form_code form (kept_elements self.now) }
    {
        match self {
            KeptElements::Functions(_) => form,
            KeptElements::Expressions(..) => 4 + form,
        }
    }

    fn size(&self) -> Result<u64, EncodeError>
        ensures { let len = length (items_encoding (kept_elements self.now)) in Measures result len len }
    {
        match self {
            KeptElements::Functions(functions) => list_size(functions),
            KeptElements::Expressions(_, expressions) => list_size(expressions),
        }
    }

    fn put(&self, sink: &mut Vec<u8>)
        requires { vec_len sink.old + length (items_encoding (kept_elements self.now)) ≤ vec_capacity sink.old }
        ensures written { sink.new.items ≡ sink.old.items ++ items_encoding (kept_elements self.now) }
        ensures capacity { vec_capacity sink.old ≤ vec_capacity sink.new }
    {
        match self {
            KeptElements::Functions(functions) => put_list(functions, sink),
            KeptElements::Expressions(_, expressions) => put_list(expressions, sink),
        }
    }

    // Returns the same after the kind or the type.
    #[tactic(auto, using(wasm_spec::proofs::ListEncodings::parts), unfolding(wasm_core_write::specs::CoreEncodings::ref_type_encoding))]
    fn typed_size(&self) -> Result<u64, EncodeError>
        ensures { let len = length (typed_encoding (kept_elements self.now)) in Measures result len len }
    {
        let size = self.size()?;
        match self {
            KeptElements::Functions(_) => add_sizes(1, size),
            KeptElements::Expressions(ty, _) => add_sizes(ty.size()?, size),
        }
    }

    #[tactic(auto, using(wasm_spec::proofs::ListEncodings::parts), unfolding(wasm_core_write::specs::CoreEncodings::ref_type_encoding))]
    fn put_typed(&self, sink: &mut Vec<u8>)
        requires { vec_len sink.old + length (typed_encoding (kept_elements self.now)) ≤ vec_capacity sink.old }
        ensures written { sink.new.items ≡ sink.old.items ++ typed_encoding (kept_elements self.now) }
        ensures capacity { vec_capacity sink.old ≤ vec_capacity sink.new }
    {
        match self {
            KeptElements::Functions(_) => sink.push_reserved(FUNCTIONS),
            KeptElements::Expressions(ty, _) => ty.put(sink),
        }
        self.put(sink);
    }
}

// When the elements of a segment that is kept are used. The table is the one that is written.
#[derive(Debug, Drop)]
pub enum KeptMode {
    Active {
        table: Option<u32>,
        offset: ConstExpr,
    },
    Passive,
    Declared,
}

/// An element segment that is kept. Contracts see its encoding.
#[derive(Debug, Drop)]
pub struct KeptSegment {
    mode: KeptMode,
    elements: KeptElements,
}

impl Model for KeptSegment {
    ghost use Rattle.std.specs.Prelude.{List, ℕ};
    ghost use Rattle.wasm_encoder_expression_sections.specs.CoreSegments.{segment_bytes};

    ghost Value = { List ℕ };

    ghost view = { λ s. segment_bytes s.mode s.elements };
}

impl Encoding for KeptSegment {
    ghost encoding = { λ s. s };

    #[tactic(auto, using(wasm_spec::proofs::ListEncodings::parts), unfolding(crate::specs::ItemEncodings::form_encoding))]
    fn size(&self) -> Result<u64, EncodeError> {
        match &self.mode {
            KeptMode::Active {
                table: None,
                offset,
            } => {
                let place = add_sizes(1, offset.size()?)?;
                add_sizes(place, self.elements.size()?)
            }
            KeptMode::Active {
                table: Some(table),
                offset,
            } => {
                let table = add_sizes(1, table.size()?)?;
                let place = add_sizes(table, offset.size()?)?;
                add_sizes(place, self.elements.typed_size()?)
            }
            KeptMode::Passive | KeptMode::Declared => add_sizes(1, self.elements.typed_size()?),
        }
    }

    #[tactic(auto, using(wasm_spec::proofs::ListEncodings::parts), unfolding(crate::specs::ItemEncodings::form_encoding))]
    fn put(&self, sink: &mut Vec<u8>) {
        match &self.mode {
            KeptMode::Active {
                table: None,
                offset,
            } => {
                sink.push_reserved(self.elements.form(ACTIVE));
                offset.put(sink);
                self.elements.put(sink);
            }
            KeptMode::Active {
                table: Some(table),
                offset,
            } => {
                sink.push_reserved(self.elements.form(ACTIVE_WITH_INDEX));
                table.put(sink);
                offset.put(sink);
                self.elements.put_typed(sink);
            }
            KeptMode::Passive => {
                sink.push_reserved(self.elements.form(PASSIVE));
                self.elements.put_typed(sink);
            }
            KeptMode::Declared => {
                sink.push_reserved(self.elements.form(DECLARED));
                self.elements.put_typed(sink);
            }
        }
    }
}

// Returns the table that is written of an active segment.
fn table_of(table: Option<u32>, elements: &Elements<'_>) -> Option<u32>
    ensures { result ≡ written_table table (lent_elements elements.now) }
{
    if table.is_some() {
        return table;
    }
    match elements {
        Elements::Functions(_) => None,
        Elements::Expressions(ty, _) => { if is_any_function(ty) { None } else { Some(0) } }
    }
}

// The byte of the heap type of all functions.
const FUNC: u8 = 0x70;

fn is_any_function(ty: &RefType) -> bool
    ensures { result ≡ is_funcref ty.now.nullable (heap_type ty.now.heap_type) }
{
    if !ty.nullable {
        return false;
    }
    match ty.heap_type {
        HeapType::Abstract(heap) => heap_code_of(heap) == FUNC,
        HeapType::Concrete(_) => false,
    }
}

fn copied_elements(alloc: Global, elements: &Elements<'_>) -> Result<KeptElements, EncodeError>
    ensures copied { IfOk result (λ kept. kept_elements kept ≡ lent_elements elements.now) }
    ensures memory_alone { IfErr result (λ e. e ≡ EncodeError.Memory) }
{
    match elements {
        Elements::Functions(functions) => {
            let kept = functions.to_vec(alloc)?;
            Ok(KeptElements::Functions(kept))
        }
        Elements::Expressions(ty, expressions) => {
            let kept = expressions.to_vec(alloc)?;
            Ok(KeptElements::Expressions(*ty, kept))
        }
    }
}

fn copied_mode(segment: &ElementSegment<'_>) -> Result<KeptMode, EncodeError>
    ensures copied { IfOk result (λ kept. kept_mode kept ≡ written_mode (lent_mode segment.now.mode) (lent_elements segment.now.elements)) }
    ensures memory_alone { IfErr result (λ e. e ≡ EncodeError.Memory) }
{
    match segment.mode {
        ElementMode::Active { table, offset } => {
            let offset = offset.clone()?;
            let table = table_of(table, &segment.elements);
            Ok(KeptMode::Active { table, offset })
        }
        ElementMode::Passive => Ok(KeptMode::Passive),
        ElementMode::Declared => Ok(KeptMode::Declared),
    }
}

/// Returns a copy of a segment.
///
/// # Errors
/// `Memory` alone.
pub fn copied_segment(
    alloc: Global,
    segment: &ElementSegment<'_>,
) -> Result<KeptSegment, EncodeError>
    ensures copied { IfOk result (λ kept. kept ≡ element_encoding (lent_mode segment.now.mode) (lent_elements segment.now.elements)) }
    ensures memory_alone { IfErr result (λ e. e ≡ EncodeError.Memory) }
{
    let mode = copied_mode(segment)?;
    let elements = copied_elements(alloc, &segment.elements)?;
    Ok(KeptSegment { mode, elements })
}
