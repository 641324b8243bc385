//! The value types that are drawn.

ghost use Rattle.std.specs.Prelude.{◌≡◌, ◌<◌, ◌≤◌, ◌&&◌, IfOk, length, map, nat_lt};
ghost use Rattle.wasm_core_types.specs.CoreTypes.{abstract_heap_type, heap_type, val_type};
ghost use Rattle.wasm_smith_unstructured.specs.Draws.{IsDrawn};
ghost use Rattle.wasm_smith_types.specs.Drawing.{bool_if, heap_at, reference_at, value_at, values_at};
ghost use Rattle.wasm_smith_types.specs.Growing.{Draws};
ghost use Rattle.wasm_smith_types.specs.Offered.{kind};
ghost use Rattle.wasm_smith_types.specs.Offering.{offers, offered_kinds, common_heaps, offered_heaps};

use crate::bounds::max_results;
use crate::growing::{bool_if, grows};
use std::alloc::{AllocError, Global};
use std::marker::Model;
use wasm_core_types::types::{AbstractHeapType, HeapType, RefType, ValType};
use wasm_smith_config::config::Config;
use wasm_smith_unstructured::unstructured::Unstructured;

/// The first draw of a value type.
#[derive(Clone, Copy, Debug)]
pub enum Kind {
    /// This number or vector type.
    NumberOrVector(ValType),
    /// A reference, whose heap type is drawn next.
    Reference,
}

/// The types that are on offer for a module.
#[derive(Debug, Drop)]
pub struct Offers {
    kinds: Vec<Kind>,
    heaps: Vec<AbstractHeapType>,
    gc: bool,
    most_results: usize,
}

impl Model for Offers {
    ghost use Rattle.std.specs.Prelude.{map, length, ◌<◌};
    ghost use Rattle.wasm_core_types.specs.CoreTypes.{abstract_heap_type};
    ghost use Rattle.wasm_smith_types.specs.Drawing as drawing;
    ghost use Rattle.wasm_smith_types.specs.Offered.{kind};

    ghost Value = { drawing.Offers };

    ghost view = { λ o. record { kinds = map kind o.kinds.items; heaps = map abstract_heap_type o.heaps.items; gc = o.gc; most_results = o.most_results } };

    ghost invariant = { λ o. record { some_kind : 0 < length o.kinds.items; some_heap : 0 < length o.heaps.items } };
}

// Returns the first draws of a value type that are on offer.
fn offered_kinds(alloc: Global, config: &Config) -> Result<Vec<Kind>, AllocError>
    ensures offered { IfOk result (λ kinds. map kind kinds.items ≡ offered_kinds config.now) }
    ensures some { IfOk result (λ kinds. 0 < length kinds.items) }
{
    let mut kinds = vec![in alloc;
        Kind::NumberOrVector(ValType::I32),
        Kind::NumberOrVector(ValType::I64),
    ]?;
    if config.allow_floats {
        kinds.push(Kind::NumberOrVector(ValType::F32))?;
        kinds.push(Kind::NumberOrVector(ValType::F64))?;
    }
    if config.simd_enabled {
        kinds.push(Kind::NumberOrVector(ValType::V128))?;
    }
    if config.reference_types_enabled {
        kinds.push(Kind::Reference)?;
    }
    Ok(kinds)
}

// Returns the abstract heap types that references may go to, those of continuations aside.
fn common_heaps(
    alloc: Global,
    gc: bool,
    exceptions: bool,
) -> Result<Vec<AbstractHeapType>, AllocError>
    ensures offered { IfOk result (λ heaps. map abstract_heap_type heaps.items ≡ common_heaps gc exceptions) }
    ensures some { IfOk result (λ heaps. 0 < length heaps.items) }
{
    let mut heaps = vec![in alloc; AbstractHeapType::Func, AbstractHeapType::Extern]?;
    if gc {
        heaps.extend_from_slice(&[
            AbstractHeapType::Any,
            AbstractHeapType::Eq,
            AbstractHeapType::I31,
            AbstractHeapType::Struct,
            AbstractHeapType::Array,
            AbstractHeapType::None,
            AbstractHeapType::NoFunc,
            AbstractHeapType::NoExtern,
        ])?;
    }
    if exceptions {
        heaps.push(AbstractHeapType::Exn)?;
    }
    if gc && exceptions {
        heaps.push(AbstractHeapType::NoExn)?;
    }
    Ok(heaps)
}

// Returns the abstract heap types that references may go to.
fn offered_heaps(alloc: Global, config: &Config) -> Result<Vec<AbstractHeapType>, AllocError>
    ensures offered { IfOk result (λ heaps. map abstract_heap_type heaps.items ≡ offered_heaps config.now) }
    ensures some { IfOk result (λ heaps. 0 < length heaps.items) }
{
    let mut heaps = common_heaps(alloc, config.gc_enabled, config.exceptions_enabled)?;
    if config.stack_switching_enabled {
        heaps.push(AbstractHeapType::Cont)?;
        heaps.push(AbstractHeapType::NoCont)?;
    }
    Ok(heaps)
}

impl Offers {
    /// Returns the offers of the configuration.
    ///
    /// # Errors
    /// Where memory runs out.
    #[tactic(auto, unfolding(crate::specs::Offering::offers))]
    pub fn new(alloc: Global, config: &Config) -> Result<Offers, AllocError>
        ensures { IfOk result (λ o. o ≡ offers config.now) }
    {
        let kinds = offered_kinds(alloc, config)?;
        let heaps = offered_heaps(alloc, config)?;
        Ok(Offers {
            kinds,
            heaps,
            gc: config.gc_enabled,
            most_results: max_results(config),
        })
    }

    // Checks that a reference may go to one of so many defined types.
    fn asks_concrete(&self, bound: u32) -> bool
        ensures { result ≡ (self.now.gc && nat_lt 0 bound) }
    {
        self.gc && bound > 0
    }

    // Draws the heap type of a reference.
    #[tactic(auto, unfolding(crate::specs::Drawing::heap_at))]
    fn heap(&self, unstructured: &mut Unstructured<'_>, bound: u32) -> HeapType
        ensures drawn { IsDrawn heap_type result unstructured.new (heap_at self.now bound unstructured.old) }
        ensures taken { length unstructured.new ≤ length unstructured.old }
    {
        if bool_if(unstructured, self.asks_concrete(bound)) {
            let last = bound - 1;
            return HeapType::Concrete(unstructured.int_in_range(0..=u64::from(last)) as u32);
        }
        let heap = *unstructured.choose(&self.heaps).unwrap();
        HeapType::Abstract(heap)
    }

    /// Draws a reference type, which goes to an abstract type or to the type of an index below `bound`.
    #[tactic(auto, unfolding(crate::specs::Drawing::reference_at))]
    pub fn reference(&self, unstructured: &mut Unstructured<'_>, bound: u32) -> RefType
        ensures drawn { IsDrawn (λ reference. val_type (ValType.Ref reference)) result unstructured.new (reference_at self.now bound unstructured.old) }
        ensures taken { length unstructured.new ≤ length unstructured.old }
    {
        let non_null = bool_if(unstructured, self.gc);
        let heap_type = self.heap(unstructured, bound);
        RefType {
            nullable: !non_null,
            heap_type,
        }
    }

    /// Draws a value type, whose references go to types with indexes below `bound`.
    #[tactic(auto, using(crate::proofs::OfferLaws::value_reference))]
    pub fn value(&self, unstructured: &mut Unstructured<'_>, bound: u32) -> ValType
        ensures drawn { IsDrawn val_type result unstructured.new (value_at self.now bound unstructured.old) }
        ensures taken { length unstructured.new ≤ length unstructured.old }
    {
        match *unstructured.choose(&self.kinds).unwrap() {
            Kind::NumberOrVector(type_) => type_,
            Kind::Reference => ValType::Ref(self.reference(unstructured, bound)),
        }
    }

    /// Draws at most `max` value types, whose references go to types with indexes below `bound`.
    ///
    /// # Errors
    /// Where memory runs out. Some of the source's bytes may be taken by then.
    #[tactic(auto, using(crate::proofs::GrowLaws::grow_loop), unfolding(crate::specs::Drawing::values_at))]
    pub fn values(
        &self,
        alloc: Global,
        unstructured: &mut Unstructured<'_>,
        bound: u32,
        max: usize,
    ) -> Result<Vec<ValType>, AllocError>
        ensures drawn { Draws (λ v. map val_type v.items) unstructured.new result (values_at self.now bound max unstructured.old) }
        ensures taken { length unstructured.new ≤ length unstructured.old }
    {
        let mut values = Vec::new(alloc);
        'grow: while grows(unstructured, values.len(), 0, max) {
            values.push(self.value(unstructured, bound))?;
        }
        Ok(values)
    }

    /// Returns the most results of a function type.
    pub fn most_results(&self) -> usize
        ensures { result ≡ self.now.most_results }
    {
        self.most_results
    }
}
