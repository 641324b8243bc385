//! Lists of globals or functions by the types that their values have.

use crate::merged::Merged;
use std::alloc::{AllocError, Global};
use wasm_core_types::types::{AbstractHeapType, CompositeType, HeapType, SubType, ValType};
use wasm_smith_validity::subtyping::{MAX_HEIGHT, is_heap_below};

/// Lists of items by the types of their values, where nullable references count as others do. An item stands in the list of its own type and in that of each
/// type above it, but an item of a bottom type stands in no list of a concrete type, since there may be many of those.
#[derive(Debug, Drop)]
pub struct ItemLists {
    // The first list stays empty. Then come those of types that aren't concrete, and last those of concrete types, as they are made.
    lists: Vec<Vec<u32>>,
    // by type index: the place of the list of a concrete type, or 0 where it has none
    places: Vec<u32>,
}

// The number of lists before those of concrete types.
const FIXED_LISTS: usize = 20;

// All abstract heap types.
const ABSTRACT_HEAP_TYPES: [AbstractHeapType; 14] = [
    AbstractHeapType::Func,
    AbstractHeapType::Extern,
    AbstractHeapType::Any,
    AbstractHeapType::None,
    AbstractHeapType::NoExtern,
    AbstractHeapType::NoFunc,
    AbstractHeapType::Eq,
    AbstractHeapType::Struct,
    AbstractHeapType::Array,
    AbstractHeapType::I31,
    AbstractHeapType::Exn,
    AbstractHeapType::NoExn,
    AbstractHeapType::Cont,
    AbstractHeapType::NoCont,
];

// Returns the place of the list of an abstract heap type.
fn abstract_place(heap: AbstractHeapType) -> usize {
    match heap {
        AbstractHeapType::Func => 6,
        AbstractHeapType::Extern => 7,
        AbstractHeapType::Any => 8,
        AbstractHeapType::None => 9,
        AbstractHeapType::NoExtern => 10,
        AbstractHeapType::NoFunc => 11,
        AbstractHeapType::Eq => 12,
        AbstractHeapType::Struct => 13,
        AbstractHeapType::Array => 14,
        AbstractHeapType::I31 => 15,
        AbstractHeapType::Exn => 16,
        AbstractHeapType::NoExn => 17,
        AbstractHeapType::Cont => 18,
        AbstractHeapType::NoCont => 19,
    }
}

// Returns the index of the supertype that a type declares.
fn supertype_of(types: &[SubType], index: u32) -> Option<u32> {
    match types.get(index as usize) {
        Some(ty) => ty.supertype_idx,
        None => None,
    }
}

// Returns the bottom type below a concrete type.
fn bottom_of(types: &[SubType], index: u32) -> Option<AbstractHeapType> {
    match types.get(index as usize) {
        Some(ty) => Some(match &ty.composite_type {
            CompositeType::Func(_) => AbstractHeapType::NoFunc,
            CompositeType::Struct(_) | CompositeType::Array(_) => AbstractHeapType::None,
            CompositeType::Cont(_) => AbstractHeapType::NoCont,
        }),
        None => None,
    }
}

// Returns the place of the list of the bottom type below a type, and 0 for a type that isn't concrete.
fn bottom_place(types: &[SubType], ty: &ValType) -> usize {
    let ValType::Ref(reference) = ty else {
        return 0;
    };
    let HeapType::Concrete(index) = reference.heap_type else {
        return 0;
    };
    match bottom_of(types, index) {
        Some(bottom) => abstract_place(bottom),
        None => 0,
    }
}

impl ItemLists {
    /// Returns empty lists.
    pub fn new(alloc: Global) -> ItemLists {
        ItemLists {
            lists: Vec::new(alloc),
            places: Vec::new(alloc),
        }
    }

    // Returns the place of the list of a concrete type, and 0 where it has none.
    fn concrete_place(&self, index: u32) -> usize {
        match self.places.get(index as usize) {
            Some(place) => *place as usize,
            None => 0,
        }
    }

    // Returns the place of the list of a type, and 0 where it has none.
    fn place_of(&self, ty: &ValType) -> usize {
        match ty {
            ValType::I32 => 1,
            ValType::I64 => 2,
            ValType::F32 => 3,
            ValType::F64 => 4,
            ValType::V128 => 5,
            ValType::Ref(reference) => match reference.heap_type {
                HeapType::Abstract(heap) => abstract_place(heap),
                HeapType::Concrete(index) => self.concrete_place(index),
            },
        }
    }

    // Returns the list at a place.
    fn list(&self, place: usize) -> &[u32] {
        match self.lists.get(place) {
            Some(list) => list,
            None => &[],
        }
    }

    /// Returns the items whose values have a type.
    pub fn of_type(&self, types: &[SubType], ty: &ValType) -> Merged<'_> {
        Merged {
            first: self.list(self.place_of(ty)),
            second: self.list(bottom_place(types, ty)),
        }
    }

    // Adds an item to the list at a place.
    fn push(&mut self, alloc: Global, place: usize, item: u32) -> Result<(), AllocError> {
        'grow: while self.lists.len() <= place {
            self.lists.push(Vec::new(alloc))?;
        }
        let list = &mut self.lists[place];
        list.push(item)?;
        Ok(())
    }

    // Adds an item to the list of a concrete type.
    fn push_concrete(
        &mut self,
        alloc: Global,
        types: &[SubType],
        index: u32,
        item: u32,
    ) -> Result<(), AllocError> {
        let index = index as usize;
        if index >= types.len() {
            return Ok(());
        }
        if self.places.len() <= index {
            self.places.resize(types.len(), 0)?;
        }
        if self.places[index] == 0 {
            let place = self.lists.len().max(FIXED_LISTS);
            self.places[index] = place.min(u32::MAX as usize) as u32;
        }
        let place = self.places[index] as usize;
        self.push(alloc, place, item)
    }

    // Adds an item to the lists of a concrete type and of its supertypes.
    fn push_upward(
        &mut self,
        alloc: Global,
        types: &[SubType],
        index: u32,
        item: u32,
    ) -> Result<(), AllocError> {
        let mut at = index;
        for _ in 0..MAX_HEIGHT + 1 {
            self.push_concrete(alloc, types, at, item)?;
            let Some(supertype) = supertype_of(types, at) else {
                return Ok(());
            };
            at = supertype;
        }
        Ok(())
    }

    // Adds an item to the lists of a heap type and of the types above it.
    fn add_reference(
        &mut self,
        alloc: Global,
        types: &[SubType],
        heap: HeapType,
        item: u32,
    ) -> Result<(), AllocError> {
        for above in ABSTRACT_HEAP_TYPES {
            if is_heap_below(types, heap, HeapType::Abstract(above)) {
                self.push(alloc, abstract_place(above), item)?;
            }
        }
        if let HeapType::Concrete(index) = heap {
            self.push_upward(alloc, types, index, item)?;
        }
        Ok(())
    }

    /// Adds an item whose value has a type. Items are added in the order of their indexes.
    ///
    /// # Errors
    /// Where memory runs out.
    pub fn add(
        &mut self,
        alloc: Global,
        types: &[SubType],
        ty: &ValType,
        item: u32,
    ) -> Result<(), AllocError> {
        match ty {
            ValType::Ref(reference) => self.add_reference(alloc, types, reference.heap_type, item),
            _ => self.push(alloc, self.place_of(ty), item),
        }
    }
}
