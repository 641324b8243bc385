//! Small lists of types and functions, the bytes of their modules, and seeds that spell them.

use std::alloc::Global;
use wasm_core::types::{
    AbstractHeapType, CompositeType, FuncType, HeapType, RefType, SubType, ValType,
};

const HEADER: &[u8] = b"\0asm\x01\0\0\0";

// Number of value types that are no references.
const NUMBERS_AND_VECTORS: u8 = 5;

fn reference(heap: AbstractHeapType) -> ValType {
    ValType::Ref(RefType {
        nullable: true,
        heap_type: HeapType::Abstract(heap),
    })
}

// Returns the value type at a place, and its byte. There are eight.
fn value_type(place: u8) -> (ValType, u8) {
    match place {
        0 => (ValType::I32, 0x7f),
        1 => (ValType::I64, 0x7e),
        2 => (ValType::F32, 0x7d),
        3 => (ValType::F64, 0x7c),
        4 => (ValType::V128, 0x7b),
        5 => (reference(AbstractHeapType::Func), 0x70),
        6 => (reference(AbstractHeapType::Extern), 0x6f),
        _ => (reference(AbstractHeapType::Exn), 0x69),
    }
}

/// Lists that are drawn by numbers that look random. On the way it writes a seed that spells them, and the module that is to be made. All counts and
/// sizes are below 128, so that each is one byte.
#[derive(Drop)]
pub struct Drawing {
    state: u32,
    // By how many turns of their remainder the bytes of the seed are above the least.
    turn: u8,
    /// The seed.
    pub seed: Vec<u8>,
    /// The module, whose bodies are `unreachable` without locals.
    pub module: Vec<u8>,
    /// Number of bytes of the module before its bodies.
    pub front_len: usize,
    // The entries of the section that is written.
    entries: Vec<u8>,
}

/// Appends an item. Without memory it is missing, so that the test fails.
pub fn put<T: Drop>(items: &mut Vec<T>, item: T) {
    let _is_there = items.push(item).is_ok();
}

impl Drawing {
    /// Creates the start of the lists of this number.
    pub fn new(alloc: Global, number: u32, turn: u8) -> Drawing {
        let mut module = Vec::new(alloc);
        let _is_there = module.extend_from_slice(HEADER).is_ok();
        Drawing {
            state: number,
            turn,
            seed: Vec::new(alloc),
            module,
            front_len: 0,
            entries: Vec::new(alloc),
        }
    }

    // Returns the next number below the bound, or 0 where that is 0.
    fn below(&mut self, bound: u8) -> u8 {
        self.state = self
            .state
            .wrapping_mul(1_664_525)
            .wrapping_add(1_013_904_223);
        u8::try_from((self.state >> 16) % u32::from(bound.max(1))).unwrap_or(0)
    }

    // Spells a draw from the seed, which gives the remainder.
    fn spell(&mut self, remainder: u8, modulus: u8) {
        let byte = modulus.wrapping_mul(self.turn).wrapping_add(remainder);
        put(&mut self.seed, byte);
    }

    // The first six choices are the five numbers and vectors, and references.
    fn value_type(&mut self) -> ValType {
        let place = self.below(8);
        self.spell(place.min(NUMBERS_AND_VECTORS), 6);
        if place >= NUMBERS_AND_VECTORS {
            self.spell(place - NUMBERS_AND_VECTORS, 3);
        }
        let (value_type, byte) = value_type(place);
        put(&mut self.entries, byte);
        value_type
    }

    // Writes value types, each after a true, and a false, and returns them.
    fn value_types(&mut self, alloc: Global) -> Vec<ValType> {
        let count = self.below(5);
        put(&mut self.entries, count);
        let mut types = Vec::new(alloc);
        for _ in 0..count {
            self.spell(1, 2);
            put(&mut types, self.value_type());
        }
        self.spell(0, 2);
        types
    }

    // Returns a function type, which is a group by itself.
    fn group(&mut self, alloc: Global) -> Vec<SubType> {
        self.spell(1, 2);
        put(&mut self.entries, 0x60);
        let params = self.value_types(alloc);
        let results = self.value_types(alloc);
        let mut group = Vec::new(alloc);
        put(&mut group, function_type(params, results));
        group
    }

    // Ends a section of so many entries. There is none where these are none.
    fn end_section(&mut self, id: u8, count: u8) {
        if count > 0 {
            let size = u8::try_from(self.entries.len()).unwrap_or(0);
            put(&mut self.module, id);
            put(&mut self.module, size.wrapping_add(1));
            put(&mut self.module, count);
            let _is_there = self.module.extend_from_slice(&self.entries).is_ok();
            self.entries.clear();
        }
    }

    /// Returns the types, each of which is a group.
    pub fn groups(&mut self, alloc: Global) -> Vec<Vec<SubType>> {
        let count = self.below(6);
        let mut groups = Vec::new(alloc);
        for _ in 0..count {
            put(&mut groups, self.group(alloc));
        }
        self.spell(0, 2);
        self.end_section(1, count);
        groups
    }

    // Returns the index of a function's type. That of the only type takes no byte of the seed.
    fn function(&mut self, types: u8) -> u32 {
        let index = self.below(types);
        self.spell(1, 2);
        if types > 1 {
            self.spell(index, types);
        }
        put(&mut self.entries, index);
        u32::from(index)
    }

    /// Returns the functions of so many types: the index of the type of each.
    pub fn functions(&mut self, alloc: Global, types: usize) -> Vec<u32> {
        let types = u8::try_from(types).unwrap_or(0);
        let count = if types > 0 { self.below(8) } else { 0 };
        let mut functions = Vec::new(alloc);
        for _ in 0..count {
            put(&mut functions, self.function(types));
        }
        self.end_functions(count);
        functions
    }

    // Writes the bodies after the functions.
    fn end_functions(&mut self, count: u8) {
        self.end_section(3, count);
        self.front_len = self.module.len();
        for _ in 0..count {
            let body = &[0x03, 0x00, 0x00, 0x0b];
            let _is_there = self.entries.extend_from_slice(body).is_ok();
        }
        self.end_section(10, count);
    }
}

/// Returns a final function type without a supertype.
pub fn function_type(params: Vec<ValType>, results: Vec<ValType>) -> SubType {
    SubType {
        is_final: true,
        supertype_idx: None,
        composite_type: CompositeType::Func(FuncType::new(params, results)),
    }
}
