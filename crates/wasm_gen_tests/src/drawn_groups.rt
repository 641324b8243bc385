//! Seeds for lists of groups and functions that are drawn by numbers.

use crate::generated::{is_accepted, new_module};
use crate::lists::put;
use crate::numbers::Numbers;
use crate::same_types::is_same_type;
use std::alloc::Global;
use wasm_core::types::{
    AbstractHeapType, ArrayType, CompositeType, FieldType, FuncType, HeapType, RefType,
    StorageType, StructType, SubType, ValType,
};
use wasm_gen::seed::seed_for;
use wasm_gen::smith::Config;
use wasm_smith::module::Module;

// The abstract heap types, those of continuations last.
const HEAPS: &[AbstractHeapType] = &[
    AbstractHeapType::Func,
    AbstractHeapType::Extern,
    AbstractHeapType::Any,
    AbstractHeapType::Eq,
    AbstractHeapType::I31,
    AbstractHeapType::Struct,
    AbstractHeapType::Array,
    AbstractHeapType::None,
    AbstractHeapType::NoFunc,
    AbstractHeapType::NoExtern,
    AbstractHeapType::Exn,
    AbstractHeapType::NoExn,
    AbstractHeapType::Cont,
    AbstractHeapType::NoCont,
];

// Lists that are drawn by numbers.
#[derive(Drop)]
struct Lists {
    numbers: Numbers,
    // the number of abstract heap types that references go to
    heaps: u32,
    // the number of types before the end of the group
    end: u32,
    // the indexes of the function types
    functions: Vec<u32>,
}

impl Lists {
    fn heap(&mut self) -> HeapType {
        if self.end > 0 && self.numbers.is_one_of(2) {
            return HeapType::Concrete(self.numbers.below(self.end));
        }
        let place = self.numbers.below(self.heaps) as usize;
        match HEAPS.get(place) {
            Some(heap) => HeapType::Abstract(*heap),
            None => HeapType::Abstract(AbstractHeapType::Func),
        }
    }

    fn value(&mut self) -> ValType {
        match self.numbers.below(8) {
            0 => ValType::I32,
            1 => ValType::I64,
            2 => ValType::F32,
            3 => ValType::F64,
            4 => ValType::V128,
            _ => ValType::Ref(RefType {
                nullable: true,
                heap_type: self.heap(),
            }),
        }
    }

    fn storage(&mut self) -> StorageType {
        match self.numbers.below(6) {
            0 => StorageType::I8,
            1 => StorageType::I16,
            _ => StorageType::Val(self.value()),
        }
    }

    fn field(&mut self) -> FieldType {
        FieldType {
            element_type: self.storage(),
            mutable: self.numbers.is_one_of(2),
        }
    }

    // Returns a small number, and once in a while the greatest that there may be.
    fn count(&mut self) -> u32 {
        if self.numbers.is_one_of(16) {
            return 20;
        }
        self.numbers.below(4)
    }

    fn values(&mut self, alloc: Global) -> Vec<ValType> {
        let mut values = Vec::new(alloc);
        for _ in 0..self.count() {
            put(&mut values, self.value());
        }
        values
    }

    fn fields(&mut self, alloc: Global) -> Vec<FieldType> {
        let mut fields = Vec::new(alloc);
        for _ in 0..self.count() {
            put(&mut fields, self.field());
        }
        fields
    }

    // Draws the composite type of the type of an index.
    fn composite(&mut self, alloc: Global, index: u32) -> CompositeType {
        match self.numbers.below(3) {
            0 => {
                put(&mut self.functions, index);
                let params = self.values(alloc);
                CompositeType::Func(FuncType::new(params, self.values(alloc)))
            }
            1 => CompositeType::Struct(StructType::new(self.fields(alloc))),
            _ => CompositeType::Array(ArrayType(self.field())),
        }
    }

    fn sub_type(&mut self, alloc: Global, index: u32) -> SubType {
        SubType {
            is_final: self.numbers.is_one_of(2),
            supertype_idx: None,
            composite_type: self.composite(alloc, index),
        }
    }

    fn group(&mut self, alloc: Global) -> Vec<SubType> {
        let start = self.end;
        let size = self.numbers.below(4).wrapping_add(1);
        self.end = start.wrapping_add(size);
        let mut group = Vec::new(alloc);
        for place in 0..size {
            put(&mut group, self.sub_type(alloc, start.wrapping_add(place)));
        }
        group
    }

    fn groups(&mut self, alloc: Global) -> Vec<Vec<SubType>> {
        let mut groups = Vec::new(alloc);
        for _ in 0..self.numbers.below(5) {
            put(&mut groups, self.group(alloc));
        }
        groups
    }

    // Draws the functions: the index of the type of each.
    fn funcs(&mut self, alloc: Global) -> Vec<u32> {
        let mut funcs = Vec::new(alloc);
        for _ in 0..self.numbers.below(5) {
            let types = u32::try_from(self.functions.len()).unwrap_or(0);
            let place = self.numbers.below(types) as usize;
            if let Some(index) = self.functions.get(place) {
                put(&mut funcs, *index);
            }
        }
        funcs
    }

    // Returns a configuration for the lists, after which there may be more types, or not.
    fn config(&mut self) -> Config {
        let mut config = Config::default();
        config.stack_switching_enabled = self.heaps > 12;
        config.max_types = match self.numbers.below(4) {
            0 => self.end,
            1 => self.end.wrapping_add(1),
            2 => 100,
            _ => 1000,
        };
        config
    }
}

// Checks that the types are those of the groups, one group after the other.
fn are_types(types: &[SubType], groups: &[Vec<SubType>]) -> bool {
    let mut rest = types;
    for group in groups {
        for expected in group {
            let Some((type_, others)) = rest.split_first() else {
                return false;
            };
            if !is_same_type(type_, expected) {
                return false;
            }
            rest = others;
        }
    }
    rest.is_empty()
}

// Checks that these are the sizes of the groups.
fn are_sizes(sizes: &[u32], groups: &[Vec<SubType>]) -> bool {
    for (size, group) in sizes.iter().zip(groups) {
        if *size as usize != group.len() {
            return false;
        }
    }
    sizes.len() == groups.len()
}

// Checks that a module has just these groups and functions, without locals.
fn has_lists(module: &Module, groups: &[Vec<SubType>], funcs: &[u32]) -> bool {
    for body in module.bodies() {
        if !body.locals.is_empty() {
            return false;
        }
    }
    module.funcs() == funcs
        && are_sizes(module.group_sizes(), groups)
        && are_types(module.types(), groups)
}

// Checks that just these groups and functions are made of the seed.
fn makes(
    alloc: Global,
    config: &Config,
    (groups, funcs): (&[Vec<SubType>], &[u32]),
    seed: &[u8],
) -> bool {
    let made = new_module(alloc, config, seed);
    let holds = match &made {
        Ok(module) => has_lists(module, groups, funcs),
        Err(_) => false,
    };
    // (dropped by a call, which is cheaper to prove)
    drop(made);
    holds
}

// Checks that there is a seed that makes just these groups and functions, in a module that is accepted.
fn have_seed(alloc: Global, config: &Config, groups: &[Vec<SubType>], funcs: &[u32]) -> bool {
    match seed_for(alloc, config, groups, funcs) {
        Ok(Some(seed)) => {
            makes(alloc, config, (groups, funcs), &seed) && is_accepted(alloc, config, &seed)
        }
        _ => false,
    }
}

// Checks that there is a seed for the lists of this number.
fn are_made(alloc: Global, number: u32) -> bool {
    let mut lists = Lists {
        numbers: Numbers::new(u64::from(number)),
        heaps: if number % 2 == 0 { 12 } else { 14 },
        end: 0,
        functions: Vec::new(alloc),
    };
    let groups = lists.groups(alloc);
    let funcs = lists.funcs(alloc);
    let holds = have_seed(alloc, &lists.config(), &groups, &funcs);
    // (dropped by calls, which are cheaper to prove)
    drop(groups);
    drop(lists);
    holds
}

#[test]
fn drawn_groups_are_made_from_seeds(rt: HostRuntime) {
    for number in 0..5000u32 {
        assert!(rt; are_made(rt.alloc(), number));
    }
}
