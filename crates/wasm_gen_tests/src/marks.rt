//! Counts of modules by marks of their types.

use crate::lists::put;
use crate::narrowings::{is_narrowed_field, some_are_narrowed, some_fields_are_narrowed};
use crate::references::{Span, group_at, group_refers_to};
use crate::same_types::is_same_type;
use std::alloc::Global;
use wasm_core::types::{CompositeType, SubType};
use wasm_smith_types::shifts::Shift;

/// Something that the types of a module may have.
#[derive(Clone, Copy, Debug)]
pub enum Mark {
    /// A group of several types.
    Several,
    /// A group that refers to itself, and its clone right after it.
    Clone,
    /// A function type below another.
    Function,
    /// A structure type below another.
    Structure,
    /// An array type below another.
    Array,
    /// A parameter that may be null, though the supertype's may not.
    Parameter,
    /// A result that may not be null, though the supertype's may.
    Result,
    /// The same of a field that can't be set.
    Field,
    /// The same of elements that can't be set.
    Element,
    /// A type with three others above it.
    Depth,
    /// A reference to a type of its own group.
    Inside,
    /// A reference to a type of an earlier group.
    Back,
}

const MARKS: &[Mark] = &[
    Mark::Several,
    Mark::Clone,
    Mark::Function,
    Mark::Structure,
    Mark::Array,
    Mark::Parameter,
    Mark::Result,
    Mark::Field,
    Mark::Element,
    Mark::Depth,
    Mark::Inside,
    Mark::Back,
];

/// The number of modules that have a mark.
#[derive(Clone, Copy, Debug)]
pub struct Count {
    /// The mark.
    pub mark: Mark,
    /// Number of modules that have it.
    pub modules: u32,
}

/// Returns a count of no modules for each mark.
pub fn no_counts(alloc: Global) -> Vec<Count> {
    let mut counts = Vec::new(alloc);
    for mark in MARKS {
        put(
            &mut counts,
            Count {
                mark: *mark,
                modules: 0,
            },
        );
    }
    counts
}

/// Counts a module with these types, in groups of these sizes.
pub fn count_module(alloc: Global, counts: &mut [Count], types: &[SubType], sizes: &[u32]) {
    for count in counts.iter_mut() {
        if has(alloc, types, sizes, count.mark) {
            count.modules = count.modules.wrapping_add(1);
        }
    }
}

/// Checks that there are counts, and each is of some module.
pub fn are_all_counted(counts: &[Count]) -> bool {
    for count in counts {
        if count.modules == 0 {
            return false;
        }
    }
    !counts.is_empty()
}

// Checks that types in groups of these sizes have a mark.
fn has(alloc: Global, types: &[SubType], sizes: &[u32], mark: Mark) -> bool {
    match mark {
        Mark::Several => has_group_of_several(sizes),
        Mark::Clone => has_clone(alloc, types, sizes),
        Mark::Depth => has_deep_type(types),
        Mark::Inside => refer_inside(types, sizes),
        Mark::Back => refer_back(types, sizes),
        _ => has_pair(types, mark),
    }
}

fn has_group_of_several(sizes: &[u32]) -> bool {
    for size in sizes {
        if *size > 1 {
            return true;
        }
    }
    false
}

// Checks that a type is below another, and that the two have a mark.
fn has_pair(types: &[SubType], mark: Mark) -> bool {
    for type_ in types {
        if let Some(above) = supertype_of(types, type_) {
            if is_pair(&type_.composite_type, &above.composite_type, mark) {
                return true;
            }
        }
    }
    false
}

fn supertype_of<'a>(types: &'a [SubType], type_: &SubType) -> Option<&'a SubType> {
    let index = type_.supertype_idx?;
    types.get(index as usize)
}

// Checks that a type and its supertype have a mark.
fn is_pair(low: &CompositeType, high: &CompositeType, mark: Mark) -> bool {
    match (low, high) {
        (CompositeType::Func(low), CompositeType::Func(high)) => match mark {
            Mark::Function => true,
            Mark::Parameter => some_are_narrowed(high.params(), low.params()),
            Mark::Result => some_are_narrowed(low.results(), high.results()),
            _ => false,
        },
        (CompositeType::Struct(low), CompositeType::Struct(high)) => match mark {
            Mark::Structure => true,
            Mark::Field => some_fields_are_narrowed(low.fields(), high.fields()),
            _ => false,
        },
        (CompositeType::Array(low), CompositeType::Array(high)) => match mark {
            Mark::Array => true,
            Mark::Element => is_narrowed_field(&low.0, &high.0),
            _ => false,
        },
        _ => false,
    }
}

// Checks that a type has three others above it.
fn has_deep_type(types: &[SubType]) -> bool {
    for type_ in types {
        if is_deep(types, type_) {
            return true;
        }
    }
    false
}

fn is_deep(types: &[SubType], type_: &SubType) -> bool {
    let mut at = type_;
    for _ in 0..3 {
        match supertype_of(types, at) {
            Some(above) => at = above,
            None => return false,
        }
    }
    true
}

// Checks that a type refers to one of its own group.
fn refer_inside(types: &[SubType], sizes: &[u32]) -> bool {
    let mut start: u32 = 0;
    for size in sizes {
        let end = start.wrapping_add(*size);
        let span = Span { start, end };
        if group_refers_to(group_at(types, span), span) {
            return true;
        }
        start = end;
    }
    false
}

// Checks that a type refers to one of an earlier group.
fn refer_back(types: &[SubType], sizes: &[u32]) -> bool {
    let mut start: u32 = 0;
    for size in sizes {
        let end = start.wrapping_add(*size);
        let earlier = Span {
            start: 0,
            end: start,
        };
        if group_refers_to(group_at(types, Span { start, end }), earlier) {
            return true;
        }
        start = end;
    }
    false
}

// Checks that a group refers to itself, and that its clone follows.
fn has_clone(alloc: Global, types: &[SubType], sizes: &[u32]) -> bool {
    let mut last = Span { start: 0, end: 0 };
    for size in sizes {
        let span = Span {
            start: last.end,
            end: last.end.wrapping_add(*size),
        };
        if is_clone(alloc, types, last, span) {
            return true;
        }
        last = span;
    }
    false
}

// Checks that the first of two neighbouring groups refers to itself, and that the second is its clone.
fn is_clone(alloc: Global, types: &[SubType], first: Span, second: Span) -> bool {
    let (group, clone) = (group_at(types, first), group_at(types, second));
    let shift = Shift {
        start: first.start,
        by: second.start.wrapping_sub(first.start),
    };
    group.len() == clone.len()
        && group_refers_to(group, first)
        && are_copies(alloc, group, clone, shift)
}

fn are_copies(alloc: Global, group: &[SubType], clone: &[SubType], shift: Shift) -> bool {
    for (type_, copy) in group.iter().zip(clone) {
        if !is_copy(alloc, type_, copy, shift) {
            return false;
        }
    }
    true
}

// Checks that a type with its references shifted is the copy.
fn is_copy(alloc: Global, type_: &SubType, copy: &SubType, shift: Shift) -> bool {
    let shifted = shift.sub_type(alloc, type_);
    let holds = match &shifted {
        Ok(shifted) => is_same_type(shifted, copy),
        Err(_) => false,
    };
    // (dropped by a call, which is cheaper to prove)
    drop(shifted);
    holds
}
