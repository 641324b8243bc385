//! The types of many modules in one session: what their ids are.

use std::alloc::Global;
use std::test::Fail;
use wasm_core::features::{Flags, WasmFeatures};
use wasm_gen::judge::{ErrorKind, TypesRef};
use wasm_gen::session::Session;
use wasm_gen_rows::modules::module_of;
use wasm_gen_rows::new_session::{on_new_session, on_types_after, on_types_of_both, renew};
use wasm_test_rows::fields::{is_row, two_fields};
use wasm_test_rows::rows::check_rows;

/// Modules: the letters of their groups, and their sections. Those of `e`, `f`, `g` and `i` have two types; those of the first three stand alone in others. The
/// generator makes `hh` of an open structure and its clone, and `i` of two structures that refer to each other. One with a `!` has a function whose body is refused, after which its groups stay in the list.
pub const MODULES: &str = "
    a       | 01 04 01 600000
    b       | 01 06 01 60017f017c
    c       | 01 03 01 5f00
    d       | 01 04 01 5e7f00
    e       | 01 08 01 4e025f005e7f00
    f       | 01 0b 01 4e0260000060017f017c
    g       | 01 07 01 4e025f005f00
    aa      | 01 07 02 600000 600000
    hh      | 01 0d 02 50005f017801 50005f017801
    i       | 01 0d 01 4e025f016301005f01630000
    ii      | 01 19 02 4e025f016301005f01630000 4e025f016303005f01630200
    ab      | 01 09 02 600000 60017f017c
    ba      | 01 09 02 60017f017c 600000
    ce      | 01 0a 02 5f00 4e025f005e7f00
    ec      | 01 0a 02 4e025f005e7f00 5f00
    bfb     | 01 15 03 60017f017c 4e0260000060017f017c 60017f017c
    gcg     | 01 0f 03 4e025f005f00 5f00 4e025f005f00
    fga     | 01 14 03 4e0260000060017f017c 4e025f005f00 600000
    abcdefg | 01 25 07 600000 60017f017c 5f00 5e7f00 4e025f005e7f00 4e0260000060017f017c 4e025f005f00
    gfedcba | 01 25 07 4e025f005f00 4e0260000060017f017c 4e025f005e7f00 5e7f00 5f00 60017f017c 600000
    a!      | 01 04 01 600000 functions 0a03010100
    bc!     | 01 08 02 60017f017c 5f00 functions 0a03010100
    agf!    | 01 14 03 600000 4e025f005f00 4e0260000060017f017c functions 0a03010100
";

/// The same of modules that are valid under features of the first version.
pub const FUNCTIONS: &str = "
    a       | 01 04 01 600000
    b       | 01 06 01 60017f017c
    aa      | 01 07 02 600000 600000
    ab      | 01 09 02 600000 60017f017c
    a!      | 01 04 01 600000 functions 0a03010100
    bab!    | 01 0e 03 60017f017c 600000 60017f017c functions 0a03010100
";

// Returns the number of types of a group.
fn size_of(letter: u8) -> u32 {
    if (letter >= b'e' && letter <= b'g') || letter == b'i' {
        2
    } else {
        1
    }
}

fn is_refused(module: &str) -> bool {
    module.ends_with('!')
}

// Returns the letters of a module's groups.
fn groups_of(module: &str) -> &[u8] {
    module.trim_end_matches('!').as_bytes()
}

// Checks that the type at a place has this id, and its group these many ids from the first one on.
fn is_of_group(types: TypesRef<'_>, place: u32, id: u32, first: u32, size: u32) -> Option<bool> {
    if place >= types.core_type_count_in_module() {
        return Some(false);
    }
    let found = types.core_type_at_in_module(place);
    let mut next = first;
    for element in types.rec_group_elements(types.rec_group_id_of(found)) {
        if element.index() != next as usize {
            return Some(false);
        }
        next = next.checked_add(1)?;
    }
    Some(found.index() == id as usize && next == first.checked_add(size)?)
}

/// The groups that a session has met: the first id of each, where it is one, and the id that comes next.
#[derive(Drop)]
pub struct Met {
    are_one: bool,
    first: [Option<u32>; 9],
    next: u32,
}

impl Met {
    /// Returns the state before a session meets any.
    pub fn new(are_one: bool) -> Met {
        Met {
            are_one,
            first: [None; 9],
            next: 0,
        }
    }

    // Returns the first id of a group that comes now.
    fn enter(&mut self, letter: u8) -> Option<u32> {
        let known = self.first.get_mut(usize::from(letter.checked_sub(b'a')?))?;
        if let Some(id) = *known {
            return Some(id);
        }
        let id = self.next;
        self.next = id.checked_add(size_of(letter))?;
        if self.are_one {
            *known = Some(id);
        }
        Some(id)
    }

    // Enters the groups of a module that was refused; whether that was for its body.
    fn enter_all(&mut self, groups: &[u8], kind: ErrorKind) -> Option<bool> {
        for letter in groups {
            let _ = self.enter(*letter)?;
        }
        Some(kind == ErrorKind::Body)
    }

    // Checks that the types of these groups have the ids that they are to have.
    fn agrees(&mut self, types: TypesRef<'_>, groups: &[u8]) -> Option<bool> {
        let mut place = 0u32;
        for letter in groups {
            let first = self.enter(*letter)?;
            for i in 0..size_of(*letter) {
                let size = size_of(*letter);
                if !is_of_group(types, place, first.checked_add(i)?, first, size)? {
                    return Some(false);
                }
                place = place.checked_add(1)?;
            }
        }
        Some(place == types.core_type_count_in_module())
    }
}

fn agrees(met: &mut Met, types: TypesRef<'_>, module: &str) -> bool {
    met.agrees(types, groups_of(module)) == Some(true)
}

/// Checks that the session answers on a row's module as it is to. None where memory runs out.
pub fn is_met(alloc: Global, session: &mut Session, met: &mut Met, row: &str) -> Option<bool> {
    let (module, sections) = two_fields(row)?;
    let bytes = module_of(alloc, sections)?;
    match on_types_after(session, &bytes, met, module, agrees) {
        Ok(holds) => Some(holds && !is_refused(module)),
        Err(e) if e.kind == ErrorKind::Memory => None,
        Err(e) => Some(
            is_refused(module) && met.enter_all(groups_of(module), e.kind) == Some(true),
        ),
    }
}

// Checks that a session answers so on three modules, one after the other.
fn are_all_met(
    alloc: Global,
    session: &mut Session,
    met: &mut Met,
    modules: [&str; 3],
) -> Option<bool> {
    for module in modules {
        if !is_met(alloc, session, met, module)? {
            return Some(false);
        }
    }
    Some(true)
}

// Does the same for a new session in the place of this one.
fn are_met(alloc: Global, session: &mut Session, modules: [&str; 3]) -> Option<bool> {
    renew(alloc, session);
    let mut met = Met::new(session.features().needs_type_canonicalization());
    are_all_met(alloc, session, &mut met, modules)
}

// Counts the orders of three modules of a table, of which this is the first, in which the answers are as they are to be.
fn count_after(alloc: Global, session: &mut Session, table: &str, first: &str) -> usize {
    let mut count = 0usize;
    for second in table.lines() {
        for third in table.lines() {
            let modules = [first, second, third];
            if is_row(second) && is_row(third) && are_met(alloc, session, modules) == Some(true) {
                count = count.saturating_add(1);
            }
        }
    }
    count
}

fn are_one_in_each_order(alloc: Global, session: &mut Session, first: &str) -> Option<bool> {
    Some(count_after(alloc, session, MODULES, first) == 529)
}

fn equal_types_have_one_id(alloc: Global, first: &str) -> Option<bool> {
    let features = WasmFeatures::default().union(WasmFeatures::GC);
    on_new_session(alloc, features, first, are_one_in_each_order)
}

/// Features under which each definition is a type of its own.
pub fn features_of_own_ids() -> WasmFeatures {
    let canonical = WasmFeatures::GC
        .union(WasmFeatures::FUNCTION_REFERENCES)
        .union(WasmFeatures::STACK_SWITCHING);
    WasmFeatures::default().difference(canonical)
}

fn are_many_in_each_order(alloc: Global, session: &mut Session, first: &str) -> Option<bool> {
    Some(count_after(alloc, session, FUNCTIONS, first) == 36)
}

fn each_definition_has_an_id(alloc: Global, first: &str) -> Option<bool> {
    on_new_session(alloc, features_of_own_ids(), first, are_many_in_each_order)
}

#[test]
fn types_have_their_ids_in_each_order_of_modules(rt: HostRuntime) -> Result<(), Fail> {
    check_rows(rt.alloc(), MODULES, 23, equal_types_have_one_id)?;
    Ok(check_rows(rt.alloc(), FUNCTIONS, 6, each_definition_has_an_id)?)
}

// Checks that the types of a module are what they were, and know no id of a later one.
fn stay(first: TypesRef<'_>, second: TypesRef<'_>) -> bool {
    if first.core_type_count_in_module() != 1 || second.core_type_count_in_module() != 2 {
        return false;
    }
    let new = second.core_type_at_in_module(0);
    let known = second.core_type_at_in_module(1);
    first.core_type_at_in_module(0) == known
        && first.get(known).is_some()
        && first.get(new).is_none()
        && second.get(new).is_some()
}

// Checks that the types of one module are kept while the session checks another.
fn keeps_types(alloc: Global, session: &mut Session, _row: &str) -> Option<bool> {
    let one = module_of(alloc, "01 06 01 60017f017c")?;
    let both = module_of(alloc, "01 09 02 600000 60017f017c")?;
    Some(on_types_of_both(session, &one, &both, stay))
}

#[test]
fn types_are_kept(rt: HostRuntime) {
    let holds = on_new_session(rt.alloc(), WasmFeatures::default(), "", keeps_types);
    assert!(rt; holds == Some(true));
}
