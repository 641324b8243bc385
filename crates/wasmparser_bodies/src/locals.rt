//! The locals of a body, in runs.

ghost use Rattle.std.specs.Prelude.{◌≡◌, ◌+◌, ◌-◌, ◌≤◌, ℕ, List, [], ◌++◌, Err, MatchOption, None, OnErr, OnOk, Some, length, map, option_map, replicate, slice_get, take};
ghost use Rattle.wasm_bodies.specs.Bodies.{declared_local, parameter};
ghost use Rattle.wasm_spec.specs.Limits as limits;
ghost use Rattle.wasm_spec.specs.Types as types;
ghost use Rattle.wasmparser_bodies.specs.KeptLocals.{later_at, locals_with, no_locals, type_or_i32};
ghost use Rattle.wasmparser_bodies.specs.LocalRuns.{AreJoined, AreLaidOut, kept_of, local_seen, locals_in};
ghost use Rattle.wasmparser_types.specs.Index.{Index};
ghost use Rattle.wasmparser_types.specs.ValTypes.{val_type};

use std::alloc::{AllocError, Global};
use std::marker::Model;
use wasm_core_types::limits::MAX_WASM_FUNCTION_LOCALS;
use wasmparser_types::val_type::ValType;

/// A local.
#[derive(Clone, Copy, Debug, PartialEq, Eq)]
pub struct Local {
    /// `true` if it has a value from the start, as parameters and locals of a type with a default do.
    pub is_set: bool,
    /// Its type, with ids.
    pub value_type: ValType,
}

/// The reason why locals weren't added.
#[derive(Clone, Copy, Debug, PartialEq, Eq)]
pub enum LocalsError {
    /// There would be more than the limit lets through.
    Limit,
    /// Memory ran out.
    Memory,
}

// Equal locals one after the other: how many, and how many there are up to the last of them.
#[derive(Clone, Copy)]
struct Run {
    count: u32,
    end: u32,
    local: Local,
}

// Number of locals that are kept one by one. Of further parameters only the number is kept, since their types are in the function's type: a body takes time by
// its bytes, not by its parameters.
const FIRST: u32 = 64;

/// The locals of a body, its parameters first. They take memory by the run, and no more than 64 parameters are copied.
#[derive(Drop)]
pub struct Locals {
    first: Vec<Local>,
    // Number of parameters after the first ones.
    later: u32,
    // Those after these.
    runs: Vec<Run>,
    count: u32,
}

impl Model for Locals {
    ghost use Rattle.wasmparser_bodies.specs.KeptLocals.{KeptLocals};

    ghost Value = { KeptLocals };

    ghost use Rattle.wasmparser_bodies.specs.LocalRuns.{AreWithinLimit, kept_inside};

    ghost view = { kept_inside };

    ghost invariant = { AreWithinLimit };
}

// Returns the local of a parameter, which has a value from the start.
fn parameter(value_type: ValType) -> Local
    ensures { local_seen result ≡ parameter (val_type value_type) }
{
    Local {
        is_set: true,
        value_type,
    }
}

// Returns the type of a parameter, i32 where there is none.
fn type_at(params: &[ValType], index: u32) -> ValType
    ensures { val_type result ≡ type_or_i32 (slice_get (map val_type params.now) index) }
{
    match params.get(index as usize) {
        Some(ty) => *ty,
        None => ValType::I32,
    }
}

// Keeps parameters, as many as this.
fn keep_parameters(
    first: &mut Vec<Local>,
    params: &[ValType],
    count: usize,
) -> Result<(), AllocError>
    requires empty { first.old.items ≡ [] }
    requires among { count ≤ length params.now }
    ensures { OnOk result (map local_seen first.new.items ≡ map parameter (map val_type (take count params.now))) }
{
    for index in 0..count {
        first.push(parameter(params[index]))?;
    }
    Ok(())
}

// Adds equal locals, at the first ones as long as there is capacity.
fn add_locals(
    first: &mut Vec<Local>,
    runs: &mut Vec<Run>,
    start: u32,
    count: u32,
    local: &Local,
) -> Result<(), AllocError>
    requires few { length first.old.items ≤ 64 }
    requires within { start + count ≤ limits.most limits.Locals }
    ensures ok { (later : ℕ) (params : List (types.ValType Index)) → AreLaidOut first.old.items later runs.old.items start → OnOk result (locals_with params (kept_of first.new.items later runs.new.items) ≡ locals_with params (kept_of first.old.items later runs.old.items) ++ replicate count (local_seen local.now)) }
    ensures laid_out { (later : ℕ) → AreLaidOut first.old.items later runs.old.items start → OnOk result (AreLaidOut first.new.items later runs.new.items (start + count)) }
    ensures refused { OnErr result ((first.new.items ≡ first.old.items) × (runs.new.items ≡ runs.old.items)) }
{
    let room = FIRST as usize - first.len();
    if count as usize <= room {
        first.resize(first.len() + count as usize, *local)?;
        return Ok(());
    }
    runs.reserve(1)?;
    first.resize(FIRST as usize, *local)?;
    runs.push_reserved(Run {
        count: count - room as u32,
        end: start + count,
        local: *local,
    });
    Ok(())
}

// Returns the run that an index falls in, if it isn't past all of them.
fn run_at(runs: &[Run], index: u32) -> Option<&Run>
    ensures { (start end : ℕ) → AreJoined start runs.now end → start ≤ index → option_map (λ run. local_seen run.now.local) result ≡ slice_get (locals_in runs.now) (index - start) }
{
    let mut low = 0;
    let mut high = runs.len();
    while low < high {
        let middle = low + (high - low) / 2;
        if runs[middle].end <= index {
            low = middle + 1;
        } else {
            high = middle;
        }
    }
    if low < runs.len() {
        Some(&runs[low])
    } else {
        None
    }
}

impl Locals {
    /// Creates a list without a local. Nothing is allocated.
    pub fn new(alloc: Global) -> Self
        ensures { result ≡ no_locals }
    {
        Locals {
            first: Vec::new(alloc),
            later: 0,
            runs: Vec::new(alloc),
            count: 0,
        }
    }

    /// Clears it for the next body: as a new one, but the capacity is kept.
    pub fn reset(&mut self)
        ensures { self.new ≡ no_locals }
    {
        self.first.clear();
        self.later = 0;
        self.runs.clear();
        self.count = 0;
    }

    fn add(&mut self, count: u32, local: &Local) -> Result<(), LocalsError>
        ensures ok { (params : List (types.ValType Index)) → OnOk result (locals_with params self.new ≡ locals_with params self.old ++ replicate count (local_seen local.now)) }
        ensures within { (params : List (types.ValType Index)) → OnOk result (limits.IsPassedBy limits.Locals (length (locals_with params self.old) + count) → ⊥) }
        ensures limit { (params : List (types.ValType Index)) → result ≡ Err LocalsError.Limit → limits.IsPassedBy limits.Locals (length (locals_with params self.old) + count) }
        ensures memory { (params : List (types.ValType Index)) → result ≡ Err LocalsError.Memory → limits.IsPassedBy limits.Locals (length (locals_with params self.old) + count) → ⊥ }
        ensures refused { OnErr result (self.new ≡ self.old) }
    {
        if u64::from(self.count) + u64::from(count) > MAX_WASM_FUNCTION_LOCALS {
            return Err(LocalsError::Limit);
        }
        match add_locals(&mut self.first, &mut self.runs, self.count, count, local) {
            Ok(()) => {
                self.count += count;
                Ok(())
            }
            Err(_) => Err(LocalsError::Memory),
        }
    }

    /// Begins with the parameters, of which no more than 64 are copied.
    ///
    /// # Errors
    /// `Limit` only where there are more than 50,000, and else `Memory`. No local is left then.
    pub fn define_parameters(&mut self, params: &[ValType]) -> Result<(), LocalsError>
        requires { self.old ≡ no_locals }
        ensures ok { OnOk result (locals_with (map val_type params.now) self.new ≡ map parameter (map val_type params.now)) }
        ensures within { OnOk result (limits.IsPassedBy limits.Locals (length params.now) → ⊥) }
        ensures limit { result ≡ Err LocalsError.Limit → limits.IsPassedBy limits.Locals (length params.now) }
        ensures memory { result ≡ Err LocalsError.Memory → limits.IsPassedBy limits.Locals (length params.now) → ⊥ }
        ensures refused { OnErr result (self.new ≡ self.old) }
    {
        if params.len() > MAX_WASM_FUNCTION_LOCALS as usize {
            return Err(LocalsError::Limit);
        }
        let count = params.len().min(FIRST as usize);
        match keep_parameters(&mut self.first, params, count) {
            Ok(()) => {
                self.later = (params.len() - count) as u32;
                self.runs.clear();
                self.count = params.len() as u32;
                Ok(())
            }
            Err(_) => {
                self.first.clear();
                Err(LocalsError::Memory)
            }
        }
    }

    /// Defines a run of locals, which a body declares.
    ///
    /// # Errors
    /// `Limit` exactly where there would be more than 50,000 locals, and else `Memory`. The locals are then as they were.
    pub fn define(&mut self, count: u32, value_type: ValType) -> Result<(), LocalsError>
        ensures ok { (params : List (types.ValType Index)) → OnOk result (locals_with params self.new ≡ locals_with params self.old ++ replicate count (declared_local (val_type value_type))) }
        ensures within { (params : List (types.ValType Index)) → OnOk result (limits.IsPassedBy limits.Locals (length (locals_with params self.old) + count) → ⊥) }
        ensures limit { (params : List (types.ValType Index)) → result ≡ Err LocalsError.Limit → limits.IsPassedBy limits.Locals (length (locals_with params self.old) + count) }
        ensures memory { (params : List (types.ValType Index)) → result ≡ Err LocalsError.Memory → limits.IsPassedBy limits.Locals (length (locals_with params self.old) + count) → ⊥ }
        ensures refused { OnErr result (self.new ≡ self.old) }
    {
        let local = Local {
            is_set: value_type.is_defaultable(),
            value_type,
        };
        self.add(count, &local)
    }

    /// Returns the number of locals.
    pub fn len(&self) -> u32
        ensures count { (params : List (types.ValType Index)) → result ≡ length (locals_with params self.now) }
        ensures within { (params : List (types.ValType Index)) → length (locals_with params self.now) ≤ limits.most limits.Locals }
    {
        self.count
    }

    /// Returns the local of an index, if it is kept: a parameter past the first 64 is not.
    #[inline(always)]
    pub fn get(&self, index: u32) -> Option<&Local>
        ensures { (params : List (types.ValType Index)) → MatchOption result (slice_get (locals_with params self.now) index ≡ later_at params self.now index) (λ local. slice_get (locals_with params self.now) index ≡ Some (local_seen local.now)) }
    {
        if (index as usize) < self.first.len() {
            return Some(&self.first[index as usize]);
        }
        if index < FIRST + self.later {
            return None;
        }
        match run_at(&self.runs, index) {
            Some(run) => Some(&run.local),
            None => None,
        }
    }

    // Returns the local of an index, if it is a parameter that isn't kept.
    fn later(&self, params: &[ValType], index: u32) -> Option<Local>
        ensures { option_map local_seen result ≡ later_at (map val_type params.now) self.now index }
    {
        if index < FIRST || index >= FIRST + self.later {
            return None;
        }
        Some(parameter(type_at(params, index)))
    }

    /// Returns the local of an index, in a function with these parameters: those that the locals began with.
    pub fn find(&self, params: &[ValType], index: u32) -> Option<Local>
        ensures { option_map local_seen result ≡ slice_get (locals_with (map val_type params.now) self.now) index }
    {
        match self.get(index) {
            Some(local) => Some(*local),
            None => self.later(params, index),
        }
    }
}
