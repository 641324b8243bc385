//! The operands, the open blocks and the assigned locals of a body.

ghost use Rattle.std.specs.Prelude.{◌≡◌, ◌≢◌, ◌↔◌, ◌+◌, ◌-◌, ◌<◌, ◌≤◌, ◌∷◌, ℕ, [], IsTrue, MatchOption, None, OnErr, OnOk, Some, drop, length, map, option_map, reverse, slice_get, slice_index, take, vec_len};
ghost use Rattle.std.specs.Bool.{OnFalse, OnTrue};
ghost use Rattle.wasm_bodies.specs.BodyContext.{ModuleItems, is_among};
ghost use Rattle.wasm_bodies.specs.Operands.{Known, State, all_taken, fresh, nothing_known, popped, put};
ghost use Rattle.wasmparser_bodies.specs.StackChanges.{IsBelowItself, all_known, at_list, else_with, entered_by, left_with, lowered, marked, places_of, replaced_by};
ghost use Rattle.wasmparser_bodies.specs.StackViews.{all_of, base_of, block_kept, block_seen, block_with_ids, frame_kind, is_open_of, operand, place_kept};
ghost use Rattle.wasmparser_types.specs.Index.{Index};
ghost use Rattle.wasmparser_types.specs.ValTypes.{val_type};

use crate::frame::{Frame, FrameKind};
use crate::operand::Operand;
use crate::tails::{are_of, replace_tail, replace_tail_with};
use std::alloc::{AllocError, Global};
use std::marker::Model;
use std::slice;
use wasmparser_operators::immediates::BlockType;
use wasmparser_types::val_type::ValType;

/// The operands, the open blocks and the assigned locals of a body that is being read.
///
/// An operator looks at its operands first (`ends_with`, `peek`), and then makes its change by one call (`replace`, `enter`,
/// `leave` ..), which happens whole, or not at all where memory runs out. So a refused operator leaves all as it was, and
/// nothing needs to be undone. A change takes time by the operands that it writes, and no memory once there is room.
#[derive(Drop)]
pub struct Stacks {
    operands: Vec<Operand>,
    frames: Vec<Frame>,
    // The locals without a value at the start that were assigned, in order, and for each local where it may stand there.
    assigned: Vec<u32>,
    places: Vec<usize>,
}

impl Model for Stacks {
    ghost use Rattle.wasm_bodies_laws.specs.Machine.{Machine};
    ghost use Rattle.wasmparser_types.specs.Index.{Index};

    ghost Value = { Machine Index };

    ghost use Rattle.wasmparser_bodies.specs.StackViews.{IsWithin, machine_of};

    ghost view = { machine_of };

    ghost invariant = { IsWithin };
}

// Returns the number of operands below the innermost list.
#[inline(always)]
fn base(frames: &[Frame]) -> usize
    ensures { result ≡ base_of (reverse frames.now) }
{
    match frames.last() {
        Some(frame) => frame.height,
        None => 0,
    }
}

// Checks that the innermost list is open.
#[inline(always)]
fn is_open(frames: &[Frame]) -> bool
    ensures { result ≡ is_open_of (reverse frames.now) }
{
    match frames.last() {
        Some(frame) => frame.unreachable,
        None => false,
    }
}

// Returns the index where the last operands begin, as many as are known of the innermost list.
#[inline(always)]
fn start_of(frames: &[Frame], len: usize, count: usize) -> usize
    requires { base_of (reverse frames.now) ≤ len }
    ensures { result ≡ base_of (reverse frames.now) + (len - base_of (reverse frames.now) - count) }
{
    let base = base(frames);
    if count < len - base {
        len - count
    } else {
        base
    }
}

// Returns the place that is kept at an index.
#[inline(always)]
fn place_of(places: &[usize], index: usize) -> usize
    ensures { result ≡ slice_index places.now index }
{
    match places.get(index) {
        Some(place) => *place,
        None => 0,
    }
}

// Makes room for a place at an index.
fn grow(places: &mut Vec<usize>, index: u32) -> Result<(), AllocError>
    ensures same { (k : ℕ) → slice_index places.new.items k ≡ slice_index places.old.items k }
    ensures room { OnOk result (index < vec_len places.new) }
{
    let len = index as usize + 1;
    if places.len() < len {
        places.resize(len, 0)?;
    }
    Ok(())
}

impl Stacks {
    /// Creates stacks without an operand, a block or an assigned local. Nothing is allocated.
    pub fn new(alloc: Global) -> Self
        ensures { result ≡ record { now = fresh [] []; frames = [] } }
    {
        Stacks {
            operands: Vec::new(alloc),
            frames: Vec::new(alloc),
            assigned: Vec::new(alloc),
            places: Vec::new(alloc),
        }
    }

    /// Clears them for the next body: as new ones, but the capacity is kept.
    pub fn reset(&mut self)
        ensures { self.new ≡ record { now = fresh [] []; frames = [] } }
    {
        self.operands.clear();
        self.frames.clear();
        self.assigned.clear();
    }

    /// Puts an operand on top.
    ///
    /// # Errors
    /// Where memory runs out. The stacks are then as they were.
    pub fn push(&mut self, x: Operand) -> Result<(), AllocError>
        ensures ok { OnOk result (self.new ≡ at_list (put (operand x) self.old.now) self.old) }
        ensures refused { OnErr result (self.new ≡ self.old) }
    {
        match x {
            Operand::Known(value_type) => self.operands.push(Operand::Known(value_type))?,
            Operand::Unknown => self.operands.push(Operand::Unknown)?,
            Operand::UnknownRef => self.operands.push(Operand::UnknownRef)?,
        }
        Ok(())
    }

    /// Puts an operand of a type on top.
    ///
    /// # Errors
    /// Where memory runs out. The stacks are then as they were.
    #[inline(always)]
    pub fn push_known(&mut self, value_type: ValType) -> Result<(), AllocError>
        ensures ok { OnOk result (self.new ≡ at_list (put (Known (val_type value_type)) self.old.now) self.old) }
        ensures refused { OnErr result (self.new ≡ self.old) }
    {
        self.operands.push(Operand::Known(value_type))?;
        Ok(())
    }

    /// Puts an operand of a type on top, if there is room for one. Nothing is allocated.
    #[inline(always)]
    pub fn push_within_capacity(&mut self, value_type: ValType) -> bool
        ensures ok { OnTrue result (self.new ≡ at_list (put (Known (val_type value_type)) self.old.now) self.old) }
        ensures full { OnFalse result (self.new ≡ self.old) }
    {
        if self.operands.len() == self.operands.capacity() {
            return false;
        }
        self.operands.push_reserved(Operand::Known(value_type));
        true
    }

    /// Takes the last operand, which is unknown where the list is open and none is known.
    #[inline(always)]
    pub fn pop(&mut self) -> Option<Operand>
        ensures popped { MatchOption result ((popped self.old.now ≡ None) × (self.new ≡ self.old)) (λ x. popped self.old.now ≡ Some (operand x, self.new.now)) }
        ensures frames { self.new.frames ≡ self.old.frames }
    {
        if self.operands.len() > base(&self.frames) {
            return self.operands.pop();
        }
        if is_open(&self.frames) {
            return Some(Operand::Unknown);
        }
        None
    }

    /// Takes the last operand if it is known and of exactly this type.
    #[inline(always)]
    pub fn pop_known(&mut self, value_type: &ValType) -> bool
        ensures taken { OnTrue result (popped self.old.now ≡ Some (Known (val_type value_type.now), self.new.now)) }
        ensures other { OnFalse result ((below : State Index) → popped self.old.now ≢ Some (Known (val_type value_type.now), below)) }
        ensures unchanged { OnFalse result (self.new ≡ self.old) }
        ensures frames { self.new.frames ≡ self.old.frames }
    {
        if !self.are_known(0, slice::from_ref(value_type)) {
            return false;
        }
        self.lower(1);
        true
    }

    /// Checks that the operands below so many others of the innermost list are known and of exactly these types, that of the
    /// last type on top.
    #[inline(always)]
    pub fn are_known(&self, depth: usize, types: &[ValType]) -> bool
        ensures exact { IsTrue result ↔ (take (length types.now) (drop depth self.now.now.known) ≡ reverse (all_of types.now)) }
        ensures taken { IsTrue result → (items : ModuleItems Index) → IsBelowItself items → all_taken items (map val_type types.now) (lowered depth self.now.now) ≡ Some (lowered (depth + length types.now) self.now.now) }
    {
        let base = base(&self.frames);
        let left = (self.operands.len() - base).saturating_sub(depth);
        if left < types.len() {
            return false;
        }
        let end = base + left;
        are_of(&self.operands[end - types.len()..end], types)
    }

    /// Takes so many operands at once. Where fewer are known, these alone.
    #[inline(always)]
    pub fn lower(&mut self, count: usize)
        ensures { self.new ≡ at_list (lowered count self.old.now) self.old }
    {
        let at = start_of(&self.frames, self.operands.len(), count);
        self.operands.truncate(at);
    }

    /// Takes so many operands, as `lower` does, and gives operands of these types, the last one on top.
    ///
    /// # Errors
    /// Where memory runs out. The stacks are then as they were.
    pub fn replace(&mut self, count: usize, types: &[ValType]) -> Result<(), AllocError>
        ensures ok { OnOk result (self.new ≡ at_list (replaced_by count (map val_type types.now) self.old.now) self.old) }
        ensures refused { OnErr result (self.new ≡ self.old) }
    {
        let at = start_of(&self.frames, self.operands.len(), count);
        replace_tail(&mut self.operands, at, types)?;
        Ok(())
    }

    /// Does the same as `replace`, with one operand more on top.
    ///
    /// # Errors
    /// Where memory runs out. The stacks are then as they were.
    pub fn replace_with(
        &mut self,
        count: usize,
        types: &[ValType],
        last: &Operand,
    ) -> Result<(), AllocError>
        ensures ok { OnOk result (self.new ≡ at_list (put (operand last.now) (replaced_by count (map val_type types.now) self.old.now)) self.old) }
        ensures refused { OnErr result (self.new ≡ self.old) }
    {
        let at = start_of(&self.frames, self.operands.len(), count);
        replace_tail_with(&mut self.operands, at, types, last)?;
        Ok(())
    }

    /// Puts an operand of a type in place of so many known ones of the innermost list, of one at least.
    #[inline(always)]
    pub fn exchange(&mut self, count: usize, value_type: ValType)
        requires some { 0 < count }
        requires known { count ≤ length self.old.now.known }
        ensures { self.new ≡ at_list (replaced_by count (val_type value_type ∷ []) self.old.now) self.old }
    {
        let at = self.operands.len() - count;
        self.operands[at] = Operand::Known(value_type);
        self.operands.truncate(at + 1);
    }

    /// Opens a block. It takes so many operands, as `lower` does, and its list begins with operands of these types.
    ///
    /// # Errors
    /// Where memory runs out. The stacks are then as they were.
    pub fn enter(
        &mut self,
        kind: FrameKind,
        block_type: BlockType,
        count: usize,
        params: &[ValType],
    ) -> Result<(), AllocError>
        ensures ok { OnOk result (self.new ≡ entered_by (frame_kind kind) (block_with_ids block_type) count (map val_type params.now) self.old) }
        ensures refused { OnErr result (self.new ≡ self.old) }
    {
        let at = start_of(&self.frames, self.operands.len(), count);
        self.frames.reserve(1)?;
        replace_tail(&mut self.operands, at, params)?;
        self.frames.push_reserved(Frame {
            kind,
            block_type,
            height: at,
            unreachable: false,
            init_height: self.assigned.len(),
        });
        Ok(())
    }

    /// Opens a block whose list begins with no operand, if there is room for one. It takes so many operands, as `lower` does.
    /// Nothing is allocated.
    #[inline(always)]
    pub fn enter_within_capacity(
        &mut self,
        kind: FrameKind,
        block_type: BlockType,
        count: usize,
    ) -> bool
        ensures ok { OnTrue result (self.new ≡ entered_by (frame_kind kind) (block_with_ids block_type) count [] self.old) }
        ensures full { OnFalse result (self.new ≡ self.old) }
    {
        if self.frames.len() == self.frames.capacity() {
            return false;
        }
        let at = start_of(&self.frames, self.operands.len(), count);
        self.operands.truncate(at);
        self.frames.push_reserved(Frame {
            kind,
            block_type,
            height: at,
            unreachable: false,
            init_height: self.assigned.len(),
        });
        true
    }

    /// Closes the innermost block, whose operands and assigned locals go, and gives operands of these types to the
    /// list around it. Where no block is open nothing changes.
    ///
    /// # Errors
    /// Where memory runs out. The stacks are then as they were.
    pub fn leave(&mut self, results: &[ValType]) -> Result<(), AllocError>
        ensures ok { OnOk result (self.new ≡ left_with (map val_type results.now) self.old) }
        ensures refused { OnErr result (self.new ≡ self.old) }
    {
        let Some(frame) = self.frames.last() else {
            return Ok(());
        };
        let (height, init_height) = (frame.height, frame.init_height);
        replace_tail(&mut self.operands, height, results)?;
        self.assigned.truncate(init_height);
        self.frames.truncate(self.frames.len() - 1);
        Ok(())
    }

    /// Does the same as `leave` without results. Nothing is allocated.
    #[inline(always)]
    pub fn leave_empty(&mut self)
        ensures { self.new ≡ left_with [] self.old }
    {
        let Some(frame) = self.frames.last() else {
            return;
        };
        let (height, marks) = (frame.height, frame.init_height);
        self.operands.truncate(height);
        self.assigned.truncate(marks);
        self.frames.truncate(self.frames.len() - 1);
    }

    /// Begins the second list of the innermost block with operands of these types, and with the locals assigned that
    /// were before the block. Where no block is open nothing changes.
    ///
    /// # Errors
    /// Where memory runs out. The stacks are then as they were.
    pub fn else_(&mut self, params: &[ValType]) -> Result<(), AllocError>
        ensures ok { OnOk result (self.new ≡ else_with (map val_type params.now) self.old) }
        ensures refused { OnErr result (self.new ≡ self.old) }
    {
        let Some(frame) = self.frames.last() else {
            return Ok(());
        };
        let (block_type, height, init_height) = (frame.block_type, frame.height, frame.init_height);
        replace_tail(&mut self.operands, height, params)?;
        self.assigned.truncate(init_height);
        let last = self.frames.len() - 1;
        self.frames[last] = Frame {
            kind: FrameKind::Else,
            block_type,
            height,
            unreachable: false,
            init_height,
        };
        Ok(())
    }

    /// Marks the code that follows in the innermost list as never reached.
    #[inline(always)]
    pub fn mark_unreachable(&mut self)
        requires { self.old.frames ≢ [] }
        ensures { self.new ≡ at_list (nothing_known self.old.now) self.old }
    {
        let last = self.frames.len() - 1;
        let frame = self.frames[last];
        let height = frame.height;
        self.frames[last] = Frame {
            kind: frame.kind,
            block_type: frame.block_type,
            height,
            unreachable: true,
            init_height: frame.init_height,
        };
        self.operands.truncate(height);
    }

    /// Returns the number of operands of the innermost list that are known.
    #[inline(always)]
    pub fn known_len(&self) -> usize
        ensures { result ≡ length self.now.now.known }
    {
        self.operands.len() - base(&self.frames)
    }

    /// Returns the operand below so many others of the innermost list, which is unknown below the known ones of an open list.
    pub fn peek(&self, depth: usize) -> Option<Operand>
        ensures { MatchOption result (popped (lowered depth self.now.now) ≡ None) (λ x. popped (lowered depth self.now.now) ≡ Some (operand x, lowered (depth + 1) self.now.now)) }
    {
        if depth < self.known_len() {
            return Some(self.operands[self.operands.len() - 1 - depth]);
        }
        if is_open(&self.frames) {
            return Some(Operand::Unknown);
        }
        None
    }

    /// Checks that no block is open, as after the end of a body.
    #[inline(always)]
    pub fn is_closed(&self) -> bool
        ensures { IsTrue result ↔ (self.now.frames ≡ []) }
    {
        self.frames.is_empty()
    }

    /// Returns the number of open blocks, the body itself among them.
    #[inline(always)]
    pub fn frame_count(&self) -> usize
        ensures { result ≡ length self.now.frames }
    {
        self.frames.len()
    }

    /// Returns the open block at a depth, the innermost one at 0.
    #[inline(always)]
    pub fn frame_at(&self, depth: usize) -> Option<&Frame>
        ensures block { option_map (λ f. block_kept f.now) result ≡ option_map block_seen (slice_get self.now.frames depth) }
        ensures place { option_map (λ f. place_kept f.now) result ≡ slice_get (places_of self.now) depth }
    {
        if depth < self.frames.len() {
            Some(&self.frames[self.frames.len() - 1 - depth])
        } else {
            None
        }
    }

    /// Returns the number of operands that are known, in all lists.
    pub fn operand_count(&self) -> usize
        ensures { result ≡ length (all_known self.now) }
    {
        self.operands.len()
    }

    /// Returns the operand at a depth, in whichever list, the last one at 0.
    pub fn operand_at(&self, depth: usize) -> Option<Operand>
        ensures { option_map operand result ≡ slice_get (all_known self.now) depth }
    {
        if depth < self.operands.len() {
            Some(self.operands[self.operands.len() - 1 - depth])
        } else {
            None
        }
    }

    /// Checks that a local without a value at the start was assigned.
    #[inline(always)]
    pub fn is_assigned(&self, local: u32) -> bool
        ensures { result ≡ is_among self.now.now.assigned local }
    {
        let place = place_of(&self.places, local as usize);
        if place < self.assigned.len() {
            self.assigned[place] == local
        } else {
            false
        }
    }

    /// Notes that a local without a value at the start has one from now on, as long as the innermost block is open.
    ///
    /// # Errors
    /// Where memory runs out. The stacks are then as they were.
    pub fn assign(&mut self, local: u32) -> Result<(), AllocError>
        ensures ok { OnOk result (self.new ≡ at_list (marked local self.old.now) self.old) }
        ensures refused { OnErr result (self.new ≡ self.old) }
    {
        if self.is_assigned(local) {
            return Ok(());
        }
        grow(&mut self.places, local)?;
        let place = self.assigned.len();
        self.assigned.push(local)?;
        self.places[local as usize] = place;
        Ok(())
    }

    /// Takes so many operands and gives others, as `replace` does, and assigns a local, as `assign` does.
    ///
    /// # Errors
    /// Where memory runs out. The stacks are then as they were.
    pub fn replace_and_assign(
        &mut self,
        count: usize,
        types: &[ValType],
        local: u32,
    ) -> Result<(), AllocError>
        ensures ok { OnOk result (self.new ≡ at_list (marked local (replaced_by count (map val_type types.now) self.old.now)) self.old) }
        ensures refused { OnErr result (self.new ≡ self.old) }
    {
        if self.is_assigned(local) {
            return self.replace(count, types);
        }
        grow(&mut self.places, local)?;
        self.assigned.reserve(1)?;
        let at = start_of(&self.frames, self.operands.len(), count);
        replace_tail(&mut self.operands, at, types)?;
        let place = self.assigned.len();
        self.assigned.push_reserved(local);
        self.places[local as usize] = place;
        Ok(())
    }
}
