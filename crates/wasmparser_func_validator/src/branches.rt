//! Jumps and calls (Core Specification 3.0, Validation, "Control Instructions").

ghost use Rattle.std.specs.Prelude.{◌≡◌, ◌≢◌, [], IsTrue, Some, if◌then◌else◌, length, map, option_map, reverse, slice_get, true};
ghost use Rattle.std.specs.List.{list_all};
ghost use Rattle.std.specs.Option.{option_and_then};
ghost use Rattle.wasm_bodies.specs.BodyContext.{provided, value_of};
ghost use Rattle.wasm_bodies.specs.Effects.{accepts, jumps_with_last, leaves_by_table};
ghost use Rattle.wasm_bodies.specs.Operands.{nothing_known};
ghost use Rattle.wasm_bodies.specs.Signatures.{table_index, table_item};
ghost use Rattle.wasm_bodies_laws.specs.Machine.{frame_type, label_types, labels_of};
ghost use Rattle.wasm_spec.specs.Types.{FuncType, funcref};
ghost use Rattle.wasmparser_bodies.specs.StackChanges.{lowered};
ghost use Rattle.wasmparser_bodies.specs.StackViews.{block_with_ids, frame_kind};
ghost use Rattle.wasmparser_types.specs.Index.{Index};
ghost use Rattle.wasmparser_types.specs.ValTypes.{val_type};
ghost use Rattle.wasm_bodies.specs.Operators as spec;
ghost use Rattle.wasmparser_func_validator.specs.Steps.{HasEffect, Takes, body_context, items_in, label_kept};

use crate::body::Body;
use crate::references::non_null;
use crate::refusal::Refusal;
use crate::type_list::Types;
use std::iter::Iterator;
use std::slice;
use wasmparser_bodies::frame::FrameKind;
use wasmparser_bodies::module_resources::WasmModuleResources;
use wasmparser_bodies::stacks::Stacks;
use wasmparser_operators::br_table::BrTable;
use wasmparser_operators::immediates::BlockType;
use wasmparser_types::val_type::ValType;

fn is_loop(kind: FrameKind) -> bool
    ensures { (type : FuncType Index) → label_types (frame_kind kind) type ≡ (if result then type.params else type.results) }
{
    match kind {
        FrameKind::Loop => true,
        FrameKind::Block | FrameKind::If | FrameKind::Else => false,
    }
}

impl<R: WasmModuleResources> Body<R> {
    // Returns the block that a label is of.
    #[tactic(auto, using(crate::proofs::BranchLaws::labels))]
    #[inline(always)]
    pub(crate) fn target(&self, stacks: &Stacks, label: u32) -> Option<(FrameKind, BlockType)>
        ensures { option_map (label_kept (items_in R.resources self.now)) result ≡ slice_get (labels_of (items_in R.resources self.now) stacks.now.frames) label }
    {
        match stacks.frame_at(label as usize) {
            Some(frame) => Some((frame.kind, frame.block_type)),
            None => None,
        }
    }

    pub(crate) fn br(&self, stacks: &mut Stacks, label: u32) -> Result<(), Refusal>
        requires { stacks.old.frames ≢ [] }
        ensures { HasEffect (body_context R.resources self.now) (spec.Br label) stacks.old stacks.new result }
    {
        let Some((kind, block_type)) = self.target(stacks, label) else {
            return Err(Refusal::Invalid);
        };
        self.leave(stacks, self.label(kind, &block_type))
    }

    #[tactic(auto, using(crate::proofs::BranchLaws::jumps))]
    pub(crate) fn br_if(&self, stacks: &mut Stacks, label: u32) -> Result<(), Refusal>
        ensures { HasEffect (body_context R.resources self.now) (spec.BrIf label) stacks.old stacks.new result }
    {
        let Some((kind, block_type)) = self.target(stacks, label) else {
            return Err(Refusal::Invalid);
        };
        let types = self.label(kind, &block_type);
        self.apply_with_last(stacks, types, &ValType::I32, types)
    }

    // Checks that a label takes so many operands, and these may be those below the last one.
    fn accepts_label(&self, stacks: &Stacks, arity: usize, label: u32) -> bool
        ensures { result ≡ accepts (items_in R.resources self.now) arity (lowered 1 stacks.now.now) (slice_get (labels_of (items_in R.resources self.now) stacks.now.frames) label) }
    {
        let Some((kind, block_type)) = self.target(stacks, label) else {
            return false;
        };
        let types = self.label(kind, &block_type);
        types.len() == arity && self.accepts(stacks, 1, &Types(types))
    }

    // Checks that jumps to two labels take the same, as far as that shows without a look at types.
    fn are_alike(&self, stacks: &Stacks, one: u32, other: u32) -> bool
        ensures { IsTrue result → slice_get (labels_of (items_in R.resources self.now) stacks.now.frames) one ≡ slice_get (labels_of (items_in R.resources self.now) stacks.now.frames) other }
    {
        let (Some(a), Some(b)) = (self.target(stacks, one), self.target(stacks, other)) else {
            return false;
        };
        match (a.1, b.1) {
            (BlockType::Empty, BlockType::Empty) => true,
            (BlockType::FuncType(x), BlockType::FuncType(y)) => {
                x == y && is_loop(a.0) == is_loop(b.0)
            }
            _ => false,
        }
    }

    // Checks a `br_table` label beside one that accepts the operands, which is enough if both have the same type.
    fn accepts_beside(&self, stacks: &Stacks, arity: usize, label: u32, other: u32) -> bool
        ensures { true ≡ accepts (items_in R.resources self.now) arity (lowered 1 stacks.now.now) (slice_get (labels_of (items_in R.resources self.now) stacks.now.frames) other) → result ≡ accepts (items_in R.resources self.now) arity (lowered 1 stacks.now.now) (slice_get (labels_of (items_in R.resources self.now) stacks.now.frames) label) }
    {
        if self.are_alike(stacks, label, other) {
            return true;
        }
        self.accepts_label(stacks, arity, label)
    }

    // Checks that each of several labels accepts the operands, as the default one does.
    fn accepts_labels(&self, stacks: &Stacks, arity: usize, targets: &BrTable<'_>) -> bool
        requires { true ≡ accepts (items_in R.resources self.now) arity (lowered 1 stacks.now.now) (slice_get (labels_of (items_in R.resources self.now) stacks.now.frames) targets.now.default) }
        ensures { result ≡ list_all (λ label. accepts (items_in R.resources self.now) arity (lowered 1 stacks.now.now) (slice_get (labels_of (items_in R.resources self.now) stacks.now.frames) label)) targets.now.labels }
    {
        targets.targets().all(|label| {
            self.accepts_beside(stacks, arity, label, targets.default())
        })
    }

    // Checks that each label of a table accepts the operands below the last one.
    #[tactic(auto, using(crate::proofs::BranchLaws::tables))]
    fn accepts_table(&self, stacks: &Stacks, targets: &BrTable<'_>) -> bool
        ensures { leaves_by_table (items_in R.resources self.now) (labels_of (items_in R.resources self.now) stacks.now.frames) targets.now.labels targets.now.default (lowered 1 stacks.now.now) ≡ provided result (Some (nothing_known (lowered 1 stacks.now.now))) }
    {
        let Some((kind, block_type)) = self.target(stacks, targets.default()) else {
            return false;
        };
        let arity = self.label(kind, &block_type).len();
        if !self.accepts_label(stacks, arity, targets.default()) {
            return false;
        }
        self.accepts_labels(stacks, arity, targets)
    }

    pub(crate) fn br_table(&self, stacks: &mut Stacks, targets: &BrTable<'_>) -> Result<(), Refusal>
        requires { stacks.old.frames ≢ [] }
        ensures { HasEffect (body_context R.resources self.now) (spec.BrTable targets.now.labels targets.now.default) stacks.old stacks.new result }
    {
        if !self.accepts(stacks, 0, &Types(slice::from_ref(&ValType::I32))) {
            return Err(Refusal::Invalid);
        }
        if !self.accepts_table(stacks, targets) {
            return Err(Refusal::Invalid);
        }
        stacks.mark_unreachable();
        Ok(())
    }

    pub(crate) fn return_(&self, stacks: &mut Stacks) -> Result<(), Refusal>
        requires { stacks.old.frames ≢ [] }
        ensures { HasEffect (body_context R.resources self.now) spec.Return stacks.old stacks.new result }
    {
        self.leave(stacks, self.results())
    }

    pub(crate) fn call(&self, stacks: &mut Stacks, function: u32) -> Result<(), Refusal>
        ensures { HasEffect (body_context R.resources self.now) (spec.Call function) stacks.old stacks.new result }
    {
        match self.function_type(function) {
            Some(it) => self.apply(stacks, it.params(), it.results()),
            None => Err(Refusal::Invalid),
        }
    }

    // Returns the type of the indexes of a table of functions.
    fn index_of_functions(&self, table: u32) -> Option<ValType>
        ensures { option_map val_type result ≡ option_and_then (λ t. provided ((items_in R.resources self.now).is_below (table_item t) (value_of funcref)) (Some (table_index t))) (slice_get (items_in R.resources self.now).tables table) }
    {
        match self.table_types(table) {
            Some((index, item)) => {
                if self.resources.is_subtype(item, ValType::FUNCREF) {
                    Some(index)
                } else {
                    None
                }
            }
            None => None,
        }
    }

    pub(crate) fn call_indirect(
        &self,
        stacks: &mut Stacks,
        type_index: u32,
        table: u32,
    ) -> Result<(), Refusal>
        ensures { HasEffect (body_context R.resources self.now) (spec.CallIndirect type_index table) stacks.old stacks.new result }
    {
        let Some(it) = self.func_type_at(type_index) else {
            return Err(Refusal::Invalid);
        };
        let Some(index) = self.index_of_functions(table) else {
            return Err(Refusal::Invalid);
        };
        self.apply_with_last(stacks, it.params(), &index, it.results())
    }

    pub(crate) fn call_ref(&self, stacks: &mut Stacks, type_index: u32) -> Result<(), Refusal>
        ensures { HasEffect (body_context R.resources self.now) (spec.CallRef type_index) stacks.old stacks.new result }
    {
        let Some(it) = self.func_type_at(type_index) else {
            return Err(Refusal::Invalid);
        };
        let Some(reference) = self.reference_at(true, type_index) else {
            return Err(Refusal::Invalid);
        };
        self.apply_with_last(stacks, it.params(), &reference, it.results())
    }

    pub(crate) fn return_call(&self, stacks: &mut Stacks, function: u32) -> Result<(), Refusal>
        requires { stacks.old.frames ≢ [] }
        ensures { HasEffect (body_context R.resources self.now) (spec.ReturnCall function) stacks.old stacks.new result }
    {
        let Some(it) = self.function_type(function) else {
            return Err(Refusal::Invalid);
        };
        if !self.are_below(it.results(), self.results()) {
            return Err(Refusal::Invalid);
        }
        self.leave(stacks, it.params())
    }

    #[tactic(auto, using(crate::proofs::BranchLaws::calls))]
    pub(crate) fn return_call_indirect(
        &self,
        stacks: &mut Stacks,
        type_index: u32,
        table: u32,
    ) -> Result<(), Refusal>
        requires { stacks.old.frames ≢ [] }
        ensures { HasEffect (body_context R.resources self.now) (spec.ReturnCallIndirect type_index table) stacks.old stacks.new result }
    {
        let Some(it) = self.func_type_at(type_index) else {
            return Err(Refusal::Invalid);
        };
        let Some(index) = self.index_of_functions(table) else {
            return Err(Refusal::Invalid);
        };
        if !self.are_below(it.results(), self.results()) {
            return Err(Refusal::Invalid);
        }
        self.leave_with_last(stacks, it.params(), &index)
    }

    pub(crate) fn return_call_ref(
        &self,
        stacks: &mut Stacks,
        type_index: u32,
    ) -> Result<(), Refusal>
        requires { stacks.old.frames ≢ [] }
        ensures { HasEffect (body_context R.resources self.now) (spec.ReturnCallRef type_index) stacks.old stacks.new result }
    {
        let Some(it) = self.func_type_at(type_index) else {
            return Err(Refusal::Invalid);
        };
        let Some(reference) = self.reference_at(true, type_index) else {
            return Err(Refusal::Invalid);
        };
        if !self.are_below(it.results(), self.results()) {
            return Err(Refusal::Invalid);
        }
        self.leave_with_last(stacks, it.params(), &reference)
    }

    pub(crate) fn br_on_null(&self, stacks: &mut Stacks, label: u32) -> Result<(), Refusal>
        ensures { HasEffect (body_context R.resources self.now) (spec.BrOnNull label) stacks.old stacks.new result }
    {
        let Some((kind, block_type)) = self.target(stacks, label) else {
            return Err(Refusal::Invalid);
        };
        let Some(x) = stacks.peek(0) else {
            return Err(Refusal::Invalid);
        };
        let Some(x) = non_null(&x) else {
            return Err(Refusal::Invalid);
        };
        let types = self.label(kind, &block_type);
        if !self.accepts(stacks, 1, &Types(types)) {
            return Err(Refusal::Invalid);
        }
        stacks.replace_with(types.len() + 1, types, &x)?;
        Ok(())
    }

    // Takes a reference that goes to a label with operands of these types below it, which stay.
    fn jump_with_last(&self, stacks: &mut Stacks, types: &[ValType]) -> Result<(), Refusal>
        ensures { Takes (jumps_with_last (items_in R.resources self.now) (reverse (map val_type types.now)) stacks.old.now) stacks.old stacks.new result }
    {
        let Some((last, others)) = types.split_last() else {
            return Err(Refusal::Invalid);
        };
        match last.as_reference_type() {
            Some(it) => {
                let reference = ValType::Ref(it.nullable());
                self.apply_with_last(stacks, others, &reference, others)
            }
            None => Err(Refusal::Invalid),
        }
    }

    pub(crate) fn br_on_non_null(&self, stacks: &mut Stacks, label: u32) -> Result<(), Refusal>
        ensures { HasEffect (body_context R.resources self.now) (spec.BrOnNonNull label) stacks.old stacks.new result }
    {
        let Some((kind, block_type)) = self.target(stacks, label) else {
            return Err(Refusal::Invalid);
        };
        self.jump_with_last(stacks, self.label(kind, &block_type))
    }
}
