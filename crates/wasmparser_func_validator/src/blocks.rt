//! Blocks (Core Specification 3.0, Validation, "Control Instructions", and appendix "Validation Algorithm").

ghost use Rattle.std.specs.Prelude.{◌≡◌, ℕ, List, map, option_map, slice_get};
ghost use Rattle.wasm_bodies.specs.Bodies.{is_exactly};
ghost use Rattle.wasm_bodies.specs.Operands.{State, fresh};
ghost use Rattle.wasm_bodies.specs.Operators as spec;
ghost use Rattle.wasm_bodies_laws.specs.Machine.{frame_of, may_end, stepped_in};
ghost use Rattle.wasmparser_func_validator.specs.Steps.{Steps, body_context, items_in, kind_kept, opened_if, opens};
ghost use Rattle.wasmparser_operators.specs.OperatorValues.{IsBlockOfModule, block_type};
ghost use Rattle.wasmparser_bodies.specs.StackViews.{block_seen, block_with_ids, frame_kind};
ghost use Rattle.wasmparser_types.specs.Index.{Index};
ghost use Rattle.wasmparser_types.specs.ValTypes.{val_type};

use crate::body::Body;
use crate::refusal::Refusal;
use crate::type_list::Types;
use std::slice;
use wasmparser_bodies::frame::FrameKind;
use wasmparser_bodies::module_resources::WasmModuleResources;
use wasmparser_bodies::stacks::Stacks;
use wasmparser_operators::immediates::BlockType;
use wasmparser_types::val_type::ValType;

impl<R: WasmModuleResources> Body<R> {
    // Checks that the innermost list ends with exactly these types.
    #[tactic(auto, using(crate::proofs::TypeLaws::ends))]
    fn has_given(&self, stacks: &Stacks, results: &[ValType]) -> bool
        ensures { result ≡ is_exactly (items_in R.resources self.now) (map val_type results.now) stacks.now.now }
    {
        if !self.accepts(stacks, 0, &Types(results)) {
            return false;
        }
        if stacks.known_len() > results.len() {
            return false;
        }
        true
    }

    // Checks that a list that begins with the parameters, and has nothing else, may end with the results.
    #[tactic(auto, using(crate::proofs::TypeLaws::serves))]
    fn serves(&self, params: &[ValType], results: &[ValType]) -> bool
        ensures { (assigned : List ℕ) → result ≡ is_exactly (items_in R.resources self.now) (map val_type results.now) (fresh (map val_type params.now) assigned) }
    {
        self.are_below(params, results)
    }

    // Opens a block, and begins its list with what it takes.
    pub(crate) fn open(
        &self,
        stacks: &mut Stacks,
        kind: FrameKind,
        blockty: &BlockType,
    ) -> Result<(), Refusal>
        requires { IsBlockOfModule blockty.now }
        ensures { Steps (opens (body_context R.resources self.now) (frame_kind kind) (block_type blockty.now) stacks.old) stacks.old stacks.new result }
    {
        let Some(block_type) = self.checked_block(blockty) else {
            return Err(Refusal::Invalid);
        };
        let kept = block_type;
        let params = self.block_params(&kept);
        if !self.accepts(stacks, 0, &Types(params)) {
            return Err(Refusal::Invalid);
        }
        stacks.enter(kind, block_type, params.len(), params)?;
        Ok(())
    }

    // Opens an `if`, which takes its condition first.
    pub(crate) fn open_if(&self, stacks: &mut Stacks, blockty: &BlockType) -> Result<(), Refusal>
        requires { IsBlockOfModule blockty.now }
        ensures { Steps (opened_if (body_context R.resources self.now) (block_type blockty.now) stacks.old) stacks.old stacks.new result }
    {
        let Some(block_type) = self.checked_block(blockty) else {
            return Err(Refusal::Invalid);
        };
        let kept = block_type;
        let params = self.block_params(&kept);
        if !self.accepts_with_last(stacks, params, &ValType::I32) {
            return Err(Refusal::Invalid);
        }
        stacks.enter(FrameKind::If, block_type, params.len() + 1, params)?;
        Ok(())
    }

    // Validates an `else`: the first list of an `if` ends, and the second begins.
    pub(crate) fn else_(&self, stacks: &mut Stacks) -> Result<(), Refusal>
        ensures { Steps (stepped_in (body_context R.resources self.now) stacks.old.frames stacks.old.now spec.Else) stacks.old stacks.new result }
    {
        let Some((kind, block_type)) = self.innermost(stacks) else {
            return Err(Refusal::Invalid);
        };
        let FrameKind::If = kind else {
            return Err(Refusal::Invalid);
        };
        if !self.has_given(stacks, self.block_results(&block_type)) {
            return Err(Refusal::Invalid);
        }
        stacks.else_(self.block_params(&block_type))?;
        Ok(())
    }

    // Validates an `end`: the innermost list ends, and its results go on top of the operands below.
    pub(crate) fn close(&self, stacks: &mut Stacks) -> Result<(), Refusal>
        ensures { Steps (stepped_in (body_context R.resources self.now) stacks.old.frames stacks.old.now spec.End) stacks.old stacks.new result }
    {
        let Some((kind, block_type)) = self.innermost(stacks) else {
            return Err(Refusal::Invalid);
        };
        let results = self.block_results(&block_type);
        if !self.has_given(stacks, results) {
            return Err(Refusal::Invalid);
        }
        if !self.may_end(kind, &block_type) {
            return Err(Refusal::Invalid);
        }
        stacks.leave(results)?;
        Ok(())
    }

    // Returns the innermost block.
    fn innermost(&self, stacks: &Stacks) -> Option<(FrameKind, BlockType)>
        ensures { option_map kind_kept result ≡ option_map block_seen (slice_get stacks.now.frames 0) }
    {
        match stacks.frame_at(0) {
            Some(frame) => Some((frame.kind, frame.block_type)),
            None => None,
        }
    }

    // Checks that a block may end without a second list.
    fn may_end(&self, kind: FrameKind, block_type: &BlockType) -> bool
        ensures { (below : State Index) → result ≡ may_end (items_in R.resources self.now) (frame_kind kind) (frame_of (frame_kind kind) (block_with_ids block_type.now) below) }
    {
        match kind {
            FrameKind::If => {
                self.serves(
                    self.block_params(block_type),
                    self.block_results(block_type),
                )
            }
            FrameKind::Block => true,
            FrameKind::Loop => true,
            FrameKind::Else => true,
        }
    }
}
