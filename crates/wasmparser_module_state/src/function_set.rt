//! Sets of functions, by their indexes.

ghost use Rattle.std.specs.Prelude.{◌≡◌, ◌≤◌, ◌<◌, ◌∷◌, [], IfErr, IfOk, false, vec_capacity};
ghost use Rattle.std.specs.List.{AllByRecursion};
ghost use Rattle.wasm_validity.specs.Context.{named_in, with_functions};
ghost use Rattle.wasmparser_entries.specs.ConstExprs.{expression_of};
ghost use Rattle.wasmparser_module_state.specs.State.{members, room};

use std::alloc::{AllocError, Global};
use std::iter::Iterator;
use wasmparser_entries::const_expr::ConstExpr;
use wasmparser_entries::const_operator::ConstOperator;

/// A set of functions: a flag for each of the first functions, up to those that there was room made for.
#[derive(Drop)]
pub(crate) struct FunctionSet {
    pub(crate) flags: Vec<bool>,
}

impl FunctionSet {
    /// Creates a set without functions.
    pub(crate) fn new(alloc: Global) -> FunctionSet
        ensures { members result ≡ (λ function. false) }
    {
        FunctionSet {
            flags: Vec::new(alloc),
        }
    }

    /// Checks that a function is in the set.
    #[tactic(auto, using(crate::proofs::DeclaredLaws::flag_steps))]
    pub(crate) fn contains(&self, function: u32) -> bool
        ensures { result ≡ members self.now function }
    {
        self.flags.get(function as usize).copied().unwrap_or(false)
    }

    /// Returns a copy.
    pub(crate) fn copy(&self, alloc: Global) -> Result<FunctionSet, AllocError>
        ensures { IfOk result (λ copy. members copy ≡ members self.now) }
    {
        Ok(FunctionSet {
            flags: Vec::from_slice(alloc, &self.flags)?,
        })
    }

    /// Makes room for the first functions, so many.
    #[tactic(auto, using(crate::proofs::DeclaredLaws::room_steps))]
    pub(crate) fn make_room(&mut self, count: usize) -> Result<(), AllocError>
        ensures room { IfOk result (λ _. count ≤ room self.new) }
        ensures same { members self.new ≡ members self.old }
        ensures no_room { IfErr result (λ _. vec_capacity self.old.flags < count) }
    {
        if self.flags.len() < count {
            self.flags.resize(count, false)?;
        }
        Ok(())
    }

    /// Puts a function into the set.
    #[tactic(auto, using(crate::proofs::DeclaredLaws::flag_steps))]
    pub(crate) fn insert(&mut self, function: u32)
        requires fits { function < room self.old }
        ensures added { members self.new ≡ with_functions (members self.old) (function ∷ []) }
        ensures room { room self.new ≡ room self.old }
    {
        self.flags[function as usize] = true;
    }

    /// Puts the functions into the set that an expression names.
    #[inline(always)]
    pub(crate) fn insert_named(&mut self, expression: &ConstExpr<'_>)
        requires fits { AllByRecursion (λ function. function < room self.old) (named_in (expression_of expression.now.rest)) }
        ensures added { members self.new ≡ with_functions (members self.old) (named_in (expression_of expression.now.rest)) }
        ensures room { room self.new ≡ room self.old }
    {
        let Some(operator) = expression.short_operator() else {
            // (a copy, so that the expression needs no memory where this isn't called)
            self.insert_all(&expression.fork());
            return;
        };
        if let ConstOperator::RefFunc { function_index } = operator {
            self.insert(function_index);
        }
    }

    // Does the same operator by operator.
    #[inline(never)]
    fn insert_all(&mut self, expression: &ConstExpr<'_>)
        requires fits { AllByRecursion (λ function. function < room self.old) (named_in (expression_of expression.now.rest)) }
        ensures added { members self.new ≡ with_functions (members self.old) (named_in (expression_of expression.now.rest)) }
        ensures room { room self.new ≡ room self.old }
    {
        let mut operators = expression.operators();
        'operators: while let Some(operator) = operators.next() {
            if let ConstOperator::RefFunc { function_index } = operator {
                self.insert(function_index);
            }
        }
    }
}
