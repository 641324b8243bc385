//! Validation of a constant expression that has to give a value of a type (Core Specification 3.0, Validation, "Constant Expressions").

ghost use Rattle.std.specs.Prelude.{◌≡◌, ◌↔◌, IfSome, IsTrue, Some};
ghost use Rattle.wasm_spec.specs.Subtyping.{ValBelow};
ghost use Rattle.wasm_spec.specs.Trees.{unrolled};
ghost use Rattle.wasm_spec.specs.TypeReferences.{val_refs};
ghost use Rattle.wasm_validity.specs.ConstantTyping.{IsConstantOf, Leaves, effect, puts};
ghost use Rattle.wasmparser_entries.specs.ConstExprs.{expression_of};
ghost use Rattle.wasmparser_entries.specs.ConstOperators.{const_operator};
ghost use Rattle.wasmparser_constants.specs.Operands.{AreKnown, meant, meant_type};
ghost use Rattle.wasmparser_constants.specs.Scopes.{context, features_of, known};
ghost use Rattle.wasmparser_constants.specs.Steps.{BeginsRightly, IsAlone, IsWanted, Judges, Steps};
ghost use Rattle.wasmparser_module_types.specs.ModuleTypes.{AreIds};
ghost use Rattle.wasmparser_types.specs.ValTypes.{val_type};

use crate::operands::Operands;
use crate::scope::Scope;
use std::iter::Iterator;
use wasmparser_entries::const_expr::ConstExpr;
use wasmparser_entries::const_operator::ConstOperator;
use wasmparser_error::error::Error;
use wasmparser_types::heap_type::AbstractHeapType;
use wasmparser_types::val_type::ValType;

impl<'a> Scope<'a> {
    // Does what an operator does.
    fn step(&self, operands: &mut Operands, operator: &ConstOperator) -> Result<(), Error>
        requires known { AreKnown (known self.now) operands.old }
        ensures { Steps (known self.now) self.now.offset (effect (features_of self.now) (context self.now) (const_operator operator.now)) operands.old result operands.new }
    {
        let features = self.types.features();
        match operator {
            ConstOperator::I32Const { .. } => self.put(operands, &ValType::I32, true),
            ConstOperator::I64Const { .. } => self.put(operands, &ValType::I64, true),
            ConstOperator::F32Const { .. } => self.put(operands, &ValType::F32, features.floats()),
            ConstOperator::F64Const { .. } => self.put(operands, &ValType::F64, features.floats()),
            ConstOperator::V128Const { .. } => self.put(operands, &ValType::V128, features.simd()),
            ConstOperator::RefNull { hty } => self.put_null(operands, hty),
            ConstOperator::RefFunc { function_index } => {
                self.put_function(operands, *function_index)
            }
            ConstOperator::GlobalGet { global_index } => self.put_global(operands, *global_index),
            ConstOperator::I32Add | ConstOperator::I32Sub | ConstOperator::I32Mul => {
                self.compute(operands, &ValType::I32)
            }
            ConstOperator::I64Add | ConstOperator::I64Sub | ConstOperator::I64Mul => {
                self.compute(operands, &ValType::I64)
            }
            ConstOperator::StructNew { struct_type_index } => {
                self.new_structure(operands, *struct_type_index)
            }
            ConstOperator::StructNewDefault { struct_type_index } => {
                self.default_structure(operands, *struct_type_index)
            }
            ConstOperator::ArrayNew { array_type_index } => {
                self.new_array(operands, *array_type_index)
            }
            ConstOperator::ArrayNewDefault { array_type_index } => {
                self.default_array(operands, *array_type_index)
            }
            ConstOperator::ArrayNewFixed {
                array_type_index,
                array_size,
            } => self.fixed_array(operands, *array_type_index, *array_size),
            ConstOperator::AnyConvertExtern => {
                self.convert(operands, AbstractHeapType::Extern, AbstractHeapType::Any)
            }
            ConstOperator::ExternConvertAny => {
                self.convert(operands, AbstractHeapType::Any, AbstractHeapType::Extern)
            }
            ConstOperator::RefI31 => self.put_scalar(operands),
        }
    }

    // Returns the type of what an operator gives that takes no operands, where it may stand.
    #[inline(always)]
    fn type_given(&self, operator: &ConstOperator) -> Option<ValType>
        ensures given { IfSome result (λ ty. effect (features_of self.now) (context self.now) (const_operator operator.now) ≡ Some (puts (meant_type (known self.now) (val_type ty)))) }
        ensures ids { IfSome result (λ ty. AreIds (known self.now) (val_refs (val_type ty))) }
    {
        match operator {
            ConstOperator::I32Const { .. } => Some(ValType::I32),
            ConstOperator::I64Const { .. } => Some(ValType::I64),
            ConstOperator::RefNull { hty } => self.null_type(hty),
            ConstOperator::RefFunc { function_index } => self.function_type(*function_index),
            ConstOperator::GlobalGet { global_index } => self.global_type(*global_index),
            _ => None,
        }
    }

    // Returns the type of what an expression gives that is a single operator without operands, where that may stand.
    #[tactic(auto, using(crate::proofs::AloneLaws::alone_steps))]
    fn type_alone(&self, expression: &ConstExpr<'_>) -> Option<ValType>
        ensures alone { IfSome result (λ ty. IsAlone (features_of self.now) (context self.now) (meant_type (known self.now) (val_type ty)) (expression_of expression.now.rest)) }
        ensures ids { IfSome result (λ ty. AreIds (known self.now) (val_refs (val_type ty))) }
    {
        let mut operators = expression.operators();
        match operators.next() {
            Some(operator) if operators.is_empty() => self.type_given(&operator),
            _ => None,
        }
    }

    // Does the same, of most expressions, in a fast way.
    #[inline(always)]
    #[tactic(auto, using(crate::proofs::AloneLaws::alone_steps))]
    fn type_short(&self, expression: &ConstExpr<'_>) -> Option<ValType>
        ensures alone { IfSome result (λ ty. IsAlone (features_of self.now) (context self.now) (meant_type (known self.now) (val_type ty)) (expression_of expression.now.rest)) }
        ensures ids { IfSome result (λ ty. AreIds (known self.now) (val_refs (val_type ty))) }
    {
        match expression.short_operator() {
            Some(operator) => self.type_given(&operator),
            None => None,
        }
    }

    // Checks that a type is below another that all can be compared with, with a fast way for numbers.
    #[inline(always)]
    fn is_below_wanted(&self, ty: &ValType, wanted: &ValType) -> bool
        requires ids { AreIds (known self.now) (val_refs (val_type ty.now)) }
        requires wanted { IsWanted (known self.now) (val_type wanted.now) }
        ensures { IsTrue result ↔ ValBelow unrolled (meant_type (known self.now) (val_type ty.now)) (meant_type (known self.now) (val_type wanted.now)) }
    {
        match (ty, wanted) {
            (ValType::I32, ValType::I32) | (ValType::I64, ValType::I64) => true,
            _ => self.types.is_subtype(*ty, *wanted),
        }
    }

    // Checks that one operand is left, below this type.
    fn check_last(&self, operands: &mut Operands, wanted: &ValType) -> Result<(), Error>
        requires known { AreKnown (known self.now) operands.old }
        requires wanted { IsWanted (known self.now) (val_type wanted.now) }
        ensures { Judges self.now.offset (Leaves (meant_type (known self.now) (val_type wanted.now)) (meant (known self.now) operands.old)) ⊥ result }
    {
        self.take(operands, wanted)?;
        if operands.len() > 0 {
            return Err(self.broken());
        }
        Ok(())
    }

    // Judges an expression operator by operator.
    #[tactic(auto, using(crate::proofs::StepLaws::good_start))]
    fn check_operators(
        &self,
        operands: &mut Operands,
        expression: &ConstExpr<'_>,
        wanted: &ValType,
    ) -> Result<(), Error>
        requires wanted { IsWanted (known self.now) (val_type wanted.now) }
        ensures { Judges self.now.offset (IsConstantOf (features_of self.now) (context self.now) (meant_type (known self.now) (val_type wanted.now)) (expression_of expression.now.rest)) (BeginsRightly (features_of self.now) (context self.now) (expression_of expression.now.rest)) result }
    {
        operands.clear();
        let mut operators = expression.operators();
        'operators: while let Some(operator) = operators.next() {
            self.step(operands, &operator)?;
        }
        self.check_last(operands, wanted)
    }

    // Judges any expression.
    #[inline(never)]
    #[tactic(auto, using(crate::proofs::AloneLaws::alone_steps))]
    fn check_any(
        &self,
        operands: &mut Operands,
        expression: &ConstExpr<'_>,
        wanted: &ValType,
    ) -> Result<(), Error>
        requires wanted { IsWanted (known self.now) (val_type wanted.now) }
        ensures { Judges self.now.offset (IsConstantOf (features_of self.now) (context self.now) (meant_type (known self.now) (val_type wanted.now)) (expression_of expression.now.rest)) (BeginsRightly (features_of self.now) (context self.now) (expression_of expression.now.rest)) result }
    {
        match self.type_alone(expression) {
            Some(ty) if self.types.is_subtype(ty, *wanted) => Ok(()),
            Some(_) => Err(self.broken()),
            None => self.check_operators(operands, expression, wanted),
        }
    }

    /// Judges that an expression gives a value of this type, which names types by ids. What the operands are afterwards is open.
    ///
    /// # Errors
    /// `Invalid` where it doesn't, at the place of refusals; `Memory` where memory runs out, at an operator that may stand there, as may those before it.
    #[inline(always)]
    #[tactic(auto, using(crate::proofs::AloneLaws::alone_steps))]
    pub fn check_constant(
        &self,
        operands: &mut Operands,
        expression: &ConstExpr<'_>,
        wanted: &ValType,
    ) -> Result<(), Error>
        requires wanted { IsWanted (known self.now) (val_type wanted.now) }
        ensures { Judges self.now.offset (IsConstantOf (features_of self.now) (context self.now) (meant_type (known self.now) (val_type wanted.now)) (expression_of expression.now.rest)) (BeginsRightly (features_of self.now) (context self.now) (expression_of expression.now.rest)) result }
    {
        if let Some(ty) = self.type_short(expression) {
            if !self.is_below_wanted(&ty, wanted) {
                return Err(self.broken());
            }
            return Ok(());
        }
        // (copies, so that these need no memory where this isn't called)
        let (scope, wanted) = (*self, *wanted);
        scope.check_any(operands, &expression.fork(), &wanted)
    }
}
