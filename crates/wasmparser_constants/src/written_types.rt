//! Types that a module writes: whether an expression gives a value of one, and whether one is below another.

ghost use Rattle.std.specs.Prelude.{◌↔◌, IsTrue};
ghost use Rattle.wasm_spec.specs.TypeReferences.{val_map};
ghost use Rattle.wasm_validity.specs.ConstantTyping.{IsConstantFor};
ghost use Rattle.wasm_validity.specs.Rules.{IsBelow};
ghost use Rattle.wasmparser_entries.specs.ConstExprs.{expression_of};
ghost use Rattle.wasmparser_constants.specs.Scopes.{context, features_of};
ghost use Rattle.wasmparser_constants.specs.Steps.{BeginsRightly, CanBeWanted, Judges};
ghost use Rattle.wasmparser_types.specs.Index.{number_of};
ghost use Rattle.wasmparser_types.specs.ValTypes.{val_type};

use crate::operands::Operands;
use crate::scope::Scope;
use wasmparser_entries::const_expr::ConstExpr;
use wasmparser_error::error::Error;
use wasmparser_types::val_type::ValType;

impl<'a> Scope<'a> {
    /// Judges that an expression gives a value of this type, which names types by their indexes in the module. The operands are emptied first; what
    /// they are afterwards is open.
    ///
    /// # Errors
    /// `Invalid` where it doesn't, or the type names no type, at the place of refusals; `Memory` where memory runs out, at an operator that may stand there, as may
    /// those before it.
    #[inline(always)]
    pub fn check_initialiser(
        &self,
        operands: &mut Operands,
        expression: &ConstExpr<'_>,
        ty: &ValType,
    ) -> Result<(), Error>
        requires wanted { CanBeWanted (features_of self.now) (val_type ty.now) }
        ensures { Judges self.now.offset (IsConstantFor (features_of self.now) (context self.now) (val_map number_of (val_type ty.now)) (expression_of expression.now.rest)) (BeginsRightly (features_of self.now) (context self.now) (expression_of expression.now.rest)) result }
    {
        let Some(ty) = self.by_ids(ty) else {
            return Err(self.broken());
        };
        self.check_constant(operands, expression, &ty)
    }

    /// Checks that the first of two types is below the second, which both name types by their indexes in the module.
    pub fn is_below(&self, a: &ValType, b: &ValType) -> bool
        requires wanted { CanBeWanted (features_of self.now) (val_type a.now) }
        ensures { IsTrue result ↔ IsBelow (context self.now) (val_map number_of (val_type a.now)) (val_map number_of (val_type b.now)) }
    {
        let (Some(a), Some(b)) = (self.by_ids(a), self.by_ids(b)) else {
            return false;
        };
        self.types.is_subtype(a, b)
    }
}
