//! Constant expressions of a module, each of which is to give a value of a type (Core Specification 3.0, Validation, "Constant Expressions").

ghost use Rattle.std.specs.Prelude.{◌≡◌, ◌↔◌, ◌∷◌, [], IfErr, IfOk, IfSome, IsTrue};
ghost use Rattle.wasm_spec.specs.Constants.{RefFunc};
ghost use Rattle.wasm_spec.specs.TypeReferences.{val_map};
ghost use Rattle.wasm_validity.specs.ConstantTyping.{IsConstantFor};
ghost use Rattle.wasm_validity.specs.Context.{named_in, with_functions};
ghost use Rattle.wasm_validity.specs.Rules.{IsBelow};
ghost use Rattle.wasmparser_entries.specs.ConstExprs.{expression_of};
ghost use Rattle.wasmparser_constants.specs.Steps.{BeginsRightly, CanBeWanted, Judges};
ghost use Rattle.wasmparser_module_state.specs.State.{AreThere, HasRoom, context, features_of};
ghost use Rattle.wasmparser_types.specs.Index.{number_of};
ghost use Rattle.wasmparser_types.specs.ValTypes.{val_type};

use crate::module_state::ModuleState;
use wasmparser_constants::functions::Functions;
use wasmparser_constants::scope::Scope;
use wasmparser_entries::const_expr::ConstExpr;
use wasmparser_error::error::Error;
use wasmparser_types::val_type::ValType;

impl ModuleState {
    /// Judges that an expression gives a value of this type.
    #[inline(always)]
    #[tactic(auto, using(crate::proofs::Judged::seen_steps))]
    pub(crate) fn check_initialiser(
        &mut self,
        expression: &ConstExpr<'_>,
        ty: &ValType,
        offset: u64,
    ) -> Result<(), Error>
        requires wanted { CanBeWanted (features_of self.old) (val_type ty.now) }
        ensures judged { Judges offset (IsConstantFor (features_of self.old) (context self.old) (val_map number_of (val_type ty.now)) (expression_of expression.now.rest)) (BeginsRightly (features_of self.old) (context self.old) (expression_of expression.now.rest)) result }
        ensures begins { IfOk result (λ _. BeginsRightly (features_of self.old) (context self.old) (expression_of expression.now.rest)) }
        ensures named { IfOk result (λ _. AreThere (context self.old) (named_in (expression_of expression.now.rest))) }
        ensures same { context self.new ≡ context self.old }
        ensures declared { self.new.declared ≡ self.old.declared }
        ensures types { self.new.types ≡ self.old.types }
    {
        let scope = Scope {
            types: &self.types,
            imported_functions: &self.imported_functions,
            own_functions: &self.own_functions,
            imported_globals: &self.imported_globals,
            own_globals: &self.own_globals,
            offset,
        };
        scope.check_initialiser(&mut self.operands, expression, ty)
    }

    /// Does the same for an expression that sees no globals but imported ones.
    #[tactic(auto, using(crate::proofs::Judged::seen_steps))]
    pub(crate) fn check_table_initialiser(
        &mut self,
        expression: &ConstExpr<'_>,
        ty: &ValType,
        offset: u64,
    ) -> Result<(), Error>
        requires wanted { CanBeWanted (features_of self.old) (val_type ty.now) }
        ensures judged { Judges offset (IsConstantFor (features_of self.old) (record (context self.old) { own_globals = [] }) (val_map number_of (val_type ty.now)) (expression_of expression.now.rest)) (BeginsRightly (features_of self.old) (record (context self.old) { own_globals = [] }) (expression_of expression.now.rest)) result }
        ensures begins { IfOk result (λ _. BeginsRightly (features_of self.old) (record (context self.old) { own_globals = [] }) (expression_of expression.now.rest)) }
        ensures named { IfOk result (λ _. AreThere (context self.old) (named_in (expression_of expression.now.rest))) }
        ensures same { context self.new ≡ context self.old }
        ensures declared { self.new.declared ≡ self.old.declared }
        ensures types { self.new.types ≡ self.old.types }
    {
        let scope = Scope {
            types: &self.types,
            imported_functions: &self.imported_functions,
            own_functions: &self.own_functions,
            imported_globals: &self.imported_globals,
            own_globals: &[],
            offset,
        };
        scope.check_initialiser(&mut self.operands, expression, ty)
    }

    // Returns the function that an expression refers to, where a reference to any function is wanted: a fast way, which has none of other expressions.
    #[inline(always)]
    fn function_named(&self, expression: &ConstExpr<'_>, ty: &ValType) -> Option<u32>
        ensures names { IfSome result (λ function. expression_of expression.now.rest ≡ RefFunc function ∷ []) }
        ensures constant { IfSome result (λ _. IsConstantFor (features_of self.now) (context self.now) (val_map number_of (val_type ty.now)) (expression_of expression.now.rest)) }
        ensures named { IfSome result (λ function. AreThere (context self.now) (function ∷ [])) }
    {
        let functions = Functions {
            types: &self.types,
            imported: &self.imported_functions,
            own: &self.own_functions,
        };
        functions.function_named(expression, ty)
    }

    /// Judges that an expression gives a value of this type, and declares the functions that it names.
    #[inline(always)]
    pub(crate) fn add_initialiser(
        &mut self,
        expression: &ConstExpr<'_>,
        ty: &ValType,
        offset: u64,
    ) -> Result<(), Error>
        requires wanted { CanBeWanted (features_of self.old) (val_type ty.now) }
        requires room { HasRoom self.old }
        ensures judged { Judges offset (IsConstantFor (features_of self.old) (context self.old) (val_map number_of (val_type ty.now)) (expression_of expression.now.rest)) (BeginsRightly (features_of self.old) (context self.old) (expression_of expression.now.rest)) result }
        ensures declared { IfOk result (λ _. context self.new ≡ record (context self.old) { declared = with_functions (context self.old).declared (named_in (expression_of expression.now.rest)) }) }
        ensures refused { IfErr result (λ _. context self.new ≡ context self.old) }
        ensures types { self.new.types ≡ self.old.types }
        ensures room { HasRoom self.new }
    {
        if let Some(function) = self.function_named(expression, ty) {
            self.declare_function(function);
            return Ok(());
        }
        self.check_initialiser(expression, ty, offset)?;
        self.declare_named(expression);
        Ok(())
    }

    /// Checks that the first of two types is below the second.
    #[tactic(auto, using(crate::proofs::Judged::seen_steps))]
    pub(crate) fn is_below(&self, a: &ValType, b: &ValType) -> bool
        requires wanted { CanBeWanted (features_of self.now) (val_type a.now) }
        ensures { IsTrue result ↔ IsBelow (context self.now) (val_map number_of (val_type a.now)) (val_map number_of (val_type b.now)) }
    {
        let scope = Scope {
            types: &self.types,
            imported_functions: &self.imported_functions,
            own_functions: &self.own_functions,
            imported_globals: &self.imported_globals,
            own_globals: &self.own_globals,
            offset: 0,
        };
        scope.is_below(a, b)
    }
}
