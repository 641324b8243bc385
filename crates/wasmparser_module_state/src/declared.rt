//! The functions that are declared outside of bodies (Core Specification 3.0, Validation, "Contexts" and "Modules").

ghost use Rattle.std.specs.Prelude.{◌≡◌, ◌∷◌, [], IfErr, IfOk};
ghost use Rattle.wasm_validity.specs.Context.{exported_function, named_in, with_functions};
ghost use Rattle.wasmparser_entries.specs.ConstExprs.{expression_of};
ghost use Rattle.wasmparser_error.specs.declared.error.ErrorKind.TheVariants as kinds;
ghost use Rattle.wasmparser_readers.specs.Exports.{external_kind};
ghost use Rattle.wasmparser_module_state.specs.State.{AreThere, HasRoom, context};

use crate::module_state::ModuleState;
use wasmparser_entries::const_expr::ConstExpr;
use wasmparser_error::error::Error;
use wasmparser_readers::export::ExternalKind;

impl ModuleState {
    /// Checks that a function is declared outside of bodies: by an export, an element segment or a constant expression. A body may name it as a reference then,
    /// if it is so at the module's end.
    pub fn is_declared(&self, function: u32) -> bool
        ensures { result ≡ (context self.now).declared function }
    {
        self.declared.contains(function)
    }

    // Makes room to declare each function that there is so far.
    pub(crate) fn make_room(&mut self) -> Result<(), Error>
        ensures room { IfOk result (λ _. HasRoom self.new) }
        ensures refused { IfErr result (λ e. e ≡ record { offset = 0; kind = kinds.Memory }) }
        ensures same { context self.new ≡ context self.old }
        ensures types { self.new.types ≡ self.old.types }
    {
        let functions = self.function_count();
        self.declared.make_room(functions)?;
        Ok(())
    }

    // Declares the functions that an expression names.
    #[inline(always)]
    #[tactic(auto, using(crate::proofs::DeclaredLaws::fitting_steps))]
    pub(crate) fn declare_named(&mut self, expression: &ConstExpr<'_>)
        requires room { HasRoom self.old }
        requires named { AreThere (context self.old) (named_in (expression_of expression.now.rest)) }
        ensures declared { context self.new ≡ record (context self.old) { declared = with_functions (context self.old).declared (named_in (expression_of expression.now.rest)) } }
        ensures types { self.new.types ≡ self.old.types }
        ensures room { HasRoom self.new }
    {
        self.declared.insert_named(expression);
    }

    // Declares a function.
    #[inline(always)]
    #[tactic(auto, using(crate::proofs::DeclaredLaws::fitting_steps))]
    pub(crate) fn declare_function(&mut self, function: u32)
        requires room { HasRoom self.old }
        requires named { AreThere (context self.old) (function ∷ []) }
        ensures declared { context self.new ≡ record (context self.old) { declared = with_functions (context self.old).declared (function ∷ []) } }
        ensures types { self.new.types ≡ self.old.types }
        ensures room { HasRoom self.new }
    {
        self.declared.insert(function);
    }

    // Declares what is exported, where it is a function.
    #[tactic(auto, using(crate::proofs::DeclaredLaws::fitting_steps))]
    pub(crate) fn declare_exported(&mut self, kind: ExternalKind, index: u32)
        requires room { HasRoom self.old }
        requires named { AreThere (context self.old) (exported_function (external_kind kind) index) }
        ensures declared { context self.new ≡ record (context self.old) { declared = with_functions (context self.old).declared (exported_function (external_kind kind) index) } }
        ensures types { self.new.types ≡ self.old.types }
    {
        if let ExternalKind::Func = kind {
            self.declared.insert(index);
        }
    }
}
