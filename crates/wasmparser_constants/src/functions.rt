//! Expressions that refer to a function, where a reference to any is wanted: a fast way (Core Specification 3.0, Validation, "Constant Expressions").

ghost use Rattle.std.specs.Option.{option_and_then};
ghost use Rattle.std.specs.Prelude.{◌≡◌, ◌≢◌, ◌++◌, ◌∷◌, [], IfSome, None, slice_get};
ghost use Rattle.wasm_spec.specs.Constants.{RefFunc};
ghost use Rattle.wasm_spec.specs.TypeReferences.{val_map};
ghost use Rattle.wasm_validity.specs.ConstantTyping.{IsConstantFor};
ghost use Rattle.wasm_validity.specs.Context.{Context};
ghost use Rattle.wasm_validity.specs.DefinedTypes.{func_type_at};
ghost use Rattle.wasmparser_entries.specs.ConstExprs.{expression_of};
ghost use Rattle.wasmparser_entries.specs.ConstOperators.{const_operator};
ghost use Rattle.wasmparser_types.specs.Index.{number_of};
ghost use Rattle.wasmparser_types.specs.ValTypes.{val_type};

use crate::scope::item_at;
use wasmparser_entries::const_expr::ConstExpr;
use wasmparser_entries::const_operator::ConstOperator;
use wasmparser_module_types::module_types::ModuleTypes;
use wasmparser_types::composite_type::FuncType;
use wasmparser_types::val_type::ValType;

/// The types of a module and the type indexes of its functions.
#[derive(Clone, Copy)]
pub struct Functions<'a> {
    /// The module's types.
    pub types: &'a ModuleTypes,
    /// The type index of each imported function.
    pub imported: &'a [u32],
    /// The type index of each function of the module's own.
    pub own: &'a [u32],
}

impl<'a> Functions<'a> {
    // Returns the type of a function, if there is one.
    #[inline(always)]
    fn func_type_of(&self, function: u32) -> Option<&FuncType>
        ensures { IfSome result (λ _. option_and_then (func_type_at self.now.types.now.types) (slice_get (self.now.imported.now ++ self.now.own.now) function) ≢ None) }
    {
        let index = item_at(self.imported, self.own, function as usize)?;
        self.types.func_type(index)
    }

    // Returns the function that an operator refers to, if there is one.
    #[inline(always)]
    fn function_referred(&self, operator: &ConstOperator) -> Option<u32>
        ensures refers { IfSome result (λ function. const_operator operator.now ≡ RefFunc function) }
        ensures there { IfSome result (λ function. option_and_then (func_type_at self.now.types.now.types) (slice_get (self.now.imported.now ++ self.now.own.now) function) ≢ None) }
    {
        match operator {
            ConstOperator::RefFunc { function_index } => {
                self.func_type_of(*function_index)?;
                Some(*function_index)
            }
            _ => None,
        }
    }

    /// Returns the function that an expression refers to, where it does nothing else and a reference to any function is wanted, of whichever type: so most
    /// expressions of segments of functions are. It has none of others.
    #[inline(always)]
    pub fn function_named(&self, expression: &ConstExpr<'_>, wanted: &ValType) -> Option<u32>
        ensures names { IfSome result (λ function. expression_of expression.now.rest ≡ RefFunc function ∷ []) }

        // In each module with these types and functions such an expression gives what is wanted.
        ensures constant { (cx : Context) → cx.types ≡ self.now.types.now.types → cx.imported_functions ≡ self.now.imported.now → cx.own_functions ≡ self.now.own.now
            → IfSome result (λ _. IsConstantFor self.now.types.now.features cx (val_map number_of (val_type wanted.now)) (expression_of expression.now.rest)) }
    {
        let wanted = wanted.as_reference_type()?;
        if !wanted.is_func_ref() || !self.types.features().reference_types() {
            return None;
        }
        match expression.short_operator() {
            Some(operator) => self.function_referred(&operator),
            None => None,
        }
    }
}
