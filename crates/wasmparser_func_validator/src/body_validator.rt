//! `FuncValidator` as the `BodyValidator` (`body_validator.rt` of `wasmparser_bodies`) that `read_body` calls.

use crate::func_validator::FuncValidator;
use wasmparser_bodies::body_validator::BodyValidator;
use wasmparser_bodies::module_resources::WasmModuleResources;
use wasmparser_error::error::Error;
use wasmparser_operators::operator::Operator;
use wasmparser_types::val_type::ValType;

impl<T: WasmModuleResources> BodyValidator for FuncValidator<T> {
    ghost use Rattle.wasm_core_types.specs.Features.{feature_set};
    ghost use Rattle.wasmparser_func_validator.specs.FromBytes.{Given, state_of};
    ghost use Rattle.wasmparser_func_validator.specs.Steps.{items_in, locals_in_body};

    ghost state = { λ v. state_of (feature_set v.body.features) (items_in T.resources v.body) v.body.ty (locals_in_body T.resources v.body) v.stacks v.failed };

    ghost Kept = { Given T };

    ghost kept = { λ v. record { resources = v.body.resources; features = v.body.features; ty = v.body.ty; index = v.index } };

    fn define_locals(&mut self, offset: u64, count: u32, ty: ValType) -> Result<(), Error> {
        FuncValidator::define_locals(self, offset, count, ty)
    }

    fn op(&mut self, offset: u64, it: &Operator<'_>) -> Result<(), Error> {
        FuncValidator::op(self, offset, it)
    }

    fn run<'a>(&mut self, code: &'a [u8]) -> &'a [u8] {
        self.body.run(&mut self.stacks, code)
    }

    fn is_closed(&self) -> bool {
        self.stacks.is_closed()
    }
}
