//! References (Core Specification 3.0, Validation, "Reference Instructions").

ghost use Rattle.std.specs.Prelude.{◌≡◌, ◌∷◌, [], map, option_map};
ghost use Rattle.wasm_bodies.specs.Operands as operands;
ghost use Rattle.wasm_spec.specs.TypeReferences.{heap_map};
ghost use Rattle.wasm_spec.specs.Types as types;
ghost use Rattle.wasmparser_bodies.specs.StackViews.{operand};
ghost use Rattle.wasmparser_operators.specs.OperatorValues.{IsHeapOfModule, IsOfModule, module_type};
ghost use Rattle.wasmparser_types.specs.HeapTypes.{abstract_heap_type, heap_type};
ghost use Rattle.wasmparser_types.specs.Index.{number_of};
ghost use Rattle.wasmparser_types.specs.ValTypes.{val_type};
ghost use Rattle.wasm_bodies.specs.Operators as spec;
ghost use Rattle.wasmparser_func_validator.specs.Steps.{HasEffect, body_context, items_in};

use crate::body::Body;
use crate::refusal::Refusal;
use crate::type_list::Types;
use wasmparser_bodies::module_resources::WasmModuleResources;
use wasmparser_bodies::operand::Operand;
use wasmparser_bodies::stacks::Stacks;
use wasmparser_types::heap_type::{AbstractHeapType, HeapType};
use wasmparser_types::ref_type::RefType;
use wasmparser_types::val_type::ValType;

// Returns the types of the operands of a choice between two operands of a type.
fn select_types(ty: &ValType) -> [ValType; 3]
    ensures { map val_type result ≡ val_type ty.now ∷ val_type ty.now ∷ types.I32 ∷ [] }
{
    [*ty, *ty, ValType::I32]
}

fn may_be_ref(x: &Operand) -> bool
    ensures { result ≡ operands.may_be_ref (operand x.now) }
{
    match x {
        Operand::Known(ty) => ty.is_ref(),
        Operand::Unknown => true,
        Operand::UnknownRef => true,
    }
}

// Returns the reference, which isn't null.
pub(crate) fn non_null(x: &Operand) -> Option<Operand>
    ensures { option_map operand result ≡ operands.non_null (operand x.now) }
{
    match x {
        Operand::Known(ty) => match ty.as_reference_type() {
            Some(it) => Some(Operand::Known(ValType::Ref(it.as_non_null()))),
            None => None,
        },
        Operand::Unknown => Some(Operand::UnknownRef),
        Operand::UnknownRef => Some(Operand::UnknownRef),
    }
}

fn abstract_reference(nullable: bool, heap: AbstractHeapType) -> ValType
    ensures { val_type result ≡ types.Ref nullable (types.Abstract (abstract_heap_type heap)) }
{
    ValType::Ref(RefType::new(nullable, HeapType::Abstract(heap)).unwrap())
}

impl<R: WasmModuleResources> Body<R> {
    // Returns a reference of one kind as one of another.
    fn converted(
        &self,
        from: AbstractHeapType,
        to: AbstractHeapType,
        x: &Operand,
    ) -> Option<Operand>
        ensures { option_map operand result ≡ operands.converted (items_in R.resources self.now) (abstract_heap_type from) (abstract_heap_type to) (operand x.now) }
    {
        match x {
            Operand::Known(ty) => match ty.as_reference_type() {
                Some(it) => {
                    if self
                        .resources
                        .is_subtype(*ty, abstract_reference(true, from))
                    {
                        Some(Operand::Known(abstract_reference(it.is_nullable(), to)))
                    } else {
                        None
                    }
                }
                None => None,
            },
            Operand::Unknown => Some(Operand::Known(abstract_reference(false, to))),
            Operand::UnknownRef => Some(Operand::Known(abstract_reference(false, to))),
        }
    }

    #[tactic(auto, using(crate::proofs::OperandLaws::replaces))]
    pub(crate) fn any_convert_extern(&self, stacks: &mut Stacks) -> Result<(), Refusal>
        ensures { HasEffect (body_context R.resources self.now) spec.AnyConvertExtern stacks.old stacks.new result }
    {
        let Some(x) = stacks.peek(0) else {
            return Err(Refusal::Invalid);
        };
        let Some(x) = self.converted(AbstractHeapType::Extern, AbstractHeapType::Any, &x) else {
            return Err(Refusal::Invalid);
        };
        stacks.replace_with(1, &[], &x)?;
        Ok(())
    }

    #[tactic(auto, using(crate::proofs::OperandLaws::replaces))]
    pub(crate) fn extern_convert_any(&self, stacks: &mut Stacks) -> Result<(), Refusal>
        ensures { HasEffect (body_context R.resources self.now) spec.ExternConvertAny stacks.old stacks.new result }
    {
        let Some(x) = stacks.peek(0) else {
            return Err(Refusal::Invalid);
        };
        let Some(x) = self.converted(AbstractHeapType::Any, AbstractHeapType::Extern, &x) else {
            return Err(Refusal::Invalid);
        };
        stacks.replace_with(1, &[], &x)?;
        Ok(())
    }

    pub(crate) fn ref_null(&self, stacks: &mut Stacks, heap: &HeapType) -> Result<(), Refusal>
        requires { IsHeapOfModule heap.now }
        ensures { HasEffect (body_context R.resources self.now) (spec.RefNull (heap_map number_of (heap_type heap.now))) stacks.old stacks.new result }
    {
        match self.null_type(heap) {
            Some(ty) => self.apply(stacks, &[], &[ty]),
            None => Err(Refusal::Invalid),
        }
    }

    #[tactic(auto, using(crate::proofs::OperandLaws::replaces))]
    pub(crate) fn ref_is_null(&self, stacks: &mut Stacks) -> Result<(), Refusal>
        ensures { HasEffect (body_context R.resources self.now) spec.RefIsNull stacks.old stacks.new result }
    {
        let Some(x) = stacks.peek(0) else {
            return Err(Refusal::Invalid);
        };
        if !may_be_ref(&x) {
            return Err(Refusal::Invalid);
        }
        stacks.replace(1, &[ValType::I32])?;
        Ok(())
    }

    #[tactic(auto, using(crate::proofs::OperandLaws::replaces))]
    pub(crate) fn ref_as_non_null(&self, stacks: &mut Stacks) -> Result<(), Refusal>
        ensures { HasEffect (body_context R.resources self.now) spec.RefAsNonNull stacks.old stacks.new result }
    {
        let Some(x) = stacks.peek(0) else {
            return Err(Refusal::Invalid);
        };
        let Some(x) = non_null(&x) else {
            return Err(Refusal::Invalid);
        };
        stacks.replace_with(1, &[], &x)?;
        Ok(())
    }

    pub(crate) fn ref_func(&self, stacks: &mut Stacks, function: u32) -> Result<(), Refusal>
        ensures { HasEffect (body_context R.resources self.now) (spec.RefFunc function) stacks.old stacks.new result }
    {
        if !self.resources.is_function_referenced(function) {
            return Err(Refusal::Invalid);
        }
        let Some(index) = self.resources.type_index_of_function(function) else {
            return Err(Refusal::Invalid);
        };
        match self.reference_at(false, index) {
            Some(ty) => self.apply(stacks, &[], &[ty]),
            None => Err(Refusal::Invalid),
        }
    }

    pub(crate) fn ref_eq(&self, stacks: &mut Stacks) -> Result<(), Refusal>
        ensures { HasEffect (body_context R.resources self.now) spec.RefEq stacks.old stacks.new result }
    {
        let takes = [ValType::Ref(RefType::EQREF), ValType::Ref(RefType::EQREF)];
        self.apply(stacks, &takes, &[ValType::I32])
    }

    pub(crate) fn ref_i31(&self, stacks: &mut Stacks) -> Result<(), Refusal>
        ensures { HasEffect (body_context R.resources self.now) spec.RefI31 stacks.old stacks.new result }
    {
        self.apply(
            stacks,
            &[ValType::I32],
            &[abstract_reference(false, AbstractHeapType::I31)],
        )
    }

    pub(crate) fn select_typed(&self, stacks: &mut Stacks, ty: &ValType) -> Result<(), Refusal>
        requires { IsOfModule ty.now }
        ensures { HasEffect (body_context R.resources self.now) (spec.SelectTyped (module_type ty.now ∷ [])) stacks.old stacks.new result }
    {
        match self.written(ty) {
            Some(ty) => self.apply(stacks, &select_types(&ty), &[ty]),
            None => Err(Refusal::Invalid),
        }
    }
}
