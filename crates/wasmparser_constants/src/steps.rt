//! Steps of the operators of a constant expression on the operands (Core Specification 3.0, Validation, "Constant Expressions").

ghost use Rattle.std.specs.Prelude.{◌≡◌, Bool, IfSome, IsSome, Option, Some, map, option_map, replicate, reverse};
ghost use Rattle.std.specs.List.{AllByRecursion};
ghost use Rattle.wasm_spec.specs.Constants.{ArrayNew, ArrayNewDefault, ArrayNewFixed, GlobalGet, RefFunc, RefI31, RefNull, StructNew, StructNewDefault};
ghost use Rattle.wasm_spec.specs.Features.{ExtendedConst, Gc, has};
ghost use Rattle.wasm_spec.specs.TypeReferences.{heap_map, val_refs};
ghost use Rattle.wasm_spec.specs.Types as spec;
ghost use Rattle.wasm_validity.specs.ConstantTyping.{Converts, effect, provided, puts, puts_for_two};
ghost use Rattle.wasmparser_constants.specs.Operands.{AreKnown, meant_type};
ghost use Rattle.wasmparser_constants.specs.Scopes.{context, features_of, field_values, known};
ghost use Rattle.wasmparser_constants.specs.Steps.{IsConverted, IsWanted, Steps, Takes};
ghost use Rattle.wasmparser_error.specs.declared.error.ErrorKind.TheVariants as kinds;
ghost use Rattle.wasmparser_module_types.specs.ModuleTypes.{AreIds};
ghost use Rattle.wasmparser_types.specs.HeapTypes.{abstract_heap_type, heap_type};
ghost use Rattle.wasmparser_types.specs.Index.{number_of};
ghost use Rattle.wasmparser_types.specs.ValTypes.{val_type};

use crate::operands::Operands;
use crate::scope::Scope;
use wasmparser_error::error::{Error, ErrorKind};
use wasmparser_types::heap_type::{AbstractHeapType, HeapType};
use wasmparser_types::ref_type::RefType;
use wasmparser_types::val_type::{FieldType, ValType};

impl<'a> Scope<'a> {
    // Returns a refusal of what is wrong.
    pub(crate) fn broken(&self) -> Error
        ensures { result ≡ record { offset = self.now.offset; kind = kinds.Invalid } }
    {
        Error {
            offset: self.offset,
            kind: ErrorKind::Invalid,
        }
    }

    // Takes off an operand that is below this type.
    pub(crate) fn take(&self, operands: &mut Operands, wanted: &ValType) -> Result<(), Error>
        requires known { AreKnown (known self.now) operands.old }
        requires wanted { IsWanted (known self.now) (val_type wanted.now) }
        ensures { Takes (known self.now) self.now.offset (meant_type (known self.now) (val_type wanted.now)) operands.old result operands.new }
    {
        match operands.pop() {
            Some(operand) if self.types.is_subtype(operand, *wanted) => Ok(()),
            _ => Err(self.broken()),
        }
    }

    // Puts an operand there, where it may be.
    pub(crate) fn put(
        &self,
        operands: &mut Operands,
        ty: &ValType,
        is_allowed: bool,
    ) -> Result<(), Error>
        requires known { AreKnown (known self.now) operands.old }
        requires ids { AreIds (known self.now) (val_refs (val_type ty.now)) }
        ensures { Steps (known self.now) self.now.offset (provided is_allowed (Some (puts (meant_type (known self.now) (val_type ty.now))))) operands.old result operands.new }
    {
        if !is_allowed {
            return Err(self.broken());
        }
        operands.push(*ty)
    }

    // Makes a number of two.
    pub(crate) fn compute(&self, operands: &mut Operands, ty: &ValType) -> Result<(), Error>
        requires known { AreKnown (known self.now) operands.old }
        requires wanted { IsWanted (known self.now) (val_type ty.now) }
        ensures { Steps (known self.now) self.now.offset (provided (has (features_of self.now) ExtendedConst) (Some (puts_for_two (meant_type (known self.now) (val_type ty.now))))) operands.old result operands.new }
    {
        if !self.types.features().extended_const() {
            return Err(self.broken());
        }
        self.take(operands, ty)?;
        self.take(operands, ty)?;
        operands.push(*ty)
    }

    // Puts an operand of this type there, if there is one.
    fn put_found(&self, operands: &mut Operands, found: Option<ValType>) -> Result<(), Error>
        requires known { AreKnown (known self.now) operands.old }
        requires ids { IfSome found (λ ty. AreIds (known self.now) (val_refs (val_type ty))) }
        ensures { Steps (known self.now) self.now.offset (option_map (λ ty. puts (meant_type (known self.now) (val_type ty))) found) operands.old result operands.new }
    {
        match found {
            Some(ty) => operands.push(ty),
            None => Err(self.broken()),
        }
    }

    pub(crate) fn put_null(&self, operands: &mut Operands, heap: &HeapType) -> Result<(), Error>
        requires known { AreKnown (known self.now) operands.old }
        ensures { Steps (known self.now) self.now.offset (effect (features_of self.now) (context self.now) (RefNull (heap_map number_of (heap_type heap.now)))) operands.old result operands.new }
    {
        let found = self.null_type(heap);
        self.put_found(operands, found)
    }

    pub(crate) fn put_function(&self, operands: &mut Operands, function: u32) -> Result<(), Error>
        requires known { AreKnown (known self.now) operands.old }
        ensures { Steps (known self.now) self.now.offset (effect (features_of self.now) (context self.now) (RefFunc function)) operands.old result operands.new }
    {
        let found = self.function_type(function);
        self.put_found(operands, found)
    }

    pub(crate) fn put_global(&self, operands: &mut Operands, global: u32) -> Result<(), Error>
        requires known { AreKnown (known self.now) operands.old }
        ensures { Steps (known self.now) self.now.offset (effect (features_of self.now) (context self.now) (GlobalGet global)) operands.old result operands.new }
    {
        let found = self.global_type(global);
        self.put_found(operands, found)
    }

    pub(crate) fn put_scalar(&self, operands: &mut Operands) -> Result<(), Error>
        requires known { AreKnown (known self.now) operands.old }
        ensures { Steps (known self.now) self.now.offset (effect (features_of self.now) (context self.now) RefI31) operands.old result operands.new }
    {
        if !self.types.features().gc() {
            return Err(self.broken());
        }
        self.take(operands, &ValType::I32)?;
        operands.push(ValType::Ref(RefType::I31REF.as_non_null()))
    }

    // Returns the type of a reference of one kind as one of another, if it is of this kind.
    fn converted(
        &self,
        operand: &ValType,
        from: AbstractHeapType,
        to: AbstractHeapType,
    ) -> Option<RefType>
        requires ids { AreIds (known self.now) (val_refs (val_type operand.now)) }
        ensures { IsConverted (known self.now) (abstract_heap_type from) (abstract_heap_type to) (val_type operand.now) result }
    {
        let reference = operand.as_reference_type()?;
        let wanted = RefType::new(true, HeapType::Abstract(from))?;
        if !self.types.is_subtype(*operand, ValType::Ref(wanted)) {
            return None;
        }
        RefType::new(reference.is_nullable(), HeapType::Abstract(to))
    }

    // Makes a reference of one kind one of another, which may be null where that might.
    pub(crate) fn convert(
        &self,
        operands: &mut Operands,
        from: AbstractHeapType,
        to: AbstractHeapType,
    ) -> Result<(), Error>
        requires known { AreKnown (known self.now) operands.old }
        ensures { Steps (known self.now) self.now.offset (provided (has (features_of self.now) Gc) (Some (Converts (abstract_heap_type from) (abstract_heap_type to)))) operands.old result operands.new }
    {
        if !self.types.features().gc() {
            return Err(self.broken());
        }
        let Some(operand) = operands.pop() else {
            return Err(self.broken());
        };
        let Some(ty) = self.converted(&operand, from, to) else {
            return Err(self.broken());
        };
        operands.push(ValType::Ref(ty))
    }
}
