//! The operands of a constant expression.

ghost use Rattle.wasmparser_constants.specs.Operands.{last_first};

use std::alloc::Global;
use std::marker::Model;
use wasmparser_error::error::Error;
use wasmparser_types::val_type::ValType;

/// The types of the operands so far, which name types by ids. Contracts see them with the last one first.
#[derive(Debug, Drop)]
pub struct Operands {
    types: Vec<ValType>,
}

impl Model for Operands {
    ghost use Rattle.std.specs.Prelude.{List};
    ghost use Rattle.wasm_spec.specs.Types as spec;
    ghost use Rattle.wasmparser_constants.specs.Operands.{last_first};
    ghost use Rattle.wasmparser_types.specs.Index.{Index};

    ghost Value = { List (spec.ValType Index) };

    ghost view = { λ operands. last_first operands.types.items };
}

impl Operands {
    ghost use Rattle.std.specs.Prelude.{◌≡◌, [], ◌∷◌, IfErr, IfOk, length};
    ghost use Rattle.wasmparser_constants.specs.Operands.{Pops};
    ghost use Rattle.wasmparser_error.specs.declared.error.ErrorKind.TheVariants as kinds;
    ghost use Rattle.wasmparser_types.specs.ValTypes.{val_type};

    /// Creates a list without operands.
    pub fn new(alloc: Global) -> Operands
        ensures { result ≡ [] }
    {
        Operands {
            types: Vec::new(alloc),
        }
    }

    /// Takes all operands off, and keeps the room for them.
    pub fn clear(&mut self)
        ensures { self.new ≡ [] }
    {
        self.types.clear();
    }

    /// Returns the number of operands.
    #[tactic(auto, using(crate::proofs::OperandLists::as_many))]
    pub fn len(&self) -> usize
        ensures { result ≡ length self.now }
    {
        self.types.len()
    }

    /// Puts an operand there.
    ///
    /// # Errors
    /// `Memory`, at 0, where memory runs out.
    #[tactic(auto, using(crate::proofs::OperandLists::pushed))]
    pub fn push(&mut self, ty: ValType) -> Result<(), Error>
        ensures pushed { IfOk result (λ _. self.new ≡ val_type ty ∷ self.old) }
        ensures refused { IfErr result (λ e. (e ≡ record { offset = 0; kind = kinds.Memory }) × (self.new ≡ self.old)) }
    {
        self.types.push(ty)?;
        Ok(())
    }

    /// Takes the last operand off, if there is one.
    #[tactic(auto, using(crate::proofs::OperandLists::popped))]
    pub fn pop(&mut self) -> Option<ValType>
        ensures { Pops self.old result self.new }
    {
        self.types.pop()
    }
}
