//! The types of element segments, by index.

ghost use Rattle.std.specs.Prelude.{◌≡◌, ◌++◌, ◌∷◌, [], IfErr, IfOk, length, slice_get};

use std::alloc::{AllocError, Global};
use std::marker::Model;
use wasmparser_types::ref_type::RefType;

/// The types of element segments, which are so few that a `u32` counts them.
#[derive(Drop)]
pub(crate) struct ElementTypes {
    types: Vec<RefType>,
}

impl Model for ElementTypes {
    ghost use Rattle.std.specs.Prelude.{◌<◌, ◌^◌, List, length};
    ghost use Rattle.wasm_spec.specs.Types.{RefType as Reference};
    ghost use Rattle.wasmparser_types.specs.Index.{Index};

    ghost Value = { List (Reference Index) };

    ghost view = { λ it. it.types.items };

    ghost invariant = { λ it. length it.types.items < 2 ^ 32 };
}

impl ElementTypes {
    /// Creates a list without types.
    pub(crate) fn new(alloc: Global) -> ElementTypes
        ensures { result ≡ [] }
    {
        ElementTypes {
            types: Vec::new(alloc),
        }
    }

    /// Returns the number of types.
    pub(crate) fn len(&self) -> u32
        ensures { result ≡ length self.now }
    {
        self.types.len() as u32
    }

    /// Returns the type of the segment with this index, if there is one.
    pub(crate) fn get(&self, index: u32) -> Option<RefType>
        ensures { result ≡ slice_get self.now index }
    {
        self.types.get(index as usize).copied()
    }

    /// Adds one.
    ///
    /// # Errors
    /// Where memory runs out, or the segment would be one past what a `u32` counts. Nothing changes.
    pub(crate) fn push(&mut self, ty: RefType) -> Result<(), AllocError>
        ensures pushed { IfOk result (λ _. self.new ≡ self.old ++ ty ∷ []) }
        ensures refused { IfErr result (λ _. self.new ≡ self.old) }
    {
        if self.types.len() >= u32::MAX as usize {
            return Err(AllocError);
        }
        self.types.push(ty)?;
        Ok(())
    }

    /// Returns a copy.
    pub(crate) fn copy(&self, alloc: Global) -> Result<ElementTypes, AllocError>
        ensures { IfOk result (λ copy. copy ≡ self.now) }
    {
        Ok(ElementTypes {
            types: Vec::from_slice(alloc, &self.types)?,
        })
    }
}
