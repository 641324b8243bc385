//! The globals and functions that constants may name.

ghost use Rattle.std.specs.Prelude.{◌≡◌, ◌≤◌, ◌↔◌, ◌∷◌, [], false, length, map, IsTrue};
ghost use Rattle.wasm_core_types.specs.CoreTypes.{val_type};
ghost use Rattle.wasm_core_types.specs.SubTypes.{sub_type};
ghost use Rattle.wasm_smith_definitions.specs.Constants.{Gives};
ghost use Rattle.wasm_smith_validity.specs.ValidGroups.{AllKeepTypeRules};
ghost use Rattle.wasm_smith_validity.specs.Constants.{IsBelow};
ghost use Rattle.wasm_spec.specs.Constants.{GlobalGet, RefFunc};
ghost use Rattle.wasm_spec.specs.Types.{Concrete, Ref};

use crate::draws::index_below;
use crate::index_spaces::IndexSpaces;
use crate::item_lists::ItemLists;
use crate::merged::Merged;
use std::alloc::{AllocError, Global};
use wasm_core_types::types::{HeapType, RefType, SubType, ValType};
use wasm_smith_config::config::Config;
use wasm_smith_unstructured::unstructured::Unstructured;
use wasm_smith_validity::subtyping::is_ref_below;

/// A form of constant expressions.
#[derive(Clone, Copy, Debug)]
pub enum Form {
    /// A number, a vector, or null.
    Plain,
    /// An operation on two integers.
    Operation,
    /// The value of a global.
    Global(u32),
    /// A reference to a function.
    Function(u32),
}

/// The globals and functions that constants may name, among the first of their index spaces.
#[derive(Debug, Drop)]
pub struct Candidates {
    // without references that may be null
    globals: ItemLists,
    // references, which may be null or not
    nullable_globals: ItemLists,
    functions: ItemLists,
    globals_seen: u32,
    functions_seen: u32,
}

// Checks that a type is one of references.
fn is_reference(ty: &ValType) -> bool {
    matches!(ty, ValType::Ref(_))
}

// Checks that null is among the values of a type.
fn is_nullable(ty: &ValType) -> bool {
    match ty {
        ValType::Ref(reference) => reference.nullable,
        _ => false,
    }
}

// Checks that one value type is below another, for types that keep the rules on types.
fn is_below(types: &[SubType], low: &ValType, high: &ValType) -> bool
    ensures { AllKeepTypeRules (map sub_type types.now) → (IsTrue result ↔ IsBelow (map sub_type types.now) (val_type low.now) (val_type high.now)) }
{
    match low {
        ValType::I32 => matches!(high, ValType::I32),
        ValType::I64 => matches!(high, ValType::I64),
        ValType::F32 => matches!(high, ValType::F32),
        ValType::F64 => matches!(high, ValType::F64),
        ValType::V128 => matches!(high, ValType::V128),
        ValType::Ref(low) => match high {
            ValType::Ref(high) => is_ref_below(types, *low, *high),
            _ => false,
        },
    }
}

/// Checks that a constant of a type may be the value of a global.
pub fn can_get(config: &Config, spaces: &IndexSpaces<'_>, global: u32, ty: &ValType) -> bool
    ensures { AllKeepTypeRules spaces.now.types → IsTrue result → Gives config.now spaces.now (val_type ty.now) (GlobalGet global ∷ []) }
{
    let Some(global_type) = spaces.global(global) else {
        return false;
    };
    let is_visible = spaces.is_imported(global) | config.gc_enabled;
    if !is_visible {
        return false;
    }
    if global_type.mutable {
        return false;
    }
    is_below(spaces.types(), &global_type.val_type, ty)
}

// Returns the type of references to functions of a type.
fn reference_to(index: u32) -> ValType
    ensures { val_type result ≡ Ref false (Concrete index) }
{
    ValType::Ref(RefType {
        nullable: false,
        heap_type: HeapType::Concrete(index),
    })
}

/// Checks that a constant of a type may be a reference to a function.
pub fn can_refer(config: &Config, spaces: &IndexSpaces<'_>, function: u32, ty: &ValType) -> bool
    ensures { AllKeepTypeRules spaces.now.types → IsTrue result → Gives config.now spaces.now (val_type ty.now) (RefFunc function ∷ []) }
{
    let Some(index) = spaces.function(function) else {
        return false;
    };
    if !config.reference_types_enabled {
        return false;
    }
    is_below(spaces.types(), &reference_to(index), ty)
}

// Returns the candidate of an index. Globals come first.
fn candidate(globals: &Merged<'_>, functions: &Merged<'_>, index: usize) -> Option<Form> {
    let count = globals.len();
    if index < count {
        return Some(Form::Global(globals.get(index)?));
    }
    Some(Form::Function(functions.get(index - count)?))
}

impl Candidates {
    /// Returns the candidates among no globals and no functions.
    pub fn new(alloc: Global) -> Candidates {
        Candidates {
            globals: ItemLists::new(alloc),
            nullable_globals: ItemLists::new(alloc),
            functions: ItemLists::new(alloc),
            globals_seen: 0,
            functions_seen: 0,
        }
    }

    // Adds a global, where constants may name it.
    fn add_global(
        &mut self,
        alloc: Global,
        config: &Config,
        spaces: &IndexSpaces<'_>,
        global: u32,
    ) -> Result<(), AllocError> {
        let Some(global_type) = spaces.global(global) else {
            return Ok(());
        };
        let own = &global_type.val_type;
        if !can_get(config, spaces, global, own) {
            return Ok(());
        }
        if !is_nullable(own) {
            self.globals.add(alloc, spaces.types(), own, global)?;
        }
        if is_reference(own) {
            self.nullable_globals
                .add(alloc, spaces.types(), own, global)?;
        }
        Ok(())
    }

    // Adds a function, where constants may name it.
    fn add_function(
        &mut self,
        alloc: Global,
        config: &Config,
        spaces: &IndexSpaces<'_>,
        function: u32,
    ) -> Result<(), AllocError> {
        let Some(index) = spaces.function(function) else {
            return Ok(());
        };
        let own = reference_to(index);
        if !can_refer(config, spaces, function, &own) {
            return Ok(());
        }
        self.functions.add(alloc, spaces.types(), &own, function)
    }

    /// Adds the candidates among the globals and functions that are new since the last call.
    ///
    /// # Errors
    /// Where memory runs out.
    pub fn update(
        &mut self,
        alloc: Global,
        config: &Config,
        spaces: &IndexSpaces<'_>,
    ) -> Result<(), AllocError> {
        for global in self.globals_seen..spaces.global_count() {
            self.add_global(alloc, config, spaces, global)?;
            self.globals_seen = global + 1;
        }
        for function in self.functions_seen..spaces.function_count() {
            self.add_function(alloc, config, spaces, function)?;
            self.functions_seen = function + 1;
        }
        Ok(())
    }

    // Returns the globals that constants of a type may name.
    fn globals_of(&self, types: &[SubType], ty: &ValType) -> Merged<'_> {
        if is_nullable(ty) {
            self.nullable_globals.of_type(types, ty)
        } else {
            self.globals.of_type(types, ty)
        }
    }

    /// Chooses one of the candidates for constants of a type, or of this many forms that name no global and no function, where plain constants come first.
    /// Returns none where there is nothing to choose.
    pub fn choose(
        &self,
        unstructured: &mut Unstructured<'_>,
        types: &[SubType],
        ty: &ValType,
        nameless: usize,
    ) -> Option<Form>
        ensures { length unstructured.new ≤ length unstructured.old }
    {
        let globals = self.globals_of(types, ty);
        let functions = self.functions.of_type(types, ty);
        let candidates = globals.len().saturating_add(functions.len());
        let count = nameless.saturating_add(candidates);
        if count == 0 {
            return None;
        }
        let index = index_below(unstructured, count);
        if index >= nameless {
            return candidate(&globals, &functions, index - nameless);
        }
        Some(if index == 0 {
            Form::Plain
        } else {
            Form::Operation
        })
    }
}
