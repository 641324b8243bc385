//! The types that functions and tags may have, and the sizes of these types.

ghost use Rattle.std.specs.Prelude.{◌≡◌, ◌≤◌, ◌^◌, IfOk, length, map};
ghost use Rattle.wasm_core_types.specs.SubTypes.{composite_type, sub_type};
ghost use Rattle.wasm_validity.specs.DefinedTypes.{func_in};
ghost use Rattle.wasm_smith_validity.specs.Rules as rules;
ghost use Rattle.wasm_smith_validity.specs.Spaces.{func_type_at};
ghost use Rattle.wasm_smith_definitions.specs.FunctionTypes.{func_size, function_indexes, is_function, is_resultless, tag_indexes};

use crate::indexes::push_if;
use std::alloc::{AllocError, Global};
use wasm_core_types::types::{CompositeType, SubType};

// Returns true if it is a function type.
fn is_function(ty: &CompositeType) -> bool
    ensures { result ≡ is_function (composite_type ty.now) }
{
    match ty {
        CompositeType::Func(_) => true,
        CompositeType::Array(_) | CompositeType::Struct(_) | CompositeType::Cont(_) => false,
    }
}

// Returns true if it is a function type without results.
#[tactic(auto, using(crate::proofs::SizeLaws::as_many))]
fn is_resultless(ty: &CompositeType) -> bool
    ensures { result ≡ is_resultless (composite_type ty.now) }
{
    match ty {
        CompositeType::Func(function) => function.results().is_empty(),
        CompositeType::Array(_) | CompositeType::Struct(_) | CompositeType::Cont(_) => false,
    }
}

/// Returns the indexes of the function types.
///
/// # Errors
/// Where memory runs out.
pub fn function_types(alloc: Global, types: &[SubType]) -> Result<Vec<u32>, AllocError>
    requires few { length types.now ≤ 2 ^ 31 }
    ensures { IfOk result (λ v. v.items ≡ function_indexes 0 (map sub_type types.now)) }
{
    let mut indexes = Vec::new(alloc);
    let mut index: u32 = 0;
    for ty in types {
        push_if(&mut indexes, is_function(&ty.composite_type), index)?;
        index += 1;
    }
    Ok(indexes)
}

/// Returns the indexes of the function types without results, which a tag may have.
///
/// # Errors
/// Where memory runs out.
pub fn tag_types(alloc: Global, types: &[SubType]) -> Result<Vec<u32>, AllocError>
    requires few { length types.now ≤ 2 ^ 31 }
    ensures { IfOk result (λ v. v.items ≡ tag_indexes 0 (map sub_type types.now)) }
{
    let mut indexes = Vec::new(alloc);
    let mut index: u32 = 0;
    for ty in types {
        push_if(&mut indexes, is_resultless(&ty.composite_type), index)?;
        index += 1;
    }
    Ok(indexes)
}

// Returns the size of a type, 1 and its parameters and results.
#[tactic(auto, using(crate::proofs::SizeLaws::as_many))]
fn size(ty: &CompositeType) -> usize
    ensures { result ≡ func_size (func_in (composite_type ty.now)) }
{
    match ty {
        CompositeType::Func(function) => 1 + function.params().len() + function.results().len(),
        CompositeType::Array(_) | CompositeType::Struct(_) | CompositeType::Cont(_) => 1,
    }
}

/// Returns the size of the function type of this index: 1, and its parameters and results.
#[tactic(auto, using(crate::proofs::SpaceLaws::got_mapped))]
pub fn function_size(types: &[SubType], index: u32) -> usize
    ensures { result ≡ func_size (func_type_at (map sub_type types.now) index) }
{
    match types.get(index as usize) {
        Some(ty) => size(&ty.composite_type),
        None => 1,
    }
}

// Returns true if it is a function type without parameters and results.
#[tactic(auto, using(crate::proofs::SizeLaws::as_many))]
fn is_unit(ty: &CompositeType) -> bool
    ensures { result ≡ rules.is_unit (func_in (composite_type ty.now)) }
{
    match ty {
        CompositeType::Func(function) => {
            function.params().is_empty() && function.results().is_empty()
        }
        CompositeType::Array(_) | CompositeType::Struct(_) | CompositeType::Cont(_) => false,
    }
}

/// Returns true if this is the index of a function type without parameters and results.
#[tactic(auto, using(crate::proofs::SpaceLaws::got_mapped))]
pub fn names_unit(types: &[SubType], index: u32) -> bool
    ensures { result ≡ rules.is_unit (func_type_at (map sub_type types.now) index) }
{
    match types.get(index as usize) {
        Some(ty) => is_unit(&ty.composite_type),
        None => false,
    }
}
