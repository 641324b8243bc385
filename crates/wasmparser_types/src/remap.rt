//! Replacing the indexes in a type by others, in place and without memory.

ghost use Rattle.std.specs.Prelude.{◌≡◌, IfOk, IfErr, List, map, flat_map};
ghost use Rattle.std.specs.List.{AllByRecursion, Any};
ghost use Rattle.wasm_spec.specs.Types as spec;
ghost use Rattle.wasm_spec.specs.TypeReferences.{ref_refs, val_refs, field_refs, func_refs, composite_refs, sub_refs, subs_refs, group_refs};
ghost use Rattle.wasm_spec.specs.TypeReferences.{ref_map, val_map, field_map, func_map, composite_map, sub_map, subs_map, group_map};
ghost use Rattle.wasmparser_types.specs.CompositeTypes.{func_type, composite_type};
ghost use Rattle.wasmparser_types.specs.Index.{Index};
ghost use Rattle.wasmparser_types.specs.RecGroups.{rec_group};
ghost use Rattle.wasmparser_types.specs.SubTypes.{sub_type};
ghost use Rattle.wasmparser_types.specs.ValTypes.{val_type, field_type};

use crate::composite_type::{ArrayType, CompositeType, ContType, FuncType, StructType};
use crate::index::PackedIndex;
use crate::ref_type::RefType;
use crate::sub_type::{GroupTypes, RecGroup, SubType};
use crate::val_type::{FieldType, StorageType, ValType};

/// What the indexes in a type are replaced by.
pub trait RemapIndex {
    ghost use Rattle.std.specs.Prelude.{⊤};

    /// Why an index can't be replaced.
    type Error;

    // Which indexes may be asked for.
    ghost can_remap: { Self → Index → Type 0 } = { λ _ _. ⊤ };

    // What an index is replaced by, if it isn't refused.
    ghost remapped: { Self → Index → Index };

    // What holds of an index that isn't refused.
    ghost accepts: { Self → Index → Type 0 } = { λ _ _. ⊤ };

    // What holds of an index that is refused with this error.
    ghost refuses: { Self → Index → Self.Error → Type 0 };

    /// The index that replaces this one.
    ///
    /// # Errors
    /// Where the index can't be replaced.
    fn remap(&self, index: PackedIndex) -> Result<PackedIndex, Self::Error>
        requires { can_remap self.now index }
        ensures remapped { IfOk result (λ new. new ≡ remapped self.now index) }
        ensures accepted { IfOk result (λ _. accepts self.now index) }
        ensures refused { IfErr result (λ error. refuses self.now index error) };
}

impl SubType {
    /// Replaces each index in the type.
    ///
    /// # Errors
    /// Where an index can't be replaced. Others may have been replaced by then.
    pub fn remap_indices<R: RemapIndex>(&mut self, remap: &R) -> Result<(), R::Error>
        requires { AllByRecursion (R.can_remap remap.now) (sub_refs (sub_type self.old)) }
        ensures remapped { IfOk result (λ _. sub_type self.new ≡ sub_map (R.remapped remap.now) (sub_type self.old)) }
        ensures accepted { IfOk result (λ _. AllByRecursion (R.accepts remap.now) (sub_refs (sub_type self.old))) }
        ensures refused { IfErr result (λ error. Any (λ index. R.refuses remap.now index error) (sub_refs (sub_type self.old))) }
    {
        remap_all_indexes(&mut self.supertype_idxs, remap)?;
        self.composite_type.remap_refs(remap)
    }
}

impl RecGroup {
    /// Replaces each index in the group's types.
    ///
    /// # Errors
    /// Where an index can't be replaced. Others may have been replaced by then.
    pub fn remap_indices<R: RemapIndex>(&mut self, remap: &R) -> Result<(), R::Error>
        requires { AllByRecursion (R.can_remap remap.now) (group_refs (rec_group self.old)) }
        ensures remapped { IfOk result (λ _. rec_group self.new ≡ group_map (R.remapped remap.now) (rec_group self.old)) }
        ensures accepted { IfOk result (λ _. AllByRecursion (R.accepts remap.now) (group_refs (rec_group self.old))) }
        ensures refused { IfErr result (λ error. Any (λ index. R.refuses remap.now index error) (group_refs (rec_group self.old))) }
    {
        match &mut self.inner {
            GroupTypes::Implicit(it) => it.remap_indices(remap),
            GroupTypes::Explicit(types) => remap_sub_types(types, remap),
        }
    }
}

/// Replaces each index in the types.
///
/// # Errors
/// Where an index can't be replaced. Others may have been replaced by then.
pub fn remap_sub_types<R: RemapIndex>(types: &mut [SubType], remap: &R) -> Result<(), R::Error>
    requires { AllByRecursion (R.can_remap remap.now) (subs_refs (map sub_type types.old)) }
    ensures remapped { IfOk result (λ _. map sub_type types.new ≡ subs_map (R.remapped remap.now) (map sub_type types.old)) }
    ensures accepted { IfOk result (λ _. AllByRecursion (R.accepts remap.now) (subs_refs (map sub_type types.old))) }
    ensures refused { IfErr result (λ error. Any (λ index. R.refuses remap.now index error) (subs_refs (map sub_type types.old))) }
{
    remap_all(types, remap)
}

// A part of a type in which indexes stand, or an index itself.
trait Part {
    // What it is in the specification.
    ghost Meaning: { Type 0 };

    ghost meaning: { Self → Meaning };

    // The indexes in it.
    ghost refs: { Meaning → List Index };

    // It with each index replaced.
    ghost mapped: { (Index → Index) → Meaning → Meaning };

    fn remap_refs<R: RemapIndex>(&mut self, remap: &R) -> Result<(), R::Error>
        requires { AllByRecursion (R.can_remap remap.now) (refs (meaning self.old)) }
        ensures remapped { IfOk result (λ _. meaning self.new ≡ mapped (R.remapped remap.now) (meaning self.old)) }
        ensures accepted { IfOk result (λ _. AllByRecursion (R.accepts remap.now) (refs (meaning self.old))) }
        ensures refused { IfErr result (λ error. Any (λ index. R.refuses remap.now index error) (refs (meaning self.old))) };
}

fn remap_all<T: Part, R: RemapIndex>(items: &mut [T], remap: &R) -> Result<(), R::Error>
    requires { AllByRecursion (R.can_remap remap.now) (flat_map T.refs (map T.meaning items.old)) }
    ensures remapped { IfOk result (λ _. map T.meaning items.new ≡ map (T.mapped (R.remapped remap.now)) (map T.meaning items.old)) }
    ensures accepted { IfOk result (λ _. AllByRecursion (R.accepts remap.now) (flat_map T.refs (map T.meaning items.old))) }
    ensures refused { IfErr result (λ error. Any (λ index. R.refuses remap.now index error) (flat_map T.refs (map T.meaning items.old))) }
{
    for item in items.iter_mut() {
        item.remap_refs(remap)?;
    }
    Ok(())
}

// `remap_all`, where each item is its own only index.
#[tactic(auto, using(crate::proofs::Remapping::indexes))]
fn remap_all_indexes<R: RemapIndex>(indexes: &mut [PackedIndex], remap: &R) -> Result<(), R::Error>
    requires { AllByRecursion (R.can_remap remap.now) indexes.old }
    ensures remapped { IfOk result (λ _. indexes.new ≡ map (R.remapped remap.now) indexes.old) }
    ensures accepted { IfOk result (λ _. AllByRecursion (R.accepts remap.now) indexes.old) }
    ensures refused { IfErr result (λ error. Any (λ index. R.refuses remap.now index error) indexes.old) }
{
    remap_all(indexes, remap)
}

impl Part for SubType {
    ghost Meaning = { spec.SubType Index };

    ghost meaning = { sub_type };

    ghost refs = { sub_refs };

    ghost mapped = { sub_map };

    fn remap_refs<R: RemapIndex>(&mut self, remap: &R) -> Result<(), R::Error> {
        self.remap_indices(remap)
    }
}

impl Part for CompositeType {
    ghost Meaning = { spec.CompositeType Index };

    ghost meaning = { composite_type };

    ghost refs = { composite_refs };

    ghost mapped = { composite_map };

    fn remap_refs<R: RemapIndex>(&mut self, remap: &R) -> Result<(), R::Error> {
        match self {
            CompositeType::Func(it) => it.remap_refs(remap),
            CompositeType::Array(ArrayType(it)) => it.remap_refs(remap),
            CompositeType::Struct(StructType { fields }) => remap_all(fields, remap),
            CompositeType::Cont(ContType(it)) => it.remap_refs(remap),
        }
    }
}

impl Part for FuncType {
    ghost Meaning = { spec.FuncType Index };

    ghost meaning = { func_type };

    ghost refs = { func_refs };

    ghost mapped = { func_map };

    fn remap_refs<R: RemapIndex>(&mut self, remap: &R) -> Result<(), R::Error> {
        remap_all(&mut self.params, remap)?;
        remap_all(&mut self.results, remap)
    }
}

impl Part for FieldType {
    ghost Meaning = { spec.FieldType Index };

    ghost meaning = { field_type };

    ghost refs = { field_refs };

    ghost mapped = { field_map };

    fn remap_refs<R: RemapIndex>(&mut self, remap: &R) -> Result<(), R::Error> {
        match &mut self.element_type {
            StorageType::Val(it) => it.remap_refs(remap),
            _ => Ok(()),
        }
    }
}

impl Part for ValType {
    ghost Meaning = { spec.ValType Index };

    ghost meaning = { val_type };

    ghost refs = { val_refs };

    ghost mapped = { val_map };

    fn remap_refs<R: RemapIndex>(&mut self, remap: &R) -> Result<(), R::Error> {
        match self {
            ValType::Ref(it) => it.remap_refs(remap),
            _ => Ok(()),
        }
    }
}

impl Part for RefType {
    ghost Meaning = { spec.RefType Index };

    ghost meaning = { λ type. type };

    ghost refs = { ref_refs };

    ghost mapped = { ref_map };

    fn remap_refs<R: RemapIndex>(&mut self, remap: &R) -> Result<(), R::Error> {
        if let Some(index) = self.type_index() {
            *self = RefType::concrete(self.is_nullable(), remap.remap(index)?);
        }
        Ok(())
    }
}

impl Part for PackedIndex {
    ghost use Rattle.std.specs.Prelude.{[], ◌∷◌};

    ghost Meaning = { Index };

    ghost meaning = { λ index. index };

    ghost refs = { λ index. index ∷ [] };

    ghost mapped = { λ f. f };

    fn remap_refs<R: RemapIndex>(&mut self, remap: &R) -> Result<(), R::Error> {
        *self = remap.remap(*self)?;
        Ok(())
    }
}
