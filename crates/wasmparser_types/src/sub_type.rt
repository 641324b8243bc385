//! Sub types and recursive groups (Core Specification 3.0, Structure, "Recursive Types").

use crate::composite_type::{CompositeType, FuncType};
use crate::index::PackedIndex;
use std::alloc::{AllocError, Global};
use std::slice;

/// A sub type: a member of a recursive group.
#[derive(Debug, PartialEq, Eq, Hash, Drop)]
pub struct SubType {
    /// Whether no type may have it as its supertype.
    pub is_final: bool,
    /// Its supertypes. Bytes may state any number; valid types have at most one.
    pub supertype_idxs: Vec<PackedIndex>,
    /// What it is made of.
    pub composite_type: CompositeType,
}

impl SubType {
    ghost use Rattle.std.specs.Prelude.{◌≡◌, [], true, Some, IsSome};
    ghost use Rattle.wasm_spec.specs.Types as spec;
    ghost use Rattle.wasmparser_types.specs.CompositeTypes.{func_type, composite_type, func_of};
    ghost use Rattle.wasmparser_types.specs.SubTypes.{sub_type};

    /// The final sub type of no other type that a function type by itself stands for.
    pub fn func(alloc: Global, signature: FuncType) -> SubType
        ensures { sub_type result ≡ record { is_final = true; supertypes = []; composite_type = spec.FuncComposite (func_type signature) } }
    {
        SubType {
            is_final: true,
            supertype_idxs: Vec::new(alloc),
            composite_type: CompositeType::Func(signature),
        }
    }

    /// The function type that it is made of.
    pub fn unwrap_func(&self) -> &FuncType
        requires { IsSome (func_of (composite_type self.now.composite_type)) }
        ensures { Some (func_type result.now) ≡ func_of (composite_type self.now.composite_type) }
    {
        self.composite_type.as_func().unwrap()
    }
}

/// A recursive group. A sub type by itself and a group that is written out and has that type alone are two groups,
/// although they have the same types.
#[derive(Debug, PartialEq, Eq, Hash, Drop)]
pub struct RecGroup {
    pub(crate) inner: GroupTypes,
}

#[derive(Debug, PartialEq, Eq, Hash, Drop)]
pub(crate) enum GroupTypes {
    Implicit(SubType),
    Explicit(Vec<SubType>),
}

impl RecGroup {
    ghost use Rattle.std.specs.Prelude.{◌≡◌, IfOk, IsOk, IsTrue, map};
    ghost use Rattle.wasm_spec.specs.Types as spec;
    ghost use Rattle.wasmparser_types.specs.SubTypes.{sub_type};
    ghost use Rattle.wasmparser_types.specs.RecGroups.{rec_group, is_explicit, members};

    /// A sub type by itself.
    pub fn implicit(it: SubType) -> RecGroup
        ensures { rec_group result ≡ spec.Single (sub_type it) }
    {
        RecGroup {
            inner: GroupTypes::Implicit(it),
        }
    }

    /// A group that is written out, of any number of sub types.
    pub fn explicit(types: Vec<SubType>) -> RecGroup
        ensures { rec_group result ≡ spec.Group (map sub_type types.items) }
    {
        RecGroup {
            inner: GroupTypes::Explicit(types),
        }
    }

    /// Checks that the group is written out.
    pub fn is_explicit_rec_group(&self) -> bool
        ensures { result ≡ is_explicit (rec_group self.now) }
    {
        match &self.inner {
            GroupTypes::Implicit(_) => false,
            GroupTypes::Explicit(_) => true,
        }
    }

    /// The sub types, in order.
    pub fn types(&self) -> &[SubType]
        ensures { map sub_type result.now ≡ members (rec_group self.now) }
    {
        match &self.inner {
            GroupTypes::Implicit(it) => slice::from_ref(it),
            GroupTypes::Explicit(types) => types,
        }
    }

    /// The sub types, in order.
    ///
    /// # Errors
    /// Where memory runs out; it is taken only for a sub type by itself.
    pub fn into_types(self, alloc: Global) -> Result<Vec<SubType>, AllocError>
        ensures types { IfOk result (λ types. map sub_type types.items ≡ members (rec_group self)) }
        ensures explicit { IsTrue (is_explicit (rec_group self)) → IsOk result }
    {
        match self.inner {
            GroupTypes::Implicit(it) => Ok(vec![in alloc; it]?),
            GroupTypes::Explicit(types) => Ok(types),
        }
    }
}
