//! Data that ids in a list of types stand for.

ghost use Rattle.std.specs.Prelude.{◌≡◌, ◌<◌, ◌^◌, [], ◌∷◌, ◌++◌, length, IfErr, IfOk, true};
ghost use Rattle.wasmparser_type_list.specs.TypeSizes.{size_of};
ghost use Rattle.wasmparser_types.specs.CompositeTypes.{composite_type};

use crate::type_identifier::TypeIdentifier;
use crate::type_info::TypeInfo;
use crate::type_list::TypeList;
use std::alloc::AllocError;
use std::fmt::Debug;
use std::ops::Range;
use wasmparser_types::composite_type::CompositeType;
use wasmparser_types::index::{CoreTypeId, RecGroupId};
use wasmparser_types::sub_type::SubType;

/// Data that are kept in a list of types.
pub trait TypeData: Debug + Drop {
    ghost use Rattle.std.specs.Prelude.{◌≡◌, ◌<◌, ◌^◌, ℕ};

    /// The id by which it is found.
    type Id: TypeIdentifier<Data = Self>;

    /// `true` for a type of core modules, or a group of them.
    const IS_CORE_SUB_TYPE: bool;

    // Its effective size.
    ghost size: { Self → ℕ };

    /// Returns its effective size.
    fn type_info(&self, types: &TypeList) -> TypeInfo
        requires { size self.now < 2 ^ 24 }
        ensures { result ≡ size self.now };
}

// Returns the effective size of a composite type, with the sub type that is made of it.
fn size_of(it: &CompositeType) -> u32
    requires { size_of (composite_type it.now) < 2 ^ 24 }
    ensures { result ≡ size_of (composite_type it.now) }
{
    match it {
        CompositeType::Func(it) => (2 + it.params().len() + it.results().len()) as u32,
        CompositeType::Array(_) => 3,
        CompositeType::Struct(it) => (2 + 2 * it.fields.len()) as u32,
        CompositeType::Cont(_) => 2,
    }
}

impl TypeData for SubType {
    ghost use Rattle.wasmparser_type_list.specs.TypeSizes.{size_of};
    ghost use Rattle.wasmparser_types.specs.CompositeTypes.{composite_type};

    type Id = CoreTypeId;

    const IS_CORE_SUB_TYPE: bool = true;

    ghost size = { λ type. size_of (composite_type type.composite_type) };

    fn type_info(&self, _types: &TypeList) -> TypeInfo {
        TypeInfo::core(size_of(&self.composite_type))
    }
}

impl TypeData for Range<CoreTypeId> {
    ghost use Rattle.wasmparser_type_list.specs.TypeSizes.{group_size};

    type Id = RecGroupId;

    const IS_CORE_SUB_TYPE: bool = <SubType as TypeData>::IS_CORE_SUB_TYPE;

    ghost size = { group_size };

    fn type_info(&self, _types: &TypeList) -> TypeInfo {
        TypeInfo::core(self.end.index().saturating_sub(self.start.index()) as u32)
    }
}

/// Returns [`IS_CORE_SUB_TYPE`](TypeData::IS_CORE_SUB_TYPE) of types and of groups, which are both of core modules.
pub fn are_of_core_modules() -> [bool; 2]
    ensures { result ≡ true ∷ true ∷ [] }
{
    [
        <SubType as TypeData>::IS_CORE_SUB_TYPE,
        <Range<CoreTypeId> as TypeData>::IS_CORE_SUB_TYPE,
    ]
}

impl TypeList {
    /// Appends a type or a group to those of its kind, as it is, and returns its id. No other table follows, so that the tables no longer agree, which most
    /// calls ask for: a list that is to be asked on interns groups instead.
    ///
    /// # Errors
    /// Where memory runs out, or there are 2^32 of this kind. The list is as it was.
    pub fn push<T: TypeData>(&mut self, ty: T) -> Result<T::Id, AllocError>
        ensures id { IfOk result (λ id. T.Id.number id ≡ length (T.Id.listed self.old)) }
        ensures pushed { IfOk result (λ _. self.new ≡ T.Id.with_listed self.old (T.Id.listed self.old ++ ty ∷ [])) }
        ensures refused { IfErr result (λ _. self.new ≡ self.old) }
    {
        let Ok(index) = u32::try_from(T::Id::list(self).len()) else {
            return Err(AllocError);
        };
        T::Id::list_mut(self).push(ty)?;
        Ok(T::Id::from_index(index))
    }
}
