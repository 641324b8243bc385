//! Groups of types that a validator knows, by their ids.

ghost use Rattle.std.specs.Prelude.{◌≡◌, ◌<◌, length};
ghost use Rattle.std.specs.List.{range_with_len};
ghost use Rattle.wasm_gen_view.specs.KnownReferences.{AreIdsOfGroup};
ghost use Rattle.wasm_spec.specs.Trees.{type_at};
ghost use Rattle.wasmparser_module_types.specs.ModuleTypes.{ids_of_group};
ghost use Rattle.wasmparser_validator.specs.Shown.{known};

use wasmparser_types::index::{CoreTypeId, RecGroupId};
use wasmparser_validator::types::TypesRef;

/// The ids of a group's types, which follow one another.
#[derive(Clone, Copy, Debug)]
pub(crate) struct KnownGroup {
    /// The group's own id.
    pub(crate) id: RecGroupId,
    /// The id of its first type.
    pub(crate) first: usize,
    /// The number of its types.
    pub(crate) count: usize,
}

/// Returns the group of a type.
pub(crate) fn group_of(types: &TypesRef<'_>, id: CoreTypeId) -> KnownGroup
    requires { id < length (known types.now).interned }
    ensures group { AreIdsOfGroup (known types.now).interned id result.first result.count }
    ensures ids { ids_of_group (known types.now) result.id ≡ range_with_len result.first result.count }
{
    let group = types.rec_group_id_of(id);
    let mut ids = types.rec_group_elements(group);
    let count = ids.len();
    let Some(first) = ids.next() else {
        unreachable!()
    };
    KnownGroup {
        id: group,
        first: first.index(),
        count,
    }
}

/// Returns the place of a type in its group, or 0 where there is no type of this id.
pub(crate) fn place_of(types: &TypesRef<'_>, id: CoreTypeId) -> usize
    ensures { result ≡ (type_at (known types.now).interned id).place }
{
    match types.get(id) {
        Some(_) => id.index() - group_of(types, id).first,
        None => 0,
    }
}
