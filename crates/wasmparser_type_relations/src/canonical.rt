//! Groups of a module in canonical form, in which equal groups are equal whatever the module's type indexes are.

ghost use Rattle.std.specs.Prelude.{◌≡◌, ◌↔◌, ◌+◌, ◌<◌, ◌≤◌, ◌^◌, IfErr, IfOk, IsTrue, length, map};
ghost use Rattle.std.specs.List.{AllByRecursion};
ghost use Rattle.wasm_spec.specs.TypeReferences.{group_map, group_refs};
ghost use Rattle.wasmparser_error.specs.declared.error.ErrorKind.TheVariants as kinds;
ghost use Rattle.wasmparser_type_relations.specs.Canonical.{HasEarlierSupertype, HaveEarlierSupertypes, IsBelow, IsNotCanonical, canonical_index, index_bound};
ghost use Rattle.wasmparser_types.specs.Index.{packable};
ghost use Rattle.wasmparser_types.specs.RecGroups.{members, rec_group};
ghost use Rattle.wasmparser_types.specs.SubTypes.{sub_type};

use wasmparser_error::error::{Error, ErrorKind};
use wasmparser_types::index::{CoreTypeId, PackedIndex, UnpackedIndex};
use wasmparser_types::remap::RemapIndex;
use wasmparser_types::sub_type::{RecGroup, SubType};

// Checks that an index, if it is a type index, is below a bound.
fn is_below(it: PackedIndex, bound: usize) -> bool
    ensures { IsTrue result ↔ IsBelow bound it }
{
    match it.as_module_index() {
        Some(index) => (index as usize) < bound,
        None => true,
    }
}

// Checks that the type of this index has at most one supertype, which is earlier.
fn has_earlier_supertype(it: &SubType, index: usize) -> bool
    ensures { IsTrue result ↔ HasEarlierSupertype index (sub_type it.now) }
{
    match it.supertype_idxs.as_slice() {
        [] => true,
        [supertype] => is_below(*supertype, index),
        _ => false,
    }
}

/// Puts type indexes of a module into canonical form.
#[derive(Clone, Copy)]
pub struct TypeCanonicalizer<'a> {
    // The ids of the types before the group, by type index.
    ids: &'a [CoreTypeId],
    // Type indexes are below this.
    bound: usize,
    offset: u64,
}

impl<'a> TypeCanonicalizer<'a> {
    /// Creates one for a group after types with these ids, whose type indexes are below a bound. An index that isn't is refused at the offset.
    pub fn new(ids: &'a [CoreTypeId], bound: usize, offset: u64) -> TypeCanonicalizer<'a>
        ensures ids { result.ids.now ≡ ids.now }
        ensures bound { result.bound ≡ bound }
        ensures offset { result.offset ≡ offset }
    {
        TypeCanonicalizer { ids, bound, offset }
    }
}

impl<'a> RemapIndex for TypeCanonicalizer<'a> {
    ghost use Rattle.std.specs.Prelude.{◌≡◌, ◌<◌};
    ghost use Rattle.std.specs.List.{AllByRecursion};
    ghost use Rattle.wasmparser_error.specs.declared.error.ErrorKind.TheVariants as kinds;
    ghost use Rattle.wasmparser_type_relations.specs.Canonical.{IsBelow, canonical_index};
    ghost use Rattle.wasmparser_types.specs.Index.{packable};

    type Error = Error;

    ghost can_remap = { λ it _. AllByRecursion (λ id. id < packable) it.ids.now };

    ghost remapped = { λ it index. canonical_index it.ids.now index };

    ghost accepts = { λ it index. IsBelow it.bound index };

    ghost refuses = { λ it index e. (¬ (IsBelow it.bound index)) × (e ≡ record { offset = it.offset; kind = kinds.Invalid }) };

    fn remap(&self, index: PackedIndex) -> Result<PackedIndex, Error> {
        let UnpackedIndex::Module(at) = index.unpack() else {
            return Ok(index);
        };
        if at as usize >= self.bound {
            return Err(Error {
                offset: self.offset,
                kind: ErrorKind::Invalid,
            });
        }
        let canonical = match self.ids.get(at as usize) {
            Some(id) => PackedIndex::from_id(*id),
            None => PackedIndex::from_rec_group_index(at - self.ids.len() as u32),
        };
        Ok(canonical.unwrap())
    }
}

// Checks that each type has at most one supertype, which is earlier. The first type has this index.
fn have_earlier_supertypes(types: &[SubType], first: usize) -> bool
    requires { first + length types.now < 2 ^ 64 }
    ensures { IsTrue result ↔ HaveEarlierSupertypes first (map sub_type types.now) }
{
    for place in 0..types.len() {
        if !has_earlier_supertype(&types[place], first + place) {
            return false;
        }
    }
    true
}

/// Puts a module's recursive group into canonical form: type indexes of earlier types become the ids of these, and those of the group's own types, which
/// only garbage collection allows, places in the group.
///
/// # Errors
/// `Invalid` at the offset, where a type index is out of range, or a type has several supertypes or one that isn't earlier. Some type indexes may have been
/// replaced by then.
pub fn canonicalize_rec_group(
    ids: &[CoreTypeId],
    gc: bool,
    group: &mut RecGroup,
    offset: u64,
) -> Result<(), Error>
    requires ids { AllByRecursion (λ id. id < packable) ids.now }
    requires room { length ids.now + length (members (rec_group group.old)) < 2 ^ 32 }
    ensures canonical { IfOk result (λ _. rec_group group.new ≡ group_map (canonical_index ids.now) (rec_group group.old)) }
    ensures supertypes { IfOk result (λ _. HaveEarlierSupertypes (length ids.now) (members (rec_group group.old))) }
    ensures in_range { IfOk result (λ _. AllByRecursion (IsBelow (index_bound gc (length ids.now) (length (members (rec_group group.old))))) (group_refs (rec_group group.old))) }
    ensures refused { IfErr result (λ e. IsNotCanonical gc (length ids.now) (rec_group group.old) × (e ≡ record { offset = offset; kind = kinds.Invalid })) }
{
    let count = group.types().len();
    if !have_earlier_supertypes(group.types(), ids.len()) {
        return Err(Error {
            offset,
            kind: ErrorKind::Invalid,
        });
    }
    let bound = if gc { ids.len() + count } else { ids.len() };
    let canonicalizer = TypeCanonicalizer { ids, bound, offset };
    group.remap_indices(&canonicalizer)
}
