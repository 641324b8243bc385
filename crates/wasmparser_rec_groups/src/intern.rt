//! Adding a module's recursive groups to a list of types.

ghost use Rattle.std.specs.Prelude.{◌≡◌, ◌+◌, ◌++◌, ◌<◌, ◌≤◌, ◌^◌, ℕ, List, IfErr, IfOk, IsSome, length, slice_get};
ghost use Rattle.wasm_spec.specs.Types.{RecGroup as Group};
ghost use Rattle.wasmparser_type_relations.specs.Chains.{AreBelowEarlier};
ghost use Rattle.wasmparser_error.specs.declared.error.ErrorKind.TheVariants as kinds;
ghost use Rattle.wasmparser_type_list.specs.TypeTables.{TablesAgree, group_ids, sub_types};
ghost use Rattle.wasmparser_rec_groups.specs.Interning.{Accepts, AreKnown, InternsValid, IsInCanonicalForm, NamesModuleTypes, Refuses, RefusesAsWritten};
ghost use Rattle.wasmparser_types.specs.Index.{Index};
ghost use Rattle.wasmparser_types.specs.RecGroups as spec;
ghost use Rattle.wasmparser_types.specs.RecGroups.{members};
ghost use Rattle.wasm_core_types.specs.Features.{feature_set};

use crate::kinds::have_supertypes_of_kind;
use crate::rules::{check_rec_group, passed_by_items};
use std::alloc::AllocError;
use wasm_core_types::features::WasmFeatures;
use wasm_core_types::limits::Limit;
use wasmparser_error::error::{Error, ErrorKind};
use wasmparser_type_list::type_list::TypeList;
use wasmparser_type_relations::canonical::canonicalize_rec_group;
use wasmparser_type_relations::gates::is_allowed_group;
use wasmparser_types::index::{CoreTypeId, RecGroupId};
use wasmparser_types::sub_type::RecGroup;

/// A list that gives types their indexes, such as that of a module: the types of each group that is added follow those of the groups before. Nothing is said of
/// anything else that such a list holds, so it had better hold these alone.
pub trait InternRecGroup {
    ghost use Rattle.std.specs.Prelude.{◌≡◌, ◌+◌, ◌≤◌, ◌<◌, ◌^◌, ◌∷◌, ◌++◌, [], suc, ℕ, List, IfErr, IfOk, IsSome, length, slice_get};
    ghost use Rattle.wasm_core_types.specs.Features.{feature_set};
    ghost use Rattle.wasm_spec.specs.Features.{Features};
    ghost use Rattle.wasmparser_type_relations.specs.Chains.{AreBelowEarlier};
    ghost use Rattle.wasmparser_type_list.specs.TypeTables.{TablesAgree, group_ids, sub_types};
    ghost use Rattle.wasmparser_rec_groups.specs.Interning.{Accepts, AreKnown, NamesModuleTypes, Refuses};
    ghost use Rattle.wasmparser_types.specs.RecGroups as spec;
    ghost use Rattle.wasmparser_types.specs.RecGroups.{members};

    // The ids of the types, by type index.
    ghost ids: { Self → List ℕ };

    // The number of ids that can be added without memory.
    ghost room: { Self → ℕ };

    // The features that are on.
    ghost enabled: { Self → Features };

    /// Returns the features by which groups are judged.
    fn features(&self) -> WasmFeatures
        ensures { feature_set result ≡ enabled self.now };

    /// Returns the ids of the types, by type index.
    fn type_ids(&self) -> &[CoreTypeId]
        ensures { result.now ≡ ids self.now };

    /// Makes room for so many ids.
    fn reserve_type_ids(&mut self, count: usize) -> Result<(), AllocError>
        ensures ids { ids self.new ≡ ids self.old }
        ensures enabled { enabled self.new ≡ enabled self.old }
        ensures room { IfOk result (λ _. count ≤ room self.new) }
        ensures refused { IfErr result (λ _. room self.old < count) };

    /// Adds the id of the next type, for which there is room.
    fn add_type_id(&mut self, id: CoreTypeId)
        requires { 0 < room self.old }
        ensures ids { ids self.new ≡ ids self.old ++ id ∷ [] }
        ensures enabled { enabled self.new ≡ enabled self.old }
        ensures room { suc (room self.new) ≡ room self.old };

    /// Adds the ids of a known group's types, for which there is room.
    fn add_group_ids(&mut self, types: &TypeList, group: RecGroupId)
        requires agree { TablesAgree types.now }
        requires room { length (group_ids types.now group) ≤ room self.old }
        ensures ids { ids self.new ≡ ids self.old ++ group_ids types.now group }
        ensures enabled { enabled self.new ≡ enabled self.old }
    {
        for id in types.rec_group_elements(group) {
            self.add_type_id(id);
        }
    }

    /// Interns a recursive group whose references are type indexes, if it is well-formed, and adds the ids of its types. Where types are canonicalized, equal
    /// groups have the same ids, else each has its own.
    ///
    /// # Errors
    /// Each at the offset: `Invalid` where the group breaks a rule, `Limit` where one of its types passes that limit. `Total` where the list's types and the group's
    /// are more than 1,048,576, whether or not the group is known. `Memory` where memory runs out, for a group that is allowed, refers to types that are there, and
    /// whose types have few enough parameters, results and fields. No id is added then; but the list has interned a group that breaks the
    /// rules on open and matched supertypes or on continuations, or passes the limit on depth.
    fn canonicalize_and_intern_rec_group(
        &mut self,
        types: &mut TypeList,
        rec_group: RecGroup,
        offset: u64,
    ) -> Result<(), Error>
        requires agree { TablesAgree types.old }
        requires grows { IsSome types.old.known }
        requires earlier { AreBelowEarlier (slice_get (sub_types types.old)) }
        requires known { AreKnown types.old (ids self.old) }
        requires indexes { NamesModuleTypes (spec.rec_group rec_group) }
        requires room { length (ids self.old) + length (members (spec.rec_group rec_group)) < 2 ^ 32 }
        ensures agree { TablesAgree types.new }
        ensures grows { IsSome types.new.known }
        ensures earlier { AreBelowEarlier (slice_get (sub_types types.new)) }
        ensures known { AreKnown types.new (ids self.new) }
        ensures enabled { enabled self.new ≡ enabled self.old }
        ensures accepted { IfOk result (λ _. Accepts (enabled self.old) (ids self.old) types.old types.new (spec.rec_group rec_group) (ids self.new)) }
        ensures refused { IfErr result (λ e. Refuses (enabled self.old) (ids self.old) types.old types.new (spec.rec_group rec_group) offset e) }
        ensures same_ids { IfErr result (λ _. ids self.new ≡ ids self.old) }
    {
        let features = self.features();
        let canonical = canonical_rec_group(features, self.type_ids(), types, rec_group, offset)?;
        match self.reserve_type_ids(canonical.types().len()) {
            Ok(()) => {}
            Err(_) => return Err(Error::out_of_memory(offset)),
        }
        let group = intern_rec_group(features, types, canonical, offset)?;
        self.add_group_ids(types, group);
        Ok(())
    }
}

// Returns a rule that is broken.
fn invalid(offset: u64) -> Error
    ensures { result ≡ record { offset = offset; kind = kinds.Invalid } }
{
    Error {
        offset,
        kind: ErrorKind::Invalid,
    }
}

// Returns a limit that is passed.
fn passed(limit: Limit, offset: u64) -> Error
    ensures { result ≡ record { offset = offset; kind = kinds.Limit limit } }
{
    Error {
        offset,
        kind: ErrorKind::Limit(limit),
    }
}

// Returns a group in canonical form, if it may be interned, and its types have few enough parameters, results and fields.
fn canonical_rec_group(
    features: WasmFeatures,
    ids: &[CoreTypeId],
    types: &TypeList,
    mut rec_group: RecGroup,
    offset: u64,
) -> Result<RecGroup, Error>
    requires agree { TablesAgree types.now }
    requires known { AreKnown types.now ids.now }
    requires indexes { NamesModuleTypes (spec.rec_group rec_group) }
    requires room { length ids.now + length (members (spec.rec_group rec_group)) < 2 ^ 32 }
    ensures form { IfOk result (λ c. IsInCanonicalForm (feature_set features) ids.now types.now (spec.rec_group rec_group) (spec.rec_group c)) }
    ensures refused { IfErr result (RefusesAsWritten (feature_set features) ids.now types.now (spec.rec_group rec_group) offset) }
{
    // The limits that ask for no other type come first, since a type that passes one may be too large for the memory that is left.
    if let Some(limit) = passed_by_items(rec_group.types()) {
        return Err(passed(limit, offset));
    }
    if !is_allowed_group(features, &rec_group) {
        return Err(invalid(offset));
    }
    canonicalize_rec_group(ids, features.gc(), &mut rec_group, offset)?;
    if !have_supertypes_of_kind(types, rec_group.types()) {
        return Err(invalid(offset));
    }
    Ok(rec_group)
}

// Interns a group in canonical form, and checks what is left to be checked.
fn intern_rec_group(
    features: WasmFeatures,
    types: &mut TypeList,
    canonical: RecGroup,
    offset: u64,
) -> Result<RecGroupId, Error>
    requires agree { TablesAgree types.old }
    requires grows { IsSome types.old.known }
    requires earlier { AreBelowEarlier (slice_get (sub_types types.old)) }
    requires form { (ids : List ℕ) × (group : Group Index) × IsInCanonicalForm (feature_set features) ids types.old group (spec.rec_group canonical) }
    ensures agree { TablesAgree types.new }
    ensures grows { IsSome types.new.known }
    ensures earlier { AreBelowEarlier (slice_get (sub_types types.new)) }
    ensures known { IfOk result (λ number. number < length types.new.groups) }
    ensures valid { (ids : List ℕ) (group : Group Index) → IsInCanonicalForm (feature_set features) ids types.old group (spec.rec_group canonical)
        → IfOk result (λ number. InternsValid (feature_set features) ids types.old types.new group number) }
    ensures refused { (ids : List ℕ) (group : Group Index) → IsInCanonicalForm (feature_set features) ids types.old group (spec.rec_group canonical)
        → IfErr result (λ e. Refuses (feature_set features) ids types.old types.new group offset e) }
{
    let needs_canonicalization = features.needs_type_canonicalization();
    let (_, id) = types.intern_canonical_rec_group(needs_canonicalization, canonical, offset)?;
    match check_rec_group(types, id) {
        Ok(()) => Ok(id),
        Err(kind) => Err(Error { offset, kind }),
    }
}
