//! Supertypes of a type in a row, so that whether one type is below another takes no walk.

ghost use Rattle.std.specs.Prelude.{◌≡◌, ◌+◌, ◌<◌, ◌^◌, [], ◌∷◌, ◌++◌, suc, length, map, slice_get, IfOk};
ghost use Rattle.std.specs.Option.{option_copied};
ghost use Rattle.wasmparser_types.specs.SubTypes.{sub_type};
ghost use Rattle.wasmparser_type_relations.specs.Chains.{chain_after, chains_after, chain_of};

use crate::snapshot_list::SnapshotList;
use std::alloc::{AllocError, Global};
use std::marker::Model;
use wasmparser_types::index::CoreTypeId;
use wasmparser_types::sub_type::SubType;

/// The most supertypes of a type that is kept with its chain (the limit on their depth).
const MAX_DEPTH: usize = 63;

/// The supertypes of a type, from the greatest one down to the type itself.
#[derive(Drop)]
pub struct Chain {
    // The type's supertypes, from the greatest down.
    above: Vec<CoreTypeId>,
    id: CoreTypeId,
}

impl Model for Chain {
    ghost use Rattle.std.specs.Prelude.{ℕ, List, [], ◌∷◌, ◌++◌};

    ghost Value = { List ℕ };

    ghost view = { λ chain. chain.above.items ++ chain.id ∷ [] };
}

impl Chain {
    ghost use Rattle.std.specs.Prelude.{◌≡◌, [], ◌∷◌, ◌++◌, suc, length, slice_get, IfOk};

    // Returns the chain of a type without supertypes.
    fn greatest(alloc: Global, id: CoreTypeId) -> Chain
        ensures { result ≡ id ∷ [] }
    {
        Chain {
            above: Vec::new(alloc),
            id,
        }
    }

    // Returns the chain of a type right below.
    fn extended(&self, alloc: Global, id: CoreTypeId) -> Result<Chain, AllocError>
        ensures { IfOk result (λ chain. chain ≡ self.now ++ id ∷ []) }
    {
        let mut above = Vec::with_capacity(alloc, self.above.len().saturating_add(1))?;
        above.extend_from_slice(&self.above)?;
        above.push(self.id)?;
        Ok(Chain { above, id })
    }

    /// Returns the number of supertypes of the type.
    pub fn depth(&self) -> usize
        ensures { length self.now ≡ suc result }
    {
        self.above.len()
    }

    /// Returns the supertype that has so many supertypes itself, or the type itself at its own depth.
    pub fn at(&self, depth: usize) -> Option<CoreTypeId>
        ensures { result ≡ slice_get self.now depth }
    {
        if depth == self.above.len() {
            return Some(self.id);
        }
        self.above.get(depth).copied()
    }
}

// Returns the chain of an id, among those of earlier types and of a group that comes after them.
fn chain_at<'a>(
    earlier: &'a SnapshotList<Option<Chain>>,
    added: &'a [Option<Chain>],
    id: CoreTypeId,
) -> Option<&'a Chain>
    ensures { option_copied result ≡ chain_of (slice_get (earlier.now.items ++ added.now) id) }
{
    let index = id.index();
    let chain = if index < earlier.len() {
        earlier.get(index)
    } else {
        added.get(index - earlier.len())
    };
    chain?.as_ref()
}

// Returns the chain of the type that comes next.
fn next_chain(
    alloc: Global,
    earlier: &SnapshotList<Option<Chain>>,
    added: &[Option<Chain>],
    it: &SubType,
) -> Result<Option<Chain>, AllocError>
    requires count { length earlier.now.items + length added.now < 2 ^ 32 }
    ensures { IfOk result (λ chain. chain ≡ chain_after (earlier.now.items ++ added.now) (sub_type it.now)) }
{
    let id = CoreTypeId::from_index((earlier.len() + added.len()) as u32);
    let supertype = it
        .supertype_idxs
        .first()
        .and_then(|index| index.as_core_type_id());
    match supertype {
        None => Ok(Some(Chain::greatest(alloc, id))),
        Some(supertype) => match chain_at(earlier, added, supertype) {
            Some(chain) if chain.depth() < MAX_DEPTH => Ok(Some(chain.extended(alloc, id)?)),
            _ => Ok(None),
        },
    }
}

/// Returns the chains of the types of a group that comes after these ones.
///
/// # Errors
/// Where memory runs out.
pub fn group_chains(
    alloc: Global,
    earlier: &SnapshotList<Option<Chain>>,
    types: &[SubType],
) -> Result<Vec<Option<Chain>>, AllocError>
    requires count { length earlier.now.items + length types.now < 2 ^ 32 }
    ensures { IfOk result (λ added. earlier.now.items ++ added.items ≡ chains_after earlier.now.items (map sub_type types.now)) }
{
    let mut added = Vec::with_capacity(alloc, types.len())?;
    for it in types {
        let chain = next_chain(alloc, earlier, &added, it)?;
        added.push(chain)?;
    }
    Ok(added)
}
