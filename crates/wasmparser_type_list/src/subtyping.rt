//! Subtyping of the types of a list (Core Specification 3.0, Validation, "Matching").

ghost use Rattle.std.specs.Prelude.{◌≡◌, ◌↔◌, ◌<◌, ◌≤◌, IsTrue, false, length, slice_get, ℕ};
ghost use Rattle.std.specs.Option.{option_copied};
ghost use Rattle.wasm_spec.specs.Groups.{Links, PassesLimit};
ghost use Rattle.wasm_spec.specs.Limits.{Depth};
ghost use Rattle.wasm_spec.specs.Subtyping.{HeapBelow};
ghost use Rattle.wasm_spec.specs.Types.{Concrete};
ghost use Rattle.wasmparser_types.specs.Index.{Id, Index};
ghost use Rattle.wasmparser_type_relations.specs.Chains.{AreBelowEarlier, HasChain, IsDepth, StandsIn, by_id};
ghost use Rattle.wasmparser_type_list.specs.TypeTables.{TablesAgree, sub_types, type_by_id};

use crate::type_list::TypeList;
use wasmparser_type_relations::chain::Chain;
use wasmparser_types::index::CoreTypeId;

// Checks that the type with this id stands in a chain of supertypes. own: its own chain.
fn stands_in(chain: &Chain, own: Option<&Chain>, id: CoreTypeId) -> bool
    ensures { IsTrue result ↔ StandsIn (option_copied own.entry) chain.now id }
{
    match own {
        Some(own) => match chain.at(own.depth()) {
            Some(found) => found == id,
            None => false,
        },
        None => false,
    }
}

impl TypeList {
    /// Checks that a type is another one, or was declared below it, in however many steps. It takes two look-ups, unless the lower type has more than 63
    /// supertypes.
    pub fn id_is_subtype(&self, a: CoreTypeId, b: CoreTypeId) -> bool
        requires agree { TablesAgree self.now }
        requires earlier { AreBelowEarlier (slice_get (sub_types self.now)) }
        ensures { IsTrue result ↔ HeapBelow (by_id (slice_get (sub_types self.now))) (Concrete (Id a)) (Concrete (Id b)) }
    {
        let mut at = a;
        while at != b {
            if let Some(chain) = self.chain(at) {
                return stands_in(chain, self.chain(b), b);
            }
            match self.supertype_of(at) {
                Some(supertype) => at = supertype,
                None => return false,
            }
        }
        true
    }

    /// Checks that a known type has at most 63 supertypes above it, which is the limit on depth.
    pub fn is_within_depth(&self, id: CoreTypeId) -> bool
        requires agree { TablesAgree self.now }
        requires earlier { AreBelowEarlier (slice_get (sub_types self.now)) }
        requires known { id < length self.now.types }
        ensures within { IsTrue result → (links : ℕ) (above : Index) → Links (type_by_id self.now) links (Id id) above → links ≤ 63 }
        ensures past { result ≡ false → PassesLimit (type_by_id self.now) (Id id) Depth }
    {
        match self.chain(id) {
            Some(_) => true,
            None => false,
        }
    }

    /// Returns the number of supertypes of a known type, which may have no more than 63.
    pub fn get_subtyping_depth(&self, id: CoreTypeId) -> u8
        requires agree { TablesAgree self.now }
        requires earlier { AreBelowEarlier (slice_get (sub_types self.now)) }
        requires chain { HasChain (slice_get (sub_types self.now)) id }
        ensures { IsDepth (slice_get (sub_types self.now)) id result }
    {
        self.chain(id).unwrap().depth() as u8
    }

    /// Changes nothing: a type's depth is known once it was interned, from the chain of its supertypes. Only the depth that the type has may be set.
    pub fn set_subtyping_depth(&mut self, id: CoreTypeId, depth: u8)
        requires { IsDepth (slice_get (sub_types self.old)) id depth }
        ensures { self.new ≡ self.old }
    {
        let _ = (id, depth);
    }
}
