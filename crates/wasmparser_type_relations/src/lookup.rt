//! Subtyping by two reads of a list of types.

ghost use Rattle.std.specs.Prelude.{◌≡◌, ◌+◌, ◌<◌, ◌≤◌, ◌^◌, ◌↔◌, IsTrue};
ghost use Rattle.wasm_spec.specs.Subtyping.{HeapBelow};
ghost use Rattle.wasm_spec.specs.Types.{Concrete};
ghost use Rattle.wasmparser_types.specs.Index.{Id};
ghost use Rattle.wasmparser_type_relations.specs.Chains.{by_id, HasChain};

use crate::chain::Chain;
use wasmparser_types::index::CoreTypeId;

/// A list of types that lends chains, and counts how often it did.
pub trait Lookup<'a> {
    ghost use Rattle.std.specs.Prelude.{◌≡◌, ◌-◌, ◌<◌, ◌^◌, suc, ℕ, Option};
    ghost use Rattle.wasm_spec.specs.Types.{SubType};
    ghost use Rattle.wasmparser_types.specs.Index.{Index};
    ghost use Rattle.wasmparser_type_relations.specs.Chains.{IsChain, HasChain};

    // The types by id.
    ghost types: { Self → ℕ → Option (SubType Index) };

    // The number of chains that were lent.
    ghost count: { Self → ℕ };

    /// Returns the number of chains that were lent.
    fn reads(&self) -> u64
        ensures { result ≡ count self.now };

    /// Lends the chain of a type that is known and has at most 63 supertypes.
    fn get(&mut self, id: CoreTypeId) -> &'a Chain
        requires chain { HasChain (types self.old) id }
        requires room { count self.old < 2 ^ 64 - 1 }
        ensures chain { IsChain (types self.new) result.now id }
        ensures same { types self.new ≡ types self.old }
        ensures counted { count self.new ≡ suc (count self.old) };
}

/// Checks that a type is below another one, by two reads at most.
pub fn id_is_subtype_counted<'a, L: Lookup<'a>>(list: &mut L, a: CoreTypeId, b: CoreTypeId) -> bool
    requires a_known { HasChain (L.types list.old) a }
    requires b_known { HasChain (L.types list.old) b }
    requires room { L.count list.old < 2 ^ 63 }
    ensures answer { IsTrue result ↔ HeapBelow (by_id (L.types list.old)) (Concrete (Id a)) (Concrete (Id b)) }
    ensures same { L.types list.new ≡ L.types list.old }
    ensures reads { L.count list.new ≤ L.count list.old + 2 }
{
    let depth = list.get(b).depth();
    match list.get(a).at(depth) {
        Some(id) => id == b,
        None => false,
    }
}
