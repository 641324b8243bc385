//! Defined types, as matching looks them up.

ghost use Rattle.std.specs.Prelude.{◌≡◌, ◌↔◌, IsTrue, ℕ, option_map};
ghost use Rattle.std.specs.Option.{option_copied};
ghost use Rattle.wasm_spec.specs.Subtyping.{HeapBelow, SubTypes};
ghost use Rattle.wasm_spec.specs.Types as spec;
ghost use Rattle.wasmparser_types.specs.CompositeTypes.{composite_type};
ghost use Rattle.wasmparser_types.specs.Index.{Index};
ghost use Rattle.wasmparser_types.specs.UnpackedIndex.{index};

use wasmparser_types::composite_type::CompositeType;
use wasmparser_types::index::{CoreTypeId, RecGroupId, UnpackedIndex};

/// Something that knows what the indexes in types stand for.
pub trait KnownTypes {
    // The sub types that indexes stand for.
    ghost sub_at: { Self → SubTypes Index };

    // An index in a type of this recursive group, as one that is valid outside of it.
    ghost resolved: { Self → ℕ → Index → Index };

    // The condition under which subtyping may be asked for.
    ghost can_ask: { Self → Type 0 };

    // States that an id stands for a type.
    ghost is_known: { Self → ℕ → Type 0 };

    // States that an id was defined in this recursive group.
    ghost is_group_of: { Self → ℕ → ℕ → Type 0 };

    /// Returns the composite type of what an index stands for.
    fn composite_type(&self, it: UnpackedIndex) -> Option<&CompositeType>
        ensures { option_map composite_type (option_copied result) ≡ option_map (λ (type : spec.SubType Index). type.composite_type) (sub_at self.now (index it)) };

    /// Checks that the type of one index is that of another, or was declared below it, in however many steps.
    fn index_is_subtype(&self, a: UnpackedIndex, b: UnpackedIndex) -> bool
        requires { can_ask self.now }
        ensures { IsTrue result ↔ HeapBelow (sub_at self.now) (spec.Concrete (index a)) (spec.Concrete (index b)) };

    /// Turns an index in a type of a recursive group into one that is valid outside of it. A place that the group doesn't have stays a place.
    fn resolve(&self, rec_group: RecGroupId, it: UnpackedIndex) -> UnpackedIndex
        requires { can_ask self.now }
        ensures { index result ≡ resolved self.now rec_group (index it) };

    /// Returns the recursive group that a known id was defined in.
    fn rec_group_id_of(&self, id: CoreTypeId) -> RecGroupId
        requires can_ask { can_ask self.now }
        requires known { is_known self.now id }
        ensures { is_group_of self.now id result };
}
