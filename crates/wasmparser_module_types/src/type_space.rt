//! The types of a module, by type index.

use std::alloc::{AllocError, Global};
use wasm_core_types::features::WasmFeatures;
use wasmparser_rec_groups::intern::InternRecGroup;
use wasmparser_types::index::CoreTypeId;

// The ids of a module's types, and the features by which these are judged.
#[derive(Drop)]
pub(crate) struct TypeSpace {
    features: WasmFeatures,
    ids: Vec<CoreTypeId>,
}

impl TypeSpace {
    ghost use Rattle.std.specs.Prelude.{◌≡◌, [], IfOk};

    // Creates a module without types.
    pub(crate) fn new(alloc: Global, features: WasmFeatures) -> TypeSpace
        ensures features { result.features ≡ features }
        ensures ids { result.ids.items ≡ [] }
    {
        TypeSpace {
            features,
            ids: Vec::new(alloc),
        }
    }

    // Returns a copy, whose room is that of its types.
    pub(crate) fn copy(&self, alloc: Global) -> Result<TypeSpace, AllocError>
        ensures features { IfOk result (λ copy. copy.features ≡ self.now.features) }
        ensures ids { IfOk result (λ copy. copy.ids.items ≡ self.now.ids.items) }
    {
        Ok(TypeSpace {
            features: self.features,
            ids: Vec::from_slice(alloc, &self.ids)?,
        })
    }
}

impl InternRecGroup for TypeSpace {
    ghost use Rattle.std.specs.Prelude.{◌-◌, length, vec_capacity};
    ghost use Rattle.wasm_core_types.specs.Features.{feature_set};

    ghost ids = { λ space. space.ids.items };

    ghost room = { λ space. vec_capacity space.ids - length space.ids.items };

    ghost enabled = { λ space. feature_set space.features };

    fn features(&self) -> WasmFeatures {
        self.features
    }

    fn type_ids(&self) -> &[CoreTypeId] {
        self.ids.as_slice()
    }

    fn reserve_type_ids(&mut self, count: usize) -> Result<(), AllocError> {
        self.ids.reserve(count)
    }

    fn add_type_id(&mut self, id: CoreTypeId) {
        self.ids.push_reserved(id);
    }
}
