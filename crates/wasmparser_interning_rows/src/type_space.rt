//! The types of a module, by type index.

use std::alloc::{AllocError, Global};
use wasm_core_types::features::WasmFeatures;
use wasmparser_rec_groups::intern::InternRecGroup;
use wasmparser_types::index::CoreTypeId;

/// The ids of a module's types, and the features under which these are judged.
#[derive(Drop)]
pub struct TypeSpace {
    features: WasmFeatures,
    ids: Vec<CoreTypeId>,
}

impl TypeSpace {
    ghost use Rattle.std.specs.Prelude.{◌≡◌, []};

    /// Creates a module without types.
    pub fn new(alloc: Global, features: WasmFeatures) -> TypeSpace
        ensures { result.ids.items ≡ [] }
    {
        TypeSpace {
            features,
            ids: Vec::new(alloc),
        }
    }
}

impl InternRecGroup for TypeSpace {
    ghost use Rattle.std.specs.Prelude.{◌-◌, length, vec_capacity};
    ghost use Rattle.wasm_core_types.specs.Features.{feature_set};

    ghost ids = { λ space. space.ids.items };

    ghost room = { λ space. vec_capacity space.ids - length space.ids.items };

    ghost enabled = { λ space. feature_set space.features };

    fn features(&self) -> WasmFeatures {
        self.features
    }

    fn type_ids(&self) -> &[CoreTypeId] {
        self.ids.as_slice()
    }

    fn reserve_type_ids(&mut self, count: usize) -> Result<(), AllocError> {
        self.ids.reserve(count)
    }

    fn add_type_id(&mut self, id: CoreTypeId) {
        self.ids.push_reserved(id);
    }
}
