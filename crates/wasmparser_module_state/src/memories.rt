//! Memories, and those of a module's own (Core Specification 3.0, Validation, "Memory Types" and "Memories").

ghost use Rattle.std.specs.Prelude.{◌≡◌, refl, option_map, slice_get, false};
ghost use Rattle.wasm_core_types.specs.Features.{feature_set};
ghost use Rattle.wasm_validity.specs.Entries.{OfMemory};
ghost use Rattle.wasm_validity.specs.Rules.{keeps_memory};
ghost use Rattle.wasm_validity.specs.TypeRules.{is_memory_type, most_pages};
ghost use Rattle.wasmparser_readers.specs.ItemTypes.{memory_type};
ghost use Rattle.wasmparser_payloads.specs.EntryReading.{memory_entry_at};
ghost use Rattle.wasmparser_module_state.specs.State.{context, features_of};

use crate::entry::Entry;
use crate::item_types::are_bounds;
use crate::module_state::{ModuleState, refusal};
use wasm_core_types::features::WasmFeatures;
use wasm_core_types::limits::{Limit, MAX_WASM_MEMORIES};
use wasmparser_error::error::{Error, ErrorKind};
use wasmparser_readers::memory_type::MemoryType;

// Returns the most pages of a memory, where the size of its pages is one that there is.
fn most_pages(ty: MemoryType) -> u64
    ensures { result ≡ most_pages (memory_type ty).is_64 (memory_type ty).page_size_log2 }
{
    match ty.page_size_log2 {
        Some(0) if ty.memory64 => u64::MAX,
        Some(0) => 1 << 32,
        _ if ty.memory64 => 1 << 48,
        _ => 1 << 16,
    }
}

// Checks that a module may have a memory of this type.
fn is_memory_type(features: WasmFeatures, ty: MemoryType) -> bool
    ensures { result ≡ is_memory_type (feature_set features) (memory_type ty) }
{
    if ty.memory64 && !features.memory64() {
        return false;
    }
    if ty.shared && !(features.threads() && ty.maximum.is_some()) {
        return false;
    }
    match ty.page_size_log2 {
        Some(_) if !features.custom_page_sizes() => return false,
        Some(0 | 16) | None => {}
        Some(_) => return false,
    }
    are_bounds(ty.initial, ty.maximum, most_pages(ty))
}

impl ModuleState {
    /// Returns the type of the memory with this index, if there is one.
    #[tactic(auto, using(crate::proofs::SegmentLaws::space_steps))]
    pub fn memory_at(&self, index: u32) -> Option<MemoryType>
        ensures { option_map memory_type result ≡ slice_get (context self.now).memories index }
    {
        self.memories.get(index as usize).copied()
    }

    /// Checks that another memory of this type keeps the rules.
    pub(crate) fn keeps_memory(&self, ty: MemoryType) -> bool
        ensures { result ≡ keeps_memory (features_of self.now) (context self.now) (memory_type ty) }
    {
        let features = self.features();
        is_memory_type(features, ty) && (self.memories.is_empty() || features.multi_memory())
    }
}

impl Entry for MemoryType {
    ghost entry = { λ x. OfMemory (memory_type x) };

    ghost entry_at = { memory_entry_at };

    ghost adds_types = { false };

    ghost is_made = { record { made = λ x. OfMemory x; is = λ x. refl; reads = λ _ bytes. refl; breaks = λ _ _ _ _ large _. large } };

    fn add(self, state: &mut ModuleState, offset: u64) -> Result<(), Error> {
        if !state.keeps_memory(self) {
            return Err(refusal(offset, ErrorKind::Invalid));
        }
        if state.memories.len() as u64 >= MAX_WASM_MEMORIES {
            return Err(refusal(offset, ErrorKind::Limit(Limit::Memories)));
        }
        state.memories.push(self)?;
        Ok(())
    }
}
