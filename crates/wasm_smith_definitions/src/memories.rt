//! The memories of a module.

ghost use Rattle.std.specs.Prelude.{◌≡◌, ◌+◌, ◌≤◌, true, map, IfOk, is_some, length};
ghost use Rattle.std.specs.List.{AllByRecursion};
ghost use Rattle.wasm_encoder_sections.specs.CoreItems.{memory_type};
ghost use Rattle.wasm_spec.specs.Features.{Features, has, MultiMemory};
ghost use Rattle.wasm_smith_config.specs.Config.{AreFeaturesOf};
ghost use Rattle.wasm_smith_config.specs.declared.config.Config as configs;
ghost use Rattle.wasm_smith_definitions.specs.Offered.{HasByteLimits, IsOfferedMemory, most_pages_for};
ghost use Rattle.wasm_smith_definitions.specs.Kinds.{of_memory, wanted_memories};
ghost use Rattle.wasm_smith_definitions.specs.OwnItems.{HasFewOf};
ghost use Rattle.wasm_smith_definitions.specs.Steps.{IsGrown, IsStep};
ghost use Rattle.wasm_validity.specs.TypeRules.{is_memory_type, is_page_size};

use crate::bounds::bounds_within;
use crate::index_spaces::IndexSpaces;
use std::alloc::{AllocError, Global};
use wasm_encoder_sections::entity_type::{ExportKind, MemoryType};
use wasm_smith_config::config::Config;
use wasm_smith_types::growing::{bool_if, grows};
use wasm_smith_unstructured::unstructured::Unstructured;

// Draws the size of a page, where it is written.
fn page_size(unstructured: &mut Unstructured<'_>, config: &Config) -> Option<u32>
    ensures offered { is_some result ≡ true → config.now.custom_page_sizes_enabled ≡ true }
    ensures valid { is_page_size result ≡ true }
    ensures taken { length unstructured.new ≤ length unstructured.old }
{
    if !config.custom_page_sizes_enabled {
        return None;
    }
    if !unstructured.bool() {
        return None;
    }
    if unstructured.int_in_range(0..=1) == 0 {
        return Some(0);
    }
    Some(16)
}

// Returns the most pages that the bounds of a memory state.
fn most_pages(config: &Config, memory64: bool, page_size_log2: Option<u32>) -> u64
    ensures { result ≡ most_pages_for config.now memory64 page_size_log2 }
{
    let single_bytes = match page_size_log2 {
        Some(0) => true,
        _ => false,
    };
    if memory64 {
        let bytes = config.max_memory64_bytes;
        let pages = if single_bytes { bytes } else { bytes / 65536 };
        return pages.min(u128::from(u64::MAX)) as u64;
    }
    let bytes = config.max_memory32_bytes;
    let pages = if single_bytes { bytes } else { bytes / 65536 };
    pages.min(u64::from(u32::MAX))
}

/// Draws the type of a memory.
pub fn memory_type(unstructured: &mut Unstructured<'_>, config: &Config) -> MemoryType
    ensures offered { IsOfferedMemory config.now (memory_type result) }
    ensures taken { length unstructured.new ≤ length unstructured.old }
{
    let memory64 = bool_if(unstructured, config.memory64_enabled);
    let shared = bool_if(unstructured, config.threads_enabled);
    let page_size_log2 = page_size(unstructured, config);
    let most = most_pages(config, memory64, page_size_log2);
    let required = shared | config.memory_max_size_required;
    let bounds = bounds_within(unstructured, most, required);
    MemoryType {
        minimum: bounds.minimum,
        maximum: bounds.maximum,
        memory64,
        shared,
        page_size_log2,
    }
}

/// Draws the module's own memories.
///
/// # Errors
/// Where memory runs out. Some of the source's bytes may be taken by then.
pub fn memories(
    alloc: Global,
    unstructured: &mut Unstructured<'_>,
    config: &Config,
    spaces: &mut IndexSpaces<'_>,
) -> Result<Vec<MemoryType>, AllocError>
    requires limits { HasByteLimits config.now }
    requires ordered { config.now.min_memories ≤ config.now.max_memories }
    ensures grown { IfOk result (λ v. IsGrown config.now (wanted_memories config.now) of_memory (IsOfferedMemory config.now) spaces.old unstructured.old spaces.new unstructured.new (map memory_type v.items)) }
    ensures taken { length unstructured.new ≤ length unstructured.old }
{
    let mut own = Vec::new(alloc);
    'grow: while grows(
        unstructured,
        spaces.count_of(ExportKind::Memory),
        config.min_memories as usize,
        config.max_memories as usize,
    ) {
        let ty = memory_type(unstructured, config);
        spaces.push_memory(ty)?;
        own.push(ty)?;
    }
    Ok(own)
}

/// Defines a memory of each of these types.
///
/// # Errors
/// Where memory runs out. Some of them may be defined by then.
pub fn shape_memories(
    alloc: Global,
    spaces: &mut IndexSpaces<'_>,
    types: &[MemoryType],
) -> Result<Vec<MemoryType>, AllocError>
    ensures step { IfOk result (λ v. (c : configs.Config) → ((features : Features) → AreFeaturesOf c features → AllByRecursion (λ type. is_memory_type features type ≡ true) (map memory_type types.now)) → ((features : Features) → AreFeaturesOf c features → HasFewOf (has features MultiMemory) (length spaces.old.memories + length types.now)) → IsStep c of_memory spaces.old spaces.new (map memory_type v.items)) }
    ensures types { IfOk result (λ v. map memory_type v.items ≡ map memory_type types.now) }
{
    let mut own = Vec::new(alloc);
    for ty in types {
        spaces.push_memory(*ty)?;
        own.push(*ty)?;
    }
    Ok(own)
}
