//! The step that draws the data segments of a module.

ghost use Rattle.std.specs.Prelude.{◌≡◌, ◌≤◌, ◌<◌, ◌+◌, ◌-◌, ◌^◌, ◌⊎◌, ◌||◌, true, false, nat_lt, length, map, min, slice_get, Some, IfOk, IfErr, if◌then◌else◌};
ghost use Rattle.wasm_encoder_sections.specs.CoreItems.{memory_type};
ghost use Rattle.wasm_smith_definitions.specs.Items.{data_segment};
ghost use Rattle.wasm_smith_definitions.specs.Kinds.{of_data, wanted_data};
ghost use Rattle.wasm_smith_definitions.specs.Steps.{Allows, IsGrown};
ghost use Rattle.wasm_smith_module.specs.Data.{total_size};
ghost use Rattle.wasm_smith_module.specs.Traps.{IsSafeData, least_bytes};
ghost use Rattle.wasm_smith_validity.specs.ValidGroups.{AllKeepTypeRules};

use crate::choices::{can_be_made, draw_index, push_owned};
use crate::offsets::draw_offset;
use std::alloc::{AllocError, Global};
use wasm_encoder_sections::entity_type::{ExportKind, MemoryType};
use wasm_smith_config::config::Config;
use wasm_smith_config::error::Error;
use wasm_smith_definitions::constants::Constants;
use wasm_smith_definitions::growing::grows_if;
use wasm_smith_definitions::index_spaces::IndexSpaces;
use wasm_smith_definitions::segments::{DataMode, DataSegment};
use wasm_smith_unstructured::unstructured::Unstructured;

// Returns the number of bytes that a memory has at least.
fn least_bytes(memory: &MemoryType) -> u128
    ensures { result ≡ least_bytes (memory_type memory.now) }
{
    match memory.page_size_log2 {
        Some(0) => u128::from(memory.minimum),
        _ => u128::from(memory.minimum) * 65536,
    }
}

// Returns the most bytes of a segment for a memory that has so many at least. Where traps are disallowed, they fit into it.
fn most_contents(config: &Config, size: u128) -> usize
    ensures { result ≡ (if config.now.disallow_traps then min size (2 ^ 64 - 1) else 2 ^ 64 - 1) }
{
    if !config.disallow_traps {
        return usize::MAX;
    }
    size.min(u128::from(u64::MAX)) as usize
}

// Draws the bytes of a segment, at most so many.
#[tactic(auto, unfolding(wasm_smith_unstructured::specs::Draws::bytes_at))]
fn draw_contents(
    alloc: Global,
    unstructured: &mut Unstructured<'_>,
    most: usize,
) -> Result<Vec<u8>, AllocError>
    ensures within { IfOk result (λ contents. length contents.items + length unstructured.new ≤ length unstructured.old) }
    ensures few { IfOk result (λ contents. length contents.items ≤ most) }
    ensures taken { length unstructured.new ≤ length unstructured.old }
{
    let len = unstructured.arbitrary_len().min(most);
    let bytes = unstructured.bytes(len).unwrap();
    let contents = Vec::from_slice(alloc, bytes)?;
    Ok(contents)
}

// Draws a segment for the memory of this index: its bytes, and then its offset.
fn draw_active(
    alloc: Global,
    unstructured: &mut Unstructured<'_>,
    config: &Config,
    constants: &mut Constants,
    spaces: &IndexSpaces<'_>,
    memory: u32,
    ty: &MemoryType,
) -> Result<DataSegment, Error>
    requires rules { AllKeepTypeRules spaces.now.types }
    requires there { slice_get spaces.now.memories memory ≡ Some (memory_type ty.now) }
    ensures allowed { IfOk result (λ segment. Allows config.now spaces.now (of_data (data_segment segment))) }
    ensures safe { IfOk result (λ segment. IsSafeData config.now spaces.now (data_segment segment)) }
    ensures within { IfOk result (λ segment. length segment.data.items + length unstructured.new ≤ length unstructured.old) }
    ensures taken { length unstructured.new ≤ length unstructured.old }
    ensures refused { IfErr result (λ e. e ≡ Error.Memory) }
{
    let size = least_bytes(ty);
    let most = most_contents(config, size);
    let data = draw_contents(alloc, unstructured, most)?;
    let is_64 = ty.memory64;
    let last = size.saturating_sub(data.len() as u128);
    let offset = draw_offset(alloc, unstructured, config, constants, spaces, is_64, last)?;
    let mode = DataMode::Active { memory, offset };
    Ok(DataSegment { mode, data })
}

// Draws a segment: its memory, if it has one, its bytes, and then its offset.
fn draw_segment(
    alloc: Global,
    unstructured: &mut Unstructured<'_>,
    config: &Config,
    constants: &mut Constants,
    spaces: &IndexSpaces<'_>,
) -> Result<DataSegment, Error>
    requires rules { AllKeepTypeRules spaces.now.types }
    requires can { (nat_lt 0 (length spaces.now.memories) || config.now.bulk_memory_enabled) ≡ true }
    ensures allowed { IfOk result (λ segment. Allows config.now spaces.now (of_data (data_segment segment))) }
    ensures safe { IfOk result (λ segment. IsSafeData config.now spaces.now (data_segment segment)) }
    ensures within { IfOk result (λ segment. length segment.data.items + length unstructured.new ≤ length unstructured.old) }
    ensures taken { length unstructured.new ≤ length unstructured.old }
    ensures refused { IfErr result (λ e. e ≡ Error.Memory) }
{
    let memories = spaces.count_of(ExportKind::Memory);
    let others = u32::from(config.bulk_memory_enabled);
    let memory = draw_index(unstructured, memories, others);
    match spaces.memory(memory) {
        Some(ty) => draw_active(alloc, unstructured, config, constants, spaces, memory, &ty),
        None => {
            let data = draw_contents(alloc, unstructured, usize::MAX)?;
            let mode = DataMode::Passive;
            Ok(DataSegment { mode, data })
        }
    }
}

/// Draws the data segments, whose contents are taken from the source.
///
/// # Errors
/// `IncorrectFormat` if segments are asked for and none can be made, and otherwise `Memory`. Some of the source's bytes may be taken by then.
pub fn data_segments(
    alloc: Global,
    unstructured: &mut Unstructured<'_>,
    config: &Config,
    constants: &mut Constants,
    spaces: &mut IndexSpaces<'_>,
) -> Result<Vec<DataSegment>, Error>
    requires rules { AllKeepTypeRules spaces.old.types }
    requires counts { config.now.min_data_segments ≤ config.now.max_data_segments }
    ensures grown { IfOk result (λ v. IsGrown config.now (wanted_data config.now) of_data (IsSafeData config.now spaces.old) spaces.old unstructured.old spaces.new unstructured.new (map data_segment v.items)) }
    ensures within { IfOk result (λ v. total_size (map data_segment v.items) + length unstructured.new ≤ length unstructured.old) }
    ensures taken { length unstructured.new ≤ length unstructured.old }
    ensures refused { IfErr result (λ e. (e ≡ Error.Memory) ⊎ ((e ≡ Error.IncorrectFormat) × (0 < config.now.min_data_segments))) }
    ensures impossible { IfErr result (λ e. e ≡ Error.IncorrectFormat → (wanted_data config.now).can spaces.old ≡ false) }
{
    let can = can_be_made(
        spaces.count_of(ExportKind::Memory),
        config.bulk_memory_enabled,
    );
    let mut segments = Vec::new(alloc);
    'grow: while grows_if(
        unstructured,
        can,
        spaces.data_segment_count(),
        config.min_data_segments as usize,
        config.max_data_segments as usize,
    ) {
        let segment = draw_segment(alloc, unstructured, config, constants, spaces)?;
        spaces.add_data_segment();
        push_owned(&mut segments, segment)?;
    }
    if spaces.data_segment_count() < config.min_data_segments as usize {
        return Err(Error::IncorrectFormat);
    }
    Ok(segments)
}
