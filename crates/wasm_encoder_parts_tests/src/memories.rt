//! Memory sections, and the sizes of pages.

use crate::entries::{Rows, row};
use std::alloc::Global;
use std::test::Fail;
use wasm_encoder_sections::entity_type::MemoryType;
use wasm_encoder_sections::memory_section::MemorySection;
use wasm_test_rows::rows::check_rows;
use wasm_test_rows::values::{bool_of, number_of};

// Returns the least size, the greatest, whether it is shared, whether it has 64 bits, and the page's size; `-` for what isn't there.
fn memory_of(entry: &str) -> Option<MemoryType> {
    let mut words = entry.split_whitespace();
    let minimum = number_of(words.next()?)?;
    let maximum = number_of(words.next()?);
    let shared = bool_of(words.next()?)?;
    let memory64 = bool_of(words.next()?)?;
    let page_size_log2 = words.next()?.parse().ok();
    Some(MemoryType {
        minimum,
        maximum,
        memory64,
        shared,
        page_size_log2,
    })
}

impl Rows for MemorySection {
    fn empty(alloc: Global) -> MemorySection {
        MemorySection::new(alloc)
    }

    fn add(&mut self, _alloc: Global, entry: &str) -> Option<()> {
        if self.memory(memory_of(entry)?).is_err() {
            return None;
        }
        Some(())
    }
}

/// Memories, how long each is, and the section.
pub const MEMORIES: &str = "
    1 - no no - | 2 | 05 03 01 00 01
    1 5 no no - | 3 | 05 04 01 01 01 05
    1 2 yes no - ; 0 - no yes - | 3 2 | 05 06 02 03 01 02 04 00
    1 - no no 0 ; 0 65536 no no 16 | 3 6 | 05 0a 02 08 01 00 09 00 80 80 04 10
    18446744073709551615 18446744073709551615 yes yes 4294967295 | 26 | 05 1b 01 0f ff*9 01 ff*9 01 ff*4 0f
";

#[test]
fn memory_sections(rt: HostRuntime) -> Result<(), Fail> {
    check_rows(rt.alloc(), MEMORIES, 5, row::<MemorySection>)?;
    Ok(())
}

fn page_row(_alloc: Global, row: &str) -> Option<bool> {
    let ty = memory_of(row)?;
    let log2 = ty.page_size_log2();
    Some(log2 < 32 && ty.page_size() == 65_536)
}

#[test]
fn page_sizes(rt: HostRuntime) -> Result<(), Fail> {
    check_rows(rt.alloc(), "1 - no no - \n 1 - no no 16", 2, page_row)?;
    Ok(())
}
