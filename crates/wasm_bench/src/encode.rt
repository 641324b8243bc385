//! For `bench/encode.sh`: fills a section with so many items, writes it so many times, and prints its bytes and the shortest time.

use crate::sections;
use crate::shortest::tell_shortest;
use std::alloc::Global;
use std::rt::Clock;
use wasm_encoder::encode::Encode;

/// Fills a section with so many items of a kind as the words say, and measures it.
pub(crate) fn measure<R: Print + Clock + AllocGlobal>(rt: &R, words: &[String]) -> Option<()> {
    let [kind, count, times] = words else {
        return None;
    };
    let count = count.as_str().parse::<u32>().ok()?;
    let times = times.as_str().parse::<u32>().ok()?;
    sections::time(rt, kind.as_str(), count, times)
}

/// Prints how many bytes a section takes, and the shortest time of writing it, where it is timed at all.
pub(crate) fn tell<R: Print + Clock + AllocGlobal, S: Encode>(
    rt: &R,
    section: &S,
    times: u32,
) -> Option<()> {
    let len = section.encoded_len().ok()?;
    println!(rt; "{} bytes", len).ok()?;
    tell_shortest(rt, times, || written(rt.alloc(), section))
}

// Returns the section's bytes.
fn written<S: Encode>(alloc: Global, section: &S) -> Option<Vec<u8>> {
    let mut sink = Vec::new(alloc);
    section.encode(&mut sink).ok()?;
    Some(sink)
}
