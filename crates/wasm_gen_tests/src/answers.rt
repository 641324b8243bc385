//! Checks of the output of runs.

/// Checks that these bytes are the first of a whole, and so many.
pub fn is_front(written: &[u8], whole: &[u8], len: usize) -> bool {
    whole.starts_with(written) && written.len() == len
}
