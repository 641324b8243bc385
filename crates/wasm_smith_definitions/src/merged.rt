//! Two lists of numbers in order, seen as one.

ghost use Rattle.std.specs.Prelude.{◌≤◌};

/// Two lists in increasing order, seen as one list in increasing order.
#[derive(Clone, Copy, Debug)]
pub struct Merged<'a> {
    /// One list.
    pub first: &'a [u32],
    /// The other list.
    pub second: &'a [u32],
}

// Returns how many items of the first list are among this many items of both.
fn split(first: &[u32], second: &[u32], count: usize) -> usize
    ensures { result ≤ count }
{
    let mut low = count.saturating_sub(second.len());
    let mut high = count.min(first.len());
    'search: while low < high {
        let middle = low + (high - low) / 2;
        if first[middle] < second[count - middle - 1] {
            low = middle + 1;
        } else {
            high = middle;
        }
    }
    low
}

impl<'a> Merged<'a> {
    /// Returns the number of items.
    pub fn len(&self) -> usize {
        self.first.len().saturating_add(self.second.len())
    }

    /// Returns the item of an index.
    pub fn get(&self, index: usize) -> Option<u32> {
        let before = split(self.first, self.second, index);
        let second = self.second.get(index - before).copied();
        let Some(first) = self.first.get(before) else {
            return second;
        };
        match second {
            Some(second) => Some(second.min(*first)),
            None => Some(*first),
        }
    }
}
