//! A list of items that is kept until it is written, and the length of their encodings.

ghost use Rattle.std.specs.Prelude.{◌≡◌, ◌↔◌, ◌+◌, ◌≤◌, ◌<◌, ◌^◌, [], ◌∷◌, ◌++◌, List, length, Err, IfOk, IfErr, IsTrue, vec_capacity};
ghost use Rattle.std.specs.List.{flat_map};
ghost use Rattle.wasm_core_write.specs.Encoding.{Measures, TellsItem};
ghost use Rattle.wasm_spec.specs.Shortest.{list_encoding};

use std::alloc::Global;
use std::marker::Model;
use wasm_core_write::encode_error::EncodeError;
use wasm_core_write::encoding::{Encoding, add_sizes, item_len, put_list};
use wasm_core_write::leb128::len_u64;

/// Items in the order in which they were added. Contracts see the list of them.
#[derive(Debug, Drop)]
pub struct KeptList<T: Encoding + Drop> {
    items: Vec<T>,
    // The length of the items' encodings, one after the other, so that writing need not measure them.
    size: Result<u64, EncodeError>,
}

impl<T: Encoding + Drop> Model for KeptList<T> {
    ghost use Rattle.std.specs.Prelude.{◌<◌, ◌^◌, List, length};
    ghost use Rattle.std.specs.List.{flat_map};
    ghost use Rattle.wasm_core_write.specs.Encoding.{Measures};

    ghost Value = { List T };

    ghost view = { λ l. l.items.items };

    ghost invariant = { λ l. (length l.items.items < 2 ^ 32) × Measures l.size (length (flat_map T.encoding l.items.items)) (length (flat_map T.encoding l.items.items)) };
}

impl<T: Encoding + Drop> KeptList<T> {
    /// Creates a list without items.
    pub fn new(alloc: Global) -> KeptList<T>
        ensures { result ≡ [] }
    {
        KeptList {
            items: Vec::new(alloc),
            size: Ok(0),
        }
    }

    /// Returns the number of items.
    pub fn len(&self) -> u32
        ensures { result ≡ length self.now }
    {
        self.items.len() as u32
    }

    /// Checks that there are no items.
    pub fn is_empty(&self) -> bool
        ensures { IsTrue result ↔ (self.now ≡ []) }
    {
        self.items.is_empty()
    }

    /// Adds an item.
    ///
    /// # Errors
    /// `TooLong` exactly where there are 4,294,967,295 items, and else `Memory`. The list is then as it was.
    pub fn push(&mut self, item: T) -> Result<(), EncodeError>
        ensures added { IfOk result (λ _. self.new ≡ self.old ++ item ∷ []) }
        ensures kept { IfErr result (λ _. self.new ≡ self.old) }
        ensures too_long { (result ≡ Err EncodeError.TooLong) ↔ (2 ^ 32 ≤ length self.old + 1) }
    {
        let with_item = self.size_with(&item);
        keep(&mut self.items, &mut self.size, item, with_item)
    }

    /// Checks that another item can be added.
    ///
    /// # Errors
    /// `TooLong` alone, exactly where [`KeptList::push`] would answer it: where there are 4,294,967,295 items.
    pub fn check_room(&self) -> Result<(), EncodeError>
        ensures room { IfOk result (λ _. length self.now + 1 < 2 ^ 32) }
        ensures too_long { IfErr result (λ e. (e ≡ EncodeError.TooLong) × (2 ^ 32 ≤ length self.now + 1)) }
    {
        check_count(self.items.len())
    }

    // Returns the length of the items' encodings and of one after them.
    #[tactic(auto, using(wasm_spec::proofs::ListEncodings::sizes))]
    fn size_with(&self, item: &T) -> Result<u64, EncodeError>
        ensures { Measures result (length (flat_map T.encoding self.now ++ T.encoding item.now)) (length (flat_map T.encoding self.now ++ T.encoding item.now)) }
    {
        add_sizes(self.size?, item.size()?)
    }

    /// Returns the number of bytes of the item of this number, counted from 0, as the list writes it. It takes no memory. Where the
    /// list is too long to be written, the number says nothing.
    pub fn item_len(&self, i: u32) -> Option<u64>
        ensures { TellsItem T.encoding self.now i result }
    {
        item_len(&self.items, i)
    }
}

// Checks that one item more than so many can be kept.
fn check_count(count: usize) -> Result<(), EncodeError>
    ensures room { IfOk result (λ _. count + 1 < 2 ^ 32) }
    ensures too_long { IfErr result (λ e. (e ≡ EncodeError.TooLong) × (2 ^ 32 ≤ count + 1)) }
{
    if count >= 4_294_967_295 {
        return Err(EncodeError::TooLong);
    }
    Ok(())
}

// Adds an item to those that are kept, of whose encodings `size` is the length, and `with_item` that of these and the item's.
#[tactic(auto, using(wasm_spec::proofs::ListEncodings::sizes))]
fn keep<T: Encoding + Drop>(
    items: &mut Vec<T>,
    size: &mut Result<u64, EncodeError>,
    item: T,
    with_item: Result<u64, EncodeError>,
) -> Result<(), EncodeError>
    requires measured { Measures size.old (length (flat_map T.encoding items.old.items)) (length (flat_map T.encoding items.old.items)) }
    requires measured_with { Measures with_item (length (flat_map T.encoding items.old.items ++ T.encoding item)) (length (flat_map T.encoding items.old.items ++ T.encoding item)) }
    ensures added { IfOk result (λ _. items.new.items ≡ items.old.items ++ item ∷ []) }
    ensures kept { IfErr result (λ _. items.new.items ≡ items.old.items) }
    ensures too_long { (result ≡ Err EncodeError.TooLong) ↔ (2 ^ 32 ≤ length items.old.items + 1) }
    ensures no_room { result ≡ Err EncodeError.Memory → vec_capacity items.old ≤ length items.old.items }
    ensures few { length items.old.items < 2 ^ 32 → length items.new.items < 2 ^ 32 }
    ensures measured { Measures size.new (length (flat_map T.encoding items.new.items)) (length (flat_map T.encoding items.new.items)) }
{
    check_count(items.len())?;
    items.push(item)?;
    *size = with_item;
    Ok(())
}

// The number of items, and the items.
impl<T: Encoding + Drop> Encoding for KeptList<T> {
    ghost encoding = { list_encoding T.encoding };

    #[tactic(auto, using(wasm_spec::proofs::ListEncodings::sizes))]
    fn size(&self) -> Result<u64, EncodeError> {
        add_sizes(len_u64(self.items.len() as u64) as u64, self.size?)
    }

    fn put(&self, sink: &mut Vec<u8>) {
        put_list(&self.items, sink);
    }
}
