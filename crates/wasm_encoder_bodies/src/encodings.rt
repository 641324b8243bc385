//! Values that are written one after the other.

ghost use Rattle.std.specs.Prelude.{◌≡◌, ◌≤◌, ◌^◌, List, length, Some, Err, IfOk};
ghost use Rattle.std.specs.Iterator.{Drains, Yields, YieldsThen};
ghost use Rattle.std.specs.List.{flat_map};
ghost use Rattle.wasm_encoder_bodies.specs.Expressions.{AreShort};

use std::alloc::Global;
use wasm_core_write::encode_error::EncodeError;
use wasm_core_write::encoding::Encoding;
use wasm_encoder_instructions::alone::encode_alone;

// Returns the encodings of all items, one after the other.
#[tactic(auto, using(crate::proofs::EncodingLists::steps))]
pub(crate) fn encodings_of<T: Encoding + Drop, I: ExactSizeIterator<Item = T> + Drop>(
    alloc: Global,
    items: I,
) -> Result<Vec<u8>, EncodeError>
    requires { I.can_next items }
    ensures written { IfOk result (λ bytes. (all : List T) × Drains I.next_gives items all × AreShort T.encoding all × (bytes.items ≡ flat_map T.encoding all)) }
    ensures too_long { result ≡ Err EncodeError.TooLong → (rest : I) × (before : List T) × (item : T) × YieldsThen I.next_gives items before (Some item) rest × AreShort T.encoding before × (2 ^ 32 ≤ length (T.encoding item)) }
    ensures memory { result ≡ Err EncodeError.Memory → (rest : I) × (taken : List T) × Yields I.next_gives items taken rest × AreShort T.encoding taken }
{
    let _finite = items.len();
    let mut bytes = Vec::new(alloc);
    for item in items {
        encode_alone(&item, &mut bytes)?;
    }
    Ok(bytes)
}
