//! Bodies of functions by places.

ghost use Rattle.std.specs.Prelude.{◌≤◌};
ghost use Rattle.wasm_gen_explain.specs.Searches.{FindsAtBody, FindsInBodies, FindsInBody, FindsInCode, ReadsSized};

use crate::lists::read_count;
use crate::operators::{find_operator, next_name};
use crate::place::Place;
use wasm_core_read::binary_reader::BinaryReader;
use wasm_core_read::malformed::Malformed;
use wasmparser_payloads::function_body::FunctionBody;

// The id of code sections.
pub(crate) const CODE: u8 = 10;

// Returns where in a function's body a place is, or none where all of the body reads and ends at the place or before it.
#[tactic(auto, using(crate::proofs::BodyLaws::body_steps))]
fn place_in_body(function: u64, body: BinaryReader<'_>, offset: u64) -> Option<Place>
    ensures { FindsInBody function body.entry offset result }
{
    let Ok(operators) = FunctionBody::new(body).get_operators_reader() else {
        return Some(Place::Locals { function });
    };
    if offset < operators.original_position() {
        return Some(Place::Locals { function });
    }
    let mut reader = operators.get_binary_reader();
    let number = find_operator(&mut reader, offset)?;
    Some(Place::Operator {
        function,
        number,
        name: next_name(&reader),
    })
}

// Reads a size and so many bytes, as a reader of these.
#[tactic(auto, using(wasm_core_read::proofs::ReadingLaws::bytes_length), unfolding(wasm_core_read::specs::PartReading::body_at))]
pub(crate) fn read_sized<'a>(reader: &mut BinaryReader<'a>) -> Result<BinaryReader<'a>, Malformed>
    ensures { ReadsSized reader.old reader.new result }
{
    let size = reader.read_var_u32()?;
    let position = reader.original_position();
    let bytes = reader.read_bytes(size as usize)?;
    let mut part = BinaryReader::new(bytes, position);
    part.set_features(reader.features());
    Ok(part)
}

// Returns where in the next body, that of this function, a place is. Passes the body where it ends before the place, or at it and reads.
#[tactic(auto, using(crate::proofs::BodyLaws::next_steps))]
fn place_at_body(function: u64, reader: &mut BinaryReader<'_>, offset: u64) -> Option<Place>
    ensures { FindsAtBody function reader.old reader.new offset result }
{
    let Ok(body) = read_sized(reader) else {
        return Some(Place::Function { function });
    };
    if offset < body.original_position() {
        return Some(Place::Function { function });
    }
    if reader.original_position() < offset {
        return None;
    }
    place_in_body(function, body, offset)
}

// Returns where in the next `count` bodies a place is. Passes all of them where it is in none. Their functions come after the imported ones.
#[tactic(auto, using(crate::proofs::CodeLaws::bodies_loop))]
fn place_at_bodies(
    imported: u64,
    count: u32,
    reader: &mut BinaryReader<'_>,
    offset: u64,
) -> Option<Place>
    requires { imported ≤ reader.old.position }
    ensures { FindsInBodies imported count reader.old reader.new offset result }
{
    for number in 0..count {
        let function = imported + u64::from(number);
        let place = place_at_body(function, reader, offset);
        if place.is_some() {
            return place;
        }
    }
    None
}

// Returns where in a code section a place is, or none where all of it reads and ends at the place or before it. Its functions come after the imported ones.
#[tactic(auto, using(crate::proofs::CodeLaws::code_steps))]
pub(crate) fn place_in_code(
    imported: u64,
    content: &mut BinaryReader<'_>,
    offset: u64,
) -> Option<Place>
    requires { imported ≤ content.old.position }
    ensures { FindsInCode imported content.old offset result }
{
    let Some(count) = read_count(content, offset) else {
        return Some(Place::Section { id: CODE });
    };
    match place_at_bodies(imported, count, content, offset) {
        Some(place) => Some(place),
        None if content.eof() => None,
        None => Some(Place::Section { id: CODE }),
    }
}
