//! Parts of types, and lists of them.

ghost use Rattle.std.specs.Prelude.{map};
ghost use Rattle.wasm_core_read.specs.Reading.{ReadingOf};
ghost use Rattle.wasm_core_read.specs.TypeReading.{list_at};
ghost use Rattle.wasmparser_readers.specs.Answers.{AnswersOrFills};

use std::alloc::Global;
use wasm_core_read::binary_reader::BinaryReader;
use wasmparser_error::error::Error;

// A part of a type, read with its indexes packed.
pub(crate) trait Part: Sized + Drop {
    // The type that stands for it in the specification.
    ghost Meaning: { Type 0 };

    ghost meaning: { Self → Meaning };

    // The reading of bytes as a part.
    ghost part_at: { ReadingOf Meaning };

    fn read(alloc: Global, reader: &mut BinaryReader<'_>) -> Result<Self, Error>
        ensures { AnswersOrFills Self.meaning reader.old reader.new result (Self.part_at reader.old.rest) };
}

// Reads a list: the number of its items, and the items (Core Specification 3.0, Binary Format, "Lists").
#[tactic(auto, using(wasm_core_read::proofs::ReadingLaws::list_loop), unfolding(wasm_core_read::specs::TypeReading::list_at))]
pub(crate) fn read_list<T: Part>(
    alloc: Global,
    reader: &mut BinaryReader<'_>,
) -> Result<Vec<T>, Error>
    ensures { AnswersOrFills (λ v. map T.meaning v.items) reader.old reader.new result (list_at T.part_at reader.old.rest) }
{
    let count = reader.read_var_u32()?;
    let mut items = Vec::new(alloc);
    for _ in 0..count {
        items.push(T::read(alloc, reader)?)?;
    }
    Ok(items)
}
