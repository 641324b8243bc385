//! Items of sections, each of which reads itself.

ghost use Rattle.std.specs.Prelude.{⊤, ℕ, List, []};
ghost use Rattle.wasm_core_read.specs.Reading.{ReadingOf, name_at, unsigned_at};
ghost use Rattle.wasm_spec.specs.Features.{Features};
ghost use Rattle.wasmparser_readers.specs.Answers.{ReadsItem};

use std::alloc::Global;
use wasm_core_read::binary_reader::BinaryReader;
use wasmparser_error::error::Error;

/// A type that bytes may read as: the part of `FromReader` for contracts alone, which has no lifetime.
pub trait Item {
    // An item of the specification.
    ghost Form: { Type 0 };

    // The item that a value is.
    ghost form: { Self → Form };

    // The reading of bytes as an item, under a set of features.
    ghost form_at: { Features → ReadingOf Form };

    // The type indexes in an item that a value keeps packed.
    ghost indexes: { Form → List ℕ };

    // Each type that a value names is named by its place in the module.
    ghost IsOfModule: { Self → Type 0 };

    // States that reading a value takes memory: true, or false.
    ghost TakesMemory: { Type 0 };
}

/// A type whose values a reader can read.
pub trait FromReader<'a>: Item + Sized {
    /// Reads a value. Lists of a type take memory; names borrow the input.
    ///
    /// # Errors
    /// `Malformed` where no value reads. At the value's first byte: `Invalid` where one reads with a type index from 2^20 on that it would have to pack, `Memory` where
    /// memory runs out for a value that takes some.
    fn from_reader(alloc: Global, reader: &mut BinaryReader<'a>) -> Result<Self, Error>
        ensures { ReadsItem Self.form Self.IsOfModule Self.TakesMemory Self.indexes reader.old reader.new result (Self.form_at reader.old.features reader.old.rest) };
}

// An index.
impl Item for u32 {
    ghost Form = { ℕ };

    ghost form = { λ n. n };

    ghost form_at = { λ _. unsigned_at 32 };

    ghost indexes = { λ _. [] };

    ghost IsOfModule = { λ _. ⊤ };

    ghost TakesMemory = { ⊥ };
}

impl<'a> FromReader<'a> for u32 {
    fn from_reader(_alloc: Global, reader: &mut BinaryReader<'a>) -> Result<u32, Error> {
        Ok(reader.read_var_u32()?)
    }
}

// A name.
impl<'a> Item for &'a str {
    ghost Form = { List ℕ };

    ghost form = { λ name. name.now };

    ghost form_at = { λ _. name_at };

    ghost indexes = { λ _. [] };

    ghost IsOfModule = { λ _. ⊤ };

    ghost TakesMemory = { ⊥ };
}

impl<'a> FromReader<'a> for &'a str {
    fn from_reader(_alloc: Global, reader: &mut BinaryReader<'a>) -> Result<&'a str, Error> {
        Ok(reader.read_string()?)
    }
}
