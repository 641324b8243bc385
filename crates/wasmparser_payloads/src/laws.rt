//! Laws of payloads. The functions do nothing: their contracts are theorems.

ghost use Rattle.std.specs.Prelude.{◌≡◌, ◌↔◌, ◌≤◌, ◌+◌, ℕ, Bool, List, length, Some};
ghost use Rattle.wasm_core_read.specs.ModuleReading.{module_of};
ghost use Rattle.wasm_spec.specs.Bytes.{AreBytes};
ghost use Rattle.wasm_spec.specs.Grammar.{IsModule};
ghost use Rattle.wasm_spec.specs.Syntax.{Section};
ghost use Rattle.wasmparser_payloads.specs.Modules.{sections_given};
ghost use Rattle.wasmparser_payloads.specs.Parsing.{Settings, whole_module, IsInside, LieBetween};
ghost use Rattle.wasmparser_payloads.specs.Pieces.{Piece, Remains, next_piece};

/// The pieces that a parser gives of some bytes, one after the other, are the sections of a module that the bytes are.
/// Where the bytes are no module, a piece is refused, or an item of a section doesn't read, or the counts don't agree.
pub fn pieces_are_sections()
    ensures modules { (settings : Settings) (compact : Bool) (bytes : List ℕ) (sections : List Section) → AreBytes bytes → IsModule compact bytes sections ↔ (sections_given settings compact bytes ≡ Some sections) }
    ensures reading { (settings : Settings) (compact : Bool) (bytes : List ℕ) → sections_given settings compact bytes ≡ module_of compact bytes }
{}

/// Where a parser refuses a module, it does so at a place of the module or at its end: nothing of what is left lies
/// anywhere else, before the first piece or after any other.
pub fn places_are_of_the_module()
    ensures first { (settings : Settings) (bytes : List ℕ) → LieBetween settings.offset (settings.offset + length bytes) (whole_module settings bytes) }
    ensures stay { (first last : ℕ) (s new : Remains) (p : Piece) → LieBetween first last s → next_piece s ≡ Some (p, new) → LieBetween first last new }
    ensures refused { (first last : ℕ) (s : Remains) (offset : ℕ) → LieBetween first last s → IsInside s offset → (first ≤ offset) × (offset ≤ last) }
{}
