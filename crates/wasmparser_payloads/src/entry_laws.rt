//! Laws of what the pieces of a module say. The functions do nothing: their contracts are theorems.

ghost use Rattle.std.specs.Prelude.{◌≡◌, ◌++◌, ℕ, Bool, List, length, Some};
ghost use Rattle.std.specs.List.{AllByRecursion};
ghost use Rattle.wasm_spec.specs.Bytes.{AreBytes};
ghost use Rattle.wasm_spec.specs.Features.{CompactImports, has};
ghost use Rattle.wasm_spec.specs.Grammar.{IsModule};
ghost use Rattle.wasm_spec.specs.Syntax.{Section, functions_of, bodies_of, data_of, data_counts_of};
ghost use Rattle.wasm_validity.specs.Entries.{Entry, entries_of};
ghost use Rattle.wasm_validity.specs.Fronts.{BeginsWith};
ghost use Rattle.wasmparser_payloads.specs.PieceEntries.{Reaches, ReachesFront, ReachesSaid, IsUnread, ReachesEnd, HasAllSections};
ghost use Rattle.wasmparser_payloads.specs.declared.payloads.Stage.TheVariants.{Header, Done};
ghost use Rattle.wasmparser_payloads.specs.Parsing.{Settings, whole_module};
ghost use Rattle.wasmparser_payloads.specs.Pieces.{Piece, End, Remains, next_piece};

/// Where a piece is refused before the end, or the items of one don't read, the bytes are no module.
pub fn unread_modules()
    ensures modules { (settings : Settings) (bytes : List ℕ) → AreBytes bytes → IsUnread (whole_module settings bytes) → (sections : List Section) → ¬ (IsModule (has settings.features CompactImports) bytes sections) }
    ensures going { (s new : Remains) (p : Piece) → next_piece s ≡ Some (p, new) → ((place : ℕ) → ¬ (p ≡ End place)) → ¬ (new.stage ≡ Done) }
{}

/// Up to the end, the pieces say what sections say that the bytes are. Bytes are at most one list of sections, and are
/// a module just where the counts of these agree.
pub fn ended_modules()
    ensures sections { (settings : Settings) (bytes : List ℕ) (entries : List Entry) → AreBytes bytes → ReachesEnd (whole_module settings bytes) entries
        → (sections : List Section) × HasAllSections (has settings.features CompactImports) bytes sections × (entries ≡ entries_of sections) }
    ensures alike { (compact : Bool) (bytes : List ℕ) (a b : List Section) → HasAllSections compact bytes a → HasAllSections compact bytes b → a ≡ b }
    ensures whole { (compact : Bool) (bytes : List ℕ) (sections : List Section) → IsModule compact bytes sections → HasAllSections compact bytes sections }
    ensures agreeing { (compact : Bool) (bytes : List ℕ) (sections : List Section) → HasAllSections compact bytes sections
        → length (functions_of sections) ≡ length (bodies_of sections) → AllByRecursion (λ count. count ≡ length (data_of sections)) (data_counts_of sections) → IsModule compact bytes sections }
{}

/// Up to some point, the entries of a module's pieces are those at the front of its bytes: after some pieces, of which the
/// header is one or a further one is given; with some items of the next piece; with the entries of the next piece by itself.
pub fn pieces_begin_the_bytes()
    ensures pieces { (settings : Settings) (bytes : List ℕ) (entries : List Entry) (now : Remains) → AreBytes bytes → Reaches (whole_module settings bytes) entries now → ¬ (now.stage ≡ Header)
        → BeginsWith (has settings.features CompactImports) bytes entries }
    ensures before { (settings : Settings) (bytes : List ℕ) (entries : List Entry) (now : Remains) (p : Piece) (next : Remains) → AreBytes bytes → Reaches (whole_module settings bytes) entries now
        → next_piece now ≡ Some (p, next) → BeginsWith (has settings.features CompactImports) bytes entries }
    ensures front { (settings : Settings) (bytes : List ℕ) (entries : List Entry) → AreBytes bytes → ReachesFront (whole_module settings bytes) entries → BeginsWith (has settings.features CompactImports) bytes entries }
    ensures said { (settings : Settings) (bytes : List ℕ) (entries : List Entry) → AreBytes bytes → ReachesSaid (whole_module settings bytes) entries → BeginsWith (has settings.features CompactImports) bytes entries }
    ensures started { (s new : Remains) (p : Piece) → next_piece s ≡ Some (p, new) → ¬ (new.stage ≡ Header) }
{}

/// The entries at the front of a module's bytes are the first part of the entries of its sections.
pub fn fronts_of_modules()
    ensures { (compact : Bool) (bytes : List ℕ) (entries : List Entry) (sections : List Section) → BeginsWith compact bytes entries → IsModule compact bytes sections
        → (others : List Entry) × (entries_of sections ≡ entries ++ others) }
{}
