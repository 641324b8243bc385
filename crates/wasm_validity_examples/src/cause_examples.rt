//! Worked examples of causes: what the front of bytes breaks or passes, and what it doesn't.

ghost use Rattle.std.specs.Prelude.{◌≡◌, ◌++◌, ⊤, ℕ, List, [], ◌∷◌, false, replicate, true};
ghost use Rattle.wasm_spec.specs.Features.{Exceptions, Features, MultiMemory, has};
ghost use Rattle.wasm_spec.specs.Grammar.{header};
ghost use Rattle.wasm_spec.specs.Limits.{Tags};
ghost use Rattle.wasm_spec.specs.Syntax.{TypeSection, FunctionSection, MemorySection, StartSection, CodeSection};
ghost use Rattle.wasm_spec.specs.Types.{I32, FuncComposite, Single};
ghost use Rattle.wasm_spec_examples.specs.Examples.{at_least};
ghost use Rattle.wasm_spec_examples.specs.TypeExamples.{final_type, gives};
ghost use Rattle.wasm_validity.specs.Entries.{entries_of};
ghost use Rattle.wasm_validity.specs.Validity.{AreFine, BeginsInvalid, BeginsPast};
ghost use Rattle.wasm_validity_examples.specs.Examples.{IsFine};

/// A module may have 100 memories, and not 101.
pub fn many_memories()
    ensures most { (features : Features) → has features MultiMemory ≡ true → IsFine features (MemorySection (replicate 100 (at_least 0)) ∷ []) }
    ensures past { (features : Features) → ¬ (IsFine features (MemorySection (replicate 101 (at_least 0)) ∷ [])) }
    ensures not_fine { (features : Features) → ¬ (AreFine features (entries_of (MemorySection (replicate 101 (at_least 0)) ∷ []))) }
{}

/// A module isn't fine where what it starts with gives a number, or isn't there, whatever the bodies.
pub fn start_functions()
    ensures gives { (features : Features) (bodies : List (List ℕ))
        → ¬ (AreFine features (entries_of (TypeSection (Single (final_type (FuncComposite (gives (I32 ∷ [])))) ∷ []) ∷ FunctionSection (0 ∷ []) ∷ StartSection 0 ∷ CodeSection bodies ∷ []))) }
    ensures none { (features : Features) (bodies : List (List ℕ))
        → ¬ (AreFine features (entries_of (TypeSection (Single (final_type (FuncComposite (gives (I32 ∷ [])))) ∷ []) ∷ FunctionSection (0 ∷ []) ∷ StartSection 1 ∷ CodeSection bodies ∷ []))) }
{}

/// The first of two memories is broken, and the other one doesn't read.
pub fn cut_sections()
    ensures crossed { (features : Features) (rest : List ℕ) → BeginsInvalid features
        (header ++ (0x05 ∷ 0x06 ∷ 0x02 ∷ 0x01 ∷ 0x02 ∷ 0x01 ∷ 0xff ∷ 0xff ∷ rest)) }
{}

/// Bytes of 101 memories break no rule where there may be several, and pass no limit on tags.
pub fn memories_past()
    ensures rules { (features : Features) → has features MultiMemory ≡ true → ¬ (BeginsInvalid features (header ++ (0x05 ∷ 0xcb ∷ 0x01 ∷ 0x65 ∷ replicate 202 0x00))) }
    ensures tags { (features : Features) → ¬ (BeginsPast features Tags (header ++ (0x05 ∷ 0xcb ∷ 0x01 ∷ 0x65 ∷ replicate 202 0x00))) }
{}
