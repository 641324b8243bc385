//! Which way branches are likely to go (the proposal "Branch Hinting").

ghost use Rattle.std.specs.Prelude.{◌≡◌, ◌↔◌, ◌+◌, ◌≤◌, ◌^◌, [], ◌∷◌, ◌++◌, codes, length, map, Err, IfOk, IfErr, IsTrue};
ghost use Rattle.wasm_core_write.specs.Encoding.{TellsItem};
ghost use Rattle.wasm_encoder_custom.specs.BranchHints.{function_hints_encoding, branch_hints_encoding};
ghost use Rattle.wasm_encoder_custom.specs.CustomSections.{custom_content};
ghost use Rattle.wasm_encoder_custom.specs.KeptHints.{hint, hint_bytes, function_hints_bytes};
ghost use Rattle.wasm_spec.specs.Shortest.{framed_encoding};

use crate::framing::{custom_len, encode_custom};
use std::alloc::Global;
use std::marker::Model;
use wasm_core_write::encode::{Encode, Section};
use wasm_core_write::encode_error::EncodeError;
use wasm_core_write::encoding::{Encoding, add_sizes, list_size, put_list};
use wasm_core_write::leb128::{len_u64, put_u64};
use wasm_encoder_sections::kept_list::KeptList;

/// Which way a branch of a function is likely to go.
#[derive(Clone, Copy, Debug)]
pub struct BranchHint {
    /// Where the branch stands in the function's body, counted from the body's first byte.
    pub branch_func_offset: u32,
    /// 0 where it is seldom taken, 1 where it mostly is. The format asks for a number below 128.
    pub branch_hint_value: u32,
}

impl Encoding for BranchHint {
    ghost encoding = { hint_bytes };

    #[tactic(auto, using(wasm_spec::proofs::ListEncodings::parts), unfolding(crate::specs::KeptHints::hint_bytes, crate::specs::BranchHints::hint_encoding))]
    fn size(&self) -> Result<u64, EncodeError> {
        let offset = len_u64(u64::from(self.branch_func_offset)) as u64;
        let value = len_u64(u64::from(self.branch_hint_value)) as u64;
        add_sizes(offset, 1 + value)
    }

    #[tactic(auto, using(wasm_spec::proofs::ListEncodings::parts), unfolding(crate::specs::KeptHints::hint_bytes, crate::specs::BranchHints::hint_encoding))]
    fn put(&self, sink: &mut Vec<u8>) {
        put_u64(sink, u64::from(self.branch_func_offset));
        sink.push_reserved(HINT_SIZE);
        put_u64(sink, u64::from(self.branch_hint_value));
    }
}

// A hint is one byte.
const HINT_SIZE: u8 = 1;

// A function, and its hints.
#[derive(Debug, Drop)]
struct KeptHints {
    function: u32,
    hints: Vec<BranchHint>,
}

impl Encoding for KeptHints {
    ghost encoding = { function_hints_bytes };

    #[tactic(auto, using(wasm_spec::proofs::ListEncodings::parts, crate::proofs::HintLists::steps), unfolding(crate::specs::KeptHints::function_hints_bytes, crate::specs::BranchHints::function_hints_encoding))]
    fn size(&self) -> Result<u64, EncodeError> {
        add_sizes(
            len_u64(u64::from(self.function)) as u64,
            list_size(&self.hints)?,
        )
    }

    #[tactic(auto, using(wasm_spec::proofs::ListEncodings::parts, crate::proofs::HintLists::steps), unfolding(crate::specs::KeptHints::function_hints_bytes, crate::specs::BranchHints::function_hints_encoding))]
    fn put(&self, sink: &mut Vec<u8>) {
        put_u64(sink, u64::from(self.function));
        put_list(&self.hints, sink);
    }
}

const NAME: &str = "metadata.code.branch_hint";

/// The hints of a module's functions. Contracts see the list of the functions that have some.
///
/// ```
/// let mut hints = BranchHints::new(alloc);
/// hints.function_hints(0, &[BranchHint { branch_func_offset: 5, branch_hint_value: 1 }])?;
/// module.push(&hints)?;
/// ```
#[derive(Debug, Drop)]
pub struct BranchHints {
    alloc: Global,
    functions: KeptList<KeptHints>,
}

impl Model for BranchHints {
    ghost use Rattle.std.specs.Prelude.{List, map};
    ghost use Rattle.wasm_encoder_custom.specs.BranchHints as spec;
    ghost use Rattle.wasm_encoder_custom.specs.KeptHints.{function_hints};

    ghost Value = { List spec.FunctionHints };

    ghost view = { λ s. map function_hints s.functions };
}

impl BranchHints {
    /// Creates a section without hints.
    pub fn new(alloc: Global) -> BranchHints
        ensures { result ≡ [] }
    {
        BranchHints {
            alloc,
            functions: KeptList::new(alloc),
        }
    }

    /// Returns the number of functions that have hints: of the accepted adding calls.
    pub fn len(&self) -> u32
        ensures { result ≡ length self.now }
    {
        self.functions.len()
    }

    /// Checks that no function has hints.
    #[tactic(auto, using(wasm_encoder_sections::proofs::ItemLists::nothing))]
    pub fn is_empty(&self) -> bool
        ensures { IsTrue result ↔ (self.now ≡ []) }
    {
        self.functions.is_empty()
    }

    /// Adds the hints of a function, in the order of their offsets. Functions are added in the order of their indexes.
    ///
    /// # Errors
    /// `TooLong` exactly where there are hints of 4,294,967,295 functions, and else `Memory`. The section is then as it was.
    pub fn function_hints(
        &mut self,
        func_index: u32,
        hints: &[BranchHint],
    ) -> Result<(), EncodeError>
        ensures added { IfOk result (λ _. self.new ≡ self.old ++ record { function = func_index; hints = map hint hints.now } ∷ []) }
        ensures kept { IfErr result (λ _. self.new ≡ self.old) }
        ensures too_long { (result ≡ Err EncodeError.TooLong) ↔ (2 ^ 32 ≤ length self.old + 1) }
    {
        self.functions.check_room()?;
        let hints = hints.to_vec(self.alloc)?;
        self.functions.push(KeptHints {
            function: func_index,
            hints,
        })
    }

    /// Returns the number of bytes of the item of the accepted adding call of this number, counted from 0. It takes no
    /// memory. Where [`Encode::encode`] answers `TooLong`, the number says nothing.
    pub fn item_len(&self, i: u32) -> Option<u64>
        ensures { TellsItem function_hints_encoding self.now i result }
    {
        self.functions.item_len(i)
    }
}

impl Encode for BranchHints {
    ghost encoding = { λ s. framed_encoding (custom_content (codes "metadata.code.branch_hint") (branch_hints_encoding s)) };

    ghost longest = { λ s. length (custom_content (codes "metadata.code.branch_hint") (branch_hints_encoding s)) };

    #[tactic(auto, using(crate::proofs::HintLists::steps))]
    fn encode(&self, sink: &mut Vec<u8>) -> Result<(), EncodeError> {
        encode_custom(NAME, &self.functions, sink)
    }

    #[tactic(auto, using(crate::proofs::HintLists::steps))]
    fn encoded_len(&self) -> Result<u64, EncodeError> {
        custom_len(NAME, &self.functions)
    }
}

impl Section for BranchHints {
    ghost number = { λ _. 0 };

    fn id(&self) -> u8 {
        0
    }
}
