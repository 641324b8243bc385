//! The global section (Core Specification, Binary Format, Modules, "Global Section").

ghost use Rattle.std.specs.Prelude.{◌≡◌, ◌↔◌, ◌+◌, ◌≤◌, ◌^◌, [], ◌∷◌, ◌++◌, length, Err, IfOk, IfErr, IsTrue};
ghost use Rattle.wasm_core_write.specs.Encoding.{TellsItem};
ghost use Rattle.wasm_encoder_expression_sections.specs.ItemEncodings.{global_encoding};
ghost use Rattle.wasm_encoder_sections.specs.CoreItems.{global_type};
ghost use Rattle.wasm_spec.specs.Shortest.{list_encoding, framed_encoding};

use crate::kept_bytes::RawBytes;
use std::alloc::Global;
use std::marker::Model;
use wasm_core_write::encode::{Encode, Section};
use wasm_core_write::encode_error::EncodeError;
use wasm_core_write::encoding::{Encoding, add_sizes, encode_framed, framed_len};
use wasm_encoder_bodies::const_expr::ConstExpr;
use wasm_encoder_sections::entity_type::GlobalType;
use wasm_encoder_sections::kept_list::KeptList;

// A global, or the bytes of one.
#[derive(Debug, Drop)]
enum Item {
    Global { ty: GlobalType, init: ConstExpr },
    Raw(RawBytes),
}

// What is kept of a global. Contracts see its encoding.
#[derive(Debug, Drop)]
struct KeptGlobal(Item);

impl Model for KeptGlobal {
    ghost use Rattle.std.specs.Prelude.{List, ℕ};
    ghost use Rattle.wasm_encoder_expression_sections.specs.CoreItems.{global_bytes};

    ghost Value = { List ℕ };

    ghost view = { λ g. global_bytes g.0 };
}

impl Encoding for KeptGlobal {
    ghost encoding = { λ item. item };

    #[tactic(auto, using(wasm_spec::proofs::ListEncodings::parts), unfolding(crate::specs::ItemEncodings::global_encoding, wasm_encoder_sections::specs::CoreItems::global_type_bytes))]
    fn size(&self) -> Result<u64, EncodeError> {
        match &self.0 {
            Item::Global { ty, init } => add_sizes(ty.size()?, init.size()?),
            Item::Raw(bytes) => bytes.size(),
        }
    }

    #[tactic(auto, using(wasm_spec::proofs::ListEncodings::parts), unfolding(crate::specs::ItemEncodings::global_encoding, wasm_encoder_sections::specs::CoreItems::global_type_bytes))]
    fn put(&self, sink: &mut Vec<u8>) {
        match &self.0 {
            Item::Global { ty, init } => {
                ty.put(sink);
                init.put(sink);
            }
            Item::Raw(bytes) => bytes.put(sink),
        }
    }
}

/// The module's own globals. Contracts see the list of their encodings.
///
/// ```
/// let ty = GlobalType { val_type: ValType::I32, mutable: true };
/// let mut globals = GlobalSection::new(alloc);
/// globals.global(ty, &ConstExpr::i32_const(alloc, 42)?)?;
/// module.push(&globals)?;
/// ```
#[derive(Debug, Drop)]
pub struct GlobalSection {
    alloc: Global,
    globals: KeptList<KeptGlobal>,
}

impl Model for GlobalSection {
    ghost use Rattle.std.specs.Prelude.{ℕ, List};

    ghost Value = { List (List ℕ) };

    ghost view = { λ s. s.globals };
}

impl GlobalSection {
    ghost use Rattle.std.specs.Borrow.{sem, LendsIfOk};
    ghost use Rattle.wasm_encoder_expression_sections.specs.contracts.global_section.GlobalSection.{the_row};

    /// Creates a section without globals.
    pub fn new(alloc: Global) -> GlobalSection
        ensures { result ≡ [] }
    {
        GlobalSection {
            alloc,
            globals: KeptList::new(alloc),
        }
    }

    /// Returns the number of globals.
    pub fn len(&self) -> u32
        ensures { result ≡ length self.now }
    {
        self.globals.len()
    }

    /// Checks that there are no globals.
    pub fn is_empty(&self) -> bool
        ensures { IsTrue result ↔ (self.now ≡ []) }
    {
        self.globals.is_empty()
    }

    /// Adds a global and what it holds at first: what `global` does. The expression is copied.
    ///
    /// # Errors
    /// `TooLong` exactly where there are 4,294,967,295 globals, and else `Memory`.
    pub fn push(&mut self, ty: GlobalType, init: &ConstExpr) -> Result<(), EncodeError>
        ensures added { IfOk result (λ _. self.new ≡ self.old ++ global_encoding (global_type ty) init.now ∷ []) }
        ensures kept { IfErr result (λ _. self.new ≡ self.old) }
        ensures too_long { (result ≡ Err EncodeError.TooLong) ↔ (2 ^ 32 ≤ length self.old + 1) }
    {
        self.globals.check_room()?;
        let init = init.clone()?;
        self.globals.push(KeptGlobal(Item::Global { ty, init }))
    }

    /// Adds a global and what it holds at first. The expression is copied.
    ///
    /// # Errors
    /// Those of [`GlobalSection::push`]. The section is then as it was.
    pub fn global(
        &mut self,
        ty: GlobalType,
        init: &ConstExpr,
    ) -> Result<&mut GlobalSection, EncodeError>
        ensures* refused { sem 𝓛 (LendsIfOk the_row the_row self.entry result (λ w. w) self.old) }
        ensures same_reference { IfOk result (λ s. s.ghost_name ≡ self.entry.ghost_name) }
        ensures added { IfOk result (λ s. s.now ≡ self.old ++ global_encoding (global_type ty) init.now ∷ []) }
        ensures too_long { (result ≡ Err EncodeError.TooLong) ↔ (2 ^ 32 ≤ length self.old + 1) }
    {
        match self.push(ty, init) {
            Ok(()) => Ok(self),
            Err(error) => Err(error),
        }
    }

    /// Adds a global as its bytes, which are not looked at: what `raw` does. They are copied.
    ///
    /// # Errors
    /// Those of [`GlobalSection::push`].
    pub fn push_raw(&mut self, bytes: &[u8]) -> Result<(), EncodeError>
        ensures added { IfOk result (λ _. self.new ≡ self.old ++ bytes.now ∷ []) }
        ensures kept { IfErr result (λ _. self.new ≡ self.old) }
        ensures too_long { (result ≡ Err EncodeError.TooLong) ↔ (2 ^ 32 ≤ length self.old + 1) }
    {
        self.globals.check_room()?;
        let bytes = RawBytes::new(self.alloc, bytes)?;
        self.globals.push(KeptGlobal(Item::Raw(bytes)))
    }

    /// Adds a global as its bytes, which are not looked at. They are copied.
    ///
    /// # Errors
    /// Those of [`GlobalSection::push`]. The section is then as it was.
    pub fn raw(&mut self, bytes: &[u8]) -> Result<&mut GlobalSection, EncodeError>
        ensures* refused { sem 𝓛 (LendsIfOk the_row the_row self.entry result (λ w. w) self.old) }
        ensures same_reference { IfOk result (λ s. s.ghost_name ≡ self.entry.ghost_name) }
        ensures added { IfOk result (λ s. s.now ≡ self.old ++ bytes.now ∷ []) }
        ensures too_long { (result ≡ Err EncodeError.TooLong) ↔ (2 ^ 32 ≤ length self.old + 1) }
    {
        match self.push_raw(bytes) {
            Ok(()) => Ok(self),
            Err(error) => Err(error),
        }
    }

    /// Returns the number of bytes of the item of the accepted adding call of this number, counted from 0. It takes no
    /// memory. Where [`Encode::encode`] answers `TooLong`, the number says nothing.
    pub fn item_len(&self, i: u32) -> Option<u64>
        ensures { TellsItem (λ item. item) self.now i result }
    {
        self.globals.item_len(i)
    }
}

impl Encode for GlobalSection {
    ghost encoding = { λ s. framed_encoding (list_encoding (λ item. item) s) };

    ghost longest = { λ s. length (list_encoding (λ item. item) s) };

    fn encode(&self, sink: &mut Vec<u8>) -> Result<(), EncodeError> {
        encode_framed(&self.globals, sink)
    }

    fn encoded_len(&self) -> Result<u64, EncodeError> {
        framed_len(&self.globals)
    }
}

impl Section for GlobalSection {
    ghost number = { λ _. 6 };

    fn id(&self) -> u8 {
        6
    }
}
