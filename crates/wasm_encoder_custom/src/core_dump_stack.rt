//! Core dumps: the stack of a thread (Tool Conventions of WebAssembly, "Coredump").

ghost use Rattle.std.specs.Cow.{cow_str_bytes, cow_slice_items};
ghost use Rattle.std.specs.Prelude.{◌≡◌, ◌↔◌, ◌+◌, ◌≤◌, ◌^◌, [], ◌∷◌, ◌++◌, codes, length, map, Err, IfOk, IfErr};
ghost use Rattle.wasm_core_write.specs.Encoding.{TellsItem};
ghost use Rattle.wasm_encoder_custom.specs.CoreDumpStacks.{dumped_frame_encoding, dumped_stack_encoding};
ghost use Rattle.wasm_encoder_custom.specs.CustomSections.{custom_content};
ghost use Rattle.wasm_encoder_custom.specs.KeptStacks.{dumped_value, dumped_value_bytes, dumped_frame_bytes, dumped_stack_bytes};
ghost use Rattle.wasm_spec.specs.Shortest.{framed_encoding};

use crate::core_dump::{DumpedName, ENTRY};
use crate::custom_section::CustomSection;
use crate::framing::{custom_len, encode_custom, written};
use std::alloc::Global;
use std::borrow::{CowSlice, CowStr};
use std::marker::Model;
use wasm_core_write::encode::{Encode, Section};
use wasm_core_write::encode_error::EncodeError;
use wasm_core_write::encoding::{Encoding, add_sizes, list_size, put_list};
use wasm_core_write::leb128::{len_s64, len_u64, put_s64, put_u64};
use wasm_encoder_instructions::ieee::{Ieee32, Ieee64};
use wasm_encoder_sections::kept_list::KeptList;

/// The value of a local or of an operand.
#[derive(Clone, Copy, Debug)]
pub enum CoreDumpValue {
    /// It can't be told.
    Missing,
    /// An integer of 32 bits.
    I32(i32),
    /// An integer of 64 bits.
    I64(i64),
    /// A floating-point number of 32 bits.
    F32(Ieee32),
    /// A floating-point number of 64 bits.
    F64(Ieee64),
}

const MISSING: u8 = 0x01;

const I32: u8 = 0x7f;

const I64: u8 = 0x7e;

const F32: u8 = 0x7d;

const F64: u8 = 0x7c;

impl Encoding for CoreDumpValue {
    ghost encoding = { dumped_value_bytes };

    #[tactic(auto, unfolding(crate::specs::KeptStacks::dumped_value_bytes, crate::specs::CoreDumpStacks::dumped_value_encoding))]
    fn size(&self) -> Result<u64, EncodeError> {
        match self {
            CoreDumpValue::Missing => Ok(1),
            CoreDumpValue::I32(value) => Ok(1 + len_s64(i64::from(*value)) as u64),
            CoreDumpValue::I64(value) => Ok(1 + len_s64(*value) as u64),
            CoreDumpValue::F32(value) => add_sizes(1, value.size()?),
            CoreDumpValue::F64(value) => add_sizes(1, value.size()?),
        }
    }

    #[tactic(auto, using(wasm_spec::proofs::ListEncodings::parts), unfolding(crate::specs::KeptStacks::dumped_value_bytes, crate::specs::CoreDumpStacks::dumped_value_encoding))]
    fn put(&self, sink: &mut Vec<u8>) {
        match self {
            CoreDumpValue::Missing => sink.push_reserved(MISSING),
            CoreDumpValue::I32(value) => {
                sink.push_reserved(I32);
                put_s64(sink, i64::from(*value));
            }
            CoreDumpValue::I64(value) => {
                sink.push_reserved(I64);
                put_s64(sink, *value);
            }
            CoreDumpValue::F32(value) => {
                sink.push_reserved(F32);
                value.put(sink);
            }
            CoreDumpValue::F64(value) => {
                sink.push_reserved(F64);
                value.put(sink);
            }
        }
    }
}

// A frame: where it stands in the code, and what it holds.
#[derive(Debug, Drop)]
struct KeptFrame {
    instance_index: u32,
    function_index: u32,
    code_offset: u32,
    locals: Vec<CoreDumpValue>,
    stack: Vec<CoreDumpValue>,
}

impl Encoding for KeptFrame {
    ghost encoding = { dumped_frame_bytes };

    #[tactic(auto, using(wasm_spec::proofs::ListEncodings::parts, crate::proofs::StackLists::steps), unfolding(crate::specs::KeptStacks::dumped_frame_bytes, crate::specs::CoreDumpStacks::dumped_frame_encoding))]
    fn size(&self) -> Result<u64, EncodeError> {
        let instance = len_u64(u64::from(self.instance_index)) as u64;
        let function = len_u64(u64::from(self.function_index)) as u64;
        let offset = len_u64(u64::from(self.code_offset)) as u64;
        let lists = add_sizes(list_size(&self.locals)?, list_size(&self.stack)?)?;
        add_sizes(1 + instance + function + offset, lists)
    }

    #[tactic(auto, using(wasm_spec::proofs::ListEncodings::parts, crate::proofs::StackLists::steps), unfolding(crate::specs::KeptStacks::dumped_frame_bytes, crate::specs::CoreDumpStacks::dumped_frame_encoding))]
    fn put(&self, sink: &mut Vec<u8>) {
        sink.push_reserved(ENTRY);
        put_u64(sink, u64::from(self.instance_index));
        put_u64(sink, u64::from(self.function_index));
        put_u64(sink, u64::from(self.code_offset));
        put_list(&self.locals, sink);
        put_list(&self.stack, sink);
    }
}

// The thread's name, and its frames.
#[derive(Debug, Drop)]
struct KeptStack {
    thread: DumpedName,
    frames: KeptList<KeptFrame>,
}

impl Encoding for KeptStack {
    ghost encoding = { dumped_stack_bytes };

    #[tactic(auto, using(wasm_spec::proofs::ListEncodings::parts, crate::proofs::StackLists::steps), unfolding(crate::specs::KeptStacks::dumped_stack_bytes, crate::specs::KeptDumps::dumped_name_bytes, crate::specs::CoreDumpStacks::dumped_stack_encoding))]
    fn size(&self) -> Result<u64, EncodeError> {
        add_sizes(self.thread.size()?, self.frames.size()?)
    }

    #[tactic(auto, using(wasm_spec::proofs::ListEncodings::parts, crate::proofs::StackLists::steps), unfolding(crate::specs::KeptStacks::dumped_stack_bytes, crate::specs::KeptDumps::dumped_name_bytes, crate::specs::CoreDumpStacks::dumped_stack_encoding))]
    fn put(&self, sink: &mut Vec<u8>) {
        self.thread.put(sink);
        self.frames.put(sink);
    }
}

const NAME: &str = "corestack";

/// The stack of a thread of the program that failed: its frames. Contracts see the thread's name and the list of its frames.
///
/// ```
/// let mut stack = CoreDumpStackSection::new(alloc, "main")?;
/// stack.frame(0, 12, 0x40, &[CoreDumpValue::I32(1)], &[])?;
/// module.push(&stack)?;
/// ```
#[derive(Debug, Drop)]
pub struct CoreDumpStackSection {
    alloc: Global,
    stack: KeptStack,
}

impl Model for CoreDumpStackSection {
    ghost use Rattle.wasm_encoder_custom.specs.CoreDumpStacks.{DumpedStack};
    ghost use Rattle.wasm_encoder_custom.specs.KeptStacks.{dumped_stack};

    ghost Value = { DumpedStack };

    ghost view = { λ s. dumped_stack s.stack };
}

impl CoreDumpStackSection {
    ghost use Rattle.std.specs.Borrow.{sem, LendsIfOk};
    ghost use Rattle.wasm_encoder_custom.specs.contracts.core_dump_stack.CoreDumpStackSection.{the_row};

    /// Creates the section of the thread of this name, which is copied, without frames.
    ///
    /// # Errors
    /// `Memory` alone.
    pub fn new(alloc: Global, name: &str) -> Result<CoreDumpStackSection, EncodeError>
        ensures named { IfOk result (λ s. s ≡ record { name = name.now; frames = [] }) }
        ensures memory_alone { IfErr result (λ e. e ≡ EncodeError.Memory) }
    {
        let thread = DumpedName::new(alloc, name)?;
        let frames = KeptList::new(alloc);
        Ok(CoreDumpStackSection {
            alloc,
            stack: KeptStack { thread, frames },
        })
    }

    /// Returns the number of frames.
    pub fn len(&self) -> u32
        ensures { result ≡ length self.now.frames }
    {
        self.stack.frames.len()
    }

    /// Adds a frame: what `frame` does.
    ///
    /// # Errors
    /// `TooLong` exactly where there are 4,294,967,295 frames, and else `Memory`.
    pub fn push(
        &mut self,
        instance_index: u32,
        function_index: u32,
        code_offset: u32,
        locals: &[CoreDumpValue],
        stack: &[CoreDumpValue],
    ) -> Result<(), EncodeError>
        ensures added { IfOk result (λ _. self.new ≡ record { name = self.old.name; frames = self.old.frames ++ record { instance_index = instance_index; function_index = function_index; code_offset = code_offset; locals = map dumped_value locals.now; stack = map dumped_value stack.now } ∷ [] }) }
        ensures kept { IfErr result (λ _. self.new ≡ self.old) }
        ensures too_long { (result ≡ Err EncodeError.TooLong) ↔ (2 ^ 32 ≤ length self.old.frames + 1) }
    {
        self.stack.frames.check_room()?;
        let locals = locals.to_vec(self.alloc)?;
        let stack = stack.to_vec(self.alloc)?;
        self.stack.frames.push(KeptFrame {
            instance_index,
            function_index,
            code_offset,
            locals,
            stack,
        })
    }

    /// Adds a frame: the instance and the function that it runs, where in the function's body it stands, counted in bytes, its
    /// locals and the operands on its stack.
    ///
    /// # Errors
    /// Those of [`CoreDumpStackSection::push`]. The section is then as it was.
    pub fn frame(
        &mut self,
        instance_index: u32,
        function_index: u32,
        code_offset: u32,
        locals: &[CoreDumpValue],
        stack: &[CoreDumpValue],
    ) -> Result<&mut CoreDumpStackSection, EncodeError>
        ensures* refused { sem 𝓛 (LendsIfOk the_row the_row self.entry result (λ w. w) self.old) }
        ensures same_reference { IfOk result (λ s. s.ghost_name ≡ self.entry.ghost_name) }
        ensures added { IfOk result (λ s. s.now ≡ record { name = self.old.name; frames = self.old.frames ++ record { instance_index = instance_index; function_index = function_index; code_offset = code_offset; locals = map dumped_value locals.now; stack = map dumped_value stack.now } ∷ [] }) }
        ensures too_long { (result ≡ Err EncodeError.TooLong) ↔ (2 ^ 32 ≤ length self.old.frames + 1) }
    {
        match self.push(instance_index, function_index, code_offset, locals, stack) {
            Ok(()) => Ok(self),
            Err(error) => Err(error),
        }
    }

    /// Returns a custom section of the same bytes, which it owns.
    ///
    /// # Errors
    /// `TooLong` exactly where the name and the frames are past 4,294,967,295 bytes, and else `Memory`.
    #[tactic(auto, unfolding(crate::specs::KeptStacks::dumped_stack_bytes))]
    pub fn as_custom(&self) -> Result<CustomSection<'static>, EncodeError>
        ensures named { IfOk result (λ c. cow_str_bytes c.name ≡ codes "corestack") }
        ensures holds { IfOk result (λ c. cow_slice_items c.«data» ≡ dumped_stack_encoding self.now) }
        ensures too_long { (result ≡ Err EncodeError.TooLong) ↔ (2 ^ 32 ≤ length (dumped_stack_encoding self.now)) }
    {
        let content = written(self.alloc, &self.stack)?;
        Ok(CustomSection {
            name: CowStr::Borrowed(NAME),
            data: CowSlice::Owned(content),
        })
    }

    /// Returns the number of bytes of the item of the accepted adding call of this number, counted from 0. It takes no
    /// memory. Where [`Encode::encode`] answers `TooLong`, the number says nothing.
    pub fn item_len(&self, i: u32) -> Option<u64>
        ensures { TellsItem dumped_frame_encoding self.now.frames i result }
    {
        self.stack.frames.item_len(i)
    }
}

impl Encode for CoreDumpStackSection {
    ghost encoding = { λ s. framed_encoding (custom_content (codes "corestack") (dumped_stack_encoding s)) };

    ghost longest = { λ s. length (custom_content (codes "corestack") (dumped_stack_encoding s)) };

    #[tactic(auto, unfolding(crate::specs::KeptStacks::dumped_stack_bytes))]
    fn encode(&self, sink: &mut Vec<u8>) -> Result<(), EncodeError> {
        encode_custom(NAME, &self.stack, sink)
    }

    #[tactic(auto, unfolding(crate::specs::KeptStacks::dumped_stack_bytes))]
    fn encoded_len(&self) -> Result<u64, EncodeError> {
        custom_len(NAME, &self.stack)
    }
}

impl Section for CoreDumpStackSection {
    ghost number = { λ _. 0 };

    fn id(&self) -> u8 {
        0
    }
}
