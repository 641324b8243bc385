//! Kinds of instructions, and sets of them.

ghost use Rattle.std.specs.Prelude.{◌≡◌, ◌&&◌, true, false};
ghost use Rattle.std.specs.List.{list_any};
ghost use Rattle.std.specs.Result.{result_ok};
ghost use Rattle.wasm_smith_config.specs.Instructions as table;
ghost use Rattle.wasm_smith_config.specs.declared.instruction_kinds.InstructionKind as declared;
ghost use Rattle.wasm_smith_config.specs.declared.instruction_kinds.InstructionKind.TheVariants.{NumericInt, Numeric, VectorInt, Vector, MemoryInt, Memory};

use crate::error::BadText;
use std::str::FromStr;

/// A kind of instructions. `Numeric`, `Vector` and `Memory` contain the kinds of their instructions that need no floats.
#[derive(Clone, Copy, Debug, PartialEq, Eq)]
pub enum InstructionKind {
    /// Instructions on integers.
    NumericInt,
    /// Instructions on numbers.
    Numeric,
    /// Instructions on vectors of integers.
    VectorInt,
    /// Instructions on vectors.
    Vector,
    /// Instructions on references.
    Reference,
    /// Instructions on values of any type.
    Parametric,
    /// Instructions on locals and globals.
    Variable,
    /// Instructions on tables and element segments.
    Table,
    /// Instructions on memories and data segments that load and store no floats.
    MemoryInt,
    /// Instructions on memories and data segments.
    Memory,
    /// Blocks, branches, calls and exceptions.
    Control,
    /// Instructions on structures and arrays.
    Aggregate,
}

impl InstructionKind {
    const ALL: [InstructionKind; 12] = [
        InstructionKind::NumericInt,
        InstructionKind::Numeric,
        InstructionKind::VectorInt,
        InstructionKind::Vector,
        InstructionKind::Reference,
        InstructionKind::Parametric,
        InstructionKind::Variable,
        InstructionKind::Table,
        InstructionKind::MemoryInt,
        InstructionKind::Memory,
        InstructionKind::Control,
        InstructionKind::Aggregate,
    ];

    // Returns a bit for each kind that this one contains.
    fn bits(self) -> u16
        ensures { result ≡ table.bits_of self }
    {
        match self {
            InstructionKind::NumericInt => 0x1,
            InstructionKind::Numeric => 0x3,
            InstructionKind::VectorInt => 0x4,
            InstructionKind::Vector => 0xc,
            InstructionKind::Reference => 0x10,
            InstructionKind::Parametric => 0x20,
            InstructionKind::Variable => 0x40,
            InstructionKind::Table => 0x80,
            InstructionKind::MemoryInt => 0x100,
            InstructionKind::Memory => 0x300,
            InstructionKind::Control => 0x400,
            InstructionKind::Aggregate => 0x800,
        }
    }

    // Returns true if the text is a name of this kind.
    fn is_named(self, text: &str) -> bool
        ensures { result ≡ table.is_named text.now self }
    {
        match self {
            InstructionKind::NumericInt => {
                is_name("NumericInt", text) || is_name("numeric_non_float", text)
            }
            InstructionKind::Numeric => is_name("Numeric", text),
            InstructionKind::VectorInt => {
                is_name("VectorInt", text) || is_name("vector_non_float", text)
            }
            InstructionKind::Vector => is_name("Vector", text),
            InstructionKind::Reference => is_name("Reference", text),
            InstructionKind::Parametric => is_name("Parametric", text),
            InstructionKind::Variable => is_name("Variable", text),
            InstructionKind::Table => is_name("Table", text),
            InstructionKind::MemoryInt => {
                is_name("MemoryInt", text) || is_name("memory_non_float", text)
            }
            InstructionKind::Memory => is_name("Memory", text),
            InstructionKind::Control => is_name("Control", text),
            InstructionKind::Aggregate => is_name("Aggregate", text),
        }
    }
}

// Returns true if the text is this name, whichever of its ASCII letters are capitals.
fn is_name(name: &str, text: &str) -> bool
    ensures { result ≡ table.is_name text.now name.now }
{
    name.eq_ignore_ascii_case(text)
}

/// Reads the name of a kind, whichever of its letters are capitals. A kind without floats has a second name, as `numeric_non_float`.
impl FromStr for InstructionKind {
    type Err = BadText;

    ghost from_str_gives = { λ text r. result_ok r ≡ table.kind_named text };

    fn from_str(text: &str) -> Result<InstructionKind, BadText> {
        for kind in InstructionKind::ALL {
            if kind.is_named(text) {
                return Ok(kind);
            }
        }
        Err(BadText)
    }
}

// The own bits of `Numeric`, `Vector` and `Memory`.
const FLOATS: u16 = 0x20a;

/// A set of kinds of instructions.
#[derive(Clone, Copy, Debug, PartialEq, Eq)]
pub struct InstructionKinds {
    bits: u16,
}

impl InstructionKinds {
    /// Returns the set of these kinds and of those that they contain.
    pub fn new(kinds: &[InstructionKind]) -> InstructionKinds
        ensures exact { result ≡ table.kinds_of kinds.now }
        ensures each { (kind : declared.InstructionKind) → table.has result kind ≡ list_any (λ given. table.contains_kind given kind) kinds.now }
    {
        let mut set = InstructionKinds::none();
        for kind in kinds {
            set.insert(*kind);
        }
        set
    }

    /// Returns the set of all kinds.
    pub fn all() -> InstructionKinds
        ensures exact { result ≡ table.all_kinds }
        ensures each { (kind : declared.InstructionKind) → table.has result kind ≡ true }
    {
        InstructionKinds { bits: 0xfff }
    }

    /// Returns the set of no kinds.
    pub fn none() -> InstructionKinds
        ensures exact { result ≡ table.no_kinds }
        ensures each { (kind : declared.InstructionKind) → table.has result kind ≡ false }
    {
        InstructionKinds { bits: 0 }
    }

    /// Returns true if the set has the kind.
    pub fn contains(&self, kind: InstructionKind) -> bool
        ensures exact { result ≡ table.has self.now kind }
        ensures numeric { table.has self.now Numeric ≡ true → table.has self.now NumericInt ≡ true }
        ensures vector { table.has self.now Vector ≡ true → table.has self.now VectorInt ≡ true }
        ensures memory { table.has self.now Memory ≡ true → table.has self.now MemoryInt ≡ true }
    {
        self.bits & kind.bits() == kind.bits()
    }

    /// Returns the set without floats: of `Numeric`, `Vector` and `Memory` it has at most the kinds that need none.
    pub fn without_floats(&self) -> InstructionKinds
        ensures exact { result ≡ table.without_floats self.now }
        ensures twice_is_once { table.without_floats result ≡ result }
        ensures each { (kind : declared.InstructionKind) → table.has result kind ≡ (table.is_without_floats kind && table.has self.now kind) }
    {
        InstructionKinds {
            bits: self.bits & !FLOATS,
        }
    }

    // Adds a kind and those that it contains.
    fn insert(&mut self, kind: InstructionKind)
        ensures { self.new ≡ table.with_kind self.old kind }
    {
        self.bits |= kind.bits();
    }
}

/// Reads names of kinds, parted by commas.
impl FromStr for InstructionKinds {
    type Err = BadText;

    ghost from_str_gives = { λ text r. result_ok r ≡ table.kinds_named text };

    fn from_str(text: &str) -> Result<InstructionKinds, BadText> {
        let mut kinds = InstructionKinds::none();
        for name in text.split(',') {
            kinds.insert(name.parse()?);
        }
        Ok(kinds)
    }
}
