//! Counts of modules by their parts besides the types.

use crate::lists::put;
use std::alloc::Global;
use wasm_encoder_sections::entity_type::EntityType;
use wasm_smith::constant::{Constant, Operation};
use wasm_smith::imports::ImportEntry;
use wasm_smith::items::{Global as OwnGlobal, Table};
use wasm_smith::module::Module;
use wasm_smith::segments::{DataMode, DataSegment, ElementItems, ElementMode, ElementSegment};

/// Something that a module may have.
#[derive(Clone, Copy, Debug, PartialEq, Eq)]
pub enum Part {
    /// A type.
    Type,
    /// A function of its own.
    Function,
    /// A table of its own.
    Table,
    /// A memory of its own.
    Memory,
    /// A tag of its own.
    Tag,
    /// A global of its own.
    Global,
    /// An export.
    Export,
    /// A start function.
    Start,
    /// A count of data segments.
    DataCount,
    /// An import by itself.
    Single,
    /// Imports that share the name of their module.
    OneModule,
    /// Imports that share their type, too.
    OneType,
    /// An import of a function.
    ImportedFunction,
    /// An import of a table.
    ImportedTable,
    /// An import of a memory.
    ImportedMemory,
    /// An import of a global.
    ImportedGlobal,
    /// An import of a tag.
    ImportedTag,
    /// A constant of each type of numbers and vectors.
    I32,
    I64,
    F32,
    F64,
    V128,
    /// A null reference.
    Null,
    /// A reference to a function.
    FunctionReference,
    /// A global's value.
    GlobalValue,
    /// Operations on two constants of 32 bits, and of 64 bits.
    Sum32,
    Difference32,
    Product32,
    Sum64,
    Difference64,
    Product64,
    /// Element segments of functions, by their mode.
    ActiveFunctions,
    PassiveFunctions,
    DeclaredFunctions,
    /// Element segments of constants, by their mode.
    ActiveConstants,
    PassiveConstants,
    DeclaredConstants,
    /// Data segments, by their mode.
    ActiveData,
    PassiveData,
    /// A body of raw bytes.
    RawBody,
    /// A custom section.
    CustomSection,
}

const PARTS: &[Part] = &[
    Part::Type,
    Part::Function,
    Part::Table,
    Part::Memory,
    Part::Tag,
    Part::Global,
    Part::Export,
    Part::Start,
    Part::DataCount,
    Part::Single,
    Part::OneModule,
    Part::OneType,
    Part::ImportedFunction,
    Part::ImportedTable,
    Part::ImportedMemory,
    Part::ImportedGlobal,
    Part::ImportedTag,
    Part::I32,
    Part::I64,
    Part::F32,
    Part::F64,
    Part::V128,
    Part::Null,
    Part::FunctionReference,
    Part::GlobalValue,
    Part::Sum32,
    Part::Difference32,
    Part::Product32,
    Part::Sum64,
    Part::Difference64,
    Part::Product64,
    Part::ActiveFunctions,
    Part::PassiveFunctions,
    Part::DeclaredFunctions,
    Part::ActiveConstants,
    Part::PassiveConstants,
    Part::DeclaredConstants,
    Part::ActiveData,
    Part::PassiveData,
    Part::RawBody,
    Part::CustomSection,
];

/// The number of modules that have a part.
#[derive(Clone, Copy, Debug)]
pub struct PartCount {
    /// The part.
    pub part: Part,
    /// Number of modules that have it.
    pub modules: u32,
}

/// Returns a count of no modules for each part.
pub fn no_parts(alloc: Global) -> Vec<PartCount> {
    let mut counts = Vec::new(alloc);
    for part in PARTS {
        put(
            &mut counts,
            PartCount {
                part: *part,
                modules: 0,
            },
        );
    }
    counts
}

/// Counts a module.
pub fn count_parts(counts: &mut [PartCount], module: &Module) {
    for count in counts.iter_mut() {
        if has(module, count.part) {
            count.modules = count.modules.wrapping_add(1);
        }
    }
}

/// Checks that there are counts, and each is of some module.
pub fn are_all_there(counts: &[PartCount]) -> bool {
    for count in counts {
        if count.modules == 0 {
            return false;
        }
    }
    !counts.is_empty()
}

// Checks that a module has a part.
fn has(module: &Module, part: Part) -> bool {
    match part {
        Part::Type => !module.types().is_empty(),
        Part::Function => !module.funcs().is_empty(),
        Part::Table => !module.tables().is_empty(),
        Part::Memory => !module.memories().is_empty(),
        Part::Tag => !module.tags().is_empty(),
        Part::Global => !module.globals().is_empty(),
        Part::Export => !module.exports().is_empty(),
        Part::Start => module.start().is_some(),
        Part::DataCount => module.config().bulk_memory_enabled && !module.data().is_empty(),
        Part::RawBody => has_raw_body(module),
        Part::CustomSection => !module.custom_sections().is_empty(),
        _ => {
            has_import(module.imports(), part)
                || has_segment(module, part)
                || has_constant(module, part)
        }
    }
}

fn has_raw_body(module: &Module) -> bool {
    for function in 0..module.bodies().len() {
        if module.is_raw_body(function) {
            return true;
        }
    }
    false
}

// Checks that one of the entries is of this form, or has an import of this kind.
fn has_import(entries: &[ImportEntry], part: Part) -> bool {
    for entry in entries {
        if is_entry(entry, part) {
            return true;
        }
    }
    false
}

fn is_entry(entry: &ImportEntry, part: Part) -> bool {
    match entry {
        ImportEntry::Single {
            module: _,
            name: _,
            ty,
        } => { part == Part::Single || kind_of(ty) == part }
        ImportEntry::Compact1 { module: _, items } => {
            if part == Part::OneModule {
                return true;
            }
            for item in items {
                if kind_of(&item.ty) == part {
                    return true;
                }
            }
            false
        }
        ImportEntry::Compact2 {
            module: _,
            ty,
            names: _,
        } => { part == Part::OneType || kind_of(ty) == part }
    }
}

fn kind_of(ty: &EntityType) -> Part {
    match ty {
        EntityType::Function(_) => Part::ImportedFunction,
        EntityType::Table(_) => Part::ImportedTable,
        EntityType::Memory(_) => Part::ImportedMemory,
        EntityType::Global(_) => Part::ImportedGlobal,
        EntityType::Tag(_) => Part::ImportedTag,
    }
}

// Checks that one of a module's segments is of this form.
fn has_segment(module: &Module, part: Part) -> bool {
    for segment in module.elems() {
        if form_of_elements(segment) == part {
            return true;
        }
    }
    for segment in module.data() {
        if form_of_data(segment) == part {
            return true;
        }
    }
    false
}

fn form_of_elements(segment: &ElementSegment) -> Part {
    match (&segment.mode, &segment.items) {
        (ElementMode::Active { .. }, ElementItems::Functions(_)) => Part::ActiveFunctions,
        (ElementMode::Passive, ElementItems::Functions(_)) => Part::PassiveFunctions,
        (ElementMode::Declared, ElementItems::Functions(_)) => Part::DeclaredFunctions,
        (ElementMode::Active { .. }, ElementItems::Expressions(_, _)) => Part::ActiveConstants,
        (ElementMode::Passive, ElementItems::Expressions(_, _)) => Part::PassiveConstants,
        (ElementMode::Declared, ElementItems::Expressions(_, _)) => Part::DeclaredConstants,
    }
}

fn form_of_data(segment: &DataSegment) -> Part {
    match &segment.mode {
        DataMode::Active { .. } => Part::ActiveData,
        DataMode::Passive => Part::PassiveData,
    }
}

// Checks that one of a module's constants is of this form.
fn has_constant(module: &Module, part: Part) -> bool {
    tables_have(module.tables(), part)
        || globals_have(module.globals(), part)
        || elements_have(module.elems(), part)
        || data_has(module.data(), part)
}

fn tables_have(tables: &[Table], part: Part) -> bool {
    for table in tables {
        if let Some(constant) = &table.init {
            if form_of(constant) == part {
                return true;
            }
        }
    }
    false
}

fn globals_have(globals: &[OwnGlobal], part: Part) -> bool {
    for global in globals {
        if form_of(&global.init) == part {
            return true;
        }
    }
    false
}

fn elements_have(segments: &[ElementSegment], part: Part) -> bool {
    for segment in segments {
        if segment_has(segment, part) {
            return true;
        }
    }
    false
}

fn segment_has(segment: &ElementSegment, part: Part) -> bool {
    if let ElementItems::Expressions(_, constants) = &segment.items {
        for constant in constants {
            if form_of(constant) == part {
                return true;
            }
        }
    }
    match &segment.mode {
        ElementMode::Active { table: _, offset } => form_of(offset) == part,
        _ => false,
    }
}

fn data_has(segments: &[DataSegment], part: Part) -> bool {
    for segment in segments {
        if let DataMode::Active { memory: _, offset } = &segment.mode {
            if form_of(offset) == part {
                return true;
            }
        }
    }
    false
}

fn form_of(constant: &Constant) -> Part {
    match constant {
        Constant::I32(_) => Part::I32,
        Constant::I64(_) => Part::I64,
        Constant::F32(_) => Part::F32,
        Constant::F64(_) => Part::F64,
        Constant::V128(_) => Part::V128,
        Constant::Null(_) => Part::Null,
        Constant::Function(_) => Part::FunctionReference,
        Constant::Global(_) => Part::GlobalValue,
        Constant::I32Operation(operation, _, _) => match operation {
            Operation::Add => Part::Sum32,
            Operation::Sub => Part::Difference32,
            Operation::Mul => Part::Product32,
        },
        Constant::I64Operation(operation, _, _) => match operation {
            Operation::Add => Part::Sum64,
            Operation::Sub => Part::Difference64,
            Operation::Mul => Part::Product64,
        },
    }
}
