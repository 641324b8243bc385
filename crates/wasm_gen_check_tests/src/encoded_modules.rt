//! Modules of sections of many kinds that the encoder makes, which a session validates.

use std::alloc::Global;
use wasm_core::features::WasmFeatures;
use wasm_encoder::code_section::CodeSection;
use wasm_encoder::const_expr::ConstExpr;
use wasm_encoder::data_count_section::DataCountSection;
use wasm_encoder::data_section::DataSection;
use wasm_encoder::element_section::ElementSection;
use wasm_encoder::element_segment::Elements;
use wasm_encoder::encode_error::EncodeError;
use wasm_encoder::entity_type::{
    EntityType, ExportKind, GlobalType, MemoryType, TableType, TagKind, TagType,
};
use wasm_encoder::export_section::ExportSection;
use wasm_encoder::function::Function;
use wasm_encoder::function_section::FunctionSection;
use wasm_encoder::global_section::GlobalSection;
use wasm_encoder::import_section::ImportSection;
use wasm_encoder::instruction::Instruction;
use wasm_encoder::memory_section::MemorySection;
use wasm_encoder::module::Module;
use wasm_encoder::name_section::NameSection;
use wasm_encoder::start_section::StartSection;
use wasm_encoder::table_section::TableSection;
use wasm_encoder::tag_section::TagSection;
use wasm_encoder::type_section::TypeSection;
use wasm_encoder::types::{AbstractHeapType, FuncType, HeapType, RefType, ValType};
use wasm_gen_rows::answers::answers_under;

fn push_types(alloc: Global, module: &mut Module) -> Result<(), EncodeError> {
    let mut types = TypeSection::new(alloc);
    types.func(FuncType::new(Vec::new(alloc), Vec::new(alloc)))?;
    module.push(&types)
}

const TABLE: TableType = TableType {
    element_type: RefType {
        nullable: true,
        heap_type: HeapType::Abstract(AbstractHeapType::Func),
    },
    table64: false,
    minimum: 1,
    maximum: Some(2),
};

const MEMORY: MemoryType = MemoryType {
    minimum: 1,
    maximum: None,
    memory64: true,
    shared: false,
    page_size_log2: None,
};

const TAG: TagType = TagType {
    kind: TagKind::Exception,
    func_type_idx: 0,
};

const GLOBAL: GlobalType = GlobalType {
    val_type: ValType::I64,
    mutable: false,
};

fn push_imports(alloc: Global, module: &mut Module) -> Result<(), EncodeError> {
    let mut imports = ImportSection::new(alloc);
    imports.import("m", "start", EntityType::Function(0))?;
    imports.import("m", "", EntityType::Global(GLOBAL))?;
    module.push(&imports)
}

fn push_functions(alloc: Global, module: &mut Module) -> Result<(), EncodeError> {
    let mut functions = FunctionSection::new(alloc);
    functions.function(0)?;
    functions.function(0)?;
    module.push(&functions)
}

fn push_tables(alloc: Global, module: &mut Module) -> Result<(), EncodeError> {
    let mut tables = TableSection::new(alloc);
    tables.table(TABLE)?;
    module.push(&tables)
}

fn push_memories(alloc: Global, module: &mut Module) -> Result<(), EncodeError> {
    let mut memories = MemorySection::new(alloc);
    memories.memory(MEMORY)?;
    module.push(&memories)
}

fn push_tags(alloc: Global, module: &mut Module) -> Result<(), EncodeError> {
    let mut tags = TagSection::new(alloc);
    tags.tag(TAG)?;
    module.push(&tags)
}

fn push_exports(alloc: Global, module: &mut Module) -> Result<(), EncodeError> {
    let mut exports = ExportSection::new(alloc);
    exports.export("function", ExportKind::Func, 0)?;
    exports.export("table", ExportKind::Table, 0)?;
    exports.export("memory", ExportKind::Memory, 0)?;
    exports.export("global", ExportKind::Global, 0)?;
    exports.export("tag", ExportKind::Tag, 0)?;
    module.push(&exports)
}

fn push_globals(alloc: Global, module: &mut Module) -> Result<(), EncodeError> {
    let mut globals = GlobalSection::new(alloc);
    globals.push(GLOBAL, &ConstExpr::global_get(alloc, 0)?)?;
    module.push(&globals)
}

fn push_elements(alloc: Global, module: &mut Module) -> Result<(), EncodeError> {
    let offset = ConstExpr::i32_const(alloc, 0)?;
    let mut elements = ElementSection::new(alloc);
    elements.push_active(None, &offset, Elements::Functions(&[0]))?;
    elements.push_declared(Elements::Functions(&[1]))?;
    module.push(&elements)
}

fn push_data(alloc: Global, module: &mut Module) -> Result<(), EncodeError> {
    let offset = ConstExpr::i64_const(alloc, 0)?;
    let mut segments = DataSection::new(alloc);
    segments.push_active(0, &offset, b"hello")?;
    segments.push_passive(b"world")?;
    module.push(&segments)
}

// Returns a body that drops a local.
fn body(alloc: Global) -> Result<Function, EncodeError> {
    let mut body = Function::new(alloc, [(1, ValType::I32)])?;
    body.push(&Instruction::LocalGet(0))?;
    body.push(&Instruction::Drop)?;
    body.push(&Instruction::End)?;
    Ok(body)
}

fn push_bodies(alloc: Global, module: &mut Module) -> Result<(), EncodeError> {
    let mut code = CodeSection::new(alloc);
    code.function(&body(alloc)?)?;
    code.raw(&[0x00, 0x00, 0x0b])?;
    module.push(&code)
}

fn push_names(alloc: Global, module: &mut Module) -> Result<(), EncodeError> {
    let mut names = NameSection::new(alloc);
    names.module("m")?;
    module.push(&names)
}

// Sections of most kinds, of which the start section has this index.
fn push_sections(alloc: Global, module: &mut Module, start: u32) -> Result<(), EncodeError> {
    push_types(alloc, module)?;
    push_imports(alloc, module)?;
    push_functions(alloc, module)?;
    push_tables(alloc, module)?;
    push_memories(alloc, module)?;
    push_tags(alloc, module)?;
    push_globals(alloc, module)?;
    push_exports(alloc, module)?;
    module.push(&StartSection {
        function_index: start,
    })?;
    push_elements(alloc, module)?;
    module.push(&DataCountSection { count: 2 })?;
    push_bodies(alloc, module)?;
    push_data(alloc, module)?;
    push_names(alloc, module)
}

// Returns a module of these sections. (What owns a module has it alive at one exit alone, since each is to be proved.)
fn module_of(alloc: Global, start: u32) -> Result<Vec<u8>, EncodeError> {
    let mut module = Module::new(alloc)?;
    push_sections(alloc, &mut module, start)?;
    Ok(module.finish())
}

fn is_answered(alloc: Global, start: u32, expected: &str) -> bool {
    match module_of(alloc, start) {
        Ok(bytes) => answers_under(alloc, WasmFeatures::default(), &bytes, expected),
        Err(_) => false,
    }
}

#[test]
fn sections_make_valid_modules(rt: HostRuntime) {
    assert!(rt; is_answered(rt.alloc(), 0, "yes"));
    assert!(rt; is_answered(rt.alloc(), 3, "Invalid"));
}
