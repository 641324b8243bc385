//! Modules that the encoder makes, byte for byte.

use std::alloc::Global;
use std::borrow::{CowSlice, CowStr};
use std::test::Fail;
use wasm_encoder::code_section::CodeSection;
use wasm_encoder::const_expr::ConstExpr;
use wasm_encoder::custom_section::CustomSection;
use wasm_encoder::data_count_section::DataCountSection;
use wasm_encoder::data_section::DataSection;
use wasm_encoder::element_section::ElementSection;
use wasm_encoder::element_segment::Elements;
use wasm_encoder::encode_error::EncodeError;
use wasm_encoder::entity_type::{
    EntityType, ExportKind, GlobalType, MemoryType, TableType, TagKind, TagType,
};
use wasm_encoder::export_section::ExportSection;
use wasm_encoder::function::Function;
use wasm_encoder::function_section::FunctionSection;
use wasm_encoder::global_section::GlobalSection;
use wasm_encoder::import_section::ImportSection;
use wasm_encoder::instruction::Instruction;
use wasm_encoder::memory_section::MemorySection;
use wasm_encoder::module::Module;
use wasm_encoder::start_section::StartSection;
use wasm_encoder::table_section::TableSection;
use wasm_encoder::tag_section::TagSection;
use wasm_encoder::type_section::TypeSection;
use wasm_encoder::types::{AbstractHeapType, FuncType, HeapType, RefType, ValType};
use wasm_gen_rows::modules::module_of;
use wasm_test_rows::fields::two_fields;
use wasm_test_rows::rows::check_rows;

const FUNCREF: RefType = RefType {
    nullable: true,
    heap_type: HeapType::Abstract(AbstractHeapType::Func),
};

const fn memory(minimum: u64, maximum: Option<u64>) -> MemoryType {
    MemoryType {
        minimum,
        maximum,
        memory64: false,
        shared: false,
        page_size_log2: None,
    }
}

fn push_bare_type(alloc: Global, module: &mut Module) -> Result<(), EncodeError> {
    let mut types = TypeSection::new(alloc);
    types.func(FuncType::new(Vec::new(alloc), Vec::new(alloc)))?;
    module.push(&types)
}

fn push_import(alloc: Global, module: &mut Module) -> Result<(), EncodeError> {
    let mut imports = ImportSection::new(alloc);
    imports.import("m", "f", EntityType::Function(0))?;
    module.push(&imports)
}

fn push_memory(alloc: Global, module: &mut Module, ty: MemoryType) -> Result<(), EncodeError> {
    let mut memories = MemorySection::new(alloc);
    memories.memory(ty)?;
    module.push(&memories)
}

fn push_export(alloc: Global, module: &mut Module) -> Result<(), EncodeError> {
    let mut exports = ExportSection::new(alloc);
    exports.export("f", ExportKind::Func, 0)?;
    module.push(&exports)
}

fn push_greeting(alloc: Global, module: &mut Module) -> Result<(), EncodeError> {
    let offset = ConstExpr::i32_const(alloc, 0)?;
    let mut segments = DataSection::new(alloc);
    segments.active(0, &offset, b"hi")?;
    module.push(&segments)
}

// Adds an imported function that is exported and starts the module, and a segment of a memory.
fn push_greeted(alloc: Global, module: &mut Module) -> Result<(), EncodeError> {
    push_bare_type(alloc, module)?;
    push_import(alloc, module)?;
    push_memory(alloc, module, memory(1, None))?;
    push_export(alloc, module)?;
    module.push(&StartSection { function_index: 0 })?;
    module.push(&DataCountSection { count: 1 })?;
    push_greeting(alloc, module)?;
    module.push(&CustomSection {
        name: CowStr::Borrowed("c"),
        data: CowSlice::Borrowed(&[0x07]),
    })
}

// Returns the module of these sections. (What owns a module has it alive at one exit alone, since each is to be proved.)
fn greeting(alloc: Global) -> Result<Vec<u8>, EncodeError> {
    let mut module = Module::new(alloc)?;
    push_greeted(alloc, &mut module)?;
    Ok(module.finish())
}

fn func_type(
    alloc: Global,
    params: &[ValType],
    results: &[ValType],
) -> Result<FuncType, EncodeError> {
    let params = params.to_vec(alloc)?;
    Ok(FuncType::new(params, results.to_vec(alloc)?))
}

fn push_types(alloc: Global, module: &mut Module) -> Result<(), EncodeError> {
    let mut types = TypeSection::new(alloc);
    types.func(func_type(alloc, &[ValType::I32, ValType::I64], &[ValType::I32])?)?;
    types.func(func_type(alloc, &[ValType::I64, ValType::I32], &[])?)?;
    module.push(&types)
}

fn push_functions(alloc: Global, module: &mut Module) -> Result<(), EncodeError> {
    let mut functions = FunctionSection::new(alloc);
    functions.function(0)?;
    module.push(&functions)
}

fn push_table(alloc: Global, module: &mut Module) -> Result<(), EncodeError> {
    let mut tables = TableSection::new(alloc);
    tables.table(TableType {
        element_type: FUNCREF,
        table64: false,
        minimum: 10,
        maximum: None,
    })?;
    module.push(&tables)
}

fn push_tag(alloc: Global, module: &mut Module) -> Result<(), EncodeError> {
    let mut tags = TagSection::new(alloc);
    tags.tag(TagType {
        kind: TagKind::Exception,
        func_type_idx: 1,
    })?;
    module.push(&tags)
}

fn push_global(alloc: Global, module: &mut Module) -> Result<(), EncodeError> {
    let init = ConstExpr::i32_const(alloc, 0)?;
    let mut globals = GlobalSection::new(alloc);
    let ty = GlobalType {
        val_type: ValType::I32,
        mutable: true,
    };
    globals.global(ty, &init)?;
    module.push(&globals)
}

fn push_elements(alloc: Global, module: &mut Module) -> Result<(), EncodeError> {
    let mut expressions = Vec::new(alloc);
    expressions.push(ConstExpr::ref_func(alloc, 0)?)?;
    let mut elements = ElementSection::new(alloc);
    elements.passive(Elements::Expressions(FUNCREF, &expressions))?;
    module.push(&elements)
}

fn push_body(alloc: Global, module: &mut Module) -> Result<(), EncodeError> {
    let mut body = Function::new(alloc, [])?;
    body.push(&Instruction::I32Const(0))?;
    body.push(&Instruction::End)?;
    let mut code = CodeSection::new(alloc);
    code.function(&body)?;
    module.push(&code)
}

// Adds an item of each space.
fn push_each(alloc: Global, module: &mut Module) -> Result<(), EncodeError> {
    push_types(alloc, module)?;
    push_functions(alloc, module)?;
    push_table(alloc, module)?;
    push_memory(alloc, module, memory(1, Some(5)))?;
    push_tag(alloc, module)?;
    push_global(alloc, module)?;
    push_elements(alloc, module)?;
    push_body(alloc, module)
}

// Returns a module with an item of each space.
fn each_space(alloc: Global) -> Result<Vec<u8>, EncodeError> {
    let mut module = Module::new(alloc)?;
    push_each(alloc, &mut module)?;
    Ok(module.finish())
}

// Returns a body that traps.
fn trap(alloc: Global) -> Result<Function, EncodeError> {
    let mut body = Function::new(alloc, [])?;
    body.push(&Instruction::Unreachable)?;
    body.push(&Instruction::End)?;
    Ok(body)
}

// Adds a code section of this body, or of its bytes.
fn push_code(
    alloc: Global,
    module: &mut Module,
    body: Function,
    is_raw: bool,
) -> Result<(), EncodeError> {
    let mut code = CodeSection::new(alloc);
    if is_raw {
        code.raw(&body.into_raw_body())?;
    } else {
        code.function(&body)?;
    }
    module.push(&code)
}

fn push_function(alloc: Global, module: &mut Module, is_raw: bool) -> Result<(), EncodeError> {
    push_bare_type(alloc, module)?;
    push_functions(alloc, module)?;
    push_code(alloc, module, trap(alloc)?, is_raw)
}

// Returns a module of one function.
fn one_function(alloc: Global, is_raw: bool) -> Result<Vec<u8>, EncodeError> {
    let mut module = Module::new(alloc)?;
    push_function(alloc, &mut module, is_raw)?;
    Ok(module.finish())
}

/// Modules, and the sections that they are written as.
pub const WRITTEN: &str = "
    greeting     | types 02 07 01 01 6d 01 66 00 00 05 03 01 00 01 07 05 01 01 66 00 00 08 01 00 0c 01 01 0b 08 01 00 41 00 0b 02 68 69 00 03 01 63 07
    each space   | 01 0c 02 60 02 7f 7e 01 7f 60 02 7e 7f 00 functions 04 04 01 70 00 0a 05 04 01 01 01 05 0d 03 01 00 01 06 06 01 7f 01 41 00 0b 09 07 01 05 70 01 d2 00 0b 0a 06 01 04 00 41 00 0b
    function     | types functions code
    raw function | types functions code
";

/// Returns the module of a name.
pub fn made(alloc: Global, name: &str) -> Result<Vec<u8>, EncodeError> {
    match name {
        "greeting" => greeting(alloc),
        "each space" => each_space(alloc),
        _ => one_function(alloc, name == "raw function"),
    }
}

fn is_written(alloc: Global, row: &str) -> Option<bool> {
    let (name, sections) = two_fields(row)?;
    let bytes = module_of(alloc, sections)?;
    match made(alloc, name) {
        Ok(found) => Some(found.as_slice() == bytes.as_slice()),
        Err(_) => None,
    }
}

#[test]
fn worked_modules(rt: HostRuntime) -> Result<(), Fail> {
    Ok(check_rows(rt.alloc(), WRITTEN, 4, is_written)?)
}
