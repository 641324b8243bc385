//! Sections of many items.

use crate::encode::tell;
use std::alloc::Global;
use std::rt::Clock;
use wasm_encoder::code_section::CodeSection;
use wasm_encoder::const_expr::ConstExpr;
use wasm_encoder::data_section::DataSection;
use wasm_encoder::element_section::ElementSection;
use wasm_encoder::element_segment::Elements;
use wasm_encoder::encode::Encode;
use wasm_encoder::entity_type::{
    EntityType, ExportKind, GlobalType, MemoryType, TableType, TagKind, TagType,
};
use wasm_encoder::export_section::ExportSection;
use wasm_encoder::function_section::FunctionSection;
use wasm_encoder::global_section::GlobalSection;
use wasm_encoder::import_section::ImportSection;
use wasm_encoder::memory_section::MemorySection;
use wasm_encoder::table_section::TableSection;
use wasm_encoder::tag_section::TagSection;
use wasm_encoder::type_section::TypeSection;
use wasm_encoder::types::{AbstractHeapType, FuncType, HeapType, RefType, ValType};

/// Times a section of this kind, of so many items.
pub(crate) fn time<R: Print + Clock + AllocGlobal>(
    rt: &R,
    kind: &str,
    count: u32,
    times: u32,
) -> Option<()> {
    match kind {
        "types" => time_filled::<R, TypeSection>(rt, count, times),
        "imports" => time_filled::<R, ImportSection>(rt, count, times),
        "functions" => time_filled::<R, FunctionSection>(rt, count, times),
        "tables" => time_filled::<R, TableSection>(rt, count, times),
        "memories" => time_filled::<R, MemorySection>(rt, count, times),
        "tags" => time_filled::<R, TagSection>(rt, count, times),
        "globals" => time_filled::<R, GlobalSection>(rt, count, times),
        "exports" => time_filled::<R, ExportSection>(rt, count, times),
        "elements" => time_filled::<R, ElementSection>(rt, count, times),
        "bodies" => time_filled::<R, CodeSection>(rt, count, times),
        "data" => time_filled::<R, DataSection>(rt, count, times),
        _ => None,
    }
}

// A section that is filled with equal items.
trait Filled: Encode {
    fn empty(alloc: Global) -> Self;

    // Adds so many items.
    fn fill(&mut self, alloc: Global, count: u32) -> Option<()>;
}

// (Once for all kinds, since who owns a section proves how it is let go of.)
fn time_filled<R: Print + Clock + AllocGlobal, S: Filled + Drop>(
    rt: &R,
    count: u32,
    times: u32,
) -> Option<()> {
    let mut section = S::empty(rt.alloc());
    section.fill(rt.alloc(), count)?;
    tell(rt, &section, times)
}

impl Filled for TypeSection {
    fn empty(alloc: Global) -> TypeSection {
        TypeSection::new(alloc)
    }

    fn fill(&mut self, alloc: Global, count: u32) -> Option<()> {
        for _ in 0..count {
            let params = vec![in alloc; ValType::I32, ValType::I64, ValType::I32, ValType::F32];
            let results = vec![in alloc; ValType::F64];
            self.func(FuncType::new(params.ok()?, results.ok()?)).ok()?;
        }
        Some(())
    }
}

impl Filled for ImportSection {
    fn empty(alloc: Global) -> ImportSection {
        ImportSection::new(alloc)
    }

    fn fill(&mut self, _alloc: Global, count: u32) -> Option<()> {
        for _ in 0..count {
            self.import("env", "names", EntityType::Function(5)).ok()?;
        }
        Some(())
    }
}

impl Filled for FunctionSection {
    fn empty(alloc: Global) -> FunctionSection {
        FunctionSection::new(alloc)
    }

    fn fill(&mut self, _alloc: Global, count: u32) -> Option<()> {
        for _ in 0..count {
            self.function(5).ok()?;
        }
        Some(())
    }
}

impl Filled for TableSection {
    fn empty(alloc: Global) -> TableSection {
        TableSection::new(alloc)
    }

    fn fill(&mut self, _alloc: Global, count: u32) -> Option<()> {
        for _ in 0..count {
            let ty = TableType {
                element_type: RefType {
                    nullable: true,
                    heap_type: HeapType::Abstract(AbstractHeapType::Func),
                },
                table64: false,
                minimum: 1,
                maximum: Some(2),
            };
            self.table(ty).ok()?;
        }
        Some(())
    }
}

impl Filled for MemorySection {
    fn empty(alloc: Global) -> MemorySection {
        MemorySection::new(alloc)
    }

    fn fill(&mut self, _alloc: Global, count: u32) -> Option<()> {
        for _ in 0..count {
            let ty = MemoryType {
                minimum: 1,
                maximum: Some(2),
                memory64: false,
                shared: false,
                page_size_log2: None,
            };
            self.memory(ty).ok()?;
        }
        Some(())
    }
}

impl Filled for TagSection {
    fn empty(alloc: Global) -> TagSection {
        TagSection::new(alloc)
    }

    fn fill(&mut self, _alloc: Global, count: u32) -> Option<()> {
        for _ in 0..count {
            let ty = TagType {
                kind: TagKind::Exception,
                func_type_idx: 5,
            };
            self.tag(ty).ok()?;
        }
        Some(())
    }
}

impl Filled for GlobalSection {
    fn empty(alloc: Global) -> GlobalSection {
        GlobalSection::new(alloc)
    }

    fn fill(&mut self, alloc: Global, count: u32) -> Option<()> {
        let init = ConstExpr::i32_const(alloc, 42).ok()?;
        for _ in 0..count {
            let ty = GlobalType {
                val_type: ValType::I32,
                mutable: false,
            };
            self.global(ty, &init).ok()?;
        }
        Some(())
    }
}

impl Filled for ExportSection {
    fn empty(alloc: Global) -> ExportSection {
        ExportSection::new(alloc)
    }

    fn fill(&mut self, _alloc: Global, count: u32) -> Option<()> {
        for _ in 0..count {
            self.export("names", ExportKind::Func, 5).ok()?;
        }
        Some(())
    }
}

impl Filled for ElementSection {
    fn empty(alloc: Global) -> ElementSection {
        ElementSection::new(alloc)
    }

    fn fill(&mut self, alloc: Global, count: u32) -> Option<()> {
        let offset = ConstExpr::i32_const(alloc, 0).ok()?;
        for _ in 0..count {
            self.active(None, &offset, Elements::Functions(&[1; 16]))
                .ok()?;
        }
        Some(())
    }
}

impl Filled for CodeSection {
    fn empty(alloc: Global) -> CodeSection {
        CodeSection::new(alloc)
    }

    // Bodies of 1 KiB each.
    fn fill(&mut self, _alloc: Global, count: u32) -> Option<()> {
        for _ in 0..count {
            self.raw(&[1; 1024]).ok()?;
        }
        Some(())
    }
}

impl Filled for DataSection {
    fn empty(alloc: Global) -> DataSection {
        DataSection::new(alloc)
    }

    fn fill(&mut self, alloc: Global, count: u32) -> Option<()> {
        let offset = ConstExpr::i32_const(alloc, 0).ok()?;
        for _ in 0..count {
            self.active(0, &offset, &[1; 16]).ok()?;
        }
        Some(())
    }
}
