//! A module with items of each kind.

use crate::listed_resources::ListedResources;
use crate::listed_types::ListedTypes;
use std::alloc::Global;
use wasmparser_readers::global_type::GlobalType;
use wasmparser_readers::memory_type::MemoryType;
use wasmparser_readers::table_type::TableType;
use wasmparser_type_words::types::{sub_type_of, sub_types_of};
use wasmparser_types::composite_type::{CompositeType, StructType};
use wasmparser_types::ref_type::RefType;
use wasmparser_types::sub_type::SubType;
use wasmparser_types::val_type::{FieldType, StorageType};

// Types, by id.
const TYPES: &str =
    "array mut:i64, func ->, func i32 i64 -> i32, struct i32 mut:i8 funcref, func -> i32 i64, struct func, array func, func i32 -> i32,
    open : struct i32, #8 : struct i32 i64, func #8? -> #8";

// The id of each type index. Two type indexes are of one type.
const IDS: &str = "1 2 4 3 0 5 6 7 1 8 9 10";

// The types of the elements of tables, after `mut:` where they have 64 bits.
const TABLES: &str = "struct funcref mut:externref anyref #1?";

const GLOBALS: &str = "struct i32 mut:i64 mut:funcref #8";

// The type indexes of functions, of which the first is imported.
const FUNCTIONS: [u32; 5] = [0, 1, 2, 7, 11];

// For each of these functions, `true` if it is declared.
const DECLARED: [bool; 5] = [true, false, true, false, true];

impl ListedResources {
    /// Creates a module that has types alone, which these ids stand for.
    pub fn new(alloc: Global, known: Vec<SubType>) -> ListedResources {
        ListedResources {
            types: ListedTypes {
                known,
                other: SubType {
                    is_final: true,
                    supertype_idxs: Vec::new(alloc),
                    composite_type: CompositeType::Struct(StructType {
                        fields: Vec::new(alloc),
                    }),
                },
                ids: Vec::new(alloc),
            },
            functions: Vec::new(alloc),
            tables: Vec::new(alloc),
            memories: Vec::new(alloc),
            globals: Vec::new(alloc),
            tags: Vec::new(alloc),
            elements: [RefType::FUNCREF, RefType::EXTERNREF],
            data_count: None,
            declared: Vec::new(alloc),
            imported_functions: 1,
        }
    }

    fn add_types(&mut self) -> Option<()> {
        for word in IDS.split_whitespace() {
            self.types.ids.push(word.parse().ok()?).ok()?;
        }
        Some(())
    }

    fn add_functions(&mut self) -> Option<()> {
        for index in FUNCTIONS {
            self.functions.push(index).ok()?;
        }
        for is_declared in DECLARED {
            self.declared.push(is_declared).ok()?;
        }
        self.tags.push(0).ok()?;
        self.tags.push(7).ok()
    }

    fn add_table(&mut self, field: &FieldType) -> Option<()> {
        let StorageType::Val(value_type) = &field.element_type else {
            return None;
        };
        let element_type = value_type.as_reference_type()?;
        self.tables
            .push(TableType {
                element_type,
                table64: field.mutable,
                initial: 1,
                maximum: None,
            })
            .ok()
    }

    fn add_global(&mut self, field: &FieldType) -> Option<()> {
        self.globals
            .push(GlobalType {
                content_type: field.element_type.unpack(),
                mutable: field.mutable,
            })
            .ok()
    }

    fn add_memory(&mut self, memory64: bool) -> Option<()> {
        self.memories
            .push(MemoryType {
                memory64,
                shared: false,
                initial: 1,
                maximum: None,
                page_size_log2: None,
            })
            .ok()
    }

    // Adds all but types, with data segments that are counted.
    fn add_items(&mut self, tables: &[FieldType], globals: &[FieldType]) -> Option<()> {
        self.add_types()?;
        self.add_functions()?;
        for field in tables {
            self.add_table(field)?;
        }
        for field in globals {
            self.add_global(field)?;
        }
        self.add_memory(false)?;
        self.add_memory(true)?;
        self.data_count = Some(2);
        Some(())
    }

    // Does the same for items in words.
    fn fill(&mut self, alloc: Global) -> Option<()> {
        let tables = sub_type_of(alloc, TABLES)?;
        let globals = sub_type_of(alloc, GLOBALS)?;
        let tables = tables.composite_type.as_struct()?;
        let globals = globals.composite_type.as_struct()?;
        self.add_items(&tables.fields, &globals.fields)
    }

    /// Returns a module with types of all kinds, functions of which one is imported, tables and memories of which one has 64 bits, globals of which some can be set,
    /// tags, element segments, and data segments that are counted. None where memory runs out.
    pub fn example(alloc: Global) -> Option<ListedResources> {
        let known = sub_types_of(alloc, TYPES)?;
        let mut resources = ListedResources::new(alloc, known);
        match resources.fill(alloc) {
            Some(()) => Some(resources),
            None => {
                drop(resources);
                None
            }
        }
    }
}
