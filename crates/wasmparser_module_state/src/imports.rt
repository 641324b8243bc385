//! Imported items (Core Specification 3.0, Validation, "Imports").

ghost use Rattle.std.specs.Prelude.{◌≡◌, ◌+◌, ◌++◌, ◌∷◌, [], ◌≤◌, ◌<◌, IfErr, IfOk};
ghost use Rattle.wasm_spec.specs.Types as spec;
ghost use Rattle.wasm_validity.specs.DefinedTypes.{func_type_at};
ghost use Rattle.wasmparser_error.specs.declared.error.ErrorKind.TheVariants as kinds;
ghost use Rattle.wasm_core_types.specs.declared.limits.Limit.TheVariants as limits;
ghost use Rattle.wasmparser_readers.specs.ItemTypes.{memory_type};
ghost use Rattle.wasmparser_module_state.specs.Items.{AddsItem, IsSizeUpTo, IsTypeSize};
ghost use Rattle.wasmparser_module_state.specs.State.{context, features_of, global, item, table, unnamed};
ghost use Rattle.wasmparser_types.specs.CompositeTypes.{func_type};

use crate::module_state::{ModuleState, refusal};
use wasm_core_types::limits::{
    Limit, MAX_WASM_MEMORIES, MAX_WASM_TABLES, MAX_WASM_TAGS, MAX_WASM_TYPE_SIZE,
};
use wasmparser_error::error::{Error, ErrorKind};
use wasmparser_readers::global_type::GlobalType;
use wasmparser_readers::memory_type::MemoryType;
use wasmparser_readers::table_type::TableType;
use wasmparser_readers::type_ref::TypeRef;
use wasmparser_types::composite_type::FuncType;
use wasmparser_types::val_type::ValType;

// A size that no type within the limit on sizes has.
const LARGE: u64 = MAX_WASM_TYPE_SIZE + 1;

// Returns the size of a function type, or one that is too large.
#[tactic(auto, using(crate::proofs::Sizes::size_steps))]
fn size_of(ty: &FuncType) -> u64
    ensures { IsSizeUpTo (func_type ty.now) result }
{
    let params = ty.params().len() as u64;
    let results = ty.results().len() as u64;
    if params >= LARGE || results >= LARGE {
        return LARGE;
    }
    2 + (params + results)
}

impl ModuleState {
    // Returns the size of the types of all imports and exports, with one of this size more.
    pub(crate) fn grown_size(&self, size: u64, offset: u64) -> Result<u32, Error>
        ensures grown { IfOk result (λ grown. (grown ≡ (context self.now).type_size + size) × (grown ≤ 999999)) }
        ensures large { IfErr result (λ e. (e ≡ record { offset = offset; kind = kinds.Limit limits.TypeSize }) × (999999 < (context self.now).type_size + size)) }
    {
        let size_before = u64::from(self.type_size);
        if size > MAX_WASM_TYPE_SIZE || size_before + size > MAX_WASM_TYPE_SIZE {
            return Err(refusal(offset, ErrorKind::Limit(Limit::TypeSize)));
        }
        Ok((size_before + size) as u32)
    }

    fn import_table(&mut self, ty: &TableType, offset: u64) -> Result<(), Error>
        ensures added { AddsItem (features_of self.old) (unnamed self.old) (spec.TableExternal (table ty.now)) offset result (unnamed self.new) }
        ensures names { self.new.imported ≡ self.old.imported }
        ensures types { self.new.types ≡ self.old.types }
    {
        if !self.keeps_table(ty) {
            return Err(refusal(offset, ErrorKind::Invalid));
        }
        if self.tables.len() as u64 >= MAX_WASM_TABLES {
            return Err(refusal(offset, ErrorKind::Limit(Limit::Tables)));
        }
        let type_size = self.grown_size(1, offset)?;
        self.tables.push(*ty)?;
        self.type_size = type_size;
        Ok(())
    }

    fn import_memory(&mut self, ty: MemoryType, offset: u64) -> Result<(), Error>
        ensures added { AddsItem (features_of self.old) (unnamed self.old) (spec.MemoryExternal (memory_type ty)) offset result (unnamed self.new) }
        ensures names { self.new.imported ≡ self.old.imported }
        ensures types { self.new.types ≡ self.old.types }
    {
        if !self.keeps_memory(ty) {
            return Err(refusal(offset, ErrorKind::Invalid));
        }
        if self.memories.len() as u64 >= MAX_WASM_MEMORIES {
            return Err(refusal(offset, ErrorKind::Limit(Limit::Memories)));
        }
        let type_size = self.grown_size(1, offset)?;
        self.memories.push(ty)?;
        self.type_size = type_size;
        Ok(())
    }

    fn import_global(&mut self, ty: &GlobalType, offset: u64) -> Result<(), Error>
        ensures added { AddsItem (features_of self.old) (unnamed self.old) (spec.GlobalExternal (global ty.now)) offset result (unnamed self.new) }
        ensures names { self.new.imported ≡ self.old.imported }
        ensures types { self.new.types ≡ self.old.types }
    {
        if !self.keeps_imported_global(ty) {
            return Err(refusal(offset, ErrorKind::Invalid));
        }
        if self.has_all_globals() {
            return Err(refusal(offset, ErrorKind::Limit(Limit::Globals)));
        }
        let type_size = self.grown_size(1, offset)?;
        self.push_imported_global(ty.content_type, ty.mutable)?;
        self.type_size = type_size;
        Ok(())
    }

    fn push_imported_global(&mut self, content_type: ValType, mutable: bool) -> Result<(), Error>
        ensures pushed { IfOk result (λ _. unnamed self.new ≡ record (unnamed self.old) { imported_globals = (unnamed self.old).imported_globals ++ global (record { content_type = content_type; mutable = mutable }) ∷ [] }) }
        ensures refused { IfErr result (λ e. (e ≡ record { offset = 0; kind = kinds.Memory }) × (unnamed self.new ≡ unnamed self.old)) }
        ensures names { self.new.imported ≡ self.old.imported }
        ensures types { self.new.types ≡ self.old.types }
    {
        self.imported_globals.push(GlobalType {
            content_type,
            mutable,
        })?;
        Ok(())
    }

    // Returns the size of the function type of an index, or one that is too large; `None` where the index names no function type.
    #[tactic(auto, using(crate::proofs::Sizes::type_steps))]
    pub(crate) fn size_of_type(&self, index: u32) -> Option<u64>
        ensures { IsTypeSize (func_type_at (context self.now).types index) result }
    {
        match self.types.func_type(index) {
            None => None,
            Some(ty) => Some(size_of(ty)),
        }
    }

    #[tactic(auto, using(crate::proofs::Sizes::sum_steps))]
    fn import_function(&mut self, index: u32, offset: u64) -> Result<(), Error>
        ensures added { AddsItem (features_of self.old) (unnamed self.old) (spec.FuncExternal index) offset result (unnamed self.new) }
        ensures names { self.new.imported ≡ self.old.imported }
        ensures types { self.new.types ≡ self.old.types }
    {
        let Some(size) = self.size_of_type(index) else {
            return Err(refusal(offset, ErrorKind::Invalid));
        };
        if self.has_all_functions() {
            return Err(refusal(offset, ErrorKind::Limit(Limit::Functions)));
        }
        let type_size = self.grown_size(size, offset)?;
        self.imported_functions.push(index)?;
        self.type_size = type_size;
        Ok(())
    }

    #[tactic(auto, using(crate::proofs::Sizes::sum_steps))]
    fn import_tag(&mut self, index: u32, offset: u64) -> Result<(), Error>
        ensures added { AddsItem (features_of self.old) (unnamed self.old) (spec.TagExternal index) offset result (unnamed self.new) }
        ensures names { self.new.imported ≡ self.old.imported }
        ensures types { self.new.types ≡ self.old.types }
    {
        let size = match self.size_of_type(index) {
            Some(size) if self.is_tag_type(index) => size,
            _ => return Err(refusal(offset, ErrorKind::Invalid)),
        };
        if self.tags.len() as u64 >= MAX_WASM_TAGS {
            return Err(refusal(offset, ErrorKind::Limit(Limit::Tags)));
        }
        let type_size = self.grown_size(size, offset)?;
        self.tags.push(index)?;
        self.type_size = type_size;
        Ok(())
    }

    /// Judges an imported item and adds it, without its names.
    ///
    /// # Errors
    /// At the offset: `Invalid` where it breaks a rule, `Limit` where its space, or the size of all types, passes that limit. `Memory`, at an open place, where memory
    /// runs out. Nothing is added then.
    pub fn import_item(&mut self, ty: &TypeRef, offset: u64) -> Result<(), Error>
        ensures added { AddsItem (features_of self.old) (unnamed self.old) (item ty.now) offset result (unnamed self.new) }
        ensures names { self.new.imported ≡ self.old.imported }
        ensures types { self.new.types ≡ self.old.types }
    {
        match ty {
            TypeRef::Func(index) => self.import_function(*index, offset),
            TypeRef::Table(ty) => self.import_table(ty, offset),
            TypeRef::Memory(ty) => self.import_memory(*ty, offset),
            TypeRef::Global(ty) => self.import_global(ty, offset),
            TypeRef::Tag(ty) => self.import_tag(ty.func_type_idx, offset),
        }
    }
}
