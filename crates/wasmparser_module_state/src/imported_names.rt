//! The names of imports, which are kept beside the items.

ghost use Rattle.std.specs.Prelude.{◌≡◌, ◌<◌, IfErr, IfOk, length};
ghost use Rattle.wasm_spec.specs.Types.{kind_of};
ghost use Rattle.wasm_validity.specs.Context.{next_index};
ghost use Rattle.wasm_validity.specs.ImportedItems.{with_import};
ghost use Rattle.wasmparser_error.specs.declared.error.ErrorKind.TheVariants as kinds;
ghost use Rattle.wasmparser_names.specs.ImportNames.{imported, module_at};
ghost use Rattle.wasmparser_readers.specs.Exports.{external_kind};
ghost use Rattle.wasmparser_module_state.specs.Items.{cut_off};
ghost use Rattle.wasmparser_module_state.specs.State.{context, item, unnamed};

use crate::module_state::ModuleState;
use wasm_core_types::limits::MAX_WASM_IMPORTS;
use wasmparser_entries::imports::Imports;
use wasmparser_error::error::Error;
use wasmparser_names::import_names::ImportNames;
use wasmparser_names::imported_items::ImportedItem;
use wasmparser_names::name_hasher::NameHasher;
use wasmparser_readers::export::ExternalKind;
use wasmparser_readers::section_limited::SectionLimited;
use wasmparser_readers::type_ref::TypeRef;

// The least number of bytes of an entry of the section: the lengths of two names, a kind and a byte of a type.
const LEAST_LEN: usize = 4;

// Returns the kind of an imported item.
pub(crate) fn kind_of(ty: &TypeRef) -> ExternalKind
    ensures { external_kind result ≡ kind_of (item ty.now) }
{
    match ty {
        TypeRef::Func(_) => ExternalKind::Func,
        TypeRef::Table(_) => ExternalKind::Table,
        TypeRef::Memory(_) => ExternalKind::Memory,
        TypeRef::Global(_) => ExternalKind::Global,
        TypeRef::Tag(_) => ExternalKind::Tag,
    }
}

impl ModuleState {
    /// Returns the imports by their names; those of the same two names stand together.
    pub fn imported(&self) -> &ImportNames
        ensures { result.now.imports ≡ (context self.now).imported }
    {
        &self.imported
    }

    /// Makes ready for the imports of a section, with room for them if there is memory for it, so that names can hardly be chosen that collide.
    pub fn start_imports<'a>(&mut self, section: &SectionLimited<'a, Imports<'a>>)
        ensures same { context self.new ≡ context self.old }
        ensures types { self.new.types ≡ self.old.types }
    {
        let bytes = section.remaining_buffer();
        let most = (MAX_WASM_IMPORTS as usize).min(bytes.len() / LEAST_LEN);
        let count = most.min(section.count() as usize);
        self.imported.start_with(NameHasher::after(bytes), count);
    }

    // Returns the index that the next imported item of a kind has.
    pub(crate) fn next_index(&self, kind: ExternalKind) -> usize
        ensures { result ≡ next_index (unnamed self.now) (external_kind kind) }
    {
        match kind {
            ExternalKind::Func => self.imported_functions.len(),
            ExternalKind::Table => self.tables.len(),
            ExternalKind::Memory => self.memories.len(),
            ExternalKind::Global => self.imported_globals.len(),
            ExternalKind::Tag => self.tags.len(),
        }
    }

    // Takes back what was imported of a kind from this index on.
    #[tactic(auto, using(crate::proofs::NamedImports::cut_steps))]
    fn cut_off(&mut self, kind: ExternalKind, index: usize, type_size: u32)
        ensures cut { unnamed self.new ≡ cut_off (unnamed self.old) (external_kind kind) index type_size }
        ensures names { self.new.imported ≡ self.old.imported }
        ensures types { self.new.types ≡ self.old.types }
    {
        match kind {
            ExternalKind::Func => self.imported_functions.truncate(index),
            ExternalKind::Table => self.tables.truncate(index),
            ExternalKind::Memory => self.memories.truncate(index),
            ExternalKind::Global => self.imported_globals.truncate(index),
            ExternalKind::Tag => self.tags.truncate(index),
        }
        self.type_size = type_size;
    }

    // Keeps the names of the item that was imported last, from the module whose name has this number. Where they find no memory, the item goes again.
    pub(crate) fn keep_names(
        &mut self,
        origin: usize,
        name: &str,
        item: ImportedItem,
        type_size: u32,
    ) -> Result<(), Error>
        requires { origin < length self.old.imported.modules }
        ensures kept { IfOk result (λ _. (unnamed self.new ≡ unnamed self.old) × (self.new.imported ≡ record self.old.imported { imports = with_import self.old.imported.imports (imported (module_at self.old.imported.modules origin) name.now item) })) }
        ensures refused { IfErr result (λ e. (e ≡ record { offset = 0; kind = kinds.Memory }) × (self.new.imported ≡ self.old.imported)) }
        ensures gone { IfErr result (λ _. unnamed self.new ≡ cut_off (unnamed self.old) (external_kind item.kind) item.index type_size) }
        ensures types { self.new.types ≡ self.old.types }
    {
        if let Err(error) = self.imported.push(origin, name, item) {
            self.cut_off(item.kind, item.index as usize, type_size);
            return Err(error.into());
        }
        Ok(())
    }
}
