//! Exports (Core Specification 3.0, Validation, "Exports").

ghost use Rattle.std.specs.Prelude.{◌≡◌, ◌++◌, ◌∷◌, [], Some, false, length, option_map, refl, IfErr, IfOk};
ghost use Rattle.wasm_core_types.specs.Features.{feature_set};
ghost use Rattle.wasm_validity.specs.Context.{item_at, size_of};
ghost use Rattle.wasm_validity.specs.Entries.{OfExport};
ghost use Rattle.wasm_validity.specs.Rules.{may_leave};
ghost use Rattle.wasmparser_names.specs.ExportNames.{is_exported};
ghost use Rattle.wasmparser_readers.specs.Exports.{export_item, external_kind};
ghost use Rattle.wasmparser_payloads.specs.EntryReading.{export_entry_at};
ghost use Rattle.wasmparser_module_state.specs.Exports.{CountsAs, IsNameRefusal};
ghost use Rattle.wasmparser_module_state.specs.State.{context, features_of, item};

use crate::entry::Entry;
use crate::item_types::may_cross;
use crate::module_state::{ModuleState, refusal};
use crate::names::check_name;
use wasm_core_types::features::WasmFeatures;
use wasm_core_types::limits::{Limit, MAX_WASM_EXPORTS};
use wasmparser_error::error::{Error, ErrorKind};
use wasmparser_names::export_names::ExportNames;
use wasmparser_readers::export::{Export, ExternalKind};
use wasmparser_readers::section_limited::SectionLimited;
use wasmparser_readers::tag_type::{TagKind, TagType};
use wasmparser_readers::type_ref::TypeRef;

impl ModuleState {
    /// Returns the exports in order.
    pub fn exports(&self) -> &ExportNames
        ensures { result.now ≡ (context self.now).exports }
    {
        &self.exports
    }

    /// Makes ready for the exports of a section, where there are none yet, so that names can hardly be chosen that collide.
    pub fn start_exports<'a>(&mut self, section: &SectionLimited<'a, Export<'a>>)
        ensures same { context self.new ≡ context self.old }
        ensures types { self.new.types ≡ self.old.types }
    {
        if self.exports.len() == 0 {
            self.exports = ExportNames::for_section(*self.tags.allocator(), section);
        }
    }

    // Returns the type of an exported item: that of the item of a kind with this index.
    #[tactic(auto, using(crate::proofs::ExportLaws::item_steps))]
    pub(crate) fn exported_type(&self, kind: ExternalKind, index: u32) -> Option<TypeRef>
        ensures { option_map item result ≡ item_at (context self.now) (external_kind kind) index }
    {
        match kind {
            ExternalKind::Func => Some(TypeRef::Func(self.type_of_function(index)?)),
            ExternalKind::Table => Some(TypeRef::Table(self.table_at(index)?)),
            ExternalKind::Memory => Some(TypeRef::Memory(self.memory_at(index)?)),
            ExternalKind::Global => Some(TypeRef::Global(self.global_at(index)?)),
            ExternalKind::Tag => Some(TypeRef::Tag(TagType {
                kind: TagKind::Exception,
                func_type_idx: self.type_of_tag(index)?,
            })),
        }
    }

    // Returns the size of an item's type, or one that is too large: for a function or a tag that of its function type, or 0 where its index names none,
    // and for any other item 1.
    #[tactic(auto, using(crate::proofs::ExportLaws::size_steps))]
    fn size_of_item(&self, ty: &TypeRef) -> u64
        ensures { CountsAs (size_of (context self.now) (item ty.now)) result }
    {
        match ty {
            TypeRef::Func(index) => self.size_of_type(*index).unwrap_or(0),
            TypeRef::Tag(ty) => self.size_of_type(ty.func_type_idx).unwrap_or(0),
            _ => 1,
        }
    }

    // Adds an export, where its name is new and it may be exported.
    fn push_export(&mut self, export: &Export<'_>, offset: u64) -> Result<(), Error>
        ensures pushed { IfOk result (λ _. (is_exported export.now.name.now (context self.old).exports ≡ false) × (context self.new ≡ record (context self.old) { exports = (context self.old).exports ++ export_item export.now ∷ [] })) }
        ensures refused { IfErr result (λ e. IsNameRefusal offset (is_exported export.now.name.now (context self.old).exports) e × (context self.new ≡ context self.old)) }
        ensures declared { self.new.declared ≡ self.old.declared }
        ensures types { self.new.types ≡ self.old.types }
    {
        if !self.exports.insert(export)? {
            return Err(refusal(offset, ErrorKind::Invalid));
        }
        Ok(())
    }
}

// Checks that what is exported may be.
fn may_leave(features: WasmFeatures, ty: &TypeRef) -> bool
    ensures { result ≡ may_leave (feature_set features) (Some (item ty.now)) }
{
    match ty {
        TypeRef::Global(ty) => may_cross(features, ty),
        _ => true,
    }
}

impl<'a> Entry for Export<'a> {
    ghost entry = { λ x. OfExport (export_item x) };

    ghost entry_at = { export_entry_at };

    ghost adds_types = { false };

    ghost is_made = { record { made = λ x. OfExport x; is = λ x. refl; reads = λ _ bytes. refl; breaks = λ _ _ _ _ large _. large } };

    #[tactic(auto, using(crate::proofs::ExportLaws::export_steps))]
    fn add(self, state: &mut ModuleState, offset: u64) -> Result<(), Error> {
        let ty = match state.exported_type(self.kind, self.index) {
            Some(ty) if may_leave(state.features(), &ty) => ty,
            _ => return Err(refusal(offset, ErrorKind::Invalid)),
        };
        check_name(self.name, offset)?;
        if state.exports.len() as u64 >= MAX_WASM_EXPORTS {
            return Err(refusal(offset, ErrorKind::Limit(Limit::Exports)));
        }
        let size = state.size_of_item(&ty);
        let type_size = state.grown_size(size, offset)?;
        state.make_room()?;
        state.push_export(&self, offset)?;
        state.type_size = type_size;
        state.declare_exported(self.kind, self.index);
        Ok(())
    }
}
