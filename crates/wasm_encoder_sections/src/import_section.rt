//! The import section (Core Specification, Binary Format, Modules, "Import Section").

ghost use Rattle.std.specs.Prelude.{◌≡◌, ◌↔◌, ◌+◌, ◌≤◌, ◌^◌, [], ◌∷◌, ◌++◌, length, Err, IfOk, IfErr, IsTrue};
ghost use Rattle.wasm_core_write.specs.Encoding.{TellsItem};
ghost use Rattle.wasm_encoder_sections.specs.CoreImports.{lent_entry};
ghost use Rattle.wasm_encoder_sections.specs.CoreItems.{entity_type};
ghost use Rattle.wasm_encoder_sections.specs.ItemEncodings.{import_encoding};
ghost use Rattle.wasm_spec.specs.Shortest.{list_encoding, framed_encoding};
ghost use Rattle.wasm_spec.specs.Syntax as spec;

use crate::entity_type::EntityType;
use crate::imports::{Import, Imports};
use crate::kept_imports::{KeptImports, kept_imports};
use crate::kept_list::KeptList;
use std::alloc::Global;
use std::marker::Model;
use wasm_core_write::encode::{Encode, Section};
use wasm_core_write::encode_error::EncodeError;
use wasm_core_write::encoding::{encode_framed, framed_len};

/// What a module imports. Contracts see the list of its entries, of which one may be several imports.
///
/// ```
/// let mut imports = ImportSection::new(alloc);
/// imports.import("env", "log", EntityType::Function(0))?;
/// module.push(&imports)?;
/// ```
#[derive(Debug, Drop)]
pub struct ImportSection {
    alloc: Global,
    entries: KeptList<KeptImports>,
}

impl Model for ImportSection {
    ghost use Rattle.std.specs.Prelude.{List, map};
    ghost use Rattle.wasm_encoder_sections.specs.CoreImports.{entry_of};
    ghost use Rattle.wasm_spec.specs.Syntax as spec;

    ghost Value = { List spec.ImportEntry };

    ghost view = { λ s. map entry_of s.entries };
}

impl ImportSection {
    ghost use Rattle.std.specs.Borrow.{sem, LendsIfOk};
    ghost use Rattle.wasm_encoder_sections.specs.contracts.import_section.ImportSection.{the_row};

    /// Creates a section without imports.
    pub fn new(alloc: Global) -> ImportSection
        ensures { result ≡ [] }
    {
        ImportSection {
            alloc,
            entries: KeptList::new(alloc),
        }
    }

    /// Returns the number of entries: of the accepted adding calls.
    pub fn len(&self) -> u32
        ensures { result ≡ length self.now }
    {
        self.entries.len()
    }

    /// Checks that there are no entries.
    #[tactic(auto, using(crate::proofs::ItemLists::nothing))]
    pub fn is_empty(&self) -> bool
        ensures { IsTrue result ↔ (self.now ≡ []) }
    {
        self.entries.is_empty()
    }

    /// Adds an entry: what the chaining calls do. Names are copied.
    ///
    /// # Errors
    /// `TooLong` exactly where there are 4,294,967,295 entries, and else `Memory`.
    pub fn push(&mut self, imports: &Imports<'_>) -> Result<(), EncodeError>
        ensures added { IfOk result (λ _. self.new ≡ self.old ++ lent_entry imports.now ∷ []) }
        ensures kept { IfErr result (λ _. self.new ≡ self.old) }
        ensures too_long { (result ≡ Err EncodeError.TooLong) ↔ (2 ^ 32 ≤ length self.old + 1) }
    {
        self.entries.check_room()?;
        let kept = kept_imports(self.alloc, imports)?;
        self.entries.push(kept)
    }

    /// Adds one import: of this name, from the module of this name.
    ///
    /// # Errors
    /// Those of [`ImportSection::push`]. The section is then as it was.
    pub fn import(
        &mut self,
        module_name: &str,
        name: &str,
        ty: EntityType,
    ) -> Result<&mut ImportSection, EncodeError>
        ensures* refused { sem 𝓛 (LendsIfOk the_row the_row self.entry result (λ w. w) self.old) }
        ensures same_reference { IfOk result (λ s. s.ghost_name ≡ self.entry.ghost_name) }
        ensures added { IfOk result (λ s. s.now ≡ self.old ++ spec.Import module_name.now name.now (entity_type ty) ∷ []) }
        ensures too_long { (result ≡ Err EncodeError.TooLong) ↔ (2 ^ 32 ≤ length self.old + 1) }
    {
        match self.push_import(module_name, name, ty) {
            Ok(()) => Ok(self),
            Err(error) => Err(error),
        }
    }

    // Does what `import` does.
    fn push_import(
        &mut self,
        module_name: &str,
        name: &str,
        ty: EntityType,
    ) -> Result<(), EncodeError>
        ensures added { IfOk result (λ _. self.new ≡ self.old ++ spec.Import module_name.now name.now (entity_type ty) ∷ []) }
        ensures kept { IfErr result (λ _. self.new ≡ self.old) }
        ensures too_long { (result ≡ Err EncodeError.TooLong) ↔ (2 ^ 32 ≤ length self.old + 1) }
    {
        self.push(&Imports::Single(Import {
            module: module_name,
            name,
            ty,
        }))
    }

    /// Adds an entry, which may be several imports.
    ///
    /// # Errors
    /// Those of [`ImportSection::push`]. The section is then as it was.
    pub fn imports(&mut self, imports: Imports<'_>) -> Result<&mut ImportSection, EncodeError>
        ensures* refused { sem 𝓛 (LendsIfOk the_row the_row self.entry result (λ w. w) self.old) }
        ensures same_reference { IfOk result (λ s. s.ghost_name ≡ self.entry.ghost_name) }
        ensures added { IfOk result (λ s. s.now ≡ self.old ++ lent_entry imports.entry ∷ []) }
        ensures too_long { (result ≡ Err EncodeError.TooLong) ↔ (2 ^ 32 ≤ length self.old + 1) }
    {
        match self.push_imports(imports) {
            Ok(()) => Ok(self),
            Err(error) => Err(error),
        }
    }

    // Does what `imports` does.
    fn push_imports(&mut self, imports: Imports<'_>) -> Result<(), EncodeError>
        ensures added { IfOk result (λ _. self.new ≡ self.old ++ lent_entry imports.entry ∷ []) }
        ensures kept { IfErr result (λ _. self.new ≡ self.old) }
        ensures too_long { (result ≡ Err EncodeError.TooLong) ↔ (2 ^ 32 ≤ length self.old + 1) }
    {
        self.push(&imports)
    }

    /// Returns the number of bytes of the entry of the accepted adding call of this number, counted from 0. It takes no
    /// memory. Where [`Encode::encode`] answers `TooLong`, the number says nothing.
    pub fn item_len(&self, i: u32) -> Option<u64>
        ensures { TellsItem import_encoding self.now i result }
    {
        self.entries.item_len(i)
    }
}

impl Encode for ImportSection {
    ghost encoding = { λ s. framed_encoding (list_encoding import_encoding s) };

    ghost longest = { λ s. length (list_encoding import_encoding s) };

    #[tactic(auto, using(crate::proofs::ImportLists::steps))]
    fn encode(&self, sink: &mut Vec<u8>) -> Result<(), EncodeError> {
        encode_framed(&self.entries, sink)
    }

    #[tactic(auto, using(crate::proofs::ImportLists::steps))]
    fn encoded_len(&self) -> Result<u64, EncodeError> {
        framed_len(&self.entries)
    }
}

impl Section for ImportSection {
    ghost number = { λ _. 2 };

    fn id(&self) -> u8 {
        2
    }
}
