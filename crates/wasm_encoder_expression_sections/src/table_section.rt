//! The table section (Core Specification, Binary Format, Modules, "Table Section").

ghost use Rattle.std.specs.Prelude.{◌≡◌, ◌↔◌, ◌+◌, ◌≤◌, ◌^◌, [], ◌∷◌, ◌++◌, length, Some, None, Err, IfOk, IfErr, IsTrue};
ghost use Rattle.wasm_core_write.specs.Encoding.{TellsItem};
ghost use Rattle.wasm_encoder_expression_sections.specs.ItemEncodings.{table_encoding};
ghost use Rattle.wasm_encoder_sections.specs.CoreItems.{table_type};
ghost use Rattle.wasm_spec.specs.Shortest.{list_encoding, framed_encoding};

use std::alloc::Global;
use std::marker::Model;
use wasm_core_write::encode::{Encode, Section};
use wasm_core_write::encode_error::EncodeError;
use wasm_core_write::encoding::{Encoding, add_sizes, encode_framed, framed_len, put_bytes};
use wasm_encoder_bodies::const_expr::ConstExpr;
use wasm_encoder_sections::entity_type::TableType;
use wasm_encoder_sections::kept_list::KeptList;

// A table that is kept. Contracts see its encoding.
#[derive(Debug, Drop)]
struct KeptTable {
    ty: TableType,
    init: Option<ConstExpr>,
}

impl Model for KeptTable {
    ghost use Rattle.std.specs.Prelude.{List, ℕ};
    ghost use Rattle.wasm_encoder_expression_sections.specs.ItemEncodings.{table_encoding};
    ghost use Rattle.wasm_encoder_sections.specs.CoreItems.{table_type};

    ghost Value = { List ℕ };

    ghost view = { λ t. table_encoding (table_type t.ty) t.init };
}

// What stands before a table that has an initialiser.
const INITIALISED: [u8; 2] = [0x40, 0x00];

impl Encoding for KeptTable {
    ghost encoding = { λ item. item };

    #[tactic(auto, using(wasm_spec::proofs::ListEncodings::parts), unfolding(crate::specs::ItemEncodings::table_encoding, wasm_encoder_sections::specs::CoreItems::table_type_bytes))]
    fn size(&self) -> Result<u64, EncodeError> {
        let size = self.ty.size()?;
        match &self.init {
            None => Ok(size),
            Some(init) => add_sizes(add_sizes(2, size)?, init.size()?),
        }
    }

    #[tactic(auto, using(wasm_spec::proofs::ListEncodings::parts), unfolding(crate::specs::ItemEncodings::table_encoding, wasm_encoder_sections::specs::CoreItems::table_type_bytes))]
    fn put(&self, sink: &mut Vec<u8>) {
        match &self.init {
            None => self.ty.put(sink),
            Some(init) => {
                put_bytes(&INITIALISED, sink);
                self.ty.put(sink);
                init.put(sink);
            }
        }
    }
}

/// The module's own tables. Contracts see the list of their encodings.
///
/// ```
/// let funcref = RefType { nullable: true, heap_type: HeapType::Abstract(AbstractHeapType::Func) };
/// let ty = TableType { element_type: funcref, table64: false, minimum: 1, maximum: None };
/// let mut tables = TableSection::new(alloc);
/// tables.table(ty)?.table_with_init(ty, &ConstExpr::ref_func(alloc, 0)?)?;
/// module.push(&tables)?;
/// ```
#[derive(Debug, Drop)]
pub struct TableSection {
    tables: KeptList<KeptTable>,
}

impl Model for TableSection {
    ghost use Rattle.std.specs.Prelude.{ℕ, List};

    ghost Value = { List (List ℕ) };

    ghost view = { λ s. s.tables };
}

impl TableSection {
    ghost use Rattle.std.specs.Borrow.{sem, LendsIfOk};
    ghost use Rattle.wasm_encoder_expression_sections.specs.contracts.table_section.TableSection.{the_row};

    /// Creates a section without tables.
    pub fn new(alloc: Global) -> TableSection
        ensures { result ≡ [] }
    {
        TableSection {
            tables: KeptList::new(alloc),
        }
    }

    /// Returns the number of tables.
    pub fn len(&self) -> u32
        ensures { result ≡ length self.now }
    {
        self.tables.len()
    }

    /// Checks that there are no tables.
    pub fn is_empty(&self) -> bool
        ensures { IsTrue result ↔ (self.now ≡ []) }
    {
        self.tables.is_empty()
    }

    /// Adds a table without an initialiser: what `table` does.
    ///
    /// # Errors
    /// `TooLong` exactly where there are 4,294,967,295 tables, and else `Memory`.
    pub fn push(&mut self, ty: TableType) -> Result<(), EncodeError>
        ensures added { IfOk result (λ _. self.new ≡ self.old ++ table_encoding (table_type ty) None ∷ []) }
        ensures kept { IfErr result (λ _. self.new ≡ self.old) }
        ensures too_long { (result ≡ Err EncodeError.TooLong) ↔ (2 ^ 32 ≤ length self.old + 1) }
    {
        self.tables.push(KeptTable { ty, init: None })
    }

    /// Adds a table without an initialiser.
    ///
    /// # Errors
    /// Those of [`TableSection::push`]. The section is then as it was.
    pub fn table(&mut self, ty: TableType) -> Result<&mut TableSection, EncodeError>
        ensures* refused { sem 𝓛 (LendsIfOk the_row the_row self.entry result (λ w. w) self.old) }
        ensures same_reference { IfOk result (λ s. s.ghost_name ≡ self.entry.ghost_name) }
        ensures added { IfOk result (λ s. s.now ≡ self.old ++ table_encoding (table_type ty) None ∷ []) }
        ensures too_long { (result ≡ Err EncodeError.TooLong) ↔ (2 ^ 32 ≤ length self.old + 1) }
    {
        match self.push(ty) {
            Ok(()) => Ok(self),
            Err(error) => Err(error),
        }
    }

    /// Adds a table whose elements are what this expression gives at first: what `table_with_init` does. The expression is copied.
    ///
    /// # Errors
    /// Those of [`TableSection::push`].
    pub fn push_with_init(&mut self, ty: TableType, init: &ConstExpr) -> Result<(), EncodeError>
        ensures added { IfOk result (λ _. self.new ≡ self.old ++ table_encoding (table_type ty) (Some init.now) ∷ []) }
        ensures kept { IfErr result (λ _. self.new ≡ self.old) }
        ensures too_long { (result ≡ Err EncodeError.TooLong) ↔ (2 ^ 32 ≤ length self.old + 1) }
    {
        self.tables.check_room()?;
        let init = Some(init.clone()?);
        self.tables.push(KeptTable { ty, init })
    }

    /// Adds a table whose elements are what this expression gives at first. The expression is copied.
    ///
    /// # Errors
    /// Those of [`TableSection::push`]. The section is then as it was.
    pub fn table_with_init(
        &mut self,
        ty: TableType,
        init: &ConstExpr,
    ) -> Result<&mut TableSection, EncodeError>
        ensures* refused { sem 𝓛 (LendsIfOk the_row the_row self.entry result (λ w. w) self.old) }
        ensures same_reference { IfOk result (λ s. s.ghost_name ≡ self.entry.ghost_name) }
        ensures added { IfOk result (λ s. s.now ≡ self.old ++ table_encoding (table_type ty) (Some init.now) ∷ []) }
        ensures too_long { (result ≡ Err EncodeError.TooLong) ↔ (2 ^ 32 ≤ length self.old + 1) }
    {
        match self.push_with_init(ty, init) {
            Ok(()) => Ok(self),
            Err(error) => Err(error),
        }
    }

    /// Returns the number of bytes of the item of the accepted adding call of this number, counted from 0. It takes no
    /// memory. Where [`Encode::encode`] answers `TooLong`, the number says nothing.
    pub fn item_len(&self, i: u32) -> Option<u64>
        ensures { TellsItem (λ item. item) self.now i result }
    {
        self.tables.item_len(i)
    }
}

impl Encode for TableSection {
    ghost encoding = { λ s. framed_encoding (list_encoding (λ item. item) s) };

    ghost longest = { λ s. length (list_encoding (λ item. item) s) };

    fn encode(&self, sink: &mut Vec<u8>) -> Result<(), EncodeError> {
        encode_framed(&self.tables, sink)
    }

    fn encoded_len(&self) -> Result<u64, EncodeError> {
        framed_len(&self.tables)
    }
}

impl Section for TableSection {
    ghost number = { λ _. 4 };

    fn id(&self) -> u8 {
        4
    }
}
