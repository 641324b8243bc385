//! Tables of a module's own (Core Specification 3.0, Validation, "Tables").

ghost use Rattle.std.specs.Prelude.{◌≡◌, refl, true, IfOk, option_map, slice_get, false};
ghost use Rattle.wasm_validity.specs.Context.{named_if, with_functions};
ghost use Rattle.wasm_validity.specs.Entries.{OfTable};
ghost use Rattle.wasm_validity.specs.Rules.{keeps_table};
ghost use Rattle.wasmparser_constants.specs.Steps.{Judges};
ghost use Rattle.wasmparser_entries.specs.Entries.{initialiser, packed_table, table_of};
ghost use Rattle.wasmparser_payloads.specs.EntryReading.{table_entry_at};
ghost use Rattle.wasmparser_module_state.specs.Initialisers.{BeginsFilled, IsFilled};
ghost use Rattle.wasmparser_module_state.specs.LargeIndexes.{large_table};
ghost use Rattle.wasmparser_module_state.specs.State.{AreThere, HasRoom, context, features_of, table};

use crate::entry::Entry;
use crate::module_state::{ModuleState, refusal};
use wasm_core_types::limits::{Limit, MAX_WASM_TABLES};
use wasmparser_entries::table::{Table, TableInit};
use wasmparser_error::error::{Error, ErrorKind};
use wasmparser_readers::table_type::TableType;
use wasmparser_types::val_type::ValType;

impl ModuleState {
    /// Returns the type of the table with this index, if there is one.
    #[tactic(auto, using(crate::proofs::SegmentLaws::space_steps))]
    pub fn table_at(&self, index: u32) -> Option<TableType>
        ensures { option_map table result ≡ slice_get (context self.now).tables index }
    {
        self.tables.get(index as usize).copied()
    }

    // Judges what the elements of a table begin as.
    fn check_elements(&mut self, item: &Table<'_>, offset: u64) -> Result<(), Error>
        requires keeps { keeps_table (features_of self.old) (context self.old) (table item.now.ty) ≡ true }
        ensures judged { Judges offset (IsFilled (features_of self.old) (context self.old) (table_of (packed_table item.now))) (BeginsFilled (features_of self.old) (context self.old) (initialiser item.now.init)) result }
        ensures begins { IfOk result (λ _. BeginsFilled (features_of self.old) (context self.old) (initialiser item.now.init)) }
        ensures named { IfOk result (λ _. AreThere (context self.old) (named_if (initialiser item.now.init))) }
        ensures same { context self.new ≡ context self.old }
        ensures declared { self.new.declared ≡ self.old.declared }
        ensures types { self.new.types ≡ self.old.types }
    {
        let element_type = item.ty.element_type;
        match &item.init {
            TableInit::RefNull if element_type.is_nullable() => Ok(()),
            TableInit::Expr(expression) if self.features().function_references() => {
                self.check_table_initialiser(expression, &ValType::Ref(element_type), offset)
            }
            _ => Err(refusal(offset, ErrorKind::Invalid)),
        }
    }

    // Declares the functions that an initialiser names.
    fn declare_elements(&mut self, init: &TableInit<'_>)
        requires room { HasRoom self.old }
        requires named { AreThere (context self.old) (named_if (initialiser init.now)) }
        ensures declared { context self.new ≡ record (context self.old) { declared = with_functions (context self.old).declared (named_if (initialiser init.now)) } }
        ensures types { self.new.types ≡ self.old.types }
    {
        match init {
            TableInit::RefNull => (),
            TableInit::Expr(expression) => self.declare_named(expression),
        }
    }
}

impl<'a> Entry for Table<'a> {
    ghost entry = { λ x. OfTable (table_of (packed_table x)) };

    ghost entry_at = { table_entry_at };

    ghost adds_types = { false };

    ghost is_made = { record { made = λ x. OfTable x; is = λ x. refl; reads = λ _ bytes. refl; breaks = large_table } };

    fn add(self, state: &mut ModuleState, offset: u64) -> Result<(), Error> {
        if !state.keeps_table(&self.ty) {
            return Err(refusal(offset, ErrorKind::Invalid));
        }
        if state.tables.len() as u64 >= MAX_WASM_TABLES {
            return Err(refusal(offset, ErrorKind::Limit(Limit::Tables)));
        }
        state.check_elements(&self, offset)?;
        state.make_room()?;
        state.tables.push(self.ty)?;
        state.declare_elements(&self.init);
        Ok(())
    }
}
