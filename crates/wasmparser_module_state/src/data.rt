//! Data segments (Core Specification 3.0, Validation, "Data Segments").

ghost use Rattle.std.specs.Prelude.{◌≡◌, refl, IfOk, if◌then◌else◌, slice_get, false};
ghost use Rattle.wasm_spec.specs.TypeReferences.{val_map};
ghost use Rattle.wasm_spec.specs.Types as spec;
ghost use Rattle.wasm_validity.specs.Context.{named_in, named_in_data, with_functions};
ghost use Rattle.wasm_validity.specs.Entries.{OfData};
ghost use Rattle.wasm_validity.specs.Rules.{FitsMemory, KeepsData};
ghost use Rattle.wasmparser_constants.specs.Steps.{Judges};
ghost use Rattle.wasmparser_entries.specs.ConstExprs.{expression_of};
ghost use Rattle.wasmparser_entries.specs.Entries.{data_mode, data_segment};
ghost use Rattle.wasmparser_module_state.specs.Initialisers.{BeginsAddress, BeginsPlaced};
ghost use Rattle.wasmparser_payloads.specs.EntryReading.{data_entry_at};
ghost use Rattle.wasmparser_module_state.specs.State.{AreThere, HasRoom, context, features_of};
ghost use Rattle.wasmparser_types.specs.Index.{number_of};
ghost use Rattle.wasmparser_types.specs.ValTypes.{val_type};

use crate::entry::Entry;
use crate::module_state::{ModuleState, refusal};
use wasm_core_types::limits::{Limit, MAX_WASM_DATA_SEGMENTS};
use wasmparser_entries::const_expr::ConstExpr;
use wasmparser_entries::data::{Data, DataKind};
use wasmparser_error::error::{Error, ErrorKind};
use wasmparser_types::val_type::ValType;

/// Returns the type of indexes of a table, or of addresses of a memory.
pub(crate) fn index_type(is_64: bool) -> ValType
    ensures is { val_type result ≡ (if is_64 then spec.I64 else spec.I32) }
    ensures meant { val_map number_of (val_type result) ≡ (if is_64 then spec.I64 else spec.I32) }
{
    if is_64 { ValType::I64 } else { ValType::I32 }
}

impl ModuleState {
    // Checks that there is this memory, and that an expression gives an address of it.
    fn check_address(
        &mut self,
        memory: u32,
        address: &ConstExpr<'_>,
        offset: u64,
    ) -> Result<(), Error>
        ensures judged { Judges offset (FitsMemory (features_of self.old) (context self.old) (expression_of address.now.rest) (slice_get (context self.old).memories memory)) (BeginsAddress (features_of self.old) (context self.old) (expression_of address.now.rest) (slice_get (context self.old).memories memory)) result }
        ensures begins { IfOk result (λ _. BeginsAddress (features_of self.old) (context self.old) (expression_of address.now.rest) (slice_get (context self.old).memories memory)) }
        ensures named { IfOk result (λ _. AreThere (context self.old) (named_in (expression_of address.now.rest))) }
        ensures same { context self.new ≡ context self.old }
        ensures declared { self.new.declared ≡ self.old.declared }
        ensures types { self.new.types ≡ self.old.types }
    {
        let Some(memory) = self.memory_at(memory) else {
            return Err(refusal(offset, ErrorKind::Invalid));
        };
        self.check_initialiser(address, &index_type(memory.memory64), offset)
    }

    // Checks when a segment is used: passive segments came with bulk memory.
    fn check_data_kind(&mut self, kind: &DataKind<'_>, offset: u64) -> Result<(), Error>
        ensures judged { Judges offset (KeepsData (features_of self.old) (context self.old) (data_mode kind.now)) (BeginsPlaced (features_of self.old) (context self.old) (data_mode kind.now)) result }
        ensures begins { IfOk result (λ _. BeginsPlaced (features_of self.old) (context self.old) (data_mode kind.now)) }
        ensures named { IfOk result (λ _. AreThere (context self.old) (named_in_data (data_mode kind.now))) }
        ensures same { context self.new ≡ context self.old }
        ensures declared { self.new.declared ≡ self.old.declared }
        ensures types { self.new.types ≡ self.old.types }
    {
        match kind {
            DataKind::Passive if self.features().bulk_memory() => Ok(()),
            DataKind::Passive => Err(refusal(offset, ErrorKind::Invalid)),
            DataKind::Active {
                memory_index,
                offset_expr,
            } => self.check_address(memory_index.unwrap_or(0), offset_expr, offset),
        }
    }

    // Declares the functions that a segment's address names.
    fn declare_address(&mut self, kind: &DataKind<'_>)
        requires room { HasRoom self.old }
        requires named { AreThere (context self.old) (named_in_data (data_mode kind.now)) }
        ensures declared { context self.new ≡ record (context self.old) { declared = with_functions (context self.old).declared (named_in_data (data_mode kind.now)) } }
        ensures types { self.new.types ≡ self.old.types }
    {
        match kind {
            DataKind::Passive => (),
            DataKind::Active { offset_expr, .. } => self.declare_named(offset_expr),
        }
    }
}

impl<'a> Entry for Data<'a> {
    ghost entry = { λ x. OfData (data_segment x) };

    ghost entry_at = { data_entry_at };

    ghost adds_types = { false };

    ghost is_made = { record { made = λ x. OfData x; is = λ x. refl; reads = λ _ bytes. refl; breaks = λ _ _ _ _ large _. large } };

    fn add(self, state: &mut ModuleState, offset: u64) -> Result<(), Error> {
        if u64::from(state.segments) >= MAX_WASM_DATA_SEGMENTS {
            return Err(refusal(offset, ErrorKind::Limit(Limit::DataSegments)));
        }
        state.check_data_kind(&self.kind, offset)?;
        state.make_room()?;
        state.declare_address(&self.kind);
        state.segments += 1;
        Ok(())
    }
}
