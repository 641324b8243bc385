//! Data counts (Core Specification 3.0, Binary Format, "Data Count Section").

ghost use Rattle.std.specs.Prelude.{◌≡◌, ◌≢◌, IfErr};
ghost use Rattle.wasm_validity.specs.Entries.{OfDataCount};
ghost use Rattle.wasmparser_error.specs.declared.error.ErrorKind.TheVariants as kinds;
ghost use Rattle.wasmparser_module_state.specs.History.{held};
ghost use Rattle.wasmparser_module_state.specs.Judging.{Adds};
ghost use Rattle.wasmparser_module_state.specs.State.{context, features_of};

use crate::module_state::{ModuleState, refusal};
use wasmparser_error::error::{Error, ErrorKind};

impl ModuleState {
    /// Returns the number of data segments that a data count section states, where there was one.
    pub fn stated_data_count(&self) -> Option<u32>
        ensures { result ≡ (context self.now).data_count }
    {
        self.stated_data_count
    }

    /// Judges a data count, and keeps it. That there are as many segments is a matter of the binary format.
    ///
    /// # Errors
    /// `Invalid` where bulk memory is off.
    pub fn data_count_section(&mut self, count: u32, offset: u64) -> Result<(), Error>
        ensures judged { Adds (features_of self.old) (context self.old) (held self.old) (OfDataCount count) offset result (context self.new) }
        ensures memory { IfErr result (λ e. e.kind ≢ kinds.Memory) }
        ensures types { self.new.types ≡ self.old.types }
    {
        if !self.features().bulk_memory() {
            return Err(refusal(offset, ErrorKind::Invalid));
        }
        self.stated_data_count = Some(count);
        Ok(())
    }
}
