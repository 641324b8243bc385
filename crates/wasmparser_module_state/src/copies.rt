//! Copies of what bodies ask a module's state.

ghost use Rattle.std.specs.Prelude.{◌≡◌, IfOk, [], false};
ghost use Rattle.wasmparser_module_state.specs.State.{context};
ghost use Rattle.wasmparser_module_state.specs.StateResources.{state_resources};

use crate::module_state::ModuleState;
use std::alloc::AllocError;

impl ModuleState {
    // Takes over all but the types, the imports by their names and the exports.
    fn copy_items(&mut self, other: &ModuleState) -> Result<(), AllocError>
        ensures items { IfOk result (λ _. context self.new ≡ record (context other.now) { types = (context self.old).types; groups = (context self.old).groups; imported = (context self.old).imported; exports = (context self.old).exports }) }
        ensures types { self.new.types ≡ self.old.types }
    {
        let alloc = *other.tags.allocator();
        self.imported_functions = Vec::from_slice(alloc, &other.imported_functions)?;
        self.own_functions = Vec::from_slice(alloc, &other.own_functions)?;
        self.tables = Vec::from_slice(alloc, &other.tables)?;
        self.memories = Vec::from_slice(alloc, &other.memories)?;
        self.tags = Vec::from_slice(alloc, &other.tags)?;
        self.imported_globals = Vec::from_slice(alloc, &other.imported_globals)?;
        self.own_globals = Vec::from_slice(alloc, &other.own_globals)?;
        self.elements = other.elements.copy(alloc)?;
        self.declared = other.declared.copy(alloc)?;
        self.imports = other.imports;
        self.stated_data_count = other.stated_data_count;
        self.segments = other.segments;
        self.type_size = other.type_size;
        Ok(())
    }

    /// Returns a copy for bodies to ask, with a copy of the list of types that shares the types and doesn't grow. It knows neither imports nor exports by their names.
    ///
    /// # Errors
    /// Where memory runs out.
    pub fn copy_resources(&mut self) -> Result<ModuleState, AllocError>
        ensures resources { IfOk result (λ copy. state_resources copy ≡ state_resources self.old) }
        ensures copied { IfOk result (λ copy. context copy ≡ record (context self.old) { imported = []; exports = [] }) }
        ensures types { IfOk result (λ copy. copy.types ≡ record self.old.types { grows = false }) }
        ensures same { self.new ≡ self.old }
    {
        let types = self.types.copy()?;
        let mut copy = ModuleState::with_types(*self.tags.allocator(), types);
        match copy.copy_items(self) {
            Ok(()) => Ok(copy),
            Err(error) => {
                drop(copy);
                Err(error)
            }
        }
    }
}
