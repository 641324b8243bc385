//! The imports of a module, as they are shown.

ghost use Rattle.std.specs.Prelude.{◌≡◌, IfOk, IsSomeAnd};
ghost use Rattle.wasmparser_validator.specs.Shown.{spaces};

use crate::types::TypesRef;
use std::alloc::AllocError;
use std::iter::Iterator;
use std::marker::Model;
use wasmparser_module_state::entity_type::EntityType;
use wasmparser_names::named_import::NamedImports;

/// The imports of a module that are still to come: the name of the module that each comes from, its own name, and what it is. Imports of the same two names
/// stand together, where the first of them stands.
#[derive(Drop)]
pub struct CoreImports<'a> {
    types: TypesRef<'a>,
    imports: NamedImports<'a>,
}

impl<'a> Model for CoreImports<'a> {
    ghost use Rattle.std.specs.List.{AllByRecursion};
    ghost use Rattle.wasm_validity_laws.specs.KnownImports.{IsThere};
    ghost use Rattle.wasmparser_module_state.specs.State.{context};
    ghost use Rattle.wasmparser_module_state.specs.contracts.module_state.ModuleState as kept;
    ghost use Rattle.wasmparser_validator.specs.ShownImports.{ImportsLeft, imports_left_code};

    ghost Value = { ImportsLeft };

    ghost coded = { imports_left_code kept.the_row.coded };

    ghost view = { λ it. record { state = it.types.types.now.state; left = it.imports } };

    ghost invariant = { λ it. AllByRecursion (IsThere (context it.types.types.now.state)) it.imports };
}

impl<'a> TypesRef<'a> {
    /// Returns the imports. Always `Some`, since there are no components. Those of the same two names are put together when this is called.
    ///
    /// # Errors
    /// Where memory runs out.
    pub fn core_imports(&self) -> Result<Option<CoreImports<'a>>, AllocError>
        ensures of { IfOk result (λ shown. IsSomeAnd shown (λ imports. imports.state ≡ self.now.types.now.state)) }
        ensures all { IfOk result (λ shown. IsSomeAnd shown (λ imports. imports.left ≡ (spaces self.now).imported)) }
    {
        Ok(Some(CoreImports {
            types: *self,
            imports: self.state().imported().grouped()?,
        }))
    }
}

impl<'a> Iterator for CoreImports<'a> {
    ghost use Rattle.std.specs.Iterator.{item_count};
    ghost use Rattle.wasmparser_validator.specs.ShownImports.{GivesImport};

    type Item = (&'a str, &'a str, EntityType);

    ghost next_gives = { λ old next new. GivesImport old next new };

    ghost remaining = { item_count (λ it. it.left) };

    fn next(&mut self) -> Option<(&'a str, &'a str, EntityType)> {
        let import = self.imports.next()?;
        let Some(ty) = self.types.entity(import.item.kind, import.item.index) else {
            unreachable!()
        };
        Some((import.module, import.name, ty))
    }
}
