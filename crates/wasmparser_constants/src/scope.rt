//! The part of a module that constant expressions see.

ghost use Rattle.std.specs.Prelude.{◌≡◌, ◌++◌, slice_get};

use wasmparser_module_types::module_types::ModuleTypes;
use wasmparser_readers::global_type::GlobalType;

/// The items of a module that a constant expression may use, and the place at which it is refused where it is wrong.
#[derive(Clone, Copy)]
pub struct Scope<'a> {
    /// The module's types.
    pub types: &'a ModuleTypes,
    /// The type index of each imported function.
    pub imported_functions: &'a [u32],
    /// The type index of each function of the module's own.
    pub own_functions: &'a [u32],
    /// The types of imported globals.
    pub imported_globals: &'a [GlobalType],
    /// The types of the module's own globals.
    pub own_globals: &'a [GlobalType],
    /// The place of refusals.
    pub offset: u64,
}

/// Returns the item of a space with an index, if there is one: imported items stand before the module's own.
#[tactic(auto, using(crate::proofs::Spaces::space_steps))]
pub fn item_at<T: Copy>(imported: &[T], own: &[T], index: usize) -> Option<T>
    ensures { result ≡ slice_get (imported.now ++ own.now) index }
{
    if index < imported.len() {
        imported.get(index).copied()
    } else {
        own.get(index - imported.len()).copied()
    }
}
