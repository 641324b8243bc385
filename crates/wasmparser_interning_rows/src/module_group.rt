//! Groups that name types by their indexes in a module.

ghost use Rattle.std.specs.Prelude.{IfSome};
ghost use Rattle.wasmparser_rec_groups.specs.Interning.{NamesModuleTypes};
ghost use Rattle.wasmparser_types.specs.RecGroups as spec;

use wasmparser_types::index::PackedIndex;
use wasmparser_types::remap::RemapIndex;
use wasmparser_types::sub_type::RecGroup;

// Replaces nothing, and refuses what is no index in a module.
#[derive(Clone, Copy)]
struct ModuleIndexes;

// An index that isn't allowed.
#[derive(Clone, Copy)]
struct Beyond;

impl RemapIndex for ModuleIndexes {
    ghost use Rattle.std.specs.Prelude.{⊤};
    ghost use Rattle.wasmparser_rec_groups.specs.Interning.{IsModuleIndex};

    type Error = Beyond;

    ghost remapped = { λ _ index. index };

    ghost accepts = { λ _ index. IsModuleIndex index };

    ghost refuses = { λ _ _ _. ⊤ };

    fn remap(&self, index: PackedIndex) -> Result<PackedIndex, Beyond> {
        match index.as_module_index() {
            Some(_) => Ok(index),
            None => Err(Beyond),
        }
    }
}

/// Returns the group, if it names types by their indexes in a module alone.
pub(crate) fn module_group(mut it: RecGroup) -> Option<RecGroup>
    ensures { IfSome result (λ it. NamesModuleTypes (spec.rec_group it)) }
{
    match it.remap_indices(&ModuleIndexes) {
        Ok(()) => Some(it),
        Err(Beyond) => None,
    }
}
