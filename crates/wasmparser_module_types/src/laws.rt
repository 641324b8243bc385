//! Laws of types by ids.

ghost use Rattle.std.specs.Prelude.{◌≡◌, List, true};
ghost use Rattle.wasm_spec.specs.Features.{Features};
ghost use Rattle.wasm_spec.specs.Gates.{is_allowed};
ghost use Rattle.wasm_spec.specs.TypeReferences.{val_refs};
ghost use Rattle.wasm_spec.specs.Types.{ValType};
ghost use Rattle.wasmparser_module_types.specs.ModuleTypes.{CanCompare};
ghost use Rattle.wasmparser_types.specs.Index.{Index};

/// A type that a module may write can be compared with any other type, and each type with itself.
pub fn allowed_types_compare()
    ensures lower { (features : Features) (a : ValType Index) (upper : List Index) → is_allowed features a ≡ true → CanCompare features (val_refs a) upper }
    ensures upper { (features : Features) (lower : List Index) (b : ValType Index) → is_allowed features b ≡ true → CanCompare features lower (val_refs b) }
    ensures itself { (features : Features) (a : ValType Index) → CanCompare features (val_refs a) (val_refs a) }
{}
