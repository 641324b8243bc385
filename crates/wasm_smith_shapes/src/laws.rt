//! Laws of shapes. The functions do nothing: their contracts are theorems.

ghost use Rattle.std.specs.Prelude.{◌≡◌, ℕ, List};
ghost use Rattle.wasm_spec.specs.Features.{Features, Flag, has};
ghost use Rattle.wasm_smith_shapes.specs.Shapes.{ShapeValue};
ghost use Rattle.wasm_smith_shapes.specs.ValidShapes.{IsBadPart, IsGoodShape};
ghost use Rattle.wasm_smith_shapes.specs.declared.shape.ShapeUse.{ShapeUse};

/// A shape that is allowed under a set of features is allowed under each with the same flags, and one that is refused is refused for the same part.
pub fn alike_features()
    ensures good { (f g : Features) → ((flag : Flag) → has f flag ≡ has g flag) → (purpose : ShapeUse) (most : ℕ) (it : ShapeValue)
        → IsGoodShape f purpose most it → IsGoodShape g purpose most it }
    ensures bad { (f g : Features) → ((flag : Flag) → has f flag ≡ has g flag) → (purpose : ShapeUse) (most : ℕ) (it : ShapeValue) (part : List ℕ)
        → IsBadPart f purpose most it part → IsBadPart g purpose most it part }
{}
