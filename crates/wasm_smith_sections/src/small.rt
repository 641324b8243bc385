//! Values of the code that bytes can state, by their types. The functions do nothing: their contracts say what the types of the code say.

ghost use Rattle.std.specs.Prelude.{◌<◌, ◌^◌};
ghost use Rattle.std.specs.List.{AllByRecursion};
ghost use Rattle.wasm_encoder_sections.specs.SmallItems.{HasBits};
ghost use Rattle.wasm_spec.specs.Bytes.{AreBytes};
ghost use Rattle.wasm_spec.specs.SmallIndexes.{IsSmallIndex};

/// A value that bytes can state.
pub trait Small {
    ghost fits: { Self → Type 0 };

    /// Does nothing.
    fn is_small(&self)
        ensures { fits self.now };
}

/// Does nothing.
pub fn are_small<T: Small>(items: &[T])
    ensures { AllByRecursion T.fits items.now }
{
    for item in items {
        item.is_small();
    }
}

/// Does nothing.
pub fn indexes_are_small(indexes: &[u32])
    ensures { AllByRecursion IsSmallIndex indexes.now }
{}

/// Does nothing.
pub fn bytes_are_small(bytes: &[u8])
    ensures { AreBytes bytes.now }
{}

/// Does nothing.
pub fn narrow_is_small(number: Option<u32>)
    ensures { HasBits 32 number }
{
    if let Some(number) = number {
        let _number = number;
    }
}

/// Does nothing.
pub fn wide_is_small(number: Option<u64>)
    ensures { HasBits 64 number }
{
    if let Some(number) = number {
        let _number = number;
    }
}
