//! Lists of types that operands are tested against.

ghost use Rattle.std.specs.Prelude.{◌≡◌, ℕ, ◌<◌, List, Some, length, map, replicate, slice_get};
ghost use Rattle.wasm_bodies.specs.BodyContext.{unpacked};
ghost use Rattle.wasm_spec.specs.Types as spec;
ghost use Rattle.wasmparser_types.specs.Index.{Index};
ghost use Rattle.wasmparser_types.specs.ValTypes.{field_type, val_type};

use wasmparser_types::val_type::{FieldType, ValType};

// A list of types.
pub(crate) trait TypeList {
    ghost types: { Self → List (spec.ValType Index) };

    fn count(&self) -> usize
        ensures { result ≡ length (types self.now) };

    fn type_at(&self, index: usize) -> ValType
        requires { index < length (types self.now) }
        ensures { Some (val_type result) ≡ slice_get (types self.now) index };
}

// Types that stand one after the other.
#[derive(Drop)]
pub(crate) struct Types<'a>(pub(crate) &'a [ValType]);

// The types of fields, as operands.
#[derive(Drop)]
pub(crate) struct Fields<'a>(pub(crate) &'a [FieldType]);

// One type, repeated so many times.
#[derive(Drop)]
pub(crate) struct Copies {
    pub(crate) count: u32,
    pub(crate) value_type: ValType,
}

impl<'a> TypeList for Types<'a> {
    ghost types = { λ t. map val_type t.0.now };

    fn count(&self) -> usize {
        self.0.len()
    }

    fn type_at(&self, index: usize) -> ValType {
        self.0[index]
    }
}

impl<'a> TypeList for Fields<'a> {
    ghost types = { λ t. map unpacked (map field_type t.0.now) };

    fn count(&self) -> usize {
        self.0.len()
    }

    fn type_at(&self, index: usize) -> ValType {
        self.0[index].element_type.unpack()
    }
}

impl TypeList for Copies {
    ghost types = { λ t. replicate t.count (val_type t.value_type) };

    fn count(&self) -> usize {
        self.count as usize
    }

    fn type_at(&self, _index: usize) -> ValType {
        self.value_type
    }
}
