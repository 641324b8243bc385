//! The text of types.

ghost use Rattle.std.specs.Prelude.{◌≡◌, ◌++◌, IfOk, codes, string_bytes};
ghost use Rattle.wasm_gen_view.specs.TypeText.{composite_text, field_text, heap_text, list_text, place_text, ref_text, reference_text, storage_text, sub_text, val_text};

use crate::put::{Put, put_list, put_optional};
use crate::types::{
    CompositeType, FieldType, FuncType, HeapType, RefType, StorageType, SubType, TypePlace,
    TypeReference, ValType,
};
use std::alloc::AllocError;

impl Put for TypePlace {
    ghost text = { place_text };

    fn put(&self, out: &mut String) -> Result<(), AllocError> {
        self.group.put(out)?;
        out.push_str(".")?;
        self.place.put(out)
    }
}

impl Put for TypeReference {
    ghost text = { reference_text };

    fn put(&self, out: &mut String) -> Result<(), AllocError> {
        match self {
            TypeReference::Own(place) => {
                out.push_str("own.")?;
                place.put(out)
            }
            TypeReference::Other(type_place) => type_place.put(out),
        }
    }
}

impl Put for HeapType {
    ghost text = { heap_text };

    fn put(&self, out: &mut String) -> Result<(), AllocError> {
        match self {
            HeapType::Func => out.push_str("func"),
            HeapType::Extern => out.push_str("extern"),
            HeapType::Any => out.push_str("any"),
            HeapType::None => out.push_str("none"),
            HeapType::NoExtern => out.push_str("noextern"),
            HeapType::NoFunc => out.push_str("nofunc"),
            HeapType::Eq => out.push_str("eq"),
            HeapType::Struct => out.push_str("struct"),
            HeapType::Array => out.push_str("array"),
            HeapType::I31 => out.push_str("i31"),
            HeapType::Exn => out.push_str("exn"),
            HeapType::NoExn => out.push_str("noexn"),
            HeapType::Cont => out.push_str("cont"),
            HeapType::NoCont => out.push_str("nocont"),
            HeapType::Defined(reference) => reference.put(out),
        }
    }
}

impl Put for RefType {
    ghost text = { ref_text };

    fn put(&self, out: &mut String) -> Result<(), AllocError> {
        out.push_str(if self.nullable { "refnull(" } else { "ref(" })?;
        self.heap_type.put(out)?;
        out.push_str(")")
    }
}

impl Put for ValType {
    ghost text = { val_text };

    fn put(&self, out: &mut String) -> Result<(), AllocError> {
        match self {
            ValType::I32 => out.push_str("i32"),
            ValType::I64 => out.push_str("i64"),
            ValType::F32 => out.push_str("f32"),
            ValType::F64 => out.push_str("f64"),
            ValType::V128 => out.push_str("v128"),
            ValType::Ref(ref_type) => ref_type.put(out),
        }
    }
}

impl Put for StorageType {
    ghost text = { storage_text };

    fn put(&self, out: &mut String) -> Result<(), AllocError> {
        match self {
            StorageType::I8 => out.push_str("i8"),
            StorageType::I16 => out.push_str("i16"),
            StorageType::Val(val_type) => val_type.put(out),
        }
    }
}

impl Put for FieldType {
    ghost text = { field_text };

    fn put(&self, out: &mut String) -> Result<(), AllocError> {
        out.push_str(if self.mutable { "var:" } else { "const:" })?;
        self.element_type.put(out)
    }
}

// Appends a function type: its parameters, then its results.
fn put_func(ty: &FuncType, out: &mut String) -> Result<(), AllocError>
    ensures { IfOk result (λ _. string_bytes out.new ≡ string_bytes out.old ++ list_text val_text ty.now.params.items ++ codes " " ++ list_text val_text ty.now.results.items) }
{
    put_list(&ty.params, out)?;
    out.push_str(" ")?;
    put_list(&ty.results, out)
}

impl Put for CompositeType {
    ghost text = { composite_text };

    fn put(&self, out: &mut String) -> Result<(), AllocError> {
        match self {
            CompositeType::Func(func_type) => {
                out.push_str("func ")?;
                put_func(func_type, out)
            }
            CompositeType::Struct(fields) => {
                out.push_str("struct ")?;
                put_list(fields, out)
            }
            CompositeType::Array(field) => {
                out.push_str("array ")?;
                field.put(out)
            }
            CompositeType::Cont(function) => {
                out.push_str("cont ")?;
                function.put(out)
            }
        }
    }
}

impl Put for SubType {
    ghost text = { sub_text };

    fn put(&self, out: &mut String) -> Result<(), AllocError> {
        out.push_str(if self.is_final { "final " } else { "open " })?;
        put_optional(&self.supertype, out)?;
        out.push_str(" ")?;
        self.composite_type.put(out)
    }
}
