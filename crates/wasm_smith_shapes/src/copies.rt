//! Copies of types.

ghost use Rattle.std.specs.Prelude.{◌≡◌, map, IfOk};
ghost use Rattle.wasm_core_types.specs.SubTypes.{composite_type, sub_type};

use std::alloc::{AllocError, Global};
use wasm_core_types::types::{CompositeType, FuncType, StructType, SubType};

// Returns a copy of a composite type.
fn copied_composite(alloc: Global, ty: &CompositeType) -> Result<CompositeType, AllocError>
    ensures { IfOk result (λ copy. composite_type copy ≡ composite_type ty.now) }
{
    Ok(match ty {
        CompositeType::Func(ty) => {
            let params = ty.params().to_vec(alloc)?;
            CompositeType::Func(FuncType::new(params, ty.results().to_vec(alloc)?))
        }
        CompositeType::Array(ty) => CompositeType::Array(*ty),
        CompositeType::Struct(ty) => {
            CompositeType::Struct(StructType::new(ty.fields().to_vec(alloc)?))
        }
        CompositeType::Cont(ty) => CompositeType::Cont(*ty),
    })
}

/// Returns a copy of a type.
///
/// # Errors
/// Where memory runs out.
pub fn copied(alloc: Global, ty: &SubType) -> Result<SubType, AllocError>
    ensures { IfOk result (λ copy. sub_type copy ≡ sub_type ty.now) }
{
    let composite_type = copied_composite(alloc, &ty.composite_type)?;
    Ok(SubType {
        is_final: ty.is_final,
        supertype_idx: ty.supertype_idx,
        composite_type,
    })
}
