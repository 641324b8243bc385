//! Runs of locals of one type.

ghost use Rattle.std.specs.Prelude.{◌≡◌, ◌-◌, ◌<◌, ◌≤◌, ◌^◌, ℕ, [], ◌∷◌, ◌++◌, List, map, take, length, None, Err, IfErr, IfOk, IfSome};
ghost use Rattle.wasm_core_types.specs.declared.types.ValType.{ValType};
ghost use Rattle.wasm_encoder_bodies.specs.Locals.{locals_encoding, run_of, AreRunsOf, AreWritable, FitLength, PassLength};
ghost use Rattle.wasm_encoder_bodies.specs.CoreLocals.{pair_of, run_bytes};
ghost use Rattle.wasm_core_write.specs.CoreEncodings.{val_type_encoding};

use std::alloc::Global;
use wasm_core_types::types::{HeapType, ValType};
use wasm_core_write::encode_error::EncodeError;
use wasm_core_write::encoding::Encoding;
use wasm_core_write::leb128::{len_s64, len_u64, put_u64};

// So many locals of a type.
#[derive(Debug, Drop)]
pub(crate) struct LocalRun {
    pub(crate) count: u32,
    pub(crate) ty: ValType,
}

// Returns the count of the last run, if that is of this type.
#[tactic(auto, using(crate::proofs::LastRuns::last_steps))]
fn last_count(runs: &[LocalRun], ty: &ValType) -> Option<u32>
    ensures found { IfSome result (λ n. (0 < length runs.now) × (map pair_of runs.now ≡ map pair_of (take (length runs.now - 1) runs.now) ++ (n, ty.now) ∷ [])) }
    ensures other { result ≡ None → (types : List ValType) → AreRunsOf types (map pair_of runs.now) → AreRunsOf (types ++ ty.now ∷ []) (map pair_of runs.now ++ (1, ty.now) ∷ []) }
{
    match runs.last() {
        Some(run) if run.ty == *ty => Some(run.count),
        _ => None,
    }
}

// Adds a local of this type: to the last run, if that is of it.
#[tactic(auto, using(crate::proofs::LastRuns::type_steps))]
pub(crate) fn push_type(runs: &mut Vec<LocalRun>, ty: ValType) -> Result<(), EncodeError>
    requires { AreWritable (map pair_of runs.old.items) }
    ensures added { IfOk result (λ _. (types : List ValType) → AreRunsOf types (map pair_of runs.old.items) → AreRunsOf (types ++ ty ∷ []) (map pair_of runs.new.items)) }
    ensures writable { IfOk result (λ _. AreWritable (map pair_of runs.new.items)) }
    ensures too_long { result ≡ Err EncodeError.TooLong → (types : List ValType) → AreRunsOf types (map pair_of runs.old.items) → PassLength (types ++ ty ∷ []) }
    ensures memory { result ≡ Err EncodeError.Memory → (types : List ValType) → AreRunsOf types (map pair_of runs.old.items) → FitLength (types ++ ty ∷ []) }
{
    if let Some(count) = last_count(runs, &ty) {
        let count = count.checked_add(1).ok_or(EncodeError::TooLong)?;
        let last = runs.len() - 1;
        runs[last] = LocalRun { count, ty };
        return Ok(());
    }
    if runs.len() >= 4_294_967_295 {
        return Err(EncodeError::TooLong);
    }
    runs.push(LocalRun { count: 1, ty })?;
    Ok(())
}

// Returns the bytes of locals: the number of runs, and the runs.
#[tactic(auto, using(crate::proofs::LocalLists::written_steps))]
pub(crate) fn write_runs(alloc: Global, runs: &[LocalRun]) -> Result<Vec<u8>, EncodeError>
    requires { length runs.now < 2 ^ 32 }
    ensures written { IfOk result (λ bytes. bytes.items ≡ locals_encoding (map run_of (map pair_of runs.now))) }
    ensures memory_alone { IfErr result (λ e. e ≡ EncodeError.Memory) }
{
    let count = runs.len() as u64;
    let mut bytes = Vec::with_capacity(alloc, len_u64(count))?;
    put_u64(&mut bytes, count);
    for run in runs {
        write_run(run, &mut bytes)?;
    }
    Ok(bytes)
}

#[tactic(auto, using(wasm_spec::proofs::ListEncodings::parts), unfolding(crate::specs::CoreLocals::run_bytes, crate::specs::Locals::run_encoding, wasm_core_write::specs::CoreEncodings::val_type_encoding))]
fn write_run(run: &LocalRun, bytes: &mut Vec<u8>) -> Result<(), EncodeError>
    ensures appended { IfOk result (λ _. bytes.new.items ≡ bytes.old.items ++ run_bytes run.now) }
    ensures memory_alone { IfErr result (λ e. e ≡ EncodeError.Memory) }
{
    let count = u64::from(run.count);
    bytes.reserve(len_u64(count) + type_len(&run.ty))?;
    put_u64(bytes, count);
    run.ty.put(bytes);
    Ok(())
}

// Returns the number of bytes of a type, of which there are a few.
#[tactic(auto, unfolding(wasm_core_write::specs::CoreEncodings::val_type_encoding, wasm_spec::specs::TypeEncodings::val_encoding, wasm_spec::specs::TypeEncodings::ref_encoding, wasm_spec::specs::TypeEncodings::heap_encoding))]
fn type_len(ty: &ValType) -> usize
    ensures exact { result ≡ length (val_type_encoding ty.now) }
    ensures few { result ≤ 11 }
{
    let ValType::Ref(reference) = ty else {
        return 1;
    };
    match reference.heap_type {
        HeapType::Abstract(_) if reference.nullable => 1,
        HeapType::Abstract(_) => 2,
        HeapType::Concrete(index) => 1 + len_s64(i64::from(index)),
    }
}
