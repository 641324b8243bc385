//! The locals of a body, read run by run (Core Specification 3.0, Binary Format, "Code Section").

ghost use Rattle.std.specs.Prelude.{◌≡◌, ◌≤◌, length, true};
ghost use Rattle.wasm_spec.specs.Limits as limits;
ghost use Rattle.wasmparser_bodies.specs.LocalsAnswers.{ReadsLocalType, ReadsLocals, ReadsRun};

use crate::body_validator::{BodyValidator, broken};
use wasm_core_read::binary_reader::BinaryReader;
use wasmparser_error::error::Error;
use wasmparser_readers::val_type::{read_val_type, val_is_of_module};
use wasmparser_types::val_type::ValType;

// Reads the type of a run.
fn read_local_type(reader: &mut BinaryReader<'_>) -> Option<ValType>
    ensures { ReadsLocalType reader.old reader.new result }
{
    let Ok(ty) = read_val_type(reader) else {
        return None;
    };
    if !val_is_of_module(&ty) {
        return None;
    }
    Some(ty)
}

// Reads a run of locals, and adds them.
fn read_run<B: BodyValidator>(reader: &mut BinaryReader<'_>, body: &mut B) -> Result<(), Error>
    requires ready { (B.state body.old).is_ready ≡ true }
    ensures read { ReadsRun (B.state body.old) (B.state body.new) reader.old reader.new result }
    ensures kept { B.kept body.new ≡ B.kept body.old }
{
    let offset = reader.original_position();
    let Ok(count) = reader.read_var_u32() else {
        return Err(broken(offset));
    };
    let Some(ty) = read_local_type(reader) else {
        return Err(broken(offset));
    };
    body.define_locals(offset, count, ty)
}

/// Reads the locals that a body declares, and adds them to its parameters. The reader stands at the body's first byte.
///
/// # Errors
/// `Body` where the number of runs or a run doesn't read, or a run's type is not allowed, is not there, or has an index that can't be packed, `Limit` where there are too
/// many locals, `Memory` where memory runs out, at a run that may come: each at a place of the reader's bytes or their end.
pub fn read_locals<B: BodyValidator>(
    reader: &mut BinaryReader<'_>,
    body: &mut B,
) -> Result<(), Error>
    requires ready { (B.state body.old).is_ready ≡ true }
    requires within { length (B.state body.old).locals ≤ limits.most limits.Locals }
    ensures read { ReadsLocals (B.state body.old) (B.state body.new) reader.old reader.new result }
    ensures kept { B.kept body.new ≡ B.kept body.old }
{
    let offset = reader.original_position();
    let Ok(runs) = reader.read_var_u32() else {
        return Err(broken(offset));
    };
    for _ in 0..runs {
        read_run(reader, body)?;
    }
    Ok(())
}
