//! The locals of a body, which are passed over (Core Specification 3.0, Binary Format, "Code Section").

ghost use Rattle.wasm_bodies.specs.Bodies.{Run};
ghost use Rattle.wasm_spec.specs.Bytes.{AreBytes};
ghost use Rattle.wasmparser_payloads.specs.Locals.{ReadsPastLocals, run_at};

use wasm_core_read::binary_reader::BinaryReader;
use wasm_core_read::malformed::Malformed;
use wasmparser_error::error::{Error, ErrorKind};
use wasmparser_operators::operators_reader::OperatorsReader;
use wasmparser_readers::passing::{Pass, fork, pass_list};
use wasmparser_readers::val_type::read_val_type;

// A run of locals: how many, and their type.
pub(crate) struct LocalRun;

impl Pass for LocalRun {
    ghost Passed = { Run };

    ghost passed_at = { run_at };

    #[tactic(auto, using(crate::proofs::LocalLaws::run_steps))]
    fn pass(reader: &mut BinaryReader<'_>) -> Result<(), Malformed> {
        reader.read_var_u32()?;
        match read_val_type(reader) {
            Ok(_) => Ok(()),
            Err(malformed) => Err(malformed),
        }
    }
}

// Returns the operators of a body, which stand past its locals.
pub(crate) fn read_past_locals<'a>(body: &BinaryReader<'a>) -> Result<OperatorsReader<'a>, Error>
    ensures exact { ReadsPastLocals body.now result }
    ensures are { AreBytes body.now.rest }
{
    let mut reader = fork(body);
    match pass_list::<LocalRun>(&mut reader) {
        Ok(()) => Ok(OperatorsReader::new(reader)),
        Err(malformed) => Err(Error {
            offset: malformed.offset,
            kind: ErrorKind::Body,
        }),
    }
}
