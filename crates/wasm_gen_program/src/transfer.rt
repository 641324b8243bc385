//! Reads all that a source has, up to a bound, and writes bytes whole.
ghost use Rattle.std.specs.Prelude.{◌≡◌, ◌≢◌, ◌≤◌, ◌<◌, ◌+◌, ◌⊎◌, length, IfOk, IfErr, OnOk, OnErr};
ghost use Rattle.std.specs.Io.KnownBytes.{Appends, IsAtEnd, Keeps};
ghost use Rattle.wasm_gen_program.specs.Device.{EndsRead, FailsOrTires, FailsRead, FailsWrite};
ghost use Rattle.wasm_gen_program.specs.Device.{ReadsOn, ReadsToEnd, ReadsWithin, WritesOn};
ghost use Rattle.wasm_gen_program.specs.Transfer.{Gathers, ConsumesAll, ConsumesUpTo, ConsumesMore, AppendsFront};

use crate::device::{Sink, Source};
use crate::error::RunError;
use std::alloc::Global;
use std::io::ErrorKind;

/// The most bytes that an input has.
pub const MAX_INPUT: usize = 1 << 28;

/// The most reads that an input takes.
pub const MAX_TURNS: u64 = 1 << 29;

/// The most bytes that one read is asked for.
pub const CHUNK_SIZE: usize = 1 << 14;

// The result of one read.
enum Turn {
    // It gave bytes, which are kept.
    More,
    // It gave none, and there are none left.
    End,
    // A signal cut it short.
    Nothing,
}

// Reads once into the chunk, whose bytes are then kept at the end of `bytes`.
fn read_turn<R: Source>(
    reader: &mut R,
    chunk: &mut [u8],
    bytes: &mut Vec<u8>,
) -> Result<Turn, RunError>
    requires { 0 < length chunk.old }
    ensures more { result ≡ Ok Turn.More → Gathers (R.seen reader.old).remaining (R.seen reader.new).remaining
        (length chunk.old) bytes.old.items bytes.new.items }
    ensures end { result ≡ Ok Turn.End → (bytes.new.items ≡ bytes.old.items)
        × Keeps (R.seen reader.old).remaining (R.seen reader.new).remaining × IsAtEnd (R.seen reader.new).remaining }
    ensures nothing { result ≡ Ok Turn.Nothing → (bytes.new.items ≡ bytes.old.items)
        × Keeps (R.seen reader.old).remaining (R.seen reader.new).remaining }

    ensures ended { result ≡ Ok Turn.End → EndsRead (R.seen reader.old).reads (R.seen reader.new).reads }
    ensures goes_on { IfOk result (λ turn. turn ≢ Turn.End
        → ReadsOn (R.seen reader.old).reads (R.seen reader.new).reads 1) }

    ensures kinds { IfErr result (λ e. (e ≡ RunError.Read) ⊎ (e ≡ RunError.Memory)) }
    ensures failed { result ≡ Err RunError.Read → FailsRead (R.seen reader.old).reads (R.seen reader.new).reads }
    ensures memory { result ≡ Err RunError.Memory
        → ReadsOn (R.seen reader.old).reads (R.seen reader.new).reads 1 }
    ensures bounded { OnErr result
        (ConsumesUpTo (R.seen reader.old).remaining (R.seen reader.new).remaining (length chunk.old)) }
{
    match reader.read(chunk) {
        Ok(0) => Ok(Turn::End),
        Ok(n) => match bytes.extend_from_slice(&chunk[..n]) {
            Ok(()) => Ok(Turn::More),
            Err(_) => Err(RunError::Memory),
        },
        Err(e) if e.kind() == ErrorKind::Interrupted => Ok(Turn::Nothing),
        Err(_) => Err(RunError::Read),
    }
}

/// Reads all that a source has, where that is at most `most` bytes and takes at most `turns` reads. A read
/// that a signal cut short is tried again.
///
/// # Errors
/// `Read` where a read fails, or the reads end before the source does; `TooLong` past `most` bytes; `Memory` where memory runs out.
pub fn read_whole<R: Source>(
    alloc: Global,
    reader: &mut R,
    most: usize,
    turns: u64,
) -> Result<Vec<u8>, RunError>
    ensures whole { IfOk result (λ bytes.
        ConsumesAll (R.seen reader.old).remaining (R.seen reader.new).remaining bytes.items) }
    ensures within { IfOk result (λ bytes. length bytes.items ≤ most) }
    ensures ended { OnOk result (ReadsToEnd (R.seen reader.old).reads (R.seen reader.new).reads turns) }

    ensures kinds { IfErr result (λ e.
        (e ≡ RunError.Read) ⊎ (e ≡ RunError.TooLong) ⊎ (e ≡ RunError.Memory)) }
    ensures failed { result ≡ Err RunError.Read
        → FailsOrTires (R.seen reader.old).reads (R.seen reader.new).reads turns }
    ensures too_long { result ≡ Err RunError.TooLong
        → ConsumesMore (R.seen reader.old).remaining (R.seen reader.new).remaining most }
    ensures unfailed { IfErr result (λ e. e ≢ RunError.Read
        → ReadsWithin (R.seen reader.old).reads (R.seen reader.new).reads turns) }
    ensures bounded { OnErr result
        (ConsumesUpTo (R.seen reader.old).remaining (R.seen reader.new).remaining (most + CHUNK_SIZE)) }
{
    let mut bytes = Vec::new(alloc);
    let mut chunk = [0u8; CHUNK_SIZE];
    for _turn in 0..turns {
        match read_turn(reader, &mut chunk, &mut bytes)? {
            Turn::End => return Ok(bytes),
            Turn::Nothing => {}
            Turn::More => {
                if bytes.len() > most {
                    return Err(RunError::TooLong);
                }
            }
        }
    }
    Err(RunError::Read)
}

/// Writes bytes whole. After a refusal a front of them is written, and nothing else.
///
/// # Errors
/// `Write` where a write fails or takes no byte.
pub fn write_whole<W: Sink>(writer: &mut W, bytes: &[u8]) -> Result<(), RunError>
    ensures whole { OnOk result (Appends (W.seen writer.old).contents (W.seen writer.new).contents bytes.now) }
    ensures unfailed { OnOk result (WritesOn (W.seen writer.old).faults (W.seen writer.new).faults) }

    ensures kind { IfErr result (λ e. e ≡ RunError.Write) }
    ensures failed { OnErr result (FailsWrite (W.seen writer.old).faults (W.seen writer.new).faults) }
    ensures front { OnErr result
        (AppendsFront (W.seen writer.old).contents (W.seen writer.new).contents bytes.now) }
{
    let mut written = 0;
    while written < bytes.len() {
        match writer.write(&bytes[written..]) {
            Ok(0) => return Err(RunError::Write),
            Ok(n) => written += n,
            Err(_) => return Err(RunError::Write),
        }
    }
    Ok(())
}
