//! Reading a configuration.

ghost use Rattle.wasm_gen_program.specs.ReadConfig.{ReadsConfig};

use crate::device::Source;
use crate::error::RunError;
use crate::transfer::{MAX_INPUT, MAX_TURNS, read_whole};
use std::alloc::Global;
use wasm_gen_config::config_error::ConfigError;
use wasm_gen_config::read::config_from_text;
use wasm_smith::config::Config;

/// Reads a text, and the configuration that it gives, or why it gives none. That is never that memory ran out.
///
/// # Errors
/// `Read` where a read fails, or 2^29 of them don't come to the end; `TooLong` past 2^28 bytes; `Memory` where memory runs out.
pub fn read_config<R: Source>(
    alloc: Global,
    reader: &mut R,
) -> Result<Result<Config, ConfigError>, RunError>
    ensures { ReadsConfig (R.seen reader.old) (R.seen reader.new) result }
{
    let text = read_whole(alloc, reader, MAX_INPUT, MAX_TURNS)?;
    let read = config_from_text(alloc, &text);
    if let Err(ConfigError::Memory) = &read {
        return Err(RunError::Memory);
    }
    Ok(read)
}
