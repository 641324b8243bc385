//! The command `generate`.

ghost use Rattle.std.specs.Prelude.{◌≡◌, IfErr};

use crate::fault::{tell_of_config, tell_of_file, tell_refusal};
use std::io::Write;
use std::rt::Files;
use std::{fs, io};
use wasm_gen::config_file::read_config;
use wasm_gen::error::RunError;
use wasm_gen::run::run_generate;
use wasm_gen::smith::Config;
use wasm_gen::status::status_of;
use wasm_gen_program::asked::Generate;

/// Makes a module of the seed in a file, for the configuration in another where one is named, writes its bytes to standard output, reports each fault, and returns the
/// program's status.
pub fn generate_from_files<R: Files + Print + Eprint + AllocGlobal>(
    rt: &R,
    files: Generate<'_>,
) -> u8 {
    let config = match config_of(rt, files) {
        Ok(config) => config,
        Err(status) => return status,
    };
    match write_module(rt, &config, files.seed) {
        Ok(()) => status_of(&[]),
        Err(RunError::Generate(e)) => tell_refusal(rt, e),
        Err(e) => tell_of_file(rt, e, files.seed),
    }
}

// Reads the configuration, which is the default one where no file is named. Where it can't be read or is bad, that is reported, and the error is the status.
fn config_of<R: Files + Eprint + AllocGlobal>(rt: &R, files: Generate<'_>) -> Result<Config, u8>
    ensures { IfErr result (λ status. status ≡ 2) }
{
    let Some(name) = files.config else {
        return Ok(Config::default());
    };
    let Ok(mut file) = fs::open(rt, name) else {
        return Err(tell_of_file(rt, RunError::Read, name));
    };
    match read_config(rt.alloc(), &mut file) {
        Ok(Ok(config)) => Ok(config),
        Ok(Err(cause)) => Err(tell_of_config(rt, &cause, files.explain)),
        Err(e) => Err(tell_of_file(rt, e, name)),
    }
}

// Makes the module. The bytes are flushed, so that a full disk is seen.
fn write_module<R: Files + Print + AllocGlobal>(
    rt: &R,
    config: &Config,
    name: &str,
) -> Result<(), RunError> {
    let mut writer = io::writer(rt);
    let Ok(mut file) = fs::open(rt, name) else {
        return Err(RunError::Read);
    };
    run_generate(rt.alloc(), config, &mut file, &mut writer)?;
    match writer.flush() {
        Ok(()) => Ok(()),
        Err(_) => Err(RunError::Write),
    }
}
