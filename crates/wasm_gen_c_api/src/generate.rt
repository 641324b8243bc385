//! Making a module of a configuration's text and a seed.

ghost use Rattle.std.specs.Prelude.{◌≡◌, ◌<◌, ◌^◌};
ghost use Rattle.wasm_gen_c_api.specs.ConfigTexts.{AreTold};
ghost use Rattle.wasm_gen_c_api.specs.Generate.{IsMade, IsWritten, generated_features};
ghost use Rattle.wasm_smith.specs.Config.{AreFeaturesOf, sanitized};

use crate::buffers::put;
use crate::codes::{SHORT_BUFFER, YES, refusal_code, text_code};
use std::alloc::Global;
use wasm_core::features::Flags;
use wasm_gen_config::read::config_from_text;
use wasm_gen_sessions::smith::Config;

/// Returns the features under which what the default configuration makes is valid, each as a bit.
pub fn generated_features() -> u32
    ensures { result ≡ generated_features }
{
    0x3_f6ff
}

// Returns the features of the modules that a configuration makes, once it is put in order.
fn features_of(config: Config) -> u32
    ensures used { AreFeaturesOf (sanitized config) result }
    ensures no_further_bits { result < 2 ^ 22 }
{
    let mut config = config;
    config.sanitize();
    config.features().bits()
}

/// Returns `YES`, and sets the features to those under which what the text's configuration makes is valid, raw bodies aside, each as a bit.
/// Where the text gives no configuration, the code is `CONFIG_TEXT`, or 9 without memory, and the features are 0.
pub fn features_of_config(alloc: Global, config: &[u8], features: &mut u32) -> u32
    ensures { AreTold config.now features.new result }
{
    let (told, code) = match config_from_text(alloc, config) {
        Ok(config) => (features_of(config), YES),
        Err(e) => (0, text_code(&e)),
    };
    *features = told;
    code
}

// Makes the module of a configuration and a seed, and writes it where it fits.
fn write_made(
    alloc: Global,
    config: &Config,
    seed: &[u8],
    buffer: &mut [u8],
    len: &mut usize,
) -> u32
    ensures { IsWritten config.now seed.now buffer.old buffer.new len.new result }
{
    match wasm_gen_sessions::generate::generate(alloc, config, seed) {
        Ok(bytes) => {
            *len = bytes.len();
            if put(&bytes, buffer) {
                YES
            } else {
                SHORT_BUFFER
            }
        }
        Err(e) => {
            *len = 0;
            refusal_code(&e)
        }
    }
}

/// Makes the module of a seed by the configuration that the text gives, and returns its length. It is written at the buffer's front
/// where it fits, and else the code is `SHORT_BUFFER`. What isn't written to stays, and after a refusal the length is 0. Empty text gives the
/// default configuration. Where the text gives none, the code is `CONFIG_TEXT`, or 9 without memory.
pub fn generate(
    alloc: Global,
    config: &[u8],
    seed: &[u8],
    buffer: &mut [u8],
    len: &mut usize,
) -> u32
    ensures { IsMade config.now seed.now buffer.old buffer.new len.new result }
{
    match config_from_text(alloc, config) {
        Ok(config) => write_made(alloc, &config, seed, buffer, len),
        Err(e) => {
            *len = 0;
            text_code(&e)
        }
    }
}
