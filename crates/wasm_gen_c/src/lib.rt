//! The functions that C can call, those of `include/wasm_gen.h`. Null stands for an empty slice.
#![tactic(auto)]

ghost use Rattle.std.specs.Prelude.{◌≡◌, length};
ghost use Rattle.wasm_gen_c_api.specs.Buffers.{buffer_with};
ghost use Rattle.wasm_gen_c_api.specs.Codes.{code_name};
ghost use Rattle.wasm_gen_c_api.specs.ConfigTexts.{AreTold};
ghost use Rattle.wasm_gen_c_api.specs.Generate.{IsMade, generated_features};
ghost use Rattle.wasm_gen_c_api.specs.Report.{IsReportOf};
ghost use Rattle.wasm_gen_c_api.specs.Verdicts.{IsChecked};
ghost use Rattle.wasm_spec.specs.Features.{default_features};

use std::alloc::Global;
use wasm_gen_c_api::check::{check, default_features};
use wasm_gen_c_api::codes::put_name;
use wasm_gen_c_api::generate::{features_of_config, generate, generated_features};
use wasm_gen_c_api::report::report;
use wasm_gen_c_api::verdict::Verdict;

/// The version of these calls: another number where one takes or answers something else.
#[unsafe(no_mangle)]
pub extern "C" fn wasm_gen_version() -> u32
    ensures { result ≡ 2 }
{
    2
}

/// The features that are on where nothing else is said, each as a bit.
#[unsafe(no_mangle)]
pub extern "C" fn wasm_gen_features_default() -> u32
    ensures { result ≡ default_features }
{
    default_features()
}

/// The features under which what the default configuration makes is valid, each as a bit.
#[unsafe(no_mangle)]
pub extern "C" fn wasm_gen_features_generated() -> u32
    ensures { result ≡ generated_features }
{
    generated_features()
}

/// Fills in the features under which what a text's configuration makes is valid, raw bodies aside, each as a bit, and gives a code.
#[unsafe(no_mangle)]
pub extern "C" fn wasm_gen_features_of_config(
    alloc: Global,
    config: &[u8],
    features: &mut u32,
) -> u32
    ensures { AreTold config.now features.new result }
{
    features_of_config(alloc, config, features)
}

/// Writes what a code is called at the buffer's front where it fits, and gives its length in bytes: 0 for a number that is no code.
#[unsafe(no_mangle)]
pub extern "C" fn wasm_gen_kind_name(kind: u32, buffer: &mut [u8]) -> usize
    ensures length { result ≡ length (code_name kind) }
    ensures written { buffer.new ≡ buffer_with (code_name kind) buffer.old }
{
    put_name(kind, buffer)
}

/// Validates the bytes of a module under these features, fills the record, and returns its kind.
#[unsafe(no_mangle)]
pub extern "C" fn wasm_gen_check(
    alloc: Global,
    bytes: &[u8],
    features: u32,
    verdict: &mut Verdict,
) -> u32
    ensures checked { IsChecked features bytes.now verdict.new }
    ensures kind { result ≡ verdict.new.kind }
{
    *verdict = check(alloc, bytes, features);
    verdict.kind
}

/// Validates the bytes of a module under these features, fills in the length of the report on it in bytes, writes the report at the buffer's front where it
/// fits, and gives a code.
#[unsafe(no_mangle)]
pub extern "C" fn wasm_gen_report(
    alloc: Global,
    bytes: &[u8],
    features: u32,
    buffer: &mut [u8],
    report_length: &mut usize,
) -> u32
    ensures { IsReportOf features bytes.now buffer.old buffer.new report_length.new result }
{
    report(alloc, bytes, features, buffer, report_length)
}

/// Makes the module of a seed by a text's configuration, fills in its length in bytes, writes it at the buffer's front where it fits, and gives a code.
#[unsafe(no_mangle)]
pub extern "C" fn wasm_gen_generate(
    alloc: Global,
    config: &[u8],
    seed: &[u8],
    buffer: &mut [u8],
    module_length: &mut usize,
) -> u32
    ensures { IsMade config.now seed.now buffer.old buffer.new module_length.new result }
{
    generate(alloc, config, seed, buffer, module_length)
}
