//! Operators from bytes, one after the other.

use wasm_core_read::binary_reader::BinaryReader;
use wasm_core_types::features::WasmFeatures;
use wasmparser_bodies::module_resources::WasmModuleResources;
use wasmparser_error::error::Error;
use wasmparser_func_validator::func_validator::FuncValidator;
use wasmparser_operators::operators_reader::OperatorsReader;

fn operators_of(bytes: &[u8], offset: u32, features: WasmFeatures) -> OperatorsReader<'_> {
    let mut reader = BinaryReader::new(bytes, u64::from(offset));
    reader.set_features(features);
    OperatorsReader::new(reader)
}

/// Validates operators that stand from this place on, up to the first one that is refused or that doesn't read.
pub fn run<R: WasmModuleResources>(
    validator: &mut FuncValidator<R>,
    bytes: &[u8],
    offset: u32,
) -> Result<(), Error> {
    let mut operators = operators_of(bytes, offset, *validator.features());
    for _ in 0..bytes.len() {
        if operators.eof() {
            return Ok(());
        }
        let position = operators.original_position();
        let operator = operators.read()?;
        validator.op(position, &operator)?;
    }
    Ok(())
}

/// Tries the first operator of these bytes.
pub fn try_first<R: WasmModuleResources>(
    validator: &mut FuncValidator<R>,
    bytes: &[u8],
    offset: u32,
) -> Result<(), Error> {
    let mut operators = operators_of(bytes, offset, *validator.features());
    let operator = operators.read()?;
    validator.try_op(u64::from(offset), &operator)
}
