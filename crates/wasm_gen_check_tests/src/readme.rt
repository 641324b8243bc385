use std::alloc::Global;
use wasm_core::features::WasmFeatures;
use wasm_gen::error::GenerateError;
use wasm_gen::generate::generate;
use wasm_gen::judge::{Error, ValidatorId};
use wasm_gen::session::Session;
use wasm_gen::smith::Config;

pub fn function_count(alloc: Global, bytes: &[u8]) -> Result<u32, Error> {
    let mut session = Session::new(alloc, WasmFeatures::default(), ValidatorId::new(0));
    let types = session.check(bytes)?;
    Ok(types.as_ref().function_count())
}

pub fn module_of(alloc: Global, seed: &[u8]) -> Result<Vec<u8>, GenerateError> {
    let mut config = Config::default();
    config.max_funcs = 10;
    generate(alloc, &config, seed)
}

#[test]
fn functions_are_counted(rt: HostRuntime) {
    let made = module_of(rt.alloc(), &[1, 0, 0, 0, 0, 0, 0, 0, 0, 1]);
    let count = match &made {
        Ok(bytes) => function_count(rt.alloc(), bytes).ok(),
        Err(_) => None,
    };
    assert!(rt; count == Some(1));
}
