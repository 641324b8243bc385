//! Configurations with shapes, in words, with `&` between them: `imports func -> ; / one m f func 0 ; / & exports / / g memory 0..`. In front of each shape
//! stands what it is for: `module`, `imports` or `exports`.

ghost use Rattle.std.specs.Prelude.{◌≡◌, IfSome, Some, codes, false};
ghost use Rattle.wasm_smith_config_rows.specs.Settings.{with_shapes};

use crate::shapes::shape_of;
use std::alloc::Global;
use wasm_smith_config::config::Config;
use wasm_smith_shapes::shape::Shape;
use wasm_test_rows::fields::word_and_rest;

// Sets the shape for a use, if there is such a use.
fn set_shape(config: &mut Config, purpose: &str, shape: Shape) -> bool
    ensures others { with_shapes config.new config.old ≡ config.old }
    ensures module { purpose.now ≡ codes "module" → config.new.module_shape ≡ Some shape }
    ensures imports { purpose.now ≡ codes "imports" → config.new.available_imports ≡ Some shape }
    ensures exports { purpose.now ≡ codes "exports" → config.new.exports ≡ Some shape }
    ensures unknown { result ≡ false → config.new ≡ config.old }
{
    match purpose {
        "module" => config.module_shape = Some(shape),
        "imports" => config.available_imports = Some(shape),
        "exports" => config.exports = Some(shape),
        _ => return false,
    }
    true
}

/// Returns the configuration with the shapes of a field, if there are some.
pub fn with_shapes(alloc: Global, mut config: Config, field: &str) -> Option<Config>
    ensures others { IfSome result (λ it. with_shapes it config ≡ config) }
{
    if field.trim().is_empty() {
        return Some(config);
    }
    for part in field.split('&') {
        let (purpose, text) = word_and_rest(part);
        if !set_shape(&mut config, purpose, shape_of(alloc, text)?) {
            return None;
        }
    }
    Some(config)
}
