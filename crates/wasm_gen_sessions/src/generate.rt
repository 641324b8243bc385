//! Generating modules.

ghost use Rattle.std.specs.Prelude.{◌≡◌, IfOk, IfErr};
ghost use Rattle.wasm_gen_sessions.specs.Asked.{MakesLists, RefusesRightly};
ghost use Rattle.wasm_gen_sessions.specs.Generate.{IsGeneratedFrom, IsCause, IsUnwritable};
ghost use Rattle.wasm_gen_sessions.specs.Written.{IsGenerated};
ghost use Rattle.wasm_smith.specs.Config.{sanitized};
ghost use Rattle.wasm_smith.specs.Parts.{Config};
ghost use Rattle.wasm_smith_module.specs.Promise.{IsMadeFor};

use crate::error::GenerateError;
use crate::made_laws::{bare_modules, made_is_generated};
use std::alloc::Global;
use wasm_core::limits::Limit;
use wasm_smith::config::Config;
use wasm_smith::laws::{reach, total};
use wasm_smith::module::Module;
use wasm_smith::unstructured::Unstructured;
use wasm_smith_module::limit_laws::passed;
use wasm_smith_module::passed_limit::passed_limit;
use wasm_smith_sections::small_module_items::items_are_small;

// Returns the bytes of a made module, unless it passes a limit.
fn written_bytes(alloc: Global, made: &Module) -> Result<Vec<u8>, GenerateError>
    ensures written { (c : Config) → IsMadeFor c made.now → IfOk result (λ bytes. IsGenerated c made.now.made bytes.items) }
    ensures refused { (c : Config) → IsMadeFor c made.now → IfErr result (IsUnwritable c made.now.made) }
{
    passed();
    made_is_generated();
    let items = made.items();
    if let Some(limit) = passed_limit(alloc, &items)? {
        return Err(GenerateError::Limit(limit));
    }
    items_are_small(&items);
    Ok(made.to_bytes(alloc)?)
}

// Returns the bytes of the module that is drawn from the seed.
fn bytes_for(alloc: Global, config: Config, seed: &[u8]) -> Result<Vec<u8>, GenerateError>
    ensures generated { IfOk result (λ bytes. IsGeneratedFrom (sanitized config) seed.now bytes.items) }
    ensures refused { IfErr result (IsCause (sanitized config) seed.now) }
{
    let mut unstructured = Unstructured::new(seed);
    let most_types = Limit::Types.max() as u32;
    let Some(made) = Module::new_within(alloc, config, &mut unstructured, most_types)? else {
        return Err(GenerateError::Limit(Limit::Types));
    };
    written_bytes(alloc, &made)
}

// Returns the bytes of the module that is drawn from the seed, for a copy of the configuration.
fn drawn_bytes(alloc: Global, config: &Config, seed: &[u8]) -> Result<Vec<u8>, GenerateError>
    ensures generated { IfOk result (λ bytes. IsGeneratedFrom (sanitized config.now) seed.now bytes.items) }
    ensures refused { IfErr result (IsCause (sanitized config.now) seed.now) }
{
    let config = config.try_clone(alloc)?;
    bytes_for(alloc, config, seed)
}

/// Returns a module that is valid but for its raw bodies, for the configuration put in order and true to its shapes, drawn from the bytes of
/// the seed. A list for which [`seed_for`](crate::seed::seed_for) gives a seed is made exactly, without locals and with nothing else, from
/// every seed that spells it. With a configuration with which lists can be asked for, it is refused only when out of memory, or when a limit
/// is passed.
///
/// With `module_shape` the module has the types, imports and exports of this shape, and no others. Else the types of `available_imports`,
/// and then those of `exports`, stand behind drawn ones; the imports are some of the first shape's entries, and the exports are the second's.
/// Each export of a shape is an item that the module defines for it. Maximums hold except as far as shapes have more.
///
/// As soon as more types than their limit are made and asked for, `Limit` is returned, and no further type is made. All other items
/// are drawn before their limits are looked at, so a `min_funcs` in the billions may end in `Memory`.
///
/// # Errors
/// `Config` by the configuration. `Shape` by the part of a shape that [`Shape::check`](wasm_smith::shape::Shape::check) doesn't allow, or
/// `together` for two shapes with two tables or two memories where several aren't enabled. `Minimum` where imports, tags, functions,
/// exports or segments are asked for that can't be made, or more types than `module_shape` has. `EmptyChoice` where a shape has a table or a
/// global of references that can't be null, and there is no constant of its type. `TypeSize` where everything is exported and the types are
/// too large. `Limit` where the module would pass one. `Memory` where memory runs out.
pub fn generate(alloc: Global, config: &Config, seed: &[u8]) -> Result<Vec<u8>, GenerateError>
    ensures generated { IfOk result (λ bytes. IsGeneratedFrom (sanitized config.now) seed.now bytes.items) }
    ensures refused { IfErr result (IsCause (sanitized config.now) seed.now) }
    ensures lists { IfOk result (λ bytes. MakesLists (sanitized config.now) seed.now bytes.items) }
    ensures rightly { IfErr result (RefusesRightly (sanitized config.now) seed.now) }
{
    reach();
    total();
    bare_modules();
    drawn_bytes(alloc, config, seed)
}
