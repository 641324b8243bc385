//! Limits that a single type can pass (Core Specification 3.0, appendix "Implementation Limitations").

ghost use Rattle.std.specs.Prelude.{◌↔◌, IfSome, IsSome, IsTrue};
ghost use Rattle.wasm_core_types.specs.Limits.{limit};
ghost use Rattle.wasm_spec.specs.Groups.{items_in};
ghost use Rattle.wasm_spec.specs.Limits as spec;
ghost use Rattle.wasmparser_types.specs.CompositeTypes.{composite_type};

use wasm_core_types::limits::Limit;
use wasmparser_types::composite_type::CompositeType;

// Checks that so many items pass a limit.
fn passes(count: usize, it: Limit) -> bool
    ensures { IsTrue result ↔ spec.IsPassedBy (limit it) count }
{
    it.max() < count as u64
}

/// Returns a limit that the number of a type's parameters, results or fields passes.
pub fn passed_limit(it: &CompositeType) -> Option<Limit>
    ensures passed { IfSome result (λ l. spec.IsPassedBy (limit l) (items_in (composite_type it.now) (limit l))) }
    ensures none { (l : spec.Limit) → spec.IsPassedBy l (items_in (composite_type it.now) l) → IsSome result }
{
    match it {
        CompositeType::Func(it) => {
            if passes(it.params().len(), Limit::Params) {
                Some(Limit::Params)
            } else if passes(it.results().len(), Limit::Results) {
                Some(Limit::Results)
            } else {
                None
            }
        }
        CompositeType::Struct(it) => {
            if passes(it.fields.len(), Limit::Fields) {
                Some(Limit::Fields)
            } else {
                None
            }
        }
        CompositeType::Array(_) | CompositeType::Cont(_) => None,
    }
}
