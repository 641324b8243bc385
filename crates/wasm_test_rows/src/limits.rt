//! Limits by their names.

ghost use Rattle.std.specs.Prelude.{◌≡◌, IfSome};
ghost use Rattle.wasm_core_types.specs.Limits.{limit_name};

use wasm_core_types::limits::Limit;

/// Returns the limit of this name.
pub fn limit_of(name: &str) -> Option<Limit>
    ensures { IfSome result (λ l. limit_name l ≡ name.now) }
{
    match name {
        "Types" => Some(Limit::Types),
        "Groups" => Some(Limit::Groups),
        "Imports" => Some(Limit::Imports),
        "Functions" => Some(Limit::Functions),
        "Globals" => Some(Limit::Globals),
        "Tags" => Some(Limit::Tags),
        "Exports" => Some(Limit::Exports),
        "Tables" => Some(Limit::Tables),
        "Memories" => Some(Limit::Memories),
        "ElementSegments" => Some(Limit::ElementSegments),
        "DataSegments" => Some(Limit::DataSegments),
        "SegmentEntries" => Some(Limit::SegmentEntries),
        "Params" => Some(Limit::Params),
        "Results" => Some(Limit::Results),
        "Fields" => Some(Limit::Fields),
        "Locals" => Some(Limit::Locals),
        "BodySize" => Some(Limit::BodySize),
        "Name" => Some(Limit::Name),
        "TypeSize" => Some(Limit::TypeSize),
        "Depth" => Some(Limit::Depth),
        "Length" => Some(Limit::Length),
        _ => None,
    }
}
