//! Laws of keys: groups with equal keys are equal.

ghost use Rattle.wasmparser_type_relations.specs.GroupKeys.{TellsApart, group_key};

/// Groups with the same numbers are the same.
pub fn group_keys()
    ensures { TellsApart group_key }
{}
