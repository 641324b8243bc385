//! Laws of bodies over ids. The functions do nothing: their contracts are theorems. Types are written with type indexes, and a validator knows them by ids.

ghost use Rattle.std.specs.Prelude.{◌≡◌, ⊤, ℕ, List, Result, Some, is_some, length, option_map, slice_get, true};
ghost use Rattle.std.specs.List.{AllByRecursion};
ghost use Rattle.wasm_bodies.specs.BodyContext.{func_at};
ghost use Rattle.wasm_bodies_laws.specs.References.{AgreeOn, WantedBy, items_map};
ghost use Rattle.wasm_core_read.specs.Input.{Input};
ghost use Rattle.wasm_spec.specs.Bytes.{AreBytes};
ghost use Rattle.wasm_spec.specs.Features.{Features};
ghost use Rattle.wasm_spec.specs.Syntax.{Section, functions_of, types_of};
ghost use Rattle.wasm_spec.specs.Trees.{DefType};
ghost use Rattle.wasm_spec.specs.TypeReferences.{func_map};
ghost use Rattle.wasm_spec.specs.Types.{FuncType, SubType};
ghost use Rattle.wasm_validity.specs.ModuleBodies.{Below, TellsBelow, func_type_in, items_in};
ghost use Rattle.wasm_validity_laws.specs.WantedTypes.{is_named_under};
ghost use Rattle.wasm_validity.specs.Context.{Context, after_all, at_first};
ghost use Rattle.wasm_validity.specs.Entries.{Entry, entries_of};
ghost use Rattle.wasm_validity.specs.Rules.{KeepRules};
ghost use Rattle.wasm_validity.specs.Validity.{context_of};
ghost use Rattle.wasmparser_bodies.specs.BodyAnswers.{AnswersOutcome, IsBodyValidated, body_outcome};
ghost use Rattle.wasmparser_type_relations.specs.Chains.{by_id};
ghost use Rattle.wasmparser_error.specs.declared.error.Error.{Error};
ghost use Rattle.wasmparser_validator.specs.BodyVerdicts.{IsBodyJudged};
ghost use Rattle.wasmparser_validator.specs.LaterEntries.{IsLater};
ghost use Rattle.wasmparser_validator.specs.TypesById.{AreKnown, AreWritten, index_at, items_by_ids};
ghost use Rattle.wasmparser_type_relations.specs.Decision.{is_val_below};
ghost use Rattle.wasmparser_types.specs.Index.{Index};

/// A body may name over ids just what it may name over type indexes, each of these replaced by its id.
pub fn items()
    ensures { (features : Features) (cx : Context) (written : List (SubType ℕ)) (ids : List ℕ) (interned : List DefType) (sub_types : List (SubType Index)) (test : Below)
        → AreWritten features cx.types written → AreKnown features cx.types ids interned sub_types
        → items_map (index_at ids) (items_in written cx test) (items_by_ids ids sub_types cx).is_below ≡ items_by_ids ids sub_types cx }
{}

/// Over ids the same types are below the same, where the second is named and may be wanted under the features. An index that names no type is below
/// nothing that is named.
pub fn agreement()
    ensures { (features : Features) (cx : Context) (written : List (SubType ℕ)) (ids : List ℕ) (interned : List DefType) (sub_types : List (SubType Index)) (test : Below)
        → AreKnown features cx.types ids interned sub_types → TellsBelow cx test
        → AgreeOn (WantedBy (is_named_under (length cx.types) features)) (index_at ids) (items_in written cx test) (is_val_below (by_id (slice_get sub_types))) }
{}

/// The verdict on a body over ids is right over type indexes, by each test that tells which types are below which; and so it is what the rules say of
/// the body. Each of the module's own functions has a type, as it is written and so by ids.
pub fn bodies()
    ensures written { (features : Features) (sections : List Section) → KeepRules features at_first (entries_of sections)
        → AreWritten features (context_of sections).types (types_of sections) }
    ensures named { (features : Features) (sections : List Section) (place index : ℕ) → KeepRules features at_first (entries_of sections)
        → slice_get (functions_of sections) place ≡ Some index → is_some (func_type_in (types_of sections) index) ≡ true }
    ensures functions { (features : Features) (sections : List Section) (ids : List ℕ) (interned : List DefType) (sub_types : List (SubType Index)) (index : ℕ)
        → KeepRules features at_first (entries_of sections) → AreKnown features (context_of sections).types ids interned sub_types
        → func_at (items_by_ids ids sub_types (context_of sections)) index ≡ option_map (func_map (index_at ids)) (func_type_in (types_of sections) index) }
    ensures by_each_test { (features : Features) (sections : List Section) (ids : List ℕ) (interned : List DefType) (sub_types : List (SubType Index)) (index : ℕ) (type : FuncType ℕ)
        (test : Below) (bytes : List ℕ) (position : ℕ) (answer : Result (Unit {0}) Error)
        → KeepRules features at_first (entries_of sections) → AreKnown features (context_of sections).types ids interned sub_types
        → func_type_in (types_of sections) index ≡ Some type → TellsBelow (context_of sections) test
        → IsBodyValidated features (items_by_ids ids sub_types (context_of sections)) (func_map (index_at ids) type) bytes position answer
        → IsBodyValidated features (items_in (types_of sections) (context_of sections) test) type bytes position answer }
    ensures judged { (features : Features) (sections : List Section) (ids : List ℕ) (interned : List DefType) (sub_types : List (SubType Index)) (index : ℕ) (type : FuncType ℕ)
        (bytes : List ℕ) (position : ℕ) (answer : Result (Unit {0}) Error)
        → KeepRules features at_first (entries_of sections) → AreKnown features (context_of sections).types ids interned sub_types
        → func_type_in (types_of sections) index ≡ Some type
        → IsBodyValidated features (items_by_ids ids sub_types (context_of sections)) (func_map (index_at ids) type) bytes position answer
        → IsBodyJudged features sections type bytes position answer }
{}

/// So is an answer that is what the bytes of a body are judged as over ids.
pub fn answers()
    ensures { (features : Features) (sections : List Section) (ids : List ℕ) (interned : List DefType) (sub_types : List (SubType Index)) (index : ℕ) (type : FuncType ℕ)
        (body : Input) (answer : Result (Unit {0}) Error)
        → KeepRules features at_first (entries_of sections) → AreKnown features (context_of sections).types ids interned sub_types
        → func_type_in (types_of sections) index ≡ Some type → AreBytes body.rest
        → AnswersOutcome ⊥ (λ (left : ℕ). ⊤) body answer (body_outcome features (items_by_ids ids sub_types (context_of sections)) index body.rest)
        → IsBodyJudged features sections type body.rest body.position answer }
{}

/// Sections after the bodies change nothing that these are validated in, but the number of data segments, which they don't ask.
pub fn later_entries()
    ensures { (features : Features) (cx : Context) (entries : List Entry) → KeepRules features cx entries → AllByRecursion IsLater entries
        → after_all cx entries ≡ record cx { segments = (after_all cx entries).segments } }
{}
