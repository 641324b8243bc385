//! Laws of subtyping in a module, as its bodies ask it. The functions do nothing: their contracts are theorems.

ghost use Rattle.std.specs.Prelude.{◌≡◌, ◌↔◌, ℕ, Bool, List, [], Some, false, length, slice_get};
ghost use Rattle.wasm_bodies.specs.Bodies.{HasManyLocals, HasOtherOperator, IsFunctionBody};
ghost use Rattle.wasm_bodies.specs.BodyContext.{ModuleItems, func_at};
ghost use Rattle.wasm_bodies_laws.specs.References.{AreWanted, HasNoReferences, TakesAndGives, WantedBy};
ghost use Rattle.wasm_spec.specs.Features.{Features, needs_type_canonicalization};
ghost use Rattle.wasm_spec.specs.Groups.{KeepGroupRules};
ghost use Rattle.wasm_spec.specs.ReferenceMaps.{KeepsTypes};
ghost use Rattle.wasm_spec.specs.Syntax.{Section, groups_of, types_of};
ghost use Rattle.wasm_spec.specs.Trees.{section_types, type_at, unrolled};
ghost use Rattle.wasm_spec.specs.TypeReferences.{sub_refs};
ghost use Rattle.wasm_spec.specs.Types.{FuncType, SubType, ValType};
ghost use Rattle.wasm_validity.specs.ModuleBodies.{Below, TellsBelow, func_type_in, items_in};
ghost use Rattle.wasm_validity.specs.Modules.{IsBodyPast, IsBrokenBody, IsOtherBody, IsTypedBody};
ghost use Rattle.wasm_validity_laws.specs.WantedTypes.{is_both, is_named_under};
ghost use Rattle.wasm_validity_laws.specs.Written.{IsInRange, groups_in, is_named, written_in};
ghost use Rattle.wasm_validity.specs.Context.{Context, after_all, at_first};
ghost use Rattle.wasm_validity.specs.Entries.{Entry, entries_of};
ghost use Rattle.wasm_validity.specs.Rules.{KeepRules};
ghost use Rattle.wasm_validity.specs.Validity.{context_of};

/// All tests that tell which types are below which are one test, so that bodies are the same by any of them.
pub fn one_test()
    ensures tests { (cx : Context) (a b : Below) → TellsBelow cx a → TellsBelow cx b → a ≡ b }
    ensures bodies { (types : List (SubType ℕ)) (cx : Context) (a b : Below) → TellsBelow cx a → TellsBelow cx b → (features : Features) (type : FuncType ℕ) (bytes : List ℕ)
        → IsFunctionBody features (items_in types cx a) type bytes ↔ IsFunctionBody features (items_in types cx b) type bytes }
    ensures many_locals { (types : List (SubType ℕ)) (cx : Context) (a b : Below) → TellsBelow cx a → TellsBelow cx b → (features : Features) (type : FuncType ℕ) (bytes : List ℕ)
        → HasManyLocals features (items_in types cx a) type bytes ↔ HasManyLocals features (items_in types cx b) type bytes }
    ensures other_operators { (types : List (SubType ℕ)) (cx : Context) (a b : Below) → TellsBelow cx a → TellsBelow cx b → (features : Features) (type : FuncType ℕ) (bytes : List ℕ)
        → HasOtherOperator features (items_in types cx a) type bytes ↔ HasOtherOperator features (items_in types cx b) type bytes }
{}

/// So what is said of a body of a module by all such tests is said by one.
pub fn by_one_test()
    ensures typed { (sections : List Section) (is_below : Below) → TellsBelow (context_of sections) is_below → (features : Features) (type : FuncType ℕ) (bytes : List ℕ)
        → IsTypedBody features sections type bytes ↔ IsFunctionBody features (items_in (types_of sections) (context_of sections) is_below) type bytes }
    ensures past { (sections : List Section) (is_below : Below) → TellsBelow (context_of sections) is_below → (features : Features) (type : FuncType ℕ) (bytes : List ℕ)
        → IsBodyPast features sections type bytes ↔ HasManyLocals features (items_in (types_of sections) (context_of sections) is_below) type bytes }
    ensures other { (sections : List Section) (is_below : Below) → TellsBelow (context_of sections) is_below → (features : Features) (type : FuncType ℕ) (bytes : List ℕ)
        → IsOtherBody features sections type bytes ↔ HasOtherOperator features (items_in (types_of sections) (context_of sections) is_below) type bytes }
    ensures broken { (sections : List Section) (is_below : Below) → TellsBelow (context_of sections) is_below → (features : Features) (type : FuncType ℕ) (bytes : List ℕ)
        → IsBrokenBody features sections type bytes ↔ ((¬ (IsFunctionBody features (items_in (types_of sections) (context_of sections) is_below) type bytes))
        × (¬ (HasManyLocals features (items_in (types_of sections) (context_of sections) is_below) type bytes))
        × (¬ (HasOtherOperator features (items_in (types_of sections) (context_of sections) is_below) type bytes))) }
{}

/// What type indexes stand for are the types of the groups as they are written: each unrolls to the sub type that is written there, of which all references
/// name types. Without features that ask for types to be canonicalized, written types have no references.
pub fn types_as_written()
    ensures known { (entries : List Entry) → (after_all at_first entries).types ≡ section_types (groups_in entries) }
    ensures groups { (sections : List Section) → groups_in (entries_of sections) ≡ groups_of sections }
    ensures sections { (sections : List Section) → types_of sections ≡ written_in (entries_of sections) }
    ensures rules { (features : Features) (entries : List Entry) → KeepRules features at_first entries → KeepGroupRules features [] (groups_in entries) }
    ensures count { (features : Features) (entries : List Entry) → KeepRules features at_first entries → length (after_all at_first entries).types ≡ length (written_in entries) }
    ensures types { (features : Features) (entries : List Entry) → KeepRules features at_first entries
        → KeepsTypes (type_at (after_all at_first entries).types) (slice_get (written_in entries)) unrolled }
    ensures in_range { (features : Features) (entries : List Entry) (index : ℕ) (type : SubType ℕ) → KeepRules features at_first entries → slice_get (written_in entries) index ≡ Some type
        → IsInRange (length (after_all at_first entries).types) type }
    ensures plain { (features : Features) (entries : List Entry) (index : ℕ) (type : SubType ℕ) → needs_type_canonicalization features ≡ false → KeepRules features at_first entries
        → slice_get (written_in entries) index ≡ Some type → sub_refs type ≡ [] }
{}

/// Types that operators want of their operands name types of the module, and so do those that its functions take and give.
pub fn named_types_wanted()
    ensures indexes { (types : List (SubType ℕ)) (cx : Context) (is_below : Below) (index : ℕ) → func_at (items_in types cx is_below) index ≡ func_type_in types index }
    ensures wanted { (features : Features) (entries : List Entry) (is_below : Below) → KeepRules features at_first entries
        → AreWanted (WantedBy (is_named (length (after_all at_first entries).types))) features (items_in (written_in entries) (after_all at_first entries) is_below) }
    ensures functions { (features : Features) (entries : List Entry) (index : ℕ) (type : FuncType ℕ) → KeepRules features at_first entries
        → func_type_in (written_in entries) index ≡ Some type → TakesAndGives (WantedBy (is_named (length (after_all at_first entries).types))) type }
    ensures wanted_in_sections { (features : Features) (sections : List Section) (is_below : Below) → KeepRules features at_first (entries_of sections)
        → AreWanted (WantedBy (is_named (length (context_of sections).types))) features (items_in (types_of sections) (context_of sections) is_below) }
    ensures functions_in_sections { (features : Features) (sections : List Section) (index : ℕ) (type : FuncType ℕ) → KeepRules features at_first (entries_of sections)
        → func_type_in (types_of sections) index ≡ Some type → TakesAndGives (WantedBy (is_named (length (context_of sections).types))) type }
{}

/// What two tests let through is wanted by both where it is wanted by each.
pub fn wanted_both<R>()
    ensures items { (p q : ValType R → Bool) (features : Features) (items : ModuleItems R) → AreWanted (WantedBy p) features items → AreWanted (WantedBy q) features items
        → AreWanted (WantedBy (is_both p q)) features items }
    ensures functions { (p q : ValType R → Bool) (type : FuncType R) → TakesAndGives (WantedBy p) type → TakesAndGives (WantedBy q) type → TakesAndGives (WantedBy (is_both p q)) type }
{}

/// So the types that are wanted in a module name types of it, and are those that the features let be wanted: its items have no references where the features don't
/// ask for types to be canonicalized.
pub fn wanted_under()
    ensures plain { (features : Features) (entries : List Entry) (is_below : Below) → needs_type_canonicalization features ≡ false → KeepRules features at_first entries
        → HasNoReferences (items_in (written_in entries) (after_all at_first entries) is_below) }
    ensures wanted { (features : Features) (entries : List Entry) (is_below : Below) → KeepRules features at_first entries
        → AreWanted (WantedBy (is_named_under (length (after_all at_first entries).types) features)) features (items_in (written_in entries) (after_all at_first entries) is_below) }
    ensures functions { (features : Features) (entries : List Entry) (index : ℕ) (type : FuncType ℕ) → KeepRules features at_first entries
        → func_type_in (written_in entries) index ≡ Some type → TakesAndGives (WantedBy (is_named_under (length (after_all at_first entries).types) features)) type }
    ensures plain_in_sections { (features : Features) (sections : List Section) (is_below : Below) → needs_type_canonicalization features ≡ false
        → KeepRules features at_first (entries_of sections) → HasNoReferences (items_in (types_of sections) (context_of sections) is_below) }
    ensures wanted_in_sections { (features : Features) (sections : List Section) (is_below : Below) → KeepRules features at_first (entries_of sections)
        → AreWanted (WantedBy (is_named_under (length (context_of sections).types) features)) features (items_in (types_of sections) (context_of sections) is_below) }
    ensures functions_in_sections { (features : Features) (sections : List Section) (index : ℕ) (type : FuncType ℕ) → KeepRules features at_first (entries_of sections)
        → func_type_in (types_of sections) index ≡ Some type → TakesAndGives (WantedBy (is_named_under (length (context_of sections).types) features)) type }
{}

/// There is a test that tells which types of a module are below which: equal types have equal codes, and links lead to types of smaller indexes.
pub fn a_test()
    ensures { (features : Features) (entries : List Entry) → KeepRules features at_first entries → (is_below : Below) × TellsBelow (after_all at_first entries) is_below }
{}
