//! Laws of recursive groups that are added to a list of types. A module's types have ids, which stand for defined types; the group is judged after these.

ghost use Rattle.std.specs.Prelude.{◌≡◌, ℕ, Bool, List, [], ◌∷◌, None, length, slice_get, true};
ghost use Rattle.std.specs.List.{AllByRecursion};
ghost use Rattle.wasm_spec.specs.Features.{Features, needs_type_canonicalization};
ghost use Rattle.wasm_spec.specs.Groups.{IsWellFormedGroup, KeepsGroupRules};
ghost use Rattle.wasm_spec.specs.Limits.{Limit};
ghost use Rattle.wasm_spec.specs.Trees.{types_after};
ghost use Rattle.wasm_spec.specs.TypeReferences.{sub_refs};
ghost use Rattle.wasm_spec.specs.Types.{FuncType, RecGroup, SubType};
ghost use Rattle.wasmparser_type_relations.specs.Chains.{AreBelowEarlier, IsBelowEarlier};
ghost use Rattle.wasmparser_type_list.specs.TypeTables.{Interns, TypeTables, final_func, sub_types};
ghost use Rattle.wasmparser_type_list.specs.IdTypes.{AreFoundByKey, RefersToNoModule};
ghost use Rattle.wasmparser_rec_groups.specs.Contexts.{CountsAsCanonical, IsGroupOfModule, IsRightAsWritten, JustifiesRefusal, PassesGroupLimit, in_section, types_of};
ghost use Rattle.wasmparser_rec_groups.specs.Interning.{Accepts, AreKnown, CanBeInterned, NamesModuleTypes, canonical_members};
ghost use Rattle.wasmparser_rec_groups.specs.ItemLimits.{HaveFewItems, HaveManyItems};
ghost use Rattle.wasmparser_rec_groups.specs.Rules.{IsRefusedGroup};
ghost use Rattle.wasmparser_types.specs.Index.{Index, module_index};
ghost use Rattle.wasmparser_types.specs.RecGroups.{members};

/// A group that is accepted is well-formed, and the ids that are added stand for its types.
pub fn accepted_groups_are_well_formed()
    ensures well_formed { (canonical : ℕ → Bool) (features : Features) (ids new_ids : List ℕ) (old new : TypeTables) (group : RecGroup Index) → IsGroupOfModule old new ids group
        → (accepts : Accepts features ids old new group new_ids) → canonical accepts.number ≡ true
        → IsWellFormedGroup features (types_of canonical old ids) (in_section group) }
    ensures types { (canonical : ℕ → Bool) (features : Features) (ids new_ids : List ℕ) (old new : TypeTables) (group : RecGroup Index) → IsGroupOfModule old new ids group
        → (accepts : Accepts features ids old new group new_ids) → canonical accepts.number ≡ true
        → types_of canonical new new_ids ≡ types_after (types_of canonical old ids) (in_section group) }
{}

/// A group that is refused as `Invalid` breaks a rule, and one that is refused for a limit passes a limit. One for which memory ran out keeps what it can keep as it is
/// written.
pub fn refused_groups_are_ill_formed()
    ensures many_items { (canonical : ℕ → Bool) (tables : TypeTables) (ids : List ℕ) (group : RecGroup Index) (l : Limit) → HaveManyItems (members group) l
        → PassesGroupLimit (types_of canonical tables ids) (in_section group) l }
    ensures out_of_memory { (canonical : ℕ → Bool) (features : Features) (ids : List ℕ) (tables : TypeTables) (group : RecGroup Index) → NamesModuleTypes group
        → CanBeInterned features ids tables group → HaveFewItems (members group) → IsRightAsWritten features (types_of canonical tables ids) (in_section group) }
    ensures before_interning { (canonical : ℕ → Bool) (features : Features) (ids : List ℕ) (tables : TypeTables) (group : RecGroup Index) → IsGroupOfModule tables tables ids group
        → KeepsGroupRules features (types_of canonical tables ids) (in_section group) → CanBeInterned features ids tables group }
    ensures after_interning { (canonical : ℕ → Bool) (features : Features) (ids : List ℕ) (old new : TypeTables) (group : RecGroup Index) (is_new : Bool) (number : ℕ) → IsGroupOfModule old new ids group
        → CanBeInterned features ids old group → Interns old new (needs_type_canonicalization features) (canonical_members ids group) is_new number
        → CountsAsCanonical features canonical new number → (kind : _) → IsRefusedGroup new number kind → JustifiesRefusal features (types_of canonical old ids) (in_section group) kind }
{}

/// A list whose types name none by its index in a module stays so, ids stand for what they stood for, those of other modules too, and where groups that count as
/// canonical are found by their keys, they still are.
pub fn context_stays()
    ensures no_module { (features : Features) (ids : List ℕ) (old new : TypeTables) (group : RecGroup Index) (is_new : Bool) (number : ℕ) → IsGroupOfModule old new ids group
        → Interns old new (needs_type_canonicalization features) (canonical_members ids group) is_new number → RefersToNoModule new }
    ensures types { (canonical : ℕ → Bool) (features : Features) (ids others : List ℕ) (old new : TypeTables) (group : RecGroup Index) (is_new : Bool) (number : ℕ) → IsGroupOfModule old new ids group
        → Interns old new (needs_type_canonicalization features) (canonical_members ids group) is_new number → AreKnown old others
        → types_of canonical new others ≡ types_of canonical old others }
    ensures found { (canonical : ℕ → Bool) (features : Features) (ids : List ℕ) (old new : TypeTables) (group : RecGroup Index) (is_new : Bool) (number : ℕ)
        → Interns old new (needs_type_canonicalization features) (canonical_members ids group) is_new number
        → (canonical number ≡ true → needs_type_canonicalization features ≡ true) → AreFoundByKey canonical old → AreFoundByKey canonical new }
{}

/// A type that is interned by itself, as by `TypeList::intern_sub_type`, leaves each type of a list below earlier ones of its own kind where it declares no supertype
/// or a known one of its kind, as a final function type does, and brings in no index in a module where it names none.
pub fn single_types_are_interned()
    ensures earlier { (old new : TypeTables) (type : SubType Index) (is_new : Bool) (number : ℕ) → AreBelowEarlier (slice_get (sub_types old))
        → IsBelowEarlier (slice_get (sub_types old)) (length old.types) type → Interns old new true (type ∷ []) is_new number → AreBelowEarlier (slice_get (sub_types new)) }
    ensures function { (old new : TypeTables) (type : FuncType Index) (is_new : Bool) (number : ℕ) → AreBelowEarlier (slice_get (sub_types old))
        → Interns old new true (final_func type ∷ []) is_new number → AreBelowEarlier (slice_get (sub_types new)) }
    ensures no_module { (old new : TypeTables) (type : SubType Index) (is_new : Bool) (number : ℕ) → RefersToNoModule old
        → AllByRecursion (λ index. module_index index ≡ None) (sub_refs type) → Interns old new true (type ∷ []) is_new number → RefersToNoModule new }
{}
