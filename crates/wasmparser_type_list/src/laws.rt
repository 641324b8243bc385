//! Laws of lists of types whose tables agree, for whichever groups count as canonical.

ghost use Rattle.std.specs.Prelude.{◌≡◌, ℕ, ◌<◌, Bool, List, [], ◌++◌, length, true};
ghost use Rattle.wasm_spec.specs.ReferenceMaps.{ReferToTypes, Carries, CarriesBack, CarriesLimitsBack, IsOneToOne, KeepsTypes};
ghost use Rattle.wasm_spec.specs.Trees.{AreDistinct, section_types, type_at, unrolled};
ghost use Rattle.wasm_spec.specs.Types.{SubType, RecGroup};
ghost use Rattle.wasmparser_types.specs.Index.{Index};
ghost use Rattle.wasmparser_type_list.specs.TypeTables.{Adds, Interns, TablesAgree, TypeTables, committed, group_ids, type_by_id};
ghost use Rattle.wasmparser_type_list.specs.IdTypes.{AreFoundByKey, IsFoundByKey, IsWholeGroup, RefersToNoModule, group_after, groups_of, id_types, id_types_after, id_types_from, type_of_index};

/// Each id stands for a defined type, which unrolls to the kept type with its ids replaced by what they stand for.
pub fn ids_are_types()
    ensures count { (canonical : ℕ → Bool) (tables : TypeTables) → TablesAgree tables → length (id_types canonical tables) ≡ length tables.types }
    ensures unrolls { (canonical : ℕ → Bool) (tables : TypeTables) → TablesAgree tables → RefersToNoModule tables
        → KeepsTypes (type_of_index canonical tables) (type_by_id tables) unrolled }
    ensures closed { (tables : TypeTables) → TablesAgree tables → RefersToNoModule tables → ReferToTypes (type_by_id tables) }
    ensures along { (canonical : ℕ → Bool) (tables : TypeTables) → TablesAgree tables → RefersToNoModule tables
        → Carries (type_of_index canonical tables) (type_by_id tables) unrolled }
    ensures limits_back { (canonical : ℕ → Bool) (tables : TypeTables) → TablesAgree tables → RefersToNoModule tables
        → CarriesLimitsBack (type_of_index canonical tables) (type_by_id tables) unrolled }

    ensures groups { (canonical : ℕ → Bool) (tables : TypeTables) (number : ℕ) → TablesAgree tables → number < length tables.groups
        → IsWholeGroup (id_types canonical tables) (group_ids tables number) }

    // Where all groups count as canonical, these are the types of a type section.
    ensures section { (tables : TypeTables) → id_types (λ (number : ℕ). true) tables ≡ section_types (groups_of tables) }

    // A copy that doesn't grow on has the same types.
    ensures committed { (canonical : ℕ → Bool) (tables : TypeTables) → id_types canonical (committed tables) ≡ id_types canonical tables }
{}

/// Where each group that counts as canonical is found by its key, no type has two ids: two ids are equal exactly when the types they stand for are equal, and
/// subtyping on ids agrees with subtyping on those types.
pub fn equal_types_have_one_id()
    ensures distinct { (canonical : ℕ → Bool) (tables : TypeTables) → TablesAgree tables → RefersToNoModule tables → AreFoundByKey canonical tables
        → AreDistinct (id_types canonical tables) }
    ensures one_to_one { (canonical : ℕ → Bool) (tables : TypeTables) → TablesAgree tables → RefersToNoModule tables → AreFoundByKey canonical tables
        → IsOneToOne (type_of_index canonical tables) (type_by_id tables) }
    ensures back { (canonical : ℕ → Bool) (tables : TypeTables) → TablesAgree tables → RefersToNoModule tables → AreFoundByKey canonical tables
        → CarriesBack (type_of_index canonical tables) (type_by_id tables) unrolled }

    // So it is of a copy that doesn't grow on, whose groups are found in the list that it was taken of.
    ensures copies_distinct { (canonical : ℕ → Bool) (tables : TypeTables) → TablesAgree tables → RefersToNoModule tables → AreFoundByKey canonical tables
        → AreDistinct (id_types canonical (committed tables)) }
    ensures copies_back { (canonical : ℕ → Bool) (tables : TypeTables) → TablesAgree tables → RefersToNoModule tables → AreFoundByKey canonical tables
        → CarriesBack (type_of_index canonical (committed tables)) (type_by_id (committed tables)) unrolled }
{}

/// Interning adds the types of a new group after the others, whose ids stand for what they stood for. What was interned with canonicalization is found by
/// its key, also after more was interned.
pub fn interned_groups()
    ensures types { (canonical : ℕ → Bool) (old new : TypeTables) (group : List (SubType Index)) (number : ℕ) → TablesAgree old → Adds old new group number
        → id_types canonical new ≡ id_types_after (canonical number) number (id_types canonical old) (group_after (length old.types) group) }
    ensures found { (old new : TypeTables) (group : List (SubType Index)) (is_new : Bool) (number : ℕ) → Interns old new true group is_new number
        → IsFoundByKey new number }
    ensures still_found { (old new : TypeTables) (canonical : Bool) (group : List (SubType Index)) (is_new : Bool) (number other : ℕ)
        → Interns old new canonical group is_new number → IsFoundByKey old other → IsFoundByKey new other }
{}

/// The type of an id depends on its group and the groups before it alone, and on which of these count as canonical. So a list that has grown changes no type
/// of a module, under whatever features later groups were interned.
pub fn later_groups_change_no_type()
    ensures { (canonical other : ℕ → Bool) (groups later : List (RecGroup ℕ)) (id : ℕ) → ((number : ℕ) → number < length groups → other number ≡ canonical number)
        → id < length (id_types_from canonical 0 [] groups) → type_at (id_types_from other 0 [] (groups ++ later)) id ≡ type_at (id_types_from canonical 0 [] groups) id }
{}
