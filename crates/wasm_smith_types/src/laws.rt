//! Laws of groups that are made: their limits, clones, shifts and draws, and the types of shapes. The functions do nothing: their contracts are theorems.

ghost use Rattle.std.specs.Prelude.{◌≡◌, ◌<◌, ℕ, List, [], ◌∷◌, ◌+◌, ◌++◌, IfSome, None, Some, map, length, slice_get, true};
ghost use Rattle.wasm_spec.specs.Features.{Features};
ghost use Rattle.wasm_spec.specs.Groups.{AreWellFormedGroups};
ghost use Rattle.wasm_spec.specs.TypeReferences.{group_map, sub_map};
ghost use Rattle.wasm_spec.specs.Types.{RecGroup, SubType};
ghost use Rattle.wasm_smith_config.specs.Config.{AreFeaturesOf};
ghost use Rattle.wasm_smith_config.specs.declared.config.Config.{Config};
ghost use Rattle.wasm_smith_types.specs.Bounds.{AreSmall};
ghost use Rattle.wasm_smith_types.specs.Clones.{clone_of};
ghost use Rattle.wasm_smith_types.specs.Drawing.{Offers, composite_at};
ghost use Rattle.wasm_smith_types.specs.DrawnGroups.{AreSome, drawn_groups_at};
ghost use Rattle.wasm_smith_types.specs.Given.{AreMade, AskForMore, HaveGoodGroups, for_drawing, type_count, types_given, with_given};
ghost use Rattle.wasm_smith_types.specs.Offering.{offers};
ghost use Rattle.wasm_smith_types.specs.Permitted.{Suits, SuitsValues, IsPermittedComposite};
ghost use Rattle.wasm_smith_validity.specs.ValidGroups.{AreValidGroups, IsValidGroup, types_of};

/// Groups that are valid by index and whose types are small are well-formed: no limit is passed.
pub fn small_groups()
    ensures { (features : Features) (groups : List (RecGroup ℕ)) → AreValidGroups features groups → AreSmall (types_of groups)
        → AreWellFormedGroups features [] groups }
{}

/// A clone of one of the groups is valid after them.
pub fn clones()
    ensures { (features : Features) (front back : List (RecGroup ℕ)) (group : RecGroup ℕ) → AreValidGroups features (front ++ (group ∷ back))
        → IsValidGroup features (types_of (front ++ (group ∷ back))) (clone_of (length (types_of front)) (length (types_of (front ++ (group ∷ back)))) group) }
{}

/// Groups that are valid by themselves are valid after others, their references shifted by the number of types before them.
pub fn shifted_groups()
    ensures { (features : Features) (groups others : List (RecGroup ℕ)) → AreValidGroups features groups → AreValidGroups features others
        → AreValidGroups features (groups ++ map (group_map (λ r. length (types_of groups) + r)) others) }
{}

/// The offers of a configuration suit its features.
pub fn suited_offers()
    ensures values { (c : Config) (features : Features) → AreFeaturesOf c features → SuitsValues features (offers c) }
    ensures types { (c : Config) (features : Features) → AreFeaturesOf c features → c.gc_enabled ≡ true → Suits features (offers c) }
{}

/// A composite type that is drawn is permitted under features that suit what is offered, whatever the bytes are.
pub fn permitted_draws()
    ensures { (features : Features) (o : Offers) (bound : ℕ) (s : List ℕ) → Suits features o → IsPermittedComposite features bound (composite_at o bound s).0 }
{}

/// The types of shapes stand behind those that are drawn, first those that come with imports. Their references are shifted by the number of types before them.
pub fn given_types()
    ensures count { (c : Config) (drawn : List (RecGroup ℕ)) → length (types_of (with_given c drawn))
        ≡ length (types_of drawn) + (type_count c.available_imports + type_count c.exports) }
    ensures places { (c : Config) (drawn : List (RecGroup ℕ)) (n m : ℕ) → n ≡ length (types_of drawn) → m ≡ n + type_count c.available_imports
        → types_of (with_given c drawn) ≡ types_of drawn
        ++ (map (sub_map (λ r. n + r)) (types_given c.available_imports) ++ map (sub_map (λ r. m + r)) (types_given c.exports)) }
    ensures imports { (c : Config) (drawn : List (RecGroup ℕ)) (n i : ℕ) (type : SubType ℕ) → n ≡ length (types_of drawn)
        → slice_get (types_given c.available_imports) i ≡ Some type
        → slice_get (types_of (with_given c drawn)) (n + i) ≡ Some (sub_map (λ r. n + r) type) }
    ensures exports { (c : Config) (drawn : List (RecGroup ℕ)) (n i : ℕ) (type : SubType ℕ) → n ≡ length (types_of drawn)
        → slice_get (types_given c.exports) i ≡ Some type
        → slice_get (types_of (with_given c drawn)) (n + type_count c.available_imports + i)
        ≡ Some (sub_map (λ r. n + type_count c.available_imports + r) type) }
{}

/// Without shapes, groups are made as they are drawn.
pub fn groups_without_shapes()
    ensures given { (c : Config) (drawn : List (RecGroup ℕ)) → c.available_imports ≡ None → c.exports ≡ None → with_given c drawn ≡ drawn }
    ensures drawing { (c : Config) → c.module_shape ≡ None → c.available_imports ≡ None → c.exports ≡ None → for_drawing c ≡ c }
    ensures good { (c : Config) → c.module_shape ≡ None → c.available_imports ≡ None → c.exports ≡ None → HaveGoodGroups c }
    ensures made { (c : Config) (old new : List ℕ) (groups : List (RecGroup ℕ)) → c.module_shape ≡ None → c.available_imports ≡ None → c.exports ≡ None
        → AreMade c old new groups → IfSome (drawn_groups_at c old) (λ drawn. drawn ≡ (groups, new)) × AreSmall (types_of groups) × AreSome groups }
    ensures more { (c : Config) (s : List ℕ) (most : ℕ) → c.module_shape ≡ None → c.available_imports ≡ None → c.exports ≡ None → AskForMore c s most
        → (most < c.max_types) × IfSome (drawn_groups_at c s) (λ drawn. most < length (types_of drawn.0)) }
{}
