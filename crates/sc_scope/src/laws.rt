//! Laws about the definitions, each the contract of a function without code.
ghost use Rattle.std.specs.Prelude.{◌≡◌, ℕ, true, false, List, [], ◌∷◌, Some, slice_get, drop};
ghost use Rattle.c11_parsing.specs.Bindings as plain;
ghost use Rattle.sc_base.specs.declared.id.Cond.{Cond};
ghost use Rattle.sc_model.specs.Growth.{IsOneToOne};
ghost use Rattle.sc_model.specs.Sets.{Sets, IsCond, Keeps};
ghost use Rattle.sc_scope.specs.declared.kind.NameKind.{NameKind};
ghost use Rattle.sc_scope.specs.Kinds.{IsOnlyIn, KeepsKinds};
ghost use Rattle.sc_scope.specs.Levels.{Level, no_bindings, bound, joined};
ghost use Rattle.sc_scope.specs.Search.{is_typedef_at, OwnsLevels};
ghost use Rattle.sc_scope.specs.Shows.{Shows, kind_of, is_type};

/// At a configuration the calls do to levels what reductions do to them there, and a name is a
/// typedef where its innermost binding is one.
pub fn scopes_follow_bindings()
    ensures push { (sets : Sets) (names : List (List ℕ)) (c : List ℕ) (levels : List Level) (others : List plain.Level)
        → Shows sets names c levels others → Shows sets names c (no_bindings ∷ levels) ([] ∷ others) }
    ensures pop { (sets : Sets) (names : List (List ℕ)) (c : List ℕ) (levels : List Level) (others : List plain.Level)
        → Shows sets names c levels others → Shows sets names c (drop 1 levels) (plain.pop others) }
    ensures join { (sets : Sets) (names : List (List ℕ)) (c : List ℕ) (levels : List Level) (others : List plain.Level)
        → Shows sets names c levels others → Shows sets names c (joined levels) (plain.join others) }
    ensures bind { (sets : Sets) (names : List (List ℕ)) (c : List ℕ) (name : ℕ) (text : List ℕ) (cond : Cond) (kind : NameKind) (levels : List Level) (others : List plain.Level)
        → IsOneToOne names → slice_get names name ≡ Some text → sets.has cond.0 c ≡ true → Shows sets names c levels others
        → Shows sets names c (bound name (cond, kind) levels) (plain.bind (kind_of kind) text others) }
    ensures elsewhere { (sets : Sets) (names : List (List ℕ)) (c : List ℕ) (name : ℕ) (cond : Cond) (kind : NameKind) (levels : List Level) (others : List plain.Level)
        → sets.has cond.0 c ≡ false → Shows sets names c levels others → Shows sets names c (bound name (cond, kind) levels) others }
    ensures typedef { (sets : Sets) (names : List (List ℕ)) (c : List ℕ) (name : ℕ) (text : List ℕ) (levels : List Level) (others : List plain.Level)
        → slice_get names name ≡ Some text → Shows sets names c levels others → is_typedef_at sets levels name c ≡ is_type (plain.innermost text others) }
    ensures merge { (old new : Sets) (names : List (List ℕ)) (c : List ℕ) (cond other : Cond) (levels merged : List Level) (others : List plain.Level)
        → KeepsKinds old new cond other levels merged → IsOnlyIn old cond other c → Shows old names c levels others → Shows new names c merged others }
{}

/// Levels whose conditions are the store's stay such under each call, as the store grows too.
pub fn scopes_own_their_conditions()
    ensures new { (sets : Sets) → OwnsLevels sets [] }
    ensures push { (sets : Sets) (levels : List Level) → OwnsLevels sets levels → OwnsLevels sets (no_bindings ∷ levels) }
    ensures pop { (sets : Sets) (levels : List Level) → OwnsLevels sets levels → OwnsLevels sets (drop 1 levels) }
    ensures join { (sets : Sets) (levels : List Level) → OwnsLevels sets levels → OwnsLevels sets (joined levels) }
    ensures bind { (sets : Sets) (name : ℕ) (cond : Cond) (kind : NameKind) (levels : List Level) → IsCond sets cond.0 → OwnsLevels sets levels → OwnsLevels sets (bound name (cond, kind) levels) }
    ensures grows { (old new : Sets) (levels : List Level) → Keeps old new → OwnsLevels old levels → OwnsLevels new levels }
{}
