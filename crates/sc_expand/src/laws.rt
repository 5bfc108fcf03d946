//! Laws about the definitions, each the contract of a function without code.
ghost use Rattle.std.specs.Prelude.{◌≡◌, ℕ, ◌+◌, ◌<◌, true, false, [], ◌∷◌, Err, List, All, Ok, Result, Some, length, map, slice_get};
ghost use Rattle.c11_macros.specs.Expansion.{Expands, IsWithin};
ghost use Rattle.c11_macros.specs.Footprint.{footprint};
ghost use Rattle.c11_macros.specs.Hidden.{Failure, Hidden, Provenance};
ghost use Rattle.c11_macros.specs.Macros.{Macros};
ghost use Rattle.c11_macros.specs.Runs.{End, IsHeld, Runs, Settles, Uses, after_these, fails, over};
ghost use Rattle.c11_macros.specs.Text.{TextExpands};
ghost use Rattle.c11_macros.specs.Trace.{Agree, trace};
ghost use Rattle.sc_base.specs.declared.id.Cond.{Cond};
ghost use Rattle.sc_expand.specs.Moved.{IsKept, moved, moved_answer, moved_failure};
ghost use Rattle.sc_expand.specs.OneLine.{AreOneLine, IsInPlace, IsOneLine};
ghost use Rattle.sc_expand.specs.Open.{LeadsOn, Waits, closed};
ghost use Rattle.sc_expand.specs.Plain.{Fails, Leads, Moves, State, scanning};
ghost use Rattle.sc_expand.specs.Spans.{InSegments, IsSettling, of_item};
ghost use Rattle.sc_expand.specs.Thin.{IsThin};
ghost use Rattle.sc_model.specs.Bytes.{has_no_newline};
ghost use Rattle.sc_model.specs.Sets.{IsConfig, Sets};
ghost use Rattle.sc_model.specs.Token.{Token};

/// What the steps of a list put out is its expansion, and a failure that ends them is its first.
pub fn steps_give_the_expansion<P>()
    ensures list { (provenance : Provenance P) (macros : Macros) (list out : List (Hidden P))
        → Leads provenance macros (scanning [] list) (scanning out []) → Expands provenance macros list (Ok out) }
    ensures failure { (provenance : Provenance P) (macros : Macros) (list : List (Hidden P)) (s : State P) (failure : Failure P)
        → Leads provenance macros (scanning [] list) s → Fails provenance macros s failure → Expands provenance macros list (Err failure) }
{}

/// Steps that are steps whatever follows the list settle it. It waits where they come to a state
/// that waits, and is held by a failure that what follows can't mend.
pub fn steps_settle_the_list<P>()
    ensures whole { (provenance : Provenance P) (macros : Macros) (list out : List (Hidden P))
        → LeadsOn provenance macros (scanning [] list) (scanning out []) → Settles provenance macros list out [] }
    ensures waits { (provenance : Provenance P) (macros : Macros) (list out rest : List (Hidden P))
        → LeadsOn provenance macros (scanning [] list) (scanning out rest) → Waits macros (scanning out rest)
        → Settles provenance macros list out rest }
    ensures held { (provenance : Provenance P) (macros : Macros) (list : List (Hidden P)) (s : State P) (failure : Failure P)
        → LeadsOn provenance macros (scanning [] list) s → Fails provenance macros s failure → (Waits macros s → ⊥)
        → IsHeld provenance macros list failure }
{}

/// What a list that has settled, or is held, expands to where nothing follows it.
pub fn settled_list_closes<P>()
    ensures settled { (provenance : Provenance P) (macros : Macros) (list done rest : List (Hidden P))
        → Settles provenance macros list done rest → Expands provenance macros list (after_these done (closed rest)) }
    ensures held { (provenance : Provenance P) (macros : Macros) (list : List (Hidden P)) (failure : Failure P)
        → IsHeld provenance macros list failure → Expands provenance macros list (Err failure) }
{}

/// A list that has settled is thin: of an item that configurations expand alike, or that itself
/// stays or waits, they have the same in one element.
pub fn settled_list_is_thin<T, P>()
    ensures { (see : T → Hidden P) (provenance : Provenance P) (macros : List ℕ → Macros) (s : Sets) (list : List (Cond × T)) (cond : ℕ)
        (later : Sets) (look : T → Hidden P) (count : ℕ) (out : List (Cond × T)) (kept : List (ℕ × (Cond × T)))
        (b : InSegments see provenance macros s list cond later look count out kept) (at : ℕ) (x : List (Cond × T)) → slice_get b.segments at ≡ Some x
        → (c d : List ℕ) → IsConfig s.arities c → IsConfig s.arities d → s.has cond c ≡ true → s.has cond d ≡ true
        → IsSettling see provenance macros s list c → IsSettling see provenance macros s list d
        → IsThin see provenance macros s list at later x (of_item at kept) c d }
{}

/// Where finitely many names are defined, steps do not go on for ever: each leaves fewer.
pub fn steps_end<P>()
    ensures { (provenance : Provenance P) (macros : Macros) (names : List (List ℕ)) → IsWithin names macros
        → (size : State P → ℕ) × ((s t : State P) → Moves provenance macros s t → size t < size s) }
{}

/// Tables that define the names alike that the expansion of a list looks up make the same steps of
/// it.
pub fn steps_depend_on_the_names_looked_up<P>()
    ensures { (provenance : Provenance P) (one two : Macros) (names : List (List ℕ)) → IsWithin names one
        → (list : List (Hidden P)) (r : Result (List (Hidden P)) (Failure P))
        (d : Expands provenance one list r) → Agree one two (trace d).looked_up → (s : State P)
        → Leads provenance one (scanning [] list) s → Leads provenance two (scanning [] list) s }
{}

/// What the run of a name takes of the list behind it, and what it looks up, is in its footprint,
/// which has failed where the run fails, and not where it is over.
pub fn runs_take_the_footprint<P>()
    ensures { (provenance : Provenance P) (macros : Macros) (names : List (List ℕ)) → IsWithin names macros
        → (t : Hidden P) (rest done : List (Hidden P)) (end : End P) (u : Uses P) → Runs provenance macros (t ∷ []) rest done end u
        → (r : Result (List (Hidden P)) (Failure P)) (d : Expands provenance macros (t ∷ rest) r)
        → ((footprint d).left + length u.taken ≡ length rest)
        × ((one two : Macros) → Agree one two (footprint d).looked_up → Agree one two u.looked_up)
        × ((after : List (Hidden P)) → end ≡ over after → (footprint d).fails ≡ false)
        × ((failure : Failure P) → end ≡ fails failure → (footprint d).fails ≡ true) }
{}

/// What a list expands to does not depend on what is kept of the places of its tokens.
pub fn expansion_commutes_with_maps_of_places<P, Q>()
    ensures { (one : Provenance P) (two : Provenance Q) (f : P → Q) → IsKept one two f
        → (macros : Macros) (ts : List (Hidden P)) (r : Result (List (Hidden P)) (Failure P))
        → Expands one macros ts r → Expands two macros (map (moved f) ts) (moved_answer f r) }
{}

/// What a list settles to does not depend on what is kept of the places of its tokens.
pub fn settling_commutes_with_maps_of_places<P, Q>()
    ensures settled { (one : Provenance P) (two : Provenance Q) (f : P → Q) → IsKept one two f
        → (macros : Macros) (list done rest : List (Hidden P)) → Settles one macros list done rest
        → Settles two macros (map (moved f) list) (map (moved f) done) (map (moved f) rest) }
    ensures held { (one : Provenance P) (two : Provenance Q) (f : P → Q) → IsKept one two f
        → (macros : Macros) (list : List (Hidden P)) (failure : Failure P) → IsHeld one macros list failure
        → IsHeld two macros (map (moved f) list) (moved_failure f failure) }
{}

/// Where the tokens of a list, the names of their files and the macros' lists have no newline in
/// them, what the list expands to, or settles to and leaves, has none.
pub fn expansion_stays_on_one_line<P>()
    ensures list { (provenance : Provenance P) → IsInPlace provenance → (macros : Macros) → AreOneLine macros → (list out : List (Hidden P))
        → All (IsOneLine provenance) list
        → Expands provenance macros list (Ok out) → All (IsOneLine provenance) out }
    ensures settled { (provenance : Provenance P) → IsInPlace provenance → (macros : Macros) → AreOneLine macros → (list done rest : List (Hidden P))
        → All (IsOneLine provenance) list
        → Settles provenance macros list done rest → All (IsOneLine provenance) done × All (IsOneLine provenance) rest }
    ensures text { (macros : Macros) → AreOneLine macros → (text output : List Token) → All (λ t. has_no_newline t.spelling ≡ true) text
        → All (λ t. has_no_newline t.place.file ≡ true) text
        → TextExpands macros text (Ok output) → All (λ t. has_no_newline t.spelling ≡ true) output }
{}
