//! Laws about the definitions, each the contract of a function without code.
ghost use Rattle.std.specs.Prelude.{◌≡◌, ℕ, List, ◌∷◌, ◌++◌, Result, Err};
ghost use Rattle.c11_macros.specs.Expansion.{Expands, IsWithin};
ghost use Rattle.c11_macros.specs.Footprint.{footprint};
ghost use Rattle.c11_macros.specs.Hidden.{Failure, Hidden, Provenance};
ghost use Rattle.c11_macros.specs.Macros.{Macros};
ghost use Rattle.c11_macros.specs.Resumed.{BeginsWithRun, Continues, EndExpands, Resumed};
ghost use Rattle.c11_macros.specs.Runs.{End, IsHeld, Passes, Runs, Settles, SettlesTo, Uses, after_these};
ghost use Rattle.c11_macros.specs.Trace.{Agree, ExpandsBy, Same, trace};

/// A list has one expansion, and that by one trace.
pub fn expansion_has_one_answer<P>()
    ensures { (provenance : Provenance P) (macros : Macros) (ts : List (Hidden P)) (r s : Result (List (Hidden P)) (Failure P))
        (d : Expands provenance macros ts r) (e : Expands provenance macros ts s) → Same r s (trace d) (trace e) }
{}

/// The name that stands first in a list has one footprint, by whatever derivation it expands.
pub fn name_has_one_footprint<P>()
    ensures { (provenance : Provenance P) (macros : Macros) (t : Hidden P) (rest : List (Hidden P)) (r s : Result (List (Hidden P)) (Failure P))
        (d : Expands provenance macros (t ∷ rest) r) (e : Expands provenance macros (t ∷ rest) s) → footprint d ≡ footprint e }
{}

/// Tables that define the names alike that an expansion looked up give it the same answer, by the
/// same trace.
pub fn expansion_depends_on_the_names_looked_up<P>()
    ensures { (provenance : Provenance P) (one two : Macros) (ts : List (Hidden P)) (r : Result (List (Hidden P)) (Failure P))
        (d : Expands provenance one ts r) → Agree one two (trace d).looked_up → ExpandsBy provenance two ts r (trace d) }
{}

/// Where finitely many names are defined every list has an expansion, so expansion ends.
pub fn expansion_has_an_answer<P>()
    ensures { (provenance : Provenance P) (macros : Macros) (names : List (List ℕ)) → IsWithin names macros
        → (ts : List (Hidden P)) → (r : Result (List (Hidden P)) (Failure P)) × Expands provenance macros ts r }
{}

/// What stands in front of a list has one run.
pub fn run_has_one_answer<P>()
    ensures { (provenance : Provenance P) (macros : Macros) (front source one two : List (Hidden P)) (x y : End P) (u v : Uses P)
        → Runs provenance macros front source one x u → Runs provenance macros front source two y v → (one ≡ two) × (x ≡ y) × (u ≡ v) }
{}

/// Tables that define the names alike that a run looked up have the same run.
pub fn run_depends_on_the_names_looked_up<P>()
    ensures { (provenance : Provenance P) (one two : Macros) (front source done : List (Hidden P)) (end : End P) (u : Uses P)
        → Runs provenance one front source done end u → Agree one two u.looked_up → Runs provenance two front source done end u }
{}

/// What a list expands to is what a run of its front makes of it, and then what is left expands to.
pub fn run_expands<P>()
    ensures { (provenance : Provenance P) (macros : Macros) (front source done : List (Hidden P)) (end : End P) (u : Uses P) (r : Result (List (Hidden P)) (Failure P))
        → Runs provenance macros front source done end u → EndExpands provenance macros end r → Expands provenance macros (front ++ source) (after_these done r) }
{}

/// A list that expands has a run of each part of it that stands in front.
pub fn expansion_begins_with_a_run<P>()
    ensures { (provenance : Provenance P) (macros : Macros) (front source : List (Hidden P)) (r : Result (List (Hidden P)) (Failure P))
        → Expands provenance macros (front ++ source) r → BeginsWithRun provenance macros front source r }
{}

/// A run goes on where more follows the list: it is what it was, and then what continues it.
pub fn run_goes_on<P>()
    ensures { (provenance : Provenance P) (macros : Macros) (more front source done later : List (Hidden P)) (first last : End P) (u v : Uses P)
        → Runs provenance macros front source done first u → Continues provenance macros more first later last v
        → Resumed provenance macros more front source (done ++ later) first last u v }
{}

/// What a list expands to behind the names that were passed.
pub fn names_that_passed_expand<P>()
    ensures { (provenance : Provenance P) (macros : Macros) (ts done after : List (Hidden P)) (r : Result (List (Hidden P)) (Failure P))
        → Passes provenance macros ts done after → Expands provenance macros after r → Expands provenance macros ts (after_these done r) }
{}

/// What a settled list expands to, whatever follows it.
pub fn settled_list_expands<P>()
    ensures { (provenance : Provenance P) (macros : Macros) (ts done rest more : List (Hidden P)) (r : Result (List (Hidden P)) (Failure P))
        → Settles provenance macros ts done rest → Expands provenance macros (rest ++ more) r → Expands provenance macros (ts ++ more) (after_these done r) }
{}

/// A list that is held has its failure, whatever follows it.
pub fn held_list_fails<P>()
    ensures { (provenance : Provenance P) (macros : Macros) (ts more : List (Hidden P)) (failure : Failure P)
        → IsHeld provenance macros ts failure → Expands provenance macros (ts ++ more) (Err failure) }
{}

/// What was left of a list settles again where more follows, as the whole list does there.
pub fn list_settles_again<P>()
    ensures { (provenance : Provenance P) (macros : Macros) (ts before left more done rest : List (Hidden P))
        → Settles provenance macros ts before left → Settles provenance macros (left ++ more) done rest → Settles provenance macros (ts ++ more) (before ++ done) rest }
{}

/// What was left of a list is held where more follows, as the whole list is there.
pub fn list_is_held_again<P>()
    ensures { (provenance : Provenance P) (macros : Macros) (ts before left more : List (Hidden P)) (failure : Failure P)
        → Settles provenance macros ts before left → IsHeld provenance macros (left ++ more) failure → IsHeld provenance macros (ts ++ more) failure }
{}

/// What is held stays so, whatever follows it.
pub fn held_list_stays_held<P>()
    ensures { (provenance : Provenance P) (macros : Macros) (ts more : List (Hidden P)) (failure : Failure P)
        → IsHeld provenance macros ts failure → IsHeld provenance macros (ts ++ more) failure }
{}

/// A list settles or is held in one way.
pub fn settling_has_one_answer<P>()
    ensures { (provenance : Provenance P) (macros : Macros) (ts : List (Hidden P)) (r s : Result (List (Hidden P) × List (Hidden P)) (Failure P))
        → SettlesTo provenance macros ts r → SettlesTo provenance macros ts s → r ≡ s }
{}

/// Where finitely many names are defined each list settles or is held.
pub fn settling_has_an_answer<P>()
    ensures { (provenance : Provenance P) (macros : Macros) (names : List (List ℕ)) → IsWithin names macros
        → (ts : List (Hidden P)) → (r : Result (List (Hidden P) × List (Hidden P)) (Failure P)) × SettlesTo provenance macros ts r }
{}
