ghost use Rattle.std.specs.Prelude.{◌≡◌, ℕ, ◌+◌, ◌<◌, ◌⊎◌, ◌↔◌, ◌==◌, ◌&&◌, ◌||◌, not, Bool, true, false, List, length, slice_index, slice_set, IsTrue, IsNone, IfSome, IfOk};
ghost use Rattle.std.specs.Bool.{OnTrue, OnFalse};
ghost use Rattle.sc_diagram.specs.Simplified.{SaysWithin};
ghost use Rattle.sc_model.specs.Sets.{Sets, IsConfig, HasOptions, IsCond, Denotes, Keeps, IsNever, IsAlways, IsSame, IsCanonical, IsTop, DependsFrom};

use sc_base::{Cond, OutOfMemory};

/// A store of presence conditions over the configurations of some variables.
///
/// A configuration is one option index for each variable. Conditions are made by the store, and
/// each means one set of configurations for good: the store only grows, also where a call finds no
/// memory. Two conditions of one store that mean the same set are the same id.
pub trait Conditions {
    ghost sets: { Self → Sets };

    /// The condition that every configuration has.
    fn always(&self) -> Cond
        ensures own { IsCond (sets self.now) result.0 }
        ensures meaning { Denotes (sets self.now) result.0 (λ _. true) };

    /// The condition that no configuration has.
    fn never(&self) -> Cond
        ensures own { IsCond (sets self.now) result.0 }
        ensures meaning { Denotes (sets self.now) result.0 (λ _. false) };

    /// The configurations in which the variable has this option.
    fn choose(&mut self, variable: usize, option: usize) -> Result<Cond, OutOfMemory>
        requires variable { variable < length (sets self.old).arities }
        requires option { option < slice_index (sets self.old).arities variable }
        ensures own { IfOk result (λ r. IsCond (sets self.new) r.0) }
        ensures meaning { IfOk result (λ r. Denotes (sets self.new) r.0 (λ c. slice_index c variable == option)) }

        // at every outcome
        ensures keeps { Keeps (sets self.old) (sets self.new) };

    /// The configurations that both conditions have.
    fn apply_and(&mut self, a: Cond, b: Cond) -> Result<Cond, OutOfMemory>
        requires a_own { IsCond (sets self.old) a.0 }
        requires b_own { IsCond (sets self.old) b.0 }
        ensures own { IfOk result (λ r. IsCond (sets self.new) r.0) }
        ensures meaning { IfOk result (λ r. (f g : List ℕ → Bool) → Denotes (sets self.old) a.0 f
            → Denotes (sets self.old) b.0 g → Denotes (sets self.new) r.0 (λ c. f c && g c)) }

        // at every outcome
        ensures keeps { Keeps (sets self.old) (sets self.new) };

    /// The configurations that either condition has.
    fn apply_or(&mut self, a: Cond, b: Cond) -> Result<Cond, OutOfMemory>
        requires a_own { IsCond (sets self.old) a.0 }
        requires b_own { IsCond (sets self.old) b.0 }
        ensures own { IfOk result (λ r. IsCond (sets self.new) r.0) }
        ensures meaning { IfOk result (λ r. (f g : List ℕ → Bool) → Denotes (sets self.old) a.0 f
            → Denotes (sets self.old) b.0 g → Denotes (sets self.new) r.0 (λ c. f c || g c)) }

        // at every outcome
        ensures keeps { Keeps (sets self.old) (sets self.new) };

    /// The configurations that the first condition has and the second one has not.
    fn apply_without(&mut self, a: Cond, b: Cond) -> Result<Cond, OutOfMemory>
        requires a_own { IsCond (sets self.old) a.0 }
        requires b_own { IsCond (sets self.old) b.0 }
        ensures own { IfOk result (λ r. IsCond (sets self.new) r.0) }
        ensures meaning { IfOk result (λ r. (f g : List ℕ → Bool) → Denotes (sets self.old) a.0 f
            → Denotes (sets self.old) b.0 g → Denotes (sets self.new) r.0 (λ c. f c && not (g c))) }

        // at every outcome
        ensures keeps { Keeps (sets self.old) (sets self.new) };

    /// The configurations that the condition has not.
    fn negate(&mut self, a: Cond) -> Result<Cond, OutOfMemory>
        requires { IsCond (sets self.old) a.0 }
        ensures own { IfOk result (λ r. IsCond (sets self.new) r.0) }
        ensures meaning { IfOk result (λ r. (f : List ℕ → Bool) → Denotes (sets self.old) a.0 f
            → Denotes (sets self.new) r.0 (λ c. not (f c))) }

        // at every outcome
        ensures keeps { Keeps (sets self.old) (sets self.new) };

    /// What remains of the condition where the variable has this option: it has each configuration
    /// that the condition has once the variable is set to the option, and so it does not depend on
    /// the variable.
    fn part(&mut self, a: Cond, variable: usize, option: usize) -> Result<Cond, OutOfMemory>
        requires own { IsCond (sets self.old) a.0 }
        requires variable { variable < length (sets self.old).arities }
        requires option { option < slice_index (sets self.old).arities variable }
        ensures own { IfOk result (λ r. IsCond (sets self.new) r.0) }
        ensures meaning { IfOk result (λ r. (f : List ℕ → Bool) → Denotes (sets self.old) a.0 f
            → Denotes (sets self.new) r.0 (λ c. f (slice_set c variable option))) }

        // the children of a node depend on later variables alone, and the one for a configuration's
        // option says what the node says
        ensures later { IfOk result (λ r. DependsFrom (sets self.old) a.0 variable
            → DependsFrom (sets self.new) r.0 (variable + 1)) }
        ensures chosen { IfOk result (λ r. (c : List ℕ) → IsConfig (sets self.old).arities c
            → slice_index c variable ≡ option → (sets self.new).has r.0 c ≡ (sets self.old).has a.0 c) }

        // at every outcome
        ensures keeps { Keeps (sets self.old) (sets self.new) };

    /// A condition that says what the given one says in the configurations of `within`. What it
    /// says of the others is free, so it is often simpler (Coudert and Madre 1990): where the given
    /// one says the same of all of these, it is always or never.
    fn simplify(&mut self, a: Cond, within: Cond) -> Result<Cond, OutOfMemory>
        requires a_own { IsCond (sets self.old) a.0 }
        requires within_own { IsCond (sets self.old) within.0 }
        ensures own { IfOk result (λ r. IsCond (sets self.new) r.0) }
        ensures meaning { IfOk result (λ r. (c : List ℕ) → IsConfig (sets self.old).arities c → (sets self.old).has within.0 c ≡ true
            → (sets self.new).has r.0 c ≡ (sets self.old).has a.0 c) }
        ensures said { IfOk result (λ r. (b c : List ℕ) → IsConfig (sets self.old).arities b → (sets self.old).has within.0 b ≡ true
            → IsConfig (sets self.old).arities c → SaysWithin (sets self.old) a.0 within.0 ((sets self.new).has r.0 c)) }

        // at every outcome
        ensures keeps { Keeps (sets self.old) (sets self.new) };

    /// The first variable on which the condition depends.
    fn top(&self, a: Cond) -> Option<usize>
        requires { IsCond (sets self.now) a.0 }
        ensures some { IfSome result (IsTop (sets self.now) a.0) }
        ensures none { IsNone result ↔ (IsNever (sets self.now) a.0 ⊎ IsAlways (sets self.now) a.0) };

    /// Whether the condition has the configuration.
    fn holds(&self, a: Cond, config: &[usize]) -> bool
        requires own { IsCond (sets self.now) a.0 }
        requires config { IsConfig (sets self.now).arities config.now }
        ensures { result ≡ (sets self.now).has a.0 config.now };

    /// Writes a configuration that the condition has.
    fn example(&self, a: Cond, into: &mut [usize]) -> bool
        requires own { IsCond (sets self.now) a.0 }
        requires long { length into.old ≡ length (sets self.now).arities }
        ensures never { (result ≡ false) ↔ IsNever (sets self.now) a.0 }
        ensures config { OnTrue result (IsConfig (sets self.now).arities into.new) }
        ensures has { OnTrue result ((sets self.now).has a.0 into.new ≡ true) }
        ensures untouched { OnFalse result (into.new ≡ into.old) };

    /// Conditions of this store that mean the same are the same id. This takes no time: it tells a
    /// proof.
    fn canonical(&self)
        ensures { IsCanonical (sets self.now) };

    /// Each variable has an option, so `always` is not `never`. This takes no time: it tells a
    /// proof.
    fn has_options(&self)
        ensures { HasOptions (sets self.now).arities };

    /// Whether no configuration has the condition.
    final fn is_never(&self, a: Cond) -> bool
        requires { IsCond (sets self.now) a.0 }
        ensures { IsTrue result ↔ IsNever (sets self.now) a.0 }
    {
        self.canonical();
        a == self.never()
    }

    /// Whether two conditions have the same configurations.
    final fn same(&self, a: Cond, b: Cond) -> bool
        requires a_own { IsCond (sets self.now) a.0 }
        requires b_own { IsCond (sets self.now) b.0 }
        ensures { IsTrue result ↔ IsSame (sets self.now) a.0 b.0 }
    {
        self.canonical();
        a == b
    }
}
