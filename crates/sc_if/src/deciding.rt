//! Which configurations take the group of an `#if` or `#elif` (C11 6.10.1).
ghost use Rattle.std.specs.Prelude.{◌≡◌, ℕ, true, false, [], List, All, IfOk, IfErr, OnOk};
ghost use Rattle.sc_guarded.specs.Items.{faults_at};
ghost use Rattle.sc_hoist.specs.Alike.{AreAlike};
ghost use Rattle.sc_base.specs.declared.place.Place.{Place};
ghost use Rattle.sc_base.specs.Seen.{IsHeld};
ghost use Rattle.sc_if.specs.Decided.{AreDecided, AreDecidedAlike, IsDecided, IsEntered};
ghost use Rattle.sc_if.specs.Parts.{RefusesAt};
ghost use Rattle.sc_model.specs.Sets.{Sets, IsConfig, IsCond, Keeps};

use crate::answers::answers;
use sc_base::{Cause, Cond, Fault, Names, OutOfMemory, Place, Stop, Token};
use sc_guarded::Guarded;
use sc_model::Standard;
use sc_presence::Conditions;
use std::alloc::Global;

/// The configurations that take the group of a line, and the faults of those where the line is
/// refused.
#[derive(Drop)]
pub struct Decided {
    pub taken: Cond,
    pub faults: Vec<Fault>,
}

/// Decides for each configuration of `live` whether it takes the group of an `#if` or `#elif` whose
/// `#` stands at `hash`, by what the tokens behind its name expand to.
pub fn decide<C: Conditions>(
    alloc: Global,
    conds: &mut C,
    names: &Names,
    list: &Guarded<Token>,
    live: Cond,
    limit: usize,
    hash: Place,
    standard: Standard,
) -> Result<Decided, Stop>
    requires own { All (λ item. IsCond (C.sets conds.old) item.0.0) list.now }
    requires held { All (λ item. IsHeld names.now item.1) list.now }
    requires live_own { IsCond (C.sets conds.old) live.0 }
    ensures decided { IfOk result (λ d. (files : List (List ℕ)) (c : List ℕ) → IsConfig (C.sets conds.old).arities c → (C.sets conds.old).has live.0 c ≡ true
        → IsDecided standard (C.sets conds.old) (C.sets conds.new) names.now files list.now hash d c) }
    ensures others { IfOk result (λ d. (c : List ℕ) → IsConfig (C.sets conds.old).arities c → (C.sets conds.old).has live.0 c ≡ false
        → ((C.sets conds.new).has d.taken.0 c ≡ false) × (faults_at (C.sets conds.new) d.faults.items c ≡ [])) }
    ensures own { IfOk result (λ d. IsCond (C.sets conds.new) d.taken.0) }
    ensures faults_own { IfOk result (λ d. All (λ f. IsCond (C.sets conds.new) f.cond.0) d.faults.items) }
    ensures places { IfOk result (λ d. All (λ f. f.place ≡ hash) d.faults.items) }

    // configurations with the same tokens have the same answer
    ensures alike { IfOk result (λ x. (c d : List ℕ) → IsConfig (C.sets conds.old).arities c → IsConfig (C.sets conds.old).arities d
        → (C.sets conds.old).has live.0 c ≡ true → (C.sets conds.old).has live.0 d ≡ true → AreAlike (C.sets conds.old) c d list.now → AreDecidedAlike (C.sets conds.new) c d x) }

    // only where before one item more configurations than the limit have different parts
    ensures refused { IfErr result (RefusesAt standard (C.sets conds.old) names.now list.now ((C.sets conds.old).has live.0) limit) }

    // at every outcome
    ensures keeps { Keeps (C.sets conds.old) (C.sets conds.new) }
{
    let answers = answers(alloc, conds, names, list, live, limit, standard)?;
    let decided = decide_answers(alloc, conds, &answers, hash)?;
    Ok(decided)
}

/// Enters the answers of a line.
fn decide_answers<C: Conditions>(
    alloc: Global,
    conds: &mut C,
    answers: &[(Cond, Result<bool, Cause>)],
    hash: Place,
) -> Result<Decided, OutOfMemory>
    requires { All (λ answer. IsCond (C.sets conds.old) answer.0.0) answers.now }
    ensures decided { IfOk result (λ d. AreDecided (C.sets conds.old) (C.sets conds.new) hash answers.now d) }

    // at every outcome
    ensures keeps { Keeps (C.sets conds.old) (C.sets conds.new) }
{
    let mut decided = Decided {
        taken: conds.never(),
        faults: Vec::new(alloc),
    };
    for answer in answers {
        decided.enter(conds, answer.0, answer.1, hash)?;
    }
    Ok(decided)
}

impl Decided {
    /// Enters what the line comes to in these configurations.
    fn enter<C: Conditions>(
        &mut self,
        conds: &mut C,
        cond: Cond,
        answer: Result<bool, Cause>,
        hash: Place,
    ) -> Result<(), OutOfMemory>
        requires taken { IsCond (C.sets conds.old) self.old.taken.0 }
        requires own { IsCond (C.sets conds.old) cond.0 }
        ensures entered { OnOk result (IsEntered (C.sets conds.old) (C.sets conds.new) hash cond answer self.old self.new) }

        // at every outcome
        ensures keeps { Keeps (C.sets conds.old) (C.sets conds.new) }
    {
        match answer {
            Ok(true) => self.take(conds, cond),
            Ok(false) => Ok(()),
            Err(cause) => self.refuse(cond, cause, hash),
        }
    }

    /// These configurations take the group.
    fn take<C: Conditions>(&mut self, conds: &mut C, cond: Cond) -> Result<(), OutOfMemory>
        requires taken { IsCond (C.sets conds.old) self.old.taken.0 }
        requires own { IsCond (C.sets conds.old) cond.0 }
        ensures entered { OnOk result ((hash : Place) → IsEntered (C.sets conds.old) (C.sets conds.new) hash cond (Ok true) self.old self.new) }

        // at every outcome
        ensures keeps { Keeps (C.sets conds.old) (C.sets conds.new) }
    {
        self.taken = conds.apply_or(self.taken, cond)?;
        Ok(())
    }

    /// The line is refused in these configurations.
    fn refuse(&mut self, cond: Cond, cause: Cause, place: Place) -> Result<(), OutOfMemory>
        ensures { OnOk result ((s : Sets) → IsCond s self.old.taken.0 → IsCond s cond.0 → IsEntered s s place cond (Err cause) self.old self.new) }
    {
        self.faults.push(Fault { cond, cause, place })?;
        Ok(())
    }
}
