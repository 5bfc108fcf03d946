//! The `_Pragma` operators in the text of runs.
ghost use Rattle.std.specs.Prelude.{◌≡◌, ℕ, ◌&&◌, not, List, All, IfOk, OnOk, [], ◌∷◌, if◌then◌else◌};
ghost use Rattle.c11_directives.specs.Pragmas.{is_pragma as names_pragma, is_text_kind};
ghost use Rattle.sc_base.specs.Seen.{IsHeld, seen, text_at};
ghost use Rattle.sc_model.specs.Bytes.{same_bytes};
ghost use Rattle.sc_model.specs.Sets.{Denotes, IsCond, Keeps};
ghost use Rattle.sc_prep.specs.Pragmas.{BeginsPragma, EndsPragmas, HasNoPragma, MovesPragmas, OwnsPragmas, PutsOutside, ReadsPragma, no_operator, read_behind};

use crate::closing::faults_within;
use crate::settling::{hold, without_faults};
use sc_base::{Cause, Cond, Fault, Kind, Names, OutOfMemory, Place, Token, is_same};
use sc_guarded::Guarded;
use sc_presence::Conditions;
use std::alloc::Global;

/// How far the configurations have read a `_Pragma` operator, whose tokens are not put out.
#[derive(Drop)]
pub struct Pragmas {
    /// Those that have read its name and not its end.
    pub inside: Cond,
    /// Those of them that must read its opening parenthesis next.
    pub opening: Cond,
    /// Those that must read its text next.
    pub text: Cond,
    /// Those that must read its closing parenthesis next.
    pub closing: Cond,
    /// What each of these operators is refused by, unless it comes to its end.
    pub faults: Vec<Fault>,
}

impl Pragmas {
    /// No operator is being read.
    pub fn new<C: Conditions>(alloc: Global, conds: &C) -> Pragmas
        ensures { HasNoPragma (C.sets conds.now) result }
    {
        let never = conds.never();
        Pragmas {
            inside: never,
            opening: never,
            text: never,
            closing: never,
            faults: Vec::new(alloc),
        }
    }

    /// Configurations of a condition read items: those that are none of an operator are put behind
    /// a list.
    #[tactic(auto, using(sc_model::proofs::SetLemmas::conditions))]
    pub fn put_outside<C: Conditions>(
        &mut self,
        alloc: Global,
        conds: &mut C,
        names: &Names,
        items: &Guarded<Token>,
        by: Cond,
        list: &mut Guarded<Token>,
    ) -> Result<(), OutOfMemory>
        requires owns { OwnsPragmas (C.sets conds.old) self.old }
        requires own { All (λ item. IsCond (C.sets conds.old) item.0.0) items.now }
        requires by { IsCond (C.sets conds.old) by.0 }
        requires held { All (λ item. IsHeld names.now item.1) items.now }
        ensures puts { OnOk result (PutsOutside names.now (C.sets conds.old) self.old items.now by.0 list.old (C.sets conds.new) self.new list.new) }

        // at every outcome
        ensures keeps { Keeps (C.sets conds.old) (C.sets conds.new) }
    {
        for index in 0..items.len() {
            let (cond, token) = items.item(index);
            let part = conds.apply_and(cond, by)?;
            self.put(alloc, conds, names, part, *token, list)?;
        }
        Ok(())
    }

    /// Configurations of a condition read a token, which is put behind a list where it is none of
    /// an operator.
    #[tactic(auto, using(sc_model::proofs::SetLemmas::conditions))]
    fn put<C: Conditions>(
        &mut self,
        alloc: Global,
        conds: &mut C,
        names: &Names,
        cond: Cond,
        token: Token,
        list: &mut Guarded<Token>,
    ) -> Result<(), OutOfMemory>
        requires owns { OwnsPragmas (C.sets conds.old) self.old }
        requires own { IsCond (C.sets conds.old) cond.0 }
        requires held { IsHeld names.now token }
        ensures puts { OnOk result (PutsOutside names.now (C.sets conds.old) self.old ((cond, token) ∷ []) cond.0 list.old (C.sets conds.new) self.new
            list.new) }

        // at every outcome
        ensures keeps { Keeps (C.sets conds.old) (C.sets conds.new) }
    {
        let free = self.read(alloc, conds, names, cond, token)?;
        if conds.is_never(free) {
            return Ok(());
        }
        if is_pragma(names, token) {
            self.begin(conds, free, token.place)?;
        } else {
            list.push(free, token)?;
        }
        Ok(())
    }

    /// The runs end of the configurations that act, which read the last items of them. A fault is
    /// put behind others for an operator that has not come to its end.
    #[tactic(auto, using(sc_model::proofs::SetLemmas::conditions))]
    pub fn finish<C: Conditions>(
        &mut self,
        alloc: Global,
        conds: &mut C,
        names: &Names,
        items: &Guarded<Token>,
        acting: Cond,
        list: &mut Guarded<Token>,
        faults: &mut Vec<Fault>,
    ) -> Result<(), OutOfMemory>
        requires owns { OwnsPragmas (C.sets conds.old) self.old }
        requires own { All (λ item. IsCond (C.sets conds.old) item.0.0) items.now }
        requires acting { IsCond (C.sets conds.old) acting.0 }
        requires held { All (λ item. IsHeld names.now item.1) items.now }
        requires faults { All (λ fault. IsCond (C.sets conds.old) fault.cond.0) faults.old.items }
        ensures ends { OnOk result (EndsPragmas names.now (C.sets conds.old) self.old items.now acting.0 list.old faults.old.items (C.sets conds.new)
            self.new list.new faults.new.items) }

        // at every outcome
        ensures keeps { Keeps (C.sets conds.old) (C.sets conds.new) }
    {
        self.put_outside(alloc, conds, names, items, acting, list)?;
        let free = without_faults(conds, acting, faults)?;
        let unread = faults_within(alloc, conds, &self.faults, free)?;
        self.leave(alloc, conds, acting)?;
        hold(faults, &unread)?;
        Ok(())
    }

    /// A token is read where an operator was begun. The configurations of the condition are left in
    /// which none was.
    #[tactic(auto, using(sc_model::proofs::SetLemmas::conditions))]
    fn read<C: Conditions>(
        &mut self,
        alloc: Global,
        conds: &mut C,
        names: &Names,
        cond: Cond,
        token: Token,
    ) -> Result<Cond, OutOfMemory>
        requires owns { OwnsPragmas (C.sets conds.old) self.old }
        requires own { IsCond (C.sets conds.old) cond.0 }
        requires held { IsHeld names.now token }
        ensures reads { IfOk result (λ free. ReadsPragma names.now (C.sets conds.old) self.old cond.0 token (C.sets conds.new) self.new free.0) }

        // at every outcome
        ensures keeps { Keeps (C.sets conds.old) (C.sets conds.new) }
    {
        let reading = conds.apply_and(cond, self.inside)?;
        if conds.is_never(reading) {
            return Ok(cond);
        }
        let free = conds.apply_without(cond, reading)?;
        self.pass(alloc, conds, names, reading, token)?;
        Ok(free)
    }

    /// Configurations that read an operator read one more token.
    #[tactic(auto, using(sc_model::proofs::SetLemmas::conditions))]
    fn pass<C: Conditions>(
        &mut self,
        alloc: Global,
        conds: &mut C,
        names: &Names,
        reading: Cond,
        token: Token,
    ) -> Result<(), OutOfMemory>
        requires owns { OwnsPragmas (C.sets conds.old) self.old }
        requires own { IsCond (C.sets conds.old) reading.0 }
        requires held { IsHeld names.now token }
        ensures passes { OnOk result (MovesPragmas (C.sets conds.old) self.old (C.sets conds.new) self.new
            (λ files config a. if (C.sets conds.old).has reading.0 config then read_behind a (seen names.now files token) else a)) }

        // at every outcome
        ensures keeps { Keeps (C.sets conds.old) (C.sets conds.new) }
    {
        let opening = part(conds, self.opening, reading, is_spelled(names, token, b"("))?;
        let text = part(conds, self.text, reading, is_text(token))?;
        let closing = part(conds, self.closing, reading, is_spelled(names, token, b")"))?;
        self.opening = opening.others;
        self.text = conds.apply_or(text.others, opening.passing)?;
        self.closing = conds.apply_or(closing.others, text.passing)?;
        self.leave(alloc, conds, closing.passing)?;
        Ok(())
    }

    /// An operator begins in configurations that read none.
    #[tactic(auto, using(sc_model::proofs::SetLemmas::conditions))]
    fn begin<C: Conditions>(
        &mut self,
        conds: &mut C,
        cond: Cond,
        place: Place,
    ) -> Result<(), OutOfMemory>
        requires owns { OwnsPragmas (C.sets conds.old) self.old }
        requires own { IsCond (C.sets conds.old) cond.0 }
        ensures begins { OnOk result (BeginsPragma (C.sets conds.old) self.old cond.0 place (C.sets conds.new) self.new) }

        // at every outcome
        ensures keeps { Keeps (C.sets conds.old) (C.sets conds.new) }
    {
        self.inside = conds.apply_or(self.inside, cond)?;
        self.opening = conds.apply_or(self.opening, cond)?;
        self.faults.push(Fault {
            cond,
            cause: Cause::BadPragma,
            place,
        })?;
        Ok(())
    }

    /// These configurations read no operator any more.
    #[tactic(auto, using(sc_model::proofs::SetLemmas::conditions))]
    pub fn leave<C: Conditions>(
        &mut self,
        alloc: Global,
        conds: &mut C,
        cond: Cond,
    ) -> Result<(), OutOfMemory>
        requires owns { OwnsPragmas (C.sets conds.old) self.old }
        requires own { IsCond (C.sets conds.old) cond.0 }
        ensures leaves { OnOk result (MovesPragmas (C.sets conds.old) self.old (C.sets conds.new) self.new
            (λ files config a. if (C.sets conds.old).has cond.0 config then no_operator else a)) }

        // at every outcome
        ensures keeps { Keeps (C.sets conds.old) (C.sets conds.new) }
    {
        let others = conds.negate(cond)?;
        self.inside = conds.apply_and(self.inside, others)?;
        self.opening = conds.apply_and(self.opening, others)?;
        self.text = conds.apply_and(self.text, others)?;
        self.closing = conds.apply_and(self.closing, others)?;
        self.faults = faults_within(alloc, conds, &self.faults, others)?;
        Ok(())
    }
}

/// The configurations of a condition, parted by another.
#[derive(Clone, Copy)]
struct Parted {
    /// Those that read a token which is the next one of their operator.
    passing: Cond,
    /// Those that read none.
    others: Cond,
}

/// The configurations of a condition that read a token, if it is the next one of their operator,
/// and those that read none.
#[tactic(auto, using(sc_model::proofs::SetLemmas::conditions))]
fn part<C: Conditions>(
    conds: &mut C,
    cond: Cond,
    reading: Cond,
    is_next: bool,
) -> Result<Parted, OutOfMemory>
    requires cond { IsCond (C.sets conds.old) cond.0 }
    requires reading { IsCond (C.sets conds.old) reading.0 }
    ensures passing { IfOk result (λ r. Denotes (C.sets conds.new) r.passing.0
        (λ c. (C.sets conds.old).has cond.0 c && (is_next && (C.sets conds.old).has reading.0 c))) }
    ensures others { IfOk result (λ r. Denotes (C.sets conds.new) r.others.0
        (λ c. (C.sets conds.old).has cond.0 c && not ((C.sets conds.old).has reading.0 c))) }

    // at every outcome
    ensures keeps { Keeps (C.sets conds.old) (C.sets conds.new) }
{
    let next = if is_next { reading } else { conds.never() };
    let passing = conds.apply_and(cond, next)?;
    let others = conds.apply_without(cond, reading)?;
    Ok(Parted { passing, others })
}

/// Whether a token is the name of the operator.
fn is_pragma(names: &Names, token: Token) -> bool
    requires { IsHeld names.now token }
    ensures { (files : List (List ℕ)) → result ≡ names_pragma (seen names.now files token) }
{
    matches!(token.kind, Kind::Identifier) && is_same(names.text(token.spelling), b"_Pragma")
}

/// Whether a token is spelled so.
fn is_spelled(names: &Names, token: Token, spelling: &[u8]) -> bool
    requires { IsHeld names.now token }
    ensures { result ≡ same_bytes (text_at names.now token.spelling.0) spelling.now }
{
    is_same(names.text(token.spelling), spelling)
}

/// Whether a token is a string literal.
fn is_text(token: Token) -> bool
    ensures { result ≡ is_text_kind token.kind }
{
    matches!(token.kind, Kind::Text)
}
