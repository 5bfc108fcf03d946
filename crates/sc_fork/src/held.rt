//! Subparsers as a core keeps them.
use sc_base::{Cond, OutOfMemory};
use sc_merge::{Head, Phase, Subparser};
use sc_scope::Scopes;
use sc_stack::Stack;
use std::alloc::Global;
use std::marker::Model;
use std::rc::Rc;

/// What the parts of a subparser share.
#[derive(Drop)]
pub struct Body {
    pub stack: Stack,
    pub scopes: Scopes,
}

/// A subparser as a core keeps it: one of the heads of its body.
#[derive(Drop)]
pub struct Held {
    cond: Cond,
    phase: Phase,
    body: Rc<Body>,
}

impl Model for Held {
    ghost use Rattle.std.specs.Coded.{codes};
    ghost use Rattle.sc_merge.specs.contracts.subparser.Subparser as subparser;
    ghost use Rattle.sc_merge.specs.declared.subparser.Subparser.{Subparser};

    ghost Value = { Subparser };

    ghost coded = { Prim.hlevel (codes, subparser.the_row.coded) };

    ghost view = { λ h. record { cond = h.cond; stack = h.body.value.stack; scopes = h.body.value.scopes; phase = h.phase } };
}

impl Held {
    ghost use Rattle.std.specs.Prelude.{◌≡◌, IfOk, IsFalse, IsTrue};
    ghost use Rattle.sc_stack.specs.Entries.{with_state};

    /// The one head of a body.
    pub(crate) fn new(alloc: Global, subparser: Subparser) -> Result<Held, OutOfMemory>
        ensures { IfOk result (λ held. held ≡ subparser) }
    {
        let Subparser {
            cond,
            stack,
            scopes,
            phase,
        } = subparser;
        let body = Rc::new(alloc, Body { stack, scopes })?;
        Ok(Held { cond, phase, body })
    }

    /// Gives the top frame of the stack another state, unless other heads have the body too. The
    /// answer is whether it was done.
    pub(crate) fn set_state(&mut self, state: usize) -> bool
        ensures done { IsTrue result → self.new ≡ record self.old { stack = with_state state self.old.stack } }
        ensures not_done { IsFalse result → self.new ≡ self.old }
    {
        match Rc::get_mut(&mut self.body) {
            Some(body) => {
                body.stack.set_state(state);
                true
            }
            None => false,
        }
    }
}

/// A subparser that a core keeps, as it is lent.
#[derive(Drop)]
pub struct Lent<'a> {
    pub(crate) held: &'a Held,
}

impl<'a> Model for Lent<'a> {
    ghost use Rattle.std.specs.Coded.{codes};
    ghost use Rattle.sc_merge.specs.contracts.subparser.Subparser as subparser;
    ghost use Rattle.sc_merge.specs.declared.subparser.Subparser.{Subparser};

    ghost Value = { Subparser };

    ghost coded = { Prim.hlevel (codes, subparser.the_row.coded) };

    ghost view = { λ l. l.held.now };
}

impl<'a> Lent<'a> {
    ghost use Rattle.std.specs.Prelude.{◌≡◌, IfOk};

    pub(crate) fn head(&self) -> Head<'a>
        ensures { result ≡ self.now }
    {
        let held = self.held;
        Head {
            cond: held.cond,
            phase: held.phase,
            stack: &held.body.stack,
            scopes: &held.body.scopes,
        }
    }

    /// Another head of its body.
    pub(crate) fn part(&self, cond: Cond, phase: Phase) -> Result<Held, OutOfMemory>
        ensures { IfOk result (λ held. held ≡ record self.now { cond = cond; phase = phase }) }
    {
        let held = self.held;
        let body = held.body.clone()?;
        Ok(Held { cond, phase, body })
    }
}
