ghost use Rattle.std.specs.Prelude.{◌≡◌, ◌↔◌, ◌∷◌, ◌++◌, IfOk, IsTrue};
ghost use Rattle.sc_scope.specs.Kept.{bindings_of};

use crate::kind::NameKind;
use sc_base::{Cond, OutOfMemory};
use std::alloc::Global;
use std::rc::Rc;

/// The bindings of one name in one level, the newest first. Older ones may have other owners.
pub(crate) enum Bindings {
    Unbound,
    Bound(Rc<Bindings>, Cond, NameKind),
}

// A loop, since a name can be bound in one level any number of times.
impl Drop for Bindings {
    fn drop(mut self) {
        loop {
            match self {
                Bindings::Unbound => return,
                Bindings::Bound(older, _, _) => match Rc::into_inner(older) {
                    Some(bindings) => self = bindings,
                    None => return,
                },
            }
        }
    }
}

impl Bindings {
    /// Another owner of the same bindings.
    pub(crate) fn share(&self) -> Result<Bindings, OutOfMemory>
        ensures { IfOk result (λ bindings. bindings_of bindings ≡ bindings_of self.now) }
    {
        match self {
            Bindings::Unbound => Ok(Bindings::Unbound),
            Bindings::Bound(older, cond, kind) => {
                Ok(Bindings::Bound(older.clone()?, *cond, *kind))
            }
        }
    }

    /// These with one that is newer.
    pub(crate) fn bound(
        self,
        alloc: Global,
        cond: Cond,
        kind: NameKind,
    ) -> Result<Bindings, OutOfMemory>
        ensures { IfOk result (λ bindings. bindings_of bindings ≡ (cond, kind) ∷ bindings_of self) }
    {
        Ok(Bindings::Bound(Rc::new(alloc, self)?, cond, kind))
    }

    /// These, as bindings that are newer than the others.
    pub(crate) fn before(&self, alloc: Global, older: &Bindings) -> Result<Bindings, OutOfMemory>
        ensures { IfOk result (λ bindings. bindings_of bindings ≡ bindings_of self.now ++ bindings_of older.now) }
    {
        let mut newer = self.listed(alloc)?;
        let mut all = older.share()?;
        while let Some((cond, kind)) = newer.pop() {
            all = all.bound(alloc, cond, kind)?;
        }
        Ok(all)
    }

    /// Whether both are the same, binding by binding.
    pub(crate) fn same(&self, other: &Bindings) -> bool
        ensures { IsTrue result ↔ bindings_of self.now ≡ bindings_of other.now }
    {
        let mut here = self;
        let mut there = other;
        loop {
            match here {
                Bindings::Unbound => return matches!(there, Bindings::Unbound),
                Bindings::Bound(older, cond, kind) => match there {
                    Bindings::Unbound => return false,
                    Bindings::Bound(other_older, other_cond, other_kind) => {
                        if *cond != *other_cond || *kind != *other_kind {
                            return false;
                        }
                        here = older;
                        there = other_older;
                    }
                },
            }
        }
    }

    fn listed(&self, alloc: Global) -> Result<Vec<(Cond, NameKind)>, OutOfMemory>
        ensures { IfOk result (λ list. list.items ≡ bindings_of self.now) }
    {
        let mut list = Vec::new(alloc);
        let mut bindings = self;
        while let Bindings::Bound(older, cond, kind) = bindings {
            list.push((*cond, *kind))?;
            bindings = older;
        }
        Ok(list)
    }
}
