ghost use Rattle.std.specs.Prelude.{◌≡◌, ℕ, ◌&&◌, Bool, List, [], ◌∷◌, drop, length, IfOk, OnOk, OnErr};
ghost use Rattle.sc_model.specs.Sets.{IsCond, Denotes, Keeps};
ghost use Rattle.sc_scope.specs.Kept.{levels_of};
ghost use Rattle.sc_scope.specs.Levels.{bound, joined, no_bindings};

use crate::kind::NameKind;
use crate::levels::Levels;
use crate::numbers::Numbers;
use crate::search::{Search, search_levels};
use crate::trie::Trie;
use sc_base::{Cond, Name, OutOfMemory};
use sc_presence::Conditions;
use std::alloc::Global;
use std::rc::Rc;

/// Nested scopes, the innermost first, each with the bindings of its names under conditions. What
/// one owner does, no other sees.
#[derive(Drop)]
pub struct Scopes {
    top: Levels,
    count: usize,
    alloc: Global,
    ghost counted: { count ≡ length (levels_of top) },
}

impl Scopes {
    ghost use Rattle.sc_scope.specs.Kinds.{KeepsKinds};
    ghost use Rattle.sc_model.specs.Growth.{Extends};
    ghost use Rattle.sc_scope.specs.Numbered.{levels_made, HasNumbers};
    ghost use Rattle.sc_scope.specs.Search.{bindings_in, is_typedef_at, AreOwn, OwnsLevels};
    ghost use Rattle.sc_scope.specs.Seen.{levels_in};

    /// No levels. The scopes keep `alloc` for those that come.
    pub fn new(alloc: Global) -> Self
        ensures levels { levels_in result ≡ [] }
        ensures numbered { (numbers : Numbers) → HasNumbers numbers result }
    {
        Scopes {
            top: Levels::Bottom,
            count: 0,
            alloc,
        }
    }

    /// Another owner of the same levels.
    pub fn share(&self) -> Result<Scopes, OutOfMemory>
        ensures levels { IfOk result (λ scopes. levels_in scopes ≡ levels_in self.now) }
        ensures numbered { IfOk result (λ scopes. (numbers : Numbers) → HasNumbers numbers self.now → HasNumbers numbers scopes) }
    {
        Ok(Scopes {
            top: self.top.share()?,
            count: self.count,
            alloc: self.alloc,
        })
    }

    /// How many levels there are.
    pub fn levels(&self) -> usize
        ensures { result ≡ length (levels_in self.now) }
    {
        self.count
    }

    /// Puts a level without bindings on top.
    pub fn push(&mut self) -> Result<(), OutOfMemory>
        ensures ok { OnOk result (levels_in self.new ≡ no_bindings ∷ levels_in self.old) }
        ensures err { OnErr result (levels_in self.new ≡ levels_in self.old) }
        ensures numbered { (numbers : Numbers) → HasNumbers numbers self.old → HasNumbers numbers self.new }
    {
        let Some(count) = self.count.checked_add(1) else {
            return Err(OutOfMemory);
        };
        let below = Rc::new(self.alloc, self.top.share()?)?;
        self.top = Levels::Level(below, Trie::Empty);
        self.count = count;
        Ok(())
    }

    /// Takes the top level off, where there is one.
    pub fn pop(&mut self) -> Result<(), OutOfMemory>
        ensures ok { OnOk result (levels_in self.new ≡ drop 1 (levels_in self.old)) }
        ensures err { OnErr result (levels_in self.new ≡ levels_in self.old) }
        ensures numbered { (numbers : Numbers) → HasNumbers numbers self.old → HasNumbers numbers self.new }
    {
        self.top = self.top.popped()?;
        self.count = self.count.saturating_sub(1);
        Ok(())
    }

    /// Puts the bindings of the top level before those of the level below, where there is one.
    pub fn join(&mut self, numbers: &mut Numbers) -> Result<(), OutOfMemory>
        requires { HasNumbers numbers.old self.old }
        ensures ok { OnOk result (levels_in self.new ≡ joined (levels_in self.old)) }
        ensures err { OnErr result (levels_in self.new ≡ levels_in self.old) }

        // at every outcome
        ensures numbered { HasNumbers numbers.new self.new }
        ensures grows { Extends (levels_made numbers.old) (levels_made numbers.new) }
    {
        self.top = self.top.joined(numbers, self.alloc)?;
        if self.count > 1 {
            self.count -= 1;
        }
        Ok(())
    }

    /// Binds the name in the top level, where there is one.
    pub fn bind(
        &mut self,
        numbers: &mut Numbers,
        name: Name,
        kind: NameKind,
        cond: Cond,
    ) -> Result<(), OutOfMemory>
        requires { HasNumbers numbers.old self.old }
        ensures ok { OnOk result (levels_in self.new ≡ bound name.0 (cond, kind) (levels_in self.old)) }
        ensures err { OnErr result (levels_in self.new ≡ levels_in self.old) }

        // at every outcome
        ensures numbered { HasNumbers numbers.new self.new }
        ensures grows { Extends (levels_made numbers.old) (levels_made numbers.new) }
    {
        self.top = self.top.bound(numbers, self.alloc, name, kind, cond)?;
        Ok(())
    }

    /// The configurations of a condition in which the name is a typedef: its first binding, from
    /// the top level down, is one.
    pub fn typedef_under<C: Conditions>(
        &self,
        conds: &mut C,
        name: Name,
        cond: Cond,
    ) -> Result<Cond, OutOfMemory>
        requires own { AreOwn (C.sets conds.old) (bindings_in name.0 (levels_in self.now)) }
        requires cond_own { IsCond (C.sets conds.old) cond.0 }
        ensures own { IfOk result (λ r. IsCond (C.sets conds.new) r.0) }
        ensures meaning { IfOk result (λ r. (f : List ℕ → Bool) → Denotes (C.sets conds.old) cond.0 f
            → Denotes (C.sets conds.new) r.0 (λ c. f c && is_typedef_at (C.sets conds.old) (levels_in self.now) name.0 c)) }

        // at every outcome
        ensures keeps { Keeps (C.sets conds.old) (C.sets conds.new) }
    {
        let search = Search {
            left: cond,
            types: conds.never(),
        };
        let found = search_levels(conds, search, &self.top, name)?;
        Ok(found.types)
    }

    /// Makes one of these scopes, which the configurations of `here` have, and of others, which
    /// those of `there` have. What names are in a configuration of both or of neither is not told.
    pub fn merge<C: Conditions>(
        &mut self,
        conds: &mut C,
        numbers: &mut Numbers,
        here: Cond,
        other: &Scopes,
        there: Cond,
    ) -> Result<(), OutOfMemory>
        requires here_own { IsCond (C.sets conds.old) here.0 }
        requires there_own { IsCond (C.sets conds.old) there.0 }
        requires own { OwnsLevels (C.sets conds.old) (levels_in self.old) }
        requires other_own { OwnsLevels (C.sets conds.old) (levels_in other.now) }
        requires count { length (levels_in self.old) ≡ length (levels_in other.now) }
        requires numbered { HasNumbers numbers.old self.old }
        requires other_numbered { HasNumbers numbers.old other.now }
        ensures own { OnOk result (OwnsLevels (C.sets conds.new) (levels_in self.new)) }
        ensures count { OnOk result (length (levels_in self.new) ≡ length (levels_in self.old)) }
        ensures here { OnOk result (KeepsKinds (C.sets conds.old) (C.sets conds.new) here there (levels_in self.old) (levels_in self.new)) }
        ensures there { OnOk result (KeepsKinds (C.sets conds.old) (C.sets conds.new) there here (levels_in other.now) (levels_in self.new)) }
        ensures err { OnErr result (levels_in self.new ≡ levels_in self.old) }

        // at every outcome
        ensures numbered { HasNumbers numbers.new self.new }
        ensures grows { Extends (levels_made numbers.old) (levels_made numbers.new) }
        ensures keeps { Keeps (C.sets conds.old) (C.sets conds.new) }
    {
        self.top = self
            .top
            .merged(conds, numbers, self.alloc, here, &other.top, there)?;
        Ok(())
    }
}
