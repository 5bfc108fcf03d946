ghost use Rattle.std.specs.Prelude.{◌≡◌, ℕ, ◌+◌, ◌<◌, ◌≤◌, List, [], ◌∷◌, ◌++◌, ◌&&◌, Some, All, AllPairs, map, take, drop, length, slice_get, if◌then◌else◌, IfOk, IfErr, OnOk, OnErr};
ghost use Rattle.sc_model.specs.Sets.{IsConfig, IsCond, Keeps, IsNever};
ghost use Rattle.sc_guarded.specs.Blocks.{AreBlocks, heads};
ghost use Rattle.sc_guarded.specs.Items.{items_at};
ghost use Rattle.sc_guarded.specs.Next.{next_at};

use crate::blocks::{Blocks, block_ends};
use crate::parts::{counted_parts, next_parts};
use crate::projection::tokens_at;
use crate::restriction::{meets, set_conditions};
use crate::steps::Steps;
use sc_base::{Cond, HasToken, OutOfMemory, Stop, Token};
use sc_presence::Conditions;
use std::alloc::Global;
use std::marker::Model;
use std::sync::ledger::Ledger;

/// Items in order, each with the condition under which it stands. At one configuration the list is
/// that of the items whose condition has it.
#[derive(Drop)]
pub struct Guarded<T> {
    items: Vec<(Cond, T)>,
}

impl<T> Model for Guarded<T> {
    ghost use Rattle.std.specs.Prelude.{List};
    ghost use Rattle.sc_base.specs.declared.id.Cond.{Cond};

    ghost Value = { List (Cond × T) };

    ghost view = { λ g. g.items.items };
}

impl<T> Guarded<T> {
    /// A list without items, which keeps `alloc` for those that come.
    pub fn new(alloc: Global) -> Result<Self, OutOfMemory>
        ensures { IfOk result (λ list. list ≡ []) }
    {
        Ok(Guarded {
            items: Vec::new(alloc),
        })
    }

    pub fn len(&self) -> usize
        ensures { result ≡ length self.now }
    {
        self.items.len()
    }

    /// Puts an item at the end.
    pub fn push(&mut self, cond: Cond, item: T) -> Result<(), OutOfMemory>
    where
        T: Drop,
        ensures ok { OnOk result (self.new ≡ self.old ++ (cond, item) ∷ []) }
        ensures err { OnErr result (self.new ≡ self.old) }
    {
        self.items.push((cond, item))?;
        Ok(())
    }

    /// The item of an index, with its condition.
    pub fn item(&self, index: usize) -> (Cond, &T)
        requires { index < length self.now }
        ensures { slice_get self.now index ≡ Some (result.0, result.1.now) }
    {
        let pair = &self.items[index];
        (pair.0, &pair.1)
    }

    /// The items, each with its condition.
    pub fn into_items(self) -> Vec<(Cond, T)>
        ensures { result.items ≡ self }
    {
        self.items
    }

    /// Restricts the items of index `from` on to the configurations that `by` has.
    pub fn restrict<C: Conditions>(
        &mut self,
        conds: &mut C,
        from: usize,
        by: Cond,
    ) -> Result<(), OutOfMemory>
        requires from { from ≤ length self.old }
        requires own { All (λ item. IsCond (C.sets conds.old) item.0.0) self.old }
        requires by_own { IsCond (C.sets conds.old) by.0 }
        ensures front { OnOk result (take from self.new ≡ take from self.old) }
        ensures each { OnOk result ((c : List ℕ) → IsConfig (C.sets conds.old).arities c
            → map (λ item. (C.sets conds.new).has item.0.0 c) (drop from self.new)
            ≡ map (λ item. (C.sets conds.old).has item.0.0 c && (C.sets conds.old).has by.0 c) (drop from self.old)) }
        ensures rest { OnOk result ((c : List ℕ) → IsConfig (C.sets conds.old).arities c
            → items_at (C.sets conds.new) (drop from self.new) c
            ≡ (if (C.sets conds.old).has by.0 c then items_at (C.sets conds.old) (drop from self.old) c else [])) }
        ensures err { OnErr result (self.new ≡ self.old) }

        // at every outcome
        ensures items { map (λ item. item.1) self.new ≡ map (λ item. item.1) self.old }
        ensures own { All (λ item. IsCond (C.sets conds.new) item.0.0) self.new }
        ensures keeps { Keeps (C.sets conds.old) (C.sets conds.new) }
    {
        let met = meets(*self.items.allocator(), conds, &self.items, from, by)?;
        set_conditions(&mut self.items, from, &met);
        Ok(())
    }

    /// Parts the configurations of `cond` by which item of index `from` on comes next for them:
    /// disjoint conditions, each with the index of such an item, or with `len()` for the
    /// configurations that have none.
    pub fn follow<C: Conditions>(
        &self,
        alloc: Global,
        conds: &mut C,
        from: usize,
        cond: Cond,
    ) -> Result<Vec<(Cond, usize)>, Stop>
        requires from { from ≤ length self.now }
        requires own { All (λ item. IsCond (C.sets conds.old) item.0.0) self.now }
        requires cond_own { IsCond (C.sets conds.old) cond.0 }

        // At each configuration of `cond` the parts have one index, and elsewhere none.
        ensures next { IfOk result (λ parts. (c : List ℕ) → IsConfig (C.sets conds.old).arities c
            → items_at (C.sets conds.new) parts.items c
            ≡ (if (C.sets conds.old).has cond.0 c then (from + next_at (C.sets conds.old) (drop from self.now) c) ∷ [] else [])) }
        ensures some { IfOk result (λ parts. All (λ part. IsNever (C.sets conds.new) part.0.0 → ⊥) parts.items) }
        ensures rising { IfOk result (λ parts. AllPairs (λ a b. a.1 < b.1) parts.items) }
        ensures own { IfOk result (λ parts. All (λ part. IsCond (C.sets conds.new) part.0.0) parts.items) }
        ensures memory { IfErr result (λ stop. stop ≡ Stop.OutOfMemory) }

        // at every outcome
        ensures keeps { Keeps (C.sets conds.old) (C.sets conds.new) }
    {
        Ok(next_parts(alloc, conds, &self.items, from, cond)?)
    }

    /// Where the block of each item ends.
    pub fn blocks<C: Conditions>(&self, alloc: Global, conds: &mut C) -> Result<Blocks, OutOfMemory>
        requires { All (λ item. IsCond (C.sets conds.old) item.0.0) self.now }
        ensures blocks { IfOk result (AreBlocks (C.sets conds.new) self.now) }

        // at every outcome
        ensures keeps { Keeps (C.sets conds.old) (C.sets conds.new) }
    {
        let ends = block_ends(alloc, conds, &self.items)?;
        Ok(Blocks { ends })
    }

    /// Answers as `follow`. One step is one item looked at, and of each block only the item that
    /// heads it is.
    pub fn follow_counted<C: Conditions, L: Ledger>(
        &self,
        alloc: Global,
        conds: &mut C,
        blocks: &Blocks,
        from: usize,
        cond: Cond,
        steps: &mut Steps<L>,
    ) -> Result<Vec<(Cond, usize)>, Stop>
        requires from { from ≤ length self.now }
        requires own { All (λ item. IsCond (C.sets conds.old) item.0.0) self.now }
        requires cond_own { IsCond (C.sets conds.old) cond.0 }
        requires blocks { AreBlocks (C.sets conds.old) self.now blocks.now }

        // At each configuration of `cond` the parts have one index, and elsewhere none.
        ensures next { IfOk result (λ parts. (c : List ℕ) → IsConfig (C.sets conds.old).arities c
            → items_at (C.sets conds.new) parts.items c
            ≡ (if (C.sets conds.old).has cond.0 c then (from + next_at (C.sets conds.old) (drop from self.now) c) ∷ [] else [])) }
        ensures some { IfOk result (λ parts. All (λ part. IsNever (C.sets conds.new) part.0.0 → ⊥) parts.items) }
        ensures rising { IfOk result (λ parts. AllPairs (λ a b. a.1 < b.1) parts.items) }
        ensures own { IfOk result (λ parts. All (λ part. IsCond (C.sets conds.new) part.0.0) parts.items) }
        ensures counted { IfOk result (λ parts. steps.new ≡ steps.old + length (heads blocks.now from parts.items)) }
        ensures memory { IfErr result (λ stop. stop ≡ Stop.OutOfMemory) }

        // at every outcome
        ensures keeps { Keeps (C.sets conds.old) (C.sets conds.new) }
    {
        let ends = &blocks.ends;
        let parts = counted_parts(alloc, conds, &self.items, ends, from, cond, steps)?;
        Ok(parts)
    }
}

impl<T: HasToken> Guarded<T> {
    /// The tokens of one configuration, in order.
    pub fn project<C: Conditions>(
        &self,
        alloc: Global,
        conds: &C,
        config: &[usize],
    ) -> Result<Vec<Token>, OutOfMemory>
        requires own { All (λ item. IsCond (C.sets conds.now) item.0.0) self.now }
        requires config { IsConfig (C.sets conds.now).arities config.now }
        ensures { IfOk result (λ tokens. tokens.items ≡ map T.token_of (items_at (C.sets conds.now) self.now config.now)) }
    {
        tokens_at(alloc, conds, &self.items, config)
    }
}
