ghost use Rattle.std.specs.Prelude.{◌≡◌, ◌<◌, ◌&&◌, ◌||◌, [], ◌∷◌, Bool, Some, length, slice_get, IfOk, IfSome, OnErr};
ghost use Rattle.std.specs.List.{list_any};
ghost use Rattle.sc_base.specs.declared.id.Name as declared;
ghost use Rattle.sc_base.specs.Interns.{Interns};
ghost use Rattle.sc_model.specs.Growth.{Extends};
ghost use Rattle.sc_subst.specs.Hides.{IsCanonical, set_at};
ghost use Rattle.sc_subst.specs.Rising.{IsRising, has_name};
ghost use Rattle.sc_subst.specs.SetOperations.{IsSetOperation, Makes, IsMade};

use crate::set_operation::SetOperation;
use crate::{Hide, sorted};
use indexmap::{IndexMap, IndexSet};
use sc_base::{Name, OutOfMemory};
use std::alloc::Global;
use std::marker::Model;

/// The hide sets that were made, each kept once. A set keeps its id for good. What was made before
/// is looked up by the operation.
#[derive(Drop)]
pub struct HideSets {
    alloc: Global,
    sets: IndexSet<Vec<Name>>,
    known: IndexMap<SetOperation, Hide>,
}

impl Model for HideSets {
    ghost use Rattle.std.specs.Prelude.{List, map};
    ghost use Rattle.sc_base.specs.declared.id.Name.{Name};
    ghost use Rattle.sc_subst.specs.Hides.{IsStore};
    ghost use Rattle.sc_subst.specs.SetOperations.{AreMade};

    ghost Value = { List (List Name) };

    ghost view = { λ s. map (λ set. set.items) s.sets.keys };

    ghost invariant = { λ s. IsStore (map (λ set. set.items) s.sets.keys) × AreMade (map (λ set. set.items) s.sets.keys) s.known.entries };
}

const EMPTY: Hide = Hide(0);

impl HideSets {
    /// The empty set alone. `alloc` serves all that are made later.
    pub fn new(alloc: Global) -> Result<HideSets, OutOfMemory>
        ensures { IfOk result (λ sets. sets ≡ [] ∷ []) }
    {
        let mut sets = IndexSet::new(alloc);
        sets.insert(Vec::new(alloc))?;
        Ok(HideSets {
            alloc,
            sets,
            known: IndexMap::new(alloc),
        })
    }

    /// The set without names.
    pub fn empty(&self) -> Hide
        ensures own { result.0 < length self.now }
        ensures none { set_at self.now result.0 ≡ [] }
    {
        let _sets = &self.sets;
        EMPTY
    }

    pub fn has(&self, set: Hide, name: Name) -> bool
        requires { set.0 < length self.now }
        ensures { result ≡ has_name (set_at self.now set.0) name }
    {
        sorted::has(self.set(set), name)
    }

    /// The names of a set and this one.
    pub fn with(&mut self, set: Hide, name: Name) -> Result<Hide, OutOfMemory>
        requires { set.0 < length self.old }
        ensures own { IfOk result (λ made. made.0 < length self.new) }
        ensures exact { IfOk result (λ made. (test : declared.Name → Bool)
            → list_any test (set_at self.new made.0) ≡ (list_any test (set_at self.old set.0) || test name)) }
        ensures adds { IfOk result (λ made. Interns self.old self.new (set_at self.new made.0)) }
        ensures err { OnErr result (self.new ≡ self.old) }

        // at every outcome
        ensures grows { Extends self.old self.new }
    {
        self.make(SetOperation::With(set, name))
    }

    /// The names that two sets have in common.
    pub fn meet(&mut self, one: Hide, two: Hide) -> Result<Hide, OutOfMemory>
        requires one { one.0 < length self.old }
        requires two { two.0 < length self.old }
        ensures own { IfOk result (λ made. made.0 < length self.new) }
        ensures exact { IfOk result (λ made. (name : declared.Name)
            → has_name (set_at self.new made.0) name ≡ (has_name (set_at self.old one.0) name && has_name (set_at self.old two.0) name)) }
        ensures adds { IfOk result (λ made. Interns self.old self.new (set_at self.new made.0)) }
        ensures err { OnErr result (self.new ≡ self.old) }

        // at every outcome
        ensures grows { Extends self.old self.new }
    {
        self.make(SetOperation::Meet(one, two))
    }

    /// The names of two sets.
    pub fn union(&mut self, one: Hide, two: Hide) -> Result<Hide, OutOfMemory>
        requires one { one.0 < length self.old }
        requires two { two.0 < length self.old }
        ensures own { IfOk result (λ made. made.0 < length self.new) }
        ensures exact { IfOk result (λ made. (test : declared.Name → Bool)
            → list_any test (set_at self.new made.0) ≡ (list_any test (set_at self.old one.0) || list_any test (set_at self.old two.0))) }
        ensures adds { IfOk result (λ made. Interns self.old self.new (set_at self.new made.0)) }
        ensures err { OnErr result (self.new ≡ self.old) }

        // at every outcome
        ensures grows { Extends self.old self.new }
    {
        self.make(SetOperation::Union(one, two))
    }

    /// The set that the operation makes.
    fn make(&mut self, what: SetOperation) -> Result<Hide, OutOfMemory>
        requires { IsSetOperation self.old what }
        ensures own { IfOk result (λ made. made.0 < length self.new) }
        ensures exact { IfOk result (λ made. Makes self.old what (set_at self.new made.0)) }
        ensures adds { IfOk result (λ made. Interns self.old self.new (set_at self.new made.0)) }
        ensures err { OnErr result (self.new ≡ self.old) }

        // at every outcome
        ensures grows { Extends self.old self.new }
    {
        if let Some(made) = self.find(what) {
            return Ok(made);
        }
        let names = self.names_of(what)?;
        let made = self.intern(names)?;
        self.note(what, made);
        Ok(made)
    }

    /// What the operation made, where it was done.
    fn find(&self, what: SetOperation) -> Option<Hide>
        ensures { IfSome result (IsMade self.now what) }
    {
        self.known.get(&what).copied()
    }

    /// Notes what the operation made. Where no memory is left, it is made again the next time.
    fn note(&mut self, what: SetOperation, made: Hide)
        requires { IsMade self.old what made }
        ensures { self.new ≡ self.old }
    {
        let _ = self.known.insert(what, made);
    }

    /// The names that the operation makes.
    fn names_of(&self, what: SetOperation) -> Result<Vec<Name>, OutOfMemory>
        requires { IsSetOperation self.now what }
        ensures rising { IfOk result (λ made. IsRising made.items) }
        ensures exact { IfOk result (λ made. Makes self.now what made.items) }
    {
        Ok(match what {
            SetOperation::With(set, name) => sorted::insert(self.alloc, self.set(set), name)?,
            SetOperation::Meet(one, two) => {
                sorted::common(self.alloc, self.set(one), self.set(two))?
            }
            SetOperation::Union(one, two) => {
                sorted::union(self.alloc, self.set(one), self.set(two))?
            }
        })
    }

    /// The names of a set.
    fn set(&self, set: Hide) -> &[Name]
        requires { set.0 < length self.now }
        ensures is { result.now ≡ set_at self.now set.0 }
        ensures rising { IsRising result.now }
    {
        self.sets.as_slice()[set.0].as_slice()
    }

    /// The set of these names: the one that is there, or else a new one.
    fn intern(&mut self, set: Vec<Name>) -> Result<Hide, OutOfMemory>
        requires { IsRising set.items }
        ensures own { IfOk result (λ made. made.0 < length self.new) }
        ensures is { IfOk result (λ made. set_at self.new made.0 ≡ set.items) }
        ensures adds { IfOk result (λ made. Interns self.old self.new (set_at self.new made.0)) }
        ensures err { OnErr result (self.new ≡ self.old) }

        // at every outcome
        ensures grows { Extends self.old self.new }
    {
        let (index, _) = self.sets.insert_full(set)?;
        Ok(Hide(index))
    }

    /// Sets with the same names are one. This takes no time: it tells a proof.
    pub fn canonical(&self)
        ensures { IsCanonical self.now }
    {
        let _sets = &self.sets;
    }
}
