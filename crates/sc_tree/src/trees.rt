ghost use Rattle.std.specs.Prelude.{◌≡◌, ◌↔◌, ◌<◌, ◌-◌, ℕ, true, None, List, [], ◌∷◌, ◌++◌, Some, All, length, slice_get, IfSome, IfOk, IfErr, OnOk, OnErr};
ghost use Rattle.c11_parsing.specs.Bindings.{declared, parameters_below};
ghost use Rattle.c11_parsing.specs.C11.{c11_declarators};
ghost use Rattle.c11_parsing.specs.Trees.{Tree};
ghost use Rattle.sc_guarded.specs.Items.{items_at};
ghost use Rattle.sc_model.specs.Growth.{Extends};
ghost use Rattle.sc_model.specs.Sets.{IsConfig, IsCond, Keeps};
ghost use Rattle.sc_tree.specs.Lines.{leaf, node, choice, children_of, ChildrenFirst, AddsAtMost, OwnsBranches};
ghost use Rattle.sc_tree.specs.Reads.{Reads, Spells};
ghost use Rattle.sc_tree.specs.Views.{line_of, line_seen};

use crate::declared::declared;
use crate::line::{Line, TreeView, hash_of, is_same};
use crate::parameters::parameters;
use indexmap::IndexMap;
use sc_base::{Cond, Name, OutOfMemory, Place, Stop, TreeId};
use sc_presence::Conditions;
use std::alloc::Global;
use std::marker::Model;

/// The trees that were made, in the order of their ids. An id means the same tree for good.
#[derive(Drop)]
pub struct Trees {
    lines: Vec<Line>,
    /// Which trees calls for shared ones gave, by their hashes. An entry is compared with its tree
    /// when it is found: another one may have the same hash, and a tree for which there was no
    /// memory leaves an entry behind.
    shared: IndexMap<u64, TreeId>,
}

impl Model for Trees {
    ghost use Rattle.std.specs.Prelude.{List, map};
    ghost use Rattle.sc_tree.specs.Lines.{Line, ChildrenFirst};
    ghost use Rattle.sc_tree.specs.Views.{line_of};

    ghost Value = { List Line };

    ghost view = { λ t. map line_of t.lines.items };

    ghost invariant = { λ t. ChildrenFirst (map line_of t.lines.items) };
}

impl Trees {
    /// A store without trees, which keeps `alloc` for those that come.
    pub fn new(alloc: Global) -> Self
        ensures { result ≡ [] }
    {
        Trees {
            lines: Vec::new(alloc),
            shared: IndexMap::new(alloc),
        }
    }

    /// Makes the tree of a token.
    pub fn leaf(&mut self, place: Place, spelling: Name) -> Result<TreeId, OutOfMemory>
        ensures own { IfOk result (λ id. id.0 < length self.new) }
        ensures named { IfOk result (λ id. slice_get self.new id.0 ≡ Some (leaf place spelling)) }
        ensures adds { OnOk result (self.new ≡ self.old ++ leaf place spelling ∷ []) }
        ensures err { OnErr result (self.new ≡ self.old) }

        // at every outcome
        ensures grows { Extends self.old self.new }
        ensures first { ChildrenFirst self.new }
    {
        self.put(Line::Leaf(place, spelling))
    }

    /// Makes a node of a production, with these children from left to right.
    pub fn node(&mut self, production: usize, children: &[TreeId]) -> Result<TreeId, OutOfMemory>
        requires { All (λ child. child.0 < length self.old) children.now }
        ensures own { IfOk result (λ id. id.0 < length self.new) }
        ensures named { IfOk result (λ id. slice_get self.new id.0 ≡ Some (node production children.now)) }
        ensures adds { OnOk result (self.new ≡ self.old ++ node production children.now ∷ []) }
        ensures err { OnErr result (self.new ≡ self.old) }

        // at every outcome
        ensures grows { Extends self.old self.new }
        ensures first { ChildrenFirst self.new }
    {
        let children = Vec::from_slice(*self.lines.allocator(), children)?;
        self.put(Line::Node(production, children))
    }

    /// The tree of a token: that which such a call gave before, or else a new one.
    pub fn shared_leaf(&mut self, place: Place, spelling: Name) -> Result<TreeId, OutOfMemory>
        ensures own { IfOk result (λ id. id.0 < length self.new) }
        ensures named { IfOk result (λ id. slice_get self.new id.0 ≡ Some (leaf place spelling)) }
        ensures adds { OnOk result (AddsAtMost self.old self.new (leaf place spelling)) }
        ensures err { OnErr result (self.new ≡ self.old) }

        // at every outcome
        ensures grows { Extends self.old self.new }
        ensures first { ChildrenFirst self.new }
    {
        self.share(TreeView::Leaf(place, spelling))
    }

    /// A node of a production with these children from left to right: the last tree where that is
    /// one, or that which such a call gave before, or else a new one.
    pub fn shared_node(
        &mut self,
        production: usize,
        children: &[TreeId],
    ) -> Result<TreeId, OutOfMemory>
        requires { All (λ child. child.0 < length self.old) children.now }
        ensures own { IfOk result (λ id. id.0 < length self.new) }
        ensures named { IfOk result (λ id. slice_get self.new id.0 ≡ Some (node production children.now)) }
        ensures adds { OnOk result (AddsAtMost self.old self.new (node production children.now)) }
        ensures err { OnErr result (self.new ≡ self.old) }

        // at every outcome
        ensures last { slice_get self.old (length self.old - 1) ≡ Some (node production children.now) → self.new ≡ self.old }
        ensures grows { Extends self.old self.new }
        ensures first { ChildrenFirst self.new }
    {
        self.share(TreeView::Node(production, children))
    }

    /// A choice between trees, each under its condition: the last tree where that is one, or that
    /// which such a call gave before, or else a new one.
    pub fn choice(&mut self, branches: &[(Cond, TreeId)]) -> Result<TreeId, OutOfMemory>
        requires { All (λ branch. branch.1.0 < length self.old) branches.now }
        ensures own { IfOk result (λ id. id.0 < length self.new) }
        ensures named { IfOk result (λ id. slice_get self.new id.0 ≡ Some (choice branches.now)) }
        ensures adds { OnOk result (AddsAtMost self.old self.new (choice branches.now)) }
        ensures err { OnErr result (self.new ≡ self.old) }

        // at every outcome
        ensures grows { Extends self.old self.new }
        ensures first { ChildrenFirst self.new }
    {
        self.share(TreeView::Choice(branches))
    }

    /// What the tree of an id is.
    pub fn read(&self, id: TreeId) -> TreeView<'_>
        requires { id.0 < length self.now }
        ensures { slice_get self.now id.0 ≡ Some (line_seen result) }
    {
        self.lines[id.0].view()
    }

    /// The names that the tree declares (C11 6.7.6), each with the configurations in which it does.
    /// At a configuration there is one, or none where the tree is no declarator.
    pub fn declared<C: Conditions>(
        &self,
        alloc: Global,
        conds: &mut C,
        id: TreeId,
    ) -> Result<Vec<(Cond, Name)>, Stop>
        requires id { id.0 < length self.now }
        requires branches { OwnsBranches (C.sets conds.old) self.now }
        ensures names { IfOk result (λ found. (names files : List (List ℕ)) (c : List ℕ) (tree : Tree) → IsConfig (C.sets conds.old).arities c
            → Reads (record { sets = C.sets conds.old; names = names; files = files; lines = self.now }) c id.0 tree
            → Spells names (items_at (C.sets conds.new) found.items c) (declared c11_declarators tree)) }
        ensures own { IfOk result (λ found. All (λ name. IsCond (C.sets conds.new) name.0.0) found.items) }
        ensures memory { IfErr result (λ stop. stop ≡ Stop.OutOfMemory) }

        // at every outcome
        ensures keeps { Keeps (C.sets conds.old) (C.sets conds.new) }
    {
        Ok(declared(alloc, conds, &self.lines, id)?)
    }

    /// The names of the parameters of the function that the tree declares (C11 6.9.1), each with
    /// the configurations in which it is one. At a configuration they stand in their order.
    pub fn parameters<C: Conditions>(
        &self,
        alloc: Global,
        conds: &mut C,
        id: TreeId,
    ) -> Result<Vec<(Cond, Name)>, Stop>
        requires id { id.0 < length self.now }
        requires branches { OwnsBranches (C.sets conds.old) self.now }
        ensures names { IfOk result (λ found. (names files : List (List ℕ)) (c : List ℕ) (tree : Tree) → IsConfig (C.sets conds.old).arities c
            → Reads (record { sets = C.sets conds.old; names = names; files = files; lines = self.now }) c id.0 tree
            → Spells names (items_at (C.sets conds.new) found.items c) (parameters_below c11_declarators tree [])) }
        ensures own { IfOk result (λ found. All (λ name. IsCond (C.sets conds.new) name.0.0) found.items) }
        ensures memory { IfErr result (λ stop. stop ≡ Stop.OutOfMemory) }

        // at every outcome
        ensures keeps { Keeps (C.sets conds.old) (C.sets conds.new) }
    {
        Ok(parameters(alloc, conds, &self.lines, id)?)
    }

    /// Each tree was made after those below it. This takes no time: it tells a proof.
    pub fn children_first(&self)
        ensures { ChildrenFirst self.now }
    {
        let _lines = &self.lines;
    }

    /// The last tree where it is this, or the tree that a call for a shared one gave, or else a new
    /// one.
    fn share(&mut self, tree: TreeView<'_>) -> Result<TreeId, OutOfMemory>
        requires { All (λ child. child.0 < length self.old) (children_of (line_seen tree)) }
        ensures own { IfOk result (λ id. id.0 < length self.new) }
        ensures named { IfOk result (λ id. slice_get self.new id.0 ≡ Some (line_seen tree.entry)) }
        ensures adds { OnOk result (AddsAtMost self.old self.new (line_seen tree.entry)) }
        ensures err { OnErr result (self.new ≡ self.old) }

        // at every outcome
        ensures last { slice_get self.old (length self.old - 1) ≡ Some (line_seen tree.entry) → self.new ≡ self.old }
        ensures grows { Extends self.old self.new }
        ensures first { ChildrenFirst self.new }
    {
        let hash = hash_of(tree);
        match self.known(hash, tree) {
            Some(id) => Ok(id),
            None => {
                let line = Line::new(*self.lines.allocator(), tree)?;
                self.put_shared(hash, line)
            }
        }
    }

    /// The last tree where it is this, or the tree that a call for a shared one gave.
    fn known(&self, hash: u64, tree: TreeView<'_>) -> Option<TreeId>
        ensures own { IfSome result (λ id. id.0 < length self.now) }
        ensures named { IfSome result (λ id. slice_get self.now id.0 ≡ Some (line_seen tree.entry)) }
        ensures last { result ≡ None → slice_get self.now (length self.now - 1) ≡ Some (line_seen tree.entry) → ⊥ }
        ensures first { ChildrenFirst self.now }
    {
        if self.is_last(tree) {
            return Some(TreeId(self.lines.len() - 1));
        }
        let id = *self.shared.get(&hash)?;
        if id.0 < self.lines.len() && is_same(self.lines[id.0].view(), tree) {
            Some(id)
        } else {
            None
        }
    }

    fn is_last(&self, tree: TreeView<'_>) -> bool
        ensures { (result ≡ true) ↔ (slice_get self.now (length self.now - 1) ≡ Some (line_seen tree.entry)) }
    {
        match self.lines.last() {
            Some(last) => is_same(last.view(), tree),
            None => false,
        }
    }

    fn put_shared(&mut self, hash: u64, line: Line) -> Result<TreeId, OutOfMemory>
        requires { All (λ child. child.0 < length self.old) (children_of (line_of line)) }
        ensures own { IfOk result (λ id. id.0 < length self.new) }
        ensures named { IfOk result (λ id. slice_get self.new id.0 ≡ Some (line_of line)) }
        ensures adds { OnOk result (self.new ≡ self.old ++ line_of line ∷ []) }
        ensures err { OnErr result (self.new ≡ self.old) }
        ensures first { ChildrenFirst self.new }
    {
        self.shared.insert(hash, TreeId(self.lines.len()))?;
        self.put(line)
    }

    fn put(&mut self, line: Line) -> Result<TreeId, OutOfMemory>
        requires { All (λ child. child.0 < length self.old) (children_of (line_of line)) }
        ensures own { IfOk result (λ id. id.0 < length self.new) }
        ensures named { IfOk result (λ id. slice_get self.new id.0 ≡ Some (line_of line)) }
        ensures adds { OnOk result (self.new ≡ self.old ++ line_of line ∷ []) }
        ensures err { OnErr result (self.new ≡ self.old) }
        ensures first { ChildrenFirst self.new }
    {
        let id = TreeId(self.lines.len());
        self.lines.push(line)?;
        Ok(id)
    }
}
