ghost use Rattle.std.specs.Prelude.{◌≡◌, true, IfOk};
ghost use Rattle.sc_tree.specs.Views.{line_of, line_seen};

use sc_base::{Cond, Name, OutOfMemory, Place, TreeId};
use std::alloc::Global;

/// 2^64 by the golden ratio, whose multiples are far from each other.
const FACTOR: u64 = 0x9E37_79B9_7F4A_7C15;

/// A tree as the store keeps it. Its subtrees were put into the store before it.
#[derive(Drop)]
pub(crate) enum Line {
    Leaf(Place, Name),
    Node(usize, Vec<TreeId>),
    Choice(Vec<(Cond, TreeId)>),
}

/// What a tree is: a token by its place and spelling, a node by its production and children, or a
/// choice by its branches, each with its condition.
#[derive(Clone, Copy, Debug, PartialEq, Eq)]
pub enum TreeView<'a> {
    Leaf(Place, Name),
    Node(usize, &'a [TreeId]),
    Choice(&'a [(Cond, TreeId)]),
}

impl Line {
    /// The line of a tree, which keeps what it is lent.
    pub(crate) fn new(alloc: Global, tree: TreeView<'_>) -> Result<Line, OutOfMemory>
        ensures { IfOk result (λ line. line_of line ≡ line_seen tree.entry) }
    {
        Ok(match tree {
            TreeView::Leaf(place, spelling) => Line::Leaf(place, spelling),
            TreeView::Node(production, children) => {
                Line::Node(production, Vec::from_slice(alloc, children)?)
            }
            TreeView::Choice(branches) => Line::Choice(Vec::from_slice(alloc, branches)?),
        })
    }

    /// The line as it is lent.
    pub(crate) fn view(&self) -> TreeView<'_>
        ensures { line_seen result ≡ line_of self.now }
    {
        match self {
            Line::Leaf(place, spelling) => TreeView::Leaf(*place, *spelling),
            Line::Node(production, children) => TreeView::Node(*production, children.as_slice()),
            Line::Choice(branches) => TreeView::Choice(branches.as_slice()),
        }
    }
}

/// Whether the trees are the same.
pub(crate) fn is_same(a: TreeView<'_>, b: TreeView<'_>) -> bool
    ensures same { result ≡ true → line_seen a.entry ≡ line_seen b.entry }
    ensures told { line_seen a.entry ≡ line_seen b.entry → result ≡ true }
{
    a == b
}

/// A number by which a tree is looked up. Other trees may have it too.
pub(crate) fn hash_of(tree: TreeView<'_>) -> u64 {
    match tree {
        TreeView::Leaf(place, spelling) => {
            let line = mixed(mixed(0, place.file.0), place.line);
            mixed(mixed(line, place.column), spelling.0)
        }
        TreeView::Node(production, children) => {
            let mut hash = mixed(1, production);
            for child in children {
                hash = mixed(hash, child.0);
            }
            hash
        }
        TreeView::Choice(branches) => {
            let mut hash = 2;
            for (cond, child) in branches {
                hash = mixed(mixed(hash, cond.0), child.0);
            }
            hash
        }
    }
}

/// A number more in a hash: what the trees of one store are told apart by are small numbers of its
/// own, so a product mixes them well enough.
fn mixed(hash: u64, number: usize) -> u64 {
    (hash.rotate_left(5) ^ number as u64).wrapping_mul(FACTOR)
}
