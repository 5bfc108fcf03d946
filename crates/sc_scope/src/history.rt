ghost use Rattle.std.specs.Prelude.{◌≡◌, List, [], ◌∷◌, ◌++◌};
ghost use Rattle.std.specs.Borrow.{ftrue};
ghost use Rattle.std.specs.Coded.{coded_list};
ghost use Rattle.sc_scope.specs.contracts.trie.Trie as kept;
ghost use Rattle.sc_scope.specs.declared.trie.Trie.{Trie};

use crate::trie::Trie;
use std::marker::Model;

/// The tries that got a number, in order. They exist only in proofs: this takes no memory.
#[derive(Drop)]
pub struct History {
    pub(crate) ghost tries: { List Trie } by { coded_list kept.the_row.coded },
}

impl Model for History {
    ghost also_owns = { λ _. ftrue };
}

impl History {
    pub(crate) fn new() -> History
        ensures { result.tries ≡ [] }
    {
        History {}
    }

    pub(crate) fn with(_before: &History, _trie: &Trie) -> History
        ensures { result.tries ≡ _before.now.tries ++ _trie.now ∷ [] }
    {
        History {}
    }
}
