ghost use Rattle.std.specs.Prelude.{◌≡◌, length};

use crate::bindings::Bindings;
use crate::history::History;
use crate::trie::Trie;
use sc_base::OutOfMemory;
use std::rc::Rc;

/// The numbers that parts of scopes have. Parts with one number are equal.
#[derive(Drop)]
pub struct Numbers {
    next: usize,
    history: History,
    ghost counted: { next ≡ length history.tries },
}

impl Numbers {
    ghost use Rattle.std.specs.Prelude.{[], IfOk};
    ghost use Rattle.sc_model.specs.Growth.{Extends};
    ghost use Rattle.sc_scope.specs.Kept.{at_branch, bindings_at, bindings_of};
    ghost use Rattle.sc_scope.specs.Numbered.{levels_made, IsNumbered};

    /// No part has a number yet.
    pub fn new() -> Numbers
        ensures { levels_made result ≡ [] }
    {
        Numbers {
            next: 0,
            history: History::new(),
        }
    }

    /// The trie of these parts, with a number of its own.
    pub(crate) fn branch(
        &mut self,
        left: Rc<Trie>,
        here: Bindings,
        right: Rc<Trie>,
    ) -> Result<Trie, OutOfMemory>
        requires left { IsNumbered (levels_made self.old) left.value }
        requires right { IsNumbered (levels_made self.old) right.value }
        ensures bindings { IfOk result (λ trie. bindings_at trie ≡ at_branch (bindings_at left.value) (bindings_of here) (bindings_at right.value)) }
        ensures numbered { IfOk result (λ trie. IsNumbered (levels_made self.new) trie) }

        // at every outcome
        ensures grows { Extends (levels_made self.old) (levels_made self.new) }
    {
        let Some(next) = self.next.checked_add(1) else {
            return Err(OutOfMemory);
        };
        let trie = Trie::Full(self.next, left, here, right);
        let history = History::with(&self.history, &trie);
        *self = Numbers { next, history };
        Ok(trie)
    }
}
