//! Laws about the definitions, each the contract of a function without code.
ghost use Rattle.std.specs.Prelude.{ℕ, List};
ghost use Rattle.c11_parsing.specs.Trees.{Tree};
ghost use Rattle.sc_model.specs.Sets.{IsConfig};
ghost use Rattle.sc_tree.specs.Reads.{Tables, Grows, Reads};

/// An id that stands for a tree at a configuration stands for it for good.
pub fn trees_keep_their_meaning()
    ensures { (old new : Tables) (c : List ℕ) (id : ℕ) (tree : Tree) → Grows old new → IsConfig old.sets.arities c → Reads old c id tree → Reads new c id tree }
{}
