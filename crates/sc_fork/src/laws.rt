//! Laws about what callers keep between calls, each the contract of a function without code.
ghost use Rattle.std.specs.Prelude.{ℕ, List, length};
ghost use Rattle.c11_parsing.specs.Classes.{Input};
ghost use Rattle.c11_parsing.specs.Core as core;
ghost use Rattle.sc_fork.specs.declared.fork.Core.{Core};
ghost use Rattle.sc_fork.specs.Cores.{IsCore};
ghost use Rattle.sc_fork.specs.Owns.{OwnsCore};
ghost use Rattle.sc_merge.specs.Merges.{tables_with};
ghost use Rattle.sc_model.specs.Growth.{Extends};
ghost use Rattle.sc_model.specs.Sets.{Keeps, Sets};
ghost use Rattle.sc_tree.specs.Lines.{Line, OwnsBranches};

/// A core is seen as before, and owns what it did, in the stores that other calls have grown. So
/// its events can be done in any order, between any other calls.
pub fn core_stays_in_grown_stores()
    ensures seen { (old new : Sets) (lines added : List Line) (names files : List (List ℕ)) (input : Input) (c : Core) (seen : core.Core) → Keeps old new → Extends lines added
        → IsCore (tables_with old lines names files) input c seen → IsCore (tables_with new added names files) input c seen }
    ensures own { (old new : Sets) (lines added : List Line) (c : Core) → Keeps old new → Extends lines added → OwnsCore old (length lines) c → OwnsCore new (length added) c }
    ensures branches { (old new : Sets) (lines : List Line) → Keeps old new → OwnsBranches old lines → OwnsBranches new lines }
{}
