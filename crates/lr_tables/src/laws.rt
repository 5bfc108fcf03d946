//! Laws about the definitions, each the contract of a function without code.
ghost use Rattle.std.specs.Prelude.{◌≡◌, ℕ, List, Option};
ghost use Rattle.lr_tables.specs.Grammar.{IsGrammar};
ghost use Rattle.lr_tables.specs.Paths.{Path, Reduces, StartsApart, top};
ghost use Rattle.lr_tables.specs.Tables.{AreSame, AreTables, CanReduce, IsAction, IsGoto, IsStates, Tables};
ghost use Rattle.lr_tables.specs.declared.grammar.Action.{Action};
ghost use Rattle.lr_tables.specs.declared.grammar.Grammar.{Grammar};

/// A grammar has its LALR(1) tables once: the definition determines the states with their numbers,
/// and of each state the action at each terminal, the goto by each nonterminal and the conflicts.
pub fn tables_are_determined()
    ensures states { (g : Grammar) (a b : List (List ℕ)) → IsStates g a → IsStates g b → a ≡ b }
    ensures action { (g : Grammar) (states : List (List ℕ)) (s t : ℕ) (a b : Option Action) → IsStates g states
        → IsAction g states s t a → IsAction g states s t b → a ≡ b }
    ensures tables { (g : Grammar) (a b : Tables) → AreTables g a → AreTables g b → AreSame g a b }
{}

/// All gotos into a state are by one symbol, so the states on a stack tell its symbols. The right
/// side of a reduction stands on top of the stack, and the state below it has a goto by the left
/// side.
pub fn stacks_are_paths()
    ensures symbol { (g : Grammar) (states : List (List ℕ)) (s r x y t : ℕ) → IsGoto g states s x t → IsGoto g states r y t → x ≡ y }
    ensures symbols { (g : Grammar) (states : List (List ℕ)) (stack xs ys : List ℕ) → Path g states stack xs → Path g states stack ys → xs ≡ ys }
    ensures reduction { (g : Grammar) (states : List (List ℕ)) (stack symbols : List ℕ) (t p : ℕ) → IsGrammar g → IsStates g states → StartsApart g
        → Path g states stack symbols → CanReduce g states (top stack) t p → Reduces g states stack symbols p }
{}
