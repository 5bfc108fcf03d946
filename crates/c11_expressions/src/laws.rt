//! Laws about the definitions, each the contract of a function without code.
ghost use Rattle.std.specs.Prelude.{◌≡◌, ◌++◌, ◌∷◌, ℕ, Bool, List, Option, Result};
ghost use Rattle.c11_expressions.specs.Arithmetic.{Typed};
ghost use Rattle.c11_expressions.specs.Evaluates.{Evaluates, IsExpression, Symbols};
ghost use Rattle.c11_expressions.specs.Expressions.{Expression, outcome};
ghost use Rattle.c11_expressions.specs.Grammar.{Phrase, Symbol};
ghost use Rattle.c11_expressions.specs.Lines.{Decides};
ghost use Rattle.c11_expressions.specs.Parts.{IsPart, Part};
ghost use Rattle.c11_expressions.specs.Waiting.{AreWaiting, Waiting};
ghost use Rattle.c11_macros.specs.Expansion.{IsWithin};
ghost use Rattle.c11_macros.specs.Hidden.{Failure, Hidden, Provenance};
ghost use Rattle.c11_macros.specs.Macros.{Macros};
ghost use Rattle.sc_model.specs.declared.cause.Cause.{Cause};
ghost use Rattle.sc_model.specs.declared.standard.Standard.{Standard};

/// Whatever expression the symbols are, evaluating it gives the same.
pub fn symbols_have_one_outcome()
    ensures { (ts : List Symbol) (a b : Expression) → Phrase 0 ts a → Phrase 0 ts b → outcome a ≡ outcome b }
{}

/// What waits behind symbols is one list.
pub fn symbols_wait_in_one_way()
    ensures { (ts : List Symbol) (ws vs : List Waiting) → AreWaiting ws ts → AreWaiting vs ts → ws ≡ vs }
{}

/// What waits behind tokens where one comes next is one part.
pub fn tokens_have_one_part()
    ensures { (next : Option Symbol) (ts : Symbols) (p q : Part) → IsPart next ts p → IsPart next ts q → p ≡ q }
{}

/// Before each token of an expression there is a part.
pub fn expressions_have_parts()
    ensures { (ts : Symbols) (next : Option Symbol) (rest : Symbols) (e : Expression) → IsExpression (ts ++ next ∷ rest) e → (p : Part) × IsPart next ts p }
{}

/// Tokens come to one result.
pub fn tokens_have_one_result()
    ensures { (ts : Symbols) (r s : Result Typed Cause) → Evaluates ts r → Evaluates ts s → r ≡ s }
{}

/// Tokens come to a result.
pub fn tokens_have_a_result()
    ensures { (ts : Symbols) → (r : Result Typed Cause) × Evaluates ts r }
{}

/// A line is decided in one way.
pub fn lines_have_one_answer<P>()
    ensures { (standard : Standard) (provenance : Provenance P) (macros : Macros) (hash : P) (ts : List (Hidden P)) (r s : Result Bool (Failure P))
        → Decides standard provenance macros hash ts r → Decides standard provenance macros hash ts s → r ≡ s }
{}

/// Where finitely many names are defined each line is decided.
pub fn lines_have_an_answer<P>()
    ensures { (standard : Standard) (provenance : Provenance P) (macros : Macros) (names : List (List ℕ)) → IsWithin names macros
        → (hash : P) (ts : List (Hidden P)) → (r : Result Bool (Failure P)) × Decides standard provenance macros hash ts r }
{}
