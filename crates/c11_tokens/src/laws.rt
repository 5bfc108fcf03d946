//! Laws about the definitions, each the contract of a function without code.
ghost use Rattle.std.specs.Prelude.{List, ℕ, true, ◌||◌, ◌≡◌, Result, Ok};
ghost use Rattle.std.specs.List.{list_all};
ghost use Rattle.c11_tokens.specs.Lex.{Lexed, is_newline};
ghost use Rattle.sc_model.specs.Bytes.{has_no_newline};
ghost use Rattle.sc_model.specs.Token.{Lexeme, Position};

/// A file has one sequence of tokens, or one first comment without an end.
pub fn lexing_has_one_answer()
    ensures { (bytes : List ℕ) (r s : Result (List Lexeme) Position) → Lexed bytes r → Lexed bytes s → r ≡ s }
{}

/// Each file has one of these.
pub fn lexing_has_an_answer()
    ensures { (bytes : List ℕ) → (r : Result (List Lexeme) Position) × Lexed bytes r }
{}

/// Each token of a file but a newline is spelled on one line.
pub fn tokens_are_plain()
    ensures { (bytes : List ℕ) (ts : List Lexeme) → Lexed bytes (Ok ts) → list_all (λ (t : Lexeme). is_newline t.kind || has_no_newline t.spelling) ts ≡ true }
{}
