//! Laws about the definitions, each the contract of a function without code.
ghost use Rattle.std.specs.Prelude.{◌≡◌, ℕ, List, map, Option};
ghost use Rattle.sc_base.specs.declared.token.Token.{Token};
ghost use Rattle.c11_directives.specs.Lines.{Line};
ghost use Rattle.sc_lines.specs.declared.line.Branch as declared;
ghost use Rattle.sc_lines.specs.declared.line.Line as declared_line;
ghost use Rattle.sc_lines.specs.Branches.{HasBranch, without_branch};
ghost use Rattle.sc_lines.specs.Split.{AreLines};
ghost use Rattle.sc_model.specs.declared.standard.Standard.{Standard};

/// A line begins one branch or none: the line that ends it and the one that closes its section are
/// determined.
pub fn a_line_begins_one_branch()
    ensures { (lines : List Line) (i : ℕ) (a b : Option declared.Branch) → HasBranch lines i a → HasBranch lines i b → a ≡ b }
{}

/// Tokens have one list of lines, but for the branches: where each line stands is determined.
pub fn tokens_have_one_list_of_lines()
    ensures { (standard : Standard) (names : List (List ℕ)) (tokens : List Token) (a b : List declared_line.Line) → AreLines standard names tokens a → AreLines standard names tokens b
        → map without_branch a ≡ map without_branch b }
{}
