//! Laws about the definitions, each the contract of a function without code.
ghost use Rattle.std.specs.Prelude.{Bool, List, ℕ, ◌≡◌, Result, Some};
ghost use Rattle.c11_directives.specs.Lines.{Group, Line, Tree, hash_of, lines_of, test_of};
ghost use Rattle.c11_directives.specs.Listed.{SaysValid};
ghost use Rattle.c11_directives.specs.Pre.{Context, Decides, Pre, State};
ghost use Rattle.c11_directives.specs.declared.directive.Test.{Test};
ghost use Rattle.c11_macros.specs.Expansion.{IsWithin};
ghost use Rattle.sc_model.specs.declared.cause.Cause.{Cause};
ghost use Rattle.sc_model.specs.Fault.{Fault};
ghost use Rattle.sc_model.specs.Outside.{Files};
ghost use Rattle.sc_model.specs.Space.{Space};
ghost use Rattle.sc_model.specs.Token.{Place, Token};
ghost use Rattle.sc_model.specs.declared.standard.Standard.{Standard};

/// The conditional directives of a file nest in one way, or their first fault is at one place.
pub fn nesting_has_one_answer()
    ensures { (lines : List Line) (r s : Result Group Place) → Tree lines r → Tree lines s → r ≡ s }
{}

/// The lines of a file's tokens are nested, or have a first fault.
pub fn nesting_has_an_answer()
    ensures { (standard : Standard) (tokens : List Token) → (r : Result Group Place) × Tree (lines_of standard tokens) r }
{}

/// Where finitely many names are defined each line that asks whether its group is taken is decided.
pub fn conditionals_have_an_answer()
    ensures { (context : Context) (s : State) (names : List (List ℕ)) (line : Line) (hash : Token) → IsWithin names s.macros → hash_of line ≡ Some hash
        → (test : Test) → test_of line ≡ Some test → (r : Result Bool Fault) × Decides context s line r }
{}

/// A configuration has one sequence of tokens, or one fault.
pub fn preprocessing_has_one_answer()
    ensures { (space : Space) (files : Files) (main config : List ℕ) (r s : Result (List Token) Fault) → Pre space files main config r → Pre space files main config s → r ≡ s }
{}

/// Each configuration has one of these.
pub fn preprocessing_has_an_answer()
    ensures { (space : Space) (files : Files) (main config : List ℕ) → (r : Result (List Token) Fault) × Pre space files main config r }
{}

/// The text of a space says one thing of a configuration: whether it holds, or one cause.
pub fn listing_has_one_answer()
    ensures { (space : Space) (config : List ℕ) (r s : Result Bool Cause) → SaysValid space config r → SaysValid space config s → r ≡ s }
{}

/// It says something of each configuration.
pub fn listing_has_an_answer()
    ensures { (space : Space) (config : List ℕ) → (r : Result Bool Cause) × SaysValid space config r }
{}
