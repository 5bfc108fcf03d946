//! Laws about the definitions, each the contract of a function without code.
ghost use Rattle.std.specs.Prelude.{◌≡◌, ◌⊎◌, ℕ, true, List, Result};
ghost use Rattle.c11_parsing.specs.Classes.{Class, Input, IsClass};
ghost use Rattle.c11_parsing.specs.Core.{Core, CoreRun, Event, IsAnswered, IsFinished, IsStart, Stands};
ghost use Rattle.c11_parsing.specs.Derives.{DerivesText, IsParserOf};
ghost use Rattle.c11_parsing.specs.LR.{LR, Point, Reaches};
ghost use Rattle.c11_parsing.specs.Parser.{Parser};
ghost use Rattle.c11_parsing.specs.Trees.{Tree};
ghost use Rattle.lr_tables.specs.declared.grammar.Grammar.{Grammar};
ghost use Rattle.sc_model.specs.Sets.{IsConfig};
ghost use Rattle.sc_model.specs.Fault.{Fault};
ghost use Rattle.sc_model.specs.Token.{Place, Token};

/// Two points that are reached from one are on one way, and a list of tokens has one answer.
pub fn parsing_has_one_answer()
    ensures way { (m : Parser) (end : Place) (x y z : Point) → Reaches m end x y → Reaches m end x z → Reaches m end y z ⊎ Reaches m end z y }
    ensures answer { (m : Parser) (end : Place) (ts : List Token) (a b : Result Tree Fault) → LR m end ts a → LR m end ts b → a ≡ b }
{}

/// For any grammar with its LALR(1) tables, the tree of tokens that are accepted is a derivation
/// from them, and its leaves are the tokens in order.
pub fn trees_are_derivations()
    ensures { (g : Grammar) (m : Parser) → IsParserOf g m → (end : Place) (ts : List Token) (tree : Tree) → LR m end ts (Ok tree) → DerivesText m tree ts }
{}

/// A live configuration has one class at a place.
pub fn classes_are_determined()
    ensures { (input : Input) (i : ℕ) (c : List ℕ) (a b : Class) → IsClass input i c a → IsClass input i c b → a ≡ b }
{}

/// After any events each live configuration is at exactly one piece, where its own parsing comes
/// to. Where no subparser is left it has ended with its own answer.
pub fn subparsers_follow_each_configuration()
    ensures start { (input : Input) (core : Core) → IsStart input core → Stands input core }
    ensures events { (input : Input) (core last : Core) (events : List Event) → CoreRun input core events last → Stands input core → Stands input last }
    ensures answers { (input : Input) (core : Core) → IsFinished core → Stands input core → (c : List ℕ) → IsConfig input.arities c → input.live c ≡ true → IsAnswered input core c }
{}
