//! Laws about the definitions, each the contract of a function without code.
ghost use Rattle.std.specs.Prelude.{List, ℕ, Result, ◌≡◌};
ghost use Rattle.std.specs.List.{concat};
ghost use Rattle.sc_model.specs.Fault.{Fault};
ghost use Rattle.sc_model.specs.Space.{Space};
ghost use Rattle.sc_text.specs.Answer.{Answer, At, BodyAt, BodyKind};
ghost use Rattle.sc_text.specs.Layout.{IsSameAnswer, IsTextOf};
ghost use Rattle.sc_text.specs.Text.{Reads};

/// A text reads as one answer, however it is cut into pieces.
pub fn text_has_one_answer()
    ensures { (kind : BodyKind) (space : Space) (p q : List (List ℕ)) (a b : Answer kind) → concat p ≡ concat q → Reads space p a → Reads space q b → a ≡ b }
{}

/// A result has one text: two texts that keep the rules and read as the same body and faults are
/// one.
pub fn result_has_one_text()
    ensures { (kind : BodyKind) (space : Space) (p q : List (List ℕ)) (a b : Answer kind) → IsTextOf space p a → IsTextOf space q b → IsSameAnswer space a b → p ≡ q }
{}

/// An answer is one result at a configuration.
pub fn answer_has_one_result()
    ensures { (kind : BodyKind) (answer : Answer kind) (config : List ℕ) (r s : Result (BodyAt kind) Fault) → At answer config r → At answer config s → r ≡ s }
{}
