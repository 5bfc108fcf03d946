//! Laws about the texts of a run, each the contract of a function without code.
ghost use Rattle.std.specs.Prelude.{Bool, List, ℕ, None, Some, [], slice_get, ◌∷◌, ◌≡◌};
ghost use Rattle.c11_directives.specs.Listed.{IsListed};
ghost use Rattle.sc_core.specs.Ordinary.{Setting};
ghost use Rattle.sc_core.specs.CommandTexts.{IsParseText};
ghost use Rattle.sc_text.specs.Answer.{Answer, Condition, choice_part, project, tree_parts};
ghost use Rattle.sc_text.specs.Text.{Reads};

/// No choice in a text of `parse` has one branch alone, or two under one condition.
pub fn parse_choices_part_configurations()
    ensures one_branch { (s : Setting) (pieces : List (List ℕ)) (accepted : Bool) → IsParseText s pieces accepted → (answer : Answer tree_parts) → Reads s.space pieces answer
        → (number : ℕ) (branch : Condition × ℕ) → slice_get answer.body.parts number ≡ Some (choice_part (branch ∷ [])) → ⊥ }
    ensures one_condition { (s : Setting) (pieces : List (List ℕ)) (accepted : Bool) → IsParseText s pieces accepted → (answer : Answer tree_parts) → Reads s.space pieces answer
        → (number a b : ℕ) (test : Condition) → slice_get answer.body.parts number ≡ Some (choice_part ((test, a) ∷ (test, b) ∷ [])) → ⊥ }
{}

/// A text of `parse` in which each configuration has a fault has no root.
pub fn parse_root_has_a_configuration()
    ensures { (s : Setting) (pieces : List (List ℕ)) (accepted : Bool) → IsParseText s pieces accepted → (answer : Answer tree_parts) → Reads s.space pieces answer
        → ((config : List ℕ) → IsListed s.space config → project answer.faults config ≡ [] → ⊥) → answer.body.root ≡ None }
{}
