//! Laws about the definitions, each the contract of a function without code.
ghost use Rattle.std.specs.Prelude.{List, ℕ, Option, Some, slice_get, ◌≡◌};
ghost use Rattle.sc_base.specs.declared.fault.Fault as base;
ghost use Rattle.sc_base.specs.declared.id.TreeId.{TreeId};
ghost use Rattle.sc_model.specs.Sets.{Sets};
ghost use Rattle.sc_model.specs.Space.{Space, arities_of};
ghost use Rattle.sc_show.specs.TreeShows.{IsChoiceOf, ShowsTree};
ghost use Rattle.sc_text.specs.Answer.{Condition, choice_part};
ghost use Rattle.sc_tree.specs.Lines.{Line};

/// A tree of a store has one text: two texts that show it with the same faults are one.
pub fn shown_tree_has_one_text()
    ensures { (space : Space) (s : Sets) (names files : List (List ℕ)) (store : List Line) (root : Option TreeId) (faults : List base.Fault) (p q : List ℕ) → s.arities ≡ arities_of space
        → ShowsTree space s names files store root faults p → ShowsTree space s names files store root faults q → p ≡ q }
{}

/// Each choice that a tree's text shows is one of the store, with as many branches.
pub fn shown_choice_is_stored()
    ensures { (space : Space) (s : Sets) (names files : List (List ℕ)) (store : List Line) (root : Option TreeId) (faults : List base.Fault) (text : List ℕ) (shows : ShowsTree space s names files store root faults text)
        (number : ℕ) (tests : List (Condition × ℕ)) → slice_get shows.answer.body.parts number ≡ Some (choice_part tests) → IsChoiceOf s store shows.ids tests }
{}
