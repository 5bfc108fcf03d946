//! A template: the tokens of a list are pasted at each `##`, before its other arguments are
//! expanded.
ghost use Rattle.std.specs.Prelude.{◌≡◌, ℕ, ◌++◌, ◌∷◌, [], Bool, List, ◌||◌, true, false, Ok, Err, All, IfErr, IfOk, OnOk, map, not, length, ◌<◌};
ghost use Rattle.c11_macros.specs.Hidden as model;
ghost use Rattle.c11_macros.specs.Hidden.{failure_at};
ghost use Rattle.c11_macros.specs.Results.{result_map};
ghost use Rattle.c11_macros.specs.Substitution as substitution;
ghost use Rattle.c11_macros.specs.Substitution.{all_glued, begins_paste, filled, joined, or_placemarker, pieces_of, tokens_of, with_space};
ghost use Rattle.sc_base.specs.declared.id.Name as Name;
ghost use Rattle.sc_base.specs.declared.place.Place as declared;
ghost use Rattle.sc_model.specs.Growth.{Extends};
ghost use Rattle.sc_subst.specs.Glue.{IsHeldLeft, IsHeldPiece, begins_operator, is_operator, is_paste_slot, is_pasting, seen_piece, tokens_behind};
ghost use Rattle.sc_subst.specs.Parts.{AreHeldArguments, IsHeldPart, IsHeldSlot, filled_in, seen_arguments, seen_part, seen_slot};
ghost use Rattle.sc_subst.specs.Seen.{IsHeldHidden, Lasting, seen_hidden};
ghost use Rattle.sc_subst.specs.Stops.{OnFault};

use crate::slots::{Slot, argument};
use crate::{Hidden, HideSets, Part, SubstStop, Tokens, paste};
use sc_base::{Names, Place, Token};
use std::alloc::{AllocError, Global};

/// A token, a `##`, or what stands for an empty argument beside one.
#[derive(Clone, Copy, Debug, PartialEq, Eq)]
pub enum Piece {
    Token(Hidden),
    Operator,
    Placemarker,
}

/// What was read last: nothing, an operand, or an operand and a `##`.
#[derive(Clone, Copy, Debug, PartialEq, Eq)]
pub enum Left {
    Nothing,
    Operand(Piece),
    Pasting(Piece),
}

/// What is read last, once the piece was read.
fn feed(
    alloc: Global,
    sets: &mut HideSets,
    names: &mut Names,
    parts: &mut Vec<Part>,
    left: Left,
    piece: Piece,
) -> Result<Left, SubstStop>
    requires parts { All (IsHeldPart names.old sets.old) parts.old.items }
    requires left { IsHeldLeft names.old sets.old left }
    requires piece { IsHeldPiece names.old sets.old piece }
    ensures ok { IfOk result (λ next. Lasting names.new sets.new (λ names sets. (head : model.Hidden declared.Place) (expanded : List (List (model.Hidden declared.Place))) (ps : List (substitution.Piece declared.Place))
        → tokens_behind names sets head expanded parts.old.items left (seen_piece names sets piece ∷ ps) ≡ tokens_behind names sets head expanded parts.new.items next ps)) }
    ensures left { IfOk result (IsHeldLeft names.new sets.new) }
    ensures parts { OnOk result (All (IsHeldPart names.new sets.new) parts.new.items) }
    ensures pasting { IfOk result (λ next. is_operator piece ≡ false → is_pasting next ≡ false) }
    ensures err { IfErr result (λ stop. OnFault stop (λ cause. Lasting names.new sets.new (λ names sets. (head : model.Hidden declared.Place) (expanded : List (List (model.Hidden declared.Place)))
        (ps : List (substitution.Piece declared.Place)) → tokens_behind names sets head expanded parts.old.items left (seen_piece names sets piece ∷ ps) ≡ Err (failure_at cause head)))) }

    // at every outcome
    ensures names { Extends names.old names.new }
    ensures sets { Extends sets.old sets.new }
{
    match left {
        Left::Nothing => Ok(Left::Operand(piece)),
        Left::Pasting(left) => match join(alloc, sets, names, left, piece) {
            Ok(joined) => Ok(Left::Operand(joined)),
            Err(stop) => Err(stop),
        },
        Left::Operand(left) => {
            if piece.is_operator() {
                return Ok(Left::Pasting(left));
            }
            flush(parts, left)?;
            Ok(Left::Operand(piece))
        }
    }
}

impl Piece {
    fn is_operator(self) -> bool
        ensures { result ≡ is_operator self }
    {
        matches!(self, Piece::Operator)
    }
}

/// What two operands make.
fn join(
    alloc: Global,
    sets: &mut HideSets,
    names: &mut Names,
    left: Piece,
    right: Piece,
) -> Result<Piece, SubstStop>
    requires left { IsHeldPiece names.old sets.old left }
    requires right { IsHeldPiece names.old sets.old right }
    ensures ok { IfOk result (λ made. Lasting names.new sets.new (λ names sets. (head : model.Hidden declared.Place)
        → joined head (seen_piece names sets left) (seen_piece names sets right) ≡ Ok (seen_piece names sets made))) }
    ensures own { IfOk result (IsHeldPiece names.new sets.new) }
    ensures err { IfErr result (λ stop. OnFault stop (λ cause. Lasting names.new sets.new (λ names sets. (head : model.Hidden declared.Place)
        → joined head (seen_piece names sets left) (seen_piece names sets right) ≡ Err (failure_at cause head)))) }

    // at every outcome
    ensures names { Extends names.old names.new }
    ensures sets { Extends sets.old sets.new }
{
    match (left, right) {
        (Piece::Token(one), Piece::Token(two)) => match paste(alloc, sets, names, &one, &two) {
            Ok(made) => Ok(Piece::Token(made)),
            Err(stop) => Err(stop),
        },
        (Piece::Token(_), _) => Ok(left),
        _ => Ok(right),
    }
}

/// A piece to which nothing is pasted any more.
fn flush(parts: &mut Vec<Part>, piece: Piece) -> Result<(), AllocError>
    ensures is { OnOk result ((names : List (List ℕ)) (sets : List (List Name.Name)) (expanded : List (List (model.Hidden declared.Place)))
        → filled_in expanded (map (seen_part names sets) parts.new.items) ≡ filled_in expanded (map (seen_part names sets) parts.old.items) ++ tokens_of (seen_piece names sets piece ∷ [])) }
    ensures own { OnOk result ((names : List (List ℕ)) (sets : List (List Name.Name)) → All (IsHeldPart names sets) parts.old.items → IsHeldPiece names sets piece
        → All (IsHeldPart names sets) parts.new.items) }
{
    if let Piece::Token(token) = piece {
        parts.push(Part::Token(token))?;
    }
    Ok(())
}

/// What was read last, to which nothing is pasted any more.
fn settle(parts: &mut Vec<Part>, left: Left) -> Result<(), AllocError>
    ensures apart { OnOk result ((names : List (List ℕ)) (sets : List (List Name.Name)) (head : model.Hidden declared.Place) (expanded : List (List (model.Hidden declared.Place))) (ps : List (substitution.Piece declared.Place)) → is_pasting left ≡ false → begins_operator ps ≡ false
        → tokens_behind names sets head expanded parts.old.items left ps ≡ tokens_behind names sets head expanded parts.new.items Left.Nothing ps) }
    ensures ends { OnOk result ((names : List (List ℕ)) (sets : List (List Name.Name)) (head : model.Hidden declared.Place) (expanded : List (List (model.Hidden declared.Place)))
        → tokens_behind names sets head expanded parts.old.items left [] ≡ Ok (filled_in expanded (map (seen_part names sets) parts.new.items))) }
    ensures own { OnOk result ((names : List (List ℕ)) (sets : List (List Name.Name)) → All (IsHeldPart names sets) parts.old.items → IsHeldLeft names sets left
        → All (IsHeldPart names sets) parts.new.items) }
{
    match left {
        Left::Nothing => Ok(()),
        Left::Operand(piece) => flush(parts, piece),
        Left::Pasting(piece) => flush(parts, piece),
    }
}

/// The place of an argument that is still to be expanded.
fn place(parts: &mut Vec<Part>, left: Left, parameter: usize, space: bool) -> Result<(), AllocError>
    ensures is { OnOk result ((names : List (List ℕ)) (sets : List (List Name.Name)) (head : model.Hidden declared.Place) (expanded : List (List (model.Hidden declared.Place))) (ps : List (substitution.Piece declared.Place)) → is_pasting left ≡ false → begins_operator ps ≡ false
        → tokens_behind names sets head expanded parts.old.items left (pieces_of (with_space space (substitution.argument expanded parameter)) ++ ps)
        ≡ tokens_behind names sets head expanded parts.new.items Left.Nothing ps) }
    ensures own { OnOk result ((names : List (List ℕ)) (sets : List (List Name.Name)) → All (IsHeldPart names sets) parts.old.items → IsHeldLeft names sets left
        → All (IsHeldPart names sets) parts.new.items) }
{
    settle(parts, left)?;
    parts.push(Part::Argument { parameter, space })?;
    Ok(())
}

/// What is read last, once the tokens of an argument were read that stands beside a `##`.
fn feed_argument(
    alloc: Global,
    sets: &mut HideSets,
    names: &mut Names,
    parts: &mut Vec<Part>,
    left: Left,
    tokens: &[Hidden],
    space: bool,
) -> Result<Left, SubstStop>
    requires parts { All (IsHeldPart names.old sets.old) parts.old.items }
    requires left { IsHeldLeft names.old sets.old left }
    requires tokens { All (IsHeldHidden names.old sets.old) tokens.now }
    ensures ok { IfOk result (λ next. Lasting names.new sets.new (λ names sets. (head : model.Hidden declared.Place) (expanded : List (List (model.Hidden declared.Place))) (ps : List (substitution.Piece declared.Place))
        → tokens_behind names sets head expanded parts.old.items left (or_placemarker (with_space space (map (seen_hidden names sets) tokens.now)) ++ ps)
        ≡ tokens_behind names sets head expanded parts.new.items next ps)) }
    ensures left { IfOk result (IsHeldLeft names.new sets.new) }
    ensures parts { OnOk result (All (IsHeldPart names.new sets.new) parts.new.items) }
    ensures pasting { IfOk result (λ next. is_pasting next ≡ false) }
    ensures err { IfErr result (λ stop. OnFault stop (λ cause. Lasting names.new sets.new (λ names sets. (head : model.Hidden declared.Place) (expanded : List (List (model.Hidden declared.Place))) (ps : List (substitution.Piece declared.Place))
        → tokens_behind names sets head expanded parts.old.items left (or_placemarker (with_space space (map (seen_hidden names sets) tokens.now)) ++ ps) ≡ Err (failure_at cause head)))) }

    // at every outcome
    ensures names { Extends names.old names.new }
    ensures sets { Extends sets.old sets.new }
{
    if tokens.is_empty() {
        return feed(alloc, sets, names, parts, left, Piece::Placemarker);
    }
    let first = Piece::Token(spaced(tokens[0], space));
    match feed(alloc, sets, names, parts, left, first) {
        Ok(left) => feed_all(alloc, sets, names, parts, left, &tokens[1..]),
        Err(stop) => Err(stop),
    }
}

/// The token with this white space.
pub fn spaced(hidden: Hidden, space: bool) -> Hidden
    ensures { result ≡ record { token = record hidden.token { space = space }; hide = hidden.hide } }
{
    Hidden {
        token: Token {
            kind: hidden.token.kind,
            name: hidden.token.name,
            spelling: hidden.token.spelling,
            space,
            place: hidden.token.place,
        },
        hide: hidden.hide,
    }
}

fn feed_all(
    alloc: Global,
    sets: &mut HideSets,
    names: &mut Names,
    parts: &mut Vec<Part>,
    left: Left,
    tokens: &[Hidden],
) -> Result<Left, SubstStop>
    requires parts { All (IsHeldPart names.old sets.old) parts.old.items }
    requires left { IsHeldLeft names.old sets.old left }
    requires tokens { All (IsHeldHidden names.old sets.old) tokens.now }
    ensures ok { IfOk result (λ next. Lasting names.new sets.new (λ names sets. (head : model.Hidden declared.Place) (expanded : List (List (model.Hidden declared.Place))) (ps : List (substitution.Piece declared.Place))
        → tokens_behind names sets head expanded parts.old.items left (pieces_of (map (seen_hidden names sets) tokens.now) ++ ps) ≡ tokens_behind names sets head expanded parts.new.items next ps)) }
    ensures left { IfOk result (IsHeldLeft names.new sets.new) }
    ensures parts { OnOk result (All (IsHeldPart names.new sets.new) parts.new.items) }
    ensures pasting { IfOk result (λ next. is_pasting left ≡ false → is_pasting next ≡ false) }
    ensures err { IfErr result (λ stop. OnFault stop (λ cause. Lasting names.new sets.new (λ names sets. (head : model.Hidden declared.Place) (expanded : List (List (model.Hidden declared.Place))) (ps : List (substitution.Piece declared.Place))
        → tokens_behind names sets head expanded parts.old.items left (pieces_of (map (seen_hidden names sets) tokens.now) ++ ps) ≡ Err (failure_at cause head)))) }

    // at every outcome
    ensures names { Extends names.old names.new }
    ensures sets { Extends sets.old sets.new }
{
    let mut left = left;
    for token in tokens {
        left = match feed(alloc, sets, names, parts, left, Piece::Token(*token)) {
            Ok(next) => next,
            Err(stop) => return Err(stop),
        };
    }
    Ok(left)
}

/// What is read last, once the slot was read.
fn read(
    alloc: Global,
    sets: &mut HideSets,
    names: &mut Names,
    parts: &mut Vec<Part>,
    left: Left,
    behind: bool,
    slot: &Slot,
    rest: &[Slot],
    raw: &[Tokens],
) -> Result<Left, SubstStop>
    requires parts { All (IsHeldPart names.old sets.old) parts.old.items }
    requires left { IsHeldLeft names.old sets.old left }
    requires pasting { behind ≡ false → is_pasting left ≡ false }
    requires slot { IsHeldSlot names.old sets.old slot.now }
    requires raw { AreHeldArguments names.old sets.old raw.now }
    ensures ok { IfOk result (λ next. Lasting names.new sets.new (λ names sets. (head : model.Hidden declared.Place) (expanded : List (List (model.Hidden declared.Place)))
        → tokens_behind names sets head expanded parts.old.items left (filled (seen_arguments names sets raw.now) expanded behind (map (seen_slot names sets) (slot.now ∷ rest.now)))
        ≡ tokens_behind names sets head expanded parts.new.items next (filled (seen_arguments names sets raw.now) expanded (is_paste_slot slot.now) (map (seen_slot names sets) rest.now)))) }
    ensures left { IfOk result (IsHeldLeft names.new sets.new) }
    ensures parts { OnOk result (All (IsHeldPart names.new sets.new) parts.new.items) }
    ensures pasting { IfOk result (λ next. is_paste_slot slot.now ≡ false → is_pasting next ≡ false) }
    ensures err { IfErr result (λ stop. OnFault stop (λ cause. Lasting names.new sets.new (λ names sets. (head : model.Hidden declared.Place) (expanded : List (List (model.Hidden declared.Place)))
        → tokens_behind names sets head expanded parts.old.items left (filled (seen_arguments names sets raw.now) expanded behind (map (seen_slot names sets) (slot.now ∷ rest.now))) ≡ Err (failure_at cause head)))) }

    // at every outcome
    ensures names { Extends names.old names.new }
    ensures sets { Extends sets.old sets.new }
{
    match *slot {
        Slot::Token(token) => feed(alloc, sets, names, parts, left, Piece::Token(token)),
        Slot::Paste => feed(alloc, sets, names, parts, left, Piece::Operator),
        Slot::Parameter { parameter, space } => {
            if is_beside(behind, rest) {
                let tokens = argument(raw, parameter);
                return feed_argument(alloc, sets, names, parts, left, tokens, space);
            }
            place(parts, left, parameter, space)?;
            Ok(Left::Nothing)
        }
    }
}

/// Whether a `##` stands before or behind.
fn is_beside(behind: bool, rest: &[Slot]) -> bool
    ensures { (names : List (List ℕ)) (sets : List (List Name.Name)) → result ≡ (behind || begins_paste (map (seen_slot names sets) rest.now)) }
{
    behind || matches!(rest, [Slot::Paste, ..])
}

/// The template that slots make.
pub fn glue(
    alloc: Global,
    sets: &mut HideSets,
    names: &mut Names,
    slots: &[Slot],
    raw: &[Tokens],
) -> Result<Vec<Part>, SubstStop>
    requires slots { All (IsHeldSlot names.old sets.old) slots.now }
    requires raw { AreHeldArguments names.old sets.old raw.now }
    ensures ok { IfOk result (λ parts. Lasting names.new sets.new (λ names sets. (head : model.Hidden declared.Place) (expanded : List (List (model.Hidden declared.Place)))
        → result_map tokens_of (all_glued head (filled (seen_arguments names sets raw.now) expanded false (map (seen_slot names sets) slots.now))) ≡ Ok (filled_in expanded (map (seen_part names sets) parts.items)))) }
    ensures own { IfOk result (λ parts. All (IsHeldPart names.new sets.new) parts.items) }
    ensures err { IfErr result (λ stop. OnFault stop (λ cause. Lasting names.new sets.new (λ names sets. (head : model.Hidden declared.Place) (expanded : List (List (model.Hidden declared.Place)))
        → result_map tokens_of (all_glued head (filled (seen_arguments names sets raw.now) expanded false (map (seen_slot names sets) slots.now))) ≡ Err (failure_at cause head)))) }

    // at every outcome
    ensures names { Extends names.old names.new }
    ensures sets { Extends sets.old sets.new }
{
    let mut parts = Vec::new(alloc);
    let mut left = Left::Nothing;
    let mut behind = false;
    for (i, slot) in slots.iter().enumerate() {
        let rest = &slots[i + 1..];
        left = match read(
            alloc, sets, names, &mut parts, left, behind, slot, rest, raw,
        ) {
            Ok(next) => next,
            Err(stop) => return Err(stop),
        };
        behind = slot.is_paste();
    }
    settle(&mut parts, left)?;
    Ok(parts)
}

impl Slot {
    fn is_paste(&self) -> bool
        ensures { result ≡ is_paste_slot self.now }
    {
        matches!(self, Slot::Paste)
    }
}
