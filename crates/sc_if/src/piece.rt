//! What the line of an `#if` consists of: tokens that stay, and each `defined` with its name.
ghost use Rattle.std.specs.Prelude.{◌≡◌, ◌<◌, ℕ, ◌∷◌, List, true, All, AllPairs, Ok, Err, map, IfNone, IfOk, IfSome};
ghost use Rattle.c11_expressions.specs.Lines as lines;
ghost use Rattle.c11_expressions.specs.Lines.{before, definedness, without_defined};
ghost use Rattle.c11_macros.specs.Hidden.{Hidden};
ghost use Rattle.c11_macros.specs.Macros.{Macros};
ghost use Rattle.sc_base.specs.declared.place.Place as declared_place;
ghost use Rattle.sc_base.specs.Seen.{IsHeld, position_of, text_at};
ghost use Rattle.sc_if.specs.Replaced.{IsEnd, IsHeldPiece, IsPlacedPiece, place_of, seen_piece, unhidden};
ghost use Rattle.sc_model.specs.Bytes.{same_bytes};
ghost use Rattle.sc_model.specs.declared.cause.Cause.TheVariants.{BadIf};

use sc_base::{Kind, Names, OutOfMemory, Token, is_same};
use std::alloc::Global;

/// A piece of the line of an `#if`.
#[derive(Clone, Copy, Debug, PartialEq, Eq)]
pub(crate) enum Piece {
    /// A token that stays.
    Token(Token),
    /// The token `defined`, and that of its name.
    Defined(Token, Token),
}

/// The pieces of a line, or `None` where a `defined` has no name.
pub(crate) fn pieces(
    alloc: Global,
    names: &Names,
    line: &[Token],
) -> Result<Option<Vec<Piece>>, OutOfMemory>
    requires { All (IsHeld names.now) line.now }
    ensures some { IfOk result (λ read. IfSome read (λ pieces. (macros : Macros) → without_defined macros (map (unhidden names.now) line.now) ≡ Ok (map (seen_piece macros names.now) pieces.items))) }
    ensures held { IfOk result (λ read. IfSome read (λ pieces. All (IsHeldPiece names.now) pieces.items)) }
    ensures placed { IfOk result (λ read. IfSome read (λ pieces. (files : ℕ) → All (λ t. t.place.file.0 < files) line.now → All (IsPlacedPiece files) pieces.items)) }
    ensures apart { IfOk result (λ read. IfSome read (λ pieces. AllPairs (λ t u. position_of t.place ≡ position_of u.place → ⊥) line.now
        → AllPairs (λ p q. position_of (place_of p) ≡ position_of (place_of q) → ⊥) pieces.items)) }
    ensures none { IfOk result (λ read. IfNone read ((macros : Macros) → without_defined macros (map (unhidden names.now) line.now) ≡ Err BadIf)) }
{
    let mut pieces = Vec::new(alloc);
    let mut rest = line;
    while let Some((token, behind)) = rest.split_first() {
        match first_piece(names, *token, behind) {
            Some((piece, left)) => {
                pieces.push(piece)?;
                rest = left;
            }
            None => return Ok(None),
        }
    }
    Ok(Some(pieces))
}

/// The piece that begins with a token, and what is left of the line.
fn first_piece<'a>(names: &Names, token: Token, behind: &'a [Token]) -> Option<(Piece, &'a [Token])>
    requires token { IsHeld names.now token }
    requires held { All (IsHeld names.now) behind.now }
    ensures some { IfSome result (λ read. (macros : Macros) → without_defined macros (map (unhidden names.now) (token ∷ behind.now)) ≡ before (seen_piece macros names.now read.0) (without_defined macros (map (unhidden names.now) read.1.now))) }
    ensures held { IfSome result (λ read. IsHeldPiece names.now read.0) }
    ensures part { IfSome result (λ read. IsEnd read.1.now behind.now) }
    ensures place { IfSome result (λ read. place_of read.0 ≡ token.place) }
    ensures placed { IfSome result (λ read. (files : ℕ) → token.place.file.0 < files → IsPlacedPiece files read.0) }
    ensures none { IfNone result ((macros : Macros) → without_defined macros (map (unhidden names.now) (token ∷ behind.now)) ≡ Err BadIf) }
{
    if !is_defined(names, token) {
        return Some((Piece::Token(token), behind));
    }
    let (name, left) = name_of_defined(names, behind)?;
    Some((Piece::Defined(token, name), left))
}

/// The name behind a `defined`, and what is left of the line.
fn name_of_defined<'a>(names: &Names, line: &'a [Token]) -> Option<(Token, &'a [Token])>
    requires { All (IsHeld names.now) line.now }
    ensures some { IfSome result (λ read. (macros : Macros) (t : Hidden declared_place.Place) → lines.is_defined t ≡ true
        → without_defined macros (t ∷ map (unhidden names.now) line.now) ≡ before (definedness macros t (unhidden names.now read.0)) (without_defined macros (map (unhidden names.now) read.1.now))) }
    ensures held { IfSome result (λ read. IsHeld names.now read.0) }
    ensures part { IfSome result (λ read. IsEnd read.1.now line.now) }
    ensures none { IfNone result ((macros : Macros) (t : Hidden declared_place.Place) → lines.is_defined t ≡ true → without_defined macros (t ∷ map (unhidden names.now) line.now) ≡ Err BadIf) }
{
    let (first, behind) = line.split_first()?;
    if is_identifier(*first) {
        return Some((*first, behind));
    }
    if !is_spelled(names, *first, b"(") {
        return None;
    }
    name_in_parentheses(names, behind)
}

/// The name behind an opening parenthesis, and what is left of the line behind the closing one.
fn name_in_parentheses<'a>(names: &Names, line: &'a [Token]) -> Option<(Token, &'a [Token])>
    requires { All (IsHeld names.now) line.now }
    ensures some { IfSome result (λ read. (macros : Macros) (t : Hidden declared_place.Place)
        → lines.in_parentheses macros t (map (unhidden names.now) line.now) ≡ before (definedness macros t (unhidden names.now read.0)) (without_defined macros (map (unhidden names.now) read.1.now))) }
    ensures held { IfSome result (λ read. IsHeld names.now read.0) }
    ensures part { IfSome result (λ read. IsEnd read.1.now line.now) }
    ensures none { IfNone result ((macros : Macros) (t : Hidden declared_place.Place) → lines.in_parentheses macros t (map (unhidden names.now) line.now) ≡ Err BadIf) }
{
    let (name, behind) = line.split_first()?;
    let (close, left) = behind.split_first()?;
    if is_identifier(*name) && is_spelled(names, *close, b")") {
        return Some((*name, left));
    }
    None
}

/// Whether a token is the name `defined`.
fn is_defined(names: &Names, token: Token) -> bool
    requires { IsHeld names.now token }
    ensures { result ≡ lines.is_defined (unhidden names.now token) }
{
    is_identifier(token) && is_spelled(names, token, b"defined")
}

fn is_identifier(token: Token) -> bool
    ensures { (names : List (List ℕ)) → result ≡ lines.is_identifier (unhidden names token) }
{
    matches!(token.kind, Kind::Identifier)
}

fn is_spelled(names: &Names, token: Token, text: &[u8]) -> bool
    requires { IsHeld names.now token }
    ensures { result ≡ same_bytes (text_at names.now token.spelling.0) text.now }
{
    is_same(names.text(token.spelling), text)
}
