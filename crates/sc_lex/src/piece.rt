ghost use Rattle.std.specs.Prelude.{◌≡◌, ◌+◌, ◌<◌, ℕ, List, length, slice_index, IfSome, IfNone};
ghost use Rattle.c11_tokens.specs.Lex.{token, rank, fits, fits_here, expects_header, IsLongest, IsUnended};
ghost use Rattle.sc_model.specs.declared.kind.Kind.TheVariants as token_kind;
ghost use Rattle.sc_lex.specs.Scan.{IsLongestFront};
ghost use Rattle.sc_lex.specs.Piece.{kind_of, IsBestBefore, BeginsOnly, begins_identifier, begins_punctuator};
ghost use Rattle.sc_lex.specs.Unclosed.{AreUnclosed};

use crate::scan;
use crate::unclosed::UnclosedQuotes;
use sc_model::Kind;

/// What a piece of a text can be: white space, or a token.
#[derive(Clone, Copy, Debug, PartialEq, Eq)]
pub enum PieceKind {
    Blank,
    Comment,
    Token(Kind),
}

/// So many bytes at the front of a text, and what they are.
#[derive(Clone, Copy, Debug, PartialEq, Eq)]
pub struct Piece {
    pub kind: PieceKind,
    pub length: usize,
}

impl Piece {
    /// The longer one, and of two just as long this one.
    fn or_longer(self, kind: PieceKind, length: usize) -> Piece
        ensures { (line : List (List ℕ)) (bytes : List ℕ) (bound : ℕ)
            → IsBestBefore bound line bytes (kind_of self.kind) self.length → rank (kind_of kind) ≡ bound
            → IsLongestFront (fits_here line (kind_of kind)) bytes length
            → IsBestBefore (bound + 1) line bytes (kind_of result.kind) result.length }
    {
        if self.length < length {
            Piece { kind, length }
        } else {
            self
        }
    }
}

/// The longest piece at the front of a text whose first byte begins pieces of one kind, and nothing
/// else.
fn piece_of_one_kind(text: &[u8]) -> Option<Piece>
    requires { 0 < length text.now }
    ensures only { IfSome result (λ piece. BeginsOnly (slice_index text.now 0) (kind_of piece.kind)) }
    ensures longest { IfSome result (λ piece. IsLongestFront (fits (kind_of piece.kind)) text.now piece.length) }
{
    let first = text[0];
    if scan::is_blank(first) {
        return Some(Piece {
            kind: PieceKind::Blank,
            length: scan::blanks(text),
        });
    }
    let (kind, length) = if begins_identifier(first) {
        (Kind::Identifier, scan::identifier(text))
    } else if begins_punctuator(first) {
        (Kind::Punctuator, scan::punctuator(text))
    } else if scan::is_digit(first) {
        (Kind::Number, scan::number(text))
    } else if first == b'\n' {
        (Kind::Newline, scan::newline(text))
    } else {
        return None;
    };
    Some(Piece {
        kind: PieceKind::Token(kind),
        length,
    })
}

fn begins_identifier(byte: u8) -> bool
    ensures { result ≡ begins_identifier byte }
{
    scan::is_letter(byte) && !matches!(byte, b'L' | b'U' | b'u')
}

fn begins_punctuator(byte: u8) -> bool
    ensures { result ≡ begins_punctuator byte }
{
    matches!(
        byte,
        b'(' | b')'
            | b'['
            | b']'
            | b'{'
            | b'}'
            | b';'
            | b','
            | b'='
            | b'+'
            | b'-'
            | b'*'
            | b'&'
            | b'|'
            | b'!'
            | b'~'
            | b'^'
            | b'?'
            | b':'
            | b'>'
            | b'#'
            | b'%'
    )
}

/// The longest piece at the front of a text. None comes where a comment without an end begins.
pub fn longest(text: &[u8], expects: bool, unclosed: UnclosedQuotes) -> Option<Piece>
    requires some { 0 < length text.now }
    requires unclosed { AreUnclosed text.now unclosed }
    ensures some { IfSome result (λ piece. (line : List (List ℕ)) → expects_header line ≡ expects
        → IsLongest line text.now (kind_of piece.kind) piece.length) }
    ensures none { IfNone result (IsUnended text.now) }
{
    if let Some(piece) = piece_of_one_kind(text) {
        return Some(piece);
    }
    let comment = scan::comment(text)?;
    let best = Piece {
        kind: PieceKind::Token(Kind::Header),
        length: header(text, expects),
    };
    Some(
        best.or_longer(PieceKind::Blank, scan::blanks(text))
            .or_longer(PieceKind::Comment, comment)
            .or_longer(PieceKind::Token(Kind::Newline), scan::newline(text))
            .or_longer(PieceKind::Token(Kind::Identifier), scan::identifier(text))
            .or_longer(PieceKind::Token(Kind::Number), scan::number(text))
            .or_longer(
                PieceKind::Token(Kind::Character),
                scan::character(text, unclosed.single),
            )
            .or_longer(
                PieceKind::Token(Kind::Text),
                scan::string(text, unclosed.double),
            )
            .or_longer(PieceKind::Token(Kind::Punctuator), scan::punctuator(text))
            .or_longer(PieceKind::Token(Kind::Other), 1),
    )
}

/// A header name, where one may stand.
fn header(text: &[u8], expects: bool) -> usize
    ensures { (line : List (List ℕ)) → expects_header line ≡ expects
        → IsLongestFront (fits_here line (token token_kind.Header)) text.now result }
{
    if expects { scan::header(text) } else { 0 }
}
