ghost use Rattle.std.specs.Prelude.{◌≡◌, Some, slice_get, All, IfOk, IfErr};
ghost use Rattle.sc_model.specs.Growth.{Extends, IsOneToOne};
ghost use Rattle.c11_tokens.specs.Lex.{end_position, is_newline};
ghost use Rattle.sc_model.specs.Token.{name_of};
ghost use Rattle.sc_base.specs.Seen.{IsHeld, position_of};
ghost use Rattle.sc_lex.specs.Spell.{lexeme_at, AreTokensOf, Refuses};

use crate::cursor::Cursor;
use crate::line::{LineSoFar, digraph};
use crate::piece::{PieceKind, longest};
use crate::unclosed::UnclosedQuotes;
use crate::{Kind, LexStop, Token};
use sc_base::{FileId, Names, OutOfMemory, Place};
use std::alloc::Global;

/// The tokens of a file, newlines among them.
pub fn tokens(
    alloc: Global,
    file: FileId,
    bytes: &[u8],
    names: &mut Names,
) -> Result<Vec<Token>, LexStop>
    ensures ok { IfOk result (λ ts. AreTokensOf names.new file bytes.now ts.items) }
    ensures own { IfOk result (λ ts. All (IsHeld names.new) ts.items) }
    ensures err { IfErr result (Refuses file bytes.now) }

    // at every outcome
    ensures grows { Extends names.old names.new }
    ensures one_to_one { IsOneToOne names.old → IsOneToOne names.new }
{
    let text = Cursor::new(bytes).text(alloc)?;
    let mut cursor = Cursor::new(bytes);
    let mut tokens = Vec::new(alloc);
    let mut so_far = LineSoFar::Start;
    let mut unclosed = UnclosedQuotes::NONE;
    let mut space = false;
    let mut offset = 0;
    while offset < text.len() {
        let place = cursor.place(file);
        let rest = &text[offset..];
        let Some(piece) = longest(rest, so_far.expects_header(), unclosed) else {
            return Err(LexStop::Comment(place));
        };
        match piece.kind {
            PieceKind::Blank | PieceKind::Comment => space = true,
            PieceKind::Token(kind) => {
                let spelling = &rest[..piece.length];
                tokens.push(token(names, kind, spelling, space, place)?)?;
                so_far = so_far.after(kind, spelling);
                space = is_newline(kind);
            }
        }
        unclosed = unclosed.after(rest, piece.length);
        cursor.advance(piece.length);
        offset += piece.length;
    }
    Ok(tokens)
}

/// Where a file ends: on the line after its last newline.
pub fn end(file: FileId, bytes: &[u8]) -> Place
    ensures position { position_of result ≡ end_position bytes.now }
    ensures in_file { result.file ≡ file }
{
    Place {
        file,
        line: 1 + Cursor::new(bytes).newlines(),
        column: 1,
    }
}

fn is_newline(kind: Kind) -> bool
    ensures { result ≡ is_newline kind }
{
    matches!(kind, Kind::Newline)
}

/// The token of this kind and spelling.
pub fn token(
    names: &mut Names,
    kind: Kind,
    spelling: &[u8],
    space: bool,
    place: Place,
) -> Result<Token, OutOfMemory>
    ensures spelled { IfOk result (λ t. lexeme_at names.new t ≡ Some (record {
      kind = kind;
      spelling = spelling.now;
      space = space;
      position = position_of place;
    })) }
    ensures named { IfOk result (λ t. slice_get names.new t.name.0 ≡ Some (name_of spelling.now)) }
    ensures text { IfOk result (λ t. slice_get names.new t.spelling.0 ≡ Some spelling.now) }
    ensures placed { IfOk result (λ t. t.place ≡ place) }

    // at every outcome
    ensures grows { Extends names.old names.new }
    ensures one_to_one { IsOneToOne names.new }
{
    let text = names.intern(spelling)?;
    let name = match digraph(spelling) {
        Some(name) => names.intern(name)?,
        None => text,
    };
    Ok(Token {
        kind,
        name,
        spelling: text,
        space,
        place,
    })
}
