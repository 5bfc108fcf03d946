//! The number of a line (C11 6.10.4).
ghost use Rattle.std.specs.Prelude.{◌≡◌, ℕ, All, List, IfOk, map, not};
ghost use Rattle.std.specs.List.{list_any};
ghost use Rattle.c11_directives.specs.Behind.{is_file_text, is_line_number, is_number_of_line, is_numbering};
ghost use Rattle.sc_base.specs.Seen.{IsHeld, seen};
ghost use Rattle.sc_model.specs.Sets.{Denotes, Keeps};
ghost use Rattle.sc_prep.specs.Alternatives.{EachToken, OwnsEach, tokens_in};

use crate::alternatives::Alternative;
use sc_base::{Cond, Kind, Names, OutOfMemory, Token};
use sc_presence::Conditions;

/// The greatest number of a line (C11 6.10.4p3).
const GREATEST_LINE: u64 = 2_147_483_647;

/// The configurations whose tokens are not the number of a line.
#[tactic(auto, using(sc_model::proofs::SetLemmas::conditions))]
pub fn not_numbered<C: Conditions>(
    conds: &mut C,
    names: &Names,
    alternatives: &[Alternative],
) -> Result<Cond, OutOfMemory>
    requires own { OwnsEach (C.sets conds.old) alternatives.now }
    requires held { EachToken (IsHeld names.now) alternatives.now }
    ensures meaning { IfOk result (λ others. (files : List (List ℕ)) → Denotes (C.sets conds.new) others.0
        (λ c. list_any (λ ts. not (is_numbering (map (seen names.now files) ts))) (tokens_in (C.sets conds.old) alternatives.now c))) }

    // at every outcome
    ensures keeps { Keeps (C.sets conds.old) (C.sets conds.new) }
{
    let mut others = conds.never();
    for alternative in alternatives {
        if is_numbering(names, &alternative.tokens) {
            continue;
        }
        others = conds.apply_or(others, alternative.cond)?;
    }
    Ok(others)
}

/// Whether the tokens are the number of a line, with the name of a file or nothing behind it
/// (C11 6.10.4p3, p4).
fn is_numbering(names: &Names, tokens: &[Token]) -> bool
    requires { All (IsHeld names.now) tokens.now }
    ensures { (files : List (List ℕ)) → result ≡ is_numbering (map (seen names.now files) tokens.now) }
{
    match tokens {
        [number] => is_number_of_line(number.kind, names.text(number.spelling)),
        [number, text] => {
            is_number_of_line(number.kind, names.text(number.spelling))
                && is_file_text(text.kind, names.text(text.spelling))
        }
        _ => false,
    }
}

/// Whether a token of this kind and spelling is the number of a line.
fn is_number_of_line(kind: Kind, spelling: &[u8]) -> bool
    ensures { result ≡ is_number_of_line kind spelling.now }
{
    match kind {
        Kind::Number => is_line_number(spelling),
        _ => false,
    }
}

/// Whether the bytes are digits alone, of a number that a line can have.
fn is_line_number(bytes: &[u8]) -> bool
    ensures { result ≡ is_line_number bytes.now }
{
    let mut number: u64 = 0;
    for byte in bytes {
        if !byte.is_ascii_digit() {
            return false;
        }
        number = number * 10 + u64::from(*byte - b'0');
        if number > GREATEST_LINE {
            return false;
        }
    }
    1 <= number
}

/// Whether a token of this kind and spelling is a string literal without prefix.
fn is_file_text(kind: Kind, spelling: &[u8]) -> bool
    ensures { result ≡ is_file_text kind spelling.now }
{
    match kind {
        Kind::Text => spelling.starts_with(b"\""),
        _ => false,
    }
}
