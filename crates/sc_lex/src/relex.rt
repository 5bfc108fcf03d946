ghost use Rattle.std.specs.Prelude.{◌≡◌, ◌||◌, ◌<◌, length};
ghost use Rattle.c11_tokens.specs.Lex.{is_white_space, is_comment, is_identifier, is_number, is_character, is_text, is_punctuator};
ghost use Rattle.c11_tokens.specs.Relex.{relexed};

use crate::{Kind, scan};

/// The token that the bytes are exactly, without translation phases 1 and 2. A header name is none.
pub fn relex_one(bytes: &[u8]) -> Option<Kind>
    ensures { result ≡ relexed bytes.now }
{
    if bytes.is_empty() || is_white(bytes) {
        None
    } else if bytes.len() == 1 && bytes[0] == b'\n' {
        Some(Kind::Newline)
    } else if is_identifier(bytes) {
        Some(Kind::Identifier)
    } else if is_number(bytes) {
        Some(Kind::Number)
    } else if is_character(bytes) {
        Some(Kind::Character)
    } else if is_text(bytes) {
        Some(Kind::Text)
    } else if is_punctuator(bytes) {
        Some(Kind::Punctuator)
    } else if bytes.len() == 1 {
        Some(Kind::Other)
    } else {
        None
    }
}

fn is_white(bytes: &[u8]) -> bool
    requires { 0 < length bytes.now }
    ensures { result ≡ (is_white_space bytes.now || is_comment bytes.now) }
{
    if scan::blanks(bytes) == bytes.len() {
        return true;
    }
    match scan::comment(bytes) {
        Some(front) => front == bytes.len(),
        None => false,
    }
}

fn is_identifier(bytes: &[u8]) -> bool
    requires { 0 < length bytes.now }
    ensures { result ≡ is_identifier bytes.now }
{
    scan::identifier(bytes) == bytes.len()
}

fn is_number(bytes: &[u8]) -> bool
    requires { 0 < length bytes.now }
    ensures { result ≡ is_number bytes.now }
{
    scan::number(bytes) == bytes.len()
}

fn is_character(bytes: &[u8]) -> bool
    requires { 0 < length bytes.now }
    ensures { result ≡ is_character bytes.now }
{
    scan::character(bytes, 0) == bytes.len()
}

fn is_text(bytes: &[u8]) -> bool
    requires { 0 < length bytes.now }
    ensures { result ≡ is_text bytes.now }
{
    scan::string(bytes, 0) == bytes.len()
}

fn is_punctuator(bytes: &[u8]) -> bool
    requires { 0 < length bytes.now }
    ensures { result ≡ is_punctuator bytes.now }
{
    scan::punctuator(bytes) == bytes.len()
}
