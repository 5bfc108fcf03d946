//! For each kind of piece the length of the longest prefix of a text that is one, and 0 where none
//! is.
ghost use Rattle.std.specs.Prelude.{◌≡◌, ◌<◌, ◌&&◌, ℕ, false, [], ◌∷◌, length, take, drop, IfSome, OnSome, IfNone};
ghost use Rattle.std.specs.List.{list_all};
ghost use Rattle.sc_model.specs.Bytes.{begins_with, is_letter, is_digit, is_hex_digit};
ghost use Rattle.c11_tokens.specs.Lex.{is_blank, is_white_space, fits, token};
ghost use Rattle.c11_tokens.specs.Lex.{is_comment, IsUnended, comment_closes};
ghost use Rattle.sc_model.specs.Bytes.{has_no_newline};
ghost use Rattle.c11_tokens.specs.Lex.{is_identifier, goes_on, is_number, is_exponent, number_goes_on};
ghost use Rattle.c11_tokens.specs.Lex.{is_character, is_text, is_quoted, closes};
ghost use Rattle.c11_tokens.specs.Lex.{is_header, is_delimited, header_closes, is_punctuator};
ghost use Rattle.sc_model.specs.declared.kind.Kind.TheVariants as kind;
ghost use Rattle.sc_lex.specs.Scan.{IsLongestFront, hex_front, universal_length, letter_length, number_letter_length, begins_name, begins_number, quoted_length, opens, has_punctuator};
ghost use Rattle.sc_lex.specs.Unclosed.{IsUnclosed};

/// The white space of the line that comes first.
pub fn blanks(text: &[u8]) -> usize
    ensures { IsLongestFront is_white_space text.now result }
{
    for (i, b) in text.iter().enumerate() {
        if !is_blank(*b) {
            return i;
        }
    }
    text.len()
}

pub fn newline(text: &[u8]) -> usize
    ensures { IsLongestFront (fits (token kind.Newline)) text.now result }
{
    if !text.is_empty() && text[0] == b'\n' {
        1
    } else {
        0
    }
}

/// None comes where a comment begins that has no end.
pub fn comment(text: &[u8]) -> Option<usize>
    ensures some { IfSome result (IsLongestFront is_comment text.now) }
    ensures ended { OnSome result (IsUnended text.now → ⊥) }
    ensures none { IfNone result (IsUnended text.now) }
{
    if text.starts_with(b"//") {
        return Some(2 + line_length(&text[2..]));
    }
    if text.starts_with(b"/*") {
        return match comment_end(&text[2..]) {
            Some(end) => Some(2 + end),
            None => None,
        };
    }
    Some(0)
}

/// How many bytes stand before the first newline.
fn line_length(text: &[u8]) -> usize
    ensures { IsLongestFront has_no_newline text.now result }
{
    for (i, b) in text.iter().enumerate() {
        if *b == b'\n' {
            return i;
        }
    }
    text.len()
}

/// Where the first end of a comment ends.
fn comment_end(text: &[u8]) -> Option<usize>
    ensures some { IfSome result (λ n. 0 < n) }
    ensures front { IfSome result (IsLongestFront comment_closes text.now) }
    ensures none { IfNone result ((m : ℕ) → comment_closes (take m text.now) ≡ false) }
{
    let mut star = false;
    for (i, b) in text.iter().enumerate() {
        if star && *b == b'/' {
            return Some(i + 1);
        }
        star = *b == b'*';
    }
    None
}

pub fn identifier(text: &[u8]) -> usize
    ensures { IsLongestFront is_identifier text.now result }
{
    if begins_name(text) { letters(text) } else { 0 }
}

fn begins_name(text: &[u8]) -> bool
    ensures { result ≡ begins_name text.now }
{
    !text.is_empty() && (is_letter(text[0]) || text[0] == b'\\')
}

/// The length of the longest prefix of letters, digits and universal character names.
fn letters(text: &[u8]) -> usize
    ensures { IsLongestFront (goes_on 0) text.now result }
{
    let mut length = 0;
    while length < text.len() {
        let part = letter(&text[length..]);
        if part == 0 {
            return length;
        }
        length += part;
    }
    length
}

/// The length of the letter, digit or universal character name at the front.
#[inline(always)]
fn letter(text: &[u8]) -> usize
    requires { 0 < length text.now }
    ensures { result ≡ letter_length text.now }
{
    if is_letter(text[0]) || is_digit(text[0]) {
        1
    } else {
        universal_name(text)
    }
}

/// The length of the universal character name at the front (C11 6.4.3).
fn universal_name(text: &[u8]) -> usize
    ensures { result ≡ universal_length text.now }
{
    if text.len() < 2 || text[0] != b'\\' {
        return 0;
    }
    match text[1] {
        b'u' if has_hex_digits(&text[2..], 4) => 6,
        b'U' if has_hex_digits(&text[2..], 8) => 10,
        _ => 0,
    }
}

fn has_hex_digits(text: &[u8], count: usize) -> bool
    ensures { result ≡ hex_front count text.now }
{
    count <= text.len() && are_hex_digits(&text[..count])
}

fn are_hex_digits(text: &[u8]) -> bool
    ensures { result ≡ list_all is_hex_digit text.now }
{
    text.iter().all(|b| is_hex_digit(*b))
}

pub fn number(text: &[u8]) -> usize
    ensures { IsLongestFront is_number text.now result }
{
    if begins_number(text) {
        1 + number_letters(&text[1..])
    } else {
        0
    }
}

/// A digit comes first, or a point and a digit.
fn begins_number(text: &[u8]) -> bool
    ensures { result ≡ begins_number text.now }
{
    if text.is_empty() {
        return false;
    }
    is_digit(text[0]) || (text[0] == b'.' && text.len() > 1 && is_digit(text[1]))
}

/// The length of the longest prefix of what a number goes on with.
fn number_letters(text: &[u8]) -> usize
    ensures { IsLongestFront (number_goes_on false 0) text.now result }
{
    let mut length = 0;
    let mut exponent = false;
    while length < text.len() {
        let part = number_letter(&text[length..], exponent);
        if part == 0 {
            return length;
        }
        exponent = is_exponent(text[length]);
        length += part;
    }
    length
}

/// The length of the letter, digit, point, universal character name or, after an exponent letter,
/// sign at the front.
fn number_letter(text: &[u8], exponent: bool) -> usize
    requires { 0 < length text.now }
    ensures { result ≡ number_letter_length exponent text.now }
{
    match text[0] {
        b'+' | b'-' if exponent => 1,
        b'.' => 1,
        _ => letter(text),
    }
}

pub fn character(text: &[u8], unclosed: usize) -> usize
    requires { IsUnclosed 39 text.now unclosed }
    ensures { IsLongestFront is_character text.now result }
{
    prefixed(text, b"", b'\'', true, unclosed)
        .max(prefixed(text, b"L", b'\'', true, unclosed))
        .max(prefixed(text, b"u", b'\'', true, unclosed))
        .max(prefixed(text, b"U", b'\'', true, unclosed))
}

pub fn string(text: &[u8], unclosed: usize) -> usize
    requires { IsUnclosed 34 text.now unclosed }
    ensures { IsLongestFront is_text text.now result }
{
    prefixed(text, b"", b'"', false, unclosed)
        .max(prefixed(text, b"u8", b'"', false, unclosed))
        .max(prefixed(text, b"u", b'"', false, unclosed))
        .max(prefixed(text, b"U", b'"', false, unclosed))
        .max(prefixed(text, b"L", b'"', false, unclosed))
}

/// What is quoted behind this prefix.
fn prefixed(text: &[u8], prefix: &[u8], quote: u8, filled: bool, unclosed: usize) -> usize
    requires { IsUnclosed quote text.now unclosed }
    ensures { IsLongestFront (λ bs. begins_with prefix.now bs
        && is_quoted quote filled (drop (length prefix.now) bs)) text.now result }
{
    if !text.starts_with(prefix) {
        return 0;
    }
    if prefix.len() < unclosed {
        return 0;
    }
    let length = quoted(&text[prefix.len()..], quote, filled);
    if length == 0 {
        0
    } else {
        prefix.len() + length
    }
}

/// What stands between two quotes, with something between them where that is asked for.
fn quoted(text: &[u8], quote: u8, filled: bool) -> usize
    ensures { IsLongestFront (is_quoted quote filled) text.now result }
{
    if !opens(text, quote, quote, filled) {
        return 0;
    }
    match closing(&text[1..], quote) {
        0 => 0,
        length => 1 + length,
    }
}

/// The opening byte comes first, and then something other than the closing one where that is asked
/// for.
fn opens(text: &[u8], start: u8, end: u8, filled: bool) -> bool
    ensures { result ≡ opens start end filled text.now }
{
    text.len() >= 2 && text[0] == start && !(filled && text[1] == end)
}

/// The length of the prefix that ends in the closing quote. The line may end before.
fn closing(text: &[u8], quote: u8) -> usize
    ensures { IsLongestFront (closes quote) text.now result }
{
    let mut length = 0;
    while length < text.len() {
        if text[length] == quote {
            return length + 1;
        }
        let part = quoted_part(&text[length..]);
        if part == 0 {
            return 0;
        }
        length += part;
    }
    0
}

/// One byte, and after a backslash the next one too, but no newline.
pub fn quoted_part(text: &[u8]) -> usize
    requires { 0 < length text.now }
    ensures { result ≡ quoted_length text.now }
{
    match text[0] {
        b'\n' => 0,
        b'\\' if text.len() < 2 || text[1] == b'\n' => 0,
        b'\\' => 2,
        _ => 1,
    }
}

pub fn header(text: &[u8]) -> usize
    ensures { IsLongestFront is_header text.now result }
{
    delimited(text, b'<', b'>').max(delimited(text, b'"', b'"'))
}

fn delimited(text: &[u8], start: u8, end: u8) -> usize
    ensures { IsLongestFront (is_delimited start end) text.now result }
{
    if !opens(text, start, end, true) {
        return 0;
    }
    match header_closing(&text[1..], end) {
        0 => 0,
        length => 1 + length,
    }
}

/// The length of the prefix that ends in the closing byte. The line may end before.
fn header_closing(text: &[u8], end: u8) -> usize
    ensures { IsLongestFront (header_closes end) text.now result }
{
    for (i, b) in text.iter().enumerate() {
        if *b == end {
            return i + 1;
        }
        if *b == b'\n' {
            return 0;
        }
    }
    0
}

pub fn punctuator(text: &[u8]) -> usize
    ensures { IsLongestFront is_punctuator text.now result }
{
    if has_four(text) {
        4
    } else if has_three(text) {
        3
    } else if has_two(text) {
        2
    } else if has_one(text) {
        1
    } else {
        0
    }
}

fn has_four(text: &[u8]) -> bool
    ensures { result ≡ has_punctuator 4 text.now }
{
    text.len() >= 4 && is_four(text[0], text[1], text[2], text[3])
}

fn has_three(text: &[u8]) -> bool
    ensures { result ≡ has_punctuator 3 text.now }
{
    text.len() >= 3 && is_three(text[0], text[1], text[2])
}

fn has_two(text: &[u8]) -> bool
    ensures { result ≡ has_punctuator 2 text.now }
{
    text.len() >= 2 && is_two(text[0], text[1])
}

fn has_one(text: &[u8]) -> bool
    ensures { result ≡ has_punctuator 1 text.now }
{
    !text.is_empty() && is_one(text[0])
}

fn is_four(a: u8, b: u8, c: u8, d: u8) -> bool
    ensures { result ≡ is_punctuator (a ∷ b ∷ c ∷ d ∷ []) }
{
    a == b'%' && b == b':' && c == b'%' && d == b':'
}

fn is_three(a: u8, b: u8, c: u8) -> bool
    ensures { result ≡ is_punctuator (a ∷ b ∷ c ∷ []) }
{
    match c {
        b'.' => a == b'.' && b == b'.',
        b'=' => (a == b'<' && b == b'<') || (a == b'>' && b == b'>'),
        _ => false,
    }
}

fn is_one(a: u8) -> bool
    ensures { result ≡ is_punctuator (a ∷ []) }
{
    matches!(
        a,
        b'[' | b']'
            | b'('
            | b')'
            | b'{'
            | b'}'
            | b'.'
            | b'&'
            | b'*'
            | b'+'
            | b'-'
            | b'~'
            | b'!'
            | b'/'
            | b'%'
            | b'<'
            | b'>'
            | b'^'
            | b'|'
            | b'?'
            | b':'
            | b';'
            | b'='
            | b','
            | b'#'
    )
}

fn is_two(a: u8, b: u8) -> bool
    ensures { result ≡ is_punctuator (a ∷ b ∷ []) }
{
    match b {
        b'=' => matches!(
            a,
            b'<' | b'>' | b'=' | b'!' | b'*' | b'/' | b'%' | b'+' | b'-' | b'&' | b'^' | b'|'
        ),
        b'>' => matches!(a, b'-' | b'>' | b':' | b'%'),
        b'<' | b'+' | b'-' | b'&' | b'|' | b'#' => a == b,
        b':' => a == b'<' || a == b'%',
        b'%' => a == b'<',
        _ => false,
    }
}

pub fn is_blank(b: u8) -> bool
    ensures { result ≡ is_blank b }
{
    matches!(b, b'\t' | 0x0b | 0x0c | b'\r' | b' ')
}

pub fn is_letter(b: u8) -> bool
    ensures { result ≡ is_letter b }
{
    b.is_ascii_alphabetic() || b == b'_' || b >= 0x80
}

pub fn is_digit(b: u8) -> bool
    ensures { result ≡ is_digit b }
{
    b.is_ascii_digit()
}

fn is_hex_digit(b: u8) -> bool
    ensures { result ≡ is_hex_digit b }
{
    b.is_ascii_hexdigit()
}

fn is_exponent(b: u8) -> bool
    ensures { result ≡ is_exponent b }
{
    matches!(b, b'e' | b'E' | b'p' | b'P')
}
