ghost use Rattle.std.specs.Prelude.{◌≡◌, ℕ, List, codes, IfSome, IfNone};
ghost use Rattle.sc_model.specs.Bytes.{same_bytes};
ghost use Rattle.c11_tokens.specs.Lex.{expects_header, line_after};
ghost use Rattle.sc_model.specs.Token.{name_of};

use sc_model::Kind;

/// How much stands on a line of what a header name may follow: `#` and `include` at its start (C11
/// 6.4p4).
#[derive(Clone, Copy, Debug, PartialEq, Eq)]
pub enum LineSoFar {
    Start,
    Hash,
    Include,
    Other,
}

impl LineSoFar {
    ghost use Rattle.sc_lex.specs.Line.{so_far_of};

    /// A header name may come next.
    pub fn expects_header(self) -> bool
        ensures { (line : List (List ℕ)) → so_far_of line ≡ self → expects_header line ≡ result }
    {
        matches!(self, LineSoFar::Include)
    }

    /// The line with one more token.
    pub fn after(self, kind: Kind, spelling: &[u8]) -> LineSoFar
        ensures { (line : List (List ℕ)) → so_far_of line ≡ self
            → so_far_of (line_after line kind spelling.now) ≡ result }
    {
        if matches!(kind, Kind::Newline) {
            return LineSoFar::Start;
        }
        match self {
            LineSoFar::Start if is(name_of(spelling), b"#") => LineSoFar::Hash,
            LineSoFar::Hash if is(spelling, b"include") => LineSoFar::Include,
            _ => LineSoFar::Other,
        }
    }
}

/// What a spelling stands for: a digraph acts as another punctuator (C11 6.4.6p3).
pub fn name_of(spelling: &[u8]) -> &[u8]
    ensures { result.now ≡ name_of spelling.now }
{
    match digraph(spelling) {
        Some(name) => name,
        None => spelling,
    }
}

/// What a digraph stands for (C11 6.4.6p3).
pub fn digraph(spelling: &[u8]) -> Option<&'static [u8]>
    ensures some { IfSome result (λ name. name_of spelling.now ≡ name.now) }
    ensures none { IfNone result (name_of spelling.now ≡ spelling.now) }
{
    if is(spelling, b"<:") {
        Some(b"[")
    } else if is(spelling, b":>") {
        Some(b"]")
    } else if is(spelling, b"<%") {
        Some(b"{")
    } else if is(spelling, b"%>") {
        Some(b"}")
    } else if is(spelling, b"%:") {
        Some(b"#")
    } else if is(spelling, b"%:%:") {
        Some(b"##")
    } else {
        None
    }
}

fn is(spelling: &[u8], text: &[u8]) -> bool
    ensures { result ≡ same_bytes spelling.now text.now }
{
    spelling == text
}
