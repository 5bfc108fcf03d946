ghost use Rattle.std.specs.Prelude.{drop};
ghost use Rattle.sc_lex.specs.Unclosed.{IsUnclosed, AreUnclosed};

use crate::scan::quoted_part;

/// For each kind of quote, the length of a prefix of the text in which each such quote is known not
/// to be closed on its line.
///
/// For these no end is looked for again: that would take time in the square of the length of the
/// line.
#[derive(Clone, Copy, Debug, PartialEq, Eq)]
pub struct UnclosedQuotes {
    pub single: usize,
    pub double: usize,
}

impl UnclosedQuotes {
    /// What is known of any text.
    pub const NONE: UnclosedQuotes = UnclosedQuotes {
        single: 0,
        double: 0,
    };

    /// What is known of the text after a piece of `count` bytes.
    pub fn after(self, text: &[u8], count: usize) -> UnclosedQuotes
        requires { AreUnclosed text.now self }
        ensures { AreUnclosed (drop count text.now) result }
    {
        UnclosedQuotes {
            single: unclosed_after(text, b'\'', self.single, count),
            double: unclosed_after(text, b'"', self.double, count),
        }
    }
}

/// A quote that is a piece of its own tells of those after it.
fn unclosed_after(text: &[u8], quote: u8, known: usize, count: usize) -> usize
    requires { IsUnclosed quote text.now known }
    ensures { IsUnclosed quote (drop count text.now) result }
{
    if known == 0 && count == 1 && text.starts_with(&[quote]) {
        return unclosed_front(&text[1..], quote);
    }
    known.saturating_sub(count)
}

/// How many bytes are left of the line if it doesn't close the quote before the text, and 0 if it
/// does.
fn unclosed_front(text: &[u8], quote: u8) -> usize
    ensures { IsUnclosed quote text.now result }
{
    let mut length = 0;
    while length < text.len() {
        if text[length] == quote {
            return 0;
        }
        let part = quoted_part(&text[length..]);
        if part == 0 {
            return length;
        }
        length += part;
    }
    length
}
