/// What a token is (C11 6.4). `Newline` ends a logical line, and `Other` is a single byte that
/// begins nothing else.
#[derive(Clone, Copy, Debug, PartialEq, Eq)]
pub enum Kind {
    Identifier,
    Number,
    Character,
    Text,
    Header,
    Punctuator,
    Other,
    Newline,
}
