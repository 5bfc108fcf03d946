use lr_tables::Terminal;
use sc_grammar::terminal;
use sc_kinds::terminal as terminal_of;
use sc_model::{Kind, Standard};

/// Tokens with the terminal that each is first (C11 6.4).
const TERMINALS: [(Kind, &[u8], Option<Terminal>); 16] = [
    (Kind::Identifier, b"name", Some(terminal::NAME)),
    (Kind::Identifier, b"while", Some(terminal::WHILE)),
    (
        Kind::Identifier,
        b"_Thread_local",
        Some(terminal::THREAD_LOCAL),
    ),
    (Kind::Number, b"0x1Fu", Some(terminal::CONSTANT)),
    (Kind::Number, b"1.5e+3f", Some(terminal::CONSTANT)),
    (Kind::Number, b"0x.8p1", Some(terminal::CONSTANT)),
    (Kind::Number, b"089", None),
    (Kind::Number, b"1.2.3", None),
    (Kind::Character, b"'a'", Some(terminal::CONSTANT)),
    (Kind::Text, b"\"a\"", Some(terminal::STRING)),
    (Kind::Punctuator, b",", Some(terminal::COMMA)),
    (Kind::Punctuator, b"<:", Some(terminal::LEFT_BRACKET)),
    (Kind::Punctuator, b"##", None),
    (Kind::Header, b"<a.h>", None),
    (Kind::Other, b"@", None),
    (Kind::Newline, b"\n", None),
];

/// The keywords (C11 6.4.1).
const KEYWORDS: [(&[u8], Terminal); 44] = [
    (b"auto", terminal::AUTO),
    (b"break", terminal::BREAK),
    (b"case", terminal::CASE),
    (b"char", terminal::CHAR),
    (b"const", terminal::CONST),
    (b"continue", terminal::CONTINUE),
    (b"default", terminal::DEFAULT),
    (b"do", terminal::DO),
    (b"double", terminal::DOUBLE),
    (b"else", terminal::ELSE),
    (b"enum", terminal::ENUM),
    (b"extern", terminal::EXTERN),
    (b"float", terminal::FLOAT),
    (b"for", terminal::FOR),
    (b"goto", terminal::GOTO),
    (b"if", terminal::IF),
    (b"inline", terminal::INLINE),
    (b"int", terminal::INT),
    (b"long", terminal::LONG),
    (b"register", terminal::REGISTER),
    (b"restrict", terminal::RESTRICT),
    (b"return", terminal::RETURN),
    (b"short", terminal::SHORT),
    (b"signed", terminal::SIGNED),
    (b"sizeof", terminal::SIZEOF),
    (b"static", terminal::STATIC),
    (b"struct", terminal::STRUCT),
    (b"switch", terminal::SWITCH),
    (b"typedef", terminal::TYPEDEF),
    (b"union", terminal::UNION),
    (b"unsigned", terminal::UNSIGNED),
    (b"void", terminal::VOID),
    (b"volatile", terminal::VOLATILE),
    (b"while", terminal::WHILE),
    (b"_Alignas", terminal::ALIGNAS),
    (b"_Alignof", terminal::ALIGNOF),
    (b"_Atomic", terminal::ATOMIC),
    (b"_Bool", terminal::BOOL),
    (b"_Complex", terminal::COMPLEX),
    (b"_Generic", terminal::GENERIC),
    (b"_Imaginary", terminal::IMAGINARY),
    (b"_Noreturn", terminal::NORETURN),
    (b"_Static_assert", terminal::STATIC_ASSERT),
    (b"_Thread_local", terminal::THREAD_LOCAL),
];

/// The punctuators (C11 6.4.6) that have a terminal, the four other spellings last.
const PUNCTUATORS: [(&[u8], Terminal); 50] = [
    (b"[", terminal::LEFT_BRACKET),
    (b"]", terminal::RIGHT_BRACKET),
    (b"(", terminal::LEFT_PARENTHESIS),
    (b")", terminal::RIGHT_PARENTHESIS),
    (b"{", terminal::LEFT_BRACE),
    (b"}", terminal::RIGHT_BRACE),
    (b".", terminal::DOT),
    (b"->", terminal::ARROW),
    (b"++", terminal::INCREMENT),
    (b"--", terminal::DECREMENT),
    (b"&", terminal::AMPERSAND),
    (b"*", terminal::STAR),
    (b"+", terminal::PLUS),
    (b"-", terminal::MINUS),
    (b"~", terminal::TILDE),
    (b"!", terminal::EXCLAMATION),
    (b"/", terminal::SLASH),
    (b"%", terminal::PERCENT),
    (b"<<", terminal::SHIFT_LEFT),
    (b">>", terminal::SHIFT_RIGHT),
    (b"<", terminal::LESS),
    (b">", terminal::GREATER),
    (b"<=", terminal::LESS_EQUAL),
    (b">=", terminal::GREATER_EQUAL),
    (b"==", terminal::EQUAL_EQUAL),
    (b"!=", terminal::NOT_EQUAL),
    (b"^", terminal::CARET),
    (b"|", terminal::BAR),
    (b"&&", terminal::AND_AND),
    (b"||", terminal::OR_OR),
    (b"?", terminal::QUESTION),
    (b":", terminal::COLON),
    (b";", terminal::SEMICOLON),
    (b"...", terminal::ELLIPSIS),
    (b"=", terminal::ASSIGN),
    (b"*=", terminal::STAR_ASSIGN),
    (b"/=", terminal::SLASH_ASSIGN),
    (b"%=", terminal::PERCENT_ASSIGN),
    (b"+=", terminal::PLUS_ASSIGN),
    (b"-=", terminal::MINUS_ASSIGN),
    (b"<<=", terminal::SHIFT_LEFT_ASSIGN),
    (b">>=", terminal::SHIFT_RIGHT_ASSIGN),
    (b"&=", terminal::AMPERSAND_ASSIGN),
    (b"^=", terminal::CARET_ASSIGN),
    (b"|=", terminal::BAR_ASSIGN),
    (b",", terminal::COMMA),
    (b"<:", terminal::LEFT_BRACKET),
    (b":>", terminal::RIGHT_BRACKET),
    (b"<%", terminal::LEFT_BRACE),
    (b"%>", terminal::RIGHT_BRACE),
];

/// The punctuators of directives alone, which have none.
const OF_DIRECTIVES: [&[u8]; 4] = [b"#", b"##", b"%:", b"%:%:"];

#[test]
fn terminals_of_tokens(rt: HostRuntime) {
    for (kind, spelling, expected) in TERMINALS {
        assert_eq!(rt;
            terminal_of(kind, spelling, Standard::C11),
            expected,
            "{spelling:?}"
        );
    }
}

#[test]
fn terminals_of_keywords(rt: HostRuntime) {
    for (spelling, expected) in KEYWORDS {
        assert_eq!(rt;
            terminal_of(Kind::Identifier, spelling, Standard::C11),
            Some(expected),
            "{spelling:?}"
        );
    }
}

#[test]
fn terminals_of_punctuators(rt: HostRuntime) {
    for (spelling, expected) in PUNCTUATORS {
        assert_eq!(rt;
            terminal_of(Kind::Punctuator, spelling, Standard::C11),
            Some(expected),
            "{spelling:?}"
        );
    }
    for spelling in OF_DIRECTIVES {
        assert_eq!(rt;
            terminal_of(Kind::Punctuator, spelling, Standard::C11),
            None,
            "{spelling:?}"
        );
    }
}
