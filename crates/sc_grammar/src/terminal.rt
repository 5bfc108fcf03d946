//! The terminals of C11, in the order of their numbers: names and constants, the keywords (6.4.1),
//! the punctuators (6.4.6) without `#` and `##`, and the end of the text. An identifier is NAME,
//! followed by TYPE where it is a typedef name and by VARIABLE where it isn't.
ghost use Rattle.std.specs.Prelude.{◌≡◌, ◌<◌, map, slice_get, Some};
ghost use Rattle.std.specs.List.{range_with_len};
ghost use Rattle.sc_grammar.specs.Terminals.{terminal_names};

use crate::TERMINALS;
use lr_tables::Terminal;

pub const NAME: Terminal = Terminal(0);

pub const TYPE: Terminal = Terminal(1);

pub const VARIABLE: Terminal = Terminal(2);

pub const CONSTANT: Terminal = Terminal(3);

pub const STRING: Terminal = Terminal(4);

pub const AUTO: Terminal = Terminal(5);

pub const BREAK: Terminal = Terminal(6);

pub const CASE: Terminal = Terminal(7);

pub const CHAR: Terminal = Terminal(8);

pub const CONST: Terminal = Terminal(9);

pub const CONTINUE: Terminal = Terminal(10);

pub const DEFAULT: Terminal = Terminal(11);

pub const DO: Terminal = Terminal(12);

pub const DOUBLE: Terminal = Terminal(13);

pub const ELSE: Terminal = Terminal(14);

pub const ENUM: Terminal = Terminal(15);

pub const EXTERN: Terminal = Terminal(16);

pub const FLOAT: Terminal = Terminal(17);

pub const FOR: Terminal = Terminal(18);

pub const GOTO: Terminal = Terminal(19);

pub const IF: Terminal = Terminal(20);

pub const INLINE: Terminal = Terminal(21);

pub const INT: Terminal = Terminal(22);

pub const LONG: Terminal = Terminal(23);

pub const REGISTER: Terminal = Terminal(24);

pub const RESTRICT: Terminal = Terminal(25);

pub const RETURN: Terminal = Terminal(26);

pub const SHORT: Terminal = Terminal(27);

pub const SIGNED: Terminal = Terminal(28);

pub const SIZEOF: Terminal = Terminal(29);

pub const STATIC: Terminal = Terminal(30);

pub const STRUCT: Terminal = Terminal(31);

pub const SWITCH: Terminal = Terminal(32);

pub const TYPEDEF: Terminal = Terminal(33);

pub const UNION: Terminal = Terminal(34);

pub const UNSIGNED: Terminal = Terminal(35);

pub const VOID: Terminal = Terminal(36);

pub const VOLATILE: Terminal = Terminal(37);

pub const WHILE: Terminal = Terminal(38);

pub const ALIGNAS: Terminal = Terminal(39);

pub const ALIGNOF: Terminal = Terminal(40);

pub const ATOMIC: Terminal = Terminal(41);

pub const BOOL: Terminal = Terminal(42);

pub const COMPLEX: Terminal = Terminal(43);

pub const GENERIC: Terminal = Terminal(44);

pub const IMAGINARY: Terminal = Terminal(45);

pub const NORETURN: Terminal = Terminal(46);

pub const STATIC_ASSERT: Terminal = Terminal(47);

pub const THREAD_LOCAL: Terminal = Terminal(48);

pub const LEFT_BRACKET: Terminal = Terminal(49);

pub const RIGHT_BRACKET: Terminal = Terminal(50);

pub const LEFT_PARENTHESIS: Terminal = Terminal(51);

pub const RIGHT_PARENTHESIS: Terminal = Terminal(52);

pub const LEFT_BRACE: Terminal = Terminal(53);

pub const RIGHT_BRACE: Terminal = Terminal(54);

pub const DOT: Terminal = Terminal(55);

pub const ARROW: Terminal = Terminal(56);

pub const INCREMENT: Terminal = Terminal(57);

pub const DECREMENT: Terminal = Terminal(58);

pub const AMPERSAND: Terminal = Terminal(59);

pub const STAR: Terminal = Terminal(60);

pub const PLUS: Terminal = Terminal(61);

pub const MINUS: Terminal = Terminal(62);

pub const TILDE: Terminal = Terminal(63);

pub const EXCLAMATION: Terminal = Terminal(64);

pub const SLASH: Terminal = Terminal(65);

pub const PERCENT: Terminal = Terminal(66);

pub const SHIFT_LEFT: Terminal = Terminal(67);

pub const SHIFT_RIGHT: Terminal = Terminal(68);

pub const LESS: Terminal = Terminal(69);

pub const GREATER: Terminal = Terminal(70);

pub const LESS_EQUAL: Terminal = Terminal(71);

pub const GREATER_EQUAL: Terminal = Terminal(72);

pub const EQUAL_EQUAL: Terminal = Terminal(73);

pub const NOT_EQUAL: Terminal = Terminal(74);

pub const CARET: Terminal = Terminal(75);

pub const BAR: Terminal = Terminal(76);

pub const AND_AND: Terminal = Terminal(77);

pub const OR_OR: Terminal = Terminal(78);

pub const QUESTION: Terminal = Terminal(79);

pub const COLON: Terminal = Terminal(80);

pub const SEMICOLON: Terminal = Terminal(81);

pub const ELLIPSIS: Terminal = Terminal(82);

pub const ASSIGN: Terminal = Terminal(83);

pub const STAR_ASSIGN: Terminal = Terminal(84);

pub const SLASH_ASSIGN: Terminal = Terminal(85);

pub const PERCENT_ASSIGN: Terminal = Terminal(86);

pub const PLUS_ASSIGN: Terminal = Terminal(87);

pub const MINUS_ASSIGN: Terminal = Terminal(88);

pub const SHIFT_LEFT_ASSIGN: Terminal = Terminal(89);

pub const SHIFT_RIGHT_ASSIGN: Terminal = Terminal(90);

pub const AMPERSAND_ASSIGN: Terminal = Terminal(91);

pub const CARET_ASSIGN: Terminal = Terminal(92);

pub const BAR_ASSIGN: Terminal = Terminal(93);

pub const COMMA: Terminal = Terminal(94);

pub const END: Terminal = Terminal(95);

static NAMES: [(Terminal, &str); TERMINALS] = [
    (NAME, "NAME"),
    (TYPE, "TYPE"),
    (VARIABLE, "VARIABLE"),
    (CONSTANT, "CONSTANT"),
    (STRING, "STRING"),
    (AUTO, "auto"),
    (BREAK, "break"),
    (CASE, "case"),
    (CHAR, "char"),
    (CONST, "const"),
    (CONTINUE, "continue"),
    (DEFAULT, "default"),
    (DO, "do"),
    (DOUBLE, "double"),
    (ELSE, "else"),
    (ENUM, "enum"),
    (EXTERN, "extern"),
    (FLOAT, "float"),
    (FOR, "for"),
    (GOTO, "goto"),
    (IF, "if"),
    (INLINE, "inline"),
    (INT, "int"),
    (LONG, "long"),
    (REGISTER, "register"),
    (RESTRICT, "restrict"),
    (RETURN, "return"),
    (SHORT, "short"),
    (SIGNED, "signed"),
    (SIZEOF, "sizeof"),
    (STATIC, "static"),
    (STRUCT, "struct"),
    (SWITCH, "switch"),
    (TYPEDEF, "typedef"),
    (UNION, "union"),
    (UNSIGNED, "unsigned"),
    (VOID, "void"),
    (VOLATILE, "volatile"),
    (WHILE, "while"),
    (ALIGNAS, "_Alignas"),
    (ALIGNOF, "_Alignof"),
    (ATOMIC, "_Atomic"),
    (BOOL, "_Bool"),
    (COMPLEX, "_Complex"),
    (GENERIC, "_Generic"),
    (IMAGINARY, "_Imaginary"),
    (NORETURN, "_Noreturn"),
    (STATIC_ASSERT, "_Static_assert"),
    (THREAD_LOCAL, "_Thread_local"),
    (LEFT_BRACKET, "["),
    (RIGHT_BRACKET, "]"),
    (LEFT_PARENTHESIS, "("),
    (RIGHT_PARENTHESIS, ")"),
    (LEFT_BRACE, "{"),
    (RIGHT_BRACE, "}"),
    (DOT, "."),
    (ARROW, "->"),
    (INCREMENT, "++"),
    (DECREMENT, "--"),
    (AMPERSAND, "&"),
    (STAR, "*"),
    (PLUS, "+"),
    (MINUS, "-"),
    (TILDE, "~"),
    (EXCLAMATION, "!"),
    (SLASH, "/"),
    (PERCENT, "%"),
    (SHIFT_LEFT, "<<"),
    (SHIFT_RIGHT, ">>"),
    (LESS, "<"),
    (GREATER, ">"),
    (LESS_EQUAL, "<="),
    (GREATER_EQUAL, ">="),
    (EQUAL_EQUAL, "=="),
    (NOT_EQUAL, "!="),
    (CARET, "^"),
    (BAR, "|"),
    (AND_AND, "&&"),
    (OR_OR, "||"),
    (QUESTION, "?"),
    (COLON, ":"),
    (SEMICOLON, ";"),
    (ELLIPSIS, "..."),
    (ASSIGN, "="),
    (STAR_ASSIGN, "*="),
    (SLASH_ASSIGN, "/="),
    (PERCENT_ASSIGN, "%="),
    (PLUS_ASSIGN, "+="),
    (MINUS_ASSIGN, "-="),
    (SHIFT_LEFT_ASSIGN, "<<="),
    (SHIFT_RIGHT_ASSIGN, ">>="),
    (AMPERSAND_ASSIGN, "&="),
    (CARET_ASSIGN, "^="),
    (BAR_ASSIGN, "|="),
    (COMMA, ","),
    (END, "END"),
];

/// The terminals, each with how it is written, in the order of their numbers.
fn names() -> &'static [(Terminal, &'static str)]
    ensures names { map (λ entry. entry.1.now) result.now ≡ terminal_names }
    ensures in_order { map (λ entry. entry.0.0) result.now ≡ range_with_len 0 TERMINALS }
{
    &NAMES
}

/// How a terminal is written. A terminal that has no spelling of its own goes by its name.
pub fn terminal_name(terminal: Terminal) -> &'static str
    requires { terminal.0 < TERMINALS }
    ensures { slice_get terminal_names terminal.0 ≡ Some result.now }
{
    names()[terminal.0].1
}
