use std::alloc::Global;
use std::test::Fail;
use text_core::Memory;
use tptp_lexer::{Kind, LexRefusal, Token, Tokens, is_integer, tokens};

/// The number and the offset of a refusal; 0 for want of memory.
fn numbered(refusal: &LexRefusal) -> (u32, u32) {
    match refusal {
        LexRefusal::BadByte(offset) => (1, *offset),
        LexRefusal::OpenQuote(offset) => (2, *offset),
        LexRefusal::OpenComment(offset) => (3, *offset),
        LexRefusal::EmptyQuote(offset) => (4, *offset),
        LexRefusal::Memory => (0, 0),
    }
}

// Whether the token with this number has this kind, this start and this end.
fn is_token(lexed: &Tokens<'_>, number: usize, want: &(Kind, u32, u32)) -> bool {
    number < lexed.len()
        && lexed.kind(number) == want.0
        && lexed.start(number) == want.1
        && lexed.end(number) == want.2
}

// Whether a text has these tokens.
fn has_tokens(alloc: Global, text: &[u8], want: &[(Kind, u32, u32)]) -> bool {
    if text.len() > 1000 {
        return false;
    }
    let Ok(lexed) = tokens(alloc, text) else {
        return false;
    };
    let mut all = lexed.len() == want.len();
    for (number, token) in want.iter().enumerate() {
        all = all && is_token(&lexed, number, token);
    }
    all
}

// Whether a text is refused with this number and this offset.
fn is_refused(alloc: Global, text: &[u8], want: (u32, u32)) -> bool {
    if text.len() > 1000 {
        return false;
    }
    match tokens(alloc, text) {
        Ok(_) => false,
        Err(refusal) => numbered(&refusal) == want,
    }
}

// A text of each kind, longest tokens, blanks and comments, each with its tokens.
const KINDS: &[(&[u8], &[(Kind, u32, u32)])] = &[
    (b"man a_B9", &[(Kind::Lower, 0, 3), (Kind::Lower, 4, 8)]),
    (b"X Ab_9", &[(Kind::Upper, 0, 1), (Kind::Upper, 2, 6)]),
    (
        b"'a' '\\\\\\'' '\"'",
        &[
            (Kind::Quoted, 0, 3),
            (Kind::Quoted, 4, 10),
            (Kind::Quoted, 11, 14),
        ],
    ),
    (
        b"\"\" \"a'\\\"\"",
        &[(Kind::Distinct, 0, 2), (Kind::Distinct, 3, 9)],
    ),
    (
        b"0 12 +3 -40",
        &[
            (Kind::Integer, 0, 1),
            (Kind::Integer, 2, 4),
            (Kind::Integer, 5, 7),
            (Kind::Integer, 8, 11),
        ],
    ),
    (
        b"007",
        &[
            (Kind::Integer, 0, 1),
            (Kind::Integer, 1, 2),
            (Kind::Integer, 2, 3),
        ],
    ),
    (
        b"$true $a_B",
        &[(Kind::Dollar, 0, 5), (Kind::Dollar, 6, 10)],
    ),
    (
        b"()[]",
        &[
            (Kind::OpenParenthesis, 0, 1),
            (Kind::CloseParenthesis, 1, 2),
            (Kind::OpenBracket, 2, 3),
            (Kind::CloseBracket, 3, 4),
        ],
    ),
    (
        b",.:!?",
        &[
            (Kind::Comma, 0, 1),
            (Kind::Dot, 1, 2),
            (Kind::Colon, 2, 3),
            (Kind::Exclamation, 3, 4),
            (Kind::Question, 4, 5),
        ],
    ),
    (b"~&|", &[(Kind::Nand, 0, 2), (Kind::Bar, 2, 3)]),
    (
        b"~ & | ~|",
        &[
            (Kind::Tilde, 0, 1),
            (Kind::Ampersand, 2, 3),
            (Kind::Bar, 4, 5),
            (Kind::Nor, 6, 8),
        ],
    ),
    (
        b"=> <= <=> <~>",
        &[
            (Kind::Implies, 0, 2),
            (Kind::Implied, 3, 5),
            (Kind::Iff, 6, 9),
            (Kind::Xor, 10, 13),
        ],
    ),
    (
        b"= != ==>",
        &[
            (Kind::Equal, 0, 1),
            (Kind::NotEqual, 2, 4),
            (Kind::Equal, 5, 6),
            (Kind::Implies, 6, 8),
        ],
    ),
    (b"a% b\nc", &[(Kind::Lower, 0, 1), (Kind::Lower, 5, 6)]),
    (b"a%\rb", &[(Kind::Lower, 0, 1)]),
    (
        b"a/**/b/*/*/\t\r\nc/***/",
        &[
            (Kind::Lower, 0, 1),
            (Kind::Lower, 5, 6),
            (Kind::Lower, 14, 15),
        ],
    ),
    (b"", &[]),
];

// Texts that have no tokens, each with the number and the offset of its refusal.
const REFUSALS: &[(&[u8], u32, u32)] = &[
    (b"a +", 1, 2),
    (b"-a", 1, 0),
    (b"a < b", 1, 2),
    (b"<~", 1, 0),
    (b"a/b", 1, 1),
    (b"$T", 1, 0),
    (b" $", 1, 1),
    (b"_a", 1, 0),
    (b"a\x7f", 1, 1),
    (b"'a\nb'", 1, 2),
    (b"'a\\nb'", 1, 2),
    (b"\"a\\'\"", 1, 2),
    (b"p('a", 2, 2),
    (b"'a\\", 2, 0),
    (b"\"", 2, 0),
    (b"a/*/", 3, 1),
    (b"/* *", 3, 0),
    (b"a''", 4, 1),
    (b"'''", 4, 0),
];

#[test]
fn each_kind(rt: HostRuntime) -> Result<(), Fail> {
    for (text, want) in KINDS {
        assert!(rt; has_tokens(rt.alloc(), text, want));
    }
    Ok(())
}

#[test]
fn each_refusal(rt: HostRuntime) -> Result<(), Fail> {
    for (text, number, offset) in REFUSALS {
        assert!(rt; is_refused(rt.alloc(), text, (*number, *offset)));
    }
    Ok(())
}

// Whether the token with this number has this name.
fn is_named(alloc: Global, lexed: &Tokens<'_>, number: usize, want: &[u8]) -> Result<bool, Memory> {
    if number >= lexed.len() {
        return Ok(false);
    }
    match lexed.kind(number) {
        Kind::Lower | Kind::Quoted | Kind::Upper | Kind::Integer => {
            Ok(lexed.name(alloc, number)?.bytes() == want)
        }
        _ => Ok(false),
    }
}

// The names of tokens, and the length of the source.
#[test]
fn names(rt: HostRuntime) -> Result<(), Fail> {
    let lexed = tokens(rt.alloc(), b"p 'it\\'s \\\\' X 12")?;
    assert!(rt; lexed.source_len() == 17);
    for (number, want) in [(0, b"p".as_slice()), (1, b"it's \\"), (2, b"X"), (3, b"12")] {
        assert!(rt; is_named(rt.alloc(), &lexed, number, want)?);
    }
    Ok(())
}

// Whether this is the token with this number.
fn is_numbered(token: &Token<'_>, lexed: &Tokens<'_>, number: usize) -> bool {
    number < lexed.len()
        && token.kind() == lexed.kind(number)
        && token.start() == lexed.start(number)
        && token.text() == lexed.text(number)
}

// Whether a token is a quoted word with this name.
fn is_quoted(alloc: Global, token: &Token<'_>, want: &[u8]) -> Result<bool, Memory> {
    match token.kind() {
        Kind::Quoted => Ok(token.name(alloc)?.bytes() == want),
        _ => Ok(false),
    }
}

// Whether a cursor goes from token to token, and stops behind the last.
fn goes_over(lexed: &Tokens<'_>) -> bool {
    let mut cursor = lexed.cursor();
    for number in 0..lexed.len() {
        match cursor.next() {
            Some((token, behind)) if is_numbered(&token, lexed, number) => cursor = behind,
            _ => return false,
        }
    }
    cursor.len() == 0 && cursor.next().is_none()
}

#[test]
fn from_token_to_token(rt: HostRuntime) -> Result<(), Fail> {
    let lexed = tokens(rt.alloc(), b"'X'(p, Y). 7")?;
    assert!(rt; goes_over(&lexed));
    let (token, _) = lexed.cursor().next().ok_or("a token is left")?;
    assert!(rt; is_quoted(rt.alloc(), &token, b"X")?);
    Ok(())
}

// The text of a refusal is its variant's name.
#[test]
fn refusals_shown(rt: HostRuntime) -> Result<(), Fail> {
    let shown = format!(in rt.alloc();
        "{} {} {} {} {}",
        LexRefusal::BadByte(1),
        LexRefusal::OpenQuote(2),
        LexRefusal::OpenComment(3),
        LexRefusal::EmptyQuote(4),
        LexRefusal::Memory
    )?;
    assert_eq!(rt;
        shown.as_str(),
        "BadByte OpenQuote OpenComment EmptyQuote Memory"
    );
    Ok(())
}

#[test]
fn integers_are_told(rt: HostRuntime) -> Result<(), Fail> {
    for text in [b"0".as_slice(), b"12", b"+7", b"-30"] {
        assert!(rt; is_integer(text));
    }
    for text in [b"".as_slice(), b"007", b"-", b"+01", b"1a", b"a"] {
        assert!(rt; !is_integer(text));
    }
    Ok(())
}
