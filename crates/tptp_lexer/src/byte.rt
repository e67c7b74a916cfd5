ghost use Rattle.std.specs.Prelude.{◌≡◌, ◌≤◌, length};
ghost use Rattle.std.specs.List.{prefix_len};
ghost use Rattle.tptp_lexer.specs.Kinds as kinds;
ghost use Rattle.tptp_lexer.specs.Tokens as blanks;
ghost use Rattle.tptp_lexer.specs.Scanning.{is_not_feed};

use text_core::{is_digit, is_word};

/// Whether a byte is a space, a tab, a line feed or a carriage return.
pub(crate) fn is_blank(byte: u8) -> bool
    ensures { result ≡ blanks.is_blank byte }
{
    byte == b' ' || byte == b'\t' || byte == b'\n' || byte == b'\r'
}

/// How many bytes at the front may go on with a word.
pub(crate) fn word_len(bytes: &[u8]) -> usize
    ensures value { result ≡ prefix_len kinds.is_word bytes.now }
    ensures within { result ≤ length bytes.now }
{
    bytes.iter().take_while(|byte| is_word(**byte)).count()
}

/// How many bytes at the front are digits.
pub(crate) fn digits_len(bytes: &[u8]) -> usize
    ensures value { result ≡ prefix_len kinds.is_digit bytes.now }
    ensures within { result ≤ length bytes.now }
{
    bytes.iter().take_while(|byte| is_digit(**byte)).count()
}

/// How many bytes are before the end of the line.
pub(crate) fn line_len(bytes: &[u8]) -> usize
    ensures value { result ≡ prefix_len is_not_feed bytes.now }
    ensures within { result ≤ length bytes.now }
{
    bytes.iter().take_while(|byte| **byte != b'\n').count()
}
