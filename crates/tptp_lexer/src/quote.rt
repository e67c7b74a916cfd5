ghost use Rattle.std.specs.Prelude.{◌≡◌, length};
ghost use Rattle.tptp_lexer.specs.Scanning.{quote_end, EndsWithin};
ghost use Rattle.tptp_lexer.specs.Kinds as kinds;

use text_core::is_printable;

/// How the bytes behind a quote end.
#[derive(Clone, Copy, Debug)]
pub(crate) enum QuoteEnd {
    /// By the same quote, behind so many bytes.
    Closed(usize),
    /// By a byte that may not be there, behind so many bytes.
    Stray(usize),
    /// With the text: the quote is still open.
    Open,
}

/// Whether a byte may follow a backslash between such quotes.
fn is_escapable(quote: u8, byte: u8) -> bool
    ensures { result ≡ kinds.is_escapable quote byte }
{
    byte == b'\\' || byte == quote
}

/// How the bytes behind a quote end.
pub(crate) fn quote_end(quote: u8, bytes: &[u8]) -> QuoteEnd
    ensures value { result ≡ quote_end quote bytes.now }
    ensures within { EndsWithin result (length bytes.now) }
{
    let mut at = 0;
    while at < bytes.len() {
        let byte = bytes[at];
        if byte == quote {
            return QuoteEnd::Closed(at);
        }
        if byte == b'\\' {
            if at + 1 == bytes.len() {
                return QuoteEnd::Open;
            }
            if !is_escapable(quote, bytes[at + 1]) {
                return QuoteEnd::Stray(at);
            }
            at += 2;
        } else {
            if !is_printable(byte) {
                return QuoteEnd::Stray(at);
            }
            at += 1;
        }
    }
    QuoteEnd::Open
}
