ghost use Rattle.std.specs.Prelude.{◌≡◌};
ghost use Rattle.tptp_lexer.specs.Kinds as kinds;

use text_core::{are_digits, is_digit};

/// Whether a text is a natural number: `0`, or digits that begin with no `0`.
fn is_natural(text: &[u8]) -> bool
    ensures { result ≡ kinds.is_natural text.now }
{
    match text {
        [] => false,
        [b'0', rest @ ..] => rest.is_empty(),
        [first, rest @ ..] => is_digit(*first) && are_digits(rest),
    }
}

/// Whether a text is an integer, as a token of the kind `Integer` is: a natural number, with or
/// without a plus or minus before it. Source: the TPTP syntax, integer.
pub fn is_integer(text: &[u8]) -> bool
    ensures { result ≡ kinds.is_integer text.now }
{
    match text {
        [] => false,
        [b'+' | b'-', rest @ ..] => is_natural(rest),
        _ => is_natural(text),
    }
}
