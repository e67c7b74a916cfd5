ghost use Rattle.std.specs.Prelude.{◌≡◌};
ghost use Rattle.std.specs.List.{list_all};
ghost use Rattle.text_core.specs.Names as names;

/// Whether a byte is one of `a` to `z`.
pub fn is_lower(byte: u8) -> bool
    ensures { result ≡ names.is_lower byte }
{
    b'a' <= byte && byte <= b'z'
}

/// Whether a byte is one of `A` to `Z`.
pub fn is_upper(byte: u8) -> bool
    ensures { result ≡ names.is_upper byte }
{
    b'A' <= byte && byte <= b'Z'
}

/// Whether a byte is one of `0` to `9`.
pub fn is_digit(byte: u8) -> bool
    ensures { result ≡ names.is_digit byte }
{
    b'0' <= byte && byte <= b'9'
}

/// Whether a word may go on with a byte: a letter, a digit or `_`. Source: the TPTP syntax,
/// alpha_numeric.
pub fn is_word(byte: u8) -> bool
    ensures { result ≡ names.is_word byte }
{
    is_lower(byte) || is_upper(byte) || is_digit(byte) || byte == b'_'
}

/// Whether a byte is printable ASCII: one of the space to `~`.
pub fn is_printable(byte: u8) -> bool
    ensures { result ≡ names.is_printable byte }
{
    b' ' <= byte && byte <= b'~'
}

/// Whether bytes begin with this one.
pub fn begins_with(byte: u8, bytes: &[u8]) -> bool
    ensures { result ≡ names.begins_with byte bytes.now }
{
    match bytes {
        [] => false,
        [first, ..] => *first == byte,
    }
}

/// Whether a word may go on with each byte.
pub fn are_word_bytes(bytes: &[u8]) -> bool
    ensures { result ≡ list_all names.is_word bytes.now }
{
    bytes.iter().all(|byte| is_word(*byte))
}

/// Whether each byte is a digit.
pub fn are_digits(bytes: &[u8]) -> bool
    ensures { result ≡ list_all names.is_digit bytes.now }
{
    bytes.iter().all(|byte| is_digit(*byte))
}

/// Whether a text is a word that begins with one of `a` to `z`. Source: the TPTP syntax,
/// lower_word.
pub fn is_lower_word(text: &[u8]) -> bool
    ensures { result ≡ names.is_word_from names.is_lower text.now }
{
    match text {
        [] => false,
        [first, rest @ ..] => is_lower(*first) && are_word_bytes(rest),
    }
}
