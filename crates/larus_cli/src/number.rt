ghost use Rattle.std.specs.Prelude.{ℕ, ◌≡◌, ◌≢◌, ◌<◌, ◌^◌, get_or, IfSome, IfNone};
ghost use Rattle.std.specs.Fmt.{decimal};
ghost use Rattle.larus_cli.specs.Numerals.{number_of};

use std::str;

/// The number below 4,294,967,296 whose decimal digits the word is, where it begins with no sign and
/// no zero.
fn parsed(word: &[u8]) -> Option<u32>
    requires unsigned { get_or word.now 0 0 ≢ 43 }
    requires unpadded { get_or word.now 0 0 ≢ 48 }
    ensures some { IfSome result (λ number. word.now ≡ decimal number) }
    ensures none { IfNone result ((number : ℕ) → number < 2 ^ 32 → word.now ≡ decimal number → ⊥) }
{
    match str::from_utf8(word) {
        Ok(text) => text.parse::<u32>().ok(),
        Err(_) => None,
    }
}

/// The number below 4,294,967,296 whose decimal digits the word is.
fn decimal_number(word: &[u8]) -> Option<u32>
    ensures some { IfSome result (λ number. word.now ≡ decimal number) }
    ensures none { IfNone result ((number : ℕ) → number < 2 ^ 32 → word.now ≡ decimal number → ⊥) }
{
    if word.len() == 0 {
        return None;
    }
    if word[0] == b'+' {
        return None;
    }
    if word[0] != b'0' {
        return parsed(word);
    }
    if word.len() == 1 { Some(0) } else { None }
}

/// The number, at most `most`, whose decimal digits the word is, without sign and without a leading
/// zero. It takes no memory.
pub(crate) fn read_number(word: &[u8], most: u32) -> Option<u32>
    ensures { result ≡ number_of most word.now }
{
    match decimal_number(word) {
        Some(number) if number <= most => Some(number),
        _ => None,
    }
}
