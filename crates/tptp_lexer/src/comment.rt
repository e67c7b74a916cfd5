ghost use Rattle.std.specs.Prelude.{◌≡◌, ◌≤◌, ◌+◌, ◌==◌, ◌&&◌, length, IfSome};
ghost use Rattle.tptp_lexer.specs.Scanning as scanning;

/// Whether two bytes are `*/`.
fn is_close(first: u8, second: u8) -> bool
    ensures { result ≡ (first == 42 && second == 47) }
{
    first == b'*' && second == b'/'
}

/// The offset of the first `*/`; `None` where there is none.
pub(crate) fn block_end(bytes: &[u8]) -> Option<usize>
    ensures value { result ≡ scanning.block_end bytes.now }
    ensures within { IfSome result (λ len. len + 2 ≤ length bytes.now) }
{
    let mut at = 0;
    while at + 1 < bytes.len() {
        if is_close(bytes[at], bytes[at + 1]) {
            return Some(at);
        }
        at += 1;
    }
    None
}
