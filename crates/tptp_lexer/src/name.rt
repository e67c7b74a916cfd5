ghost use Rattle.std.specs.Prelude.{◌≡◌, ◌≢◌, ◌<◌, [], true, length, IfOk, IsTrue};
ghost use Rattle.tptp_lexer.specs.Kinds.{is_body, kind_of};
ghost use Rattle.tptp_lexer.specs.Scanning.{shown_at};
ghost use Rattle.tptp_lexer.specs.Tokens as names;
ghost use Rattle.tptp_lexer.specs.Columns as columns;

use crate::kind::Kind;
use std::alloc::Global;
use text_core::{Bytes, Memory, Name};

/// The name that a token of these bytes is, where it is a word, a quoted word or an integer.
/// `Memory` is want of memory.
pub(crate) fn name_of(alloc: Global, kind: Kind, text: &[u8]) -> Result<Name, Memory>
    requires token { kind_of text.now ≡ Some kind }
    requires named { IsTrue (columns.is_name kind) }
    ensures { IfOk result (λ name. name ≡ names.named kind text.now) }
{
    match kind {
        Kind::Quoted => unescaped_name(alloc, &text[1..text.len() - 1]),
        _ => Name::from_bytes(alloc, text),
    }
}

/// The name between single quotes. `Memory` is want of memory.
fn unescaped_name(alloc: Global, body: &[u8]) -> Result<Name, Memory>
    requires some { body.now ≢ [] }
    requires body { is_body 39 body.now ≡ true }
    ensures { IfOk result (λ name. name ≡ names.unescaped body.now) }
{
    if body.contains(&b'\\') {
        let bytes = unescaped(alloc, body)?;
        Name::from_bytes(alloc, bytes.as_slice())
    } else {
        Name::from_bytes(alloc, body)
    }
}

/// The bytes between quotes, without the backslash of each escape. `Memory` is want of memory.
fn unescaped(alloc: Global, body: &[u8]) -> Result<Bytes, Memory>
    ensures { IfOk result (λ bytes. bytes ≡ names.unescaped body.now) }
{
    let mut bytes = Bytes::new(alloc);
    let mut at = 0;
    while at < body.len() {
        let shown = shown_at(body, at);
        bytes.push(body[shown])?;
        at = shown + 1;
    }
    Ok(bytes)
}

/// The offset of the byte that the byte at an offset stands for: that behind it for a backslash,
/// else its own.
fn shown_at(body: &[u8], at: usize) -> usize
    requires { at < length body.now }
    ensures value { result ≡ shown_at body.now at }
    ensures within { result < length body.now }
{
    if body[at] == b'\\' && at + 1 < body.len() {
        at + 1
    } else {
        at
    }
}
