ghost use Rattle.std.specs.Prelude.{◌≡◌, ◌++◌, OnOk};
ghost use Rattle.text_core.specs.NameTexts.{IsNameText};
ghost use Rattle.tptp_lexer.specs.Written.{escaped, quoted_text, word_text, name_text};

use crate::integer::is_integer;
use text_core::{Bytes, Memory, Name, is_lower_word};

/// Appends bytes, with a backslash before each quote and backslash.
fn put_escaped(bytes: &[u8], out: &mut Bytes) -> Result<(), Memory>
    ensures { OnOk result (out.new ≡ out.old ++ escaped bytes.now) }
{
    for byte in bytes {
        if *byte == b'\'' || *byte == b'\\' {
            out.push(b'\\')?;
        }
        out.push(*byte)?;
    }
    Ok(())
}

/// Appends bytes in single quotes.
fn put_quoted(bytes: &[u8], out: &mut Bytes) -> Result<(), Memory>
    ensures { OnOk result (out.new ≡ out.old ++ quoted_text bytes.now) }
{
    out.push(b'\'')?;
    put_escaped(bytes, out)?;
    out.push(b'\'')
}

/// Appends a word that names a predicate or a constant: as it is where it is a lower word, else in
/// quotes. `Memory` is want of memory. Source: the TPTP syntax.
pub fn put_word(name: &Name, out: &mut Bytes) -> Result<(), Memory>
    ensures text { OnOk result (out.new ≡ out.old ++ word_text name.now) }
    ensures named { IsNameText name.now }
{
    let bytes = name.bytes();
    if is_lower_word(bytes) {
        out.extend_from_slice(bytes)
    } else {
        put_quoted(bytes, out)
    }
}

/// Appends the name of a formula: as it is where it is a lower word or an integer, else in quotes.
/// `Memory` is want of memory. Source: the TPTP syntax.
pub fn put_name(name: &Name, out: &mut Bytes) -> Result<(), Memory>
    ensures text { OnOk result (out.new ≡ out.old ++ name_text name.now) }
    ensures named { IsNameText name.now }
{
    let bytes = name.bytes();
    if is_lower_word(bytes) || is_integer(bytes) {
        out.extend_from_slice(bytes)
    } else {
        put_quoted(bytes, out)
    }
}

/// Appends the name of a file, in quotes. `Memory` is want of memory. Source: the TPTP syntax.
pub fn put_file(name: &Name, out: &mut Bytes) -> Result<(), Memory>
    ensures text { OnOk result (out.new ≡ out.old ++ quoted_text name.now) }
    ensures named { IsNameText name.now }
{
    put_quoted(name.bytes(), out)
}
