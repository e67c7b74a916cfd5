ghost use Rattle.std.specs.Prelude.{◌≡◌};
ghost use Rattle.tptp_lexer.specs.Scanning as scanning;

use crate::kind::Kind;
use crate::piece::Piece;
use text_core::begins_with;

/// The sign that begins with a byte, or that the byte begins nothing.
#[tactic(auto, unfolding(crate::specs::Scanning::sign_from))]
pub(crate) fn sign_from(byte: u8, rest: &[u8]) -> Piece
    ensures { result ≡ scanning.sign_from byte rest.now }
{
    match byte {
        b'(' => Piece::Found(Kind::OpenParenthesis, 1),
        b')' => Piece::Found(Kind::CloseParenthesis, 1),
        b'[' => Piece::Found(Kind::OpenBracket, 1),
        b']' => Piece::Found(Kind::CloseBracket, 1),
        b',' => Piece::Found(Kind::Comma, 1),
        b'.' => Piece::Found(Kind::Dot, 1),
        b':' => Piece::Found(Kind::Colon, 1),
        b'?' => Piece::Found(Kind::Question, 1),
        b'&' => Piece::Found(Kind::Ampersand, 1),
        b'|' => Piece::Found(Kind::Bar, 1),
        _ => long_sign(byte, rest),
    }
}

/// The sign that begins with a byte and may go on with further ones, or that the byte begins
/// nothing.
#[tactic(auto, unfolding(crate::specs::Scanning::long_sign))]
fn long_sign(byte: u8, rest: &[u8]) -> Piece
    ensures { result ≡ scanning.long_sign byte rest.now }
{
    match byte {
        b'!' => {
            if begins_with(b'=', rest) {
                Piece::Found(Kind::NotEqual, 2)
            } else {
                Piece::Found(Kind::Exclamation, 1)
            }
        }
        b'~' => {
            if begins_with(b'|', rest) {
                Piece::Found(Kind::Nor, 2)
            } else if begins_with(b'&', rest) {
                Piece::Found(Kind::Nand, 2)
            } else {
                Piece::Found(Kind::Tilde, 1)
            }
        }
        b'=' => {
            if begins_with(b'>', rest) {
                Piece::Found(Kind::Implies, 2)
            } else {
                Piece::Found(Kind::Equal, 1)
            }
        }
        b'<' => less_from(rest),
        _ => Piece::BadByte(0),
    }
}

/// What begins with `<`.
#[tactic(auto, unfolding(crate::specs::Scanning::less_from))]
fn less_from(rest: &[u8]) -> Piece
    ensures { result ≡ scanning.less_from rest.now }
{
    match rest {
        [] => Piece::BadByte(0),
        [byte, tail @ ..] => {
            if *byte == b'=' {
                if begins_with(b'>', tail) {
                    Piece::Found(Kind::Iff, 3)
                } else {
                    Piece::Found(Kind::Implied, 2)
                }
            } else if *byte == b'~' && begins_with(b'>', tail) {
                Piece::Found(Kind::Xor, 3)
            } else {
                Piece::BadByte(0)
            }
        }
    }
}
