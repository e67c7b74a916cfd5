ghost use Rattle.std.specs.Prelude.{◌≡◌, Some, None, if◌then◌else◌};
ghost use Rattle.std.specs.Str.{bytes_eq};
ghost use Rattle.tptp_grammar.specs.Roles.{role_text};
ghost use Rattle.tptp_grammar.specs.RoleWords.{role_of};

use logic_core::Role;

/// The role that a word tells. Its first byte leaves one or two of them. Source: the TPTP syntax,
/// FOF.
#[tactic(auto, unfolding(crate::specs::RoleWords::role_of))]
pub(crate) fn role_of(text: &[u8]) -> Option<Role>
    ensures { result ≡ role_of text.now }
{
    let Some(first) = text.first() else {
        return None;
    };
    match *first {
        b'a' => either(text, Role::Axiom, Role::Assumption),
        b'h' => only(text, Role::Hypothesis),
        b'd' => only(text, Role::Definition),
        b'l' => only(text, Role::Lemma),
        b't' => only(text, Role::Theorem),
        b'c' => either(text, Role::Corollary, Role::Conjecture),
        b'n' => only(text, Role::NegatedConjecture),
        _ => None,
    }
}

// The role, where the word tells it.
fn only(text: &[u8], role: Role) -> Option<Role>
    ensures { result ≡ (if bytes_eq text.now (role_text role) then Some role else None) }
{
    if text == role_text(role) {
        Some(role)
    } else {
        None
    }
}

// One of two roles, where the word tells it.
fn either(text: &[u8], role: Role, other: Role) -> Option<Role>
    ensures { result ≡ (if bytes_eq text.now (role_text role) then Some role else
        (if bytes_eq text.now (role_text other) then Some other else None)) }
{
    if text == role_text(role) {
        Some(role)
    } else {
        only(text, other)
    }
}

// The word that tells the role.
fn role_text(role: Role) -> &'static [u8]
    ensures { result.now ≡ role_text role }
{
    match role {
        Role::Axiom => b"axiom",
        Role::Hypothesis => b"hypothesis",
        Role::Definition => b"definition",
        Role::Assumption => b"assumption",
        Role::Lemma => b"lemma",
        Role::Theorem => b"theorem",
        Role::Corollary => b"corollary",
        Role::NegatedConjecture => b"negated_conjecture",
        Role::Conjecture => b"conjecture",
    }
}
