ghost use Rattle.std.specs.Prelude.{◌≡◌, ◌++◌, map, codes, OnOk};
ghost use Rattle.std.specs.List.{AllByRecursion};
ghost use Rattle.text_core.specs.NameTexts.{IsNameText};
ghost use Rattle.logic_core.specs.declared.problem.Item.TheVariants.{Fof as ItemFof, Include};
ghost use Rattle.tptp_grammar.specs.Roles.{role_text};
ghost use Rattle.tptp_printer.specs.Canonical.{name_text, joined_texts, selection_text, item_text};
ghost use Rattle.tptp_printer.specs.Named.{SelectionIsNamed, ItemIsNamed};

use crate::formula::put_formula;
use logic_core::{Bytes, Fof, Item, List, Memory, Name, Role};
use tptp_lexer::{put_file, put_name};

/// The word of a role.
fn role_word(role: Role) -> &'static [u8]
    ensures { result.now ≡ role_text role }
{
    match role {
        Role::Axiom => b"axiom",
        Role::Hypothesis => b"hypothesis",
        Role::Definition => b"definition",
        Role::Assumption => b"assumption",
        Role::Lemma => b"lemma",
        Role::Theorem => b"theorem",
        Role::Corollary => b"corollary",
        Role::NegatedConjecture => b"negated_conjecture",
        Role::Conjecture => b"conjecture",
    }
}

/// Appends the names of a selection with a comma between each two.
#[tactic(auto, using(tptp_lexer::proofs::Laws::joined_led))]
fn put_names(names: &[Name], out: &mut Bytes) -> Result<(), Memory>
    ensures text { OnOk result (out.new ≡ out.old
        ++ joined_texts (codes ",") (map name_text names.now)) }
    ensures named { OnOk result (AllByRecursion IsNameText names.now) }
{
    let mut before: &[u8] = b"";
    for name in names {
        out.extend_from_slice(before)?;
        put_name(name, out)?;
        before = b",";
    }
    Ok(())
}

/// Appends what follows an inclusion's file.
fn put_selection(only: &Option<List<Name>>, out: &mut Bytes) -> Result<(), Memory>
    ensures text { OnOk result (out.new ≡ out.old ++ selection_text only.now) }
    ensures named { OnOk result (SelectionIsNamed only.now) }
{
    match only {
        None => Ok(()),
        Some(names) => {
            out.extend_from_slice(b",[")?;
            put_names(names.as_slice(), out)?;
            out.push(b']')
        }
    }
}

/// Appends a formula with its name and role.
pub(crate) fn put_fof(fof: &Fof, out: &mut Bytes) -> Result<(), Memory>
    ensures text { OnOk result (out.new ≡ out.old ++ item_text (ItemFof fof.now)) }
    ensures named { OnOk result (ItemIsNamed (ItemFof fof.now)) }
{
    out.extend_from_slice(b"fof(")?;
    put_name(&fof.name, out)?;
    out.push(b',')?;
    out.extend_from_slice(role_word(fof.role))?;
    out.push(b',')?;
    put_formula(&fof.formula, out)?;
    out.extend_from_slice(b").\n")
}

/// Appends an inclusion.
fn put_include(file: &Name, only: &Option<List<Name>>, out: &mut Bytes) -> Result<(), Memory>
    ensures text { OnOk result (out.new ≡ out.old ++ item_text (Include file.now only.now)) }
    ensures named { OnOk result (IsNameText file.now × SelectionIsNamed only.now) }
{
    out.extend_from_slice(b"include(")?;
    put_file(file, out)?;
    put_selection(only, out)?;
    out.extend_from_slice(b").\n")
}

/// Appends an item.
pub(crate) fn put_item(item: &Item, out: &mut Bytes) -> Result<(), Memory>
    ensures text { OnOk result (out.new ≡ out.old ++ item_text item.now) }
    ensures named { OnOk result (ItemIsNamed item.now) }
{
    match item {
        Item::Fof(fof) => put_fof(fof, out),
        Item::Include { file, only } => put_include(file, only, out),
    }
}
