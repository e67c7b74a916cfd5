use std::alloc::Global;
use std::test::Fail;
use text_core::{Bytes, MOST_LEVELS, Memory};
use tptp_grammar::{SyntaxRefusal, read_items};
use tptp_lexer::tokens;

// Texts that are no text of items, each with the number and the offset of its refusal.
const REFUSALS: &[(&[u8], u32, u32)] = &[
    // one chain has one kind of mark
    (b"fof(a,axiom,p & q | r).", 5, 18),
    // the same the other way round
    (b"fof(a,axiom,p | q & r).", 5, 18),
    // a connective has two sides
    (b"fof(a,axiom,p => q => r).", 5, 19),
    // the same
    (b"fof(a,axiom,p <=> q <=> r).", 5, 20),
    // a member is missing
    (b"fof(a,axiom,p & ).", 5, 16),
    // a unit is missing
    (b"fof(a,axiom,~ ).", 5, 14),
    // the formula is missing
    (b"fof(a,axiom,).", 5, 12),
    // a term with arguments, in an atom
    (b"fof(a,axiom,p(f(a))).", 6, 15),
    // the same behind an equality
    (b"fof(a,axiom,a = f(b)).", 6, 17),
    // and behind an inequality
    (b"fof(a,axiom,a != f(b)).", 6, 18),
    // an atom that would have to be a term
    (b"fof(a,axiom,f(a) = b).", 6, 17),
    // the same
    (b"fof(a,axiom,f(a) != b).", 6, 17),
    // the same below a negation
    (b"fof(a,axiom,~ p(a) = b).", 6, 19),
    // behind a bracket there can be no term
    (b"fof(a,axiom,(p(a)) = b).", 5, 19),
    // the same
    (b"fof(a,axiom,(p) = b).", 5, 16),
    // an equation has two sides
    (b"fof(a,axiom,a = b = c).", 5, 18),
    // arguments are given once
    (b"fof(a,axiom,p(a)(b)).", 5, 16),
    // brackets hold an argument
    (b"fof(a,axiom,p()).", 5, 14),
    // an argument is missing
    (b"fof(a,axiom,p(a,)).", 5, 16),
    // a number is no term
    (b"fof(a,axiom,p(1)).", 5, 14),
    // a distinct object is none
    (b"fof(a,axiom,\"d\").", 5, 12),
    // no other word behind a dollar
    (b"fof(a,axiom,$foo).", 5, 12),
    // a variable has no arguments
    (b"fof(a,axiom,! [X] : X(a)).", 5, 21),
    // a list binds upper words
    (b"fof(a,axiom,! [x] : p).", 5, 15),
    // one at least
    (b"fof(a,axiom,! [] : p).", 5, 15),
    // in brackets
    (b"fof(a,axiom,! X : p).", 5, 14),
    // a comma is missing
    (b"fof(a axiom,p).", 5, 6),
    // an upper word is no name
    (b"fof(A,axiom,p).", 5, 4),
    // a role is a lower word
    (b"fof(a,'axiom',p).", 5, 6),
    // an item begins otherwise
    (b"fof(a,axiom,p).x", 5, 15),
    // the same
    (b"cnf(a,axiom,p).", 5, 0),
    // a file is quoted
    (b"include(b).", 5, 8),
    // a selection has a name
    (b"include('b',[]).", 5, 13),
    // a name is missing
    (b"include('b',[v,]).", 5, 15),
    // the second part of an annotation is a list
    (b"fof(a,axiom,p,x,y).", 5, 16),
    // data of an annotation is no term
    (b"fof(a,axiom,p,x = y).", 5, 16),
    // the item is not closed
    (b"fof(a,axiom,p,f(x).", 5, 18),
    // a dot is missing
    (b"fof(a,axiom,p)", 7, 14),
    // the text ends early
    (b"fof(a,axiom", 7, 11),
    // the same
    (b"fof", 7, 3),
    // none of the nine roles
    (b"fof(a,plain,p).", 9, 6),
    // it comes before the variable
    (b"fof(a,plain,p(X) & ).", 9, 6),
    // nothing binds the variable
    (b"fof(a,axiom,p(X)).", 10, 14),
    // it comes before the bracket
    (b"fof(a,axiom,p(X) & ).", 10, 14),
    // a variable begins a unit
    (b"fof(a,axiom,X).", 10, 12),
    // a quantifier binds in its unit alone
    (b"fof(a,axiom,! [X] : p(X) & q(X)).", 10, 29),
    // the same in brackets
    (b"fof(a,axiom,(! [X] : p(X)) & q(X)).", 10, 31),
    // another variable
    (b"fof(a,axiom,? [X] : (p(X) & ~ q(Y))).", 10, 32),
];

// Texts of items, each with the number of its items.
const TEXTS: &[(&[u8], usize)] = &[
    (b"", 0),
    (b"% nothing but a comment", 0),
    (b"fof(-1,axiom,p).", 1),
    (
        b"fof(fof,axiom,include(fof)). include('b',[fof,12,'A']).",
        2,
    ),
    (b"fof(a,axiom,! [X,X] : p(X)).", 1),
    (b"fof(a,axiom,p,[],[]).", 1),
    (b"fof(a,axiom,p,f(x:Y,[1,\"d\"]):g,[h]).", 1),
    (
        b"fof(a,hypothesis,! [X] : ? [Y] : ~ (X = Y) <~> ($true ~| $false)).",
        1,
    ),
];

/// The number and the offset of a refusal; 0 for want of memory.
fn numbered(refusal: &SyntaxRefusal) -> (u32, u32) {
    match refusal {
        SyntaxRefusal::Unexpected(offset) => (5, *offset),
        SyntaxRefusal::FunctionTerm(offset) => (6, *offset),
        SyntaxRefusal::EndOfText(offset) => (7, *offset),
        SyntaxRefusal::TooDeep(offset) => (8, *offset),
        SyntaxRefusal::Role(offset) => (9, *offset),
        SyntaxRefusal::FreeVariable(offset) => (10, *offset),
        SyntaxRefusal::Memory => (0, 0),
    }
}

/// How many items a text of at most 1,000,000 bytes has, or the number and the offset of its
/// refusal.
fn told(alloc: Global, text: &[u8]) -> Result<usize, (u32, u32)> {
    if text.len() > 1_000_000 {
        return Err((0, 0));
    }
    let Ok(lexed) = tokens(alloc, text) else {
        return Err((0, 0));
    };
    match read_items(alloc, &lexed) {
        Ok(items) => Ok(items.as_slice().len()),
        Err(refusal) => Err(numbered(&refusal)),
    }
}

#[test]
fn each_text_is_refused_at_its_offset(rt: HostRuntime) -> Result<(), Fail> {
    for (text, number, offset) in REFUSALS {
        assert_eq!(rt; told(rt.alloc(), text), Err((*number, *offset)));
    }
    Ok(())
}

#[test]
fn texts_of_items_are_read(rt: HostRuntime) -> Result<(), Fail> {
    for (text, count) in TEXTS {
        assert_eq!(rt; told(rt.alloc(), text), Ok(*count));
    }
    Ok(())
}

/// An axiom that is the negation of a negation, and so on, so many of them.
fn negations(alloc: Global, count: u32) -> Result<Bytes, Memory> {
    let mut text = Bytes::from_slice(alloc, b"fof(a,axiom,")?;
    for _ in 0..count {
        text.push(b'~')?;
    }
    text.extend_from_slice(b"p).")?;
    Ok(text)
}

#[test]
fn a_formula_opens_at_most_so_many_levels(rt: HostRuntime) -> Result<(), Fail> {
    let most = negations(rt.alloc(), MOST_LEVELS)?;
    assert_eq!(rt; told(rt.alloc(), most.as_slice()), Ok(1));
    let deeper = negations(rt.alloc(), MOST_LEVELS + 1)?;
    assert_eq!(rt;
        told(rt.alloc(), deeper.as_slice()),
        Err((8, 12 + MOST_LEVELS))
    );
    Ok(())
}

// The text of a refusal is its variant's name.
#[test]
fn refusals_are_shown(rt: HostRuntime) -> Result<(), Fail> {
    let shown = format!(in rt.alloc();
        "{} {} {} {} {} {} {}",
        SyntaxRefusal::Unexpected(1),
        SyntaxRefusal::FunctionTerm(2),
        SyntaxRefusal::EndOfText(3),
        SyntaxRefusal::TooDeep(4),
        SyntaxRefusal::Role(5),
        SyntaxRefusal::FreeVariable(6),
        SyntaxRefusal::Memory
    )?;
    assert_eq!(rt;
        shown.as_str(),
        "Unexpected FunctionTerm EndOfText TooDeep Role FreeVariable Memory"
    );
    Ok(())
}
