use coherent_form::{Citation, Task, TaskRefusal, TaskWhy};
use include_flat::flatten;
use io_core::MemoryFiles;
use logic_core::{Bytes, Memory, Problem};
use problem_suite::examples::{
    COMPLEMENT_PROBLEM, EQUALITY_PROBLEM, SAME_NAMES_PROBLEM, SHADOWED_PROBLEM,
};
use proof_text::read_script;
use std::alloc::Global;
use std::test::Fail;

// What is looked for in a task: how many forms, symbols, constants and start elements there are, and
// how many premises and disjuncts the goal has; the form that a proof cites so, if there is one; the
// name with which an element is printed; and the label of a form's variable.
enum Wanted {
    Counts(usize, u32, u32, u32, usize, usize),
    Found(&'static [u8], Option<u32>),
    Printed(u32, &'static [u8]),
    Labelled(u32, u32, &'static [u8], u32),
}

// Problems, each with what is looked for in its task.
const TASKS: &[(&[u8], &[Wanted])] = &[
    // without formulas there is equality and a start element
    (
        b"",
        &[
            Wanted::Counts(0, 1, 0, 1, 0, 0),
            Wanted::Found(b"$refl", None),
            Wanted::Printed(0, b"w0"),
        ],
    ),
    // a predicate that is negated in the conjecture
    (
        COMPLEMENT_PROBLEM,
        &[
            Wanted::Counts(3, 3, 1, 1, 0, 2),
            Wanted::Found(b"a1", Some(0)),
            Wanted::Found(b"a1:2", None),
            Wanted::Found(b"g", None),
            Wanted::Found(b"$no(p,1)", Some(1)),
            Wanted::Found(b"$or(p,1)", Some(2)),
            Wanted::Found(b"$or(p,2)", None),
            Wanted::Found(b"$or(q,1)", None),
            Wanted::Found(b"$or(=,2)", None),
        ],
    ),
    // equality
    (
        EQUALITY_PROBLEM,
        &[
            Wanted::Counts(6, 2, 2, 2, 0, 1),
            Wanted::Found(b"f", Some(1)),
            Wanted::Found(b"$refl", Some(2)),
            Wanted::Found(b"$sym", Some(3)),
            Wanted::Found(b"$trans", Some(4)),
            Wanted::Found(b"$sub(p,1,1)", Some(5)),
            Wanted::Found(b"$sub(p,1,2)", None),
            Wanted::Found(b"$sub(~p,1,1)", None),
            Wanted::Found(b"$sub(=,2,1)", None),
            Wanted::Labelled(4, 2, b"V2", 1),
        ],
    ),
    // equality and a predicate that are negated
    (
        b"fof(a,axiom,a != b | ~ p(a)).",
        &[
            Wanted::Counts(12, 2, 2, 2, 0, 0),
            Wanted::Found(b"$refl", Some(1)),
            Wanted::Found(b"$sub(~=,2,1)", Some(4)),
            Wanted::Found(b"$sub(~=,2,2)", Some(5)),
            Wanted::Found(b"$sub(p,1,1)", Some(6)),
            Wanted::Found(b"$sub(~p,1,1)", Some(7)),
            Wanted::Found(b"$no(=,2)", Some(8)),
            Wanted::Found(b"$or(=,2)", Some(9)),
            Wanted::Found(b"$no(p,1)", Some(10)),
            Wanted::Found(b"$or(p,1)", Some(11)),
        ],
    ),
    // two formulas of one name
    (
        SAME_NAMES_PROBLEM,
        &[
            Wanted::Counts(2, 3, 1, 1, 0, 1),
            Wanted::Found(b"a:0", None),
            Wanted::Found(b"a", Some(0)),
            Wanted::Found(b"a:2", Some(1)),
            Wanted::Found(b"a:3", None),
        ],
    ),
    // a formula of two forms
    (
        b"fof(a,axiom,! [X] : p(X) & q). fof(g,conjecture,q).",
        &[
            Wanted::Counts(2, 3, 0, 1, 0, 1),
            Wanted::Found(b"a:2", Some(1)),
            Wanted::Labelled(0, 0, b"X", 1),
        ],
    ),
    // an equivalence, whose second form has the variable of a premise too
    (
        b"fof(d,axiom,! [X] : (p(X) <=> ? [Y] : r(X,Y))). fof(e,axiom,r(c,c)). fof(g,conjecture,p(c)).",
        &[
            Wanted::Found(b"d:2", Some(1)),
            Wanted::Found(b"e", Some(2)),
            Wanted::Labelled(1, 0, b"X", 1),
            Wanted::Labelled(1, 1, b"Y", 1),
        ],
    ),
    // two variables of one name
    (
        b"fof(a,axiom,! [X] : ! [X] : p(X)).",
        &[
            Wanted::Labelled(0, 0, b"X", 1),
            Wanted::Labelled(0, 1, b"X", 2),
        ],
    ),
    // a witness behind a constant
    (
        SHADOWED_PROBLEM,
        &[
            Wanted::Counts(2, 3, 1, 1, 0, 1),
            Wanted::Printed(0, b"c"),
            Wanted::Printed(1, b"w1"),
        ],
    ),
    // a constant and a parameter
    (
        b"fof(a1,axiom,p(c) | q(c)). fof(g,conjecture,! [Z] : (t(Z) => (r(c) | ? [U] : s(c,U)))).",
        &[Wanted::Counts(1, 6, 1, 2, 1, 2), Wanted::Printed(1, b"w1")],
    ),
    // a constant that begins with the letter of the others
    (b"fof(a,axiom,p(w1)).", &[Wanted::Printed(1, b"ww1")]),
];

// Problems without a task, each with the number of the formula that is refused, the number of its
// refusal, and the number of the node that offends.
const REFUSALS: &[(&[u8], (u32, u32, u32))] = &[
    // an equivalence gives two forms
    (b"fof(g,conjecture,p <=> q).", (1, 47, 0)),
    // a conjunction is negated
    (b"fof(a,axiom,~ (p & q)).", (1, 16, 0)),
    // a premise is an implication
    (b"fof(a,axiom,(p => q) => r).", (1, 16, 1)),
    // two conjectures
    (b"fof(g,conjecture,p). fof(g,conjecture,p).", (2, 18, 0)),
    // the second conjecture is not looked at
    (
        b"fof(g,conjecture,p). fof(h,conjecture,~ (p & q)).",
        (2, 18, 0),
    ),
];

/// The number of the formula that is refused, and the refusal's number with that of a node; 0 for
/// want of memory.
fn numbered(refusal: &TaskRefusal) -> (u32, u32, u32) {
    match refusal.why {
        TaskWhy::NotCoherent { node } => (refusal.formula, 16, node),
        TaskWhy::TooWide => (refusal.formula, 17, 0),
        TaskWhy::TooManyConjectures => (refusal.formula, 18, 0),
        TaskWhy::TooManyForms => (refusal.formula, 46, 0),
        TaskWhy::ManyGoals => (refusal.formula, 47, 0),
        TaskWhy::Memory => (0, 0, 0),
    }
}

/// The problem that a text has, and none where it is refused.
pub(crate) fn problem_of(alloc: Global, text: &[u8]) -> Option<Problem> {
    let mut files = MemoryFiles::new(alloc);
    files.insert(b"x.p", text).ok()?;
    flatten(alloc, &mut files, b"x.p").ok()
}

/// The text of a proof whose first step cites so.
fn proof_citing(alloc: Global, cite: &[u8]) -> Result<Bytes, Memory> {
    let mut text = Bytes::from_slice(alloc, b"vernacular 1. take []. mp ")?;
    text.extend_from_slice(cite)?;
    text.extend_from_slice(b" [] new [] gives $true. efq.")?;
    Ok(text)
}

/// Whether a form is found by the citation that it has.
fn is_cited(alloc: Global, task: &Task, form: u32) -> bool {
    if form as usize >= task.forms().len() {
        return false;
    }
    match task.citation(alloc, form) {
        Ok(cite) => task.find(&cite) == Some(form),
        Err(_) => false,
    }
}

/// Whether this form is found, if one is wanted, and is found again by the citation that it has.
fn is_found(alloc: Global, task: &Task, cite: &Citation, wanted: Option<u32>) -> bool {
    match task.find(cite) {
        Some(form) => wanted == Some(form) && is_cited(alloc, task, form),
        None => wanted.is_none(),
    }
}

/// Whether this is the form that is cited by a text.
fn is_found_by(alloc: Global, task: &Task, text: &[u8], wanted: Option<u32>) -> bool {
    let Ok(proof) = proof_citing(alloc, text) else {
        return false;
    };
    if proof.len() > 1_000_000 {
        return false;
    }
    match read_script(alloc, proof.as_slice()) {
        Ok(script) => match script.body().steps.as_slice() {
            [step, ..] => is_found(alloc, task, &step.cite, wanted),
            [] => false,
        },
        Err(_) => false,
    }
}

/// Whether a form's variable has this label.
fn is_labelled(
    alloc: Global,
    task: &Task,
    form: u32,
    variable: u32,
    name: &[u8],
    rank: u32,
) -> bool {
    match task.forms().get(form as usize) {
        Some(known) if variable < known.universals => match task.label(alloc, form, variable) {
            Ok(label) => label.name.bytes() == name && label.rank == rank,
            Err(_) => false,
        },
        _ => false,
    }
}

/// Whether an element is printed with this name.
fn is_printed(alloc: Global, task: &Task, element: u32, name: &[u8]) -> bool {
    match task.element_name(alloc, element) {
        Ok(printed) => printed.bytes() == name,
        Err(_) => false,
    }
}

/// Whether a task has what is looked for.
fn has(alloc: Global, task: &Task, wanted: &Wanted) -> bool {
    match wanted {
        Wanted::Counts(forms, symbols, constants, start, premises, disjuncts) => {
            task.forms().len() == *forms
                && task.tables().symbols() == *symbols
                && task.tables().constants() == *constants
                && task.start_elements() == *start
                && task.goal().premises.len() == *premises
                && task.goal().disjuncts.len() == *disjuncts
        }
        Wanted::Found(cite, form) => is_found_by(alloc, task, cite, *form),
        Wanted::Printed(element, name) => is_printed(alloc, task, *element, name),
        Wanted::Labelled(form, variable, name, rank) => {
            is_labelled(alloc, task, *form, *variable, name, *rank)
        }
    }
}

/// Whether the task of a problem has all that is looked for.
fn has_each(alloc: Global, problem: &Problem, each: &[Wanted]) -> bool {
    match Task::build(alloc, problem) {
        Ok(task) => each.iter().all(|wanted| has(alloc, &task, wanted)),
        Err(_) => false,
    }
}

/// How the problem of a text is refused, and nothing where it has a task.
fn refused(alloc: Global, text: &[u8]) -> Option<(u32, u32, u32)> {
    match problem_of(alloc, text) {
        Some(problem) => match Task::build(alloc, &problem) {
            Ok(_) => None,
            Err(refusal) => Some(numbered(&refusal)),
        },
        None => Some((0, 0, 0)),
    }
}

#[test]
fn each_task_has_what_is_looked_for(rt: HostRuntime) -> Result<(), Fail> {
    for (text, each) in TASKS {
        assert!(rt;
            match problem_of(rt.alloc(), text) {
                Some(problem) => has_each(rt.alloc(), &problem, each),
                None => false,
            }
        );
    }
    Ok(())
}

#[test]
fn each_problem_without_a_task_is_refused_for_its_reason(rt: HostRuntime) -> Result<(), Fail> {
    for (text, refusal) in REFUSALS {
        assert_eq!(rt; refused(rt.alloc(), text), Some(*refusal));
    }
    Ok(())
}

// Texts that are repeated between a front and an end, so often that the problem has a task, and its
// refusal where it is repeated once more.
const WIDEST: &[(&[u8], &[u8], &[u8], u32, (u32, u32, u32))] = &[
    // 64 variables
    (b"fof(a,axiom,! [X", b",X", b"] : p).", 63, (1, 17, 0)),
    // 1,024 forms of one formula
    (b"fof(a,axiom,((p|q)", b"&(p|q)", b") => r).", 9, (1, 17, 0)),
    // 65,536 forms of all
    (
        b"",
        b"fof(a,axiom,((p|q)&(p|q)&(p|q)&(p|q)&(p|q)&(p|q)&(p|q)&(p|q)&(p|q)&(p|q)) => r).",
        b"",
        64,
        (65, 46, 0),
    ),
];

/// A front, so many copies of a text, and an end.
fn repeated(
    alloc: Global,
    front: &[u8],
    piece: &[u8],
    end: &[u8],
    count: u32,
) -> Result<Bytes, Memory> {
    let mut text = Bytes::from_slice(alloc, front)?;
    for _ in 0..count {
        text.extend_from_slice(piece)?;
    }
    text.extend_from_slice(end)?;
    Ok(text)
}

#[test]
fn the_widest_problems_have_a_task(rt: HostRuntime) -> Result<(), Fail> {
    for (front, piece, end, most, refusal) in WIDEST {
        let text = repeated(rt.alloc(), front, piece, end, *most)?;
        assert_eq!(rt; refused(rt.alloc(), text.as_slice()), None);
        let text = repeated(rt.alloc(), front, piece, end, *most + 1)?;
        assert_eq!(rt; refused(rt.alloc(), text.as_slice()), Some(*refusal));
    }
    Ok(())
}

/// So many axioms, each of a predicate of its own with 32 arguments.
fn places(alloc: Global, count: u32) -> Result<Bytes, Memory> {
    let mut text = Bytes::new(alloc);
    for number in 0..count {
        text.extend_from_slice(b"fof(a,axiom,p")?;
        text.extend_from_slice(number.to_string(alloc)?.as_bytes())?;
        text.extend_from_slice(
            b"(c,c,c,c,c,c,c,c,c,c,c,c,c,c,c,c,c,c,c,c,c,c,c,c,c,c,c,c,c,c,c,c)).",
        )?;
    }
    Ok(text)
}

#[test]
fn all_symbols_have_at_most_so_many_places(rt: HostRuntime) -> Result<(), Fail> {
    let text = places(rt.alloc(), 8192)?;
    assert_eq!(rt; refused(rt.alloc(), text.as_slice()), None);
    let text = places(rt.alloc(), 8193)?;
    assert_eq!(rt; refused(rt.alloc(), text.as_slice()), Some((8193, 17, 0)));
    Ok(())
}
