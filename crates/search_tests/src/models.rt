ghost use Rattle.coherent_form.specs.Tasks.{IsTaskOf};

use crate::problems::problem_of;
use coherent_form::Task;
use finite_model::{ConfirmRefusal, Model, ModelRefusal, confirm_model, read_model, write_model};
use logic_core::Problem;
use std::alloc::Global;
use std::test::Fail;

// The structure of a text of at most 1,000 bytes.
fn model_of(alloc: Global, text: &[u8]) -> Result<Model, ModelRefusal> {
    if text.len() > 1000 {
        return Err(ModelRefusal::Memory);
    }
    read_model(alloc, text)
}

// Whether a structure is written so.
fn is_written(alloc: Global, model: &Model, written: &[u8]) -> bool {
    match write_model(alloc, model) {
        Ok(bytes) => bytes.as_slice() == written,
        Err(_) => false,
    }
}

// Whether a text is read, and its structure is written so.
fn is_read(alloc: Global, text: &[u8], written: &[u8]) -> bool {
    match model_of(alloc, text) {
        Ok(model) => is_written(alloc, &model, written),
        Err(_) => false,
    }
}

// Texts of structures, each with the canonical text of the same structure.
const TEXTS: &[(&[u8], &[u8])] = &[
    (b"model 1. size 1.", b"model 1.\nsize 1.\n"),
    (
        b"model 1. size 2. place c is 0. fact p(0).",
        b"model 1.\nsize 2.\nplace c is 0.\nfact p(0).\n",
    ),
    // facts that are told twice, with no argument and with two, and names in quotes
    (
        b"% of 64\nmodel 1.size 64.place 'c' is 63.place 'A b' is 0.fact q.fact q.fact r(63,0).",
        b"model 1.\nsize 64.\nplace c is 63.\nplace 'A b' is 0.\nfact q.\nfact q.\nfact r(63,0).\n",
    ),
];

#[test]
fn each_structure_is_read_and_written(rt: HostRuntime) -> Result<(), Fail> {
    for (text, written) in TEXTS {
        assert!(rt; is_read(rt.alloc(), text, written) && is_read(rt.alloc(), written, written));
    }
    Ok(())
}

// Why a text is none of a structure, with the place.
#[derive(Clone, Copy, PartialEq, Eq)]
enum Why {
    Lexical,
    Syntax(u32),
    Range(u32),
    Twice(u32),
    Memory,
}

fn reason(refusal: &ModelRefusal) -> Why {
    match refusal {
        ModelRefusal::Lex(_) => Why::Lexical,
        ModelRefusal::ModelSyntax(place) => Why::Syntax(*place),
        ModelRefusal::ModelRange(place) => Why::Range(*place),
        ModelRefusal::ModelTwice(place) => Why::Twice(*place),
        ModelRefusal::Memory => Why::Memory,
    }
}

// Whether a text is refused so.
fn is_refused(alloc: Global, text: &[u8], why: Why) -> bool {
    match model_of(alloc, text) {
        Ok(_) => false,
        Err(refusal) => reason(&refusal) == why,
    }
}

// Texts that are none of a structure.
const REFUSED: &[(&[u8], Why)] = &[
    (b"", Why::Syntax(0)),
    (b"model 2. size 1.", Why::Syntax(6)),
    (b"model 1. size 1. fact p().", Why::Syntax(24)),
    (b"model 1. size 1. fact p. place c is 0.", Why::Syntax(25)),
    (b"model 1. size 1. place c is 0", Why::Syntax(29)),
    (b"model 1. size 0.", Why::Range(14)),
    (b"model 1. size 65.", Why::Range(14)),
    (b"model 1. size 2. place c is 2.", Why::Range(28)),
    (b"model 1. size 2. fact p(0,2).", Why::Range(26)),
    (
        b"model 1. size 1. place c is 0. place 'c' is 0.",
        Why::Twice(37),
    ),
    (b"model 1. size 0. ;", Why::Lexical),
];

#[test]
fn each_refused_text_is_told_at_its_place(rt: HostRuntime) -> Result<(), Fail> {
    for (text, why) in REFUSED {
        assert!(rt; is_refused(rt.alloc(), text, *why));
    }
    Ok(())
}

// What a structure is to a problem.
#[derive(Clone, Copy, PartialEq, Eq)]
enum Outcome {
    Countermodel,
    NoPlace(u32),
    Fails(u32),
    Memory,
}

// What a structure is to a problem with this task.
fn judged(alloc: Global, problem: &Problem, task: &Task, model: &Model) -> Outcome
    requires { IsTaskOf problem.now task.now }
{
    match confirm_model(alloc, problem, task, model) {
        Ok(()) => Outcome::Countermodel,
        Err(ConfirmRefusal::ModelPlace(number)) => Outcome::NoPlace(number),
        Err(ConfirmRefusal::ModelFails(number)) => Outcome::Fails(number),
        Err(ConfirmRefusal::Memory) => Outcome::Memory,
    }
}

// Whether a structure is this to a problem.
fn is_to(alloc: Global, problem: &Problem, model: &Model, wanted: Outcome) -> bool {
    match Task::build(alloc, problem) {
        Ok(task) => judged(alloc, problem, &task, model) == wanted,
        Err(_) => false,
    }
}

// Whether the structure of a text is this to a problem.
fn is_read_as(alloc: Global, problem: &Problem, text: &[u8], wanted: Outcome) -> bool {
    match model_of(alloc, text) {
        Ok(model) => is_to(alloc, problem, &model, wanted),
        Err(_) => false,
    }
}

// Whether the structure of a text is this to the problem of another one.
fn is_outcome(alloc: Global, problem: &[u8], text: &[u8], wanted: Outcome) -> bool {
    match problem_of(alloc, problem) {
        Some(problem) => is_read_as(alloc, &problem, text, wanted),
        None => false,
    }
}

// A problem with one constant, whose conjecture is told of each element.
const ONE_CONSTANT: &[u8] = b"fof(a1,axiom,p(c)). fof(g,conjecture,! [X] : p(X)).";

// An equivalence, both quantifiers and equality.
const RELATIONS: &[u8] = b"fof(a1,axiom,! [X] : (p(X) <=> q(X))).
fof(a2,axiom,! [X] : ? [Y] : r(X,Y)).
fof(a3,axiom,! [X,Y] : (r(X,Y) => (p(X) | p(Y)))).
fof(a4,axiom,! [X,Y] : (X = Y | r(X,Y))).
fof(g,conjecture,! [X] : p(X)).";

// Problems, each with the text of a structure and with what that is to the problem.
const OUTCOMES: &[(&[u8], &[u8], Outcome)] = &[
    (
        ONE_CONSTANT,
        b"model 1. size 2. place c is 0. fact p(0).",
        Outcome::Countermodel,
    ),
    (
        ONE_CONSTANT,
        b"model 1. size 2. place c is 0. fact p(0). fact p(1).",
        Outcome::Fails(2),
    ),
    (
        ONE_CONSTANT,
        b"model 1. size 2. place c is 0. fact p(1).",
        Outcome::Fails(1),
    ),
    (
        ONE_CONSTANT,
        b"model 1. size 2. fact p(0).",
        Outcome::NoPlace(1),
    ),
    // a fact of the predicate's name is none of it where it has another number of arguments
    (
        ONE_CONSTANT,
        b"model 1. size 1. place c is 0. fact p. fact p(0,0).",
        Outcome::Fails(1),
    ),
    // without a conjecture
    (b"", b"model 1. size 1.", Outcome::Countermodel),
    (
        RELATIONS,
        b"model 1. size 2. fact p(0). fact q(0). fact r(0,1). fact r(1,0).",
        Outcome::Countermodel,
    ),
    (
        RELATIONS,
        b"model 1. size 2. fact p(0). fact r(0,1). fact r(1,0).",
        Outcome::Fails(1),
    ),
    (
        RELATIONS,
        b"model 1. size 2. fact p(0). fact q(0). fact r(0,1).",
        Outcome::Fails(2),
    ),
    (
        RELATIONS,
        b"model 1. size 2. fact p(0). fact q(0). fact r(0,1). fact r(1,1).",
        Outcome::Fails(3),
    ),
    (
        RELATIONS,
        b"model 1. size 2. fact p(0). fact q(0). fact r(0,0). fact r(1,0).",
        Outcome::Fails(4),
    ),
    (
        RELATIONS,
        b"model 1. size 1. fact p(0). fact q(0). fact r(0,0).",
        Outcome::Fails(5),
    ),
];

#[test]
fn each_structure_is_a_countermodel_or_told_why_not(rt: HostRuntime) -> Result<(), Fail> {
    for (problem, text, wanted) in OUTCOMES {
        assert!(rt; is_outcome(rt.alloc(), problem, text, *wanted));
    }
    Ok(())
}
