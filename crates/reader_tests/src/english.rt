use crate::tasks::problem_of;
use coherent_form::Task;
use english_text::write_english;
use logic_core::Problem;
use proof_checker::check_script;
use proof_text::read_script;
use std::alloc::Global;
use std::test::Fail;

// Problems, each with a proof and its English text.
const TEXTS: &[(&[u8], &[u8], &[u8])] = &[
    // a split
    (
        b"fof(a1,axiom,p(c) | q(c)). fof(a2,axiom,! [X] : (p(X) => r(X))).
fof(a3,axiom,! [X] : (q(X) => r(X))). fof(g,conjecture,r(c)).",
        b"vernacular 1. take []. mp a1 [] new [] gives p(c) | q(c). cs 1.
case p(c). mp a2 [c] new [] gives r(c). as 1 [].
case q(c). mp a3 [c] new [] gives r(c). as 1 []. end.",
        b"By a1, p(c) or q(c).
Split on p(c) or q(c).
Case p(c).
  By a2 for c, r(c).
  So r(c), which was to be shown.
Case q(c).
  By a3 for c, r(c).
  So r(c), which was to be shown.
",
    ),
    // falsehood
    (
        b"fof(a1,axiom,p(c)). fof(a2,axiom,! [X] : (p(X) => $false)). fof(g,conjecture,s(d)).",
        b"vernacular 1. take []. mp a1 [] new [] gives p(c). mp a2 [c] new [] gives $false. efq.",
        b"By a1, p(c).
By a2 for c, a contradiction.
This is a contradiction.
",
    ),
    // a premise of the goal, a witness, a complement, and names that a reader chose
    (
        b"fof(next,axiom,! [X] : (node(X) => ? [Y] : (edge(X,Y) & node(Y)))).
fof(loop,axiom,! [X] : (edge(X,X) => $false)).
fof(less,axiom,! [X,Y] : (edge(X,Y) => (X = Y | (less(X,Y) & ~ less(Y,X))))).
fof(goal,conjecture,! [A] : (node(A) => ? [B] : less(A,B))).",
        b"vernacular 2. take [a]. mp next with [X = a] new [b].
mp less with [X = a,Y = b] new []. cs 2.
case. mp $sym with [V0 = a,V1 = b] new []. mp $sub(edge,2,2) with [V0 = a,V1 = b,V2 = a] new [].
mp loop with [X = a] new []. efq.
case. as 1 [b]. end.",
        b"Let w0 be given.
Suppose node(w0).
By next for w0, edge(w0,w1) and node(w1) for some w1.
By less for w0, w1, w0 = w1 or (less(w0,w1) and not less(w1,w0)).
Split on w0 = w1 or (less(w0,w1) and not less(w1,w0)).
Case w0 = w1.
  By $sym for w0, w1, w1 = w0.
  By $sub(edge,2,2) for w0, w1, w0, edge(w0,w0).
  By loop for w0, a contradiction.
  This is a contradiction.
Case less(w0,w1) and not less(w1,w0).
  So less(w0,w1), which was to be shown.
",
    ),
    // two parameters, an inequality, no facts, a split inside a split, a quoted name
    (
        b"fof('A',axiom,? [X,Y] : ('P'(X,'C') | $true)).
fof(g,conjecture,! [A,B] : (A = B | $true | A != B)).",
        b"vernacular 1. take [x,y]. mp 'A' [] new [u,v] gives 'P'(u,'C') | $true. cs 1.
case 'P'(u,'C'). mp $or(=,2) [x,y] new [] gives x = y | x != y. cs 3.
case x = y. as 1 []. case x != y. as 3 []. end. case $true. as 2 []. end.",
        b"Let w1, w2 be given.
By 'A', 'P'(w3,'C') or true for some w3, w4.
Split on 'P'(w3,'C') or true.
Case 'P'(w3,'C').
  By $or(=,2) for w1, w2, w1 = w2 or w1 != w2.
  Split on w1 = w2 or w1 != w2.
  Case w1 = w2.
    So w1 = w2, which was to be shown.
  Case w1 != w2.
    So w1 != w2, which was to be shown.
Case true.
  So true, which was to be shown.
",
    ),
];

/// Whether the text of a proof of a task, of at most 1,000,000 bytes, is told so.
fn is_told(alloc: Global, task: &Task, proof: &[u8], told: &[u8]) -> bool {
    if proof.len() > 1_000_000 {
        return false;
    }
    let Ok(script) = read_script(alloc, proof) else {
        return false;
    };
    match check_script(alloc, task, &script) {
        Ok(proof) => match write_english(alloc, task, &proof) {
            Ok(text) => text.as_slice() == told,
            Err(_) => false,
        },
        Err(_) => false,
    }
}

/// Whether a proof of a problem is told so.
fn is_told_of(alloc: Global, problem: &Problem, proof: &[u8], told: &[u8]) -> bool {
    match Task::build(alloc, problem) {
        Ok(task) => is_told(alloc, &task, proof, told),
        Err(_) => false,
    }
}

#[test]
fn each_proof_is_told_in_english(rt: HostRuntime) -> Result<(), Fail> {
    for (problem, proof, told) in TEXTS {
        assert!(rt;
            match problem_of(rt.alloc(), problem) {
                Some(problem) => is_told_of(rt.alloc(), &problem, proof, told),
                None => false,
            }
        );
    }
    Ok(())
}
