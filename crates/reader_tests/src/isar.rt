use crate::tasks::problem_of;
use coherent_form::Task;
use isar_text::{IsarRefusal, read_isar, write_isar};
use logic_core::Problem;
use proof_checker::check_script;
use proof_text::{read_script, write_script};
use std::alloc::Global;
use std::test::Fail;

/// A problem with one fact, and the text of its proof in Isar.
const ONE_FACT: &[u8] = b"fof(a1,axiom,p(c)). fof(g,conjecture,p(c)).";

const ONE_FACT_TEXT: &[u8] = b"lemma larus:
  fixes c
  assumes A1: \"p c\"
  assumes L0: \"True\"
  shows \"p c\"
proof -
  have L1: \"p c\" using A1 (* [] *) by blast
  show ?thesis using L1 (* as 1 [] *) by blast
qed
";

// Problems, each with a proof in its canonical text and its text in Isar.
const TEXTS: &[(&[u8], &[u8], &[u8])] = &[
    (
        ONE_FACT,
        b"vernacular 1.
take [].
mp a1 [] new [] gives p(c).
as 1 [].
",
        ONE_FACT_TEXT,
    ),
    // a split
    (
        b"fof(a1,axiom,p(c) | q(c)). fof(a2,axiom,! [X] : (p(X) => r(X))).
fof(a3,axiom,! [X] : (q(X) => r(X))). fof(g,conjecture,r(c)).",
        b"vernacular 1.
take [].
mp a1 [] new [] gives p(c) | q(c).
cs 1.
case p(c).
  mp a2 [c] new [] gives r(c).
  as 1 [].
case q(c).
  mp a3 [c] new [] gives r(c).
  as 1 [].
end.
",
        b"lemma larus:
  fixes c
  assumes A1: \"p c | q c\"
  assumes A2: \"ALL X0. p X0 --> r X0\"
  assumes A3: \"ALL X0. q X0 --> r X0\"
  assumes L0: \"True\"
  shows \"r c\"
proof -
  have L1: \"p c | q c\" using A1 (* [] *) by blast
  show ?thesis using L1
  proof (elim disjE)
    assume L2: \"p c\"
    have L3: \"r c\" using A2 L2 (* [c] *) by blast
    show ?thesis using L3 (* as 1 [] *) by blast
  next
    assume L2: \"q c\"
    have L3: \"r c\" using A3 L2 (* [c] *) by blast
    show ?thesis using L3 (* as 1 [] *) by blast
  qed
qed
",
    ),
    // names that are no words of the fragment
    (
        b"fof(a1,axiom,p(x_a,'A b')). fof(g,conjecture,p(x_a,'A b')).",
        b"vernacular 1.
take [].
mp a1 [] new [] gives p(x_a,'A b').
as 1 [].
",
        b"lemma larus:
  fixes x_785f61 x_412062
  assumes A1: \"p x_785f61 x_412062\"
  assumes L0: \"True\"
  shows \"p x_785f61 x_412062\"
proof -
  have L1: \"p x_785f61 x_412062\" using A1 (* [] *) by blast
  show ?thesis using L1 (* as 1 [] *) by blast
qed
",
    ),
];

/// Whether the text in Isar of a proof of a task, of at most 1,000,000 bytes, is this one.
fn is_written(alloc: Global, task: &Task, proof: &[u8], text: &[u8]) -> bool {
    if proof.len() > 1_000_000 {
        return false;
    }
    let Ok(script) = read_script(alloc, proof) else {
        return false;
    };
    match check_script(alloc, task, &script) {
        Ok(proof) => match write_isar(alloc, task, &proof) {
            Ok(written) => written.as_slice() == text,
            Err(_) => false,
        },
        Err(_) => false,
    }
}

/// Whether a text of a task, of at most 1,000,000 bytes, spells the script with this text.
fn is_read(alloc: Global, task: &Task, text: &[u8], proof: &[u8]) -> bool {
    if text.len() > 1_000_000 {
        return false;
    }
    match read_isar(alloc, task, text) {
        Ok(script) => match write_script(alloc, &script) {
            Ok(written) => written.as_slice() == proof,
            Err(_) => false,
        },
        Err(_) => false,
    }
}

/// Whether a proof of a problem is written so, and read back.
fn goes_both_ways(alloc: Global, problem: &Problem, proof: &[u8], text: &[u8]) -> bool {
    match Task::build(alloc, problem) {
        Ok(task) => is_written(alloc, &task, proof, text) && is_read(alloc, &task, text, proof),
        Err(_) => false,
    }
}

#[test]
fn each_proof_is_written_in_isar_and_read_back(rt: HostRuntime) -> Result<(), Fail> {
    for (problem, proof, text) in TEXTS {
        assert!(rt;
            match problem_of(rt.alloc(), problem) {
                Some(problem) => goes_both_ways(rt.alloc(), &problem, proof, text),
                None => false,
            }
        );
    }
    Ok(())
}

/// Whether a text of a problem, of at most 1,000,000 bytes, is refused at the head or as syntax, at
/// this place.
fn is_refused(alloc: Global, problem: &Problem, text: &[u8], is_head: bool, place: u32) -> bool {
    if text.len() > 1_000_000 {
        return false;
    }
    let Ok(task) = Task::build(alloc, problem) else {
        return false;
    };
    match read_isar(alloc, &task, text) {
        Err(IsarRefusal::Head(at)) => is_head && at == place,
        Err(IsarRefusal::Syntax(at)) => !is_head && at == place,
        _ => false,
    }
}

// Texts of the problem with one fact that are refused, each with whether it is refused at the head,
// and the place.
const REFUSED: &[(&[u8], bool, u32)] = &[
    (b"", true, 0),
    // the head of another problem
    (
        b"lemma larus:
  fixes c
  assumes A1: \"p c | q c\"
",
        true,
        41,
    ),
    // without its last line
    (
        b"lemma larus:
  fixes c
  assumes A1: \"p c\"
  assumes L0: \"True\"
  shows \"p c\"
proof -
  have L1: \"p c\" using A1 (* [] *) by blast
  show ?thesis using L1 (* as 1 [] *) by blast
",
        false,
        177,
    ),
    // with a second last line
    (
        b"lemma larus:
  fixes c
  assumes A1: \"p c\"
  assumes L0: \"True\"
  shows \"p c\"
proof -
  have L1: \"p c\" using A1 (* [] *) by blast
  show ?thesis using L1 (* as 1 [] *) by blast
qed
qed
",
        false,
        181,
    ),
];

#[test]
fn each_refusal_is_told_at_its_place(rt: HostRuntime) -> Result<(), Fail> {
    for (text, is_head, place) in REFUSED {
        assert!(rt;
            match problem_of(rt.alloc(), ONE_FACT) {
                Some(problem) => is_refused(rt.alloc(), &problem, text, *is_head, *place),
                None => false,
            }
        );
    }
    Ok(())
}
