//! The texts of worked examples that tests of more than one crate read. Each problem is one file,
//! but for the geometry, and each proof is for the problem of the same name.

/// One axiom, which is the conjecture.
pub const ONE_AXIOM_PROBLEM: &[u8] = b"fof(a1,axiom,p(c)). fof(g,conjecture,p(c)).";

/// A proof of size 2.
pub const ONE_AXIOM_PROOF: &[u8] = b"vernacular 1. take []. mp a1 [] new [] gives p(c). as 1 [].";

/// Nothing is to be shown.
pub const TRUTH_PROBLEM: &[u8] = b"fof(g,conjecture,$true).";

/// The canonical proof of size 1, which is the least.
pub const TRUTH_PROOF: &[u8] = b"vernacular 1.
take [].
as 1 [].
";

/// Every element has a successor, and no constant is there.
pub const WITNESS_PROBLEM: &[u8] =
    b"fof(a1,axiom,! [X] : ? [Y] : r(X,Y)). fof(g,conjecture,? [U,V] : r(U,V)).";

/// The canonical proof of size 2, which is the least.
pub const WITNESS_PROOF: &[u8] = b"vernacular 1.
take [].
mp a1 [w0] new [w1] gives r(w0,w1).
as 1 [w0,w1].
";

/// A disjunction, and an implication from each side.
pub const SPLIT_PROBLEM: &[u8] = b"fof(a1,axiom,p(c) | q(c)). fof(a2,axiom,! [X] : (p(X) => r(X))).
fof(a3,axiom,! [X] : (q(X) => r(X))). fof(g,conjecture,r(c)).";

/// The canonical proof of size 6, which is the least.
pub const SPLIT_PROOF: &[u8] = b"vernacular 1.
take [].
mp a1 [] new [] gives p(c) | q(c).
cs 1.
case p(c).
  mp a2 [c] new [] gives r(c).
  as 1 [].
case q(c).
  mp a3 [c] new [] gives r(c).
  as 1 [].
end.
";

/// The same proof in Isar.
pub const SPLIT_ISAR: &[u8] = b"lemma larus:
  fixes c
  assumes A1: \"p c | q c\"
  assumes A2: \"ALL X0. p X0 --> r X0\"
  assumes A3: \"ALL X0. q X0 --> r X0\"
  assumes L0: \"True\"
  shows \"r c\"
proof -
  have L1: \"p c | q c\" using A1 (* [] *) by blast
  show ?thesis using L1
  proof (elim disjE)
    assume L2: \"p c\"
    have L3: \"r c\" using A2 L2 (* [c] *) by blast
    show ?thesis using L3 (* as 1 [] *) by blast
  next
    assume L2: \"q c\"
    have L3: \"r c\" using A3 L2 (* [c] *) by blast
    show ?thesis using L3 (* as 1 [] *) by blast
  qed
qed
";

/// The same proof in English.
pub const SPLIT_ENGLISH: &[u8] = b"By a1, p(c) or q(c).
Split on p(c) or q(c).
Case p(c).
  By a2 for c, r(c).
  So r(c), which was to be shown.
Case q(c).
  By a3 for c, r(c).
  So r(c), which was to be shown.
";

/// The axioms contradict one another.
pub const FALSEHOOD_PROBLEM: &[u8] =
    b"fof(a1,axiom,p(c)). fof(a2,axiom,! [X] : (p(X) => $false)). fof(g,conjecture,s(d)).";

/// The canonical proof of size 3, which is the least.
pub const FALSEHOOD_PROOF: &[u8] = b"vernacular 1.
take [].
mp a1 [] new [] gives p(c).
mp a2 [c] new [] gives $false.
efq.
";

/// The same proof in English.
pub const FALSEHOOD_ENGLISH: &[u8] = b"By a1, p(c).
By a2 for c, a contradiction.
This is a contradiction.
";

/// The witness of the axiom is not the constant of the conjecture.
pub const TAKEN_WITNESS_PROBLEM: &[u8] = b"fof(a1,axiom,? [X] : p(X)). fof(g,conjecture,p(d)).";

/// No proof: it gives the witness the constant's name.
pub const TAKEN_WITNESS_PROOF: &[u8] =
    b"vernacular 1. take []. mp a1 [] new [d] gives p(d). as 1 [].";

/// A disjunction, and an implication with a witness from each side.
pub const SIBLINGS_PROBLEM: &[u8] =
    b"fof(a1,axiom,p(c) | q(c)). fof(a2,axiom,! [X] : (p(X) => ? [Y] : r(X,Y))).
fof(a3,axiom,! [X] : (q(X) => ? [Y] : r(X,Y))). fof(g,conjecture,? [U,V] : r(U,V)).";

/// A proof of size 6, in which both cases give their witness one name.
pub const SIBLINGS_PROOF: &[u8] = b"vernacular 1. take []. mp a1 [] new [] gives p(c) | q(c). cs 1.
case p(c). mp a2 [c] new [d] gives r(c,d). as 1 [c,d].
case q(c). mp a3 [c] new [d] gives r(c,d). as 1 [c,d]. end.";

/// A predicate that is negated in the conjecture.
pub const COMPLEMENT_PROBLEM: &[u8] =
    b"fof(a1,axiom,! [X] : (p(X) => q(X))). fof(g,conjecture,~ p(c) | q(c)).";

/// The canonical proof of size 5, which is the least.
pub const COMPLEMENT_PROOF: &[u8] = b"vernacular 1.
take [].
mp $or(p,1) [c] new [] gives p(c) | ~p(c).
cs 1.
case p(c).
  mp a1 [c] new [] gives q(c).
  as 2 [].
case ~p(c).
  as 1 [].
end.
";

/// An equal element has the predicate. A least proof has size 4, and there are several.
pub const EQUALITY_PROBLEM: &[u8] =
    b"fof(e,axiom,a = b). fof(f,axiom,p(a)). fof(g,conjecture,p(b)).";

/// An existential variable has the name of a universal one.
pub const SHADOWED_PROBLEM: &[u8] = b"fof(a1,axiom,! [X] : (p(X) => ? [X] : q(X))).
fof(a2,axiom,p(c)). fof(g,conjecture,? [Z] : q(Z)).";

/// The canonical proof of size 3, which is the least.
pub const SHADOWED_PROOF: &[u8] = b"vernacular 1.
take [].
mp a2 [] new [] gives p(c).
mp a1 [c] new [w1] gives q(w1).
as 1 [w1].
";

/// Two axioms of one name.
pub const SAME_NAMES_PROBLEM: &[u8] =
    b"fof(a,axiom,p(c)). fof(a,axiom,q(c)). fof(g,conjecture,q(c)).";

/// The canonical proof of size 2, which is the least. It cites the second axiom by its rank.
pub const SAME_NAMES_PROOF: &[u8] = b"vernacular 1.
take [].
mp a:2 [] new [] gives q(c).
as 1 [].
";

/// A goal with a parameter and a premise.
pub const PARAMETER_PROBLEM: &[u8] =
    b"fof(a1,axiom,p(c) | q(c)). fof(a2,axiom,! [X] : (p(X) => r(X))).
fof(a3,axiom,! [X] : (q(X) => ? [Y] : s(X,Y))).
fof(g,conjecture,! [Z] : (t(Z) => (r(c) | ? [U] : s(c,U)))).";

/// Seven statements after Tarski's axioms, the file that the geometry includes as `tarski.ax`.
pub const GEOMETRY_AXIOMS: &[u8] =
    b"% Seven statements after Tarski's axioms, each in coherent form.
fof(cong_pseudo,axiom,! [A,B] : cong(A,B,B,A)).
fof(cong_trans,axiom,! [A,B,C,D,E,F] :
    ((cong(A,B,C,D) & cong(A,B,E,F)) => cong(C,D,E,F))).
fof(cong_identity,axiom,! [A,B,C] : (cong(A,B,C,C) => A = B)).
fof(segment,axiom,! [A,B,C,D] : ? [E] : (bet(A,B,E) & cong(B,E,C,D))).
fof(five_segment,axiom,! [A,B,C,D,A1,B1,C1,D1] :
    ((A != B & bet(A,B,C) & bet(A1,B1,C1) & cong(A,B,A1,B1) & cong(B,C,B1,C1)
      & cong(A,D,A1,D1) & cong(B,D,B1,D1)) => cong(C,D,C1,D1))).
fof(bet_identity,axiom,! [A,B] : (bet(A,B,A) => A = B)).
fof(pasch,axiom,! [A,B,C,P,Q] : ((bet(A,P,C) & bet(B,Q,C))
    => ? [X] : (bet(P,X,B) & bet(Q,X,A)))).
";

/// Two points are one, or there is a point beyond the second.
pub const GEOMETRY_PROBLEM: &[u8] = b"include('tarski.ax').
fof(beyond,conjecture,! [A,B] : (A = B | ? [C] : (bet(A,B,C) & B != C))).";

/// A proof of size 13, in an author's names and with a comment.
pub const GEOMETRY_PROOF: &[u8] = b"vernacular 1. /* a point beyond b */ take [a,b].
mp $or(=,2) [a,b] new [] gives a = b | a != b. cs 1. case a = b. as 1 [a]. case a != b.
mp segment [a,b,a,b] new [e] gives bet(a,b,e) & cong(b,e,a,b).
mp $or(=,2) [b,e] new [] gives b = e | b != e. cs 4. case b = e.
mp cong_pseudo [b,e] new [] gives cong(b,e,e,b).
mp cong_trans [b,e,a,b,e,b] new [] gives cong(a,b,e,b). mp $sym [b,e] new [] gives e = b.
mp $sub(cong,4,3) [a,b,e,b,b] new [] gives cong(a,b,b,b).
mp cong_identity [a,b,b] new [] gives a = b. as 1 [a]. case b != e. as 2 [e]. end. end.";

/// The same proof in canonical text.
pub const GEOMETRY_CANONICAL: &[u8] = b"vernacular 1.
take [w0,w1].
mp $or(=,2) [w0,w1] new [] gives w0 = w1 | w0 != w1.
cs 1.
case w0 = w1.
  as 1 [w0].
case w0 != w1.
  mp segment [w0,w1,w0,w1] new [w2] gives bet(w0,w1,w2) & cong(w1,w2,w0,w1).
  mp $or(=,2) [w1,w2] new [] gives w1 = w2 | w1 != w2.
  cs 4.
  case w1 = w2.
    mp cong_pseudo [w1,w2] new [] gives cong(w1,w2,w2,w1).
    mp cong_trans [w1,w2,w0,w1,w2,w1] new [] gives cong(w0,w1,w2,w1).
    mp $sym [w1,w2] new [] gives w2 = w1.
    mp $sub(cong,4,3) [w0,w1,w2,w1,w1] new [] gives cong(w0,w1,w1,w1).
    mp cong_identity [w0,w1,w1] new [] gives w0 = w1.
    as 1 [w0].
  case w1 != w2.
    as 2 [w2].
  end.
end.
";

/// Problems of one file, each with its one least proof in canonical text, and the size of that
/// proof.
pub const LEAST_PROOFS: &[(&[u8], &[u8], u32)] = &[
    (TRUTH_PROBLEM, TRUTH_PROOF, 1),
    (WITNESS_PROBLEM, WITNESS_PROOF, 2),
    (SAME_NAMES_PROBLEM, SAME_NAMES_PROOF, 2),
    (FALSEHOOD_PROBLEM, FALSEHOOD_PROOF, 3),
    (SHADOWED_PROBLEM, SHADOWED_PROOF, 3),
    (COMPLEMENT_PROBLEM, COMPLEMENT_PROOF, 5),
    (SPLIT_PROBLEM, SPLIT_PROOF, 6),
];
