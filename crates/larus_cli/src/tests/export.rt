//! `export`.

use super::running::{ENGLISH, ISAR, Row, assert_answered};
use problem_suite::examples::{
    FALSEHOOD_ENGLISH, FALSEHOOD_PROBLEM, FALSEHOOD_PROOF, SPLIT_ENGLISH, SPLIT_ISAR,
    SPLIT_PROBLEM, SPLIT_PROOF,
};
use std::test::Fail;

#[test]
fn a_proof_is_exported(rt: HostRuntime) -> Result<(), Fail> {
    assert_answered(
        &rt,
        rt.alloc(),
        ENGLISH,
        &[
            (SPLIT_PROBLEM, SPLIT_PROOF, 0, SPLIT_ENGLISH),
            (FALSEHOOD_PROBLEM, FALSEHOOD_PROOF, 0, FALSEHOOD_ENGLISH),
        ],
    )?;
    let rows: &[Row] = &[(SPLIT_PROBLEM, SPLIT_PROOF, 0, SPLIT_ISAR)];
    assert_answered(&rt, rt.alloc(), ISAR, rows)
}
