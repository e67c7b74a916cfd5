use clause_solver::{Answer, Literal, Solver};
use std::alloc::Global;
use std::test::Fail;
use text_core::Memory;

// A literal as DIMACS writes it: -3 is the opposite of variable 3.
fn literal(number: i32) -> Literal {
    Literal {
        variable: number.unsigned_abs(),
        positive: number > 0,
    }
}

// Adds a clause of at most three literals; 0 is none.
fn add_row(alloc: Global, solver: &mut Solver, row: &[i32; 3]) -> Result<(), Memory> {
    let mut clause = Vec::new(alloc);
    for number in row {
        if *number != 0 {
            clause.push(literal(*number))?;
        }
    }
    solver.add(clause.as_slice())
}

fn add_rows(alloc: Global, solver: &mut Solver, rows: &[[i32; 3]]) -> Result<(), Memory> {
    for row in rows {
        add_row(alloc, solver, row)?;
    }
    Ok(())
}

// Whether some literal of the row has the value that the solver tells.
fn is_true(solver: &Solver, row: &[i32; 3]) -> bool {
    for number in row {
        if *number != 0 && solver.value(number.unsigned_abs()) == Some(*number > 0) {
            return true;
        }
    }
    false
}

// Whether values are found at which each row is true.
fn are_met(solver: &mut Solver, rows: &[[i32; 3]]) -> bool {
    let answer = solver.solve();
    if !matches!(answer, Ok(Answer::Values)) {
        return false;
    }
    for row in rows {
        if !is_true(solver, row) {
            return false;
        }
    }
    true
}

fn has_no_values(solver: &mut Solver) -> bool {
    matches!(solver.solve(), Ok(Answer::None))
}

// Four pigeons, each in one of three holes, no two in one: variable 3 * pigeon + hole.
const PIGEONS: [[i32; 3]; 22] = [
    [1, 2, 3],
    [4, 5, 6],
    [7, 8, 9],
    [10, 11, 12],
    [-1, -4, 0],
    [-1, -7, 0],
    [-1, -10, 0],
    [-4, -7, 0],
    [-4, -10, 0],
    [-7, -10, 0],
    [-2, -5, 0],
    [-2, -8, 0],
    [-2, -11, 0],
    [-5, -8, 0],
    [-5, -11, 0],
    [-8, -11, 0],
    [-3, -6, 0],
    [-3, -9, 0],
    [-3, -12, 0],
    [-6, -9, 0],
    [-6, -12, 0],
    [-9, -12, 0],
];

// The order of three things: 1 before 2 before 3, told by six variables, and some more.
const ORDER: [[i32; 3]; 8] = [
    [1, 2, 0],
    [-1, -2, 0],
    [3, 4, 0],
    [-3, -4, 0],
    [5, 6, 0],
    [-5, -6, 0],
    [-1, -3, 5],
    [-2, -4, 6],
];

// What excludes each of the values that ORDER leaves.
const FURTHER: [[i32; 3]; 4] = [[-1, -3, 0], [-1, 3, 0], [1, -3, 0], [1, 3, 0]];

#[test]
fn four_pigeons_have_no_three_holes(rt: HostRuntime) -> Result<(), Fail> {
    let mut solver = Solver::new(rt.alloc());
    let added = add_rows(rt.alloc(), &mut solver, &PIGEONS).is_ok();
    assert!(rt; added && has_no_values(&mut solver));
    Ok(())
}

#[test]
fn values_are_found_and_further_clauses_count(rt: HostRuntime) -> Result<(), Fail> {
    let mut solver = Solver::new(rt.alloc());
    let mut right = add_rows(rt.alloc(), &mut solver, &ORDER).is_ok();
    right = right && are_met(&mut solver, &ORDER);
    for row in &FURTHER {
        right = right && add_row(rt.alloc(), &mut solver, row).is_ok();
    }
    assert!(rt; right && has_no_values(&mut solver));
    Ok(())
}

#[test]
fn the_empty_clause_has_no_values(rt: HostRuntime) -> Result<(), Fail> {
    let mut solver = Solver::new(rt.alloc());
    let begun = are_met(&mut solver, &[]);
    let added = solver.add(&[]).is_ok();
    assert!(rt; begun && added && has_no_values(&mut solver));
    Ok(())
}
