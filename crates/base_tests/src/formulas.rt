use logic_core::{Fof, Formula, Item, Items, Name, Problem, Role, Term};
use std::test::Fail;

#[test]
fn a_formula_is_copied(rt: HostRuntime) -> Result<(), Fail> {
    let copy = Formula::True.try_copy(rt.alloc())?;
    assert!(rt; matches!(copy, Formula::True));
    Ok(())
}

#[test]
fn a_term_is_copied(rt: HostRuntime) -> Result<(), Fail> {
    let term = Term::Constant(Name::from_bytes(rt.alloc(), b"c")?);
    let copy = term.try_copy(rt.alloc())?;
    assert!(rt; matches!(&copy, Term::Constant(name) if name.bytes() == b"c".as_slice()));
    Ok(())
}

#[test]
fn items_and_problems_take_what_is_allowed(rt: HostRuntime) -> Result<(), Fail> {
    let alloc = rt.alloc();
    let mut items = Items::new(alloc);
    items.push(Item::Include {
        file: Name::from_bytes(alloc, b"b")?,
        only: None,
    })?;
    assert_eq!(rt; items.as_slice().len(), 1);
    assert_eq!(rt; items.into_list().len(), 1);
    let mut problem = Problem::new(alloc);
    problem.push(Fof {
        name: Name::from_bytes(alloc, b"g")?,
        role: Role::Conjecture,
        formula: Formula::True,
    })?;
    assert_eq!(rt; problem.as_slice().len(), 1);
    Ok(())
}
