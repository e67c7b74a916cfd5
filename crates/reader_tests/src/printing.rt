use include_flat::flatten;
use io_core::MemoryFiles;
use logic_core::{Bytes, Fof, Formula, Item, List, Memory, Name, Problem, Role};
use std::alloc::Global;
use std::test::Fail;
use tptp_printer::{print_item, print_problem};

#[test]
fn a_formula_is_printed_with_few_brackets(rt: HostRuntime) -> Result<(), Fail> {
    let mut files = MemoryFiles::new(rt.alloc());
    files.insert(b"x.p", b"fof(abc,axiom,(~ (a = b)) <= ((p & (q)))).")?;
    let problem = flatten(rt.alloc(), &mut files, b"x.p")?;
    let text = print_problem(rt.alloc(), &problem)?;
    assert!(rt; text.as_slice() == b"fof(abc,axiom,a != b <= (p & q)).\n".as_slice());
    Ok(())
}

// The text of the inclusion of `v` from the file `b`.
fn inclusion_text(alloc: Global) -> Result<Bytes, Memory> {
    let mut names = List::new(alloc);
    names.push(Name::from_bytes(alloc, b"v")?)?;
    let file = Name::from_bytes(alloc, b"b")?;
    let only = Some(names);
    print_item(alloc, &Item::Include { file, only })
}

#[test]
fn an_inclusion_is_printed_with_its_selection(rt: HostRuntime) -> Result<(), Fail> {
    let text = inclusion_text(rt.alloc())?;
    assert!(rt; text.as_slice() == b"include('b',[v]).\n".as_slice());
    Ok(())
}

// Adds the formula that is true, under this name.
fn adds_truth(problem: &mut Problem, name: Name, role: Role) -> Result<(), Memory> {
    if problem.as_slice().len() > 9 {
        return Ok(());
    }
    let formula = Formula::True;
    problem.push(Fof {
        name,
        role,
        formula,
    })
}

#[test]
fn names_are_printed_with_quotes_where_they_need_them(rt: HostRuntime) -> Result<(), Fail> {
    let alloc = rt.alloc();
    let mut problem = Problem::new(alloc);
    adds_truth(&mut problem, Name::from_bytes(alloc, b"12")?, Role::Lemma)?;
    adds_truth(&mut problem, Name::from_bytes(alloc, b"A b")?, Role::Lemma)?;
    adds_truth(
        &mut problem,
        Name::from_bytes(alloc, b"it's")?,
        Role::Conjecture,
    )?;
    let text = print_problem(alloc, &problem)?;
    assert!(rt;
        text.as_slice()
            == b"fof(12,lemma,$true).\nfof('A b',lemma,$true).\nfof('it\\'s',conjecture,$true).\n".as_slice()
    );
    Ok(())
}
