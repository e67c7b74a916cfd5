use include_flat::{FlatRefusal, FlatWhy, flatten};
use io_core::MemoryFiles;
use logic_core::Problem;
use std::test::Fail;

// Whether a problem has two formulas with these names.
fn are_named(problem: &Problem, first: &[u8], second: &[u8]) -> bool {
    match problem.as_slice() {
        [one, other] => one.name.bytes() == first && other.name.bytes() == second,
        _ => false,
    }
}

// Whether a problem is refused for the depth of this file.
fn is_too_deep(answer: &Result<Problem, FlatRefusal>, file: &[u8]) -> bool {
    match answer {
        Ok(_) => false,
        Err(refusal) => {
            refusal.file.as_slice() == file && matches!(refusal.why, FlatWhy::IncludeDepth)
        }
    }
}

#[test]
fn a_problem_stands_with_the_formulas_that_it_includes(rt: HostRuntime) -> Result<(), Fail> {
    let mut files = MemoryFiles::new(rt.alloc());
    files.insert(b"x.p", b"include('a',[v]). fof(g,conjecture,p).")?;
    files.insert(b"a", b"fof(u,axiom,q). fof(v,axiom,p).")?;
    let problem = flatten(rt.alloc(), &mut files, b"x.p")?;
    assert!(rt; are_named(&problem, b"v", b"g"));
    Ok(())
}

#[test]
fn a_file_that_includes_itself_is_too_deep(rt: HostRuntime) -> Result<(), Fail> {
    let mut files = MemoryFiles::new(rt.alloc());
    files.insert(b"x.p", b"include('x.p').")?;
    assert!(rt; is_too_deep(&flatten(rt.alloc(), &mut files, b"x.p"), b"x.p"));
    Ok(())
}
