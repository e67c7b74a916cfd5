use coherent_form::forms_of;
use logic_core::{Formula, List, Name};
use signature::Tables;
use std::test::Fail;

#[test]
fn an_atom_has_one_form(rt: HostRuntime) -> Result<(), Fail> {
    let mut tables = Tables::new(rt.alloc())?;
    let predicate = Name::from_bytes(rt.alloc(), b"p")?;
    let formula = Formula::Pred(predicate, List::new(rt.alloc()));
    let forms = forms_of(rt.alloc(), &formula, &mut tables)?;
    assert!(rt;
        match forms.as_slice() {
            [form] => form.premises.len() == 0 && form.disjuncts.len() == 1,
            _ => false,
        }
    );
    Ok(())
}
