use signature::Tables;
use std::alloc::Global;
use std::test::Fail;
use text_core::{Memory, Name};

// Whether a symbol of arity 3 and a constant, both with this name, are the first of their tables.
fn are_first(tables: &mut Tables, name: &Name) -> Result<bool, Memory> {
    if tables.symbols() > 1 || tables.constants() > 0 {
        return Ok(false);
    }
    Ok(tables.symbol(name, 3)? == 1 && tables.constant(name)? == 0)
}

// Whether the symbol of arity 3 with this name is found, with what it was given.
fn is_symbol(tables: &Tables, name: &Name) -> bool {
    match tables.find_symbol(name, 3) {
        Some(number) if 0 < number && number < tables.symbols() => {
            tables.arity(number) == 3 && tables.symbol_name(number).bytes() == name.bytes()
        }
        _ => false,
    }
}

// Whether the constant with this name is found, with its name.
fn is_constant(tables: &Tables, name: &Name) -> bool {
    match tables.find_constant(name) {
        Some(number) if number < tables.constants() => {
            tables.constant_name(number).bytes() == name.bytes()
        }
        _ => false,
    }
}

// Whether a symbol and a constant are found behind their numbering.
fn are_found(alloc: Global, tables: &mut Tables) -> Result<bool, Memory> {
    let name = Name::from_bytes(alloc, b"p")?;
    Ok(are_first(tables, &name)? && is_symbol(tables, &name) && is_constant(tables, &name))
}

#[test]
fn what_is_numbered_is_found(rt: HostRuntime) -> Result<(), Fail> {
    let mut tables = Tables::new(rt.alloc())?;
    let found = are_found(rt.alloc(), &mut tables);
    assert!(rt; matches!(found, Ok(true)));
    Ok(())
}
