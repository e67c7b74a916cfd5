ghost use Rattle.std.specs.Prelude.{◌≡◌, ◌<◌, ◌≤◌};

use fact_store::Store;
use std::test::Fail;
use text_core::Memory;

// Adds a fact, after room was made for it.
fn adds(store: &mut Store, signed: u32, args: &[u32; 2], count: usize) -> Result<bool, Memory>
    requires range { signed < store.old.signed }
    requires count { count ≤ 2 }
    ensures { store.new.signed ≡ store.old.signed }
{
    if store.len() > 1_000_000 {
        return Ok(false);
    }
    store.reserve(1, 2)?;
    Ok(store.add(signed, &args[..count]))
}

// Adds three facts, and one of them again. Whether the last alone stood already.
fn adds_three(store: &mut Store) -> Result<bool, Memory>
    requires { store.old.signed ≡ 4 }
{
    let first = adds(store, 2, &[0, 0], 1)? && adds(store, 0, &[0, 0], 2)?;
    Ok(first && adds(store, 2, &[1, 0], 1)? && !adds(store, 2, &[0, 0], 1)?)
}

// Whether the chains are those of three facts, and those of one once two are taken back.
fn goes_back(store: &mut Store) -> bool {
    if store.len() != 3 || store.newest(2) != Some(2) || store.older(2) != Some(0) {
        return false;
    }
    store.undo(1);
    store.newest(2) == Some(0) && store.older(0).is_none() && !store.holds(2, &[1])
}

#[test]
fn chains_of_symbols(rt: HostRuntime) -> Result<(), Fail> {
    let mut store = Store::new(rt.alloc(), 4)?;
    let added = adds_three(&mut store);
    assert!(rt; matches!(added, Ok(true)) && goes_back(&mut store));
    Ok(())
}

// One turn in a store and in a plain list: an undo point, a way back to the last one, or a fact.
// Whether both agree.
fn turns_alike(
    store: &mut Store,
    list: &mut Vec<(u32, u32)>,
    points: &mut Vec<u32>,
    turn: u32,
) -> Result<bool, Fail>
    requires { 1 < store.old.signed }
    ensures { store.new.signed ≡ store.old.signed }
{
    if turn % 50 == 10 || turn % 50 == 20 {
        points.push(store.undo_point())?;
        return Ok(true);
    }
    if turn % 50 == 30 || turn % 50 == 40 {
        let point = points.pop().unwrap_or(0);
        list.truncate(point as usize);
        if point > store.len() {
            return Ok(false);
        }
        store.undo(point);
        return Ok(true);
    }
    let mixed = turn.wrapping_mul(2_654_435_761) >> 16;
    let fact = (mixed % 2, mixed % 97);
    let known = list.contains(&fact);
    if !known {
        list.push(fact)?;
    }
    let added = adds(store, fact.0, &[fact.1, 0], 1)?;
    Ok(added != known)
}

// Whether a store has exactly the facts of a list.
fn are_alike(store: &Store, list: &[(u32, u32)]) -> bool {
    if store.len() as usize != list.len() {
        return false;
    }
    for number in 0..store.len() {
        let (signed, element) = list[number as usize];
        if store.signed_of(number) != signed || store.args_of(number) != [element].as_slice() {
            return false;
        }
    }
    true
}

#[test]
fn as_a_list(rt: HostRuntime) -> Result<(), Fail> {
    let mut store = Store::new(rt.alloc(), 2)?;
    let mut list = Vec::new(rt.alloc());
    let mut points = Vec::new(rt.alloc());
    for turn in 0..1000 {
        let alike = turns_alike(&mut store, &mut list, &mut points, turn)?;
        assert!(rt; alike && are_alike(&store, &list));
    }
    assert!(rt; store.len() > 50);
    Ok(())
}
