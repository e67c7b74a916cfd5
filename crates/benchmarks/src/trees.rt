//! Takes two large trees through the calls of `Proof`, as often as the word says, or once: as many
//! rule applications in a row as a proof may have, and as many splits within one another. Prints
//! how many applications each has.

use crate::number;
use anyhow::Error;
use logic_core::{List, Memory};
use std::alloc::Global;
use text_core::{MOST_APPLICATIONS, MOST_SPLITS};
use vernacular_tree::{Node, Proof, TreeRefusal};

fn push_step(alloc: Global, nodes: &mut List<Node>) -> Result<(), Memory> {
    nodes.push(Node::Mp {
        form: 0,
        args: List::from_slice(alloc, &[0, 1])?,
    })
}

fn push_answer(alloc: Global, nodes: &mut List<Node>) -> Result<(), Memory> {
    nodes.push(Node::As {
        disjunct: 1,
        args: List::new(alloc),
    })
}

/// As many applications as a proof may have, without a split.
fn row(alloc: Global) -> Result<List<Node>, Memory> {
    let mut nodes = List::new(alloc);
    for _ in 1..MOST_APPLICATIONS {
        push_step(alloc, &mut nodes)?;
    }
    push_answer(alloc, &mut nodes)?;
    Ok(nodes)
}

/// As many splits within one another as a proof may have, each after 300 applications and with two
/// branches.
fn nest(alloc: Global) -> Result<List<Node>, Memory> {
    let mut nodes = List::new(alloc);
    for _ in 0..MOST_SPLITS {
        for _ in 0..300 {
            push_step(alloc, &mut nodes)?;
        }
        nodes.push(Node::Cs {
            line: 1,
            branches: 2,
        })?;
        push_answer(alloc, &mut nodes)?;
    }
    push_answer(alloc, &mut nodes)?;
    Ok(nodes)
}

/// Reads the nodes, copies the proof, lists the copy's nodes and reads them again, round after
/// round.
fn go_through(alloc: Global, nodes: &List<Node>, rounds: u32) -> Result<u32, TreeRefusal> {
    let mut size = 0;
    for _ in 0..rounds {
        let proof = Proof::from_nodes(alloc, nodes)?;
        let copy = proof.try_copy(alloc)?;
        let listed = copy.to_nodes(alloc)?;
        size = Proof::from_nodes(alloc, &listed)?.size();
    }
    Ok(size)
}

/// Takes one number: how many rounds.
pub(crate) fn run(rt: &HostRuntime, words: &[String]) -> Result<(), Error> {
    let alloc = rt.alloc();
    let rounds = number(words, 0)?;
    let out = rt.stdout();
    let row_size = go_through(alloc, &row(alloc).map_err(TreeRefusal::from)?, rounds)?;
    println!(out; "in a row: {row_size}")?;
    let nest_size = go_through(alloc, &nest(alloc).map_err(TreeRefusal::from)?, rounds)?;
    println!(out; "nested: {nest_size}")?;
    Ok(())
}
