use logic_core::{List, Memory};
use std::alloc::Global;
use std::test::Fail;
use text_core::{MOST_APPLICATIONS, MOST_SPLITS};
use vernacular_tree::{Body, End, Node, Proof, TreeRefusal};

fn mp(alloc: Global, form: u32, args: &[u32]) -> Result<Node, Memory> {
    Ok(Node::Mp {
        form,
        args: List::from_slice(alloc, args)?,
    })
}

fn answer(alloc: Global) -> Result<Node, Memory> {
    Ok(Node::As {
        disjunct: 1,
        args: List::new(alloc),
    })
}

/// A proof of r(c) from p(c) | q(c), p(X) => r(X) and q(X) => r(X): the first form, a split of line
/// 1, and in each case the form for it and the goal.
fn split_nodes(alloc: Global) -> Result<List<Node>, Memory> {
    let mut nodes = List::new(alloc);
    nodes.push(mp(alloc, 0, &[])?)?;
    nodes.push(Node::Cs {
        line: 1,
        branches: 2,
    })?;
    nodes.push(mp(alloc, 1, &[0])?)?;
    nodes.push(answer(alloc)?)?;
    nodes.push(mp(alloc, 2, &[0])?)?;
    nodes.push(answer(alloc)?)?;
    Ok(nodes)
}

fn are_same(one: &Node, other: &Node) -> bool {
    match (one, other) {
        (
            Node::Mp { form, args },
            Node::Mp {
                form: other_form,
                args: others,
            },
        ) => form == other_form && args.as_slice() == others.as_slice(),
        (
            Node::Cs { line, branches },
            Node::Cs {
                line: other_line,
                branches: other_branches,
            },
        ) => line == other_line && branches == other_branches,
        (
            Node::As { disjunct, args },
            Node::As {
                disjunct: other_disjunct,
                args: others,
            },
        ) => disjunct == other_disjunct && args.as_slice() == others.as_slice(),
        (Node::Efq, Node::Efq) => true,
        _ => false,
    }
}

fn are_same_nodes(nodes: &List<Node>, others: &List<Node>) -> bool {
    let mut all = nodes.len() == others.len();
    for (one, other) in nodes.as_slice().iter().zip(others.as_slice()) {
        all = all && are_same(one, other);
    }
    all
}

// Whether a copy of the proof of these nodes has them again.
fn goes_through_every_call(alloc: Global, nodes: &List<Node>) -> Result<bool, TreeRefusal> {
    let copy = Proof::from_nodes(alloc, nodes)?.try_copy(alloc)?;
    let again = copy.to_nodes(alloc)?;
    Ok(copy.size() as usize == nodes.len() && are_same_nodes(&again, nodes))
}

#[test]
fn split_goes_through_every_call(rt: HostRuntime) -> Result<(), Fail> {
    let nodes = split_nodes(rt.alloc())?;
    assert!(rt; goes_through_every_call(rt.alloc(), &nodes)?);
    Ok(())
}

#[test]
fn a_body_within_the_bounds_is_a_proof(rt: HostRuntime) -> Result<(), Fail> {
    let body = Body {
        steps: List::new(rt.alloc()),
        end: End::Efq,
    };
    assert!(rt; Proof::new(body).body().steps.len() == 0);
    Ok(())
}

/// So many steps in a row, and the answer behind them.
fn row(alloc: Global, steps: u32) -> Result<List<Node>, Memory> {
    let mut nodes = List::new(alloc);
    for _ in 0..steps {
        nodes.push(mp(alloc, 0, &[])?)?;
    }
    nodes.push(answer(alloc)?)?;
    Ok(nodes)
}

/// So many splits within one another, each of one case, and the answer behind them.
fn nest(alloc: Global, splits: u32) -> Result<List<Node>, Memory> {
    let mut nodes = List::new(alloc);
    for _ in 0..splits {
        nodes.push(Node::Cs {
            line: 1,
            branches: 1,
        })?;
    }
    nodes.push(answer(alloc)?)?;
    Ok(nodes)
}

#[test]
fn a_proof_has_at_most_so_many_applications(rt: HostRuntime) -> Result<(), Fail> {
    let most = row(rt.alloc(), MOST_APPLICATIONS - 1)?;
    assert!(rt; Proof::from_nodes(rt.alloc(), &most).is_ok());
    let more = row(rt.alloc(), MOST_APPLICATIONS)?;
    assert!(rt; Proof::from_nodes(rt.alloc(), &more).is_err());
    Ok(())
}

#[test]
fn a_proof_has_at_most_so_many_splits(rt: HostRuntime) -> Result<(), Fail> {
    let most = nest(rt.alloc(), MOST_SPLITS)?;
    assert!(rt; Proof::from_nodes(rt.alloc(), &most).is_ok());
    let more = nest(rt.alloc(), MOST_SPLITS + 1)?;
    assert!(rt; Proof::from_nodes(rt.alloc(), &more).is_err());
    Ok(())
}

#[test]
fn no_node_is_no_tree(rt: HostRuntime) -> Result<(), Fail> {
    let alloc = rt.alloc();
    let refused = Proof::from_nodes(alloc, &List::new(alloc));
    assert!(rt; matches!(refused, Err(TreeRefusal::NotATree)));
    assert_eq!(rt;
        format!(in alloc; "{}", TreeRefusal::NotATree)?.as_str(),
        "NotATree"
    );
    Ok(())
}
