use logic_core::List;

/// An application of extended modus ponens: the number of a form, and one element for each of its
/// universal variables.
#[derive(Debug, Drop)]
pub struct Mp {
    pub form: u32,
    pub args: List<u32>,
}

/// A proof from some context: applications of extended modus ponens in order, and what closes the
/// branch.
#[cycle(body)]
#[derive(Debug, Drop)]
pub struct Body {
    pub steps: List<Mp>,
    pub end: End,
}

/// What closes a branch: a disjunct of the goal, counted from 1, with one element for each
/// existential variable of the goal; falsehood; or a split of a line of cases, with a proof for
/// each case.
#[cycle(body)]
#[derive(Debug, Drop)]
pub enum End {
    As { disjunct: u32, args: List<u32> },
    Efq,
    Cs { line: u32, branches: List<Body> },
}

/// A rule application of a proof in preorder. A split tells the number of its branches, which
/// follow it.
#[derive(Debug, Drop)]
pub enum Node {
    Mp { form: u32, args: List<u32> },
    Cs { line: u32, branches: u32 },
    As { disjunct: u32, args: List<u32> },
    Efq,
}
