/// A way in which a goal stands, or in which a branch is closed.
#[derive(Clone, Copy, Debug)]
pub enum Choice {
    /// The goal is a fact of a line of the context.
    Given { line: u32, number: u32 },
    /// The goal is a fact of the case with which a branch begins.
    Case { node: u32, number: u32 },
    /// The goal is a fact of a step.
    Step { step: u32, number: u32 },
    /// The goal is a fact of a new step by a form.
    Form { form: u32, number: u32 },
    /// The branch is closed by a disjunct of the goal of the task, told by its number from 0.
    Answer { disjunct: u32 },
    /// The branch is split by a line of the context.
    Line { line: u32 },
    /// The branch is split by a step.
    Old { step: u32 },
    /// The branch is split by a new step by a form.
    New { form: u32 },
}
