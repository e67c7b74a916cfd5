use coherent_form::Task;
use logic_core::Form;
use vernacular_tree::Context;

/// What a search looks at: the task, a form for each disjunct of its goal, and the context that was
/// lent.
#[derive(Clone, Copy)]
pub(crate) struct Scene<'b> {
    pub(crate) task: &'b Task,
    pub(crate) answers: &'b [Form],
    pub(crate) lent: &'b Context,
}
