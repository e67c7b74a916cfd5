ghost use Rattle.std.specs.Prelude.{◌≡◌, List};
ghost use Rattle.logic_core.specs.declared.problem.Fof.{Fof};
ghost use Rattle.coherent_form.specs.Tasks.{CitedTask, IsTaskFault, IsTaskOf};
ghost use Rattle.coherent_form.specs.declared.task_refusal.TaskRefusal.{TaskRefusal};

/// A problem has one task at most, one refusal at most, and never both.
pub fn one_task_or_refusal()
    ensures task { (problem : List Fof) (a b : CitedTask)
        → IsTaskOf problem a → IsTaskOf problem b → a ≡ b }
    ensures refusal { (problem : List Fof) (a b : TaskRefusal)
        → IsTaskFault problem a → IsTaskFault problem b → a ≡ b }
    ensures never_both { (problem : List Fof) (task : CitedTask) (refusal : TaskRefusal)
        → IsTaskOf problem task → IsTaskFault problem refusal → ⊥ }
{}
