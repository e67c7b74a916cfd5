//! Laws over all problems.

ghost use Rattle.std.specs.Prelude.{◌≡◌, ◌⊎◌, List};
ghost use Rattle.text_core.specs.Names.{Text};
ghost use Rattle.logic_core.specs.declared.problem.Fof.{Fof};
ghost use Rattle.io_core.specs.Held.{Held};
ghost use Rattle.include_flat.specs.declared.refusal.FlatWhy.{FlatWhy};
ghost use Rattle.include_flat.specs.Flattened.{Decision, IsFlat};
ghost use Rattle.include_flat.specs.Refusals.{IsDecided, IsFlatRefused};

/// A problem's file has one flat problem at most.
pub fn one_flat_problem()
    ensures { (held : Held) (name : Text) (a b : List Fof)
        → IsFlat held name a → IsFlat held name b → a ≡ b }
{}

/// No refusal decides the walk over a problem's file that has a flat problem.
pub fn never_flat_and_refused()
    ensures { (held : Held) (name : Text) (problem : List Fof) (file : Text) (why : FlatWhy)
        → IsFlat held name problem → IsFlatRefused held name file why → ⊥ }
{}

/// One refusal at most decides the walk over a problem's file.
pub fn one_deciding_refusal()
    ensures { (held : Held) (name file other : Text) (why reason : FlatWhy)
        → IsFlatRefused held name file why → IsFlatRefused held name other reason
        → (file ≡ other) × (why ≡ reason) }
{}

/// A problem's file has a flat problem, or something decides the walk over it: a missing file or a
/// refusal.
pub fn flat_or_decided()
    ensures { (held : Held) (name : Text)
        → ((problem : List Fof) × IsFlat held name problem)
        ⊎ ((decided : Decision) × IsDecided held name decided) }
{}
