ghost use Rattle.std.specs.Prelude.{ℕ, List, [], length};
ghost use Rattle.std.specs.List.{AllByRecursion};
ghost use Rattle.text_core.specs.Numbered.{Tables};
ghost use Rattle.logic_core.specs.Allowed.{IsBoundIn};
ghost use Rattle.logic_core.specs.Truth.{structure, IsTrueIn};
ghost use Rattle.logic_core.specs.Forms.{FormTrue, IsWellFormed, interpretation};
ghost use Rattle.logic_core.specs.declared.formula.Formula.{Formula};
ghost use Rattle.logic_core.specs.declared.form.Form.{Form};
ghost use Rattle.coherent_form.specs.Reading.{Extends};
ghost use Rattle.coherent_form.specs.Wide.{Reads};

use logic_core::World;

/// A closed formula is true in a structure exactly where all the forms that it is read as are. The
/// symbols and constants of the forms are told by the tables after the reading, or by longer ones.
/// It holds in every structure of every family.
pub fn reading_keeps_truth<W: World>()
    ensures forms { (tables after longer : Tables) (f : Formula) (forms : List Form) (k : List ℕ)
        → IsBoundIn [] f → Reads tables f forms after → Extends after longer
        → let s = structure (W.element k) (W.holds k) (W.place k) in
        IsTrueIn s f [] → AllByRecursion (FormTrue (interpretation s longer)) forms }
    ensures formula { (tables after longer : Tables) (f : Formula) (forms : List Form) (k : List ℕ)
        → IsBoundIn [] f → Reads tables f forms after → Extends after longer
        → let s = structure (W.element k) (W.holds k) (W.place k) in
        AllByRecursion (FormTrue (interpretation s longer)) forms → IsTrueIn s f [] }
{}

/// The forms that a closed formula is read as are well-formed, and the tables after the reading
/// have the symbols and constants of those before it in front.
pub fn reading_is_well_formed()
    ensures formed { (tables after : Tables) (f : Formula) (forms : List Form)
        → IsBoundIn [] f → Reads tables f forms after
        → AllByRecursion (IsWellFormed (length after.constants)) forms }
    ensures extends { (tables after : Tables) (f : Formula) (forms : List Form)
        → Reads tables f forms after → Extends tables after }
{}
