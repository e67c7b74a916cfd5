ghost use Rattle.std.specs.Prelude.{ℕ, List};
ghost use Rattle.text_core.specs.Numbered.{Tables};
ghost use Rattle.logic_core.specs.Truth.{structure};
ghost use Rattle.logic_core.specs.Forms.{FormTrue, interpretation};
ghost use Rattle.coherent_form.specs.BuiltIns.{built_in_form};
ghost use Rattle.coherent_form.specs.declared.source.BuiltIn.{BuiltIn};

use logic_core::World;

/// Each built-in axiom is true in every structure of every family.
pub fn built_ins_are_true<W: World>()
    ensures { (tables : Tables) (b : BuiltIn) (k : List ℕ)
        → let s = structure (W.element k) (W.holds k) (W.place k) in
        FormTrue (interpretation s tables) (built_in_form tables b) }
{}
