ghost use Rattle.std.specs.Prelude.{◌≡◌, [], ◌∷◌, IfOk, OnOk};
ghost use Rattle.logic_core.specs.Truth.{value_in};
ghost use Rattle.finite_model.specs.Assignments.{assignment, older};

use logic_core::Name;
use std::alloc::Global;
use std::marker::Model;
use text_core::Memory;

/// A variable with its value.
#[derive(Clone, Copy, Debug)]
pub(crate) struct Binding<'f> {
    variable: &'f Name,
    element: u32,
}

/// The values of variables. Contracts see the variables with their values, the newest first.
#[derive(Drop)]
pub(crate) struct Values<'f> {
    bindings: Vec<Binding<'f>>,
}

impl<'f> Model for Values<'f> {
    ghost use Rattle.logic_core.specs.Truth.{Assignment};
    ghost use Rattle.finite_model.specs.Assignments.{assignment};

    ghost Value = { Assignment };

    ghost view = { λ v. assignment v.bindings.items };
}

impl<'f> Values<'f> {
    /// No variable has a value. It takes no memory.
    pub(crate) fn new(alloc: Global) -> Values<'f>
        ensures { result ≡ [] }
    {
        Values {
            bindings: Vec::new(alloc),
        }
    }

    /// Gives a variable a value.
    pub(crate) fn bind(&mut self, variable: &'f Name, element: u32) -> Result<(), Memory>
        ensures { OnOk result (self.new ≡ (variable.now, element) ∷ self.old) }
    {
        self.bindings.push(Binding { variable, element })?;
        Ok(())
    }

    /// Takes the newest value away.
    pub(crate) fn unbind(&mut self)
        ensures { self.new ≡ older self.old }
    {
        self.bindings.pop();
    }

    /// The newest value of a variable, and 0 where it has none.
    pub(crate) fn value(&self, variable: &Name) -> u32
        ensures { result ≡ value_in self.now variable.now }
    {
        value_among(self.bindings.as_slice(), variable)
    }
}

// The value of the last binding of a variable, and 0 where there is none.
fn value_among(bindings: &[Binding<'_>], variable: &Name) -> u32
    ensures { result ≡ value_in (assignment bindings.now) variable.now }
{
    match bindings {
        [] => 0,
        [before @ .., last] => {
            if last.variable.bytes() == variable.bytes() {
                last.element
            } else {
                value_among(before, variable)
            }
        }
    }
}
