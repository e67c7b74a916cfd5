ghost use Rattle.std.specs.Prelude.{◌≡◌, [], IfOk};
ghost use Rattle.model_text.specs.Watching.{GoesOn, sized, within, placed, nothing_seen};

use crate::limits::MOST_ELEMENTS;
use indexmap::IndexSet;
use std::alloc::Global;
use std::marker::Model;
use text_core::Memory;

/// What is refused at a token with which the tokens still begin a text.
#[derive(Clone, Copy, Debug)]
pub enum Fault {
    /// The token is a size that is not from 1 to `MOST_ELEMENTS`, or an element that is not below
    /// the size.
    Range,
    /// The token is the constant of a place, and an earlier place has the same constant.
    Twice,
}

/// What the watcher keeps: the size, and the constants that have a place, by the numbers of their
/// names. Contracts see these two.
#[derive(Drop)]
pub struct Watch {
    size: u32,
    constants: IndexSet<u32>,
}

impl Model for Watch {
    ghost use Rattle.model_text.specs.Seen.{Seen};

    ghost Value = { Seen };

    ghost view = { λ w. record { size = w.size; constants = w.constants.keys } };
}

impl Watch {
    /// Nothing is seen yet. It takes no memory.
    pub(crate) fn new(alloc: Global) -> Watch
        ensures { result ≡ nothing_seen }
    {
        Watch {
            size: 0,
            constants: IndexSet::new(alloc),
        }
    }

    /// Sets the size. The error is the fault that is found.
    pub(crate) fn set_size(&mut self, size: u32) -> Result<(), Fault>
        ensures { GoesOn (sized size self.old) self.new result }
    {
        if size < 1 || size > MOST_ELEMENTS {
            return Err(Fault::Range);
        }
        self.size = size;
        Ok(())
    }

    /// Looks at a number that has to be an element. The error is the fault that is found.
    pub(crate) fn note_element(&mut self, element: u32) -> Result<(), Fault>
        ensures { GoesOn (within element self.old) self.new result }
    {
        if element < self.size {
            Ok(())
        } else {
            Err(Fault::Range)
        }
    }

    /// Gives a place to the constant whose name has this number. The inner error is the fault that
    /// is found.
    pub(crate) fn place(&mut self, constant: u32) -> Result<Result<(), Fault>, Memory>
        ensures { IfOk result (λ outcome. GoesOn (placed constant self.old) self.new outcome) }
    {
        let (_, added) = self.constants.insert_full(constant)?;
        if added {
            Ok(Ok(()))
        } else {
            Ok(Err(Fault::Twice))
        }
    }
}
