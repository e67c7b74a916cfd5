ghost use Rattle.std.specs.Prelude.{◌≡◌};
ghost use Rattle.proof_text.specs.Watching as words;
ghost use Rattle.isar_text.specs.Watching.{told_at};
ghost use Rattle.isar_text.specs.Told.{GoesOn};

use proof_text::{Limit, Tally};

/// What the watcher keeps: how many rule words there are so far and how many splits are open, and
/// the number of the token that was the last rule word.
#[derive(Debug, Drop)]
pub struct RuleWords {
    pub tally: Tally,
    pub last: usize,
}

/// What is refused at a token with which the tokens still begin a text, and the number of the rule
/// word of which it is told.
#[derive(Clone, Copy, Debug)]
pub struct Excess {
    pub limit: Limit,
    pub word: usize,
}

impl RuleWords {
    /// Counts the rule word with this number. The error is the limit that is passed.
    pub(crate) fn count(&mut self, word: usize) -> Result<(), Excess>
        ensures { GoesOn (told_at word (words.counted self.old.tally)) self.new result }
    {
        if let Err(limit) = self.tally.count() {
            return Err(Excess { limit, word });
        }
        self.last = word;
        Ok(())
    }

    /// Opens a split, of which is told at the last rule word. The error is the limit that is
    /// passed.
    pub(crate) fn open_split(&mut self) -> Result<(), Excess>
        ensures { GoesOn (told_at self.old.last (words.opened self.old.tally)) self.new result }
    {
        match self.tally.open() {
            Ok(()) => Ok(()),
            Err(limit) => Err(Excess {
                limit,
                word: self.last,
            }),
        }
    }

    /// Closes a split.
    pub(crate) fn close_split(&mut self)
        ensures { self.new ≡ record self.old { tally = words.closed self.old.tally } }
    {
        self.tally.close();
    }
}
