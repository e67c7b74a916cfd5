ghost use Rattle.std.specs.Prelude.{◌≡◌};
ghost use Rattle.proof_text.specs.Watching.{GoesOn, counted, opened, split_opened, closed};

use text_core::{MOST_APPLICATIONS, MOST_SPLITS};

/// What is refused at a token with which the tokens still begin a text. Where `TooLarge` and
/// `TooDeep` are at one token, it is `TooLarge`.
#[derive(Clone, Copy, Debug)]
pub enum Limit {
    /// The integer in the place of the version is neither `1` nor `2`.
    Version,
    /// The token is a rule word, and there are `MOST_APPLICATIONS` before it.
    TooLarge,
    /// The token is a `cs` inside `MOST_SPLITS` others.
    TooDeep,
}

/// What the watcher keeps: how many rule words there are so far, and how many splits are open.
#[derive(Debug, Drop)]
pub struct Tally {
    pub applications: u32,
    pub splits: u32,
}

impl Tally {
    /// Counts a rule word. The error is the limit that is passed.
    pub fn count(&mut self) -> Result<(), Limit>
        ensures { GoesOn (counted self.old) self.new result }
    {
        if self.applications >= MOST_APPLICATIONS {
            return Err(Limit::TooLarge);
        }
        self.applications += 1;
        Ok(())
    }

    /// Opens a split. The error is the limit that is passed.
    pub fn open(&mut self) -> Result<(), Limit>
        ensures { GoesOn (opened self.old) self.new result }
    {
        if self.splits >= MOST_SPLITS {
            return Err(Limit::TooDeep);
        }
        self.splits += 1;
        Ok(())
    }

    /// Counts a split and opens it. The error is the limit that is passed.
    pub(crate) fn open_split(&mut self) -> Result<(), Limit>
        ensures { GoesOn (split_opened self.old) self.new result }
    {
        self.count()?;
        self.open()
    }

    /// Closes a split.
    pub fn close(&mut self)
        ensures { self.new ≡ closed self.old }
    {
        self.splits = self.splits.saturating_sub(1);
    }
}
