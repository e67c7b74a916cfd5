ghost use Rattle.std.specs.Prelude.{◌≡◌};
ghost use Rattle.token_grammar_examples.specs.Watching.{GoesOn, counted, opened, row_opened, closed};

/// How many brackets and rows may be open, one inside the other.
pub const MOST_LEVELS: u32 = 100;

/// How many numbers and rows an expression may have.
pub const MOST_PIECES: u32 = 4_000_000;

/// What the watcher finds in an expression. Where both are at one token, it is `TooMany`.
#[derive(Clone, Copy, Debug)]
pub enum Fault {
    /// There are more numbers and rows than `MOST_PIECES`.
    TooMany,
    /// More brackets and rows than `MOST_LEVELS` are open.
    TooDeep,
}

/// What the watcher keeps.
#[derive(Debug, Drop)]
pub struct Count {
    /// How many numbers and rows there are so far.
    pub pieces: u32,
    /// How many brackets and rows are open.
    pub level: u32,
}

impl Count {
    /// Counts a number or a row. The error is the fault that is found.
    pub fn add(&mut self) -> Result<(), Fault>
        ensures { GoesOn (counted self.old) self.new result }
    {
        if self.pieces >= MOST_PIECES {
            return Err(Fault::TooMany);
        }
        self.pieces += 1;
        Ok(())
    }

    /// Opens a bracket. The error is the fault that is found.
    pub fn open(&mut self) -> Result<(), Fault>
        ensures { GoesOn (opened self.old) self.new result }
    {
        if self.level >= MOST_LEVELS {
            return Err(Fault::TooDeep);
        }
        self.level += 1;
        Ok(())
    }

    /// Counts a row and opens it. The error is the fault that is found.
    pub fn open_row(&mut self) -> Result<(), Fault>
        ensures { GoesOn (row_opened self.old) self.new result }
    {
        self.add()?;
        self.open()
    }

    /// Closes a bracket or a row.
    pub fn close(&mut self)
        ensures { self.new ≡ closed self.old }
    {
        self.level = self.level.saturating_sub(1);
    }
}
