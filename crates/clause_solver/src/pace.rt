// How many conflicts the shortest run has.
const UNIT: u64 = 64;

/// How many conflicts there are until the next return to level 0: a multiple of the unit by
/// 1, 1, 2, 1, 1, 2, 4, and so on.
#[derive(Drop)]
pub(crate) struct Pace {
    round: u64,
    factor: u64,
    left: u64,
}

impl Pace {
    /// The first run.
    pub(crate) fn new() -> Pace {
        Pace {
            round: 1,
            factor: 1,
            left: UNIT,
        }
    }

    /// Counts a conflict.
    pub(crate) fn count(&mut self) {
        self.left = self.left.saturating_sub(1);
    }

    /// Whether the run is over; then the next one begins.
    pub(crate) fn is_over(&mut self) -> bool {
        if self.left > 0 {
            return false;
        }
        if self.round & self.round.wrapping_neg() == self.factor {
            self.round = self.round.wrapping_add(1);
            self.factor = 1;
        } else {
            self.factor = self.factor.saturating_mul(2);
        }
        self.left = self.factor.saturating_mul(UNIT);
        true
    }
}
