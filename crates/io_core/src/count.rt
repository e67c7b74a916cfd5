ghost use Rattle.std.specs.Prelude.{◌≡◌, ◌≤◌};
ghost use Rattle.io_core.specs.Causes.{raised};

/// A count after more was added to it. It stays at its greatest value.
pub(crate) fn raised_by(count: u64, more: u64) -> u64
    ensures value { result ≡ raised count more }
    ensures later { count ≤ result }
{
    count.saturating_add(more)
}
