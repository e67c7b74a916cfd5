ghost use Rattle.std.specs.Prelude.{◌≡◌, IfOk, OnOk, OnErr, IsErrOf, is_some};
ghost use Rattle.io_core.specs.Known.{Known};
ghost use Rattle.io_core.specs.Fetched.{Stays, Fails, Holds, Fetches, IsTooLong};

use std::alloc::Global;
use text_core::{Bytes, MOST_FILE_BYTES, Memory};

/// Why a fetch gave no bytes.
#[derive(Debug, Drop)]
pub enum FetchFault {
    /// The outside failed, or has no such file.
    Failed,
    /// The file has more bytes than were asked for.
    TooLong,
    /// Want of memory.
    Memory,
}

impl From<Memory> for FetchFault {
    ghost use Rattle.io_core.specs.declared.files.FetchFault.{FetchFault};

    ghost from_gives = { λ _ fault. fault ≡ FetchFault.Memory };

    fn from(_want: Memory) -> FetchFault {
        FetchFault::Memory
    }
}

/// A source of whole files.
pub trait Files {
    /// What is known of the files: what they hold and the last name that they blame, where they
    /// tell it, and the counts of their faults and of the bytes that they handed over. No count
    /// ever falls, and each stays at its greatest value.
    ghost known: { Self → Known };

    /// Appends the bytes of the file with this name to `into`, if they are at most `most`. After
    /// each fault `into` is as before. `Failed` comes only where the count of faults rose,
    /// `TooLong` only where more than `most` bytes were handed over, and `Memory` is want of
    /// memory.
    fn fetch(
        &mut self,
        alloc: Global,
        name: &[u8],
        most: u32,
        into: &mut Bytes,
    ) -> Result<(), FetchFault>
        ensures fetched { OnOk result (Fetches most name.now (known self.old) into.old into.new) }
        ensures failed { IsErrOf result FetchFault.Failed
            → Fails (known self.old) (known self.new) name.now }
        ensures too_long { IsErrOf result FetchFault.TooLong
            → IsTooLong most name.now (known self.old) (known self.new) }
        ensures stays { ¬ (IsErrOf result FetchFault.Failed)
            → Stays (known self.old) (known self.new) }
        ensures into_stays { OnErr result (into.new ≡ into.old) };

    /// The blamed name is told exactly where it is told what is held.
    ghost told: { (files : Self) → is_some (known files).blamed ≡ is_some (known files).held };
}

/// The bytes of the file with this name, at most `MOST_FILE_BYTES`. `Failed` comes only where the
/// count of faults rose, `TooLong` only where more bytes were handed over, and `Memory` is want of
/// memory.
pub fn fetch_whole<F: Files>(alloc: Global, files: &mut F, name: &[u8]) -> Result<Bytes, FetchFault>
    ensures holds { IfOk result (λ bytes.
        Holds (F.known files.old) name.now bytes MOST_FILE_BYTES) }
    ensures failed { IsErrOf result FetchFault.Failed
        → Fails (F.known files.old) (F.known files.new) name.now }
    ensures too_long { IsErrOf result FetchFault.TooLong
        → IsTooLong MOST_FILE_BYTES name.now (F.known files.old) (F.known files.new) }
    ensures stays { ¬ (IsErrOf result FetchFault.Failed)
        → Stays (F.known files.old) (F.known files.new) }
{
    let mut bytes = Bytes::new(alloc);
    files.fetch(alloc, name, MOST_FILE_BYTES, &mut bytes)?;
    Ok(bytes)
}
