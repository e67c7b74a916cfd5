ghost use Rattle.std.specs.Prelude.{◌≡◌, ◌^◌, ◌<◌, ◌≤◌, length, map, IfOk, OnOk, OnErr};
ghost use Rattle.fact_store.specs.Facts.{IsNumberOf};
ghost use Rattle.fact_store.specs.Entries.{facts_in, bucket_of, AreLaid};
ghost use Rattle.fact_store.specs.Stored.{AreInBuckets};

use crate::chains::Chains;
use crate::entry::{Entry, args_of, bucket, is_entry_of};
use std::alloc::Global;
use text_core::Memory;

/// The number of a fact among the entries, looked for in the chain of its bucket; `None` exactly
/// where it does not stand there.
pub(crate) fn number_in(
    buckets: &Chains,
    entries: &[Entry],
    args: &[u32],
    signed: u32,
    sought: &[u32],
) -> Option<u32>
    requires { AreInBuckets buckets.now entries.now args.now }
    ensures { IsNumberOf signed sought.now (facts_in args.now entries.now) result }
{
    let mut at = buckets.newest(bucket(signed, sought, buckets.width() as u32));
    while let Some(number) = at {
        if is_entry_of(signed, sought, entries[number as usize], args) {
            return Some(number);
        }
        at = buckets.older(number);
    }
    None
}

/// Makes room for so many facts, and as many buckets at least; where there are too few, their
/// number doubles. `Memory` is want of memory, and the buckets are as before.
pub(crate) fn grow(
    alloc: Global,
    buckets: &mut Chains,
    entries: &[Entry],
    args: &[u32],
    room: usize,
) -> Result<(), Memory>
    requires right { AreInBuckets buckets.old entries.now args.now }
    requires fits { length entries.now ≤ room }
    requires few { room < 2 ^ 32 }
    ensures right { AreInBuckets buckets.new entries.now args.now }
    ensures ok { OnOk result (room ≤ buckets.new.room) }
    ensures err { OnErr result (buckets.new ≡ buckets.old) }
{
    if room <= buckets.width() {
        return buckets.reserve(room);
    }
    let width = room.max((2 * buckets.width()).min(4_294_967_295));
    *buckets = in_buckets(alloc, entries, args, width)?;
    Ok(())
}

/// All entries in as many buckets as there are to be, with room for as many facts.
fn in_buckets(
    alloc: Global,
    entries: &[Entry],
    args: &[u32],
    width: usize,
) -> Result<Chains, Memory>
    requires laid { AreLaid 0 entries.now (length args.now) }
    requires fits { length entries.now ≤ width }
    requires some { 0 < width }
    requires few { width < 2 ^ 32 }
    ensures keys { IfOk result (λ buckets. buckets.keys
        ≡ map (bucket_of width) (facts_in args.now entries.now)) }
    ensures width { IfOk result (λ buckets. buckets.width ≡ width) }
    ensures room { IfOk result (λ buckets. width ≤ buckets.room) }
{
    let mut buckets = Chains::new(alloc, width)?;
    buckets.reserve(width)?;
    for entry in entries {
        buckets.add(bucket(entry.signed, args_of(*entry, args), width as u32));
    }
    Ok(buckets)
}
