ghost use Rattle.std.specs.Prelude.{◌≡◌, ◌+◌, ◌-◌, ◌≤◌, ◌++◌, IfSome, IfOk, OnOk, OnErr, IsErrOf, IsUtf8, length, take, vec_len, refl};
ghost use Rattle.io_core.specs.Adapters.{counts_known};
ghost use Rattle.io_core.specs.Causes.{raised, RoseAbove};
ghost use Rattle.io_core.specs.Fetched.{Fails, Fetches, IsTooLong, Stays};

use crate::count::raised_by;
use crate::files::{FetchFault, Files};
use std::alloc::Global;
use std::fs::File;
use std::io::Read;
use std::marker::Model;
use std::{rt, str};
use text_core::{Bytes, Memory};

/// The files of the file system, reached through the runtime that it keeps. It tells nothing of
/// what they hold.
#[derive(Drop)]
pub struct RealFiles<'a, R> {
    rt: &'a R,
    faults: u64,
    given: u64,
}

impl<'a, R> Model for RealFiles<'a, R> {
    ghost use Rattle.io_core.specs.Adapters.{Counts};

    ghost Value = { Counts };

    ghost view = { λ f. record { faults = f.faults; given = f.given } };
}

impl<'a, R: rt::Files> RealFiles<'a, R> {
    /// The files that this runtime reaches, with both counts at 0. It takes no memory.
    pub fn new(rt: &'a R) -> RealFiles<'a, R>
        ensures { result ≡ record { faults = 0; given = 0 } }
    {
        RealFiles {
            rt,
            faults: 0,
            given: 0,
        }
    }
}

impl<'a, R: rt::Files> Files for RealFiles<'a, R> {
    ghost known = { counts_known };

    /// As `Files` says, with the bytes read straight into `into`. A name that is not UTF-8 is a
    /// fault, as is a file that cannot be opened or read. Each read raises `given` by the number of
    /// its bytes, and reading stops past `most`.
    #[tactic(auto, using(crate::proofs::Appended::unknown_fetched))]
    fn fetch(
        &mut self,
        alloc: Global,
        name: &[u8],
        most: u32,
        into: &mut Bytes,
    ) -> Result<(), FetchFault>
        ensures fetched { OnOk result
            (Fetches most name.now (counts_known self.old) into.old into.new) }
        ensures failed { IsErrOf result FetchFault.Failed
            → Fails (counts_known self.old) (counts_known self.new) name.now }
        ensures too_long { IsErrOf result FetchFault.TooLong
            → IsTooLong most name.now (counts_known self.old) (counts_known self.new) }
        ensures stays { ¬ (IsErrOf result FetchFault.Failed)
            → Stays (counts_known self.old) (counts_known self.new) }
        ensures into_stays { OnErr result (into.new ≡ into.old) }
        ensures counted { OnOk result
            (self.new.given ≡ raised self.old.given (length into.new - length into.old)) }
        ensures utf8 { ¬ (IsUtf8 name.now) → IsErrOf result FetchFault.Failed }
        ensures faults_stay { ¬ (IsErrOf result FetchFault.Failed)
            → self.new.faults ≡ self.old.faults }
    {
        let before = into.len();
        let Err(fault) = read_file(self.rt, alloc, name, most, &mut self.given, into) else {
            return Ok(());
        };
        into.truncate(before);
        if let FetchFault::Failed = &fault {
            self.faults = raised_by(self.faults, 1);
        }
        Err(fault)
    }

    ghost told = { λ _. refl };
}

// Appends the bytes of the file with this name, if they are at most this many; at a fault some of
// them may be appended. `given` rises by the bytes that were read.
fn read_file<R: rt::Files>(
    rt: &R,
    alloc: Global,
    name: &[u8],
    most: u32,
    given: &mut u64,
    into: &mut Bytes,
) -> Result<(), FetchFault>
    ensures front { take (length into.old) into.new ≡ into.old }
    ensures within { OnOk result (length into.new ≤ length into.old + most) }
    ensures counted { OnOk result
        (given.new ≡ raised given.old (length into.new - length into.old)) }
    ensures utf8 { ¬ (IsUtf8 name.now) → IsErrOf result FetchFault.Failed }
    ensures later { given.old ≤ given.new }
    ensures too_long { IsErrOf result FetchFault.TooLong → RoseAbove most given.old given.new }
{
    let Ok(path) = str::from_utf8(name) else {
        return Err(FetchFault::Failed);
    };
    match File::open(rt, path) {
        Ok(mut file) => read_within(alloc, &mut file, most, given, into),
        Err(_) => Err(FetchFault::Failed),
    }
}

// Appends the bytes up to the end, if they are at most this many; at a fault some of them may be
// appended. `given` rises by the bytes that were read.
fn read_within<T: Read>(
    alloc: Global,
    file: &mut T,
    most: u32,
    given: &mut u64,
    into: &mut Bytes,
) -> Result<(), FetchFault>
    ensures whole { OnOk result
        (IfSome (T.remaining file.old) (λ rest. into.new ≡ into.old ++ rest)) }
    ensures front { take (length into.old) into.new ≡ into.old }
    ensures within { OnOk result (length into.new ≤ length into.old + most) }
    ensures counted { OnOk result
        (given.new ≡ raised given.old (length into.new - length into.old)) }
    ensures later { given.old ≤ given.new }
    ensures too_long { IsErrOf result FetchFault.TooLong → RoseAbove most given.old given.new }
{
    let given_before = *given;
    let before = into.len();
    let mut chunk = read_buffer(alloc)?;
    loop {
        match file.read(&mut chunk) {
            Ok(0) => return Ok(()),
            Ok(count) => {
                let read = into.len() - before;
                *given = raised_by(given_before, (read + count) as u64);
                if count > most as usize - read {
                    return Err(FetchFault::TooLong);
                }
                into.extend_from_slice(&chunk[..count])?;
            }
            Err(_) => return Err(FetchFault::Failed),
        }
    }
}

// How many bytes one read gives at most.
const READ_BYTES: usize = 65_536;

// A buffer for one read.
fn read_buffer(alloc: Global) -> Result<Vec<u8>, Memory>
    ensures { IfOk result (λ buffer. vec_len buffer ≡ READ_BYTES) }
{
    Ok(vec![in alloc; 0; READ_BYTES]?)
}
