ghost use Rattle.std.specs.Prelude.{◌≡◌, ◌≢◌, ◌≤◌, ◌<◌, ◌++◌, ◌∷◌, [], length, Some, None, if◌then◌else◌, IsSome, IfErr, OnOk, OnErr, IsErrOf, refl};
ghost use Rattle.std.specs.Option.{option_copied};
ghost use Rattle.std.specs.FinMap as finite;
ghost use Rattle.io_core.specs.Causes.{raised};
ghost use Rattle.io_core.specs.Entries.{held_by};
ghost use Rattle.io_core.specs.InMemory.{found, given_after, stored_known};
ghost use Rattle.io_core.specs.Fetched.{Fails, Fetches, IsTooLong, Stays};

use crate::count::raised_by;
use crate::files::{FetchFault, Files};
use std::alloc::Global;
use std::collections::HashMap;
use std::marker::Model;
use text_core::{Bytes, Memory};

/// Files in memory. All of them are known, and chosen fetches can be made to fail.
#[derive(Drop)]
pub struct MemoryFiles {
    alloc: Global,
    files: HashMap<Vec<u8>, Vec<u8>>,
    faults: u64,
    given: u64,
    blamed: Bytes,
    failing: Vec<u64>,
    fetches: u64,
}

impl Model for MemoryFiles {
    ghost use Rattle.io_core.specs.Entries.{held_by};
    ghost use Rattle.io_core.specs.InMemory.{StoredFiles, stored_files_code};

    ghost Value = { StoredFiles };

    ghost coded = { stored_files_code };

    ghost use Rattle.io_core.specs.Entries.{held_by};

    ghost view = { λ m. record {
      held = held_by m.files.entries;
      faults = m.faults;
      given = m.given;
      blamed = m.blamed;
      failing = m.failing.items;
      fetches = m.fetches;
    } };
}

impl MemoryFiles {
    /// No files, no faults, no bytes given, an empty blamed name, and no fetch that is to fail. It
    /// takes no memory.
    pub fn new(alloc: Global) -> MemoryFiles
        ensures { result ≡ record {
          held = finite.empty;
          faults = 0;
          given = 0;
          blamed = [];
          failing = [];
          fetches = 0;
        } }
    {
        MemoryFiles {
            alloc,
            files: HashMap::new(alloc),
            faults: 0,
            given: 0,
            blamed: Bytes::new(alloc),
            failing: Vec::new(alloc),
            fetches: 0,
        }
    }

    /// Gives a name these bytes, and not those that it had. `Memory` is want of memory, and the
    /// files are as before.
    pub fn insert(&mut self, name: &[u8], bytes: &[u8]) -> Result<(), Memory>
        ensures ok { OnOk result
            (self.new ≡ record self.old { held = finite.insert self.old.held name.now bytes.now }) }
        ensures err { OnErr result (self.new ≡ self.old) }
    {
        let key = Vec::from_slice(self.alloc, name)?;
        let value = Vec::from_slice(self.alloc, bytes)?;
        self.files.insert(key, value)?;
        Ok(())
    }

    /// Makes the fetch with this number fail; fetches are counted from 0. `Memory` is want of
    /// memory, and the files are as before.
    pub fn fail_at(&mut self, call: u32) -> Result<(), Memory>
        ensures ok { OnOk result
            (self.new ≡ record self.old { failing = self.old.failing ++ call ∷ [] }) }
        ensures err { OnErr result (self.new ≡ self.old) }
    {
        self.failing.push(u64::from(call))?;
        Ok(())
    }
}

impl Files for MemoryFiles {
    ghost known = { stored_known };

    /// As `Files` says. It answers `Failed` exactly at a listed fetch and at a name that is not
    /// held, where there is memory to keep the name; then alone the count of faults rises, by 1.
    /// Each other fetch raises `given` by the length of the held bytes.
    fn fetch(
        &mut self,
        alloc: Global,
        name: &[u8],
        most: u32,
        into: &mut Bytes,
    ) -> Result<(), FetchFault>
        ensures fetched { OnOk result
            (Fetches most name.now (stored_known self.old) into.old into.new) }
        ensures failed { IsErrOf result FetchFault.Failed
            → Fails (stored_known self.old) (stored_known self.new) name.now }
        ensures too_long { IsErrOf result FetchFault.TooLong
            → IsTooLong most name.now (stored_known self.old) (stored_known self.new) }
        ensures stays { ¬ (IsErrOf result FetchFault.Failed)
            → Stays (stored_known self.old) (stored_known self.new) }
        ensures into_stays { OnErr result (into.new ≡ into.old) }
        ensures faults_rise { IsErrOf result FetchFault.Failed
            → self.new.faults ≡ raised self.old.faults 1 }
        ensures faults_stay { ¬ (IsErrOf result FetchFault.Failed)
            → self.new.faults ≡ self.old.faults }
        ensures handed { self.new.given ≡ given_after self.old (found self.old name.now) }
        ensures fails { IsErrOf result FetchFault.Failed → found self.old name.now ≡ None }
        ensures finds { ¬ (IsErrOf result FetchFault.Failed) → ¬ (IsErrOf result FetchFault.Memory)
            → IsSome (found self.old name.now) }
        ensures counted { self.new.fetches ≡ raised self.old.fetches 1 }
        ensures listed { self.new.failing ≡ self.old.failing }
    {
        let listed = self.failing.contains(&self.fetches);
        self.fetches = raised_by(self.fetches, 1);
        match find(&self.files, name, listed) {
            Some(bytes) => {
                self.given = raised_by(self.given, bytes.len() as u64);
                append_within(bytes, most, into)
            }
            None => {
                self.blamed = Bytes::from_slice(alloc, name)?;
                self.faults = raised_by(self.faults, 1);
                Err(FetchFault::Failed)
            }
        }
    }

    ghost told = { λ _. refl };
}

// The bytes that are held under a name, or nothing where the fetch is listed.
fn find<'a>(files: &'a HashMap<Vec<u8>, Vec<u8>>, name: &[u8], listed: bool) -> Option<&'a [u8]>
    ensures { option_copied result
        ≡ (if listed then None else finite.get (held_by files.now.entries) name.now) }
{
    if listed {
        return None;
    }
    match files.get(name) {
        Some(bytes) => Some(bytes.as_slice()),
        None => None,
    }
}

// Appends bytes if they are at most this many.
fn append_within(bytes: &[u8], most: u32, into: &mut Bytes) -> Result<(), FetchFault>
    ensures ok { OnOk result (into.new ≡ into.old ++ bytes.now) }
    ensures within { OnOk result (length bytes.now ≤ most) }
    ensures kept { OnErr result (into.new ≡ into.old) }
    ensures refused { IfErr result (λ fault. fault ≢ FetchFault.Failed) }
    ensures too_long { IsErrOf result FetchFault.TooLong → most < length bytes.now }
{
    if bytes.len() > most as usize {
        return Err(FetchFault::TooLong);
    }
    into.extend_from_slice(bytes)?;
    Ok(())
}
