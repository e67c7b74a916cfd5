ghost use Rattle.std.specs.Prelude.{◌≡◌, ◌+◌, ◌-◌, ◌<◌, ◌≤◌, [], ◌∷◌, ◌++◌, length, take, drop, slice_get, sum_by, not, Some, None, true, false, IfOk, OnOk, OnErr};
ghost use Rattle.std.specs.Option.{option_map};
ghost use Rattle.std.specs.Bool.{OnTrue, OnFalse};
ghost use Rattle.fact_store.specs.Facts.{Facts, IsNumberOf, stands, newest_of, older_of, AreDistinctFacts};

use crate::chains::{Chains, extend_within, push_within};
use crate::entry::{Entry, args_of, bucket};
use crate::walk::{grow, number_in};
use std::alloc::Global;
use std::marker::Model;
use text_core::Memory;

/// Facts in order of addition, no fact twice. Facts are found by their symbol and by equality, and
/// the newest ones can be taken back. Contracts see the list of facts and how many facts and
/// arguments may be added.
#[derive(Drop)]
pub struct Store {
    alloc: Global,
    by_symbol: Chains,
    by_bucket: Chains,
    entries: Vec<Entry>,
    args: Vec<u32>,
    room: usize,
    args_room: usize,
}

impl Model for Store {
    ghost use Rattle.std.specs.Prelude.{◌-◌, length, vec_capacity};
    ghost use Rattle.fact_store.specs.Facts.{Facts};
    ghost use Rattle.fact_store.specs.Entries.{facts_in};
    ghost use Rattle.fact_store.specs.Stored.{AreStored};

    ghost Value = { Facts };

    ghost view = { λ s. record {
      facts = facts_in s.args.items s.entries.items;
      spare_facts = s.room - length s.entries.items;
      spare_args = s.args_room - length s.args.items;
      signed = s.by_symbol.width;
    } };

    ghost invariant = { λ s. AreStored s.by_symbol s.by_bucket s.entries.items s.args.items
        s.room s.args_room (vec_capacity s.entries) (vec_capacity s.args) };
}

impl Store {
    /// No facts and nothing spare, for signed symbols below `signed`. `Memory` is want of memory.
    pub fn new(alloc: Global, signed: u32) -> Result<Store, Memory>
        ensures { IfOk result (λ store. store
            ≡ record { facts = []; spare_facts = 0; spare_args = 0; signed = signed }) }
    {
        Ok(Store {
            alloc,
            by_symbol: Chains::new(alloc, signed as usize)?,
            by_bucket: Chains::new(alloc, 64)?,
            entries: Vec::new(alloc),
            args: Vec::new(alloc),
            room: 0,
            args_room: 0,
        })
    }

    /// Makes room for so many more facts with so many elements in all. There are at most
    /// 4,294,967,295 facts with them. `Memory` is want of memory, and the store is as before.
    pub fn reserve(&mut self, facts: u32, args: u32) -> Result<(), Memory>
        requires { length self.old.facts + facts ≤ 4294967295 }
        ensures spare_facts { OnOk result (facts ≤ self.new.spare_facts) }
        ensures spare_args { OnOk result (args ≤ self.new.spare_args) }
        ensures facts_grow { self.old.spare_facts ≤ self.new.spare_facts }
        ensures args_grow { self.old.spare_args ≤ self.new.spare_args }
        ensures facts { self.new.facts ≡ self.old.facts }
        ensures signed { self.new.signed ≡ self.old.signed }
        ensures err { OnErr result (self.new ≡ self.old) }
    {
        let room = self.room.max(self.entries.len() + facts as usize);
        self.entries.reserve(room - self.entries.len())?;
        self.args.reserve(args as usize)?;
        self.by_symbol.reserve(room)?;
        grow(
            self.alloc,
            &mut self.by_bucket,
            self.entries.as_slice(),
            self.args.as_slice(),
            room,
        )?;
        self.room = room;
        self.args_room = self.args_room.max(self.args.len() + args as usize);
        Ok(())
    }

    /// Adds a fact at the end: `true`. `false` exactly where it stands already, and then nothing
    /// changes. There is a spare fact, there are spare arguments for its elements, and its symbol
    /// is in range.
    pub fn add(&mut self, signed: u32, args: &[u32]) -> bool
        requires in_range { signed < self.old.signed }
        requires spare_fact { 0 < self.old.spare_facts }
        requires spare_args { length args.now ≤ self.old.spare_args }
        ensures exact { result ≡ not (stands signed args.now self.old.facts) }
        ensures added { OnTrue result (self.new ≡ record self.old {
          facts = self.old.facts ++ record { signed = signed; args = args.now } ∷ [];
          spare_facts = self.old.spare_facts - 1;
          spare_args = self.old.spare_args - length args.now;
        }) }
        ensures unchanged { OnFalse result (self.new ≡ self.old) }
    {
        if self.holds(signed, args) {
            return false;
        }
        let bucket = bucket(signed, args, self.by_bucket.width() as u32);
        let entry = Entry {
            signed,
            start: self.args.len(),
            count: args.len(),
        };
        push_within(&mut self.entries, entry);
        extend_within(&mut self.args, args);
        self.by_symbol.add(signed);
        self.by_bucket.add(bucket);
        true
    }

    /// Whether a fact stands in the store.
    pub fn holds(&self, signed: u32, args: &[u32]) -> bool
        ensures { result ≡ stands signed args.now self.now.facts }
    {
        self.number(signed, args).is_some()
    }

    /// The number of a fact, from 0 in order of addition; `None` exactly where it does not stand in
    /// the store.
    pub fn number(&self, signed: u32, args: &[u32]) -> Option<u32>
        ensures { IsNumberOf signed args.now self.now.facts result }
    {
        number_in(
            &self.by_bucket,
            self.entries.as_slice(),
            self.args.as_slice(),
            signed,
            args,
        )
    }

    /// The number of facts. No fact stands twice.
    pub fn len(&self) -> u32
        ensures count { result ≡ length self.now.facts }
        ensures distinct { AreDistinctFacts self.now.facts }
    {
        self.entries.len() as u32
    }

    /// An undo point, to which `undo` goes back: how many facts there are.
    pub fn undo_point(&self) -> u32
        ensures { result ≡ length self.now.facts }
    {
        self.entries.len() as u32
    }

    /// Takes back all facts that were added since an undo point, and makes what they took spare
    /// again.
    pub fn undo(&mut self, undo_point: u32)
        requires { undo_point ≤ length self.old.facts }
        ensures { self.new ≡ record self.old {
          facts = take undo_point self.old.facts;
          spare_facts = self.old.spare_facts + (length self.old.facts - undo_point);
          spare_args = self.old.spare_args
              + sum_by (λ fact. length fact.args) (drop undo_point self.old.facts);
        } }
    {
        let kept = undo_point as usize;
        if kept >= self.entries.len() {
            return;
        }
        let start = self.entries[kept].start;
        self.by_symbol.cut(kept);
        self.by_bucket.cut(kept);
        self.args.truncate(start);
        self.entries.truncate(kept);
    }

    /// The newest fact with this symbol; `None` exactly where there is none.
    pub fn newest(&self, signed: u32) -> Option<u32>
        ensures { result ≡ newest_of signed self.now.facts }
    {
        self.by_symbol.newest(signed)
    }

    /// The newest fact before this one with the same symbol; `None` exactly where there is none.
    pub fn older(&self, fact: u32) -> Option<u32>
        ensures { result ≡ older_of fact self.now.facts }
    {
        if (fact as usize) < self.entries.len() {
            self.by_symbol.older(fact)
        } else {
            None
        }
    }

    /// The signed symbol of a fact.
    pub fn signed_of(&self, fact: u32) -> u32
        requires { fact < length self.now.facts }
        ensures { option_map (λ fact. fact.signed) (slice_get self.now.facts fact) ≡ Some result }
    {
        self.entries[fact as usize].signed
    }

    /// The elements of a fact.
    pub fn args_of(&self, fact: u32) -> &[u32]
        requires { fact < length self.now.facts }
        ensures { option_map (λ fact. fact.args) (slice_get self.now.facts fact) ≡ Some result.now }
    {
        args_of(self.entries[fact as usize], self.args.as_slice())
    }
}
