ghost use Rattle.std.specs.Prelude.{◌≡◌, ◌≢◌, ◌≤◌, ◌++◌, ◌∷◌, [], ◌==◌, Some, false, IsTrue, IsOk, IfOk, OnOk, OnErr, take, find};
ghost use Rattle.std.specs.Option.{option_map};
ghost use Rattle.io_core.specs.Causes.{raised};
ghost use Rattle.io_core.specs.InMemory.{taken, put_fails, puts_after, stored_stream};
ghost use Rattle.io_core.specs.Stream.{Breaks, Puts};

use crate::count::raised_by;
use crate::sink::{Sink, SinkFault};
use std::alloc::Global;
use std::marker::Model;
use text_core::Memory;

/// A sink in memory, with room for a number of bytes. Its contents are known, and chosen puts can
/// be made to fail.
#[derive(Drop)]
pub struct MemorySink {
    bytes: Vec<u8>,
    room: usize,
    faults: u64,
    failing: Vec<(u64, u32)>,
    puts: u64,
}

impl Model for MemorySink {
    ghost use Rattle.std.specs.Prelude.{◌≤◌, vec_len, vec_capacity};
    ghost use Rattle.io_core.specs.InMemory.{StoredSink};

    ghost Value = { StoredSink };

    ghost view = { λ s. record {
      contents = s.bytes.items;
      room = s.room;
      faults = s.faults;
      failing = s.failing.items;
      puts = s.puts;
    } };

    ghost invariant = { λ s. (vec_len s.bytes ≤ s.room) × (s.room ≤ vec_capacity s.bytes) };
}

impl MemorySink {
    /// A sink with room for this many bytes, no bytes, no faults, and no put that is to fail.
    /// `Memory` is want of memory.
    pub fn new(alloc: Global, room: u32) -> Result<MemorySink, Memory>
        ensures { IfOk result (λ sink. sink
            ≡ record { contents = []; room = room; faults = 0; failing = []; puts = 0 }) }
    {
        Ok(MemorySink {
            bytes: Vec::with_capacity(alloc, room as usize)?,
            room: room as usize,
            faults: 0,
            failing: Vec::new(alloc),
            puts: 0,
        })
    }

    /// Makes the put with this number append the first `kept` bytes of its piece, or all where it
    /// is shorter, and then fail; puts of pieces that are not empty are counted from 0, and of
    /// several entries for one number the first counts. `Memory` is want of memory, and the sink is
    /// as before.
    pub fn fail_at(&mut self, call: u32, kept: u32) -> Result<(), Memory>
        ensures ok { OnOk result
            (self.new ≡ record self.old { failing = self.old.failing ++ (call, kept) ∷ [] }) }
        ensures err { OnErr result (self.new ≡ self.old) }
    {
        self.failing.push((u64::from(call), kept))?;
        Ok(())
    }

    /// The bytes so far.
    pub fn contents(&self) -> &[u8]
        ensures { result.now ≡ self.now.contents }
    {
        self.bytes.as_slice()
    }
}

impl Sink for MemorySink {
    ghost stream = { stored_stream };

    /// As `Sink` says. It fails exactly at a listed put and where the piece passes the room; then
    /// alone the count of faults rises, by 1. What it appends is the part that fits, and of a
    /// listed put no more than is listed.
    fn put(&mut self, piece: &[u8]) -> Result<(), SinkFault>
        ensures puts { OnOk result
            (Puts (stored_stream self.old) (stored_stream self.new) piece.now) }
        ensures breaks { OnErr result
            (Breaks (stored_stream self.old) (stored_stream self.new) piece.now) }
        ensures appended { OnOk result (self.new.contents ≡ self.old.contents ++ piece.now) }
        ensures prefix { self.new.contents
            ≡ self.old.contents ++ take (taken self.old piece.now) piece.now }
        ensures fails { OnErr result (IsTrue (put_fails self.old piece.now)) }
        ensures passes { OnOk result (piece.now ≢ [] → put_fails self.old piece.now ≡ false) }
        ensures cause { OnErr result (self.new.faults ≡ raised self.old.faults 1) }
        ensures faults_stay { OnOk result (self.new.faults ≡ self.old.faults) }
        ensures empty { piece.now ≡ [] → IsOk result }
        ensures counted { self.new.puts ≡ puts_after self.old piece.now }
        ensures room { self.new.room ≡ self.old.room }
        ensures failing { self.new.failing ≡ self.old.failing }
    {
        if piece.is_empty() {
            return Ok(());
        }
        let kept = kept_at(self.failing.as_slice(), self.puts);
        self.puts = raised_by(self.puts, 1);
        let free = self.room - self.bytes.len();
        let most = match kept {
            Some(kept) => free.min(kept as usize),
            None => free,
        };
        self.bytes
            .extend_from_slice(&piece[..piece.len().min(most)])
            .unwrap();
        if kept.is_some() || free < piece.len() {
            self.faults = raised_by(self.faults, 1);
            return Err(SinkFault);
        }
        Ok(())
    }
}

// How many bytes the put with this number keeps at most where it is listed; the first entry counts.
fn kept_at(failing: &[(u64, u32)], put: u64) -> Option<u32>
    ensures { result ≡ option_map (λ e. e.1) (find (λ e. e.0 == put) failing.now) }
{
    failing.iter().find(|e| e.0 == put).map(|e| e.1)
}
