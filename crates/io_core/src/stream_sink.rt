ghost use Rattle.std.specs.Prelude.{◌≡◌, ◌≤◌, ℕ, [], None, IsOk, OnOk, OnErr, take};
ghost use Rattle.std.specs.Io.KnownBytes.{Appends};
ghost use Rattle.io_core.specs.Causes.{Rose};
ghost use Rattle.io_core.specs.Adapters.{written_known};
ghost use Rattle.io_core.specs.Stream.{Breaks, Puts};

use crate::count::raised_by;
use crate::sink::{Sink, SinkFault};
use std::io::Write;
use std::marker::Model;

/// A writer as a sink. As a sink it tells nothing of its contents; contracts see the number of its
/// faults, and what the writer says that it holds.
#[derive(Drop)]
pub struct StreamSink<T: Write> {
    inner: T,
    faults: u64,
}

impl<T: Write> Model for StreamSink<T> {
    ghost use Rattle.io_core.specs.Adapters.{Written};

    ghost Value = { Written };

    ghost view = { λ s. record { faults = s.faults; written = T.contents s.inner } };
}

impl<T: Write> StreamSink<T> {
    /// A sink that writes to this writer, with no faults so far. It takes no memory.
    pub fn new(inner: T) -> StreamSink<T>
        ensures { result ≡ record { faults = 0; written = T.contents inner } }
    {
        StreamSink { inner, faults: 0 }
    }
}

impl<T: Write> Sink for StreamSink<T> {
    ghost stream = { written_known };

    /// As `Sink` says. A write that takes nothing of a piece that is not empty is a fault, as is a
    /// failed write or flush. Where the writer says what it holds, the whole piece was written, or
    /// at a fault a prefix of it.
    fn put(&mut self, piece: &[u8]) -> Result<(), SinkFault>
        ensures appended { OnOk result (Appends self.old.written self.new.written piece.now) }
        ensures prefix { (n : ℕ) × Appends self.old.written self.new.written (take n piece.now) }
        ensures puts { OnOk result
            (Puts (written_known self.old) (written_known self.new) piece.now) }
        ensures breaks { OnErr result
            (Breaks (written_known self.old) (written_known self.new) piece.now) }
        ensures faults_stay { OnOk result (self.new.faults ≡ self.old.faults) }
        ensures empty { piece.now ≡ [] → IsOk result }
    {
        let written = write_whole(&mut self.inner, piece);
        if written.is_err() {
            self.faults = raised_by(self.faults, 1);
        }
        written
    }
}

// Writes a piece and flushes the writer. An empty piece is not written.
fn write_whole<T: Write>(writer: &mut T, piece: &[u8]) -> Result<(), SinkFault>
    ensures appended { OnOk result
        (Appends (T.contents writer.old) (T.contents writer.new) piece.now) }
    ensures prefix { (n : ℕ)
        × Appends (T.contents writer.old) (T.contents writer.new) (take n piece.now) }
    ensures empty { piece.now ≡ [] → IsOk result }
{
    if piece.is_empty() {
        return Ok(());
    }
    let mut at = 0;
    while at < piece.len() {
        match writer.write(&piece[at..]) {
            Ok(count) if count > 0 => at += count,
            _ => return Err(SinkFault),
        }
    }
    writer.flush().map_err(|_| SinkFault)
}
