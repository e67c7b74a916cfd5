ghost use Rattle.std.specs.Prelude.{◌≡◌, [], IsOk, OnOk, OnErr};
ghost use Rattle.io_core.specs.Stream.{Stream, Puts, Breaks};

/// A put failed: the count of faults rose, and a prefix of the piece was appended.
#[derive(Debug, Drop)]
pub struct SinkFault;

/// What takes bytes, one piece after another.
pub trait Sink {
    /// What is known of the sink: its bytes so far, where it tells them, and the count of its
    /// faults, which never falls and stays at its greatest value.
    ghost stream: { Self → Stream };

    /// Appends a piece. It takes no memory. After a `SinkFault` the count of faults rose, and a
    /// prefix of the piece was appended. An empty piece gives `Ok`.
    fn put(&mut self, piece: &[u8]) -> Result<(), SinkFault>
        ensures puts { OnOk result (Puts (stream self.old) (stream self.new) piece.now) }
        ensures breaks { OnErr result (Breaks (stream self.old) (stream self.new) piece.now) }
        ensures empty { piece.now ≡ [] → IsOk result };
}
