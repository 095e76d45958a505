// A place to which bytes are put.
ghost use Rattle.std.specs.Prelude.{◌≡◌, ◌-◌, ◌<◌, ◌≤◌, ◌↔◌, List, ℕ, Option, Some, length, take, OnOk, OnErr, IsErrOf, IsSome};
ghost use Rattle.std.specs.Io.KnownBytes.{Appends};
ghost use Rattle.xc_io.specs.Faults.{Rose, next_count};
ghost use Rattle.xc_io.specs.Sink.{PutLeaves};

/// Why a put did not write its whole piece.
#[derive(Clone, Copy, Debug, PartialEq, Eq)]
pub enum SinkFault {
    /// Writing failed. The sink's count of faults has risen.
    Failed,
}

/// A place to which bytes are put, piece after piece.
pub trait Sink {
    /// The bytes written so far, where the sink tells them.
    ghost written: { Self → Option (List ℕ) };

    /// How often a put has failed: a count that never falls.
    ghost faults: { Self → ℕ };

    /// How many puts were made: a count that stands still at its last value.
    ghost puts: { Self → ℕ };

    /// How many bytes still fit, where the sink is steady: from here on a put fails only for want of
    /// room.
    ghost room: { Self → Option ℕ };

    /// Appends `piece`. It takes no memory from the caller's side.
    ///
    /// `SinkFault::Failed` comes only where the count of faults rose in this call, or stands at the
    /// end of its type, and a beginning of the piece may have been appended; on a steady sink it
    /// comes exactly where the piece is longer than the room, and fills the room. A put that writes
    /// its piece leaves that count as it was.
    fn put(&mut self, piece: &[u8]) -> Result<(), SinkFault>
        ensures bytes { PutLeaves (written self.old) (written self.new) piece.now result }

        ensures later { faults self.old ≤ faults self.new }
        ensures failed { IsErrOf result SinkFault.Failed → Rose (faults self.old) (faults self.new) }
        ensures worked { OnOk result (faults self.new ≡ faults self.old) }
        ensures counted { puts self.new ≡ next_count (puts self.old) }

        ensures room { (n : ℕ) → room self.old ≡ Some n → room self.new ≡ Some (n - length piece.now) }
        ensures full { (n : ℕ) → room self.old ≡ Some n →
            (IsErrOf result SinkFault.Failed ↔ (n < length piece.now)) }
        ensures filled { (n : ℕ) → room self.old ≡ Some n →
            OnErr result (Appends (written self.old) (written self.new) (take n piece.now)) };

    /// A steady sink tells its bytes.
    ghost steady_tells: { (sink : Self) (n : ℕ) → room sink ≡ Some n → IsSome (written sink) };
}
