// A sink over a writer of the standard library.
ghost use Rattle.std.specs.Prelude.{◌≡◌, ◌≤◌, length, take};
ghost use Rattle.std.specs.Io.KnownBytes.{Appends};

use crate::{Sink, SinkFault};
use std::io::Write;
use std::marker::Model;

/// A writer of the standard library, as a file or the standard output.
///
/// It passes on what the writer tells of its bytes, and is never steady. A put writes until its piece
/// is written; an error of the writer, or a write that takes nothing, is a fault.
#[derive(Drop)]
pub struct StreamSink<W: Write> {
    stream: W,
    puts: u64,
    faults: u64,
}

impl<W: Write> Model for StreamSink<W> {
    ghost use Rattle.xc_io.specs.StreamSink.{StreamState};

    ghost Value = { StreamState };

    ghost view = { λ s. record { written = W.contents s.stream; puts = s.puts; faults = s.faults } };
}

impl<W: Write> StreamSink<W> {
    /// A sink over this writer.
    pub fn new(stream: W) -> Self
        ensures { result ≡ record { written = W.contents stream; puts = 0; faults = 0 } }
    {
        StreamSink {
            stream,
            puts: 0,
            faults: 0,
        }
    }
}

// How many bytes the writer took: none where it failed.
#[tactic(auto, using(crate::proofs::Sent::appends_nothing))]
fn write_some<W: Write>(stream: &mut W, rest: &[u8]) -> usize
    ensures bound { result ≤ length rest.now }
    ensures bytes { Appends (W.contents stream.old) (W.contents stream.new) (take result rest.now) }
{
    match stream.write(rest) {
        Ok(count) => count,
        Err(_) => 0,
    }
}

#[tactic(auto, using(crate::proofs::Sent::sent_none, crate::proofs::Sent::sent_more, crate::proofs::Sent::sent_all, crate::proofs::Sent::sent_part))]
impl<W: Write> Sink for StreamSink<W> {
    ghost use Rattle.std.specs.Prelude.{None};

    ghost written = { λ s. s.written };

    ghost faults = { λ s. s.faults };

    ghost puts = { λ s. s.puts };

    ghost room = { λ _. None };

    ghost steady_tells = { λ s n h. absurd (cc) };

    fn put(&mut self, piece: &[u8]) -> Result<(), SinkFault> {
        self.puts = self.puts.saturating_add(1);
        let mut rest = piece;
        while !rest.is_empty() {
            let count = write_some(&mut self.stream, rest);
            if count == 0 {
                self.faults = self.faults.saturating_add(1);
                return Err(SinkFault::Failed);
            }
            let (_, after) = rest.split_at(count);
            rest = after;
        }
        Ok(())
    }
}
