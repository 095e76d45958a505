// A sink in memory, of which chosen calls fail.
ghost use Rattle.std.specs.Prelude.{◌≡◌, ◌+◌, ◌-◌, ◌≤◌, ◌↔◌, [], length, IfOk, IsErrOf, IsTrue};
ghost use Rattle.xc_io.specs.Calls.{no_calls};
ghost use Rattle.xc_io.specs.MemorySink.{steady_room, is_fault, after_put};

use crate::calls::Calls;
use crate::{Sink, SinkFault};
use std::alloc::Global;
use std::marker::Model;

/// Want of memory for the room of a [`MemorySink`].
#[derive(Clone, Copy, Debug, PartialEq, Eq)]
pub struct NoMemory;

/// Bytes in memory, up to a room that is reserved when the sink is made.
///
/// Puts are counted from 0. One whose number is among the failing ones is a fault, and appends as much
/// as the room takes of the first half of its piece, rounded down. Any other put of more bytes than
/// the room takes is a fault, and appends what fits. The sink is steady exactly where no failing
/// number is that of a later put.
#[derive(Drop)]
pub struct MemorySink {
    bytes: Vec<u8>,
    room: usize,
    calls: Calls,
}

impl Model for MemorySink {
    ghost use Rattle.std.specs.Prelude.{◌+◌, ◌≤◌, length, vec_capacity};
    ghost use Rattle.xc_io.specs.MemorySink.{SinkState};

    ghost Value = { SinkState };

    ghost view = { λ s. record { bytes = s.bytes.items; room = s.room; calls = s.calls } };

    ghost invariant = { λ s. length s.bytes.items + s.room ≤ vec_capacity s.bytes };
}

impl MemorySink {
    /// An empty sink with this room, in bytes, and the numbers of the puts that fail.
    pub fn new(alloc: Global, room: usize, failing: Vec<u64>) -> Result<MemorySink, NoMemory>
        ensures state { IfOk result (λ sink.
            sink ≡ record { bytes = []; room = room; calls = no_calls failing.items }) }
        ensures steady { IfOk result (λ sink. (steady_room sink ≡ Some room) ↔ (failing.items ≡ [])) }
    {
        match Vec::with_capacity(alloc, room) {
            Ok(bytes) => Ok(MemorySink {
                bytes,
                room,
                calls: Calls::new(failing),
            }),
            Err(_) => Err(NoMemory),
        }
    }

    /// The bytes written so far.
    pub fn bytes(&self) -> &[u8]
        ensures { result.now ≡ self.now.bytes }
    {
        &self.bytes
    }
}

impl Sink for MemorySink {
    ghost use Rattle.std.specs.Prelude.{Some, None, if◌then◌else◌, refl};
    ghost use Rattle.xc_io.specs.Calls.{is_past};
    ghost use Rattle.xc_io.specs.MemorySink.{steady_room};

    ghost written = { λ s. Some s.bytes };

    ghost faults = { λ s. s.calls.faults };

    ghost puts = { λ s. s.calls.made };

    ghost room = { steady_room };

    ghost steady_tells = { λ s n h. refl };

    fn put(&mut self, piece: &[u8]) -> Result<(), SinkFault>
        ensures fault { IsErrOf result SinkFault.Failed
            ↔ IsTrue (is_fault self.old (length piece.now)) }
        ensures after { self.new ≡ after_put self.old piece.now }
    {
        let fails = self.calls.next_fails();
        let offered = if fails { piece.len() / 2 } else { piece.len() };
        let taken = self.room.min(offered);
        // The room was reserved, so this takes no memory and cannot fail.
        let _ = self.bytes.extend_from_slice(&piece[..taken]);
        let is_fault = fails || self.room < piece.len();
        self.room -= taken;
        self.calls.count(is_fault);
        if is_fault {
            Err(SinkFault::Failed)
        } else {
            Ok(())
        }
    }
}
