// A place from which bytes are fetched by name.
ghost use Rattle.std.specs.Prelude.{◌≡◌, ◌^◌, ◌-◌, ◌<◌, ◌≤◌, ℕ, Bool, true, Option, length, IfOk, IsErrOf, IfSome, IsSome};
ghost use Rattle.xc_io.specs.Faults.{Rose, next_count};
ghost use Rattle.xc_io.specs.Shelf.{Files, FetchGives};

/// Why a fetch gave no bytes.
#[derive(Clone, Copy, Debug, PartialEq, Eq)]
pub enum ShelfFault {
    /// The name is not held, or reading failed. The shelf's count of faults has risen.
    Failed,
    /// More bytes are held than the caller has room for.
    TooLong,
    /// Want of memory.
    Memory,
}

/// A place from which whole files are fetched by name.
pub trait Shelf {
    /// The bytes held under each name, where the shelf tells them.
    ghost held: { Self → Option Files };

    /// How often a fetch has failed: a count that never falls.
    ghost faults: { Self → ℕ };

    /// How many fetches were made: a count that stands still at its last value.
    ghost fetches: { Self → ℕ };

    /// From here on no fetch of a name that is held fails.
    ghost steady: { Self → Bool };

    /// Gives the bytes that are held under `name`, where they are at most `room`.
    ///
    /// `ShelfFault::TooLong` says that more than `room` bytes are held: wherever that is so, the
    /// answer is this one or `ShelfFault::Failed`. `ShelfFault::Failed` comes only where the count
    /// of faults rose in this call, or stands at the end of its type; on a steady shelf, only for a
    /// name that is not held. No other answer raises that count.
    fn fetch(&mut self, name: &str, room: usize) -> Result<Vec<u8>, ShelfFault>
        requires { room < 2 ^ 64 - 1 }
        ensures bytes { IfSome (held self.old) (λ files. FetchGives (files name.now) room result) }
        ensures room { IfOk result (λ bytes. length bytes.items ≤ room) }
        ensures same { held self.new ≡ held self.old }

        ensures later { faults self.old ≤ faults self.new }
        ensures failed { IsErrOf result ShelfFault.Failed → Rose (faults self.old) (faults self.new) }
        ensures worked { ¬ IsErrOf result ShelfFault.Failed → faults self.new ≡ faults self.old }
        ensures counted { fetches self.new ≡ next_count (fetches self.old) }

        ensures stays { steady self.old ≡ true → steady self.new ≡ true }
        ensures answered { steady self.old ≡ true → IfSome (held self.old) (λ files.
            IsErrOf result ShelfFault.Failed → files name.now ≡ None) }
        ensures quiet { steady self.old ≡ true → IfSome (held self.old) (λ files.
            IsSome (files name.now) → faults self.new ≡ faults self.old) };

    /// A steady shelf tells its bytes.
    ghost steady_tells: { (shelf : Self) → steady shelf ≡ true → IsSome (held shelf) };
}
