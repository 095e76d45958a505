// The calls of a shelf or a sink in memory, of which chosen ones fail.
ghost use Rattle.std.specs.Prelude.{◌≡◌};
ghost use Rattle.xc_io.specs.Calls.{no_calls, fails_next, after_call};

use std::marker::Model;

// Calls are counted from 0.
#[derive(Drop)]
pub(crate) struct Calls {
    failing: Vec<u64>,
    made: u64,
    faults: u64,
}

impl Model for Calls {
    ghost use Rattle.xc_io.specs.Calls.{CallState};

    ghost Value = { CallState };

    ghost view = { λ c. record { failing = c.failing.items; made = c.made; faults = c.faults } };
}

impl Calls {
    pub(crate) fn new(failing: Vec<u64>) -> Calls
        ensures { result ≡ no_calls failing.items }
    {
        Calls {
            failing,
            made: 0,
            faults: 0,
        }
    }

    pub(crate) fn next_fails(&self) -> bool
        ensures { result ≡ fails_next self.now }
    {
        self.failing.contains(&self.made)
    }

    // Counts a call, and a fault where it was one.
    pub(crate) fn count(&mut self, is_fault: bool)
        ensures { self.new ≡ after_call self.old is_fault }
    {
        self.made = self.made.saturating_add(1);
        if is_fault {
            self.faults = self.faults.saturating_add(1);
        }
    }
}
