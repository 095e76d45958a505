// Refutations.
ghost use Rattle.std.specs.Prelude.{◌≡◌};
ghost use Rattle.xc_system.specs.Kept.{IsRefutation};

use std::marker::Model;
use xc_frac::Frac;

/// Equations, low ends of facts and high ends of facts, each with what it is multiplied by, so that all
/// together may contradict a system. In each list numbers ascend strictly; no multiplier of an equation is
/// 0, and those of ends are positive.
#[derive(Debug, Drop)]
pub struct Refutation {
    bindings: Vec<(u32, Frac)>,
    lows: Vec<(u32, Frac)>,
    highs: Vec<(u32, Frac)>,
}

impl Model for Refutation {
    ghost use Rattle.std.specs.Prelude.{ℕ, List};
    ghost use Rattle.xc_system.specs.Kept.{Multipliers, IsRefutation};

    ghost Value = { Multipliers };

    ghost view = { λ r. record { bindings = r.bindings.items; lows = r.lows.items; highs = r.highs.items } };

    ghost invariant = { λ r. IsRefutation (record { bindings = r.bindings.items; lows = r.lows.items; highs = r.highs.items }) };
}

impl Refutation {
    /// A refutation with these lists, whose numbers ascend, whose multipliers of equations are not 0, and
    /// whose multipliers of ends are positive.
    pub fn of(
        bindings: Vec<(u32, Frac)>,
        lows: Vec<(u32, Frac)>,
        highs: Vec<(u32, Frac)>,
    ) -> Refutation
        requires { IsRefutation (record { bindings = bindings.items; lows = lows.items; highs = highs.items }) }
        ensures { result ≡ record { bindings = bindings.items; lows = lows.items; highs = highs.items } }
    {
        Refutation {
            bindings,
            lows,
            highs,
        }
    }

    /// The numbers of equations with their multipliers, ascending. No multiplier is 0.
    pub fn bindings(&self) -> &[(u32, Frac)]
        ensures is { result.now ≡ self.now.bindings }
        ensures kept { IsRefutation self.now }
    {
        self.bindings.as_slice()
    }

    /// The numbers of facts whose low ends are listed, ascending, with their positive multipliers.
    pub fn lows(&self) -> &[(u32, Frac)]
        ensures is { result.now ≡ self.now.lows }
        ensures kept { IsRefutation self.now }
    {
        self.lows.as_slice()
    }

    /// The numbers of facts whose high ends are listed, ascending, with their positive multipliers.
    pub fn highs(&self) -> &[(u32, Frac)]
        ensures is { result.now ≡ self.now.highs }
        ensures kept { IsRefutation self.now }
    {
        self.highs.as_slice()
    }
}
