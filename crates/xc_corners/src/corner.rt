// Corners as they are told.
ghost use Rattle.std.specs.Prelude.{◌≡◌};
ghost use Rattle.std.specs.List.Sorted.{IsStrictlySortedBy};
ghost use Rattle.std.specs.Ordering.{nat_cmp};

use std::marker::Model;

/// A corner of a problem: the numbers of its basic variables, and of the others those on their high side,
/// each ascending strictly. Ranges are the variables from 0 on, and after them each row is one.
#[derive(Debug, Drop)]
pub struct Corner {
    basic: Vec<u32>,
    high: Vec<u32>,
}

impl Model for Corner {
    ghost use Rattle.xc_corners.specs.Corners.{CornerLists};

    ghost Value = { CornerLists };

    ghost view = { λ c. record { basic = c.basic.items; high = c.high.items } };

    ghost use Rattle.std.specs.List.Sorted.{IsStrictlySortedBy};
    ghost use Rattle.std.specs.Ordering.{nat_cmp};

    ghost invariant = { λ c. IsStrictlySortedBy nat_cmp c.basic.items × IsStrictlySortedBy nat_cmp c.high.items };
}

impl Corner {
    /// The corner with these lists, which ascend strictly.
    pub fn of(basic: Vec<u32>, high: Vec<u32>) -> Corner
        requires basic { IsStrictlySortedBy nat_cmp basic.items }
        requires high { IsStrictlySortedBy nat_cmp high.items }
        ensures { result ≡ record { basic = basic.items; high = high.items } }
    {
        Corner { basic, high }
    }

    /// The basic variables, ascending.
    pub fn basic(&self) -> &[u32]
        ensures is { result.now ≡ self.now.basic }
        ensures ascends { IsStrictlySortedBy nat_cmp result.now }
    {
        self.basic.as_slice()
    }

    /// The variables that are not basic and are on their high side, ascending.
    pub fn high(&self) -> &[u32]
        ensures is { result.now ≡ self.now.high }
        ensures ascends { IsStrictlySortedBy nat_cmp result.now }
    {
        self.high.as_slice()
    }
}
