// Names that are there, and those that a report has beside.
ghost use Rattle.std.specs.Prelude.{◌≡◌, ◌+◌, ◌++◌, [], Some, IfOk, OnOk};
ghost use Rattle.xc_names.specs.Names.{number_of, AreNumbered, KeepsNumbers};
ghost use Rattle.xc_report.specs.Steps.Gained.{MayGain, all_names};

use std::alloc::Global;
use std::marker::Model;
use xc_lists::Memory;
use xc_names::{NameId, Names};

/// Names that are lent, and behind them those that are gained: the number of a name is its place among
/// all. The names that are lent stay as they are, so that nothing has to be taken back where a fact has
/// a fault.
#[derive(Drop)]
pub struct Gained<'a> {
    there: &'a Names,
    // How many are lent.
    count: u64,
    gained: Names,
}

impl<'a> Model for Gained<'a> {
    ghost use Rattle.std.specs.Prelude.{◌≡◌, ◌++◌, length};
    ghost use Rattle.xc_names.specs.Names.{AreNumbered};
    ghost use Rattle.xc_report.specs.Steps.Gained.{GainedNames, names_with};

    ghost Value = { GainedNames };

    ghost view = { λ g. names_with g.there.now g.gained };

    ghost invariant = { λ g. (g.count ≡ length g.there.now) × AreNumbered (g.there.now ++ g.gained) };
}

impl<'a> Gained<'a> {
    /// These names, with none behind them.
    pub fn new(alloc: Global, names: &'a Names) -> Gained<'a>
        ensures there { result.there ≡ names.now }
        ensures gained { result.gained ≡ [] }
    {
        Gained {
            there: names,
            count: names.count(),
            gained: Names::new(alloc),
        }
    }

    /// The number of the name. A name that is not there yet goes last.
    pub fn number(&mut self, space: &str, local: &str) -> Result<NameId, Memory>
        ensures number { IfOk result (λ id. number_of space.now local.now (all_names self.new) ≡ Some id.0) }
        ensures names { MayGain self.old self.new }
    {
        match self.there.find(space, local) {
            Some(id) => Ok(id),
            None => {
                let id = self.gained.number(space, local)?;
                behind(self.count, id)
            }
        }
    }

    /// The names that are gained, in the order of their numbers.
    pub fn into_gained(self) -> Names
        ensures gained { result ≡ self.entry.gained }
        ensures numbered { AreNumbered (all_names self.entry) }
    {
        self.gained
    }
}

// The number behind so many names; as many as pass 64 bits want more memory than there is.
fn behind(count: u64, id: NameId) -> Result<NameId, Memory>
    ensures { IfOk result (λ number. number.0 ≡ count + id.0) }
{
    match count.checked_add(id.0) {
        Some(number) => Ok(NameId(number)),
        None => Err(Memory),
    }
}

/// Numbers the names that are gained, in their order.
pub fn add_gained(names: &mut Names, gained: &Names) -> Result<(), Memory>
    requires { AreNumbered (names.old ++ gained.now) }
    ensures names { OnOk result (names.new ≡ names.old ++ gained.now) }
    ensures kept { KeepsNumbers names.old names.new }
{
    for number in 0..gained.count() {
        let name = gained.name(NameId(number));
        names.number(name.space.as_str(), name.local.as_str())?;
    }
    Ok(())
}
