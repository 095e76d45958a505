// Values that several owners share.
ghost use Rattle.std.specs.Prelude.{◌≡◌, IfOk};

use std::alloc::Global;
use std::marker::Model;
use std::rc::Rc;
use xc_lists::Memory;

/// A value that several owners share, which contracts see as the value itself. It is let go with the last of them.
#[derive(Debug, Drop)]
pub struct Shared<T> {
    owner: Rc<T>,
}

impl<T> Model for Shared<T> {
    ghost Value = { T };

    ghost coded = { T.code };

    ghost view = { λ shared. shared.owner.value };
}

impl<T: Drop> Shared<T> {
    /// The first owner of a value.
    pub(crate) fn of(alloc: Global, value: T) -> Result<Shared<T>, Memory>
        ensures { IfOk result (λ shared. shared ≡ value) }
    {
        Ok(Shared {
            owner: Rc::new(alloc, value)?,
        })
    }

    /// One more owner.
    pub(crate) fn share(&self) -> Result<Shared<T>, Memory>
        ensures { IfOk result (λ shared. shared ≡ self.now) }
    {
        Ok(Shared {
            owner: self.owner.clone()?,
        })
    }

    /// The value.
    pub fn value(&self) -> &T
        ensures { result.now ≡ self.now }
    {
        &*self.owner
    }
}
