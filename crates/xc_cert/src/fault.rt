ghost use Rattle.std.specs.Prelude.{◌≡◌, option_map};
ghost use Rattle.xc_cert.specs.Codes.{code_of, place_of};
ghost use Rattle.xc_cert.specs.declared.fault.CertFault.TheVariants.{Memory};

use std::alloc::{AllocError, AllocFailed};

/// Why bytes are not read as a certificate.
#[derive(Clone, Copy, Debug, PartialEq, Eq)]
pub enum CertFault {
    /// Want of memory.
    Memory,
    /// The bytes are no certificate text. The number, from 1, is that of the first line that fits nowhere
    /// behind those before it, or of the line that is wanting.
    NotCertificate(u64),
}

impl CertFault {
    /// The code that is printed; None for want of memory alone.
    pub fn code(self) -> Option<&'static str>
        ensures { option_map (λ code. code.now) result ≡ code_of self }
    {
        match self {
            CertFault::Memory => None,
            CertFault::NotCertificate(_) => Some("xc:notCertificate"),
        }
    }

    /// The number of the line; None for want of memory alone.
    pub fn place(self) -> Option<u64>
        ensures { result ≡ place_of self }
    {
        match self {
            CertFault::Memory => None,
            CertFault::NotCertificate(line) => Some(line),
        }
    }
}

impl From<AllocError> for CertFault {
    ghost from_gives = { λ _ e. e ≡ Memory };

    fn from(_: AllocError) -> Self {
        CertFault::Memory
    }
}

impl<T: Drop> From<AllocFailed<T>> for CertFault {
    ghost from_gives = { λ _ e. e ≡ Memory };

    fn from(_: AllocFailed<T>) -> Self {
        CertFault::Memory
    }
}
