// Certificates read from texts.
ghost use Rattle.xc_cert.specs.Faults.{Answers};

use crate::fault::CertFault;
use crate::line::{cut, line_of};
use crate::reader::Reader;
use std::alloc::Global;
use xc_decimal::laws::one_spelling;
use xc_system::Certificate;

/// The certificate of a text: any lines but `certificate 1`, that line, what is claimed, and `end`.
///
/// The only other answers are want of memory, and the number of the first line that fits nowhere behind those
/// before it; where lines are wanting, or the last is not ended by a line feed, that is the number behind the
/// last finished line.
pub fn read_certificate(alloc: Global, bytes: &[u8]) -> Result<Certificate, CertFault>
    ensures { Answers bytes.now result }
{
    one_spelling();
    let mut reader = Reader::new(alloc);
    let mut rest = bytes;
    let mut number = 1;
    while let Some((text, after)) = cut(rest, b'\n') {
        if !reader.take(line_of(text))? {
            return Err(CertFault::NotCertificate(number));
        }
        rest = after;
        number += 1;
    }
    if !rest.is_empty() {
        return Err(CertFault::NotCertificate(number));
    }
    match reader.certificate() {
        Some(certificate) => Ok(certificate),
        None => Err(CertFault::NotCertificate(number)),
    }
}
