//! What follows from the definitions for all bytes and certificates.
//!
//! Each function does nothing: its contract is the law.
ghost use Rattle.xc_cert.specs.Laws.{OneCertificate, TextOrFault, OneFault, WrittenIsText, PassedTextsJoin};

use xc_decimal::laws::one_spelling;

/// Bytes are a text of one certificate at most.
pub fn one_certificate()
    ensures { OneCertificate }
{
    one_spelling();
}

/// Bytes that are a certificate text have no line at fault.
pub fn text_or_fault()
    ensures { TextOrFault }
{}

/// Bytes have one first line at fault at most.
pub fn one_fault()
    ensures { OneFault }
{}

/// What is written of a certificate is a text of it, whatever lines other than `certificate 1` stand before.
pub fn written_is_text()
    ensures { WrittenIsText }
{}

/// Texts of lines that are passed over before a certificate, one behind the other, are one.
pub fn passed_texts_join()
    ensures { PassedTextsJoin }
{}
