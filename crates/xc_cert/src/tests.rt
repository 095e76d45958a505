// Texts of certificates, and the lines at fault in others.
use crate::{CertFault, read_certificate, write_certificate};
use std::alloc::Global;
use std::test::Fail;

// What is written of the certificate that is read of a text.
fn write_again(alloc: Global, text: &str) -> Result<Vec<u8>, Fail> {
    let certificate = read_certificate(alloc, text.as_bytes())?;
    let mut out = Vec::new(alloc);
    write_certificate(alloc, &mut out, &certificate)?;
    Ok(out)
}

// The fault of a text that is none.
fn fault_of(alloc: Global, text: &str) -> Option<CertFault> {
    match read_certificate(alloc, text.as_bytes()) {
        Ok(_) => None,
        Err(fault) => Some(fault),
    }
}

#[test]
fn certificate_texts(rt: HostRuntime) -> Result<(), Fail> {
    let alloc = rt.alloc();
    for (front, text) in [
        ("", "certificate 1\nfeasible\nend\n"),
        ("", "certificate 1\ninfeasible\nend\n"),
        (
            "bindings 2 points 5\nbinding 0 consistent r1 s\nbinding 1 consistent r1 t\njoint feasible\n",
            "certificate 1\nfeasible\nvalue 0 101/2\nvalue 1 -99/2\nvalue 2 0\nvalue 3 301/2\nvalue 4 170141183460469231731687303715884105727\nend\n",
        ),
        (
            "\ncertificate 2\n certificate 1\ncertificate 1\r\nfeasible\nend\n",
            "certificate 1\ninfeasible\nbinding 0 1\nbinding 1 -1\nlow 3 1\nhigh 2 1\nend\n",
        ),
        (
            "",
            "certificate 1\ninfeasible\nbinding 4294967295 -1/2\nlow 0 1/3\nlow 10 1\nhigh 0 2\nhigh 4294967295 3/2\nend\n",
        ),
        ("", "certificate 1\ninfeasible\nhigh 1 1\nend\n"),
    ] {
        let whole = format!(in alloc; "{front}{text}")?;
        assert_eq!(rt;
            write_again(alloc, whole.as_str())?.as_slice(),
            text.as_bytes(),
            "{text}"
        );
    }
    Ok(())
}

#[test]
fn lines_at_fault(rt: HostRuntime) -> Result<(), Fail> {
    for (text, line) in [
        // No line is `certificate 1`.
        ("", 1),
        ("\n", 2),
        ("certificate 1", 1),
        ("certificate 2\ninfeasible\nend\n", 4),
        (" certificate 1\nfeasible\nend\n", 4),
        ("certificate 1\r\nfeasible\r\nend\r\n", 4),
        // Lines are wanting, or not finished.
        ("certificate 1\n", 2),
        ("certificate 1\nfeasible\n", 3),
        ("certificate 1\nfeasible\nend", 3),
        ("certificate 1\ninfeasible\nlow 0 1\n", 4),
        // The first line behind `certificate 1`, and what follows the end.
        ("certificate 1\ncertificate 1\nfeasible\nend\n", 2),
        ("certificate 1\nfeasible\r\nend\n", 2),
        ("certificate 1\nend\n", 2),
        ("certificate 1\nfeasible\nend\n\n", 4),
        ("certificate 1\nfeasible\nend\nend\n", 4),
        ("certificate 1\ninfeasible\nend\nx", 4),
        // Values.
        ("certificate 1\nfeasible\nvalue 1 0\nend\n", 3),
        ("certificate 1\nfeasible\nvalue 0 0\nvalue 0 0\nend\n", 4),
        ("certificate 1\nfeasible\nvalue 0 0\nvalue 2 0\nend\n", 4),
        ("certificate 1\nfeasible\nlow 0 1\nend\n", 3),
        ("certificate 1\nfeasible\nvalue 0\nend\n", 3),
        ("certificate 1\nfeasible\nvalue\nend\n", 3),
        ("certificate 1\nfeasible\nvalue 00 1\nend\n", 3),
        ("certificate 1\nfeasible\nvalue +0 1\nend\n", 3),
        ("certificate 1\nfeasible\nvalue -0 1\nend\n", 3),
        ("certificate 1\nfeasible\nvalue 0/1 1\nend\n", 3),
        ("certificate 1\nfeasible\nvalue  0 1\nend\n", 3),
        ("certificate 1\nfeasible\nvalue 0  1\nend\n", 3),
        ("certificate 1\nfeasible\nvalue 0 1 \nend\n", 3),
        ("certificate 1\nfeasible\nvalue 0 1\r\nend\n", 3),
        ("certificate 1\nfeasible\nvalue 0 2/4\nend\n", 3),
        ("certificate 1\nfeasible\nvalue 0 -0\nend\n", 3),
        // Multipliers.
        ("certificate 1\ninfeasible\nvalue 0 1\nend\n", 3),
        ("certificate 1\ninfeasible\nbinding 0 0\nend\n", 3),
        (
            "certificate 1\ninfeasible\nbinding 1 1\nbinding 0 1\nend\n",
            4,
        ),
        (
            "certificate 1\ninfeasible\nbinding 1 1\nbinding 1 1\nend\n",
            4,
        ),
        ("certificate 1\ninfeasible\nlow 0 0\nend\n", 3),
        ("certificate 1\ninfeasible\nlow 0 -1\nend\n", 3),
        ("certificate 1\ninfeasible\nhigh 0 -1/2\nend\n", 3),
        ("certificate 1\ninfeasible\nlow 0 1\nbinding 0 1\nend\n", 4),
        ("certificate 1\ninfeasible\nhigh 0 1\nlow 0 1\nend\n", 4),
        ("certificate 1\ninfeasible\nhigh 0 1\nbinding 0 1\nend\n", 4),
        (
            "certificate 1\ninfeasible\nlow 1 1\nhigh 0 1\nhigh 0 1\nend\n",
            5,
        ),
        ("certificate 1\ninfeasible\nlow 4294967296 1\nend\n", 3),
        (
            "certificate 1\ninfeasible\nlow 340282366920938463463374607431768211456 1\nend\n",
            3,
        ),
        (
            "certificate 1\ninfeasible\nlow 0 170141183460469231731687303715884105728\nend\n",
            3,
        ),
    ] {
        assert_eq!(rt;
            fault_of(rt.alloc(), text),
            Some(CertFault::NotCertificate(line)),
            "{text}"
        );
    }
    Ok(())
}
