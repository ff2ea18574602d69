//! Certificates: those of descriptions, and how they are read and printed.

ghost use Rattle.tv_lang.specs.CanonicalDescription.{CanBeSpelled};

use crate::findings::{desc_of, fault_told};
use crate::tables::Question;
use std::alloc::{AllocError, Global};
use std::test::Fail;
use tv_check::{Certificate, CertificateFault, CertifyFault, certify};
use tv_model::Desc;

/// The certificate of a description, or its first fault.
#[derive(Clone, Copy)]
pub struct Certifying;

impl Question for Certifying {
    fn answer(&self, alloc: Global, text: &[u8]) -> Result<String, Fail> {
        let desc = desc_of(alloc, text)?;
        certified(alloc, &desc)
    }
}

fn certified(alloc: Global, desc: &Desc) -> Result<String, Fail>
    requires { CanBeSpelled desc.now }
{
    match certificate_of(alloc, desc) {
        Ok(certificate) => Ok(print_of(alloc, &certificate)?),
        Err(CertifyFault::Faulty(fault)) => Ok(fault_told(alloc, "faulty ", &fault)?),
        Err(CertifyFault::NoMemory) => Err(Fail::new("no memory")),
    }
}

fn certificate_of(alloc: Global, desc: &Desc) -> Result<Certificate, CertifyFault>
    requires { CanBeSpelled desc.now }
{
    certify(alloc, desc)
}

fn print_of(alloc: Global, certificate: &Certificate) -> Result<String, AllocError> {
    certificate.print(alloc)
}

/// The canonical text of a certificate, or why it can't be read.
#[derive(Clone, Copy)]
pub struct PrintingCertificate;

impl Question for PrintingCertificate {
    fn answer(&self, alloc: Global, text: &[u8]) -> Result<String, Fail> {
        match read_certificate(alloc, text) {
            Ok(certificate) => Ok(print_of(alloc, &certificate)?),
            Err(fault) => unread_told(alloc, fault),
        }
    }
}

// The certificate that a text spells.
pub(crate) fn read_certificate(
    alloc: Global,
    text: &[u8],
) -> Result<Certificate, CertificateFault> {
    Certificate::read(alloc, text)
}

// Why a text is no certificate.
pub(crate) fn unread_told(alloc: Global, fault: CertificateFault) -> Result<String, Fail> {
    match fault {
        CertificateFault::Syntax(line) => Ok(format!(in alloc; "syntax at line {line}\n")?),
        CertificateFault::TooLong => Ok(String::from_str(alloc, "too long\n")?),
        CertificateFault::NoMemory => Err(Fail::new("no memory")),
    }
}
