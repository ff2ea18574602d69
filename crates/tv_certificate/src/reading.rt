//! Certificates, read from texts.

ghost use Rattle.std.specs.Prelude.{◌≡◌, ◌↔◌, ◌<◌, ◌≤◌, length, IfOk, IfErr, Err, Some};
ghost use Rattle.tv_words.specs.Reading.LineWords.{line_taken};
ghost use Rattle.tv_certificate.specs.declared.certificate.Certificate.{Certificate as SeenCertificate};
ghost use Rattle.tv_certificate.specs.CertificateReading.{RefusesCertificateLine, CertificateStopsAt, Value, certificate_outcome, certificate_line_taken};
ghost use Rattle.tv_certificate.specs.CertificateTexts.{GivesCertificate, RefusesText, SpellsACertificate};

use crate::certificate::Certificate;
use crate::progress::Progress;
use std::alloc::{AllocError, Global};
use thiserror::Error;
use tv_words::{Lines, words_of};

/// Why a text is no certificate.
#[derive(Clone, Copy, Debug, PartialEq, Eq, Error)]
pub enum CertificateFault {
    #[error("out of memory")]
    NoMemory,
    /// The first line that can't follow those before it, counted from 1. A line that is missing counts as one.
    #[error("line {0} is no line of a certificate that can stand there")]
    Syntax(usize),
    #[error("the text is longer than 262,144 bytes")]
    TooLong,
}

impl From<AllocError> for CertificateFault {
    ghost use Rattle.std.specs.Prelude.{◌≡◌};
    ghost use Rattle.tv_certificate.specs.declared.reading.CertificateFault.TheVariants.{NoMemory};

    ghost from_gives = { λ _ e. e ≡ NoMemory };

    fn from(_error: AllocError) -> CertificateFault {
        CertificateFault::NoMemory
    }
}

/// The most bytes of a certificate.
const LONGEST: usize = 262_144;

impl Certificate {
    /// Reads the certificate that a text of at most 262,144 bytes spells.
    pub fn read(alloc: Global, text: &[u8]) -> Result<Certificate, CertificateFault>
        ensures spelled { IfOk result (λ certificate. SpellsACertificate text.now certificate) }
        ensures only { (certificate : SeenCertificate) → SpellsACertificate text.now certificate → GivesCertificate result certificate }
        ensures fault { IfErr result (λ fault. RefusesText text.now fault) }
        ensures too_long { (result ≡ Err CertificateFault.TooLong) ↔ (262144 < length text.now) }
    {
        if text.len() > LONGEST {
            return Err(CertificateFault::TooLong);
        }
        read_lines(alloc, text)
    }
}

fn read_lines(alloc: Global, text: &[u8]) -> Result<Certificate, CertificateFault>
    requires { length text.now ≤ 262144 }
    ensures value { IfOk result (λ certificate. certificate_outcome text.now ≡ Value certificate) }
    ensures fault { IfErr result (λ fault. CertificateStopsAt fault (certificate_outcome text.now)) }
{
    let mut progress = Progress::Fresh;
    let mut number = 1;
    for line in Lines::new(text) {
        progress = take_line(alloc, progress, line, number)?;
        number += 1;
    }
    progress.finish().ok_or(CertificateFault::Syntax(number))
}

fn take_line(
    alloc: Global,
    progress: Progress,
    line: &[u8],
    number: usize,
) -> Result<Progress, CertificateFault>
    ensures value { IfOk result (λ further. line_taken certificate_line_taken progress line.now ≡ Some further) }
    ensures fault { IfErr result (λ fault. RefusesCertificateLine fault number (line_taken certificate_line_taken progress line.now)) }
{
    let Some(list) = words_of(alloc, line)? else {
        return Err(CertificateFault::Syntax(number));
    };
    let words = list.as_slice();
    if words.is_empty() {
        return Ok(progress);
    }
    match progress.take(alloc, words)? {
        Some(further) => Ok(further),
        None => Err(CertificateFault::Syntax(number)),
    }
}
