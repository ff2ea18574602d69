//! Why a description and its certificate weren't accepted.

ghost use Rattle.std.specs.Prelude.{◌≡◌};
ghost use Rattle.tv_program.specs.declared.accept_fault.AcceptFault.TheVariants.{Write};
ghost use Rattle.tv_program.specs.Conversions.{certificate_accepted, lang_accepted, refusal_accepted};

use tv_check::{CertificateFault, Refusal};
use tv_io::WriteFailed;
use tv_lang::LangFault;

/// Why a description and its certificate weren't accepted.
#[derive(Debug, Drop)]
pub enum AcceptFault {
    NoMemory,
    /// The description is not spelled right.
    Lang(LangFault),
    /// The certificate is not spelled right.
    Cert(CertificateFault),
    /// The description or its certificate is not sound.
    Refused(Refusal),
    /// The writer failed, or took nothing.
    Write,
}

impl From<LangFault> for AcceptFault {
    ghost from_gives = { λ unread fault. fault ≡ lang_accepted unread };

    fn from(unread: LangFault) -> AcceptFault {
        match unread {
            LangFault::NoMemory => AcceptFault::NoMemory,
            _ => AcceptFault::Lang(unread),
        }
    }
}

impl From<CertificateFault> for AcceptFault {
    ghost from_gives = { λ unread fault. fault ≡ certificate_accepted unread };

    fn from(unread: CertificateFault) -> AcceptFault {
        match unread {
            CertificateFault::NoMemory => AcceptFault::NoMemory,
            _ => AcceptFault::Cert(unread),
        }
    }
}

impl From<Refusal> for AcceptFault {
    ghost from_gives = { λ refusal fault. fault ≡ refusal_accepted refusal };

    fn from(refusal: Refusal) -> AcceptFault {
        match refusal {
            Refusal::NoMemory => AcceptFault::NoMemory,
            _ => AcceptFault::Refused(refusal),
        }
    }
}

impl From<WriteFailed> for AcceptFault {
    ghost from_gives = { λ _ fault. fault ≡ Write };

    fn from(_failed: WriteFailed) -> AcceptFault {
        AcceptFault::Write
    }
}
