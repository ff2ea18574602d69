//! Certificates that are made, read, printed and compared with their descriptions.

ghost use Rattle.std.specs.Prelude.{IfErr};
ghost use Rattle.tv_lang.specs.CanonicalDescription.{CanBeSpelled};

use super::ending::{Ending, expect, expect_whole, refused};
use super::fixtures::{certificate_of, desc_of};
use std::alloc::Global;
use std::test::Fail;
use tv_check::{Certificate, CertifyFault, Checked, Refusal, accept, certify};
use tv_lang::print;
use tv_model::{Desc, FaultKind};
use tv_test_support::certificates::CANCEL_CERTIFICATE;
use tv_test_support::descriptions::{CANCEL, SHARED_LETTER};

fn reprinted(alloc: Global) -> Result<(), Ending> {
    let certificate = certificate_of(alloc, CANCEL_CERTIFICATE)?;
    let text = certificate.print(alloc)?;
    expect(text.as_str() == CANCEL_CERTIFICATE, "another text")
}

#[test]
fn reading(rt: HostRuntime) -> Result<(), Fail> {
    expect_whole(reprinted(rt.alloc()))
}

fn certified(alloc: Global) -> Result<(), Ending> {
    let desc = desc_of(alloc, CANCEL)?;
    match certify(alloc, &desc) {
        Ok(certificate) => expect(certificate.blocks().len() == 1, "another certificate"),
        Err(CertifyFault::NoMemory) => Err(Ending::NoMemory),
        Err(CertifyFault::Faulty(_)) => Err(Ending::Other("it is refused")),
    }
}

#[test]
fn certifying(rt: HostRuntime) -> Result<(), Fail> {
    expect_whole(certified(rt.alloc()))
}

// Two buttons mark one letter.
fn uncertified(alloc: Global) -> Result<(), Ending> {
    let desc = desc_of(alloc, SHARED_LETTER)?;
    match certify(alloc, &desc).err() {
        Some(CertifyFault::NoMemory) => Err(Ending::NoMemory),
        Some(CertifyFault::Faulty(fault)) => expect(
            fault.kind == FaultKind::LetterTwice,
            "another fault",
        ),
        None => Err(Ending::Other("it is certified")),
    }
}

#[test]
fn faulty(rt: HostRuntime) -> Result<(), Fail> {
    expect_whole(uncertified(rt.alloc()))
}

fn outcome(alloc: Global, desc: Desc, certificate: &Certificate) -> Result<Checked, (Refusal, Desc)>
    requires { CanBeSpelled desc }
    ensures { IfErr result (λ refused. CanBeSpelled refused.1) }
{
    accept(alloc, desc, certificate)
}

// Whether what came back is the description with one button, and is accepted.
fn is_accepted(alloc: Global, desc: Desc, certificate: &Certificate) -> bool
    requires { CanBeSpelled desc }
{
    match print(alloc, &desc) {
        Ok(text) => text.as_str() == CANCEL && outcome(alloc, desc, certificate).is_ok(),
        Err(_) => false,
    }
}

// A description that was refused for want of memory comes back, and is accepted then.
fn accept_with(alloc: Global, desc: Desc, certificate: &Certificate) -> Result<(), Ending>
    requires { CanBeSpelled desc }
{
    match outcome(alloc, desc, certificate) {
        Ok(_) => Ok(()),
        Err((refusal, desc)) => {
            let is_named = refusal == Refusal::NoMemory;
            expect(is_named, "it is refused with its own")?;
            refused(is_accepted(alloc, desc, certificate))
        }
    }
}

fn accepted(alloc: Global) -> Result<(), Ending> {
    let certificate = certificate_of(alloc, CANCEL_CERTIFICATE)?;
    let desc = desc_of(alloc, CANCEL)?;
    accept_with(alloc, desc, &certificate)
}

#[test]
fn accepting(rt: HostRuntime) -> Result<(), Fail> {
    expect_whole(accepted(rt.alloc()))
}

// A certificate without a letter is refused for that, or for want of memory, and the description is accepted with its own.
fn unaccepted(alloc: Global) -> Result<(), Ending> {
    let right = certificate_of(alloc, CANCEL_CERTIFICATE)?;
    let short = certificate_of(alloc, "tvcert 1\ndialog a\ntab c\nend\n")?;
    let desc = desc_of(alloc, CANCEL)?;
    match outcome(alloc, desc, &short) {
        Ok(_) => Err(Ending::Other("it is accepted without a letter")),
        Err((Refusal::NoMemory, desc)) => refused(is_accepted(alloc, desc, &right)),
        Err((refusal, desc)) => {
            expect(refusal == Refusal::Owner('C'), "another refusal")?;
            accept_with(alloc, desc, &right)
        }
    }
}

#[test]
fn refusing(rt: HostRuntime) -> Result<(), Fail> {
    expect_whole(unaccepted(rt.alloc()))
}
