//! What is answered to a description and a certificate.

ghost use Rattle.std.specs.Prelude.{◌≡◌, IfErr, IfOk};
ghost use Rattle.tv_lang.specs.CanonicalDescription.{CanBeSpelled};

use crate::certifying::{read_certificate, unread_told};
use crate::findings::{desc_of, fault_told};
use crate::printing::print_of;
use crate::tables::{Question, expect_answer};
use std::alloc::Global;
use std::test::Fail;
use tv_check::{Certificate, Checked, Refusal, accept};
use tv_model::Desc;

// What `accept` answers.
type Outcome = Result<Checked, (Refusal, Desc)>;

/// What a description and a certificate come to: `accepted`, or why they are refused.
#[derive(Clone, Copy)]
struct Accepting<'a> {
    desc: &'a str,
}

impl Question for Accepting<'_> {
    fn answer(&self, alloc: Global, text: &[u8]) -> Result<String, Fail> {
        match read_certificate(alloc, text) {
            Ok(certificate) => acceptance(alloc, self.desc, &certificate),
            Err(fault) => unread_told(alloc, fault),
        }
    }
}

fn acceptance(alloc: Global, desc: &str, certificate: &Certificate) -> Result<String, Fail> {
    let desc = desc_of(alloc, desc.as_bytes())?;
    acceptance_of(alloc, desc, certificate)
}

// The description comes back unchanged, accepted or refused.
fn acceptance_of(alloc: Global, desc: Desc, certificate: &Certificate) -> Result<String, Fail>
    requires { CanBeSpelled desc }
{
    let printed = print_of(alloc, &desc)?;
    outcome_told(alloc, outcome(alloc, desc, certificate), &printed)
}

fn outcome(alloc: Global, desc: Desc, certificate: &Certificate) -> Outcome
    requires { CanBeSpelled desc }
    ensures { IfErr result (λ refused. refused.1 ≡ desc) }
{
    accept(alloc, desc, certificate)
}

fn outcome_told(alloc: Global, outcome: Outcome, printed: &str) -> Result<String, Fail> {
    match outcome {
        Ok(checked) => accepted_told(alloc, checked.desc(), printed),
        Err((refusal, desc)) => refused_told(alloc, refusal, &desc, printed),
    }
}

fn accepted_told(alloc: Global, desc: &Desc, printed: &str) -> Result<String, Fail> {
    expect_same(alloc, desc, printed)?;
    Ok(String::from_str(alloc, "accepted\n")?)
}

fn refused_told(
    alloc: Global,
    refusal: Refusal,
    desc: &Desc,
    printed: &str,
) -> Result<String, Fail> {
    expect_same(alloc, desc, printed)?;
    refusal_told(alloc, refusal)
}

fn expect_same(alloc: Global, desc: &Desc, printed: &str) -> Result<(), Fail> {
    let again = print_of(alloc, desc)?;
    if again.as_str() == printed {
        return Ok(());
    }
    Err(Fail::new("another description came back"))
}

fn refusal_told(alloc: Global, refusal: Refusal) -> Result<String, Fail> {
    match refusal {
        Refusal::Faulty(fault) => Ok(fault_told(alloc, "faulty ", &fault)?),
        Refusal::CertVersion => Ok(String::from_str(alloc, "version\n")?),
        Refusal::TabOrder(place) => Ok(format!(in alloc; "tab {place}\n")?),
        Refusal::Owner(letter) => Ok(format!(in alloc; "key {letter}\n")?),
        Refusal::NoMemory => Err(Fail::new("no memory")),
    }
}

/// What a description is refused for with a first certificate, and what it then comes to with another.
#[derive(Clone, Copy)]
pub struct AcceptingLater<'a> {
    pub desc: &'a str,
    pub first: &'a str,
}

impl Question for AcceptingLater<'_> {
    fn answer(&self, alloc: Global, text: &[u8]) -> Result<String, Fail> {
        let (refusal, desc) = refused(alloc, self.desc, self.first)?;
        let later = acceptance_by(alloc, desc, text)?;
        let refusal = refusal_told(alloc, refusal)?;
        Ok(format!(in alloc; "{refusal}{later}")?)
    }
}

fn refused(alloc: Global, desc: &str, certificate: &str) -> Result<(Refusal, Desc), Fail>
    ensures { IfOk result (λ refused. CanBeSpelled refused.1) }
{
    let certificate = read_certificate(alloc, certificate.as_bytes())?;
    let desc = desc_of(alloc, desc.as_bytes())?;
    match outcome(alloc, desc, &certificate) {
        Ok(_) => Err(Fail::new("it is accepted")),
        Err(refused) => Ok(refused),
    }
}

fn acceptance_by(alloc: Global, desc: Desc, certificate: &[u8]) -> Result<String, Fail>
    requires { CanBeSpelled desc }
{
    let certificate = read_certificate(alloc, certificate)?;
    acceptance_of(alloc, desc, &certificate)
}

// The description that a text spells, accepted with this certificate.
pub(crate) fn checked(alloc: Global, text: &[u8], certificate: &str) -> Result<Checked, Fail> {
    let certificate = read_certificate(alloc, certificate.as_bytes())?;
    let desc = desc_of(alloc, text)?;
    match outcome(alloc, desc, &certificate) {
        Ok(checked) => Ok(checked),
        Err(_) => Err(Fail::new("it is refused")),
    }
}

/// Fails where some description of a table isn't accepted with the certificate beside it.
pub fn expect_accepted(alloc: Global, rows: &[(&str, &str)]) -> Result<(), Fail> {
    for (desc, certificate) in rows {
        expect_answer(&Accepting { desc }, alloc, certificate, "accepted\n")?;
    }
    Ok(())
}
