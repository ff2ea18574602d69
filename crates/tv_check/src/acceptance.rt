//! Descriptions that were checked, with their certificates.

ghost use Rattle.std.specs.Prelude.{◌≡◌, All, IfOk, IfErr};
ghost use Rattle.tv_lang.specs.CanonicalDescription.{CanBeSpelled};
ghost use Rattle.tv_machine.specs.Dialog.Lawful.{IsLawfulDialog};
ghost use Rattle.tv_machine.specs.Dialog.Sound.{HasSoundDialogs};
ghost use Rattle.tv_model.specs.Faults.{IsSound};
ghost use Rattle.tv_faults.specs.Sound.Names.{HaveOwnNames};
ghost use Rattle.tv_check.specs.Certificates.{IsSoundCertificate};
ghost use Rattle.tv_check.specs.Refusals.{Accepts, IsFaulty, RefusesToAccept};

use crate::acceptance_owners::first_owner;
use crate::acceptance_tabs::first_tab;
use crate::certification::first_fault;
use crate::desc_fault::DescFault;
use std::alloc::{AllocError, Global};
use std::marker::Model;
use thiserror::Error;
use tv_certificate::Certificate;
use tv_faults::faults;
use tv_model::{Desc, Fault};

/// Why a description or its certificate is refused.
#[derive(Clone, Copy, Debug, PartialEq, Eq, Error)]
pub enum Refusal {
    #[error("out of memory")]
    NoMemory,
    /// The description isn't sound: its first fault, by number and then by line.
    #[error("the description has a fault")]
    Faulty(Fault),
    /// The description is of another version than the certificate.
    #[error("the certificate is of another version")]
    CertVersion,
    /// The first place, counted from 1, at which the tab lines differ from the order of Tab.
    #[error("tab line {0} is not in the order of Tab")]
    TabOrder(usize),
    /// The least letter, in the first dialog that differs, whose key lines aren't those of its owners.
    #[error("the letter {0} has another owner")]
    Owner(char),
}

impl From<AllocError> for Refusal {
    ghost use Rattle.std.specs.Prelude.{◌≡◌};
    ghost use Rattle.tv_check.specs.declared.acceptance.Refusal.TheVariants.{NoMemory};

    ghost from_gives = { λ _ e. e ≡ NoMemory };

    fn from(_error: AllocError) -> Refusal {
        Refusal::NoMemory
    }
}

/// A sound description that a text can spell. Only `examine` and `accept` make one.
#[derive(Debug, Drop)]
pub struct Checked {
    desc: Desc,
}

impl Model for Checked {
    ghost use Rattle.tv_lang.specs.CanonicalDescription.{CanBeSpelled};
    ghost use Rattle.tv_model.specs.declared.desc.Desc.{Desc};
    ghost use Rattle.tv_model.specs.Faults.{IsSound};

    ghost Value = { Desc };

    ghost view = { λ c. c.desc };

    ghost invariant = { λ c. CanBeSpelled c.desc × IsSound c.desc };
}

impl Checked {
    /// Returns the description that was checked. Each of its dialogs has what the modal dialog asks of it (`lawful`),
    /// and what the laws of every run ask (`sound_dialogs`). No two controls or panes of a dialog have a name in common
    /// (`own_names`).
    pub fn desc(&self) -> &Desc
        ensures value { result.now ≡ self.now }
        ensures spelled { CanBeSpelled result.now }
        ensures sound { IsSound result.now }
        ensures lawful { All IsLawfulDialog result.now.dialogs }
        ensures sound_dialogs { HasSoundDialogs result.now }
        ensures own_names { HaveOwnNames result.now }
    {
        &self.desc
    }
}

/// Searches the description for faults, once. Returns it as checked where it has none, else all of them.
///
/// The description must be one that a text can spell, as those of `parse` are.
pub fn examine(alloc: Global, desc: Desc) -> Result<Checked, DescFault>
    requires { CanBeSpelled desc }
    ensures yes { IfOk result (λ checked. (checked ≡ desc) × IsSound desc) }
    ensures no { IfErr result (IsFaulty desc) }
{
    let found = faults(alloc, &desc)?;
    if found.as_slice().is_empty() {
        Ok(Checked { desc })
    } else {
        Err(DescFault::Faults(found))
    }
}

// The first reason to refuse a sound description's certificate: its version, the order of Tab, then the letters.
fn compare(alloc: Global, desc: &Desc, certificate: &Certificate) -> Result<(), Refusal>
    ensures yes { IfOk result (λ _. IsSoundCertificate desc.now certificate.now) }
    ensures no { IsSound desc.now → IfErr result (RefusesToAccept desc.now certificate.now) }
{
    if certificate.version != desc.version {
        return Err(Refusal::CertVersion);
    }
    let blocks = certificate.blocks();
    if let Some(place) = first_tab(alloc, desc, blocks)? {
        return Err(Refusal::TabOrder(place));
    }
    match first_owner(alloc, desc, blocks)? {
        Some(letter) => Err(Refusal::Owner(letter)),
        None => Ok(()),
    }
}

// The first reason to refuse the description with its certificate.
fn look(alloc: Global, desc: &Desc, certificate: &Certificate) -> Result<(), Refusal>
    ensures yes { IfOk result (λ _. IsSound desc.now × IsSoundCertificate desc.now certificate.now) }
    ensures no { IfErr result (RefusesToAccept desc.now certificate.now) }
{
    match first_fault(alloc, desc)? {
        Some(fault) => Err(Refusal::Faulty(fault)),
        None => compare(alloc, desc, certificate),
    }
}

/// Accepts the description exactly where it is sound and the certificate is sound for it. Otherwise hands it back
/// unchanged, with the first reason to refuse it.
///
/// The description must be one that a text can spell, as those of `parse` are.
pub fn accept(
    alloc: Global,
    desc: Desc,
    certificate: &Certificate,
) -> Result<Checked, (Refusal, Desc)>
    requires { CanBeSpelled desc }
    ensures yes { IfOk result (λ checked. (checked ≡ desc) × IsSound desc × IsSoundCertificate desc certificate.now) }
    ensures no { IfErr result (λ refused. RefusesToAccept desc certificate.now refused.0 × (refused.1 ≡ desc)) }
    ensures only { IsSound desc → IsSoundCertificate desc certificate.now → Accepts result }
{
    match look(alloc, &desc, certificate) {
        Ok(()) => Ok(Checked { desc }),
        Err(refusal) => Err((refusal, desc)),
    }
}
