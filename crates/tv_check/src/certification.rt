//! The certificate that is made of a sound description.

ghost use Rattle.std.specs.Prelude.{◌≡◌, ◌∷◌, ◌++◌, [], List, All, IfOk, IfErr, MatchOption, OnOk, map, option_copied, option_map};
ghost use Rattle.tv_model.specs.Description.Certificates.{control_name, tabs_of};
ghost use Rattle.tv_model.specs.Faults.{IsSound};
ghost use Rattle.tv_faults.specs.Usable.{HasLawfulCounts};
ghost use Rattle.tv_model.specs.declared.fault.Fault.{Fault as SeenFault};
ghost use Rattle.tv_check.specs.Certificates.{FitsKeyLine, FitsOwner, IsSoundCertificate, block_of, certificate_of, key_line, keys_of};
ghost use Rattle.tv_certificate.specs.CertificateTexts.{IsSpelledCertificate};
ghost use Rattle.tv_check.specs.Lent.{lent_key_owner, lent_owner, lent_when};
ghost use Rattle.tv_lang.specs.CanonicalDescription.{CanBeSpelled};
ghost use Rattle.tv_check.specs.Refusals.{IsFirstFault, RefusesToCertify};

use crate::acceptance::Checked;
use crate::owner::{KeyOwner, Shown};
use crate::owners::Owners;
use std::alloc::{AllocError, Global};
use thiserror::Error;
use tv_certificate::{Block, Certificate, KeyLine, letters};
use tv_faults::faults;
use tv_model::{Desc, Dialog, Fault, Kind, Sequence, Version, When};
use tv_valid::Chars;

/// Why no certificate is made.
#[derive(Clone, Copy, Debug, PartialEq, Eq, Error)]
pub enum CertifyFault {
    #[error("out of memory")]
    NoMemory,
    /// The description isn't sound: its first fault, by number and then by line.
    #[error("the description has a fault")]
    Faulty(Fault),
}

impl From<AllocError> for CertifyFault {
    ghost use Rattle.std.specs.Prelude.{◌≡◌};
    ghost use Rattle.tv_check.specs.declared.certification.CertifyFault.TheVariants.{NoMemory};

    ghost from_gives = { λ _ e. e ≡ NoMemory };

    fn from(_error: AllocError) -> CertifyFault {
        CertifyFault::NoMemory
    }
}

/// Copies a text.
pub fn copy(alloc: Global, text: &Chars) -> Result<Chars, AllocError>
    ensures { IfOk result (λ copy. copy ≡ text.now) }
{
    Chars::from_slice(alloc, text.as_slice())
}

/// Returns the name of a control, or `None` for another node.
pub fn control_name(kind: &Kind) -> Option<&Chars>
    ensures { option_copied result ≡ control_name kind.now }
{
    if kind.is_control() { kind.name() } else { None }
}

fn tabs_of(alloc: Global, dialog: &Dialog) -> Result<Sequence<Chars>, AllocError>
    ensures { IfOk result (λ tabs. tabs ≡ tabs_of dialog.now) }
{
    let mut tabs = Sequence::new(alloc);
    for node in dialog.views.as_slice() {
        if let Some(name) = control_name(&node.kind) {
            tabs.push(copy(alloc, name)?)?;
        }
    }
    Ok(tabs)
}

// Copies an item of radio buttons.
fn when_of(alloc: Global, shown: Option<Shown>) -> Result<Option<When>, AllocError>
    ensures { IfOk result (λ when. when ≡ option_map lent_when shown.entry) }
{
    match shown {
        Some(shown) => Ok(Some(When {
            radios: copy(alloc, shown.radios)?,
            item: shown.item,
        })),
        None => Ok(None),
    }
}

fn key_line(alloc: Global, letter: char, owner: &KeyOwner) -> Result<KeyLine, AllocError>
    requires { FitsKeyLine (lent_owner owner.now.owner) }
    ensures { IfOk result (λ line. line ≡ key_line letter (lent_key_owner owner.now)) }
{
    Ok(KeyLine {
        letter,
        owner: copy(alloc, owner.owner.name)?,
        item: owner.owner.item(),
        when: when_of(alloc, owner.when)?,
    })
}

// Adds a key line for each of the letter's owners.
fn add_keys(
    alloc: Global,
    keys: &mut Sequence<KeyLine>,
    letter: char,
    owners: &[KeyOwner],
) -> Result<(), AllocError>
    requires { All (λ owner. FitsOwner (lent_key_owner owner)) owners.now }
    ensures { OnOk result (keys.new ≡ keys.old ++ map (key_line letter) (map lent_key_owner owners.now)) }
{
    for owner in owners {
        keys.push(key_line(alloc, letter, owner)?)?;
    }
    Ok(())
}

fn keys_of(alloc: Global, owners: &Owners) -> Result<Sequence<KeyLine>, AllocError>
    requires { HasLawfulCounts owners.now.dialog }
    ensures { IfOk result (λ keys. keys ≡ keys_of owners.now.version owners.now.dialog) }
{
    let mut keys = Sequence::new(alloc);
    for letter in letters() {
        let own = owners.owners(alloc, *letter)?;
        add_keys(alloc, &mut keys, *letter, &own)?;
    }
    Ok(keys)
}

fn block_of(alloc: Global, version: Version, dialog: &Dialog) -> Result<Block, AllocError>
    requires { HasLawfulCounts dialog.now }
    ensures { IfOk result (λ block. block ≡ block_of version dialog.now) }
{
    let owners = Owners::new(alloc, version, dialog)?;
    Ok(Block {
        dialog: copy(alloc, &dialog.head().name)?,
        tabs: tabs_of(alloc, dialog)?,
        keys: keys_of(alloc, &owners)?,
    })
}

// The certificate of a sound description.
fn certificate_of(alloc: Global, desc: &Desc) -> Result<Certificate, AllocError>
    requires spelled { CanBeSpelled desc.now }
    requires sound { IsSound desc.now }
    ensures value { IfOk result (λ certificate. certificate ≡ certificate_of desc.now) }
    ensures sound { IfOk result (λ certificate. IsSoundCertificate desc.now certificate) }
    ensures spelled { IfOk result (λ certificate. IsSpelledCertificate certificate) }
{
    let mut blocks = Sequence::new(alloc);
    for dialog in desc.dialogs.as_slice() {
        blocks.push(block_of(alloc, desc.version, dialog)?)?;
    }
    Ok(Certificate {
        version: desc.version,
        blocks,
    })
}

impl Checked {
    /// Makes the certificate of the description: a block for each dialog, in the order of the description.
    pub fn certificate(&self, alloc: Global) -> Result<Certificate, AllocError>
        ensures value { IfOk result (λ certificate. certificate ≡ certificate_of self.now) }
        ensures sound { IfOk result (λ certificate. IsSoundCertificate self.now certificate) }
        ensures spelled { IfOk result (λ certificate. IsSpelledCertificate certificate) }
    {
        certificate_of(alloc, self.desc())
    }
}

/// Finds the first fault of the description, by number and then by line.
pub fn first_fault(alloc: Global, desc: &Desc) -> Result<Option<Fault>, AllocError>
    ensures { IfOk result (λ fault. MatchOption fault (IsSound desc.now) (IsFirstFault desc.now)) }
{
    let found = faults(alloc, desc)?;
    Ok(first_of(found.as_slice()))
}

fn first_of(found: &[Fault]) -> Option<Fault>
    ensures { MatchOption result (found.now ≡ []) (λ fault. (others : List SeenFault) × (found.now ≡ fault ∷ others)) }
{
    match found {
        [first, ..] => Some(*first),
        [] => None,
    }
}

/// Makes the certificate of a description, where that is sound: a block for each dialog, in the order of the
/// description.
pub fn certify(alloc: Global, desc: &Desc) -> Result<Certificate, CertifyFault>
    requires { CanBeSpelled desc.now }
    ensures value { IfOk result (λ certificate. certificate ≡ certificate_of desc.now) }
    ensures sound { IfOk result (λ certificate. IsSound desc.now × IsSoundCertificate desc.now certificate) }
    ensures spelled { IfOk result (λ certificate. IsSpelledCertificate certificate) }
    ensures fault { IfErr result (RefusesToCertify desc.now) }
{
    match first_fault(alloc, desc)? {
        Some(fault) => Err(CertifyFault::Faulty(fault)),
        None => Ok(certificate_of(alloc, desc)?),
    }
}
