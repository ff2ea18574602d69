//! The key lines of a certificate beside the owners of a description's letters.

ghost use Rattle.std.specs.Prelude.{◌≡◌, ◌++◌, ◌↔◌, IfOk, OnOk, IsTrue, MatchOption, map, All};
ghost use Rattle.tv_model.specs.Description.Certificates.{letters};
ghost use Rattle.tv_check.specs.Certificates.{key_lines, NamesOwner, NamesOwners, owners_in};
ghost use Rattle.tv_check.specs.Lent.{lent_key_owner};
ghost use Rattle.tv_check.specs.Refusals.{IsFirstOwner, IsFirstWithout};

use crate::owner::KeyOwner;
use crate::owners::Owners;
use std::alloc::{AllocError, Global};
use tv_certificate::{Block, KeyLine, letters};
use tv_model::Desc;

// The key lines of the dialog of this name.
fn key_lines<'a>(
    alloc: Global,
    blocks: &'a [Block],
    dialog: &[char],
) -> Result<Vec<&'a KeyLine>, AllocError>
    ensures { IfOk result (λ lines. map (λ line. line.now) lines.items ≡ key_lines blocks.now dialog.now) }
{
    let mut lines = Vec::new(alloc);
    for block in blocks {
        if block.dialog.as_slice() == dialog {
            add_keys(&mut lines, block)?;
        }
    }
    Ok(lines)
}

fn add_keys<'a>(lines: &mut Vec<&'a KeyLine>, block: &'a Block) -> Result<(), AllocError>
    ensures { OnOk result (map (λ line. line.now) lines.new.items ≡ map (λ line. line.now) lines.old.items ++ block.now.keys) }
{
    for line in block.keys.as_slice() {
        lines.push(line)?;
    }
    Ok(())
}

// Whether the letter has just the lines of its owners, in their order.
fn names_owners(lines: &[&KeyLine], letter: char, owners: &[KeyOwner]) -> bool
    ensures { IsTrue result ↔ (owners_in (map (λ line. line.now) lines.now) letter ≡ map lent_key_owner owners.now) }
{
    let mut left = owners;
    for line in lines {
        if line.letter == letter {
            match left {
                [owner, others @ ..] if owner.is_named(line) => left = others,
                _ => return false,
            }
        }
    }
    left.is_empty()
}

// The first letter that doesn't have its owners.
fn first_letter(
    alloc: Global,
    lines: &[&KeyLine],
    owners: &Owners,
) -> Result<Option<char>, AllocError>
    ensures { IfOk result (λ letter. MatchOption letter
        (All (NamesOwner owners.now.version (map (λ line. line.now) lines.now) owners.now.dialog) letters)
        (IsFirstWithout (NamesOwner owners.now.version (map (λ line. line.now) lines.now) owners.now.dialog) letters)) }
{
    for letter in letters() {
        let own = owners.owners(alloc, *letter)?;
        if !names_owners(lines, *letter, &own) {
            return Ok(Some(*letter));
        }
    }
    Ok(None)
}

/// Finds the first dialog with a letter whose key lines aren't those of its owners. Returns the first such letter of that
/// dialog.
pub fn first_owner(alloc: Global, desc: &Desc, blocks: &[Block]) -> Result<Option<char>, AllocError>
    ensures { IfOk result (λ letter. MatchOption letter
        (All (NamesOwners desc.now.version blocks.now) desc.now.dialogs)
        (IsFirstOwner desc.now blocks.now)) }
{
    for dialog in desc.dialogs.as_slice() {
        let lines = key_lines(alloc, blocks, dialog.head().name.as_slice())?;
        let owners = Owners::new(alloc, desc.version, dialog)?;
        if let Some(letter) = first_letter(alloc, &lines, &owners)? {
            return Ok(Some(letter));
        }
    }
    Ok(None)
}
