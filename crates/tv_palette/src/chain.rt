//! The palettes from a view to the application.

ghost use Rattle.std.specs.Prelude.{◌≡◌, ◌≤◌, ◌<◌, [], ◌∷◌, length, IsTrue, ◌↔◌};
ghost use Rattle.tv_palette.specs.Chain.{attr_of};
ghost use Rattle.tv_palette.specs.Entries.{entries_of};
ghost use Rattle.tv_palette.specs.Palettes.{application, window, dialog};

use crate::palette::Palette;
use crate::role::Owner;
use arrayvec::ArrayVec;
use std::marker::Model;

/// The palettes from a view's own to the application's, at most 16. Contracts see the list of their entries.
#[derive(Debug, Drop)]
pub struct Chain {
    palettes: ArrayVec<Palette, 16>,
    /// What each number becomes along them, so that no look-up goes through them again.
    attrs: [u8; 256],
    /// Whose views it is of, where those are a window's or a dialog's, so that two such chains are compared at once.
    owner: Option<Owner>,
}

impl Model for Chain {
    ghost use Rattle.std.specs.Prelude.{ℕ, List, length, ◌≤◌};
    ghost use Rattle.tv_palette.specs.Chain.{IsLookUp};
    ghost use Rattle.tv_palette.specs.Palettes.{IsOwned};
    ghost use Rattle.tv_palette.specs.Entries.{entries_of};

    ghost Value = { List (List ℕ) };

    ghost view = { λ c. entries_of c.palettes.items };

    ghost invariant = { λ c. (length c.palettes.items ≤ 16) × IsLookUp (entries_of c.palettes.items) c.attrs
        × IsOwned c.owner (entries_of c.palettes.items) };
}

impl Chain {
    /// Makes the chain without palettes, in which each number is its own attribute.
    pub fn new() -> Chain
        ensures { result ≡ [] }
    {
        let mut attrs = [0; 256];
        for (index, attr) in attrs.iter_mut().enumerate() {
            *attr = index as u8;
        }
        Chain {
            palettes: ArrayVec::new(),
            attrs,
            owner: None,
        }
    }

    /// Makes the chain of what a window owns.
    pub fn of_window() -> Chain
        ensures { result ≡ window ∷ application ∷ [] }
    {
        let mut chain = Chain::new()
            .extended(Palette::application())
            .extended(Palette::window());
        chain.owner = Some(Owner::Window);
        chain
    }

    /// Makes the chain of what a dialog owns.
    pub fn of_dialog() -> Chain
        ensures { result ≡ dialog ∷ application ∷ [] }
    {
        let mut chain = Chain::new()
            .extended(Palette::application())
            .extended(Palette::dialog());
        chain.owner = Some(Owner::Dialog);
        chain
    }

    /// Whether there are 16 palettes, and so no room for another.
    pub fn is_full(&self) -> bool
        ensures { IsTrue result ↔ (16 ≤ length self.now) }
    {
        self.palettes.is_full()
    }

    /// Makes the chain of a view that has palette `own` and that the last view of this chain owns.
    pub fn extended(&self, own: Palette) -> Chain
        requires { length self.now < 16 }
        ensures { result ≡ own.entries.now ∷ self.now }
    {
        let mut palettes = ArrayVec::new();
        palettes.push(own);
        palettes
            .try_extend_from_slice(self.palettes.as_slice())
            .unwrap();
        let mut attrs = [0; 256];
        for (index, attr) in attrs.iter_mut().enumerate() {
            *attr = self.attr(own.entry(index as u8));
        }
        Chain {
            palettes,
            attrs,
            owner: None,
        }
    }

    /// Whether the two chains have the same palettes.
    pub fn is(&self, other: &Chain) -> bool
        ensures { IsTrue result ↔ (self.now ≡ other.now) }
    {
        if self.owner.is_some() && self.owner == other.owner {
            return true;
        }
        are_same(self.palettes.as_slice(), other.palettes.as_slice())
    }

    /// Returns the attribute that a view's number becomes, looked up in one palette after another.
    pub fn attr(&self, index: u8) -> u8
        ensures { result ≡ attr_of self.now index }
    {
        self.attrs[index as usize]
    }
}

// Whether the palettes have the same entries, one by one.
fn are_same(palettes: &[Palette], others: &[Palette]) -> bool
    ensures { IsTrue result ↔ (entries_of palettes.now ≡ entries_of others.now) }
{
    match (palettes.split_first(), others.split_first()) {
        (None, None) => true,
        (Some((first, rest)), Some((other, left))) => {
            first.entries() == other.entries() && are_same(rest, left)
        }
        _ => false,
    }
}
