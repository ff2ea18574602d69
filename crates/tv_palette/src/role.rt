//! What the cells of the toolkit's views are for, each of which has a colour.

ghost use Rattle.std.specs.Prelude.{◌≡◌};
ghost use Rattle.tv_palette.specs.Chain.{coloured};
ghost use Rattle.tv_palette.specs.Palettes.{colour_in, palette_of, place_of, owner_palettes};
ghost use Rattle.tv_palette.specs.Attributes.{attribute_of};

use crate::chain::Chain;
use crate::palette::Palette;

/// What stands around a frame or a static text, and decides its colours.
#[derive(Clone, Copy, Debug, PartialEq, Eq)]
pub enum Owner {
    Window,
    Dialog,
}

/// A kind of view, and what a cell of it is for.
#[derive(Clone, Copy, Debug, PartialEq, Eq)]
pub enum Role {
    /// The desktop where nothing covers it.
    Background,
    /// The menu bar, or a menu's box.
    Bar(BarRole),
    Status(StatusRole),
    Frame(Owner, FrameRole),
    StaticText(Owner),
    Label(LabelRole),
    Button(ButtonRole),
    /// Check boxes and radio buttons.
    Cluster(ClusterRole),
    Input(InputRole),
    List(ListRole),
}

// Each number is the place in the view's palette.

#[derive(Clone, Copy, Debug, PartialEq, Eq)]
pub enum BarRole {
    Normal = 1,
    Letter = 2,
    /// The open title, or the current item.
    Selected = 3,
    SelectedLetter = 4,
}

#[derive(Clone, Copy, Debug, PartialEq, Eq)]
pub enum StatusRole {
    Normal = 1,
    Disabled = 2,
}

#[derive(Clone, Copy, Debug, PartialEq, Eq)]
pub enum FrameRole {
    Passive = 1,
    Active = 2,
    /// What the frame surrounds.
    Body = 3,
}

#[derive(Clone, Copy, Debug, PartialEq, Eq)]
pub enum LabelRole {
    Normal = 1,
    /// The control that the label stands for has the focus.
    Focused = 2,
    Letter = 3,
}

#[derive(Clone, Copy, Debug, PartialEq, Eq)]
pub enum ButtonRole {
    Normal = 1,
    /// Enter presses it.
    Default = 2,
    Focused = 3,
    Disabled = 4,
    Letter = 5,
}

#[derive(Clone, Copy, Debug, PartialEq, Eq)]
pub enum ClusterRole {
    Normal = 1,
    /// The selected row while the cluster has the focus.
    Selected = 2,
    Letter = 3,
}

#[derive(Clone, Copy, Debug, PartialEq, Eq)]
pub enum InputRole {
    Normal = 1,
    SelectedText = 2,
    /// An arrow where text is hidden.
    Arrow = 3,
    Cursor = 4,
}

#[derive(Clone, Copy, Debug, PartialEq, Eq)]
pub enum ListRole {
    Normal = 1,
    /// The chosen item while the list has the focus.
    Focused = 2,
    /// The chosen item while it hasn't.
    Chosen = 3,
}

impl Role {
    /// Returns the palette of a view that has the role.
    pub fn palette(self) -> Palette
        ensures { result.entries.now ≡ palette_of self }
    {
        match self {
            Role::Background => Palette::new(&[1]),
            Role::Bar(_) => Palette::new(&[2, 3, 4, 5]),
            Role::Status(_) => Palette::new(&[2, 29]),
            Role::Frame(Owner::Window, _) => Palette::new(&[1, 2, 3]),
            Role::Frame(Owner::Dialog, _) => Palette::new(&[1, 1, 2]),
            Role::StaticText(Owner::Window) => Palette::new(&[3]),
            Role::StaticText(Owner::Dialog) => Palette::new(&[2]),
            Role::Label(_) => Palette::new(&[3, 4, 5]),
            Role::Button(_) => Palette::new(&[6, 7, 8, 9, 10]),
            Role::Cluster(_) => Palette::new(&[11, 12, 13]),
            Role::Input(_) => Palette::new(&[14, 15, 16, 17]),
            Role::List(_) => Palette::new(&[18, 19, 20]),
        }
    }

    /// Returns the place of the role in its view's palette, from 1.
    pub fn place(self) -> u8
        ensures { result ≡ place_of self }
    {
        match self {
            Role::Background | Role::StaticText(_) => 1,
            Role::Bar(role) => role as u8,
            Role::Status(role) => role as u8,
            Role::Frame(_, role) => role as u8,
            Role::Label(role) => role as u8,
            Role::Button(role) => role as u8,
            Role::Cluster(role) => role as u8,
            Role::Input(role) => role as u8,
            Role::List(role) => role as u8,
        }
    }

    /// Returns the attribute of the role's cells, for a view that the last view of the chain owns.
    ///
    /// With the toolkit's own palettes that is the role's one attribute, however many groups are around the view.
    #[tactic(auto, using(crate::proofs::ColourLemmas::leads_through))]
    pub fn attr(self, owners: &Chain) -> u8
        ensures chain { result ≡ colour_in owners.now self }
        ensures table { coloured owners.now ≡ owner_palettes self → result ≡ attribute_of self }
    {
        owners.attr(self.palette().entry(self.place()))
    }
}
