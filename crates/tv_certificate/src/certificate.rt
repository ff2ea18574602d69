//! Certificates: what a maker of a description may rely on at the keyboard.

ghost use Rattle.std.specs.Prelude.{◌≡◌};
ghost use Rattle.tv_certificate.specs.CertificateTexts.{number_of_version};

use tv_model::{Sequence, Version, When};
use tv_valid::Chars;

/// The order of Tab in each dialog, and the control on which each shortcut letter acts.
#[derive(Debug, Drop)]
pub struct Certificate {
    pub version: Version,
    /// In the order of the text.
    pub blocks: Sequence<Block>,
}

/// Lines of one dialog. A dialog may have several blocks.
#[derive(Debug, Drop)]
pub struct Block {
    /// The name of the dialog.
    pub dialog: Chars,
    /// The names of controls.
    pub tabs: Sequence<Chars>,
    pub keys: Sequence<KeyLine>,
}

/// A shortcut letter, and what it acts on.
#[derive(Debug, Drop)]
pub struct KeyLine {
    /// `0` to `9` or `A` to `Z`.
    pub letter: char,
    /// The name of a control.
    pub owner: Chars,
    /// The item, counted from 1, where an item of a cluster marks the letter.
    pub item: Option<i32>,
    /// The item of radio buttons that is marked while the letter acts on this owner, where it has several.
    pub when: Option<When>,
}

impl Certificate {
    /// Returns the number that the first line names.
    pub fn version(&self) -> u8
        ensures { result ≡ number_of_version self.now.version }
    {
        match self.version {
            Version::One => 1,
            Version::Two => 2,
        }
    }

    /// Returns the blocks, in the order of the text.
    pub fn blocks(&self) -> &[Block]
        ensures { result.now ≡ self.now.blocks }
    {
        self.blocks.as_slice()
    }
}
