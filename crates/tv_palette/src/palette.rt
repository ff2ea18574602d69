//! Palettes.

ghost use Rattle.std.specs.Prelude.{◌≡◌, ◌≤◌, length, []};
ghost use Rattle.tv_palette.specs.Chain.{entry};
ghost use Rattle.tv_palette.specs.Palettes.{application, window, dialog};

/// How a view's own colour numbers become those of its owner or, in the application's palette, attributes.
///
/// Numbers count the entries from 1. A view without a palette has the empty one, which passes each number on.
#[derive(Clone, Copy, Debug)]
pub struct Palette {
    entries: &'static [u8],
    ghost small: { length entries.now ≤ 32 },
}

impl Palette {
    /// Makes the palette with these entries.
    pub fn new(entries: &'static [u8]) -> Palette
        requires { length entries.now ≤ 32 }
        ensures { result.entries.now ≡ entries.now }
    {
        Palette { entries }
    }

    /// Returns the palette of a view that has none of its own, such as a group.
    pub fn empty() -> Palette
        ensures { result.entries.now ≡ [] }
    {
        Palette { entries: &[] }
    }

    /// Returns the application's palette, whose entries are the attributes that all others lead to.
    pub fn application() -> Palette
        ensures { result.entries.now ≡ application }
    {
        Palette {
            entries: &[
                0x71, 0x70, 0x74, 0x20, 0x24, 0x17, 0x1f, 0x1e, 0x7f, 0x70, 0x70, 0x7f, 0x7e, 0x20,
                0x2b, 0x2f, 0x78, 0x2e, 0x30, 0x3f, 0x3e, 0x1f, 0x2f, 0x1a, 0x4f, 0x30, 0x2f, 0x3e,
                0x78,
            ],
        }
    }

    /// Returns the palette of a window, for its frame and texts.
    pub fn window() -> Palette
        ensures { result.entries.now ≡ window }
    {
        Palette {
            entries: &[6, 7, 8],
        }
    }

    /// Returns the palette of a dialog, for its frame, texts and controls.
    pub fn dialog() -> Palette
        ensures { result.entries.now ≡ dialog }
    {
        Palette {
            entries: &[
                9, 10, 11, 12, 13, 14, 15, 16, 17, 18, 19, 20, 21, 22, 23, 24, 25, 26, 27, 28,
            ],
        }
    }

    /// Returns its entries.
    pub fn entries(self) -> &'static [u8]
        ensures { result.now ≡ self.entries.now }
    {
        self.entries
    }

    /// Returns what a number becomes: the entry that it counts to, or 0 where the palette lacks it.
    pub fn entry(self, index: u8) -> u8
        ensures { result ≡ entry self.entries.now index }
    {
        if self.entries.is_empty() {
            return index;
        }
        if index == 0 {
            return 0;
        }
        match self.entries.get(index as usize - 1) {
            Some(entry) => *entry,
            None => 0,
        }
    }
}

impl Default for Palette {
    ghost is_default = { λ palette. palette.entries.now ≡ [] };

    fn default() -> Palette {
        Palette::empty()
    }
}
