//! The sixteen colours.

ghost use Rattle.std.specs.Prelude.{◌≡◌, ◌<◌, slice_index};
ghost use Rattle.tv_terminal.specs.Svg.{colour_text};
ghost use Rattle.tv_terminal.specs.Written.{fixed_indices, own_numbers};

/// Where a terminal takes its colours from.
#[derive(Clone, Copy, Debug, PartialEq, Eq)]
pub enum Colours {
    /// The terminal's own sixteen, which differ from one terminal to the other.
    Sixteen,
    /// The terminal's 256, of which those are taken that are nearest to the sixteen.
    Indexed,
}

// The sixteen among a terminal's own, in which red and blue are exchanged.
const OWN: [u8; 16] = [0, 4, 2, 6, 1, 5, 3, 7, 8, 12, 10, 14, 9, 13, 11, 15];

// Those of the 240 fixed ones that are nearest to the sixteen.
const FIXED: [u8; 16] = [
    16, 19, 34, 37, 124, 127, 130, 248, 240, 63, 83, 87, 203, 207, 227, 231,
];

/// Returns the number of a colour among a terminal's own sixteen.
pub(crate) fn own_number(colour: u8) -> u32
    requires { colour < 16 }
    ensures value { result ≡ slice_index own_numbers colour }
    ensures few { result < 16 }
{
    u32::from(OWN[usize::from(colour)])
}

/// Returns the index of the fixed colour that is nearest to one of the sixteen.
pub(crate) fn fixed_index(colour: u8) -> u32
    requires { colour < 16 }
    ensures value { result ≡ slice_index fixed_indices colour }
    ensures few { result < 256 }
{
    u32::from(FIXED[usize::from(colour)])
}

/// Returns the red, green and blue of a colour, as SVG writes them.
pub(crate) fn colour_text(colour: u8) -> &'static [u8]
    requires { colour < 16 }
    ensures { result.now ≡ colour_text colour }
{
    match colour {
        0 => b"#000000",
        1 => b"#0000aa",
        2 => b"#00aa00",
        3 => b"#00aaaa",
        4 => b"#aa0000",
        5 => b"#aa00aa",
        6 => b"#aa5500",
        7 => b"#aaaaaa",
        8 => b"#555555",
        9 => b"#5555ff",
        10 => b"#55ff55",
        11 => b"#55ffff",
        12 => b"#ff5555",
        13 => b"#ff55ff",
        14 => b"#ffff55",
        _ => b"#ffffff",
    }
}
