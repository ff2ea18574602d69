//! The flags of a view, with the numbers of the Turbo Vision guide.

ghost use Rattle.std.specs.Prelude.{⊤, [], ◌∷◌, codes};

use bitflags::{Flag, Flags, bitflag_items};

/// What a view asks of its owner.
#[derive(Clone, Copy, Debug, PartialEq, Eq)]
pub struct Options(u16);

bitflag_items! {
    impl Options: u16 {
        const SELECTABLE = 0x0001;
        const TOP_SELECT = 0x0002;
        const FIRST_CLICK = 0x0004;
        const PRE_PROCESS = 0x0010;
        const POST_PROCESS = 0x0020;
        const VALIDATE = 0x0400;
    }
}

impl Flags for Options {
    type Bits = u16;

    ghost exact = { ⊤ };

    ghost table = { (codes "SELECTABLE", 1) ∷ (codes "TOP_SELECT", 2) ∷ (codes "FIRST_CLICK", 4) ∷ (codes "PRE_PROCESS", 16)
        ∷ (codes "POST_PROCESS", 32) ∷ (codes "VALIDATE", 1024) ∷ [] };

    ghost set_of = { λ o. o.0 };

    fn flags<'a>() -> &'a [Flag<Options>] {
        Options::FLAGS
    }

    fn bits(&self) -> u16 {
        self.0
    }

    fn from_bits_retain(bits: u16) -> Options {
        Options(bits)
    }
}

/// How a view is now.
#[derive(Clone, Copy, Debug, PartialEq, Eq)]
pub struct State(u16);

bitflag_items! {
    impl State: u16 {
        const VISIBLE = 0x0001;
        const SHADOW = 0x0008;
        const ACTIVE = 0x0010;
        const SELECTED = 0x0020;
        const FOCUSED = 0x0040;
        const DISABLED = 0x0100;
        const MODAL = 0x0200;
    }
}

impl Flags for State {
    type Bits = u16;

    ghost exact = { ⊤ };

    ghost table = { (codes "VISIBLE", 1) ∷ (codes "SHADOW", 8) ∷ (codes "ACTIVE", 16) ∷ (codes "SELECTED", 32)
        ∷ (codes "FOCUSED", 64) ∷ (codes "DISABLED", 256) ∷ (codes "MODAL", 512) ∷ [] };

    ghost set_of = { λ s. s.0 };

    fn flags<'a>() -> &'a [Flag<State>] {
        State::FLAGS
    }

    fn bits(&self) -> u16 {
        self.0
    }

    fn from_bits_retain(bits: u16) -> State {
        State(bits)
    }
}
