//! Which kinds of event a view takes.

ghost use Rattle.std.specs.Prelude.{⊤, ◌≡◌, ◌==◌, not, [], ◌∷◌, codes};
ghost use Rattle.std.specs.Int.RustNames.{bit_and};
ghost use Rattle.tv_event.specs.Mask.{bit_of};

use crate::event::Event;
use bitflags::{Flag, Flags, bitflag_items};

/// A set of kinds of event.
#[derive(Clone, Copy, Debug, PartialEq, Eq)]
pub struct Mask(u16);

bitflag_items! {
    impl Mask: u16 {
        const MOUSE_DOWN = 0x0001;
        const MOUSE_UP = 0x0002;
        const MOUSE_MOVE = 0x0004;
        const KEY_DOWN = 0x0010;
        const COMMAND = 0x0100;
        const BROADCAST = 0x0200;
    }
}

impl Flags for Mask {
    type Bits = u16;

    ghost exact = { ⊤ };

    ghost table = { (codes "MOUSE_DOWN", 1) ∷ (codes "MOUSE_UP", 2) ∷ (codes "MOUSE_MOVE", 4) ∷ (codes "KEY_DOWN", 16)
        ∷ (codes "COMMAND", 256) ∷ (codes "BROADCAST", 512) ∷ [] };

    ghost set_of = { λ m. m.0 };

    fn flags<'a>() -> &'a [Flag<Mask>] {
        Mask::FLAGS
    }

    fn bits(&self) -> u16 {
        self.0
    }

    fn from_bits_retain(bits: u16) -> Mask {
        Mask(bits)
    }
}

impl Mask {
    /// Returns what a view takes by default: mouse downs, keys and commands.
    pub fn of_view() -> Mask
        ensures { result.0 ≡ 0x0111 }
    {
        Mask::MOUSE_DOWN.union(Mask::KEY_DOWN).union(Mask::COMMAND)
    }

    /// Returns every kind, which is what a group takes.
    pub fn of_group() -> Mask
        ensures { result.0 ≡ 0x0317 }
    {
        Mask::all()
    }

    /// Returns the kind of an event.
    pub fn of_event(event: &Event) -> Mask
        ensures { result.0 ≡ bit_of event.now }
    {
        match event {
            Event::Down(_) => Mask::MOUSE_DOWN,
            Event::Up(_) => Mask::MOUSE_UP,
            Event::Move(_) => Mask::MOUSE_MOVE,
            Event::Key(_) => Mask::KEY_DOWN,
            Event::Command(_) => Mask::COMMAND,
            Event::Broadcast(_) => Mask::BROADCAST,
        }
    }

    /// Whether a view with this mask takes the event.
    pub fn takes(self, event: &Event) -> bool
        ensures { result ≡ not (bit_and self.0 (bit_of event.now) == 0) }
    {
        self.intersects(Mask::of_event(event))
    }
}
