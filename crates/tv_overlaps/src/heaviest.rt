//! The heaviest of the views passed so far.

ghost use Rattle.std.specs.Prelude.{◌≡◌, max, true, false, ◌&&◌, if◌then◌else◌};
ghost use Rattle.tv_overlaps.specs.Heaviest.{at_least};

/// The greatest weights of the views passed so far: of all of them, and of those that stretch far enough; 0 where there
/// is none.
#[derive(Clone, Copy)]
pub struct Heaviest {
    any: u8,
    filling: u8,
    wide: u8,
    both: u8,
}

impl Heaviest {
    /// Starts before the first view.
    pub fn none() -> Heaviest
        ensures { result ≡ record { any = 0; filling = 0; wide = 0; both = 0 } }
    {
        Heaviest {
            any: 0,
            filling: 0,
            wide: 0,
            both: 0,
        }
    }

    /// Returns the greatest weight of the passed views that go with the view at hand: those that fill, unless that one
    /// does, and that are wide, unless that one is.
    pub fn beside(&self, fills: bool, wide: bool) -> u8
        ensures { result ≡ (if fills then (if wide then self.now.any else self.now.wide) else (if wide
            then self.now.filling else self.now.both)) }
    {
        match (fills, wide) {
            (true, true) => self.any,
            (true, false) => self.wide,
            (false, true) => self.filling,
            (false, false) => self.both,
        }
    }

    /// Passes one more view.
    pub fn pass(&mut self, weight: u8, fills: bool, wide: bool)
        ensures any { self.new.any ≡ max (at_least true weight) self.old.any }
        ensures filling { self.new.filling ≡ max (at_least fills weight) self.old.filling }
        ensures wide { self.new.wide ≡ max (at_least wide weight) self.old.wide }
        ensures both { self.new.both ≡ max (at_least (fills && wide) weight) self.old.both }
    {
        self.any = self.any.max(weight);
        if fills {
            self.filling = self.filling.max(weight);
        }
        if wide {
            self.wide = self.wide.max(weight);
        }
        if fills && wide {
            self.both = self.both.max(weight);
        }
    }
}
