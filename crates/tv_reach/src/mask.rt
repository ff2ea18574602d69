//! Sets of rules of a dialog.

ghost use Rattle.std.specs.Prelude.{◌≡◌, ◌↔◌, ◌<◌, ◌⊎◌, ℕ, IsTrue};
ghost use Rattle.tv_reach.specs.Masks.{HasRule};

/// A set of rules of a dialog, each by its place, which is below 64.
#[derive(Clone, Copy, Debug, PartialEq, Eq, Hash)]
pub struct Mask {
    pub bits: u64,
}

impl Mask {
    pub const NONE: Mask = Mask { bits: 0 };

    /// The rule of this place alone.
    pub fn only(place: usize) -> Mask
        requires { place < 64 }
        ensures { (k : ℕ) → HasRule result k ↔ (k ≡ place) }
    {
        Mask { bits: 1 << place }
    }

    /// Whether the rule of the place is in the set.
    #[inline(always)]
    pub fn has(self, place: usize) -> bool
        requires { place < 64 }
        ensures { IsTrue result ↔ HasRule self place }
    {
        self.bits & (1 << place) != 0
    }

    /// Returns the rules that are in one of the two sets.
    #[inline(always)]
    pub fn union(self, other: Mask) -> Mask
        ensures { (k : ℕ) → HasRule result k ↔ (HasRule self k ⊎ HasRule other k) }
    {
        Mask {
            bits: self.bits | other.bits,
        }
    }

    /// Returns the rules of the set that aren't in the other.
    #[inline(always)]
    pub fn without(self, other: Mask) -> Mask
        ensures { (k : ℕ) → HasRule result k ↔ (HasRule self k × (HasRule other k → ⊥)) }
    {
        Mask {
            bits: self.bits ^ (self.bits & other.bits),
        }
    }

    /// Whether each rule of the other set is in this one.
    #[inline(always)]
    pub fn contains_all(self, other: Mask) -> bool
        ensures { IsTrue result ↔ ((k : ℕ) → HasRule other k → HasRule self k) }
    {
        other.without(self).bits == 0
    }
}
