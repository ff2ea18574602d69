//! Sets of places of a text.

ghost use Rattle.std.specs.Prelude.{◌≡◌, ◌↔◌, ◌+◌, ◌<◌, ◌≤◌, ◌⊎◌, ℕ, IsTrue, length};
ghost use Rattle.tv_picture.specs.Table.{HasPlace, StandsAt};

use crate::code::Mark;

/// A set of places, each below 128.
#[derive(Clone, Copy, PartialEq, Eq)]
pub struct Places {
    pub bits: u128,
}

impl Places {
    pub const NONE: Places = Places { bits: 0 };

    /// This place alone.
    pub fn only(place: usize) -> Places
        requires { place < 128 }
        ensures { (k : ℕ) → HasPlace result k ↔ (k ≡ place) }
    {
        Places { bits: 1 << place }
    }

    #[inline(always)]
    pub fn has(self, place: usize) -> bool
        requires { place < 128 }
        ensures { IsTrue result ↔ HasPlace self place }
    {
        self.bits & (1 << place) != 0
    }

    #[inline(always)]
    pub fn union(self, other: Places) -> Places
        ensures { (k : ℕ) → HasPlace result k ↔ (HasPlace self k ⊎ HasPlace other k) }
    {
        Places {
            bits: self.bits | other.bits,
        }
    }

    /// Returns the places of the set that aren't in the other.
    #[inline(always)]
    pub fn without(self, other: Places) -> Places
        ensures { (k : ℕ) → HasPlace result k ↔ (HasPlace self k × (HasPlace other k → ⊥)) }
    {
        Places {
            bits: self.bits ^ (self.bits & other.bits),
        }
    }

    /// Whether each place of the other set is in this one.
    #[inline(always)]
    pub fn contains_all(self, other: Places) -> bool
        ensures { IsTrue result ↔ ((k : ℕ) → HasPlace other k → HasPlace self k) }
    {
        other.without(self).is_below(0)
    }

    /// Returns the places from this one on, counted from it.
    #[inline(always)]
    pub fn past(self, place: usize) -> Places
        requires { place < 128 }
        ensures { (k : ℕ) → HasPlace result k ↔ HasPlace self (place + k) }
    {
        Places {
            bits: self.bits >> place,
        }
    }

    /// Returns the least place of the set from this one on, or one that is no place of any set.
    pub fn first_from(self, place: usize) -> usize
        requires { place < 128 }
        ensures order { place ≤ result }
        ensures below { (k : ℕ) → place ≤ k → k < result → HasPlace self k → ⊥ }
        ensures here { result < 128 → HasPlace self result }
        ensures bound { result < 256 }
    {
        place + (self.bits >> place).trailing_zeros() as usize
    }

    /// Returns the places after those at which the mark stands for the text's character.
    pub fn after(self, mark: Mark, text: &[char]) -> Places
        requires { length text.now ≤ 120 }
        ensures { (k : ℕ) → HasPlace result k ↔ ((p : ℕ) × HasPlace self p × StandsAt mark text.now p × (k ≡ p + 1)) }
    {
        let mut after = Places::NONE;
        let mut place = self.first_from(0);
        while place < text.len() {
            if mark.allows(text[place]) {
                after = after.union(Places::only(place + 1));
            }
            place = self.first_from(place + 1);
        }
        after
    }

    /// Returns the places of the set whose next place isn't in it.
    fn edges(self) -> Places
        ensures { (k : ℕ) → HasPlace result k ↔ (HasPlace self k × (HasPlace self (k + 1) → ⊥)) }
    {
        Places {
            bits: self.bits ^ (self.bits & (self.bits >> 1)),
        }
    }

    /// Returns the places to which any number of characters lead from those of the set, where the mark stands for each. Only at
    /// the edges of the set a character can lead to a new place.
    pub fn spread(self, mark: Mark, text: &[char]) -> Places
        requires { length text.now ≤ 120 }
        ensures { (k : ℕ) → HasPlace result k ↔ ((p : ℕ) × HasPlace self p × (p ≤ k) × ((r : ℕ) → p ≤ r → r < k
            → StandsAt mark text.now r)) }
    {
        let mut places = self;
        let mut place = self.edges().first_from(0);
        while place < text.len() {
            if mark.allows(text[place]) {
                places = places.union(Places::only(place + 1));
            }
            place = places.edges().first_from(place + 1);
        }
        places
    }

    /// Returns how many places there are.
    pub fn count(self) -> usize
        ensures { result ≤ 128 }
    {
        self.bits.count_ones() as usize
    }

    /// Whether each place of the set is below this one.
    #[inline(always)]
    pub fn is_below(self, place: usize) -> bool
        requires { place < 128 }
        ensures { IsTrue result ↔ ((k : ℕ) → place ≤ k → HasPlace self k → ⊥) }
    {
        self.bits >> place == 0
    }
}
