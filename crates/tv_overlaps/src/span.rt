//! Spans of columns or rows.

ghost use Rattle.std.specs.Prelude.{◌≡◌, pos, ◌+ℤ◌, ◌≤ℤ◌, MatchOption};
ghost use Rattle.tv_overlaps.specs.Marks.{AreHalves, span_of_both, span_covers, enters, meets};

/// Columns or rows side by side: the low one and those after it, without the high one.
#[derive(Clone, Copy)]
pub struct Span {
    pub low: i128,
    pub high: i128,
}

impl Span {
    /// The span without columns or rows.
    pub const EMPTY: Span = Span {
        low: i128::MAX,
        high: i128::MIN,
    };

    /// Whether all of the other lies in it.
    pub fn covers(&self, other: &Span) -> bool
        ensures { result ≡ span_covers self.now other.now }
    {
        self.low <= other.low && other.high <= self.high
    }

    /// Whether the two share something, where neither is empty.
    pub fn meets(&self, other: &Span) -> bool
        ensures { result ≡ meets self.now other.now }
    {
        self.low < other.high && other.low < self.high
    }

    /// Whether it has something of this half of the whole, but not all of the whole.
    pub fn enters(&self, whole: &Span, half: &Span) -> bool
        ensures { result ≡ enters whole.now half.now self.now }
    {
        !self.covers(whole) && half.meets(self)
    }

    /// Returns its two halves, or `None` where it has at most one column or row.
    pub fn halves(&self) -> Option<(Span, Span)>
        ensures { MatchOption result (self.now.high ≤ℤ (self.now.low +ℤ pos 1)) (λ halves. AreHalves self.now halves.0 halves.1) }
    {
        let middle = self.low.midpoint(self.high);
        if middle <= self.low || self.high <= middle {
            return None;
        }
        let lower = Span {
            low: self.low,
            high: middle,
        };
        let upper = Span {
            low: middle,
            high: self.high,
        };
        Some((lower, upper))
    }

    /// Returns the least span that contains both.
    pub fn around(&self, other: &Span) -> Span
        ensures { result ≡ span_of_both self.now other.now }
    {
        Span {
            low: self.low.min(other.low),
            high: self.high.max(other.high),
        }
    }
}
