//! Where the members of a pattern stand in a text, for each place at once.

ghost use Rattle.std.specs.Prelude.{◌≡◌, ◌↔◌, ◌+◌, ◌≤◌, ◌<◌, ℕ, List, length, IsTrue};
ghost use Rattle.tv_picture.specs.Pattern.{Pattern, Allows, empty, one, sequence, either, optional, many, times};
ghost use Rattle.tv_picture.specs.Table.{HasEachRow, IsTableRow, Gathers, IsGathered, NamesNext};

use crate::code::Mark;
use crate::places::Places;
use crate::row::{Next, Row};

/// How many places a text of 120 characters has.
const PLACES: usize = 121;

/// A row for each place of a text of at most 120 characters. What is done to a table for a text of `len` characters is done in
/// place, and to rows 0 to `len` alone: the others are never read.
#[derive(Clone, Copy)]
pub struct Table {
    pub rows: [Row; PLACES],
}

impl Table {
    pub const BLANK: Table = Table {
        rows: [Row::NONE; PLACES],
    };

    /// Makes it the table of the empty sequence.
    pub fn set_empty(&mut self, len: usize)
        requires { len ≤ 120 }
        ensures { (text : List ℕ) → length text ≡ len → HasEachRow empty text self.new }
    {
        for place in 0..len + 1 {
            self.rows[place] = Row {
                ends: Places::only(place),
                next: Next::Nothing,
            };
        }
    }

    /// Makes it the table of one character.
    pub fn set_one(&mut self, mark: Mark, text: &[char])
        requires { length text.now ≤ 120 }
        ensures { HasEachRow (one mark) text.now self.new }
    {
        for (place, ch) in text.iter().enumerate() {
            self.rows[place] = Row {
                ends: if mark.allows(*ch) {
                    Places::only(place + 1)
                } else {
                    Places::NONE
                },
                next: Next::Nothing,
            };
        }
        self.rows[text.len()] = Row {
            ends: Places::NONE,
            next: mark.next(),
        };
    }

    /// Makes it the table of a sequence: itself, then the other. It goes from the last place down to the first, as the ends of a row
    /// are often those of the next row and a few more.
    pub fn then(&mut self, other: &Table, len: usize)
        requires { len ≤ 120 }
        ensures { (a b : Pattern) (text : List ℕ) → length text ≡ len → HasEachRow a text self.old
            → HasEachRow b text other.now → HasEachRow (sequence a b) text self.new }
    {
        let mut ends = Places::NONE;
        let mut gathered = Row::NONE;
        for done in 0..len + 1 {
            let from = len - done;
            let row = self.rows[from];
            gathered = other.gather_more(row.ends, ends, gathered, len);
            ends = row.ends;
            self.rows[from] = row.unended().join(gathered);
        }
    }

    /// Makes it the table of a sequence of itself and itself, and says whether that left it as it was. A row needs its own and
    /// those of later places alone.
    fn square(&mut self, len: usize) -> bool
        requires { len ≤ 120 }
        ensures joins { (a b : Pattern) (text : List ℕ) → length text ≡ len → HasEachRow a text self.old
            → HasEachRow b text self.old → HasEachRow (sequence a b) text self.new }
        ensures same { IsTrue result → self.new ≡ self.old }
    {
        let mut same = true;
        for from in 0..len + 1 {
            let row = self.rows[from];
            let squared = self.gather(row.ends, from, len + 1, row.unended());
            same = same && squared.is(row);
            self.rows[from] = squared;
        }
        same
    }

    /// Joins to the row those of the table at these places from `start` on below `stop`.
    fn gather(&self, places: Places, start: usize, stop: usize, first: Row) -> Row
        requires order { start ≤ stop }
        requires bound { stop ≤ 121 }
        ensures { Gathers places self.now start stop first result }
    {
        let mut row = first;
        let mut rest = places.past(start);
        for place in start..stop {
            if rest.is_below(0) {
                return row;
            }
            if rest.has(0) {
                row = row.join(self.rows[place]);
            }
            rest = rest.past(1);
        }
        row
    }

    /// Joins to the row those of the table at these places below `stop`.
    pub fn gather_all(&self, places: Places, stop: usize, first: Row) -> Row
        requires { stop ≤ 121 }
        ensures { Gathers places self.now 0 stop first result }
    {
        self.gather(places, places.first_from(0).min(stop), stop, first)
    }

    /// Joins the rows of the table at these places, where those at the places before are gathered. If each of them is still
    /// among the places, only the others are looked at.
    fn gather_more(&self, places: Places, before: Places, gathered: Row, len: usize) -> Row
        requires { len ≤ 120 }
        ensures { (b : Pattern) (text : List ℕ) → length text ≡ len → HasEachRow b text self.now
            → IsGathered b text before self.now gathered → IsGathered b text places self.now result }
    {
        if places.contains_all(before) {
            let more = self.gather_all(places.without(before), len + 1, Row::NONE);
            gathered.join(more)
        } else {
            self.gather_all(places, len + 1, Row::NONE)
        }
    }

    /// Returns the row from the text's first place on of a sequence: what has this row there, then what has this table, any
    /// number of times. A member ends where it begins or later, so each place is looked at once.
    pub fn many_after(&self, first: Row, len: usize) -> Row
        requires { len ≤ 120 }
        ensures { (a b : Pattern) (text : List ℕ) → length text ≡ len → IsTableRow a text 0 first
            → HasEachRow b text self.now → IsTableRow (sequence a (many b)) text 0 result }
    {
        let mut row = first;
        for place in 0..len + 1 {
            if row.ends.has(place) {
                row = row.join(self.rows[place]);
            }
        }
        row
    }

    /// Returns the row from the text's first place on of a sequence: what has this row there, then what has this table, so many
    /// times.
    pub fn times_after(&self, first: Row, count: u8, len: usize) -> Row
        requires { len ≤ 120 }
        ensures { (a b : Pattern) (text : List ℕ) → length text ≡ len → IsTableRow a text 0 first
            → HasEachRow b text self.now → IsTableRow (sequence a (times count b)) text 0 result }
    {
        let mut row = first;
        for done in 0..count {
            let more = self.gather_all(row.ends, len + 1, row.unended());
            if more.is(row) {
                return row;
            }
            row = more;
        }
        row
    }

    /// Makes it the table of alternatives: itself, or the other.
    pub fn or(&mut self, other: &Table, len: usize)
        requires { len ≤ 120 }
        ensures { (a b : Pattern) (text : List ℕ) → length text ≡ len → HasEachRow a text self.old
            → HasEachRow b text other.now → HasEachRow (either a b) text self.new }
    {
        for place in 0..len + 1 {
            self.rows[place] = self.rows[place].join(other.rows[place]);
        }
    }

    /// Makes it the table of an option.
    pub fn set_optional(&mut self, len: usize)
        requires { len ≤ 120 }
        ensures { (a : Pattern) (text : List ℕ) → length text ≡ len → HasEachRow a text self.old → HasEachRow (optional a) text self.new }
    {
        for place in 0..len + 1 {
            let stays = Row {
                ends: Places::only(place),
                next: Next::Nothing,
            };
            self.rows[place] = self.rows[place].join(stays);
        }
    }

    /// Makes it the table of a repetition any number of times. A row needs those of later places alone.
    pub fn repeat(&mut self, len: usize)
        requires { len ≤ 120 }
        ensures { (a : Pattern) (text : List ℕ) → length text ≡ len → HasEachRow a text self.old → HasEachRow (many a) text self.new }
    {
        for done in 0..len + 1 {
            let from = len - done;
            let row = self.rows[from];
            let first = Row {
                ends: Places::only(from),
                next: row.next,
            };
            self.rows[from] = self.gather(row.ends, from + 1, len + 1, first);
        }
    }

    /// Makes it the table of a repetition so many times, by squaring.
    pub fn repeat_times(&mut self, count: u8, len: usize)
        requires { len ≤ 120 }
        ensures { (a : Pattern) (text : List ℕ) → length text ≡ len → HasEachRow a text self.old
            → HasEachRow (times count a) text self.new }
    {
        let mut power = *self;
        self.set_empty(len);
        let mut left = count;
        while left > 0 {
            if left % 2 == 1 {
                self.then(&power, len);
            }
            left /= 2;
            if left > 0 && power.square(len) {
                self.then(&power, len);
                return;
            }
        }
    }
}
