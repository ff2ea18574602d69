//! The length of a pattern's shortest member.

ghost use Rattle.std.specs.Prelude.{◌≡◌, ◌+◌, ◌*◌, ◌<◌, ◌≤◌, min, ℕ, List, Some, IsSome};
ghost use Rattle.tv_picture.specs.Pattern.{Pattern, IsShortest, one};
ghost use Rattle.tv_picture.specs.Code.{patterns_after, height_after, height_from, pattern_of};
ghost use Rattle.tv_picture.specs.Machine.{Made, StandsBelow};

use crate::code::{HEIGHT, Mark, Op};
use unicode_width::UnicodeWidthChar;

/// What stands for a length above 120, and for none.
const LONG: u32 = 121;

/// The shortest lengths for the patterns on the stack, the top one last.
#[derive(Drop)]
struct Lengths {
    lengths: [u32; HEIGHT],
    height: usize,
    ghost bounded: { height ≤ 20 },
}

impl Lengths {
    /// Returns what the operation makes, and the place where it goes.
    fn made(&self, op: Op) -> (usize, u32)
        requires fits { IsSome (height_after self.now.height op) }
        ensures place { height_after self.now.height op ≡ Some (result.0 + 1) }
        ensures bound { result.0 < 20 }
        ensures length { (ps : List Pattern) → StandsBelow IsShortest self.now.lengths self.now.height ps
            → Made IsShortest self.now.lengths result.0 result.1 (patterns_after ps op) }
    {
        let height = self.height;
        match op {
            Op::Empty => (height, 0),
            Op::One(mark) => (height, of_mark(mark)),
            Op::Sequence => (
                height - 2,
                sum(self.lengths[height - 2], self.lengths[height - 1]),
            ),
            Op::Either => (
                height - 2,
                self.lengths[height - 2].min(self.lengths[height - 1]),
            ),
            Op::Group => (height - 1, self.lengths[height - 1]),
            Op::Optional | Op::Many => (height - 1, 0),
            Op::Times(count) => (height - 1, product(count, self.lengths[height - 1])),
        }
    }

    fn apply(&mut self, op: Op)
        requires { IsSome (height_after self.old.height op) }
        ensures height { height_after self.old.height op ≡ Some self.new.height }
        ensures lengths { (ps : List Pattern) → StandsBelow IsShortest self.old.lengths self.old.height ps
            → StandsBelow IsShortest self.new.lengths self.new.height (patterns_after ps op) }
    {
        let (place, length) = self.made(op);
        self.lengths[place] = length;
        self.height = place + 1;
    }
}

fn of_mark(mark: Mark) -> u32
    ensures { IsShortest (one mark) result }
{
    match mark {
        Mark::Literal(ch) | Mark::Quoted(ch) => { if ch.width() == Some(1) { 1 } else { LONG } }
        _ => 1,
    }
}

fn sum(a: u32, b: u32) -> u32
    ensures { result ≡ min (a + b) 121 }
{
    a.saturating_add(b).min(LONG)
}

fn product(count: u8, length: u32) -> u32
    ensures { result ≡ min (count * length) 121 }
{
    u32::from(count).saturating_mul(length).min(LONG)
}

/// Returns the length of the shortest narrow member of the pattern of the code.
pub fn shortest(code: &[Op]) -> u32
    requires { height_from 0 code.now ≡ Some 1 }
    ensures { IsShortest (pattern_of code.now) result }
{
    let mut stack = Lengths {
        lengths: [0; HEIGHT],
        height: 0,
    };
    for op in code {
        stack.apply(*op);
    }
    stack.lengths[0]
}
