//! A text read by a picture's code.

ghost use Rattle.std.specs.Prelude.{◌≡◌, ◌+◌, ◌<◌, ◌≤◌, ◌∷◌, ℕ, List, length, drop, Some, IsSome, IfSome, true, false};
ghost use Rattle.tv_picture.specs.Pattern.{Pattern};
ghost use Rattle.tv_picture.specs.Code.{patterns_after, height_after, height_from, pattern_of};
ghost use Rattle.tv_picture.specs.Machine.{StandsBelow, StandsOn, IsWithin, over_after, leaves_lowest, height_joined};
ghost use Rattle.tv_picture.specs.Table.{HasEachRow, IsTableRow};

use crate::code::{HEIGHT, Mark, Op};
use crate::places::Places;
use crate::row::{Next, Row};
use crate::table::Table;

/// Returns the height of the stack after an operation.
fn after(height: usize, op: Op) -> usize
    requires { IsSome (height_after height op) }
    ensures { height_after height op ≡ Some result }
{
    match op {
        Op::Empty | Op::One(_) => height + 1,
        Op::Sequence | Op::Either => height - 1,
        Op::Optional | Op::Group | Op::Many | Op::Times(_) => height,
    }
}

/// Returns the most patterns that stand on the stack at once.
fn most(code: &[Op]) -> usize
    requires { height_from 0 code.now ≡ Some 1 }
    ensures { (n : ℕ) → result ≤ n → IsWithin n 0 code.now }
{
    let mut height = 0;
    let mut most = 0;
    for op in code {
        height = after(height, *op);
        most = most.max(height);
    }
    most
}

/// Whether an operation at this height leaves the lowest pattern of the stack as it is.
fn is_over(height: usize, op: Op) -> bool
    ensures { result ≡ leaves_lowest height op }
{
    match op {
        Op::Empty | Op::One(_) => height > 0,
        Op::Sequence | Op::Either => height > 2,
        Op::Optional | Op::Group => height > 1,
        Op::Many | Op::Times(_) => true,
    }
}

/// Returns the first row of the lowest pattern after an operation that changes it, where a table stands for the pattern above it.
fn lowest_after(first: Row, tables: &[Table], height: usize, op: Op, text: &[char]) -> Row
    requires few { length text.now ≤ 120 }
    requires fits { IsSome (height_after height op) }
    requires lowest { leaves_lowest height op ≡ false }
    requires within { height ≤ length tables.now }
    ensures { (ps : List Pattern) (h : ℕ) → height_after height op ≡ Some h
        → StandsOn text.now first tables.now height ps
        → StandsOn text.now result tables.now h (patterns_after ps op) }
{
    let start = Row {
        ends: Places::only(0),
        next: Next::Nothing,
    };
    match op {
        Op::Empty => start,
        Op::One(mark) => start.append(mark, text),
        Op::Sequence => tables[0].gather_all(first.ends, text.len() + 1, first.unended()),
        Op::Either => first.join(tables[0].rows[0]),
        Op::Optional => first.join(start),
        Op::Group | Op::Many | Op::Times(_) => first,
    }
}

/// Does an operation for the text on the tables of the patterns above the lowest, the top one last.
fn apply(tables: &mut [Table], height: usize, op: Op, text: &[char])
    requires few { length text.now ≤ 120 }
    requires fits { IsSome (over_after height op) }
    requires room { IfSome (over_after height op) (λ h. h ≤ length tables.old) }
    requires within { height ≤ length tables.old }
    ensures count { length tables.new ≡ length tables.old }
    ensures tables { (ps : List Pattern) (h : ℕ) → over_after height op ≡ Some h
        → StandsBelow (λ p t. HasEachRow p text.now t) tables.old height ps
        → StandsBelow (λ p t. HasEachRow p text.now t) tables.new h (patterns_after ps op) }
{
    let len = text.len();
    match op {
        Op::Empty => tables[height].set_empty(len),
        Op::One(mark) => tables[height].set_one(mark, text),
        Op::Sequence => {
            let (before, last) = tables.split_at_mut(height - 1);
            before[height - 2].then(&last[0], len);
        }
        Op::Either => {
            let (before, last) = tables.split_at_mut(height - 1);
            before[height - 2].or(&last[0], len);
        }
        Op::Optional => tables[height - 1].set_optional(len),
        Op::Group => {}
        Op::Many => tables[height - 1].repeat(len),
        Op::Times(count) => tables[height - 1].repeat_times(count, len),
    }
}

/// Does an operation for the text on the first row of the lowest pattern and the tables of those above it, and returns that row.
fn step(first: Row, tables: &mut [Table], height: usize, op: Op, text: &[char]) -> Row
    requires few { length text.now ≤ 120 }
    requires fits { IsSome (height_after height op) }
    requires room { IfSome (height_after height op) (λ h. h ≤ length tables.old) }
    requires within { height ≤ length tables.old }
    ensures count { length tables.new ≡ length tables.old }
    ensures stack { (ps : List Pattern) (h : ℕ) → height_after height op ≡ Some h
        → StandsOn text.now first tables.old height ps
        → StandsOn text.now result tables.new h (patterns_after ps op) }
{
    if is_over(height, op) {
        apply(tables, height - 1, op, text);
        first
    } else {
        lowest_after(first, tables, height, op, text)
    }
}

/// Returns the operation at a place of the code, where the next one joins what it makes to the sequence below.
fn joined(code: &[Op], place: usize) -> Option<Op>
    requires { place < length code.now }
    ensures { IfSome result (λ op. drop place code.now ≡ op ∷ Op.Sequence ∷ drop (place + 2) code.now) }
{
    match code.get(place + 1) {
        Some(Op::Sequence) => Some(code[place]),
        _ => None,
    }
}

/// Returns the mark at a place of the code, where it is repeated any number of times and then joined.
fn starred(code: &[Op], place: usize) -> Option<Mark>
    requires { place < length code.now }
    ensures { IfSome result (λ mark. drop place code.now ≡ Op.One mark ∷ Op.Many ∷ Op.Sequence ∷ drop (place + 3) code.now) }
{
    match (code[place], code.get(place + 1), code.get(place + 2)) {
        (Op::One(mark), Some(Op::Many), Some(Op::Sequence)) => Some(mark),
        _ => None,
    }
}

/// Returns the first row of the lowest pattern after an operation and after what that makes is joined to it, where one step
/// does both.
fn joined_after(first: Row, tables: &[Table], height: usize, op: Op, text: &[char]) -> Option<Row>
    requires few { length text.now ≤ 120 }
    requires within { height ≤ length tables.now }
    ensures heights { IfSome result (λ row. height_joined height op ≡ Some 1) }
    ensures stack { IfSome result (λ row. (ps : List Pattern) → StandsOn text.now first tables.now height ps
        → StandsOn text.now row tables.now 1 (patterns_after (patterns_after ps op) Op.Sequence)) }
{
    match op {
        Op::One(mark) if height == 1 => Some(first.append(mark, text)),
        Op::Many if height == 2 => Some(tables[0].many_after(first, text.len())),
        Op::Times(count) if height == 2 => { Some(tables[0].times_after(first, count, text.len())) }
        _ => None,
    }
}

/// Returns the first row of the text's table for the pattern of the code. The lowest pattern on the stack begins where the text
/// does and is never repeated: its first row is enough. The others have tables.
fn run(code: &[Op], text: &[char], tables: &mut [Table]) -> Row
    requires few { length text.now ≤ 120 }
    requires whole { height_from 0 code.now ≡ Some 1 }
    requires room { IsWithin (length tables.old) 0 code.now }
    ensures { IsTableRow (pattern_of code.now) text.now 0 result }
{
    let mut first = Row::NONE;
    let mut height = 0;
    let mut place = 0;
    while place < code.len() {
        if height == 1
            && let Some(mark) = starred(code, place)
        {
            first = first.append_many(mark, text);
            place += 3;
        } else if let Some(op) = joined(code, place)
            && let Some(row) = joined_after(first, tables, height, op, text)
        {
            first = row;
            height = 1;
            place += 2;
        } else {
            let op = code[place];
            first = step(first, tables, height, op, text);
            height = after(height, op);
            place += 1;
        }
    }
    first
}

/// Returns the first row, with so many tables.
fn read_with<const N: usize>(code: &[Op], text: &[char]) -> Row
    requires few { length text.now ≤ 120 }
    requires whole { height_from 0 code.now ≡ Some 1 }
    requires room { IsWithin N 0 code.now }
    requires fits { N ≤ 20 }
    ensures { IsTableRow (pattern_of code.now) text.now 0 result }
{
    let mut tables = [Table::BLANK; N];
    run(code, text, &mut tables)
}

/// Returns the first row of the text's table for the pattern of the code.
///
/// To blank a table takes longer than most operations, so there are fewer than twice as many as the code needs.
pub fn read(code: &[Op], text: &[char]) -> Row
    requires few { length text.now ≤ 120 }
    requires whole { height_from 0 code.now ≡ Some 1 }
    ensures { IsTableRow (pattern_of code.now) text.now 0 result }
{
    match most(code) {
        0..=2 => read_with::<2>(code, text),
        3..=4 => read_with::<4>(code, text),
        5..=8 => read_with::<8>(code, text),
        _ => read_with::<HEIGHT>(code, text),
    }
}
