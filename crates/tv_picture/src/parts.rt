//! A text read by a picture's code part by part, with one row at a time.

ghost use Rattle.std.specs.Prelude.{◌≡◌, ◌<◌, ◌≤◌, ◌∷◌, ◌++◌, [], ℕ, List, length, IfSome};
ghost use Rattle.tv_picture.specs.Code.{pattern_of};
ghost use Rattle.tv_picture.specs.Machine.{Reads};
ghost use Rattle.tv_picture.specs.Table.{IsTableRow};

use crate::code::{Mark, Op};
use crate::places::Places;
use crate::row::{Next, Row};

/// At least so many steps are taken before it is left to tables. This bounds how deep calls go, too, whatever the code is.
const STEPS: usize = 1_024;

/// In long code so many are taken for each operation.
const STEPS_FOR_EACH: usize = 6;

/// Looking for the end of a part costs a step for so many operations.
const LOOKED_THROUGH: usize = 4;

/// Going on from the places of a row costs a step for so many of them.
const GONE_ON: usize = 16;

/// A part of the code, and the operation that joins it to what comes before.
#[derive(Clone, Copy)]
struct Joined<'a> {
    part: &'a [Op],
    op: Op,
}

/// Returns where the first part of the code ends, which is where the operation stands that joins it to what comes before.
fn part_end(code: &[Op]) -> Option<usize>
    ensures { IfSome result (λ end. end < length code.now) }
{
    let mut height: usize = 0;
    for (place, op) in code.iter().enumerate() {
        match op {
            Op::Empty | Op::One(_) => height += 1,
            Op::Sequence | Op::Either => {
                if height < 2 {
                    return Some(place);
                }
                height -= 1;
            }
            Op::Optional | Op::Group | Op::Many | Op::Times(_) => {}
        }
    }
    None
}

/// Returns what stands behind the empty sequence with which the code begins.
fn behind_empty(code: &[Op]) -> Option<&[Op]>
    ensures { IfSome result (λ behind. code.now ≡ Op.Empty ∷ behind.now) }
{
    match code {
        [Op::Empty, behind @ ..] => Some(behind),
        _ => None,
    }
}

/// Returns the mark that is all of the code.
fn lone_mark(code: &[Op]) -> Option<Mark>
    ensures { IfSome result (λ mark. code.now ≡ Op.One mark ∷ []) }
{
    match code {
        [Op::One(mark)] => Some(*mark),
        _ => None,
    }
}

/// Returns the mark with which the code begins, where it is joined to what comes before, and what stands behind that.
fn first_mark(code: &[Op]) -> Option<(Mark, &[Op])>
    ensures { IfSome result (λ cut. code.now ≡ Op.One cut.0 ∷ Op.Sequence ∷ cut.1.now) }
{
    match code {
        [Op::One(mark), Op::Sequence, behind @ ..] => Some((*mark, behind)),
        _ => None,
    }
}

/// Returns the first part of the code, the operation that joins it to what comes before, and what stands behind that.
fn first_part(code: &[Op]) -> Option<(&[Op], Op, &[Op])>
    ensures { IfSome result (λ cut. code.now ≡ cut.0.now ++ (cut.1 ∷ cut.2.now)) }
{
    let end = part_end(code)?;
    let (part, joined) = code.split_at(end);
    let (op, behind) = joined.split_first()?;
    Some((part, *op, behind))
}

/// Takes so many of the steps, where as many are left.
fn spend(steps: &mut usize, count: usize) -> Option<()> {
    *steps = steps.checked_sub(count)?;
    Some(())
}

/// Takes the steps that a part costs which is read from the places of a row.
fn spend_on(steps: &mut usize, row: Row) -> Option<()> {
    spend(steps, 1 + row.ends.count() / GONE_ON)
}

/// Returns the row of what has the first row and then the pattern of the code, which is a sequence or has alternatives. It gives up
/// where that takes too many steps, or where no picture has such code.
#[cycle(parts)]
fn code_after(first: Row, code: &[Op], text: &[char], steps: &mut usize) -> Option<Row>
    requires { length text.now ≤ 120 }
    ensures { IfSome result (λ row. Reads first code.now text.now row) }
{
    let mut row = first;
    let mut rest = behind_empty(code)?;
    while !rest.is_empty() {
        if let Some((mark, behind)) = first_mark(rest) {
            spend_on(steps, row)?;
            row = row.append(mark, text);
            rest = behind;
        } else {
            let (part, op, behind) = first_part(rest)?;
            spend(steps, part.len() / LOOKED_THROUGH)?;
            row = joined_after(first, row, Joined { part, op }, text, steps)?;
            rest = behind;
        }
    }
    Some(row)
}

/// Returns the row after a part and the operation that joins it, where the code before it began after the first row and has led to
/// the other.
#[cycle(parts)]
fn joined_after(
    first: Row,
    row: Row,
    next: Joined<'_>,
    text: &[char],
    steps: &mut usize,
) -> Option<Row>
    requires { length text.now ≤ 120 }
    ensures { IfSome result (λ joined. (before : List Op) → Reads first before text.now row
        → Reads first (before ++ (next.entry.part.now ++ next.entry.op ∷ [])) text.now joined) }
{
    match next.op {
        Op::Sequence => part_after(row, next.part, text, steps),
        Op::Either => Some(row.join(code_after(first, next.part, text, steps)?)),
        _ => None,
    }
}

/// Returns the row of what has the first row and then a part: one character, or what stands in brackets, once or repeated.
#[cycle(parts)]
fn part_after(first: Row, part: &[Op], text: &[char], steps: &mut usize) -> Option<Row>
    requires { length text.now ≤ 120 }
    ensures { IfSome result (λ row. Reads first part.now text.now row) }
{
    spend_on(steps, first)?;
    if let Some(mark) = lone_mark(part) {
        return Some(first.append(mark, text));
    }
    let (last, body) = part.split_last()?;
    match *last {
        Op::Group => code_after(first, body, text, steps),
        Op::Optional => Some(first.join(code_after(first, body, text, steps)?)),
        Op::Many => many_after(first, body, text, steps),
        Op::Times(count) if count > 0 => times_after(first, body, count, text, steps),
        _ => None,
    }
}

/// Returns the row of what has the first row and then the part any number of times.
#[cycle(parts)]
fn many_after(first: Row, body: &[Op], text: &[char], steps: &mut usize) -> Option<Row>
    requires { length text.now ≤ 120 }
    ensures { IfSome result (λ row. Reads first (body.now ++ Op.Many ∷ []) text.now row) }
{
    if let Some(mark) = lone_mark(body) {
        return Some(first.append_many(mark, text));
    }
    let mut row = first;
    for round in 0..text.len() + 1 {
        let more = part_after(row, body, text, steps)?;
        let grown = row.join(more);
        if row.ends.contains_all(grown.ends) {
            return Some(grown);
        }
        row = grown;
    }
    None
}

/// Returns the row of what has the first row and then the part so many times.
#[cycle(parts)]
fn times_after(first: Row, body: &[Op], count: u8, text: &[char], steps: &mut usize) -> Option<Row>
    requires few { length text.now ≤ 120 }
    requires some { 0 < count }
    ensures { IfSome result (λ row. Reads first (body.now ++ Op.Times count ∷ []) text.now row) }
{
    let mut row = first;
    for done in 0..count {
        let more = part_after(row, body, text, steps)?;
        if more.is(row) {
            return Some(row);
        }
        row = more;
    }
    Some(row)
}

/// Returns the first row of the text's table for the pattern of the code, where few steps find it.
pub fn read_parts(code: &[Op], text: &[char]) -> Option<Row>
    requires { length text.now ≤ 120 }
    ensures { IfSome result (λ row. IsTableRow (pattern_of code.now) text.now 0 row) }
{
    let start = Row {
        ends: Places::only(0),
        next: Next::Nothing,
    };
    let mut steps = STEPS.max(code.len().saturating_mul(STEPS_FOR_EACH));
    code_after(start, code, text, &mut steps)
}
