//! A script, read line by line.

ghost use Rattle.std.specs.Prelude.{◌≡◌, ◌++◌, [], List, IfOk, IfErr, OnOk};
ghost use Rattle.tv_machine.specs.declared.script.Item.{Item as SeenItem};
ghost use Rattle.tv_script.specs.Lines.{items_of_line};
ghost use Rattle.tv_script.specs.Judging.{judged_lines, judged_whole, judgement};
ghost use Rattle.tv_script.specs.Reading.Scripts.{IsAnswered, with_bytes, with_script_line};
ghost use Rattle.tv_script.specs.ScriptLines.{line_meant};
ghost use Rattle.tv_script.specs.Scripts.{GivesScript, RefusesScript, SpellsAScript};
ghost use Rattle.tv_words.specs.Lines.{lines_of};

use crate::script_line::{ScriptLine, script_line};
use std::alloc::{AllocError, Global};
use thiserror::Error;
use tv_machine::Item;
use tv_model::Sequence;
use tv_words::Lines;

/// The most bytes of a script.
pub(crate) const MOST_BYTES: usize = 1_048_576;

/// The most items of a script.
pub(crate) const MOST_ITEMS: usize = 100_000;

/// Why a text is no script. Lines count from 1; of the first faulty line the first of these reasons is told.
#[derive(Clone, Copy, Debug, PartialEq, Eq, Error)]
pub enum ScriptFault {
    #[error("out of memory")]
    NoMemory,
    /// The line is none of a script.
    #[error("line {0} is none of a script")]
    Syntax(usize),
    /// The line's point is not on the screen.
    #[error("the point of line {0} is not on the screen")]
    OffScreen(usize),
    /// The text has more than 1,048,576 bytes, or the script more than 100,000 items.
    #[error("the script is too long")]
    TooLong,
}

impl From<AllocError> for ScriptFault {
    ghost use Rattle.std.specs.Prelude.{◌≡◌};
    ghost use Rattle.tv_script.specs.declared.script_text.ScriptFault.TheVariants.{NoMemory};

    ghost from_gives = { λ _ e. e ≡ NoMemory };

    fn from(_error: AllocError) -> ScriptFault {
        ScriptFault::NoMemory
    }
}

/// Reads the items of the script that a text spells for a screen of so many columns and rows, which may be of any size. A
/// script that is to be performed comes from `Script::parse`.
pub fn parse_items(
    alloc: Global,
    text: &[u8],
    width: i32,
    height: i32,
) -> Result<Sequence<Item>, ScriptFault>
    ensures spelled { IfOk result (λ items. SpellsAScript width height text.now items) }
    ensures only { (items : List SeenItem) → SpellsAScript width height text.now items → GivesScript result items }
    ensures fault { IfErr result (λ fault. RefusesScript width height text.now fault) }
{
    read_text(alloc, text, width, height)
}

fn read_text(
    alloc: Global,
    text: &[u8],
    width: i32,
    height: i32,
) -> Result<Sequence<Item>, ScriptFault>
    ensures value { IfOk result (λ items. judged_whole width height text.now ≡ judgement items (Ok tt)) }
    ensures fault { IfErr result (λ fault. IsAnswered fault (judged_whole width height text.now).answer) }
{
    if text.len() > MOST_BYTES {
        return Err(ScriptFault::TooLong);
    }
    read_lines(alloc, text, width, height)
}

fn read_lines(
    alloc: Global,
    text: &[u8],
    width: i32,
    height: i32,
) -> Result<Sequence<Item>, ScriptFault>
    ensures value { IfOk result (λ items. judged_lines width height (lines_of text.now) ≡ judgement items (Ok tt)) }
    ensures fault { IfErr result (λ fault. IsAnswered fault (judged_lines width height (lines_of text.now)).answer) }
{
    let mut items = Sequence::new(alloc);
    let mut number = 1;
    for line in Lines::new(text) {
        items = take_line(items, line, number, width, height)?;
        number += 1;
    }
    Ok(items)
}

fn take_line(
    items: Sequence<Item>,
    line: &[u8],
    number: usize,
    width: i32,
    height: i32,
) -> Result<Sequence<Item>, ScriptFault>
    ensures value { IfOk result (λ longer. with_bytes width height number items line.now ≡ Ok longer) }
    ensures fault { IfErr result (λ fault. IsAnswered fault (with_bytes width height number items line.now)) }
{
    let Some(found) = script_line(line) else {
        return Err(ScriptFault::Syntax(number));
    };
    let Some(line) = found else {
        return Ok(items);
    };
    with_line(items, &line, number, width, height)
}

fn with_line(
    mut items: Sequence<Item>,
    line: &ScriptLine<'_>,
    number: usize,
    width: i32,
    height: i32,
) -> Result<Sequence<Item>, ScriptFault>
    ensures value { IfOk result (λ longer. with_script_line width height number items (line_meant line.now) ≡ Ok longer) }
    ensures fault { IfErr result (λ fault. IsAnswered fault (with_script_line width height number items (line_meant line.now))) }
{
    if !line.is_on_screen(width, height) {
        return Err(ScriptFault::OffScreen(number));
    }
    let count = line.count();
    if count > MOST_ITEMS || items.as_slice().len() > MOST_ITEMS - count {
        return Err(ScriptFault::TooLong);
    }
    push_items(&mut items, line)?;
    Ok(items)
}

fn push_items(items: &mut Sequence<Item>, line: &ScriptLine<'_>) -> Result<(), AllocError>
    ensures { OnOk result (items.new ≡ items.old ++ items_of_line (line_meant line.now)) }
{
    for item in line.items() {
        items.push(item)?;
    }
    Ok(())
}
