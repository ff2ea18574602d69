//! Which ends and controls of a description users reach.

ghost use Rattle.std.specs.Prelude.{◌≡◌, ◌++◌, IfOk, OnOk};
ghost use Rattle.std.specs.List.{AllZip};
ghost use Rattle.tv_app.specs.Opening.{IsSpelledSound};
ghost use Rattle.tv_ways.specs.Asking.{AreAllWays, AreWays, IsWay, end_if, goals_of};

use crate::answering::answer;
use std::alloc::{AllocError, Global};
use tv_event::Command;
use tv_model::{Desc, Dialog, Id};
use tv_reach::{Answer, Goal};
use tv_valid::Sequence;

/// A goal in a dialog, and whether events reach it.
#[derive(Debug, Drop)]
pub struct Way {
    pub goal: Goal,
    pub answer: Answer,
}

/// The goals of a dialog, with their answers.
#[derive(Debug, Drop)]
pub struct DialogWays {
    pub dialog: Id,
    pub ways: Vec<Way>,
}

/// Returns the goals of a dialog: its ends, and then the focus of its controls.
pub fn goals_of(alloc: Global, dialog: &Dialog) -> Result<Sequence<Goal>, AllocError>
    ensures { IfOk result (λ goals. goals ≡ goals_of dialog.now) }
{
    let mut goals = Sequence::new(alloc);
    let ends = dialog.head().ends;
    add_end(&mut goals, ends.ok, Command::OK)?;
    add_end(&mut goals, ends.cancel, Command::CANCEL)?;
    add_end(&mut goals, ends.yes, Command::YES)?;
    add_end(&mut goals, ends.no, Command::NO)?;
    for view in dialog.views.as_slice() {
        if view.kind.is_control() {
            goals.push(Goal::Focuses(view.id))?;
        }
    }
    Ok(goals)
}

// Adds the end by the command, if it is declared.
fn add_end(
    goals: &mut Sequence<Goal>,
    is_declared: bool,
    command: Command,
) -> Result<(), AllocError>
    ensures { OnOk result (goals.new ≡ goals.old ++ end_if is_declared command.0) }
{
    if is_declared {
        goals.push(Goal::Ends(command))?;
    }
    Ok(())
}

// Answers whether events reach the goal.
fn way_to(
    alloc: Global,
    text: &[u8],
    desc: &Desc,
    place: usize,
    goal: Goal,
) -> Result<Way, AllocError>
    requires { IsSpelledSound text.now desc.now }
    ensures { IfOk result (λ way. IsWay desc.now place goal way) }
{
    let answer = answer(alloc, text, desc, place, goal)?;
    Ok(Way { goal, answer })
}

/// Answers whether events reach these goals in the dialog at the place, of the description that the text spells.
pub fn ways_to(
    alloc: Global,
    text: &[u8],
    desc: &Desc,
    place: usize,
    goals: &[Goal],
) -> Result<Vec<Way>, AllocError>
    requires spelled { IsSpelledSound text.now desc.now }
    ensures { IfOk result (λ ways. AllZip (IsWay desc.now place) goals.now ways.items) }
{
    let mut ways = Vec::new(alloc);
    for goal in goals {
        let way = way_to(alloc, text, desc, place, *goal)?;
        ways.push(way)?;
    }
    Ok(ways)
}

/// Answers so of each goal of the dialog at the place.
pub fn ways_in(
    alloc: Global,
    text: &[u8],
    desc: &Desc,
    place: usize,
    dialog: &Dialog,
) -> Result<Vec<Way>, AllocError>
    requires spelled { IsSpelledSound text.now desc.now }
    ensures { IfOk result (λ ways. AreWays desc.now place dialog.now ways.items) }
{
    let goals = goals_of(alloc, dialog)?;
    ways_to(alloc, text, desc, place, goals.as_slice())
}

/// Answers so of all dialogs.
pub fn all_ways(alloc: Global, text: &[u8], desc: &Desc) -> Result<Vec<DialogWays>, AllocError>
    requires { IsSpelledSound text.now desc.now }
    ensures { IfOk result (λ all. AreAllWays desc.now all.items) }
{
    let mut all = Vec::new(alloc);
    for (place, dialog) in desc.dialogs.as_slice().iter().enumerate() {
        let ways = ways_in(alloc, text, desc, place, dialog)?;
        all.push(DialogWays {
            dialog: dialog.node.id,
            ways,
        })?;
    }
    Ok(all)
}
