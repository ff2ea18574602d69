//! The search for steps that reach a goal.

use crate::driver::{Driver, Last};
use crate::outline::{Leaf, Outline, is_command};
use crate::path::{Step, opening};
use crate::plan::{Wish, plan};
use std::alloc::{AllocError, Global};
use tv_event::{Command, Key};
use tv_model::Desc;
use tv_reach::{Goal, Mask, starts_outside};

/// Which inputs that start with texts outside their domains are filled.
#[derive(Clone, Copy, PartialEq, Eq)]
enum Fills {
    None,
    /// Those that are shown on the way.
    Shown,
    /// All of them: the way shows each once.
    All,
}

/// What has to hold before something is done last, and that.
#[derive(Clone, Copy)]
struct Try {
    rules: Mask,
    last: Last,
    fills: Fills,
}

/// A search: the dialog, what is to be reached in it, and what all tries have in common.
#[derive(Drop)]
struct Search<'a> {
    outline: &'a Outline<'a>,
    /// The steps that open the dialog.
    path: Vec<Step>,
    /// The inputs that start with texts outside their domains.
    wrong: Vec<usize>,
}

impl Search<'_> {
    // The keys that do so in the open dialog, as far as they are known to.
    fn keys(&self, alloc: Global, attempt: Try) -> Result<Option<Vec<Key>>, AllocError> {
        let wish = Wish {
            rules: attempt.rules,
            seen: if attempt.fills == Fills::All {
                &self.wrong
            } else {
                &[]
            },
        };
        let Some(moves) = plan(alloc, self.outline, wish)? else {
            return Ok(None);
        };
        let mut driver = Driver::new(alloc, self.outline)?;
        let fills = attempt.fills != Fills::None;
        if fills {
            driver.fill_shown(alloc)?;
        }
        for step in moves {
            if !driver.mark(alloc, step)? {
                return Ok(None);
            }
            if fills {
                driver.fill_shown(alloc)?;
            }
        }
        driver.finish(alloc, attempt.last)?;
        Ok(Some(driver.into_keys()))
    }

    // The steps that open the dialog and do so.
    fn steps(&self, alloc: Global, attempt: Try) -> Result<Option<Vec<Step>>, AllocError> {
        let Some(keys) = self.keys(alloc, attempt)? else {
            return Ok(None);
        };
        let mut steps = Vec::from_slice(alloc, &self.path)?;
        for key in keys {
            steps.push(Step::Key(key))?;
        }
        Ok(Some(steps))
    }
}

// Adds what may be done to end the dialog by the command: a button of it is pressed, or a status key.
fn add_givers(
    tries: &mut Vec<Try>,
    desc: &Desc,
    outline: &Outline,
    command: Command,
    fills: Fills,
) -> Result<(), AllocError> {
    let enabling = outline.enabling(command);
    for (place, leaf) in outline.leaves.iter().enumerate() {
        if leaf.gives(command) {
            tries.push(Try {
                rules: leaf.shown_by.union(enabling),
                last: Last::Press(place),
                fills,
            })?;
        }
    }
    for item in desc.status.as_slice() {
        if is_command(item.command, command) {
            tries.push(Try {
                rules: enabling,
                last: Last::Key(item.key),
                fills,
            })?;
        }
    }
    Ok(())
}

// Adds Enter from each field, where it presses a button of the command.
fn add_enters(
    tries: &mut Vec<Try>,
    outline: &Outline,
    command: Command,
    fills: Fills,
) -> Result<(), AllocError> {
    let presses = |leaf: &Leaf| leaf.is_default() && leaf.gives(command);
    if !outline.leaves.iter().any(presses) {
        return Ok(());
    }
    for (place, leaf) in outline.leaves.iter().enumerate() {
        if leaf.node.kind.is_control() && !leaf.node.kind.is_button() {
            tries.push(Try {
                rules: leaf.shown_by.union(outline.enabling(command)),
                last: Last::Enter(place),
                fills,
            })?;
        }
    }
    Ok(())
}

// What may be done to reach the goal. Of what never has the focus a run doesn't tell whether it is shown.
fn tries(
    alloc: Global,
    desc: &Desc,
    outline: &Outline,
    goal: Goal,
) -> Result<Vec<Try>, AllocError> {
    let mut tries = Vec::new(alloc);
    let mut rules = Mask::NONE;
    let mut last = Last::Nothing;
    match goal {
        Goal::Opens => {}
        Goal::Ends(Command::CANCEL) => last = Last::Key(Key::Esc),
        Goal::Ends(command) => {
            add_givers(&mut tries, desc, outline, command, Fills::All)?;
            add_enters(&mut tries, outline, command, Fills::All)?;
            return Ok(tries);
        }
        Goal::Focuses(id) | Goal::Shows(id) => {
            let Some(place) = outline.control_of(id) else {
                return Ok(tries);
            };
            rules = outline.freeing(place);
            last = Last::Focus(place);
        }
    }
    tries.push(Try {
        rules,
        last,
        fills: Fills::None,
    })?;
    Ok(tries)
}

// The inputs that start with texts outside their domains, by their places.
fn wrong(alloc: Global, outline: &Outline) -> Result<Vec<usize>, AllocError> {
    let mut wrong = Vec::new(alloc);
    for place in 0..outline.leaves.len() {
        if let Some(input) = outline.input(place) {
            if starts_outside(alloc, input)? {
                wrong.push(place)?;
            }
        }
    }
    Ok(wrong)
}

// The steps by which each of these may be done, short ones first.
fn all_steps(
    alloc: Global,
    desc: &Desc,
    outline: &Outline,
    tries: &[Try],
) -> Result<Vec<Vec<Step>>, AllocError> {
    let mut ways = Vec::new(alloc);
    let Some(path) = opening(alloc, desc, outline.dialog)? else {
        return Ok(ways);
    };
    let search = Search {
        outline,
        path,
        wrong: wrong(alloc, outline)?,
    };
    for attempt in tries {
        if let Some(steps) = search.steps(alloc, *attempt)? {
            ways.push(steps)?;
        }
    }
    ways.sort_by_key(|steps| steps.len())?;
    Ok(ways)
}

/// Looks for steps that reach the goal in the dialog of the outline, of the description. Each list that is returned may do so,
/// and short ones come first.
pub(crate) fn ways(
    alloc: Global,
    desc: &Desc,
    outline: &Outline,
    goal: Goal,
) -> Result<Vec<Vec<Step>>, AllocError> {
    let tries = tries(alloc, desc, outline, goal)?;
    all_steps(alloc, desc, outline, &tries)
}

/// Looks for steps that end the dialog of the outline by the command as far as a user sees: what is hidden all the while isn't
/// filled.
pub(crate) fn ways_by_sight(
    alloc: Global,
    desc: &Desc,
    outline: &Outline,
    command: Command,
) -> Result<Vec<Vec<Step>>, AllocError> {
    let mut tries = Vec::new(alloc);
    add_givers(&mut tries, desc, outline, command, Fills::Shown)?;
    add_enters(&mut tries, outline, command, Fills::Shown)?;
    all_steps(alloc, desc, outline, &tries)
}
