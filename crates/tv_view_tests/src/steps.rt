//! What is done to the form, step by step, and what comes of it.

use crate::forms::{FIRST, INNER, LABEL, LAST, form};
use crate::journal::{Call, Journal, Told};
use crate::samples::env;
use bitflags::Flags;
use std::alloc::Global;
use std::test::Fail;
use tv_cells::Damage;
use tv_event::{Command, CommandSet, Event, Phase, State};
use tv_group::{Advanced, Dir, Group};
use tv_model::Id;
use tv_palette::{Chain, Owner};
use tv_view::{Reaction, Rules};

// The leaves that mark letters.
const MARKING: &[u32] = &[LABEL, FIRST, INNER, LAST];

/// An event that the form is handed, and what comes of it.
#[derive(Clone, Copy)]
pub struct Handing {
    pub event: Event,
    pub phase: Phase,
    /// Whether the command of the buttons is enabled.
    pub is_enabled: bool,
    /// The button that Enter presses.
    pub default_now: Option<Id>,
    /// The leaves that are handed it, one after the other.
    pub reached: &'static [u32],
    pub reaction: Reaction,
}

/// What is done to the form, and what is wanted of it.
#[derive(Clone, Copy)]
pub enum Step {
    /// By rules these views are shown and no others, and the command of the buttons is enabled or disabled.
    Rule {
        shown: &'static [Id],
        is_enabled: bool,
    },
    /// It is handed an event.
    Hand(Handing),
    /// It is handed in each phase an event that no leaf takes. Those that mark letters get it before the current leaf and after it.
    Pass {
        event: Event,
        current: &'static [u32],
    },
    /// A view is asked to take the focus.
    Focus {
        id: u32,
        is_taken: bool,
    },
    /// It is entered at the first of these, and the focus goes from one to the next up to the edge, where it stays.
    Walk(Dir, &'static [u32]),
    /// There is nothing to enter.
    Shut(Dir),
    /// The focus, which no leaf has, is at the edge.
    Edge(Dir),
}

fn commands_of(is_enabled: bool) -> CommandSet {
    let mut commands = CommandSet::all();
    if !is_enabled {
        commands.disable(Command(120));
    }
    commands
}

// Fails unless a group of a dialog, into which no view is lent, answers so to an event, and these leaves are handed it.
fn expect_handed(group: &mut Group, journal: &Journal, handing: &Handing) -> Result<(), Fail> {
    let chain = Chain::of_dialog();
    let commands = commands_of(handing.is_enabled);
    let mut env = env(Owner::Dialog, &chain, &commands, &[]);
    env.default_now = handing.default_now;
    let reaction = group.handle(&handing.event, handing.phase, &env, &mut Damage::new());
    let told = Told {
        call: Call::Handed(handing.event, handing.phase),
        views: handing.reached,
    };
    journal.expect_told(&[told])?;
    if reaction == handing.reaction {
        return Ok(());
    }
    Err(Fail::new(format_args!("{reaction:?}")))
}

// Fails unless no leaf takes an event: those that mark letters are handed it before the current leaf, if there is one, and after it.
fn expect_passed(
    group: &mut Group,
    journal: &Journal,
    event: Event,
    current: &'static [u32],
) -> Result<(), Fail> {
    for (phase, reached) in [
        (Phase::Pre, MARKING),
        (Phase::Focused, current),
        (Phase::Post, MARKING),
    ] {
        let handing = Handing {
            event,
            phase,
            is_enabled: true,
            default_now: None,
            reached,
            reaction: Reaction::Pass,
        };
        expect_handed(group, journal, &handing)?;
    }
    Ok(())
}

// Fails unless a view takes the focus, which it is told, or none has it then.
fn expect_focus(group: &mut Group, journal: &Journal, id: u32, is_taken: bool) -> Result<(), Fail> {
    let is_own = group.focus_to(Id(id), &mut Damage::new());
    if is_taken {
        journal.expect(&[(id, Call::Focused)])?;
    } else {
        journal.expect(&[])?;
    }
    if is_own == is_taken && group.state().contains(State::FOCUSED) == is_taken {
        return Ok(());
    }
    Err(Fail::new(format_args!("{is_own} for {id}")))
}

// Fails unless the group is entered at this control, which gets the focus, or nowhere.
fn expect_entered(
    group: &mut Group,
    journal: &Journal,
    dir: Dir,
    wanted: Option<Id>,
) -> Result<(), Fail> {
    let found = group.enter(dir, &mut Damage::new());
    match wanted {
        Some(stop) => journal.expect(&[(stop.0, Call::Focused)])?,
        None => journal.expect(&[])?,
    }
    if found == wanted {
        return Ok(());
    }
    Err(Fail::new(format_args!("{found:?} for {wanted:?}")))
}

// Fails unless the focus goes on to this control, or is at the edge and stays where it is, if anywhere.
fn expect_advanced(
    group: &mut Group,
    journal: &Journal,
    dir: Dir,
    wanted: Advanced,
    is_focused: bool,
) -> Result<(), Fail> {
    let found = group.advance(dir, &mut Damage::new());
    match wanted {
        Advanced::Moved(stop) => journal.expect(&[(stop.0, Call::Focused)])?,
        Advanced::Edge => journal.expect(&[])?,
    }
    if found == wanted && group.state().contains(State::FOCUSED) == is_focused {
        return Ok(());
    }
    Err(Fail::new(format_args!("{found:?} for {wanted:?}")))
}

fn expect_walk(group: &mut Group, journal: &Journal, dir: Dir, stops: &[u32]) -> Result<(), Fail> {
    let (first, others) = stops.split_first().ok_or("no stops")?;
    expect_entered(group, journal, dir, Some(Id(*first)))?;
    for stop in others {
        expect_advanced(group, journal, dir, Advanced::Moved(Id(*stop)), true)?;
    }
    expect_advanced(group, journal, dir, Advanced::Edge, true)
}

fn expect_step(group: &mut Group, journal: &Journal, step: &Step) -> Result<(), Fail> {
    match *step {
        Step::Rule { shown, is_enabled } => {
            let commands = commands_of(is_enabled);
            let rules = Rules {
                shown,
                commands: &commands,
            };
            group.apply(&rules, &mut Damage::new());
            Ok(())
        }
        Step::Hand(handing) => expect_handed(group, journal, &handing),
        Step::Pass { event, current } => expect_passed(group, journal, event, current),
        Step::Focus { id, is_taken } => expect_focus(group, journal, id, is_taken),
        Step::Walk(dir, stops) => expect_walk(group, journal, dir, stops),
        Step::Shut(dir) => expect_entered(group, journal, dir, None),
        Step::Edge(dir) => expect_advanced(group, journal, dir, Advanced::Edge, false),
    }
}

/// Fails unless a form of which no leaf is current yet goes through these steps as they want it.
pub fn expect_steps(alloc: Global, steps: &[Step]) -> Result<(), Fail> {
    let journal = Journal::new(alloc)?;
    let mut form = form(alloc, &journal)?;
    for step in steps {
        expect_step(&mut form, &journal, step)?;
    }
    Ok(())
}
