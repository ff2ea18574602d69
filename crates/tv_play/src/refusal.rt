//! What an input refuses.

ghost use Rattle.std.specs.Prelude.{◌≡◌};
ghost use Rattle.tv_event.specs.declared.event.Event.{Event as Happening};
ghost use Rattle.tv_machine.specs.Run.{Session};
ghost use Rattle.tv_model.specs.Description.Heads.{all_nodes};
ghost use Rattle.tv_model.specs.Description.Nodes.{node_of};
ghost use Rattle.tv_play.specs.Refusals.{focused_input, input_of, invalid_in, is_focus, is_in_vain, is_input, is_typed, refusal_of, refused_character};

use crate::live::Live;
use tv_event::{Event, Key};
use tv_model::{Desc, Id, Kind, LogLine};

/// An input that refused an event, and whether it is hidden.
#[derive(Clone, Copy, Debug, PartialEq, Eq)]
pub(crate) struct Refusal {
    pub(crate) id: Id,
    pub(crate) is_hidden: bool,
}

/// Whether a character is typed.
pub(crate) fn is_typed(event: &Event) -> bool
    ensures { result ≡ is_typed event.now }
{
    matches!(event, Event::Key(Key::Char(_)))
}

/// Tells what the last event, whose log isn't yet taken, was refused by. It was in vain where it typed a character and the screen is
/// the same.
pub(crate) fn refusal_of<L: Live>(stage: &L, was_vain: bool) -> Option<Refusal>
    ensures { (old new : Session) (event : Happening) → L.stands stage.now new → was_vain ≡ is_in_vain old new event
        → result ≡ refusal_of old new event }
{
    let id = match invalid_in(stage.log()) {
        Some(id) => id,
        None => refused_character(stage, was_vain)?,
    };
    Some(Refusal {
        id,
        is_hidden: !is_focus(id, stage.focus()),
    })
}

// The first input of which the log says that its text isn't right.
fn invalid_in(log: &[LogLine]) -> Option<Id>
    ensures { result ≡ invalid_in log.now }
{
    for line in log {
        if let LogLine::Invalid(id) = line {
            return Some(*id);
        }
    }
    None
}

// The input that refused a character, by whether that was in vain.
fn refused_character<L: Live>(stage: &L, was_vain: bool) -> Option<Id>
    ensures { (old new : Session) (event : Happening) → L.stands stage.now new → was_vain ≡ is_in_vain old new event
        → result ≡ refused_character old new event }
{
    if was_vain && stage.log().is_empty() {
        focused_input(stage)
    } else {
        None
    }
}

fn focused_input<L: Live>(stage: &L) -> Option<Id>
    ensures { (s : Session) → L.stands stage.now s → result ≡ focused_input s }
{
    let focus = stage.focus()?;
    input_of(stage.desc(), focus)
}

fn input_of(desc: &Desc, id: Id) -> Option<Id>
    ensures { result ≡ input_of desc.now id }
{
    match desc.node(id) {
        Some(node) if matches!(node.kind, Kind::Input(_)) => Some(id),
        _ => None,
    }
}

fn is_focus(id: Id, focus: Option<Id>) -> bool
    ensures { result ≡ is_focus id focus }
{
    match focus {
        Some(focus) => id == focus,
        None => false,
    }
}
