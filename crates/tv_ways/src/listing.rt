//! Answers, as lines.

ghost use Rattle.std.specs.Prelude.{◌≡◌, flat_map};
ghost use Rattle.tv_io.specs.Pen.{Puts};
ghost use Rattle.tv_ways.specs.Listing.{answer_words, dialog_lines, goal_words, reason_words, way_line, way_text, ways_text};

use crate::asking::{DialogWays, Way};
use crate::wording::put_events;
use tv_io::{Pen, Writer};
use tv_model::Desc;
use tv_reach::{Answer, Goal, Reason};
use tv_script::{end_word, put_name};

/// Writes a line for each goal of each dialog.
pub fn put_ways<W: Writer>(pen: &mut Pen<W>, desc: &Desc, all: &[DialogWays])
    ensures { Puts W.seen pen.old pen.new (ways_text desc.now all.now) }
{
    for found in all {
        put_dialog(pen, desc, found);
    }
}

fn put_dialog<W: Writer>(pen: &mut Pen<W>, desc: &Desc, found: &DialogWays)
    ensures { Puts W.seen pen.old pen.new (dialog_lines desc.now found.now) }
{
    pen.put(b"dialog ");
    put_name(pen, desc, found.dialog);
    pen.put(b"\n");
    put_lines(pen, desc, found.ways.as_slice());
}

fn put_lines<W: Writer>(pen: &mut Pen<W>, desc: &Desc, ways: &[Way])
    ensures { Puts W.seen pen.old pen.new (flat_map (way_line desc.now) ways.now) }
{
    for way in ways {
        put_line(pen, desc, way);
    }
}

fn put_line<W: Writer>(pen: &mut Pen<W>, desc: &Desc, way: &Way)
    ensures { Puts W.seen pen.old pen.new (way_line desc.now way.now) }
{
    put_way(pen, desc, way);
    pen.put(b"\n");
}

/// Writes a goal and its answer, without the end of the line.
pub fn put_way<W: Writer>(pen: &mut Pen<W>, desc: &Desc, way: &Way)
    ensures { Puts W.seen pen.old pen.new (way_text desc.now way.now) }
{
    put_goal(pen, desc, way.goal);
    pen.put(b": ");
    put_answer(pen, desc, &way.answer);
}

fn put_goal<W: Writer>(pen: &mut Pen<W>, desc: &Desc, goal: Goal)
    ensures { Puts W.seen pen.old pen.new (goal_words desc.now goal) }
{
    match goal {
        Goal::Opens => pen.put(b"open"),
        Goal::Ends(command) => {
            pen.put(b"end ");
            pen.put(end_word(command));
        }
        Goal::Focuses(id) => {
            pen.put(b"focus ");
            put_name(pen, desc, id);
        }
        Goal::Shows(id) => {
            pen.put(b"show ");
            put_name(pen, desc, id);
        }
    }
}

fn put_answer<W: Writer>(pen: &mut Pen<W>, desc: &Desc, answer: &Answer)
    ensures { Puts W.seen pen.old pen.new (answer_words desc.now answer.now) }
{
    match answer {
        Answer::Way(events) => put_events(pen, events.as_slice()),
        Answer::Never(reason) => {
            pen.put(b"never (");
            put_reason(pen, desc, *reason);
            pen.put(b")");
        }
        Answer::Unknown => pen.put(b"unknown (more than 4096 cases)"),
    }
}

fn put_reason<W: Writer>(pen: &mut Pen<W>, desc: &Desc, reason: Reason)
    ensures { Puts W.seen pen.old pen.new (reason_words desc.now reason) }
{
    match reason {
        Reason::NotOpened => pen.put(b"nothing opens the dialog"),
        Reason::NoGiver => pen.put(b"nothing gives it"),
        Reason::NotGiven => pen.put(b"what gives it is never shown and enabled"),
        Reason::Blocked(id) => {
            put_name(pen, desc, id);
            pen.put(b" is never shown and starts outside its domain");
        }
        Reason::NotFree => pen.put(b"it is never shown and enabled"),
        Reason::NotShown => pen.put(b"it is never shown"),
    }
}
