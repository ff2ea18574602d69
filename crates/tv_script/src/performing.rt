//! A script, performed.

ghost use Rattle.std.specs.Prelude.{◌≡◌, ◌≤◌, ◌+◌, ◌++◌, true, false, length, All, List, OnOk, IfErr, IfOk, MatchResult, ℕ};
ghost use Rattle.tv_machine.specs.Output.{event_text, event_after, item_text, session_after, shot_text, colors_text, output, after};
ghost use Rattle.tv_machine.specs.Run.{Session, quiet};
ghost use Rattle.tv_model.specs.Log.LogText.{log_text};
ghost use Rattle.tv_io.specs.Writer.{Seen, Takes};
ghost use Rattle.tv_io.specs.Pen.{Puts};
ghost use Rattle.tv_machine.specs.declared.script.Item.{Item as SeenItem};
ghost use Rattle.tv_script.specs.declared.stream_fault.StreamFault.TheVariants.{Write};
ghost use Rattle.tv_script.specs.Lines.{IsEventOnScreen, IsItemOnScreen, items_of_line};
ghost use Rattle.tv_script.specs.Performed.{Stops};
ghost use Rattle.tv_script.specs.ScriptLines.{line_meant};
ghost use Rattle.tv_script.specs.Reading.Streams.{is_write};
ghost use Rattle.tv_script.specs.Streams.{Performs};

use crate::lines::put_log;
use crate::script::Script;
use crate::script_line::ScriptLine;
use crate::shot::{Aspect, put_screen};
use crate::stage::Stage;
use crate::stream_fault::StreamFault;
use tv_event::Event;
use tv_io::{Pen, Writer};
use tv_machine::Item;

/// Performs the script and writes its output: the log that isn't yet taken, and then what each item writes.
///
/// # Errors
///
/// The writer failed, or took nothing; the number is that of the items that were begun, each typed character being one.
pub fn perform<S: Stage, W: Writer>(
    stage: &mut S,
    script: &Script,
    out: &mut W,
) -> Result<(), usize>
    requires there { (s : Session) × S.stands stage.old s }
    ensures text { OnOk result ((s : Session) → S.stands stage.old s → Takes (W.seen out.old) (W.seen out.new) (output s script.now)) }
    ensures state { OnOk result ((s : Session) → S.stands stage.old s → S.stands stage.new (after s script.now)) }
    ensures stops { IfErr result (λ begun. (s : Session) → S.stands stage.old s
        → Stops s script.now begun (W.seen out.old) (W.seen out.new) (S.stands stage.new)) }
{
    let mut pen = Pen {
        out,
        stopped: false,
    };
    put_script(&mut pen, stage, script.items())
}

fn put_script<S: Stage, W: Writer>(
    pen: &mut Pen<W>,
    stage: &mut S,
    script: &[Item],
) -> Result<(), usize>
    requires going { pen.old.stopped ≡ false }
    requires shown { All IsItemOnScreen script.now }
    requires there { (s : Session) × S.stands stage.old s }
    ensures same { pen.new.out.ghost_name ≡ pen.old.out.ghost_name }
    ensures text { OnOk result ((s : Session) → S.stands stage.old s
        → Takes (W.seen pen.old.out.now) (W.seen pen.new.out.now) (output s script.now)) }
    ensures state { OnOk result ((s : Session) → S.stands stage.old s → S.stands stage.new (after s script.now)) }
    ensures stops { IfErr result (λ begun. (s : Session) → S.stands stage.old s
        → Stops s script.now begun (W.seen pen.old.out.now) (W.seen pen.new.out.now) (S.stands stage.new)) }
{
    put_waiting_log(pen, stage);
    if pen.stopped {
        return Err(0);
    }
    for (index, item) in script.iter().enumerate() {
        put_item(pen, stage, item);
        if pen.stopped {
            return Err(index + 1);
        }
    }
    Ok(())
}

/// Performs a line of a script before which so many items were begun. Returns how many were begun after it.
pub(crate) fn perform_line<S: Stage, W: Writer>(
    pen: &mut Pen<W>,
    stage: &mut S,
    line: &ScriptLine<'_>,
    before: usize,
) -> Result<usize, StreamFault>
    requires going { pen.old.stopped ≡ false }
    requires shown { All IsItemOnScreen (items_of_line (line_meant line.now)) }
    requires few { before + length (items_of_line (line_meant line.now)) ≤ 100000 }
    requires there { (s : Session) × S.stands stage.old s }
    ensures same { pen.new.out.ghost_name ≡ pen.old.out.ghost_name }
    ensures going { OnOk result (pen.new.stopped ≡ false) }
    ensures stopped { IfErr result (λ fault. (pen.new.stopped ≡ true) × (is_write fault ≡ true)) }
    ensures there { (s : Session) × S.stands stage.new s }
    ensures count { IfOk result (λ count. count ≡ before + length (items_of_line (line_meant line.now))) }
    ensures performed { (s : Session) (from : Seen) (items : List SeenItem) → before ≡ length items
        → Performs s items from (W.seen pen.old.out.now) (S.stands stage.old)
        → MatchResult result
        (λ _. Performs s (items ++ items_of_line (line_meant line.now)) from (W.seen pen.new.out.now) (S.stands stage.new))
        (λ fault. (begun : ℕ) × (fault ≡ Write begun) × (before ≤ begun)
        × Stops s (items ++ items_of_line (line_meant line.now)) begun from (W.seen pen.new.out.now)
        (S.stands stage.new)) }
{
    let mut begun = before;
    for item in line.items() {
        put_item(pen, stage, &item);
        begun += 1;
        if pen.stopped {
            return Err(StreamFault::Write(begun));
        }
    }
    Ok(begun)
}

fn put_item<S: Stage, W: Writer>(pen: &mut Pen<W>, stage: &mut S, item: &Item)
    requires shown { IsItemOnScreen item.now }
    requires there { (s : Session) × S.stands stage.old s }
    ensures text { (s : Session) → S.stands stage.old s → Puts W.seen pen.old pen.new (item_text s item.now) }
    ensures state { (s : Session) → S.stands stage.old s → S.stands stage.new (session_after s item.now) }
{
    match item {
        Item::Event(event) => put_event(pen, stage, event),
        Item::Shot => put_shot(pen, stage),
        Item::Colors => put_colors(pen, stage),
    }
}

fn put_event<S: Stage, W: Writer>(pen: &mut Pen<W>, stage: &mut S, event: &Event)
    requires shown { IsEventOnScreen event.now }
    requires there { (s : Session) × S.stands stage.old s }
    ensures text { (s : Session) → S.stands stage.old s → Puts W.seen pen.old pen.new (event_text s event.now) }
    ensures state { (s : Session) → S.stands stage.old s → S.stands stage.new (event_after s event.now) }
{
    stage.step(event);
    put_waiting_log(pen, stage);
}

/// Writes the log that isn't yet taken, and takes it. Where the writer fails, the pen is stopped, and the log is taken too.
pub fn put_waiting_log<S: Stage, W: Writer>(pen: &mut Pen<W>, stage: &mut S)
    ensures text { (s : Session) → S.stands stage.old s → Puts W.seen pen.old pen.new (log_text s.desc s.state.log) }
    ensures state { (s : Session) → S.stands stage.old s → S.stands stage.new (quiet s) }
{
    put_log(pen, stage.desc(), stage.log());
    stage.forget_log();
}

fn put_shot<S: Stage, W: Writer>(pen: &mut Pen<W>, stage: &S)
    ensures { (s : Session) → S.stands stage.now s → Puts W.seen pen.old pen.new (shot_text s) }
{
    put_screen(pen, Aspect::Characters, stage.screen());
}

fn put_colors<S: Stage, W: Writer>(pen: &mut Pen<W>, stage: &S)
    ensures { (s : Session) → S.stands stage.now s → Puts W.seen pen.old pen.new (colors_text s) }
{
    put_screen(pen, Aspect::Attributes, stage.screen());
}
