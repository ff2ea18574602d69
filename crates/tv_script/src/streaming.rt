//! A script, performed as it comes.

ghost use Rattle.std.specs.Prelude.{◌≡◌, ◌≤◌, ◌≤ℤ◌, [], List, MatchResult, OnOk, false, pos, ℕ};
ghost use Rattle.tv_io.specs.Reader.{Given};
ghost use Rattle.tv_io.specs.Writer.{Seen};
ghost use Rattle.tv_machine.specs.Run.{Session};
ghost use Rattle.tv_script.specs.Performed.{FitsLargestScreen};
ghost use Rattle.tv_script.specs.Reading.Streams.{IsFed, PassedOn, is_stopped_by};
ghost use Rattle.tv_script.specs.Spelled.{JudgementsAreRight};
ghost use Rattle.tv_script.specs.Streams.{ComesFrom, CutsDecideNothing};

use crate::feed::Feed;
use crate::performing::put_waiting_log;
use crate::stage::Stage;
use crate::stream_fault::StreamFault;
use std::alloc::Global;
use tv_io::{Pen, Reader, Writer};

/// The bytes that are asked for at once.
const PIECE: usize = 4096;

/// Performs a script as its bytes come: each line as soon as its end has come, or the reader is at its end. Writes the
/// output of `perform`: the log that isn't yet taken, before anything is read, and then what each item writes. What was
/// written is passed on before each read, so a program that waits for the answer to its line gets it, and at the end.
///
/// Takes memory once, before the first read, and keeps one line at a time. Asks for at most 1,048,577 bytes.
///
/// # Errors
///
/// The first that comes of these. Where the script is at fault, or the reader, the lines before were performed and their
/// output was written and passed on, whole.
///
/// - `NoMemory`: nothing was read, and the log was written.
/// - `Syntax`, `OffScreen`, `TooLong`: of the first faulty line, as `Script::parse` finds it. `TooLong` comes with byte
///   1,048,577 too, in place of any fault of the line that it stands in.
/// - `Read`: the reader failed.
/// - `Write`: the writer failed, took nothing, or couldn't pass on what it took; the number is that of the items that were
///   begun. Nothing is read after that.
pub fn perform_from<S: Stage, R: Reader, W: Writer>(
    alloc: Global,
    stage: &mut S,
    reader: &mut R,
    out: &mut W,
) -> Result<(), StreamFault>
    requires there { (s : Session) × S.stands stage.old s × FitsLargestScreen s.desc }
    ensures { (s : Session) → S.stands stage.old s
        → ComesFrom s (R.seen reader.old) (R.seen reader.new) (W.seen out.old) (W.seen out.new) (S.stands stage.new) result }
{
    let mut pen = Pen {
        out,
        stopped: false,
    };
    put_waiting_log(&mut pen, stage);
    pen.pass_on();
    if pen.stopped {
        return Err(StreamFault::Write(0));
    }
    let mut feed = Feed::new(alloc, stage.desc())?;
    perform_all(&mut pen, stage, reader, &mut feed)
}

// Performs what the reader gives. Nothing is kept back at the begin, nor whenever the reader is asked.
fn perform_all<S: Stage, R: Reader, W: Writer>(
    pen: &mut Pen<W>,
    stage: &mut S,
    reader: &mut R,
    feed: &mut Feed,
) -> Result<(), StreamFault>
    requires going { pen.old.stopped ≡ false }
    requires passed { (W.seen pen.old.out.now).kept ≡ [] }
    requires start { feed.old.bytes ≡ 0 }
    requires there { (s : Session) × S.stands stage.old s }
    ensures same { pen.new.out.ghost_name ≡ pen.old.out.ghost_name }
    ensures comes { (s : Session) (from : Seen) → IsFed s feed.old [] from (W.seen pen.old.out.now) (S.stands stage.old)
        → ComesFrom s (R.seen reader.old) (R.seen reader.new) from (W.seen pen.new.out.now) (S.stands stage.new) result }
{
    let mut buffer = [0u8; PIECE];
    loop {
        let most = PIECE.min(feed.room());
        let room = &mut buffer[..most];
        let Some(count) = reader.read(room) else {
            return Err(StreamFault::Read);
        };
        let answer = feed.take(pen, stage, &room[..count]);
        pass_on(pen, feed.items, answer)?;
        if count == 0 {
            return Ok(());
        }
    }
}

// Passes on what was written, after so many items were begun and what came of them. Nothing is kept back then, or the writer failed.
fn pass_on<W: Writer>(
    pen: &mut Pen<W>,
    begun: usize,
    answer: Result<(), StreamFault>,
) -> Result<(), StreamFault>
    requires { pen.old.stopped ≡ is_stopped_by answer }
    ensures same { pen.new.out.ghost_name ≡ pen.old.out.ghost_name }
    ensures going { OnOk result (pen.new.stopped ≡ false) }
    ensures passed { PassedOn begun answer (W.seen pen.old.out.now) (W.seen pen.new.out.now) result }
{
    if pen.stopped {
        return answer;
    }
    pen.pass_on();
    if pen.stopped {
        return Err(StreamFault::Write(begun));
    }
    answer
}

/// A theorem, as a function without a body: what a script in pieces comes to depends on its bytes alone, and not on how they
/// were cut. Two runs whose readers gave beginnings of one stream, and the whole of it where they are at their end, answer
/// alike and perform the same items, wherever the answer is `Ok`, `Syntax`, `OffScreen` or `TooLong`.
pub fn cuts_decide_nothing()
    ensures { CutsDecideNothing }
{}

/// A theorem, as a function without a body: what a text is judged as is what the language of scripts says of it. It is left with
/// no fault exactly where it spells a script, and else with the first reason why it doesn't.
pub fn judgements_are_right()
    ensures { JudgementsAreRight }
{}
