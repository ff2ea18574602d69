//! What is told of a task that ended, and the status.

ghost use Rattle.std.specs.Prelude.{◌≡◌, [], ◌∷◌, string_bytes};
ghost use Rattle.tv_io.specs.Pen.{Puts};
ghost use Rattle.tv_program.specs.Naming.{shot_name};
ghost use Rattle.tv_program.specs.Report.{IsOffered};
ghost use Rattle.tv_files.specs.Ends.{done_in, end_of, end_of_failure};
ghost use Rattle.tv_files.specs.declared.done.Done.TheVariants.{Whole};
ghost use Rattle.tv_files.specs.Streams.{Offers};
ghost use Rattle.tv_files.specs.Telling.{Tells, TellsNoTask, TellsUsage, err_told, no_memory, no_way_message, out_told, status_told, unboxed_message, unwritten_message};

use crate::failure::Failure;
use crate::stream::Stream;
use crate::{Done, NoTask};
use tv_io::{Pen, Writer, write_all};
use tv_program::{Trouble, report};

/// The status after all was done.
const DONE: u8 = 0;

/// The status after faults were told.
const FAULTY: u8 = 1;

/// The status after a faulty command line, and after help.
const USAGE: u8 = 2;

/// The status where a file or a stream failed, or memory was refused.
const OUTSIDE: u8 = 3;

/// The status where a run in a terminal was broken off.
const BROKEN_OFF: u8 = 4;

/// Tells how a task ended, on the stream that took its result and on that of messages. Returns the status.
///
/// Where `out` failed, that is told too. Where a message can't be written, the status stays.
pub fn finish<O: Stream, E: Stream>(
    answer: &Result<Done, Failure<'_>>,
    out: &mut O,
    err: &mut E,
) -> u8
    ensures { Tells (done_in answer.now) (end_of answer.now) (O.seen out.old) (O.seen out.new) (E.seen err.old) (E.seen err.new) result }
{
    let status = tell(answer, out, err);
    match out.flush() {
        Ok(()) => {
            close(err);
            status
        }
        Err(_) => {
            tell_last(b"tvdlg: cannot write\n", err);
            OUTSIDE
        }
    }
}

/// Tells why there is no task. Returns the status.
pub fn tell_no_task<E: Stream>(no_task: NoTask, err: &mut E) -> u8
    ensures { TellsNoTask no_task (E.seen err.old) (E.seen err.new) result }
{
    match no_task {
        NoTask::NoMemory => tell_no_memory(err),
        NoTask::Usage(text) => tell_usage(text.as_str(), err),
    }
}

/// Tells that memory ran out before a task. Returns the status.
pub fn tell_no_memory<E: Stream>(err: &mut E) -> u8
    ensures told { Offers (E.seen err.old) (E.seen err.new) (no_memory ∷ []) }
    ensures status { result ≡ 3 }
{
    tell_last(b"tvdlg: no memory\n", err);
    OUTSIDE
}

// Tells what is wrong with a command line, or the help that it asks for.
fn tell_usage<E: Stream>(text: &str, err: &mut E) -> u8
    ensures { TellsUsage text.now (E.seen err.old) (E.seen err.new) result }
{
    offer(text.as_bytes(), err);
    match err.flush() {
        Ok(()) => USAGE,
        Err(_) => OUTSIDE,
    }
}

// Tells how a task ended, before the streams are flushed.
fn tell<O: Writer, E: Writer>(answer: &Result<Done, Failure<'_>>, out: &mut O, err: &mut E) -> u8
    ensures status { result ≡ status_told (done_in answer.now) (end_of answer.now) }
    ensures out { IsOffered (O.seen out.old) (O.seen out.new) (out_told (end_of answer.now)) }
    ensures err { IsOffered (E.seen err.old) (E.seen err.new) (err_told (end_of answer.now)) }
{
    match answer {
        Ok(Done::Whole) => DONE,
        Ok(Done::Faulty) => FAULTY,
        Ok(Done::BrokenOff) => BROKEN_OFF,
        Err(failure) => tell_failure(failure, out, err),
    }
}

// That `out` failed is not told here: it fails again where it is flushed.
fn tell_failure<O: Writer, E: Writer>(failure: &Failure<'_>, out: &mut O, err: &mut E) -> u8
    ensures status { result ≡ status_told Whole (end_of_failure failure.now) }
    ensures out { IsOffered (O.seen out.old) (O.seen out.new) (out_told (end_of_failure failure.now)) }
    ensures err { IsOffered (E.seen err.old) (E.seen err.new) (err_told (end_of_failure failure.now)) }
{
    match failure {
        Failure::Fault {
            fault: Trouble::Write,
            path: _,
        } => OUTSIDE,
        Failure::Fault { fault, path } => report(fault, path, out, err),
        Failure::Picture { script, number } => {
            tell_unwritten(script, *number, err);
            OUTSIDE
        }
        Failure::Box { message } => {
            tell_unboxed(message, err);
            FAULTY
        }
        Failure::Tape { script } => {
            tell_untaped(script, err);
            OUTSIDE
        }
        Failure::NoWay { path, message } => {
            tell_no_way(path, message.as_slice(), err);
            FAULTY
        }
    }
}

// Tells of a script's picture that it can't be written.
fn tell_unwritten<W: Writer>(script: &str, number: usize, err: &mut W)
    ensures { IsOffered (W.seen err.old) (W.seen err.new) (unwritten_message (shot_name script.now number)) }
{
    let mut pen = Pen {
        out: err,
        stopped: false,
    };
    put_unwritten(&mut pen, script.as_bytes(), number);
}

// Tells of a script that it can't be written.
fn tell_untaped<W: Writer>(script: &str, err: &mut W)
    ensures { IsOffered (W.seen err.old) (W.seen err.new) (unwritten_message script.now) }
{
    let mut pen = Pen {
        out: err,
        stopped: false,
    };
    put_untaped(&mut pen, script.as_bytes());
}

fn put_untaped<W: Writer>(pen: &mut Pen<W>, script: &[u8])
    ensures { Puts W.seen pen.old pen.new (unwritten_message script.now) }
{
    pen.put(b"tvdlg: cannot write ");
    pen.put(script);
    pen.put(b"\n");
}

fn put_unwritten<W: Writer>(pen: &mut Pen<W>, script: &[u8], number: usize)
    ensures { Puts W.seen pen.old pen.new (unwritten_message (shot_name script.now number)) }
{
    pen.put(b"tvdlg: cannot write ");
    pen.put(script);
    pen.put(b"-");
    pen.put_place(number);
    pen.put(b".svg\n");
}

// Tells why no box is made.
fn tell_unboxed<W: Writer>(message: &String, err: &mut W)
    ensures { IsOffered (W.seen err.old) (W.seen err.new) (unboxed_message (string_bytes message.now)) }
{
    let mut pen = Pen {
        out: err,
        stopped: false,
    };
    put_unboxed(&mut pen, message.as_bytes());
}

fn put_unboxed<W: Writer>(pen: &mut Pen<W>, message: &[u8])
    ensures { Puts W.seen pen.old pen.new (unboxed_message message.now) }
{
    pen.put(b"tvdlg: ");
    pen.put(b"box: ");
    pen.put(message);
    pen.put(b"\n");
}

// Tells why the end that is asked for isn't reached.
fn tell_no_way<W: Writer>(path: &str, message: &[u8], err: &mut W)
    ensures { IsOffered (W.seen err.old) (W.seen err.new) (no_way_message path.now message.now) }
{
    let mut pen = Pen {
        out: err,
        stopped: false,
    };
    put_no_way(&mut pen, path.as_bytes(), message);
}

fn put_no_way<W: Writer>(pen: &mut Pen<W>, path: &[u8], message: &[u8])
    ensures { Puts W.seen pen.old pen.new (no_way_message path.now message.now) }
{
    pen.put(b"tvdlg: ");
    pen.put(path);
    pen.put(b": ");
    pen.put(message);
    pen.put(b"\n");
}

fn tell_last<E: Stream>(text: &[u8], err: &mut E)
    ensures { Offers (E.seen err.old) (E.seen err.new) (text.now ∷ []) }
{
    offer(text, err);
    close(err);
}

// What the writer failed to take isn't offered again.
fn offer<W: Writer>(text: &[u8], to: &mut W)
    ensures { IsOffered (W.seen to.old) (W.seen to.new) text.now }
{
    let _ = write_all(to, text);
}

// There is nobody left to tell of a failure.
fn close<S: Stream>(stream: &mut S)
    ensures { Offers (S.seen stream.old) (S.seen stream.new) [] }
{
    let _ = stream.flush();
}
