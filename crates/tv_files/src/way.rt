//! What asking for the way to one end of a dialog comes to.

ghost use Rattle.std.specs.Prelude.{◌≡◌, IfOk};
ghost use Rattle.tv_app.specs.Opening.{IsSpelledSound};
ghost use Rattle.tv_files.specs.Ends.{done_in, end_of, end_of_failure};
ghost use Rattle.tv_files.specs.Ends.End.{faulted};
ghost use Rattle.tv_files.specs.Way.{EndsAt, EndsWay, WayAs, WayFile, WritesScript, end_without, no_dialog, no_end};
ghost use Rattle.tv_model.specs.Description.Commands.{is_end};
ghost use Rattle.tv_program.specs.declared.trouble.Trouble.TheVariants.{NoMemory};
ghost use Rattle.tv_ways.specs.Listing.{way_text};

use crate::explaining::explain;
use crate::failure::Failure;
use crate::file_store::FileStore;
use crate::tasks::read_file;
use crate::{Done, Inquiry, Wanted};
use std::alloc::{AllocError, Global};
use tv_advice::Manner;
use tv_app::dialog_place;
use tv_event::{Command, Event};
use tv_io::{Gathering, Pen, Writer};
use tv_model::{Desc, Ends};
use tv_program::Trouble;
use tv_reach::{Answer, Goal};
use tv_script::end_word;
use tv_ways::{Way, answer, put_script, put_way};

/// A sound description, the text that spells it, and the path of its file.
#[derive(Clone, Copy)]
struct Sound<'a, 'b> {
    file: &'a str,
    text: &'b [u8],
    desc: &'b Desc,
}

/// Writes a script that leads to the end of the dialog, of the description in a file, which begins at the start.
///
/// A description with faults is told of as `explain_file` does. A dialog or an end that isn't there is a failure, and so is an end
/// that isn't reached.
pub fn way_file<'a, F: FileStore, W: Writer>(
    files: &mut F,
    alloc: Global,
    file: &'a str,
    wanted: Wanted<'_>,
    out: &mut W,
) -> Result<Done, Failure<'a>>
    ensures { WayFile (F.known files.old) (F.known files.new) file.now wanted.entry.dialog.now wanted.entry.end
        (W.seen out.old) (W.seen out.new) (done_in result) (end_of result) }
{
    let text = read_file(files, alloc, file)?;
    tell_way(alloc, file, text.as_slice(), wanted, out)
}

// Writes this script, or what there is to tell of faults.
fn tell_way<'a, W: Writer>(
    alloc: Global,
    file: &'a str,
    text: &[u8],
    wanted: Wanted<'_>,
    out: &mut W,
) -> Result<Done, Failure<'a>>
    ensures { WayAs file.now wanted.entry.dialog.now wanted.entry.end (W.seen out.old) (W.seen out.new)
        (done_in result) (end_of result) text.now }
{
    let inquiry = Inquiry {
        file,
        manner: Manner::Plain,
    };
    match explain(alloc, inquiry, text, out) {
        Ok(Some(desc)) => {
            let sound = Sound {
                file,
                text,
                desc: &desc,
            };
            find_way(alloc, sound, wanted, out)
        }
        Ok(None) => Ok(Done::Faulty),
        Err(fault) => Err(Failure::new(file, file, fault)),
    }
}

// Whether a dialog with these ends is ended by the command.
fn is_end(ends: Ends, command: Command) -> bool
    ensures { result ≡ is_end ends command.0 }
{
    match command {
        Command::OK => ends.ok,
        Command::CANCEL => ends.cancel,
        Command::YES => ends.yes,
        Command::NO => ends.no,
        _ => false,
    }
}

// Writes the script of the way to the end of a dialog of the name.
fn find_way<'a, W: Writer>(
    alloc: Global,
    sound: Sound<'a, '_>,
    wanted: Wanted<'_>,
    out: &mut W,
) -> Result<Done, Failure<'a>>
    requires { IsSpelledSound sound.text.now sound.desc.now }
    ensures { EndsWay sound.entry.file.now sound.entry.desc.now wanted.entry.dialog.now wanted.entry.end
        (W.seen out.old) (W.seen out.new) (done_in result) (end_of result) }
{
    let Some(place) = dialog_place(sound.desc, wanted.dialog) else {
        return Err(without(sound.file, no_dialog(alloc, wanted.dialog)));
    };
    let dialog = &sound.desc.dialogs.as_slice()[place];
    if !is_end(dialog.head().ends, wanted.end) {
        return Err(without(sound.file, no_end(alloc, wanted)));
    }
    write_way(alloc, sound, place, wanted.end, out)
}

// Writes the script of the way to the end of the dialog at the place.
fn write_way<'a, W: Writer>(
    alloc: Global,
    sound: Sound<'a, '_>,
    place: usize,
    end: Command,
    out: &mut W,
) -> Result<Done, Failure<'a>>
    requires { IsSpelledSound sound.text.now sound.desc.now }
    ensures { EndsAt sound.entry.file.now sound.entry.desc.now place end (W.seen out.old) (W.seen out.new)
        (done_in result) (end_of result) }
{
    let goal = Goal::Ends(end);
    let Ok(answer) = answer(alloc, sound.text, sound.desc, place, goal) else {
        return Err(no_memory(sound.file));
    };
    let way = Way { goal, answer };
    match &way.answer {
        Answer::Way(events) => write_script(sound.file, events.as_slice(), out),
        Answer::Never(_) => Err(without(sound.file, unreached(alloc, sound.desc, &way))),
        Answer::Unknown => Err(without(sound.file, unreached(alloc, sound.desc, &way))),
    }
}

fn write_script<'a, W: Writer>(
    file: &'a str,
    events: &[Event],
    out: &mut W,
) -> Result<Done, Failure<'a>>
    ensures { WritesScript file.now events.now (W.seen out.old) (W.seen out.new) (done_in result) (end_of result) }
{
    let mut pen = Pen {
        out,
        stopped: false,
    };
    put_script(&mut pen, events);
    if pen.stopped {
        Err(Failure::Fault {
            fault: Trouble::Write,
            path: file,
        })
    } else {
        Ok(Done::Whole)
    }
}

fn no_memory<'a>(file: &'a str) -> Failure<'a>
    ensures { end_of_failure result ≡ faulted NoMemory file.now }
{
    Failure::Fault {
        fault: Trouble::NoMemory,
        path: file,
    }
}

// Why the end isn't reached, or that there is no memory to say so.
fn without<'a>(file: &'a str, message: Result<Vec<u8>, AllocError>) -> Failure<'a>
    ensures { end_of_failure result ≡ end_without file.now message }
{
    match message {
        Ok(message) => Failure::NoWay {
            path: file,
            message,
        },
        Err(_) => no_memory(file),
    }
}

fn no_dialog(alloc: Global, dialog: &str) -> Result<Vec<u8>, AllocError>
    ensures { IfOk result (λ message. message.items ≡ no_dialog dialog.now) }
{
    let mut message = Vec::from_slice(alloc, b"no dialog ")?;
    message.extend_from_slice(dialog.as_bytes())?;
    Ok(message)
}

fn no_end(alloc: Global, wanted: Wanted<'_>) -> Result<Vec<u8>, AllocError>
    ensures { IfOk result (λ message. message.items ≡ no_end wanted.entry.dialog.now wanted.entry.end) }
{
    let mut message = Vec::from_slice(alloc, wanted.dialog.as_bytes())?;
    message.extend_from_slice(b" doesn't end by ")?;
    message.extend_from_slice(end_word(wanted.end))?;
    Ok(message)
}

fn unreached(alloc: Global, desc: &Desc, way: &Way) -> Result<Vec<u8>, AllocError>
    ensures { IfOk result (λ message. message.items ≡ way_text desc.now way.now) }
{
    let mut text = Gathering::new(alloc);
    let mut pen = Pen {
        out: &mut text,
        stopped: false,
    };
    put_way(&mut pen, desc, way);
    if pen.stopped {
        return Err(AllocError);
    }
    Ok(text.into_bytes())
}
