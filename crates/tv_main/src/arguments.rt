//! The command line.

use crate::help::{
    ANSWERS, BOXES, ENDS, EXPLANATIONS, PICTURES, SCRIPTS, STATUSES, TERMINALS, WARNINGS, WAYS,
};
use clap::error::ErrorKind;
use clap::{Arg, ArgAction, ArgMatches, Command, Error};
use std::alloc::{AllocError, Global};
use tv_files::{Colours, Command as Given, Manner, NoTask, Task, Wanted};

/// What the program is at.
const VERSION: &str = "1.0.0";

/// The name of the subcommand whose words aren't read by clap.
const BOX: &str = "box";

fn path<'a>(alloc: Global, name: &'a str, help: &'a str) -> Arg<'a> {
    Arg::new(alloc, name)
        .required(true)
        .action(ArgAction::Set)
        .help(help)
}

// The file beside a description that is explained.
fn beside<'a>(alloc: Global) -> Arg<'a> {
    Arg::new(alloc, "BESIDE")
        .action(ArgAction::Set)
        .help("A script or a certificate, as `run` and `accept` take it")
}

fn description<'a>(alloc: Global) -> Arg<'a> {
    path(alloc, "FILE", "A description of windows and dialogs")
}

fn subcommand<'a>(alloc: Global, name: &'a str, about: &'a str) -> Result<Command<'a>, AllocError> {
    Command::new(alloc, name)
        .about(about)
        .after_help(STATUSES)
        .arg(description(alloc))
}

fn check<'a>(alloc: Global) -> Result<Command<'a>, AllocError> {
    subcommand(
        alloc,
        "check",
        "Prints the faults of a description, a line for each, or its certificate where it has none",
    )
}

fn accept<'a>(alloc: Global) -> Result<Command<'a>, AllocError> {
    subcommand(
        alloc,
        "accept",
        "Prints `accepted` where the certificate is that of the description, else the first reason to refuse them",
    )?
    .arg(path(alloc, "CERT", "A certificate, as `check` prints it"))
}

fn run<'a>(alloc: Global) -> Result<Command<'a>, AllocError> {
    subcommand(
        alloc,
        "run",
        "Performs a script of keys and pictures on a description, and prints what happens",
    )?
    .long_about(SCRIPTS)
    .arg(path(
        alloc,
        "SCRIPT",
        "A script, with an event or a picture on each line",
    ))
}

fn play<'a>(alloc: Global) -> Result<Command<'a>, AllocError> {
    subcommand(
        alloc,
        "play",
        "Plays a description in a terminal, and prints what happens",
    )?
    .long_about(TERMINALS)
    .arg(
        Arg::new(alloc, "colors")
            .long("colors")
            .value_name("NUMBER")
            .value_parser(["16", "256"].as_slice())
            .default_value("16")
            .action(ArgAction::Set)
            .help("How many colours the terminal has"),
    )?
    .arg(
        Arg::new(alloc, "record")
            .long("record")
            .value_name("SCRIPT")
            .action(ArgAction::Set)
            .help("Writes what the user does into SCRIPT, as a script for `run` and `picture`"),
    )
}

fn picture<'a>(alloc: Global) -> Result<Command<'a>, AllocError> {
    subcommand(
        alloc,
        "picture",
        "Performs a script on a description, and prints the screen that it leaves as SVG",
    )?
    .long_about(PICTURES)
    .arg(path(
        alloc,
        "SCRIPT",
        "A script, with an event or a picture on each line",
    ))?
    .arg(
        Arg::new(alloc, "all")
            .long("all")
            .action(ArgAction::SetTrue)
            .help("Draws the screen at each `shot` into SCRIPT-1.svg, SCRIPT-2.svg and so on"),
    )
}

fn fill<'a>(alloc: Global) -> Result<Command<'a>, AllocError> {
    subcommand(
        alloc,
        "fill",
        "Prints a description whose fields begin with answers",
    )?
    .long_about(ANSWERS)
    .arg(log(alloc))
}

fn answer<'a>(alloc: Global) -> Result<Command<'a>, AllocError> {
    subcommand(
        alloc,
        "answer",
        "Gives answered dialogs their ends without a user, and prints what happens",
    )?
    .long_about(ENDS)
    .arg(log(alloc))
}

fn log<'a>(alloc: Global) -> Arg<'a> {
    path(
        alloc,
        "ANSWERS",
        "A log, or lines of one, that answers dialogs of the description",
    )
}

fn boxes<'a>(alloc: Global) -> Result<Command<'a>, AllocError> {
    Command::new(alloc, BOX)
        .about("Prints the description of a ready dialog, which the arguments of `dialog` ask for")
        .long_about(BOXES)
        .after_help(STATUSES)
        .arg(path(
            alloc,
            "ARGUMENTS",
            "The arguments of `dialog`, as they stand",
        )
        .num_args(1..))
}

fn ways<'a>(alloc: Global) -> Result<Command<'a>, AllocError> {
    subcommand(
        alloc,
        "ways",
        "Prints for each end and each control of each dialog how a user comes to it",
    )?
    .long_about(WAYS)
    .arg(
        Arg::new(alloc, "DIALOG")
            .action(ArgAction::Set)
            .requires_arg("END")?
            .help("The dialog of which the way to one end is wanted"),
    )?
    .arg(
        Arg::new(alloc, "END")
            .value_parser(["ok", "cancel", "yes", "no"].as_slice())
            .action(ArgAction::Set)
            .help("That end"),
    )
}

fn warn<'a>(alloc: Global) -> Result<Command<'a>, AllocError> {
    subcommand(
        alloc,
        "warn",
        "Warns of what fails the users of a description without faults",
    )?
    .long_about(WARNINGS)
    .arg(
        Arg::new(alloc, "deny")
            .long("deny")
            .action(ArgAction::SetTrue)
            .help("Ends with status 1 where there is a warning"),
    )?
    .arg(json(
        alloc,
        "Prints an object of JSON for each warning, one a line",
    ))?
    .arg(color(alloc))
}

fn json<'a>(alloc: Global, help: &'a str) -> Arg<'a> {
    Arg::new(alloc, "json")
        .long("json")
        .action(ArgAction::SetTrue)
        .help(help)
}

fn color<'a>(alloc: Global) -> Arg<'a> {
    Arg::new(alloc, "color")
        .long("color")
        .value_name("WHEN")
        .value_parser(["always", "never"].as_slice())
        .default_value("never")
        .action(ArgAction::Set)
        .help("Prints in colours")
}

fn explain<'a>(alloc: Global) -> Result<Command<'a>, AllocError> {
    subcommand(
        alloc,
        "explain",
        "Tells of each fault of a description where it is, why it is one and how to mend it",
    )?
    .long_about(EXPLANATIONS)
    .arg(beside(alloc))?
    .arg(json(alloc, "Prints an object of JSON for each fault, one a line"))?
    .arg(color(alloc))
}

fn command<'a>(alloc: Global) -> Result<Command<'a>, AllocError> {
    Command::new(alloc, "tvdlg")
        .about(
            "Checks descriptions of text-mode dialogs, and runs them on scripts or in a terminal",
        )
        .version(VERSION)
        .after_help(STATUSES)
        .subcommand_required(true)
        .subcommand(check(alloc)?)?
        .subcommand(accept(alloc)?)?
        .subcommand(run(alloc)?)?
        .subcommand(play(alloc)?)?
        .subcommand(picture(alloc)?)?
        .subcommand(fill(alloc)?)?
        .subcommand(answer(alloc)?)?
        .subcommand(boxes(alloc)?)?
        .subcommand(explain(alloc)?)?
        .subcommand(ways(alloc)?)?
        .subcommand(warn(alloc)?)
}

/// Reads the task from the words of a command line, of which the first names the program, or returns what to report
/// instead.
pub fn read_task<'a>(alloc: Global, words: &'a [String]) -> Result<Task<'a>, NoTask> {
    match parse(alloc, words) {
        Ok(task) => Ok(task),
        Err(error) => match error.kind() {
            ErrorKind::DisplayVersion => Ok(Task::Version),
            ErrorKind::OutOfMemory => Err(NoTask::NoMemory),
            _ => Err(NoTask::Usage(format!(in alloc; "{error}")?)),
        },
    }
}

/// Reads the words of the command line. Help is an error too, and carries its text.
pub fn parse<'a>(alloc: Global, words: &'a [String]) -> Result<Task<'a>, Error> {
    if let Some(task) = box_task(words) {
        return Ok(task);
    }
    let matches = command(alloc)?.try_get_matches_from(words)?;
    match matches.subcommand() {
        Some((name, found)) => match named_task(name, found) {
            Some(task) => Ok(task),
            None => Err(no_task(alloc)?),
        },
        None => Err(no_task(alloc)?),
    }
}

// What follows `box` stands as it is, since it has options of its own.
fn box_task<'a>(words: &'a [String]) -> Option<Task<'a>> {
    match words {
        [_, name, words @ ..] if name.as_str() == BOX && !is_help(words) => Some(Task::Box {
            words,
        }),
        _ => None,
    }
}

// Whether help is asked for, or nothing is.
fn is_help(words: &[String]) -> bool {
    match words {
        [] => true,
        [word, ..] => matches!(word.as_str(), "-h" | "--help"),
    }
}

fn no_task(alloc: Global) -> Result<Error, AllocError> {
    command(alloc)?.error(ErrorKind::MissingSubcommand, "a subcommand is required")
}

fn named_task<'a>(name: &str, found: &ArgMatches<'a>) -> Option<Task<'a>> {
    let file = found.get_str("FILE")?;
    match name {
        "check" => Some(Task::Check { file }),
        "accept" => Some(Task::Accept {
            file,
            certificate: found.get_str("CERT")?,
        }),
        "run" => Some(Task::Run {
            file,
            script: found.get_str("SCRIPT")?,
        }),
        "play" => Some(playing(file, found)),
        "picture" => Some(drawing(file, found.get_str("SCRIPT")?, found)),
        "fill" => Some(Task::Fill {
            file,
            answers: found.get_str("ANSWERS")?,
        }),
        "answer" => Some(Task::Answer {
            file,
            answers: found.get_str("ANSWERS")?,
        }),
        "explain" => Some(explanation(file, found)),
        "ways" => Some(way(file, found)),
        "warn" => Some(Task::Warn {
            file,
            manner: manner(found),
            denies: found.get_flag("deny"),
        }),
        _ => None,
    }
}

fn playing<'a>(file: &'a str, found: &ArgMatches<'a>) -> Task<'a> {
    let colours = colours(found);
    match found.get_str("record") {
        Some(script) => Task::Record {
            file,
            script,
            colours,
        },
        None => Task::Play { file, colours },
    }
}

fn drawing<'a>(file: &'a str, script: &'a str, found: &ArgMatches<'a>) -> Task<'a> {
    if found.get_flag("all") {
        Task::PictureAll { file, script }
    } else {
        Task::Picture { file, script }
    }
}

fn explanation<'a>(file: &'a str, found: &ArgMatches<'a>) -> Task<'a> {
    let manner = manner(found);
    match found.get_str("BESIDE") {
        Some(beside) => Task::ExplainBoth {
            file,
            beside,
            manner,
        },
        None => Task::Explain { file, manner },
    }
}

// Both DIALOG and END stand there, or neither.
fn way<'a>(file: &'a str, found: &ArgMatches<'a>) -> Task<'a> {
    match (found.get_str("DIALOG"), found.get_str("END")) {
        (Some(dialog), Some(end)) => Task::Way {
            file,
            wanted: Wanted {
                dialog,
                end: end_command(end),
            },
        },
        _ => Task::Ways { file },
    }
}

fn end_command(word: &str) -> Given {
    match word {
        "ok" => Given::OK,
        "yes" => Given::YES,
        "no" => Given::NO,
        _ => Given::CANCEL,
    }
}

fn colours(found: &ArgMatches<'_>) -> Colours {
    match found.get_str("colors") {
        Some("256") => Colours::Indexed,
        _ => Colours::Sixteen,
    }
}

// JSON is never coloured.
fn manner(found: &ArgMatches<'_>) -> Manner {
    if found.get_flag("json") {
        return Manner::Json;
    }
    match found.get_str("color") {
        Some("always") => Manner::Coloured,
        _ => Manner::Plain,
    }
}
