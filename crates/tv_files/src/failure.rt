//! Failures, each told of the file that it is in.

ghost use Rattle.std.specs.Prelude.{◌≡◌, Err};
ghost use Rattle.tv_program.specs.Conversions.{run_told};
ghost use Rattle.tv_files.specs.Ends.{end_of_failure, end_of_record, end_of_shot, end_of_tape, file_told, path_of, path_of_run};
ghost use Rattle.tv_files.specs.Ends.End.{faulted};

use crate::tasks::TERMINAL;
use tv_io::ReadFault;
use tv_program::{AlbumFault, RunFault, ShotFault, Trouble};

/// Why a task didn't come to its end.
#[derive(Debug, Drop)]
pub enum Failure<'a> {
    /// A fault, and the path of the file that it is told of.
    Fault { fault: Trouble, path: &'a str },
    /// The picture with this number of a script can't be written.
    Picture { script: &'a str, number: usize },
    /// No box is made, for what the message says.
    Box { message: String },
    /// What the user did can't be written into the file of this path.
    Tape { script: &'a str },
    /// The end that is asked for isn't reached, for what the message says.
    NoWay { path: &'a str, message: Vec<u8> },
}

impl<'a> Failure<'a> {
    // Tells a fault of the text that it is in: the description, or the certificate or the answers beside it.
    pub(crate) fn new(file: &'a str, beside: &'a str, fault: Trouble) -> Failure<'a>
        ensures { end_of_failure result ≡ faulted fault (path_of fault file.now beside.now) }
    {
        let path = match fault {
            Trouble::Cert(_)
            | Trouble::Answers(_)
            | Trouble::Misfits
            | Trouble::NoAnswers
            | Trouble::Disabled(_)
            | Trouble::Unended(_) => beside,
            _ => file,
        };
        Failure::Fault { fault, path }
    }

    // Tells a fault of a run of the text that it is in: the description, or the script where that is at fault or can't be
    // read.
    pub(crate) fn of_run(file: &'a str, script: &'a str, fault: RunFault) -> Failure<'a>
        ensures { end_of_failure result ≡ faulted (run_told fault) (path_of_run fault file.now script.now) }
    {
        let path = match fault {
            RunFault::Script(_) | RunFault::Read => script,
            _ => file,
        };
        Failure::Fault {
            fault: Trouble::from(fault),
            path,
        }
    }

    // Tells a fault of a run in a terminal of the text that it is in, or of the file into which it is recorded.
    pub(crate) fn of_record(file: &'a str, script: &'a str, fault: RunFault) -> Failure<'a>
        ensures { end_of_failure result ≡ end_of_record {T = Unit {0}} file.now script.now (Err fault) }
    {
        match fault {
            RunFault::Tape => Failure::Tape { script },
            _ => Failure::of_run(file, TERMINAL, fault),
        }
    }

    // Tells of the file into which a run is to be recorded that it isn't there.
    pub(crate) fn of_tape(script: &'a str, fault: AlbumFault) -> Failure<'a>
        ensures { end_of_failure result ≡ end_of_tape script.now fault }
    {
        match fault {
            AlbumFault::NoMemory => Failure::Fault {
                fault: Trouble::NoMemory,
                path: script,
            },
            AlbumFault::Write => Failure::Tape { script },
        }
    }

    // Tells of a file that it can't be opened or read.
    pub(crate) fn of_file(path: &'a str, unread: ReadFault) -> Failure<'a>
        ensures { end_of_failure result ≡ faulted (file_told unread) path.now }
    {
        let fault = match unread {
            ReadFault::NoMemory => Trouble::NoMemory,
            ReadFault::Read => Trouble::Read,
        };
        Failure::Fault { fault, path }
    }

    // Tells of a script's picture that it isn't there.
    pub(crate) fn of_shot(script: &'a str, shot: ShotFault) -> Failure<'a>
        ensures { end_of_failure result ≡ end_of_shot script.now shot }
    {
        match shot.fault {
            AlbumFault::NoMemory => Failure::Fault {
                fault: Trouble::NoMemory,
                path: script,
            },
            AlbumFault::Write => Failure::Picture {
                script,
                number: shot.number,
            },
        }
    }
}
