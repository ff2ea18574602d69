//! How the program ends: what its two streams took, its status, and which files were opened.

use crate::gallery::Gallery;
use crate::shelf::Shelf;
use crate::sink::Sink;
use crate::user::User;
use std::alloc::{AllocError, Global};
use std::test::Fail;
use tv_files::{
    BufferedStream, Colours, Command, Manner, NoTask, Stream, Task, Wanted, World, run_program,
};
use tv_test_support::button_views::buttons;
use tv_test_support::certificates::CANCEL_CERTIFICATE;
use tv_test_support::descriptions::{CANCEL, ORDER, SHARED_LETTER};

const FILE: &str = Shelf::DESCRIPTION;

const BESIDE: &str = Shelf::BESIDE;

/// A check of the description.
pub const CHECK: Task<'static> = Task::Check { file: FILE };

/// An acceptance of the description with the file beside it.
pub const ACCEPT: Task<'static> = Task::Accept {
    file: FILE,
    certificate: BESIDE,
};

/// A run of the file beside it on the description.
pub const RUN: Task<'static> = Task::Run {
    file: FILE,
    script: BESIDE,
};

/// A description that is filled with the file beside it.
pub const FILL: Task<'static> = Task::Fill {
    file: FILE,
    answers: BESIDE,
};

/// The dialogs of a description, given the ends that the file beside it answers.
pub const ANSWER: Task<'static> = Task::Answer {
    file: FILE,
    answers: BESIDE,
};

/// A description whose faults are explained, or those of the file beside it.
const EXPLAIN_BOTH: Task<'static> = Task::ExplainBoth {
    file: FILE,
    beside: BESIDE,
    manner: Manner::Plain,
};

/// The ways of a description.
pub const WAYS: Task<'static> = Task::Ways { file: FILE };

/// The way to the end of its dialog by `cancel`.
pub const WAY: Task<'static> = Task::Way {
    file: FILE,
    wanted: Wanted {
        dialog: "a",
        end: Command::CANCEL,
    },
};

/// Its warnings, which are denied.
pub const WARN: Task<'static> = Task::Warn {
    file: FILE,
    manner: Manner::Plain,
    denies: true,
};

/// The screen at each `shot` of the file beside the description.
pub const PICTURE_ALL: Task<'static> = Task::PictureAll {
    file: FILE,
    script: BESIDE,
};

/// A description that is played.
pub const PLAY: Task<'static> = Task::Play {
    file: FILE,
    colours: Colours::Sixteen,
};

/// A stream: how many bytes it has room for, and whether it can be flushed.
pub type Room = (usize, bool);

/// More room than these streams need.
pub const AMPLE: Room = (100_000, true);

/// A task, the description, the file beside it, and what is told.
pub type Ending<'a> = (Task<'a>, &'a str, &'a str, &'a str);

/// Fails where one of these tasks with ample room comes to something else.
pub fn expect_endings(alloc: Global, endings: &[Ending<'_>]) -> Result<(), Fail> {
    for (task, description, beside, wanted) in endings {
        let told = ample_ending(alloc, *task, (*description, *beside))?;
        expect_told(&told, wanted)?;
    }
    Ok(())
}

/// A task, the description and the file beside it, the room of standard output and of standard error, and what is told.
pub type RoomEnding<'a> = (Task<'a>, (&'a str, &'a str), (Room, Room), &'a str);

/// Fails where one of these tasks comes to something else.
pub fn expect_room_endings(alloc: Global, endings: &[RoomEnding<'_>]) -> Result<(), Fail> {
    for (task, texts, rooms, wanted) in endings {
        let told = ending(alloc, Ok(*task), *texts, rooms.0, rooms.1)?;
        expect_told(&told, wanted)?;
    }
    Ok(())
}

/// Fails where something else is told than is wanted.
pub fn expect_told(told: &str, wanted: &str) -> Result<(), Fail> {
    if told == wanted {
        return Ok(());
    }
    Err(Fail::new(format_args!("told:\n{told}wanted:\n{wanted}")))
}

// The same as `ending`, with ample room.
fn ample_ending(alloc: Global, task: Task<'_>, texts: (&str, &str)) -> Result<String, Fail> {
    ending(alloc, Ok(task), texts, AMPLE, AMPLE)
}

/// What a task with this room comes to, about these texts, or what comes where nothing can be done: what stands on standard
/// output, then what stands on standard error, then the status, then what was opened.
pub fn ending(
    alloc: Global,
    asked: Result<Task<'_>, NoTask>,
    texts: (&str, &str),
    out_room: Room,
    err_room: Room,
) -> Result<String, Fail> {
    let files = Shelf::new(texts.0, texts.1);
    ending_of(alloc, asked, files, User::silent(), (out_room, err_room))
}

/// The same, with these files, and a user.
pub fn ending_of(
    alloc: Global,
    asked: Result<Task<'_>, NoTask>,
    files: Shelf<'_>,
    user: User<'_>,
    rooms: (Room, Room),
) -> Result<String, Fail> {
    let (out_room, err_room) = rooms;
    let mut out = Sink::new(alloc, out_room.0, out_room.1);
    let mut err = Sink::new(alloc, err_room.0, err_room.1);
    let (status, opened) = status(alloc, asked, files, user, &mut out, &mut err)?;
    let text = str::from_utf8(out.taken())?;
    let message = plain(alloc, str::from_utf8(err.taken())?)?;
    Ok(format!(in alloc; "{text}{message}status {status}\nopened {opened}\n")?)
}

// A text without the sequences of a terminal. A line begins where the cursor goes; `{` stands for the alternate screen, and `}` for
// the normal one.
fn plain(alloc: Global, text: &str) -> Result<String, AllocError> {
    let mut plain = String::new(alloc);
    let mut parts = text.split('\x1b');
    plain.push_str(parts.next().unwrap_or(""))?;
    for part in parts {
        let mut rest = part
            .trim_start_matches(|c: char| !c.is_ascii_alphabetic())
            .chars();
        match rest.next() {
            Some('H') => plain.push('\n')?,
            Some('h') if part.starts_with("[?1049") => plain.push('{')?,
            Some('l') if part.starts_with("[?1049") => plain.push('}')?,
            _ => {}
        }
        plain.push_str(rest.as_str())?;
    }
    Ok(plain)
}

/// The status of what is asked for, with these files, a user and both streams, and then what was opened.
pub fn status(
    alloc: Global,
    asked: Result<Task<'_>, NoTask>,
    files: Shelf<'_>,
    user: User<'_>,
    out: &mut Sink,
    err: &mut Sink,
) -> Result<(u8, u32), Fail> {
    let out = BufferedStream::new(alloc, out)?;
    let err = BufferedStream::new(alloc, err)?;
    let mut world = World {
        files,
        album: Gallery::new(alloc, 0),
        pieces: user,
        out,
        err,
    };
    Ok(status_in(alloc, asked, &mut world))
}

// The same in a world.
fn status_in<O: Stream, E: Stream>(
    alloc: Global,
    asked: Result<Task<'_>, NoTask>,
    world: &mut World<Shelf<'_>, Gallery, User<'_>, O, E>,
) -> (u8, u32) {
    let status = run_program(alloc, asked, &buttons, world);
    (status, world.files.opened())
}

/// A form, for answers.
pub const FORM: &str = r#"tvd 1
screen 40 12

# how to reach it
dialog form 1 1 30 8 "Form" opens 100 ends ok cancel
input port 1 1 8 5 range 1 65535 "80"
button ok 1 5 8 "OK" ok
button no 12 5 8 "No" cancel
end
"#;

/// Two questions of buttons alone, since these views are buttons.
pub const QUESTIONS: &str = r#"tvd 1
screen 40 12
dialog first 1 1 30 8 "First" ends ok cancel
button ok 1 5 8 "OK" ok
button no 12 5 8 "No" cancel
end
dialog second 1 1 30 8 "Second" ends cancel yes no
button yes 1 5 8 "Yes" yes
button no 12 5 8 "No" no
end
"#;

// What each task opens: one that can't go on with the description leaves the file beside it closed, but for a script. Views
// that are refused are told before a faulty line of the script. For `FULL` there is no memory.
const OPENED: [Ending<'static>; 27] = [
    (
        CHECK,
        "tvd 3\n",
        "",
        "tvdlg: FILE: unknown version\nstatus 1\nopened 1\n",
    ),
    (
        ACCEPT,
        CANCEL,
        CANCEL_CERTIFICATE,
        "accepted\nstatus 0\nopened 12\n",
    ),
    (
        ACCEPT,
        "tvd 1\n",
        "tvcert 2\n",
        "tvdlg: FILE: syntax at line 2\nstatus 1\nopened 1\n",
    ),
    (
        RUN,
        "tvd 1\n",
        "key Foo\n",
        "tvdlg: FILE: syntax at line 2\nstatus 1\nopened 12\n",
    ),
    (
        RUN,
        ORDER,
        "key Foo\n",
        "tvdlg: view refused\nstatus 1\nopened 12\n",
    ),
    (
        RUN,
        ORDER,
        "key Esc\n",
        "tvdlg: view refused\nstatus 1\nopened 12\n",
    ),
    (PLAY, ORDER, "", "tvdlg: view refused\nstatus 1\nopened 1\n"),
    (
        Task::Record {
            file: FILE,
            script: "NONE",
            colours: Colours::Sixteen,
        },
        CANCEL,
        "",
        "tvdlg: cannot write NONE\nstatus 3\nopened 1\n",
    ),
    (
        Task::Picture {
            file: FILE,
            script: BESIDE,
        },
        ORDER,
        "",
        "tvdlg: view refused\nstatus 1\nopened 12\n",
    ),
    (
        PICTURE_ALL,
        ORDER,
        "shot\n",
        "tvdlg: view refused\nstatus 1\nopened 12\n",
    ),
    (
        FILL,
        FORM,
        "field port \"1\"\n",
        "tvdlg: BESIDE: syntax at line 1\nstatus 1\nopened 12\n",
    ),
    (FILL, SHARED_LETTER, "", "F4 line 8\nstatus 1\nopened 1\n"),
    (
        ANSWER,
        QUESTIONS,
        "",
        "tvdlg: BESIDE: no answers\nstatus 1\nopened 12\n",
    ),
    (ANSWER, SHARED_LETTER, "", "F4 line 8\nstatus 1\nopened 1\n"),
    (
        Task::Explain {
            file: FILE,
            manner: Manner::Plain,
        },
        CANCEL,
        "",
        "status 0\nopened 1\n",
    ),
    (
        EXPLAIN_BOTH,
        CANCEL,
        "key Tab\nkey Esc\n",
        "status 0\nopened 12\n",
    ),
    (EXPLAIN_BOTH, "tvd 3\n", "", VERSION_EXPLAINED),
    (
        WAYS,
        CANCEL,
        "",
        "dialog a\nend cancel: key Esc\nfocus c: at the start\nstatus 0\nopened 1\n",
    ),
    (WAY, CANCEL, "", "key Esc\nstatus 0\nopened 1\n"),
    (WARN, CANCEL, "", "status 0\nopened 1\n"),
    (Task::Version, "", "", "tvdlg 1.0.0\nstatus 0\nopened 0\n"),
    (
        Task::Check { file: "FULL" },
        CANCEL,
        "",
        "tvdlg: no memory\nstatus 3\nopened 4\n",
    ),
    (
        Task::Play {
            file: "FULL",
            colours: Colours::Sixteen,
        },
        CANCEL,
        "",
        "tvdlg: no memory\nstatus 3\nopened 4\n",
    ),
    (
        Task::Accept {
            file: FILE,
            certificate: "FULL",
        },
        CANCEL,
        "",
        "tvdlg: no memory\nstatus 3\nopened 14\n",
    ),
    (
        Task::Run {
            file: FILE,
            script: "FULL",
        },
        CANCEL,
        "",
        "tvdlg: no memory\nstatus 3\nopened 14\n",
    ),
    (
        Task::Fill {
            file: FILE,
            answers: "FULL",
        },
        FORM,
        "",
        "tvdlg: no memory\nstatus 3\nopened 14\n",
    ),
    (
        Task::Answer {
            file: FILE,
            answers: "FULL",
        },
        QUESTIONS,
        "",
        "tvdlg: no memory\nstatus 3\nopened 14\n",
    ),
];

const VERSION_EXPLAINED: &str = "FILE:1:5: version: the language has no version 3
  |
1 | tvd 3
  |     ^ the versions are 1 and 2
  = mend: write `tvd 1` or `tvd 2`
status 1
opened 1
";

#[test]
fn opened_files(rt: HostRuntime) -> Result<(), Fail> {
    expect_endings(rt.alloc(), &OPENED)
}

/// A task, the description, the file beside it, which of the two breaks off at its end, and what is told.
type TornEnding<'a> = (Task<'a>, &'a str, &'a str, &'a str, &'a str);

// What the lines before wrote of a script that breaks off was written, and the line that has no end isn't performed.
const TORN: [TornEnding<'static>; 10] = [
    (
        CHECK,
        CANCEL,
        "",
        FILE,
        "tvdlg: cannot read FILE\nstatus 3\nopened 1\n",
    ),
    (
        ACCEPT,
        CANCEL,
        CANCEL_CERTIFICATE,
        BESIDE,
        "tvdlg: cannot read BESIDE\nstatus 3\nopened 12\n",
    ),
    (
        RUN,
        CANCEL,
        "key Esc\n",
        FILE,
        "tvdlg: cannot read FILE\nstatus 3\nopened 12\n",
    ),
    (
        PLAY,
        CANCEL,
        "",
        FILE,
        "tvdlg: cannot read FILE\nstatus 3\nopened 1\n",
    ),
    (
        RUN,
        CANCEL,
        "",
        BESIDE,
        "open a\nfocus c\ntvdlg: cannot read BESIDE\nstatus 3\nopened 12\n",
    ),
    (
        RUN,
        CANCEL,
        "key Tab\nkey Esc\nkey Foo",
        BESIDE,
        "open a\nfocus c\nend a cancel\ntvdlg: cannot read BESIDE\nstatus 3\nopened 12\n",
    ),
    (
        RUN,
        CANCEL,
        "key Foo\n",
        BESIDE,
        "open a\nfocus c\ntvdlg: BESIDE: syntax at line 1\nstatus 1\nopened 12\n",
    ),
    (
        PICTURE_ALL,
        CANCEL,
        "shot\n",
        BESIDE,
        "tvdlg: cannot read BESIDE\nstatus 3\nopened 12\n",
    ),
    (
        FILL,
        FORM,
        "end form ok\n",
        BESIDE,
        "tvdlg: cannot read BESIDE\nstatus 3\nopened 12\n",
    ),
    (
        ANSWER,
        QUESTIONS,
        "end first ok\n",
        BESIDE,
        "tvdlg: cannot read BESIDE\nstatus 3\nopened 12\n",
    ),
];

#[test]
fn files_that_break_off(rt: HostRuntime) -> Result<(), Fail> {
    let alloc = rt.alloc();
    for (task, description, beside, path, wanted) in &TORN {
        let files = Shelf::torn(description, beside, path);
        let told = ending_of(alloc, Ok(*task), files, User::silent(), (AMPLE, AMPLE))?;
        expect_told(&told, wanted)?;
    }
    Ok(())
}

// Fails where texts that are too long aren't told as such, or others are: whether these are, of tasks with ample room, and what
// is told then.
fn expect_bound(alloc: Global, are_too_long: bool, endings: &[Ending<'_>]) -> Result<(), Fail> {
    for (task, description, beside, message) in endings {
        let told = ample_ending(alloc, *task, (*description, *beside))?;
        if (told.as_str() == *message) != are_too_long {
            return Err(Fail::new(format_args!("{task:?}: {told}")));
        }
    }
    Ok(())
}

// Texts of comments, so many bytes past what each may have. Of a script that is explained no more is read than of a description.
#[test]
fn long_texts(rt: HostRuntime) -> Result<(), Fail> {
    const TOO_LONG: &str = "tvdlg: BESIDE: too long\nstatus 1\nopened 12\n";
    let alloc = rt.alloc();
    for (past, are_too_long) in [(0, false), (1, true), (50_000, true)] {
        let long = "#".repeat(alloc, 262_144 + past)?;
        let script = "#".repeat(alloc, 1_048_576 + past)?;
        let comment = "#".repeat(alloc, 262_135 + past)?;
        let certificate = format!(in alloc; "tvcert 1\n{comment}")?;
        let endings: [Ending<'_>; 6] = [
            (
                CHECK,
                long.as_str(),
                "",
                "tvdlg: FILE: too long\nstatus 1\nopened 1\n",
            ),
            (ACCEPT, CANCEL, long.as_str(), TOO_LONG),
            (
                RUN,
                CANCEL,
                script.as_str(),
                "open a\nfocus c\ntvdlg: BESIDE: too long\nstatus 1\nopened 12\n",
            ),
            (FILL, CANCEL, script.as_str(), TOO_LONG),
            (EXPLAIN_BOTH, CANCEL, long.as_str(), TOO_LONG),
            (EXPLAIN_BOTH, CANCEL, certificate.as_str(), TOO_LONG),
        ];
        expect_bound(alloc, are_too_long, &endings)?;
    }
    Ok(())
}
