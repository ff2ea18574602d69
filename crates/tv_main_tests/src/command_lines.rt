//! What command lines mean.

use std::alloc::{AllocError, Global};
use std::test::Fail;
use tv_main::{NoTask, Task, read_task};
use tv_test_support::{Question, expect_answer, expect_answers};

fn words(alloc: Global, line: &str) -> Result<Vec<String>, AllocError> {
    let mut words = Vec::new(alloc);
    for word in line.split(' ') {
        words.push(String::from_str(alloc, word)?)?;
    }
    Ok(words)
}

/// What a command line asks for, or the text that is told instead.
#[derive(Clone, Copy)]
struct Meaning;

impl Question for Meaning {
    fn answer(&self, alloc: Global, text: &[u8]) -> Result<String, Fail> {
        let line = str::from_utf8(text)?.trim_end();
        let words = words(alloc, line)?;
        task_or_kind(alloc, words.as_slice())
    }
}

fn task_or_kind(alloc: Global, words: &[String]) -> Result<String, Fail> {
    match read_task(alloc, words) {
        Ok(task) => Ok(task_told(alloc, task)?),
        Err(NoTask::Usage(text)) => Ok(text),
        Err(NoTask::NoMemory) => Err("no memory".into()),
    }
}

fn task_told(alloc: Global, task: Task<'_>) -> Result<String, AllocError> {
    match task {
        Task::Check { file } => format!(in alloc; "checks {file}\n"),
        Task::Accept { file, certificate } => format!(in alloc;
            "accepts {file} with {certificate}\n"
        ),
        Task::Run { file, script } => format!(in alloc; "runs {script} on {file}\n"),
        Task::Play { file, colours } => format!(in alloc; "plays {file}: {colours:?}\n"),
        Task::Record {
            file,
            script,
            colours,
        } => format!(in alloc; "plays {file}: {colours:?}, recorded in {script}\n"),
        Task::Picture { file, script } => format!(in alloc; "draws {file} after {script}\n"),
        Task::PictureAll { file, script } => format!(in alloc; "draws {file} all along {script}\n"),
        Task::Fill { file, answers } => format!(in alloc; "fills {file} with {answers}\n"),
        Task::Answer { file, answers } => format!(in alloc; "ends {file} by {answers}\n"),
        Task::Box { words } => boxes(alloc, words),
        Task::Explain { file, manner } => format!(in alloc; "explains {file}: {manner:?}\n"),
        Task::ExplainBoth {
            file,
            beside,
            manner,
        } => format!(in alloc; "explains {file} and {beside}: {manner:?}\n"),
        Task::Ways { file } => format!(in alloc; "tells the ways of {file}\n"),
        Task::Way { file, wanted } => format!(in alloc;
            "tells the way to {:?} of {} in {file}\n",
            wanted.end, wanted.dialog
        ),
        Task::Warn {
            file,
            manner,
            denies,
        } => format!(in alloc; "warns of {file}: {manner:?}, {denies}\n"),
        Task::Version => format!(in alloc; "tells its version\n"),
    }
}

fn boxes(alloc: Global, words: &[String]) -> Result<String, AllocError> {
    let mut told = String::from_str(alloc, "boxes")?;
    for word in words {
        told.push(' ')?;
        told.push_str(word.as_str())?;
    }
    told.push('\n')?;
    Ok(told)
}

const LINES: &str = "tvdlg check a.tvd
=> checks a.tvd
tvdlg accept a.tvd a.cert
=> accepts a.tvd with a.cert
tvdlg run a.tvd a.tvs
=> runs a.tvs on a.tvd
tvdlg play a.tvd
=> plays a.tvd: Sixteen
tvdlg play --colors 256 a.tvd
=> plays a.tvd: Indexed
tvdlg play a.tvd --colors=16
=> plays a.tvd: Sixteen
tvdlg play --record a.tvs a.tvd
=> plays a.tvd: Sixteen, recorded in a.tvs
tvdlg play --colors 256 --record a.tvs a.tvd
=> plays a.tvd: Indexed, recorded in a.tvs
tvdlg picture a.tvd a.tvs
=> draws a.tvd after a.tvs
tvdlg picture a.tvd a.tvs --all
=> draws a.tvd all along a.tvs
tvdlg picture --all a.tvd a.tvs
=> draws a.tvd all along a.tvs
tvdlg fill a.tvd a.log
=> fills a.tvd with a.log
tvdlg answer a.tvd a.log
=> ends a.tvd by a.log
tvdlg box --yesno Sure? 0 0
=> boxes --yesno Sure? 0 0
tvdlg box --title -h -- --help
=> boxes --title -h -- --help
tvdlg explain a.tvd
=> explains a.tvd: Plain
tvdlg explain a.tvd --color=always
=> explains a.tvd: Coloured
tvdlg explain --color never a.tvd
=> explains a.tvd: Plain
tvdlg explain --json a.tvd --color=always
=> explains a.tvd: Json
tvdlg explain a.tvd a.tvs
=> explains a.tvd and a.tvs: Plain
tvdlg explain --color=always a.tvd a.cert
=> explains a.tvd and a.cert: Coloured
tvdlg explain a.tvd --json a.tvs
=> explains a.tvd and a.tvs: Json
tvdlg ways a.tvd
=> tells the ways of a.tvd
tvdlg ways a.tvd d ok
=> tells the way to Command(10) of d in a.tvd
tvdlg ways a.tvd d cancel
=> tells the way to Command(11) of d in a.tvd
tvdlg ways a.tvd d yes
=> tells the way to Command(12) of d in a.tvd
tvdlg ways a.tvd d no
=> tells the way to Command(13) of d in a.tvd
tvdlg warn a.tvd
=> warns of a.tvd: Plain, false
tvdlg warn --deny a.tvd
=> warns of a.tvd: Plain, true
tvdlg warn a.tvd --json --deny
=> warns of a.tvd: Json, true
tvdlg warn a.tvd --color always
=> warns of a.tvd: Coloured, false
tvdlg --version
=> tells its version
tvdlg check -- -a.tvd
=> checks -a.tvd
tvdlg run -- -a -b
=> runs -b on -a
";

#[test]
fn command_lines(rt: HostRuntime) -> Result<(), Fail> {
    expect_answers(&Meaning, rt.alloc(), "", LINES, "")
}

const USAGE: &str = "

Usage: tvdlg check <FILE>

For more information, try '--help'.
";

// Where there is memory, nothing is refused for the want of it.
#[test]
fn long_words(rt: HostRuntime) -> Result<(), Fail> {
    let alloc = rt.alloc();
    let path = "path/".repeat(alloc, 800)?;
    let line = format!(in alloc; "tvdlg accept {path}a {path}b\n")?;
    let task = format!(in alloc; "accepts {path}a with {path}b\n")?;
    expect_answer(&Meaning, alloc, &line, &task)?;
    let line = format!(in alloc; "tvdlg check a {path}\n")?;
    let usage = format!(in alloc; "error: unexpected argument '{path}' found{USAGE}")?;
    expect_answer(&Meaning, alloc, &line, &usage)
}
