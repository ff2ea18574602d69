//! What the program can be asked for.

use tv_advice::Manner;
use tv_event::Command;
use tv_terminal::Colours;

/// What the command line asks for. Paths are taken as they stand.
#[derive(Clone, Copy, Debug, PartialEq, Eq)]
pub enum Task<'a> {
    /// The faults of a description, or its certificate.
    Check {
        file: &'a str,
    },
    /// Whether a certificate is that of a description.
    Accept {
        file: &'a str,
        certificate: &'a str,
    },
    /// A script, performed on a description.
    Run {
        file: &'a str,
        script: &'a str,
    },
    /// A description, played in a terminal, and in which colours it shows the screen.
    Play {
        file: &'a str,
        colours: Colours,
    },
    /// The same, and what the user did is written as a script.
    Record {
        file: &'a str,
        script: &'a str,
        colours: Colours,
    },
    /// The screen that a script leaves of a description, as SVG.
    Picture {
        file: &'a str,
        script: &'a str,
    },
    /// The screen at each `shot` of a script, as SVG: for each a file beside the script.
    PictureAll {
        file: &'a str,
        script: &'a str,
    },
    /// A description, its fields beginning with what a log answers.
    Fill {
        file: &'a str,
        answers: &'a str,
    },
    /// The dialogs of a description, each given the end that a log answers.
    Answer {
        file: &'a str,
        answers: &'a str,
    },
    /// The description of the box that the arguments of `dialog` ask for.
    Box {
        words: &'a [String],
    },
    /// What there is to tell of the faults of a description, or of the lines that can't be read.
    Explain {
        file: &'a str,
        manner: Manner,
    },
    /// The same, and where there is nothing, what there is to tell of a script or a certificate beside it.
    ExplainBoth {
        file: &'a str,
        beside: &'a str,
        manner: Manner,
    },
    /// For each end and each control of a description a way to it, or why there is none.
    Ways {
        file: &'a str,
    },
    /// A script that leads to one end of a description.
    Way {
        file: &'a str,
        wanted: Wanted<'a>,
    },
    /// What there is to warn of in a description.
    Warn {
        file: &'a str,
        manner: Manner,
        denies: bool,
    },
    /// Which version of the program this is.
    Version,
}

/// A description and the script that is performed on it, by their paths.
#[derive(Clone, Copy, Debug, PartialEq, Eq)]
pub struct Scripted<'a> {
    pub file: &'a str,
    pub script: &'a str,
}

/// A description and the log that answers it, by their paths.
#[derive(Clone, Copy, Debug, PartialEq, Eq)]
pub struct Answered<'a> {
    pub file: &'a str,
    pub answers: &'a str,
}

/// A file that is explained, by its path, and the form in which its faults are told.
#[derive(Clone, Copy, Debug, PartialEq, Eq)]
pub struct Inquiry<'a> {
    pub file: &'a str,
    pub manner: Manner,
}

/// An end that a way is asked for.
#[derive(Clone, Copy, Debug, PartialEq, Eq)]
pub struct Wanted<'a> {
    /// The name of the dialog.
    pub dialog: &'a str,
    /// The command that ends it.
    pub end: Command,
}
