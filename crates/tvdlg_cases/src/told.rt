//! What the program tells of two files.

use crate::desk::{Desk, Texts};
use std::alloc::{AllocError, Global};
use tv_files::World;
use tv_io::Gathering;
use tv_main::{NoTask, run_main};
use tv_memory::{ClosedAlbum, ClosedInput, NamedText, Shelf};

type InMemory<'a> = World<Shelf<'a>, ClosedAlbum, ClosedInput, Gathering, Gathering>;

/// What the program wrote, its messages behind its output, and its status.
#[derive(Drop)]
pub struct Told {
    pub text: String,
    pub status: u8,
}

/// Performs the words behind the program's name on these texts.
pub fn tell(
    alloc: Global,
    words: &str,
    desk: &Desk<'_>,
    texts: &Texts,
) -> Result<Told, AllocError> {
    let mut world = world(alloc, desk, texts);
    let status = run_main(alloc, split(alloc, words), &mut world);
    let text = written(alloc, &world.out, &world.err)?;
    Ok(Told { text, status })
}

fn world<'a>(alloc: Global, desk: &Desk<'a>, texts: &'a Texts) -> InMemory<'a> {
    let file = NamedText {
        name: desk.file.name.as_bytes(),
        text: texts.file.as_bytes(),
    };
    let beside = NamedText {
        name: desk.beside.name.as_bytes(),
        text: texts.beside.as_bytes(),
    };
    World {
        files: Shelf::new(file, beside),
        album: ClosedAlbum::new(),
        pieces: ClosedInput::new(),
        out: Gathering::new(alloc),
        err: Gathering::new(alloc),
    }
}

fn written(alloc: Global, out: &Gathering, err: &Gathering) -> Result<String, AllocError> {
    let mut text = String::from_str(alloc, as_text(out))?;
    text.push_str(as_text(err))?;
    Ok(text)
}

fn as_text(stream: &Gathering) -> &str {
    str::from_utf8(stream.bytes()).unwrap_or("no text\n")
}

fn split(alloc: Global, line: &str) -> Result<Vec<String>, NoTask> {
    Ok(words(alloc, line)?)
}

// The program's name and the words of a line. A word in quotes may have blanks, and `\n` is a line end there.
fn words(alloc: Global, line: &str) -> Result<Vec<String>, AllocError> {
    let mut words = Vec::new(alloc);
    words.push(String::from_str(alloc, "tvdlg")?)?;
    let mut is_quoted = false;
    for part in line.split('"') {
        if is_quoted {
            words.push(part.replace(alloc, "\\n", "\n")?)?;
        } else {
            push_words(alloc, &mut words, part)?;
        }
        is_quoted = !is_quoted;
    }
    Ok(words)
}

fn push_words(alloc: Global, words: &mut Vec<String>, part: &str) -> Result<(), AllocError> {
    for word in part.split_whitespace() {
        words.push(String::from_str(alloc, word)?)?;
    }
    Ok(())
}
