//! The program as a library for C: what it does over files, done over memory.
#![tactic(auto)]

mod doors;

ghost use Rattle.tv_memory.specs.Shelves.{files_of};
ghost use Rattle.tvd.specs.Telling.{Tells};

use std::alloc::Global;
use tv_files::World;
use tv_io::{Gathering, show};
use tv_main::run_main;
use tv_memory::{ClosedAlbum, ClosedInput, NamedText, Shelf, words_in};

/// The status where a file, a stream or memory failed.
const FAILED: u8 = 3;

/// Carries out what the words ask for, each of which ends with a NUL, over two files in memory. Standard output and messages are
/// shown in the rooms where they fit, and their lengths told in any case. Returns the program's status,
/// or that of a failure where messages were lost for want of memory.
#[unsafe(no_mangle)]
pub extern "C" fn tvd_tell(
    alloc: Global,
    words: &[u8],
    name: &[u8],
    text: &[u8],
    name2: &[u8],
    text2: &[u8],
    out: &mut [u8],
    out_used: &mut usize,
    err: &mut [u8],
    err_used: &mut usize,
) -> u8
    ensures { let files = files_of name.now text.now name2.now text2.now in
        Tells words.now files result out.old out.new out_used.new err.old err.new err_used.new }
{
    let file = NamedText { name, text };
    let beside = NamedText {
        name: name2,
        text: text2,
    };
    let mut world = World {
        files: Shelf::new(file, beside),
        album: ClosedAlbum::new(),
        pieces: ClosedInput::new(),
        out: Gathering::new(alloc),
        err: Gathering::new(alloc),
    };
    let status = run_main(alloc, words_in(alloc, words), &mut world);
    *out_used = show(world.out.bytes(), out);
    *err_used = show(world.err.bytes(), err);
    if world.err.has_failed() {
        FAILED
    } else {
        status
    }
}
