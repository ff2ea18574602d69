//! Files of the system: pictures that are put there, and what is read back.

use std::alloc::Global;
use std::test::Fail;
use tv_cells::Screen;
use tv_files::{Album, AlbumFault, FileStore, ReadFault, RuntimeAlbum, RuntimeFiles};
use tv_io::read_text;
use tv_terminal::write_svg;
use tv_test_support::Memory;

// More than these pictures have.
const ROOM: usize = 65_536;

// The picture of an empty screen that is so wide.
fn drawn(alloc: Global, width: u32) -> Result<Memory, Fail> {
    let screen = Screen::new(alloc, width, 60)?;
    let mut out = Memory::new(alloc, ROOM, ROOM)?;
    write_svg(&screen, &mut out)?;
    Ok(out)
}

// Fails where the file of a name has another text than the picture that was put there.
fn expect_put(rt: &HostRuntime, name: &str, width: u32) -> Result<(), Fail> {
    let mut file = RuntimeFiles::new(rt).open(name)?;
    let text = read_text(rt.alloc(), &mut file, ROOM)?;
    let wanted = drawn(rt.alloc(), width)?;
    if text.as_slice() == wanted.taken() {
        return Ok(());
    }
    Err(Fail::new(format_args!("{name:?} has another picture")))
}

fn put(rt: &HostRuntime, name: &str, width: u32) -> Result<Result<(), AlbumFault>, Fail> {
    let screen = Screen::new(rt.alloc(), width, 60)?;
    Ok(RuntimeAlbum::new(rt, rt.alloc()).add(name, &screen))
}

// Each picture is in the file of its very name.
#[test]
fn pictures_in_files(rt: HostRuntime) -> Result<(), Fail> {
    const NAMES: [(&str, u32); 6] = [
        ("a", 20),
        (" a", 21),
        ("a ", 22),
        (" ", 23),
        ("a b-1.svg", 132),
        ("ä", 25),
    ];
    for &(name, width) in &NAMES {
        assert_eq!(rt; put(&rt, name, width)?, Ok(()), "{name:?}");
    }
    for &(name, width) in &NAMES {
        expect_put(&rt, name, width)?;
    }
    Ok(())
}

// What isn't there isn't told as no memory.
#[test]
fn missing_files(rt: HostRuntime) -> Result<(), Fail> {
    for name in ["none/a", ".", ""] {
        assert_eq!(rt; put(&rt, name, 20)?, Err(AlbumFault::Write), "{name:?}");
    }
    for name in ["none", "none/a", ""] {
        let opened = RuntimeFiles::new(&rt).open(name);
        assert_eq!(rt; opened.err(), Some(ReadFault::Read), "{name:?}");
    }
    Ok(())
}
