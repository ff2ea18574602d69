//! Pictures at the shots of a script, drawn by the program over files in memory.

use crate::endings::{PICTURE_ALL, expect_told};
use crate::gallery::Gallery;
use crate::shelf::Shelf;
use crate::sink::Sink;
use crate::user::User;
use std::alloc::Global;
use std::test::Fail;
use tv_files::{DirectStream, Stream, World, run_program};
use tv_test_support::button_views::buttons;
use tv_test_support::descriptions::CANCEL;

// The dialog of one button, its button focused. The characters and attributes are those that `run` shows.
const FOCUSED: &str =
    r##"<svg xmlns="http://www.w3.org/2000/svg" viewBox="-10 -10 220 220" width="220" height="220"
  font-family="'DejaVu Sans Mono', Menlo, Consolas, 'Liberation Mono', monospace" font-size="16"
  xml:space="preserve" shape-rendering="crispEdges">
<rect x="-10" y="-10" width="220" height="220" rx="6" fill="#111111"/>
<rect x="0" y="0" width="200" height="20" fill="#aaaaaa"/>
<rect x="0" y="20" width="200" height="20" fill="#aaaaaa"/>
<text x="0" y="35" textLength="200" fill="#0000aa" lengthAdjust="spacingAndGlyphs">....................</text>
<rect x="0" y="40" width="20" height="20" fill="#aaaaaa"/>
<text x="0" y="55" textLength="20" fill="#0000aa" lengthAdjust="spacingAndGlyphs">..</text>
<rect x="20" y="40" width="140" height="20" fill="#aaaaaa"/>
<text x="20" y="55" textLength="140" fill="#ffffff" lengthAdjust="spacingAndGlyphs">+=[x] Q =====+</text>
<rect x="160" y="40" width="40" height="20" fill="#aaaaaa"/>
<text x="160" y="55" textLength="40" fill="#0000aa" lengthAdjust="spacingAndGlyphs">....</text>
<rect x="0" y="60" width="20" height="20" fill="#aaaaaa"/>
<text x="0" y="75" textLength="20" fill="#0000aa" lengthAdjust="spacingAndGlyphs">..</text>
<rect x="20" y="60" width="10" height="20" fill="#aaaaaa"/>
<text x="20" y="75" textLength="10" fill="#ffffff" lengthAdjust="spacingAndGlyphs">|</text>
<rect x="30" y="60" width="10" height="20" fill="#aaaaaa"/>
<rect x="40" y="60" width="20" height="20" fill="#00aa00"/>
<text x="40" y="75" textLength="20" fill="#ffffff" lengthAdjust="spacingAndGlyphs">&lt; </text>
<rect x="60" y="60" width="10" height="20" fill="#00aa00"/>
<text x="60" y="75" textLength="10" fill="#ffff55" lengthAdjust="spacingAndGlyphs">C</text>
<rect x="70" y="60" width="70" height="20" fill="#00aa00"/>
<text x="70" y="75" textLength="70" fill="#ffffff" lengthAdjust="spacingAndGlyphs">ancel &gt;</text>
<rect x="140" y="60" width="10" height="20" fill="#aaaaaa"/>
<rect x="150" y="60" width="10" height="20" fill="#aaaaaa"/>
<text x="150" y="75" textLength="10" fill="#ffffff" lengthAdjust="spacingAndGlyphs">|</text>
<rect x="160" y="60" width="20" height="20" fill="#000000"/>
<text x="160" y="75" textLength="20" fill="#555555" lengthAdjust="spacingAndGlyphs">..</text>
<rect x="180" y="60" width="20" height="20" fill="#aaaaaa"/>
<text x="180" y="75" textLength="20" fill="#0000aa" lengthAdjust="spacingAndGlyphs">..</text>
<rect x="0" y="80" width="20" height="20" fill="#aaaaaa"/>
<text x="0" y="95" textLength="20" fill="#0000aa" lengthAdjust="spacingAndGlyphs">..</text>
<rect x="20" y="80" width="10" height="20" fill="#aaaaaa"/>
<text x="20" y="95" textLength="10" fill="#ffffff" lengthAdjust="spacingAndGlyphs">|</text>
<rect x="30" y="80" width="120" height="20" fill="#aaaaaa"/>
<rect x="150" y="80" width="10" height="20" fill="#aaaaaa"/>
<text x="150" y="95" textLength="10" fill="#ffffff" lengthAdjust="spacingAndGlyphs">|</text>
<rect x="160" y="80" width="20" height="20" fill="#000000"/>
<text x="160" y="95" textLength="20" fill="#555555" lengthAdjust="spacingAndGlyphs">..</text>
<rect x="180" y="80" width="20" height="20" fill="#aaaaaa"/>
<text x="180" y="95" textLength="20" fill="#0000aa" lengthAdjust="spacingAndGlyphs">..</text>
<rect x="0" y="100" width="20" height="20" fill="#aaaaaa"/>
<text x="0" y="115" textLength="20" fill="#0000aa" lengthAdjust="spacingAndGlyphs">..</text>
<rect x="20" y="100" width="140" height="20" fill="#aaaaaa"/>
<text x="20" y="115" textLength="140" fill="#ffffff" lengthAdjust="spacingAndGlyphs">+============+</text>
<rect x="160" y="100" width="20" height="20" fill="#000000"/>
<text x="160" y="115" textLength="20" fill="#555555" lengthAdjust="spacingAndGlyphs">..</text>
<rect x="180" y="100" width="20" height="20" fill="#aaaaaa"/>
<text x="180" y="115" textLength="20" fill="#0000aa" lengthAdjust="spacingAndGlyphs">..</text>
<rect x="0" y="120" width="40" height="20" fill="#aaaaaa"/>
<text x="0" y="135" textLength="40" fill="#0000aa" lengthAdjust="spacingAndGlyphs">....</text>
<rect x="40" y="120" width="140" height="20" fill="#000000"/>
<text x="40" y="135" textLength="140" fill="#555555" lengthAdjust="spacingAndGlyphs">..............</text>
<rect x="180" y="120" width="20" height="20" fill="#aaaaaa"/>
<text x="180" y="135" textLength="20" fill="#0000aa" lengthAdjust="spacingAndGlyphs">..</text>
<rect x="0" y="140" width="200" height="20" fill="#aaaaaa"/>
<text x="0" y="155" textLength="200" fill="#0000aa" lengthAdjust="spacingAndGlyphs">....................</text>
<rect x="0" y="160" width="200" height="20" fill="#aaaaaa"/>
<text x="0" y="175" textLength="200" fill="#0000aa" lengthAdjust="spacingAndGlyphs">....................</text>
<rect x="0" y="180" width="200" height="20" fill="#aaaaaa"/>
</svg>
"##;

// The desktop alone, once the dialog is ended.
const EMPTY: &str =
    r##"<svg xmlns="http://www.w3.org/2000/svg" viewBox="-10 -10 220 220" width="220" height="220"
  font-family="'DejaVu Sans Mono', Menlo, Consolas, 'Liberation Mono', monospace" font-size="16"
  xml:space="preserve" shape-rendering="crispEdges">
<rect x="-10" y="-10" width="220" height="220" rx="6" fill="#111111"/>
<rect x="0" y="0" width="200" height="20" fill="#aaaaaa"/>
<rect x="0" y="20" width="200" height="20" fill="#aaaaaa"/>
<text x="0" y="35" textLength="200" fill="#0000aa" lengthAdjust="spacingAndGlyphs">....................</text>
<rect x="0" y="40" width="200" height="20" fill="#aaaaaa"/>
<text x="0" y="55" textLength="200" fill="#0000aa" lengthAdjust="spacingAndGlyphs">....................</text>
<rect x="0" y="60" width="200" height="20" fill="#aaaaaa"/>
<text x="0" y="75" textLength="200" fill="#0000aa" lengthAdjust="spacingAndGlyphs">....................</text>
<rect x="0" y="80" width="200" height="20" fill="#aaaaaa"/>
<text x="0" y="95" textLength="200" fill="#0000aa" lengthAdjust="spacingAndGlyphs">....................</text>
<rect x="0" y="100" width="200" height="20" fill="#aaaaaa"/>
<text x="0" y="115" textLength="200" fill="#0000aa" lengthAdjust="spacingAndGlyphs">....................</text>
<rect x="0" y="120" width="200" height="20" fill="#aaaaaa"/>
<text x="0" y="135" textLength="200" fill="#0000aa" lengthAdjust="spacingAndGlyphs">....................</text>
<rect x="0" y="140" width="200" height="20" fill="#aaaaaa"/>
<text x="0" y="155" textLength="200" fill="#0000aa" lengthAdjust="spacingAndGlyphs">....................</text>
<rect x="0" y="160" width="200" height="20" fill="#aaaaaa"/>
<text x="0" y="175" textLength="200" fill="#0000aa" lengthAdjust="spacingAndGlyphs">....................</text>
<rect x="0" y="180" width="200" height="20" fill="#aaaaaa"/>
</svg>
"##;

// What drawing each shot of a script comes to, with files in memory and room for so many pictures: what hangs there, then what
// stands on standard output and on standard error, then the status and what was opened.
fn drawn(alloc: Global, script: &str, room: usize) -> Result<String, Fail> {
    let files = Shelf::new(CANCEL, script);
    let mut out = Sink::new(alloc, 10_000, true);
    let mut err = Sink::new(alloc, 10_000, true);
    let (shown, ended) = drawn_on(alloc, files, room, &mut out, &mut err)?;
    let text = str::from_utf8(out.taken())?;
    let message = str::from_utf8(err.taken())?;
    Ok(format!(in alloc; "{shown}{text}{message}{ended}")?)
}

// What hangs there with these for both streams, and then the status and what was opened.
fn drawn_on(
    alloc: Global,
    files: Shelf<'_>,
    room: usize,
    out: &mut Sink,
    err: &mut Sink,
) -> Result<(String, String), Fail> {
    let mut world = World {
        files,
        album: Gallery::new(alloc, room),
        pieces: User::silent(),
        out: DirectStream::new(out),
        err: DirectStream::new(err),
    };
    drawn_in(alloc, &mut world)
}

// The same in a world.
fn drawn_in<O: Stream, E: Stream>(
    alloc: Global,
    world: &mut World<Shelf<'_>, Gallery, User<'_>, O, E>,
) -> Result<(String, String), Fail> {
    let status = run_program(alloc, Ok(PICTURE_ALL), &buttons, world);
    let opened = world.files.opened();
    let ended = format!(in alloc; "status {status}\nopened {opened}\n")?;
    Ok((world.album.shown()?, ended))
}

#[test]
fn each_shot_is_drawn(rt: HostRuntime) -> Result<(), Fail> {
    let alloc = rt.alloc();
    let found = drawn(alloc, "shot\ncolors\nkey Esc\nshot\n", 9)?;
    let wanted = format!(in alloc;
        "BESIDE-1.svg\n{FOCUSED}BESIDE-2.svg\n{EMPTY}status 0\nopened 12\n"
    )?;
    expect_told(&found, &wanted)?;
    let found = drawn(alloc, "shot\nshot\nshot\n", 1)?;
    let wanted = format!(in alloc;
        "BESIDE-1.svg\n{FOCUSED}tvdlg: cannot write BESIDE-2.svg\nstatus 3\nopened 12\n"
    )?;
    expect_told(&found, &wanted)
}
