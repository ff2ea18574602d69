//! A viewer of two texts: windows that scroll by keys, and a dialog that finds a line.
#![tactic(auto)]

ghost use Rattle.tv_app.specs.Running.{Runs, Session};

mod document;
mod viewer;

use crate::document::Document;
use crate::viewer::Viewer;
use anyhow::{Context, bail};
use std::{env, fs};
use tv_app::{App, open};
use tv_files::{BufferedStream, TerminalInput, TimedReader};
use tv_live::live;

const DESCRIPTION: &str = r#"tvd 1
screen 80 24
menu "~F~ile"
item "E~x~it    Alt-X" quit
end
menu "~S~earch"
item "~F~ind...  F7" 100
item "~A~gain    F8" 101
end
menu "~W~indow"
item "~N~ext     F6" next
item "~C~lose    F4" close
end
status "F4 Close" F4 close
status "F6 Next" F6 next
status "F7 Find" F7 100
status "F8 Again" F8 101
status "F10 Menu" F10 menu
status "Alt-X Exit" Alt-X quit
window left 1 1 52 15 1 "First"
end
window right 24 7 54 15 2 "Second"
end
dialog find 20 7 40 9 "Find" opens 100 ends ok cancel
label 2 1 10 "~T~ext" what
input what 13 1 24 40 picture "@*@" ""
label 2 3 10 "From ~l~ine" line
input line 13 3 8 5 range 1 9999 "1"
button yes 7 6 10 "~F~ind" ok default
button no 21 6 12 "~C~ancel" cancel
end
"#;

fn main(rt: HostRuntime) -> anyhow::Result<()> {
    let mut words = env::args(&rt)?.skip(1);
    let (Some(first), Some(second)) = (words.next(), words.next()) else {
        bail!("usage: tv_example_viewer FILE FILE");
    };
    let (first, second) = (read(&rt, first)?, read(&rt, second)?);
    let mut app = open(rt.alloc(), DESCRIPTION.as_bytes())?;
    view(&rt, &mut app, &first, &second)
}

// Reads a text. A fault names its file.
fn read(rt: &HostRuntime, file: String) -> anyhow::Result<String> {
    fs::read_to_string(rt, file.as_str()).context(file)
}

// Shows the two texts until the user leaves.
fn view(rt: &HostRuntime, app: &mut App, first: &str, second: &str) -> anyhow::Result<()>
    requires { (s : Session) × Runs app.old s }
{
    let left = app.sheet(rt.alloc(), "left")?;
    let right = app.sheet(rt.alloc(), "right")?;
    let mut viewer = Viewer {
        alloc: rt.alloc(),
        left: Document::new(rt.alloc(), "left", first, left)?,
        right: Document::new(rt.alloc(), "right", second, right)?,
        is_short: false,
    };
    let mut pieces = TerminalInput::new(TimedReader::new(rt.reader(), rt));
    let mut screen = BufferedStream::new(rt.alloc(), rt.stderr())?;
    live(rt.alloc(), app, &mut pieces, &mut screen, &mut viewer)?;
    if viewer.is_short {
        bail!("out of memory");
    }
    Ok(())
}
