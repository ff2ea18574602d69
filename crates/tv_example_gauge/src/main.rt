//! A dialog with a gauge that moves by itself.
#![tactic(auto)]

use std::alloc::Global;
use tv_app::{App, Cell, Screen, open};
use tv_files::{BufferedStream, TerminalInput, TimedReader};
use tv_live::Next::{self, Leave, Wait};
use tv_live::{News, Program, live};

const DESCRIPTION: &str = r#"tvd 1
screen 40 12
start copy
dialog copy 2 2 34 8 "Copying" ends cancel
text 2 1 30 1 "Copying files..."
pane bar 2 3 30 1
end
button stop 11 5 12 "~S~top" cancel
end
"#;

#[derive(Drop)]
struct Copying {
    alloc: Global,
    sheet: Screen,
    done: i32,
}

fn main(rt: HostRuntime) -> anyhow::Result<()> {
    let mut pieces = TerminalInput::new(TimedReader::new(rt.reader(), &rt));
    let mut screen = BufferedStream::new(rt.alloc(), rt.stderr())?;
    let mut app = open(rt.alloc(), DESCRIPTION.as_bytes())?;
    let mut copying = Copying {
        alloc: rt.alloc(),
        sheet: app.sheet(rt.alloc(), "copy")?,
        done: 0,
    };
    live(rt.alloc(), &mut app, &mut pieces, &mut screen, &mut copying)?;
    Ok(())
}

impl Program for Copying {
    fn act(&mut self, app: &mut App, news: &News) -> Next {
        self.done = self.done.saturating_add(i32::from(*news == News::Turn));
        if let Some(bar) = app.pane("copy", "bar") {
            let end = bar.a.x.saturating_add(self.done);
            for x in bar.a.x..bar.b.x {
                let cell = Cell::shown(if x < end { '#' } else { '.' }, 0x71);
                self.sheet.canvas().put(&mut self.sheet, x, bar.a.y, cell);
            }
        }
        let laid = app.lay(self.alloc, "copy", &self.sheet).is_ok();
        if laid && self.done < 30 { Wait } else { Leave }
    }
}
