//! What the terminal shows.

ghost use Rattle.tv_app.specs.Running.{Runs};
ghost use Rattle.tv_live.specs.Shown.{BeginsSession, PaintsSession};
ghost use Rattle.tv_machine.specs.Run.{Session};
ghost use Rattle.tv_play.specs.Shown.{HasSize};

use tv_app::App;
use tv_io::{Pen, Writer};
use tv_play::find_cursor;
use tv_terminal::{Painter, Size};

/// Shows what of the application's screen doesn't show yet.
pub(crate) fn show<T: Writer>(painter: &mut Painter, pen: &mut Pen<T>, app: &App)
    requires there { (s : Session) × Runs app.now s × HasSize s painter.old }
    ensures { (s : Session) → Runs app.now s → PaintsSession T.seen s painter.old painter.new pen.old pen.new }
{
    let screen = app.screen();
    let cursor = find_cursor(screen, &[]);
    painter.paint(screen, &[screen.canvas().clip], cursor, pen);
}

/// Shows the whole screen, whatever the terminal shows, as far as there is room for it by what the terminal told.
pub(crate) fn show_all<T: Writer>(
    painter: &mut Painter,
    pen: &mut Pen<T>,
    app: &App,
    told: Option<Size>,
)
    requires there { (s : Session) × Runs app.now s × HasSize s painter.old }
    ensures { (s : Session) → Runs app.now s → BeginsSession T.seen s told painter.old painter.new pen.old pen.new }
{
    let screen = app.screen();
    let cursor = find_cursor(screen, &[]);
    let window = told.unwrap_or(Size {
        columns: screen.width(),
        rows: screen.height(),
    });
    painter.begin(screen, cursor, window, pen);
}
