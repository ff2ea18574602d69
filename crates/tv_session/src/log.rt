//! The lines of an event.

ghost use Rattle.std.specs.Prelude.{◌≡◌, ◌≤◌, ◌++◌, ◌∷◌, [], length};

use tv_dialog::LogLines;
use tv_model::LogLine;

/// The lines of the last event that aren't yet taken. One event gives at most those of a dialog, and the one of its
/// opening.
pub(crate) type Log = LogLines<67>;

/// Adds a line.
pub(crate) fn note(log: &mut Log, line: LogLine)
    ensures { length log.old.items ≤ 66 → log.new.items ≡ log.old.items ++ line ∷ [] }
{
    if !log.is_full() {
        log.push(line);
    }
}
