//! The lines of an event.

ghost use Rattle.std.specs.Prelude.{◌≡◌, ◌<◌, ◌++◌, ◌∷◌, [], length};

use crate::log_lines::LogLines;
use tv_model::LogLine;

/// The lines of the last event. One event gives at most a press, an end and 64 fields.
pub(crate) type Log = LogLines<66>;

/// Adds a line, for which there is room unless the dialog has more fields than descriptions may have.
pub(crate) fn note(log: &mut Log, line: LogLine)
    ensures { length log.old.items < 66 → log.new.items ≡ log.old.items ++ line ∷ [] }
{
    if !log.is_full() {
        log.push(line);
    }
}
