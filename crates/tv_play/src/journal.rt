//! How the log is written.

ghost use Rattle.std.specs.Prelude.{MatchResult};
ghost use Rattle.tv_io.specs.Writer.{Cuts, Takes};
ghost use Rattle.tv_machine.specs.Run.{Session, quiet};
ghost use Rattle.tv_model.specs.Log.LogText.{log_text};

use tv_io::{Pen, WriteFailed, Writer};
use tv_script::{Stage, put_waiting_log};

/// Writes the log that isn't yet taken, and takes it.
pub(crate) fn write_log<S: Stage, W: Writer>(log: &mut W, stage: &mut S) -> Result<(), WriteFailed>
    ensures taken { (t : Session) → S.stands stage.old t → S.stands stage.new (quiet t) }
    ensures text { (t : Session) → S.stands stage.old t → MatchResult result
        (λ _. Takes (W.seen log.old) (W.seen log.new) (log_text t.desc t.state.log))
        (λ _. Cuts (W.seen log.old) (W.seen log.new) (log_text t.desc t.state.log)) }
{
    let mut pen = Pen {
        out: log,
        stopped: false,
    };
    put_waiting_log(&mut pen, stage);
    if pen.stopped {
        return Err(WriteFailed);
    }
    Ok(())
}
