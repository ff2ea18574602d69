//! A program of one's own, as `live` runs it.

ghost use Rattle.tv_app.specs.Running.{Runs};
ghost use Rattle.tv_live.specs.Programs.{Goes};
ghost use Rattle.tv_live.specs.declared.program.News.{News as Told};
ghost use Rattle.tv_live.specs.declared.program.Next.{Next as Answer};
ghost use Rattle.tv_machine.specs.Run.{Session};

use tv_app::{App, Event};

/// What a program is told.
#[derive(Clone, Copy, Debug, Default, PartialEq, Eq)]
pub enum News {
    /// The run begins, and nothing is shown yet.
    #[default]
    Begin,
    /// The application has handled an event, whose lines are in its log. It is the program's where it is left: where nothing
    /// was made of it.
    Event { event: Event, is_left: bool },
    /// What the user did is done with, or for a tenth of a second nothing came. The log is empty.
    Turn,
}

/// What a program wants next.
#[derive(Clone, Copy, Debug, PartialEq, Eq)]
pub enum Next {
    /// To be told more.
    Wait,
    /// That the run ends.
    Leave,
}

/// A program of one's own. After each of its calls the terminal shows the application's screen, whatever the program has done
/// to the application.
pub trait Program {
    // What it promises of a call: by the news, from the program and the session before it to its answer, and the program and the
    // session that it leaves. It may be left out, and then nothing more is promised.
    ghost makes: { Told → Self → Session → Answer → Self → Session → Type 0 } = { λ _ _ _ _ _ _. Unit };

    /// Acts on news.
    fn act(&mut self, app: &mut App, news: &News) -> Next
        requires there { (s : Session) × Runs app.old s }
        ensures goes { (s : Session) → Runs app.old s
            → Goes (λ old new. makes news.now self.old old result self.new new) s app.new };
}
