//! How a session is made.

ghost use Rattle.std.specs.Prelude.{◌≡◌, ◌<◌, [], IfErr, IfOk, IfSome, None, length, position};
ghost use Rattle.tv_machine.specs.Run.{started};
ghost use Rattle.tv_machine.specs.Session.Start.{closed, start};
ghost use Rattle.tv_menu.specs.Bar.{IsBarOf, open_of};
ghost use Rattle.tv_menu.specs.Lawful.{AreLawfulMenus, AreLawfulStatusItems, IsLawfulScreen};
ghost use Rattle.tv_menu.specs.Line.{IsStatusLineOf};
ghost use Rattle.tv_model.specs.Description.Heads.{is_named};
ghost use Rattle.tv_model.specs.Description.Numbers.{natural};
ghost use Rattle.tv_session.specs.Freshness.{IsFirstMismatch};
ghost use Rattle.tv_session.specs.Running.{IsAwake, IsRun};
ghost use Rattle.tv_session.specs.Session.{StandsFor};
ghost use Rattle.tv_session.specs.declared.fault.SessionFault.TheVariants.{NoMemory};
ghost use Rattle.tv_session.specs.Starting.{CanStart, RefusesViews, start_place};

use crate::colours::Colours;
use crate::fault::SessionFault;
use crate::freshness::first_mismatch;
use crate::log::Log;
use crate::parts::parts_are_lawful;
use crate::run::RunOf;
use crate::session::SessionOf;
use std::alloc::{AllocError, Global};
use tv_cells::{Damage, Screen, ScreenFault};
use tv_check::Checked;
use tv_dialogs::DialogsOf;
use tv_group::GroupOf;
use tv_menu::{MenuBar, StatusLine};
use tv_model::{Desc, Dialog, natural};
use tv_view::View;
use tv_window::{DeskOf, WindowOf};

/// What a session has beside its views.
#[derive(Drop)]
struct Parts {
    bar: MenuBar,
    line: StatusLine,
    screen: Screen,
    log: Log,
    taken: Log,
}

// A screen of the description's size.
fn blank_screen(alloc: Global, desc: &Desc) -> Result<Screen, AllocError>
    requires { IsLawfulScreen desc.now.width desc.now.height }
    ensures { IfOk result (λ screen. (screen.width ≡ natural desc.now.width) × (screen.height ≡ natural desc.now.height)) }
{
    match Screen::new(alloc, natural(&desc.width), natural(&desc.height)) {
        Ok(screen) => Ok(screen),
        Err(ScreenFault::NoMemory) => Err(AllocError),
        Err(ScreenFault::BadSize) => unreachable!(),
    }
}

impl Parts {
    fn new(alloc: Global, desc: &Desc) -> Result<Parts, AllocError>
        requires screen { IsLawfulScreen desc.now.width desc.now.height }
        requires menus { AreLawfulMenus desc.now.menus }
        requires status { AreLawfulStatusItems desc.now.status }
        ensures bar { IfOk result (λ parts. IsBarOf desc.now parts.bar) }
        ensures closed { IfOk result (λ parts. open_of parts.bar ≡ None) }
        ensures line { IfOk result (λ parts. IsStatusLineOf desc.now parts.line) }
        ensures log { IfOk result (λ parts. parts.log.items ≡ []) }
        ensures screen { IfOk result (λ parts. (parts.screen.width ≡ natural desc.now.width)
            × (parts.screen.height ≡ natural desc.now.height)) }
    {
        Ok(Parts {
            bar: MenuBar::new(alloc, desc)?,
            line: StatusLine::new(alloc, desc)?,
            screen: blank_screen(alloc, desc)?,
            log: Log::new(alloc)?,
            taken: Log::new(alloc)?,
        })
    }
}

fn is_named(dialog: &Dialog, name: &[char]) -> bool
    ensures { result ≡ is_named name.now dialog.now }
{
    dialog.head().name.as_slice() == name
}

fn place_named(dialogs: &[Dialog], name: &[char]) -> Option<usize>
    ensures is { result ≡ position (is_named name.now) dialogs.now }
    ensures there { IfSome result (λ place. place < length dialogs.now) }
{
    dialogs.iter().position(|dialog| is_named(dialog, name))
}

// The place of the dialog that is open at the start.
fn start_place(desc: &Desc) -> Option<usize>
    ensures is { result ≡ start_place desc.now }
    ensures there { IfSome result (λ place. place < length desc.now.dialogs) }
{
    match &desc.start {
        Some(name) => place_named(desc.dialogs.as_slice(), name.as_slice()),
        None => None,
    }
}

impl<V: View> RunOf<V> {
    // Opens the dialog that the description names as its start, if it names one.
    fn begin(&mut self, desc: &Desc)
        requires { IsAwake V.meaning desc.now (closed desc.now) self.old }
        ensures { IsRun V.meaning desc.now (start desc.now) self.new }
    {
        if let Some(place) = start_place(desc) {
            self.open_dialog(desc, place);
        }
    }
}

/// Why a session wasn't made, with what it was to be made of, unchanged.
#[derive(Drop)]
pub struct Refused<V> {
    pub fault: SessionFault,
    pub checked: Checked,
    pub windows: Vec<WindowOf<V>>,
    pub bodies: Vec<GroupOf<V>>,
}

impl<V: View> SessionOf<V> {
    /// Starts a run: the windows stand one over the other, the later ones in front, and the start dialog is open.
    ///
    /// There is one window for each that the description declares, and one body for each dialog, both in description order.
    ///
    /// # Errors
    ///
    /// `ViewMismatch` where a window or body isn't as it is declared, is missing or is one too many; `NoMemory`. What
    /// was handed in comes back unchanged.
    pub fn new(
        alloc: Global,
        checked: Checked,
        windows: Vec<WindowOf<V>>,
        bodies: Vec<GroupOf<V>>,
    ) -> Result<SessionOf<V>, Refused<V>>
        ensures made { IfOk result (λ session. StandsFor V.meaning session (started checked)) }
        ensures none_repainted { IfOk result (λ session. session.repainted ≡ []) }
        ensures fresh { IfOk result (λ _. IsFirstMismatch V.meaning checked windows.items bodies.items None) }
        ensures mismatch { IfErr result (λ refused. RefusesViews V.meaning checked windows.items bodies.items refused.fault) }
        ensures back { IfErr result (λ refused. (refused.checked ≡ checked) × (refused.windows.items ≡ windows.items)
            × (refused.bodies.items ≡ bodies.items)) }
    {
        match first_mismatch(checked.desc(), windows.as_slice(), bodies.as_slice()) {
            Some(place) => Err(Refused {
                fault: SessionFault::ViewMismatch(place),
                checked,
                windows,
                bodies,
            }),
            None => SessionOf::make(alloc, checked, windows, bodies),
        }
    }

    // Starts over views that are as they are declared, where there is memory.
    fn make(
        alloc: Global,
        checked: Checked,
        windows: Vec<WindowOf<V>>,
        bodies: Vec<GroupOf<V>>,
    ) -> Result<SessionOf<V>, Refused<V>>
        requires { IsFirstMismatch V.meaning checked windows.items bodies.items None }
        ensures made { IfOk result (λ session. StandsFor V.meaning session (started checked)) }
        ensures none_repainted { IfOk result (λ session. session.repainted ≡ []) }
        ensures memory { IfErr result (λ refused. refused.fault ≡ NoMemory) }
        ensures back { IfErr result (λ refused. (refused.checked ≡ checked) × (refused.windows.items ≡ windows.items)
            × (refused.bodies.items ≡ bodies.items)) }
    {
        let desc = checked.desc();
        parts_are_lawful(desc);
        let Ok(parts) = Parts::new(alloc, desc) else {
            return Err(Refused {
                fault: SessionFault::NoMemory,
                checked,
                windows,
                bodies,
            });
        };
        match DialogsOf::new(alloc, desc, bodies) {
            Ok(dialogs) => Ok(SessionOf::start(checked, parts, windows, dialogs)),
            Err((_, bodies)) => Err(Refused {
                fault: SessionFault::NoMemory,
                checked,
                windows,
                bodies,
            }),
        }
    }

    // Starts over views that are as they are declared.
    fn start(
        checked: Checked,
        parts: Parts,
        windows: Vec<WindowOf<V>>,
        dialogs: DialogsOf<V>,
    ) -> SessionOf<V>
        requires { CanStart V.meaning checked parts windows.items dialogs }
        ensures stands { StandsFor V.meaning result (started checked) }
        ensures none_repainted { result.repainted ≡ [] }
    {
        let mut run = RunOf {
            desk: DeskOf::new(windows),
            dialogs,
            bar: parts.bar,
            frame: None,
            is_over: false,
            log: parts.log,
            colours: Colours::new(),
            damage: Damage::new(),
        };
        let mut screen = parts.screen;
        let desc = checked.desc();
        run.begin(desc);
        run.paint(&mut screen, desc, &parts.line);
        SessionOf {
            checked,
            line: parts.line,
            run,
            screen,
            taken: parts.taken,
            repainted: Damage::new(),
        }
    }
}
