//! What a program draws: sheets, in windows and in the open dialog, by name.

ghost use Rattle.std.specs.Prelude.{◌≡◌, [], Err, IfErr, IfOk, IfSome, IsSomeAnd, None, Some};
ghost use Rattle.tv_app.specs.Running.{Runs};
ghost use Rattle.tv_app.specs.Sheets.{IsLaidFrom, IsOpenNamed, IsSheetFor, is_front_named, place_named};
ghost use Rattle.tv_cells.specs.Damage.{Holds};
ghost use Rattle.tv_cells.specs.Layers.{Shows};
ghost use Rattle.tv_cells.specs.Repainting.{KeepsRest};
ghost use Rattle.tv_machine.specs.Run.{Session};
ghost use Rattle.tv_machine.specs.Screen.Bodies.{whole_screen};
ghost use Rattle.tv_app.specs.declared.sheets.LayFault.TheVariants.{NoMemory, NotOpen};

use crate::app::App;
use crate::names::named_id;
use std::alloc::{AllocError, Global};
use thiserror::Error;
use tv_cells::{Rect, Screen};
use tv_model::Id;
use tv_view::without_edge;

/// Why no sheet was made or laid.
#[derive(Clone, Copy, Debug, Drop, PartialEq, Eq, Error)]
pub enum LayFault {
    #[error("out of memory")]
    NoMemory,
    #[error("no window or dialog of this name is open")]
    NotOpen,
}

impl From<AllocError> for LayFault {
    ghost from_gives = { λ _ fault. fault ≡ NoMemory };

    fn from(_error: AllocError) -> LayFault {
        LayFault::NoMemory
    }
}

impl App {
    /// Returns the interior, in screen coordinates, of the open window or dialog of the name. A part of it may lie off the
    /// screen.
    pub fn place(&self, name: &str) -> Option<Rect>
        ensures { (s : Session) → Runs self.now s → result ≡ place_named s name.now }
    {
        let id = named_id(self.desc(), name)?;
        let bounds = self.session.bounds(id)?;
        Some(without_edge(bounds))
    }

    /// Whether the window or dialog of the name is in front: the dialog is open, or none is and the window is the front one.
    pub fn is_front(&self, name: &str) -> bool
        ensures { (s : Session) → Runs self.now s → result ≡ is_front_named s name.now }
    {
        match (self.session.front(), named_id(self.desc(), name)) {
            (Some(front), Some(named)) => front == named,
            _ => false,
        }
    }

    /// Makes a blank sheet for the open window or dialog of the name: as large as its interior, but of 20 columns and 10 rows
    /// at least. What has no room in the interior won't show.
    ///
    /// # Errors
    ///
    /// `NotOpen` where nothing of the name is open; `NoMemory`.
    pub fn sheet(&self, alloc: Global, name: &str) -> Result<Screen, LayFault>
        ensures size { IfOk result (λ sheet. (s : Session) → Runs self.now s → IsSomeAnd (place_named s name.now) (λ r. IsSheetFor r sheet)) }
        ensures blank { IfOk result (λ sheet. Shows [] sheet) }
        ensures absent { result ≡ Err NotOpen → (s : Session) → Runs self.now s → place_named s name.now ≡ None }
    {
        let Some(place) = self.place(name) else {
            return Err(LayFault::NotOpen);
        };
        let width = place.width().clamp(20, 132);
        let height = place.height().clamp(10, 60);
        match Screen::new(alloc, width, height) {
            Ok(sheet) => Ok(sheet),
            Err(_) => Err(LayFault::NoMemory),
        }
    }

    // The id of the open window or dialog of the name.
    fn open_named(&self, name: &str) -> Option<Id>
        ensures some { IfSome result (λ id. (s : Session) → Runs self.now s → IsOpenNamed s name.now id) }
        ensures none { result ≡ None → (s : Session) → Runs self.now s → place_named s name.now ≡ None }
    {
        let id = named_id(self.desc(), name)?;
        match self.session.bounds(id) {
            Some(_) => Some(id),
            None => None,
        }
    }

    /// Lays a copy of a sheet in the open window or dialog of the name, in the place of the one that lay there. Its cells show
    /// in the interior, from the first column and row on, above the frame and below the views; spaces of attribute 00, which a
    /// new sheet has, show the interior itself. It goes along where the frame is dragged, and is gone when the window closes or
    /// the dialog ends. The log stays, and the screen is painted again as after an event.
    ///
    /// # Errors
    ///
    /// `NotOpen` where nothing of the name is open; `NoMemory`. Nothing has changed then.
    pub fn lay(&mut self, alloc: Global, name: &str, sheet: &Screen) -> Result<(), LayFault>
        requires { (s : Session) × Runs self.old s }
        ensures laid { IfOk result (λ _. (s : Session) → Runs self.old s → IsLaidFrom s name.now sheet.now self.new) }
        ensures absent { result ≡ Err NotOpen → (s : Session) → Runs self.old s → place_named s name.now ≡ None }
        ensures stays { IfErr result (λ _. self.new ≡ self.old) }
        ensures rest { KeepsRest self.new.session.repainted self.old.session.screen self.new.session.screen }
        ensures within { IfOk result (λ _. (s : Session) → Runs self.old s → Holds (whole_screen s.desc) self.new.session.repainted) }
    {
        let Some(id) = self.open_named(name) else {
            return Err(LayFault::NotOpen);
        };
        let copy = sheet.copy(alloc)?;
        self.session.lay(id, Some(copy));
        Ok(())
    }
}
