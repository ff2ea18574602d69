//! Where the panes of a dialog stand.

ghost use Rattle.std.specs.Prelude.{◌≡◌, ◌*◌, All, position, reverse};
ghost use Rattle.tv_app.specs.Names.{is_called};
ghost use Rattle.tv_app.specs.Panes.{corner_within, pane_in, pane_named, pane_rect};
ghost use Rattle.tv_app.specs.Running.{Runs};
ghost use Rattle.tv_cells.specs.Rectangle.{LiesWithin};
ghost use Rattle.tv_machine.specs.Run.{Session};
ghost use Rattle.tv_model.specs.Description.LawfulNodes.{IsLawfulNode};
ghost use Rattle.tv_model.specs.Description.Panes.{around};

use crate::app::App;
use crate::names::{dialog_named, is_called};
use tv_cells::{Point, Rect};
use tv_faces::rect_at;
use tv_model::{Kind, Node};

// The corner of what comes after these views in so many panes, seen from their dialog's corner.
fn corner_within(before: &[Node], panes: u8) -> Point
    requires { All IsLawfulNode before.now }
    ensures is { result ≡ corner_within (around panes (reverse before.now)) }
    ensures within { LiesWithin (132 * panes) result.x × LiesWithin (132 * panes) result.y }
    ensures small { LiesWithin 40000 result.x × LiesWithin 40000 result.y }
{
    let Some((view, earlier)) = before.split_last() else {
        return Point { x: 0, y: 0 };
    };
    if view.depth < panes {
        corner_within(earlier, view.depth).shift(Point {
            x: view.x,
            y: view.y,
        })
    } else {
        corner_within(earlier, panes)
    }
}

// The rectangle of a pane that comes after these views, seen from its dialog's interior, or nothing of another view.
#[tactic(auto, using(tv_session::proofs::OwnerLemmas::pane_small, crate::proofs::BuildableLemmas::not_pane))]
fn pane_rect(before: &[Node], view: &Node) -> Option<Rect>
    requires before { All IsLawfulNode before.now }
    requires view { IsLawfulNode view.now }
    ensures { result ≡ pane_rect before.now view.now }
{
    match &view.kind {
        Kind::Pane(pane) => {
            let corner = corner_within(before, view.depth).shift(Point { x: -1, y: -1 });
            Some(rect_at(&view.x, &view.y, &view.w, &pane.h).shift(corner))
        }
        _ => None,
    }
}

fn place_called(views: &[Node], name: &str) -> Option<usize>
    ensures { result ≡ position (is_called name.now) views.now }
{
    views.iter().position(|view| is_called(view, name))
}

fn pane_in(views: &[Node], name: &str) -> Option<Rect>
    requires { All IsLawfulNode views.now }
    ensures { result ≡ pane_in name.now views.now }
{
    let place = place_called(views, name)?;
    let view = views.get(place)?;
    pane_rect(&views[..place], view)
}

impl App {
    /// Returns the rectangle of a pane by its name, in the first dialog of the other, as a sheet that lies in the dialog has it:
    /// in columns and rows from the corner of the interior.
    pub fn pane(&self, dialog: &str, pane: &str) -> Option<Rect>
        ensures { (s : Session) → Runs self.now s → result ≡ pane_named s.desc dialog.now pane.now }
    {
        let found = dialog_named(self.session.checked().desc(), dialog)?;
        pane_in(found.views.as_slice(), pane)
    }
}
