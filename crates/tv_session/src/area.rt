//! Where groups stand.

ghost use Rattle.std.specs.Prelude.{◌≡◌, false, IfOk, IfErr, IsTrue, OnOk};
ghost use Rattle.tv_session.specs.Groups.{area_of, is_group};
ghost use Rattle.tv_session.specs.declared.build_fault.BuildFault.TheVariants.{WrongPlan};
ghost use Rattle.tv_model.specs.Description.Rectangles.{IsSmallRect, rect};
ghost use Rattle.tv_model.specs.Description.LawfulNodes.{IsLawfulNode};

use crate::build_fault::BuildFault;
use tv_cells::Rect;
use tv_faces::rect_at;
use tv_model::{Kind, Node};

/// The rectangle of a group.
#[derive(Clone, Copy)]
pub(crate) struct Area {
    pub(crate) rect: Rect,
    ghost small: { IsSmallRect rect },
}

fn area_at(x: &i32, y: &i32, w: &i32, h: &i32) -> Area
    requires { IsSmallRect (rect x.now y.now w.now h.now) }
    ensures { result.rect ≡ rect x.now y.now w.now h.now }
{
    Area {
        rect: rect_at(x, y, w, h),
    }
}

// A pane stands in its place; the body of a window or dialog begins at its corner.
#[tactic(auto, using(crate::proofs::AreaLemmas::dialog_small, crate::proofs::AreaLemmas::pane_small, crate::proofs::AreaLemmas::window_small))]
pub(crate) fn area_of(node: &Node) -> Result<Area, BuildFault>
    requires { IsLawfulNode node.now }
    ensures is { IfOk result (λ area. area.rect ≡ area_of node.now node.now.kind) }
    ensures group { OnOk result (IsTrue (is_group node.now.kind)) }
    ensures refused { IfErr result (λ fault. (fault ≡ WrongPlan) × (is_group node.now.kind ≡ false)) }
{
    match &node.kind {
        Kind::Pane(pane) => Ok(area_at(&node.x, &node.y, &node.w, &pane.h)),
        Kind::Window(head) => Ok(area_at(&0, &0, &node.w, &head.h)),
        Kind::Dialog(head) => Ok(area_at(&0, &0, &node.w, &head.h)),
        _ => Err(BuildFault::WrongPlan),
    }
}
