//! What a window keeps of its node.

ghost use Rattle.std.specs.Prelude.{◌≡◌, ◌↔◌, IfSome, IsTrue, Some};
ghost use Rattle.tv_cells.specs.Rectangle.{IsRectNear};
ghost use Rattle.tv_model.specs.Description.Rectangles.{rect, IsSmallRect};
ghost use Rattle.tv_model.specs.Screen.Faces.{frame_look};
ghost use Rattle.tv_faces.specs.Looks.{frame_look_of};
ghost use Rattle.tv_model.specs.Description.Numbers.{natural};
ghost use Rattle.tv_palette.specs.Palettes.{colour_in};
ghost use Rattle.tv_palette.specs.declared.role.Owner.TheVariants.{Window};
ghost use Rattle.tv_window.specs.Head.{IsLimitedWindowHead, declared_window_head};

use std::marker::Model;
use tv_cells::Rect;
use tv_faces::{Corner, Frame, FrameLook};
use tv_model::{Id, Kind, Node, natural};
use tv_palette::Owner;
use tv_valid::Text;
use tv_view::Env;

/// A window's node without its name and its corner.
#[derive(Drop)]
pub(crate) struct Head {
    id: Id,
    w: i32,
    h: i32,
    number: i32,
    title: Text,
}

impl Model for Head {
    ghost use Rattle.tv_window.specs.Head.{KeptWindowHead, IsLimitedWindowHead};

    ghost Value = { KeptWindowHead };

    ghost view = { λ s. record { id = s.id; w = s.w; h = s.h; number = s.number; title = s.title } };

    ghost invariant = { λ s. IsLimitedWindowHead (record { id = s.id; w = s.w; h = s.h; number = s.number; title = s.title }) };
}

/// Whether a window's frame looks the same in both environments.
pub(crate) fn looks_same(old: &Env, new: &Env) -> bool
    ensures { IsTrue result → (new.now.is_active ≡ old.now.is_active) × (new.now.chain.now ≡ old.now.chain.now) }
{
    old.is_active == new.is_active && old.chain.is(new.chain)
}

impl Head {
    /// Makes the head of a window's node, or returns `None` for another node.
    pub(crate) fn of(node: &Node) -> Option<Head>
        requires { IfSome (declared_window_head node.now) IsLimitedWindowHead }
        ensures { result ≡ declared_window_head node.now }
    {
        match &node.kind {
            Kind::Window(declared) => Some(Head {
                id: node.id,
                w: node.w,
                h: declared.h,
                number: declared.number,
                title: Text::from_chars(declared.title.as_slice())?,
            }),
            _ => None,
        }
    }

    /// Whether it is the head of this node, wherever that stands.
    pub(crate) fn is_of(&self, node: &Node) -> bool
        ensures { IsTrue result ↔ (Some self.now ≡ declared_window_head node.now) }
    {
        match &node.kind {
            Kind::Window(declared) => {
                self.id == node.id
                    && self.has_size(&node.w, &declared.h)
                    && self.number == declared.number
                    && self.title.as_slice() == declared.title.as_slice()
            }
            _ => false,
        }
    }

    fn has_size(&self, w: &i32, h: &i32) -> bool
        ensures { IsTrue result ↔ ((self.now.w ≡ w.now) × (self.now.h ≡ h.now)) }
    {
        self.w == *w && self.h == *h
    }

    pub(crate) fn id(&self) -> Id
        ensures { result ≡ self.now.id }
    {
        self.id
    }

    pub(crate) fn number(&self) -> i32
        ensures { result ≡ self.now.number }
    {
        self.number
    }

    /// Returns the window's rectangle at a corner.
    pub(crate) fn rect(&self, corner: &Corner) -> Rect
        ensures is { result ≡ rect corner.now.x corner.now.y self.now.w self.now.h }
        ensures small { IsSmallRect result }
        ensures near { IsRectNear result }
    {
        corner.rect(&self.w, &self.h)
    }

    /// Returns the face of the frame, in the colours that the window's views are lent.
    pub(crate) fn frame(&self, env: &Env) -> Frame<'_>
        ensures width { result.width ≡ natural self.now.w }
        ensures height { result.height ≡ natural self.now.h }
        ensures title { result.title.now ≡ self.now.title }
        ensures look { frame_look_of result.look
            ≡ frame_look (colour_in env.now.chain.now) Window (natural self.now.number) env.now.is_active }
    {
        Frame {
            width: natural(&self.w),
            height: natural(&self.h),
            title: self.title.as_slice(),
            look: FrameLook::new(env.chain, Owner::Window, self.number as u8, env.is_active),
        }
    }
}
