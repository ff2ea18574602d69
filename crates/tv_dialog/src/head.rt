//! What a dialog keeps of its node.

ghost use Rattle.std.specs.Prelude.{◌≡◌, IfSome, IsTrue};
ghost use Rattle.tv_cells.specs.Rectangle.{IsRectNear};
ghost use Rattle.tv_model.specs.Screen.Faces.{frame_look};
ghost use Rattle.tv_model.specs.Description.Rectangles.{IsSmallRect, rect};
ghost use Rattle.tv_model.specs.Description.Commands.{is_declared};
ghost use Rattle.tv_model.specs.Description.Numbers.{natural};
ghost use Rattle.tv_faces.specs.Looks.{frame_look_of};
ghost use Rattle.tv_palette.specs.Palettes.{colour_in};
ghost use Rattle.tv_palette.specs.declared.role.Owner.TheVariants.{Dialog};
ghost use Rattle.tv_dialog.specs.Head.{IsLimitedDialogHead, declared_dialog_head};

use std::marker::Model;
use tv_cells::Rect;
use tv_event::Command;
use tv_faces::{Corner, Frame, FrameLook};
use tv_model::{Ends, Id, Kind, Node, natural};
use tv_palette::Owner;
use tv_valid::Text;
use tv_view::Env;

/// A dialog's node without its name, the command that opens it, and its corner, which may move.
#[derive(Drop)]
pub(crate) struct Head {
    id: Id,
    w: i32,
    h: i32,
    title: Text,
    ends: Ends,
}

impl Model for Head {
    ghost use Rattle.tv_dialog.specs.Head.{IsLimitedDialogHead, KeptDialogHead};

    ghost Value = { KeptDialogHead };

    ghost view = { λ s. record { id = s.id; w = s.w; h = s.h; title = s.title; ends = s.ends } };

    ghost invariant = { λ s. IsLimitedDialogHead (record { id = s.id; w = s.w; h = s.h; title = s.title; ends = s.ends }) };
}

/// Whether a dialog's frame looks the same in both environments.
pub(crate) fn looks_same(old: &Env, new: &Env) -> bool
    ensures { IsTrue result → frame_look (colour_in new.now.chain.now) Dialog 0 new.now.is_active
        ≡ frame_look (colour_in old.now.chain.now) Dialog 0 old.now.is_active }
{
    old.is_active == new.is_active && old.chain.is(new.chain)
}

impl Head {
    /// Makes the head of a dialog's node, or returns `None` for another node.
    pub(crate) fn of(node: &Node) -> Option<Head>
        requires { IfSome (declared_dialog_head node.now) IsLimitedDialogHead }
        ensures { result ≡ declared_dialog_head node.now }
    {
        match &node.kind {
            Kind::Dialog(declared) => Some(Head {
                id: node.id,
                w: node.w,
                h: declared.h,
                title: Text::from_chars(declared.title.as_slice())?,
                ends: declared.ends,
            }),
            _ => None,
        }
    }

    pub(crate) fn id(&self) -> Id
        ensures { result ≡ self.now.id }
    {
        self.id
    }

    /// Returns the dialog's rectangle, where its corner stands there.
    pub(crate) fn bounds_at(&self, corner: &Corner) -> Rect
        ensures is { result ≡ rect corner.now.x corner.now.y self.now.w self.now.h }
        ensures small { IsSmallRect result }
        ensures near { IsRectNear result }
    {
        corner.rect(&self.w, &self.h)
    }

    /// Whether the dialog declares the command as one of its ends other than `cancel`.
    pub(crate) fn declares(&self, command: Command) -> bool
        ensures { result ≡ is_declared self.now.ends command.0 }
    {
        match command {
            Command::OK => self.ends.ok,
            Command::YES => self.ends.yes,
            Command::NO => self.ends.no,
            _ => false,
        }
    }

    /// Returns the face of the frame, in the colours that the dialog's views are lent.
    pub(crate) fn frame(&self, env: &Env) -> Frame<'_>
        ensures width { result.width ≡ natural self.now.w }
        ensures height { result.height ≡ natural self.now.h }
        ensures title { result.title.now ≡ self.now.title }
        ensures look { frame_look_of result.look ≡ frame_look (colour_in env.now.chain.now) Dialog 0 env.now.is_active }
    {
        Frame {
            width: natural(&self.w),
            height: natural(&self.h),
            title: self.title.as_slice(),
            look: FrameLook::new(env.chain, Owner::Dialog, 0, env.is_active),
        }
    }
}
