//! Windows.

ghost use Rattle.std.specs.Prelude.{◌≡◌, ◌↔◌, IfOk, IfErr, IfSome, IsErr, IsTrue, Some, None};
ghost use Rattle.tv_cells.specs.Rectangle.{IsRectNear};
ghost use Rattle.tv_model.specs.Description.Rectangles.{IsSmall, IsSmallRect, corner_of};
ghost use Rattle.tv_cells.specs.Damage.{AddsAll, Grows, HasAll};
ghost use Rattle.tv_cells.specs.Layers.{Lays};
ghost use Rattle.tv_faces.specs.Corners.{IsCorner};
ghost use Rattle.tv_window.specs.Damage.{dragged_rects};
ghost use Rattle.tv_window.specs.Head.{IsLimitedWindowHead, declared_window_head};
ghost use Rattle.tv_window.specs.Window.{IsFreshWindow, body_of, head_of, drawn_window, laid_to, moved_to, window_bounds};

use crate::head::Head;
use tv_cells::{Canvas, Damage, Inlaid, Point, Rect, Screen, lay};
use tv_faces::Corner;
use tv_group::GroupOf;
use tv_model::{Id, Node};
use tv_view::{Env, View};

/// A frame with a number and a title, and the group of views that it surrounds.
///
/// It is generic in its views, as a group is; the toolkit's own has boxed ones.
#[derive(Drop)]
pub struct WindowOf<V> {
    pub(crate) head: Head,
    /// Where it stands, which changes when it is dragged.
    pub(crate) corner: Corner,
    pub(crate) body: GroupOf<V>,
    /// What the program has laid in its interior.
    pub(crate) sheet: Option<Screen>,
}

/// A window whose views are boxed.
pub type Window = WindowOf<Box<dyn View>>;

/// The node isn't a window's.
#[derive(Clone, Copy, Debug, PartialEq, Eq)]
pub struct WrongKind;

// Where a node stands.
fn corner(node: &Node) -> Point
    ensures { result ≡ corner_of node.now }
{
    Point {
        x: node.x,
        y: node.y,
    }
}

impl<V> WindowOf<V> {
    /// Makes the window of a node round a body, whose bounds should be 0 0 and the node's width and height. It stands
    /// where it is declared. The title has at most 120 characters, the number one digit, the size is at most 132 by 60,
    /// and the corner lies within -132 to 132, as those of sound descriptions do.
    ///
    /// # Errors
    ///
    /// `WrongKind`, with the body, for another node.
    pub fn new(node: &Node, body: GroupOf<V>) -> Result<WindowOf<V>, (WrongKind, GroupOf<V>)>
        requires limited { IfSome (declared_window_head node.now) IsLimitedWindowHead }
        requires corner { IsCorner (corner_of node.now) }
        ensures made { IfOk result (λ window. (Some (head_of window) ≡ declared_window_head node.now) × (body_of window ≡ body)) }
        ensures corner { IfOk result (λ window. window.corner ≡ corner_of node.now) }
        ensures bare { IfOk result (λ window. window.sheet ≡ None) }
        ensures wrong { IsErr result ↔ (declared_window_head node.now ≡ None) }
        ensures back { IfErr result (λ e. e.1 ≡ body) }
    {
        match Head::of(node) {
            Some(head) => Ok(WindowOf {
                head,
                corner: Corner::new(corner(node)),
                body,
                sheet: None,
            }),
            None => Err((WrongKind, body)),
        }
    }

    /// Returns the line of its declaration.
    pub fn id(&self) -> Id
        ensures { result ≡ (head_of self.now).id }
    {
        self.head.id()
    }

    /// Returns its number, which its frame shows where it isn't 0.
    pub fn number(&self) -> i32
        ensures { result ≡ (head_of self.now).number }
    {
        self.head.number()
    }

    /// Returns its rectangle on the screen.
    pub fn bounds(&self) -> Rect
        ensures is { result ≡ window_bounds self.now }
        ensures small { IsSmallRect result }
        ensures near { IsRectNear result }
    {
        self.head.rect(&self.corner)
    }

    /// Moves its corner to a point within -132 to 132, and adds where it stood and where it stands to the damage, both
    /// with the shadow. Adds nothing where it stands there already.
    pub fn move_to(&mut self, corner: Point, damage: &mut Damage)
        requires { IsCorner corner }
        ensures moved { self.new ≡ moved_to corner self.old }
        ensures damage { AddsAll (dragged_rects self.old corner) damage.old damage.new }
        ensures unmoved { self.old.corner ≡ corner → damage.new ≡ damage.old }
    {
        if self.corner.point() == corner {
            return;
        }
        damage.add_with_shadow(self.bounds());
        self.corner = Corner::new(corner);
        damage.add_with_shadow(self.bounds());
    }

    /// Lays a sheet in its interior, in the place of the one that lay there, or takes that away. Adds the window to the
    /// damage.
    pub fn lay_sheet(&mut self, sheet: Option<Screen>, damage: &mut Damage)
        ensures laid { self.new ≡ laid_to sheet self.old }
        ensures all { HasAll (window_bounds self.old) damage.new }
        ensures grown { Grows (window_bounds self.old) damage.old damage.new }
    {
        damage.add(self.bounds());
        self.sheet = sheet;
    }
}

impl<V: View> WindowOf<V> {
    /// Whether it stands as the window's node and those of its views, panes opened out, declare it before any event.
    /// Its name isn't compared, since a window keeps none.
    pub fn is_fresh(&self, node: &Node, views: &[Node]) -> bool
        ensures { IsTrue result ↔ IsFreshWindow V.meaning node.now views.now self.now }
    {
        self.head.is_of(node)
            && self.corner.point() == corner(node)
            && self.sheet.is_none()
            && self.body.is_fresh(node, views)
    }

    /// Draws the frame, the space in it, and the views on top, all seen from the canvas's origin. `env` is what the
    /// window's views are lent. Doesn't draw the shadow, which is for `draw_stack` to do.
    pub fn draw(&self, screen: &mut Screen, canvas: Canvas, env: &Env)
        requires { IsSmall canvas.origin.x × IsSmall canvas.origin.y }
        ensures { Lays (drawn_window V.meaning env.now canvas self.now) screen.old screen.new }
    {
        let inner = canvas.sub(self.bounds());
        let frame = self.head.frame(env);
        let face = Inlaid {
            face: &frame,
            width: frame.width,
            height: frame.height,
            sheet: self.sheet.as_ref(),
        };
        lay(screen, inner, frame.width, frame.height, &face);
        self.body.draw(screen, inner, env);
    }
}
