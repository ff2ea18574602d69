//! Dialogs.

ghost use Rattle.std.specs.Prelude.{◌≡◌, ◌⊎◌, ◌≤◌, ◌<◌, ◌+◌, ◌++◌, ◌∷◌, [], ℕ, length, slice_index_or, IfOk, IfErr, IfSome, List, None, Some, false, map, true};
ghost use Rattle.tv_cells.specs.Rectangle.{IsRectNear};
ghost use Rattle.tv_faces.specs.Corners.{IsCorner};
ghost use Rattle.tv_model.specs.Description.Rectangles.{IsSmall, IsSmallRect, corner_of};
ghost use Rattle.tv_cells.specs.Damage.{AddsAll, Grows, HasAll};
ghost use Rattle.tv_cells.specs.Layers.{Lays};
ghost use Rattle.tv_cells.specs.Repainting.{clipped, within};
ghost use Rattle.tv_cells.specs.declared.rect.Rect.{Rect as Rectangle};
ghost use Rattle.tv_group.specs.Calls.{HasRoomForAll, all_gathered, any_holds};
ghost use Rattle.tv_group.specs.Opened.{opened};
ghost use Rattle.tv_group.specs.Outline.{IsFreshBody};
ghost use Rattle.tv_machine.specs.Dialog.Lawful.{IsLawfulDialog};
ghost use Rattle.tv_machine.specs.Dialog.Opening.{unfocused};
ghost use Rattle.tv_model.specs.declared.desc.Dialog.{Dialog as Declared};
ghost use Rattle.tv_dialog.specs.Resting.{Rests};
ghost use Rattle.tv_group.specs.Shown.{IsShown, desktop_canvas, shadow_layer};
ghost use Rattle.tv_dialog.specs.Standing.{Stands};
ghost use Rattle.tv_cells.specs.Picture.{Picture};
ghost use Rattle.tv_model.specs.declared.desc.Desc.{Desc};
ghost use Rattle.tv_model.specs.declared.node.Id.{Id as Ident};
ghost use Rattle.tv_machine.specs.State.{OpenDialog};
ghost use Rattle.tv_machine.specs.Dialog.Modal.{Modal};
ghost use Rattle.tv_machine.specs.Screen.Layers.{dialog_layers as open_layers};
ghost use Rattle.tv_dialog.specs.Bounds.{dialog_bounds, moved_dialog_rects};
ghost use Rattle.tv_dialog.specs.Head.{IsLimitedDialogHead, declared_dialog_head};
ghost use Rattle.tv_dialog.specs.Plan.{plan_of};
ghost use Rattle.tv_dialog.specs.Damage.{DialogEnvDamages};
ghost use Rattle.tv_dialog.specs.Drawn.{drawn_dialog, lent};
ghost use Rattle.tv_dialog.specs.declared.fault.DialogFault.TheVariants.{WrongKind};

use crate::fault::DialogFault;
use crate::head::{Head, looks_same};
use crate::log::Log;
use crate::log_lines::LogLines;
use crate::plan::Plan;
use crate::ruled::Ruled;
use std::alloc::Global;
use tv_cells::{Canvas, Damage, Inlaid, Point, Rect, Screen, lay};
use tv_event::{Command, CommandSet, Pending};
use tv_faces::Corner;
use tv_group::GroupOf;
use tv_model::{Id, LogLine, Node, OnHeap, Record, Rule, empty_record};
use tv_view::{Env, View};

/// A frame with a title, and the group of views that it surrounds, as they work together.
///
/// It keeps ids and numbers of its description, and its title. It is generic in its views, as a group is; the toolkit's
/// own has boxed ones.
#[derive(Drop)]
pub struct DialogOf<V> {
    pub(crate) head: Head,
    pub(crate) corner: Corner,
    pub(crate) plan: Plan,
    pub(crate) body: GroupOf<V>,
    /// What the program has laid in its interior.
    pub(crate) sheet: Option<Screen>,
    pub(crate) is_open: bool,
    /// The command by which it ended, until it opens again.
    pub(crate) ended: Option<Command>,
    /// The control that has the focus, while the dialog is open. The dialog's own id stands for none.
    pub(crate) focus: Id,
    pub(crate) ruled: Ruled,
    /// The values by which the rules were last applied.
    pub(crate) marks: OnHeap<Record>,
    pub(crate) pending: Pending,
    pub(crate) log: Log,
    /// What of the body is to be painted again after the last event, seen from the dialog's corner.
    pub(crate) damage: Damage,
}

/// A dialog whose views are boxed.
pub type Dialog = DialogOf<Box<dyn View>>;

/// What a dialog keeps of its description, and its marks, queue and log, which are empty.
#[derive(Drop)]
struct Kept {
    head: Head,
    plan: Plan,
    marks: OnHeap<Record>,
    pending: Pending,
    log: Log,
}

impl Kept {
    fn of(alloc: Global, node: &Node, views: &[Node], rules: &[Rule]) -> Result<Kept, DialogFault>
        requires { IfSome (declared_dialog_head node.now) IsLimitedDialogHead }
        ensures head { IfOk result (λ kept. Some kept.head ≡ declared_dialog_head node.now) }
        ensures plan { IfOk result (λ kept. kept.plan ≡ plan_of views.now rules.now) }
        ensures empty { IfOk result (λ kept. (kept.marks ≡ []) × (kept.pending ≡ []) × (kept.log.items ≡ [])) }
        ensures wrong { declared_dialog_head node.now ≡ None → IfErr result (λ fault. fault ≡ WrongKind) }
        ensures right { IfErr result (λ fault. fault ≡ WrongKind → declared_dialog_head node.now ≡ None) }
    {
        let head = Head::of(node).ok_or(DialogFault::WrongKind)?;
        let plan = Plan::of(alloc, views, rules)?;
        let marks = empty_record(alloc)?;
        let pending = Pending::new(alloc)?;
        let log = Log::new(alloc)?;
        Ok(Kept {
            head,
            plan,
            marks,
            pending,
            log,
        })
    }
}

impl<V: View> DialogOf<V> {
    /// Makes the dialog of a node with these views, panes opened out, and rules, round a body that is as they declare
    /// it. The dialog is closed, and its corner stands where the node declares it. That is within -132 to 132, its width
    /// and height are at most 132 and 60, and its title has at most 120 characters, as in sound descriptions.
    ///
    /// # Errors
    ///
    /// `WrongKind` for a node that isn't a dialog's, else `NoMemory` where there is none. Both hand the body back as it
    /// was.
    pub fn new(
        alloc: Global,
        node: &Node,
        views: &[Node],
        rules: &[Rule],
        body: GroupOf<V>,
    ) -> Result<DialogOf<V>, (DialogFault, GroupOf<V>)>
        requires limited { IfSome (declared_dialog_head node.now) IsLimitedDialogHead }
        requires corner { IsCorner (corner_of node.now) }
        ensures head { IfOk result (λ dialog. Some dialog.head ≡ declared_dialog_head node.now) }
        ensures corner { IfOk result (λ dialog. dialog.corner ≡ corner_of node.now) }
        ensures plan { IfOk result (λ dialog. dialog.plan ≡ plan_of views.now rules.now) }
        ensures body { IfOk result (λ dialog. dialog.body ≡ body) }
        ensures bare { IfOk result (λ dialog. dialog.sheet ≡ None) }
        ensures closed { IfOk result (λ dialog. dialog.is_open ≡ false) }
        ensures unended { IfOk result (λ dialog. dialog.ended ≡ None) }
        ensures commands { IfOk result (λ dialog. (number : ℕ) → number < 256 → slice_index_or dialog.ruled.commands number false ≡ true) }
        ensures empty { IfOk result (λ dialog. (dialog.marks ≡ []) × (dialog.pending ≡ []) × (dialog.log.items ≡ [])) }
        ensures fresh { IfOk result (λ dialog. (d : Declared) → d.node ≡ node.now → d.views ≡ views.now
            → d.rules ≡ rules.now → IsLawfulDialog d
            → IsFreshBody V.meaning node.now views.now body → Rests V.meaning d (unfocused d None []) dialog) }
        ensures wrong { declared_dialog_head node.now ≡ None → IfErr result (λ e. e.0 ≡ WrongKind) }
        ensures right { IfErr result (λ e. e.0 ≡ WrongKind → declared_dialog_head node.now ≡ None) }
        ensures back { IfErr result (λ e. e.1 ≡ body) }
    {
        match Kept::of(alloc, node, views, rules) {
            Ok(kept) => Ok(DialogOf {
                focus: kept.head.id(),
                head: kept.head,
                corner: Corner::new(Point {
                    x: node.x,
                    y: node.y,
                }),
                plan: kept.plan,
                body,
                sheet: None,
                is_open: false,
                ended: None,
                ruled: Ruled::new(),
                marks: kept.marks,
                pending: kept.pending,
                log: kept.log,
                damage: Damage::new(),
            }),
            Err(fault) => Err((fault, body)),
        }
    }
}

impl<V> DialogOf<V> {
    /// Returns its rectangle, seen from the corner of what it stands in.
    pub fn bounds(&self) -> Rect
        ensures is { result ≡ dialog_bounds self.now }
        ensures small { IsSmallRect result }
        ensures near { IsRectNear result }
    {
        self.head.bounds_at(&self.corner)
    }

    /// Returns where its corner stands, seen from that of what it stands in.
    pub fn corner(&self) -> Point
        ensures is { result ≡ self.now.corner }
        ensures near { IsCorner result }
    {
        self.corner.point()
    }

    /// Stands it with its corner at the point and no sheet in it, and damages nothing: for a dialog that isn't shown.
    pub fn stand_at(&mut self, corner: Point)
        requires { IsCorner corner }
        ensures { self.new ≡ record self.old { corner = corner; sheet = None } }
    {
        self.corner = Corner::new(corner);
        self.sheet = None;
    }

    /// Moves it so that its corner stands at the point. Adds to the damage what shows otherwise then: the dialog with
    /// its shadow, where it was and where it is. Adds nothing if its corner stands there already.
    pub fn move_to(&mut self, corner: Point, damage: &mut Damage)
        requires { IsCorner corner }
        ensures moved { self.new ≡ record self.old { corner = corner } }
        ensures unmoved { self.old.corner ≡ corner → damage.new ≡ damage.old }
        ensures damaged { (self.old.corner ≡ corner) ⊎ AddsAll (moved_dialog_rects self.old self.new) damage.old damage.new }
    {
        if corner != self.corner() {
            damage.add_with_shadow(self.bounds());
            self.corner = Corner::new(corner);
            damage.add_with_shadow(self.bounds());
        }
    }

    /// Lays a sheet in its interior, in the place of the one that lay there, or takes that away. Adds the dialog to the
    /// damage.
    pub fn lay_sheet(&mut self, sheet: Option<Screen>, damage: &mut Damage)
        ensures laid { self.new ≡ record self.old { sheet = sheet } }
        ensures all { HasAll (dialog_bounds self.old) damage.new }
        ensures grown { Grows (dialog_bounds self.old) damage.old damage.new }
    {
        damage.add(self.bounds());
        self.sheet = sheet;
    }

    /// Whether it is open.
    pub fn is_open(&self) -> bool
        ensures { result ≡ self.now.is_open }
    {
        self.is_open
    }

    /// Returns the command by which it ended, until it opens again.
    pub fn ended(&self) -> Option<Command>
        ensures { result ≡ self.now.ended }
    {
        self.ended
    }

    /// Returns the control that has the focus, while the dialog is open.
    pub fn focus(&self) -> Id
        ensures { result ≡ self.now.focus }
    {
        self.focus
    }

    /// Returns the log lines of the last event.
    pub fn log(&self) -> &[LogLine]
        ensures lines { result.now ≡ self.now.log.items }
        ensures few { length result.now ≤ 66 }
    {
        self.log.as_slice()
    }

    /// Moves the lines of its last event or opening behind those of another log, which must have room for as many as a
    /// dialog logs.
    pub fn move_log<const ROOM: usize>(&mut self, log: &mut LogLines<ROOM>)
        requires { length log.old.items + 66 ≤ ROOM }
        ensures lines { log.new.items ≡ log.old.items ++ self.old.log.items }
        ensures rest { self.new ≡ record self.old { log = record { items = [] } } }
    {
        log.append(&mut self.log);
    }

    /// Returns the enabled commands, which are all of them while the dialog is closed.
    pub fn commands(&self) -> &CommandSet
        ensures { result.now ≡ self.now.ruled.commands }
    {
        &self.ruled.commands
    }

    /// Gives the body back, as it is.
    pub fn into_body(self) -> GroupOf<V>
    where
        V: Drop,
        ensures { result ≡ self.body }
    {
        let DialogOf { body, .. } = self;
        body
    }

    /// Makes the environment that it lends its views: adds who has the focus, and what Enter presses.
    pub(crate) fn lent<'a>(&self, env: &Env<'a>) -> Env<'a>
        ensures { result ≡ lent self.now.plan self.now.focus env.now }
    {
        self.plan.lent(self.focus, env)
    }
}

impl<V: View> DialogOf<V> {
    /// Whether one of its views holds the mouse.
    pub fn held(&self) -> bool
        ensures { result ≡ any_holds (opened V.meaning self.now.body) }
    {
        self.body.held()
    }

    /// Puts the values of all fields into the record.
    pub fn record(&self, values: &mut Record)
        requires { HasRoomForAll (opened V.meaning self.now.body) values.old }
        ensures { values.new ≡ all_gathered (opened V.meaning self.now.body) values.old }
    {
        self.body.get(values);
    }

    /// Draws the frame, the sheet or the space in it, and the views on top, all seen from the canvas's origin. `env` is what the
    /// dialog's owner lends it; the dialog itself adds who has the focus and what Enter presses. Doesn't draw the
    /// shadow: if that was drawn before, the screen then shows the flat machine's layers of the open dialog, cut by
    /// whatever rectangle cuts the desktop's canvas.
    pub fn draw(&self, screen: &mut Screen, canvas: Canvas, env: &Env)
        requires { IsSmall canvas.origin.x × IsSmall canvas.origin.y }
        ensures layers { Lays (drawn_dialog V.meaning env.now canvas self.now) screen.old screen.new }
        ensures machine { (desc : Desc) (r : Rectangle) (d : Declared) (o : OpenDialog) (overwriting : List Ident)
            (m : Modal) (before : Picture) → IsLawfulDialog d
            → Stands V.meaning d m.leaves m self.now → IsShown d o overwriting m env.now → self.now.corner ≡ o.origin
            → self.now.sheet ≡ o.sheet → canvas ≡ within r (desktop_canvas desc)
            → Lays (clipped r (shadow_layer desc o d) ∷ []) before screen.old
            → Lays (map (clipped r) (open_layers desc o overwriting d)) before screen.new }
    {
        let inner = canvas.sub(self.bounds());
        let frame = self.head.frame(env);
        let face = Inlaid {
            face: &frame,
            width: frame.width,
            height: frame.height,
            sheet: self.sheet.as_ref(),
        };
        lay(screen, inner, frame.width, frame.height, &face);
        self.body.draw(screen, inner, &self.lent(env));
    }

    /// Adds what it shows otherwise in another environment: all of it where the frame does, else what its views tell.
    /// Both environments are what the dialog's owner lends it.
    pub fn env_damage(&self, old: &Env, new: &Env, damage: &mut Damage)
        ensures { DialogEnvDamages V.meaning old.now new.now self.now damage.old damage.new }
    {
        if looks_same(old, new) {
            let mut inner = Damage::new();
            self.body
                .env_damage(&self.lent(old), &self.lent(new), &mut inner);
            damage.add_within(&inner, self.bounds());
        } else {
            damage.add(self.bounds());
        }
    }
}
