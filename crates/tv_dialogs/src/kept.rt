//! A dialog, and the record that it opens with.

ghost use Rattle.std.specs.Prelude.{◌≡◌, ◌∷◌, [], false, pos, IfErr, IfOk, List, None, map};
ghost use Rattle.tv_machine.specs.Dialog.Sound.{IsSoundDialog};
ghost use Rattle.tv_machine.specs.Dialog.Modal.{Modal};
ghost use Rattle.tv_machine.specs.Dialog.Step.{dialog_step};
ghost use Rattle.tv_machine.specs.Screen.Layers.{dialog_layers};
ghost use Rattle.tv_machine.specs.Session.Step.{event_from};
ghost use Rattle.tv_machine.specs.State.{OpenDialog};
ghost use Rattle.tv_model.specs.Description.Rectangles.{IsSmall};
ghost use Rattle.tv_model.specs.declared.desc.Desc.{Desc};
ghost use Rattle.tv_model.specs.declared.node.Id.{Id};
ghost use Rattle.tv_group.specs.Calls.{HasRoomForAll, all_gathered, any_holds};
ghost use Rattle.tv_group.specs.Opened.{opened};
ghost use Rattle.tv_group.specs.Outline.{IsFreshBody};
ghost use Rattle.tv_machine.specs.Dialog.Lawful.{IsLawfulDialog};
ghost use Rattle.tv_group.specs.Shown.{IsAtWork, desktop_canvas};
ghost use Rattle.tv_cells.specs.Layers.{Lays, Shadow};
ghost use Rattle.tv_cells.specs.Rectangle.{IsRectNear};
ghost use Rattle.tv_cells.specs.Repainting.{clipped, within};
ghost use Rattle.tv_cells.specs.declared.rect.Rect.{Rect as Rectangle};
ghost use Rattle.tv_dialog.specs.Bounds.{dialog_bounds};
ghost use Rattle.tv_dialog.specs.Standing.{Stands};
ghost use Rattle.tv_dialog.specs.Stepping.{begun_anew};
ghost use Rattle.tv_dialogs.specs.Bodies.{kept_body};
ghost use Rattle.tv_dialogs.specs.Damage.{HasShadowed, Keeps, KeptDamages};
ghost use Rattle.tv_dialogs.specs.Handed.{HasPointGiven, is_dropped};
ghost use Rattle.tv_dialogs.specs.Kept.{IsKeptAs, IsReady, holds_after, may_hold, saves, values_after};

use crate::colours::Colours;
use crate::handed::event_from;
use std::alloc::Global;
use tv_cells::{Canvas, Damage, Rect, Screen, lay_shadow};
use tv_dialog::DialogOf;
use tv_event::{Command, CommandSet, Event};
use tv_group::GroupOf;
use tv_model::{Dialog as Declared, OnHeap, Record, empty_record};
use tv_palette::Owner;
use tv_view::{Env, View};

/// A dialog, and the record that it opens with.
#[derive(Drop)]
pub(crate) struct Kept<V> {
    pub(crate) dialog: DialogOf<V>,
    /// The values of its last end other than `cancel`, else those declared.
    pub(crate) values: OnHeap<Record>,
}

// Whether a dialog that ended so keeps its values.
fn saves(ended: Option<Command>) -> bool
    ensures { result ≡ saves ended }
{
    match ended {
        Some(command) => command != Command::CANCEL,
        None => false,
    }
}

// Whether a view may hold the mouse after an event: only a mouse down lets one take it.
fn may_hold(is_held: bool, event: &Event) -> bool
    ensures { result ≡ may_hold is_held event.now }
{
    match event {
        Event::Down(_) => true,
        _ => is_held,
    }
}

// Puts the values of all fields of the dialog into the record.
fn record<V: View>(dialog: &DialogOf<V>, values: &mut OnHeap<Record>)
    requires { HasRoomForAll (opened V.meaning dialog.now.body) values.old }
    ensures { values.new ≡ all_gathered (opened V.meaning dialog.now.body) values.old }
{
    dialog.record(&mut values.value);
}

// Draws the shadow of a rectangle, both seen from the corner of the screen. Most rectangles that are painted again lie in
// the dialog, where its shadow isn't seen.
fn draw_shadow(screen: &mut Screen, canvas: Canvas, rect: Rect)
    requires { IsRectNear rect }
    ensures { canvas.origin.x ≡ pos 0 → canvas.origin.y ≡ pos 0 → Lays (Shadow canvas rect ∷ []) screen.old screen.new }
{
    if !rect.has_part(canvas.clip) {
        lay_shadow(screen, canvas, rect);
    }
}

impl<V: View> Kept<V> {
    /// Makes the declared dialog round a body of its views, to open with the values that they have.
    ///
    /// # Errors
    ///
    /// The body as it was, where there is no memory.
    pub(crate) fn new(
        alloc: Global,
        declared: &Declared,
        body: GroupOf<V>,
    ) -> Result<Kept<V>, GroupOf<V>>
        requires sound { IsSoundDialog declared.now }
        requires fresh { IsFreshBody V.meaning declared.now.node declared.now.views body }
        ensures kept { IfOk result (IsKeptAs V.meaning declared.now None []) }
        ensures body { IfOk result (λ kept. kept_body kept ≡ body) }
        ensures back { IfErr result (λ back. back ≡ body) }
    {
        let views = declared.views.as_slice();
        let rules = declared.rules.as_slice();
        let Ok(mut values) = empty_record(alloc) else {
            return Err(body);
        };
        match DialogOf::new(alloc, &declared.node, views, rules, body) {
            Ok(dialog) => {
                record(&dialog, &mut values);
                Ok(Kept { dialog, values })
            }
            Err((_, body)) => Err(body),
        }
    }

    // Keeps the values of the dialog. It isn't inlined, so that the record's room on the stack isn't its callers' too, and an
    // event that ends no dialog doesn't take it.
    #[inline(never)]
    fn keep_values(&mut self)
        requires { HasRoomForAll (opened V.meaning self.old.dialog.body) [] }
        ensures dialog { self.new.dialog ≡ self.old.dialog }
        ensures values { self.new.values ≡ all_gathered (opened V.meaning self.old.dialog.body) [] }
    {
        let mut values = Record::new();
        self.dialog.record(&mut values);
        self.values.set(values);
    }

    // Keeps the values of the dialog where it has ended, and not by `cancel`.
    fn save(&mut self)
        requires { HasRoomForAll (opened V.meaning self.old.dialog.body) [] }
        ensures dialog { self.new.dialog ≡ self.old.dialog }
        ensures values { self.new.values ≡ values_after V.meaning self.old.values self.old.dialog }
    {
        if saves(self.dialog.ended()) {
            self.keep_values();
        }
    }

    /// Hands the open dialog an event, whose point is in screen coordinates, told whether a view of it holds the mouse.
    /// Keeps the dialog's values where that ends it by another command than `cancel`. Adds to the damage what shows
    /// otherwise then: all of a dialog that has ended, with its shadow.
    pub(crate) fn step(
        &mut self,
        declared: &Declared,
        is_held: bool,
        event: &Event,
        commands: &CommandSet,
        colours: &Colours,
        damage: &mut Damage,
    )
        requires ready { (m : Modal) × IsReady V.meaning declared.now m self.old.dialog }
        requires held { is_held ≡ any_holds (opened V.meaning self.old.dialog.body) }
        requires given { HasPointGiven event.now }
        requires handed { is_dropped event.now ≡ false }
        ensures stands { (m : Modal) → IsReady V.meaning declared.now m self.old.dialog → Stands V.meaning declared.now
            (dialog_step declared.now (event_from self.old.dialog.corner event.now) (begun_anew m)).leaves
            (dialog_step declared.now (event_from self.old.dialog.corner event.now) (begun_anew m)) self.new.dialog }
        ensures corner { self.new.dialog.corner ≡ self.old.dialog.corner }
        ensures sheet { self.new.dialog.sheet ≡ self.old.dialog.sheet }
        ensures values { self.new.values ≡ values_after V.meaning self.old.values self.new.dialog }
        ensures damage { KeptDamages V.meaning declared.now self.old.dialog self.new.dialog damage.new }
        ensures ended { self.new.dialog.is_open ≡ false → HasShadowed (dialog_bounds self.new.dialog) damage.new }
        ensures kept { Keeps damage.old damage.new }
    {
        let corner = self.dialog.corner();
        let env = Env {
            owner: Owner::Dialog,
            chain: colours.chain(),
            views: declared.views.as_slice(),
            commands,
            focus: None,
            default_now: None,
            is_active: true,
        };
        self.dialog
            .step_with_hold(is_held, &event_from(corner, event), &env, damage);
        self.save();
        self.mark_if_ended(damage);
    }

    /// Adds the dialog's rectangle and its shadow.
    pub(crate) fn mark(&self, damage: &mut Damage)
        ensures shadowed { HasShadowed (dialog_bounds self.now.dialog) damage.new }
        ensures kept { Keeps damage.old damage.new }
    {
        damage.add_with_shadow(self.dialog.bounds());
    }

    // Adds them where the dialog has ended.
    fn mark_if_ended(&self, damage: &mut Damage)
        ensures ended { self.now.dialog.is_open ≡ false → HasShadowed (dialog_bounds self.now.dialog) damage.new }
        ensures kept { Keeps damage.old damage.new }
    {
        if !self.dialog.is_open() {
            self.mark(damage);
        }
    }

    /// Whether a view of the open dialog holds the mouse after an event. Asks the views only where one may.
    pub(crate) fn held_after(&self, was_held: bool, event: &Event) -> bool
        ensures { result ≡ holds_after V.meaning was_held event.now self.now.dialog }
    {
        self.dialog.is_open() && may_hold(was_held, event) && self.dialog.held()
    }

    /// Draws the open dialog over its shadow, both seen from the canvas's origin. A rectangle may cut the canvas.
    pub(crate) fn draw(
        &self,
        screen: &mut Screen,
        declared: &Declared,
        canvas: Canvas,
        colours: &Colours,
    )
        requires { IsSmall canvas.origin.x × IsSmall canvas.origin.y }
        ensures { (desc : Desc) (r : Rectangle) (o : OpenDialog) (overwriting : List Id) (m : Modal) → IsLawfulDialog declared.now
            → Stands V.meaning declared.now m.leaves m self.now.dialog → IsAtWork o overwriting m → self.now.dialog.corner ≡ o.origin
            → self.now.dialog.sheet ≡ o.sheet → canvas ≡ within r (desktop_canvas desc)
            → Lays (map (clipped r) (dialog_layers desc o overwriting declared.now)) screen.old screen.new }
    {
        let env = Env {
            owner: Owner::Dialog,
            chain: colours.chain(),
            views: declared.views.as_slice(),
            commands: self.dialog.commands(),
            focus: None,
            default_now: None,
            is_active: true,
        };
        draw_shadow(screen, canvas, self.dialog.bounds());
        self.dialog.draw(screen, canvas, &env);
    }
}
