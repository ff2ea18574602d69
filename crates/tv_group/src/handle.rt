//! Handing events to the leaves of groups.

ghost use Rattle.std.specs.Prelude.{◌≡◌, ◌∷◌, []};
ghost use Rattle.tv_cells.specs.Layers.{is_in};
ghost use Rattle.tv_view.specs.Damage.{AllDamages, AllDrawn, Damages};
ghost use Rattle.tv_view.specs.Meaning.{alone};
ghost use Rattle.tv_view.specs.Points.{moved_into, point_into};
ghost use Rattle.tv_group.specs.Handling.{group_after, group_answer, scan_after, scan_answer, has_turn, is_hit, is_offered, is_pass};
ghost use Rattle.tv_group.specs.Opened.{group_bounds, level_of, opened, opened_member};
ghost use Rattle.tv_group.specs.Turns.{down_after, down_here, goes_to_all};

use crate::ask::is_awake;
use crate::group::{GroupOf, MemberOf};
use bitflags::Flags;
use tv_cells::{Damage, Point, Rect};
use tv_event::{Event, Options, Phase, State};
use tv_view::{Env, Reaction, View};

/// Whether the event was not consumed.
pub fn is_pass(reaction: &Reaction) -> bool
    ensures { result ≡ is_pass reaction.now }
{
    matches!(reaction, Reaction::Pass)
}

fn has_point(bounds: Rect, point: Point) -> bool
    ensures { result ≡ is_in bounds point.x point.y }
{
    bounds.contains(point)
}

fn point_into(bounds: Rect, point: Point) -> Point
    ensures { result ≡ point_into bounds point }
{
    Point {
        x: point.x.saturating_sub(bounds.a.x),
        y: point.y.saturating_sub(bounds.a.y),
    }
}

// The event as what stands in a group with these bounds sees it.
fn moved_into(bounds: Rect, event: &Event) -> Event
    ensures { result ≡ moved_into bounds event.now }
{
    match event {
        Event::Down(point) => Event::Down(point_into(bounds, *point)),
        Event::Up(point) => Event::Up(point_into(bounds, *point)),
        Event::Move(point) => Event::Move(point_into(bounds, *point)),
        Event::Key(key) => Event::Key(*key),
        Event::Command(command) => Event::Command(*command),
        Event::Broadcast(command) => Event::Broadcast(*command),
    }
}

fn is_shown<V: View>(view: &V) -> bool
    ensures { result ≡ (V.meaning view.now).is_shown }
{
    view.state().contains(State::VISIBLE)
}

fn is_enabled<V: View>(view: &V) -> bool
    ensures { result ≡ (V.meaning view.now).is_enabled }
{
    !view.state().contains(State::DISABLED)
}

fn has_turn<V: View>(view: &V, phase: Phase) -> bool
    ensures { result ≡ has_turn phase (alone (V.meaning view.now)) }
{
    match phase {
        Phase::Pre => view.options().contains(Options::PRE_PROCESS),
        Phase::Focused => true,
        Phase::Post => view.options().contains(Options::POST_PROCESS),
    }
}

fn is_offered<V: View>(view: &V, event: &Event, phase: Phase) -> bool
    ensures { result ≡ is_offered event.now phase (alone (V.meaning view.now)) }
{
    match event {
        Event::Key(_) | Event::Command(_) => has_turn(view, phase) && is_awake(view),
        Event::Move(_) | Event::Up(_) | Event::Broadcast(_) => true,
        Event::Down(_) => false,
    }
}

fn offer<V: View>(
    view: &mut V,
    event: &Event,
    phase: Phase,
    env: &Env,
    damage: &mut Damage,
) -> Reaction
    ensures reaction { result ≡ scan_answer event.now phase env.now (alone (V.meaning view.old) ∷ []) }
    ensures after { alone (V.meaning view.new) ∷ [] ≡ scan_after event.now phase env.now (alone (V.meaning view.old) ∷ []) }
    ensures damage { Damages (V.meaning view.old) (V.meaning view.new) damage.old damage.new }
{
    if is_offered(view, event, phase) {
        view.handle(event, phase, env, damage)
    } else {
        Reaction::Pass
    }
}

fn is_hit<V: View>(view: &V, point: Point) -> bool
    ensures { result ≡ is_hit point (alone (V.meaning view.now)) }
{
    is_shown(view) && has_point(view.bounds(), point)
}

// A disabled view keeps a mouse down from those below it.
fn hit<V: View>(
    view: &mut V,
    point: Point,
    phase: Phase,
    env: &Env,
    damage: &mut Damage,
) -> Option<Reaction>
    ensures reaction { result ≡ down_here point phase env.now (alone (V.meaning view.old) ∷ []) }
    ensures after { alone (V.meaning view.new) ∷ [] ≡ down_after point phase env.now (alone (V.meaning view.old) ∷ []) }
    ensures damage { Damages (V.meaning view.old) (V.meaning view.new) damage.old damage.new }
{
    if !is_hit(view, point) {
        return None;
    }
    if is_enabled(view) {
        Some(view.handle(&Event::Down(point), phase, env, damage))
    } else {
        Some(Reaction::Pass)
    }
}

// Keys and commands in the focus go to the current member alone, all else to each.
fn goes_to_all(event: &Event, phase: Phase) -> bool
    ensures { result ≡ goes_to_all event.now phase }
{
    match (event, phase) {
        (Event::Key(_) | Event::Command(_), Phase::Focused) => false,
        _ => true,
    }
}

impl<V: View> MemberOf<V> {
    #[cycle(scan)]
    fn scan(&mut self, event: &Event, phase: Phase, env: &Env, damage: &mut Damage) -> Reaction
        ensures reaction { result ≡ scan_answer event.now phase env.now (opened_member V.meaning self.old) }
        ensures after { opened_member V.meaning self.new ≡ scan_after event.now phase env.now (opened_member V.meaning self.old) }
        ensures damage { AllDrawn (opened_member V.meaning self.old) (opened_member V.meaning self.new) damage.old damage.new }
    {
        match self {
            MemberOf::Leaf(view) => offer(view, event, phase, env, damage),
            MemberOf::Pane(group) => group.scan(event, phase, env, damage),
        }
    }

    #[cycle(down)]
    fn down(
        &mut self,
        point: Point,
        phase: Phase,
        env: &Env,
        damage: &mut Damage,
    ) -> Option<Reaction>
        ensures reaction { result ≡ down_here point phase env.now (opened_member V.meaning self.old) }
        ensures after { opened_member V.meaning self.new ≡ down_after point phase env.now (opened_member V.meaning self.old) }
        ensures damage { AllDrawn (opened_member V.meaning self.old) (opened_member V.meaning self.new) damage.old damage.new }
    {
        match self {
            MemberOf::Leaf(view) => hit(view, point, phase, env, damage),
            MemberOf::Pane(group) => group.down(point, phase, env, damage),
        }
    }
}

impl<V: View> GroupOf<V> {
    // Hands the event to the leaves in order, until one doesn't pass it on: to those of the current member alone, where
    // no other gets it.
    #[cycle(scan)]
    fn scan(&mut self, event: &Event, phase: Phase, env: &Env, damage: &mut Damage) -> Reaction
        ensures reaction { result ≡ scan_answer event.now phase env.now (opened V.meaning self.old) }
        ensures after { opened V.meaning self.new ≡ scan_after event.now phase env.now (opened V.meaning self.old) }
        ensures shape { (group_bounds self.new ≡ group_bounds self.old) × (level_of self.new ≡ level_of self.old) }
        ensures damage { AllDamages (group_bounds self.old) (opened V.meaning self.old) (opened V.meaning self.new) damage.old damage.new }
    {
        let bounds = self.bounds.rect();
        let inner = moved_into(bounds, event);
        let mut own = Damage::new();
        if !goes_to_all(&inner, phase) {
            return match self.current {
                Some(i) if i < self.members.len() => {
                    let reaction = self.members[i].scan(&inner, phase, env, &mut own);
                    damage.add_within(&own, bounds);
                    reaction
                }
                _ => Reaction::Pass,
            };
        }
        for member in self.members.iter_mut() {
            let reaction = member.scan(&inner, phase, env, &mut own);
            if !is_pass(&reaction) {
                damage.add_within(&own, bounds);
                return reaction;
            }
        }
        Reaction::Pass
    }

    // Hands a mouse down to the last of the shown leaves that have the point. Returns `None` where none has it, so that
    // what lies below is asked.
    #[cycle(down)]
    fn down(
        &mut self,
        point: Point,
        phase: Phase,
        env: &Env,
        damage: &mut Damage,
    ) -> Option<Reaction>
        ensures reaction { result ≡ down_here point phase env.now (opened V.meaning self.old) }
        ensures after { opened V.meaning self.new ≡ down_after point phase env.now (opened V.meaning self.old) }
        ensures shape { (group_bounds self.new ≡ group_bounds self.old) × (level_of self.new ≡ level_of self.old) }
        ensures damage { AllDamages (group_bounds self.old) (opened V.meaning self.old) (opened V.meaning self.new) damage.old damage.new }
    {
        let bounds = self.bounds.rect();
        if !has_point(bounds, point) {
            return None;
        }
        let inner = point_into(bounds, point);
        let mut own = Damage::new();
        for i in (0..self.members.len()).rev() {
            if let Some(reaction) = self.members[i].down(inner, phase, env, &mut own) {
                damage.add_within(&own, bounds);
                return Some(reaction);
            }
        }
        None
    }

    /// Hands an event to its leaves in a phase. A mouse down goes to the topmost shown leaf at the point, and to no
    /// other even if that one is disabled. Any other event goes from leaf to leaf, until one doesn't pass it on.
    pub fn handle(
        &mut self,
        event: &Event,
        phase: Phase,
        env: &Env,
        damage: &mut Damage,
    ) -> Reaction
        ensures reaction { result ≡ group_answer event.now phase env.now (opened V.meaning self.old) }
        ensures after { opened V.meaning self.new ≡ group_after event.now phase env.now (opened V.meaning self.old) }
        ensures shape { (group_bounds self.new ≡ group_bounds self.old) × (level_of self.new ≡ level_of self.old) }
        ensures damage { AllDamages (group_bounds self.old) (opened V.meaning self.old) (opened V.meaning self.new) damage.old damage.new }
    {
        match event {
            Event::Down(point) => self
                .down(*point, phase, env, damage)
                .unwrap_or(Reaction::Pass),
            _ => self.scan(event, phase, env, damage),
        }
    }
}
