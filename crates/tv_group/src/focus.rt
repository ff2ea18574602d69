//! The focus in a group.

ghost use Rattle.std.specs.Prelude.{◌≡◌, false, map, true};
ghost use Rattle.tv_view.specs.Damage.{AllDamages, AllDrawn};
ghost use Rattle.tv_view.specs.Meaning.{uncurrent};
ghost use Rattle.tv_group.specs.Calls.{advanced, all_focused, first_in, focused_at, focused_from, has_control, next_in};

use crate::group::{GroupOf, MemberOf};
use tv_cells::Damage;
use tv_model::Id;
use tv_view::View;

/// A way through the controls of a group.
#[derive(Clone, Copy, Debug, PartialEq, Eq)]
pub enum Dir {
    /// In description order.
    Forward,
    /// Against it.
    Backward,
}

/// Where the focus went.
#[derive(Clone, Copy, Debug, PartialEq, Eq)]
pub enum Advanced {
    /// To the control of the id.
    Moved(Id),
    /// Nowhere: there is no free control before the edge of the group.
    Edge,
}

impl<V: View> MemberOf<V> {
    ghost use Rattle.tv_group.specs.Opened.{opened_member};

    // A leaf by itself is current in any case, so where the control isn't in it, its owner drops the marks.
    #[cycle(focus_to)]
    fn focus_to(&mut self, id: Id, damage: &mut Damage) -> bool
        ensures found { result ≡ has_control id (opened_member V.meaning self.old) }
        ensures left { map uncurrent (opened_member V.meaning self.new) ≡ focused_from true id (opened_member V.meaning self.old) }
        ensures moved { has_control id (opened_member V.meaning self.old) ≡ true
            → opened_member V.meaning self.new ≡ focused_from false id (opened_member V.meaning self.old) }
        ensures damage { AllDrawn (opened_member V.meaning self.old) (opened_member V.meaning self.new) damage.old damage.new }
    {
        match self {
            MemberOf::Leaf(view) => view.focus_to(id, damage),
            MemberOf::Pane(group) => group.focus_to(id, damage),
        }
    }
}

impl<V: View> GroupOf<V> {
    ghost use Rattle.tv_group.specs.Opened.{group_bounds, level_of, opened};

    /// Moves the focus to the first control of the id: every other leaf loses it, and the members that lead to the
    /// control become current. Returns whether there is such a control; without one no member is current.
    #[cycle(focus_to)]
    pub fn focus_to(&mut self, id: Id, damage: &mut Damage) -> bool
        ensures found { result ≡ has_control id (opened V.meaning self.old) }
        ensures leaves { opened V.meaning self.new ≡ all_focused id (opened V.meaning self.old) }
        ensures shape { (group_bounds self.new ≡ group_bounds self.old) × (level_of self.new ≡ level_of self.old) }
        ensures damage { AllDamages (group_bounds self.old) (opened V.meaning self.old) (opened V.meaning self.new) damage.old damage.new }
    {
        let mut current = None;
        let mut inner = Damage::new();
        for (i, member) in self.members.iter_mut().enumerate() {
            let has = member.focus_to(id, &mut inner);
            if has && current.is_none() {
                current = Some(i);
            }
        }
        damage.add_within(&inner, self.bounds.rect());
        self.current = current;
        current.is_some()
    }

    /// Moves the focus to the next free control in a direction. At the last one it stays, and where no leaf is current
    /// nothing moves.
    pub fn advance(&mut self, dir: Dir, damage: &mut Damage) -> Advanced
        ensures answer { result ≡ advanced (next_in dir (opened V.meaning self.old)) }
        ensures leaves { opened V.meaning self.new ≡ focused_at (next_in dir (opened V.meaning self.old)) (opened V.meaning self.old) }
        ensures shape { (group_bounds self.new ≡ group_bounds self.old) × (level_of self.new ≡ level_of self.old) }
        ensures damage { AllDamages (group_bounds self.old) (opened V.meaning self.old) (opened V.meaning self.new) damage.old damage.new }
    {
        match self.next(dir) {
            Some(id) => {
                self.focus_to(id, damage);
                Advanced::Moved(id)
            }
            None => Advanced::Edge,
        }
    }

    /// Moves the focus to the first free control in a direction, wherever it was, and returns that control's id.
    pub fn enter(&mut self, dir: Dir, damage: &mut Damage) -> Option<Id>
        ensures answer { result ≡ first_in dir (opened V.meaning self.old) }
        ensures leaves { opened V.meaning self.new ≡ focused_at (first_in dir (opened V.meaning self.old)) (opened V.meaning self.old) }
        ensures shape { (group_bounds self.new ≡ group_bounds self.old) × (level_of self.new ≡ level_of self.old) }
        ensures damage { AllDamages (group_bounds self.old) (opened V.meaning self.old) (opened V.meaning self.new) damage.old damage.new }
    {
        let id = self.first(dir)?;
        self.focus_to(id, damage);
        Some(id)
    }
}
