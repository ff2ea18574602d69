//! Calls that change every leaf of a group.

ghost use Rattle.std.specs.Prelude.{◌≡◌, map};
ghost use Rattle.tv_view.specs.Damage.{AllDamages, AllDrawn};
ghost use Rattle.tv_view.specs.Meaning.{uncurrent};
ghost use Rattle.tv_group.specs.Opened.{group_bounds, level_of, opened, opened_member};
ghost use Rattle.tv_group.specs.Calls.{FitsAll, all_applied, all_pressed, all_set};

use crate::group::{GroupOf, MemberOf};
use tv_cells::Damage;
use tv_model::{Id, Record};
use tv_view::{Rules, View};

impl<V: View> MemberOf<V> {
    #[cycle(press_item)]
    fn press_item(&mut self, id: Id, item: u8, damage: &mut Damage)
        ensures leaves { opened_member V.meaning self.new ≡ all_pressed id item (opened_member V.meaning self.old) }
        ensures damage { AllDrawn (opened_member V.meaning self.old) (opened_member V.meaning self.new) damage.old damage.new }
    {
        match self {
            MemberOf::Leaf(view) => view.press_item(id, item, damage),
            MemberOf::Pane(group) => group.press_item(id, item, damage),
        }
    }

    #[cycle(apply)]
    fn apply(&mut self, rules: &Rules, damage: &mut Damage)
        ensures leaves { opened_member V.meaning self.new ≡ all_applied rules.now (opened_member V.meaning self.old) }
        ensures damage { AllDrawn (opened_member V.meaning self.old) (opened_member V.meaning self.new) damage.old damage.new }
    {
        match self {
            MemberOf::Leaf(view) => view.apply(rules, damage),
            MemberOf::Pane(group) => group.apply(rules, damage),
        }
    }

    // A leaf by itself is marked as current, so the contract leaves that mark out.
    #[cycle(set)]
    fn set(&mut self, values: &Record, damage: &mut Damage)
        requires { FitsAll values.now (opened_member V.meaning self.old) }
        ensures leaves { map uncurrent (opened_member V.meaning self.new) ≡ all_set values.now (opened_member V.meaning self.old) }
        ensures damage { AllDrawn (opened_member V.meaning self.old) (opened_member V.meaning self.new) damage.old damage.new }
    {
        match self {
            MemberOf::Leaf(view) => view.set(values, damage),
            MemberOf::Pane(group) => group.set(values, damage),
        }
    }
}

impl<V: View> GroupOf<V> {
    /// Selects and presses an item, counted from 1, of each cluster of the id that has the item.
    #[cycle(press_item)]
    pub fn press_item(&mut self, id: Id, item: u8, damage: &mut Damage)
        ensures leaves { opened V.meaning self.new ≡ all_pressed id item (opened V.meaning self.old) }
        ensures shape { (group_bounds self.new ≡ group_bounds self.old) × (level_of self.new ≡ level_of self.old) }
        ensures damage { AllDamages (group_bounds self.old) (opened V.meaning self.old) (opened V.meaning self.new) damage.old damage.new }
    {
        let mut inner = Damage::new();
        for member in self.members.iter_mut() {
            member.press_item(id, item, &mut inner);
        }
        damage.add_within(&inner, self.bounds.rect());
    }

    /// Shows or hides the leaves, and enables or disables them, as the rules say.
    #[cycle(apply)]
    pub fn apply(&mut self, rules: &Rules, damage: &mut Damage)
        ensures leaves { opened V.meaning self.new ≡ all_applied rules.now (opened V.meaning self.old) }
        ensures shape { (group_bounds self.new ≡ group_bounds self.old) × (level_of self.new ≡ level_of self.old) }
        ensures damage { AllDamages (group_bounds self.old) (opened V.meaning self.old) (opened V.meaning self.new) damage.old damage.new }
    {
        let mut inner = Damage::new();
        for member in self.members.iter_mut() {
            member.apply(rules, &mut inner);
        }
        damage.add_within(&inner, self.bounds.rect());
    }

    /// Opens the leaves with their values in the record. No member is current then, and none in its panes.
    #[cycle(set)]
    pub fn set(&mut self, values: &Record, damage: &mut Damage)
        requires { FitsAll values.now (opened V.meaning self.old) }
        ensures leaves { opened V.meaning self.new ≡ all_set values.now (opened V.meaning self.old) }
        ensures shape { (group_bounds self.new ≡ group_bounds self.old) × (level_of self.new ≡ level_of self.old) }
        ensures damage { AllDamages (group_bounds self.old) (opened V.meaning self.old) (opened V.meaning self.new) damage.old damage.new }
    {
        self.current = None;
        let mut inner = Damage::new();
        for member in self.members.iter_mut() {
            member.set(values, &mut inner);
        }
        damage.add_within(&inner, self.bounds.rect());
    }
}
