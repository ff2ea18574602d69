//! The values of a group's fields.

ghost use Rattle.std.specs.Prelude.{◌≡◌, ◌||◌, if◌then◌else◌, is_some, length, nat_lt};
ghost use Rattle.tv_model.specs.Log.Record.{value_of};
ghost use Rattle.tv_view.specs.Calls.{gathered};
ghost use Rattle.tv_group.specs.Opened.{opened, opened_member};
ghost use Rattle.tv_group.specs.Calls.{HasRoomForAll, all_gathered, gathered_within, has_room};

use crate::group::{GroupOf, MemberOf};
use tv_model::{Id, Record};
use tv_view::View;

// The most fields that a record holds.
const MOST: usize = 64;

fn has_room_for(values: &Record, id: Id) -> bool
    ensures { result ≡ (is_some (value_of values.now id.0) || nat_lt (length values.now) 64) }
{
    values.len() < MOST || values.value(id).is_some()
}

fn gather_leaf<V: View>(view: &V, values: &mut Record)
    ensures { values.new ≡ (if has_room (V.meaning view.now) values.old then gathered (V.meaning view.now) values.old else values.old) }
{
    if has_room_for(values, view.id()) {
        view.get(values);
    }
}

impl<V: View> MemberOf<V> {
    #[cycle(gather)]
    fn gather(&self, values: &mut Record)
        ensures { values.new ≡ gathered_within (opened_member V.meaning self.now) values.old }
    {
        match self {
            MemberOf::Leaf(view) => gather_leaf(view, values),
            MemberOf::Pane(group) => group.gather(values),
        }
    }
}

impl<V: View> GroupOf<V> {
    /// Puts the values of the fields into the record, one after the other. Fields that it has no room for are left out.
    #[cycle(gather)]
    pub fn gather(&self, values: &mut Record)
        ensures { values.new ≡ gathered_within (opened V.meaning self.now) values.old }
    {
        for member in &self.members {
            member.gather(values);
        }
    }

    /// Puts the values of all fields into the record, one after the other.
    pub fn get(&self, values: &mut Record)
        requires { HasRoomForAll (opened V.meaning self.now) values.old }
        ensures { values.new ≡ all_gathered (opened V.meaning self.now) values.old }
    {
        self.gather(values);
    }
}
