//! Questions to the leaves of a group.

ghost use Rattle.std.specs.Prelude.{◌≡◌, ◌&&◌};
ghost use Rattle.tv_model.specs.Description.Nodes.{is_control};
ghost use Rattle.tv_machine.specs.Dialog.Focus.{validates};
ghost use Rattle.tv_view.specs.Calls.{takes_focus};
ghost use Rattle.tv_group.specs.Handling.{is_awake};
ghost use Rattle.tv_group.specs.Opened.{opened, opened_member};
ghost use Rattle.tv_group.specs.Calls.{any_focused, any_holds, first_invalid_in, refused_in};
ghost use Rattle.tv_group.specs.Calls.{group_option_bits, group_state_bits, is_free_control, is_free_id};

use crate::group::{GroupOf, MemberOf};
use bitflags::Flags;
use tv_event::{Options, State};
use tv_model::Id;
use tv_view::View;

fn is_selectable<V: View>(view: &V) -> bool
    ensures { result ≡ is_control (V.meaning view.now).node.kind }
{
    view.options().contains(Options::SELECTABLE)
}

fn is_validated<V: View>(view: &V) -> bool
    ensures { result ≡ validates (V.meaning view.now).node.kind }
{
    view.options().contains(Options::VALIDATE)
}

fn is_focused<V: View>(view: &V) -> bool
    ensures { result ≡ (V.meaning view.now).is_focused }
{
    view.state().contains(State::FOCUSED)
}

/// Whether a leaf is shown and enabled.
pub(crate) fn is_awake<V: View>(view: &V) -> bool
    ensures { result ≡ is_awake (V.meaning view.now) }
{
    let state = view.state();
    state.contains(State::VISIBLE) && !state.contains(State::DISABLED)
}

fn is_free_leaf<V: View>(view: &V, id: Id) -> bool
    ensures { result ≡ (takes_focus id (V.meaning view.now) && is_free_control (V.meaning view.now)) }
{
    view.id() == id && is_selectable(view) && is_awake(view)
}

impl<V: View> MemberOf<V> {
    #[cycle(held)]
    fn held(&self) -> bool
        ensures { result ≡ any_holds (opened_member V.meaning self.now) }
    {
        match self {
            MemberOf::Leaf(view) => view.held(),
            MemberOf::Pane(group) => group.held(),
        }
    }

    #[cycle(first_invalid)]
    fn first_invalid(&self) -> Option<Id>
        ensures { result ≡ first_invalid_in (opened_member V.meaning self.now) }
    {
        match self {
            MemberOf::Leaf(view) => view.first_invalid(),
            MemberOf::Pane(group) => group.first_invalid(),
        }
    }

    #[cycle(refuses)]
    fn refuses(&self) -> Option<Id>
        ensures { result ≡ refused_in (opened_member V.meaning self.now) }
    {
        match self {
            MemberOf::Leaf(view) if is_validated(view) => view.first_invalid(),
            MemberOf::Leaf(_) => None,
            MemberOf::Pane(group) => group.refuses(),
        }
    }

    #[cycle(is_free)]
    fn is_free(&self, id: Id) -> bool
        ensures { result ≡ is_free_id id (opened_member V.meaning self.now) }
    {
        match self {
            MemberOf::Leaf(view) => is_free_leaf(view, id),
            MemberOf::Pane(group) => group.is_free(id),
        }
    }

    #[cycle(has_focus)]
    fn has_focus(&self) -> bool
        ensures { result ≡ any_focused (opened_member V.meaning self.now) }
    {
        match self {
            MemberOf::Leaf(view) => is_focused(view),
            MemberOf::Pane(group) => group.has_focus(),
        }
    }
}

impl<V: View> GroupOf<V> {
    /// Whether a leaf holds the mouse.
    #[cycle(held)]
    pub fn held(&self) -> bool
        ensures { result ≡ any_holds (opened V.meaning self.now) }
    {
        for member in &self.members {
            if member.held() {
                return true;
            }
        }
        false
    }

    /// Returns the id of the first input whose text lies outside its domain.
    #[cycle(first_invalid)]
    pub fn first_invalid(&self) -> Option<Id>
        ensures { result ≡ first_invalid_in (opened V.meaning self.now) }
    {
        for member in &self.members {
            if let Some(id) = member.first_invalid() {
                return Some(id);
            }
        }
        None
    }

    /// Returns the id of the current leaf, if it is an input that the focus may not leave with its text.
    #[cycle(refuses)]
    pub fn refuses(&self) -> Option<Id>
        ensures { result ≡ refused_in (opened V.meaning self.now) }
    {
        self.members.get(self.current?)?.refuses()
    }

    /// Whether the control of the id is shown and enabled.
    #[cycle(is_free)]
    pub fn is_free(&self, id: Id) -> bool
        ensures { result ≡ is_free_id id (opened V.meaning self.now) }
    {
        for member in &self.members {
            if member.is_free(id) {
                return true;
            }
        }
        false
    }

    #[cycle(has_focus)]
    fn has_focus(&self) -> bool
        ensures { result ≡ any_focused (opened V.meaning self.now) }
    {
        for member in &self.members {
            if member.has_focus() {
                return true;
            }
        }
        false
    }

    /// Returns its flags: always visible, and selected and focused where a leaf of it has the focus.
    pub fn state(&self) -> State
        ensures { result.0 ≡ group_state_bits (opened V.meaning self.now) }
    {
        if self.has_focus() {
            State::VISIBLE.union(State::SELECTED).union(State::FOCUSED)
        } else {
            State::VISIBLE
        }
    }

    /// Returns what it asks of its owner: to be selectable, and to be asked before and after the current member.
    pub fn options(&self) -> Options
        ensures { result.0 ≡ group_option_bits }
    {
        Options::SELECTABLE
            .union(Options::PRE_PROCESS)
            .union(Options::POST_PROCESS)
    }
}
