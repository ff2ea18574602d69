//! Searching a group for a free control.

ghost use Rattle.std.specs.Prelude.{◌≡◌, ◌<◌};
ghost use Rattle.tv_view.specs.Meaning.{alone};
ghost use Rattle.tv_group.specs.Calls.{first_in, is_free_control, next_in, ordered};
ghost use Rattle.tv_group.specs.Current.{is_at};
ghost use Rattle.tv_group.specs.Searching.{found_in, looks_at, kth_place, searched, searched_on};
ghost use Rattle.tv_group.specs.declared.search.Search.TheVariants.{Before, Passed};

use crate::focus::Dir;
use crate::group::{GroupOf, MemberOf};
use bitflags::Flags;
use tv_event::{Options, State};
use tv_model::Id;
use tv_view::View;

/// How far a search has come.
#[derive(Clone, Copy)]
pub(crate) enum Search {
    /// Not yet to the current leaf.
    Before,
    /// Past it, and to no free control.
    Passed,
    /// To a free control.
    Found(Id),
}

/// Whether a leaf is a control that is shown and enabled.
pub(crate) fn is_free<V: View>(view: &V) -> bool
    ensures { result ≡ is_free_control (V.meaning view.now) }
{
    let state = view.state();
    view.options().contains(Options::SELECTABLE)
        && state.contains(State::VISIBLE)
        && !state.contains(State::DISABLED)
}

impl Dir {
    // The k-th of so many places.
    fn place(self, k: usize, count: usize) -> usize
        requires { k < count }
        ensures is { result ≡ kth_place self k count }
        ensures within { result < count }
    {
        match self {
            Dir::Forward => k,
            Dir::Backward => count - 1 - k,
        }
    }
}

impl Search {
    fn found(self) -> Option<Id>
        ensures { result ≡ found_in self }
    {
        match self {
            Search::Before | Search::Passed => None,
            Search::Found(id) => Some(id),
        }
    }

    // Up to the current leaf only the current member can hold it.
    fn looks_at(self, is_current: bool) -> bool
        ensures { result ≡ looks_at self is_current }
    {
        match self {
            Search::Before => is_current,
            Search::Passed => true,
            Search::Found(_) => false,
        }
    }

    // A leaf that stands alone is the current one of its place.
    fn on_to<V: View>(self, view: &V) -> Search
        ensures { result ≡ searched_on self (alone (V.meaning view.now)) }
    {
        match self {
            Search::Before => Search::Passed,
            Search::Passed if is_free(view) => Search::Found(view.id()),
            Search::Passed | Search::Found(_) => self,
        }
    }
}

impl<V: View> MemberOf<V> {
    ghost use Rattle.tv_group.specs.Opened.{opened_member};

    #[cycle(search)]
    fn search(&self, dir: Dir, from: Search) -> Search
        ensures { result ≡ searched from (ordered dir (opened_member V.meaning self.now)) }
    {
        match self {
            MemberOf::Leaf(view) => from.on_to(view),
            MemberOf::Pane(group) => group.search(dir, from),
        }
    }
}

impl<V: View> GroupOf<V> {
    ghost use Rattle.tv_group.specs.Opened.{opened};

    fn is_current(&self, i: usize) -> bool
        ensures { result ≡ is_at self.now.current i }
    {
        match self.current {
            Some(current) => current == i,
            None => false,
        }
    }

    // Goes on with a search through these leaves.
    #[cycle(search)]
    fn search(&self, dir: Dir, from: Search) -> Search
        ensures { result ≡ searched from (ordered dir (opened V.meaning self.now)) }
    {
        let mut search = from;
        for k in 0..self.members.len() {
            let i = dir.place(k, self.members.len());
            if search.looks_at(self.is_current(i)) {
                search = self.members[i].search(dir, search);
                if search.found().is_some() {
                    return search;
                }
            }
        }
        search
    }

    /// Finds the first free control in a direction, panes opened out.
    pub fn first(&self, dir: Dir) -> Option<Id>
        ensures { result ≡ first_in dir (opened V.meaning self.now) }
    {
        self.search(dir, Search::Passed).found()
    }

    /// Finds the next free control after the current leaf in a direction, up to the edge. Finds none where no leaf is
    /// current.
    pub fn next(&self, dir: Dir) -> Option<Id>
        ensures { result ≡ next_in dir (opened V.meaning self.now) }
    {
        self.search(dir, Search::Before).found()
    }
}
