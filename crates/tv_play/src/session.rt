//! A session, run in a terminal.

use crate::live::Live;
use tv_cells::Rect;
use tv_event::Event;
use tv_model::Id;
use tv_session::SessionOf;
use tv_view::View;

impl<V: View> Live for SessionOf<V> {
    ghost repaints = { λ session. session.repainted };

    fn react(&mut self, event: &Event) {
        SessionOf::step(self, event);
    }

    fn repainted(&self) -> &[Rect] {
        SessionOf::repainted(self)
    }

    fn focus(&self) -> Option<Id> {
        SessionOf::focus(self)
    }
}
