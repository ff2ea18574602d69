//! Events that were posted, and wait for their turn.

ghost use Rattle.std.specs.Prelude.{◌≡◌, ◌<◌, [], ◌∷◌, ◌++◌, IfOk, length, drop, slice_get};

use crate::event::Event;
use circular_buffer::HeapCircularBuffer;
use std::alloc::{AllocError, Global};
use std::marker::Model;

/// The queue of posted events, with room for 4. Contracts see them as a list, the one that has waited longest first.
#[derive(Drop)]
pub struct Pending {
    events: HeapCircularBuffer<Event>,
}

impl Model for Pending {
    ghost use Rattle.std.specs.Prelude.{◌≡◌, ◌≤◌, List, length};
    ghost use Rattle.tv_event.specs.declared.event.Event.{Event};

    ghost Value = { List Event };

    ghost view = { λ p. p.events.items };

    ghost invariant = { λ p. (p.events.capacity ≡ 4) × (length p.events.items ≤ 4) };
}

impl Pending {
    /// Makes an empty queue, with room for all that may wait.
    ///
    /// # Errors
    ///
    /// `AllocError` where there is no memory for it.
    pub fn new(alloc: Global) -> Result<Pending, AllocError>
        ensures { IfOk result (λ pending. pending ≡ []) }
    {
        let events = HeapCircularBuffer::with_capacity(alloc, 4)?;
        Ok(Pending { events })
    }

    /// Puts an event behind the others.
    pub fn post(&mut self, event: Event)
        requires { length self.old < 4 }
        ensures { self.new ≡ self.old ++ event ∷ [] }
    {
        self.events.push_back(event);
    }

    /// Takes the event that has waited longest, or returns `None` where none waits.
    pub fn next(&mut self) -> Option<Event>
        ensures first { result ≡ slice_get self.old 0 }
        ensures rest { self.new ≡ drop 1 self.old }
    {
        self.events.pop_front()
    }

    /// Drops all that wait.
    pub fn clear(&mut self)
        ensures { self.new ≡ [] }
    {
        self.events.clear();
    }
}
