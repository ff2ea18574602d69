//! What the views of these tests were told.

use std::alloc::Global;
use std::cell::RefCell;
use std::rc::Rc;
use std::test::Fail;
use tv_event::{Event, Phase};
use tv_model::Id;

/// What a view was told.
#[derive(Clone, Copy, Debug, PartialEq, Eq)]
pub enum Call {
    /// To handle an event in a phase.
    Handed(Event, Phase),
    /// To draw itself.
    Drawn,
    /// That the focus is its own.
    Focused,
    /// That it is dropped.
    Dropped,
}

/// A call, with the number of the view that was told.
pub type Note = (u32, Call);

/// A call that the views of these numbers were told, one after the other.
#[derive(Clone, Copy)]
pub struct Told {
    pub call: Call,
    pub views: &'static [u32],
}

/// The calls of all probes that share it, in order.
#[derive(Drop)]
pub struct Journal {
    alloc: Global,
    notes: RefCell<Vec<Note>>,
}

impl Journal {
    /// A journal without notes.
    pub fn new(alloc: Global) -> Result<Rc<Journal>, Fail> {
        let journal = Journal {
            alloc,
            notes: RefCell::new(Vec::new(alloc)),
        };
        Ok(Rc::new(alloc, journal)?)
    }

    /// Notes a call. A note that can't be taken is missing, and so the test that wants it fails.
    pub fn note(&self, id: Id, call: Call) {
        if let Ok(mut notes) = self.notes.try_borrow_mut() {
            notes.push((id.0, call)).ok();
        }
    }

    /// The notes since the last time that it was asked.
    pub fn taken(&self) -> Result<Vec<Note>, Fail> {
        let empty = Vec::new(self.alloc);
        match self.notes.try_replace(empty) {
            Ok(notes) => Ok(notes),
            Err(_) => Err("the journal is lent".into()),
        }
    }

    /// Fails unless these are the notes since the last time that it was asked.
    pub fn expect(&self, notes: &[Note]) -> Result<(), Fail> {
        let taken = self.taken()?;
        if taken.as_slice() == notes {
            return Ok(());
        }
        Err(Fail::new(format_args!("{taken:?}")))
    }

    /// Fails unless views were told just this since the last time that it was asked.
    pub fn expect_told(&self, told: &[Told]) -> Result<(), Fail> {
        let mut notes = Vec::new(self.alloc);
        for row in told {
            for view in row.views {
                notes.push((*view, row.call))?;
            }
        }
        self.expect(&notes)
    }
}
