//! The values of fields, as many as there are.

ghost use Rattle.std.specs.Prelude.{◌≡◌, ◌==◌, [], position, option_copied, OnErr, OnOk};
ghost use Rattle.tv_model.specs.Log.Record.{value_of, with_value};

use std::alloc::{AllocError, Global};
use std::marker::Model;
use tv_model::{Entry, Id, Value};

/// Values, each with its field. Contracts see the list of them.
#[derive(Debug, Drop)]
pub struct FieldEntries {
    list: Vec<Entry>,
}

impl Model for FieldEntries {
    ghost use Rattle.tv_model.specs.Log.Record.{Entries};

    ghost Value = { Entries };

    ghost view = { λ e. e.list.items };
}

impl FieldEntries {
    /// Makes a list without values. Takes no memory.
    pub fn new(alloc: Global) -> FieldEntries
        ensures { result ≡ [] }
    {
        FieldEntries {
            list: Vec::new(alloc),
        }
    }

    /// Returns the values in the order in which their fields first had one.
    pub fn as_slice(&self) -> &[Entry]
        ensures { result.now ≡ self.now }
    {
        &self.list
    }

    fn place_of(&self, id: Id) -> Option<usize>
        ensures { result ≡ position (λ e. e.id.0 == id.0) self.now }
    {
        self.list.iter().position(|entry| entry.id == id)
    }

    /// Finds the value of a field.
    pub fn value(&self, id: Id) -> Option<&Value>
        ensures { option_copied result ≡ value_of self.now id.0 }
    {
        match self.place_of(id) {
            Some(place) => Some(&self.list[place].value),
            None => None,
        }
    }

    /// Gives a field its value. The other fields keep theirs.
    pub fn put(&mut self, id: Id, value: Value) -> Result<(), AllocError>
        ensures ok { OnOk result (self.new ≡ with_value self.old id value) }
        ensures err { OnErr result (self.new ≡ self.old) }
    {
        match self.place_of(id) {
            Some(place) => {
                let entry = &mut self.list[place];
                entry.value = value;
            }
            None => self.list.push(Entry { id, value })?,
        }
        Ok(())
    }
}
