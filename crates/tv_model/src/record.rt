//! The values of a dialog's fields.

ghost use Rattle.std.specs.Prelude.{◌≡◌, ◌<◌, ◌≤◌, ◌==◌, ◌⊎◌, ℕ, [], length, position, if◌then◌else◌, option_copied, Some, IsSome};
ghost use Rattle.tv_model.specs.Log.Record.{value_of, with_value, Entries};

use crate::node::Id;
use arrayvec::ArrayVec;
use std::marker::Model;
use tv_valid::Text;

/// What a field holds.
#[derive(Debug, Drop, PartialEq)]
pub enum Value {
    /// The text of an input.
    Text(Text),
    /// The marked items of check boxes: bit 0 is the first item.
    Marks(u16),
    /// The marked item of radio buttons, or the chosen one of a list, counted from 1.
    Item(u8),
}

impl Value {
    /// Copies the value. Takes no memory.
    pub fn copy(&self) -> Value
        ensures { result ≡ self.now }
    {
        match self {
            Value::Text(text) => Value::Text(text.copy()),
            Value::Marks(marks) => Value::Marks(*marks),
            Value::Item(item) => Value::Item(*item),
        }
    }
}

impl Default for Value {
    ghost use Rattle.tv_model.specs.declared.record.Value.TheVariants.{Marks};

    ghost is_default = { λ value. value ≡ Marks 0 };

    fn default() -> Value {
        Value::Marks(0)
    }
}

/// The value of a field.
#[derive(Debug, Default, Drop)]
pub struct Entry {
    pub id: Id,
    pub value: Value,
}

/// At most 64 values, each with its field.
#[derive(Debug, Drop)]
pub struct Record {
    entries: ArrayVec<Entry, 64>,
}

impl Model for Record {
    ghost use Rattle.std.specs.Prelude.{◌≤◌, length};
    ghost use Rattle.tv_model.specs.Log.Record.{Entries};

    ghost Value = { Entries };

    ghost view = { λ r. r.entries.items };

    ghost invariant = { λ r. length r.entries.items ≤ 64 };
}

impl Record {
    /// Makes a record without values.
    pub fn new() -> Record
        ensures { result ≡ [] }
    {
        Record {
            entries: ArrayVec::new(),
        }
    }

    /// Returns the number of values.
    pub fn len(&self) -> usize
        ensures value { result ≡ length self.now }
        ensures within { length self.now ≤ 64 }
    {
        self.entries.len()
    }

    fn place_of(&self, id: Id) -> Option<usize>
        ensures { result ≡ position (λ e. e.id.0 == id.0) self.now }
    {
        self.entries.iter().position(|entry| entry.id == id)
    }

    /// Finds the value of a field.
    pub fn value(&self, id: Id) -> Option<&Value>
        ensures { option_copied result ≡ value_of self.now id.0 }
    {
        match self.place_of(id) {
            Some(place) => Some(&self.entries[place].value),
            None => None,
        }
    }

    /// Gives a field its value. The other fields keep theirs.
    pub fn put(&mut self, id: Id, value: Value)
        requires { IsSome (value_of self.old id.0) ⊎ (length self.old < 64) }
        ensures entries { self.new ≡ with_value self.old id value }
        ensures values { (field : ℕ) → value_of self.new field
            ≡ (if field == id.0 then Some value else value_of self.old field) }
    {
        match self.place_of(id) {
            Some(place) => {
                let entry = &mut self.entries[place];
                entry.value = value;
            }
            None => self.entries.push(Entry { id, value }),
        }
    }
}
