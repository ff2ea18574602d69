//! Conditions of rules.

ghost use Rattle.std.specs.Prelude.{◌≡◌, ◌-◌, ◌/◌, ◌%◌, ◌^◌, ◌==◌, Some};
ghost use Rattle.tv_model.specs.Kinds.Cluster.{is_marked};
ghost use Rattle.tv_dialog.specs.Plan.{is_met, value_at};

use tv_model::{Id, Record, Value};

/// The condition that an item of a cluster is marked.
#[derive(Clone, Copy, Debug)]
pub(crate) struct Condition {
    /// Where the description has no such cluster, the condition is never met.
    pub(crate) cluster: Option<Id>,
    /// Counted from 1. One that isn't there is never marked, 0 among them.
    pub(crate) item: u32,
}

// Whether the item, from 1, is among the marks: bit 0 is the first item.
fn has_mark(marks: u16, item: u32) -> bool
    ensures { result ≡ ((marks / 2 ^ (item - 1)) % 2 == 1) }
{
    let place = item.saturating_sub(1);
    place < 16 && (marks >> place) % 2 == 1
}

// Whether the item, from 1, is marked.
fn is_marked(value: &Value, item: u32) -> bool
    ensures { result ≡ is_marked (Some value.now) item }
{
    match value {
        Value::Text(_) => false,
        Value::Marks(marks) => has_mark(*marks, item),
        Value::Item(marked) => u32::from(*marked) == item,
    }
}

impl Condition {
    // Whether the record has the item marked, where 0 is read as 1.
    fn is_marked(self, marks: &Record) -> bool
        ensures { result ≡ is_marked (value_at marks.now self.cluster) self.item }
    {
        match self.cluster {
            Some(cluster) => match marks.value(cluster) {
                Some(value) => is_marked(value, self.item),
                None => false,
            },
            None => false,
        }
    }

    /// Whether the record has the item marked. No record has an item 0.
    pub(crate) fn is_met(self, marks: &Record) -> bool
        ensures { result ≡ is_met marks.now self }
    {
        self.item > 0 && self.is_marked(marks)
    }
}
