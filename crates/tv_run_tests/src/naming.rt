//! Controls by their names, and values for them.

use std::test::Fail;
use tv_model::{Dialog, Id, Record, Value};

/// The line of the control of a name.
pub fn id_of(dialog: &Dialog, name: &str) -> Result<Id, Fail> {
    for view in dialog.views.as_slice() {
        if let Some(other) = view.kind.name() {
            if name.chars().eq(other.as_slice().iter().copied()) {
                return Ok(view.id);
            }
        }
    }
    Err("no view has the name".into())
}

/// Gives a field its value.
pub fn put(values: &mut Record, id: Id, value: Value) -> Result<(), Fail> {
    if values.len() >= 64 {
        return Err("the record is full".into());
    }
    values.put(id, value);
    Ok(())
}
