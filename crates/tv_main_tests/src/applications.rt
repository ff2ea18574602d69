//! An application of a description that is at every limit at once.

ghost use Rattle.tv_app.specs.Running.{Runs, Session};

use crate::at_limits::full_description;
use std::alloc::Global;
use std::test::Fail;
use tv_app::{App, Command, Event, Id, Key, Record, Text, Unset, Value, open};

// The most fields of a record.
const FIELDS: usize = 64;

// Gives the field a value, if it is there.
fn put(record: &mut Record, field: Option<Id>, value: Value) {
    if let Some(id) = field
        && record.len() < FIELDS
    {
        record.put(id, value);
    }
}

// A record of the last dialog, in which the inputs are empty.
fn emptied(alloc: Global, app: &App) -> Result<Record, Fail> {
    let mut record = Record::new();
    for field in 0_u32..61 {
        let name = format!(in alloc; "i{field}")?;
        put(
            &mut record,
            app.field("d15", &name),
            Value::Text(Text::new()),
        );
    }
    put(&mut record, app.field("d15", "r"), Value::Item(1));
    put(&mut record, app.field("d15", "l"), Value::Item(2));
    let marks = app.marks("d15", "k").unwrap_or(0);
    put(&mut record, app.field("d15", "k"), Value::Marks(marks));
    Ok(record)
}

// Gives the last dialog a record, and opens it.
fn reopen(alloc: Global, app: &mut App, record: Record) -> Result<(), Unset>
    requires { (s : Session) × Runs app.old s }
{
    if let Err(fault) = app.set(alloc, "d15", record) {
        return Err(fault.reason);
    }
    app.command(Command(115));
    Ok(())
}

// The dialog at the start is left; then the last one is given a record, and opened by a command.
#[test]
fn records_and_commands(rt: HostRuntime) -> Result<(), Fail> {
    let alloc = rt.alloc();
    let description = full_description(alloc)?;
    let mut app = open(alloc, description.as_bytes())?;
    app.step(&Event::Key(Key::Esc));
    let record = emptied(alloc, &app)?;
    let reopened = reopen(alloc, &mut app, record);
    assert!(rt; reopened.is_ok());
    assert!(rt; app.is_open("d15"));
    assert_eq!(rt; app.log().len(), 2);
    Ok(())
}
