//! Events in words.

use std::alloc::{AllocError, Global};
use tv_advice::Met;
use tv_event::Event;
use tv_io::{Gathering, Pen};
use tv_ways::{put_events, put_script};

// The text that was written into memory.
fn text_in(alloc: Global, out: Gathering) -> Result<String, AllocError> {
    let bytes = out.into_bytes();
    match str::from_utf8(bytes.as_slice()) {
        Ok(text) => String::from_str(alloc, text),
        Err(_) => Ok(String::new(alloc)),
    }
}

/// How events are written.
#[derive(Clone, Copy)]
enum Form {
    /// In a line, with semicolons between.
    Line,
    Script,
}

fn written(alloc: Global, events: &[Event], form: Form) -> Result<String, AllocError> {
    let mut out = Gathering::new(alloc);
    let mut pen = Pen {
        out: &mut out,
        stopped: false,
    };
    match form {
        Form::Line => put_events(&mut pen, events),
        Form::Script => put_script(&mut pen, events),
    }
    if pen.stopped {
        return Err(AllocError);
    }
    text_in(alloc, out)
}

/// Returns the words of the events, in a line and as a script.
pub(crate) fn met_by(alloc: Global, events: &[Event]) -> Result<Met, AllocError> {
    Ok(Met {
        way: written(alloc, events, Form::Line)?,
        script: written(alloc, events, Form::Script)?,
    })
}
