//! How often the program asks for the views of a description.

use crate::endings::{ACCEPT, CHECK, PICTURE_ALL, PLAY, RUN};
use crate::gallery::Gallery;
use crate::shelf::Shelf;
use crate::sink::Sink;
use crate::user::User;
use std::alloc::Global;
use std::cell::Cell;
use std::test::Fail;
use tv_check::Checked;
use tv_controls::Button;
use tv_files::{DirectStream, Task, World, run_program};
use tv_session::{BuildFault, Views};
use tv_test_support::button_views::{buttons, no_views};
use tv_test_support::certificates::CANCEL_CERTIFICATE;
use tv_test_support::descriptions::{CANCEL, ORDER, WITHOUT_CANCEL};

// The status of a task on these two texts, and how often the views were made.
fn status_and_calls<M: Fn(Global, &Checked) -> Result<Views<Button>, BuildFault>>(
    alloc: Global,
    task: Task<'_>,
    texts: (&str, &str),
    make: &M,
) -> (u8, u32)
    requires { M.IsAlwaysCallable make.now }
{
    let calls = Cell::new(0u32);
    let counted = |alloc: Global, checked: &Checked| -> Result<Views<Button>, BuildFault> {
        calls.set(calls.get().saturating_add(1));
        make(alloc, checked)
    };
    let mut world = World {
        files: Shelf::new(texts.0, texts.1),
        album: Gallery::new(alloc, 9),
        pieces: User::silent(),
        out: DirectStream::new(Sink::new(alloc, 1000, true)),
        err: DirectStream::new(Sink::new(alloc, 1000, true)),
    };
    let status = run_program(alloc, Ok(task), &counted, &mut world);
    (status, calls.get())
}

// What is asked for, the description, the text beside it, then the status and how often the views were made: once where a
// sound description is run, whatever its script is, or played.
const TASKS: [(Task<'static>, &str, &str, (u8, u32)); 13] = [
    (CHECK, CANCEL, "", (0, 0)),
    (ACCEPT, CANCEL, CANCEL_CERTIFICATE, (0, 0)),
    (RUN, CANCEL, "", (0, 1)),
    (RUN, CANCEL, "key Tab\nshot\nkey Esc\n", (0, 1)),
    (RUN, CANCEL, "key Foo\n", (1, 1)),
    (RUN, ORDER, "key Esc\n", (1, 1)),
    (RUN, WITHOUT_CANCEL, "key Esc\n", (1, 0)),
    (RUN, "tvd 1\n", "key Esc\n", (1, 0)),
    (PICTURE_ALL, CANCEL, "shot\nshot\n", (0, 1)),
    (PICTURE_ALL, WITHOUT_CANCEL, "shot\n", (1, 0)),
    (PLAY, CANCEL, "", (4, 1)),
    (PLAY, ORDER, "", (1, 1)),
    (PLAY, WITHOUT_CANCEL, "", (1, 0)),
];

#[test]
fn views_are_made_once(rt: HostRuntime) {
    for &(task, description, beside, wanted) in &TASKS {
        let found = status_and_calls(rt.alloc(), task, (description, beside), &buttons);
        assert_eq!(rt; found, wanted, "{task:?}: {beside}");
    }
}

// Views that are refused aren't made a second time.
#[test]
fn refused_views_are_made_once(rt: HostRuntime) {
    let found = status_and_calls(rt.alloc(), RUN, (CANCEL, "key Esc\n"), &no_views);
    assert_eq!(rt; found, (1, 1));
}
