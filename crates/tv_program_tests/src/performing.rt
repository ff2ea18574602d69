//! Scripts that are performed as far as a writer takes their output.

use crate::makers::{checked, session};
use std::alloc::Global;
use std::test::Fail;
use tv_model::Id;
use tv_script::{Script, perform};
use tv_test_support::Memory;
use tv_test_support::button_views::buttons;

const TWO_BUTTONS: &str = r#"tvd 1
screen 20 10
start a
dialog a 2 2 14 4 "Q" ends cancel
button c 2 1 10 "~C~all" 120
button g 2 2 10 "~G~o" 121
end
"#;

fn script(alloc: Global, text: &str) -> Result<Script, Fail> {
    Ok(Script::parse(alloc, text.as_bytes(), 20, 10)?)
}

// How many items of a script were begun where the writer took so many bytes, unless all was written, and the line of the control
// that has the focus then.
fn begun(
    alloc: Global,
    script: &Script,
    room: usize,
    most_a_call: usize,
) -> Result<(Option<usize>, Option<Id>), Fail> {
    let mut out = Memory::new(alloc, room, most_a_call)?;
    let checked = checked(alloc, TWO_BUTTONS)?;
    let views = buttons(alloc, &checked)?;
    let mut session = session(alloc, checked, views)?;
    let begun = perform(&mut session, script, &mut out).err();
    Ok((begun, session.focus()))
}

// The log of the start has 15 bytes, that of Tab 8, and that of a space 20. Nothing is performed after the item at which the
// writer failed, and it is no matter how much the writer takes at once.
#[test]
fn begun_items(rt: HostRuntime) -> Result<(), Fail> {
    for &(text, room, wanted, line) in &[
        ("key Tab\ntype \"  \"\n", 0, Some(0), 5),
        ("key Tab\ntype \"  \"\n", 14, Some(0), 5),
        ("key Tab\ntype \"  \"\n", 15, Some(1), 6),
        ("key Tab\ntype \"  \"\n", 23, Some(2), 6),
        ("key Tab\ntype \"  \"\n", 43, Some(3), 6),
        ("key Tab\ntype \"  \"\n", 62, Some(3), 6),
        ("key Tab\ntype \"  \"\n", 63, None, 6),
        ("type \"  \"\nkey Tab\n", 15, Some(1), 5),
        ("type \"  \"\nkey Tab\n", 54, Some(2), 5),
        ("type \"  \"\nkey Tab\n", 55, Some(3), 6),
        ("type \"\"\nshot\n", 15, Some(1), 5),
    ] {
        let script = script(rt.alloc(), text)?;
        for most_a_call in [1, 1000] {
            let found = begun(rt.alloc(), &script, room, most_a_call)?;
            assert_eq!(rt; found, (wanted, Some(Id(line))), "{text} at {room}");
        }
    }
    Ok(())
}
