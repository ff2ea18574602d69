//! As many things as there may be, and more: the first that is too many is named.

use std::alloc::Global;
use std::test::Fail;
use tv_test_support::expect_finding;

// A description of like things. Each of them is made of two texts with its number, from 1, between them.
#[derive(Clone, Copy)]
struct Things<'a> {
    before: &'a str,
    each: (&'a str, &'a str),
    after: &'a str,
}

// Sees to it that there may be so many things and no more.
fn expect_most(alloc: Global, things: Things<'_>, most: usize, too_many: &str) -> Result<(), Fail> {
    for (more, wanted) in [(0, "sound"), (1, too_many), (2, too_many)] {
        let mut text = String::new(alloc);
        text.push_str(things.before)?;
        for number in 1..=most.saturating_add(more) {
            let (begin, end) = things.each;
            let piece = format!(in alloc; "{begin}{number}{end}")?;
            text.push_str(&piece)?;
        }
        text.push_str(things.after)?;
        expect_finding(alloc, &text, wanted)?;
    }
    Ok(())
}

#[test]
fn menus(rt: HostRuntime) -> Result<(), Fail> {
    let things = Things {
        before: "tvd 1\nscreen 40 14\n",
        each: ("menu \"m", "\"\nitem \"\" 100\nend\n"),
        after: "",
    };
    expect_most(rt.alloc(), things, 8, "F15 line 27")
}

#[test]
fn menu_items(rt: HostRuntime) -> Result<(), Fail> {
    let things = Things {
        before: "tvd 1\nscreen 40 14\nmenu \"\"\n",
        each: ("item \"i", "\" 100\n"),
        after: "end\n",
    };
    expect_most(rt.alloc(), things, 16, "F15 line 20")
}

#[test]
fn status_items(rt: HostRuntime) -> Result<(), Fail> {
    let things = Things {
        before: "tvd 1\nscreen 40 14\n",
        each: ("status \"\" F", " 100\n"),
        after: "",
    };
    expect_most(rt.alloc(), things, 8, "F15 line 11")
}

#[test]
fn windows(rt: HostRuntime) -> Result<(), Fail> {
    let things = Things {
        before: "tvd 1\nscreen 40 14\n",
        each: ("window w", " 1 1 12 3 0 \"\"\nend\n"),
        after: "",
    };
    expect_most(rt.alloc(), things, 9, "F15 line 21")
}

#[test]
fn views_of_windows(rt: HostRuntime) -> Result<(), Fail> {
    let things = Things {
        before: "tvd 1\nscreen 40 14\nwindow w 1 1 12 3 0 \"\"\n",
        each: ("text 1 1 4 1 \"t", "\"\n"),
        after: "end\n",
    };
    expect_most(rt.alloc(), things, 64, "F15 line 68")
}

#[test]
fn dialogs(rt: HostRuntime) -> Result<(), Fail> {
    let things = Things {
        before: "tvd 1\nscreen 40 14\n",
        each: (
            "dialog d",
            " 1 1 12 3 \"\" ends cancel\nbutton c 1 1 4 \"\" cancel\nend\n",
        ),
        after: "",
    };
    expect_most(rt.alloc(), things, 16, "F15 line 51")
}

// The button before them counts, and the pane that they are in.
#[test]
fn views_of_dialogs(rt: HostRuntime) -> Result<(), Fail> {
    let things = Things {
        before: r#"tvd 1
screen 40 14
dialog d 2 2 36 11 "" ends cancel
button c 1 1 10 "" cancel
pane p 1 2 8 1
"#,
        each: ("label 0 0 4 \"l", "\" c\n"),
        after: "end\nend\n",
    };
    expect_most(rt.alloc(), things, 62, "F15 line 68")
}

// The number of each rule stands in a comment, which is no line of the canonical text.
#[test]
fn rules(rt: HostRuntime) -> Result<(), Fail> {
    let things = Things {
        before: r#"tvd 1
screen 40 14
dialog d 2 2 36 11 "" ends cancel
button c 1 1 10 "" cancel
checks k 1 2 8 "a"
"#,
        each: ("#", "\nenable 100 when k 1\n"),
        after: "end\n",
    };
    expect_most(rt.alloc(), things, 64, "F15 line 70")
}

#[test]
fn items_of_check_boxes(rt: HostRuntime) -> Result<(), Fail> {
    let things = Things {
        before: r#"tvd 1
screen 40 30
dialog d 2 2 36 26 "" ends cancel
checks k 1 2 8"#,
        each: (" \"a", "\""),
        after: "\nend\n",
    };
    expect_most(rt.alloc(), things, 16, "F15 line 4")
}

#[test]
fn items_of_radio_buttons(rt: HostRuntime) -> Result<(), Fail> {
    let things = Things {
        before: r#"tvd 1
screen 40 30
dialog d 2 2 36 26 "" ends cancel
radios r 1 2 8"#,
        each: (" \"a", "\""),
        after: " start 1\nend\n",
    };
    expect_most(rt.alloc(), things, 16, "F15 line 4")
}

#[test]
fn items_of_lists(rt: HostRuntime) -> Result<(), Fail> {
    let things = Things {
        before: r#"tvd 1
screen 40 14
dialog d 2 2 36 11 "" ends cancel
list l 1 2 8 3"#,
        each: (" \"a", "\""),
        after: " start 1\nend\n",
    };
    expect_most(rt.alloc(), things, 100, "F15 line 4")
}
