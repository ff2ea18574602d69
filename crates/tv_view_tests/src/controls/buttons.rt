//! Buttons, labels and static texts.

use super::bench::{FAR, NEAR, Table, expect_played};
use std::test::Fail;

const GO: &str = r#"button b 2 1 10 "~G~o" 120
"#;

// Space in the focus, its letter before and after the focus, and the broadcast of Enter to the default button.
const KEYS: &str =
    r#"facts; state; focus; state; type " g"; key Enter; key Alt-G; key Down; leave; state
=> line 5 2 1 12 2 35, 1 fresh, own, 61, post 5 120, pass, pass, pass, pass, other, 1 fresh
pre; key Alt-G; key Alt-X; type "g "; key Ctrl-G
=> post 5 120, pass, pass, pass, pass
post; type "gGx "; key Alt-G
=> post 5 120, post 5 120, pass, pass, pass
enter; default; enter; hide; enter; show; disable; state; enter; enable; enter
=> pass, post 5 120, post 5 120, 101, pass, post 5 120
press 1; hide; state; show; state
=> 1 fresh, 0, 1 fresh
"#;

// It is held from the down on, and pressed where the up is inside.
const MOUSE: &str = r#"down 5 1; state; move 5 1; move 0 0; up 11 1; state; up 5 1; move 5 1
=> capture 5, 1 held, done, done, post 5 120, 1 fresh, pass, pass
down 2 1; up 2 1; down 2 1; up 12 1; down 2 1; up 1 1; down 2 1; up 5 0; down 2 1; up 5 2; state
=> capture 5, post 5 120, capture 5, release, capture 5, release, capture 5, release, capture 5, release, 1 fresh
"#;

const FAR_POINTS: &str =
    r#"down 65538 65537; up 65538 1; down 65538 65537; up 2 65537; down 65538 65537; up 2 1
=> capture 5, release, capture 5, release, capture 5, release
down 65538 65537; up 70000 70000; down 65538 65537; up 131074 65537; down 65538 65537; up 65538 65537
=> capture 5, release, capture 5, release, capture 5, post 5 120
"#;

// What a button shows, and what it gives.
const FACES: &str = r#"button b 2 1 10 "~G~o" 120
shot; colors; default; shot; colors; focus; shot; colors; disable; shot; colors; hide; shot; colors
=> :[   Go   ]:
=> :202020202e2020202020:
=> :<   Go   >:
=> :2b2b2b2b2e2b2b2b2b2b:
=> own
=> :<   Go   >:
=> :2f2f2f2f2e2f2f2f2f2f:
=> :<   Go   >:
=> :78787878787878787878:
=> :          :
=> :00000000000000000000:
button b 2 1 10 "abc" 100 default
shot; colors; disable; state; type " "
=> :[  abc   ]:
=> :20202020202020202020:
=> 1 fresh, post 5 100
button b 2 1 4 "äé~X~" 255
shot; colors; type " "; pre; key Alt-X
=> :[äé]:
=> :20202020:
=> post 5 255, post 5 255
button b 2 1 4 "" quit
shot; facts; type " "
=> :[  ]:
=> line 5 2 1 6 2 35, post 5 1
button b 2 1 9 "~G~rün" close grab
shot; down 2 1; up 2 1; focus; down 2 1; up 10 1; down 10 1; up 11 1
=> :[ Grün  ]:
=> focus 5, pass, own, capture 5, post 5 4, capture 5, release
"#;

// Labels for a control before them and for one after them, or in a pane; cut to one column.
const LABELS: &str = r#"label 2 1 8 "~A~mount" amount
input amount 12 1 8 4 any ""
facts; state; pre; key Alt-A; key Alt-X; type "a"; main; type "a"; key Alt-A; post; type "aAx"; key Alt-A; main; type " "
=> line 5 2 1 10 2 30, 1 fresh, focus 6, pass, pass, pass, pass, focus 6, focus 6, pass, pass, pass
label 2 1 8 "~A~mount" amount
input amount 12 1 8 4 any ""
down 2 1; up 2 1; down 9 1; move 2 1; enter; focus; press 1; disable; state; hide; state; shot
=> focus 6, pass, focus 6, pass, pass, other, 1 fresh, 1 fresh, 0
=> :        :
label 2 1 8 "~A~mount" c
shot; colors; leave; shot; colors; down 70000 70000
=> :Amount  :
=> :7e70707070707070:
=> other
=> :Amount  :
=> :7e7f7f7f7f7f7f7f:
=> focus 4
label 2 1 1 "é~A~" q
pane p 2 2 20 1
input q 0 0 8 4 any ""
end
shot; colors; pre; key Alt-A
=> :é:
=> :70:
=> focus 7
label 2 1 3 "abc" c
shot; colors; pre; key Alt-A; post; type "a"
=> :abc:
=> :707070:
=> pass, pass
"#;

// Static texts answer to nothing, and show a piece in each row.
const TEXTS: &str = r#"text 2 1 6 2 "ab\ncdefghij\nx"
facts; state; shot; colors; hide; shot; state; show; state
=> line 5 2 1 8 3 0, 1 fresh
=> :ab    :
=> :cdefgh:
=> :707070707070:
=> :707070707070:
=> :      :
=> :      :
=> 0, 1 fresh
text 2 1 1 3 "ä\n"
shot; type " a"; key Tab; pre; key Alt-A; post; type "a"; main; enter; down 2 1; move 2 1; up 2 1; down 70000 70000
=> :ä:
=> : :
=> : :
=> pass, pass, pass, pass, pass, pass, pass, pass, pass, pass
text 2 1 4 1 ""
focus; state; press 1; disable; state; leave; shot
=> other, 1 fresh, 1 fresh, 1 fresh, other
=> :    :
"#;

const TABLES: [Table; 6] = [
    Table {
        playing: NEAR,
        before: GO,
        rows: KEYS,
    },
    Table {
        playing: NEAR,
        before: GO,
        rows: MOUSE,
    },
    Table {
        playing: FAR,
        before: GO,
        rows: FAR_POINTS,
    },
    Table {
        playing: NEAR,
        before: "",
        rows: FACES,
    },
    Table {
        playing: NEAR,
        before: "",
        rows: LABELS,
    },
    Table {
        playing: NEAR,
        before: "",
        rows: TEXTS,
    },
];

#[test]
fn buttons_labels_and_texts(rt: HostRuntime) -> Result<(), Fail> {
    expect_played(rt.alloc(), &TABLES)
}
