//! Check boxes and radio buttons.

use super::bench::{FAR, NEAR, Table, expect_played};
use std::test::Fail;

const CHECKS: &str = r#"checks k 2 1 10 "~G~ift" "~N~ote" "Plain" start 1 3
"#;

// Up and Down wrap, Space and an item's letter flip, and the letter asks for the item from any focus.
const CHECK_KEYS: &str =
    r#"facts; state; focus; state; key Up; type " "; key Down; type " "; key Down; type " "; leave; state
=> line 5 2 1 12 4 35, 1 101 fresh, own, 61 101, done, changed 5 1, done, changed 5 0, done, changed 5 10, other, 1 10
focus; type "nN"; type " "; type "gp"; type " x"
=> own, changed 5 111, changed 5 101, changed 5 111, changed 5 110, pass, changed 5 111, pass
focus; key Left; key Right; key Home; key End; key PgUp; key PgDn; key Enter; key Tab; key Esc; key Alt-N; key Ins
=> own, pass, pass, pass, pass, pass, pass, pass, pass, pass, pass, pass
pre; key Alt-N; key Alt-G; key Alt-P; type "n "; key Up; enter
=> focus 5 item 2, focus 5 item 1, pass, pass, pass, pass, pass
post; type "nGp "; key Alt-N; key Down; state
=> focus 5 item 2, focus 5 item 1, pass, pass, pass, pass, 1 101 fresh
press 2; press 3; press 4; press 0; focus; type " "; key Down; type " "
=> 1 111, 1 11, 1 11, 1 11, own, changed 5 111, done, changed 5 110
"#;

// An up on the row of the down presses its item, inside the rectangle alone.
const CHECK_MOUSE: &str =
    r#"down 3 2; up 3 2; focus; down 3 2; state; move 3 3; move 0 0; up 11 2; state; up 3 2; move 3 2
=> focus 5, pass, own, capture 5, 61 101 held, done, done, changed 5 111, 61 111, pass, pass
focus; down 2 1; up 2 1; down 11 3; up 11 3; type " "
=> own, capture 5, changed 5 100, capture 5, changed 5 0, changed 5 100
focus; down 3 2; up 3 3; down 3 2; up 3 1; down 3 2; up 1 2; down 3 2; up 12 2; state; type " "
=> own, capture 5, release, capture 5, release, capture 5, release, capture 5, release, 61 101, changed 5 100
focus; down 3 1; up 3 0; down 3 3; up 3 4; down 3 3; leave; state; hide; state
=> own, capture 5, release, capture 5, release, capture 5, other, 1 101 held, 0 101 held
"#;

// Points that are in the row of the down when they are taken in 16 bits.
const CHECK_FAR: &str =
    r#"focus; down 65539 65538; up 3 65538; down 65539 65538; up 65539 2; down 65539 65538; up 131075 65538
=> own, capture 5, release, capture 5, release, capture 5, release
focus; down 65539 65538; move 0 0; up 70000 70000; down 65539 65538; up 65539 65538
=> own, capture 5, done, release, capture 5, changed 5 111
"#;

const SIXTEEN: &str =
    r#"checks k 2 1 5 "a" "a" "a" "a" "a" "a" "a" "a" "a" "a" "a" "a" "a" "a" "a" "ä" start 16
"#;

const SIXTEEN_BOXES: &str = r#"state; focus; key Up; type "  "
=> 1 1000000000000000 fresh, own, done, changed 5 0, changed 5 1000000000000000
focus; key Up; key Down; type " "; press 8; facts
=> own, done, done, changed 5 1000000000000001, 61 1000000010000001, line 5 2 1 7 17 35
"#;

// Faces, the narrowest cluster, one item, and two items of which none is marked.
const FACES: &str = r#"checks k 2 1 9 "~G~ift" "d~N~ote" start 2
shot; colors; focus; colors; key Down; colors; hide; shot; colors
=> :[ ] Gift :
=> :[X] dNote:
=> :303030303e30303030:
=> :30303030303e303030:
=> own
=> :3f3f3f3f3e3f3f3f3f:
=> :30303030303e303030:
=> done
=> :303030303e30303030:
=> :3f3f3f3f3f3e3f3f3f:
=> :         :
=> :         :
=> :000000000000000000:
=> :000000000000000000:
checks k 2 1 9 "a" "b"
state; focus; key Up; type " "; key Down; type " "
=> 1 0 fresh, own, done, changed 5 10, done, changed 5 11
checks k 2 1 5 "éa"
shot; focus; key Up; key Down; type " "; shot; disable; state
=> :[ ] é:
=> own, done, done, changed 5 1
=> :[X] é:
=> 61 1
radios r 2 1 9 "~R~ed" "Bl~u~e" start 2
shot; colors; focus; colors; key Up; shot; colors; hide; shot
=> :( ) Red  :
=> :(*) Blue :
=> :303030303e30303030:
=> :3030303030303e3030:
=> own
=> :303030303e30303030:
=> :3f3f3f3f3f3f3e3f3f:
=> changed 5 1
=> :(*) Red  :
=> :( ) Blue :
=> :3f3f3f3f3e3f3f3f3f:
=> :3030303030303e3030:
=> :         :
=> :         :
radios r 2 1 5 "äb" start 1
shot; focus; key Up; key Down; disable; state
=> :(*) ä:
=> own, changed 5, changed 5, 61 1
"#;

const RADIOS: &str = r#"radios r 2 1 10 "~R~ed" "~B~lue" "Plain" start 2
"#;

// The selected item is the marked one: Up, Down and letters mark it, and Space marks it again.
const RADIO_KEYS: &str =
    r#"facts; state; focus; key Down; key Down; key Up; key Up; key Up; state; leave; state
=> line 5 2 1 12 4 35, 1 2 fresh, own, changed 5 3, changed 5 1, changed 5 3, changed 5 2, changed 5 1, 61 1, other, 1 1
focus; type " r"; type "Bbpx"; state
=> own, changed 5, changed 5 1, changed 5 2, changed 5, pass, pass, 61 2
focus; key Left; key Right; key Home; key End; key PgUp; key PgDn; key Enter; key Tab; key Esc; key Alt-R; enter
=> own, pass, pass, pass, pass, pass, pass, pass, pass, pass, pass, pass
pre; key Alt-R; key Alt-P; type "r "; key Up; post; type "bRp "; key Alt-R; key Down; state
=> focus 5 item 1, pass, pass, pass, pass, focus 5 item 2, focus 5 item 1, pass, pass, pass, pass, 1 2 fresh
press 3; press 4; press 0; press 1; hide; press 2
=> 1 3, 1 3, 1 3, 1 1, 0 2
"#;

const RADIO_MOUSE: &str =
    r#"down 3 1; up 3 1; focus; down 3 1; state; move 3 3; up 2 1; state; up 3 3; move 3 3
=> focus 5, pass, own, capture 5, 61 2 held, done, changed 5 1, 61 1, pass, pass
focus; down 11 3; up 11 3; down 3 1; up 3 2; down 3 1; up 1 1; down 3 1; up 12 1; down 3 1; up 3 0; down 3 3; up 3 4
=> own, capture 5, changed 5 3, capture 5, release, capture 5, release, capture 5, release, capture 5, release, capture 5, release
"#;

const RADIO_FAR: &str =
    r#"focus; down 65538 65537; up 2 65537; down 65538 65537; up 65538 1; down 65538 65537; up 65538 65537
=> own, capture 5, release, capture 5, release, capture 5, changed 5 1
"#;

const CHECK_TABLES: [Table; 4] = [
    Table {
        playing: NEAR,
        before: CHECKS,
        rows: CHECK_KEYS,
    },
    Table {
        playing: NEAR,
        before: CHECKS,
        rows: CHECK_MOUSE,
    },
    Table {
        playing: FAR,
        before: CHECKS,
        rows: CHECK_FAR,
    },
    Table {
        playing: NEAR,
        before: SIXTEEN,
        rows: SIXTEEN_BOXES,
    },
];

#[test]
fn check_boxes(rt: HostRuntime) -> Result<(), Fail> {
    expect_played(rt.alloc(), &CHECK_TABLES)
}

const RADIO_TABLES: [Table; 4] = [
    Table {
        playing: NEAR,
        before: RADIOS,
        rows: RADIO_KEYS,
    },
    Table {
        playing: NEAR,
        before: RADIOS,
        rows: RADIO_MOUSE,
    },
    Table {
        playing: FAR,
        before: RADIOS,
        rows: RADIO_FAR,
    },
    Table {
        playing: NEAR,
        before: "",
        rows: FACES,
    },
];

#[test]
fn radio_buttons_and_faces(rt: HostRuntime) -> Result<(), Fail> {
    expect_played(rt.alloc(), &RADIO_TABLES)
}
