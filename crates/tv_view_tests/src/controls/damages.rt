//! What controls damage: their own rectangle, or nothing.

use super::bench::{NEAR, Table, expect_played};
use std::test::Fail;

// No event shows on a text, a label or a button, and no value is theirs. Their looks go by what they are lent.
const BUTTONS: &str = r#"text 2 1 4 1 "ab"
type "a"; damage; down 2 1; damage; press 1; set "x"; leave; damage
=> pass, intact, pass, intact, 1 fresh, other, intact
text 2 1 4 1 "ab"
hide; damage; hide; damage; lend window; damage; show; damage; lend window; damage; lend idle; damage
=> damaged, intact, intact, damaged, damaged, intact
label 2 1 8 "~A~mount" amount
input amount 12 1 8 4 any ""
pre; key Alt-A; down 2 1; enter; press 1; leave; damage
=> focus 6, focus 6, pass, 1 fresh, other, intact
label 2 1 8 "~A~mount" amount
input amount 12 1 8 4 any ""
lend 6; damage; lend 4; damage; lend window; damage; lend idle; damage; hide; damage; lend 6; damage
=> damaged, intact, damaged, intact, damaged, intact
button b 2 1 10 "~G~o" 120
focus; type " "; down 5 1; move 0 0; up 5 1; key Enter; leave; default; enter; damage
=> own, post 5 120, capture 5, done, post 5 120, pass, other, post 5 120, intact
button b 2 1 10 "~G~o" 120
set "x"; press 1; damage; disable; damage; disable; damage; enable; damage; hide; damage; enable; damage
=> 1 fresh, intact, damaged, intact, damaged, damaged, damaged
button b 2 1 10 "~G~o" 120
lend 5; damage; lend 4; damage; lend default; damage; lend window; damage; lend idle; damage
=> damaged, intact, damaged, damaged, intact
button b 2 1 10 "~G~o" 120
hide; damage; lend 5; lend default; lend window; damage; show; focus; damage; lend 5; damage; lend 4; damage
=> damaged, intact, own, damaged, intact, damaged
"#;

// Of an input the text and the cursor show, and while it has the focus what is selected.
const INPUTS: &str = r#"input t 2 1 10 4 any "abc"
focus; damage; focus; damage; key End; damage; key Tab; damage; leave; damage; leave; damage
=> own, damaged, own, intact, done, damaged, pass, intact, other, damaged, other, intact
input t 2 1 10 4 any "abc"
focus; damage; type "x"; damage; down 5 1; damage; move 4 1; damage; up 4 1; damage; press 1; damage
=> own, damaged, done "x", damaged, capture 5, damaged, done, damaged, release, damaged, 61 "x", intact
input t 2 1 10 4 any "abc"
enter; pre; key Alt-A; up 4 1; damage; set "xy"; damage; hide; damage; lend 5; damage
=> pass, pass, pass, intact, damaged, damaged, intact
input t 2 1 10 4 any "abc"
set "xy"; damage; lend 5; damage; lend 4; damage; lend window; damage; lend idle; damage; enable; damage
=> damaged, damaged, intact, damaged, intact, intact
"#;

// Where clusters and lists take an event, whether or not it changes them; a pressed item; a value that they open with.
const CHOICES: &str = r#"checks k 2 1 10 "~G~ift" "~N~ote"
focus; damage; type " "; damage; key Down; damage; key Left; damage; enter; damage; leave; damage
=> own, intact, changed 5 1, damaged, done, damaged, pass, intact, pass, intact, other, intact
checks k 2 1 10 "~G~ift" "~N~ote"
focus; down 3 1; damage; move 0 0; damage; up 3 1; damage; up 3 1; move 3 1; damage
=> own, capture 5, damaged, done, damaged, changed 5 1, damaged, pass, pass, intact
checks k 2 1 10 "~G~ift" "~N~ote"
press 2; damage; press 3; press 0; damage; pre; key Alt-X; damage; key Alt-N; damage
=> 1 10, damaged, 1 10, 1 10, intact, pass, intact, focus 5 item 2, damaged
checks k 2 1 10 "~G~ift" "~N~ote"
set 1; damage; hide; damage; lend 5; damage; show; damage; lend 5; damage; lend 4; damage; lend window; damage
=> damaged, damaged, intact, damaged, damaged, intact, damaged
radios r 2 1 10 "~R~ed" "~B~lue" start 2
focus; damage; key Up; damage; key Left; damage; type "b"; damage; type "x"; damage; leave; damage
=> own, intact, changed 5 1, damaged, pass, intact, changed 5 2, damaged, pass, intact, other, intact
radios r 2 1 10 "~R~ed" "~B~lue" start 2
press 1; damage; press 3; damage; down 3 1; damage; focus; down 3 1; up 3 0; damage; up 3 1; damage
=> 1 1, damaged, 1 1, intact, focus 5, damaged, own, capture 5, release, damaged, pass, intact
radios r 2 1 10 "~R~ed" "~B~lue" start 2
set 1; damage; hide; damage; hide; lend 5; damage; show; damage; lend 5; damage; lend window; damage; lend idle; damage
=> damaged, damaged, intact, damaged, damaged, damaged, intact
list l 2 1 8 3 "a" "b" "c" "d" start 1
focus; damage; key Down; damage; key Up; damage; key Left; damage; type "a"; damage; leave; damage
=> own, intact, done 2, damaged, done 1, damaged, pass, intact, pass, intact, other, intact
list l 2 1 8 3 "a" "b" "c" "d" start 1
move 2 2; damage; focus; down 2 2; damage; move 2 3; damage; up 2 3; damage; press 2; damage
=> pass, intact, own, capture 5 2, damaged, done 3, damaged, release, damaged, 61 3, intact
list l 2 1 8 3 "a" "b" "c" "d" start 1
set 4; damage; lend 5; damage; lend 4; damage; lend window; damage; hide; damage; lend 5; damage; disable; damage
=> damaged, damaged, intact, damaged, damaged, intact, damaged
"#;

const TABLES: [Table; 3] = [
    Table {
        playing: NEAR,
        before: "",
        rows: BUTTONS,
    },
    Table {
        playing: NEAR,
        before: "",
        rows: INPUTS,
    },
    Table {
        playing: NEAR,
        before: "",
        rows: CHOICES,
    },
];

#[test]
fn what_controls_damage(rt: HostRuntime) -> Result<(), Fail> {
    expect_played(rt.alloc(), &TABLES)
}
