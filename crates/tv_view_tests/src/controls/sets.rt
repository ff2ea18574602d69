//! Controls that open with a value.

use super::bench::{NEAR, Table, expect_played};
use std::test::Fail;

// Any text that may stand in the input, also one outside its domain. What is typed in its place ends the selection.
const TEXTS: &str = r###"input t 2 1 10 4 any "abc"
set "xy"; state; shot; focus; shot; type "z"; state
=> 1 "xy"
=> : xy       :
=> own
=> : xy       :
=> done "z", 61 "z"
input t 2 1 10 4 any "abc"
set "xyzw"; state; focus; key Home; type "v"; key Del; type "v"; shot
=> 1 "xyzw", own, done, done, done "yzw", done "vyzw"
=> : vyzw     :
input t 2 1 10 4 any "abc"
set ""; state; shot; focus; type "é"; shot
=> 1 ""
=> :          :
=> own, done "é"
=> : é        :
input t 2 1 10 4 any "abc"
set "abc"; state
=> 1 "abc" fresh
input t 1 1 8 40 any ""
set "abcdefghij"; shot; focus; shot; leave; shot
=> : abcdef>:
=> own
=> :<fghij  :
=> other
=> : abcdef>:
input t 2 1 10 3 range 1 9 "5"
set "0"; state; focus; type "7"; state
=> 1 "0" invalid, own, done "7", 61 "7"
input t 2 1 10 5 picture "##/##" "12/34" fill
set "1"; state; focus; key End; type "2"; shot
=> 1 "1" invalid, own, done, done "12/"
=> : 12/      :
"###;

const MARKS: &str = r#"checks k 2 1 9 "~G~ift" "d~N~ote" start 2
set 1; state; shot; focus; type " "; state
=> 1 1
=> :[X] Gift :
=> :[ ] dNote:
=> own, changed 5 0, 61 0
checks k 2 1 9 "~G~ift" "d~N~ote" start 2
set 11; state; shot
=> 1 11
=> :[X] Gift :
=> :[X] dNote:
checks k 2 1 9 "~G~ift" "d~N~ote" start 2
set 0; state; shot; focus; key Down; type " "
=> 1 0
=> :[ ] Gift :
=> :[ ] dNote:
=> own, done, changed 5 10
checks k 2 1 9 "~G~ift" "d~N~ote" start 2
set 10; state
=> 1 10 fresh
"#;

// A list opens with the item in its last row, where that isn't among the first ones.
const ITEMS: &str = r#"radios r 2 1 9 "~R~ed" "Bl~u~e" start 2
set 1; state; shot; focus; key Down; shot
=> 1 1
=> :(*) Red  :
=> :( ) Blue :
=> own, changed 5 2
=> :( ) Red  :
=> :(*) Blue :
radios r 2 1 9 "~R~ed" "Bl~u~e" start 2
set 2; state; shot
=> 1 2 fresh
=> :( ) Red  :
=> :(*) Blue :
list l 2 1 3 3 "a" "b" "c" "d" "e" start 1
set 5; state; shot; focus; key Up; key Home; key Down; shot
=> 1 5
=> :c  :
=> :d  :
=> :e  :
=> own, done 4, done 3, done 4
=> :c  :
=> :d  :
=> :e  :
list l 2 1 3 3 "a" "b" "c" "d" "e" start 5
set 4; state; shot; colors
=> 1 4
=> :b  :
=> :c  :
=> :d  :
=> :303030:
=> :303030:
=> :3e3e3e:
list l 2 1 3 3 "a" "b" "c" "d" "e" start 5
set 1; state; shot
=> 1 1
=> :a  :
=> :b  :
=> :c  :
"#;

// What is no field has no value to open with, whatever a record has for its line.
const OTHERS: &str = r#"text 2 1 4 1 "ab"
set "x"; set 1; state; shot
=> 1 fresh
=> :ab  :
label 2 1 4 "~A~b" c
set "x"; set 1; state; shot
=> 1 fresh
=> :Ab  :
button b 2 1 6 "~G~o" 120
set "x"; set 1; state; shot; focus; type " "
=> 1 fresh
=> :[ Go ]:
=> own, post 5 120
"#;

const TABLES: [Table; 4] = [
    Table {
        playing: NEAR,
        before: "",
        rows: TEXTS,
    },
    Table {
        playing: NEAR,
        before: "",
        rows: MARKS,
    },
    Table {
        playing: NEAR,
        before: "",
        rows: ITEMS,
    },
    Table {
        playing: NEAR,
        before: "",
        rows: OTHERS,
    },
];

#[test]
fn controls_open_with_values(rt: HostRuntime) -> Result<(), Fail> {
    expect_played(rt.alloc(), &TABLES)
}
