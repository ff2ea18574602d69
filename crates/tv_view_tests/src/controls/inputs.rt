//! Input lines.

use super::bench::{FAR, NEAR, Table, expect_played};
use std::test::Fail;

// What is typed and taken out, at both ends of the text, with and without a selection, inserting and overwriting.
const FOCUSED: &str = r#"input t 2 1 10 4 any "abc"
focus; "#;

const KEYS: &str = r#"key Left; type "X"; key Ins; type "YZ"; key Home; key Del
=> own, done, done "abXc", done, done "abXY", done, done, done "bXY"
key Right; type "x"
=> own, done, done "abcx"
key Left; key Left; key Left; key Left; type "x"
=> own, done, done, done, done, done "xabc"
key Home; type "x"; key End; type "y"; key Right; key Backspace
=> own, done, done "xabc", done, done, done, done "xab"
type "é"; type "ä漢"; key Backspace; type " "; state
=> own, done "é", done "éä", done, done "é", done "é ", 61 "é "
key Backspace; key Backspace; key Backspace; key Backspace; type "x"
=> own, done "ab", done "a", done "", done, done "x"
key Del; key Del; type "x"; key Del; key Home; key Del; key Del
=> own, done "", done, done "x", done, done, done "", done
key End; key Del; key Left; key Del; key Home; key Backspace; key Del
=> own, done, done, done, done "ab", done, done, done "b"
key Ctrl-Y; key Ctrl-Y; type "x"; key Left; key Ctrl-Y; type "y"
=> own, done "", done, done "x", done, done "", done "y"
key Ins; key Home; type "xyzw"; type "v"; key Backspace; key Left; key Ins; type "v"
=> own, done, done, done "xbc", done "xyc", done "xyz", done "xyzw", done, done "xyz", done, done, done "xyvz"
key Ins; leave; focus; type "x"; leave; focus; key Home; type "y"; type "z"
=> own, done, other, own, done "x", other, own, done, done "y", done "yz"
leave; focus; focus; type "x"; leave; state
=> own, other, own, own, done "x", other, 1 "x"
key Left; focus; type "x"
=> own, done, own, done "abxc"
key Up; key Down; key PgUp; key PgDn; key Ctrl-PgUp; key Ctrl-PgDn; key Tab; key Shift-Tab; key Enter; key Esc; enter
=> own, pass, pass, pass, pass, pass, pass, pass, pass, pass, pass, pass
key Ctrl-A; key Ctrl-X; key Ctrl-Z; key F1; key F12; key Alt-Y; key Alt-0; press 1; type "x"
=> own, pass, pass, pass, pass, pass, pass, pass, 61 "abc", done "x"
pre; type "x"; key Alt-Y; key Del; key Ctrl-Y; post; type "x"; key Left; key Ctrl-Y; main; type "x"
=> own, pass, pass, pass, pass, pass, pass, pass, done "x"
"#;

// What each domain takes while it is typed, what it says of the whole, and how far a picture is filled.
const DOMAINS: &str = r###"input t 2 1 10 8 picture "*3#[-*2&]" ""
focus; type "123-abc"; state
=> own, done "1", done "12", done "123", done "123-", done "123-A", done "123-AB", done, 61 "123-AB"
input t 2 1 10 5 picture "##/##" "" fill
focus; type "1234"; state; key Backspace; state; type "5"
=> own, done "1", done "12/", done "12/3", done "12/34", 61 "12/34", done "12/3", 61 "12/3" invalid, done "12/35"
input t 2 1 10 5 picture "##/##" "" fill
focus; type "12/34"
=> own, done "1", done "12/", done, done "12/3", done "12/34"
input t 2 1 10 5 picture "##/##" "12/34" fill
focus; key Home; key Right; key Right; key Backspace; key Del; key Right; key Backspace; type "9"; state
=> own, done, done, done, done, done, done, done, done, 61 "12/34"
input t 2 1 10 5 picture "##/##" "12/34" fill
focus; type "x"; type "5"; key Ins; type "6x7"; key Home; type "9"
=> own, done, done "5", done, done "56/", done, done "56/7", done, done "96/7"
input t 2 1 10 5 picture "##/##" "1" fill
focus; key Ins; key Left; type "2"; key Home; key Ins; type "3"
=> own, done, done, done "2", done, done, done "32"
input t 2 1 10 2 picture "##/##,#" "1" fill
state; focus; key End; type "2"; state
=> 1 "1" fresh, own, done, done "12", 61 "12" invalid
input t 2 1 10 3 range 1 9 ""
state; focus; type "-+a10"; state; hide; state; leave; state
=> 1 "" invalid fresh, own, done, done "+", done, done "+1", done "+10", 61 "+10" invalid, 60 "+10" invalid, other, 0 "+10" invalid
input t 2 1 10 3 range 1 9 "5" validate
facts; focus; type "a7"; state; type "0"; state; key Ctrl-Y; state
=> line 5 2 1 12 2 405, own, done, done "7", 61 "7", done "70", 61 "70" invalid, done "", 61 "" invalid
input t 2 1 10 3 range -5 5 "" optional
facts; state; focus; type "-+-5"; key Home; key Del; key Del; type "3"; state
=> line 5 2 1 12 2 5, 1 "" fresh, own, done "-", done "-+", done "-+-", done, done, done "+-", done "-", done "3-", 61 "3-" invalid
input t 2 1 10 3 filter "aé" ""
state; focus; type "éAaba"; disable; state
=> 1 "" fresh, own, done "é", done, done "éa", done, done "éaa", 61 "éaa"
input t 2 1 10 1 any ""
state; focus; type "ab"; key Left; type "c"; key Ins; type "d"
=> 1 "" fresh, own, done "a", done, done, done, done, done "d"
input t 2 1 10 3 picture "ab" "" optional
state; focus; type "a"; state; type "b"; state; type "b"
=> 1 "" fresh, own, done "a", 61 "a" invalid, done "ab", 61 "ab", done
"###;

// Where the text is scrolled to, and what is selected, with the arrows and the cursor.
const FACES: &str = r###"input t 1 1 8 40 any "abcdefghij"
shot; colors; focus; shot; colors; key Home; shot; colors
=> : abcdef>:
=> :1f1f1f1f1f1f1f1a:
=> own
=> :<fghij  :
=> :1a2f2f2f2f2f4f1f:
=> done
=> : abcdef>:
=> :1f4f1f1f1f1f1f1a:
input t 1 1 8 40 any "abcdefghij"
focus; key Left; shot; colors; leave; shot; hide; shot; colors
=> own, done
=> :<efghij :
=> :1a1f1f1f1f1f4f1f:
=> other
=> : abcdef>:
=> :        :
=> :0000000000000000:
input t 1 1 8 40 any "äé"
shot; focus; shot; colors; key Left; type "ö"; shot; colors
=> : äé     :
=> own
=> : äé     :
=> :1f2f2f4f1f1f1f1f:
=> done, done "äöé"
=> : äöé    :
=> :1f1f1f4f1f1f1f1f:
input t 1 1 3 4 any "abcd"
shot; colors; focus; shot; colors; key Left; shot; colors; key Home; key Right; shot
=> : a>:
=> :1f1f1a:
=> own
=> :<  :
=> :1a4f1f:
=> done
=> :<d :
=> :1a4f1f:
=> done, done
=> :<b>:
input t 1 1 5 5 picture "##/##" "12/34"
focus; key Home; key Right; key Right; key Del; shot; colors
=> own, done, done, done, done
=> : 12/>:
=> :1f1f1f4f1a:
"###;

// A mouse down sets the cursor by what was shown before it: an input that gets the focus by it showed its start.
const MOUSE: &str = r###"input t 2 1 10 9 any "abcdef"
down 5 1; state; move 5 1; up 5 1; focus; down 5 1; state; move 9 1; up 70000 0; state; type "x"; up 5 1
=> focus 5, 1 "abcdef" fresh, pass, pass, own, capture 5, 61 "abcdef" held, done, release, 61 "abcdef", done "abxcdef", pass
input t 2 1 10 9 any "abcdef"
focus; down 2 1; up 2 1; type "x"; down 11 1; up 11 1; type "y"; down 2 1; up 2 1; key Del; leave; state
=> own, capture 5, release, done "xabcdef", capture 5, release, done "xabcdefy", capture 5, release, done "abcdefy", other, 1 "abcdefy"
input t 2 1 5 9 any "abcdef"
focus; down 2 1; up 2 1; type "x"
=> own, capture 5, release, done "abcxdef"
input t 2 1 5 9 any "abcdef"
focus; down 4 1; up 4 1; type "x"
=> own, capture 5, release, done "abcdexf"
input t 2 1 5 9 any "abcdef"
down 4 1; grant; down 4 1; up 4 1; focus; type "x"
=> focus 5, own, capture 5, release, own, done "axbcdef"
input t 2 1 5 9 any ""
focus; down 6 1; up 6 1; type "x"; down 2 1; leave; state
=> own, capture 5, release, done "x", capture 5, other, 1 "x" held
"###;

const FAR_POINTS: &str = r###"input t 2 1 10 9 any "abcdef"
focus; down 65541 65537; move 0 0; up 0 0; type "x"; move 65538 65537; up 65538 65537
=> own, capture 5, done, release, done "abxcdef", pass, pass
"###;

const KEY_TABLES: [Table; 2] = [
    Table {
        playing: NEAR,
        before: FOCUSED,
        rows: KEYS,
    },
    Table {
        playing: NEAR,
        before: "",
        rows: DOMAINS,
    },
];

#[test]
fn inputs_take_keys(rt: HostRuntime) -> Result<(), Fail> {
    expect_played(rt.alloc(), &KEY_TABLES)
}

const SHOWN_TABLES: [Table; 3] = [
    Table {
        playing: NEAR,
        before: "",
        rows: FACES,
    },
    Table {
        playing: NEAR,
        before: "",
        rows: MOUSE,
    },
    Table {
        playing: FAR,
        before: "",
        rows: FAR_POINTS,
    },
];

#[test]
fn inputs_are_shown(rt: HostRuntime) -> Result<(), Fail> {
    expect_played(rt.alloc(), &SHOWN_TABLES)
}
