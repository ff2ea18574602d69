//! Lists.

use super::bench::{FAR, NEAR, Table, expect_played};
use std::test::Fail;

const FIVE: &str = r#"list l 2 1 8 3 "a" "b" "c" "d" "e" start 1
"#;

// Each key, at both ends of the items and of the rows that are shown; keys of no list, and those of other phases.
const KEYS: &str = r#"focus; key End; key Down; key PgUp; key Ctrl-PgDn; key Home
=> own, done 3, done 4, done 1, done 5, done 3
focus; key Up; key Down; key Down; key Down; key Down; key Down
=> own, done, done 2, done 3, done 4, done 5, done
focus; key Down; key Down; key Up; key Up; key Up
=> own, done 2, done 3, done 2, done 1, done
focus; key PgDn; key PgDn; key PgUp; key PgUp; key PgUp; key Ctrl-PgUp
=> own, done 4, done 5, done 2, done 1, done, done
focus; key Ctrl-PgDn; key Home; key End; key Home; key Ctrl-PgUp; key Home
=> own, done 5, done 3, done 5, done 3, done 1, done
focus; key Ctrl-PgDn; key Up; key Up; key Up; key Home; key End
=> own, done 5, done 4, done 3, done 2, done, done 4
focus; key Left; key Right; key Tab; key Shift-Tab; key Enter; key Esc; key Backspace; key Del; key Ins
=> own, pass, pass, pass, pass, pass, pass, pass, pass, pass
focus; type " b"; key Ctrl-A; key Alt-B; key F1; enter
=> own, pass, pass, pass, pass, pass, pass
focus; pre; key Down; type "b"; key Alt-B; post; key Down; type "b"; key Alt-B
=> own, pass, pass, pass, pass, pass, pass
"#;

// The mouse in each row, at each edge and just outside, while the list is held and while it isn't.
const MOUSE: &str = r#"state; down 2 3; state; move 2 3; up 2 3
=> 1 1 fresh, focus 5, 1 1 fresh, pass, pass
focus; down 2 3; state; up 2 3; state; move 2 1; up 2 1; leave; state
=> own, capture 5 3, 61 3 held, release, 61 3, pass, pass, other, 1 3
focus; down 9 1; move 9 3; move 2 2; up 2 1
=> own, capture 5, done 3, done 2, release
focus; down 2 2; move 10 1; move 1 1; move 2 0; move 2 4; up 10 1
=> own, capture 5 2, done, done, done, done, release
focus; key Ctrl-PgDn; down 2 1; move 2 2; up 2 3
=> own, done 5, capture 5 3, done 4, release
grant; down 2 2; up 2 2
=> own, capture 5 2, release
focus; down 2 3; press 2; leave; state
=> own, capture 5 3, 61 3 held, other, 1 3 held
"#;

// A point that is in the list when its columns or rows are taken in 16 bits.
const FAR_POINTS: &str =
    r#"focus; down 65538 65539; move 65538 3; move 2 65539; move 0 0; move 70000 70000; move 65538 65537; up 0 0
=> own, capture 5 3, done, done, done, done, done 1, release
"#;

// The top at opening; fewer items than rows; one row; one column; other characters than those of a byte.
const FACES: &str = r#"list l 2 1 3 3 "a" "b" "c" "d" "e" start 1
shot; colors; focus; colors
=> :a  :
=> :b  :
=> :c  :
=> :3e3e3e:
=> :303030:
=> :303030:
=> own
=> :2f2f2f:
=> :303030:
=> :303030:
list l 2 1 3 3 "a" "b" "c" "d" "e" start 5
shot; focus; key Home
=> :c  :
=> :d  :
=> :e  :
=> own, done 3
list l 2 1 3 3 "a" "b" "c" "d" "e" start 4
shot; focus; key Ctrl-PgUp; shot; key Ctrl-PgDn; shot
=> :b  :
=> :c  :
=> :d  :
=> own, done 1
=> :a  :
=> :b  :
=> :c  :
=> done 5
=> :c  :
=> :d  :
=> :e  :
list l 2 1 3 3 "a" "b" start 1
focus; down 2 3; up 2 3; shot; key PgDn; key End; key Home; key End; key Ctrl-PgDn
=> own, capture 5 2, release
=> :a  :
=> :b  :
=> :   :
=> done, done, done 1, done 2, done
list l 2 1 1 1 "äé" "é" "ab" start 2
shot; focus; key Home; key End; key PgDn; shot; key Ctrl-PgUp; shot
=> :é:
=> own, done, done, done 3
=> :a:
=> done 1
=> :ä:
list l 2 1 4 2 "äöüß€" "" start 2
shot; hide; shot; colors; state; show; state
=> :äöüß:
=> :    :
=> :    :
=> :    :
=> :00000000:
=> :00000000:
=> 0 2, 1 2 fresh
list l 2 1 1 2 "a" start 1
focus; key Down; key Up; key End; key PgDn; key PgUp; key Home; key Ctrl-PgDn; disable; state
=> own, done, done, done, done, done, done, done, 61 1
list l 2 1 4 2 "a" start 1 
facts; focus; leave; press 1
=> line 5 2 1 6 3 5, own, other, 1 1 fresh
"#;

const TABLES: [Table; 4] = [
    Table {
        playing: NEAR,
        before: FIVE,
        rows: KEYS,
    },
    Table {
        playing: NEAR,
        before: FIVE,
        rows: MOUSE,
    },
    Table {
        playing: FAR,
        before: FIVE,
        rows: FAR_POINTS,
    },
    Table {
        playing: NEAR,
        before: "",
        rows: FACES,
    },
];

#[test]
fn lists(rt: HostRuntime) -> Result<(), Fail> {
    expect_played(rt.alloc(), &TABLES)
}
