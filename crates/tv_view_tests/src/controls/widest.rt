//! Controls as wide and as narrow as they may be, and with as much in them.

use super::bench::{NEAR, Table, expect_played};
use std::alloc::Global;
use std::test::Fail;
use tv_test_support::expect_answer;

// A control with as much in it as it may have: a part so many times, which stands where its texts have `%`.
struct Filled {
    part: &'static str,
    times: usize,
    played: &'static str,
    wanted: &'static str,
}

// Those of the greatest width show the longest text that they may have, which leaves some of their columns free.
const WIDEST: [Filled; 7] = [
    Filled {
        part: "é",
        times: 120,
        played: "text 1 1 130 1 \"%\" \nfacts; shot\n",
        wanted: "line 5 1 1 131 2 0\n:%          :\n",
    },
    Filled {
        part: "é",
        times: 120,
        played: "label 1 1 130 \"%\" c\nfacts; shot\n",
        wanted: "line 5 1 1 131 2 30\n:%          :\n",
    },
    Filled {
        part: "é",
        times: 120,
        played: "button b 1 1 130 \"%\" 120\nfacts; shot\n",
        wanted: "line 5 1 1 131 2 35\n:[    %    ]:\n",
    },
    Filled {
        part: "é",
        times: 120,
        played: "input t 1 1 130 120 any \"%\" \nfacts; shot\n",
        wanted: "line 5 1 1 131 2 5\n: %         :\n",
    },
    Filled {
        part: "é",
        times: 120,
        played: "checks k 1 1 130 \"%\" start 1\nfacts; shot\n",
        wanted: "line 5 1 1 131 2 35\n:[X] %      :\n",
    },
    Filled {
        part: "é",
        times: 120,
        played: "radios r 1 1 130 \"%\" start 1\nfacts; shot\n",
        wanted: "line 5 1 1 131 2 35\n:(*) %      :\n",
    },
    Filled {
        part: "é",
        times: 120,
        played: "list l 1 1 130 1 \"%\" start 1\nfacts; shot\n",
        wanted: "line 5 1 1 131 2 5\n:%          :\n",
    },
];

// Texts of many rows, of one and of none but empty ones; an input with all its characters but one; a hundred items in a single row.
const LONG: [Filled; 5] = [
    Filled {
        part: "row\\n",
        times: 30,
        played: "text 1 1 50 40 \"%\"\nfacts\n",
        wanted: "line 5 1 1 51 41 0\n",
    },
    Filled {
        part: "x",
        times: 120,
        played: "text 1 1 50 40 \"%\"\nfacts\n",
        wanted: "line 5 1 1 51 41 0\n",
    },
    Filled {
        part: "\\n",
        times: 120,
        played: "text 1 1 50 40 \"%\"\nfacts\n",
        wanted: "line 5 1 1 51 41 0\n",
    },
    Filled {
        part: "é",
        times: 119,
        played: "input t 1 1 130 120 any \"%\"\nfacts; focus; key End; type \"ab\"; key Backspace; key Ctrl-Y\n",
        wanted: "line 5 1 1 131 2 5, own, done, done \"%a\", done, done \"%\", done \"\"\n",
    },
    Filled {
        part: "\"é\" ",
        times: 100,
        played: "list l 1 1 130 1 %start 100\nfocus; key Home; key PgUp; key Ctrl-PgUp; key PgDn; key Ctrl-PgDn; facts\n",
        wanted: "own, done, done 99, done 1, done 2, done 100, line 5 1 1 131 2 5\n",
    },
];

fn expect_filled(alloc: Global, filled: &Filled) -> Result<(), Fail> {
    let part = filled.part.repeat(alloc, filled.times)?;
    let played = filled.played.replace(alloc, "%", &part)?;
    let wanted = filled.wanted.replace(alloc, "%", &part)?;
    expect_answer(&NEAR, alloc, &played, &wanted)
}

// A column is left of what the narrowest show, or none.
const NARROWEST: &str = r#"text 1 1 1 1 "éa"
facts; shot; focus; shot
=> line 5 1 1 2 2 0
=> :é:
=> other
=> :é:
label 1 1 1 "é~A~" c
facts; shot
=> line 5 1 1 2 2 30
=> :é:
button b 1 1 4 "éab" 120
facts; shot; default; focus; shot
=> line 5 1 1 5 2 35
=> :[éa]:
=> own
=> :<éa>:
input t 1 1 3 4 any "éa"
facts; shot; focus; shot; key Home; shot
=> line 5 1 1 4 2 5
=> : é>:
=> own
=> :<  :
=> done
=> : é>:
checks k 1 1 5 "éa"
facts; shot; press 1; shot
=> line 5 1 1 6 2 35
=> :[ ] é:
=> 1 1
=> :[X] é:
radios r 1 1 5 "éa" "b" start 2
facts; shot; press 1; shot
=> line 5 1 1 6 3 35
=> :( ) é:
=> :(*) b:
=> 1 1
=> :(*) é:
=> :( ) b:
list l 1 1 1 1 "éa" "b" start 1
facts; shot; focus; key Down; shot
=> line 5 1 1 2 2 5
=> :é:
=> own, done 2
=> :b:
"#;

const NARROWEST_TABLES: [Table; 1] = [Table {
    playing: NEAR,
    before: "",
    rows: NARROWEST,
}];

#[test]
fn widest_and_narrowest(rt: HostRuntime) -> Result<(), Fail> {
    for filled in &WIDEST {
        expect_filled(rt.alloc(), filled)?;
    }
    for filled in &LONG {
        expect_filled(rt.alloc(), filled)?;
    }
    expect_played(rt.alloc(), &NARROWEST_TABLES)
}
