//! Canonical texts: that of a text with comments, spaces and empty lines, and that of a canonical text, which is itself.

use std::test::Fail;
use tv_test_support::descriptions::{CANCEL, ORDER, SHARED_LETTER};
use tv_test_support::{Printing, expect_answer, expect_answers, expect_canonical};

#[test]
fn last_line_end(rt: HostRuntime) -> Result<(), Fail> {
    for whole in [CANCEL, ORDER] {
        let text = whole.strip_suffix("\n").ok_or("no last line end")?;
        expect_answer(&Printing, rt.alloc(), text, whole)?;
    }
    Ok(())
}

// Comments, spaces and empty lines say nothing.
const SPACES: &str = r#"# what a dialog needs

  tvd   1
   # "its screen\
screen 20    10   

start   a
dialog a 2  2 14 4 "Q  q"   ends   cancel
    button c 2 1 10 "~C~ancel"    cancel
    # the end
end
   
# "
=> tvd 1
=> screen 20 10
=> start a
=> dialog a 2 2 14 4 "Q  q" ends cancel
=> button c 2 1 10 "~C~ancel" cancel
=> end
tvd 1

screen -2147483648 2147483647
=> tvd 1
=> screen -2147483648 2147483647
"#;

#[test]
fn spaces_and_comments(rt: HostRuntime) -> Result<(), Fail> {
    expect_answers(&Printing, rt.alloc(), "", SPACES, "")
}

// Descriptions of all lines there are, faulty ones among them: what is spelled is printed.
const ALL_LINES: &str = r###"tvd 1
screen 40 14
start nowhere
menu "~f~ile"
item "\"N~E~w\"\\" 101
item "" quit
end
menu "a\nb"
item "~9~" -5
end
status "~F1~ \"Help\"" F1 menu
status "" Shift-Tab next
status "\\" Ctrl-PgUp close
status "é" Alt-0 ok
status "漢" Ctrl-Y cancel
status "x" Alt-X yes
status "y" F12 no
window w -3 0 12 3 0 "\\\"\n"
text 1 1 4 1 "~not a mark~"
end
window w 1 1 0 -1 10 ""
end
dialog d 1 1 30 10 "" opens 7 ends
end
dialog d 1 1 30 10 "" ends ok cancel yes no
text 1 1 4 1 "a\nb\\n\"c\""
label 1 1 4 "~a~" when
button start 1 1 4 "~0~" 2147483647 default grab
button end 1 1 4 "" cancel grab
input i 1 1 4 9 any "" validate optional fill
input j 1 1 4 9 filter "\"\\~" "\n" optional
input k 1 1 4 9 range -5 5 "1" fill
input l 1 1 4 9 picture "##/##" "1" validate fill
checks m 1 1 4 "~A~" "b" start 1 2 30
checks n 1 1 4 ""
radios o 1 1 4 "a" "~b~" start 0
list p 1 1 4 2 "~a~" "" "\"" start -1
pane q 1 1 4 1
pane r 1 1 4 1
button s 1 1 4 "" 100
end
text 1 1 1 1 ""
end
show r when m 1
show q when when -7
enable quit when o 2
enable -1 when o 0
end
"###;

#[test]
fn faulty_texts(rt: HostRuntime) -> Result<(), Fail> {
    for text in [SHARED_LETTER, ALL_LINES] {
        expect_canonical(rt.alloc(), text)?;
    }
    Ok(())
}
