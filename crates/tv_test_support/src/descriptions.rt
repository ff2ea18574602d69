//! Descriptions that several tests use.

/// One dialog with a button that cancels it, open at the start: examples/cancel.tvd.
pub const CANCEL: &str = r#"tvd 1
screen 20 10
start a
dialog a 2 2 14 4 "Q" ends cancel
button c 2 1 10 "~C~ancel" cancel
end
"#;

/// The same dialog, which nothing opens.
pub const CLOSED: &str = r#"tvd 1
screen 20 10
dialog a 2 2 14 4 "Q" ends cancel
button c 2 1 10 "~C~ancel" cancel
end
"#;

/// The same dialog without the end by `cancel`.
pub const WITHOUT_CANCEL: &str = r#"tvd 1
screen 20 10
start a
dialog a 2 2 14 4 "Q" ends ok
button c 2 1 10 "~C~ancel" cancel
end
"#;

/// An order form with a label, inputs, check boxes, a pane that a rule shows and a command that a rule enables: examples/order.tvd.
pub const ORDER: &str = r#"tvd 1
screen 40 14
start b
status "F2 OK" F2 ok
status "F3 Order" F3 100
dialog b 2 2 34 10 "Order" opens 100 ends ok cancel
label 2 1 8 "~A~mount" amount
input amount 12 1 8 4 range -5 5 "1" validate
checks opts 2 3 14 "~G~ift" "~N~ote"
pane more 2 5 30 1
input qty 0 0 8 3 range 1 9 ""
end
button ok 2 7 8 "~O~K" ok default
button no 12 7 10 "~C~ancel" cancel
button log 24 7 8 "~L~og" 120
show more when opts 2
enable ok when opts 1
end
"#;

/// Radio buttons, of which one enables the default button: examples/colour.tvd.
pub const COLOUR: &str = r#"tvd 1
screen 30 12
start d
dialog d 1 1 24 8 "" ends cancel yes
radios r 2 1 12 "~R~ed" "~B~lue" start 2
button y 2 4 8 "~Y~es" yes default
button n 12 4 10 "~C~ancel" cancel
enable yes when r 2
end
"#;

/// Two windows, one over the other: examples/windows.tvd.
pub const WINDOWS: &str = r#"tvd 1
screen 24 10
window one 1 1 16 4 1 "One"
text 1 1 9 1 "abcdefghij"
end
window two 8 3 20 4 2 "Two"
text 1 1 18 1 "second"
end
"#;

/// Two menus and a status item: examples/menus.tvd.
pub const MENUS: &str = r#"tvd 1
screen 30 12
menu "~F~ile"
item "~N~ew" 101
item "~Q~uit" quit
end
menu "~E~dit"
item "~C~ut" 102
end
status "F10 Menu" F10 menu
"#;

/// Two panes whose buttons mark the same letter.
pub const SHARED_LETTER: &str = r#"tvd 1
screen 20 10
dialog a 0 1 20 8 "" ends cancel
pane p 1 1 10 1
button x 0 0 10 "~C~ancel" cancel
end
pane q 1 3 10 1
button y 0 0 10 "~C~lose" close
end
end
"#;

/// What stands before all other declarations.
pub const HEAD: &str = "tvd 1
screen 40 14
";

/// A dialog with a button, up to the fourth line. What is inside its frame begins at 1 1 and is 34 wide and 9 high.
pub const DIALOG: &str = r#"tvd 1
screen 40 14
dialog d 2 2 36 11 "" ends ok cancel
button c 1 1 10 "~C~" cancel
"#;
