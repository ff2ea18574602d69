//! The keywords of declarations, for those who read them and those who print them.

/// Before the version of the language.
pub const TVD: &[u8] = b"tvd";

/// Before the columns and rows of the screen.
pub const SCREEN: &[u8] = b"screen";

/// Before the name of the dialog that is open at the start, and after the items of a control, before those that are
/// marked or chosen at first.
pub const START: &[u8] = b"start";

/// Before the title of a menu.
pub const MENU: &[u8] = b"menu";

/// Before the text and the command of a menu item.
pub const ITEM: &[u8] = b"item";

/// Before the text, the key and the command of a status item.
pub const STATUS: &[u8] = b"status";

/// Before what a window declares.
pub const WINDOW: &[u8] = b"window";

/// Before what a dialog declares.
pub const DIALOG: &[u8] = b"dialog";

/// Before the command that opens a dialog.
pub const OPENS: &[u8] = b"opens";

/// Before the commands by which a dialog may end.
pub const ENDS: &[u8] = b"ends";

/// Before what a static text declares.
pub const TEXT: &[u8] = b"text";

/// Before what a label declares.
pub const LABEL: &[u8] = b"label";

/// Before what a button declares.
pub const BUTTON: &[u8] = b"button";

/// After the command of the default button.
pub const DEFAULT: &[u8] = b"default";

/// After the command of a button that grabs the focus.
pub const GRAB: &[u8] = b"grab";

/// Before what a pane declares.
pub const PANE: &[u8] = b"pane";

/// Before what an input line declares.
pub const INPUT: &[u8] = b"input";

/// For the domain of every text.
pub const ANY: &[u8] = b"any";

/// Before the characters of a domain.
pub const FILTER: &[u8] = b"filter";

/// Before the least and the greatest number of a domain.
pub const RANGE: &[u8] = b"range";

/// Before the picture of a domain.
pub const PICTURE: &[u8] = b"picture";

/// After the start of an input line that keeps the focus while its text is not right.
pub const VALIDATE: &[u8] = b"validate";

/// After the start of an input line for which the empty text is right too.
pub const OPTIONAL: &[u8] = b"optional";

/// After the start of an input line that adds the literals that must follow.
pub const FILL: &[u8] = b"fill";

/// Before what check boxes declare.
pub const CHECKS: &[u8] = b"checks";

/// Before what radio buttons declare.
pub const RADIOS: &[u8] = b"radios";

/// Before what a list declares.
pub const LIST: &[u8] = b"list";

/// Before the name of what a rule shows.
pub const SHOW: &[u8] = b"show";

/// Before the command that a rule enables.
pub const ENABLE: &[u8] = b"enable";

/// Before the cluster and the item of a rule.
pub const WHEN: &[u8] = b"when";

/// The end of a menu, a window, a dialog or a pane.
pub const END: &[u8] = b"end";
