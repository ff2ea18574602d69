//! The long texts of the help.

/// The text below the help of the program and of each subcommand.
pub(crate) const STATUSES: &str = "Statuses: 0 done; 1 faults, a refusal or a bad text; 2 usage; \
    3 a file, a stream or memory failed; 4 the user left, or his input ended. Messages go to standard error, all else that is printed to standard output.\n\
    Help goes to standard error too, with status 2.";

/// What `run` does, and the lines of its scripts.
pub(crate) const SCRIPTS: &str = "\
Performs a script of keys and pictures on a description, and prints what happens

A script has one of these on each line, or nothing, or # and a comment:
  key NAME     a key: Tab, Shift-Tab, Enter, Esc, Up, Down, Left, Right, Home,
               End, PgUp, PgDn, Ctrl-PgUp, Ctrl-PgDn, Backspace, Del, Ins,
               Ctrl-A to Ctrl-Z, F1 to F12, Alt-A to Alt-Z, Alt-0 to Alt-9
  type \"TEXT\"  each character as a key; \\\" is a quote, \\\\ a backslash
  down X Y     the mouse button goes down on a cell; the top left one is 0 0
  move X Y     the mouse moves to a cell
  up X Y       the mouse button goes up on a cell
  shot         prints the characters of the screen
  colors       prints its attributes, two hexadecimal digits a cell

Each line is performed when its end has come, and what it prints is passed on
before more is read. So SCRIPT may be a pipe or a terminal, as /dev/stdin. At a
faulty line the script is left; the lines before it were performed.";

/// What `picture` prints, and where its pictures go.
pub(crate) const PICTURES: &str = "\
Performs a script on a description, and prints the screen that it leaves as SVG

The script has the lines that `run` takes, but nothing of the log is printed, and
nothing at a `shot` or `colors`. The screen is drawn in sixteen colours, with the
cursor where an input has it. Redirect it into a file: tvdlg picture FILE SCRIPT
>PICTURE.svg.

With --all nothing is printed, and the screen at each `shot` is drawn into a file
beside the script: SCRIPT-1.svg, SCRIPT-2.svg and so on. What such a file held is
lost. The script is read to its end before the first picture is drawn, and of one
with a faulty line none is.";

/// What `fill` prints, and the lines of answers.
pub(crate) const ANSWERS: &str = "\
Prints a description whose fields begin with answers

ANSWERS is a log, as `run` and `play` print it, or lines written by hand:
  end settings ok
  field port \"443\"
  field extras 2 3
An `end` line begins what is answered of a dialog, and its `field` lines follow. A
dialog that ended by cancel answers nothing. Of several answers to one field the
last counts, so logs can be joined. What doesn't fit the description is told on
standard error, and that field begins as it is declared.

What is printed is a description: tvdlg fill FILE ANSWERS >FILLED.tvd.";

/// What `answer` does.
pub(crate) const ENDS: &str = "\
Gives answered dialogs their ends without a user, and prints what happens

ANSWERS is a log or lines of one, as `fill` takes it. Each dialog that it answers is
opened with these answers in its fields, and given its `end` command as if a user
had chosen it. Dialogs come in the order of the description. What is printed is the
log of that, as `run` prints it, and so answers again.

Nothing is done, and the status is 1, where something doesn't fit the description or
nothing is answered. A dialog that doesn't end, because a field refuses or its rules
disable the end, is told of with status 1; those before it were ended.";

/// What `box` takes and prints.
pub(crate) const BOXES: &str = "\
Prints the description of a ready dialog, which the arguments of `dialog` ask for

The options come first, then one box:
  --title TEXT, --yes-label TEXT, --no-label TEXT, --ok-label TEXT,
  --cancel-label TEXT, --defaultno, --default-item TAG
  --yesno TEXT HEIGHT WIDTH
  --msgbox TEXT HEIGHT WIDTH
  --inputbox TEXT HEIGHT WIDTH [START]
  --menu TEXT HEIGHT WIDTH ROWS {TAG ITEM}..
  --checklist TEXT HEIGHT WIDTH ROWS {TAG ITEM on|off}..
  --radiolist TEXT HEIGHT WIDTH ROWS {TAG ITEM on|off}..
  --form TEXT HEIGHT WIDTH ROWS {LABEL Y X START Y X WIDTH MOST}..

A size of 0 is as large as is needed. tvask plays what is printed, and answers
as `dialog` does.";

/// What `explain` prints.
pub(crate) const EXPLANATIONS: &str = "\
Tells of each fault of a description where it is, why it is one and how to mend it

Each is told as FILE:LINE:COLUMN: FAULT: MESSAGE, with the lines of the file that
have to do with it. Lines are those of the file, comments and empty lines counted,
where those that `check` prints count declarations alone. Of a description that
can't be read, the lines at fault are told. One without faults prints nothing.

With BESIDE, a script or a certificate, a description without faults is passed
over and that file is told of: its lines that can't be read, or the first whose
point is off the screen. It is a certificate where its first word is tvcert. One
that isn't the description's is refused as `accept` does.";

/// What `ways` prints.
pub(crate) const WAYS: &str = "\
Prints for each end and each control of each dialog how a user comes to it

Each is told in a line, under the name of its dialog:
  end ok: key Alt-N; type \"3\"; key Alt-O
  focus qty: key Tab
  end yes: never (nothing gives it)
The events are those of a script that begins at the start, and were tried. What is
never reached is reached by no keys and no mouse, whatever a user does. Of a dialog
with thousands of choices of radio buttons it may print `unknown`.

With DIALOG and END it prints the script that leads to this end, for `run`. Where
none does, it says so on standard error, with status 1.

A description with faults is told of as `explain` does, with status 1.";

/// What `warn` prints.
pub(crate) const WARNINGS: &str = "\
Warns of what fails the users of a description without faults

Each warning is told as `explain` tells of a fault:
  W1   a dialog that nothing opens
  W2   an end that no button and no status item gives
  W3   an end whose buttons are never shown and enabled
  W4   an end that an input refuses which is never shown
  W5   a control that never gets the focus
  W6   a label or a text that is never shown
  W7   an end that a hidden input refuses, with events after which it does
  W8   a text of which a part is cut off
  W9   a marked letter that is cut off
  W10  a menu item or a button whose command does nothing there
What is told to be never so is so whatever a user does. A program may do more: give
commands and set values of its own.

Warnings are no faults: the status is 0, and with --deny 1 where there is one.
A description with faults is told of as `explain` does, with status 1.";

/// What `play` does, and what it needs.
pub(crate) const TERMINALS: &str = "\
Plays a description in a terminal: keys and mouse come from standard input, the
screen goes to standard error, and the log, as `run` prints it, to standard
output. So a shell script has it by answer=$(tvplay FILE).

The terminal is one of UTF-8 that is large enough for the description's screen.
It has to be set before, by stty raw -echo min 0 time 1; tvplay does that
and sets it back. It ends after the command quit, where nothing is open and
nothing can be opened, at Ctrl-\\ always, at Ctrl-C where no status item has that
key, and at the end of standard input.";
