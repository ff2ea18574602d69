//! The lines of the log, written.

ghost use Rattle.std.specs.Prelude.{◌≡◌, ◌≤◌, ◌++◌, ◌∷◌, ◌==◌, ◌||◌, [], codes, decimal, flat_map};
ghost use Rattle.std.specs.List.{list_any};
ghost use Rattle.tv_model.specs.declared.log.LogLine.TheVariants as lines;
ghost use Rattle.tv_model.specs.Description.Nodes.{node_of};
ghost use Rattle.tv_model.specs.Description.Heads.{all_nodes};
ghost use Rattle.tv_model.specs.Log.LogText.{name_of_node, log_line, log_text, name_text, end_word, line_of, value_text, marks_text, has_bit, quoted_text, escaped_in_log};
ghost use Rattle.tv_io.specs.Pen.{Puts};

use tv_cells::Point;
use tv_event::Command;
use tv_io::{Pen, Writer};
use tv_model::{Desc, Id, LogLine, Value};
use tv_valid::Chars;

/// Writes lines of the log.
pub fn put_log<W: Writer>(pen: &mut Pen<W>, desc: &Desc, lines: &[LogLine])
    ensures { Puts W.seen pen.old pen.new (log_text desc.now lines.now) }
{
    for line in lines {
        put_line(pen, desc, line);
    }
}

fn put_line<W: Writer>(pen: &mut Pen<W>, desc: &Desc, line: &LogLine)
    ensures { Puts W.seen pen.old pen.new (log_line desc.now line.now) }
{
    match line {
        LogLine::Open(id) => put_name_line(pen, desc, b"open ", *id),
        LogLine::Focus(id) => put_name_line(pen, desc, b"focus ", *id),
        LogLine::Press(id) => put_name_line(pen, desc, b"press ", *id),
        LogLine::Invalid(id) => put_name_line(pen, desc, b"invalid ", *id),
        LogLine::Close(id) => put_name_line(pen, desc, b"close ", *id),
        LogLine::Quit => put_quit(pen),
        LogLine::Command(number) => put_command(pen, *number),
        LogLine::End(id, command) => put_end(pen, desc, *id, *command),
        LogLine::Field(id, value) => put_field(pen, desc, *id, value),
        LogLine::Moved(id, corner) => put_moved(pen, desc, *id, *corner),
    }
}

fn put_name_line<W: Writer>(pen: &mut Pen<W>, desc: &Desc, word: &[u8], id: Id)
    ensures { Puts W.seen pen.old pen.new (line_of word.now (name_text desc.now id)) }
{
    pen.put(word);
    put_name(pen, desc, id);
    pen.put(b"\n");
}

/// Writes the name of a node, if it has one.
pub fn put_name<W: Writer>(pen: &mut Pen<W>, desc: &Desc, id: Id)
    ensures { Puts W.seen pen.old pen.new (name_text desc.now id) }
{
    pen.put_chars(name(desc, id));
}

fn name(desc: &Desc, id: Id) -> &[char]
    ensures { result.now ≡ name_of_node (node_of (all_nodes desc.now) id) }
{
    match desc.node(id) {
        Some(node) => node.kind.name().map_or(&[], Chars::as_slice),
        None => &[],
    }
}

fn put_quit<W: Writer>(pen: &mut Pen<W>)
    ensures { Puts W.seen pen.old pen.new (line_of (codes "quit") []) }
{
    pen.put(b"quit\n");
}

fn put_command<W: Writer>(pen: &mut Pen<W>, number: u8)
    ensures { Puts W.seen pen.old pen.new (line_of (codes "command ") (decimal number)) }
{
    pen.put(b"command ");
    pen.put_number(u32::from(number));
    pen.put(b"\n");
}

fn put_end<W: Writer>(pen: &mut Pen<W>, desc: &Desc, id: Id, command: Command)
    ensures { Puts W.seen pen.old pen.new (log_line desc.now (lines.End id command)) }
{
    pen.put(b"end ");
    put_name(pen, desc, id);
    pen.put(b" ");
    pen.put(end_word(command));
    pen.put(b"\n");
}

/// Returns the word of a command that ends a dialog.
pub fn end_word(command: Command) -> &'static [u8]
    ensures { result.now ≡ end_word command.0 }
{
    match command {
        Command::OK => b"ok",
        Command::CANCEL => b"cancel",
        Command::YES => b"yes",
        _ => b"no",
    }
}

/// Writes the line of a field with its value.
pub fn put_field<W: Writer>(pen: &mut Pen<W>, desc: &Desc, id: Id, value: &Value)
    ensures { Puts W.seen pen.old pen.new (log_line desc.now (lines.Field id value.now)) }
{
    pen.put(b"field ");
    put_name(pen, desc, id);
    pen.put(b" ");
    put_value(pen, value);
    pen.put(b"\n");
}

fn put_moved<W: Writer>(pen: &mut Pen<W>, desc: &Desc, id: Id, corner: Point)
    ensures { Puts W.seen pen.old pen.new (log_line desc.now (lines.Moved id corner)) }
{
    pen.put(b"moved ");
    put_name(pen, desc, id);
    pen.put(b" ");
    pen.put_signed(corner.x);
    pen.put(b" ");
    pen.put_signed(corner.y);
    pen.put(b"\n");
}

fn put_value<W: Writer>(pen: &mut Pen<W>, value: &Value)
    ensures { Puts W.seen pen.old pen.new (value_text value.now) }
{
    match value {
        Value::Text(text) => put_quoted(pen, text.as_slice()),
        Value::Marks(marks) => put_marks(pen, *marks),
        Value::Item(item) => pen.put_number(u32::from(*item)),
    }
}

/// Writes a quoted text, in which `"` and `\` are escaped.
pub(crate) fn put_quoted<W: Writer>(pen: &mut Pen<W>, text: &[char])
    ensures { Puts W.seen pen.old pen.new (quoted_text text.now) }
{
    pen.put(b"\"");
    put_escaped(pen, text);
    pen.put(b"\"");
}

fn put_escaped<W: Writer>(pen: &mut Pen<W>, text: &[char])
    ensures { Puts W.seen pen.old pen.new (flat_map escaped_in_log text.now) }
{
    // Most texts have nothing to escape, and go to the writer in runs.
    if has_escapes(text) {
        put_each_escaped(pen, text);
    } else {
        pen.put_chars(text);
    }
}

// Whether there is a character that is escaped.
fn has_escapes(text: &[char]) -> bool
    ensures { result ≡ list_any (λ ch. ch == 34 || ch == 92) text.now }
{
    text.iter().any(|ch| matches!(*ch, '"' | '\\'))
}

fn put_each_escaped<W: Writer>(pen: &mut Pen<W>, text: &[char])
    ensures { Puts W.seen pen.old pen.new (flat_map escaped_in_log text.now) }
{
    for ch in text {
        put_escaped_char(pen, *ch);
    }
}

/// Writes a character as it stands between quotes: `"` and `\` are escaped.
pub fn put_escaped_char<W: Writer>(pen: &mut Pen<W>, ch: char)
    ensures { Puts W.seen pen.old pen.new (escaped_in_log ch) }
{
    match ch {
        '"' => pen.put(b"\\\""),
        '\\' => pen.put(b"\\\\"),
        _ => pen.put_char(ch),
    }
}

// Writes the marked items in rising order, with a space between, or `-`.
fn put_marks<W: Writer>(pen: &mut Pen<W>, marks: u16)
    ensures { Puts W.seen pen.old pen.new (marks_text marks) }
{
    let mut separator: &[u8] = b"";
    for item in 1..17 {
        if is_marked(marks, item) {
            pen.put(separator);
            pen.put_number(item);
            separator = b" ";
        }
    }
    if separator.is_empty() {
        pen.put(b"-");
    }
}

fn is_marked(marks: u16, item: u32) -> bool
    requires { (1 ≤ item) × (item ≤ 16) }
    ensures { result ≡ has_bit marks item }
{
    (marks >> (item - 1)) % 2 == 1
}
