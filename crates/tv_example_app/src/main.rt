//! Fills in an order form by keys, and prints its screen, its log and its record.
#![tactic(auto)]

ghost use Rattle.std.specs.Prelude.{◌≡◌, None};
ghost use Rattle.tv_app.specs.Running.{Runs, Session};

use std::alloc::{AllocError, Global};
use tv_app::Key::{self, Backspace, Char, Enter, Esc};
use tv_app::{App, Command, Event, Id, LogLine, Point, Record, Screen, Text, Unset, Value, open};

const DESCRIPTION: &str = r#"tvd 1
screen 40 11
dialog order 3 1 34 9 "Order" opens 100 ends ok cancel
label 2 1 8 "~P~ieces" pieces
input pieces 12 1 6 4 range 1 5 "1"
radios size 2 3 14 "~S~mall" "~L~arge" start 1
button ok 2 6 10 "~O~K" ok default
button no 14 6 12 "~C~ancel" cancel
end
"#;

// The command that opens the form.
const ORDER: Command = Command(100);

// Nine pieces are refused, for the form takes up to five. Then four are ordered.
const KEYS: [Key; 5] = [Char('9'), Enter, Backspace, Char('4'), Enter];

fn main(rt: HostRuntime) -> anyhow::Result<()> {
    let mut app = open(rt.alloc(), DESCRIPTION.as_bytes())?;
    fill_in(&rt, rt.alloc(), &mut app)
}

// Opens the form, presses the keys and leaves it.
fn fill_in(rt: &impl Print, alloc: Global, app: &mut App) -> anyhow::Result<()>
    requires { (s : Session) × Runs app.old s }
{
    begin_order(alloc, app)?;
    println!(rt; "The screen:")?;
    print_screen(rt, app.screen())?;
    println!(rt; "The log:")?;
    print_log(rt, alloc, app)?;
    for key in KEYS {
        app.step(&Event::Key(key));
        println!(rt; "> {key:?}")?;
        print_log(rt, alloc, app)?;
    }
    print_record(rt, alloc, app)?;
    leave(app);
    Ok(())
}

// Gives the form the record with which it opens, and opens it.
fn begin_order(alloc: Global, app: &mut App) -> Result<(), Unset>
    requires { (s : Session) × Runs app.old s }
    ensures { (s : Session) × Runs app.new s }
{
    let usual = usual_order(app);
    if let Err(fault) = app.set(alloc, "order", usual) {
        return Err(fault.reason);
    }
    app.command(ORDER);
    Ok(())
}

// The form opens with two large pieces.
fn usual_order(app: &App) -> Record {
    let mut order = Record::new();
    if let Some(pieces) = app.field("order", "pieces") {
        let mut two = Text::new();
        two.push('2');
        order.put(pieces, Value::Text(two));
    }
    if let Some(size) = app.field("order", "size") {
        order.put(size, Value::Item(2));
    }
    order
}

// Leaves the form, if it is still open.
fn leave(app: &mut App)
    requires { (s : Session) × Runs app.old s }
    ensures { (s : Session) × Runs app.new s × (s.state.dialog ≡ None) }
{
    app.step(&Event::Up(Point { x: 0, y: 0 }));
    app.step(&Event::Key(Esc));
}

// Prints each row of the screen, between bars.
fn print_screen(rt: &impl Print, screen: &Screen) -> anyhow::Result<()> {
    for row in 0..screen.height() {
        print!(rt; "|")?;
        for column in 0..screen.width() {
            print!(rt; "{}", screen.get(column, row).ch())?;
        }
        println!(rt; "|")?;
    }
    Ok(())
}

// Prints what the last event did.
fn print_log(rt: &impl Print, alloc: Global, app: &App) -> anyhow::Result<()> {
    for line in app.log() {
        let (what, id, how) = match line {
            LogLine::Open(id) => ("open", *id, ""),
            LogLine::Focus(id) => ("focus", *id, ""),
            LogLine::Press(id) => ("press", *id, ""),
            LogLine::Invalid(id) => ("invalid", *id, ""),
            LogLine::End(id, Command::OK) => ("end", *id, " ok"),
            // The record has the fields, and this form logs nothing else.
            _ => continue,
        };
        let name = name_of(alloc, app, id)?;
        println!(rt; "{what} {name}{how}")?;
    }
    Ok(())
}

// The name of a dialog or a view.
fn name_of(alloc: Global, app: &App, id: Id) -> Result<String, AllocError> {
    match app.desc().node(id).and_then(|node| node.kind.name()) {
        Some(name) => name.as_slice().iter().collect(alloc),
        None => Ok(String::new(alloc)),
    }
}

// Prints what was ordered.
fn print_record(rt: &impl Print, alloc: Global, app: &App) -> anyhow::Result<()> {
    let size = match app.item("order", "size") {
        Some(2) => "large",
        _ => "small",
    };
    if let Some(pieces) = app.text("order", "pieces") {
        let pieces: String = pieces.as_slice().iter().collect(alloc)?;
        println!(rt; "The record: {pieces} {size} pieces")?;
    }
    Ok(())
}
