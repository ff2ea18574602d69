//! A control by itself, and what it answers to a script.

use super::making::{checked, first_control, plan, views};
use super::setting::open;
use super::telling::{damage_told, push_face, push_reaction, push_token, push_word, value_told};
use bitflags::Flags;
use std::alloc::Global;
use std::test::Fail;
use tv_cells::{Damage, Point, Screen};
use tv_check::Checked;
use tv_event::{Command, CommandSet, Event, Phase};
use tv_machine::Item;
use tv_model::{Id, Node, Record, Sequence};
use tv_palette::{Chain, Owner};
use tv_script::{ScriptFault, parse_items};
use tv_test_support::{Question, expect_answers};
use tv_view::{Env, Rules, View};

/// What the control of a view answers to a script, whose commands are parted by `;`. The last line of a text is the script,
/// and the lines before it declare views, of which the first is made.
///
/// Beside the lines of scripts there are commands of its own. `focus` and `leave` move the focus to it and to the button in
/// line 4; with `grant` it gets the focus by the event that comes next. `hide`, `show`, `disable` and `enable` are what rules
/// come to. `pre`, `main` and `post` set the phase of the keys after them. `default` lets the control be the default now, and
/// `enter` is the broadcast of Enter. `press N` presses an item. `set` opens it with the value that follows, as long as it
/// stands as it is declared. `facts` tells its line, its rectangle and its options, and `state` how it stands. `damage` tells
/// what it has damaged since that was told last. `lend` asks it for what another environment damages: where the control in the
/// line that follows has the focus, in a `window`, as the `default`, or where its owner is `idle`.
#[derive(Clone, Copy)]
pub struct Playing {
    /// The point of what the control stands in from which a script's points are seen.
    pub corner: Point,
}

/// The points of a script as they are.
pub const NEAR: Playing = Playing {
    corner: Point { x: 0, y: 0 },
};

/// The points of a script, where 65536 is 0, so that those below it have numbers of more than 16 bits.
pub const FAR: Playing = Playing {
    corner: Point {
        x: -65_536,
        y: -65_536,
    },
};

/// Scripts, each with what a control answers to it, after lines that all of them share.
#[derive(Clone, Copy)]
pub struct Table {
    pub playing: Playing,
    pub before: &'static str,
    pub rows: &'static str,
}

/// Fails where some control of the tables answers something else than its row says.
pub fn expect_played(alloc: Global, tables: &[Table]) -> Result<(), Fail> {
    for table in tables {
        expect_answers(&table.playing, alloc, table.before, table.rows, "")?;
    }
    Ok(())
}

impl Question for Playing {
    fn answer(&self, alloc: Global, text: &[u8]) -> Result<String, Fail> {
        let text = str::from_utf8(text)?.trim_end();
        let (lines, script) = text.rsplit_once('\n').ok_or("no script")?;
        let checked = checked(alloc, lines)?;
        self.played(alloc, &checked, script)
    }
}

impl Playing {
    // What the first control of a description answers.
    fn played(&self, alloc: Global, checked: &Checked, script: &str) -> Result<String, Fail> {
        let lent = Lent::new(views(checked)?);
        let plan = plan(alloc, checked)?;
        let mut bench = Bench {
            view: first_control(alloc, plan.as_slice())?,
            lent,
            phase: Phase::Focused,
            corner: self.corner,
            damage: Damage::new(),
        };
        bench.perform(alloc, script)
    }
}

// What the control is lent.
#[derive(Drop)]
struct Lent<'a> {
    owner: Owner,
    views: &'a [Node],
    chain: Chain,
    commands: CommandSet,
    focus: Option<Id>,
    default_now: Option<Id>,
    is_active: bool,
}

impl<'a> Lent<'a> {
    fn new(views: &'a [Node]) -> Lent<'a> {
        Lent {
            owner: Owner::Dialog,
            views,
            chain: Chain::of_dialog(),
            commands: CommandSet::all(),
            focus: None,
            default_now: None,
            is_active: true,
        }
    }

    fn env(&self) -> Env<'_> {
        Env {
            owner: self.owner,
            chain: &self.chain,
            views: self.views,
            commands: &self.commands,
            focus: self.focus,
            default_now: self.default_now,
            is_active: self.is_active,
        }
    }
}

#[derive(Drop)]
struct Bench<'a> {
    view: Box<dyn View>,
    lent: Lent<'a>,
    phase: Phase,
    corner: Point,
    damage: Damage,
}

impl Bench<'_> {
    // What the control answers to the commands, one after the other.
    fn perform(&mut self, alloc: Global, script: &str) -> Result<String, Fail> {
        let mut told = String::new(alloc);
        for command in script.split(';') {
            self.act(alloc, &mut told, command.trim())?;
        }
        if !told.ends_with('\n') {
            told.push('\n')?;
        }
        Ok(told)
    }

    // Whether the command sets its phase, what it is lent, or what rules come to.
    fn is_set_by(&mut self, command: &str) -> bool {
        let own = self.view.id();
        match command.as_bytes() {
            b"pre" => self.phase = Phase::Pre,
            b"main" => self.phase = Phase::Focused,
            b"post" => self.phase = Phase::Post,
            b"default" => self.lent.default_now = Some(own),
            b"hide" => self.apply(&[]),
            b"show" => self.apply(&[own]),
            b"disable" => self.enable(false),
            b"enable" => self.enable(true),
            _ => return false,
        }
        true
    }

    fn act(&mut self, alloc: Global, told: &mut String, command: &str) -> Result<(), Fail> {
        if self.is_set_by(command) {
            return Ok(());
        }
        let own = self.view.id();
        match command.as_bytes() {
            b"enter" => self.handle(alloc, told, &Event::Broadcast(Command::DEFAULT)),
            b"focus" => self.focus(told, own),
            b"grant" => self.grant(told, own),
            b"leave" => self.focus(told, Id(4)),
            b"facts" => self.push_facts(alloc, told),
            b"state" => self.push_state(alloc, told),
            b"damage" => self.push_damage(told),
            [b'p', b'r', b'e', b's', b's', b' ', digit] => {
                let item = digit.saturating_sub(b'0');
                self.view.press_item(own, item, &mut self.damage);
                self.push_state(alloc, told)
            }
            _ => self.other(alloc, told, command),
        }
    }

    // The focus is on a control, and goes there.
    fn focus(&mut self, told: &mut String, id: Id) -> Result<(), Fail> {
        self.lent.focus = Some(id);
        self.grant(told, id)
    }

    // Another environment, the opening with a value, and the lines of a script.
    fn other(&mut self, alloc: Global, told: &mut String, command: &str) -> Result<(), Fail> {
        if let Some(word) = command.strip_prefix("lend ") {
            return self.lend(word);
        }
        let Some(value) = command.strip_prefix("set ") else {
            return self.play(alloc, told, command);
        };
        let node = self.lent.views.get(1).ok_or("no view")?;
        open(alloc, &mut self.view, node, value, &mut self.damage)
    }

    // What it would be lent otherwise, which it is asked for and not lent.
    fn lend(&mut self, word: &str) -> Result<(), Fail> {
        let mut other = Lent::new(self.lent.views);
        other.focus = self.lent.focus;
        other.default_now = self.lent.default_now;
        match word.as_bytes() {
            b"window" => {
                other.owner = Owner::Window;
                other.chain = Chain::of_window();
            }
            b"default" => other.default_now = Some(self.view.id()),
            b"idle" => other.is_active = false,
            _ => other.focus = Some(Id(word.parse()?)),
        }
        let old = self.lent.env();
        let new = other.env();
        self.view.env_damage(&old, &new, &mut self.damage);
        Ok(())
    }

    // The focus goes to a control, and the control tells whether it is that one.
    fn grant(&mut self, told: &mut String, id: Id) -> Result<(), Fail> {
        let is_own = self.view.focus_to(id, &mut self.damage);
        Ok(push_token(told, if is_own { "own" } else { "other" })?)
    }

    fn apply(&mut self, shown: &[Id]) {
        let rules = Rules {
            shown,
            commands: &self.lent.commands,
        };
        self.view.apply(&rules, &mut self.damage);
    }

    // Enables or disables command 120, and with it the buttons that give it.
    fn enable(&mut self, is_enabled: bool) {
        if is_enabled {
            self.lent.commands.enable(Command(120));
        } else {
            self.lent.commands.disable(Command(120));
        }
        let own = self.view.id();
        self.apply(&[own]);
    }

    // The lines of a script.
    fn play(&mut self, alloc: Global, told: &mut String, line: &str) -> Result<(), Fail> {
        let items = script_of(alloc, line)?;
        for item in items.as_slice() {
            match item {
                Item::Event(event) => self.handle(alloc, told, &moved(event, self.corner))?,
                Item::Shot => self.push_shot(alloc, told, false)?,
                Item::Colors => self.push_shot(alloc, told, true)?,
            }
        }
        Ok(())
    }

    // The control handles an event, and tells what it answers, and its value if that changed.
    fn handle(&mut self, alloc: Global, told: &mut String, event: &Event) -> Result<(), Fail> {
        let id = self.view.id();
        let before = value_told(alloc, &self.record(), id)?;
        let env = self.lent.env();
        let reaction = self.view.handle(event, self.phase, &env, &mut self.damage);
        push_reaction(told, alloc, reaction)?;
        let after = value_told(alloc, &self.record(), id)?;
        if before.as_str() != after.as_str() {
            push_word(told, &after)?;
        }
        Ok(())
    }

    // Its value, if it is a field.
    #[tactic(auto, using(crate::proofs::RoomLemmas::room_new))]
    fn record(&self) -> Record {
        let mut record = Record::new();
        self.view.get(&mut record);
        record
    }

    fn push_facts(&self, alloc: Global, told: &mut String) -> Result<(), Fail> {
        let bounds = self.view.bounds();
        let options = self.view.options().bits();
        let facts = format!(in alloc;
            "line {} {} {} {} {} {options:x}",
            self.view.id().0,
            bounds.a.x,
            bounds.a.y,
            bounds.b.x,
            bounds.b.y
        )?;
        Ok(push_token(told, &facts)?)
    }

    // Its flags and its value, and what else holds of it.
    fn push_state(&self, alloc: Global, told: &mut String) -> Result<(), Fail> {
        let flags = format!(in alloc; "{:x}", self.view.state().bits())?;
        push_token(told, &flags)?;
        push_word(told, &value_told(alloc, &self.record(), self.view.id())?)?;
        if self.view.held() {
            push_word(told, "held")?;
        }
        if self.view.first_invalid() == Some(self.view.id()) {
            push_word(told, "invalid")?;
        }
        // Whether it stands as the view after the button declares it.
        match self.lent.views.get(1) {
            Some(node) if self.view.is_fresh(node) => Ok(push_word(told, "fresh")?),
            _ => Ok(()),
        }
    }

    // What it has damaged, of which nothing is left.
    fn push_damage(&mut self, told: &mut String) -> Result<(), Fail> {
        push_token(told, damage_told(&self.damage, self.view.bounds()))?;
        self.damage.clear();
        Ok(())
    }

    // The characters or the attributes of its rectangle.
    fn push_shot(&self, alloc: Global, told: &mut String, is_colors: bool) -> Result<(), Fail> {
        let mut screen = Screen::new(alloc, 132, 60)?;
        let canvas = screen.canvas();
        self.view.draw(&mut screen, canvas, &self.lent.env());
        push_face(told, alloc, &screen, self.view.bounds(), is_colors)
    }
}

fn script_of(alloc: Global, line: &str) -> Result<Sequence<Item>, ScriptFault> {
    parse_items(alloc, line.as_bytes(), 200_000, 200_000)
}

// The event where points are seen from a corner.
fn moved(event: &Event, corner: Point) -> Event {
    match event {
        Event::Down(point) => Event::Down(from_corner(*point, corner)),
        Event::Move(point) => Event::Move(from_corner(*point, corner)),
        Event::Up(point) => Event::Up(from_corner(*point, corner)),
        other => *other,
    }
}

fn from_corner(point: Point, corner: Point) -> Point {
    Point {
        x: point.x.saturating_add(corner.x),
        y: point.y.saturating_add(corner.y),
    }
}
