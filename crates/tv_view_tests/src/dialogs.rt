//! A dialog of four probed buttons in two panes, by which several tests go.

ghost use Rattle.std.specs.Prelude.{◌≡◌, ◌≤ℤ◌, IfOk, IfSome, Some, pos, true};
ghost use Rattle.tv_model.specs.Description.LawfulNodes.{IsLawfulCommand, IsLawfulNode};
ghost use Rattle.tv_dialog.specs.Head.{IsLimitedDialogHead, declared_dialog_head};
ghost use Rattle.tv_faces.specs.Corners.{IsCorner};
ghost use Rattle.tv_model.specs.Description.Rectangles.{corner_of};

use crate::journal::{Journal, Told};
use crate::nodes::button_node;
use crate::samples::{env, sized};
use crate::views::Probe;
use std::alloc::Global;
use std::rc::Rc;
use std::test::Fail;
use tv_cells::{Damage, Point, Rect};
use tv_controls::Button;
use tv_dialog::DialogOf;
use tv_event::{Command, CommandSet, Event};
use tv_group::{GroupOf, MemberOf};
use tv_model::{CommandSpec, DialogHead, Ends, Id, Kind, Node, Pane, Record};
use tv_palette::{Chain, Owner};
use tv_valid::Chars;

/// The dialog's own line.
pub const DIALOG: u32 = 1;

/// The buttons, in order. The panes have lines 2 and 5.
pub const BUTTONS: [u32; 4] = [LOG, MORE, SAVE, CANCEL];

pub const LOG: u32 = 3;

pub const MORE: u32 = 4;

pub const SAVE: u32 = 6;

pub const CANCEL: u32 = 7;

/// What the buttons give, but for the one that cancels the dialog.
pub const OWN: Command = Command(120);

// A button that notes what it is told.
type Probed = Probe<Button>;

fn dialog_node(alloc: Global) -> Node
    ensures head { IfSome (declared_dialog_head result) IsLimitedDialogHead }
    ensures corner { IsCorner (corner_of result) }
{
    Node {
        id: Id(DIALOG),
        depth: 0,
        x: 2,
        y: 2,
        w: 30,
        kind: Kind::Dialog(DialogHead {
            name: Chars::new(alloc),
            h: 10,
            title: Chars::new(alloc),
            opens: None,
            ends: Ends {
                ok: false,
                cancel: true,
                yes: false,
                no: false,
            },
        }),
    }
}

fn pane_node(alloc: Global, id: u32, y: i32) -> Node {
    Node {
        id: Id(id),
        depth: 0,
        x: 1,
        y,
        w: 20,
        kind: Kind::Pane(Pane {
            name: Chars::new(alloc),
            h: 2,
        }),
    }
}

// A button in the first row of its pane.
fn node(alloc: Global, id: u32, x: i32, text: &str, command: CommandSpec) -> Result<Node, Fail>
    requires across { (pos 0 ≤ℤ x) × (x ≤ℤ pos 50) }
    requires command { IsLawfulCommand (Some command) }
    ensures { IfOk result IsLawfulNode }
{
    let node = button_node(alloc, id, Point { x, y: 0 }, text, command)?;
    Ok(Node { depth: 1, ..node })
}

fn button(alloc: Global, id: u32) -> Result<Node, Fail>
    ensures { IfOk result IsLawfulNode }
{
    match id {
        LOG => node(alloc, id, 0, "Log", CommandSpec::Number(120)),
        MORE => node(alloc, id, 9, "More", CommandSpec::Number(120)),
        SAVE => node(alloc, id, 0, "Save", CommandSpec::Number(120)),
        _ => node(alloc, id, 9, "Cancel", CommandSpec::Cancel),
    }
}

// The views as they are declared, panes opened out.
fn views(alloc: Global) -> Result<Vec<Node>, Fail> {
    let mut views = Vec::new(alloc);
    views.push(pane_node(alloc, 2, 1))?;
    views.push(button(alloc, LOG)?)?;
    views.push(button(alloc, MORE)?)?;
    views.push(pane_node(alloc, 5, 4))?;
    views.push(button(alloc, SAVE)?)?;
    views.push(button(alloc, CANCEL)?)?;
    Ok(views)
}

// By a function of its own, as in `forms`: the node is alive over no call that may fail.
fn leaf_of(alloc: Global, node: &Node, journal: &Rc<Journal>) -> Result<MemberOf<Probed>, Fail>
    requires { IsLawfulNode node.now }
{
    let probe = Probe::new(Button::new(alloc, node)?, journal)?;
    Ok(MemberOf::Leaf(probe))
}

fn leaf(alloc: Global, id: u32, journal: &Rc<Journal>) -> Result<MemberOf<Probed>, Fail> {
    let node = button(alloc, id)?;
    leaf_of(alloc, &node, journal)
}

// A pane of two buttons.
fn pane(
    alloc: Global,
    y: i32,
    ids: (u32, u32),
    journal: &Rc<Journal>,
) -> Result<MemberOf<Probed>, Fail>
    requires { (pos 0 ≤ℤ y) × (y ≤ℤ pos 50) }
{
    let mut members = Vec::new(alloc);
    members.push(leaf(alloc, ids.0, journal)?)?;
    members.push(leaf(alloc, ids.1, journal)?)?;
    let bounds = Rect {
        a: Point { x: 1, y },
        b: Point { x: 21, y: y + 2 },
    };
    let group = GroupOf::new(bounds, members).ok().ok_or("one level")?;
    Ok(MemberOf::Pane(group))
}

fn body(alloc: Global, journal: &Rc<Journal>) -> Result<GroupOf<Probed>, Fail> {
    let mut members = Vec::new(alloc);
    members.push(pane(alloc, 1, (LOG, MORE), journal)?)?;
    members.push(pane(alloc, 4, (SAVE, CANCEL), journal)?)?;
    Ok(
        GroupOf::new(sized(30, 10), members)
            .ok()
            .ok_or("two levels")?,
    )
}

// Opens a dialog of buttons, which have no values.
fn open(dialog: &mut DialogOf<Probed>)
    ensures { dialog.new.is_open ≡ true }
{
    dialog.reopen(&Record::new(), &mut Damage::new());
}

/// An event that the dialog is handed, and what comes of it.
#[derive(Clone, Copy)]
pub struct Step {
    pub event: Event,
    /// The lines that it logs.
    pub log: &'static str,
    /// What its buttons are told.
    pub told: &'static [Told],
    /// Whether a button holds the mouse then.
    pub is_held: bool,
    /// The command by which the dialog has ended then, if it has.
    pub ended: Option<Command>,
}

// The dialog, with what it is lent and what its buttons were told.
#[derive(Drop)]
struct Scene {
    alloc: Global,
    dialog: DialogOf<Probed>,
    views: Vec<Node>,
    chain: Chain,
    commands: CommandSet,
    journal: Rc<Journal>,
}

impl Scene {
    // The dialog as it opens, with the focus on its first button. What the buttons were told of that isn't noted.
    fn new(alloc: Global) -> Result<Scene, Fail> {
        let journal = Journal::new(alloc)?;
        let views = views(alloc)?;
        let body = body(alloc, &journal)?;
        let made = DialogOf::new(alloc, &dialog_node(alloc), &views, &[], body);
        let mut dialog = made.ok().ok_or("a dialog's node")?;
        open(&mut dialog);
        journal.taken()?;
        Ok(Scene {
            alloc,
            dialog,
            views,
            chain: Chain::of_dialog(),
            commands: CommandSet::all(),
            journal,
        })
    }

    // Fails unless the dialog, which is to be open, logs these lines at an event.
    fn expect_log(&mut self, event: &Event, log: &str) -> Result<(), Fail> {
        if !self.dialog.is_open() {
            Err("it has ended")?;
        }
        let env = env(Owner::Dialog, &self.chain, &self.commands, &self.views);
        self.dialog.step(event, &env, &mut Damage::new());
        let logged = format!(in self.alloc; "{:?}", self.dialog.log())?;
        if logged.as_str() == log {
            return Ok(());
        }
        Err(Fail::new(logged))
    }

    fn expect(&mut self, step: &Step) -> Result<(), Fail> {
        self.expect_log(&step.event, step.log)?;
        self.journal.expect_told(step.told)?;
        if self.dialog.held() != step.is_held {
            return Err("the mouse is held otherwise".into());
        }
        if self.dialog.is_open() == step.ended.is_none() && self.dialog.ended() == step.ended {
            return Ok(());
        }
        Err("it hasn't ended so".into())
    }
}

/// Fails unless the dialog goes through these steps, from its opening on, as they want it.
pub fn expect_steps(alloc: Global, steps: &[Step]) -> Result<(), Fail> {
    let mut scene = Scene::new(alloc)?;
    for step in steps {
        scene.expect(step)?;
    }
    Ok(())
}
