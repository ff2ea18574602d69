//! Which declarations may come next.

ghost use Rattle.std.specs.Prelude.{◌≡◌, ◌≤◌, IfOk, None, Some, false, true};
ghost use Rattle.tv_model.specs.declared.desc.Desc.{Desc as SeenDesc};
ghost use Rattle.tv_model.specs.Description.Nodes.{is_dialog, is_window};
ghost use Rattle.tv_declarations.specs.Spelling.{is_text, is_view};
ghost use Rattle.tv_lang.specs.Reading.Stages.{beside, may_end_at, menu_taken, no_dialogs, no_menus, no_status, no_windows, node_opened, open_panes, panes_after, part_taken, rules_taken, screen_taken, declaration_taken, version_taken, view_taken, views_taken, window_taken, with_dialog};

use std::alloc::{AllocError, Global};
use tv_declarations::Declaration;
use tv_model::{Desc, Dialog, Kind, Menu, MenuItem, Node, OnHeap, Rule, Sequence, Window};

/// What may come next in a description.
#[derive(Drop)]
pub enum Stage {
    /// The version.
    Version,
    /// The screen.
    Screen,
    /// The start line, a menu, a status item, a window or a dialog, or the end of the text.
    Between,
    /// The items of this menu.
    InMenu(OnHeap<Menu>),
    /// The texts of this window.
    InWindow(OnHeap<Window>),
    /// More views of this dialog, inside as many panes as are open; or its rules.
    InViews { dialog: OnHeap<Dialog>, panes: u8 },
    /// The rules of this dialog.
    InRules(OnHeap<Dialog>),
}

// The stage after a declaration, where it can come there. The description then has what is declared.
//
// What can't come there is let go by a call of `drop`: at the end of its scope it would be taken apart field by field,
// which takes long to prove.
type Further = Option<Stage>;

impl Stage {
    /// Returns how many panes are open.
    pub fn open_panes(&self) -> u8
        ensures { result ≡ open_panes self.now }
    {
        match self {
            Stage::InViews { panes, .. } => *panes,
            _ => 0,
        }
    }

    /// Whether the text may end here.
    pub fn is_between(&self) -> bool
        ensures { result ≡ may_end_at self.now }
    {
        matches!(self, Stage::Between)
    }

    /// Takes the declaration, or returns `None` where it can't come here.
    pub fn take(
        self,
        alloc: Global,
        desc: &mut Desc,
        declaration: Declaration,
    ) -> Result<Further, AllocError>
        ensures { IfOk result (λ stage. beside desc.new stage ≡ declaration_taken self desc.old declaration) }
    {
        match self {
            Stage::Version => Ok(version(desc, declaration)),
            Stage::Screen => Ok(screen(desc, declaration)),
            Stage::Between => part(alloc, desc, declaration),
            Stage::InMenu(menu) => in_menu(desc, menu, declaration),
            Stage::InWindow(window) => in_window(desc, window, declaration),
            Stage::InViews { dialog, panes } => in_views(desc, dialog, panes, declaration),
            Stage::InRules(dialog) => in_rules(desc, dialog, declaration),
        }
    }
}

fn version(desc: &mut Desc, declaration: Declaration) -> Further
    ensures { beside desc.new result ≡ version_taken desc.old declaration }
{
    match declaration {
        Declaration::Version(version) => {
            drop(declaration);
            desc.version = version;
            Some(Stage::Screen)
        }
        _ => {
            drop(declaration);
            None
        }
    }
}

fn screen(desc: &mut Desc, declaration: Declaration) -> Further
    ensures { beside desc.new result ≡ screen_taken desc.old declaration }
{
    match declaration {
        Declaration::Screen { width, height } => {
            drop(declaration);
            desc.width = width;
            desc.height = height;
            Some(Stage::Between)
        }
        _ => {
            drop(declaration);
            None
        }
    }
}

fn no_dialogs(desc: &Desc) -> bool
    ensures { result ≡ no_dialogs desc.now }
{
    desc.dialogs.as_slice().is_empty()
}

fn no_windows(desc: &Desc) -> bool
    ensures { result ≡ no_windows desc.now }
{
    desc.windows.as_slice().is_empty() && no_dialogs(desc)
}

fn no_status(desc: &Desc) -> bool
    ensures { result ≡ no_status desc.now }
{
    desc.status.as_slice().is_empty() && no_windows(desc)
}

fn no_menus(desc: &Desc) -> bool
    ensures { result ≡ no_menus desc.now }
{
    desc.menus.as_slice().is_empty() && no_status(desc)
}

// The parts come in this order.
fn part(alloc: Global, desc: &mut Desc, declaration: Declaration) -> Result<Further, AllocError>
    ensures { IfOk result (λ stage. beside desc.new stage ≡ part_taken desc.old declaration) }
{
    match declaration {
        Declaration::Start(name) if desc.start.is_none() && no_menus(desc) => {
            desc.start = Some(name);
            Ok(Some(Stage::Between))
        }
        Declaration::Menu { id, title } if no_status(desc) => {
            let items = Sequence::new(alloc);
            let menu = OnHeap::new(alloc, Menu { id, title, items })?;
            Ok(Some(Stage::InMenu(menu)))
        }
        Declaration::Status(item) if no_windows(desc) => {
            desc.status.push(item)?;
            Ok(Some(Stage::Between))
        }
        Declaration::Node(node) => opened(alloc, desc, node),
        _ => {
            drop(declaration);
            Ok(None)
        }
    }
}

fn opened(alloc: Global, desc: &Desc, node: Node) -> Result<Further, AllocError>
    ensures { IfOk result (λ stage. beside desc.now stage ≡ node_opened desc.now node) }
{
    if node.kind.is_window() {
        window_opened(alloc, desc, node)
    } else if node.kind.is_dialog() {
        dialog_opened(alloc, node)
    } else {
        drop(node);
        Ok(None)
    }
}

fn window_opened(alloc: Global, desc: &Desc, node: Node) -> Result<Further, AllocError>
    requires { is_window node.kind ≡ true }
    ensures { IfOk result (λ stage. beside desc.now stage ≡ node_opened desc.now node) }
{
    if no_dialogs(desc) {
        let views = Sequence::new(alloc);
        let window = OnHeap::new(alloc, Window { node, views })?;
        Ok(Some(Stage::InWindow(window)))
    } else {
        drop(node);
        Ok(None)
    }
}

fn dialog_opened(alloc: Global, node: Node) -> Result<Further, AllocError>
    requires { is_dialog node.kind ≡ true }
    ensures { IfOk result (λ stage. (desc : SeenDesc) → beside desc stage ≡ node_opened desc node) }
{
    let views = Sequence::new(alloc);
    let rules = Sequence::new(alloc);
    let dialog = OnHeap::new(alloc, Dialog { node, views, rules })?;
    Ok(Some(Stage::InViews { dialog, panes: 0 }))
}

fn in_menu(
    desc: &mut Desc,
    menu: OnHeap<Menu>,
    declaration: Declaration,
) -> Result<Further, AllocError>
    ensures { IfOk result (λ stage. beside desc.new stage ≡ menu_taken desc.old menu declaration) }
{
    match declaration {
        Declaration::Item(item) => with_item(menu, item),
        Declaration::End => with_menu(desc, menu),
        _ => {
            drop(declaration);
            Ok(None)
        }
    }
}

fn with_item(mut menu: OnHeap<Menu>, item: MenuItem) -> Result<Further, AllocError>
    ensures { IfOk result (λ stage. (desc : SeenDesc) → beside desc stage ≡ menu_taken desc menu (Declaration.Item item)) }
{
    menu.value.items.push(item)?;
    Ok(Some(Stage::InMenu(menu)))
}

// A menu has an item at least.
fn with_menu(desc: &mut Desc, menu: OnHeap<Menu>) -> Result<Further, AllocError>
    ensures { IfOk result (λ stage. beside desc.new stage ≡ menu_taken desc.old menu Declaration.End) }
{
    let menu = menu.into_inner();
    if menu.items.as_slice().is_empty() {
        return Ok(None);
    }
    desc.menus.push(menu)?;
    Ok(Some(Stage::Between))
}

// A window holds static texts alone.
fn with_text(mut window: OnHeap<Window>, view: Node) -> Result<Further, AllocError>
    ensures { IfOk result (λ stage. (desc : SeenDesc) → beside desc stage ≡ window_taken desc window (Declaration.Node view)) }
{
    if !is_text(&view.kind) {
        drop(view);
        return Ok(None);
    }
    window.value.views.push(view)?;
    Ok(Some(Stage::InWindow(window)))
}

fn with_window(desc: &mut Desc, window: OnHeap<Window>) -> Result<Further, AllocError>
    ensures { IfOk result (λ stage. beside desc.new stage ≡ window_taken desc.old window Declaration.End) }
{
    desc.windows.push(window.into_inner())?;
    Ok(Some(Stage::Between))
}

fn in_window(
    desc: &mut Desc,
    window: OnHeap<Window>,
    declaration: Declaration,
) -> Result<Further, AllocError>
    ensures { IfOk result (λ stage. beside desc.new stage ≡ window_taken desc.old window declaration) }
{
    match declaration {
        Declaration::Node(view) => with_text(window, view),
        Declaration::End => with_window(desc, window),
        _ => {
            drop(declaration);
            Ok(None)
        }
    }
}

fn in_views(
    desc: &mut Desc,
    dialog: OnHeap<Dialog>,
    panes: u8,
    declaration: Declaration,
) -> Result<Further, AllocError>
    ensures { IfOk result (λ stage. beside desc.new stage ≡ views_taken desc.old dialog panes declaration) }
{
    match declaration {
        Declaration::Node(view) => with_view(dialog, panes, view),
        Declaration::End if panes > 0 => {
            let panes = panes - 1;
            Ok(Some(Stage::InViews { dialog, panes }))
        }
        Declaration::End => with_dialog(desc, dialog),
        Declaration::Rule(rule) if panes == 0 => with_rule(dialog, rule),
        _ => {
            drop(declaration);
            Ok(None)
        }
    }
}

fn with_view(mut dialog: OnHeap<Dialog>, panes: u8, view: Node) -> Result<Further, AllocError>
    ensures { IfOk result (λ stage. (desc : SeenDesc) → beside desc stage ≡ view_taken desc dialog panes view) }
{
    if !is_view(&view.kind) {
        drop(view);
        return Ok(None);
    }
    let Some(panes) = panes_after(panes, &view) else {
        drop(view);
        return Ok(None);
    };
    dialog.value.views.push(view)?;
    Ok(Some(Stage::InViews { dialog, panes }))
}

// The panes that are open after a view. There may be 16 at most.
fn panes_after(panes: u8, view: &Node) -> Option<u8>
    ensures { result ≡ panes_after panes view.now }
{
    if !view.kind.is_pane() {
        Some(panes)
    } else if panes < 16 {
        Some(panes + 1)
    } else {
        None
    }
}

fn in_rules(
    desc: &mut Desc,
    dialog: OnHeap<Dialog>,
    declaration: Declaration,
) -> Result<Further, AllocError>
    ensures { IfOk result (λ stage. beside desc.new stage ≡ rules_taken desc.old dialog declaration) }
{
    match declaration {
        Declaration::Rule(rule) => with_rule(dialog, rule),
        Declaration::End => with_dialog(desc, dialog),
        _ => {
            drop(declaration);
            Ok(None)
        }
    }
}

fn with_rule(mut dialog: OnHeap<Dialog>, rule: Rule) -> Result<Further, AllocError>
    ensures { IfOk result (λ stage. (desc : SeenDesc) → beside desc stage ≡ rules_taken desc dialog (Declaration.Rule rule)) }
{
    dialog.value.rules.push(rule)?;
    Ok(Some(Stage::InRules(dialog)))
}

fn with_dialog(desc: &mut Desc, dialog: OnHeap<Dialog>) -> Result<Further, AllocError>
    ensures { IfOk result (λ stage. beside desc.new stage ≡ with_dialog desc.old dialog) }
{
    desc.dialogs.push(dialog.into_inner())?;
    Ok(Some(Stage::Between))
}

fn is_text(kind: &Kind) -> bool
    ensures { result ≡ is_text kind.now }
{
    matches!(kind, Kind::Text(_))
}

fn is_view(kind: &Kind) -> bool
    ensures { result ≡ is_view kind.now }
{
    !kind.is_window() && !kind.is_dialog()
}
