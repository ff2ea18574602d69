//! The declarations of a description.

ghost use Rattle.std.specs.Prelude.{◌≡◌, IfOk, IfSome, Some};
ghost use Rattle.tv_declarations.specs.declared.declaration.Declaration.{Declaration as SeenDeclaration};
ghost use Rattle.tv_declarations.specs.Spelling.Declarations.{IsDeclarationLine};
ghost use Rattle.tv_declarations.specs.Reading.Declarations.{version_in, screen_in, start_in, menu_in, item_in, status_in, rule_in, show_in, enable_in, end_in, node_declared, line_in, declaration_in};

use crate::commands::command;
use crate::keys::key;
use crate::keywords;
use crate::node::{mark, node};
use crate::place::Position;
use std::alloc::{AllocError, Global};
use tv_model::{Effect, Id, MarkedText, MenuItem, Node, Rule, StatusItem, Version};
use tv_valid::Chars;
use tv_words::Word;

/// What a line of a description declares.
#[derive(Drop)]
pub enum Declaration {
    /// The version of the language.
    Version(Version),
    Screen { width: i32, height: i32 },
    /// The dialog that is open at the start.
    Start(Chars),
    Menu { id: Id, title: MarkedText },
    Item(MenuItem),
    Status(StatusItem),
    /// A window, a dialog, or a view of one.
    Node(Node),
    Rule(Rule),
    /// The end of a menu, a window, a dialog or a pane.
    End,
}

/// Reads the declaration that the words of a line at this position spell, or returns `None` where they spell none.
pub fn declared(
    alloc: Global,
    at: Position,
    words: &[Word],
) -> Result<Option<Declaration>, AllocError>
    ensures read { IfOk result (λ found. found ≡ declaration_in at words.now) }
    ensures spelled { IfOk result (λ found. IfSome found (λ declaration. IsDeclarationLine at declaration words.now)) }
    ensures only { IfOk result (λ found. (declaration : SeenDeclaration) → IsDeclarationLine at declaration words.now
        → found ≡ Some declaration) }
{
    read(alloc, at, words)
}

fn read(alloc: Global, at: Position, words: &[Word]) -> Result<Option<Declaration>, AllocError>
    ensures { IfOk result (λ found. found ≡ declaration_in at words.now) }
{
    match words {
        [keyword, fields @ ..] => line(alloc, at, keyword, fields),
        [] => Ok(None),
    }
}

fn line(
    alloc: Global,
    at: Position,
    keyword: &Word,
    fields: &[Word],
) -> Result<Option<Declaration>, AllocError>
    ensures { IfOk result (λ found. found ≡ line_in at keyword.now fields.now) }
{
    if keyword.is(keywords::TVD) {
        Ok(version(fields))
    } else if keyword.is(keywords::SCREEN) {
        Ok(screen(fields))
    } else if keyword.is(keywords::START) {
        start(alloc, fields)
    } else if keyword.is(keywords::MENU) {
        menu(alloc, at, fields)
    } else if keyword.is(keywords::ITEM) {
        item(alloc, at, fields)
    } else if keyword.is(keywords::STATUS) {
        status(alloc, at, fields)
    } else if keyword.is(keywords::SHOW) {
        show(alloc, at, fields)
    } else if keyword.is(keywords::ENABLE) {
        enable(alloc, at, fields)
    } else if keyword.is(keywords::END) {
        Ok(end(fields))
    } else {
        node_declared(alloc, at, keyword, fields)
    }
}

fn version(fields: &[Word]) -> Option<Declaration>
    ensures { result ≡ version_in fields.now }
{
    match fields {
        [version] if version.is(b"1") => Some(Declaration::Version(Version::One)),
        [version] if version.is(b"2") => Some(Declaration::Version(Version::Two)),
        _ => None,
    }
}

fn screen(fields: &[Word]) -> Option<Declaration>
    ensures { result ≡ screen_in fields.now }
{
    match fields {
        [width, height] => Some(Declaration::Screen {
            width: width.number()?,
            height: height.number()?,
        }),
        _ => None,
    }
}

fn start(alloc: Global, fields: &[Word]) -> Result<Option<Declaration>, AllocError>
    ensures { IfOk result (λ found. found ≡ start_in fields.now) }
{
    let [name] = fields else {
        return Ok(None);
    };
    let Some(name) = name.name() else {
        return Ok(None);
    };
    Ok(Some(Declaration::Start(name.copy(alloc)?)))
}

fn menu(alloc: Global, at: Position, fields: &[Word]) -> Result<Option<Declaration>, AllocError>
    ensures { IfOk result (λ found. found ≡ menu_in at fields.now) }
{
    let [title] = fields else {
        return Ok(None);
    };
    let Some(title) = mark(alloc, title)? else {
        return Ok(None);
    };
    Ok(Some(Declaration::Menu { id: at.id, title }))
}

fn item(alloc: Global, at: Position, fields: &[Word]) -> Result<Option<Declaration>, AllocError>
    ensures { IfOk result (λ found. found ≡ item_in at fields.now) }
{
    let [text, does] = fields else {
        return Ok(None);
    };
    let (Some(text), Some(command)) = (mark(alloc, text)?, command(does)) else {
        return Ok(None);
    };
    Ok(Some(Declaration::Item(MenuItem {
        id: at.id,
        text,
        command,
    })))
}

fn status(alloc: Global, at: Position, fields: &[Word]) -> Result<Option<Declaration>, AllocError>
    ensures { IfOk result (λ found. found ≡ status_in at fields.now) }
{
    let [text, pressed, does] = fields else {
        return Ok(None);
    };
    let (Some(text), Some(key), Some(command)) = (text.text(), key(pressed), command(does)) else {
        return Ok(None);
    };
    let text = text.copy(alloc)?;
    Ok(Some(Declaration::Status(StatusItem {
        id: at.id,
        text,
        key,
        command,
    })))
}

fn show(alloc: Global, at: Position, fields: &[Word]) -> Result<Option<Declaration>, AllocError>
    ensures { IfOk result (λ found. found ≡ show_in at fields.now) }
{
    let [name, condition @ ..] = fields else {
        return Ok(None);
    };
    let Some(name) = name.name() else {
        return Ok(None);
    };
    let effect = Effect::Show(name.copy(alloc)?);
    rule(alloc, at, effect, condition)
}

fn enable(alloc: Global, at: Position, fields: &[Word]) -> Result<Option<Declaration>, AllocError>
    ensures { IfOk result (λ found. found ≡ enable_in at fields.now) }
{
    let [does, condition @ ..] = fields else {
        return Ok(None);
    };
    match command(does) {
        Some(command) => rule(alloc, at, Effect::Enable(command), condition),
        None => Ok(None),
    }
}

// The rule of this effect, under the condition that the other words say.
fn rule(
    alloc: Global,
    at: Position,
    effect: Effect,
    condition: &[Word],
) -> Result<Option<Declaration>, AllocError>
    ensures { IfOk result (λ found. found ≡ rule_in at effect condition.now) }
{
    let [keyword, cluster, item] = condition else {
        return Ok(None);
    };
    if !keyword.is(keywords::WHEN) {
        return Ok(None);
    }
    let (Some(cluster), Some(item)) = (cluster.name(), item.number()) else {
        return Ok(None);
    };
    let cluster = cluster.copy(alloc)?;
    Ok(Some(Declaration::Rule(Rule {
        id: at.id,
        effect,
        cluster,
        item,
    })))
}

fn end(fields: &[Word]) -> Option<Declaration>
    ensures { result ≡ end_in fields.now }
{
    if fields.is_empty() {
        Some(Declaration::End)
    } else {
        None
    }
}

fn node_declared(
    alloc: Global,
    at: Position,
    keyword: &Word,
    fields: &[Word],
) -> Result<Option<Declaration>, AllocError>
    ensures { IfOk result (λ found. found ≡ node_declared at keyword.now fields.now) }
{
    match node(alloc, at, keyword, fields)? {
        Some(node) => Ok(Some(Declaration::Node(node))),
        None => Ok(None),
    }
}
