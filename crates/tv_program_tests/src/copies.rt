//! Copies of nodes.

use std::alloc::{AllocError, Global};
use std::test::Fail;
use tv_lang::{LangFault, parse};
use tv_model::{Desc, Node};
use tv_test_support::descriptions::{COLOUR, ORDER, WINDOWS};
use tv_test_support::large::large_description;
use tv_test_support::{Question, expect_answer, expect_rows};

/// How many nodes a description has. Each of them is copied, and has to be the same as its copy.
#[derive(Clone, Copy)]
struct Copying;

impl Question for Copying {
    fn answer(&self, alloc: Global, text: &[u8]) -> Result<String, Fail> {
        let desc = desc_of(alloc, text)?;
        let count = copied(alloc, &desc)?;
        Ok(format!(in alloc; "{count} nodes\n")?)
    }
}

fn desc_of(alloc: Global, text: &[u8]) -> Result<Desc, LangFault> {
    parse(alloc, text)
}

fn copied(alloc: Global, desc: &Desc) -> Result<usize, Fail> {
    let mut count = 0usize;
    for window in desc.windows.as_slice() {
        let more = copied_within(alloc, &window.node, window.views.as_slice())?;
        count = count.saturating_add(more);
    }
    for dialog in desc.dialogs.as_slice() {
        let more = copied_within(alloc, &dialog.node, dialog.views.as_slice())?;
        count = count.saturating_add(more);
    }
    Ok(count)
}

// The number of a window's or dialog's nodes, itself among them.
fn copied_within(alloc: Global, owner: &Node, views: &[Node]) -> Result<usize, Fail> {
    expect_copied(alloc, owner)?;
    for view in views {
        expect_copied(alloc, view)?;
    }
    Ok(views.len().saturating_add(1))
}

fn expect_copied(alloc: Global, node: &Node) -> Result<(), Fail> {
    if is_copied(alloc, node)? {
        return Ok(());
    }
    Err(Fail::new(format_args!("another copy of line {}", node.id.0)))
}

fn is_copied(alloc: Global, node: &Node) -> Result<bool, AllocError> {
    Ok(node.copy(alloc)?.is(node))
}

#[test]
fn copied_nodes(rt: HostRuntime) -> Result<(), Fail> {
    const ROWS: [(&str, &str); 3] = [
        (ORDER, "9 nodes\n"),
        (COLOUR, "4 nodes\n"),
        (WINDOWS, "4 nodes\n"),
    ];
    expect_rows(&Copying, rt.alloc(), &ROWS)
}

// Where there is memory, nothing is refused for the want of it.
#[test]
fn large_copies(rt: HostRuntime) -> Result<(), Fail> {
    let desc = large_description(rt.alloc())?;
    expect_answer(&Copying, rt.alloc(), &desc, "1625 nodes\n")
}
