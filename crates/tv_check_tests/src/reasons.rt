//! What is said of an input that refuses a text.

use std::alloc::{AllocError, Global};
use std::test::Fail;
use tv_lang::parse;
use tv_model::{Desc, Id};
use tv_reasons::reason;
use tv_test_support::{Question, expect_answers};

// What is said of each view of a description while it is shown, and while it is hidden.
struct Telling;

impl Question for Telling {
    fn answer(&self, alloc: Global, text: &[u8]) -> Result<String, Fail> {
        let desc = parse(alloc, text)?;
        let mut told = String::new(alloc);
        for dialog in desc.dialogs.as_slice() {
            for node in dialog.views.as_slice() {
                push_reason(&mut told, &desc, node.id, false)?;
                push_reason(&mut told, &desc, node.id, true)?;
            }
        }
        Ok(told)
    }
}

// A line for what is said, and none where nothing is.
fn push_reason(told: &mut String, desc: &Desc, id: Id, is_hidden: bool) -> Result<(), AllocError> {
    let line = reason(desc, id, is_hidden);
    if line.as_slice().is_empty() {
        return Ok(());
    }
    for ch in line.as_slice() {
        told.push(*ch)?;
    }
    told.push('\n')
}

const DIALOG: &str = "tvd 1\nscreen 40 12\ndialog form 2 1 30 9 \"Form\" ends cancel\n";

fn expect_told(rt: HostRuntime, table: &str) -> Result<(), Fail> {
    expect_answers(&Telling, rt.alloc(), DIALOG, table, "end\n")
}

const TEXTS: &str = r###"input name 2 1 10 20 any ""
=> name: at most 20 characters
=> name is hidden, and has to be at most 20 characters
input initial 2 1 10 1 any "" optional
=> initial: at most 1 character
=> initial is hidden, and has to be at most 1 character
input colour 2 1 9 6 filter "0123456789abcdef" "1f1e7f" optional
=> colour: at most 6 characters, each of 0123456789abcdef
=> colour is hidden, and has to be at most 6 characters, each of 0123456789abcdef
input phone 2 1 9 15 filter "+ 0123456789" ""
=> phone: at most 15 characters, each of +0123456789 or a space
=> phone is hidden, and has to be at most 15 characters, each of +0123456789 or a space
input gap 2 1 9 3 filter "  " ""
=> gap: at most 3 characters, each of a space
=> gap is hidden, and has to be at most 3 characters, each of a space
"###;

#[test]
fn texts(rt: HostRuntime) -> Result<(), Fail> {
    expect_told(rt, TEXTS)
}

// Ranges of which all numbers fit, and others.
const NUMBERS: &str = r###"input amount 2 1 8 4 range -5 5 "1" validate
=> amount: a number from -5 to 5
=> amount is hidden, and has to be a number from -5 to 5
input qty 2 1 8 1 range 0 9 "" optional
=> qty: a number from 0 to 9, or nothing
=> qty is hidden, and has to be a number from 0 to 9, or nothing
input qty 2 1 8 1 range 0 10 ""
=> qty: a number from 0 to 10, in at most 1 character
=> qty is hidden, and has to be a number from 0 to 10, in at most 1 character
input debt 2 1 8 3 range -1000 0 "" optional
=> debt: a number from -1000 to 0, in at most 3 characters, or nothing
=> debt is hidden, and has to be a number from -1000 to 0, in at most 3 characters, or nothing
input all 2 1 8 11 range -2147483648 2147483647 ""
=> all: a number from -2147483648 to 2147483647
=> all is hidden, and has to be a number from -2147483648 to 2147483647
"###;

#[test]
fn numbers(rt: HostRuntime) -> Result<(), Fail> {
    expect_told(rt, NUMBERS)
}

// Pictures of which every text fits, and others.
const PICTURES: &str = r###"input date 2 1 12 10 picture "##/##/####" ""
=> date: as ##/##/####
=> date is hidden, and has to be as ##/##/####
input card 2 1 22 19 picture "*3{*4#-}*4#" "" optional fill
=> card: as *3{*4#-}*4#, or nothing
=> card is hidden, and has to be as *3{*4#-}*4#, or nothing
input what 2 1 28 80 picture "@*@" ""
=> what: as @*@, in at most 80 characters
=> what is hidden, and has to be as @*@, in at most 80 characters
input zone 2 1 12 2 picture "##[#]" ""
=> zone: as ##[#], in at most 2 characters
=> zone is hidden, and has to be as ##[#], in at most 2 characters
"###;

#[test]
fn pictures(rt: HostRuntime) -> Result<(), Fail> {
    expect_told(rt, PICTURES)
}

// Characters that no terminal shows in one column, and a line that doesn't fit.
const CUT: &str = r###"input code 2 1 10 8 filter "0漢\n" ""
=> code: at most 8 characters, each of 0??
=> code is hidden, and has to be at most 8 characters, each of 0??
input code 2 1 10 8 filter "aaaaaaaaaabbbbbbbbbbccccccccccddddddddddeeeeeeeeeeffffffffffgggggggggghhhhhhhhhhiiiiiiiiiijjjjjjjjjj" ""
=> code: at most 8 characters, each of aaaaaaaaaabbbbbbbbbbccccccccccddddddddddeeeeeeeeeeffffffffffgggggggggghhhhhhhhhhiiiiiiiiiijjjjjj
=> code is hidden, and has to be at most 8 characters, each of aaaaaaaaaabbbbbbbbbbccccccccccddddddddddeeeeeeeeeeffffffffffgggggggggghh
"###;

#[test]
fn cut_lines(rt: HostRuntime) -> Result<(), Fail> {
    expect_told(rt, CUT)
}

// Nothing is said of other views, and of what isn't there.
const OTHERS: &str = r###"button shut 2 7 9 "Close" cancel
text 2 1 10 1 "Name"
label 2 2 10 "Name" name
input name 2 3 10 4 any ""
=> name: at most 4 characters
=> name is hidden, and has to be at most 4 characters
"###;

#[test]
fn others(rt: HostRuntime) -> Result<(), Fail> {
    expect_told(rt, OTHERS)
}

#[test]
fn nothing_there(rt: HostRuntime) -> Result<(), Fail> {
    let desc = parse(rt.alloc(), b"tvd 1\nscreen 40 12\n")?;
    let line = reason(&desc, Id(7), false);
    if line.as_slice().is_empty() {
        return Ok(());
    }
    Err(Fail::new("something is said of nothing"))
}
