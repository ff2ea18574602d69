//! Performs cases: command lines over files in memory, each with what the program has to tell.
//!
//! The words of the command line name files of cases, or descriptions with what a run writes. It prints how many cases each of
//! them has, and which of these tell something else than is wanted.
#![tactic(auto)]

mod desk;
mod judge;
mod part;
mod row;
mod stored;
mod told;

use crate::judge::Judge;
use crate::stored::take_stored;
use std::process::ExitCode;
use std::{env, fs};

fn main(rt: HostRuntime) -> anyhow::Result<ExitCode> {
    let mut wrong = 0_u32;
    for name in env::args(&rt)?.skip(1) {
        let mut judge = Judge::new(rt.alloc());
        if name.ends_with(".case") {
            let text = fs::read_to_string(&rt, name.as_str())?;
            judge.take_cases(&text)?;
        } else {
            take_stored(&rt, &mut judge, &name)?;
        }
        println!(rt; "{name}: {} cases", judge.count())?;
        print!(rt; "{}", judge.report())?;
        wrong = wrong.saturating_add(judge.wrong());
    }
    Ok(ExitCode::from(u8::from(wrong > 0)))
}
