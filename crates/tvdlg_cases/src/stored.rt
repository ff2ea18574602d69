//! Descriptions with scripts and what a run writes, each in a file.

use crate::judge::Judge;
use std::fs;
use std::rt::Files;

/// Performs the script NAME.tvs on NAME.tvd, which has to write NAME.out. If there is a NAME.cert, it has to be the certificate of
/// the description, which is written as it is printed.
pub fn take_stored<R: Files + AllocGlobal>(
    rt: &R,
    judge: &mut Judge,
    name: &str,
) -> anyhow::Result<()> {
    let desc = read(rt, name, "tvd")?;
    let script = read(rt, name, "tvs")?;
    let log = read(rt, name, "out")?;
    judge.take_run(name, (&desc, &script), &log)?;
    if let Ok(certificate) = read(rt, name, "cert") {
        judge.take_certificate(name, &desc, &certificate)?;
    }
    Ok(())
}

fn read<R: Files + AllocGlobal>(rt: &R, name: &str, ending: &str) -> anyhow::Result<String> {
    let path = format!(in rt.alloc(); "{name}.{ending}")?;
    Ok(fs::read_to_string(rt, path.as_str())?)
}
