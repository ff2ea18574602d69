//! Tests of the whole program over files, streams and a user in memory, and of its command line.
#![tactic(auto)]

#[cfg(test)]
mod applications;
#[cfg(test)]
mod at_limits;
#[cfg(test)]
mod command_lines;
#[cfg(test)]
mod counting;
#[cfg(test)]
mod endings;
#[cfg(test)]
mod failing_streams;
#[cfg(test)]
mod gallery;
#[cfg(test)]
mod limits;
#[cfg(test)]
mod messages;
#[cfg(test)]
mod passing_on;
#[cfg(test)]
mod pictures;
#[cfg(test)]
mod plays;
#[cfg(test)]
mod refusals;
#[cfg(test)]
mod shelf;
#[cfg(test)]
mod sink;
#[cfg(test)]
mod system_files;
#[cfg(test)]
mod user;
#[cfg(test)]
mod waits;
