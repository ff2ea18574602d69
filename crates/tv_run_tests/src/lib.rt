//! Tests of runs over boxed controls of all seven kinds, made by a loop over the plan of a checked description, and of the
//! dialogs and groups that such controls stand in; and of what a program of one's own draws and is told.
#![tactic(auto)]

#[cfg(test)]
mod allocations;
#[cfg(test)]
mod asked;
#[cfg(test)]
mod bodies;
#[cfg(test)]
mod constructors;
#[cfg(test)]
mod dragging;
#[cfg(test)]
mod fitting;
#[cfg(test)]
mod going_on;
#[cfg(test)]
mod large;
#[cfg(test)]
mod long_scripts;
#[cfg(test)]
mod making;
#[cfg(test)]
mod mismatches;
#[cfg(test)]
mod naming;
#[cfg(test)]
mod news;
#[cfg(test)]
mod opening;
#[cfg(test)]
mod pieces;
#[cfg(test)]
mod probes;
#[cfg(test)]
mod repainted;
#[cfg(test)]
mod running;
#[cfg(test)]
mod sheets;
#[cfg(test)]
mod stepping;
#[cfg(test)]
mod steps;
#[cfg(test)]
mod streams;
#[cfg(test)]
mod telling;
#[cfg(test)]
mod terminals;
#[cfg(test)]
mod walks;
#[cfg(test)]
mod writers;
