//! Tests of views: controls and bars by themselves, and groups and windows together, a view of their own among them.
#![tactic(auto)]

#[cfg(test)]
mod broadcasts;
#[cfg(test)]
mod controls;
#[cfg(test)]
mod damages;
#[cfg(test)]
mod depths;
#[cfg(test)]
mod dialogs;
#[cfg(test)]
mod downs;
#[cfg(test)]
mod edges;
#[cfg(test)]
mod forms;
#[cfg(test)]
mod journal;
#[cfg(test)]
mod nodes;
#[cfg(test)]
mod own_control;
#[cfg(test)]
mod phases;
#[cfg(test)]
mod queue;
#[cfg(test)]
mod samples;
#[cfg(test)]
mod stacks;
#[cfg(test)]
mod steps;
#[cfg(test)]
mod two_windows;
#[cfg(test)]
mod views;
#[cfg(test)]
mod windows;
