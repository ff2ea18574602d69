//! The controls, each by itself: what it answers to events, what it becomes and what it shows. And the menu bar and the status line.

mod bars;
mod bench;
mod buttons;
mod clusters;
mod damages;
mod events;
mod inputs;
mod limits;
mod lists;
mod making;
mod sets;
mod setting;
mod shots;
mod telling;
mod widest;
