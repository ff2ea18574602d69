//! Calls whose memory is refused.
//!
//! Each call that takes an allocator has a test, which passes where the call came to what it should. Where an allocation is
//! refused, the call is to say so, and what it took comes back and serves a second call: then the test fails with `no memory`,
//! and with something else where the call does otherwise. Where an allocation of a fixture is refused, the call isn't made.

mod answering;
mod answers;
mod certificates;
mod controls;
mod descriptions;
mod domains;
mod ending;
mod fixtures;
mod frames;
mod outputs;
mod program;
mod scripts;
mod sessions;
