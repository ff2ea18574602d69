//! In which form faults are told.

/// In which form faults are told.
#[derive(Clone, Copy, Debug, PartialEq, Eq)]
pub enum Manner {
    /// Lines for a person to read.
    Plain,
    /// The same, in colours of a terminal.
    Coloured,
    /// An object of JSON for each fault, one a line.
    Json,
}
