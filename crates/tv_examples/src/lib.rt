//! Worked examples, each a theorem: what the definitions of a run give is computed, and is the text that the example shows.
#![tactic(auto)]
