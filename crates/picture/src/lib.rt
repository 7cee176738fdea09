// The picture of who needs whom: written as a text, and read back.
#![tactic(auto)]

pub mod graph;
pub mod lengths;
pub mod lines;
pub mod matching;
pub mod promises;
pub mod rows;
pub mod turns;
