// Lists, bits, graphs and replies: what the definitions of every layer are written with. No code but the promises about them.
#![tactic(auto)]

pub mod promises;
