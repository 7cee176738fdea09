// Commands: states, goals, the next command, applying one, and runs.
#![tactic(auto)]

pub mod acting;
pub mod advising;
pub mod ancestors;
pub mod covering;
pub mod fitting;
pub mod goal;
pub mod liveness;
pub mod method;
pub mod promises;
pub mod query;
pub mod state;
pub mod walking;
