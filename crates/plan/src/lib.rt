// The plan: groups of machines, routes within them, the bound, and the plan's bytes.
#![tactic(auto)]

pub mod bounding;
pub mod each;
pub mod grouping;
pub mod judging;
pub mod lookup;
pub mod making;
pub mod measure;
pub mod opening;
pub mod partition;
pub mod passing;
pub mod promises;
pub mod reading;
pub mod showing;
pub mod sizing;
pub mod standing;
pub mod tabling;
pub mod writing;
