// Joining goals ("wishes") of several cooks into one.
#![tactic(auto)]

pub mod joining;
pub mod lent;
pub mod promises;
