// The clean sheet of a sheet: what its amendments leave of it, written out.
#![tactic(auto)]

pub mod cleaning;
pub mod promises;
