// The sheet: records, the sheet's limits, the refusals 1 to 8 and 21, and the index of a sheet that was read.
#![tactic(auto)]

mod amending;
pub mod bits;
pub mod guard;
pub mod index;
mod judge;
pub mod kind;
pub mod promises;
pub mod reader;
pub mod record;
pub mod refusal;
pub mod scan;
mod sent;
pub mod writing;
