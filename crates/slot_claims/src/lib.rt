//! Which transactions hold which slot of which page, and against which kind of change.
#![tactic(auto)]

mod adders;
mod claims;
mod holder_byte;
mod marks;
mod row_set;
mod slot_sets;

pub use claims::{Claim, Claims, Hold};
pub use row_set::{ROWS, RowSet};
