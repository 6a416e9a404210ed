// For r cycles: the finder, the least count, the clash and the cycles of one pattern under a plan, and the check of a supplier's two
// vectors.
#![tactic(auto)]

mod bank_tables;
mod cells;
mod checking;
mod clash;
mod counting;
mod cycles;
mod finding;
mod marks;

pub use checking::check;
pub use clash::{Suited, suits_answer};
pub use cycles::{book_outcome, write_cycles};
pub use finding::{find, least_count};
