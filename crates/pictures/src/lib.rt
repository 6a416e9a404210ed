// Pictures in a lent memory: store, load, clear, sum, fetch and ring fetch, the sums of the banks, and a list of such calls.
#![tactic(auto)]

mod banks;
mod fetching;
mod lists;
mod moving;
mod places;
mod rows;
mod sums;
mod words;

pub use banks::{clear, sum};
pub use fetching::{fetch, ring_fetch};
pub use lists::{ListFault, run_list};
pub use sums::{make_sums, read_sum};
pub use words::{load, store};
