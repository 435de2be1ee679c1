// Letters: what each member is told of its evening, and how it sees from that alone whether it traded by the rule.
#![tactic(auto)]

mod bytes;
mod checking;
mod following;
mod line;
pub mod promises;
mod reading;
mod telling;
mod tie;
mod writing;

pub use checking::check;
pub use line::{Line, Pair};
pub use tie::{Tie, UnknownTie};
pub use writing::Published;
