// The published sheet: writing it, reading it, and checking it against the entries.
#![tactic(auto)]

mod checking;
mod entries;
mod expecting;
mod listing;
pub mod promises;
mod ranks;
mod section;
mod writing;

pub use checking::check;
pub use entries::{EntriesFile, check_file, entries_file};
pub use listing::Listing;
pub use section::{Row, Section};
pub use writing::{put, write_kind};
