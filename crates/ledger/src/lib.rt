// The ledger: an evening with the index of its entries, kept while messages come.
#![tactic(auto)]

mod closing;
mod holding;
mod indexing;
mod kinds;
mod opening;
mod pairs;
pub mod promises;
mod publishing;
mod ranks;
mod running;
mod session;
mod settling;
mod space;
mod taking;

pub use closing::Closing;
pub use holding::hold;
pub use session::Session;
pub use space::Space;
