// Ranking: the members of a side of a kind in the order of their ranks.
#![tactic(auto)]

mod book;
mod booking;
mod index;
mod lookup;
mod node;
mod order_book;
mod ranked;
mod sides;
mod tree;
mod walk;

pub use book::Book;
pub use index::Index;
pub use order_book::OrderBook;
pub use ranked::{Ranked, Side};
pub use sides::Sides;
