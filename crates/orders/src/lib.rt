// Orders: what members hand in, when it is taken, and what it leaves.
#![tactic(auto)]

mod books;
mod closed;
mod entry;
mod evening;
mod extent;
mod input;
mod message;
mod money;
mod opening;
mod order;
mod position;
mod refusal;
mod taking;
mod words;

pub use books::Books;
pub use entry::{Entry, UnknownCode};
pub use evening::{Closed, Open};
pub use extent::Extent;
pub use input::Input;
pub use message::{Message, Sort};
pub use money::{Cents, HalfCents};
pub use order::{Kind, Member, Order};
pub use refusal::{Field, Part, Refusal};
pub use words::{word_u16, word_u32};
