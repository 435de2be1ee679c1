// An open evening, with the index of its entries.
use orders::Open;
use ranking::{Book, Index};

#[derive(Drop)]
pub struct Session {
    pub open: Open,
    pub index: Index<Book>,
}
