// The index of all kinds: an order book for each.
mod methods;

use crate::book::Book;

#[derive(Drop)]
pub struct Index<B = Book> {
    books: Vec<B>,
}
