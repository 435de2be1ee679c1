// The index of `ranking` over a tree of wide nodes.
#![tactic(auto)]

mod book;
mod key;
mod leaf;
mod tree;

pub use book::Book;

pub type Index = ranking::Index<Book>;
