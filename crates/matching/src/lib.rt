// Matching an entry, and looking over the books: written once for both sides and for every book.
// docs/RULES.md, "Matching an entry" and "Looking over the books", has the steps.
#![tactic(auto)]

pub mod book_set;
pub mod candidate;
pub mod entry;
pub mod pair;
pub mod placing;
pub mod side_books;
pub mod trade;
pub mod way;
