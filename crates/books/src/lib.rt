// What a book means, and the packed book. docs/RULES.md, "Books", states the meaning.
#![tactic(auto)]

pub mod book;
pub mod lent;
pub mod packed;
pub mod priority;
pub mod standing;
