// One market for one security and one day: quotes and set-asides, phases, the calls and the questions.
// docs/RULES.md, "Calls, phases and questions", has what each call does.
#![tactic(auto)]

pub mod answers;
pub mod bounds;
mod marketplace;
pub mod phase;
mod quotes;
mod steps;
pub mod trading;
pub mod venue;
