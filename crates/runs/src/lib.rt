// A market day as a list of calls, and the law that every such day keeps. docs/RULES.md, "What holds in every run",
// has the law in words.
#![tactic(auto)]

pub mod call;
pub mod journal;
pub mod law;
pub mod play;
pub mod turn;
