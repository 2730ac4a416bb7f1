// A book in records that the caller lends, as chains of indices.
#![tactic(auto)]

pub mod chained;
mod chains;
pub mod record;
