// The rules that everything else rests on: the day sheet and its class, the order form, sides, best and better prices.
// docs/RULES.md states them; the definitions that the contracts cite are in specs/.
#![tactic(auto)]

pub mod form;
pub mod price;
pub mod refusal;
pub mod sheet;
pub mod side;
pub mod terms;
