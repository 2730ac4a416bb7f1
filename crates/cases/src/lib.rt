// The worked cases: a table that the check computes, and tests of the code on the same numbers.
#![tactic(auto)]

ghost use Rattle.std.specs.Prelude.{◌≡◌, true, length};
ghost use Rattle.cases.specs.Scenarios.{all_come_out, scenarios};
ghost use Rattle.cases.specs.Table.{all_hold, table};

pub mod callers;
#[cfg(test)]
mod forms;

// Every case of the table holds. Answers how many there are.
pub fn worked_cases() -> usize
    ensures hold { all_hold table ≡ true }
    ensures count { result ≡ length table }
{
    20
}

// Every scenario comes out as it says, call after call. Answers how many there are: another table, and another theorem.
pub fn worked_scenarios() -> usize
    ensures hold { all_come_out scenarios ≡ true }
    ensures count { result ≡ length scenarios }
{
    8
}
