// The law of every run, on contracts.
ghost use Rattle.runs.specs.Complete.{NoneMissing};
ghost use Rattle.runs.specs.Law.{LawOfRuns};

// The law, over a market with books of any number of places, after any list of calls.
pub fn every_run_keeps_the_law()
    ensures { LawOfRuns }
{}

// Matching and looking over make every trade that there is to make.
pub fn none_is_missing()
    ensures { NoneMissing }
{}
