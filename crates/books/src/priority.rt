// What holds of every book, since its calls do to its list what the interface says.
ghost use Rattle.books.specs.Histories.{RunsByPriority};

use rules::side::Side;

// A list that began empty, and went through any adds, takes and removes with any number of places,
// runs by its side's order, equal prices by arrival, with no number twice.
pub fn books_run_by_priority<S: Side>()
    ensures { RunsByPriority S.Side.rule }
{}
