// What is noted of a day.
ghost use Rattle.std.specs.Prelude.{◌≡◌, ◌+◌, ◌≤◌, true, [], ◌∷◌, ◌++◌, length, is_ok, vec_len, vec_capacity};

use crate::call::Line;
use matching::trade::Trade;
use std::alloc::{AllocError, Global};

// Each call with its answer, and the records that the calls wrote, both in the order of the calls.
#[derive(Drop)]
pub struct Journal {
    pub lines: Vec<Line>,
    pub trades: Vec<Trade>,
}

impl Journal {
    pub fn new(heap: Global) -> Journal
        ensures lines { result.lines.items ≡ [] }
        ensures trades { result.trades.items ≡ [] }
    {
        Journal {
            lines: Vec::new(heap),
            trades: Vec::new(heap),
        }
    }

    // Makes room for a line and so many trades: what is noted stays, whether or not there was memory.
    pub(crate) fn reserve(&mut self, trades: usize) -> Result<(), AllocError>
        ensures lines { self.new.lines.items ≡ self.old.lines.items }
        ensures trades { self.new.trades.items ≡ self.old.trades.items }
        ensures line_room { is_ok result ≡ true → vec_len self.new.lines + 1 ≤ vec_capacity self.new.lines }
        ensures trade_room { is_ok result ≡ true → vec_len self.new.trades + trades ≤ vec_capacity self.new.trades }
    {
        self.lines.reserve(1)?;
        self.trades.reserve(trades)
    }

    // Notes a line, and the records of its call.
    pub(crate) fn note(&mut self, line: Line, records: &[Trade])
        requires lines_len_bound { vec_len self.old.lines + 1 ≤ vec_capacity self.old.lines }
        requires records_len_bound { vec_len self.old.trades + length records.now ≤ vec_capacity self.old.trades }
        ensures lines { self.new.lines.items ≡ self.old.lines.items ++ (line ∷ []) }
        ensures trades { self.new.trades.items ≡ self.old.trades.items ++ records.now }
    {
        self.lines.push_reserved(line);
        // there is room for them, so this cannot fail
        let _ = self.trades.extend_from_slice(records);
    }
}
