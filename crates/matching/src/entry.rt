// Matching an entry with the standing orders of the other side.
ghost use Rattle.std.specs.Prelude.{◌≡◌, slice_set};
ghost use Rattle.matching.specs.Matching.{matched, trade_with, displayed_after, dark_after, Leaves};

use crate::candidate::{Around, Candidate, Entry, next_candidate};
use crate::side_books::SideBooks;
use crate::trade::{Trade, write_trade};
use books::book::Book;

// One trade, at the standing order's price and for the smaller open quantity.
fn trade_with(active: &Entry, candidate: Candidate, shares: u32) -> Trade
    ensures { result ≡ trade_with active.now candidate shares }
{
    let (order, dark) = match candidate {
        Candidate::Displayed(order) => (order, false),
        Candidate::Dark(order) => (order, true),
    };
    Trade {
        active: active.number,
        standing: order.number,
        price: order.price,
        shares: order.shares.min(shares),
        dark,
    }
}

// Takes the shares of a trade from the front of the book that it names, and writes its record.
fn make_trade<D: Book, K: Book>(
    trade: Trade,
    displayed: &mut D,
    dark: &mut K,
    list: &mut [Trade],
    at: usize,
)
    ensures displayed { D.Book.orders displayed.new ≡ displayed_after trade (D.Book.orders displayed.old) }
    ensures dark { K.Book.orders dark.new ≡ dark_after trade (K.Book.orders dark.old) }
    ensures places { (D.Book.room displayed.new ≡ D.Book.room displayed.old) × (K.Book.room dark.new ≡ K.Book.room dark.old) }
    ensures list { list.new ≡ slice_set list.old at trade }
{
    // a take that is refused leaves its book as it was, as the definition has it
    if trade.dark {
        let _ = dark.take(trade.shares);
    } else {
        let _ = displayed.take(trade.shares);
    }
    write_trade(list, at, trade);
}

// What matching leaves: the shares of the entry that are still open, and how many trades it made.
#[derive(Clone, Copy)]
pub struct Left {
    pub shares: u32,
    pub trades: usize,
}

// Trades until nothing is open or no candidate is left, and writes the trades to the front of the list. The two books are
// lent one by one, so that whoever has only borrowed ones can match over them.
pub fn match_entry<D: Book, K: Book<Side = D::Side>>(
    active: &Entry,
    around: &Around,
    displayed: &mut D,
    dark: &mut K,
    list: &mut [Trade],
) -> Left
    ensures leaves { Leaves (matched D.Side.Side.rule active.now around.now (record { displayed = D.Book.orders displayed.old; dark = K.Book.orders dark.old; shares = active.now.shares })) (D.Book.orders displayed.new) (K.Book.orders dark.new) list.old list.new result }
    ensures places { (D.Book.room displayed.new ≡ D.Book.room displayed.old) × (K.Book.room dark.new ≡ K.Book.room dark.old) }
{
    let mut shares = active.shares;
    // counted by hand: the count is a part of the answer, and names the record
    let mut trades = 0;
    while let Some(candidate) = next_candidate(active, around, displayed, dark, shares) {
        let trade = trade_with(active, candidate, shares);
        make_trade(trade, displayed, dark, list, trades);
        shares -= trade.shares;
        trades += 1;
    }
    Left { shares, trades }
}

impl<D: Book, K: Book<Side = D::Side>> SideBooks<D, K> {
    // The same over the two books of a side.
    pub fn match_entry(&mut self, active: &Entry, around: &Around, list: &mut [Trade]) -> Left
        ensures leaves { Leaves (matched D.Side.Side.rule active.now around.now (record { displayed = D.Book.orders self.old.displayed; dark = K.Book.orders self.old.dark; shares = active.now.shares })) (D.Book.orders self.new.displayed) (K.Book.orders self.new.dark) list.old list.new result }
        ensures places { (D.Book.room self.new.displayed ≡ D.Book.room self.old.displayed) × (K.Book.room self.new.dark ≡ K.Book.room self.old.dark) }
    {
        match_entry(active, around, &mut self.displayed, &mut self.dark, list)
    }
}
