// Four books taken together, so that the calls of a market are written over them once.
ghost use Rattle.std.specs.Prelude.{◌≡◌, ◌≤◌, true};
ghost use Rattle.books.specs.Lists.{shares_at, find, removed};
ghost use Rattle.matching.specs.Sets.{Rooms, empty_books, room_left, own_list, placed_in, seen_from, find_in, find_either, unless_found, without_in, shares_or_refusal, open_shares};
ghost use Rattle.matching.specs.Looking.{Books, ours_in, standing_in, looked, Looks};
ghost use Rattle.matching.specs.Placement.{PlacesIn};
ghost use Rattle.std.proofs.Common.{rules};

use crate::candidate::{Entry, front_price};
use crate::pair::look_over;
use crate::placing::Ended;
use crate::side_books::SideBooks;
use crate::trade::Trade;
use books::book::Book;
use rules::price::{BestPrices, Quote};
use rules::refusal::Refusal;
use rules::side::{Asks, Bids};
use rules::terms::SideName;

pub trait BookSet {
    ghost lists: { Self → Books };

    // Every function that changes a set says that these stay: a fact of a change, which no invariant can have.
    ghost rooms: { Self → Rooms };

    fn empty(&mut self)
        ensures lists { lists self.new ≡ empty_books }
        ensures rooms { rooms self.new ≡ rooms self.old };

    // How many orders stand.
    fn count(&self) -> usize
        ensures { result ≡ standing_in (lists self.now) };

    // Our front displayed prices.
    fn ours(&self) -> Quote
        ensures { result ≡ ours_in (lists self.now) };

    fn has_room(&self, side: SideName, displayed: bool) -> bool
        ensures { result ≡ room_left side displayed (rooms self.now) (lists self.now) };

    // Our displayed shares at a price.
    fn shares_at(&self, side: SideName, price: u32) -> u64
        ensures { result ≡ shares_at price (own_list side true (lists self.now)) };

    // The open shares of an order.
    fn find(&self, number: u32) -> Option<u32>
        ensures { result ≡ open_shares (find_in number (lists self.now)) };

    fn remove(&mut self, number: u32) -> Result<u32, Refusal>
        ensures answer { result ≡ shares_or_refusal (find_in number (lists self.old)) }
        ensures lists { lists self.new ≡ without_in number (lists self.old) }
        ensures rooms { rooms self.new ≡ rooms self.old };

    // Matches an entry of that side, ends its rest and writes the trades to the front of the list. The side stands beside
    // the entry, which has none: matching is written over the type of the side that it meets.
    fn place(
        &mut self,
        side: SideName,
        away: BestPrices,
        active: &Entry,
        list: &mut [Trade],
    ) -> Ended
        ensures places { PlacesIn side (placed_in side away.increment away.quote (rooms self.old) active.now (lists self.old)) (lists self.new) list.old list.new result }
        ensures rooms { rooms self.new ≡ rooms self.old };

    // Trades pair after pair until none is left, writes the trades to the front of the list, and answers how many they are.
    fn look_over(&mut self, away: BestPrices, list: &mut [Trade]) -> usize
        ensures looks { Looks (looked away.increment away.quote (lists self.old)) (lists self.new) list.old list.new result }
        ensures rooms { rooms self.new ≡ rooms self.old };

    ghost few: { (set : Self) → standing_in (lists set) ≤ 16384 };
}

#[derive(Drop)]
pub struct FourBooks<DB, DA, KB, KA> {
    pub bids: SideBooks<DB, KB>,
    pub asks: SideBooks<DA, KA>,
}

// Removes an order from the first of two books where it stands.
fn remove_either<X: Book, Y: Book>(
    number: u32,
    first: &mut X,
    second: &mut Y,
) -> Result<u32, Refusal>
    ensures answer { result ≡ shares_or_refusal (find_either number (X.Book.orders first.old) (Y.Book.orders second.old)) }
    ensures first { X.Book.orders first.new ≡ (removed number (X.Book.orders first.old)).list }
    ensures second { Y.Book.orders second.new ≡ unless_found (find number (X.Book.orders first.old)) number (Y.Book.orders second.old) }
    ensures rooms { (X.Book.room first.new ≡ X.Book.room first.old) × (Y.Book.room second.new ≡ Y.Book.room second.old) }
{
    // no `or_else`: of a closure that removes, the check does not find what it leaves
    match first.remove(number) {
        Err(_) => second.remove(number),
        removed => removed,
    }
}

// Where a match has an arm for each side, the books of the two sides are of different types.
impl<
    DB: Book<Side = Bids>,
    DA: Book<Side = Asks>,
    KB: Book<Side = Bids>,
    KA: Book<Side = Asks>,
> BookSet for FourBooks<DB, DA, KB, KA> {
    ghost lists = { λ set. record { bids = DB.Book.orders set.bids.displayed; asks = DA.Book.orders set.asks.displayed; dark_bids = KB.Book.orders set.bids.dark; dark_asks = KA.Book.orders set.asks.dark } };

    ghost rooms = { λ set. record { bids = DB.Book.room set.bids.displayed; asks = DA.Book.room set.asks.displayed; dark_bids = KB.Book.room set.bids.dark; dark_asks = KA.Book.room set.asks.dark } };

    ghost few = { Prim.search rules };

    fn empty(&mut self) {
        self.bids.empty();
        self.asks.empty();
    }

    fn count(&self) -> usize {
        self.bids.count() + self.asks.count()
    }

    fn ours(&self) -> Quote {
        Quote {
            bid: front_price(&self.bids.displayed),
            ask: front_price(&self.asks.displayed),
        }
    }

    fn has_room(&self, side: SideName, displayed: bool) -> bool {
        match side {
            SideName::Bid => self.bids.has_room(displayed),
            SideName::Ask => self.asks.has_room(displayed),
        }
    }

    fn shares_at(&self, side: SideName, price: u32) -> u64 {
        match side {
            SideName::Bid => self.bids.displayed.shares_at(price),
            SideName::Ask => self.asks.displayed.shares_at(price),
        }
    }

    fn find(&self, number: u32) -> Option<u32> {
        self.bids
            .displayed
            .find(number)
            .or_else(|| self.asks.displayed.find(number))
            .or_else(|| self.bids.dark.find(number))
            .or_else(|| self.asks.dark.find(number))
            .map(|order| order.shares)
    }

    fn remove(&mut self, number: u32) -> Result<u32, Refusal> {
        // as in `remove_either`
        match remove_either(number, &mut self.bids.displayed, &mut self.asks.displayed) {
            Err(_) => remove_either(number, &mut self.bids.dark, &mut self.asks.dark),
            removed => removed,
        }
    }

    fn place(
        &mut self,
        side: SideName,
        away: BestPrices,
        active: &Entry,
        list: &mut [Trade],
    ) -> Ended {
        match side {
            SideName::Bid => self.bids.place(away, active, &mut self.asks, list),
            SideName::Ask => self.asks.place(away, active, &mut self.bids, list),
        }
    }

    fn look_over(&mut self, away: BestPrices, list: &mut [Trade]) -> usize {
        look_over(
            away,
            &mut self.bids.displayed,
            &mut self.asks.displayed,
            &mut self.bids.dark,
            &mut self.asks.dark,
            list,
        )
    }
}
