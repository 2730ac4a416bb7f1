// The market over any set of books.
ghost use Rattle.std.specs.Prelude.{◌≡◌, ◌+◌, ◌<◌, length, Ok, None};
ghost use Rattle.market.specs.Calls.{State, look, with_books, away_at, entry_refusal, list_checked, first_checked, entered_at};
ghost use Rattle.market.specs.Marketplaces.{NumberedFor};
ghost use Rattle.matching.specs.Trades.{written};
ghost use Rattle.rules.specs.Refusals.{passed};

use crate::answers::{Aside, Cancelled, Entered};
use crate::marketplace::Marketplace;
use crate::phase::{Event, Phase};
use crate::quotes::Quotes;
use crate::steps::{entry_of, handle, is_displayed, is_quote};
use crate::venue::Venue;
use matching::book_set::BookSet;
use matching::trade::Trade;
use rules::form::{Form, HandedBack};
use rules::price::{BestPrices, Quote};
use rules::refusal::Refusal;
use rules::sheet::{Class, DaySheet};
use rules::terms::SideName;

#[derive(Drop)]
pub struct Market<Q> {
    class: Class,
    last: u32,
    issued: u32,
    phase: Phase,
    quotes: Quotes,
    books: Q,
}

impl<Q: BookSet> Market<Q> {
    // The best quotes of other marketplaces, in this market's increment.
    fn away(&self) -> BestPrices
        ensures { result ≡ away_at (⟦<Self as Venue>⟧.state self.now) }
    {
        BestPrices {
            increment: self.class.increment,
            quote: self.quotes.away(),
        }
    }

    // What is checked before all else: a closed market takes no call. Halt, resumption and close have it from the phase.
    fn check_phase(&self) -> Result<(), Refusal>
        ensures { result ≡ passed (first_checked (⟦<Self as Venue>⟧.state self.now) None) }
    {
        if self.phase == Phase::Closed {
            return Err(Refusal::MarketClosed);
        }
        Ok(())
    }

    // What is checked last: the list has a record for each standing order.
    fn check_list(&self, list: &[Trade]) -> Result<(), Refusal>
        ensures { result ≡ passed (list_checked (⟦<Self as Venue>⟧.state self.now) (length list.now)) }
    {
        if self.books.count() > list.len() {
            return Err(Refusal::ShortTradeList);
        }
        Ok(())
    }

    fn check_entry(&self, form: &Form, list: &[Trade]) -> Result<(), Refusal>
        ensures { result ≡ passed (entry_refusal (⟦<Self as Venue>⟧.state self.now) form.now (length list.now)) }
    {
        self.check_phase()?;
        if self.phase == Phase::Halted {
            return Err(Refusal::MarketHalted);
        }
        if form.class() != self.class {
            return Err(Refusal::OtherClass);
        }
        if self.issued >= self.last {
            return Err(Refusal::NumbersIssued);
        }
        let terms = form.terms();
        let room = self.books.has_room(terms.side, is_displayed(terms.kind));
        if !terms.immediate && !room {
            return Err(Refusal::OwnBookFull);
        }
        self.check_list(list)
    }

    // What a notice of a marketplace and its set-aside check, before the price and the list.
    fn check_marketplace(&self, number: u32) -> Result<Marketplace, Refusal>
        ensures { NumberedFor (⟦<Self as Venue>⟧.state self.now) number result }
    {
        self.check_phase()?;
        let marketplace = Marketplace::try_from(number)?;
        if self.quotes.is_aside(marketplace) {
            return Err(Refusal::AlreadyAside);
        }
        Ok(marketplace)
    }

    // Looks over the books, which only an open market does.
    fn look(&mut self, list: &mut [Trade]) -> usize
        ensures count { result ≡ length (look (⟦<Self as Venue>⟧.state self.old)).trades }
        ensures state { ⟦<Self as Venue>⟧.state self.new ≡ with_books (⟦<Self as Venue>⟧.state self.old) (look (⟦<Self as Venue>⟧.state self.old)).state }
        ensures list { list.new ≡ written (look (⟦<Self as Venue>⟧.state self.old)).trades list.old }
    {
        let away = self.away();
        match self.phase {
            Phase::Open => self.books.look_over(away, list),
            Phase::Halted | Phase::Closed => 0,
        }
    }

    // An accepted entry gets the next number.
    fn accept(&mut self, form: &Form, list: &mut [Trade]) -> Entered
        requires { self.old.issued < self.old.last }
        ensures answer { Ok result ≡ (entered_at (⟦<Self as Venue>⟧.state self.old) form.now).answer }
        ensures state { ⟦<Self as Venue>⟧.state self.new ≡ (entered_at (⟦<Self as Venue>⟧.state self.old) form.now).state }
        ensures list { list.new ≡ written (entered_at (⟦<Self as Venue>⟧.state self.old) form.now).trades list.old }
    {
        let terms = form.terms();
        let number = self.issued + 1;
        let active = entry_of(form, number);
        let handled = handle(terms.side, self.away(), &active, &mut self.books, list);
        self.issued = number;
        let rest = handled.ended.shares;
        let way = handled.ended.way;
        Entered {
            number,
            traded: terms.shares - rest,
            booked: way.booked(rest),
            cancelled: way.cancelled(rest),
            way,
            trades: handled.trades,
        }
    }
}

impl<Q: BookSet> Venue for Market<Q> {
    type Books = Q;

    ghost state = { λ m. record { increment = m.class.increment; unit = m.class.unit; last = m.last; issued = m.issued; phase = m.phase; quotes = m.quotes.quotes; aside = m.quotes.aside; books = Q.BookSet.lists m.books; rooms = Q.BookSet.rooms m.books } };

    fn open(sheet: &DaySheet, mut books: Q) -> Market<Q> {
        books.empty();
        Market {
            class: sheet.class(),
            last: sheet.last(),
            issued: 0,
            phase: Phase::Open,
            quotes: Quotes::new(),
            books,
        }
    }

    fn into_books(self) -> Q {
        let Market { books, .. } = self;
        books
    }

    fn enter(&mut self, form: Form, list: &mut [Trade]) -> Result<Entered, HandedBack> {
        // no `?`, since a refused form goes back
        if let Err(refusal) = self.check_entry(&form, list) {
            return Err(HandedBack { refusal, form });
        }
        Ok(self.accept(&form, list))
    }

    fn cancel(&mut self, number: u32, list: &mut [Trade]) -> Result<Cancelled, Refusal> {
        self.check_phase()?;
        let shares = self.books.find(number).ok_or(Refusal::NotStanding)?;
        self.check_list(list)?;
        let _ = self.books.remove(number);
        let trades = self.look(list);
        Ok(Cancelled { shares, trades })
    }

    fn quote(
        &mut self,
        marketplace: u32,
        side: SideName,
        price: Option<u32>,
        list: &mut [Trade],
    ) -> Result<usize, Refusal> {
        let marketplace = self.check_marketplace(marketplace)?;
        if !is_quote(&self.class, price) {
            return Err(Refusal::BadQuotePrice);
        }
        self.check_list(list)?;
        self.quotes.put(marketplace, side, price);
        Ok(self.look(list))
    }

    fn set_aside(&mut self, marketplace: u32, list: &mut [Trade]) -> Result<Aside, Refusal> {
        let marketplace = self.check_marketplace(marketplace)?;
        self.check_list(list)?;
        let count = self.quotes.set_aside(marketplace);
        let trades = self.look(list);
        Ok(Aside { count, trades })
    }

    fn halt(&mut self) -> Result<(), Refusal> {
        self.phase = self.phase.after(Event::Halt)?;
        Ok(())
    }

    fn resume(&mut self, list: &mut [Trade]) -> Result<usize, Refusal> {
        let phase = self.phase.after(Event::Resume)?;
        self.check_list(list)?;
        self.phase = phase;
        Ok(self.look(list))
    }

    // one line, as `halt`: two functions of the interface, which name another event
    fn close(&mut self) -> Result<(), Refusal> {
        self.phase = self.phase.after(Event::Close)?;
        Ok(())
    }

    fn best(&self, side: SideName) -> Option<u32> {
        Quote::best(self.books.ours(), self.quotes.away()).on(side)
    }

    fn front(&self, side: SideName) -> Option<u32> {
        self.books.ours().on(side)
    }

    fn shares_at(&self, side: SideName, price: u32) -> u64 {
        self.books.shares_at(side, price)
    }

    fn open_shares(&self, number: u32) -> Option<u32> {
        self.books.find(number)
    }
}
