// What a market is to whoever calls it: each call is one definition of what it answers, leaves and trades.
// The list of trades is the caller's, and lent for each call.
ghost use Rattle.std.specs.Prelude.{◌≡◌, length};
ghost use Rattle.market.specs.Calls.{State, fresh, entered, AnswersEntry, cancelled, noticed, put_aside, halted, resumed, closed, best_on, front_on, displayed_at, open_of};
ghost use Rattle.matching.specs.Trades.{written};

use crate::answers::{Aside, Cancelled, Entered};
use matching::book_set::BookSet;
use matching::trade::Trade;
use rules::form::{Form, HandedBack};
use rules::refusal::Refusal;
use rules::sheet::DaySheet;
use rules::terms::SideName;

pub trait Venue: Sized {
    type Books: BookSet;

    ghost state: { Self → State };

    // An open market over these books, which it empties.
    fn open(sheet: &DaySheet, books: Self::Books) -> Self
        ensures { state result ≡ fresh sheet.now (Self.Books.BookSet.rooms books) };

    // Gives the books back.
    fn into_books(self) -> Self::Books
        ensures lists { Self.Books.BookSet.lists result ≡ (state self).books }
        ensures rooms { Self.Books.BookSet.rooms result ≡ (state self).rooms };

    // An accepted entry uses the form up, a refused one hands it back.
    fn enter(&mut self, form: Form, list: &mut [Trade]) -> Result<Entered, HandedBack>
        ensures answer { AnswersEntry (entered (state self.old) form (length list.old)).answer form result }
        ensures state { state self.new ≡ (entered (state self.old) form (length list.old)).state }
        ensures list { list.new ≡ written (entered (state self.old) form (length list.old)).trades list.old };

    fn cancel(&mut self, number: u32, list: &mut [Trade]) -> Result<Cancelled, Refusal>
        ensures answer { result ≡ (cancelled (state self.old) number (length list.old)).answer }
        ensures state { state self.new ≡ (cancelled (state self.old) number (length list.old)).state }
        ensures list { list.new ≡ written (cancelled (state self.old) number (length list.old)).trades list.old };

    // A quote notice: replaces what stood, and answers the count of trades.
    fn quote(
        &mut self,
        marketplace: u32,
        side: SideName,
        price: Option<u32>,
        list: &mut [Trade],
    ) -> Result<usize, Refusal>
        ensures answer { result ≡ (noticed (state self.old) marketplace side price (length list.old)).answer }
        ensures state { state self.new ≡ (noticed (state self.old) marketplace side price (length list.old)).state }
        ensures list { list.new ≡ written (noticed (state self.old) marketplace side price (length list.old)).trades list.old };

    fn set_aside(&mut self, marketplace: u32, list: &mut [Trade]) -> Result<Aside, Refusal>
        ensures answer { result ≡ (put_aside (state self.old) marketplace (length list.old)).answer }
        ensures state { state self.new ≡ (put_aside (state self.old) marketplace (length list.old)).state }
        ensures list { list.new ≡ written (put_aside (state self.old) marketplace (length list.old)).trades list.old };

    fn halt(&mut self) -> Result<(), Refusal>
        ensures answer { result ≡ (halted (state self.old)).answer }
        ensures state { state self.new ≡ (halted (state self.old)).state };

    // Answers the count of trades.
    fn resume(&mut self, list: &mut [Trade]) -> Result<usize, Refusal>
        ensures answer { result ≡ (resumed (state self.old) (length list.old)).answer }
        ensures state { state self.new ≡ (resumed (state self.old) (length list.old)).state }
        ensures list { list.new ≡ written (resumed (state self.old) (length list.old)).trades list.old };

    // Nothing is taken after it but questions.
    fn close(&mut self) -> Result<(), Refusal>
        ensures answer { result ≡ (closed (state self.old)).answer }
        ensures state { state self.new ≡ (closed (state self.old)).state };

    // The best price: ours and the quotes.
    fn best(&self, side: SideName) -> Option<u32>
        ensures { result ≡ best_on (state self.now) side };

    // Our front displayed price.
    fn front(&self, side: SideName) -> Option<u32>
        ensures { result ≡ front_on (state self.now) side };

    // Our displayed shares at a price.
    fn shares_at(&self, side: SideName, price: u32) -> u64
        ensures { result ≡ displayed_at (state self.now) side price };

    fn open_shares(&self, number: u32) -> Option<u32>
        ensures { result ≡ open_of (state self.now) number };
}
