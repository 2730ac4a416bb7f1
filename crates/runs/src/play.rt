// Making a call, and playing a list of them.
ghost use Rattle.std.specs.Prelude.{◌≡◌, [], ◌∷◌, ◌++◌, length, is_ok, if◌then◌else◌};
ghost use Rattle.market.specs.Calls.{entered};
ghost use Rattle.matching.specs.Trades.{written};
ghost use Rattle.runs.specs.Days.{made, wrote};
ghost use Rattle.runs.specs.Plays.{Plays, PlaysDay, state_with};

use crate::call::{Call, Line};
use crate::journal::Journal;
use crate::turn::Turn;
use books::book::Book;
use market::answers::Entered;
use market::trading::Market;
use market::venue::Venue;
use matching::book_set::FourBooks;
use matching::trade::Trade;
use rules::form::Form;
use rules::refusal::Refusal;
use rules::sheet::DaySheet;
use rules::side::{Asks, Bids};
use std::alloc::{AllocError, Global};

// Makes the call on the market, and notes what was answered.
pub fn make<V: Venue>(market: &mut V, call: Call<Form>, list: &mut [Trade]) -> Line
    ensures line { result ≡ (made (V.Venue.state market.old) call (length list.old)).line }
    ensures state { V.Venue.state market.new ≡ (made (V.Venue.state market.old) call (length list.old)).state }
    ensures list { list.new ≡ written (made (V.Venue.state market.old) call (length list.old)).trades list.old }
{
    match call {
        Call::Enter(form) => enter(market, form, list),
        Call::Cancel(number) => Line::Cancel {
            number,
            answer: market.cancel(number, list),
        },
        Call::Notice {
            marketplace,
            side,
            price,
        } => Line::Notice {
            marketplace,
            side,
            price,
            answer: market.quote(marketplace, side, price, list),
        },
        Call::SetAside(marketplace) => Line::SetAside {
            marketplace,
            answer: market.set_aside(marketplace, list),
        },
        Call::Halt => Line::Halt(market.halt()),
        Call::Resume => Line::Resume(market.resume(list)),
        Call::Close => Line::Close(market.close()),
    }
}

fn enter<V: Venue>(market: &mut V, form: Form, list: &mut [Trade]) -> Line
    ensures line { result ≡ (made (V.Venue.state market.old) (Call.Enter form) (length list.old)).line }
    ensures state { V.Venue.state market.new ≡ (made (V.Venue.state market.old) (Call.Enter form) (length list.old)).state }
    ensures list { list.new ≡ written (made (V.Venue.state market.old) (Call.Enter form) (length list.old)).trades list.old }
{
    let terms = form.terms();
    let class = form.class();
    let answer = answer_entry(market, form, list);
    Line::Entry {
        terms,
        class,
        answer,
    }
}

// A form that is handed back is let go.
fn answer_entry<V: Venue>(
    market: &mut V,
    form: Form,
    list: &mut [Trade],
) -> Result<Entered, Refusal>
    ensures answer { result ≡ (entered (V.Venue.state market.old) form (length list.old)).answer }
    ensures state { V.Venue.state market.new ≡ (entered (V.Venue.state market.old) form (length list.old)).state }
    ensures list { list.new ≡ written (entered (V.Venue.state market.old) form (length list.old)).trades list.old }
{
    Ok(market.enter(form, list)?)
}

// Makes a call and notes it. Where there is no memory to note it, the call is not made.
fn play_call<V: Venue>(
    market: &mut V,
    call: Call<Form>,
    lent: &mut [Trade],
    journal: &mut Journal,
) -> Result<(), AllocError>
    ensures state { V.Venue.state market.new ≡ (if is_ok result then (made (V.Venue.state market.old) call (length lent.old)).state else V.Venue.state market.old) }
    ensures lines { journal.new.lines.items ≡ (if is_ok result then journal.old.lines.items ++ ((made (V.Venue.state market.old) call (length lent.old)).line ∷ []) else journal.old.lines.items) }
    ensures trades { journal.new.trades.items ≡ (if is_ok result then journal.old.trades.items ++ wrote (made (V.Venue.state market.old) call (length lent.old)) lent.old else journal.old.trades.items) }
{
    journal.reserve(lent.len())?;
    let line = make(market, call, lent);
    let count = line.trades().min(lent.len());
    journal.note(line, &lent[0..count]);
    Ok(())
}

// Plays turn after turn into an empty journal.
fn play_turns<V: Venue>(
    market: &mut V,
    turns: Vec<Turn>,
    list: &mut [Trade],
    journal: &mut Journal,
) -> Result<(), AllocError>
    requires lines { journal.old.lines.items ≡ [] }
    requires trades { journal.old.trades.items ≡ [] }
    ensures { Plays (V.Venue.state market.old) (length list.old) turns.items (is_ok result) journal.new.lines.items journal.new.trades.items (V.Venue.state market.new) }
{
    for turn in turns {
        let end = turn.lent.min(list.len());
        play_call(market, turn.call, &mut list[0..end], journal)?;
    }
    Ok(())
}

// What a day that was played hands back: the market, what is noted of it, and whether memory sufficed to note it all.
#[derive(Drop)]
pub struct Played<V> {
    pub market: V,
    pub journal: Journal,
    pub done: Result<(), AllocError>,
}

// Opens a market over a set of books and plays the turns.
fn play_over<V: Venue>(
    heap: Global,
    sheet: &DaySheet,
    books: V::Books,
    turns: Vec<Turn>,
    list: &mut [Trade],
) -> Played<V>
    ensures { PlaysDay sheet.now (V.Books.BookSet.rooms books) (length list.old) turns.items (is_ok result.done) result.journal.lines.items result.journal.trades.items (V.Venue.state result.market) }
{
    let mut market = V::open(sheet, books);
    let mut journal = Journal::new(heap);
    let done = play_turns(&mut market, turns, list, &mut journal);
    Played {
        market,
        journal,
        done,
    }
}

// Opens a market over any four books and plays the turns. The law of every run holds of what is handed back. The clause
// reads the state off the market and its books, with no word of ours between.
pub fn play<
    DB: Book<Side = Bids>,
    DA: Book<Side = Asks>,
    KB: Book<Side = Bids>,
    KA: Book<Side = Asks>,
>(
    heap: Global,
    sheet: &DaySheet,
    books: FourBooks<DB, DA, KB, KA>,
    turns: Vec<Turn>,
    list: &mut [Trade],
) -> Played<Market<FourBooks<DB, DA, KB, KA>>>
    ensures { PlaysDay sheet.now (record { bids = DB.Book.room books.bids.displayed; asks = DA.Book.room books.asks.displayed; dark_bids = KB.Book.room books.bids.dark; dark_asks = KA.Book.room books.asks.dark }) (length list.old) turns.items (is_ok result.done) result.journal.lines.items result.journal.trades.items (state_with result.market (record { bids = DB.Book.orders result.market.books.bids.displayed; asks = DA.Book.orders result.market.books.asks.displayed; dark_bids = KB.Book.orders result.market.books.bids.dark; dark_asks = KA.Book.orders result.market.books.asks.dark }) (record { bids = DB.Book.room result.market.books.bids.displayed; asks = DA.Book.room result.market.books.asks.displayed; dark_bids = KB.Book.room result.market.books.bids.dark; dark_asks = KA.Book.room result.market.books.asks.dark })) }
{
    play_over(heap, sheet, books, turns, list)
}
