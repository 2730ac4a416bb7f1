// What the calls are made of, over plain values and any set of books.
ghost use Rattle.std.specs.Prelude.{◌≡◌};
ghost use Rattle.market.specs.Calls.{entry_of, valid_quote, is_displayed};
ghost use Rattle.market.specs.Handling.{Handles};
ghost use Rattle.matching.specs.Sets.{placed_in, seen_from};
ghost use Rattle.matching.specs.Looking.{looked};

use matching::book_set::BookSet;
use matching::candidate::Entry;
use matching::placing::Ended;
use matching::trade::Trade;
use rules::form::Form;
use rules::price::BestPrices;
use rules::sheet::Class;
use rules::terms::{Kind, SideName};

pub(crate) fn is_displayed(kind: Kind) -> bool
    ensures { result ≡ is_displayed kind }
{
    kind == Kind::Displayed
}

pub(crate) fn entry_of(form: &Form, number: u32) -> Entry
    ensures { result ≡ entry_of form.now number }
{
    let terms = form.terms();
    Entry {
        number,
        bound: form.bound(),
        shares: terms.shares,
        large: form.is_large(),
        immediate: terms.immediate,
        directed: terms.directed,
        displayed: is_displayed(terms.kind),
    }
}

pub(crate) fn is_quote(class: &Class, price: Option<u32>) -> bool
    ensures { result ≡ valid_quote class.now.increment price }
{
    price.is_none_or(|p| class.is_price(p))
}

// What an entry came to, and how many trades it and the look after it made.
#[derive(Clone, Copy)]
pub(crate) struct Handled {
    pub(crate) ended: Ended,
    pub(crate) trades: usize,
}

// Places an entry and looks over the books, writing the trades one after the other.
pub(crate) fn handle<Q: BookSet>(
    side: SideName,
    away: BestPrices,
    active: &Entry,
    books: &mut Q,
    list: &mut [Trade],
) -> Handled
    ensures handles { Handles (placed_in side away.increment away.quote (Q.BookSet.rooms books.old) active.now (Q.BookSet.lists books.old)) (looked away.increment away.quote (seen_from side (placed_in side away.increment away.quote (Q.BookSet.rooms books.old) active.now (Q.BookSet.lists books.old)).view)) (Q.BookSet.lists books.new) list.old list.new result }
    ensures rooms { Q.BookSet.rooms books.new ≡ Q.BookSet.rooms books.old }
{
    let ended = books.place(side, away, active, list);
    let at = ended.trades.min(list.len());
    let looked = books.look_over(away, &mut list[at..]);
    Handled {
        ended,
        trades: ended.trades + looked,
    }
}
