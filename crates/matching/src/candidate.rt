// Which standing order an entry trades with next.
ghost use Rattle.std.specs.Prelude.{◌≡◌};
ghost use Rattle.matching.specs.Matching.{at_or_ahead, spared, front_price, best_against, displayed_candidate, dark_candidate, chosen, candidate};

use books::book::Book;
use books::standing::Standing;
use rules::price::{BestPrices, Quote};
use rules::side::Side;

// What matching needs to know of an entry.
#[derive(Clone, Copy)]
pub struct Entry {
    pub number: u32,
    pub bound: u32,
    pub shares: u32,
    pub large: bool,
    pub immediate: bool,
    pub directed: bool,
    pub displayed: bool,
}

// The prices that stay while one entry is matched. Not a part of the entry: a trade and a booking take the entry alone,
// and the best prices these alone.
#[derive(Clone, Copy)]
pub struct Around {
    // those of other marketplaces
    pub away: BestPrices,
    // our front displayed price on the entry's own side
    pub behind: Option<u32>,
}

// The order that an entry trades with next, by the book in which it stands.
#[derive(Clone, Copy)]
pub enum Candidate {
    Displayed(Standing),
    Dark(Standing),
}

// Whether of two prices the second does not come first.
pub(crate) fn at_or_ahead<S: Side>(p: u32, q: u32) -> bool
    ensures { result ≡ at_or_ahead S.Side.rule p q }
{
    !S::comes_first(q, p)
}

// The same of a price that may be absent, which bars nothing.
fn spared<S: Side>(p: u32, limit: Option<u32>) -> bool
    ensures { result ≡ spared S.Side.rule p limit }
{
    limit.is_none_or(|q| at_or_ahead::<S>(p, q))
}

pub fn front_price<B: Book>(book: &B) -> Option<u32>
    ensures { result ≡ front_price (B.Book.orders book.now) }
{
    book.front().map(|order| order.price)
}

// The best prices, where our displayed price on the side of the standing orders is this one.
pub fn best_against<S: Side>(around: &Around, front: Option<u32>) -> BestPrices
    ensures { result ≡ record { increment = around.now.away.increment; quote = best_against S.Side.rule around.now front } }
{
    around
        .away
        .joined(Quote::placed(S::name(), front, around.behind))
}

// The front displayed order, within the bound and, unless the entry is directed, not behind the away best.
fn displayed_candidate<D: Book>(active: &Entry, around: &Around, displayed: &D) -> Option<Standing>
    ensures { result ≡ displayed_candidate D.Side.Side.rule active.now around.now (D.Book.orders displayed.now) }
{
    let away = around.away.quote.on(D::Side::name());
    displayed.front().filter(|order| {
        at_or_ahead::<D::Side>(order.price, active.bound)
            && (active.directed || spared::<D::Side>(order.price, away))
    })
}

// The front dark order, within the bound and at a better price; for a large entry the best price is enough.
fn dark_candidate<K: Book>(
    active: &Entry,
    around: &Around,
    front: Option<u32>,
    dark: &K,
) -> Option<Standing>
    ensures { result ≡ dark_candidate K.Side.Side.rule active.now around.now front (K.Book.orders dark.now) }
{
    dark.front().filter(|order| {
        let best = best_against::<K::Side>(around, front);
        let limit = best.quote.on(K::Side::name());
        at_or_ahead::<K::Side>(order.price, active.bound)
            && (best.is_better::<K::Side>(order.price)
                || (active.large && spared::<K::Side>(order.price, limit)))
    })
}

// Of two candidates the one whose price comes first; at equal prices the displayed one.
fn chosen<S: Side>(displayed: Option<Standing>, dark: Option<Standing>) -> Option<Candidate>
    ensures { result ≡ chosen S.Side.rule displayed dark }
{
    match (displayed, dark) {
        (Some(d), Some(k)) if S::comes_first(k.price, d.price) => Some(Candidate::Dark(k)),
        (Some(d), _) => Some(Candidate::Displayed(d)),
        (None, k) => k.map(Candidate::Dark),
    }
}

// None where nothing of the entry is open.
pub fn next_candidate<D: Book, K: Book<Side = D::Side>>(
    active: &Entry,
    around: &Around,
    displayed: &D,
    dark: &K,
    shares: u32,
) -> Option<Candidate>
    ensures { result ≡ candidate D.Side.Side.rule active.now around.now (record { displayed = D.Book.orders displayed.now; dark = K.Book.orders dark.now; shares = shares }) }
{
    if shares == 0 {
        return None;
    }
    let front = front_price(displayed);
    chosen::<D::Side>(
        displayed_candidate(active, around, displayed),
        dark_candidate(active, around, front, dark),
    )
}
