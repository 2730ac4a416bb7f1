// Looking over the books: a displayed order and a dark one against it, whose price has become a better price.
ghost use Rattle.std.specs.Prelude.{◌≡◌};
ghost use Rattle.books.specs.Lists.{taken};
ghost use Rattle.matching.specs.Looking.{Books, pair, pair_in, paired, trade_in, looked, Looks};

use crate::candidate::{at_or_ahead, front_price};
use crate::trade::{Trade, write_trade};
use books::book::Book;
use rules::price::{BestPrices, Quote};
use rules::side::{Asks, Bids, Side};

// The next trade of looking over, by what the displayed order in it does.
#[derive(Clone, Copy)]
pub enum Pair {
    Sale(Trade),
    Purchase(Trade),
}

impl Pair {
    fn trade(self) -> Trade
        ensures { result ≡ trade_in self }
    {
        match self {
            Pair::Sale(trade) | Pair::Purchase(trade) => trade,
        }
    }
}

// The trade of the front displayed order with the front dark order against it, if there is one. Size does not count here.
fn front_pair<S: Side, D: Book, K: Book<Side = S>>(
    best: &BestPrices,
    displayed: &D,
    dark: &K,
) -> Option<Trade>
    ensures { result ≡ pair S.Side.rule best.now.increment best.now.quote (D.Book.orders displayed.now) (K.Book.orders dark.now) }
{
    let d = displayed.front()?;
    let k = dark.front()?;
    let trades = at_or_ahead::<S>(k.price, d.price) && best.is_better::<S>(k.price);
    trades.then(|| Trade {
        active: d.number,
        standing: k.number,
        price: k.price,
        shares: d.shares.min(k.shares),
        dark: true,
    })
}

// A sale pair, or else a purchase pair.
fn next_pair<
    DB: Book<Side = Bids>,
    DA: Book<Side = Asks>,
    KB: Book<Side = Bids>,
    KA: Book<Side = Asks>,
>(away: &BestPrices, bids: &DB, asks: &DA, dark_bids: &KB, dark_asks: &KA) -> Option<Pair>
    ensures { result ≡ pair_in away.now.increment away.now.quote (record { bids = DB.Book.orders bids.now; asks = DA.Book.orders asks.now; dark_bids = KB.Book.orders dark_bids.now; dark_asks = KA.Book.orders dark_asks.now }) }
{
    let best = away.joined(Quote {
        bid: front_price(bids),
        ask: front_price(asks),
    });
    let sale = front_pair::<Bids, DA, KB>(&best, asks, dark_bids);
    let purchase = || front_pair::<Asks, DB, KA>(&best, bids, dark_asks);
    sale.map(Pair::Sale)
        .or_else(|| purchase().map(Pair::Purchase))
}

// Takes the shares of a pair's trade from the front of both books.
fn take_paired<D: Book, K: Book>(shares: u32, displayed: &mut D, dark: &mut K)
    ensures displayed { D.Book.orders displayed.new ≡ (taken (D.Book.orders displayed.old) shares).list }
    ensures dark { K.Book.orders dark.new ≡ (taken (K.Book.orders dark.old) shares).list }
    ensures displayed_places { D.Book.room displayed.new ≡ D.Book.room displayed.old }
    ensures dark_places { K.Book.room dark.new ≡ K.Book.room dark.old }
{
    // a take that is refused leaves its book as it was, as the definition has it
    let _ = displayed.take(shares);
    let _ = dark.take(shares);
}

// Trades a pair, from the asks and the dark bids or from the bids and the dark asks.
fn trade_pair<
    DB: Book<Side = Bids>,
    DA: Book<Side = Asks>,
    KB: Book<Side = Bids>,
    KA: Book<Side = Asks>,
>(pair: Pair, bids: &mut DB, asks: &mut DA, dark_bids: &mut KB, dark_asks: &mut KA)
    ensures books { ◌≡◌ {A = Books} (record { bids = DB.Book.orders bids.new; asks = DA.Book.orders asks.new; dark_bids = KB.Book.orders dark_bids.new; dark_asks = KA.Book.orders dark_asks.new }) (paired pair (record { bids = DB.Book.orders bids.old; asks = DA.Book.orders asks.old; dark_bids = KB.Book.orders dark_bids.old; dark_asks = KA.Book.orders dark_asks.old })) }
    ensures displayed_places { (DB.Book.room bids.new ≡ DB.Book.room bids.old) × (DA.Book.room asks.new ≡ DA.Book.room asks.old) }
    ensures dark_places { (KB.Book.room dark_bids.new ≡ KB.Book.room dark_bids.old) × (KA.Book.room dark_asks.new ≡ KA.Book.room dark_asks.old) }
{
    match pair {
        Pair::Sale(trade) => take_paired(trade.shares, asks, dark_bids),
        Pair::Purchase(trade) => take_paired(trade.shares, bids, dark_asks),
    }
}

// Trades pair after pair until none is left, writes the trades to the front of the list, and answers how many they are.
// The four books are lent one by one, so that whoever has only borrowed ones can look over them.
pub fn look_over<
    DB: Book<Side = Bids>,
    DA: Book<Side = Asks>,
    KB: Book<Side = Bids>,
    KA: Book<Side = Asks>,
>(
    away: BestPrices,
    bids: &mut DB,
    asks: &mut DA,
    dark_bids: &mut KB,
    dark_asks: &mut KA,
    list: &mut [Trade],
) -> usize
    ensures looks { Looks (looked away.increment away.quote (record { bids = DB.Book.orders bids.old; asks = DA.Book.orders asks.old; dark_bids = KB.Book.orders dark_bids.old; dark_asks = KA.Book.orders dark_asks.old })) (record { bids = DB.Book.orders bids.new; asks = DA.Book.orders asks.new; dark_bids = KB.Book.orders dark_bids.new; dark_asks = KA.Book.orders dark_asks.new }) list.old list.new result }
    ensures displayed_places { (DB.Book.room bids.new ≡ DB.Book.room bids.old) × (DA.Book.room asks.new ≡ DA.Book.room asks.old) }
    ensures dark_places { (KB.Book.room dark_bids.new ≡ KB.Book.room dark_bids.old) × (KA.Book.room dark_asks.new ≡ KA.Book.room dark_asks.old) }
{
    // counted by hand: the count is the answer, and names the record
    let mut trades = 0;
    while let Some(pair) = next_pair(&away, bids, asks, dark_bids, dark_asks) {
        trade_pair(pair, bids, asks, dark_bids, dark_asks);
        write_trade(list, trades, pair.trade());
        trades += 1;
    }
    trades
}
