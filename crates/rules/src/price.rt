// Best prices, the improvement, and better prices.
ghost use Rattle.std.specs.Prelude.{◌≡◌, ℕ, ◌<◌, Some};
ghost use Rattle.rules.specs.Better.{on, placed, with_price, first_of, best_of, improvement_at, better, threshold, meets, threshold_text};

use crate::side::{Asks, Bids, Side};
use crate::terms::SideName;
use std::fmt;

// A bid and an ask, either of which may be absent.
#[derive(Clone, Copy, PartialEq, Eq, Default)]
pub struct Quote {
    pub bid: Option<u32>,
    pub ask: Option<u32>,
}

// The best prices, in a market of that increment.
#[derive(Clone, Copy, PartialEq, Eq)]
pub struct BestPrices {
    pub increment: u32,
    pub quote: Quote,
}

// From which price on, in the side's order, a price is better. Three cases, where an Option has two.
#[derive(Clone, Copy, PartialEq, Eq)]
pub enum Threshold {
    Any,
    Never,
    From(u64),
}

impl Quote {
    pub fn on(&self, side: SideName) -> Option<u32>
        ensures { result ≡ on side self.now }
    {
        match side {
            SideName::Bid => self.bid,
            SideName::Ask => self.ask,
        }
    }

    // The quote whose price on this side is own.
    pub fn placed(side: SideName, own: Option<u32>, other: Option<u32>) -> Quote
        ensures { result ≡ placed side own other }
    {
        match side {
            SideName::Bid => Quote {
                bid: own,
                ask: other,
            },
            SideName::Ask => Quote {
                bid: other,
                ask: own,
            },
        }
    }

    // This quote with another price on that side.
    pub fn with(self, side: SideName, price: Option<u32>) -> Quote
        ensures { result ≡ with_price side price self }
    {
        match side {
            SideName::Bid => Quote { bid: price, ..self },
            SideName::Ask => Quote { ask: price, ..self },
        }
    }

    // The best prices: on each side the first of our own displayed price and the away best.
    pub fn best(ours: Quote, away: Quote) -> Quote
        ensures { result ≡ best_of ours away }
    {
        Quote {
            bid: first::<Bids>(ours.bid, away.bid),
            ask: first::<Asks>(ours.ask, away.ask),
        }
    }
}

// Of two prices that may be absent, the one that comes first.
pub fn first<S: Side>(a: Option<u32>, b: Option<u32>) -> Option<u32>
    ensures { result ≡ first_of S.Side.rule a b }
{
    match (a, b) {
        (None, _) => b,
        (Some(_), None) => a,
        (Some(p), Some(q)) => Some(if S::comes_first(q, p) { q } else { p }),
    }
}

impl BestPrices {
    // The best of these prices, those of others, and of our own displayed ones.
    pub fn joined(&self, ours: Quote) -> BestPrices
        ensures { result ≡ record { increment = self.now.increment; quote = best_of ours self.now.quote } }
    {
        BestPrices {
            increment: self.increment,
            quote: Quote::best(ours, self.quote),
        }
    }

    // By how much a price must be ahead of the best one to be better.
    pub fn improvement(&self) -> u32
        ensures { result ≡ improvement_at self.now.increment self.now.quote }
    {
        // Sums, never differences: ask minus bid is negative in a crossed market.
        let one_apart = |(bid, ask): (u32, u32)| ask as u64 == bid as u64 + self.increment as u64;
        if self.quote.bid.zip(self.quote.ask).is_some_and(one_apart) {
            self.increment / 2
        } else {
            self.increment
        }
    }

    // Whether a price is better for an order that trades with a standing order of side S: of the bids for a sale, of the asks for a purchase.
    pub fn is_better<S: Side>(&self, price: u32) -> bool
        ensures { result ≡ better S.Side.rule self.now.increment self.now.quote price }
    {
        let improves = |best: u32| S::improves(price, best, self.improvement());
        self.quote.on(S::name()).is_none_or(improves)
    }

    // From which price on a price is better.
    pub fn better_from<S: Side>(&self) -> Threshold
        ensures value { result ≡ threshold S.Side.rule self.now.increment self.now.quote }
        ensures exact { (p : ℕ) → 0 < p → meets S.Side.rule result p ≡ better S.Side.rule self.now.increment self.now.quote p }
    {
        let Some(best) = self.quote.on(S::name()) else {
            return Threshold::Any;
        };
        S::edge(best, self.improvement()).map_or(Threshold::Never, Threshold::From)
    }
}

impl fmt::Display for Threshold {
    ghost output = { λ t. Some (threshold_text t) };

    fn fmt<W: fmt::Write>(&self, f: &mut fmt::Formatter<W>) -> fmt::Result {
        match *self {
            Threshold::Any => write!(f, "any"),
            Threshold::Never => write!(f, "none"),
            Threshold::From(price) => write!(f, "{price}"),
        }
    }
}
