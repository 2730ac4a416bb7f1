// The quotes of the eight other marketplaces, and which of them are set aside.
ghost use Rattle.std.specs.Prelude.{◌≡◌, replicate, count_ones};
ghost use Rattle.market.specs.Quoting.{no_quote, away_of, quoted, dropped, is_aside, with_aside};

use crate::marketplace::Marketplace;
use rules::price::Quote;
use rules::terms::SideName;

// The marks of the eight stand in one byte, whose ones are counted: a form that the rules of the market name.
#[derive(Drop)]
pub(crate) struct Quotes {
    // of marketplace 1 first
    pub(crate) quotes: [Quote; 8],
    // a bit for each marketplace, the lowest for marketplace 1
    pub(crate) aside: u8,
}

fn away_best(quotes: &[Quote]) -> Quote
    ensures { result ≡ away_of quotes.now }
{
    let mut best = Quote::default();
    for quote in quotes {
        best = Quote::best(best, *quote);
    }
    best
}

impl Quotes {
    // no derived default: a clause says what is made
    pub(crate) fn new() -> Quotes
        ensures quotes { result.quotes ≡ replicate 8 no_quote }
        ensures aside { result.aside ≡ 0 }
    {
        Quotes {
            quotes: [Quote::default(); 8],
            aside: 0,
        }
    }

    // The best quotes, on each side.
    pub(crate) fn away(&self) -> Quote
        ensures { result ≡ away_of self.now.quotes }
    {
        away_best(&self.quotes)
    }

    pub(crate) fn is_aside(&self, marketplace: Marketplace) -> bool
        ensures { result ≡ is_aside marketplace.number self.now.aside }
    {
        self.aside & marketplace.bit() != 0
    }

    // Replaces what stood.
    pub(crate) fn put(&mut self, marketplace: Marketplace, side: SideName, price: Option<u32>)
        ensures quotes { self.new.quotes ≡ quoted marketplace.number side price self.old.quotes }
        ensures aside { self.new.aside ≡ self.old.aside }
    {
        let at = marketplace.index();
        self.quotes[at] = self.quotes[at].with(side, price);
    }

    // Drops the marketplace's quotes, and answers how many are aside then.
    pub(crate) fn set_aside(&mut self, marketplace: Marketplace) -> u32
        ensures quotes { self.new.quotes ≡ dropped marketplace.number self.old.quotes }
        ensures aside { self.new.aside ≡ with_aside marketplace.number self.old.aside }
        ensures count { result ≡ count_ones (with_aside marketplace.number self.old.aside) }
    {
        self.quotes[marketplace.index()] = Quote::default();
        self.aside |= marketplace.bit();
        self.aside.count_ones()
    }
}
