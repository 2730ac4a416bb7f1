// Why a call is refused. RULES.md, "Refusals", has the order in which each call checks.
ghost use Rattle.std.specs.Prelude.{◌≡◌, Some, decimal};
ghost use Rattle.rules.specs.Refusals.{refusal_number};

use std::fmt;

#[derive(Clone, Copy, PartialEq, Eq)]
pub enum Refusal {
    // a day sheet's closing price is 0 or above 4,000,000
    BadClosingPrice = 1,
    // a day sheet's last order number is 0
    NoOrderNumbers = 2,
    // a form's price is not valid
    BadPrice = 3,
    // a form's quantity is not valid
    BadQuantity = 4,
    // an order to add has number, price or shares 0, shares above 10,000,000, or a number that stands in the book
    BadOrder = 5,
    // every place of the book is taken
    BookFull = 6,
    // no order stands, or the shares to take are 0 or above the front order's
    BadTake = 7,
    // the number does not stand in the book, or for a cancel in none of the four
    NotStanding = 8,
    // the market is closed
    MarketClosed = 9,
    // the market is halted
    MarketHalted = 10,
    // the form's increment or unit is not the market's
    OtherClass = 11,
    // the last order number is already issued
    NumbersIssued = 12,
    // the order's own book is full and the order is not immediate
    OwnBookFull = 13,
    // the marketplace is not 1 to 8
    NoMarketplace = 14,
    // the marketplace is already set aside
    AlreadyAside = 15,
    // a quoted price is not valid
    BadQuotePrice = 16,
    // the phase is not open for a halt, or not halted for a resumption
    WrongPhase = 17,
    // the trade list is shorter than the count of standing orders
    ShortTradeList = 18,
}

impl Refusal {
    // The number by which members and operators know the refusal.
    pub fn number(self) -> u8
        ensures { result ≡ refusal_number self }
    {
        self as u8
    }
}

impl fmt::Display for Refusal {
    ghost output = { λ refusal. Some (decimal (refusal_number refusal)) };

    fn fmt<W: fmt::Write>(&self, f: &mut fmt::Formatter<W>) -> fmt::Result {
        let number = self.number();
        write!(f, "{number}")
    }
}
