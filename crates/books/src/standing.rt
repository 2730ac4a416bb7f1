// An order as it stands in a book.
ghost use Rattle.std.specs.Prelude.{◌≡◌, ◌&&◌, nat_le};
ghost use Rattle.books.specs.Lists.{sound};

use rules::sheet::MOST_SHARES;

#[derive(Clone, Copy, PartialEq, Eq)]
pub struct Standing {
    pub number: u32,
    pub price: u32,
    // the shares that are still open
    pub shares: u32,
}

impl Standing {
    // What stands in a place where there is no order.
    pub const BLANK: Standing = Standing {
        number: 0,
        price: 0,
        shares: 0,
    };

    // Whether a book can take the order: number, price and shares are there, and not too many shares.
    pub fn is_sound(&self) -> bool
        ensures { result ≡ sound self.now }
    {
        self.number >= 1 && self.price >= 1 && (1..=MOST_SHARES).contains(&self.shares)
    }

    // Whether so many shares can be taken from the order.
    pub(crate) fn gives(&self, shares: u32) -> bool
        ensures { result ≡ (nat_le 1 shares && nat_le shares self.now.shares) }
    {
        (1..=self.shares).contains(&shares)
    }
}
