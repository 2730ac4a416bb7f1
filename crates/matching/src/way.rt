// How what is left of an entry ends.
ghost use Rattle.std.specs.Prelude.{◌≡◌, Some, decimal};
ghost use Rattle.matching.specs.Ways.{way_number, way_booked, way_cancelled, reached, way_of};

use crate::candidate::at_or_ahead;
use rules::side::Side;
use std::fmt;

#[derive(Clone, Copy, PartialEq, Eq)]
pub enum Way {
    Filled = 1,
    Booked = 2,
    // immediate, so what is left is cancelled
    Immediate = 3,
    // cancelled at or through the away best
    AwayBest = 4,
    // a displayed rest, cancelled at or through our own front
    OwnFront = 5,
}

// What decides the way: what is left of the order, and the prices on the other side. Not the entry itself: its number,
// its size and its shares decide nothing here.
#[derive(Clone, Copy)]
pub struct Rest {
    pub shares: u32,
    pub immediate: bool,
    pub directed: bool,
    pub displayed: bool,
    pub bound: u32,
    pub away: Option<u32>,
    pub front: Option<u32>,
}

// Whether the price exists and is at the bound or ahead of it.
fn reached<S: Side>(bound: u32, price: Option<u32>) -> bool
    ensures { result ≡ reached S.Side.rule bound price }
{
    price.is_some_and(|p| at_or_ahead::<S>(p, bound))
}

// S is the side of the orders that the entry met.
pub fn way_of<S: Side>(rest: Rest) -> Way
    ensures { result ≡ way_of S.Side.rule rest }
{
    if rest.shares == 0 {
        Way::Filled
    } else if rest.immediate {
        Way::Immediate
    } else if !rest.directed && reached::<S>(rest.bound, rest.away) {
        Way::AwayBest
    } else if rest.displayed && reached::<S>(rest.bound, rest.front) {
        Way::OwnFront
    } else {
        Way::Booked
    }
}

impl Way {
    pub fn number(self) -> u8
        ensures { result ≡ way_number self }
    {
        self as u8
    }

    // How many of the shares that are left are booked.
    pub fn booked(self, rest: u32) -> u32
        ensures { result ≡ way_booked self rest }
    {
        match self {
            Way::Booked => rest,
            _ => 0,
        }
    }

    // How many of them are cancelled.
    pub fn cancelled(self, rest: u32) -> u32
        ensures { result ≡ way_cancelled self rest }
    {
        match self {
            Way::Filled | Way::Booked => 0,
            _ => rest,
        }
    }
}

// As a refusal prints its number: two enums of a line each, and no trait over both.
impl fmt::Display for Way {
    ghost output = { λ way. Some (decimal (way_number way)) };

    fn fmt<W: fmt::Write>(&self, f: &mut fmt::Formatter<W>) -> fmt::Result {
        let number = self.number();
        write!(f, "{number}")
    }
}
