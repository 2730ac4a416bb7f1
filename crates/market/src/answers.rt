// What the calls of a market answer. Each count of trades is of all the records that the call wrote.
use matching::way::Way;

// The order's number, what matching traded, what was booked and cancelled of the rest, and the way in which it ended.
#[derive(Clone, Copy)]
pub struct Entered {
    pub number: u32,
    pub traded: u32,
    pub booked: u32,
    pub cancelled: u32,
    pub way: Way,
    pub trades: usize,
}

#[derive(Clone, Copy)]
pub struct Cancelled {
    pub shares: u32,
    pub trades: usize,
}

// How many of the eight marketplaces are aside.
#[derive(Clone, Copy)]
pub struct Aside {
    pub count: u32,
    pub trades: usize,
}
