// What a member writes on an order form, before it is checked.

// The side of an order or a quote: a buy stands among the bids, a sale among the asks.
#[derive(Clone, Copy, PartialEq, Eq)]
pub enum SideName {
    Bid,
    Ask,
}

#[derive(Clone, Copy, PartialEq, Eq)]
pub enum Kind {
    Displayed,
    Dark,
    // dark, at half an increment behind the limit
    HalfStep,
}

#[derive(Clone, Copy, PartialEq, Eq)]
pub struct Terms {
    pub side: SideName,
    pub limit: u32,
    pub shares: u32,
    pub kind: Kind,
    // what does not trade on entry is cancelled
    pub immediate: bool,
    // a directed action order: the member answers for other marketplaces' quotes
    pub directed: bool,
}
