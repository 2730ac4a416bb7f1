// How a run is called in what is printed.
use rules::terms::SideName;
use std::fmt;

// What kind of book a run drives. A rehearsal names the same two kinds: neither program is a library of the other.
#[derive(Clone, Copy)]
pub enum Kind {
    Packed,
    // in that many records
    Chained(usize),
}

#[derive(Clone, Copy)]
pub struct Title {
    pub side: SideName,
    pub kind: Kind,
    pub seed: u32,
}

impl fmt::Display for Title {
    fn fmt<W: fmt::Write>(&self, f: &mut fmt::Formatter<W>) -> fmt::Result {
        let side = match self.side {
            SideName::Bid => "bids",
            SideName::Ask => "asks",
        };
        let seed = self.seed;
        match self.kind {
            Kind::Packed => write!(f, "{side} packed, seed {seed}"),
            Kind::Chained(records) => write!(f, "{side} chained {records}, seed {seed}"),
        }
    }
}
